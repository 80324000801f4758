ghost use Rattle.std.specs.Prelude.{◌≡◌, string_bytes};
ghost use Rattle.std.specs.List.{list_all};
ghost use Rattle.std.specs.BTreeMap.{keys};
ghost use Rattle.toml.specs.View.{view, table_view};
ghost use Rattle.std.specs.Option.{option_map};
ghost use Rattle.profile_rules.specs.Keys.{key_text, is_among, has_only, value_at};

use toml::{Table, Value};

/// The keys of a profile's tables.
#[derive(Clone, Copy, Debug, PartialEq, Eq)]
pub enum Key {
    Format,
    Name,
    Minzoom,
    Maxzoom,
    Layer,
    Rule,
    Id,
    Buffer,
    Tolerance,
    Kind,
    When,
    Order,
    Attributes,
    TagKey,
    Form,
    Value,
}

impl Key {
    #[tactic(auto, unfolding(crate::specs::Keys::key_text))]
    pub fn text(self) -> &'static str
        ensures { result.now ≡ key_text self }
    {
        match self {
            Key::Format => "format",
            Key::Name => "name",
            Key::Minzoom => "minzoom",
            Key::Maxzoom => "maxzoom",
            Key::Layer => "layer",
            Key::Rule => "rule",
            Key::Id => "id",
            Key::Buffer => "buffer",
            Key::Tolerance => "tolerance",
            Key::Kind => "kind",
            Key::When => "when",
            Key::Order => "order",
            Key::Attributes => "attributes",
            Key::TagKey => "key",
            Key::Form => "form",
            Key::Value => "value",
        }
    }
}

/// The keys that the top table may have.
pub const TOP_KEYS: [Key; 6] = [
    Key::Format,
    Key::Name,
    Key::Minzoom,
    Key::Maxzoom,
    Key::Layer,
    Key::Rule,
];

/// The keys that a layer may have.
pub const LAYER_KEYS: [Key; 3] = [Key::Id, Key::Buffer, Key::Tolerance];

/// The keys that a rule may have.
pub const RULE_KEYS: [Key; 7] = [
    Key::Layer,
    Key::Kind,
    Key::When,
    Key::Minzoom,
    Key::Maxzoom,
    Key::Order,
    Key::Attributes,
];

/// The keys that an attribute may have.
pub const ATTRIBUTE_KEYS: [Key; 4] = [Key::TagKey, Key::Name, Key::Form, Key::Value];

/// Whether a table has none but these keys.
pub fn has_only(known: &[Key], table: &Table) -> bool
    ensures { result ≡ has_only known.now (table_view table.now) }
{
    all_among(known, table)
}

// Whether all keys of a table are among these.
fn all_among(known: &[Key], table: &Table) -> bool
    ensures { result ≡ list_all (λ name. is_among known.now (string_bytes name)) (keys table.now) }
{
    table.keys().all(|name| is_among(known, name.as_str()))
}

fn is_among(known: &[Key], name: &str) -> bool
    ensures { result ≡ is_among known.now name.now }
{
    known.iter().any(|key| key.text() == name)
}

/// What stands at a key.
pub fn value_at<'a>(table: &'a Table, key: Key) -> Option<&'a Value>
    ensures { option_map (λ v. view v.now) result ≡ value_at key (table_view table.now) }
{
    table.get(key.text())
}

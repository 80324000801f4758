ghost use Rattle.std.specs.Prelude.{◌≡◌, [], ◌∷◌, map, string_bytes, IfOk};
ghost use Rattle.std.specs.Option.{option_map};
ghost use Rattle.build_cli.specs.Command.{command_of, seen_rules};
ghost use Rattle.build_cli.specs.Names.{names_of, profile_name};

use crate::command::{Command, Rules, command_of};
use std::alloc::Global;
use tb_types::{Memory, Seq, Text};

/// The names of the files that a command speaks of. A name that it doesn't give is an empty text.
#[derive(Debug, Drop)]
pub struct Names {
    /// The profile.
    pub profile: Text,
    /// The extract or the archive that is read, once for each lane.
    pub readers: Seq<Text>,
    /// The archive or the extract that is written.
    pub output: Text,
}

/// The names of a command's files, or `None` exactly where the words are no command.
pub fn names_of(alloc: Global, words: &[String]) -> Result<Option<Names>, Memory>
    ensures { IfOk result (λ names. names ≡ option_map names_of (command_of (map (λ word. string_bytes word) words.now))) }
{
    match command_of(words) {
        None => Ok(None),
        Some(
            Command::Build {
                rules,
                extract,
                archive,
                ..
            },
        ) => Ok(Some(named(alloc, profile_name(rules), extract, archive)?)),
        Some(Command::Check { archive }) => Ok(Some(named(alloc, "", archive, "")?)),
        Some(Command::Show { archive, .. }) => Ok(Some(named(alloc, "", archive, "")?)),
        Some(Command::Generate { extract, .. }) => Ok(Some(named(alloc, "", "", extract)?)),
        Some(Command::Trial { archive, .. }) => Ok(Some(named(alloc, "", "", archive)?)),
    }
}

// The name of the file of the rules, if they are in one.
fn profile_name(rules: Rules<'_>) -> &str
    ensures { result.now ≡ profile_name (seen_rules rules.entry) }
{
    match rules {
        Rules::Key(_) => "",
        Rules::Profile(name) => name,
    }
}

// The names of a command that reads one file or none.
fn named(alloc: Global, profile: &str, reader: &str, output: &str) -> Result<Names, Memory>
    ensures { IfOk result (λ names. names ≡ record { profile = profile.now; readers = reader.now ∷ []; output = output.now }) }
{
    let mut readers = Seq::new(alloc);
    readers.push(Text::copy_of(alloc, reader)?)?;
    Ok(Names {
        profile: Text::copy_of(alloc, profile)?,
        readers,
        output: Text::copy_of(alloc, output)?,
    })
}

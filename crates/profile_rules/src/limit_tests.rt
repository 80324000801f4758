//! Texts and lists that are as long as they may be, and longer.

use crate::fault_tests::{bad, fault_of, is_answered};
use crate::{Part, ProfileWhy, worked_profiles};
use std::alloc::{AllocError, Global};
use std::test::Fail;

const RULE: &str = "format = 1\n[[layer]]\nid = \"a\"\n[[rule]]\nlayer = \"a\"\nkind = \"line\"\n";

/// A text with a piece in it so often; what is then wrong with a part of it, if anything is, and with one piece more.
/// The texts of rules go behind `RULE`.
type Row = (
    &'static str,
    &'static str,
    usize,
    &'static str,
    Part,
    Option<ProfileWhy>,
    Option<ProfileWhy>,
);

/// Texts with a piece in them as often as a limit allows.
const LIMITS: [Row; 10] = [
    (
        "#",
        "#",
        70_000,
        "\nformat = 1\nlayer = [{ id = \"a\" }]",
        Part::Top,
        None,
        None,
    ),
    (
        "#",
        "#",
        1_048_576 - 38,
        "\nformat = 2\nlayer = [{ id = \"abcd\" }]",
        Part::Top,
        Some(ProfileWhy::Format),
        Some(ProfileWhy::Long),
    ),
    (
        "format = 1\nname = \"",
        "n",
        1024,
        "\"\nlayer = [{ id = \"a\" }]",
        Part::Top,
        None,
        Some(ProfileWhy::Range),
    ),
    (
        "format = 1\n[[layer]]\nid = \"",
        "i",
        1024,
        "\"",
        Part::Layer,
        None,
        Some(ProfileWhy::Range),
    ),
    // 63 layers, and one more
    (
        "format = 1\nlayer = [{id=\"a\"},{id=\"b\"},{id=\"c\"},{id=\"d\"},{id=\"e\"},{id=\"f\"},{id=\"g\"},{id=\"h\"},{id=\"i\"},{id=\"j\"},{id=\"k\"},{id=\"l\"},{id=\"m\"},{id=\"n\"},{id=\"o\"},{id=\"p\"},{id=\"q\"},{id=\"r\"},{id=\"s\"},{id=\"t\"},{id=\"u\"},{id=\"v\"},{id=\"w\"},{id=\"x\"},{id=\"y\"},{id=\"z\"},{id=\"A\"},{id=\"B\"},{id=\"C\"},{id=\"D\"},{id=\"E\"},{id=\"F\"},{id=\"G\"},{id=\"H\"},{id=\"I\"},{id=\"J\"},{id=\"K\"},{id=\"L\"},{id=\"M\"},{id=\"N\"},{id=\"O\"},{id=\"P\"},{id=\"Q\"},{id=\"R\"},{id=\"S\"},{id=\"T\"},{id=\"U\"},{id=\"V\"},{id=\"W\"},{id=\"X\"},{id=\"Y\"},{id=\"Z\"},{id=\"0\"},{id=\"1\"},{id=\"2\"},{id=\"3\"},{id=\"4\"},{id=\"5\"},{id=\"6\"},{id=\"7\"},{id=\"8\"},{id=\"9\"},{id=\"_\"},",
        "{id=\"..\"},",
        1,
        "]",
        Part::Top,
        None,
        Some(ProfileWhy::Range),
    ),
    (
        "format = 1\nlayer = [{ id = \"a\" }]\n",
        "[[rule]]\nlayer = \"a\"\nkind = \"area\"\n",
        1024,
        "",
        Part::Top,
        None,
        Some(ProfileWhy::Range),
    ),
    (
        "when = [",
        "\"k\",",
        16,
        "]",
        Part::Rule,
        None,
        Some(ProfileWhy::Range),
    ),
    (
        "when = [\"",
        "k",
        1024,
        "\"]",
        Part::Rule,
        None,
        Some(ProfileWhy::Range),
    ),
    // 63 attributes, and one more
    (
        "attributes = [{key=\"a\"},{key=\"b\"},{key=\"c\"},{key=\"d\"},{key=\"e\"},{key=\"f\"},{key=\"g\"},{key=\"h\"},{key=\"i\"},{key=\"j\"},{key=\"k\"},{key=\"l\"},{key=\"m\"},{key=\"n\"},{key=\"o\"},{key=\"p\"},{key=\"q\"},{key=\"r\"},{key=\"s\"},{key=\"t\"},{key=\"u\"},{key=\"v\"},{key=\"w\"},{key=\"x\"},{key=\"y\"},{key=\"z\"},{key=\"A\"},{key=\"B\"},{key=\"C\"},{key=\"D\"},{key=\"E\"},{key=\"F\"},{key=\"G\"},{key=\"H\"},{key=\"I\"},{key=\"J\"},{key=\"K\"},{key=\"L\"},{key=\"M\"},{key=\"N\"},{key=\"O\"},{key=\"P\"},{key=\"Q\"},{key=\"R\"},{key=\"S\"},{key=\"T\"},{key=\"U\"},{key=\"V\"},{key=\"W\"},{key=\"X\"},{key=\"Y\"},{key=\"Z\"},{key=\"0\"},{key=\"1\"},{key=\"2\"},{key=\"3\"},{key=\"4\"},{key=\"5\"},{key=\"6\"},{key=\"7\"},{key=\"8\"},{key=\"9\"},{key=\"_\"},",
        "{key=\"..\"},",
        1,
        "]",
        Part::Rule,
        None,
        Some(ProfileWhy::Range),
    ),
    (
        "attributes = [{ name = \"n\", value = \"",
        "v",
        1024,
        "\" }]",
        Part::Rule,
        None,
        Some(ProfileWhy::Range),
    ),
];

// What stands before the text of a row.
fn before(part: Part) -> &'static str {
    match part {
        Part::Rule => RULE,
        _ => "",
    }
}

// Whether a row's text has this fault, or is read, where the piece stands so often in it.
fn is_so(
    alloc: Global,
    row: &Row,
    count: usize,
    why: Option<ProfileWhy>,
) -> Result<bool, AllocError> {
    let (front, piece, _, back, part, _, _) = *row;
    let pieces = piece.repeat(alloc, count)?;
    let want = match why {
        Some(why) => bad(part, 0, why),
        None => None,
    };
    is_answered(alloc, &[before(part), front, pieces.as_str(), back], want)
}

// The number of the first row that is answered otherwise.
fn first_wrong(alloc: Global, rows: &[Row]) -> Result<Option<usize>, AllocError> {
    for i in 0..rows.len() {
        let row = &rows[i];
        let most = row.2;
        if !is_so(alloc, row, most, row.5)? || !is_so(alloc, row, most.saturating_add(1), row.6)? {
            return Ok(Some(i));
        }
    }
    Ok(None)
}

#[test]
fn limits_are_reached(rt: HostRuntime) -> Result<(), Fail> {
    let wrong = first_wrong(rt.alloc(), &LIMITS)?;
    assert!(rt; wrong.is_none(), "{wrong:?}");
    Ok(())
}

#[test]
fn bytes_are_text(rt: HostRuntime) -> Result<(), Fail> {
    let got = fault_of(rt.alloc(), b"\xff");
    assert!(rt; got == bad(Part::Top, 0, ProfileWhy::Toml), "{got:?}");
    Ok(())
}

#[test]
fn worked_profiles_are_as_said(_rt: HostRuntime) -> Result<(), Fail> {
    worked_profiles();
    Ok(())
}

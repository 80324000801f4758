ghost use Rattle.std.specs.Prelude.{◌≡◌, ◌++◌, OnOk};
ghost use Rattle.archive_text.specs.Show.{form_text, id_text, ints_text, shape_text, last_text, row_text};

use crate::attributes::attributes_text;
use crate::number::put_number;
use mvt_codec::TileRow;
use std::alloc::Global;
use tb_types::{Memory, Text};

/// Adds the line of a feature: its type, its id or `-` where none is written, its geometry integers and its attributes.
#[tactic(auto, unfolding(crate::specs::Show::row_text))]
pub fn put_row(alloc: Global, out: &mut Text, row: &TileRow) -> Result<(), Memory>
    ensures { OnOk result (out.new ≡ out.old ++ row_text row.now) }
{
    put_shape(out, row)?;
    put_ints(out, row.ints.as_slice())?;
    let attributes = attributes_text(alloc, row.attributes.as_slice())?;
    put_last(out, &attributes)
}

// Adds the type and the id of a feature, each with a blank behind it.
#[tactic(auto, unfolding(crate::specs::Show::shape_text))]
fn put_shape(out: &mut Text, row: &TileRow) -> Result<(), Memory>
    ensures { OnOk result (out.new ≡ out.old ++ shape_text row.now) }
{
    out.push_str(form_text(row.form))?;
    out.push_str(" ")?;
    put_id(out, row.id)?;
    out.push_str(" ")
}

// Adds the last text of a line.
#[tactic(auto, unfolding(crate::specs::Show::last_text))]
fn put_last(out: &mut Text, text: &str) -> Result<(), Memory>
    ensures { OnOk result (out.new ≡ out.old ++ last_text text.now) }
{
    out.push_str(" ")?;
    out.push_str(text)?;
    out.push_str("\n")
}

// The name of a feature's type.
fn form_text(form: u8) -> &'static str
    ensures { result.now ≡ form_text form }
{
    match form {
        1 => "point",
        2 => "line",
        3 => "polygon",
        _ => "unknown",
    }
}

fn put_id(out: &mut Text, id: u64) -> Result<(), Memory>
    ensures { OnOk result (out.new ≡ out.old ++ id_text id) }
{
    if id == 0 {
        out.push_str("-")
    } else {
        put_number(out, u128::from(id))
    }
}

// Adds integers with commas between them.
fn put_ints(out: &mut Text, ints: &[u32]) -> Result<(), Memory>
    ensures { OnOk result (out.new ≡ out.old ++ ints_text ints.now) }
{
    match ints.split_first() {
        None => Ok(()),
        Some((first, later)) => {
            put_number(out, u128::from(*first))?;
            for n in later {
                out.push_str(",")?;
                put_number(out, u128::from(*n))?;
            }
            Ok(())
        }
    }
}

ghost use Rattle.std.specs.Prelude.{◌≡◌, ◌++◌, IfOk, OnOk};
ghost use Rattle.archive_text.specs.Show.{head_text, layer_text, layers_text};

use crate::number::put_number;
use crate::row::put_row;
use mvt_codec::LayerRows;
use std::alloc::Global;
use tb_types::{Memory, Text};

/// The text of a tile's layers.
pub fn layers_text(alloc: Global, layers: &[LayerRows]) -> Result<Text, Memory>
    ensures { IfOk result (λ text. text ≡ layers_text layers.now) }
{
    let mut text = Text::new(alloc);
    for layer in layers {
        put_layer(alloc, &mut text, layer)?;
    }
    Ok(text)
}

// Adds the line of a layer, and under it one for each feature.
fn put_layer(alloc: Global, out: &mut Text, layer: &LayerRows) -> Result<(), Memory>
    ensures { OnOk result (out.new ≡ out.old ++ layer_text layer.now) }
{
    put_head(out, layer)?;
    let rows = layer.rows.as_slice();
    for row in rows {
        put_row(alloc, out, row)?;
    }
    Ok(())
}

// Adds the line of a layer: its name and how many features it has.
#[tactic(auto, unfolding(crate::specs::Show::head_text))]
fn put_head(out: &mut Text, layer: &LayerRows) -> Result<(), Memory>
    ensures { OnOk result (out.new ≡ out.old ++ head_text layer.now) }
{
    out.push_str("layer ")?;
    out.push_str(layer.name.as_str())?;
    out.push_str(" ")?;
    put_number(out, layer.rows.as_slice().len() as u128)?;
    out.push_str("\n")
}

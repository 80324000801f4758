ghost use Rattle.std.specs.Prelude.{◌≡◌, ◌++◌, IfOk, OnOk};
ghost use Rattle.archive_text.specs.Check.{part_text, totals_text, check_text};
ghost use Rattle.archive_text.specs.Answers.{LookAnswers};

use crate::contents::count_contents;
use crate::number::put_number;
use crate::totals::Totals;
use pmtiles_read::{ReadErr, open_archive};
use std::alloc::Global;
use tb_outside::Source;
use tb_types::{Memory, Text};

/// What an archive holds, as one line: its tiles, its entries that name tiles, its contents, which differ in their place or their
/// length, and the features of all its tiles.
///
/// Where the source tells its bytes, `Bad` comes exactly with the archive's first fault: that of its header or directories,
/// or else the first entry whose content is no tile. `Failed` comes only where the source's count of faults rose.
pub fn check_archive<R: Source>(alloc: Global, source: &mut R) -> Result<Text, ReadErr>
    ensures { LookAnswers check_text (R.seen source.old) (R.seen source.new) result }
{
    let archive = match open_archive(alloc, source) {
        Ok(archive) => archive,
        Err(e) => return Err(e),
    };
    let totals = match count_contents(alloc, source, &archive) {
        Ok(totals) => totals,
        Err(e) => return Err(e),
    };
    let text = totals_text(alloc, totals)?;
    Ok(text)
}

// The line that tells what an archive holds.
#[tactic(auto, unfolding(crate::specs::Check::totals_text))]
fn totals_text(alloc: Global, totals: Totals) -> Result<Text, Memory>
    ensures { IfOk result (λ text. text ≡ totals_text totals) }
{
    let mut text = Text::new(alloc);
    put_part(&mut text, "archive: tiles ", totals.tiles)?;
    put_part(&mut text, ", entries ", u128::from(totals.entries))?;
    put_part(&mut text, ", contents ", u128::from(totals.contents))?;
    put_part(&mut text, ", features ", totals.features)?;
    text.push_str("\n")?;
    Ok(text)
}

// Adds a number behind its label.
fn put_part(text: &mut Text, label: &str, n: u128) -> Result<(), Memory>
    ensures { OnOk result (text.new ≡ text.old ++ part_text label.now n) }
{
    text.push_str(label)?;
    put_number(text, n)
}

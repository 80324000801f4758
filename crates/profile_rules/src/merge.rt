ghost use Rattle.std.specs.Prelude.{◌≡◌, IfOk};
ghost use Rattle.profile_rules.specs.ByKey.{merged, least, without};

use std::alloc::Global;
use tb_types::Memory;

/// Both lists of ascending numbers as one, each number once.
pub(crate) fn merged(alloc: Global, xs: &[u16], ys: &[u16]) -> Result<Vec<u16>, Memory>
    ensures { IfOk result (λ all. all.items ≡ merged xs.now ys.now) }
{
    let mut all = Vec::with_capacity(alloc, xs.len().saturating_add(ys.len()))?;
    let mut left = xs;
    let mut right = ys;
    while let Some(number) = least(left, right) {
        all.push(number)?;
        left = without(number, left);
        right = without(number, right);
    }
    Ok(all)
}

// The least of the first numbers of both lists.
fn least(xs: &[u16], ys: &[u16]) -> Option<u16>
    ensures { result ≡ least xs.now ys.now }
{
    match (xs.first(), ys.first()) {
        (None, None) => None,
        (Some(x), None) => Some(*x),
        (None, Some(y)) => Some(*y),
        (Some(x), Some(y)) => Some((*x).min(*y)),
    }
}

// A list without this number at its start.
fn without(number: u16, numbers: &[u16]) -> &[u16]
    ensures { result.now ≡ without number numbers.now }
{
    match numbers.split_first() {
        Some((first, rest)) => { if *first == number { rest } else { numbers } }
        None => numbers,
    }
}

use super::{Faults, NONE, Ran, run_words};
use std::alloc::Global;
use std::test::Fail;
use tb_types::Memory;

// Tries an extract of a seed and a number of elements.
fn trial(alloc: Global, seed: &str, count: &str, faults: &Faults<'_>) -> Result<Ran, Memory> {
    let mut words = Vec::new(alloc);
    for word in ["trial", seed, count, "a"] {
        words.push(String::from_str(alloc, word)?)?;
    }
    run_words(alloc, &words, b"", b"", faults)
}

/// A seed, a number of elements, the status, the bytes of the archive and the console. Tiles and bytes are those of two models
/// that share no code with this program.
const CASES: [(&str, &str, u8, usize, &[u8]); 3] = [
    (
        "7",
        "20000",
        0,
        1_965_892,
        b"trial: 7 20000: tiles 13171, entries 13171, contents 13171, bytes 1965892\n",
    ),
    ("7", "99", 2, 0, b"words not understood\n"),
    ("7", "1000001", 2, 0, b"words not understood\n"),
];

#[test]
fn towns_are_tried(rt: HostRuntime) -> Result<(), Fail> {
    // Neither the profile's source nor the lane's reader is used.
    let ample = Faults {
        profile: &[0],
        reader: &[0],
        room: 2_000_000,
        ..NONE
    };
    for (seed, count, status, len, line) in CASES {
        let ran = trial(rt.alloc(), seed, count, &ample)?;
        assert!(rt; ran.status == status, "of {seed} and {count}");
        assert!(rt; ran.archive.bytes().len() == len, "of {seed} and {count}");
        assert!(rt; ran.console.bytes() == line, "of {seed} and {count}");
    }
    Ok(())
}

#[test]
fn the_stores_of_a_trial_fail(rt: HostRuntime) -> Result<(), Fail> {
    let spill = Faults {
        spill: &[0],
        ..NONE
    };
    let ran = trial(rt.alloc(), "7", "100", &spill)?;
    assert!(rt; ran.status == 8 && ran.console.bytes() == b"spill: lane 0\n".as_slice());
    let spool = Faults {
        spool: &[0],
        ..NONE
    };
    let ran = trial(rt.alloc(), "7", "100", &spool)?;
    assert!(rt; ran.status == 8 && ran.console.bytes() == b"spill: spool\n".as_slice());
    assert!(rt; ran.archive.bytes().is_empty());
    Ok(())
}

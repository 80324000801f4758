use super::{Faults, NONE, Ran, run_words};
use std::alloc::Global;
use std::test::Fail;
use tb_types::Memory;

// Generates an extract of a seed and a number of elements.
fn generate(alloc: Global, seed: &str, count: &str, faults: &Faults<'_>) -> Result<Ran, Memory> {
    let mut words = Vec::new(alloc);
    for word in ["gen", seed, count, "e"] {
        words.push(String::from_str(alloc, word)?)?;
    }
    run_words(alloc, &words, b"", b"", faults)
}

/// A seed, a number of elements, the status, the bytes of the extract and the console.
const CASES: [(&str, &str, u8, usize, &[u8]); 4] = [
    ("0", "100", 0, 1295, b"generated: blocks 4, bytes 1295\n"),
    (
        "18446744073709551615",
        "100",
        0,
        1304,
        b"generated: blocks 4, bytes 1304\n",
    ),
    (
        "7",
        "20000",
        0,
        222_980,
        b"generated: blocks 101, bytes 222980\n",
    ),
    ("7", "99", 2, 0, b"words not understood\n"),
];

#[test]
fn extracts_are_generated(rt: HostRuntime) -> Result<(), Fail> {
    let ample = Faults {
        room: 300_000,
        ..NONE
    };
    for (seed, count, status, len, line) in CASES {
        let ran = generate(rt.alloc(), seed, count, &ample)?;
        assert!(rt; ran.status == status, "of {seed} and {count}");
        assert!(rt; ran.archive.bytes().len() == len, "of {seed} and {count}");
        assert!(rt; ran.console.bytes() == line, "of {seed} and {count}");
    }
    Ok(())
}

/// The calls of the archive's sink: a frame each. Those of the console: a piece of the line each.
const FRAMES: u64 = 4;

const PIECES: u64 = 5;

// Whether a run ended at the archive's sink, with a part of the extract there.
fn is_cut(ran: &Ran, whole: &Ran) -> bool {
    ran.status == 9
        && ran.archive.bytes().len() < whole.archive.bytes().len()
        && whole.archive.bytes().starts_with(ran.archive.bytes())
        && ran.console.bytes() == b"sink: archive\n".as_slice()
}

#[test]
fn the_sink_of_an_extract_fails(rt: HostRuntime) -> Result<(), Fail> {
    let alloc = rt.alloc();
    let whole = generate(alloc, "0", "100", &NONE)?;
    for call in 0..FRAMES {
        let faults = Faults {
            archive: &[call],
            ..NONE
        };
        let ran = generate(alloc, "0", "100", &faults)?;
        assert!(rt; is_cut(&ran, &whole), "frame {call}");
        assert!(rt;
            ran.archive.bytes().is_empty() == (call == 0),
            "frame {call}"
        );
    }
    let room = Faults { room: 500, ..NONE };
    let ran = generate(alloc, "0", "100", &room)?;
    assert!(rt; is_cut(&ran, &whole) && ran.archive.bytes().len() == 500);
    Ok(())
}

// Whether a run ended at the console, with the extract written and a part of the line there.
fn is_silent(ran: &Ran, whole: &Ran) -> bool {
    ran.status == 9
        && ran.archive.bytes() == whole.archive.bytes()
        && ran.console.bytes().len() < whole.console.bytes().len()
        && whole.console.bytes().starts_with(ran.console.bytes())
}

#[test]
fn the_line_of_an_extract_fails(rt: HostRuntime) -> Result<(), Fail> {
    let alloc = rt.alloc();
    let whole = generate(alloc, "0", "100", &NONE)?;
    for call in 0..PIECES {
        let faults = Faults {
            console: &[call],
            ..NONE
        };
        let ran = generate(alloc, "0", "100", &faults)?;
        assert!(rt; is_silent(&ran, &whole), "piece {call}");
    }
    Ok(())
}

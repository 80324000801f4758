use super::relations::ALONE;
use super::ways::{P1, PLACES};
use super::{CAFE, HEADER, NONE, Ran, run_words};
use std::alloc::Global;
use std::test::Fail;
use tb_types::Memory;
use tb_wire::{put_len, put_varint};

// Runs words over a profile and an extract.
fn run_by(alloc: Global, words: &[&str], profile: &[u8], extract: &[u8]) -> Result<Ran, Memory> {
    let mut owned = Vec::new(alloc);
    for word in words {
        owned.push(String::from_str(alloc, word)?)?;
    }
    run_words(alloc, &owned, profile, extract, &NONE)
}

/// Words, and the status.
const WORDS: [(&[&str], u8); 14] = [
    (&["build", "p", "e", "a"], 0),
    (&["build", "--budget", "1048576", "p", "e", "a"], 0),
    (&["build", "p", "--budget", "4294967296", "e", "a"], 0),
    (&["build", "p", "e", "--budget", "1048577", "a"], 0),
    (&["build", "p", "e", "a", "--budget", "4294967295"], 0),
    (&["build", "--budget", "1048575", "p", "e", "a"], 2),
    (&["build", "p", "e", "a", "--budget", "4294967297"], 2),
    (&["build", "p", "e", "a", "--budget", "01048576"], 2),
    (&["build", "p", "e", "a", "--budget"], 2),
    (&["build", "p", "e", "--budget", "1048576"], 2),
    (&["build", "--budget", "--budget", "1048576", "e", "a"], 2),
    (
        &[
            "build", "--budget", "1048576", "p", "e", "a", "--budget", "1048576",
        ],
        2,
    ),
    (&["nodes", "amenity", "e", "a", "--budget", "1048576"], 2),
    (&["--budget", "1048576", "build", "p", "e", "a"], 2),
];

#[test]
fn budgets_stand_anywhere_behind_the_command(rt: HostRuntime) -> Result<(), Fail> {
    for (words, status) in WORDS {
        let ran = run_by(rt.alloc(), words, P1, CAFE)?;
        let text = if status == 0 {
            b"built: tiles 0,".as_slice()
        } else {
            b"words not understood\n"
        };
        assert!(rt; ran.status == status, "{words:?}");
        assert!(rt; ran.console.bytes().starts_with(text), "{words:?}");
    }
    Ok(())
}

// Builds within the least budget, of which 786,432 bytes are there for a block, a relation or a tile.
fn least(alloc: Global, profile: &[u8], extract: &[u8]) -> Result<Ran, Memory> {
    let words: [&str; 6] = ["build", "p", "e", "a", "--budget", "1048576"];
    run_by(alloc, &words, profile, extract)
}

fn repeated(alloc: Global, byte: u8, len: usize) -> Result<Vec<u8>, Memory> {
    let bytes = vec![in alloc; byte; len]?;
    Ok(bytes)
}

// Adds a frame of this type, with a body of so many bytes that are skipped, and these, behind 4 bytes.
fn put_frame(
    extract: &mut Vec<u8>,
    alloc: Global,
    kind: &[u8],
    skipped: usize,
    blob: &[u8],
) -> Result<(), Memory> {
    let mut body = Vec::new(alloc);
    put_len(&mut body, 15, &repeated(alloc, 7, skipped)?)?;
    body.extend_from_slice(blob)?;
    let mut header = Vec::new(alloc);
    put_len(&mut header, 1, kind)?;
    put_varint(&mut header, 24)?;
    put_varint(&mut header, body.len() as u64)?;
    extract.extend_from_slice(&[0, 0, 0, (header.len() % 100) as u8])?;
    extract.extend_from_slice(&header)?;
    extract.extend_from_slice(&body)?;
    Ok(())
}

// A block of one node, and a block whose header is compressed.
const GOOD: &[u8] =
    b"\x0a\x23\x0a\x11\x0a\x00\x0a\x07amenity\x0a\x04cafe\x12\x0e\x0a\x0c\x08\x02\x12\x01\x01\x1a\x01\x02\x40\x00\x48\x00";

const BAD: &[u8] = b"\x1a\x00";

// A frame of the latter.
const SMALL: &[u8] = b"\x00\x00\x00\x0b\x0a\x07OSMData\x18\x02\x1a\x00";

/// A type, so many bytes that are skipped and a block behind them, what stands behind the frame, the status and the console.
const BLOCKS: [(&[u8], usize, &[u8], &[u8], u8, &[u8]); 9] = [
    // A body of 45,056 bytes needs 16 times as much and 65,536 bytes.
    (b"OSMData", 45_015, GOOD, b"", 0, b"built: tiles 0,"),
    (
        b"OSMData",
        45_016,
        GOOD,
        b"",
        5,
        b"budget: block: need 786448\n",
    ),
    (
        b"OSMHeader",
        45_016,
        GOOD,
        b"",
        5,
        b"budget: block: need 786448\n",
    ),
    // A body of another type isn't read.
    (b"Other", 100_000, BAD, b"", 0, b"built: tiles 0,"),
    // Damage of a block is found before it only where it's small, and that of frames always.
    (
        b"OSMData",
        45_050,
        BAD,
        b"",
        4,
        b"damage: block 1: compressed\n",
    ),
    (
        b"OSMData",
        45_051,
        BAD,
        b"",
        5,
        b"budget: block: need 786448\n",
    ),
    (
        b"OSMData",
        45_016,
        GOOD,
        SMALL,
        5,
        b"budget: block: need 786448\n",
    ),
    (
        b"OSMData",
        45_015,
        GOOD,
        SMALL,
        4,
        b"damage: block 2: compressed\n",
    ),
    (
        b"OSMData",
        45_051,
        BAD,
        b"\x00",
        4,
        b"damage: block 2: cut\n",
    ),
];

#[test]
fn blocks_fit_the_budget(rt: HostRuntime) -> Result<(), Fail> {
    let alloc = rt.alloc();
    for (kind, skipped, blob, behind, status, line) in BLOCKS {
        let mut extract = Vec::from_slice(alloc, HEADER)?;
        put_frame(&mut extract, alloc, kind, skipped, blob)?;
        extract.extend_from_slice(behind)?;
        let ran = least(alloc, P1, &extract)?;
        assert!(rt; ran.status == status && ran.console.bytes().starts_with(line));
        assert!(rt; ran.archive.bytes().is_empty() == (status != 0));
    }
    Ok(())
}

// Adds a data frame of this block.
fn put_block(extract: &mut Vec<u8>, alloc: Global, block: &[u8]) -> Result<(), Memory> {
    let mut blob = Vec::new(alloc);
    put_len(&mut blob, 1, block)?;
    put_frame(extract, alloc, b"OSMData", 0, &blob)
}

// A block with way 5 to and fro between nodes 7 and 8, of one point and then so many pairs.
fn zigzag_way(alloc: Global, pairs: usize) -> Result<Vec<u8>, Memory> {
    let mut refs = Vec::from_slice(alloc, b"\x0e")?;
    for _ in 0..pairs {
        refs.extend_from_slice(b"\x02\x01")?;
    }
    let mut way = Vec::from_slice(alloc, b"\x08\x05")?;
    put_len(&mut way, 8, &refs)?;
    let mut group = Vec::new(alloc);
    put_len(&mut group, 3, &way)?;
    let mut block = Vec::from_slice(alloc, b"\x0a\x02\x0a\x00")?;
    put_len(&mut block, 2, &group)?;
    Ok(block)
}

/// So many pairs of points, the status and the console.
const POINTS: [(usize, u8, &[u8]); 2] = [
    // 22,527 points need 32 bytes each, and 65,536 bytes.
    (11_263, 0, b"built: tiles 0,"),
    (11_264, 5, b"budget: relation: need 786464\n"),
];

#[test]
fn relations_fit_the_budget(rt: HostRuntime) -> Result<(), Fail> {
    let alloc = rt.alloc();
    for (pairs, status, line) in POINTS {
        let mut extract = Vec::from_slice(alloc, HEADER)?;
        extract.extend_from_slice(PLACES)?;
        put_block(&mut extract, alloc, &zigzag_way(alloc, pairs)?)?;
        extract.extend_from_slice(ALONE)?;
        let ran = least(alloc, P1, &extract)?;
        assert!(rt; ran.status == status && ran.console.bytes().starts_with(line));
        assert!(rt; ran.archive.bytes().is_empty() == (status != 0));
    }
    Ok(())
}

// Zoom 0, nodes with an `amenity`.
const AMENITIES: &[u8] =
    b"format = 1\nmaxzoom = 0\n[[layer]]\nid = \"a\"\n[[rule]]\nlayer = \"a\"\nkind = \"point\"\nattributes = [{ key = \"amenity\" }]\n";

// Nodes 1 to 8 at 0,0 with the second string's value of the first.
const EIGHT: &[u8] =
    b"\x0a\x0c\x08\x02\x12\x01\x01\x1a\x01\x02\x40\x00\x48\x00\x0a\x0c\x08\x04\x12\x01\x01\x1a\x01\x02\x40\x00\x48\x00\x0a\x0c\x08\x06\x12\x01\x01\x1a\x01\x02\x40\x00\x48\x00\x0a\x0c\x08\x08\x12\x01\x01\x1a\x01\x02\x40\x00\x48\x00\x0a\x0c\x08\x0a\x12\x01\x01\x1a\x01\x02\x40\x00\x48\x00\x0a\x0c\x08\x0c\x12\x01\x01\x1a\x01\x02\x40\x00\x48\x00\x0a\x0c\x08\x0e\x12\x01\x01\x1a\x01\x02\x40\x00\x48\x00\x0a\x0c\x08\x10\x12\x01\x01\x1a\x01\x02\x40\x00\x48\x00";

// A block of these nodes, whose `amenity` is so long.
fn long_names(alloc: Global, len: usize) -> Result<Vec<u8>, Memory> {
    let mut strings = Vec::from_slice(alloc, b"\x0a\x00\x0a\x07amenity")?;
    put_len(&mut strings, 1, &repeated(alloc, 118, len)?)?;
    let mut block = Vec::new(alloc);
    put_len(&mut block, 1, &strings)?;
    put_len(&mut block, 2, EIGHT)?;
    Ok(block)
}

/// A length, the status and the console.
const NAMES: [(usize, u8, &[u8]); 2] = [
    // Eight items of 54 bytes and the name need 4 times as much, and 131,072 bytes.
    (20_426, 0, b"built: tiles 1,"),
    (20_427, 5, b"budget: tile: need 786464\n"),
];

#[test]
fn tiles_fit_the_budget(rt: HostRuntime) -> Result<(), Fail> {
    let alloc = rt.alloc();
    for (len, status, line) in NAMES {
        let mut extract = Vec::from_slice(alloc, HEADER)?;
        put_block(&mut extract, alloc, &long_names(alloc, len)?)?;
        let ran = least(alloc, AMENITIES, &extract)?;
        assert!(rt; ran.status == status && ran.console.bytes().starts_with(line));
        assert!(rt; ran.archive.bytes().is_empty() == (status != 0));
    }
    Ok(())
}

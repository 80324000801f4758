use super::damage::extract_with;
use super::many::extract;
use super::{CAFE, Faults, NONE, Ran, nodes, run_words};
use std::alloc::Global;
use std::test::Fail;
use tb_types::Memory;

// The calls of the reader over the archive of one tile: its size, and loads of the header, the root, the tile, and of the tile
// that is shown.
const SHOW_CALLS: u64 = 5;

// Runs words over an archive.
fn look(alloc: Global, words: &[&str], archive: &[u8], faults: &Faults<'_>) -> Result<Ran, Memory> {
    let mut owned = Vec::new(alloc);
    for word in words {
        owned.push(String::from_str(alloc, word)?)?;
    }
    run_words(alloc, &owned, b"", archive, faults)
}

// The first bytes of an archive.
fn prefix(archive: &[u8], len: usize) -> &[u8] {
    archive.get(..len).unwrap_or(archive)
}

#[test]
fn archives_are_told(rt: HostRuntime) -> Result<(), Fail> {
    let alloc = rt.alloc();
    let cafe = nodes(alloc, "amenity", CAFE, &NONE)?.archive;
    let north = extract_with(
        alloc,
        b"\x08\x02\x12\x01\x01\x1a\x01\x02\x40\x80\xd2\x93\xad\x03\x48\x80\xa4\xa7\xda\x06",
    )?;
    let north = nodes(alloc, "amenity", &north, &NONE)?.archive;
    // The words, the archive, the status and the console.
    let cases: [(&[&str], &[u8], u8, &[u8]); 8] = [
        (
            &["check", "a"],
            cafe.bytes(),
            0,
            b"archive: tiles 1, entries 1, contents 1, features 1\n",
        ),
        (
            &["show", "a", "0", "0", "0"],
            cafe.bytes(),
            0,
            b"layer nodes 1\npoint 11 9,4096,4096 {\"amenity\":\"cafe\"}\n",
        ),
        (
            &["show", "a", "0", "0", "0"],
            north.bytes(),
            0,
            b"layer nodes 1\npoint 11 9,6144,2946 {\"amenity\":\"cafe\"}\n",
        ),
        (&["show", "a", "1", "0", "0"], cafe.bytes(), 0, b"no tile\n"),
        (
            &["show", "a", "26", "67108863", "0"],
            cafe.bytes(),
            0,
            b"no tile\n",
        ),
        (
            &["check", "a"],
            prefix(cafe.bytes(), 126),
            11,
            b"archive: 126: short\n",
        ),
        (
            &["show", "a", "1", "0", "0"],
            prefix(cafe.bytes(), 256),
            11,
            b"archive: 56: section\n",
        ),
        (
            &["show", "a", "1", "2", "0"],
            cafe.bytes(),
            2,
            b"words not understood\n",
        ),
    ];
    for (words, archive, status, text) in cases {
        let ran = look(alloc, words, archive, &NONE)?;
        assert!(rt; ran.status == status, "{words:?}");
        assert!(rt; ran.console.bytes() == text, "{words:?}");
        assert!(rt; ran.archive.bytes().is_empty(), "{words:?}");
    }
    Ok(())
}

#[test]
fn look_faults_are_told(rt: HostRuntime) -> Result<(), Fail> {
    let alloc = rt.alloc();
    let cafe = nodes(alloc, "amenity", CAFE, &NONE)?.archive;
    let words = &["show", "a", "0", "0", "0"];
    for call in 0..SHOW_CALLS + 1 {
        let faults = Faults {
            reader: &[call],
            ..NONE
        };
        let ran = look(alloc, words, cafe.bytes(), &faults)?;
        let fails = call < SHOW_CALLS;
        let told = ran.console.bytes() == b"source: lane 0\n".as_slice();
        assert!(rt; ran.status == if fails { 7 } else { 0 }, "call {call}");
        assert!(rt; told == fails, "call {call}");
    }
    let silent = Faults {
        console: &[0],
        ..NONE
    };
    let ran = look(alloc, words, cafe.bytes(), &silent)?;
    assert!(rt; ran.status == 9 && ran.console.bytes().is_empty());
    let ran = look(alloc, words, b"", &silent)?;
    assert!(rt; ran.status == 11 && ran.console.bytes().is_empty());
    // The console takes a part of the text.
    let many = nodes(alloc, "amenity", &extract(alloc)?, &NONE)?.archive;
    let ran = look(alloc, words, many.bytes(), &NONE)?;
    assert!(rt; ran.status == 9 && ran.console.bytes().len() == 200);
    assert!(rt;
        ran.console.bytes().starts_with(
            b"layer nodes 300\npoint 11 9,4104,4096 {\"amenity\":\"bench\"}\n"
        )
    );
    Ok(())
}

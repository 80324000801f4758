use crate::{ArcFault, ArcWhy, Archive, DirEntry, ReadErr, open_archive};
use std::alloc::Global;
use tb_outside::{MemSource, SteadySource};
use tb_types::{Memory, TileId};

/// Tiles 5, 6, 7 and 9 have ten bytes 1 each, and tile 8 has twenty bytes 2. Another program wrote it.
const ARCHIVE: &[u8] =
    b"\x50\x4d\x54\x69\x6c\x65\x73\x03\x7f\x00\x00\x00\x00\x00\x00\x00\x0d\x00\x00\x00\x00\x00\x00\x00\x8c\x00\x00\x00\x00\x00\x00\x00\x4d\x00\x00\x00\x00\x00\x00\x00\xd9\x00\x00\x00\x00\x00\x00\x00\x00\x00\x00\x00\x00\x00\x00\x00\xd9\x00\x00\x00\x00\x00\x00\x00\x1e\x00\x00\x00\x00\x00\x00\x00\x05\x00\x00\x00\x00\x00\x00\x00\x03\x00\x00\x00\x00\x00\x00\x00\x02\x00\x00\x00\x00\x00\x00\x00\x01\x01\x01\x01\x00\x0e\x00\x2e\xb6\x94\x80\x07\x56\xcd\x00\xd2\x49\x6b\x80\xf8\xa9\x32\x00\x00\x00\x00\x00\x00\x00\x00\x00\x03\x05\x03\x01\x03\x01\x01\x0a\x14\x0a\x01\x00\x01\x7b\x22\x6e\x61\x6d\x65\x22\x3a\x22\x6d\x61\x70\x22\x2c\x22\x76\x65\x63\x74\x6f\x72\x5f\x6c\x61\x79\x65\x72\x73\x22\x3a\x5b\x7b\x22\x66\x69\x65\x6c\x64\x73\x22\x3a\x7b\x22\x61\x6d\x65\x6e\x69\x74\x79\x22\x3a\x22\x53\x74\x72\x69\x6e\x67\x22\x7d\x2c\x22\x69\x64\x22\x3a\x22\x6e\x6f\x64\x65\x73\x22\x7d\x5d\x7d\x01\x01\x01\x01\x01\x01\x01\x01\x01\x01\x02\x02\x02\x02\x02\x02\x02\x02\x02\x02\x02\x02\x02\x02\x02\x02\x02\x02\x02\x02";

const ENTRIES: [DirEntry; 3] = [
    DirEntry {
        id: 5,
        run: 3,
        len: 10,
        offset: 0,
    },
    DirEntry {
        id: 8,
        run: 1,
        len: 20,
        offset: 10,
    },
    DirEntry {
        id: 9,
        run: 1,
        len: 10,
        offset: 0,
    },
];

/// From one size to another, where the archive is cut there: the offset of the first section that passes the end.
const CUTS: [(usize, usize, u64); 3] = [(127, 140, 8), (140, 217, 24), (217, 247, 56)];

/// From one place to another, where the least bit of the byte there is changed: the fault that another program finds. All
/// others are no fault.
const CHANGES: [(usize, usize, ArcWhy, u64); 22] = [
    (0, 7, ArcWhy::Magic, 0),
    (7, 8, ArcWhy::Version, 7),
    (8, 9, ArcWhy::Directory, 126),
    (9, 16, ArcWhy::Section, 8),
    (16, 17, ArcWhy::Directory, 127),
    (17, 24, ArcWhy::Section, 8),
    (25, 32, ArcWhy::Section, 24),
    (33, 40, ArcWhy::Section, 24),
    (41, 48, ArcWhy::Section, 40),
    (49, 56, ArcWhy::Section, 40),
    (57, 72, ArcWhy::Section, 56),
    (97, 98, ArcWhy::Compressed, 97),
    (98, 99, ArcWhy::Compressed, 98),
    (99, 100, ArcWhy::TileType, 99),
    (127, 128, ArcWhy::Directory, 127),
    (129, 130, ArcWhy::Order, 7),
    (130, 131, ArcWhy::Directory, 127),
    (132, 133, ArcWhy::Section, 8),
    (133, 134, ArcWhy::Section, 9),
    (134, 136, ArcWhy::Section, 8),
    (137, 138, ArcWhy::Directory, 127),
    (139, 140, ArcWhy::Section, 9),
];

fn opened(alloc: Global, bytes: &[u8]) -> Result<Archive, ReadErr> {
    let mut source = SteadySource::new(bytes.to_vec(alloc)?);
    open_archive(alloc, &mut source)
}

fn fault(alloc: Global, bytes: &[u8]) -> Result<Option<ArcFault>, Memory> {
    match opened(alloc, bytes) {
        Ok(_) => Ok(None),
        Err(ReadErr::Bad(fault)) => Ok(Some(fault)),
        Err(_) => Err(Memory),
    }
}

#[test]
fn each_cut_archive_has_its_fault(rt: HostRuntime) -> Result<(), Memory> {
    let alloc = rt.alloc();
    for size in 0..127 {
        let short = ArcFault {
            place: size as u64,
            why: ArcWhy::Short,
        };
        assert!(rt; fault(alloc, &ARCHIVE[..size])? == Some(short));
    }
    for (from, to, place) in CUTS {
        for size in from..to {
            let cut = ArcFault {
                place,
                why: ArcWhy::Section,
            };
            assert!(rt; fault(alloc, &ARCHIVE[..size])? == Some(cut), "at {size}");
        }
    }
    assert!(rt; fault(alloc, ARCHIVE)? == None);
    Ok(())
}

// The fault of the archive with one byte changed.
fn changed(at: usize) -> Option<ArcFault> {
    for (from, to, why, place) in CHANGES {
        if from <= at && at < to {
            return Some(ArcFault { place, why });
        }
    }
    None
}

#[test]
fn each_changed_byte_has_its_fault(rt: HostRuntime) -> Result<(), Memory> {
    let alloc = rt.alloc();
    for at in 0..ARCHIVE.len() {
        let mut bytes = ARCHIVE.to_vec(alloc)?;
        bytes[at] = bytes[at] ^ 1;
        assert!(rt; fault(alloc, &bytes)? == changed(at), "at {at}");
    }
    Ok(())
}

fn tile(alloc: Global, id: u64) -> Result<Option<Vec<u8>>, ReadErr> {
    let mut source = SteadySource::new(ARCHIVE.to_vec(alloc)?);
    match open_archive(alloc, &mut source) {
        Ok(archive) => archive.tile(&mut source, TileId(id)),
        Err(e) => Err(e),
    }
}

#[test]
fn tiles_by_their_ids(rt: HostRuntime) -> Result<(), ReadErr> {
    let alloc = rt.alloc();
    let archive = opened(alloc, ARCHIVE)?;
    assert!(rt; archive.entries() == ENTRIES.as_slice());
    for (id, byte, len) in [(5, 1, 10), (6, 1, 10), (7, 1, 10), (8, 2, 20), (9, 1, 10)] {
        match tile(alloc, id)? {
            Some(tile) => {
                assert!(rt;
                    tile.len() == len && tile.iter().all(|b| *b == byte),
                    "tile {id}"
                );
            }
            None => assert!(rt; false, "tile {id} is there"),
        }
    }
    for id in [0, 4, 10, u64::MAX] {
        assert!(rt; tile(alloc, id)?.is_none());
    }
    Ok(())
}

#[test]
fn each_call_of_a_source_fails_in_turn(rt: HostRuntime) -> Result<(), Memory> {
    let alloc = rt.alloc();
    for n in 0..4 {
        let mut fails = Vec::new(alloc);
        fails.push(n)?;
        let mut source = MemSource::new(alloc, ARCHIVE.to_vec(alloc)?, 9, fails)?;
        match open_archive(alloc, &mut source) {
            Ok(archive) => {
                let answer = archive.tile(&mut source, TileId(8));
                assert!(rt; n == 3 && answer == Err(ReadErr::Failed));
            }
            Err(e) => assert!(rt; n < 3 && e == ReadErr::Failed),
        }
    }
    Ok(())
}

ghost use Rattle.std.specs.Prelude.{◌<◌};
ghost use Rattle.hilbert_ids.specs.Ids.{IsTile};

use crate::{ArcFault, ArcWhy, ReadErr, check_archive, show_tile};
use std::alloc::Global;
use tb_outside::{MemSource, SteadySource};
use tb_types::{Memory, Text, TileXyz};

/// One tile, with one cafe. Another program wrote these archives.
const CAFE: &[u8] =
    b"\x50\x4d\x54\x69\x6c\x65\x73\x03\x7f\x00\x00\x00\x00\x00\x00\x00\x05\x00\x00\x00\x00\x00\x00\x00\x84\x00\x00\x00\x00\x00\x00\x00\x4d\x00\x00\x00\x00\x00\x00\x00\xd1\x00\x00\x00\x00\x00\x00\x00\x00\x00\x00\x00\x00\x00\x00\x00\xd1\x00\x00\x00\x00\x00\x00\x00\x30\x00\x00\x00\x00\x00\x00\x00\x01\x00\x00\x00\x00\x00\x00\x00\x01\x00\x00\x00\x00\x00\x00\x00\x01\x00\x00\x00\x00\x00\x00\x00\x01\x01\x01\x01\x00\x00\x00\x2e\xb6\x94\x80\x07\x56\xcd\x00\xd2\x49\x6b\x80\xf8\xa9\x32\x00\x00\x00\x00\x00\x00\x00\x00\x00\x01\x00\x01\x30\x01\x7b\x22\x6e\x61\x6d\x65\x22\x3a\x22\x6d\x61\x70\x22\x2c\x22\x76\x65\x63\x74\x6f\x72\x5f\x6c\x61\x79\x65\x72\x73\x22\x3a\x5b\x7b\x22\x66\x69\x65\x6c\x64\x73\x22\x3a\x7b\x22\x61\x6d\x65\x6e\x69\x74\x79\x22\x3a\x22\x53\x74\x72\x69\x6e\x67\x22\x7d\x2c\x22\x69\x64\x22\x3a\x22\x6e\x6f\x64\x65\x73\x22\x7d\x5d\x7d\x1a\x2e\x0a\x05\x6e\x6f\x64\x65\x73\x12\x0f\x08\x0b\x12\x02\x00\x00\x18\x01\x22\x05\x09\x80\x20\x80\x20\x1a\x07\x61\x6d\x65\x6e\x69\x74\x79\x22\x06\x0a\x04\x63\x61\x66\x65\x28\x80\x20\x78\x02";

/// Tiles 0 and 4 are the first 47 bytes of the tile section, and tiles 1, 2 and 3 all 92 of it: layer `a` alone, and with it
/// layer `b "q"`. The keys of `a` stand in falling order, and one of them twice.
const MIXED: &[u8] =
    b"\x50\x4d\x54\x69\x6c\x65\x73\x03\x7f\x00\x00\x00\x00\x00\x00\x00\x0d\x00\x00\x00\x00\x00\x00\x00\x8c\x00\x00\x00\x00\x00\x00\x00\x02\x00\x00\x00\x00\x00\x00\x00\x8e\x00\x00\x00\x00\x00\x00\x00\x00\x00\x00\x00\x00\x00\x00\x00\x8e\x00\x00\x00\x00\x00\x00\x00\x5c\x00\x00\x00\x00\x00\x00\x00\x05\x00\x00\x00\x00\x00\x00\x00\x03\x00\x00\x00\x00\x00\x00\x00\x02\x00\x00\x00\x00\x00\x00\x00\x01\x01\x01\x01\x00\x01\x00\x2e\xb6\x94\x80\x07\x56\xcd\x00\xd2\x49\x6b\x80\xf8\xa9\x32\x00\x00\x00\x00\x00\x00\x00\x00\x00\x03\x00\x01\x03\x01\x03\x01\x2f\x5c\x2f\x01\x01\x01\x7b\x7d\x1a\x2d\x0a\x01\x61\x12\x11\x08\x07\x12\x06\x00\x00\x01\x01\x00\x02\x18\x01\x22\x03\x09\x02\x04\x1a\x01\x62\x1a\x01\x61\x22\x02\x38\x01\x22\x05\x15\x00\x00\x80\x3f\x22\x02\x30\x03\x78\x02\x1a\x2b\x0a\x05\x62\x20\x22\x71\x22\x12\x00\x12\x10\x08\x09\x12\x02\x00\x00\x18\x02\x22\x06\x09\x00\x00\x0a\x02\x04\x1a\x01\x6b\x22\x09\x19\x01\x00\x00\x00\x00\x00\x00\xc0\x78\x02";

const UPPER: &str = "layer a 1\npoint 7 9,2,4 {\"a\":\"float 3f800000\",\"b\":-2}\n";

const BOTH: &str =
    "layer a 1\npoint 7 9,2,4 {\"a\":\"float 3f800000\",\"b\":-2}\nlayer b \"q\" 2\nunknown -  {}\nline 9 9,0,0,10,2,4 {\"k\":\"double c000000000000001\"}\n";

fn check(alloc: Global, bytes: &[u8]) -> Result<Text, ReadErr> {
    let mut source = SteadySource::new(bytes.to_vec(alloc)?);
    check_archive(alloc, &mut source)
}

fn show(alloc: Global, bytes: &[u8], tile: TileXyz) -> Result<Text, ReadErr>
    requires { IsTile tile }
{
    let mut source = SteadySource::new(bytes.to_vec(alloc)?);
    show_tile(alloc, &mut source, tile)
}

fn is_text(answer: Result<Text, ReadErr>, text: &str) -> bool {
    match answer {
        Ok(told) => told.as_str() == text,
        Err(_) => false,
    }
}

fn is_fault(answer: Result<Text, ReadErr>, place: u64, why: ArcWhy) -> bool {
    match answer {
        Err(ReadErr::Bad(fault)) => fault == ArcFault { place, why },
        _ => false,
    }
}

#[test]
fn totals_of_archives(rt: HostRuntime) {
    let alloc = rt.alloc();
    let one = "archive: tiles 1, entries 1, contents 1, features 1\n";
    assert!(rt; is_text(check(alloc, CAFE), one));
    let several = "archive: tiles 5, entries 3, contents 2, features 11\n";
    assert!(rt; is_text(check(alloc, MIXED), several));
}

#[test]
fn texts_of_tiles(rt: HostRuntime) {
    let alloc = rt.alloc();
    let whole = TileXyz { z: 0, x: 0, y: 0 };
    let first = TileXyz { z: 1, x: 0, y: 0 };
    let last = TileXyz { z: 1, x: 1, y: 0 };
    let none = TileXyz { z: 2, x: 0, y: 0 };
    let cafe = "layer nodes 1\npoint 11 9,4096,4096 {\"amenity\":\"cafe\"}\n";
    assert!(rt; is_text(show(alloc, CAFE, whole), cafe));
    assert!(rt; is_text(show(alloc, CAFE, first), "no tile\n"));
    assert!(rt; is_text(show(alloc, MIXED, whole), UPPER));
    assert!(rt; is_text(show(alloc, MIXED, first), BOTH));
    assert!(rt; is_text(show(alloc, MIXED, last), UPPER));
    assert!(rt; is_text(show(alloc, MIXED, none), "no tile\n"));
}

#[test]
fn each_prefix_has_a_fault(rt: HostRuntime) {
    for size in 0..CAFE.len() {
        let is_bad = matches!(check(rt.alloc(), &CAFE[..size]), Err(ReadErr::Bad(_)));
        assert!(rt; is_bad, "at {size}");
    }
}

// The archive with version 3 in the layer whose version stands at this place.
fn with_version(alloc: Global, at: usize) -> Result<Vec<u8>, Memory>
    requires { at < 234 }
{
    let mut bytes = MIXED.to_vec(alloc)?;
    bytes[at] = 3;
    Ok(bytes)
}

#[test]
fn bad_tiles_are_told(rt: HostRuntime) -> Result<(), Memory> {
    let alloc = rt.alloc();
    for (at, id) in [(233, 1), (188, 0)] {
        let bytes = with_version(alloc, at)?;
        let whole = TileXyz { z: 0, x: 0, y: 0 };
        assert!(rt; is_fault(check(alloc, &bytes), id, ArcWhy::Tile));
        assert!(rt; is_fault(show(alloc, &bytes, whole), id, ArcWhy::Tile));
    }
    Ok(())
}

#[test]
fn each_content_is_loaded_once(rt: HostRuntime) -> Result<(), Memory> {
    let alloc = rt.alloc();
    let mut source = MemSource::new(alloc, MIXED.to_vec(alloc)?, 9, Vec::new(alloc))?;
    assert!(rt; check_archive(alloc, &mut source).is_ok());
    assert!(rt; source.log() == [(0, 127), (127, 13), (142, 47), (142, 92)].as_slice());
    Ok(())
}

#[test]
fn each_call_of_a_source_fails_in_turn(rt: HostRuntime) -> Result<(), Memory> {
    let alloc = rt.alloc();
    for n in 0..6 {
        let mut fails = Vec::new(alloc);
        fails.push(n)?;
        let mut source = MemSource::new(alloc, MIXED.to_vec(alloc)?, 9, fails)?;
        let answer = show_tile(alloc, &mut source, TileXyz { z: 0, x: 0, y: 0 });
        assert!(rt; matches!(answer, Err(ReadErr::Failed)), "at {n}");
    }
    Ok(())
}

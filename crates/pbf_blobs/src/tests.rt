//! Frames and bodies in memory, as tables.

ghost use Rattle.std.specs.Prelude.{None, refl};

use crate::{BlockAt, BlockKind, ScanStop, raw_of, scan};
use std::alloc::Global;
use tb_outside::{Failed, MemSource, Source};
use tb_types::{Damage, Memory, Why};
use tb_wire::put_len;

const HEADER: &[u8] = b"\x00\x00\x00\x0d\x0a\x09OSMHeader\x18\x02\x0a\x00";

// Node 1 at 0,0 with `amenity=cafe`.
const CAFE: &[u8] =
    b"\x00\x00\x00\x0b\x0a\x07OSMData\x18\x25\x0a\x23\x0a\x11\x0a\x00\x0a\x07amenity\x0a\x04cafe\x12\x0e\x0a\x0c\x08\x02\x12\x01\x01\x1a\x01\x02\x40\x00\x48\x00";

// A frame of another type, whose body is no message, with indexdata and an unknown field.
const OTHER: &[u8] = b"\x00\x00\x00\x0d\x0a\x01X\x12\x01i\x18\x03\x4d\x01\x02\x03\x04\xff\xff\xff";

const HEADER_BLOCK: BlockAt = BlockAt {
    no: 0,
    at: 17,
    len: 2,
    kind: BlockKind::Header,
};

// A source of these parts, one behind the other.
fn source_of(alloc: Global, parts: &[&[u8]], fails: &[u64]) -> Result<MemSource, Memory> {
    let mut bytes = Vec::new(alloc);
    for part in parts {
        bytes.extend_from_slice(*part)?;
    }
    MemSource::new(alloc, bytes, 20, Vec::from_slice(alloc, fails)?)
}

#[test]
fn frames_are_found_and_bodies_left_alone(rt: HostRuntime) -> Result<(), ScanStop> {
    let mut source = source_of(rt.alloc(), &[HEADER, OTHER, CAFE], &[])?;
    let index = scan(rt.alloc(), &mut source)?;
    let want = [
        HEADER_BLOCK,
        BlockAt {
            no: 1,
            at: 36,
            len: 3,
            kind: BlockKind::Other,
        },
        BlockAt {
            no: 2,
            at: 54,
            len: 37,
            kind: BlockKind::Elements,
        },
    ];
    assert!(rt; index.blocks.as_slice() == want.as_slice());
    let loads = [(0, 4), (4, 13), (19, 4), (23, 13), (39, 4), (43, 11)];
    assert!(rt; source.log() == loads.as_slice());
    Ok(())
}

// What a scan of these parts answers, without the index.
fn outcome(alloc: Global, parts: &[&[u8]]) -> Result<(), ScanStop> {
    let mut source = source_of(alloc, parts, &[])?;
    scan(alloc, &mut source)?;
    Ok(())
}

fn damage(block: u32, why: Why) -> Result<(), ScanStop> {
    Err(ScanStop::Damage(Damage { block, why }))
}

#[test]
fn the_first_frame_has_a_fault(rt: HostRuntime) {
    let cases: [(&[u8], Why); 13] = [
        (b"", Why::NoHeader),
        (b"\x00\x00\x00", Why::Cut),
        (b"\x00\x01\x00\x00", Why::HeaderLong),
        (b"\x00\x00\xff\xff", Why::Cut),
        (b"\x00\x00\x00\x05\x0a", Why::Cut),
        (b"\x00\x00\x00\x01\x0b", Why::Wire),
        (b"\x00\x00\x00\x04\x10\x00\x18\x00", Why::Wire),
        (b"\x00\x00\x00\x02\x1a\x00", Why::Wire),
        (b"\x00\x00\x00\x02\x18\x00", Why::Missing),
        (b"\x00\x00\x00\x03\x0a\x01X", Why::Missing),
        (
            b"\x00\x00\x00\x08\x0a\x01X\x18\x81\x80\x84\x10",
            Why::BlobLong,
        ),
        (b"\x00\x00\x00\x08\x0a\x01X\x18\x80\x80\x84\x10", Why::Cut),
        (
            b"\x00\x00\x00\x0e\x0a\x01X\x18\xff\xff\xff\xff\xff\xff\xff\xff\xff\x01",
            Why::BlobLong,
        ),
    ];
    for (bytes, why) in cases {
        assert!(rt;
            outcome(rt.alloc(), &[bytes]) == damage(0, why),
            "of {bytes:?}"
        );
    }
}

#[test]
fn a_later_frame_has_a_fault(rt: HostRuntime) {
    let cases: [(&[u8], Why); 3] = [
        (b"\x00", Why::Cut),
        (b"\x00\x00\x00\x00", Why::Missing),
        (b"\x00\x00\x00\x05\x0a\x01X\x18\x02z", Why::Cut),
    ];
    for (bytes, why) in cases {
        assert!(rt;
            outcome(rt.alloc(), &[HEADER, bytes]) == damage(1, why),
            "of {bytes:?}"
        );
    }
    assert!(rt; outcome(rt.alloc(), &[HEADER, CAFE, b"\x00\x00"]) == damage(2, Why::Cut));
    assert!(rt; outcome(rt.alloc(), &[CAFE, HEADER]) == damage(0, Why::NoHeader));
    assert!(rt; outcome(rt.alloc(), &[OTHER, CAFE]) == damage(1, Why::NoHeader));
    assert!(rt; outcome(rt.alloc(), &[OTHER, OTHER]) == damage(2, Why::NoHeader));
}

#[test]
fn the_last_type_and_the_low_bits_of_the_last_size_count(rt: HostRuntime) -> Result<(), ScanStop> {
    let frame = b"\x00\x00\x00\x16\x0a\x01X\x18\x07\x0a\x09OSMHeader\x18\x82\x80\x80\x80\x10zz";
    let mut source = source_of(rt.alloc(), &[frame], &[])?;
    let index = scan(rt.alloc(), &mut source)?;
    let want = [BlockAt {
        at: 26,
        ..HEADER_BLOCK
    }];
    assert!(rt; index.blocks.as_slice() == want.as_slice());
    Ok(())
}

#[test]
fn each_call_of_the_source_may_fail(rt: HostRuntime) -> Result<(), ScanStop> {
    for call in 0..5 {
        let mut source = source_of(rt.alloc(), &[HEADER, CAFE], &[call])?;
        assert!(rt; failed(rt.alloc(), &mut source), "at call {call}");
        assert!(rt; !failed(rt.alloc(), &mut source), "the same source again");
    }
    Ok(())
}

fn failed(alloc: Global, source: &mut MemSource) -> bool {
    match scan(alloc, source) {
        Err(ScanStop::Failed) => true,
        _ => false,
    }
}

#[test]
fn the_raw_block_or_the_first_reason(rt: HostRuntime) {
    let cases: [(&[u8], Result<&[u8], Why>); 14] = [
        (b"\x0a\x00", Ok(b"")),
        (b"\x10\x05\x0a\x01a\x40\x00\x0a\x01b", Ok(b"b")),
        (b"", Err(Why::NoRaw)),
        (b"\x10\x05", Err(Why::NoRaw)),
        (b"\x1a\x00", Err(Why::Compressed)),
        (b"\x0a\x01a\x3a\x00", Err(Why::Compressed)),
        (b"\x22\x00\x0a\x01a", Err(Why::Compressed)),
        (b"\x1a\x00\x0a", Err(Why::Wire)),
        (b"\x1a\x00\x08\x01", Err(Why::Wire)),
        (b"\x08\x01", Err(Why::Wire)),
        (b"\x12\x00", Err(Why::Wire)),
        (b"\x38\x00", Err(Why::Wire)),
        (b"\x0b", Err(Why::Wire)),
        (b"\x42\x00", Err(Why::NoRaw)),
    ];
    for (body, want) in cases {
        assert!(rt; raw_of(body) == want, "of {body:?}");
    }
}

#[test]
fn a_raw_block_has_fewer_bytes_than_32_mib(rt: HostRuntime) -> Result<(), ScanStop> {
    assert!(rt; raw_len(rt.alloc(), 33_554_431)? == Ok(33_554_431));
    assert!(rt; raw_len(rt.alloc(), 33_554_432)? == Err(Why::Over32M));
    Ok(())
}

// The length of the raw block in the body of a raw block of this length.
fn raw_len(alloc: Global, len: usize) -> Result<Result<usize, Why>, Memory> {
    let raw = vec![in alloc; 7u8; len]?;
    let mut body = Vec::new(alloc);
    put_len(&mut body, 1, &raw)?;
    Ok(match raw_of(&body) {
        Ok(raw) => Ok(raw.len()),
        Err(why) => Err(why),
    })
}

// A frame of the greatest length: a header frame whose body has 33,619,968 bytes.
const LONG_HEAD: &[u8] = b"\x00\x00\x00\x10\x0a\x09OSMHeader\x18\x80\x80\x84\x10";

const LONG_FRAME: u64 = 33_619_988;

// As many of them as 2^40 bytes hold.
const LONG_FRAMES: u64 = 32_704;

// A source of such frames, which tells nothing.
#[derive(Drop)]
struct LongFrames;

impl Source for LongFrames {
    ghost seen = { λ _. record { bytes = None; log = None; faults = 0 } };

    ghost same_told = { λ a b. refl };

    fn size(&mut self) -> Result<u64, Failed> {
        Ok(LONG_FRAMES * LONG_FRAME)
    }

    fn load(&mut self, at: u64, out: &mut [u8]) -> Result<(), Failed> {
        let mut place = at % LONG_FRAME;
        for byte in out {
            *byte = match LONG_HEAD.get(place as usize) {
                Some(b) => *b,
                None => 0,
            };
            place = place.wrapping_add(1) % LONG_FRAME;
        }
        Ok(())
    }
}

#[test]
fn an_extract_may_have_nearly_2_40_bytes(rt: HostRuntime) -> Result<(), ScanStop> {
    let index = scan(rt.alloc(), &mut LongFrames)?;
    let blocks = index.blocks.as_slice();
    assert!(rt; blocks.len() == 32_704);
    assert!(rt; blocks[32_703].no == 32_703 && blocks[32_703].at == 32_703 * LONG_FRAME + 20);
    Ok(())
}

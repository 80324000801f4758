use crate::{Found, HeaderAt};
use member_sets::KeptRelation;
use pbf_blobs::{BlockAt, BlockKind};
use profile_rules::{Profile, read_profile};
use std::alloc::Global;
use std::test::Fail;
use tb_types::{Bounds, Damage, Memory, Why};

/// Areas of all relations that can be one.
const AREAS: &[u8] =
    b"format = 1\n[[layer]]\nid = \"a\"\n[[rule]]\nlayer = \"a\"\nkind = \"area\"\nwhen = [\"type\"]\n";

/// The bodies of blocks, by number.
const BODIES: [(BlockKind, &[u8]); 8] = [
    // a box of 0 to 2 degrees
    (
        BlockKind::Header,
        b"\x0a\x0a\x0a\x08\x08\x00\x10\x04\x18\x04\x20\x00",
    ),
    // a node, a way and an area
    (
        BlockKind::Elements,
        b"\x0a\x3d\x0a\x16\x0a\x00\x0a\x04\x74\x79\x70\x65\x0a\x0c\x6d\x75\x6c\x74\x69\x70\x6f\x6c\x79\x67\x6f\x6e\x12\x23\x0a\x06\x08\x02\x40\x00\x48\x00\x1a\x06\x08\x05\x42\x02\x02\x02\x22\x11\x08\x07\x12\x01\x01\x1a\x01\x02\x42\x01\x00\x4a\x01\x0a\x52\x01\x01",
    ),
    // no box
    (BlockKind::Header, b"\x0a\x00"),
    // a node
    (
        BlockKind::Elements,
        b"\x0a\x22\x0a\x16\x0a\x00\x0a\x04\x74\x79\x70\x65\x0a\x0c\x6d\x75\x6c\x74\x69\x70\x6f\x6c\x79\x67\x6f\x6e\x12\x08\x0a\x06\x08\x04\x40\x00\x48\x00",
    ),
    // a key past the table
    (
        BlockKind::Elements,
        b"\x0a\x28\x0a\x16\x0a\x00\x0a\x04\x74\x79\x70\x65\x0a\x0c\x6d\x75\x6c\x74\x69\x70\x6f\x6c\x79\x67\x6f\x6e\x12\x0e\x0a\x0c\x08\x06\x12\x01\x03\x1a\x01\x02\x40\x00\x48\x00",
    ),
    // a field of no wire type
    (BlockKind::Elements, b"\x0a\x02\x0f\x00"),
    // what isn't read
    (BlockKind::Other, b"\x0f"),
    // a way, a relation without specs and two areas
    (
        BlockKind::Elements,
        b"\x0a\x55\x0a\x16\x0a\x00\x0a\x04\x74\x79\x70\x65\x0a\x0c\x6d\x75\x6c\x74\x69\x70\x6f\x6c\x79\x67\x6f\x6e\x12\x3b\x1a\x06\x08\x06\x42\x02\x02\x02\x22\x0b\x08\x08\x42\x01\x00\x4a\x01\x0a\x52\x01\x01\x22\x11\x08\x0a\x12\x01\x01\x1a\x01\x02\x42\x01\x00\x4a\x01\x0a\x52\x01\x01\x22\x11\x08\x09\x12\x01\x01\x1a\x01\x02\x42\x01\x00\x4a\x01\x0a\x52\x01\x01",
    ),
];

const BOX: Bounds = Bounds {
    left: 0,
    right: 2,
    top: 2,
    bottom: 0,
};

const FIRST: Option<HeaderAt> = Some(HeaderAt {
    no: 0,
    bounds: Some(BOX),
});

/// What two lanes take, each in its order, and what is found of it: the damage, the header, the kept relations by block, index and
/// id, and the blocks with nodes and with ways.
struct Case {
    one: &'static [u32],
    other: &'static [u32],
    damage: Option<Damage>,
    header: Option<HeaderAt>,
    kept: &'static [(u32, u32, i64)],
    nodes: &'static [u32],
    ways: &'static [u32],
}

const WHOLE: [(u32, u32, i64); 3] = [(1, 2, 7), (7, 2, 10), (7, 3, 9)];

const CASES: [Case; 6] = [
    // file order, one lane
    Case {
        one: &[0, 1, 2, 3, 6, 7],
        other: &[],
        damage: None,
        header: FIRST,
        kept: &WHOLE,
        nodes: &[1, 3],
        ways: &[1, 7],
    },
    // back to front
    Case {
        one: &[7, 6, 3],
        other: &[2, 1, 0],
        damage: None,
        header: FIRST,
        kept: &WHOLE,
        nodes: &[1, 3],
        ways: &[1, 7],
    },
    // mixed
    Case {
        one: &[],
        other: &[2, 7, 0, 3, 1],
        damage: None,
        header: FIRST,
        kept: &WHOLE,
        nodes: &[1, 3],
        ways: &[1, 7],
    },
    // a first header without a box
    Case {
        one: &[3],
        other: &[2],
        damage: None,
        header: Some(HeaderAt {
            no: 2,
            bounds: None,
        }),
        kept: &[],
        nodes: &[3],
        ways: &[],
    },
    // the least damage comes last
    Case {
        one: &[5, 3],
        other: &[1, 4],
        damage: Some(Damage {
            block: 4,
            why: Why::Index,
        }),
        header: None,
        kept: &[(1, 2, 7)],
        nodes: &[1, 3],
        ways: &[1],
    },
    // the least damage comes first
    Case {
        one: &[4],
        other: &[5],
        damage: Some(Damage {
            block: 4,
            why: Why::Index,
        }),
        header: None,
        kept: &[],
        nodes: &[],
        ways: &[],
    },
];

/// What is found of these blocks.
fn found_of(alloc: Global, profile: &Profile, numbers: &[u32]) -> Result<Found, Memory> {
    let mut found = Found::new(alloc);
    for no in numbers {
        if let Some((kind, body)) = BODIES.get(*no as usize) {
            let block = BlockAt {
                no: *no,
                at: 0,
                len: 0,
                kind: *kind,
            };
            found.take(alloc, profile, block, body)?;
        }
    }
    Ok(found)
}

/// What both lanes find, in order.
fn found_by_both(alloc: Global, profile: &Profile, case: &Case) -> Result<Found, Memory> {
    let mut found = found_of(alloc, profile, case.one)?;
    found.join(found_of(alloc, profile, case.other)?)?;
    found.arrange();
    Ok(found)
}

/// Blocks have these numbers.
fn are(blocks: &[BlockAt], numbers: &[u32]) -> bool {
    let mut rest = numbers;
    for block in blocks {
        match rest.split_first() {
            Some((no, more)) => {
                if *no != block.no {
                    return false;
                }
                rest = more;
            }
            None => return false,
        }
    }
    rest.is_empty()
}

/// Relations have these places and ids.
fn are_kept(kept: &[KeptRelation], wanted: &[(u32, u32, i64)]) -> bool {
    let mut rest = wanted;
    for k in kept {
        match rest.split_first() {
            Some((one, more)) => {
                if *one != (k.place.block, k.place.index, k.id.0) {
                    return false;
                }
                rest = more;
            }
            None => return false,
        }
    }
    rest.is_empty()
}

fn is_as(found: &Found, case: &Case) -> bool {
    found.damage == case.damage
        && found.header == case.header
        && are_kept(found.kept.as_slice(), case.kept)
        && are(found.nodes.as_slice(), case.nodes)
        && are(found.ways.as_slice(), case.ways)
}

fn profile_of(alloc: Global) -> Result<Profile, Memory> {
    match read_profile(alloc, AREAS) {
        Ok(profile) => Ok(profile),
        Err(_) => Err(Memory),
    }
}

#[test]
fn the_order_of_blocks_makes_no_difference(rt: HostRuntime) -> Result<(), Fail> {
    let alloc = rt.alloc();
    let profile = profile_of(alloc)?;
    for case in &CASES {
        let found = found_by_both(alloc, &profile, case)?;
        assert!(rt; is_as(&found, case));
    }
    Ok(())
}

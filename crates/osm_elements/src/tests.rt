use crate::{Block, BlockErr, Member, NodeEl, kinds_of, read_block, read_header};
use std::alloc::Global;
use std::test::Fail;
use tb_types::{Bounds, Kind, Memory, OsmId, Tags, Why};
use tb_wire::put_len;

/// A block for each reason, and the reasons beside one another in either order. The table of strings is "", "k", "v".
pub(crate) const REASONS: [(&[u8], Option<Why>); 29] = [
    // nothing at all
    (b"", None),
    // a wire type of a group
    (
        b"\x0a\x08\x0a\x00\x0a\x01\x6b\x0a\x01\x76\x12\x05\x0d\x00\x00\x00\x00",
        Some(Why::Wire),
    ),
    // a node without a latitude
    (
        b"\x0a\x08\x0a\x00\x0a\x01\x6b\x0a\x01\x76\x12\x06\x0a\x04\x08\x02\x48\x00",
        Some(Why::Missing),
    ),
    // keys without values
    (
        b"\x0a\x08\x0a\x00\x0a\x01\x6b\x0a\x01\x76\x12\x0d\x0a\x0b\x08\x02\x12\x01\x01\x1a\x00\x40\x00\x48\x00",
        Some(Why::Uneven),
    ),
    // an index one past the table
    (
        b"\x0a\x08\x0a\x00\x0a\x01\x6b\x0a\x01\x76\x12\x0e\x0a\x0c\x08\x02\x12\x01\x01\x1a\x01\x03\x40\x00\x48\x00",
        Some(Why::Index),
    ),
    // a kind of member above 2
    (
        b"\x0a\x08\x0a\x00\x0a\x01\x6b\x0a\x01\x76\x12\x0a\x22\x08\x08\x01\x4a\x01\x02\x52\x01\x03",
        Some(Why::Range),
    ),
    // wire behind missing
    (
        b"\x0a\x08\x0a\x00\x0a\x01\x6b\x0a\x01\x76\x12\x06\x0a\x04\x08\x02\x48\x00\x12\x05\x0d\x00\x00\x00\x00",
        Some(Why::Wire),
    ),
    // wire before missing
    (
        b"\x0a\x08\x0a\x00\x0a\x01\x6b\x0a\x01\x76\x12\x05\x0d\x00\x00\x00\x00\x12\x06\x0a\x04\x08\x02\x48\x00",
        Some(Why::Wire),
    ),
    // missing behind uneven
    (
        b"\x0a\x08\x0a\x00\x0a\x01\x6b\x0a\x01\x76\x12\x0d\x0a\x0b\x08\x02\x12\x01\x01\x1a\x00\x40\x00\x48\x00\x12\x06\x0a\x04\x08\x02\x48\x00",
        Some(Why::Missing),
    ),
    // missing before uneven
    (
        b"\x0a\x08\x0a\x00\x0a\x01\x6b\x0a\x01\x76\x12\x06\x0a\x04\x08\x02\x48\x00\x12\x0d\x0a\x0b\x08\x02\x12\x01\x01\x1a\x00\x40\x00\x48\x00",
        Some(Why::Missing),
    ),
    // uneven behind index
    (
        b"\x0a\x08\x0a\x00\x0a\x01\x6b\x0a\x01\x76\x12\x0e\x0a\x0c\x08\x02\x12\x01\x01\x1a\x01\x03\x40\x00\x48\x00\x12\x0d\x0a\x0b\x08\x02\x12\x01\x01\x1a\x00\x40\x00\x48\x00",
        Some(Why::Uneven),
    ),
    // uneven before index
    (
        b"\x0a\x08\x0a\x00\x0a\x01\x6b\x0a\x01\x76\x12\x0d\x0a\x0b\x08\x02\x12\x01\x01\x1a\x00\x40\x00\x48\x00\x12\x0e\x0a\x0c\x08\x02\x12\x01\x01\x1a\x01\x03\x40\x00\x48\x00",
        Some(Why::Uneven),
    ),
    // index behind range
    (
        b"\x0a\x08\x0a\x00\x0a\x01\x6b\x0a\x01\x76\x12\x0a\x22\x08\x08\x01\x4a\x01\x02\x52\x01\x03\x12\x0e\x0a\x0c\x08\x02\x12\x01\x01\x1a\x01\x03\x40\x00\x48\x00",
        Some(Why::Index),
    ),
    // index before range
    (
        b"\x0a\x08\x0a\x00\x0a\x01\x6b\x0a\x01\x76\x12\x0e\x0a\x0c\x08\x02\x12\x01\x01\x1a\x01\x03\x40\x00\x48\x00\x12\x0a\x22\x08\x08\x01\x4a\x01\x02\x52\x01\x03",
        Some(Why::Index),
    ),
    // an index past the table in one group, a node without a latitude in the next
    (
        b"\x0a\x08\x0a\x00\x0a\x01\x6b\x0a\x01\x76\x12\x0e\x0a\x0c\x08\x02\x12\x01\x01\x1a\x01\x03\x40\x00\x48\x00\x12\x06\x0a\x04\x08\x02\x48\x00",
        Some(Why::Missing),
    ),
    // a packed list that ends inside a varint
    (
        b"\x0a\x08\x0a\x00\x0a\x01\x6b\x0a\x01\x76\x12\x0b\x0a\x09\x08\x02\x12\x01\x80\x40\x00\x48\x00",
        Some(Why::Wire),
    ),
    // a way without an id
    (
        b"\x0a\x08\x0a\x00\x0a\x01\x6b\x0a\x01\x76\x12\x05\x1a\x03\x42\x01\x02",
        Some(Why::Missing),
    ),
    // dense lists of unlike lengths
    (
        b"\x0a\x08\x0a\x00\x0a\x01\x6b\x0a\x01\x76\x12\x0d\x12\x0b\x0a\x02\x02\x04\x42\x01\x00\x4a\x02\x00\x00",
        Some(Why::Uneven),
    ),
    // tags of nodes, of which there are none
    (
        b"\x0a\x08\x0a\x00\x0a\x01\x6b\x0a\x01\x76\x12\x0b\x12\x09\x0a\x00\x42\x00\x4a\x00\x52\x01\x00",
        Some(Why::Uneven),
    ),
    // tags that no 0 ends
    (
        b"\x0a\x08\x0a\x00\x0a\x01\x6b\x0a\x01\x76\x12\x0f\x12\x0d\x0a\x01\x02\x42\x01\x00\x4a\x01\x00\x52\x02\x01\x02",
        Some(Why::Uneven),
    ),
    // one end too many
    (
        b"\x0a\x08\x0a\x00\x0a\x01\x6b\x0a\x01\x76\x12\x0f\x12\x0d\x0a\x01\x02\x42\x01\x00\x4a\x01\x00\x52\x02\x00\x00",
        Some(Why::Uneven),
    ),
    // a pair behind the end of the last node's
    (
        b"\x0a\x08\x0a\x00\x0a\x01\x6b\x0a\x01\x76\x12\x12\x12\x10\x0a\x01\x02\x42\x01\x00\x4a\x01\x00\x52\x05\x01\x02\x00\x01\x02",
        Some(Why::Uneven),
    ),
    // a pair of no node
    (
        b"\x0a\x08\x0a\x00\x0a\x01\x6b\x0a\x01\x76\x12\x0c\x12\x0a\x0a\x00\x42\x00\x4a\x00\x52\x02\x01\x02",
        Some(Why::Uneven),
    ),
    // a key of -1
    (
        b"\x0a\x08\x0a\x00\x0a\x01\x6b\x0a\x01\x76\x12\x19\x12\x17\x0a\x01\x02\x42\x01\x00\x4a\x01\x00\x52\x0c\xff\xff\xff\xff\xff\xff\xff\xff\xff\x01\x02\x00",
        Some(Why::Index),
    ),
    // members and kinds of unlike lengths
    (
        b"\x0a\x08\x0a\x00\x0a\x01\x6b\x0a\x01\x76\x12\x0b\x22\x09\x08\x01\x4a\x02\x02\x04\x52\x01\x00",
        Some(Why::Uneven),
    ),
    // a granularity of 0
    (
        b"\x88\x01\x00\x0a\x08\x0a\x00\x0a\x01\x6b\x0a\x01\x76",
        Some(Why::Range),
    ),
    // a granularity of -1
    (
        b"\x88\x01\xff\xff\xff\xff\xff\xff\xff\xff\xff\x01\x0a\x08\x0a\x00\x0a\x01\x6b\x0a\x01\x76",
        Some(Why::Range),
    ),
    // a sum of refs past 64 bits
    (
        b"\x0a\x08\x0a\x00\x0a\x01\x6b\x0a\x01\x76\x12\x11\x1a\x0f\x08\x01\x42\x0b\xfe\xff\xff\xff\xff\xff\xff\xff\xff\x01\x02",
        Some(Why::Range),
    ),
    // a sum of refs below 64 bits
    (
        b"\x0a\x08\x0a\x00\x0a\x01\x6b\x0a\x01\x76\x12\x11\x1a\x0f\x08\x01\x42\x0b\xff\xff\xff\xff\xff\xff\xff\xff\xff\x01\x01",
        Some(Why::Range),
    ),
];

#[test]
fn the_first_reason_is_named(rt: HostRuntime) -> Result<(), Fail> {
    for (raw, want) in REASONS {
        let got = match read_block(rt.alloc(), raw) {
            Ok(_) => None,
            Err(BlockErr::Bad(why)) => Some(why),
            Err(BlockErr::Memory) => Some(Why::Cut),
        };
        assert!(rt; got == want, "{got:?} of {raw:?}");
    }
    Ok(())
}

const HEADERS: [(&[u8], Result<Option<Bounds>, BlockErr>); 13] = [
    // nothing at all
    (b"", Ok(None)),
    // both features
    (
        b"\x22\x0e\x4f\x73\x6d\x53\x63\x68\x65\x6d\x61\x2d\x56\x30\x2e\x36\x22\x0a\x44\x65\x6e\x73\x65\x4e\x6f\x64\x65\x73",
        Ok(None),
    ),
    // a box
    (
        b"\x0a\x18\x08\xff\xa7\xd6\xb9\x07\x10\x80\xd0\xac\xf3\x0e\x18\x80\xa0\xd9\xe6\x1d\x20\xff\xf7\x82\xad\x16",
        Ok(Some(Bounds {
            left: -1_000_000_000,
            right: 2_000_000_000,
            top: 4_000_000_000,
            bottom: -3_000_000_000,
        })),
    ),
    // a box in two parts
    (
        b"\x0a\x04\x08\x02\x10\x04\x0a\x04\x18\x08\x20\x06",
        Ok(Some(Bounds {
            left: 1,
            right: 2,
            top: 4,
            bottom: 3,
        })),
    ),
    // left above right
    (b"\x0a\x08\x08\x04\x10\x02\x18\x08\x20\x06", Ok(None)),
    // bottom above top
    (b"\x0a\x08\x08\x02\x10\x04\x18\x06\x20\x08", Ok(None)),
    // a top above 90 degrees
    (
        b"\x0a\x0d\x08\x02\x10\x04\x18\x82\x90\xd8\xc6\x9e\x05\x20\x00",
        Ok(None),
    ),
    // a box without its bottom
    (
        b"\x0a\x06\x08\x02\x10\x04\x18\x08",
        Err(BlockErr::Bad(Why::Missing)),
    ),
    // a box without its bottom, and a feature
    (
        b"\x22\x01\x58\x0a\x02\x08\x02",
        Err(BlockErr::Bad(Why::Missing)),
    ),
    // the same, the feature behind the box
    (
        b"\x0a\x02\x08\x02\x22\x01\x58",
        Err(BlockErr::Bad(Why::Missing)),
    ),
    // a feature
    (
        b"\x22\x15\x48\x69\x73\x74\x6f\x72\x69\x63\x61\x6c\x49\x6e\x66\x6f\x72\x6d\x61\x74\x69\x6f\x6e",
        Err(BlockErr::Bad(Why::Feature)),
    ),
    // a feature, and a box of another wire type
    (b"\x22\x01\x58\x08\x01", Err(BlockErr::Bad(Why::Wire))),
    // another field of any wire type
    (b"\x80\x01\x01\x9d\x06\x00\x00\x00\x00", Ok(None)),
];

#[test]
fn headers_have_a_box_or_a_reason(rt: HostRuntime) -> Result<(), Fail> {
    for (raw, want) in HEADERS {
        let got = read_header(rt.alloc(), raw);
        assert!(rt; got == want, "{got:?} of {raw:?}");
    }
    Ok(())
}

/// A group of a relation, a way, dense nodes in two parts and a node, a table in two parts, a granularity that is named
/// twice, and a second group.
pub(crate) const MIXED: &[u8] =
    b"\x0a\x05\x0a\x00\x0a\x01\x6b\x88\x01\xe8\x07\x98\x01\xfb\xff\xff\xff\xff\xff\xff\xff\xff\x01\x12\x64\x22\x15\x08\xf7\xff\xff\xff\xff\xff\xff\xff\xff\x01\x4a\x03\x0a\x03\x02\x52\x03\x00\x01\x02\x1a\x0f\x08\x03\x12\x02\x01\x01\x1a\x02\x00\x02\x42\x03\x14\x02\x03\x12\x11\x0a\x02\x14\x02\x42\x02\x0a\x02\x4a\x02\x0e\x02\x52\x03\x01\x02\x00\x12\x16\x0a\x01\x02\x40\x01\x48\x80\x80\x80\x80\x80\x40\x52\x08\x01\x03\x01\x04\x01\x02\x00\x00\x0a\x0f\x08\x07\x12\x01\x01\x1a\x01\x02\x40\x80\xaa\xea\x55\x48\x02\x88\x01\xe8\x87\x80\x80\x10\x0a\x09\x0a\x01\x76\x0a\x01\xff\x0a\x01\x77\xa0\x01\x0b\x12\x08\x0a\x06\x08\x10\x40\x00\x48\x00";

/// What is wanted of its nodes: number, id, location (0 and 0 where it is missing) and the value of the one tag.
const NODES: [(u32, i64, i64, i64, &str); 5] = [
    (0, -4, 89_999_999_995, 1011, "v"),
    (1, 10, 4995, 7011, "v"),
    (2, 11, 5995, 8011, "w"),
    (3, 12, 0, 0, "none"),
    (6, 8, -5, 11, "none"),
];

fn value(tags: &Tags) -> &str {
    match tags.pairs.as_slice() {
        [tag] => tag.1.as_str(),
        _ => "none",
    }
}

fn is_node(node: &NodeEl, want: &(u32, i64, i64, i64, &str)) -> bool {
    let (lat, lon) = match node.at {
        Some(at) => (at.lat, at.lon),
        None => (0, 0),
    };
    node.index == want.0
        && node.id.0 == want.1
        && lat == want.2
        && lon == want.3
        && value(&node.tags) == want.4
}

#[test]
fn elements_are_read(rt: HostRuntime) -> Result<(), Fail> {
    let block = match read_block(rt.alloc(), MIXED) {
        Ok(block) => block,
        Err(e) => {
            assert!(rt; false, "{e:?}");
            return Ok(());
        }
    };
    assert!(rt; block.nodes.as_slice().len() == NODES.len());
    for (node, want) in block.nodes.as_slice().iter().zip(NODES.iter()) {
        assert!(rt; is_node(node, want), "{node:?}");
    }
    let ways = block.ways.as_slice();
    assert!(rt;
        ways.len() == 1 && ways[0].index == 4 && ways[0].id.0 == 3 && value(&ways[0].tags) == ""
    );
    assert!(rt; ways[0].refs.as_slice() == [OsmId(10), OsmId(11), OsmId(9)].as_slice());
    let relations = block.relations.as_slice();
    assert!(rt; relations.len() == 1 && relations[0].index == 5 && relations[0].id.0 == -9);
    let members = [
        Member {
            kind: Kind::Node,
            id: OsmId(5),
        },
        Member {
            kind: Kind::Way,
            id: OsmId(3),
        },
        Member {
            kind: Kind::Relation,
            id: OsmId(4),
        },
    ];
    assert!(rt; relations[0].members.as_slice() == members.as_slice());
    let kinds = kinds_of(&block);
    assert!(rt; kinds.nodes && kinds.ways && kinds.relations);
    Ok(())
}

/// More of each than a number of 16 bits counts.
const MANY: usize = 70_000;

// A field with as many bytes of one value: differences, or kinds of members.
fn put_many(out: &mut Vec<u8>, alloc: Global, number: u32, byte: u8) -> Result<(), Memory> {
    let bytes = vec![in alloc; byte; MANY]?;
    put_len(out, number, &bytes)
}

// Dense nodes with the ids from 1 on.
fn many_nodes(alloc: Global) -> Result<Vec<u8>, Memory> {
    let mut dense = Vec::new(alloc);
    put_many(&mut dense, alloc, 1, 2)?;
    put_many(&mut dense, alloc, 8, 0)?;
    put_many(&mut dense, alloc, 9, 0)?;
    Ok(dense)
}

// Way 1 with the refs from 1 on.
fn long_way(alloc: Global) -> Result<Vec<u8>, Memory> {
    let mut way = Vec::from_slice(alloc, b"\x08\x01")?;
    put_many(&mut way, alloc, 8, 2)?;
    Ok(way)
}

// Relation 1 with the members from 1 on, which are nodes.
fn long_relation(alloc: Global) -> Result<Vec<u8>, Memory> {
    let mut relation = Vec::from_slice(alloc, b"\x08\x01")?;
    put_many(&mut relation, alloc, 9, 2)?;
    put_many(&mut relation, alloc, 10, 0)?;
    Ok(relation)
}

fn large_group(alloc: Global) -> Result<Vec<u8>, Memory> {
    let mut group = Vec::new(alloc);
    put_len(&mut group, 2, &many_nodes(alloc)?)?;
    put_len(&mut group, 3, &long_way(alloc)?)?;
    put_len(&mut group, 4, &long_relation(alloc)?)?;
    Ok(group)
}

fn large_block(alloc: Global) -> Result<Block, BlockErr> {
    let mut raw = Vec::new(alloc);
    put_len(&mut raw, 2, &large_group(alloc)?)?;
    read_block(alloc, &raw)
}

#[test]
fn a_large_block_is_read(rt: HostRuntime) -> Result<(), BlockErr> {
    let block = large_block(rt.alloc())?;
    let nodes = block.nodes.as_slice();
    assert!(rt; nodes.len() == MANY);
    assert!(rt; nodes[MANY - 1].index == 69_999 && nodes[MANY - 1].id == OsmId(70_000));
    let ways = block.ways.as_slice();
    assert!(rt; ways.len() == 1 && ways[0].index == 70_000);
    let refs = ways[0].refs.as_slice();
    assert!(rt; refs.len() == MANY && refs[MANY - 1] == OsmId(70_000));
    let relations = block.relations.as_slice();
    assert!(rt; relations.len() == 1 && relations[0].index == 70_001);
    let members = relations[0].members.as_slice();
    assert!(rt; members.len() == MANY && members[MANY - 1].id == OsmId(70_000));
    Ok(())
}

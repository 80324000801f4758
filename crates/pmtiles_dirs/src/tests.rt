use crate::{
    DirEntry, Meta, MetaLayer, Sizes, map_header, metadata_text, plan_leaves, put_dir, put_header,
    read_dir, take_header,
};
use std::alloc::Global;
use tb_types::{Bounds, FieldKind, Memory, Seq, Text};

const ENTRIES: [DirEntry; 3] = [
    DirEntry {
        id: 5,
        run: 3,
        len: 10,
        offset: 0,
    },
    DirEntry {
        id: 8,
        run: 1,
        len: 20,
        offset: 10,
    },
    DirEntry {
        id: 9,
        run: 1,
        len: 10,
        offset: 0,
    },
];

const DIRECTORY: &[u8] = b"\x03\x05\x03\x01\x03\x01\x01\x0a\x14\x0a\x01\x00\x01";

#[test]
fn directories_go_both_ways(rt: HostRuntime) -> Result<(), Memory> {
    let alloc = rt.alloc();
    assert!(rt; put_dir(alloc, &ENTRIES)?.as_slice() == DIRECTORY);
    let dirs = plan_leaves(alloc, &ENTRIES)?;
    assert!(rt; dirs.root.as_slice() == DIRECTORY && dirs.leaves.as_slice().len() == 0);
    match read_dir(alloc, DIRECTORY)? {
        Some(found) => assert!(rt; found.as_slice() == ENTRIES.as_slice()),
        None => assert!(rt; false, "it is a directory"),
    }
    Ok(())
}

#[test]
fn bytes_that_are_no_directory(rt: HostRuntime) -> Result<(), Memory> {
    let alloc = rt.alloc();
    let refused: [&[u8]; 6] = [
        b"",
        b"\x01\x00\x01\x30",
        b"\x01\x00\x01\x30\x00",
        b"\x00\x00\x00",
        b"\x80\x80\x80\x80\x80\x80\x80\x80\x10",
        b"\x02\x03\x00\x01\x01\x01\x01\x01\x00",
    ];
    for bytes in refused {
        assert!(rt; read_dir(alloc, bytes)?.is_none());
    }
    Ok(())
}

// The header of a map with zooms 2 to 14 and this box, whose sections have 13, 77, 5 and 30 bytes.
const BOX: Bounds = Bounds {
    left: -101,
    right: 250_000_000,
    top: -1,
    bottom: -1_000_000_099,
};

const SIZES: Sizes = Sizes {
    root_len: 13,
    meta_len: 77,
    leaves_len: 5,
    tiles_len: 30,
    tile_count: 5,
    entry_count: 3,
    content_count: 2,
};

const HEADER: &[u8] =
    b"\x50\x4d\x54\x69\x6c\x65\x73\x03\x7f\x00\x00\x00\x00\x00\x00\x00\x0d\x00\x00\x00\x00\x00\x00\x00\x8c\x00\x00\x00\x00\x00\x00\x00\x4d\x00\x00\x00\x00\x00\x00\x00\xd9\x00\x00\x00\x00\x00\x00\x00\x05\x00\x00\x00\x00\x00\x00\x00\xde\x00\x00\x00\x00\x00\x00\x00\x1e\x00\x00\x00\x00\x00\x00\x00\x05\x00\x00\x00\x00\x00\x00\x00\x03\x00\x00\x00\x00\x00\x00\x00\x02\x00\x00\x00\x00\x00\x00\x00\x01\x01\x01\x01\x02\x0e\xfe\xff\xff\xff\x7f\x69\x67\xff\xa0\x25\x26\x00\xff\xff\xff\xff\x02\xcf\x12\x13\x00\xbf\xb4\xb3\xff";

const METADATA: &str =
    "{\"name\":\"map\",\"vector_layers\":[{\"fields\":{\"a\":\"Boolean\",\"b\":\"String\"},\"id\":\"l\"}]}";

fn text(alloc: Global, of: &str) -> Result<Text, Memory> {
    let mut text = Text::new(alloc);
    text.push_str(of)?;
    Ok(text)
}

// A map whose one layer has a name with two kinds.
fn map(alloc: Global) -> Result<Meta, Memory> {
    let mut fields = Seq::new(alloc);
    fields.push((text(alloc, "b")?, FieldKind::Number))?;
    fields.push((text(alloc, "a")?, FieldKind::Boolean))?;
    fields.push((text(alloc, "b")?, FieldKind::Boolean))?;
    let mut layers = Seq::new(alloc);
    layers.push(MetaLayer {
        id: text(alloc, "l")?,
        fields,
    })?;
    Ok(Meta {
        name: text(alloc, "map")?,
        layers,
        min: 2,
        max: 14,
        bounds: None,
    })
}

#[test]
fn headers_and_metadata(rt: HostRuntime) -> Result<(), Memory> {
    let alloc = rt.alloc();
    let mut meta = map(alloc)?;
    meta.bounds = Some(BOX);
    let header = map_header(&meta, SIZES);
    let mut bytes = [0; 127];
    put_header(&header, &mut bytes);
    assert!(rt; bytes.as_slice() == HEADER);
    assert!(rt; take_header(&bytes) == header);
    let written = metadata_text(alloc, meta.name.as_str(), meta.layers.as_slice())?;
    assert!(rt; written.as_str() == METADATA);
    Ok(())
}

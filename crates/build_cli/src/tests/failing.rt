use super::{CAFE, Faults, NONE, nodes};
use std::test::Fail;

// The survey's calls of the reader over the header frame and one data frame: the size, two loads for each header, and one
// for each body.
const SURVEY_CALLS: u64 = 7;

// Behind it the block of nodes is loaded again.
const READER_CALLS: u64 = SURVEY_CALLS + 1;

// The pieces of the line of success, and that line.
const SUCCESS_CALLS: u64 = 9;

const SUCCESS: &[u8] = b"built: tiles 1, entries 1, contents 1, bytes 257\n";

// The extract with a compressed header.
const DAMAGED: &[u8] =
    b"\x00\x00\x00\x0d\x0a\x09OSMHeader\x18\x02\x1a\x00\x00\x00\x00\x0b\x0a\x07OSMData\x18\x25\x0a\x23\x0a\x11\x0a\x00\x0a\x07amenity\x0a\x04cafe\x12\x0e\x0a\x0c\x08\x02\x12\x01\x01\x1a\x01\x02\x40\x00\x48\x00";

#[test]
fn reader_faults_are_told(rt: HostRuntime) -> Result<(), Fail> {
    let alloc = rt.alloc();
    for call in 0..READER_CALLS + 1 {
        let faults = Faults {
            reader: &[call],
            ..NONE
        };
        let ran = nodes(alloc, "amenity", CAFE, &faults)?;
        let fails = call < READER_CALLS;
        assert!(rt; ran.status == if fails { 7 } else { 0 }, "call {call}");
        assert!(rt;
            !fails
                || ran.archive.bytes().is_empty()
                    && ran.console.bytes() == b"source: lane 0\n".as_slice(),
            "call {call}"
        );
    }
    // A fault behind damage is answered before it.
    let faults = Faults {
        reader: &[SURVEY_CALLS - 1],
        ..NONE
    };
    let ran = nodes(alloc, "amenity", DAMAGED, &faults)?;
    assert!(rt; ran.status == 7, "a fault behind damage");
    let ran = nodes(alloc, "amenity", DAMAGED, &NONE)?;
    assert!(rt; ran.status == 4, "damage alone");
    Ok(())
}

#[test]
fn sink_faults_are_told(rt: HostRuntime) -> Result<(), Fail> {
    let alloc = rt.alloc();
    let whole = nodes(alloc, "amenity", CAFE, &NONE)?.archive;
    // The calls that fail, the room of the archive's sink, the status, how much of the archive is there, the console.
    let cases: [(Faults<'_>, u8, usize, &[u8]); 3] = [
        (
            Faults {
                archive: &[0],
                ..NONE
            },
            9,
            0,
            b"sink: archive\n",
        ),
        (
            Faults {
                console: &[2],
                ..NONE
            },
            9,
            257,
            b"built: tiles 1",
        ),
        (Faults { room: 200, ..NONE }, 9, 200, b"sink: archive\n"),
    ];
    for (faults, status, len, line) in cases {
        let ran = nodes(alloc, "amenity", CAFE, &faults)?;
        assert!(rt; ran.status == status && ran.archive.bytes().len() == len);
        assert!(rt;
            whole.bytes().starts_with(ran.archive.bytes()),
            "a prefix of the archive"
        );
        assert!(rt; ran.console.bytes() == line);
    }
    for call in 0..SUCCESS_CALLS + 1 {
        let faults = Faults {
            console: &[call],
            ..NONE
        };
        let ran = nodes(alloc, "amenity", CAFE, &faults)?;
        let fails = call < SUCCESS_CALLS;
        assert!(rt; ran.status == if fails { 9 } else { 0 }, "call {call}");
        assert!(rt; SUCCESS.starts_with(ran.console.bytes()) && ran.archive.bytes().len() == 257);
    }
    let silent = Faults {
        console: &[0],
        ..NONE
    };
    let ran = nodes(alloc, "amenity", b"", &silent)?;
    assert!(rt;
        ran.status == 4 && ran.console.bytes().is_empty(),
        "a refusal stands"
    );
    Ok(())
}

/// The calls of the spool over one tile: a run is begun, written and ended, and then read.
const SPOOL_CALLS: u64 = 4;

#[test]
fn spool_faults_are_told(rt: HostRuntime) -> Result<(), Fail> {
    let alloc = rt.alloc();
    let whole = nodes(alloc, "amenity", CAFE, &NONE)?.archive;
    for call in 0..SPOOL_CALLS + 1 {
        let faults = Faults {
            spool: &[call],
            ..NONE
        };
        let ran = nodes(alloc, "amenity", CAFE, &faults)?;
        let fails = call < SPOOL_CALLS;
        let line = if fails {
            b"spill: spool\n".as_slice()
        } else {
            SUCCESS
        };
        assert!(rt; ran.status == if fails { 8 } else { 0 }, "call {call}");
        assert!(rt; ran.console.bytes() == line, "call {call}");
        // Nothing is appended before all tiles stand in the spool, and then a prefix.
        let len = ran.archive.bytes().len();
        assert!(rt; call + 1 >= SPOOL_CALLS || len == 0, "call {call}");
        assert!(rt;
            whole.bytes().starts_with(ran.archive.bytes()),
            "call {call}"
        );
    }
    Ok(())
}

/// The calls of the lane's spill over one item: a run is begun, written and ended, and then read.
const SPILL_CALLS: u64 = 4;

#[test]
fn spill_faults_are_told(rt: HostRuntime) -> Result<(), Fail> {
    let alloc = rt.alloc();
    for call in 0..SPILL_CALLS + 1 {
        let faults = Faults {
            spill: &[call],
            ..NONE
        };
        let ran = nodes(alloc, "amenity", CAFE, &faults)?;
        let fails = call < SPILL_CALLS;
        let line = if fails {
            b"spill: lane 0\n".as_slice()
        } else {
            SUCCESS
        };
        assert!(rt; ran.status == if fails { 8 } else { 0 }, "call {call}");
        assert!(rt; ran.console.bytes() == line, "call {call}");
        // Nothing is appended before all tiles stand in the spool.
        assert!(rt; ran.archive.bytes().is_empty() == fails, "call {call}");
    }
    Ok(())
}

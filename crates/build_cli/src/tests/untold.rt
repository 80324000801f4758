//! Objects that tell nothing, and give other bytes than they took.

ghost use Rattle.std.specs.Prelude.{None};

use super::again::road;
use super::ways::P1;
use super::{CAFE, reader_of, sink_of, words_for};
use crate::run_one;
use std::alloc::Global;
use std::test::Fail;
use tb_outside::{Failed, Lane, MemSpill, Source, Spill, SpillErr};
use tb_types::Memory;

/// A spill whose runs have the number 7, and are read as zeros.
#[derive(Drop)]
struct Zeros;

impl Spill for Zeros {
    ghost seen = { λ s. record { runs = None; faults = 0 } };

    fn begin_run(&mut self) -> Result<u64, SpillErr> {
        Ok(7)
    }

    fn append(&mut self, _piece: &[u8]) -> Result<(), SpillErr> {
        Ok(())
    }

    fn end_run(&mut self) -> Result<u64, Failed> {
        Ok(0)
    }

    fn read_run(&mut self, _run: u64, _at: u64, out: &mut [u8]) -> Result<(), Failed> {
        out.fill(0);
        Ok(())
    }
}

#[test]
fn items_that_were_not_written_are_told(rt: HostRuntime) -> Result<(), Fail> {
    let alloc = rt.alloc();
    let mut profile = reader_of(alloc, b"", &[])?;
    let mut lane = Lane {
        reader: reader_of(alloc, CAFE, &[])?,
        spill: Zeros,
    };
    let mut spool = Zeros;
    let mut archive = sink_of(alloc, 1000, &[])?;
    let mut console = sink_of(alloc, 200, &[])?;
    let status = run_one(
        alloc,
        &words_for(alloc, "nodes", "amenity")?,
        &mut profile,
        &mut lane,
        &mut spool,
        &mut archive,
        &mut console,
    );
    assert!(rt; status == 8 && archive.bytes().is_empty());
    assert!(rt; console.bytes() == b"spill: lane 0 run 7 at 0\n".as_slice());
    Ok(())
}

/// A source that gives zeros in the place of all bytes, but for so many loads.
#[derive(Drop)]
struct Fickle {
    bytes: Vec<u8>,
    good: u64,
}

impl Source for Fickle {
    ghost use Rattle.std.specs.Prelude.{None, refl};

    ghost seen = { λ s. record { bytes = None; log = None; faults = 0 } };

    ghost same_told = { λ a b. refl };

    fn size(&mut self) -> Result<u64, Failed> {
        Ok(self.bytes.len() as u64)
    }

    fn load(&mut self, at: u64, out: &mut [u8]) -> Result<(), Failed> {
        out.fill(0);
        if self.good == 0 {
            return Ok(());
        }
        self.good -= 1;
        let rest = self.bytes.iter().skip(at as usize);
        for (to, from) in out.iter_mut().zip(rest) {
            *to = *from;
        }
        Ok(())
    }
}

// The status, the bytes of the archive, and the line of a build of the road, whose extract gives zeros behind so many loads.
fn build_fickle(alloc: Global, good: u64) -> Result<(u8, usize, Vec<u8>), Memory> {
    let mut profile = Fickle {
        bytes: Vec::from_slice(alloc, P1)?,
        good: 1,
    };
    let reader = Fickle {
        bytes: road(alloc)?,
        good,
    };
    let mut lane = Lane {
        reader,
        spill: MemSpill::new(alloc, Vec::new(alloc))?,
    };
    let mut spool = MemSpill::new(alloc, Vec::new(alloc))?;
    let mut archive = sink_of(alloc, 1000, &[])?;
    let mut console = sink_of(alloc, 200, &[])?;
    let status = run_one(
        alloc,
        &words_for(alloc, "build", "p")?,
        &mut profile,
        &mut lane,
        &mut spool,
        &mut archive,
        &mut console,
    );
    let line = Vec::from_slice(alloc, console.bytes())?;
    Ok((status, archive.bytes().len(), line))
}

/// So many loads, and the line. The scan has eight and the survey four, then come the block of the way, the two of nodes, and
/// that of the way again.
const LOADS: [(u64, &[u8]); 4] = [
    (12, b"changed: pass members: block 3\n"),
    (13, b"changed: pass nodes: block 1\n"),
    (14, b"changed: pass nodes: block 2\n"),
    (15, b"changed: pass ways: block 3\n"),
];

#[test]
fn changed_blocks_are_told(rt: HostRuntime) -> Result<(), Fail> {
    for (good, told) in LOADS {
        let (status, len, line) = build_fickle(rt.alloc(), good)?;
        assert!(rt; status == 12 && len == 0, "{good} loads");
        assert!(rt; line.as_slice() == told, "{good} loads");
    }
    Ok(())
}

//! Whole commands over objects in memory, as tables.

ghost use Rattle.std.specs.Prelude.{◌≡◌, ◌++◌, map, string_bytes, Some, IfOk, IfSome};
ghost use Rattle.build_one.specs.Answers.{OnBuilt};
ghost use Rattle.build_cli.specs.Command.{command_of};
ghost use Rattle.build_cli.specs.Told.{due_of};

mod again;
mod budget;
mod damage;
mod edges;
mod failing;
mod generate;
mod looks;
mod many;
mod maps;
mod places;
mod profiles;
mod relations;
mod trials;
mod untold;
mod ways;
mod wide;
mod words;
mod zooms;

use crate::run_one;
use std::alloc::Global;
use tb_outside::{Lane, MemSink, MemSource, MemSpill};
use tb_types::Memory;

/// The header frame.
const HEADER: &[u8] = b"\x00\x00\x00\x0d\x0a\x09OSMHeader\x18\x02\x0a\x00";

/// The header frame, and node 1 at 0,0 with `amenity=cafe`.
const CAFE: &[u8] =
    b"\x00\x00\x00\x0d\x0a\x09OSMHeader\x18\x02\x0a\x00\x00\x00\x00\x0b\x0a\x07OSMData\x18\x25\x0a\x23\x0a\x11\x0a\x00\x0a\x07amenity\x0a\x04cafe\x12\x0e\x0a\x0c\x08\x02\x12\x01\x01\x1a\x01\x02\x40\x00\x48\x00";

// Runs the words of a command with a reader, a spill, a spool and two sinks in memory. That they tell their content shows in the
// clause: with status 0 the archive's sink has the archive's text more.
fn run(
    alloc: Global,
    words: &[String],
    profile: MemSource,
    reader: MemSource,
    spill: MemSpill,
    spool: MemSpill,
    archive: &mut MemSink,
    console: &mut MemSink,
) -> Result<u8, Memory>
    ensures { IfOk result (λ status. status ≡ 0 → IfSome (due_of (command_of (map (λ word. string_bytes word) words.now)) profile.bytes reader.bytes) (λ d. OnBuilt d (λ built. archive.new.bytes ≡ archive.old.bytes ++ built.bytes))) }
{
    let mut profile = profile;
    let mut spool = spool;
    let mut lane = Lane { reader, spill };
    Ok(run_one(
        alloc,
        words,
        &mut profile,
        &mut lane,
        &mut spool,
        archive,
        console,
    ))
}

// The words of a command with its first argument, `e` and `a`.
fn words_for(alloc: Global, name: &str, first: &str) -> Result<Vec<String>, Memory> {
    let mut words = Vec::new(alloc);
    for word in [name, first, "e", "a"] {
        words.push(String::from_str(alloc, word)?)?;
    }
    Ok(words)
}

/// Which calls of the sources, of the spill, of the spool and of the sinks fail, and how many bytes the archive's sink takes.
#[derive(Clone, Copy)]
struct Faults<'a> {
    profile: &'a [u64],
    reader: &'a [u64],
    spill: &'a [u64],
    spool: &'a [u64],
    archive: &'a [u64],
    console: &'a [u64],
    room: usize,
}

const NONE: Faults<'static> = Faults {
    profile: &[],
    reader: &[],
    spill: &[],
    spool: &[],
    archive: &[],
    console: &[],
    room: 100_000,
};

/// What a run answered, and what it wrote.
#[derive(Drop)]
struct Ran {
    status: u8,
    archive: MemSink,
    console: MemSink,
}

fn nodes(alloc: Global, key: &str, extract: &[u8], faults: &Faults<'_>) -> Result<Ran, Memory> {
    let words = words_for(alloc, "nodes", key)?;
    run_words(alloc, &words, b"", extract, faults)
}

fn build(
    alloc: Global,
    profile: &[u8],
    extract: &[u8],
    faults: &Faults<'_>,
) -> Result<Ran, Memory> {
    let words = words_for(alloc, "build", "p")?;
    run_words(alloc, &words, profile, extract, faults)
}

fn run_words(
    alloc: Global,
    words: &[String],
    profile: &[u8],
    extract: &[u8],
    faults: &Faults<'_>,
) -> Result<Ran, Memory> {
    let profile = reader_of(alloc, profile, faults.profile)?;
    let reader = reader_of(alloc, extract, faults.reader)?;
    let spill = MemSpill::new(alloc, Vec::from_slice(alloc, faults.spill)?)?;
    let spool = MemSpill::new(alloc, Vec::from_slice(alloc, faults.spool)?)?;
    let mut archive = sink_of(alloc, faults.room, faults.archive)?;
    let mut console = sink_of(alloc, 200, faults.console)?;
    let status = run(
        alloc,
        words,
        profile,
        reader,
        spill,
        spool,
        &mut archive,
        &mut console,
    )?;
    Ok(Ran {
        status,
        archive,
        console,
    })
}

fn reader_of(alloc: Global, extract: &[u8], fails: &[u64]) -> Result<MemSource, Memory> {
    let bytes = Vec::from_slice(alloc, extract)?;
    let fails = Vec::from_slice(alloc, fails)?;
    MemSource::new(alloc, bytes, 100, fails)
}

fn sink_of(alloc: Global, room: usize, fails: &[u64]) -> Result<MemSink, Memory> {
    let fails = Vec::from_slice(alloc, fails)?;
    MemSink::new(alloc, room, fails)
}

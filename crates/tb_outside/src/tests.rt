use crate::{
    FileSink, FileSource, FileSpill, FreeGate, Gate, MemSpill, Sink, Source, Spill, SpillErr,
    SteadySpill,
};
use std::fs;
use std::test::Fail;

const DATA: &str = "data";

const RUNS: &str = "runs";

const OTHERS: &str = "others";

#[test]
fn a_file_is_written_and_read_by_place(rt: HostRuntime) -> Result<(), Fail> {
    let alloc = rt.alloc();
    fs::write(&rt, DATA, "what stood there before")?;
    let mut sink = FileSink::new(&rt, String::from_str(alloc, DATA)?);
    assert!(rt; sink.append(b"abc").is_ok());
    assert!(rt; sink.append(b"defg").is_ok());
    let mut source = FileSource::new(&rt, String::from_str(alloc, DATA)?);
    assert!(rt; source.size() == Ok(7));
    let mut part = [0u8; 3];
    assert!(rt; source.load(2, &mut part).is_ok());
    assert!(rt; part == *b"cde");
    assert!(rt; source.load(5, &mut part).is_err(), "past the end");
    let mut nowhere = FileSource::new(&rt, String::from_str(alloc, "nowhere")?);
    assert!(rt; nowhere.size().is_err(), "no such file");
    Ok(())
}

#[test]
fn standard_output_is_a_sink(rt: HostRuntime) {
    let mut console = FileSink::stdout(&rt);
    assert!(rt; console.append(b"a line of a test\n").is_ok());
}

#[test]
fn a_file_keeps_runs_until_it_is_removed(rt: HostRuntime) -> Result<(), Fail> {
    let alloc = rt.alloc();
    let mut spill = FileSpill::new(&rt, alloc, String::from_str(alloc, RUNS)?);
    assert!(rt;
        spill.append(b"a") == Err(SpillErr::Failed),
        "no run is begun"
    );
    assert!(rt; fs::open(&rt, RUNS).is_err(), "no file is made yet");
    assert!(rt; spill.begin_run() == Ok(0));
    assert!(rt; spill.append(b"ab").is_ok());
    assert!(rt; spill.append(b"c").is_ok());
    assert!(rt; spill.begin_run() == Ok(1), "it ends the first");
    assert!(rt; spill.append(b"de").is_ok());
    assert!(rt; spill.end_run() == Ok(2));
    let mut part = [0u8; 2];
    assert!(rt; spill.read_run(0, 1, &mut part).is_ok());
    assert!(rt; part == *b"bc");
    assert!(rt; spill.read_run(1, 0, &mut part).is_ok());
    assert!(rt; part == *b"de");
    assert!(rt;
        spill.read_run(0, 2, &mut part).is_err(),
        "into the next run"
    );
    assert!(rt; spill.read_run(1, 1, &mut part).is_err(), "past its end");
    assert!(rt; spill.read_run(2, 0, &mut part).is_err(), "no such run");
    spill.remove();
    assert!(rt; fs::open(&rt, RUNS).is_err(), "the file is removed");
    Ok(())
}

#[test]
fn a_file_of_others_stays_until_a_run_is_begun(rt: HostRuntime) -> Result<(), Fail> {
    let alloc = rt.alloc();
    fs::write(&rt, OTHERS, "what others wrote")?;
    let spill = FileSpill::new(&rt, alloc, String::from_str(alloc, OTHERS)?);
    spill.remove();
    let mut source = FileSource::new(&rt, String::from_str(alloc, OTHERS)?);
    assert!(rt; source.size() == Ok(17));
    Ok(())
}

#[test]
fn runs_are_kept_in_memory(rt: HostRuntime) -> Result<(), SpillErr> {
    let alloc = rt.alloc();
    let mut spill = MemSpill::new(alloc, Vec::new(alloc)).map_err(|_| SpillErr::Memory)?;
    spill.begin_run()?;
    spill.append(b"abc")?;
    spill.begin_run()?;
    assert!(rt; spill.run(0) == b"abc".as_slice());
    let mut steady = SteadySpill::new(alloc);
    steady.begin_run()?;
    steady.append(b"de")?;
    assert!(rt; steady.end_run() == Ok(2));
    FreeGate.at_claim(0, 0, 0);
    Ok(())
}

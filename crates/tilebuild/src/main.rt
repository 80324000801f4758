//! The program: takes a command line, gives the files that it names to the command, and its status to the shell.
#![tactic(auto)]

use build_cli::{Names, names_of, refuse_memory, run_one};
use std::alloc::Global;
use std::env;
use std::process::ExitCode;
use tb_outside::{FileSink, FileSource, FileSpill, Lane};
use tb_types::{Memory, Seq, Text};

fn main(rt: HostRuntime) -> ExitCode {
    ExitCode::from(match run(&rt) {
        Ok(status) => status,
        Err(Memory) => refuse_memory(&mut FileSink::stdout(&rt)),
    })
}

// Opens what the words name, works the command, and removes the spill files that it made.
fn run(rt: &HostRuntime) -> Result<u8, Memory> {
    let alloc = rt.alloc();
    let words = words_of(rt)?;
    let names = match names_of(alloc, &words)? {
        Some(names) => names,
        None => no_names(alloc),
    };
    let mut profile = FileSource::new(rt, name(alloc, &names.profile, "")?);
    let mut lane = Lane {
        reader: FileSource::new(rt, first_reader(alloc, &names)?),
        spill: FileSpill::new(rt, alloc, name(alloc, &names.output, ".spill0")?),
    };
    let mut spool = FileSpill::new(rt, alloc, name(alloc, &names.output, ".spool")?);
    let mut archive = FileSink::new(rt, name(alloc, &names.output, "")?);
    let mut console = FileSink::stdout(rt);
    let status = run_one(
        alloc,
        &words,
        &mut profile,
        &mut lane,
        &mut spool,
        &mut archive,
        &mut console,
    );
    let Lane { spill, .. } = lane;
    spill.remove();
    spool.remove();
    Ok(status)
}

// The words behind the program's name, or none where one of them isn't UTF-8.
fn words_of(rt: &HostRuntime) -> Result<Vec<String>, Memory> {
    let mut words = Vec::new(rt.alloc());
    if let Ok(args) = env::args(rt) {
        for word in args.skip(1) {
            words.push(word)?;
        }
    }
    Ok(words)
}

// Words that are no command name no file.
fn no_names(alloc: Global) -> Names {
    Names {
        profile: Text::new(alloc),
        readers: Seq::new(alloc),
        output: Text::new(alloc),
    }
}

fn first_reader(alloc: Global, names: &Names) -> Result<String, Memory> {
    match names.readers.as_slice() {
        [] => Ok(String::new(alloc)),
        [first, ..] => name(alloc, first, ""),
    }
}

// A file's name with an ending.
fn name(alloc: Global, text: &Text, ending: &str) -> Result<String, Memory> {
    let mut name = String::from_str(alloc, text.as_str())?;
    name.push_str(ending)?;
    Ok(name)
}

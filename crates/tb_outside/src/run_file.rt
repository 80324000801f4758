ghost use Rattle.std.specs.Prelude.{◌≡◌, ◌+◌, ◌-◌, ◌^◌, ◌<◌, ◌≤◌, ◌↔◌, true, [], ◌++◌, min, map, length, IfOk, IfSome, IsErr, IsNone, IsSome, OnOk, None, Some, option_to_list, vec_len, vec_capacity};
ghost use Rattle.std.specs.Option.{option_map};
ghost use Rattle.tb_outside.specs.File.{LiesIn};

use crate::spill::SpillErr;
use std::alloc::Global;
use std::fs::OpenOptions;
use std::io;
use std::io::{Read, Seek, SeekFrom, Write};
use std::rt::Files;

/// Where a run lies in its file.
#[derive(Clone, Copy, Debug, PartialEq, Eq)]
pub struct Span {
    from: u64,
    pub len: u64,
}

impl Span {
    fn end(self) -> u64 {
        self.from.saturating_add(self.len)
    }
}

/// A file of runs, and where each lies in it.
#[derive(Drop)]
pub struct RunFile<'a, R: Files> {
    rt: &'a R,
    path: String,
    opened: Option<R::File>,
    pub ended: Vec<Span>,
    pub begun: Option<Span>,
    // the begun run can be ended without memory
    ghost room_to_end: { IsSome begun → vec_len ended < vec_capacity ended },
}

impl<'a, R: Files> RunFile<'a, R> {
    pub fn new(rt: &'a R, alloc: Global, path: String) -> RunFile<'a, R>
        ensures ended { result.ended.items ≡ [] }
        ensures begun { result.begun ≡ None }
    {
        RunFile {
            rt,
            path,
            opened: None,
            ended: Vec::new(alloc),
            begun: None,
        }
    }

    /// Ends the run that is begun and begins another behind it.
    pub fn begin(&mut self) -> Result<u64, SpillErr>
        ensures begun { OnOk result (option_map (λ span. span.len) self.new.begun ≡ Some 0) }
        ensures ended { OnOk result (self.new.ended.items ≡ self.old.ended.items ++ option_to_list self.old.begun) }
        ensures number { IfOk result (λ n. n ≡ length self.new.ended.items) }
        ensures same { IsErr result → (self.new.ended.items ≡ self.old.ended.items) × (self.new.begun ≡ self.old.begun) }
    {
        if self.ended.reserve(2).is_err() {
            return Err(SpillErr::Memory);
        }
        if self.opened.is_none() {
            match made(self.rt, self.path.as_str()) {
                Ok(file) => self.opened = Some(file),
                Err(_) => return Err(SpillErr::Failed),
            }
        }
        if let Some(span) = self.begun.take() {
            self.ended.push_reserved(span);
        }
        let from = self.ended.last().map_or(0, |span| span.end());
        self.begun = Some(Span { from, len: 0 });
        Ok(self.ended.len() as u64)
    }

    /// Writes the piece behind the run that is begun.
    pub fn append(&mut self, piece: &[u8]) -> io::Result<()>
        ensures none_begun { self.old.begun ≡ None → IsErr result }
        ensures written { OnOk result (option_map (λ span. span.len) self.new.begun ≡ option_map (λ span. min (span.len + length piece.now) (2 ^ 64 - 1)) self.old.begun) }
        ensures same { IsErr result → self.new.begun ≡ self.old.begun }
        ensures ended { self.new.ended.items ≡ self.old.ended.items }
    {
        match (&mut self.opened, &mut self.begun) {
            (Some(file), Some(span)) => {
                file.seek(SeekFrom::Start(span.end()))?;
                file.write_all(piece)?;
                span.len = span.len.saturating_add(piece.len() as u64);
                Ok(())
            }
            _ => Err(io::Error::from(io::ErrorKind::NotFound)),
        }
    }

    /// Ends the run that is begun, and gives its length.
    pub fn end(&mut self) -> Option<u64>
        ensures none_begun { IsNone result ↔ self.old.begun ≡ None }
        ensures len { IfSome result (λ len. option_map (λ span. span.len) self.old.begun ≡ Some len) }
        ensures ended { IsSome result → (self.new.ended.items ≡ self.old.ended.items ++ option_to_list self.old.begun) × (self.new.begun ≡ None) }
        ensures same { IsNone result → (self.new.ended.items ≡ self.old.ended.items) × (self.new.begun ≡ self.old.begun) }
    {
        let span = self.begun.take()?;
        self.ended.push_reserved(span);
        Some(span.len)
    }

    /// Reads from an ended run.
    pub fn read(&mut self, run: u64, at: u64, out: &mut [u8]) -> io::Result<()>
        ensures within { OnOk result (LiesIn (map (λ span. span.len) self.old.ended.items) run at (length out.new)) }
        ensures ended { self.new.ended.items ≡ self.old.ended.items }
        ensures begun { self.new.begun ≡ self.old.begun }
    {
        let span = usize::try_from(run)
            .ok()
            .and_then(|run| self.ended.get(run).copied());
        match (&mut self.opened, span) {
            (Some(file), Some(span)) if fits(span, at, out.len()) => {
                file.seek(SeekFrom::Start(span.from.saturating_add(at)))?;
                file.read_exact(out)
            }
            _ => Err(io::Error::from(io::ErrorKind::NotFound)),
        }
    }

    /// Removes the file, if it was made.
    pub fn remove(self) {
        if self.opened.is_some() {
            let _gone = std::fs::remove_file(self.rt, self.path.as_str());
        }
    }
}

// The range of `len` bytes at a place of the run lies in it.
fn fits(span: Span, at: u64, len: usize) -> bool
    ensures { result ≡ true ↔ at + len ≤ span.len }
{
    at <= span.len && len as u64 <= span.len - at
}

// The named file, made or emptied, to be written and read.
fn made<R: Files>(rt: &R, path: &str) -> io::Result<R::File> {
    let mut options = OpenOptions::new();
    options.read(true).write(true).create(true).truncate(true);
    options.open(rt, path)
}

ghost use Rattle.std.specs.Prelude.{◌≡◌, ℕ, None, refl, if◌then◌else◌};
ghost use Rattle.tb_outside.specs.Plan.{counted_up, is_refused};
ghost use Rattle.tb_outside.specs.Source.{SizeAnswers, LoadAnswers};
ghost use Rattle.tb_outside.specs.File.{untold_source, after_answer};

use crate::failed::Failed;
use crate::source::Source;
use std::io::{Read, Seek, SeekFrom};
use std::marker::Model;
use std::rt::Files;
use std::{fs, io};

/// A named file, opened at the first call. It tells nothing of its content; contracts see its count of faults.
#[derive(Drop)]
pub struct FileSource<'a, R: Files> {
    file: NamedFile<'a, R>,
    faults: u64,
}

impl<'a, R: Files> Model for FileSource<'a, R> {
    ghost Value = { ℕ };

    ghost view = { λ s. s.faults };
}

#[derive(Drop)]
struct NamedFile<'a, R: Files> {
    rt: &'a R,
    path: String,
    opened: Option<R::File>,
}

impl<'a, R: Files> NamedFile<'a, R> {
    fn open(&mut self) -> io::Result<()> {
        if self.opened.is_none() {
            self.opened = Some(fs::open(self.rt, self.path.as_str())?);
        }
        Ok(())
    }

    fn size(&mut self) -> io::Result<u64> {
        self.open()?;
        match &mut self.opened {
            None => Ok(0),
            Some(file) => file.seek(SeekFrom::End(0)),
        }
    }

    fn read_at(&mut self, at: u64, out: &mut [u8]) -> io::Result<()> {
        self.open()?;
        match &mut self.opened {
            None => Ok(()),
            Some(file) => {
                file.seek(SeekFrom::Start(at))?;
                file.read_exact(out)
            }
        }
    }
}

impl<'a, R: Files> FileSource<'a, R> {
    pub fn new(rt: &'a R, path: String) -> FileSource<'a, R>
        ensures { result ≡ 0 }
    {
        FileSource {
            file: NamedFile {
                rt,
                path,
                opened: None,
            },
            faults: 0,
        }
    }
}

impl<'a, R: Files> Source for FileSource<'a, R> {
    ghost seen = { untold_source };

    ghost same_told = { λ a b. refl };

    fn size(&mut self) -> Result<u64, Failed>
        ensures source { SizeAnswers (untold_source self.old) (untold_source self.new) result }
        ensures counted { self.new ≡ after_answer self.old (is_refused result) }
    {
        match self.file.size() {
            Ok(size) => Ok(size),
            Err(_) => {
                self.faults = self.faults.saturating_add(1);
                Err(Failed)
            }
        }
    }

    fn load(&mut self, at: u64, out: &mut [u8]) -> Result<(), Failed>
        ensures source { LoadAnswers (untold_source self.old) (untold_source self.new) at out.new result }
        ensures counted { self.new ≡ after_answer self.old (is_refused result) }
    {
        match self.file.read_at(at, out) {
            Ok(()) => Ok(()),
            Err(_) => {
                self.faults = self.faults.saturating_add(1);
                Err(Failed)
            }
        }
    }
}

ghost use Rattle.std.specs.Prelude.{◌≡◌, ℕ};
ghost use Rattle.tb_outside.specs.Plan.{is_refused};
ghost use Rattle.tb_outside.specs.Sink.{SinkAnswers};
ghost use Rattle.tb_outside.specs.File.{untold_sink, after_answer};

use crate::failed::Failed;
use crate::sink::Sink;
use std::io::Write;
use std::marker::Model;
use std::rt::Files;
use std::{fs, io};

/// A named file, made or emptied at the first append, or standard output. It tells nothing of its content; contracts
/// see its count of faults.
#[derive(Drop)]
pub struct FileSink<'a, R: Files> {
    rt: &'a R,
    target: Target<R::File>,
    faults: u64,
}

impl<'a, R: Files> Model for FileSink<'a, R> {
    ghost Value = { ℕ };

    ghost view = { λ s. s.faults };
}

#[derive(Drop)]
enum Target<F> {
    Named(String),
    Made(F),
    Stdout,
}

impl<'a, R: Files + Print> FileSink<'a, R> {
    pub fn new(rt: &'a R, path: String) -> FileSink<'a, R>
        ensures { result ≡ 0 }
    {
        FileSink {
            rt,
            target: Target::Named(path),
            faults: 0,
        }
    }

    pub fn stdout(rt: &'a R) -> FileSink<'a, R>
        ensures { result ≡ 0 }
    {
        FileSink {
            rt,
            target: Target::Stdout,
            faults: 0,
        }
    }
}

// Writes the piece to the target, which is made first where it only has a name.
fn write<R: Files + Print>(rt: &R, target: &mut Target<R::File>, piece: &[u8]) -> io::Result<()> {
    if let Target::Named(path) = target {
        *target = Target::Made(fs::create(rt, path.as_str())?);
    }
    match target {
        Target::Named(_) => Ok(()),
        Target::Made(file) => file.write_all(piece),
        Target::Stdout => io::writer(rt).write_all(piece),
    }
}

impl<'a, R: Files + Print> Sink for FileSink<'a, R> {
    ghost seen = { untold_sink };

    fn append(&mut self, piece: &[u8]) -> Result<(), Failed>
        ensures sink { SinkAnswers (untold_sink self.old) (untold_sink self.new) piece.now result }
        ensures counted { self.new ≡ after_answer self.old (is_refused result) }
    {
        match write(self.rt, &mut self.target, piece) {
            Ok(()) => Ok(()),
            Err(_) => {
                self.faults = self.faults.saturating_add(1);
                Err(Failed)
            }
        }
    }
}

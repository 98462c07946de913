// Real files. What they hold is not known, and that they do what is passed on is trusted.
ghost use Rattle.std.specs.Prelude.{◌≡◌, ◌≤◌, ◌<◌, None, length, IfOk};
ghost use Rattle.outside.specs.Counts.{faults_alone};

use crate::calls::one_more;
use crate::{Files, Refusal};
use std::alloc::Global;
use std::fs::OpenOptions;
use std::io::{ErrorKind, Read, Seek, SeekFrom, Write};
use std::marker::Model;
use std::rt::Files as FileSystem;
use std::{fs, io};

// A file that is open for reading, and the place of the next read.
#[derive(Drop)]
struct Reading<F> {
    name: String,
    file: F,
    position: u64,
}

/// Files of the operating system, by their paths.
///
/// A file that is read in pieces stays open until a read finds its end, so a pipe can be read too.
#[derive(Drop)]
pub struct StdFiles<R: FileSystem> {
    alloc: Global,
    files: R,
    reading: Option<Reading<R::File>>,
    faults: u64,
}

impl<R: FileSystem> Model for StdFiles<R> {
    ghost use Rattle.std.specs.Prelude.{ℕ};

    ghost Value = { ℕ };

    ghost view = { λ files. files.faults };
}

impl<R: FileSystem> StdFiles<R> {
    /// The files that a runtime reaches, with no fault so far.
    pub fn new(alloc: Global, files: R) -> StdFiles<R>
        ensures { result ≡ 0 }
    {
        StdFiles {
            alloc,
            files,
            reading: None,
            faults: 0,
        }
    }
}

impl<R: FileSystem> Files for StdFiles<R> {
    ghost known = { λ _. None };

    ghost counts = { λ faults. faults_alone faults };

    fn read_at(&mut self, name: &str, at: u64, into: &mut [u8]) -> Result<usize, Refusal> {
        match read_from(&self.files, self.alloc, &mut self.reading, name, at, into) {
            Ok(count) => Ok(count),
            Err(error) => {
                self.faults = one_more(self.faults);
                Err(refusal_of(&error))
            }
        }
    }

    fn create(&mut self, name: &str) -> Result<(), Refusal> {
        match fs::create(&self.files, name) {
            Ok(_) => Ok(()),
            Err(error) => {
                self.faults = one_more(self.faults);
                Err(refusal_of(&error))
            }
        }
    }

    fn append(&mut self, name: &str, piece: &[u8]) -> Result<usize, Refusal> {
        match append_to(&self.files, name, piece) {
            Ok(count) => Ok(count),
            Err(error) => {
                self.faults = one_more(self.faults);
                Err(refusal_of(&error))
            }
        }
    }
}

// Reads on from the open file where it is the same, and opens it else.
fn read_from<R: FileSystem>(
    files: &R,
    alloc: Global,
    reading: &mut Option<Reading<R::File>>,
    name: &str,
    at: u64,
    into: &mut [u8],
) -> io::Result<usize>
    ensures { IfOk result (λ n. n ≤ length into.old) }
{
    let mut open = match reading.take() {
        Some(open) if open.name.as_str() == name => open,
        _ => Reading {
            name: String::from_str(alloc, name)?,
            file: fs::open(files, name)?,
            position: 0,
        },
    };
    if open.position != at {
        open.file.seek(SeekFrom::Start(at))?;
    }
    let count = open.file.read(into)?;
    if count > 0 {
        open.position = at.saturating_add(count as u64);
        *reading = Some(open);
    }
    Ok(count)
}

// Adds bytes at the end of a file. That none is taken of some is an error.
fn append_to<R: FileSystem>(files: &R, name: &str, piece: &[u8]) -> io::Result<usize>
    ensures within { IfOk result (λ n. n ≤ length piece.now) }
    ensures some { IfOk result (λ n. 0 < length piece.now → 0 < n) }
{
    let mut how = OpenOptions::new();
    how.append(true);
    how.create(true);
    let mut file = how.open(files, name)?;
    let count = file.write(piece)?;
    if count == 0 && !piece.is_empty() {
        return Err(ErrorKind::WriteZero.into());
    }
    Ok(count)
}

/// What an error of the operating system means: want of memory, or a failed call.
pub(crate) fn refusal_of(error: &io::Error) -> Refusal {
    match error.kind() {
        ErrorKind::OutOfMemory => Refusal::Want,
        _ => Refusal::Failed,
    }
}

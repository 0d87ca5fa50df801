//! The shelf of files: the part of the outside that is trusted, since no contract says what a file holds.
ghost use Rattle.std.specs.Prelude.{◌≡◌, ◌≤◌, length, None, IfOk, is_err, if◌then◌else◌};
ghost use Rattle.edge.specs.Faults.{one_more, HasCause, NoneFell};

use crate::failures::Failed;
use crate::reading::Shelf;
use std::alloc::Global;
use std::io::{Read, Seek, SeekFrom};
use std::marker::Model;
use std::rt::Files;
use std::{fs, io};

/// A file that is open, and the place where its next read begins.
#[derive(Drop)]
struct OpenFile<F> {
    name: String,
    file: F,
    at: u64,
}

/// The files of a system, by their paths. The last one that was read stays open.
/// It tells nothing of what they hold. Contracts see it as the count of its failed reads.
#[derive(Drop)]
pub struct FileShelf<R: Files> {
    files: R,
    alloc: Global,
    open: Option<OpenFile<R::File>>,
    faults: u64,
}

impl<R: Files> Model for FileShelf<R> {
    ghost use Rattle.std.specs.Prelude.{ℕ};

    ghost Value = { ℕ };

    ghost view = { λ s. s.faults };
}

impl<R: Files> FileShelf<R> {
    /// The files that `files` gives access to, none of them open. Takes no memory.
    pub fn new(alloc: Global, files: R) -> FileShelf<R>
        ensures { result ≡ 0 }
    {
        FileShelf {
            files,
            alloc,
            open: None,
            faults: 0,
        }
    }

    /// The file of that name: the one that is open, or that file opened at its start.
    fn open_file(&mut self, name: &str) -> io::Result<OpenFile<R::File>>
        ensures { self.new ≡ self.old }
    {
        if let Some(open) = self.open.take() {
            if open.name.as_str() == name {
                return Ok(open);
            }
        }
        let file = fs::open(&self.files, name)?;
        Ok(OpenFile {
            name: String::from_str(self.alloc, name)?,
            file,
            at: 0,
        })
    }

    /// Reads from the place `from` on, where the file stands or else after a move there. Where that fails, no file is open.
    fn read_file(&mut self, name: &str, from: u64, buf: &mut [u8]) -> io::Result<usize>
        ensures bound { IfOk result (λ n. n ≤ length buf.new) }
        ensures count { self.new ≡ self.old }
    {
        let mut open = self.open_file(name)?;
        if open.at != from {
            open.file.seek(SeekFrom::Start(from))?;
        }
        let count = open.file.read(buf)?;
        open.at = from.saturating_add(count as u64);
        self.open = Some(open);
        Ok(count)
    }
}

impl<R: Files> Shelf for FileShelf<R> {
    ghost held = { λ _ _. None };

    ghost faults = { λ s _. s };

    ghost reads = { λ old _ _ _ failed new. new ≡ (if failed then one_more old else old) };

    /// A file that is missing or that may not be read fails, a folder too, and a path that memory has no room for.
    fn read_at(&mut self, name: &str, from: u64, buf: &mut [u8]) -> Result<usize, Failed>
        ensures bound { IfOk result (λ n. n ≤ length buf.new) }
        ensures cause { HasCause self.old self.new result }
        ensures others { NoneFell (λ _. self.old) (λ _. self.new) }
        ensures counted { self.new ≡ (if is_err result then one_more self.old else self.old) }
    {
        let read = self.read_file(name, from, buf);
        if read.is_err() {
            self.faults = self.faults.saturating_add(1);
        }
        read.map_err(|_| Failed)
    }
}

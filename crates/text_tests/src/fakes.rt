//! Files and an output for tests, which note what is asked of them or fail. The main types are `FakeFiles`
//! and `FakePrint`.

use std::alloc::Allocator;
use std::cell::Cell;
use std::fmt::Display;
use std::fs::{Metadata, OpenFile, OpenOptions};
use std::io::{self, Read, Seek, SeekFrom, Write};
use std::rt::Files;

// The error of what is not asked.
fn refusal() -> io::Error {
    io::Error::from(io::ErrorKind::Unsupported)
}

/// Files in memory by two names. No read of them gives more than three bytes. A move in `stream` fails.
#[derive(Clone, Copy)]
pub(crate) struct FakeFiles;

/// A file of `FakeFiles`.
#[derive(Drop)]
pub(crate) struct FakeFile {
    text: &'static [u8],
    at: usize,
    moves: bool,
}

/// A folder, which is never opened.
#[derive(Drop)]
pub(crate) struct FakeDir;

impl Read for FakeDir {
    fn read(&mut self, _buf: &mut [u8]) -> io::Result<usize> {
        Err(refusal())
    }
}

impl Read for FakeFile {
    fn read(&mut self, buf: &mut [u8]) -> io::Result<usize> {
        let rest = self.text.get(self.at..).unwrap_or(&[]);
        let count = rest.len().min(buf.len()).min(3);
        buf[..count].copy_from_slice(&rest[..count]);
        self.at = self.at.saturating_add(count);
        Ok(count)
    }
}

impl Seek for FakeFile {
    fn seek(&mut self, to: SeekFrom) -> io::Result<u64> {
        match to {
            SeekFrom::Start(from) if self.moves => {
                self.at = from as usize;
                Ok(from)
            }
            _ => Err(refusal()),
        }
    }
}

impl Write for FakeFile {
    fn write(&mut self, _buf: &[u8]) -> io::Result<usize> {
        Err(refusal())
    }

    fn flush(&mut self) -> io::Result<()> {
        Err(refusal())
    }
}

impl OpenFile for FakeFile {
    fn metadata(&self) -> io::Result<Metadata> {
        Err(refusal())
    }

    fn set_len(&self, _size: u64) -> io::Result<()> {
        Err(refusal())
    }

    fn sync_all(&self) -> io::Result<()> {
        Err(refusal())
    }

    fn sync_data(&self) -> io::Result<()> {
        Err(refusal())
    }
}

impl Files for FakeFiles {
    type File = FakeFile;

    type Dir = FakeDir;

    fn open_file(&self, _how: &OpenOptions, path: &str) -> io::Result<FakeFile> {
        match path {
            "stream" => Ok(FakeFile {
                text: b"stream of bytes",
                at: 0,
                moves: false,
            }),
            "model" => Ok(FakeFile {
                text: b"0123456789",
                at: 0,
                moves: true,
            }),
            _ => Err(io::Error::from(io::ErrorKind::NotFound)),
        }
    }

    fn open_dir(&self, _path: &str) -> io::Result<FakeDir> {
        Err(refusal())
    }

    fn metadata(&self, _path: &str) -> io::Result<Metadata> {
        Err(refusal())
    }

    fn symlink_metadata(&self, _path: &str) -> io::Result<Metadata> {
        Err(refusal())
    }

    fn copy(&self, _from: &str, _to: &str) -> io::Result<u64> {
        Err(refusal())
    }

    fn rename(&self, _from: &str, _to: &str) -> io::Result<()> {
        Err(refusal())
    }

    fn remove_file(&self, _path: &str) -> io::Result<()> {
        Err(refusal())
    }

    fn create_dir(&self, _path: &str) -> io::Result<()> {
        Err(refusal())
    }

    fn remove_dir(&self, _path: &str) -> io::Result<()> {
        Err(refusal())
    }

    fn remove_dir_all<B: Allocator>(&self, _alloc: B, _path: &str) -> io::Result<()> {
        Err(refusal())
    }
}

/// An output whose calls take so many bytes at most, and which counts those that it took. Where `most` is 0 it takes
/// none of any piece; where that is 100, it fails.
#[derive(Drop)]
pub(crate) struct FakePrint {
    most: usize,
    pub(crate) taken: Cell<usize>,
}

impl FakePrint {
    pub(crate) fn new(most: usize) -> FakePrint {
        FakePrint {
            most,
            taken: Cell::new(0),
        }
    }
}

impl Print for FakePrint {
    fn print<D: Display + Drop>(&self, _value: D) -> io::Result<()> {
        Err(refusal())
    }

    fn println<D: Display + Drop>(&self, _value: D) -> io::Result<()> {
        Err(refusal())
    }

    fn write_all(&self, _bytes: &[u8]) -> io::Result<()> {
        Err(refusal())
    }

    fn write_some(&self, bytes: &[u8]) -> io::Result<usize> {
        if self.most == 100 {
            return Err(refusal());
        }
        let count = bytes.len().min(self.most);
        self.taken.set(self.taken.get().saturating_add(count));
        Ok(count)
    }
}

ghost use Rattle.std.specs.Prelude.{◌≤◌, length, IfOk};

use std::alloc::{AllocError, Allocator, Global};
use std::cell::RefCell;
use std::env::{Env, FillError};
use std::fmt::{Display, Write as _};
use std::fs::{Metadata, OpenFile, OpenOptions};
use std::io::{self, BufRead, Eprint, ErrorKind, Input, Lines, Print, Read, Seek, SeekFrom, Write};
use std::rt::Files;
use std::str;

/// A runtime for one run of the program: its words are given, and so is one text, which is its standard input and its
/// only file. What it prints is kept.
#[derive(Drop)]
pub struct Stage<'a> {
    alloc: Global,
    words: &'a [&'a str],
    file: &'a str,
    text: &'a [u8],
    printed: RefCell<Vec<u8>>,
    complained: RefCell<String>,
}

fn unsupported() -> io::Error {
    io::Error::from(ErrorKind::Unsupported)
}

impl<'a> Stage<'a> {
    /// A stage on which nothing is printed yet; the words begin with the program's name.
    pub fn new(alloc: Global, words: &'a [&'a str], file: &'a str, text: &'a [u8]) -> Stage<'a> {
        Stage {
            alloc,
            words,
            file,
            text,
            printed: RefCell::new(Vec::new(alloc)),
            complained: RefCell::new(String::new(alloc)),
        }
    }

    /// What was printed on standard output, and on standard error.
    pub fn into_printed(self) -> (Vec<u8>, String) {
        (self.printed.into_inner(), self.complained.into_inner())
    }
}

impl std::alloc::Alloc for Stage<'_> {
    type A = Global;

    fn alloc(&self) -> Global {
        self.alloc
    }
}

fn filled(word: Option<&&str>, buf: &mut [u8]) -> Result<usize, FillError>
    ensures { IfOk result (λ count. count ≤ length buf.new) }
{
    let Some(word) = word else {
        return Err(FillError::NotPresent);
    };
    let bytes = word.as_bytes();
    match buf.get_mut(..bytes.len()) {
        Some(front) => {
            front.copy_from_slice(bytes);
            Ok(bytes.len())
        }
        None => Err(FillError::TooLong),
    }
}

impl Env for Stage<'_> {
    fn arg(&self, i: usize, buf: &mut [u8]) -> Result<usize, FillError> {
        filled(self.words.get(i), buf)
    }

    fn var(&self, _name: &str, _buf: &mut [u8]) -> Result<usize, FillError> {
        Err(FillError::NotPresent)
    }

    fn var_at(&self, _i: usize, _buf: &mut [u8]) -> Result<usize, FillError> {
        Err(FillError::NotPresent)
    }
}

/// The file of a stage, which can be read and not changed.
#[derive(Drop)]
pub struct Page<'a>(&'a [u8]);

impl Read for Page<'_> {
    fn read(&mut self, buf: &mut [u8]) -> io::Result<usize> {
        self.0.read(buf)
    }
}

impl Write for Page<'_> {
    fn write(&mut self, _buf: &[u8]) -> io::Result<usize> {
        Err(unsupported())
    }

    fn flush(&mut self) -> io::Result<()> {
        Err(unsupported())
    }
}

impl Seek for Page<'_> {
    fn seek(&mut self, _to: SeekFrom) -> io::Result<u64> {
        Err(unsupported())
    }
}

impl OpenFile for Page<'_> {
    fn metadata(&self) -> io::Result<Metadata> {
        Err(unsupported())
    }

    fn set_len(&self, _size: u64) -> io::Result<()> {
        Err(unsupported())
    }

    fn sync_all(&self) -> io::Result<()> {
        Err(unsupported())
    }

    fn sync_data(&self) -> io::Result<()> {
        Err(unsupported())
    }
}

impl<'a> Files for Stage<'a> {
    type File = Page<'a>;

    type Dir = Page<'a>;

    fn open_file(&self, how: &OpenOptions, path: &str) -> io::Result<Page<'a>> {
        how.check()?;
        if path == self.file {
            Ok(Page(self.text))
        } else {
            Err(io::Error::from(ErrorKind::NotFound))
        }
    }

    fn open_dir(&self, _path: &str) -> io::Result<Page<'a>> {
        Err(unsupported())
    }

    fn metadata(&self, _path: &str) -> io::Result<Metadata> {
        Err(unsupported())
    }

    fn symlink_metadata(&self, _path: &str) -> io::Result<Metadata> {
        Err(unsupported())
    }

    fn copy(&self, _from: &str, _to: &str) -> io::Result<u64> {
        Err(unsupported())
    }

    fn rename(&self, _from: &str, _to: &str) -> io::Result<()> {
        Err(unsupported())
    }

    fn remove_file(&self, _path: &str) -> io::Result<()> {
        Err(unsupported())
    }

    fn create_dir(&self, _path: &str) -> io::Result<()> {
        Err(unsupported())
    }

    fn remove_dir(&self, _path: &str) -> io::Result<()> {
        Err(unsupported())
    }

    fn remove_dir_all<B: Allocator>(&self, _alloc: B, _path: &str) -> io::Result<()> {
        Err(unsupported())
    }
}

impl<'a> Input for Stage<'a> {
    type Reader = &'a [u8];

    fn read_line<A: Allocator + Clone>(&self, _buf: &mut String<A>) -> io::Result<usize> {
        Err(unsupported())
    }

    fn lines<A: Allocator>(&self, alloc: A) -> Lines<&'a [u8], A> {
        self.text.lines(alloc)
    }

    fn reader(&self) -> &'a [u8] {
        self.text
    }
}

impl Stage<'_> {
    /// Keeps what is printed on standard output.
    fn keep(&self, bytes: &[u8]) -> io::Result<()> {
        match self.printed.try_borrow_mut() {
            Ok(mut printed) => Ok(printed.extend_from_slice(bytes)?),
            Err(_) => Err(unsupported()),
        }
    }

    /// Keeps what is printed on standard error.
    fn keep_complaint<D: Display + Drop>(&self, value: D) -> io::Result<()> {
        match self.complained.try_borrow_mut() {
            Ok(mut complained) => Ok(write!(&mut *complained, "{value}")?),
            Err(_) => Err(unsupported()),
        }
    }
}

impl Print for Stage<'_> {
    fn print<D: Display + Drop>(&self, value: D) -> io::Result<()> {
        let text = format!(in self.alloc; "{value}")?;
        self.keep(text.as_str().as_bytes())
    }

    fn println<D: Display + Drop>(&self, value: D) -> io::Result<()> {
        self.print(value)?;
        self.keep(b"\n")
    }

    fn write_all(&self, bytes: &[u8]) -> io::Result<()> {
        self.keep(bytes)
    }
}

impl Eprint for Stage<'_> {
    fn eprint<D: Display + Drop>(&self, value: D) -> io::Result<()> {
        self.keep_complaint(value)
    }

    fn eprintln<D: Display + Drop>(&self, value: D) -> io::Result<()> {
        self.keep_complaint(value)?;
        self.keep_complaint("\n")
    }
}

use crate::stage::Stage;
use jm_runner::{Databases, PARTS, run_program};
use sqlite::{Connection, Error, ErrorCode, MemStore};
use std::alloc::{AllocError, Global};
use std::marker::Brand;
use std::process::ExitCode;
use std::str;
use std::sync::Wait;
use std::sync::ledger::Blank;
use std::thread::Threads;

/// What a run of the program ends with.
#[derive(Drop)]
pub struct Told {
    status: u8,
    printed: Vec<u8>,
    refused_words: String,
    fault: Vec<u8>,
}

/// Bytes that a run printed, as the text that they should be.
fn text_of(bytes: &[u8]) -> &str {
    str::from_utf8(bytes).unwrap_or("bytes that are no text\n")
}

/// The number of an exit status.
fn number(code: ExitCode) -> u8 {
    (0..u8::MAX)
        .find(|status| ExitCode::from(*status) == code)
        .unwrap_or(u8::MAX)
}

/// No databases: none can be opened.
struct NoDatabases;

impl Databases<MemStore> for NoDatabases {
    fn connect(&self, _name: &str) -> Result<Connection<MemStore>, Error> {
        Err(Error::SqliteFailure(ErrorCode::CannotOpen))
    }
}

impl Told {
    /// What the program ends with on those words, where the text is its standard input and the file of that name. It starts
    /// threads with the runtime.
    pub fn new<T: Threads + Wait + Sync>(
        rt: &T,
        alloc: Global,
        words: &[&str],
        file: &str,
        text: &str,
    ) -> Told {
        let stage = Stage::new(alloc, words, file, text.as_bytes());
        let mut fault = Vec::new(alloc);
        let blank = Blank::new(PARTS);
        let status = number(run_program::<MemStore, _, _, Brand, T>(
            &stage,
            rt,
            blank,
            &NoDatabases,
            &mut fault,
        ));
        let (printed, refused_words) = stage.into_printed();
        Told {
            status,
            printed,
            refused_words,
            fault,
        }
    }

    fn printed(&self) -> &str {
        text_of(&self.printed)
    }

    /// What is printed on standard error: a fault, or what is told of refused words.
    fn complained(&self) -> &str {
        if self.fault.is_empty() {
            self.refused_words.as_str()
        } else {
            text_of(&self.fault)
        }
    }

    fn is_quiet(&self) -> bool {
        self.status == 0 && self.complained().is_empty()
    }

    /// The lines that are printed. Where the status is not 0, or something is printed on standard error, a line follows
    /// that begins with `! `, the status and a space, and goes on with what stands there.
    pub fn lines(&self, alloc: Global) -> Result<String, AllocError> {
        let printed = self.printed();
        if self.is_quiet() {
            return String::from_str(alloc, printed);
        }
        let status = self.status;
        let complained = self.complained();
        format!(in alloc; "{printed}! {status} {complained}")
    }

    /// The lines that are printed, each without its number, with commas between them; `nothing` where there is none. Of a
    /// run that ends with status 1 and prints no line, what it says on standard error.
    pub fn row(&self, alloc: Global) -> Result<String, AllocError> {
        if self.is_quiet() {
            return joined(alloc, self.printed());
        }
        let complained = self.complained();
        match complained.strip_suffix('\n') {
            Some(fault) if self.status == 1 && self.printed.is_empty() => {
                String::from_str(alloc, fault)
            }
            _ => self.lines(alloc),
        }
    }
}

/// The lines without their numbers, with commas between them.
fn joined(alloc: Global, lines: &str) -> Result<String, AllocError> {
    if lines.is_empty() {
        return String::from_str(alloc, "nothing");
    }
    let mut joined = String::new(alloc);
    for line in lines.split_terminator('\n') {
        let reply = match line.split_once(' ') {
            Some((_, reply)) => reply,
            None => line,
        };
        if !joined.is_empty() {
            joined.push_str(", ")?;
        }
        joined.push_str(reply)?;
    }
    Ok(joined)
}

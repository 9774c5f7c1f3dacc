ghost use Rattle.std.specs.Prelude.{◌≡◌, IfOk, OnOk, MatchOption};
ghost use Rattle.std.specs.Io.KnownBytes.{Appends};
ghost use Rattle.std.specs.Process.{exit_status};
ghost use Rattle.jm_words.specs.Words.{HasLimit};
ghost use Rattle.jm_play.specs.Faults.{fault_line};
ghost use Rattle.jm_runner.specs.Program as spec;

use crate::command::perform;
use crate::databases::Databases;
use crate::threaded::PARTS;
use clap::error::ErrorKind;
use jm_play::{Ending, Fault, Sink, Source};
use jm_words::{Words, WordsFault, not_text, read_words};
use sqlite::Alter;
use std::env::Env;
use std::io::Write;
use std::process::ExitCode;
use std::rt::Files;
use std::sync::Wait;
use std::sync::ledger::{Blank, Ledger};
use std::thread::Threads;
use std::{env, fs, io};

/// What the program's words ask for.
fn asked(rt: &(impl Env + AllocGlobal)) -> Result<Words, WordsFault>
    ensures { IfOk result HasLimit }
{
    let alloc = rt.alloc();
    let words: Vec<String> = match env::args(rt) {
        Ok(words) => words.collect(alloc)?,
        Err(error) if error.kind() == io::ErrorKind::OutOfMemory => return Err(WordsFault::Memory),
        Err(_) => return Err(not_text(alloc)),
    };
    let words: Vec<&str> = words.iter().map(|word| word.as_str()).collect(alloc)?;
    read_words(alloc, &words)
}

/// Does what the words ask for, with the scenario of their file or of standard input. The scenario's file is opened before the
/// database, which is not opened where that fails.
fn answer<
    S: Alter + Drop + Send,
    D: Databases<S>,
    L: Ledger + Send + Sync,
    T: Threads + Wait + Sync,
>(
    rt: &(impl Files + Input + Print + AllocGlobal),
    threads: &T,
    blank: Blank,
    databases: &D,
    words: &Words,
) -> Ending
    requires name { blank.name ≡ L.name }
    requires parts { (blank.parts ≡ L.parts) × (blank.parts ≡ PARTS) }
    requires limit { HasLimit words.now }
{
    let alloc = rt.alloc();
    let sink = &mut Sink::new(io::writer(rt));
    match words {
        Words::Input => {
            let mut source = Source::new(Ok(rt.reader()));
            perform::<S, D, _, _, L, T>(threads, alloc, blank, words, databases, &mut source, sink)
        }
        Words::Run {
            file,
            db: Some(_),
            ..
        } => match fs::open(rt, file.as_str()) {
            Ok(reader) => {
                let mut source = Source::new(Ok(reader));
                perform::<S, D, _, _, L, T>(
                    threads,
                    alloc,
                    blank,
                    words,
                    databases,
                    &mut source,
                    sink,
                )
            }
            Err(_) => Ending::of_fault(Fault::File),
        },
        Words::Run { file, .. } | Words::Select { file, .. } | Words::Lone { file, .. } => {
            let mut source = Source::new(fs::open(rt, file.as_str()));
            perform::<S, D, _, _, L, T>(threads, alloc, blank, words, databases, &mut source, sink)
        }
    }
}

/// Tells the fault on a line. An error where a write fails.
fn tell<W: Write>(errors: &mut W, fault: &Fault) -> io::Result<()>
    ensures { OnOk result (Appends (W.contents errors.old) (W.contents errors.new) (fault_line fault.now)) }
{
    writeln!(errors, "{fault}")
}

/// Tells the fault of the ending, where it has one. An error where a write fails.
fn tell_ending<W: Write>(errors: &mut W, ending: &Ending) -> io::Result<()>
    ensures { OnOk result (MatchOption ending.now.fault (errors.new ≡ errors.old)
        (λ fault. Appends (W.contents errors.old) (W.contents errors.new) (fault_line fault))) }
{
    match &ending.fault {
        Some(fault) => tell(errors, fault),
        None => Ok(()),
    }
}

/// Tells the fault of the ending, where it can be written, and gives the exit status.
fn closed<W: Write>(errors: &mut W, ending: &Ending) -> ExitCode
    ensures { exit_status result ≡ ending.now.status }
{
    let _ = tell_ending(errors, ending);
    ExitCode::from(ending.status)
}

/// The exit status of words that give nothing to do: 2 where they are wrong, 0 where they ask for help or
/// the version, 3 where a request for memory was refused.
fn status_of_words(fault: &WordsFault) -> u8
    ensures { result ≡ spec.status_of_words fault.now }
{
    match fault {
        WordsFault::Refused(error) => match error.kind() {
            ErrorKind::DisplayHelp | ErrorKind::DisplayVersion => 0,
            _ => 2,
        },
        WordsFault::Memory => 3,
    }
}

/// Tells why the words give nothing to do, where it can be written, and gives the exit status. The text is
/// that of the command line's library, which tells help and the version on standard output.
fn refused<W: Write>(rt: &(impl Print + Eprint), errors: &mut W, fault: &WordsFault) -> ExitCode
    ensures { exit_status result ≡ spec.status_of_words fault.now }
{
    let _ = match fault {
        WordsFault::Refused(error) => error.print(rt),
        WordsFault::Memory => tell(errors, &Fault::Memory),
    };
    ExitCode::from(status_of_words(fault))
}

/// Runs the program: reads its words, does what they ask for, with the databases of stores that they name, and tells a fault on
/// `errors`, its standard error. Threads are started with `threads`, and the ledger of the blank, which has `PARTS` parts, counts
/// the calls that they make. The exit status is that of the ending, or that of words which give nothing to do.
pub fn run_program<
    S: Alter + Drop + Send,
    D: Databases<S>,
    W: Write,
    L: Ledger + Send + Sync,
    T: Threads + Wait + Sync,
>(
    rt: &(impl Env + Files + Input + Print + Eprint + AllocGlobal),
    threads: &T,
    blank: Blank,
    databases: &D,
    errors: &mut W,
) -> ExitCode
    requires name { blank.name ≡ L.name }
    requires parts { (blank.parts ≡ L.parts) × (blank.parts ≡ PARTS) }
{
    match asked(rt) {
        Ok(words) => {
            let ending = answer::<S, D, L, T>(rt, threads, blank, databases, &words);
            closed(errors, &ending)
        }
        Err(fault) => refused(rt, errors, &fault),
    }
}

ghost use Rattle.std.specs.Prelude.{◌≡◌, Some, MatchOption, string_bytes};
ghost use Rattle.std.specs.Io.KnownBytes.{Appends};
ghost use Rattle.jm_play.specs.Ending.{EndsOf};
ghost use Rattle.jm_play.specs.Faults.{status_of_fault};
ghost use Rattle.jm_play.specs.Sink.{IsCut, IsPrinted, Prints, sink_contents};

use crate::fault::Fault;
use crate::sink::Sink;
use std::io::Write;

/// How a run of the program ends.
#[derive(Debug, PartialEq, Drop)]
pub struct Ending {
    /// The exit status: 0; 1 for a fault of the file, the scenario, the selector or the key, and for a failed write; 3
    /// where a reply was `Memory` or `Store`, the store was not opened, or a request of the program for memory was refused.
    pub status: u8,
    /// What is printed on standard error.
    pub fault: Option<Fault>,
}

/// What a command has to print, and the exit status where it is printed.
#[derive(Drop)]
pub struct Printout {
    /// What is printed.
    pub text: String,
    /// The exit status.
    pub status: u8,
}

impl Ending {
    /// The ending of that fault.
    pub fn of_fault(fault: Fault) -> Ending
        ensures { result ≡ record { status = status_of_fault fault; fault = Some fault } }
    {
        Ending {
            status: fault.status(),
            fault: Some(fault),
        }
    }
}

/// Writes the bytes, in as many writes as it takes; none where a write fails.
#[tactic(auto, using(crate::proofs::Written::write_more))]
fn write_all<W: Write>(sink: &mut Sink<W>, bytes: &[u8]) -> Option<()>
    ensures { MatchOption result (IsCut W.contents sink.old sink.new bytes.now)
        (λ _. Appends (sink_contents W.contents sink.old) (sink_contents W.contents sink.new) bytes.now) }
{
    let mut written = 0;
    while written < bytes.len() {
        written += sink.write(&bytes[written..])?;
    }
    Some(())
}

/// Writes the text and flushes it; none where a write or the flush fails.
fn print<W: Write>(sink: &mut Sink<W>, text: &str) -> Option<()>
    ensures { MatchOption result (IsCut W.contents sink.old sink.new text.now) (λ _. IsPrinted W.contents sink.old sink.new text.now) }
{
    write_all(sink, text.as_bytes())?;
    sink.flush()
}

/// Prints the text, and gives the exit status: the printout's, or 1 where a write fails.
fn printed<W: Write>(sink: &mut Sink<W>, printout: &Printout) -> u8
    ensures { Prints W.contents sink.old sink.new (string_bytes printout.now.text) printout.now.status result }
{
    match print(sink, printout.text.as_str()) {
        Some(()) => printout.status,
        None => 1,
    }
}

/// Prints what a command has to tell; of a fault nothing is printed here.
pub fn ended<W: Write>(sink: &mut Sink<W>, told: Result<Printout, Fault>) -> Ending
    ensures { EndsOf told W.contents sink.old sink.new result }
{
    match told {
        Ok(printout) => Ending {
            status: printed(sink, &printout),
            fault: None,
        },
        Err(fault) => Ending::of_fault(fault),
    }
}

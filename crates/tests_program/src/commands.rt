//! The commands over readers and writers, also such as fail.

use crate::told::{holds, is_text};
use jm_runner::{Ending, Fault, Sink, Source, lone, pick, play};
use std::alloc::{AllocError, Global};
use std::io;
use std::io::{Read, Write};

/// What is done with a scenario.
#[derive(Clone, Copy)]
enum Command {
    Run,
    Select(&'static str),
    Lone(&'static str),
}

/// The key of consumer 1 of session 1.1.
const OWN: &str = "{\"own\":[1,1,1]}";

/// Each command, where nothing is wrong with its words.
static COMMANDS: [Command; 3] = [Command::Run, Command::Select("x = 1"), Command::Lone(OWN)];

fn done<R: Read, W: Write>(
    alloc: Global,
    command: Command,
    source: &mut Source<R>,
    sink: &mut Sink<W>,
) -> Ending {
    match command {
        Command::Run => play(alloc, None, source, sink),
        Command::Select(selector) => pick(alloc, selector, source, sink),
        Command::Lone(key) => lone(alloc, source, key, sink),
    }
}

pub(crate) const SCENARIO: &str = r#"{"calls": [
  {"op": "open", "c": 1},
  {"op": "session", "s": [1, 1], "mode": "auto"},
  {"op": "consumer", "s": [1, 1], "k": 1, "topic": "t"},
  {"op": "start", "c": 1},
  {"op": "send", "s": [1, 1], "topic": "t", "now": 1000, "props": [["x", "long", 1]], "text": "a"},
  {"op": "receive", "s": [1, 1], "k": 1, "now": 1000},
  {"op": "receive", "s": [1, 1], "k": 1, "now": 1000}
]}"#;

pub(crate) const LINES: &str = "1 ok
2 ok
3 ok
4 ok
5 sent 1
6 message ID:1-1.1.1 count=1 redelivered=no priority=4 body=text \"a\"
7 none
";

pub(crate) const LINES_ALONE: &str = "3 ok
6 message ID:1-1.1.1 count=1 redelivered=no priority=4 body=text \"a\"
7 none
";

/// What the command on the scenario ends with; what it writes goes to the end of `written`.
fn ended(alloc: Global, command: Command, scenario: &str, written: &mut Vec<u8>) -> Ending {
    let mut source = Source::new(Ok(scenario.as_bytes()));
    done(alloc, command, &mut source, &mut Sink::new(written))
}

/// Whether the command prints those lines, and tells no fault.
fn prints(alloc: Global, command: Command, lines: &str) -> bool {
    let mut written = Vec::new(alloc);
    let ending = ended(alloc, command, SCENARIO, &mut written);
    ending.status == 0 && ending.fault.is_none() && written.as_slice() == lines.as_bytes()
}

#[test]
fn lines_of_commands(rt: HostRuntime) {
    holds(&rt, "run", prints(rt.alloc(), COMMANDS[0], LINES));
    holds(&rt, "select", prints(rt.alloc(), COMMANDS[1], "5 TRUE\n"));
    holds(&rt, "lone", prints(rt.alloc(), COMMANDS[2], LINES_ALONE));
}

/// A scenario in which a consumer of a queue has the number 1, and one of a topic the number 2, which was first asked for
/// one of a queue.
pub(crate) const QUEUES: &str = r#"{"calls": [
  {"op": "open", "c": 1, "client": "k"},
  {"op": "session", "s": [1, 1], "mode": "auto"},
  {"op": "consumer", "s": [1, 1], "k": 1, "queue": "q"},
  {"op": "consumer", "s": [1, 1], "k": 2, "queue": "q", "selector": "x = "},
  {"op": "consumer", "s": [1, 1], "k": 2, "topic": "q"},
  {"op": "send", "s": [1, 1], "queue": "q", "now": 1000, "props": [["x", "long", 1]], "text": "a"},
  {"op": "start", "c": 1},
  {"op": "receive", "s": [1, 1], "k": 2, "now": 1000},
  {"op": "receive", "s": [1, 1], "k": 1, "now": 1000}
]}"#;

/// A scenario in which the client k has an unshared durable subscription n, which it deletes, and a shared one m, beside a
/// shared non-durable one n.
pub(crate) const NAMES: &str = r#"{"calls": [
  {"op": "open", "c": 1, "client": "k"},
  {"op": "session", "s": [1, 1], "mode": "auto"},
  {"op": "durable", "s": [1, 1], "k": 1, "topic": "t", "name": "n"},
  {"op": "shared-durable", "s": [1, 1], "k": 2, "topic": "t", "name": "m"},
  {"op": "shared", "s": [1, 1], "k": 3, "topic": "t", "name": "n"},
  {"op": "unsubscribe", "s": [1, 1], "name": "n"},
  {"op": "send", "s": [1, 1], "topic": "t", "now": 1000, "text": "a"},
  {"op": "start", "c": 1},
  {"op": "receive", "s": [1, 1], "k": 1, "now": 1000},
  {"op": "close-consumer", "s": [1, 1], "k": 1},
  {"op": "unsubscribe", "s": [1, 1], "name": "n"},
  {"op": "unsubscribe", "s": [1, 1], "name": "n"}
]}"#;

/// Commands, scenarios, and what is told of the first fault.
static FAULTS: [(Command, &str, &str); 13] = [
    (Command::Run, "{", "scenario: syntax"),
    (
        Command::Run,
        "{\"held\":0,\"calls\":[]}",
        "scenario: step 0: field held",
    ),
    (
        Command::Lone(OWN),
        "{\"held\":1.5,\"calls\":[]}",
        "scenario: step 0: floating",
    ),
    (
        Command::Run,
        "{\"calls\":[{\"op\":\"close\",\"c\":1}]}",
        "scenario: step 1: field op",
    ),
    (Command::Select("x = 7E3"), "{", "selector: Floating at 4"),
    (Command::Select("x = 1"), "{", "scenario: syntax"),
    (Command::Lone("{"), "{", "scenario: syntax"),
    (Command::Lone("{"), SCENARIO, "key: syntax"),
    (
        Command::Lone("{\"durable\":[\"k\",\"m\"]}"),
        NAMES,
        "key: not an unshared subscription",
    ),
    (
        Command::Lone("{\"own\":[1,1,1]}"),
        NAMES,
        "key: not an unshared subscription",
    ),
    (Command::Lone("{\"durable\":[\"k\"]}"), NAMES, "key: syntax"),
    (
        Command::Lone(OWN),
        QUEUES,
        "key: not an unshared subscription",
    ),
    (
        Command::Lone("{\"own\":[1,1,2]}"),
        QUEUES,
        "key: not an unshared subscription",
    ),
];

/// What is told where nothing is written.
fn told(alloc: Global, command: Command, scenario: &str) -> Result<String, AllocError> {
    let mut written = Vec::new(alloc);
    match ended(alloc, command, scenario, &mut written).fault {
        Some(fault) if written.is_empty() => format!(in alloc; "{fault}"),
        _ => String::from_str(alloc, "no fault"),
    }
}

#[test]
fn faults_of_commands(rt: HostRuntime) {
    for (command, scenario, wanted) in &FAULTS {
        is_text(&rt, wanted, told(rt.alloc(), *command, scenario));
    }
}

/// Reads whose every byte is a blank; the one after so many fails.
#[derive(Drop)]
struct FailingReader {
    good_reads: usize,
}

impl Read for FailingReader {
    fn read(&mut self, buf: &mut [u8]) -> io::Result<usize> {
        if self.good_reads == 0 {
            return Err(io::Error::from(io::ErrorKind::BrokenPipe));
        }
        self.good_reads -= 1;
        buf.fill(b' ');
        Ok(buf.len())
    }
}

/// Whether the command tells that the file is not readable, and writes nothing.
fn tells_file<R: Read>(alloc: Global, command: Command, source: &mut Source<R>) -> bool {
    let mut written = Vec::new(alloc);
    let ending = done(alloc, command, source, &mut Sink::new(&mut written));
    ending.status == 1 && ending.fault == Some(Fault::File) && written.is_empty()
}

/// Whether the command tells that the file is not readable, after so many reads that give blanks.
fn tells_failed_read(alloc: Global, command: Command, good_reads: usize) -> bool {
    let mut source = Source::new(Ok(FailingReader { good_reads }));
    tells_file(alloc, command, &mut source) && source.has_failed() && source.reads() > 0
}

#[test]
fn failing_reads(rt: HostRuntime) {
    for command in &COMMANDS {
        holds(&rt, "first", tells_failed_read(rt.alloc(), *command, 0));
        holds(&rt, "second", tells_failed_read(rt.alloc(), *command, 1));
        holds(&rt, "fourth", tells_failed_read(rt.alloc(), *command, 3));
    }
}

/// Whether the command tells that the file is not readable, where it is not opened.
fn tells_unopened(alloc: Global, command: Command) -> bool {
    let error = io::Error::from(io::ErrorKind::NotFound);
    let mut source: Source<&[u8]> = Source::new(Err(error));
    tells_file(alloc, command, &mut source) && source.has_failed()
}

#[test]
fn files_that_are_not_opened(rt: HostRuntime) {
    for command in &COMMANDS {
        holds(&rt, "not opened", tells_unopened(rt.alloc(), *command));
    }
}

/// What is wrong with a key is told after the reading, and what is wrong with a selector before it.
#[test]
fn order_of_reading(rt: HostRuntime) {
    let key = tells_failed_read(rt.alloc(), Command::Lone("{"), 1);
    holds(&rt, "a key", key);
    let selector = tells_failed_read(rt.alloc(), Command::Select("x = "), 1);
    holds(&rt, "a selector", !selector);
}

/// Takes that many bytes, and then fails; its flush fails where it is said so.
#[derive(Drop)]
struct FailingWriter {
    room: usize,
    fails_flush: bool,
}

impl Write for FailingWriter {
    fn write(&mut self, buf: &[u8]) -> io::Result<usize> {
        if self.room == 0 {
            return Err(io::Error::from(io::ErrorKind::BrokenPipe));
        }
        let count = buf.len().min(self.room);
        self.room -= count;
        Ok(count)
    }

    fn flush(&mut self) -> io::Result<()> {
        if self.fails_flush {
            return Err(io::Error::from(io::ErrorKind::BrokenPipe));
        }
        Ok(())
    }
}

/// Whether the command tells no fault where its writer has that room, and its flush fails or not: the status, and whether
/// a write or the flush failed and all is flushed.
fn written(alloc: Global, command: Command, room: usize, fails_flush: bool) -> (u8, bool, bool) {
    let mut sink = Sink::new(FailingWriter { room, fails_flush });
    let mut source = Source::new(Ok(SCENARIO.as_bytes()));
    let ending = done(alloc, command, &mut source, &mut sink);
    let status = if ending.fault.is_none() {
        ending.status
    } else {
        9
    };
    (status, sink.has_failed(), sink.is_flushed())
}

#[test]
fn failing_writes(rt: HostRuntime) {
    for command in &COMMANDS {
        holds(
            &rt,
            "no room",
            written(rt.alloc(), *command, 0, false) == (1, true, true),
        );
        holds(
            &rt,
            "little room",
            written(rt.alloc(), *command, 5, false) == (1, true, false),
        );
        holds(
            &rt,
            "room",
            written(rt.alloc(), *command, 1_000, false) == (0, false, true),
        );
        holds(
            &rt,
            "room and no flush",
            written(rt.alloc(), *command, 1_000, true) == (1, true, false),
        );
    }
}

//! Words of the command line, and what they ask for.

use crate::told::is_text;
use jm_words::{Words, WordsFault, not_text, read_words};
use std::alloc::{AllocError, Global};

/// What a fault says: its status, and where it goes.
fn fault_text(alloc: Global, fault: &WordsFault) -> Result<String, AllocError> {
    match fault {
        WordsFault::Refused(error) => {
            let status = error.exit_code();
            let stream = if error.use_stderr() {
                "error"
            } else {
                "output"
            };
            format!(in alloc; "{stream} {status}")
        }
        WordsFault::Memory => String::from_str(alloc, "memory"),
    }
}

/// What the words are read as.
fn read(alloc: Global, words: &[&str]) -> Result<String, AllocError> {
    match read_words(alloc, words) {
        Ok(words) => format!(in alloc; "{words:?}"),
        Err(fault) => fault_text(alloc, &fault),
    }
}

/// Words after the program's name, with `|` between them, and what they are read as.
static WORDS: [(&str, &str); 34] = [
    ("jmsrun", "Input"),
    (
        "jmsrun|run|F",
        "Run { file: \"F\", db: None, threads: false, held: None }",
    ),
    (
        "jmsrun|run|--|-F",
        "Run { file: \"-F\", db: None, threads: false, held: None }",
    ),
    (
        "jmsrun|run|F|--held|1",
        "Run { file: \"F\", db: None, threads: false, held: Some(1) }",
    ),
    (
        "jmsrun|run|--held=1000000|F",
        "Run { file: \"F\", db: None, threads: false, held: Some(1000000) }",
    ),
    (
        "jmsrun|run|F|--held|+7",
        "Run { file: \"F\", db: None, threads: false, held: Some(7) }",
    ),
    (
        "jmsrun|run|F|--db|D",
        "Run { file: \"F\", db: Some(\"D\"), threads: false, held: None }",
    ),
    (
        "jmsrun|run|--db=D|--held|7|F",
        "Run { file: \"F\", db: Some(\"D\"), threads: false, held: Some(7) }",
    ),
    (
        "jmsrun|run|F|--threads",
        "Run { file: \"F\", db: None, threads: true, held: None }",
    ),
    (
        "jmsrun|run|--threads|F",
        "Run { file: \"F\", db: None, threads: true, held: None }",
    ),
    (
        "jmsrun|run|--threads|--db|D|F|--held=7",
        "Run { file: \"F\", db: Some(\"D\"), threads: true, held: Some(7) }",
    ),
    ("jmsrun|run|F|--threads|--threads", "error 2"),
    ("jmsrun|run|F|--threads=yes", "error 2"),
    ("jmsrun|--threads", "error 2"),
    ("jmsrun|select|A|F|--threads", "error 2"),
    ("jmsrun|lone|F|K|--threads", "error 2"),
    ("jmsrun|run|F|--db", "error 2"),
    ("jmsrun|select|A|F|--db|D", "error 2"),
    ("jmsrun|run|F|--held|0", "error 2"),
    ("jmsrun|run|F|--held|1000001", "error 2"),
    ("jmsrun|run|F|--held|-1", "error 2"),
    ("jmsrun|run|F|--held|x", "error 2"),
    ("jmsrun|run|F|--held", "error 2"),
    ("jmsrun|select|A|F|--held|1", "error 2"),
    ("jmsrun|lone|F|K|--held|1", "error 2"),
    (
        "jmsrun|select|A|F",
        "Select { selector: \"A\", file: \"F\" }",
    ),
    ("jmsrun|select||F", "Select { selector: \"\", file: \"F\" }"),
    (
        "jmsrun|select|-x = 1|-F",
        "Select { selector: \"-x = 1\", file: \"-F\" }",
    ),
    (
        "jmsrun|select|--|-x = 1|F",
        "Select { selector: \"-x = 1\", file: \"F\" }",
    ),
    ("jmsrun|lone|F|K", "Lone { file: \"F\", key: \"K\" }"),
    ("jmsrun|run", "error 2"),
    ("jmsrun|F", "error 2"),
    ("jmsrun|--help", "output 0"),
    ("jmsrun|-V", "output 0"),
];

/// What the words between the marks are read as.
fn told(alloc: Global, line: &str) -> Result<String, AllocError> {
    let words: Vec<&str> = line.split('|').collect(alloc)?;
    read(alloc, &words)
}

#[test]
fn words_of_a_command_line(rt: HostRuntime) {
    for (line, wanted) in &WORDS {
        is_text(&rt, wanted, told(rt.alloc(), line));
    }
}

#[test]
fn words_that_are_no_text(rt: HostRuntime) {
    let told = fault_text(rt.alloc(), &not_text(rt.alloc()));
    is_text(&rt, "error 2", told);
}

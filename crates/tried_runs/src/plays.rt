//! A scenario that is played.

use jm_base::Refusal;
use jm_core::Core;
use jm_keep::MemKeep;
use jm_play::{Ending, Sink, Source, play_over};
use std::alloc::Global;
use tried::{Answer, Called, Made, Trial, tell};

/// Room for the lines, with which their writing takes no memory.
#[derive(Drop)]
struct Plays {
    alloc: Global,
    number: usize,
    written: Vec<u8>,
}

/// How many bytes the lines may have.
const ROOM: usize = 1000;

const SCENARIO: &str = r#"{"calls": [
  {"op": "open", "c": 1, "client": "k"},
  {"op": "session", "s": [1, 1], "mode": "auto"},
  {"op": "durable", "s": [1, 1], "k": 1, "topic": "t", "name": "n"},
  {"op": "start", "c": 1},
  {"op": "send", "s": [1, 1], "topic": "t", "now": 1000, "text": "a"},
  {"op": "receive", "s": [1, 1], "k": 1, "now": 1000}
]}"#;

/// Plays the scenario on a new core over a keeper in memory; its lines are written to the end of the text.
fn ended(alloc: Global, written: &mut Vec<u8>) -> Result<Ending, Refusal> {
    let mut core = Core::new(alloc, 1, 100_000)?;
    let mut keeper = MemKeep::new(alloc);
    let mut source = Source::new(Ok(SCENARIO.as_bytes()));
    let mut sink = Sink::new(written);
    Ok(play_over(alloc, &mut core, &mut keeper, &mut source, &mut sink))
}

/// The length of the lines; `Memory` where the exit status says so, also where one of the scenario's calls was refused.
fn played(alloc: Global, written: &mut Vec<u8>) -> Answer {
    written.clear();
    match ended(alloc, written)?.status {
        0 => Ok(written.len() as u64),
        3 => Err(Refusal::Memory),
        _ => Err(Refusal::Store),
    }
}

impl Trial for Plays {
    fn state(&self) -> u64 {
        0
    }

    fn call(&mut self) -> Called {
        match self.number {
            0 => Called {
                name: "jm_play play_over",
                answer: played(self.alloc, &mut self.written),
            },
            _ => Called::NONE,
        }
    }
}

/// Makes the call of that number.
pub fn made(alloc: Global, number: usize) -> Made {
    match Vec::with_capacity(alloc, ROOM) {
        Ok(written) => tell(Ok(Plays {
            alloc,
            number,
            written,
        })),
        Err(_) => Made::NoMemory,
    }
}

//! Scenarios over a keeper: one that keeps in memory, and one that fails at each write.

ghost use Rattle.std.specs.Prelude.{◌≡◌, true};

use crate::told::holds;
use jm_core::Core;
use jm_keep::{Keep, MemKeep, RowChange, StoreFault};
use jm_play::{Ending, Sink, Source, play_over};
use std::alloc::Global;

/// Fails at each write, and counts that. Nothing is stored.
struct BrokenKeep {
    faults: u64,
}

impl Drop for BrokenKeep {
    fn drop(self) {
        let BrokenKeep { faults: _faults } = self;
    }
}

impl Keep for BrokenKeep {
    ghost use Rattle.std.specs.Prelude.{true};
    ghost use Rattle.jm_keep.specs.Stored.{nothing};

    ghost stored = { λ k. nothing };

    ghost faults = { λ k. k.faults };

    ghost is_clean = { λ k. true };

    ghost is_keeping = { λ k. true };

    fn keeps(&self) -> bool
        ensures { result ≡ true }
    {
        true
    }

    fn write(&mut self, _changes: &[RowChange]) -> Result<(), StoreFault> {
        self.faults = self.faults.saturating_add(1);
        Err(StoreFault::Device)
    }
}

const SCENARIO: &str = r#"{"calls": [
  {"op": "open", "c": 1, "client": "k"},
  {"op": "session", "s": [1, 1], "mode": "auto"},
  {"op": "durable", "s": [1, 1], "k": 1, "topic": "t", "name": "n"},
  {"op": "start", "c": 1},
  {"op": "send", "s": [1, 1], "topic": "t", "now": 1000, "text": "a"},
  {"op": "receive", "s": [1, 1], "k": 1, "now": 1000},
  {"op": "receive", "s": [1, 1], "k": 1, "now": 1000}
]}"#;

const LINES: &str = "1 ok
2 ok
3 ok
4 ok
5 sent 1
6 message ID:1-1.1.1 count=1 redelivered=no priority=4 body=text \"a\"
7 none
";

/// Where the durable subscription cannot be stored there is none: nobody takes the message, and its consumer's number is of
/// no consumer.
const REFUSED: &str = "1 ok
2 ok
3 refused Store
4 ok
5 sent 1
6 refused IllegalState
7 refused IllegalState
";

/// What playing the scenario on a new core over the keeper ends with; what it writes goes to the end of `written`.
fn ended<K: Keep>(alloc: Global, keeper: &mut K, written: &mut Vec<u8>) -> Option<Ending> {
    let mut core = Core::new(alloc, 1, 100_000).ok()?;
    let mut source = Source::new(Ok(SCENARIO.as_bytes()));
    let mut sink = Sink::new(written);
    Some(play_over(alloc, &mut core, keeper, &mut source, &mut sink))
}

/// Whether it prints those lines with that status, and tells no fault.
fn prints<K: Keep>(alloc: Global, keeper: &mut K, lines: &str, status: u8) -> bool {
    let mut written = Vec::new(alloc);
    match ended(alloc, keeper, &mut written) {
        Some(ending) => {
            ending.status == status
                && ending.fault.is_none()
                && written.as_slice() == lines.as_bytes()
        }
        None => false,
    }
}

#[test]
fn over_a_keeper(rt: HostRuntime) {
    let mut keeper = MemKeep::new(rt.alloc());
    holds(&rt, "kept", prints(rt.alloc(), &mut keeper, LINES, 0));
    holds(&rt, "changes", !keeper.changes().is_empty());
}

#[test]
fn over_a_keeper_that_fails(rt: HostRuntime) {
    let mut keeper = BrokenKeep { faults: 0 };
    holds(&rt, "refused", prints(rt.alloc(), &mut keeper, REFUSED, 3));
    holds(&rt, "faults", keeper.faults == 1);
}

//! A lock that is made.

ghost use Rattle.std.specs.Prelude.{◌≡◌};

use crate::anew::Run;
use jm_base::Refusal;
use jm_broker::{Broker, NotMade};
use jm_core::Core;
use jm_keep::NoKeep;
use std::alloc::Global;
use std::marker::Brand;
use std::sync::ledger::{Blank, Ledger};
use tried::{Answer, Left, Made};
use tried_core::cores::{core, numbers};

/// The call, as it is named.
const NAME: &str = "jm_broker Broker::new";

/// How many parts the lock has; or the core again, where memory was wanted.
fn opened<L: Ledger>(heap: Global, blank: Blank, core: Core) -> Result<u64, Core>
    requires name { blank.name ≡ L.name }
    requires parts { (blank.parts ≡ L.parts) × (blank.parts ≡ 3) }
{
    let lock: Result<Broker<Core, NoKeep, L>, NotMade<Core, NoKeep>> = Broker::new(
        heap, blank, 3, core, NoKeep,
    );
    match lock {
        Ok(_) => Ok(3),
        Err(back) => Err(back.core),
    }
}

/// What is told as a lock is made round that core again.
fn again(heap: Global, core: Core) -> Answer {
    match opened::<Brand>(heap, Blank::new(3), core) {
        Ok(parts) => Ok(parts),
        Err(_) => Err(Refusal::Memory),
    }
}

/// A lock is made round the core, and where that wanted memory it is made again.
fn run(heap: Global, core: Core) -> Run {
    let before = numbers(&core);
    match opened::<Brand>(heap, Blank::new(3), core) {
        Ok(parts) => Run::Ended(Ok(parts)),
        Err(core) => Run::WentOn(Left {
            before,
            after: numbers(&core),
            again: again(heap, core),
        }),
    }
}

/// Makes the call of that number.
pub fn made(heap: Global, number: usize) -> Made {
    if number > 0 {
        return Made::NoCall;
    }
    match core(heap) {
        Ok(core) => run(heap, core).told(NAME, Run::NotBegun),
        Err(_) => Made::NoMemory,
    }
}

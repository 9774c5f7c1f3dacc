//! Runs whose last call takes what it is made on: where that wants memory, the run is made anew.

use jm_base::Refusal;
use tried::{Answer, Left, Made, Told};

/// How a run came out.
#[derive(Clone, Copy)]
pub enum Run {
    /// Memory was wanted before its calls.
    NotBegun,
    /// No call wanted memory; what the last one was answered.
    Ended(Answer),
    /// A call wanted memory, and was made again; what its readers showed before and after it, and what the last call was answered.
    WentOn(Left),
    /// The last call wanted memory; what the readers showed before and after it.
    BrokeOff { before: u64, after: u64 },
}

impl Run {
    /// Whether it is made anew.
    pub fn is_broken_off(&self) -> bool {
        matches!(self, Run::BrokeOff { .. })
    }

    /// What its last call was answered, or `Memory` where that, or a call before it, wanted memory to the end.
    fn answer(self) -> Answer {
        match self {
            Run::NotBegun | Run::BrokeOff { .. } => Err(Refusal::Memory),
            Run::Ended(answer) => answer,
            Run::WentOn(left) => left.again,
        }
    }

    /// What is told of the run of that name, which was made anew as `again` where it broke off.
    pub fn told(self, name: &'static str, again: Run) -> Made {
        match self {
            Run::NotBegun => Made::NoMemory,
            Run::Ended(answer) => Made::Told(Told {
                name,
                answer,
                left: None,
            }),
            Run::WentOn(left) => wanted(name, left),
            Run::BrokeOff { before, after } => {
                let again = again.answer();
                wanted(
                    name,
                    Left {
                        before,
                        after,
                        again,
                    },
                )
            }
        }
    }
}

/// What is told of the run of that name, a call of which wanted memory.
fn wanted(name: &'static str, left: Left) -> Made {
    Made::Told(Told {
        name,
        answer: Err(Refusal::Memory),
        left: Some(left),
    })
}

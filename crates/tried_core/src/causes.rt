//! Why a running core refuses a call.

use crate::cores::{core, step};
use jm_base::Refusal;
use jm_core::Core;
use jm_explain::why;
use jm_machine::Step;
use std::alloc::Global;
use tests_calls::Op;
use tried::{Answer, Called, Made, Trial, tell};

/// A core, and a step that it refuses: the durable subscription has an active consumer.
#[derive(Drop)]
struct Refused {
    alloc: Global,
    number: usize,
    step: Step,
    core: Core,
}

fn has_cause(alloc: Global, core: &Core, step: &Step) -> Answer {
    match why(alloc, core, step) {
        Ok(why) => Ok(u64::from(why.is_some())),
        Err(_) => Err(Refusal::Memory),
    }
}

impl Refused {
    fn new(alloc: Global, number: usize) -> Result<Refused, Refusal> {
        Ok(Refused {
            alloc,
            number,
            step: step(alloc, Op::Unsubscribe((1, 1), "invoices"))?,
            core: core(alloc)?,
        })
    }
}

impl Trial for Refused {
    /// How many consumers there are.
    fn state(&self) -> u64 {
        self.core.consumers().len() as u64
    }

    fn call(&mut self) -> Called {
        match self.number {
            0 => Called {
                name: "jm_explain why",
                answer: has_cause(self.alloc, &self.core, &self.step),
            },
            _ => Called::NONE,
        }
    }
}

/// Makes the call of that number.
pub fn made(alloc: Global, number: usize) -> Made {
    tell(Refused::new(alloc, number))
}

//! A step and a publication, which no keeper is told of.

use crate::cores::{core, numbers, step};
use jm_base::Refusal;
use jm_core::Core;
use jm_dest::{ConnectionId, Moment, Number, SessionId};
use jm_header::{Message, Sender, stamp};
use jm_kept::step_without_store;
use jm_machine::{Reply, Step};
use std::alloc::Global;
use tests_calls::{At, Op, destination, draft};
use tried::{Answer, Called, Made, Trial, tell};

/// A core, a step that makes a consumer with a selector, and a message of its session to a queue that holds nothing.
#[derive(Drop)]
struct Steps {
    number: usize,
    step: Step,
    message: Message,
    core: Core,
}

/// A message to a queue that holds nothing.
fn message(alloc: Global) -> Result<Message, Refusal> {
    let sender = Sender {
        opening: Number::new(1)?,
        session: SessionId::new(ConnectionId::new(1)?, 1)?,
    };
    let now = Moment::new(1000)?;
    let bills = destination(alloc, At::Queue("bills"))?;
    stamp(draft(alloc, "c", None), bills, sender, 3, now)
}

/// What the core's readers show where the step was accepted.
fn accepted(core: &Core, reply: Reply) -> Answer {
    match reply {
        Ok(_) => Ok(numbers(core)),
        Err(refusal) => Err(refusal),
    }
}

impl Steps {
    fn new(alloc: Global, number: usize) -> Result<Steps, Refusal> {
        let orders = At::Queue("orders");
        let op = Op::ConsumerAt((1, 1), 3, orders, Some("x = 1"), false);
        Ok(Steps {
            number,
            step: step(alloc, op)?,
            message: message(alloc)?,
            core: core(alloc)?,
        })
    }

    fn step(&mut self) -> Answer {
        let reply = self.core.step(&self.step);
        accepted(&self.core, reply)
    }

    fn publish(&mut self) -> Answer {
        let Ok(message) = self.message.copy() else {
            return Err(Refusal::Memory);
        };
        let session = message.sender().session;
        let reply = self.core.publish(&session, message);
        accepted(&self.core, reply)
    }

    fn step_without_store(&mut self) -> Answer {
        let reply = step_without_store(&mut self.core, &self.step);
        accepted(&self.core, reply)
    }
}

impl Trial for Steps {
    fn state(&self) -> u64 {
        numbers(&self.core)
    }

    fn call(&mut self) -> Called {
        match self.number {
            0 => Called {
                name: "jm_core Core::step",
                answer: self.step(),
            },
            1 => Called {
                name: "jm_kept step_without_store",
                answer: self.step_without_store(),
            },
            2 => Called {
                name: "jm_core Core::publish",
                answer: self.publish(),
            },
            _ => Called::NONE,
        }
    }
}

/// Makes the call of that number.
pub fn made(alloc: Global, number: usize) -> Made {
    tell(Steps::new(alloc, number))
}

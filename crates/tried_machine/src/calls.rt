//! What is asked.

use jm_base::Refusal;
use jm_machine::{ClientCall, Step};
use std::alloc::Global;
use tests_calls::{At, Kind, Op, call, publication};
use tried::{Answer, Called, Made, Trial, same, tell};

/// A client's call and a step.
#[derive(Drop)]
struct Calls {
    alloc: Global,
    number: usize,
    step: Step,
    asked: ClientCall,
}

fn copied_request(asked: &ClientCall) -> Answer {
    match asked {
        ClientCall::Ask { who: _, request } => match request.copy() {
            Ok(copy) => Ok(u64::from(copy.is(request))),
            Err(_) => Err(Refusal::Memory),
        },
        _ => Ok(0),
    }
}

fn copied_call(asked: &ClientCall) -> Answer {
    match asked.copy() {
        Ok(copy) => Ok(same(&copy, asked)),
        Err(_) => Err(Refusal::Memory),
    }
}

fn copied_step(alloc: Global, step: &Step) -> Answer {
    match step.copy(alloc) {
        Ok(copy) => Ok(same(&copy, step)),
        Err(_) => Err(Refusal::Memory),
    }
}

fn step(alloc: Global) -> Result<Step, Refusal> {
    publication(alloc, 1, At::Topic("t"), None, 2)
}

fn asked(alloc: Global) -> Result<ClientCall, Refusal> {
    let op = Op::Named((1, 1), 1, Kind::Durable, "name", Some("x = 1"));
    call(alloc, op)
}

impl Calls {
    fn new(alloc: Global, number: usize) -> Result<Calls, Refusal> {
        Ok(Calls {
            alloc,
            number,
            step: step(alloc)?,
            asked: asked(alloc)?,
        })
    }
}

impl Trial for Calls {
    fn state(&self) -> u64 {
        0
    }

    fn call(&mut self) -> Called {
        match self.number {
            0 => Called {
                name: "jm_machine Request::copy",
                answer: copied_request(&self.asked),
            },
            1 => Called {
                name: "jm_machine ClientCall::copy",
                answer: copied_call(&self.asked),
            },
            2 => Called {
                name: "jm_machine Step::copy",
                answer: copied_step(self.alloc, &self.step),
            },
            _ => Called::NONE,
        }
    }
}

/// Makes the call of that number.
pub fn made(alloc: Global, number: usize) -> Made {
    tell(Calls::new(alloc, number))
}

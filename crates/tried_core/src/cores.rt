//! The core.

use jm_base::{Mode, Refusal};
use jm_core::Core;
use jm_dest::{ClientId, Key, Name, SubscriptionName};
use jm_machine::{Answer as Told, Call, ClientCall, Reply, Step};
use std::alloc::Global;
use tests_calls::{At, Kind, Op, call, calls};
use tried::{Answer, Called, Made, Trial, tell, two};

/// A core with a message in a queue and one for a durable subscription.
#[derive(Drop)]
struct Cores {
    alloc: Global,
    number: usize,
    name: Name,
    key: Key,
    core: Core,
}

/// The calls that make it.
static OPS: [Op; 7] = [
    Op::OpenFor(1, "billing"),
    Op::Session((1, 1), Mode::Client),
    Op::Named((1, 1), 1, Kind::Durable, "invoices", None),
    Op::ConsumerAt((1, 1), 2, At::Queue("orders"), None, false),
    Op::Start(1),
    Op::SendTo(1, At::Topic("t"), "a", None),
    Op::SendTo(1, At::Queue("orders"), "b", Some(1)),
];

static SEND: [Op; 1] = [Op::SendTo(1, At::Queue("orders"), "c", None)];

/// How many calls were accepted, or why the first one was refused that was.
fn accepted(replies: &[Reply]) -> Answer {
    for reply in replies {
        if let Err(refusal) = reply {
            return Err(*refusal);
        }
    }
    Ok(replies.len() as u64)
}

fn run(alloc: Global, core: &mut Core, ops: &[Op]) -> Answer {
    match core.run(calls(alloc, ops)?) {
        Ok(replies) => accepted(&replies),
        Err(_) => Err(Refusal::Memory),
    }
}

/// A new core, with a message in a queue and one for a durable subscription.
pub fn core(alloc: Global) -> Result<Core, Refusal> {
    let mut core = Core::new(alloc, 1, 100_000)?;
    match run(alloc, &mut core, &OPS) {
        Ok(_) => Ok(core),
        Err(refusal) => Err(refusal),
    }
}

/// The step of a call that is no send and no commit.
pub fn step(alloc: Global, op: Op) -> Result<Step, Refusal> {
    match call(alloc, op) {
        Ok(ClientCall::Ask { who, request }) => Ok(Step {
            who,
            call: Call::Ask(request),
        }),
        Ok(_) => Err(Refusal::Store),
        Err(refusal) => Err(refusal),
    }
}

/// How many messages are held, how many by queues, and how many consumers there are.
pub fn numbers(core: &Core) -> u64 {
    let kept = two(core.kept(), core.kept_by_queues());
    kept.wrapping_mul(1000)
        .wrapping_add(core.consumers().len() as u64)
}

fn copied(core: &Core) -> Answer {
    match core.copy() {
        Ok(copy) => Ok(numbers(&copy)),
        Err(_) => Err(Refusal::Memory),
    }
}

fn station(core: &Core, key: &Key) -> Answer {
    match core.station(key) {
        Ok(Some(station)) => Ok(station.rows.as_slice().len() as u64),
        Ok(None) => Ok(0),
        Err(_) => Err(Refusal::Memory),
    }
}

fn queue_rows(core: &Core, name: &Name) -> Answer {
    match core.queue_rows(name) {
        Ok(rows) => Ok(rows.len() as u64),
        Err(_) => Err(Refusal::Memory),
    }
}

/// The count of the delivery, or 0.
fn count(told: &Told) -> u64 {
    match told {
        Told::Delivered(delivery) => u64::from(delivery.count),
        _ => 0,
    }
}

/// What a receive of the queue's consumer will be answered.
fn copied_answer(core: &mut Core, step: &Step) -> Answer {
    let plan = core.plan(step)?;
    match core.copy_answer(&plan) {
        Ok(told) => Ok(count(&told)),
        Err(_) => Err(Refusal::Memory),
    }
}

fn answer(alloc: Global, core: &mut Core) -> Answer {
    match step(alloc, Op::Receive((1, 1), 2)) {
        Ok(step) => copied_answer(core, &step),
        Err(refusal) => Err(refusal),
    }
}

fn key(alloc: Global) -> Result<Key, Refusal> {
    let name = SubscriptionName::new(alloc, "invoices")?;
    Ok(Key::Durable(Some(ClientId::new(alloc, "billing")?), name))
}

impl Cores {
    fn new(alloc: Global, number: usize) -> Result<Cores, Refusal> {
        Ok(Cores {
            alloc,
            number,
            name: Name::new(alloc, "orders")?,
            key: key(alloc)?,
            core: core(alloc)?,
        })
    }
}

impl Trial for Cores {
    fn state(&self) -> u64 {
        numbers(&self.core)
    }

    fn call(&mut self) -> Called {
        match self.number {
            0 => Called {
                name: "jm_core Core::copy",
                answer: copied(&self.core),
            },
            1 => Called {
                name: "jm_core Core::station",
                answer: station(&self.core, &self.key),
            },
            2 => Called {
                name: "jm_core Core::queue_rows",
                answer: queue_rows(&self.core, &self.name),
            },
            3 => Called {
                name: "jm_core Core::run",
                answer: run(self.alloc, &mut self.core, &SEND),
            },
            4 => Called {
                name: "jm_core Core::copy_answer",
                answer: answer(self.alloc, &mut self.core),
            },
            _ => Called::NONE,
        }
    }
}

/// Makes the call of that number.
pub fn made(alloc: Global, number: usize) -> Made {
    tell(Cores::new(alloc, number))
}

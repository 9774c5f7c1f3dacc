//! What calls are told.

use jm_base::Refusal;
use jm_machine::{Answer as Told, Delivery, Reply, copy_reply, same_reply};
use std::alloc::Global;
use tests_calls::{At, sent};
use tried::{Answer, Called, Made, Trial, same, tell};

/// An answer and a reply.
#[derive(Drop)]
struct Answers {
    number: usize,
    delivery: Delivery,
    answer: Told,
    reply: Reply,
}

fn delivery(alloc: Global) -> Result<Delivery, Refusal> {
    Ok(Delivery {
        message: sent(alloc, 1, At::Topic("t"), Some(1))?,
        count: 2,
    })
}

fn delivered(alloc: Global) -> Result<Told, Refusal> {
    Ok(Told::Delivered(delivery(alloc)?))
}

fn copied_delivery(delivery: &Delivery) -> Answer {
    match delivery.copy() {
        Ok(copy) => Ok(same(&copy, delivery)),
        Err(_) => Err(Refusal::Memory),
    }
}

fn copied_answer(answer: &Told) -> Answer {
    match answer.copy() {
        Ok(copy) => Ok(u64::from(copy.is(answer))),
        Err(_) => Err(Refusal::Memory),
    }
}

fn copied_reply(reply: &Reply) -> Answer {
    match copy_reply(reply) {
        Ok(copy) => Ok(u64::from(same_reply(&copy, reply))),
        Err(_) => Err(Refusal::Memory),
    }
}

impl Answers {
    fn new(alloc: Global, number: usize) -> Result<Answers, Refusal> {
        Ok(Answers {
            number,
            delivery: delivery(alloc)?,
            answer: delivered(alloc)?,
            reply: Ok(delivered(alloc)?),
        })
    }
}

impl Trial for Answers {
    /// How often the message was delivered.
    fn state(&self) -> u64 {
        u64::from(self.delivery.count)
    }

    fn call(&mut self) -> Called {
        match self.number {
            0 => Called {
                name: "jm_machine Delivery::copy",
                answer: copied_delivery(&self.delivery),
            },
            1 => Called {
                name: "jm_machine Answer::copy",
                answer: copied_answer(&self.answer),
            },
            2 => Called {
                name: "jm_machine copy_reply",
                answer: copied_reply(&self.reply),
            },
            _ => Called::NONE,
        }
    }
}

/// Makes the call of that number.
pub fn made(alloc: Global, number: usize) -> Made {
    tell(Answers::new(alloc, number))
}

//! The rows of one subscription alone.

use jm_base::{Mode, Refusal};
use jm_dest::{ConsumerId, Key, Moment, SessionId, SubscriptionName};
use jm_header::Message;
use jm_machine::{Answer as Told, PlacedRow, Row, RowState};
use jm_rows::Rows;
use std::alloc::Global;
use tests_calls::{At, sent, session};
use tried::{Answer, Called, Made, Trial, tell, two};

/// The rows of a durable subscription, and a message that comes.
#[derive(Drop)]
struct Alone {
    alloc: Global,
    number: usize,
    session: SessionId,
    consumer: ConsumerId,
    now: Moment,
    message: Message,
    rows: Rows,
}

fn key(alloc: Global) -> Result<Key, Refusal> {
    Ok(Key::Durable(None, SubscriptionName::new(alloc, "invoices")?))
}

fn message(alloc: Global) -> Result<Message, Refusal> {
    sent(alloc, 1, At::Topic("orders"), Some(1))
}

fn row(alloc: Global) -> Result<PlacedRow, Refusal> {
    let message = message(alloc)?;
    let row = Row {
        message,
        count: 1,
        state: RowState::Waiting,
    };
    Ok(PlacedRow { place: 1, row })
}

fn placed(alloc: Global) -> Result<Vec<PlacedRow>, Refusal> {
    let mut rows = Vec::new(alloc);
    if rows.push(row(alloc)?).is_err() {
        return Err(Refusal::Memory);
    }
    Ok(rows)
}

fn one(alloc: Global) -> Result<Rows, Refusal> {
    let key = key(alloc)?;
    match Rows::of(alloc, key, placed(alloc)?) {
        Ok(rows) => Ok(rows),
        Err(_) => Err(Refusal::Memory),
    }
}

fn of(alloc: Global) -> Answer {
    match one(alloc) {
        Ok(rows) => Ok(rows.len() as u64),
        Err(refusal) => Err(refusal),
    }
}

/// The count of the delivery, or 0.
fn count(told: &Told) -> u64 {
    match told {
        Told::Delivered(delivery) => u64::from(delivery.count),
        _ => 0,
    }
}

impl Alone {
    fn new(alloc: Global, number: usize) -> Result<Alone, Refusal> {
        let (session, consumer, now) = (session(1)?, ConsumerId::new(1)?, Moment::new(1000)?);
        Ok(Alone {
            alloc,
            number,
            session,
            consumer,
            now,
            message: message(alloc)?,
            rows: one(alloc)?,
        })
    }

    fn push(&mut self) -> Answer {
        match self.rows.push(&self.message) {
            Ok(()) => Ok(self.rows.len() as u64),
            Err(_) => Err(Refusal::Memory),
        }
    }

    fn receive(&mut self) -> Answer {
        match self
            .rows
            .receive(Mode::Client, &self.session, self.consumer, self.now)
        {
            Ok(told) => Ok(count(&told)),
            Err(_) => Err(Refusal::Memory),
        }
    }

    fn take(&mut self) -> Answer {
        match self.rows.take(&self.session, self.consumer, self.now) {
            Ok(told) => Ok(count(&told)),
            Err(_) => Err(Refusal::Memory),
        }
    }
}

impl Trial for Alone {
    /// How many rows there are, and whether none is out.
    fn state(&self) -> u64 {
        two(self.rows.len(), usize::from(self.rows.is_home()))
    }

    fn call(&mut self) -> Called {
        match self.number {
            0 => Called {
                name: "jm_rows Rows::of",
                answer: of(self.alloc),
            },
            1 => Called {
                name: "jm_rows Rows::push",
                answer: self.push(),
            },
            2 => Called {
                name: "jm_rows Rows::receive",
                answer: self.receive(),
            },
            3 => Called {
                name: "jm_rows Rows::take",
                answer: self.take(),
            },
            _ => Called::NONE,
        }
    }
}

/// Makes the call of that number.
pub fn made(alloc: Global, number: usize) -> Made {
    tell(Alone::new(alloc, number))
}

//! Sends, counted and kept for a commit.

use jm_base::{Mode, Refusal};
use jm_dest::{Destination, Moment, Number, SessionId};
use jm_header::{Draft, Sender};
use jm_session::Sends;
use jm_tx::{Halves, Sent, SessionHalf};
use std::alloc::Global;
use tests_calls::session;
use tried::{Answer, Called, Made, Trial, tell, two};

/// Counts of sends, and the half of a transaction.
#[derive(Drop)]
struct Counts {
    alloc: Global,
    number: usize,
    sender: Sender,
    now: Moment,
    sends: Sends,
    half: SessionHalf,
    halves: Halves,
}

fn sender() -> Result<Sender, Refusal> {
    Ok(Sender {
        opening: Number::new(1)?,
        session: session(1)?,
    })
}

/// The number of the session's next send.
fn next(sends: &Sends, session: &SessionId) -> u64 {
    sends.next_number(session).unwrap_or(0)
}

/// The number of the send, where it waits for the commit.
fn kept(sent: Sent) -> u64 {
    match sent {
        Sent::Kept(number) => number,
        Sent::Publish(_) => 0,
    }
}

fn with_capacity(alloc: Global, session: &SessionId) -> Answer {
    match Sends::with_capacity(alloc, 10) {
        Ok(sends) => Ok(next(&sends, session)),
        Err(_) => Err(Refusal::Memory),
    }
}

fn halves_with_capacity(alloc: Global) -> Answer {
    match Halves::with_capacity(alloc, 10) {
        Ok(_) => Ok(1),
        Err(_) => Err(Refusal::Memory),
    }
}

fn counted(sends: &mut Sends, session: &SessionId) -> Answer {
    let Some(number) = sends.next_number(session) else {
        return Ok(0);
    };
    match sends.count(session) {
        Ok(()) => Ok(number),
        Err(_) => Err(Refusal::Memory),
    }
}

impl Counts {
    fn new(alloc: Global, number: usize) -> Result<Counts, Refusal> {
        let (sender, now) = (sender()?, Moment::new(1000)?);
        Ok(Counts {
            alloc,
            number,
            sender,
            now,
            sends: Sends::new(alloc),
            half: SessionHalf::new(alloc, sender, Mode::Transacted, 0),
            halves: Halves::with_capacity(alloc, 0)?,
        })
    }

    fn sent(&mut self) -> Answer {
        let topic = Destination::topic(self.alloc, "orders")?;
        match self.half.send(Draft::new(self.alloc), topic, self.now) {
            Ok(sent) => Ok(kept(sent)),
            Err(refusal) => Err(refusal),
        }
    }

    fn sent_first(&mut self) -> Answer {
        let topic = Destination::topic(self.alloc, "orders")?;
        let draft = Draft::new(self.alloc);
        match self
            .halves
            .send(self.sender, Mode::Transacted, draft, topic, self.now)
        {
            Ok(sent) => Ok(kept(sent)),
            Err(refusal) => Err(refusal),
        }
    }
}

impl Trial for Counts {
    /// How many messages wait for the commit, and the number of the next send.
    fn state(&self) -> u64 {
        let next = next(&self.sends, &self.sender.session);
        two(self.half.pending().len(), next.min(999) as usize)
    }

    fn call(&mut self) -> Called {
        match self.number {
            0 => Called {
                name: "jm_session Sends::with_capacity",
                answer: with_capacity(self.alloc, &self.sender.session),
            },
            1 => Called {
                name: "jm_session Sends::count",
                answer: counted(&mut self.sends, &self.sender.session),
            },
            2 => Called {
                name: "jm_tx Halves::with_capacity",
                answer: halves_with_capacity(self.alloc),
            },
            3 => Called {
                name: "jm_tx Halves::send",
                answer: self.sent_first(),
            },
            4 => Called {
                name: "jm_tx SessionHalf::send",
                answer: self.sent(),
            },
            _ => Called::NONE,
        }
    }
}

/// Makes the call of that number.
pub fn made(alloc: Global, number: usize) -> Made {
    tell(Counts::new(alloc, number))
}

//! Messages, whose readers are seen by whether the message is still the one that it was.

use jm_base::Refusal;
use jm_dest::{ConnectionId, Destination, Moment, Number, SessionId};
use jm_header::{Draft, Message, Sender, stamp};
use jm_property::Property;
use std::alloc::Global;
use tried::{Answer, Called, Made, Trial, of_fault, tell};

/// A message and one that equals it, to which no call is made.
#[derive(Drop)]
struct Messages {
    number: usize,
    message: Message,
    before: Message,
}

fn sender() -> Result<Sender, Refusal> {
    Ok(Sender {
        opening: Number::new(1)?,
        session: SessionId::new(ConnectionId::new(1)?, 1)?,
    })
}

/// A draft with a property, so that a copy of its message takes memory.
fn draft(alloc: Global) -> Result<Draft, Refusal> {
    let mut draft = Draft::new(alloc);
    match draft.set_property("x", Property::Long(1)) {
        Ok(()) => Ok(draft),
        Err(fault) => Err(of_fault(fault)),
    }
}

fn message(alloc: Global) -> Result<Message, Refusal> {
    let (sender, now) = (sender()?, Moment::new(1000)?);
    let topic = Destination::topic(alloc, "news")?;
    stamp(draft(alloc)?, topic, sender, 1, now)
}

fn copied(message: &Message) -> Answer {
    match message.copy() {
        Ok(copy) => Ok(u64::from(copy.is(message))),
        Err(_) => Err(Refusal::Memory),
    }
}

impl Messages {
    fn new(alloc: Global, number: usize) -> Result<Messages, Refusal> {
        Ok(Messages {
            number,
            message: message(alloc)?,
            before: message(alloc)?,
        })
    }

    fn text(&mut self) -> Answer {
        match self.message.set_text("one bicycle") {
            Ok(()) => Ok(u64::from(!self.message.is(&self.before))),
            Err(fault) => Err(of_fault(fault)),
        }
    }

    fn bytes(&mut self) -> Answer {
        match self.message.set_bytes(&[0, 255]) {
            Ok(()) => Ok(u64::from(!self.message.is(&self.before))),
            Err(fault) => Err(of_fault(fault)),
        }
    }

    fn property(&mut self) -> Answer {
        match self.message.set_property("y", Property::Long(1)) {
            Ok(()) => Ok(self.message.properties().len() as u64),
            Err(fault) => Err(of_fault(fault)),
        }
    }
}

impl Trial for Messages {
    /// 1 where the message is as it was.
    fn state(&self) -> u64 {
        u64::from(self.message.is(&self.before))
    }

    fn call(&mut self) -> Called {
        match self.number {
            0 => Called {
                name: "jm_header Message::set_text",
                answer: self.text(),
            },
            1 => Called {
                name: "jm_header Message::set_bytes",
                answer: self.bytes(),
            },
            2 => Called {
                name: "jm_header Message::set_property",
                answer: self.property(),
            },
            3 => Called {
                name: "jm_header Message::copy",
                answer: copied(&self.message),
            },
            _ => Called::NONE,
        }
    }
}

/// Makes the call of that number.
pub fn made(alloc: Global, number: usize) -> Made {
    tell(Messages::new(alloc, number))
}

//! The records of messages.

use jm_base::Refusal;
use jm_dest::{ConnectionId, Destination, Moment, Number, SessionId};
use jm_header::{Draft, Message, Sender, stamp};
use jm_property::Property;
use jm_record::{RecordFault, read_record, write_record};
use std::alloc::{AllocError, Global};
use tried::{Answer, Called, Made, Trial, of_fault, tell};

/// A message and its record.
#[derive(Drop)]
struct Records {
    alloc: Global,
    number: usize,
    record: Vec<u8>,
    message: Message,
}

fn sender() -> Result<Sender, Refusal> {
    Ok(Sender {
        opening: Number::new(1)?,
        session: SessionId::new(ConnectionId::new(1)?, 1)?,
    })
}

fn fill(draft: &mut Draft) -> Result<(), Refusal> {
    draft.set_correlation("request 1")?;
    draft.set_type("order")?;
    draft.set_text("one bicycle")?;
    match draft.set_property("x", Property::Long(1)) {
        Ok(()) => Ok(()),
        Err(fault) => Err(of_fault(fault)),
    }
}

fn draft(alloc: Global) -> Result<Draft, Refusal> {
    let mut draft = Draft::new(alloc);
    match fill(&mut draft) {
        Ok(()) => Ok(draft),
        Err(refusal) => Err(refusal),
    }
}

/// A message with a correlation ID, a type, a body and a property.
pub(crate) fn message(alloc: Global) -> Result<Message, Refusal> {
    let (sender, now) = (sender()?, Moment::new(1000)?);
    let topic = Destination::topic(alloc, "news")?;
    stamp(draft(alloc)?, topic, sender, 1, now)
}

fn record(alloc: Global) -> Result<Vec<u8>, Refusal> {
    match message(alloc) {
        Ok(message) => record_of(alloc, &message),
        Err(refusal) => Err(refusal),
    }
}

fn record_of(alloc: Global, message: &Message) -> Result<Vec<u8>, Refusal> {
    match write_record(alloc, message) {
        Ok(record) => Ok(record),
        Err(AllocError) => Err(Refusal::Memory),
    }
}

impl Records {
    fn new(alloc: Global, number: usize) -> Result<Records, Refusal> {
        Ok(Records {
            alloc,
            number,
            record: record(alloc)?,
            message: message(alloc)?,
        })
    }

    /// 1 where the record is written as it was before.
    fn written(&self) -> Answer {
        match record_of(self.alloc, &self.message) {
            Ok(record) => Ok(u64::from(record.as_slice() == self.record.as_slice())),
            Err(refusal) => Err(refusal),
        }
    }

    /// 1 where the message is read.
    fn read(&self) -> Answer {
        match read_record(self.alloc, self.record.as_slice()) {
            Ok(message) => Ok(u64::from(message.is(&self.message))),
            Err(RecordFault::Memory) => Err(Refusal::Memory),
            Err(RecordFault::Damaged { at: _ }) => Err(Refusal::MessageFormat),
        }
    }
}

impl Trial for Records {
    /// The length of the record.
    fn state(&self) -> u64 {
        self.record.len() as u64
    }

    fn call(&mut self) -> Called {
        match self.number {
            0 => Called {
                name: "jm_format write_record",
                answer: self.written(),
            },
            1 => Called {
                name: "jm_record read_record",
                answer: self.read(),
            },
            _ => Called::NONE,
        }
    }
}

/// Makes the call of that number.
pub fn made(alloc: Global, number: usize) -> Made {
    tell(Records::new(alloc, number))
}

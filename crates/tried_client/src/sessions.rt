//! What sessions make.

use crate::keeping::{Kept, provider};
use crate::overview::{after, digits, with};
use jm_client::{Connection, Destination, Error, Mode, Provider, Refusal, Session};
use std::alloc::Global;
use std::sync::Wait;
use std::time::Clock;
use tried::{Answer, Called, Left, Made, Told, Trial};

/// A session of a client that has a durable subscription, with a topic.
#[derive(Drop)]
struct Making<'p, R: Wait + Clock> {
    number: usize,
    provider: &'p Provider<'p, R, Kept>,
    connection: Connection<'p, R, Kept>,
    session: Session<'p, R, Kept>,
    topic: Destination,
}

/// Makes a durable subscription, whose consumer closes.
fn subscribe<R: Wait + Clock>(
    session: &Session<'_, R, Kept>,
    topic: &Destination,
) -> Result<(), Error> {
    session
        .create_durable_consumer(topic, "first", None, false)?
        .close()
}

impl<'p, R: Wait + Clock> Making<'p, R> {
    fn new(provider: &'p Provider<'p, R, Kept>, number: usize) -> Result<Making<'p, R>, Error> {
        let connection = provider.create_connection(Some("billing"))?;
        let session = connection.create_session(Mode::Auto)?;
        let topic = session.create_topic("orders")?;
        subscribe(&session, &topic)?;
        Ok(Making {
            number,
            provider,
            connection,
            session,
            topic,
        })
    }

    fn consumer(&self) -> Answer {
        let made = self
            .session
            .create_consumer(&self.topic, Some("x = 1"), true);
        with(self.provider, made)
    }

    fn durable(&self) -> Answer {
        let made = self
            .session
            .create_durable_consumer(&self.topic, "second", Some("x = 1"), false);
        with(self.provider, made)
    }

    fn shared(&self) -> Answer {
        let made = self
            .session
            .create_shared_consumer(&self.topic, "third", None);
        with(self.provider, made)
    }

    fn shared_durable(&self) -> Answer {
        let made = self
            .session
            .create_shared_durable_consumer(&self.topic, "fourth", None);
        with(self.provider, made)
    }

    fn unsubscribe(&self) -> Answer {
        after(self.provider, self.session.unsubscribe("first"))
    }
}

impl<'p, R: Wait + Clock> Trial for Making<'p, R> {
    fn state(&self) -> u64 {
        digits(self.provider)
    }

    fn call(&mut self) -> Called {
        match self.number {
            0 => Called {
                name: "jm_client Session::create_topic",
                answer: with(self.provider, self.session.create_topic("invoices")),
            },
            1 => Called {
                name: "jm_client Session::create_queue",
                answer: with(self.provider, self.session.create_queue("invoices")),
            },
            2 => Called {
                name: "jm_client Session::create_text_message",
                answer: with(self.provider, self.session.create_text_message("text")),
            },
            3 => Called {
                name: "jm_client Session::create_bytes_message",
                answer: with(self.provider, self.session.create_bytes_message(&[0, 255])),
            },
            4 => Called {
                name: "jm_client Session::create_consumer",
                answer: self.consumer(),
            },
            5 => Called {
                name: "jm_client Session::create_durable_consumer",
                answer: self.durable(),
            },
            6 => Called {
                name: "jm_client Session::create_shared_consumer",
                answer: self.shared(),
            },
            7 => Called {
                name: "jm_client Session::create_shared_durable_consumer",
                answer: self.shared_durable(),
            },
            8 => Called {
                name: "jm_client Session::unsubscribe",
                answer: self.unsubscribe(),
            },
            _ => Called::NONE,
        }
    }
}

/// Makes the call of the trial, and makes it again where it wanted memory.
fn tell<R: Wait + Clock>(mut trial: Making<'_, R>) -> Made {
    let before = trial.state();
    let Called { name, answer } = trial.call();
    if name.is_empty() {
        return Made::NoCall;
    }
    let left = match answer {
        Err(Refusal::Memory) => Some(Left {
            before,
            after: trial.state(),
            again: trial.call().answer,
        }),
        _ => None,
    };
    Made::Told(Told { name, answer, left })
}

fn made_on<R: Wait + Clock>(provider: &Provider<'_, R, Kept>, number: usize) -> Made {
    match Making::new(provider, number) {
        Ok(trial) => tell(trial),
        Err(_) => Made::NoMemory,
    }
}

/// Makes the call of that number.
pub fn made<R: Wait + Clock>(rt: &R, alloc: Global, number: usize) -> Made {
    match provider(rt, alloc) {
        Ok(provider) => made_on(&provider, number),
        Err(_) => Made::NoMemory,
    }
}

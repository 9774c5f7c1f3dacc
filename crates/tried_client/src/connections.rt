//! Connections.

use crate::keeping::{Kept, provider};
use crate::overview::{after, digits, with};
use jm_client::{Connection, Error, Mode, Provider, Refusal};
use std::alloc::Global;
use std::sync::Wait;
use std::time::Clock;
use tried::{Answer, Called, Left, Made, Told, Trial};

/// How many sessions there may be room for.
const SESSIONS: usize = 32;

/// A connection, and two that may be closed.
#[derive(Drop)]
struct Connected<'p, R: Wait + Clock> {
    number: usize,
    provider: &'p Provider<'p, R, Kept>,
    connection: Connection<'p, R, Kept>,
    one: Option<Connection<'p, R, Kept>>,
    other: Option<Connection<'p, R, Kept>>,
}

fn opened<'p, R: Wait + Clock>(
    provider: &'p Provider<'p, R, Kept>,
) -> Result<Connection<'p, R, Kept>, Refusal> {
    match provider.create_connection(None) {
        Ok(connection) => Ok(connection),
        Err(error) => Err(error.refusal()),
    }
}

fn closed<R: Wait + Clock>(connection: Option<Connection<'_, R, Kept>>) -> Result<(), Error> {
    match connection {
        Some(connection) => connection.close(),
        None => Ok(()),
    }
}

impl<'p, R: Wait + Clock> Connected<'p, R> {
    fn new(
        provider: &'p Provider<'p, R, Kept>,
        number: usize,
    ) -> Result<Connected<'p, R>, Refusal> {
        Ok(Connected {
            number,
            provider,
            connection: opened(provider)?,
            one: Some(opened(provider)?),
            other: Some(opened(provider)?),
        })
    }

    fn connect(&self) -> Answer {
        with(
            self.provider,
            self.provider.create_connection(Some("billing")),
        )
    }

    /// Opens sessions past the room that there is; each but the last closes at once.
    fn session(&self) -> Answer {
        for _ in 0..SESSIONS {
            if let Err(error) = self.connection.create_session(Mode::Auto) {
                return Err(error.refusal());
            }
        }
        with(self.provider, self.connection.create_session(Mode::Auto))
    }

    fn start(&self) -> Answer {
        after(self.provider, self.connection.start())
    }

    fn stop(&self) -> Answer {
        after(self.provider, self.connection.stop())
    }

    fn close(&mut self) -> Answer {
        let connection = match self.one.take() {
            Some(connection) => Some(connection),
            None => self.other.take(),
        };
        after(self.provider, closed(connection))
    }
}

impl<'p, R: Wait + Clock> Trial for Connected<'p, R> {
    fn state(&self) -> u64 {
        digits(self.provider)
    }

    fn call(&mut self) -> Called {
        match self.number {
            0 => Called {
                name: "jm_client Provider::create_connection",
                answer: self.connect(),
            },
            1 => Called {
                name: "jm_client Connection::create_session",
                answer: self.session(),
            },
            2 => Called {
                name: "jm_client Connection::close",
                answer: self.close(),
            },
            3 => Called {
                name: "jm_client Connection::start",
                answer: self.start(),
            },
            4 => Called {
                name: "jm_client Connection::stop",
                answer: self.stop(),
            },
            _ => Called::NONE,
        }
    }
}

/// Makes the call of the trial, and makes it again where it wanted memory.
fn tell<R: Wait + Clock>(mut trial: Connected<'_, R>) -> Made {
    let before = trial.state();
    let Called { name, answer } = trial.call();
    if name.is_empty() {
        return Made::NoCall;
    }
    let left = match answer {
        Err(Refusal::Memory) => Some(Left {
            before,
            after: trial.state(),
            again: trial.call().answer,
        }),
        _ => None,
    };
    Made::Told(Told { name, answer, left })
}

fn made_on<R: Wait + Clock>(provider: &Provider<'_, R, Kept>, number: usize) -> Made {
    match Connected::new(provider, number) {
        Ok(trial) => tell(trial),
        Err(_) => Made::NoMemory,
    }
}

/// Makes the call of that number.
pub fn made<R: Wait + Clock>(rt: &R, alloc: Global, number: usize) -> Made {
    match provider(rt, alloc) {
        Ok(provider) => made_on(&provider, number),
        Err(_) => Made::NoMemory,
    }
}

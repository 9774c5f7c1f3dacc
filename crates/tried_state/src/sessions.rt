//! Connections, sessions and consumers by number.

use jm_base::{Mode, Refusal};
use jm_dest::{ClientId, ConnectionId, ConsumerId, Key, Name, SubscriptionName};
use jm_machine::ConnectionState;
use jm_session::{Sessions, Source};
use std::alloc::Global;
use tests_calls::{session, session_of};
use tried::{Answer, Called, Made, Trial, tell, two};

/// What the call is made on, and a key.
#[derive(Drop)]
struct Opened {
    alloc: Global,
    number: usize,
    key: Option<Key>,
    sessions: Sessions,
}

/// An open connection with a session; without where the session is made by the call, and none where the connection is.
fn sessions_for(alloc: Global, number: usize) -> Result<Sessions, Refusal> {
    let mut sessions = Sessions::new(alloc);
    match fill(alloc, &mut sessions, number) {
        Ok(()) => Ok(sessions),
        Err(refusal) => Err(refusal),
    }
}

fn fill(alloc: Global, sessions: &mut Sessions, number: usize) -> Result<(), Refusal> {
    if number != 4 {
        open(alloc, sessions)?;
    }
    if number != 4 && number != 5 {
        sessions.session(&session(1)?, Mode::Auto)?;
    }
    Ok(())
}

fn open(alloc: Global, sessions: &mut Sessions) -> Result<(), Refusal> {
    let id = ConnectionId::new(1)?;
    let client = ClientId::new(alloc, "billing")?;
    sessions.open(id, Some(client))
}

/// How many connections there are and how many sessions and consumers.
fn numbers(sessions: &Sessions) -> u64 {
    let others = sessions
        .sessions()
        .len()
        .saturating_add(sessions.consumers().len());
    two(sessions.connections().len(), others)
}

fn queue_key(alloc: Global) -> Result<Key, Refusal> {
    Ok(Key::Queue(Name::new(alloc, "orders")?))
}

fn durable_key(alloc: Global) -> Result<Key, Refusal> {
    Ok(Key::Durable(None, SubscriptionName::new(alloc, "invoices")?))
}

fn named(alloc: Global, key: Option<Key>) -> Answer {
    let Some(key) = key else {
        return Ok(0);
    };
    match Source::named(alloc, key) {
        Ok(_) => Ok(1),
        Err(_) => Err(Refusal::Memory),
    }
}

fn source(alloc: Global) -> Result<Source, Refusal> {
    match Source::named(alloc, queue_key(alloc)?) {
        Ok(source) => Ok(source),
        Err(_) => Err(Refusal::Memory),
    }
}

fn connection(alloc: Global) -> Result<ConnectionState, Refusal> {
    let id = ConnectionId::new(1)?;
    Ok(ConnectionState {
        id,
        client: Some(ClientId::new(alloc, "billing")?),
        is_started: false,
        is_open: true,
    })
}

fn of_one(alloc: Global) -> Answer {
    match Sessions::of_one(alloc, Some(connection(alloc)?), None, None) {
        Ok(sessions) => Ok(numbers(&sessions)),
        Err(_) => Err(Refusal::Memory),
    }
}

fn copied(sessions: &Sessions) -> Answer {
    match sessions.copy() {
        Ok(copy) => Ok(numbers(&copy)),
        Err(_) => Err(Refusal::Memory),
    }
}

impl Opened {
    fn new(alloc: Global, number: usize) -> Result<Opened, Refusal> {
        Ok(Opened {
            alloc,
            number,
            key: Some(durable_key(alloc)?),
            sessions: sessions_for(alloc, number)?,
        })
    }

    fn after(&self, changed: Result<(), Refusal>) -> Answer {
        match changed {
            Ok(()) => Ok(numbers(&self.sessions)),
            Err(refusal) => Err(refusal),
        }
    }

    fn reserve(&mut self) -> Answer {
        match self.sessions.reserve(100) {
            Ok(()) => Ok(numbers(&self.sessions)),
            Err(_) => Err(Refusal::Memory),
        }
    }

    fn open(&mut self) -> Answer {
        let opened = open(self.alloc, &mut self.sessions);
        self.after(opened)
    }

    fn session(&mut self) -> Answer {
        let session = session_of((1, 2))?;
        let made = self.sessions.session(&session, Mode::Client);
        self.after(made)
    }

    fn consumer(&mut self) -> Answer {
        let (session, id) = (session(1)?, ConsumerId::new(1)?);
        let made = self.sessions.consumer(&session, id, source(self.alloc)?);
        self.after(made)
    }
}

impl Trial for Opened {
    fn state(&self) -> u64 {
        numbers(&self.sessions)
    }

    fn call(&mut self) -> Called {
        match self.number {
            0 => Called {
                name: "jm_session Source::named",
                answer: named(self.alloc, self.key.take()),
            },
            1 => Called {
                name: "jm_session Sessions::of_one",
                answer: of_one(self.alloc),
            },
            2 => Called {
                name: "jm_session Sessions::copy",
                answer: copied(&self.sessions),
            },
            3 => Called {
                name: "jm_session Sessions::reserve",
                answer: self.reserve(),
            },
            4 => Called {
                name: "jm_session Sessions::open",
                answer: self.open(),
            },
            5 => Called {
                name: "jm_session Sessions::session",
                answer: self.session(),
            },
            6 => Called {
                name: "jm_session Sessions::consumer",
                answer: self.consumer(),
            },
            _ => Called::NONE,
        }
    }
}

/// Makes the call of that number.
pub fn made(alloc: Global, number: usize) -> Made {
    tell(Opened::new(alloc, number))
}

//! What is sent and received.

use crate::keeping::{Kept, provider};
use crate::overview::{after, digits};
use jm_client::{
    After, Connection, Consumer, Delivery, Destination, Error, Listener, ListenerFault, Mode,
    Provider, Refusal, Session,
};
use std::alloc::Global;
use std::sync::Wait;
use std::time::{Clock, Duration};
use tried::{Answer, Called, Left, Made, Told, Trial};

/// A session with a consumer of a queue that holds two messages, and two further consumers and sessions that may be closed.
#[derive(Drop)]
struct Receiving<'p, R: Wait + Clock> {
    number: usize,
    provider: &'p Provider<'p, R, Kept>,
    connection: Connection<'p, R, Kept>,
    session: Session<'p, R, Kept>,
    queue: Destination,
    consumer: Consumer<'p, R, Kept>,
    consumers: Spare<Consumer<'p, R, Kept>>,
    sessions: Spare<Session<'p, R, Kept>>,
}

/// Two of something, taken one after the other.
#[derive(Drop)]
struct Spare<T: Drop> {
    one: Option<T>,
    other: Option<T>,
}

impl<T: Drop> Spare<T> {
    fn take(&mut self) -> Option<T> {
        match self.one.take() {
            Some(part) => Some(part),
            None => self.other.take(),
        }
    }
}

/// Is done well with each message.
#[derive(Clone, Copy)]
struct Content;

impl Listener for Content {
    fn on_message(&mut self, _order: &Delivery) -> Result<After, ListenerFault> {
        Ok(After::Go)
    }
}

/// The mode in which the call is made.
fn mode(number: usize) -> Mode {
    match number {
        0..=1 => Mode::Transacted,
        2..=3 => Mode::Client,
        _ => Mode::Auto,
    }
}

/// Sends a message.
fn send<R: Wait + Clock>(
    session: &mut Session<'_, R, Kept>,
    queue: &Destination,
) -> Result<u64, Error> {
    let draft = session.create_text_message("one bicycle")?;
    session.send(queue, draft)
}

/// Sends two messages from a session of its own.
fn fill<R: Wait + Clock>(
    connection: &Connection<'_, R, Kept>,
    queue: &Destination,
) -> Result<(), Error> {
    let mut session = connection.create_session(Mode::Auto)?;
    send(&mut session, queue)?;
    send(&mut session, queue)?;
    session.close()
}

/// Receives a message where it is out then, and sends two where they wait for the commit then.
fn begin<R: Wait + Clock>(
    session: &mut Session<'_, R, Kept>,
    queue: &Destination,
    consumer: &Consumer<'_, R, Kept>,
    number: usize,
) -> Result<(), Error> {
    if number < 4 {
        consumer.receive_no_wait()?;
    }
    if number < 2 {
        send(session, queue)?;
        send(session, queue)?;
    }
    Ok(())
}

fn spare_sessions<'p, R: Wait + Clock>(
    connection: &Connection<'p, R, Kept>,
) -> Result<Spare<Session<'p, R, Kept>>, Error> {
    let one = Some(connection.create_session(Mode::Auto)?);
    let other = Some(connection.create_session(Mode::Auto)?);
    Ok(Spare { one, other })
}

fn spare_consumers<'p, R: Wait + Clock>(
    session: &Session<'p, R, Kept>,
    queue: &Destination,
) -> Result<Spare<Consumer<'p, R, Kept>>, Error> {
    let one = Some(session.create_consumer(queue, None, false)?);
    let other = Some(session.create_consumer(queue, None, false)?);
    Ok(Spare { one, other })
}

/// How often what was received was delivered; 0 where nothing was.
fn count(received: Result<Option<Delivery>, Error>) -> Answer {
    match received {
        Ok(Some(delivery)) => Ok(u64::from(delivery.count)),
        Ok(None) => Ok(0),
        Err(error) => Err(error.refusal()),
    }
}

fn number(told: Result<u64, Error>) -> Answer {
    match told {
        Ok(number) => Ok(number),
        Err(error) => Err(error.refusal()),
    }
}

impl<'p, R: Wait + Clock> Receiving<'p, R> {
    fn of(
        provider: &'p Provider<'p, R, Kept>,
        connection: Connection<'p, R, Kept>,
        number: usize,
    ) -> Result<Receiving<'p, R>, Error> {
        let mut session = connection.create_session(mode(number))?;
        let queue = session.create_queue("orders")?;
        let consumer = session.create_consumer(&queue, None, false)?;
        fill(&connection, &queue)?;
        begin(&mut session, &queue, &consumer, number)?;
        let consumers = spare_consumers(&session, &queue)?;
        let sessions = spare_sessions(&connection)?;
        Ok(Receiving {
            number,
            provider,
            connection,
            session,
            queue,
            consumer,
            consumers,
            sessions,
        })
    }

    fn new(provider: &'p Provider<'p, R, Kept>, number: usize) -> Result<Receiving<'p, R>, Error> {
        let connection = provider.create_connection(None)?;
        connection.start()?;
        Receiving::of(provider, connection, number)
    }

    fn commit(&mut self) -> Answer {
        let told = self.session.commit();
        after(self.provider, told)
    }

    fn rollback(&mut self) -> Answer {
        let told = self.session.rollback();
        after(self.provider, told)
    }

    fn acknowledge(&self) -> Answer {
        after(self.provider, self.session.acknowledge())
    }

    fn recover(&self) -> Answer {
        after(self.provider, self.session.recover())
    }

    fn listen(&mut self) -> Answer {
        let mut content = Content;
        number(
            self.session
                .listen(&self.consumer, &mut content, Duration::from_secs(0), 1),
        )
    }

    /// What the readers show after a send.
    fn send(&mut self) -> Answer {
        match send(&mut self.session, &self.queue) {
            Ok(_) => Ok(digits(self.provider)),
            Err(error) => Err(error.refusal()),
        }
    }

    fn close_consumer(&mut self) -> Answer {
        match self.consumers.take() {
            Some(consumer) => after(self.provider, consumer.close()),
            None => Ok(0),
        }
    }

    fn close_session(&mut self) -> Answer {
        match self.sessions.take() {
            Some(session) => after(self.provider, session.close()),
            None => Ok(0),
        }
    }
}

impl<'p, R: Wait + Clock> Trial for Receiving<'p, R> {
    fn state(&self) -> u64 {
        digits(self.provider)
    }

    fn call(&mut self) -> Called {
        match self.number {
            0 => Called {
                name: "jm_client Session::commit",
                answer: self.commit(),
            },
            1 => Called {
                name: "jm_client Session::rollback",
                answer: self.rollback(),
            },
            2 => Called {
                name: "jm_client Session::acknowledge",
                answer: self.acknowledge(),
            },
            3 => Called {
                name: "jm_client Session::recover",
                answer: self.recover(),
            },
            4 => Called {
                name: "jm_client Session::send",
                answer: self.send(),
            },
            5 => Called {
                name: "jm_client Consumer::receive",
                answer: count(self.consumer.receive(Duration::from_secs(0))),
            },
            6 => Called {
                name: "jm_client Consumer::receive_no_wait",
                answer: count(self.consumer.receive_no_wait()),
            },
            7 => Called {
                name: "jm_client Session::listen",
                answer: self.listen(),
            },
            8 => Called {
                name: "jm_client Consumer::missed",
                answer: number(self.consumer.missed()),
            },
            9 => Called {
                name: "jm_client Consumer::close",
                answer: self.close_consumer(),
            },
            10 => Called {
                name: "jm_client Session::close",
                answer: self.close_session(),
            },
            _ => Called::NONE,
        }
    }
}

/// Makes the call of the trial, and makes it again where it wanted memory.
fn tell<R: Wait + Clock>(mut trial: Receiving<'_, R>) -> Made {
    let before = trial.state();
    let Called { name, answer } = trial.call();
    if name.is_empty() {
        return Made::NoCall;
    }
    let left = match answer {
        Err(Refusal::Memory) => Some(Left {
            before,
            after: trial.state(),
            again: trial.call().answer,
        }),
        _ => None,
    };
    Made::Told(Told { name, answer, left })
}

fn made_on<R: Wait + Clock>(provider: &Provider<'_, R, Kept>, number: usize) -> Made {
    match Receiving::new(provider, number) {
        Ok(trial) => tell(trial),
        Err(_) => Made::NoMemory,
    }
}

/// Makes the call of that number.
pub fn made<R: Wait + Clock>(rt: &R, alloc: Global, number: usize) -> Made {
    match provider(rt, alloc) {
        Ok(provider) => made_on(&provider, number),
        Err(_) => Made::NoMemory,
    }
}

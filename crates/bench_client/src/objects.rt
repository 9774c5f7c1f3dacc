//! The work through the objects of an embedded provider, which take its lock and read the clock in each call.

use crate::work::{Client, Outcome, timed_work};
use jm_base::{Mode, Refusal};
use jm_client::{Backend, Consumer, Destination, Error, Provider, Session};
use std::alloc::Global;
use std::sync::Wait;
use std::time::Clock;

/// A session and its consumer.
struct Objects<'p, R: Wait + Clock, B: Backend> {
    session: Session<'p, R, B>,
    consumer: Consumer<'p, R, B>,
    topic: Destination,
    sum: u64,
}

impl<'p, R: Wait + Clock, B: Backend> Drop for Objects<'p, R, B> {
    fn drop(self) {
        let Objects {
            session: _session,
            consumer: _consumer,
            topic: _topic,
            sum: _,
        } = self;
    }
}

/// The reply, with the refusal alone.
fn refused<T>(reply: Result<T, Error>) -> Result<T, Refusal> {
    match reply {
        Ok(value) => Ok(value),
        Err(error) => Err(error.refusal()),
    }
}

impl<'p, R: Wait + Clock, B: Backend> Client for Objects<'p, R, B> {
    fn send(&mut self) -> Result<(), Refusal> {
        match self.session.create_text_message("work") {
            Ok(draft) => match self.session.send(&self.topic, draft) {
                Ok(_) => Ok(()),
                Err(error) => Err(error.refusal()),
            },
            Err(error) => Err(error.refusal()),
        }
    }

    fn receive(&mut self) -> Result<(), Refusal> {
        match self.consumer.receive_no_wait() {
            Ok(Some(delivery)) => {
                self.sum = self.sum.wrapping_add(delivery.message.number());
                Ok(())
            }
            Ok(None) => Ok(()),
            Err(error) => Err(error.refusal()),
        }
    }

    fn commit(&mut self) -> Result<(), Refusal> {
        refused(self.session.commit())
    }

    fn sum(&self) -> u64 {
        self.sum
    }
}

/// The session's objects, with a consumer of a topic.
fn objects_of<'p, R: Wait + Clock, B: Backend>(
    session: Session<'p, R, B>,
) -> Result<Objects<'p, R, B>, Error> {
    let topic = session.create_topic("t")?;
    let consumer = session.create_consumer(&topic, None, false)?;
    Ok(Objects {
        session,
        consumer,
        topic,
        sum: 0,
    })
}

/// Makes the rounds in a session of that mode.
fn work_with<R: Wait + Clock, B: Backend>(
    rt: &R,
    session: Session<'_, R, B>,
    mode: Mode,
    rounds: u32,
) -> Result<Outcome, Refusal> {
    match objects_of(session) {
        Ok(mut objects) => timed_work(rt, &mut objects, mode, rounds),
        Err(error) => Err(error.refusal()),
    }
}

/// Makes the rounds in a session of that provider.
fn work_in<R: Wait + Clock>(
    rt: &R,
    provider: &Provider<'_, R>,
    mode: Mode,
    rounds: u32,
) -> Result<Outcome, Refusal> {
    let connection = refused(provider.create_connection(None))?;
    refused(connection.start())?;
    let session = refused(connection.create_session(mode))?;
    work_with(rt, session, mode, rounds)
}

/// Makes the rounds through a new provider that keeps nothing.
pub(crate) fn work_through_objects<R: Wait + Clock>(
    rt: &R,
    alloc: Global,
    mode: Mode,
    rounds: u32,
) -> Result<Outcome, Refusal> {
    let provider = Provider::in_memory(rt, alloc);
    work_in(rt, &provider, mode, rounds)
}

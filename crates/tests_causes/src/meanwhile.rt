//! A listener that calls its consumer, or its session, while it has a message.

use crate::watch::Watch;
use jm_client::{
    After, Consumer, Delivery, Error, Listener, ListenerFault, Plain, Session, SessionListener,
};
use jm_keep::NoKeep;
use std::sync::Wait;
use std::time::Duration;

/// Answers, and does nothing else.
#[derive(Drop)]
struct Quiet;

impl Listener for Quiet {
    fn on_message(&mut self, _delivery: &Delivery) -> Result<After, ListenerFault> {
        Ok(After::Go)
    }
}

/// What is called while a listener has a message of the consumer.
#[derive(Clone, Copy)]
pub(crate) enum Meanwhile {
    Nothing,
    /// A receive of the consumer.
    Receive,
    /// The session listens to it once more.
    Listen,
}

/// Makes that call with each message, and keeps what it is told.
struct Curious<'c, 'p, R: Wait + Drop> {
    consumer: &'c Consumer<'p, Watch<R>>,
    meanwhile: Meanwhile,
    told: Option<Error>,
}

/// The session listens to the consumer, for one message at most.
fn once_more<R: Wait + Drop>(
    session: &mut Session<'_, Watch<R>>,
    consumer: &Consumer<'_, Watch<R>>,
) -> Option<Error> {
    session
        .listen(consumer, &mut Quiet, Duration::ZERO, 1)
        .err()
}

impl<'c, 'p, R: Wait + Drop> SessionListener<Watch<R>, Plain<NoKeep>> for Curious<'c, 'p, R> {
    fn on_session_message(
        &mut self,
        session: &mut Session<'_, Watch<R>>,
        _delivery: &Delivery,
    ) -> Result<After, ListenerFault> {
        self.told = match self.meanwhile {
            Meanwhile::Nothing => None,
            Meanwhile::Receive => self.consumer.receive_no_wait().err(),
            Meanwhile::Listen => once_more(session, self.consumer),
        };
        Ok(After::Go)
    }
}

/// The session listens to the consumer, for one message at most, and its listener makes that call. How many messages came, or
/// the refusal of a call.
pub(crate) fn listened<'p, R: Wait + Drop>(
    session: &mut Session<'p, Watch<R>>,
    consumer: &Consumer<'p, Watch<R>>,
    meanwhile: Meanwhile,
) -> Result<u64, Error> {
    let mut curious = Curious {
        consumer,
        meanwhile,
        told: None,
    };
    let reply = session.listen(consumer, &mut curious, Duration::ZERO, 1);
    let Curious {
        consumer: _,
        meanwhile: _,
        told,
    } = curious;
    match told {
        Some(error) => Err(error),
        None => reply,
    }
}

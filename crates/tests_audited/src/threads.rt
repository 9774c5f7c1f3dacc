//! The audit of two threads, one of which sends what the other receives.

ghost use Rattle.std.specs.Prelude.{◌≡◌, ◌^◌};

use crate::noted::{is_whole, traffic};
use crate::service::holds;
use jm_client::{Backend, Consumer, Destination, Error, Mode, Provider, Session};
use jm_client_audited::{Audited, PARTS, in_memory};
use jm_keep::NoKeep;
use std::alloc::Global;
use std::marker::Brand;
use std::sync::Wait;
use std::sync::ledger::{Blank, Ledger};
use std::thread;
use std::thread::Threads;
use std::time::{Clock, Duration};

/// How many messages are sent.
const MESSAGES: usize = 50;

/// How long a receive waits at most, in seconds.
const PATIENCE: u64 = 30;

fn send_one<R: Wait + Clock, B: Backend>(
    session: &mut Session<'_, R, B>,
    queue: &Destination,
) -> Result<(), Error> {
    let draft = session.create_text_message("work")?;
    session.send(queue, draft)?;
    Ok(())
}

/// Sends all messages.
fn sends<R: Wait + Clock, B: Backend>(provider: &Provider<'_, R, B>) -> Result<(), Error> {
    let connection = provider.create_connection(None)?;
    let mut session = connection.create_session(Mode::Auto)?;
    let queue = session.create_queue("q")?;
    for _ in 0..MESSAGES {
        send_one(&mut session, &queue)?;
    }
    Ok(())
}

/// Whether the next message comes.
fn comes<R: Wait + Clock, B: Backend>(consumer: &Consumer<'_, R, B>) -> Result<bool, Error> {
    Ok(consumer.receive(Duration::from_secs(PATIENCE))?.is_some())
}

/// Receives as many; how many came.
fn receives<R: Wait + Clock, B: Backend>(provider: &Provider<'_, R, B>) -> Result<usize, Error> {
    let connection = provider.create_connection(None)?;
    connection.start()?;
    let session = connection.create_session(Mode::Auto)?;
    let queue = session.create_queue("q")?;
    let consumer = session.create_consumer(&queue, None, false)?;
    let mut came: usize = 0;
    for _ in 0..MESSAGES {
        if comes(&consumer)? {
            came = came.saturating_add(1);
        }
    }
    Ok(came)
}

/// Sends on another thread, and receives on this one.
fn both<L: Ledger + Send + Sync, R: Threads + Wait + Clock + Sync>(
    rt: &R,
    provider: &Provider<'_, R, Audited<NoKeep, L>>,
) -> (bool, bool) {
    thread::join(
        rt,
        || sends(provider).is_ok(),
        || matches!(receives(provider), Ok(MESSAGES)),
    )
}

/// Whether all came, and the passes account for a trace in which each was published once and handed out once.
fn is_audited<L: Ledger + Send + Sync, R: Threads + Wait + Clock + Sync>(
    rt: &R,
    alloc: Global,
    blank: Blank,
) -> bool
    requires name { blank.name ≡ L.name }
    requires parts { (blank.parts ≡ L.parts) × (blank.parts ≡ 2 ^ 33) }
{
    let made: Result<Provider<'_, R, Audited<NoKeep, L>>, Error> = in_memory(rt, alloc, blank);
    match made {
        Ok(provider) => {
            let told = both(rt, &provider);
            let finished = provider.into_backend().finish();
            told == (true, true)
                && is_whole(&finished)
                && traffic(&finished) == (MESSAGES, MESSAGES)
        }
        Err(_) => false,
    }
}

#[test]
fn two_threads_are_audited(rt: HostRuntime) {
    let is_right = is_audited::<Brand, _>(&rt, rt.alloc(), Blank::new(PARTS));
    holds(&rt, "two threads", is_right);
}

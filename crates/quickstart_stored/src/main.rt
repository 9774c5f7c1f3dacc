//! The third quick start: a thread sends orders that a file keeps, and another bills them. One waits in the file, and is billed once
//! the file is opened again.
#![tactic(auto)]

use anyhow::anyhow;
use jm_client::{Backend, Error, Mode, Plain, Provider};
use jm_file::{Store, StoreFile, connect, open};
use jm_keep::Keep;
use sqlite::{Alter, Connection};
use std::alloc::Global;
use std::sync::Wait;
use std::thread::{Threads, join};
use std::time::{Clock, Duration};

/// The name of the file that keeps the orders; its log stands beside it.
const FILE: &str = "orders.db";

/// How many orders are sent.
const SENT: u64 = 3;

/// How many of them are billed before the file is closed.
const AT_ONCE: u64 = 2;

/// A connection to the file, which is made where there is none.
fn connected(rt: &HostRuntime) -> anyhow::Result<Connection<StoreFile>> {
    match connect(rt, FILE) {
        Ok(conn) => Ok(conn),
        Err(fault) => Err(anyhow!("the file is not opened: {fault:?}")),
    }
}

/// A provider over what the connection holds.
fn opened<'r, R: Wait + Clock, S: Alter + Drop>(
    rt: &'r R,
    alloc: Global,
    conn: Connection<S>,
) -> anyhow::Result<Provider<'r, R, Plain<Store<S>>>> {
    match open(rt, alloc, conn) {
        Ok(provider) => Ok(provider),
        Err(unopened) => Err(anyhow!("the store is not opened: {:?}", unopened.fault)),
    }
}

/// Sends the orders.
fn send_orders<R: Wait + Clock, B: Backend>(provider: &Provider<'_, R, B>) -> Result<(), Error> {
    let connection = provider.create_connection(None)?;
    let mut session = connection.create_session(Mode::Auto)?;
    let orders = session.create_queue("orders")?;
    for _ in 0..SENT {
        let order = session.create_text_message("one bicycle")?;
        session.send(&orders, order)?;
    }
    Ok(())
}

/// Bills so many orders as they come; how many were billed.
fn bill_orders<R: Wait + Clock, B: Backend>(
    provider: &Provider<'_, R, B>,
    wanted: u64,
) -> Result<u64, Error> {
    let connection = provider.create_connection(None)?;
    connection.start()?;
    let session = connection.create_session(Mode::Auto)?;
    let orders = session.create_queue("orders")?;
    let consumer = session.create_consumer(&orders, None, false)?;
    let mut billed: u64 = 0;
    for _ in 0..wanted {
        if consumer.receive(Duration::from_secs(30))?.is_some() {
            billed = billed.saturating_add(1);
        }
    }
    Ok(billed)
}

/// Sends on another thread, and bills on this one.
fn both<R: Threads + Wait + Clock + Sync, K: Keep + Drop + Send>(
    rt: &R,
    provider: &Provider<'_, R, Plain<K>>,
) -> (Result<(), Error>, Result<u64, Error>) {
    join(
        rt,
        || send_orders(provider),
        || bill_orders(provider, AT_ONCE),
    )
}

/// How many orders were billed while they were sent.
fn trade<R: Threads + Wait + Clock + Sync, S: Alter + Drop + Send>(
    rt: &R,
    alloc: Global,
    conn: Connection<S>,
) -> anyhow::Result<u64> {
    let provider = opened(rt, alloc, conn)?;
    let (sent, billed) = both(rt, &provider);
    sent?;
    Ok(billed?)
}

/// How many orders were kept, and were billed once the store was opened again.
fn resume<R: Wait + Clock, S: Alter + Drop>(
    rt: &R,
    alloc: Global,
    conn: Connection<S>,
) -> anyhow::Result<u64> {
    let provider = opened(rt, alloc, conn)?;
    Ok(bill_orders(&provider, SENT - AT_ONCE)?)
}

fn main(rt: HostRuntime) -> anyhow::Result<()> {
    let billed = trade(&rt, rt.alloc(), connected(&rt)?)?;
    let _ = println!(&rt; "{billed} orders billed");
    let kept = resume(&rt, rt.alloc(), connected(&rt)?)?;
    let _ = println!(&rt; "{kept} order billed that the file kept");
    Ok(())
}

//! The second quick start: a thread sends orders to a queue, and a listener on another bills them.
#![tactic(auto)]

use jm_client::{After, Delivery, Error, Listener, ListenerFault, Mode, Provider};
use std::alloc::Global;
use std::sync::Wait;
use std::thread::{Threads, join};
use std::time::{Clock, Duration};

/// How many orders are sent.
const ORDERS: u64 = 3;

/// Sends the orders.
fn send_orders<R: Wait + Clock>(provider: &Provider<'_, R>) -> Result<(), Error> {
    let connection = provider.create_connection(None)?;
    let mut session = connection.create_session(Mode::Auto)?;
    let orders = session.create_queue("orders")?;
    for _ in 0..ORDERS {
        let order = session.create_text_message("one bicycle")?;
        session.send(&orders, order)?;
    }
    Ok(())
}

/// Bills each order that comes.
#[derive(Drop)]
struct Billing {
    billed: u64,
}

impl Listener for Billing {
    fn on_message(&mut self, _order: &Delivery) -> Result<After, ListenerFault> {
        self.billed = self.billed.saturating_add(1);
        Ok(After::Go)
    }
}

/// Listens until all orders came, or none came for 30 seconds; how many were billed.
fn bill_orders<R: Wait + Clock>(provider: &Provider<'_, R>) -> Result<u64, Error> {
    let connection = provider.create_connection(None)?;
    connection.start()?;
    let mut session = connection.create_session(Mode::Auto)?;
    let orders = session.create_queue("orders")?;
    let consumer = session.create_consumer(&orders, None, false)?;
    let mut billing = Billing { billed: 0 };
    session.listen(&consumer, &mut billing, Duration::from_secs(30), ORDERS)?;
    Ok(billing.billed)
}

/// Sends on another thread, and listens on this one.
fn both<R: Threads + Wait + Clock + Sync>(
    rt: &R,
    provider: &Provider<'_, R>,
) -> (Result<(), Error>, Result<u64, Error>) {
    join(rt, || send_orders(provider), || bill_orders(provider))
}

/// How many orders were billed, of those that were sent.
fn trade<R: Threads + Wait + Clock + Sync>(rt: &R, alloc: Global) -> Result<u64, Error> {
    let provider = Provider::in_memory(rt, alloc);
    let (sent, billed) = both(rt, &provider);
    sent?;
    billed
}

fn main(rt: HostRuntime) -> anyhow::Result<()> {
    let billed = trade(&rt, rt.alloc())?;
    let _ = println!(&rt; "{billed} orders billed");
    Ok(())
}

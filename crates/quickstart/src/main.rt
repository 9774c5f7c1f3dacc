//! The first twelve lines: a durable subscription, a message in a transaction, and its second delivery.
#![tactic(auto)]

use anyhow::Result;
use jm_client::{Body, Delivery, Mode, Provider};
use std::alloc::Global;
use std::sync::Wait;
use std::time::{Clock, Duration};

/// Prints the text of what was received, and how often it was delivered.
fn show(rt: &impl Print, delivery: Option<Delivery>) {
    let Some(delivery) = delivery else {
        let _ = println!(rt; "none");
        return;
    };
    if let Body::Text(text) = delivery.message.body() {
        let _ = println!(rt; "{} {}", text.as_str(), delivery.count);
    }
}

/// Bills each order once, even where the first try fails.
fn bill<R: Wait + Clock + Print>(rt: &R, alloc: Global) -> Result<()> {
    let provider = Provider::in_memory(rt, alloc);
    let connection = provider.create_connection(Some("billing"))?;
    connection.start()?;
    let mut session = connection.create_session(Mode::Transacted)?;
    let orders = session.create_topic("orders")?;
    let invoices = session.create_durable_consumer(&orders, "invoices", None, false)?;
    let order = session.create_text_message("one bicycle")?;
    session.send(&orders, order)?;
    session.commit()?;
    show(rt, invoices.receive(Duration::from_secs(1))?);
    session.rollback()?;
    show(rt, invoices.receive(Duration::from_secs(1))?);
    session.commit()?;
    show(rt, invoices.receive_no_wait()?);
    invoices.close()?;
    session.close()?;
    connection.close()?;
    Ok(())
}

fn main(rt: HostRuntime) -> Result<()> {
    bill(&rt, rt.alloc())
}

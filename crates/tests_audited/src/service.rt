//! A service that bills orders, over whatever makes its provider's calls.

use jm_client::{Backend, Consumer, Destination, Error, Mode, Provider, Refusal, Session};
use std::process::Abort;
use std::sync::Wait;
use std::time::Clock;

/// Asserts that this holds.
pub(crate) fn holds(rt: &impl Abort, what: &str, holds: bool) {
    assert!(rt; holds, "{what}");
}

/// Sends an order, and commits it.
fn order<R: Wait + Clock, B: Backend>(
    session: &mut Session<'_, R, B>,
    orders: &Destination,
) -> Result<(), Error> {
    let order = session.create_text_message("one bicycle")?;
    session.send(orders, order)?;
    session.commit()
}

/// Whether an order is there now.
fn is_there<R: Wait + Clock, B: Backend>(consumer: &Consumer<'_, R, B>) -> Result<bool, Error> {
    Ok(consumer.receive_no_wait()?.is_some())
}

/// Takes an order, fails with it, takes it again and is done with it. How many orders came.
fn bill<R: Wait + Clock, B: Backend>(
    session: &mut Session<'_, R, B>,
    invoices: &Consumer<'_, R, B>,
) -> Result<u32, Error> {
    let mut came: u32 = 0;
    if is_there(invoices)? {
        came = came.saturating_add(1);
    }
    session.rollback()?;
    if is_there(invoices)? {
        came = came.saturating_add(1);
    }
    session.commit()?;
    if is_there(invoices)? {
        came = came.saturating_add(1);
    }
    Ok(came)
}

/// Whether the call is refused where the session is transacted.
fn is_refused<R: Wait + Clock, B: Backend>(session: &Session<'_, R, B>) -> bool {
    match session.recover() {
        Ok(()) => false,
        Err(error) => error.refusal() == Refusal::IllegalState && error.cause().is_some(),
    }
}

/// Orders, bills, and makes a call that is refused: how many orders came, or none where that was accepted.
fn work<R: Wait + Clock, B: Backend>(session: &mut Session<'_, R, B>) -> Result<u32, Error> {
    let orders = session.create_topic("orders")?;
    let invoices = session.create_durable_consumer(&orders, "invoices", None, false)?;
    order(session, &orders)?;
    let came = bill(session, &invoices)?;
    Ok(if is_refused(session) { came } else { 0 })
}

/// The service: how many orders came to it, of which it sends one that comes twice.
pub(crate) fn serve<R: Wait + Clock, B: Backend>(
    provider: &Provider<'_, R, B>,
) -> Result<u32, Error> {
    let connection = provider.create_connection(Some("billing"))?;
    connection.start()?;
    let mut session = connection.create_session(Mode::Transacted)?;
    work(&mut session)
}

ghost use Rattle.std.specs.Prelude.{◌≡◌, codes};
ghost use Rattle.serde_json.specs.View.{view};
ghost use Rattle.jm_scenario.specs.Calls as spec;
ghost use Rattle.jm_fields.specs.Fields.{is_known};
ghost use Rattle.jm_fields.specs.Reading.{Reads, ReadsExactly, where_true};

use crate::held::Held;
use jm_fields::{
    Field, Misfit, Owner, client, connection, consumer, destination, draft, mark, mode, no_local,
    not_known, now, selector, session, subscription, unknown,
};
use jm_machine::{ClientCall, Request, Who};
use serde_json::Value;
use std::alloc::Global;

/// The operation of the object.
fn operation(object: &Value) -> Result<Owner, Misfit>
    ensures { ReadsExactly result (spec.operation (view object.now)) }
{
    let name = object.get(Field::Operation.name()).and_then(Value::as_str);
    match name.and_then(Owner::of_operation) {
        Some(operation) => Ok(operation),
        None => Err(Misfit::Shape(Field::Operation)),
    }
}

/// A call by the connection of the object.
fn by_connection(object: &Value, request: Request) -> Result<ClientCall, Misfit>
    ensures { ReadsExactly result (spec.connection_call request (view object.now)) }
{
    let request = Held::new(request);
    let who = Who::Connection(connection(object)?);
    let request = request.into_value();
    Ok(ClientCall::Ask { who, request })
}

/// The opening of the object's connection. `Memory` where a request for memory was refused.
fn open(alloc: Global, object: &Value) -> Result<ClientCall, Misfit>
    ensures { Reads result (spec.open_call (view object.now)) }
{
    let who = Who::Connection(connection(object)?);
    let client = client(alloc, object)?;
    let request = Request::Open { client };
    Ok(ClientCall::Ask { who, request })
}

/// A call by the session of the object.
fn by_session(object: &Value, request: Request) -> Result<ClientCall, Misfit>
    ensures { ReadsExactly result (spec.session_request request (view object.now)) }
{
    let request = Held::new(request);
    let who = Who::Session(session(object)?);
    let request = request.into_value();
    Ok(ClientCall::Ask { who, request })
}

/// A commit of the object's session.
fn commit(object: &Value) -> Result<ClientCall, Misfit>
    ensures { ReadsExactly result (spec.commit_call (view object.now)) }
{
    Ok(ClientCall::CommitSession(session(object)?))
}

fn create_session(object: &Value) -> Result<ClientCall, Misfit>
    ensures { ReadsExactly result (spec.session_call (view object.now)) }
{
    let who = Who::Session(session(object)?);
    let mode = mode(object)?;
    let request = Request::CreateSession { mode };
    Ok(ClientCall::Ask { who, request })
}

fn create_consumer(alloc: Global, object: &Value) -> Result<ClientCall, Misfit>
    ensures { Reads result (spec.consumer_call (view object.now)) }
{
    let who = Who::Session(session(object)?);
    let consumer = consumer(object)?;
    let destination = Held::new(destination(alloc, object)?);
    let selector = Held::new(selector(alloc, object)?);
    let no_local = no_local(object)?;
    let request = Request::CreateConsumer {
        consumer,
        destination: destination.into_value(),
        selector: selector.into_value(),
        no_local,
    };
    Ok(ClientCall::Ask { who, request })
}

fn create_durable(alloc: Global, object: &Value) -> Result<ClientCall, Misfit>
    ensures { Reads result (spec.durable_call (view object.now)) }
{
    let who = Who::Session(session(object)?);
    let consumer = consumer(object)?;
    let destination = Held::new(destination(alloc, object)?);
    let name = Held::new(subscription(alloc, object)?);
    let selector = Held::new(selector(alloc, object)?);
    let no_local = no_local(object)?;
    let request = Request::CreateDurable {
        consumer,
        destination: destination.into_value(),
        name: name.into_value(),
        selector: selector.into_value(),
        no_local,
    };
    Ok(ClientCall::Ask { who, request })
}

fn create_shared(alloc: Global, object: &Value) -> Result<ClientCall, Misfit>
    ensures { Reads result (spec.shared_call Request.CreateShared (view object.now)) }
{
    let who = Who::Session(session(object)?);
    let consumer = consumer(object)?;
    let destination = Held::new(destination(alloc, object)?);
    let name = Held::new(subscription(alloc, object)?);
    let selector = selector(alloc, object)?;
    let request = Request::CreateShared {
        consumer,
        destination: destination.into_value(),
        name: name.into_value(),
        selector,
    };
    Ok(ClientCall::Ask { who, request })
}

fn create_shared_durable(alloc: Global, object: &Value) -> Result<ClientCall, Misfit>
    ensures { Reads result (spec.shared_call Request.CreateSharedDurable (view object.now)) }
{
    let who = Who::Session(session(object)?);
    let consumer = consumer(object)?;
    let destination = Held::new(destination(alloc, object)?);
    let name = Held::new(subscription(alloc, object)?);
    let selector = selector(alloc, object)?;
    let request = Request::CreateSharedDurable {
        consumer,
        destination: destination.into_value(),
        name: name.into_value(),
        selector,
    };
    Ok(ClientCall::Ask { who, request })
}

/// The end of the durable subscription that the object names. `Memory` where a request for memory was refused.
fn unsubscribe(alloc: Global, object: &Value) -> Result<ClientCall, Misfit>
    ensures { Reads result (spec.unsubscribe_call (view object.now)) }
{
    let who = Who::Session(session(object)?);
    let name = subscription(alloc, object)?;
    let request = Request::Unsubscribe { name };
    Ok(ClientCall::Ask { who, request })
}

fn close_consumer(object: &Value) -> Result<ClientCall, Misfit>
    ensures { ReadsExactly result (spec.consumer_request Request.CloseConsumer (view object.now)) }
{
    let who = Who::Session(session(object)?);
    let consumer = consumer(object)?;
    let request = Request::CloseConsumer { consumer };
    Ok(ClientCall::Ask { who, request })
}

fn missed(object: &Value) -> Result<ClientCall, Misfit>
    ensures { ReadsExactly result (spec.consumer_request Request.Missed (view object.now)) }
{
    let who = Who::Session(session(object)?);
    let consumer = consumer(object)?;
    let request = Request::Missed { consumer };
    Ok(ClientCall::Ask { who, request })
}

fn set_listener(object: &Value) -> Result<ClientCall, Misfit>
    ensures { ReadsExactly result (spec.mark_call Request.SetListener (codes "on") (view object.now)) }
{
    let who = Who::Session(session(object)?);
    let consumer = consumer(object)?;
    let on = mark(object, Field::Listening)?;
    let request = Request::SetListener { consumer, on };
    Ok(ClientCall::Ask { who, request })
}

fn receive(object: &Value) -> Result<ClientCall, Misfit>
    ensures { ReadsExactly result (spec.receive_call Request.Receive (view object.now)) }
{
    let who = Who::Session(session(object)?);
    let consumer = consumer(object)?;
    let now = now(object)?;
    let request = Request::Receive { consumer, now };
    Ok(ClientCall::Ask { who, request })
}

fn take(object: &Value) -> Result<ClientCall, Misfit>
    ensures { ReadsExactly result (spec.receive_call Request.Take (view object.now)) }
{
    let who = Who::Session(session(object)?);
    let consumer = consumer(object)?;
    let now = now(object)?;
    let request = Request::Take { consumer, now };
    Ok(ClientCall::Ask { who, request })
}

fn done(object: &Value) -> Result<ClientCall, Misfit>
    ensures { ReadsExactly result (spec.mark_call Request.Done (codes "ok") (view object.now)) }
{
    let who = Who::Session(session(object)?);
    let consumer = consumer(object)?;
    let ok = mark(object, Field::Settled)?;
    let request = Request::Done { consumer, ok };
    Ok(ClientCall::Ask { who, request })
}

/// A send of the object's draft. `Memory` where a request for memory was refused.
fn send(alloc: Global, object: &Value) -> Result<ClientCall, Misfit>
    ensures { Reads result (spec.send_call (view object.now)) }
{
    let session = session(object)?;
    let destination = Held::new(destination(alloc, object)?);
    let now = now(object)?;
    let draft = draft(alloc, object)?;
    Ok(ClientCall::Send {
        session,
        draft,
        destination: destination.into_value(),
        now,
    })
}

/// The call that the object spells, but for fields that its operation does not have.
fn call_as(alloc: Global, object: &Value, operation: Owner) -> Result<ClientCall, Misfit>
    ensures { Reads result (spec.call_as operation (view object.now)) }
{
    match operation {
        Owner::Scenario | Owner::ForkOrJoin => Err(Misfit::Shape(Field::Operation)),
        Owner::Open => open(alloc, object),
        Owner::Start => by_connection(object, Request::Start),
        Owner::Stop => by_connection(object, Request::Stop),
        Owner::CloseConnection => by_connection(object, Request::CloseConnection),
        Owner::Session => create_session(object),
        Owner::CloseSession => by_session(object, Request::CloseSession),
        Owner::Acknowledge => by_session(object, Request::Acknowledge),
        Owner::Recover => by_session(object, Request::Recover),
        Owner::Commit => commit(object),
        Owner::Rollback => by_session(object, Request::Rollback),
        Owner::Consumer => create_consumer(alloc, object),
        Owner::Durable => create_durable(alloc, object),
        Owner::Shared => create_shared(alloc, object),
        Owner::SharedDurable => create_shared_durable(alloc, object),
        Owner::CloseConsumer => close_consumer(object),
        Owner::Missed => missed(object),
        Owner::Unsubscribe => unsubscribe(alloc, object),
        Owner::Listener => set_listener(object),
        Owner::Send => send(alloc, object),
        Owner::Receive => receive(object),
        Owner::Take => take(object),
        Owner::Done => done(object),
    }
}

/// The call that the object spells by that operation, which has no other fields than the operation has. `Memory` where a
/// request for memory was refused.
fn whole_call(alloc: Global, object: &Value, operation: Owner) -> Result<ClientCall, Misfit>
    ensures { Reads result (where_true (is_known operation (view object.now)) (spec.call_as operation (view object.now))) }
{
    let call = Held::new(call_as(alloc, object, operation)?);
    match unknown(object, operation) {
        Some(name) => Err(not_known(alloc, name)),
        None => Ok(call.into_value()),
    }
}

/// The call that the object spells, where it has its place: where a fork is open, only a call by a session has. That it has
/// none is told at its operation, before its other fields are read. `Memory` where a request for memory was refused.
#[tactic(auto, using(crate::proofs::Operations::call_goes))]
pub(crate) fn call(alloc: Global, object: &Value, is_forked: bool) -> Result<ClientCall, Misfit>
    ensures { Reads result (spec.call_in_place is_forked (spec.call_of (view object.now))) }
{
    let operation = operation(object)?;
    if !operation.is_in_place(is_forked) {
        return Err(Misfit::Shape(Field::Operation));
    }
    whole_call(alloc, object, operation)
}

//! Runs lists of client calls.

ghost use Rattle.std.specs.Prelude.{◌≡◌, ◌+◌, ◌≤◌, ◌<◌, Some, IfOk, OnErr};
ghost use Rattle.jm_machine.specs.Life as life;
ghost use Rattle.jm_machine.specs.Client.{Progress, after_request, begun, CallOwed, RunOwed};
ghost use Rattle.jm_tx.specs.Halves.{kept_of, room, sent_of};
ghost use Rattle.jm_plans.specs.Provider.{state_of};
ghost use Rattle.jm_core.specs.Runs as run;
ghost use Rattle.jm_core.specs.Runs.{progress};

use jm_base::{Mode, Refusal};
use jm_dest::{Destination, Moment, SessionId};
use jm_header::{Draft, Sender};
use jm_machine::{Answer, ClientCall, Reply, Request, Who};
use jm_plans::state::CoreState;
use jm_tx::{Halves, Sent};
use std::alloc::AllocError;

/// Whether the request closes the connection by which it is made.
fn closes_connection(request: &Request) -> bool
    ensures { result ≡ run.closes_connection request.now }
{
    matches!(request, Request::CloseConnection)
}

/// Whether the request ends the transaction of the session by which it is made.
fn ends_transaction(request: &Request) -> bool
    ensures { result ≡ run.ends_transaction request.now }
{
    matches!(request, Request::CloseSession | Request::Rollback)
}

/// Drops what was sent in the transactions that the request ends, to which that was told.
pub fn drop_ended(halves: &mut Halves, who: &Who, request: &Request, told: &Reply)
    ensures sent { sent_of halves.new ≡ sent_of halves.old }
    ensures kept { kept_of halves.new ≡ after_request who.now request.now told.now (kept_of halves.old) }
    ensures room { room halves.old ≤ room halves.new }
{
    match who {
        Who::Connection(connection) => {
            if closes_connection(request) && told.is_ok() {
                halves.drop_connection(*connection);
            }
        }
        Who::Session(session) => {
            if ends_transaction(request) {
                halves.drop_all(session);
            }
        }
    }
}

/// Makes the request, and drops what was sent in the transactions that it ends.
fn ask_and_drop(
    core: &mut CoreState,
    halves: &mut Halves,
    who: &Who,
    request: &Request,
) -> Result<Answer, Refusal>
    ensures owed { CallOwed (progress (state_of core.old) halves.old) (ClientCall.Ask who.now request.now) result
        (progress (state_of core.new) halves.new) }
    ensures room { room halves.old ≤ room halves.new }
{
    let reply = core.ask(*who, request);
    drop_ended(halves, who, request, &reply);
    reply
}

/// Stamps a message of the session, which is open in that mode, and publishes it; or keeps it for the commit.
fn send_in(
    core: &mut CoreState,
    halves: &mut Halves,
    session: &SessionId,
    mode: Mode,
    draft: Draft,
    destination: Destination,
    now: Moment,
) -> Result<Answer, Refusal>
    requires room { 0 < room halves.old }
    requires mode { life.mode_of (state_of core.old).life session.now ≡ Some mode }
    ensures owed { CallOwed (progress (state_of core.old) halves.old)
        (ClientCall.Send session.now draft destination now) result (progress (state_of core.new) halves.new) }
    ensures room { room halves.old ≤ room halves.new + 1 }
{
    let sender = Sender {
        opening: core.opening(),
        session: *session,
    };
    match halves.send(sender, mode, draft, destination, now) {
        Err(refusal) => Err(refusal),
        Ok(Sent::Kept(number)) => Ok(Answer::Sent(number)),
        Ok(Sent::Publish(message)) => {
            let number = message.number();
            match core.publish_one_from(session, message) {
                Ok(()) => Ok(Answer::Sent(number)),
                Err(refusal) => Err(refusal),
            }
        }
    }
}

/// Sends, where the session is open. With room, only what is kept or published takes memory.
fn send(
    core: &mut CoreState,
    halves: &mut Halves,
    session: &SessionId,
    draft: Draft,
    destination: Destination,
    now: Moment,
) -> Result<Answer, Refusal>
    requires { 0 < room halves.old }
    ensures owed { CallOwed (progress (state_of core.old) halves.old)
        (ClientCall.Send session.now draft destination now) result (progress (state_of core.new) halves.new) }
    ensures room { room halves.old ≤ room halves.new + 1 }
{
    match core.mode_of(session) {
        None => Err(Refusal::IllegalState),
        Some(mode) => send_in(core, halves, session, mode, draft, destination, now),
    }
}

/// Commits what the session sent in its transaction. A commit that is refused leaves it there.
fn commit(core: &mut CoreState, halves: &mut Halves, session: &SessionId) -> Result<Answer, Refusal>
    ensures owed { CallOwed (progress (state_of core.old) halves.old) (ClientCall.CommitSession session.now) result
        (progress (state_of core.new) halves.new) }
    ensures room { room halves.old ≤ room halves.new }
{
    let messages = halves.take_commit(session);
    match core.commit_from(session, &messages) {
        Ok(()) => Ok(Answer::Done),
        Err(refusal) => {
            halves.put_back(session, messages);
            Err(refusal)
        }
    }
}

fn answer(core: &mut CoreState, halves: &mut Halves, call: ClientCall) -> Result<Answer, Refusal>
    requires { 0 < room halves.old }
    ensures owed { CallOwed (progress (state_of core.old) halves.old) call result
        (progress (state_of core.new) halves.new) }
    ensures room { room halves.old ≤ room halves.new + 1 }
{
    match call {
        ClientCall::Ask { who, request } => ask_and_drop(core, halves, &who, &request),
        ClientCall::Send {
            session,
            draft,
            destination,
            now,
        } => send(core, halves, &session, draft, destination, now),
        ClientCall::CommitSession(session) => commit(core, halves, &session),
    }
}

/// Makes the calls in turn, and gives the reply to each. What was sent in a transaction that is open at the end is
/// dropped. `AllocError` where no room was found for the replies and for the sessions that send; then no call was
/// made.
pub(crate) fn run_on(core: &mut CoreState, calls: Vec<ClientCall>) -> Result<Vec<Reply>, AllocError>
    ensures ok { IfOk result (λ replies. (end : Progress)
        × RunOwed (begun (state_of core.old)) calls.items replies.items end × (state_of core.new ≡ end.state)) }
    ensures err { OnErr result (state_of core.new ≡ state_of core.old) }
{
    let alloc = core.alloc();
    let mut replies = Vec::with_capacity(alloc, calls.len())?;
    let mut halves = Halves::with_capacity(alloc, calls.len())?;
    for call in calls {
        replies.push_reserved(answer(core, &mut halves, call));
    }
    Ok(replies)
}

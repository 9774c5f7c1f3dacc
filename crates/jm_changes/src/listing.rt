//! What a planned step changes of what is stored.

ghost use Rattle.std.specs.Prelude.{◌≡◌, ◌≤◌, ◌+◌, [], ℕ, List, true, length, IfOk, IsOk, MatchBool};
ghost use Rattle.jm_dest.specs.declared.key.Key.{Key as KeyShown};
ghost use Rattle.jm_dest.specs.declared.session.SessionId.{SessionId as SessionShown};
ghost use Rattle.jm_machine.specs.declared.call.Request.TheVariants.{Acknowledge, Done, Receive, Take, Unsubscribe};
ghost use Rattle.jm_machine.specs.declared.state.Definition.{Definition as DefinitionShown};
ghost use Rattle.jm_machine.specs.Machine as machine;
ghost use Rattle.jm_machine.specs.Life.{is_started as started};
ghost use Rattle.jm_machine.specs.Machine.{consumer_of, definition_of, key_at, places_end, reply, selected_by, station_of};
ghost use Rattle.jm_keep.specs.Calls.{AreChanges, AreCommitted, AreReceived, AreRequested, AreSubscribed};
ghost use Rattle.jm_keep.specs.Persisted.{LeadsTo, is_lasting as lasts};
ghost use Rattle.jm_keep.specs.Steps.{StandsInOrder};
ghost use Rattle.jm_changes.specs.Planned.{IsDecided, IsPlannedCall, IsPlannedRequest, IsTaken};

use crate::planned::Planned;
use crate::sending::published;
use crate::settling::{delivered, done, lost_out};
use crate::subscriptions::{deleted, put};
use jm_base::Mode;
use jm_dest::{ConsumerId, Moment, SessionId};
use jm_header::Message;
use jm_keep::RowChange;
use jm_machine::{Call, Consumers, Request, Step, Who};
use std::alloc::{AllocError, Global};

/// What a delivery in that mode to the session's consumer changes.
fn delivered_to<P: Planned>(
    alloc: Global,
    planned: &P,
    session: &SessionId,
    id: ConsumerId,
    mode: Option<Mode>,
    now: Moment,
) -> Result<Vec<RowChange>, AllocError>
    requires order { StandsInOrder (P.state planned.now) }
    requires taken { IsTaken (P.state planned.now) session.now id now (P.takes planned.now) }
    ensures { IfOk result (λ changes. MatchBool (started (P.state planned.now).life session.now.connection)
        (AreReceived mode (selected_by (consumer_of (P.state planned.now).consumers session.now id)) now (key_at (consumer_of (P.state planned.now).consumers session.now id)) (P.state planned.now) changes.items)
        (changes.items ≡ [])) }
{
    if !planned.is_started(session.connection) {
        return Ok(Vec::new(alloc));
    }
    match planned.consumer_of(session, id) {
        None => Ok(Vec::new(alloc)),
        Some(consumer) => delivered(alloc, planned, consumer, mode, now),
    }
}

/// What a receive of the session's consumer changes.
fn received<P: Planned>(
    alloc: Global,
    planned: &P,
    session: &SessionId,
    id: ConsumerId,
    now: Moment,
) -> Result<Vec<RowChange>, AllocError>
    requires order { StandsInOrder (P.state planned.now) }
    requires taken { IsTaken (P.state planned.now) session.now id now (P.takes planned.now) }
    ensures { IfOk result (λ changes. AreRequested (P.state planned.now) session.now (Receive id now) changes.items) }
{
    delivered_to(alloc, planned, session, id, planned.mode_of(session), now)
}

/// What it changes that the listener of the session's consumer takes a message: that stays out in every mode.
fn taken<P: Planned>(
    alloc: Global,
    planned: &P,
    session: &SessionId,
    id: ConsumerId,
    now: Moment,
) -> Result<Vec<RowChange>, AllocError>
    requires order { StandsInOrder (P.state planned.now) }
    requires taken { IsTaken (P.state planned.now) session.now id now (P.takes planned.now) }
    ensures { IfOk result (λ changes. AreRequested (P.state planned.now) session.now (Take id now) changes.items) }
{
    delivered_to(alloc, planned, session, id, Some(Mode::Client), now)
}

/// What it changes that the listener of the session's consumer is done with its message: only where it settles it, in a mode
/// that settles at once, anything does.
fn listened<P: Planned>(
    alloc: Global,
    planned: &P,
    session: &SessionId,
    id: ConsumerId,
    ok: bool,
) -> Result<Vec<RowChange>, AllocError>
    requires { StandsInOrder (P.state planned.now) }
    ensures { IfOk result (λ changes. AreRequested (P.state planned.now) session.now (Done id ok) changes.items) }
{
    if !ok || !matches!(planned.mode_of(session), Some(Mode::Auto | Mode::Dups)) {
        return Ok(Vec::new(alloc));
    }
    match planned.consumer_of(session, id) {
        None => Ok(Vec::new(alloc)),
        Some(consumer) => done(alloc, planned, &consumer.key, &Consumers::One(*session, id)),
    }
}

/// What an acknowledgement of the session changes: only its mode says whether it settles anything.
fn acknowledged<P: Planned>(
    alloc: Global,
    planned: &P,
    session: &SessionId,
) -> Result<Vec<RowChange>, AllocError>
    requires { StandsInOrder (P.state planned.now) }
    ensures { IfOk result (λ changes. AreRequested (P.state planned.now) session.now Acknowledge changes.items) }
{
    match planned.mode_of(session) {
        Some(Mode::Client) => {
            lost_out(alloc, planned, &Consumers::OfSession(*session))?.into_changes()
        }
        Some(Mode::Auto | Mode::Dups | Mode::Transacted) | None => Ok(Vec::new(alloc)),
    }
}

/// What it changes that the durable subscription is deleted that was planned to be.
fn unsubscribed<P: Planned>(alloc: Global, planned: &P) -> Result<Vec<RowChange>, AllocError>
    requires { StandsInOrder (P.state planned.now) }
    ensures { (s : SessionShown) (name : List ℕ) → IsPlannedRequest (P.state planned.now) s (Unsubscribe name) (P.deletes planned.now) (P.puts planned.now) (P.takes planned.now) →
        IfOk result (λ changes. AreRequested (P.state planned.now) s (Unsubscribe name) changes.items) }
{
    match planned.deleted() {
        None => Ok(Vec::new(alloc)),
        Some(key) => deleted(alloc, planned, key),
    }
}

/// What it changes that the durable subscription is put that was planned to be, where one was.
fn created<P: Planned>(alloc: Global, planned: &P) -> Result<Vec<RowChange>, AllocError>
    requires { StandsInOrder (P.state planned.now) }
    ensures { (k : KeyShown) (d : DefinitionShown) → lasts k ≡ true → IsDecided k d (definition_of (station_of k (P.state planned.now).stations)) (P.puts planned.now) →
        IfOk result (λ changes. AreSubscribed k d (definition_of (station_of k (P.state planned.now).stations)) (P.state planned.now) changes.items) }
{
    match planned.decided() {
        None => Ok(Vec::new(alloc)),
        Some((key, definition)) => put(alloc, planned, key, definition),
    }
}

/// What a request of the session changes.
fn requested<P: Planned>(
    alloc: Global,
    planned: &P,
    session: &SessionId,
    request: &Request,
) -> Result<Vec<RowChange>, AllocError>
    requires order { StandsInOrder (P.state planned.now) }
    requires planned { IsPlannedRequest (P.state planned.now) session.now request.now (P.deletes planned.now) (P.puts planned.now) (P.takes planned.now) }
    ensures { IfOk result (λ changes. AreRequested (P.state planned.now) session.now request.now changes.items) }
{
    match request {
        Request::CreateDurable { .. } | Request::CreateSharedDurable { .. } => {
            created(alloc, planned)
        }
        Request::Unsubscribe { .. } => unsubscribed(alloc, planned),
        Request::Receive { consumer, now } => received(alloc, planned, session, *consumer, *now),
        Request::Take { consumer, now } => taken(alloc, planned, session, *consumer, *now),
        Request::Done { consumer, ok } => listened(alloc, planned, session, *consumer, *ok),
        Request::Acknowledge => acknowledged(alloc, planned, session),
        _ => Ok(Vec::new(alloc)),
    }
}

/// What a commit of the session changes that sent those messages: first what is out to it goes, then they come.
fn committed<P: Planned>(
    alloc: Global,
    planned: &P,
    session: &SessionId,
    messages: &[Message],
) -> Result<Vec<RowChange>, AllocError>
    requires order { StandsInOrder (P.state planned.now) }
    requires messages { P.messages planned.now ≡ messages.now }
    requires places { (P.state planned.now).next_place + length messages.now ≤ places_end }
    ensures { IfOk result (λ changes. AreCommitted (P.state planned.now) session.now messages.now changes.items) }
{
    let mut changes = lost_out(alloc, planned, &Consumers::OfSession(*session))?.into_changes()?;
    changes.append(&mut published(alloc, planned, messages)?)?;
    Ok(changes)
}

/// What the planned step asks for, call by call.
fn listed<P: Planned>(alloc: Global, planned: &P, step: &Step) -> Result<Vec<RowChange>, AllocError>
    requires order { StandsInOrder (P.state planned.now) }
    requires planned { IsPlannedCall (P.state planned.now) step.now.who step.now.call (P.deletes planned.now) (P.puts planned.now) (P.takes planned.now) (P.messages planned.now) }
    ensures { IfOk result (λ changes. AreChanges (P.state planned.now) step.now.who step.now.call changes.items) }
{
    match step.who {
        Who::Connection(_) => Ok(Vec::new(alloc)),
        Who::Session(session) => match &step.call {
            Call::Ask(request) => requested(alloc, planned, &session, request),
            Call::Publish(messages) => published(alloc, planned, messages.as_slice()),
            Call::Commit(messages) => committed(alloc, planned, &session, messages.as_slice()),
        },
    }
}

/// What the planned step changes of what is stored: rows go before their message, and come after it and their station. Of a
/// message with a delay the delivery time goes before it, and comes directly after it.
/// Only a publication, a commit, a receive, a listener's take, an acknowledgement in a session of mode `Client`, in one of
/// mode `Auto` or `Dups` a listener that is done and settles its message, and the making and deleting of a durable
/// subscription change anything; no other call takes memory for it. Nothing is listed of a message that is not
/// PERSISTENT, nor of a subscription that is not durable. Where the step is not refused, they lead from
/// what is stored before it to what is stored after it. `AllocError` where a request for memory was refused.
pub fn changes<P: Planned>(
    alloc: Global,
    planned: &P,
    step: &Step,
) -> Result<Vec<RowChange>, AllocError>
    requires order { StandsInOrder (P.state planned.now) }
    requires planned { IsPlannedCall (P.state planned.now) step.now.who step.now.call (P.deletes planned.now) (P.puts planned.now) (P.takes planned.now) (P.messages planned.now) }
    ensures listed { IfOk result (λ changes. AreChanges (P.state planned.now) step.now.who step.now.call changes.items) }
    ensures leads { IsOk (reply (P.state planned.now) step.now.who step.now.call) → IfOk result (λ changes.
        LeadsTo (P.state planned.now) (machine.step (P.state planned.now) step.now.who step.now.call) changes.items) }
{
    listed(alloc, planned, step)
}

//! Causes of calls.

ghost use Rattle.std.specs.Prelude.{◌≡◌, [], ◌∷◌, ◌==◌, ◌&&◌, true, IfOk, OnErr};
ghost use Rattle.jm_plans.specs.Provider.{state_of};
ghost use Rattle.jm_dest.specs.Names.{session_eq};
ghost use Rattle.jm_explain.specs.Held.{IsNoState, names_none};
ghost use Rattle.jm_header.specs.declared.content.Content.{Content};
ghost use Rattle.jm_machine.specs.Machine as machine;
ghost use Rattle.jm_machine.specs.Machine.{Holding};
ghost use Rattle.jm_why.specs.Why as spec;

use crate::consumers::{
    begin_why, close_why, done_why, listener_why, receive_why, take_why, use_why,
};
use crate::life::{
    close_connection_why, close_session_why, connection_why, create_session_why, first_why,
    open_why, session_why, transacted_why, unless, untransacted_why,
};
use crate::named::{delete_why, durable_key, has_client, shared_key, wanted_why};
use jm_base::Str;
use jm_core::{Call, Core, Request, Step, Who};
use jm_dest::{ConnectionId, ConsumerId, Destination, Number, SessionId, SubscriptionName};
use jm_header::{Message, Sender};
use jm_machine::find::same_session;
use jm_sub::Sharing;
use jm_why::Why;
use std::alloc::{AllocError, Global};

/// Why a request of a connection is refused so.
#[tactic(auto, unfolding(jm_why::specs::Why::request_why))]
fn of_connection(core: &Core, id: ConnectionId, request: &Request) -> Option<Why>
    ensures { (holding : Holding) → result ≡
        spec.request_why (state_of core.now).life (state_of core.now).consumers holding (Who.Connection id) request.now }
{
    match request {
        Request::Open { client: _ } => open_why(core, id),
        Request::Start | Request::Stop => connection_why(core, id),
        Request::CloseConnection => close_connection_why(core, id),
        _ => Some(Why::OtherCaller),
    }
}

/// Why an unshared durable subscription is refused so.
#[tactic(auto, unfolding(jm_why::specs::Why::request_why))]
fn durable_why(
    alloc: Global,
    core: &Core,
    session: &SessionId,
    id: ConsumerId,
    destination: &Destination,
    name: &SubscriptionName,
    selector: &Option<Str>,
    no_local: bool,
) -> Result<Option<Why>, AllocError>
    ensures ok { IfOk result (λ why. why ≡ spec.why (state_of core.now) (Who.Session session.now)
        (Call.Ask (Request.CreateDurable id destination.now name.now selector.now no_local))) }
    ensures memory { OnErr result (IsNoState (spec.why (state_of core.now) (Who.Session session.now)
        (Call.Ask (Request.CreateDurable id destination.now name.now selector.now no_local)))) }
{
    if let Some(why) = begin_why(core, session, id) {
        return Ok(Some(why));
    }
    if !has_client(core, session.connection) {
        return Ok(Some(Why::NoClient));
    }
    let held = durable_key(core, session, name)?;
    let sharing = Sharing::Unshared;
    wanted_why(
        alloc,
        core,
        &held.key,
        sharing,
        destination,
        selector,
        no_local,
    )
}

/// Why a shared one that is not durable is.
#[tactic(auto, using(crate::proofs::Holding::idle_is, crate::proofs::Holding::shared_home), unfolding(jm_why::specs::Why::request_why))]
fn shared_why(
    alloc: Global,
    core: &Core,
    session: &SessionId,
    id: ConsumerId,
    destination: &Destination,
    name: &SubscriptionName,
    selector: &Option<Str>,
) -> Result<Option<Why>, AllocError>
    ensures ok { IfOk result (λ why. why ≡ spec.why (state_of core.now) (Who.Session session.now)
        (Call.Ask (Request.CreateShared id destination.now name.now selector.now))) }
    ensures memory { OnErr result (IsNoState (spec.why (state_of core.now) (Who.Session session.now)
        (Call.Ask (Request.CreateShared id destination.now name.now selector.now)))) }
{
    if let Some(why) = begin_why(core, session, id) {
        return Ok(Some(why));
    }
    let held = shared_key(core, session, name)?;
    let sharing = Sharing::Shared;
    wanted_why(
        alloc,
        core,
        &held.key,
        sharing,
        destination,
        selector,
        false,
    )
}

/// Why a shared durable one is.
#[tactic(auto, unfolding(jm_why::specs::Why::request_why))]
fn shared_durable_why(
    alloc: Global,
    core: &Core,
    session: &SessionId,
    id: ConsumerId,
    destination: &Destination,
    name: &SubscriptionName,
    selector: &Option<Str>,
) -> Result<Option<Why>, AllocError>
    ensures ok { IfOk result (λ why. why ≡ spec.why (state_of core.now) (Who.Session session.now)
        (Call.Ask (Request.CreateSharedDurable id destination.now name.now selector.now))) }
    ensures memory { OnErr result (IsNoState (spec.why (state_of core.now) (Who.Session session.now)
        (Call.Ask (Request.CreateSharedDurable id destination.now name.now selector.now)))) }
{
    if let Some(why) = begin_why(core, session, id) {
        return Ok(Some(why));
    }
    let held = durable_key(core, session, name)?;
    let sharing = Sharing::SharedDurable;
    wanted_why(
        alloc,
        core,
        &held.key,
        sharing,
        destination,
        selector,
        false,
    )
}

/// Why the deletion of a durable subscription is.
#[tactic(auto, unfolding(jm_why::specs::Why::request_why))]
fn unsubscribe_why(
    core: &Core,
    session: &SessionId,
    name: &SubscriptionName,
) -> Result<Option<Why>, AllocError>
    ensures ok { IfOk result (λ why. why ≡ spec.why (state_of core.now) (Who.Session session.now)
        (Call.Ask (Request.Unsubscribe name.now))) }
    ensures memory { OnErr result (IsNoState (spec.why (state_of core.now) (Who.Session session.now)
        (Call.Ask (Request.Unsubscribe name.now)))) }
{
    if let Some(why) = session_why(core, session) {
        return Ok(Some(why));
    }
    let held = durable_key(core, session, name)?;
    Ok(delete_why(core, &held.key))
}

/// Why a request of a session is that names no subscription.
#[tactic(auto, unfolding(jm_why::specs::Why::request_why))]
fn of_unnamed(core: &Core, session: &SessionId, request: &Request) -> Option<Why>
    requires { names_none request.now ≡ true }
    ensures { (holding : Holding) → result ≡
        spec.request_why (state_of core.now).life (state_of core.now).consumers holding (Who.Session session.now) request.now }
{
    match request {
        Request::CreateSession { mode: _ } => create_session_why(core, session),
        Request::CloseSession => close_session_why(core, session),
        Request::CreateConsumer { consumer, .. } => begin_why(core, session, *consumer),
        Request::CloseConsumer { consumer } => close_why(core, session, *consumer),
        Request::Receive { consumer, now: _ } => receive_why(core, session, *consumer),
        Request::Acknowledge => session_why(core, session),
        Request::Recover => untransacted_why(core, session),
        Request::Rollback => transacted_why(core, session),
        Request::Missed { consumer } => use_why(core, session, *consumer),
        Request::SetListener { consumer, on: _ } => listener_why(core, session, *consumer),
        Request::Take { consumer, now: _ } => take_why(core, session, *consumer),
        Request::Done { consumer, ok: _ } => done_why(core, session, *consumer),
        _ => Some(Why::OtherCaller),
    }
}

/// Why a request of a session is.
fn of_session(
    alloc: Global,
    core: &Core,
    session: &SessionId,
    request: &Request,
) -> Result<Option<Why>, AllocError>
    ensures ok { IfOk result (λ why. why ≡ spec.why (state_of core.now) (Who.Session session.now) (Call.Ask request.now)) }
    ensures memory { OnErr result (IsNoState (spec.why (state_of core.now) (Who.Session session.now) (Call.Ask request.now))) }
{
    match request {
        Request::CreateDurable {
            consumer,
            destination,
            name,
            selector,
            no_local,
        } => durable_why(
            alloc,
            core,
            session,
            *consumer,
            destination,
            name,
            selector,
            *no_local,
        ),
        Request::CreateShared {
            consumer,
            destination,
            name,
            selector,
        } => shared_why(alloc, core, session, *consumer, destination, name, selector),
        Request::CreateSharedDurable {
            consumer,
            destination,
            name,
            selector,
        } => shared_durable_why(alloc, core, session, *consumer, destination, name, selector),
        Request::Unsubscribe { name } => unsubscribe_why(core, session, name),
        _ => Ok(of_unnamed(core, session, request)),
    }
}

/// Whether the sender is this session in this opening.
fn is_sender(opening: Number, session: &SessionId, sender: &Sender) -> bool
    ensures { result ≡ ((sender.now.opening == opening) && session_eq sender.now.session session.now) }
{
    sender.opening == opening && same_session(&sender.session, session)
}

/// Whether each message was stamped by this session in this opening.
fn is_stamped(opening: Number, session: &SessionId, messages: &[Message]) -> bool
    ensures { result ≡ machine.is_stamped opening session.now messages.now }
{
    messages
        .iter()
        .all(|message| is_sender(opening, session, &message.sender()))
}

/// Why a publication is refused so.
fn publication_why(core: &Core, who: &Who, messages: &[Message]) -> Option<Why>
    ensures { result ≡ spec.publish_why (state_of core.now) who.now messages.now }
{
    match who {
        Who::Connection(_) => Some(Why::OtherCaller),
        Who::Session(session) => {
            let is_stamped = is_stamped(core.opening(), session, messages);
            first_why(
                untransacted_why(core, session),
                unless(is_stamped, Why::ForeignStamp),
            )
        }
    }
}

/// Why a commit is.
fn commit_why(core: &Core, who: &Who, messages: &[Message]) -> Option<Why>
    ensures { result ≡ spec.commit_why (state_of core.now) who.now messages.now }
{
    match who {
        Who::Connection(_) => Some(Why::OtherCaller),
        Who::Session(session) => {
            let is_stamped = is_stamped(core.opening(), session, messages);
            first_why(
                transacted_why(core, session),
                unless(is_stamped, Why::ForeignStamp),
            )
        }
    }
}

/// Why a request is.
fn request_why(
    alloc: Global,
    core: &Core,
    who: &Who,
    request: &Request,
) -> Result<Option<Why>, AllocError>
    ensures ok { IfOk result (λ why. why ≡ spec.why (state_of core.now) who.now (Call.Ask request.now)) }
    ensures memory { OnErr result (IsNoState (spec.why (state_of core.now) who.now (Call.Ask request.now))) }
{
    match who {
        Who::Connection(id) => Ok(of_connection(core, *id, request)),
        Who::Session(session) => of_session(alloc, core, session, request),
    }
}

/// Why the core refuses the step as `IllegalState`, or as `SubscriptionInUse`: the first cause that stands; none where it is
/// not refused so. It looks only, and changes nothing; where the step names a subscription it goes over all consumers that
/// were ever made, and over the rows of the subscription. Takes no memory; `AllocError` where a name of the subscription has
/// 9,223,372,036,854,775,807 owners, which comes only where the subscription is looked at: never of a step that is refused as
/// `IllegalState`.
pub fn why(alloc: Global, core: &Core, step: &Step) -> Result<Option<Why>, AllocError>
    ensures ok { IfOk result (λ why. why ≡ spec.why (state_of core.now) step.now.who step.now.call) }
    ensures memory { OnErr result (IsNoState (spec.why (state_of core.now) step.now.who step.now.call)) }
{
    match &step.call {
        Call::Ask(request) => request_why(alloc, core, &step.who, request),
        Call::Publish(messages) => Ok(publication_why(core, &step.who, messages.as_slice())),
        Call::Commit(messages) => Ok(commit_why(core, &step.who, messages.as_slice())),
    }
}

/// Why the core refuses as `IllegalState` that the session publishes one message of that sender: the first cause that stands;
/// none where it is not refused so. Of the message it needs no more, which may be gone. It looks only, and changes nothing.
/// Takes no memory.
pub fn send_why(core: &Core, session: &SessionId, sender: &Sender) -> Option<Why>
    ensures { (message : Content) → message.sender ≡ sender.now →
        result ≡ spec.why (state_of core.now) (Who.Session session.now) (Call.Publish (message ∷ [])) }
{
    let is_sender = is_sender(core.opening(), session, sender);
    let stamp = unless(is_sender, Why::ForeignStamp);
    first_why(untransacted_why(core, session), stamp)
}

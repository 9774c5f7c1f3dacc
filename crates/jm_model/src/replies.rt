//! The replies of one subscription alone.

ghost use Rattle.std.specs.Prelude.{◌≡◌, ◌++◌, [], List, option_to_list, slice_get, true, Some, IfOk, OnOk, MatchResult, if◌then◌else◌};
ghost use Rattle.std.specs.List.{list_all};
ghost use Rattle.std.specs.Option.{option_copied};
ghost use Rattle.jm_plans.specs.Provider.{state_of};
ghost use Rattle.jm_lone.specs.Parts.{is_held_alone};
ghost use Rattle.jm_machine.specs.Isolation as isolation;
ghost use Rattle.jm_machine.specs.Life.{Life};
ghost use Rattle.jm_machine.specs.Lone as spec;
ghost use Rattle.jm_machine.specs.Machine as machine;
ghost use Rattle.jm_machine.specs.Rows.{bare};
ghost use Rattle.jm_machine.specs.declared.entry.Entry.{Entry as OfEntry};
ghost use Rattle.jm_model.specs.Answers.{Answers, Clients, after_commit, brought, came_to, settled_by};
ghost use Rattle.jm_model.specs.Faults.{Stands};
ghost use Rattle.jm_scope.specs.Scopes.{scope_seen};
ghost use Rattle.jm_transactions.specs.Courses.{course_of};
ghost use Rattle.jm_transactions.specs.Transactions.{Course, Follows, committed_places, message_in, messages_at, mode_in};

use crate::fault::LoneFault;
use jm_core::{Core, law_core_reached};
use jm_dest::{Key, SessionId};
use jm_header::Message;
use jm_lone::Lone;
use jm_machine::{Entry, PlacedRow, Reply, Request, Station, Who};
use jm_scope::{Scope, is_unshared};
use jm_transactions::Transactions;
use std::alloc::{AllocError, Global};

/// The message that the entry sent, where there is one.
fn sent_by(entry: &Entry) -> Option<&Message>
    ensures { option_to_list (option_copied result) ≡ message_in (Some entry.now) }
{
    match entry {
        Entry::Sent(message) => Some(message),
        Entry::Asked { .. } | Entry::Committed(_) => None,
    }
}

/// The message that was sent at that place among the entries.
fn message_at(entries: &[Entry], place: usize) -> Option<&Message>
    ensures { option_to_list (option_copied result) ≡ message_in (slice_get entries.now place) }
{
    match entries.get(place) {
        Some(entry) => sent_by(entry),
        None => None,
    }
}

/// A publication comes, where it is accepted; at the limit it is missed.
fn publish(
    lone: &mut Lone,
    scope: &Scope,
    transactions: &Transactions,
    message: &Message,
) -> Result<(), AllocError>
    ensures { (life : Life) → Clients life (course_of transactions.now)
        → OnOk result (lone.new ≡ came_to (scope_seen scope.now) life message.now lone.old) }
{
    let client = transactions.client_of(message.sender().session.connection);
    if lone.accepts(scope, message, client) {
        lone.bring(scope, message)?;
    }
    Ok(())
}

/// The message at that place among the entries comes, where there is one.
fn publish_at(
    lone: &mut Lone,
    scope: &Scope,
    transactions: &Transactions,
    entries: &[Entry],
    place: usize,
) -> Result<(), AllocError>
    ensures { (life : Life) → Clients life (course_of transactions.now)
        → OnOk result (lone.new ≡ brought (scope_seen scope.now) life (message_in (slice_get entries.now place)) lone.old) }
{
    if let Some(message) = message_at(entries, place) {
        publish(lone, scope, transactions, message)?;
    }
    Ok(())
}

/// The messages at those places among the entries come, in the order of the places.
fn publish_all(
    lone: &mut Lone,
    scope: &Scope,
    transactions: &Transactions,
    entries: &[Entry],
    places: &[usize],
) -> Result<(), AllocError>
    ensures { (life : Life) → Clients life (course_of transactions.now)
        → OnOk result (lone.new ≡ brought (scope_seen scope.now) life (messages_at entries.now places.now) lone.old) }
{
    for place in places {
        publish_at(lone, scope, transactions, entries, *place)?;
    }
    Ok(())
}

/// A message that was sent comes at once, unless its session is transacted.
fn take_sent(
    lone: &mut Lone,
    scope: &Scope,
    transactions: &Transactions,
    message: &Message,
) -> Result<(), AllocError>
    ensures { (life : Life) → Clients life (course_of transactions.now)
        → OnOk result (lone.new
        ≡ (if machine.is_transacted (mode_in (course_of transactions.now) message.now.sender.session)
        then lone.old else came_to (scope_seen scope.now) life message.now lone.old)) }
{
    if transactions.is_transacted(&message.sender().session) {
        return Ok(());
    }
    publish(lone, scope, transactions, message)
}

/// Settles what is out to the session, where it is an own one, open and transacted.
fn settle(lone: &mut Lone, scope: &Scope, session: &SessionId)
    ensures { lone.new ≡ settled_by (scope_seen scope.now) session.now lone.old }
{
    if scope.is_own(session) {
        lone.settle(session);
    }
}

/// The session's commit settles what is out to it, where it is an own one, and then publishes what it sent in its
/// transaction.
fn commit(
    lone: &mut Lone,
    scope: &Scope,
    transactions: &Transactions,
    entries: &[Entry],
    session: &SessionId,
) -> Result<(), AllocError>
    ensures { (life : Life) → Clients life (course_of transactions.now)
        → OnOk result (lone.new
        ≡ after_commit (scope_seen scope.now) life session.now (messages_at entries.now (committed_places (course_of transactions.now) session.now)) lone.old) }
{
    settle(lone, scope, session);
    let places = transactions.committed(session);
    publish_all(lone, scope, transactions, entries, places)
}

/// Whether it is told of the call: one of its own sessions, or an accepted one of their connections.
fn is_own_call(scope: &Scope, who: &Who, reply: &Reply) -> bool
    ensures { result ≡ spec.is_own_call (scope_seen scope.now) who.now reply.now }
{
    match who {
        Who::Connection(id) => scope.is_own_connection(*id) && reply.is_ok(),
        Who::Session(session) => scope.is_own(session),
    }
}

/// Takes up a call where it is told of it, and answers it where it is a call of the subscription.
fn feed_request(
    alloc: Global,
    lone: &mut Lone,
    scope: &Scope,
    who: Who,
    request: &Request,
    reply: &Reply,
) -> Result<Option<Reply>, AllocError>
    requires alone { is_held_alone (scope_seen scope.now).key ≡ true }
    requires unshared { isolation.asks_no_shared (scope_seen scope.now).key (scope_seen scope.now).clients (Entry.Asked who request.now reply.now) ≡ true }
    ensures { (entries : List OfEntry) (course : Course) → IfOk result (λ answer.
        Answers (scope_seen scope.now) entries course lone.old (Entry.Asked who request.now reply.now) answer lone.new) }
{
    if !is_own_call(scope, &who, reply) {
        return Ok(None);
    }
    lone.ask(alloc, scope, who, request)
}

/// Takes up what an entry feeds to the subscription, as the transactions stand before it, and answers it where it is one of
/// its calls.
fn feed(
    alloc: Global,
    lone: &mut Lone,
    scope: &Scope,
    transactions: &Transactions,
    entries: &[Entry],
    entry: &Entry,
) -> Result<Option<Reply>, AllocError>
    requires alone { is_held_alone (scope_seen scope.now).key ≡ true }
    requires unshared { isolation.asks_no_shared (scope_seen scope.now).key (scope_seen scope.now).clients entry.now ≡ true }
    ensures { IfOk result (λ reply.
        Answers (scope_seen scope.now) entries.now (course_of transactions.now) lone.old entry.now reply lone.new) }
{
    match entry {
        Entry::Asked {
            who,
            request,
            reply,
        } => feed_request(alloc, lone, scope, *who, request, reply),
        Entry::Sent(message) => {
            take_sent(lone, scope, transactions, message)?;
            Ok(None)
        }
        Entry::Committed(session) => {
            commit(lone, scope, transactions, entries, session)?;
            Ok(None)
        }
    }
}

/// Adds the reply with its place, where there is one.
fn add_reply(
    replies: &mut Vec<(usize, Reply)>,
    place: usize,
    reply: Option<Reply>,
) -> Result<(), AllocError>
    ensures { OnOk result (replies.new.items ≡ replies.old.items ++ spec.placed place reply) }
{
    if let Some(reply) = reply {
        replies.push((place, reply))?;
    }
    Ok(())
}

/// What the subscription answers to the entries, each reply with the place of its entry.
fn answers(
    alloc: Global,
    lone: &mut Lone,
    scope: &Scope,
    transactions: &mut Transactions,
    entries: &[Entry],
) -> Result<Vec<(usize, Reply)>, AllocError>
    requires alone { is_held_alone (scope_seen scope.now).key ≡ true }
    requires unshared { list_all (isolation.asks_no_shared (scope_seen scope.now).key (scope_seen scope.now).clients) entries.now ≡ true }
    ensures { (life : Life) → Follows entries.now life [] (course_of transactions.old) → IfOk result (λ replies.
        replies.items ≡ spec.lone_replies (scope_seen scope.now) lone.old (spec.feed (scope_seen scope.now) 0 life [] lone.old entries.now)) }
{
    let mut replies = Vec::new(alloc);
    for (place, entry) in entries.iter().enumerate() {
        let reply = feed(alloc, lone, scope, transactions, entries, entry)?;
        transactions.note(place, entry)?;
        add_reply(&mut replies, place, reply)?;
    }
    Ok(replies)
}

/// Whether the key is that of an unshared topic subscription, in the opening and by the entries.
fn is_alone(opening: &Core, entries: &[Entry], key: &Key) -> bool
    ensures { result ≡ isolation.is_unshared key.now (state_of opening.now) entries.now }
{
    is_unshared(
        key,
        opening.definition_of(key),
        opening.connections(),
        opening.consumers(),
        entries,
    )
}

/// The rows of a subscription, where there is one.
fn rows_of(station: &Option<Station>) -> &[PlacedRow]
    ensures { bare result.now ≡ machine.rows_of station.now }
{
    match station {
        Some(station) => station.rows.as_slice(),
        None => &[],
    }
}

/// What belongs to the key's subscription, which an opening holds as `station`, if at all.
fn scope_of(
    alloc: Global,
    opening: &Core,
    entries: &[Entry],
    key: &Key,
    station: &Option<Station>,
) -> Result<Scope, AllocError>
    requires { machine.station_of key.now (state_of opening.now).stations ≡ station.now }
    ensures { IfOk result (λ scope. scope_seen scope ≡ spec.scope_of key.now (state_of opening.now) entries.now) }
{
    Scope::of(
        alloc,
        key,
        opening.connections(),
        opening.consumers(),
        rows_of(station),
        entries,
    )
}

/// What an opening holds of the subscription to which that belongs, which it holds as `station`, if at all.
fn lone_of(
    alloc: Global,
    opening: &Core,
    scope: &Scope,
    station: Option<Station>,
) -> Result<Lone, AllocError>
    requires { machine.station_of (scope_seen scope.now).key (state_of opening.now).stations ≡ station }
    ensures { IfOk result (λ lone. lone ≡ spec.lone_of (scope_seen scope.now) (state_of opening.now)) }
{
    Lone::of(
        alloc,
        scope,
        opening.held_limit(),
        opening.connections(),
        opening.sessions(),
        opening.consumers(),
        station,
    )
}

/// What an opening says of connections and sessions: no transaction has sent anything.
fn transactions_of(alloc: Global, opening: &Core) -> Result<Transactions, AllocError>
    ensures { (entries : List OfEntry) → IfOk result (λ made. Follows entries (state_of opening.now).life [] (course_of made)) }
{
    law_core_reached(opening);
    Transactions::of(alloc, opening.connections(), opening.sessions())
}

/// What the key's unshared subscription answers alone to the entries, from what the opening holds of it.
fn unshared_replies(
    alloc: Global,
    opening: &Core,
    entries: &[Entry],
    key: &Key,
) -> Result<Vec<(usize, Reply)>, AllocError>
    requires { isolation.is_unshared key.now (state_of opening.now) entries.now ≡ true }
    ensures { IfOk result (λ replies. replies.items ≡ isolation.alone key.now (state_of opening.now) entries.now) }
{
    let station = opening.station(key)?;
    let scope = scope_of(alloc, opening, entries, key, &station)?;
    let mut lone = lone_of(alloc, opening, &scope, station)?;
    let mut transactions = transactions_of(alloc, opening)?;
    answers(alloc, &mut lone, &scope, &mut transactions, entries)
}

/// What the key's subscription answers alone, each reply with the place of its call among the entries,
/// from 0: it begins with what the opening holds of it, and is fed with the calls of its own sessions, with the accepted
/// calls of those sessions' connections, and with the committed publications that it accepts: a message of a session that
/// is not transacted at its entry, and one of a transacted session at the first later commit of that session, where no
/// rollback or close stands between. Of the replies in the entries nothing is read but whether a connection's call was
/// accepted.
///
/// The own sessions of a consumer's subscription are that consumer's; those of a durable one are the sessions that in the
/// opening have a consumer or a row of it, and those that among the entries ask for it by `CreateDurable`, or for its end by
/// `Unsubscribe`, accepted or not.
///
/// `NotUnshared` exactly where the key is not that of an unshared topic subscription: a queue's, or a shared one's that is
/// not durable; a consumer's own, whose number names another consumer of the opening, or which a creating call among the
/// entries, accepted or not, names for anything but a consumer of a topic; a durable one's without a client, or one that is
/// shared in the opening, or for which a `CreateSharedDurable` among the entries, accepted or not, asks on a connection
/// with its client. Else `Memory` where a request for memory was refused, or where the places of its rows, counted
/// from 1, would pass 2^63-1, as no memory would hold so many.
pub fn lone_replies(
    alloc: Global,
    opening: &Core,
    entries: &[Entry],
    key: &Key,
) -> Result<Vec<(usize, Reply)>, LoneFault>
    ensures { MatchResult result
        (λ replies. (replies.items ≡ isolation.alone key.now (state_of opening.now) entries.now) × (isolation.is_unshared key.now (state_of opening.now) entries.now ≡ true))
        (λ fault. Stands fault (isolation.is_unshared key.now (state_of opening.now) entries.now)) }
{
    if !is_alone(opening, entries, key) {
        return Err(LoneFault::NotUnshared);
    }
    Ok(unshared_replies(alloc, opening, entries, key)?)
}

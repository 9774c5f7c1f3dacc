//! Which consumers' numbers were made for a key.

ghost use Rattle.std.specs.Prelude.{◌≡◌, ℕ, ◌&&◌, [], ◌∷◌, find, option_map, IfOk, OnOk, Result};
ghost use Rattle.std.specs.Option.{option_or};
ghost use Rattle.std.specs.HashMap.{get};
ghost use Rattle.jm_base.specs.declared.refusal.Refusal.{Refusal as OfRefusal};
ghost use Rattle.jm_dest.specs.declared.session.SessionId.{SessionId as OfSession};
ghost use Rattle.jm_dest.specs.Keys.{key_eq};
ghost use Rattle.jm_machine.specs.declared.answer.Answer.{Answer as OfAnswer};
ghost use Rattle.jm_machine.specs.Lone as lone;
ghost use Rattle.jm_machine.specs.Machine as machine;
ghost use Rattle.jm_scope.specs.Numbers.{same_number, is_seen};
ghost use Rattle.jm_scope.specs.Parts as spec;
ghost use Rattle.jm_scope.specs.Parts.{client_seen};

use crate::clients::client_of;
use crate::naming::{names_key, number_made};
use jm_dest::{ClientId, ConnectionId, ConsumerId, Key, SessionId};
use jm_machine::find::same_session;
use jm_machine::{Consumer, Entry, Request, Who};
use std::alloc::{AllocError, Global};
use std::collections::HashMap;

/// The number of a consumer in its session.
#[derive(Clone, Copy, PartialEq, Eq, Hash)]
pub(crate) struct ConsumerNumber {
    pub session: SessionId,
    pub consumer: ConsumerId,
}

/// Whether the number may be one of the key: of a consumer's own key that consumer's alone, of a durable one any.
fn may_be(key: &Key, session: &SessionId, id: ConsumerId) -> bool
    ensures { result ≡ spec.may_be key.now session.now id }
{
    match key {
        Key::Own(of, number) => same_session(session, of) && id == *number,
        Key::Durable(..) => true,
        Key::Queue(_) | Key::SharedOwn(..) => false,
    }
}

/// Notes whether the consumer is the key's, where its number is new and may be the key's.
fn add_consumer(
    numbers: &mut HashMap<ConsumerNumber, bool>,
    key: &Key,
    consumer: &Consumer,
) -> Result<(), AllocError>
    ensures { (s : OfSession) (c : ℕ) → OnOk result (get same_number numbers.new (record { session = s; consumer = c })
        ≡ option_or (get same_number numbers.old (record { session = s; consumer = c }))
        (option_map (spec.is_of key.now) (find (λ x. spec.may_be key.now s c && machine.has_number s c x) (consumer.now ∷ [])))) }
{
    let number = ConsumerNumber {
        session: consumer.session,
        consumer: consumer.id,
    };
    if may_be(key, &consumer.session, consumer.id) && !numbers.contains_key(&number) {
        numbers.insert(number, consumer.key.is(key))?;
    }
    Ok(())
}

/// Which of the consumers' numbers that may be the key's are.
fn numbers_held(
    alloc: Global,
    key: &Key,
    consumers: &[Consumer],
) -> Result<HashMap<ConsumerNumber, bool>, AllocError>
    ensures { (s : OfSession) (c : ℕ) → IfOk result (λ numbers. get same_number numbers (record { session = s; consumer = c })
        ≡ option_map (spec.is_of key.now) (find (λ x. spec.may_be key.now s c && machine.has_number s c x) consumers.now)) }
{
    let mut numbers = HashMap::new(alloc);
    for consumer in consumers {
        add_consumer(&mut numbers, key, consumer)?;
    }
    Ok(numbers)
}

/// Notes whether the session's request names the key, where it is a creating one whose number is new and may be the key's.
fn add_named(
    numbers: &mut HashMap<ConsumerNumber, bool>,
    key: &Key,
    clients: &HashMap<ConnectionId, Option<ClientId>>,
    session: &SessionId,
    request: &Request,
) -> Result<(), AllocError>
    ensures { (told : Result OfAnswer OfRefusal) (s : OfSession) (c : ℕ) → OnOk result (get same_number numbers.new (record { session = s; consumer = c })
        ≡ option_or (get same_number numbers.old (record { session = s; consumer = c }))
        (option_map (lone.entry_names key.now (client_seen clients.now))
        (find (λ e. spec.may_be key.now s c && lone.creates s c e) (Entry.Asked (Who.Session session.now) request.now told ∷ [])))) }
{
    if let Some(consumer) = number_made(request) {
        let number = ConsumerNumber {
            session: *session,
            consumer,
        };
        if may_be(key, session, consumer) && !numbers.contains_key(&number) {
            let client = client_of(clients, session.connection);
            let names = names_key(key, client, session, request);
            numbers.insert(number, names)?;
        }
    }
    Ok(())
}

/// Notes whether the entry names the key, where it is a creating call whose number is new and may be the key's.
fn add_created(
    numbers: &mut HashMap<ConsumerNumber, bool>,
    key: &Key,
    clients: &HashMap<ConnectionId, Option<ClientId>>,
    entry: &Entry,
) -> Result<(), AllocError>
    ensures { (s : OfSession) (c : ℕ) → OnOk result (get same_number numbers.new (record { session = s; consumer = c })
        ≡ option_or (get same_number numbers.old (record { session = s; consumer = c }))
        (option_map (lone.entry_names key.now (client_seen clients.now)) (find (λ e. spec.may_be key.now s c && lone.creates s c e) (entry.now ∷ [])))) }
{
    match entry {
        Entry::Asked { who, request, .. } => match who {
            Who::Session(session) => add_named(numbers, key, clients, session, request),
            Who::Connection(_) => Ok(()),
        },
        Entry::Sent(_) | Entry::Committed(_) => Ok(()),
    }
}

/// Notes of each number that the entries create first, and that may be the key's, whether it is.
fn add_all_created(
    numbers: &mut HashMap<ConsumerNumber, bool>,
    key: &Key,
    clients: &HashMap<ConnectionId, Option<ClientId>>,
    entries: &[Entry],
) -> Result<(), AllocError>
    ensures { (s : OfSession) (c : ℕ) → OnOk result (get same_number numbers.new (record { session = s; consumer = c })
        ≡ option_or (get same_number numbers.old (record { session = s; consumer = c }))
        (option_map (lone.entry_names key.now (client_seen clients.now)) (find (λ e. spec.may_be key.now s c && lone.creates s c e) entries.now))) }
{
    for entry in entries {
        add_created(numbers, key, clients, entry)?;
    }
    Ok(())
}

/// The numbers that may be the key's, each with whether it was made for the key: by its consumer in the opening, else by
/// the first creating call among the entries that names it.
#[tactic(auto, using(crate::proofs::Seen::made_first))]
pub(crate) fn numbers_for(
    alloc: Global,
    key: &Key,
    clients: &HashMap<ConnectionId, Option<ClientId>>,
    consumers: &[Consumer],
    entries: &[Entry],
) -> Result<HashMap<ConsumerNumber, bool>, AllocError>
    ensures { (s : OfSession) (c : ℕ) → IfOk result (λ numbers. is_seen numbers s c
        ≡ spec.made_for key.now (client_seen clients.now) consumers.now entries.now s c) }
{
    let mut numbers = numbers_held(alloc, key, consumers)?;
    add_all_created(&mut numbers, key, clients, entries)?;
    Ok(numbers)
}

/// Whether the number was made for the key.
pub(crate) fn is_made(
    numbers: &HashMap<ConsumerNumber, bool>,
    session: &SessionId,
    consumer: ConsumerId,
) -> bool
    ensures { result ≡ is_seen numbers.now session.now consumer }
{
    let number = ConsumerNumber {
        session: *session,
        consumer,
    };
    numbers.get(&number).copied().unwrap_or(false)
}

//! Whether a key is that of an unshared topic subscription.

ghost use Rattle.std.specs.Prelude.{◌≡◌, ◌||◌, not};
ghost use Rattle.std.specs.List.{list_all};
ghost use Rattle.std.specs.Option.{option_copied};
ghost use Rattle.jm_dest.specs.Keys.{key_eq};
ghost use Rattle.jm_machine.specs.Isolation as isolation;
ghost use Rattle.jm_machine.specs.Life as life;
ghost use Rattle.jm_machine.specs.Lone as lone;
ghost use Rattle.jm_machine.specs.Machine as machine;
ghost use Rattle.jm_machine.specs.Machine.{State, station_of, definition_of};
ghost use Rattle.jm_scope.specs.Parts as spec;

use crate::clients::client_in;
use crate::naming::{number_made, same_client};
use jm_dest::{ConsumerId, Destination, Key, SessionId, SubscriptionName};
use jm_machine::find::same_session;
use jm_machine::{ConnectionState, Consumer, Definition, Entry, Request, Who};

/// Whether the number, where the consumer has it, is that of the key.
fn is_of_key(x: &Consumer, session: &SessionId, id: ConsumerId, key: &Key) -> bool
    ensures { result ≡ (not (machine.has_number session.now id x.now) || key_eq x.now.key key.now) }
{
    !(same_session(&x.session, session) && x.id == id) || x.key.is(key)
}

/// Whether the number names no other of these consumers than that of its own subscription.
fn names_nothing_else(consumers: &[Consumer], session: &SessionId, id: ConsumerId) -> bool
    ensures { result ≡ list_all (λ x. not (machine.has_number session.now id x) || key_eq x.key (Key.Own session.now id)) consumers.now }
{
    let key = Key::Own(*session, id);
    consumers.iter().all(|x| is_of_key(x, session, id, &key))
}

/// Whether the request creates a consumer of a topic with a subscription of its own.
fn is_of_topic(request: &Request) -> bool
    ensures { result ≡ spec.is_of_topic request.now }
{
    match request {
        Request::CreateConsumer {
            destination: Destination::Topic(_),
            ..
        } => true,
        _ => false,
    }
}

/// Whether the entry, where it is a creating call that names the number, names the number's own subscription, whether it was
/// accepted or not.
fn names_its_own(entry: &Entry, session: &SessionId, id: ConsumerId) -> bool
    ensures { result ≡ isolation.names_no_other (Key.Own session.now id) spec.no_client session.now id entry.now }
{
    match entry {
        Entry::Asked {
            who: Who::Session(sender),
            request,
            ..
        } => match number_made(request) {
            Some(number) => {
                is_of_topic(request) || !(same_session(sender, session) && number == id)
            }
            None => true,
        },
        _ => true,
    }
}

/// Whether no creating call among the entries names the number for anything but its own subscription.
fn is_named_alone(entries: &[Entry], session: &SessionId, id: ConsumerId) -> bool
    ensures { result ≡ list_all (isolation.names_no_other (Key.Own session.now id) spec.no_client session.now id) entries.now }
{
    entries
        .iter()
        .all(|entry| names_its_own(entry, session, id))
}

/// Whether there is a subscription, and it is shared.
fn is_shared(definition: Option<&Definition>) -> bool
    ensures { result ≡ isolation.is_shared (option_copied definition.entry) }
{
    match definition {
        None => false,
        Some(definition) => definition.shared,
    }
}

/// Whether the session means the durable subscription of the key by the name. It looks for its client identifier only where
/// the name is the key's.
fn means(
    key: &Key,
    connections: &[ConnectionState],
    entries: &[Entry],
    session: &SessionId,
    name: &SubscriptionName,
) -> bool
    ensures { result ≡ key_eq (machine.durable_of (spec.clients_when connections.now entries.now) session.now name.now) key.now }
{
    match key {
        Key::Durable(of, known) => {
            *name == *known && same_client(client_in(connections, entries, session.connection), of)
        }
        _ => false,
    }
}

/// Whether the entry does not ask for a shared durable subscription of the key.
fn asks_no_shared(
    key: &Key,
    connections: &[ConnectionState],
    entries: &[Entry],
    entry: &Entry,
) -> bool
    ensures { result ≡ isolation.asks_no_shared key.now (spec.clients_when connections.now entries.now) entry.now }
{
    match entry {
        Entry::Asked {
            who: Who::Session(session),
            request: Request::CreateSharedDurable { name, .. },
            ..
        } => !means(key, connections, entries, session, name),
        _ => true,
    }
}

/// Whether no entry asks for a shared durable subscription of the key.
fn none_asks_shared(key: &Key, connections: &[ConnectionState], entries: &[Entry]) -> bool
    ensures { result ≡ list_all (isolation.asks_no_shared key.now (spec.clients_when connections.now entries.now)) entries.now }
{
    entries
        .iter()
        .all(|entry| asks_no_shared(key, connections, entries, entry))
}

/// Whether the key is that of an unshared topic subscription, by the connections and consumers of an opening, the definition
/// that it holds of the key's subscription, if any, and the entries that a list of calls leaves: a consumer's own, whose
/// number names nothing else; or a durable one of a client, that is not shared in the opening, and that no call asks for as
/// a shared one. Takes no memory.
pub fn is_unshared(
    key: &Key,
    definition: Option<&Definition>,
    connections: &[ConnectionState],
    consumers: &[Consumer],
    entries: &[Entry],
) -> bool
    ensures { (opening : State) → opening.life.connections ≡ connections.now → opening.consumers ≡ consumers.now
        → definition_of (station_of key.now opening.stations) ≡ option_copied definition.entry
        → result ≡ isolation.is_unshared key.now opening entries.now }
{
    match key {
        Key::Own(session, id) => {
            names_nothing_else(consumers, session, *id) && is_named_alone(entries, session, *id)
        }
        Key::Durable(Some(_), _) => {
            !is_shared(definition) && none_asks_shared(key, connections, entries)
        }
        Key::Durable(None, _) | Key::Queue(_) | Key::SharedOwn(..) => false,
    }
}

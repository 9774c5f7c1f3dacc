//! Which key a session's request names by its own words, by the client identifier that the session's connection has.

ghost use Rattle.std.specs.Prelude.{◌≡◌, ℕ, List, Option};
ghost use Rattle.std.specs.Option.{option_copied};
ghost use Rattle.jm_dest.specs.Keys.{key_eq};
ghost use Rattle.jm_dest.specs.Names.{client_eq};
ghost use Rattle.jm_machine.specs.Lone as lone;
ghost use Rattle.jm_machine.specs.Machine as machine;

use jm_dest::{ClientId, ConsumerId, Destination, Key, SessionId, SubscriptionName};
use jm_machine::Request;
use jm_machine::find::same_session;

/// Whether both are the same client identifier, or both none.
pub(crate) fn same_client(a: Option<&ClientId>, b: &Option<ClientId>) -> bool
    ensures { result ≡ client_eq (option_copied a.entry) b.now }
{
    match (a, b) {
        (None, None) => true,
        (Some(a), Some(b)) => *a == *b,
        _ => false,
    }
}

/// Whether the key is that of the durable subscription of that client identifier, if any, and that name.
pub(crate) fn is_durable(key: &Key, client: Option<&ClientId>, name: &SubscriptionName) -> bool
    ensures { result ≡ key_eq (Key.Durable (option_copied client.entry) name.now) key.now }
{
    match key {
        Key::Durable(of, known) => same_client(client, of) && *name == *known,
        _ => false,
    }
}

/// Whether the key is that of the shared non-durable subscription of that client identifier, if any, and that name.
fn is_shared_own(key: &Key, client: Option<&ClientId>, name: &SubscriptionName) -> bool
    ensures { result ≡ key_eq (Key.SharedOwn (option_copied client.entry) name.now) key.now }
{
    match key {
        Key::SharedOwn(of, known) => same_client(client, of) && *name == *known,
        _ => false,
    }
}

/// Whether the session's consumer of that number, if it is one of the destination, receives from what the key is of: the
/// queue, or a subscription of its own.
fn is_made(key: &Key, session: &SessionId, consumer: ConsumerId, destination: &Destination) -> bool
    ensures { result ≡ key_eq (machine.key_made session.now consumer destination.now) key.now }
{
    match (destination, key) {
        (Destination::Queue(name), Key::Queue(known)) => *name == *known,
        (Destination::Topic(_), Key::Own(of, number)) => {
            same_session(session, of) && consumer == *number
        }
        _ => false,
    }
}

/// Whether the session's request creates a consumer, and names the key by its own words.
pub(crate) fn names_key(
    key: &Key,
    client: Option<&ClientId>,
    session: &SessionId,
    request: &Request,
) -> bool
    ensures { (clients : ℕ → Option (List ℕ)) → clients session.now.connection ≡ option_copied client.entry
        → result ≡ lone.names_key key.now clients session.now request.now }
{
    match request {
        Request::CreateConsumer {
            consumer,
            destination,
            ..
        } => is_made(key, session, *consumer, destination),
        Request::CreateDurable { name, .. } | Request::CreateSharedDurable { name, .. } => {
            is_durable(key, client, name)
        }
        Request::CreateShared { name, .. } => is_shared_own(key, client, name),
        _ => false,
    }
}

/// Whether the session's request asks for the unshared durable subscription of the key, or to delete it.
pub(crate) fn asks_for(
    key: &Key,
    client: Option<&ClientId>,
    session: &SessionId,
    request: &Request,
) -> bool
    ensures { (clients : ℕ → Option (List ℕ)) → clients session.now.connection ≡ option_copied client.entry
        → result ≡ lone.asks_for key.now clients session.now request.now }
{
    match request {
        Request::CreateDurable { name, .. } | Request::Unsubscribe { name } => {
            is_durable(key, client, name)
        }
        _ => false,
    }
}

/// The number that a creating request gives to its consumer.
pub(crate) fn number_made(request: &Request) -> Option<ConsumerId>
    ensures { result ≡ lone.number_made request.now }
{
    match request {
        Request::CreateConsumer { consumer, .. }
        | Request::CreateDurable { consumer, .. }
        | Request::CreateShared { consumer, .. }
        | Request::CreateSharedDurable { consumer, .. } => Some(*consumer),
        _ => None,
    }
}

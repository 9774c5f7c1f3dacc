//! What a subscription asks for.

ghost use Rattle.std.specs.Prelude.{◌≡◌, ◌≢◌, ◌&&◌, is_some, IfOk, IfErr, None, Some};
ghost use Rattle.std.specs.Option.{option_copied};
ghost use Rattle.jm_base.specs.declared.refusal.Refusal.TheVariants.{Memory};
ghost use Rattle.jm_dest.specs.Names.{client_eq};
ghost use Rattle.jm_machine.specs.Machine as machine;
ghost use Rattle.jm_selector.specs.Selectors.{selector_refusal};
ghost use Rattle.jm_sub.specs.Subscriptions as spec;
ghost use Rattle.jm_sub.specs.Subscriptions.{publisher};

use jm_base::{Refusal, Str};
use jm_dest::{ClientId, ConnectionId, Key, Name};
use jm_header::Message;
use jm_machine::Definition;
use jm_selector::Selector;
use std::alloc::Global;

/// What a subscription to that topic asks for; its selector's text is read here. `InvalidSelector` where the text is no
/// selector; `Memory` where a request for memory was refused, which may come in place of it.
#[tactic(auto, unfolding(jm_machine::specs::Machine::defined))]
pub fn defined(
    alloc: Global,
    topic: &Name,
    selector: &Option<Str>,
    no_local: bool,
    shared: bool,
) -> Result<Definition, Refusal>
    ensures made { IfOk result (λ definition. definition ≡ machine.defined topic.now selector.now no_local shared) }
    ensures valid { IfOk result (λ _. selector_refusal selector.now ≡ None) }
    ensures refused { IfErr result (λ refusal. refusal ≢ Memory → selector_refusal selector.now ≡ Some refusal) }
{
    let selector = Selector::read(alloc, selector)?;
    Ok(Definition {
        topic: topic.copy()?,
        selector,
        no_local,
        shared,
    })
}

/// Whether both ask for the same.
fn same(a: &Definition, b: &Definition) -> bool
    ensures { result ≡ machine.same_definition a.now b.now }
{
    a.topic == b.topic
        && a.selector == b.selector
        && a.no_local == b.no_local
        && a.shared == b.shared
}

/// Whether there is a subscription, and it asks for that: the same topic, selector as it stands, `no_local` and sharing.
pub fn is_same(held: Option<&Definition>, asked: &Definition) -> bool
    ensures { result ≡ machine.is_same (option_copied held.entry) asked.now }
{
    match held {
        None => false,
        Some(held) => same(held, asked),
    }
}

/// Whether there is no subscription, or it is shared as that one is.
pub(crate) fn is_same_kind(held: Option<&Definition>, asked: &Definition) -> bool
    ensures { result ≡ machine.is_same_kind (option_copied held.entry) asked.now }
{
    match held {
        None => true,
        Some(held) => held.shared == asked.shared,
    }
}

/// Whether both are there and the same. A durable subscription without a client identifier is local to nobody.
fn is_of(publisher: Option<&ClientId>, client: &Option<ClientId>) -> bool
    ensures { result ≡ (is_some client.now && client_eq (option_copied publisher.entry) client.now) }
{
    match (publisher, client) {
        (Some(publisher), Some(client)) => *publisher == *client,
        _ => false,
    }
}

/// Whether a publisher on that connection, which has that client identifier, if any, is local to the key: of a
/// consumer's own subscription it is the consumer's connection, and of a durable one a connection that has the
/// subscription's client identifier (Jakarta Messaging 3.1, section 8.3.1).
pub(crate) fn is_local(key: &Key, connection: ConnectionId, client: Option<&ClientId>) -> bool
    ensures { result ≡ machine.is_local key.now (record { connection = connection; client = option_copied client.entry }) }
{
    match key {
        Key::Queue(_) => false,
        Key::Own(session, _) => connection == session.connection,
        Key::SharedOwn(..) => false,
        Key::Durable(of, _) => is_of(client, of),
    }
}

/// Whether a subscription of the key takes the messages of the message's publisher, whose connection has that
/// client identifier, if any, and its selector selects the message. It does not look at the topic.
pub(crate) fn wants(
    key: &Key,
    definition: &Definition,
    message: &Message,
    client: Option<&ClientId>,
) -> bool
    ensures { result ≡ spec.wants key.now definition.now (publisher message.now (option_copied client.entry)) message.now }
{
    let connection = message.sender().session.connection;
    let is_barred = definition.no_local && is_local(key, connection, client);
    !is_barred && definition.selector.selects(message)
}

/// Whether a subscription of the key that asks for that accepts the message, whose publisher's connection has that client
/// identifier, if any: it goes to the topic, is not barred as a local one, and the selector selects it.
#[tactic(auto, unfolding(jm_machine::specs::Machine::accepts))]
pub fn accepts(
    key: &Key,
    definition: &Definition,
    message: &Message,
    client: Option<&ClientId>,
) -> bool
    ensures { result ≡ machine.accepts key.now definition.now (publisher message.now (option_copied client.entry)) message.now }
{
    definition.is_to(message) && wants(key, definition, message, client)
}

//! Causes in subscriptions that have names.

ghost use Rattle.std.specs.Prelude.{◌≡◌, is_some, IfOk};
ghost use Rattle.std.specs.Option.{option_copied};
ghost use Rattle.jm_plans.specs.Provider.{state_of};
ghost use Rattle.jm_explain.specs.Held.{had_why as had_cause, is_any_active, is_any_out};
ghost use Rattle.jm_machine.specs.Life as life;
ghost use Rattle.jm_machine.specs.Machine as machine;
ghost use Rattle.jm_machine.specs.Under.{placed_under};
ghost use Rattle.jm_sub.specs.Sharing.{is_shared};
ghost use Rattle.jm_why.specs.Why as spec;
ghost use Rattle.std.specs.Prelude.{not};

use crate::held::{is_home, is_idle};
use crate::life::{first_why, unless};
use jm_base::{Refusal, Str};
use jm_core::Core;
use jm_dest::{ClientId, ConnectionId, Destination, Key, SessionId, SubscriptionName};
use jm_machine::Definition;
use jm_machine::find::connection_of;
use jm_sub::{Sharing, defined, is_same};
use jm_why::Why;
use std::alloc::{AllocError, Global};

/// A key, which is dropped by one call on each way out.
pub(crate) struct HeldKey {
    pub(crate) key: Key,
}

impl Drop for HeldKey {
    fn drop(self) {
        let HeldKey { key: _key } = self;
    }
}

/// Whether the connection of that number was opened for a client.
pub(crate) fn has_client(core: &Core, id: ConnectionId) -> bool
    ensures { result ≡ is_some (life.client_of (state_of core.now).life id) }
{
    match connection_of(core.connections(), id) {
        Some(connection) => connection.client.is_some(),
        None => false,
    }
}

fn copy_client(client: &Option<ClientId>) -> Result<Option<ClientId>, AllocError>
    ensures { IfOk result (λ copy. copy ≡ client.now) }
{
    match client {
        None => Ok(None),
        Some(client) => Ok(Some(client.copy()?)),
    }
}

/// A copy of the client identifier of the connection of that number, where it has one.
fn client_of(core: &Core, id: ConnectionId) -> Result<Option<ClientId>, AllocError>
    ensures { IfOk result (λ client. client ≡ life.client_of (state_of core.now).life id) }
{
    match connection_of(core.connections(), id) {
        Some(connection) => copy_client(&connection.client),
        None => Ok(None),
    }
}

/// The key of the durable subscription that the session means by the name.
pub(crate) fn durable_key(
    core: &Core,
    session: &SessionId,
    name: &SubscriptionName,
) -> Result<HeldKey, AllocError>
    ensures { IfOk result (λ held. held.key ≡ machine.durable_of (life.client_of (state_of core.now).life) session.now name.now) }
{
    let client = client_of(core, session.connection)?;
    let key = Key::Durable(client, name.copy()?);
    Ok(HeldKey { key })
}

/// The key of the shared subscription that is not durable.
pub(crate) fn shared_key(
    core: &Core,
    session: &SessionId,
    name: &SubscriptionName,
) -> Result<HeldKey, AllocError>
    ensures { IfOk result (λ held. held.key ≡ machine.shared_of (life.client_of (state_of core.now).life) session.now name.now) }
{
    let client = client_of(core, session.connection)?;
    let key = Key::SharedOwn(client, name.copy()?);
    Ok(HeldKey { key })
}

/// Whether there is no subscription, or it is shared as that one is.
fn is_same_kind(held: Option<&Definition>, asked: &Definition) -> bool
    ensures { result ≡ machine.is_same_kind (option_copied held.entry) asked.now }
{
    match held {
        None => true,
        Some(held) => held.shared == asked.shared,
    }
}

/// Why an unshared durable subscription cannot be had.
fn resume_why(
    held: Option<&Definition>,
    is_idle: bool,
    is_home: bool,
    asked: &Definition,
) -> Option<Why>
    ensures { result ≡ spec.resume_why (option_copied held.entry) is_idle is_home asked.now }
{
    let may_stay = is_same(held, asked) || is_home;
    let later = first_why(
        unless(is_idle, Why::ActiveConsumer),
        unless(may_stay, Why::RowOut),
    );
    first_why(unless(is_same_kind(held, asked), Why::OtherKind), later)
}

/// Why a shared durable one cannot.
fn join_why(
    held: Option<&Definition>,
    is_idle: bool,
    is_home: bool,
    asked: &Definition,
) -> Option<Why>
    ensures { result ≡ spec.join_why (option_copied held.entry) is_idle is_home asked.now }
{
    let is_same = is_same(held, asked);
    let later = first_why(
        unless(is_same || is_idle, Why::ActiveConsumer),
        unless(is_same || is_home, Why::RowOut),
    );
    first_why(unless(is_same_kind(held, asked), Why::OtherKind), later)
}

/// Why a subscription that is shared so cannot be had.
fn had_why(
    sharing: Sharing,
    held: Option<&Definition>,
    is_idle: bool,
    is_home: bool,
    asked: &Definition,
) -> Option<Why>
    ensures { result ≡ had_cause sharing (option_copied held.entry) is_idle is_home asked.now }
{
    match sharing {
        Sharing::Unshared => resume_why(held, is_idle, is_home, asked),
        Sharing::SharedDurable => join_why(held, is_idle, is_home, asked),
        Sharing::Shared => {
            let may_share = held.is_none() || is_same(held, asked);
            unless(may_share, Why::OtherDefinition)
        }
    }
}

/// Why the subscription of the key cannot be had, as it is asked for; none where it is no topic's, or the selector does not
/// read.
pub(crate) fn wanted_why(
    alloc: Global,
    core: &Core,
    key: &Key,
    sharing: Sharing,
    destination: &Destination,
    selector: &Option<Str>,
    no_local: bool,
) -> Result<Option<Why>, AllocError>
    ensures { IfOk result (λ why. why ≡ spec.subscription_why destination.now selector.now (had_cause sharing
        (machine.definition_of (machine.station_of key.now (state_of core.now).stations))
        (not (is_any_active key.now (state_of core.now).consumers)) (not (is_any_out (placed_under (state_of core.now) key.now)))
        (machine.asked destination.now selector.now no_local (is_shared sharing)))) }
{
    let Destination::Topic(topic) = destination else {
        return Ok(None);
    };
    match defined(alloc, topic, selector, no_local, sharing.is_shared()) {
        Ok(asked) => Ok(had_why(
            sharing,
            core.definition_of(key),
            is_idle(core, key),
            is_home(core, key),
            &asked,
        )),
        Err(Refusal::Memory) => Err(AllocError),
        Err(_) => Ok(None),
    }
}

/// Why the durable subscription of the key, where there is one, cannot be deleted.
pub(crate) fn delete_why(core: &Core, key: &Key) -> Option<Why>
    ensures { result ≡ spec.delete_why (machine.definition_of (machine.station_of key.now (state_of core.now).stations))
        (not (is_any_active key.now (state_of core.now).consumers)) (not (is_any_out (placed_under (state_of core.now) key.now))) }
{
    if core.definition_of(key).is_none() {
        return None;
    }
    first_why(
        unless(is_idle(core, key), Why::ActiveConsumer),
        unless(is_home(core, key), Why::RowOut),
    )
}

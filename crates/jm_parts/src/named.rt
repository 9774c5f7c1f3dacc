//! Subscriptions that have names: what a request asks for, the key that it means, and whether the subscription may be
//! had.

ghost use Rattle.std.specs.Prelude.{◌≡◌, ◌≢◌, ◌<◌, true, option_map, IfOk, IfErr, IfSome, OnOk, None, Some};
ghost use Rattle.jm_base.specs.declared.refusal.Refusal.TheVariants.{Memory};
ghost use Rattle.jm_machine.specs.Attached.{is_named};
ghost use Rattle.jm_machine.specs.Life as life;
ghost use Rattle.jm_machine.specs.Machine as machine;
ghost use Rattle.jm_selector.specs.Selectors.{selector_refusal};
ghost use Rattle.jm_sub.specs.Sharing.{may};
ghost use Rattle.jm_sub.specs.Subscriptions.{definition_at, needed};
ghost use Rattle.jm_parts.specs.Named as spec;
ghost use Rattle.jm_parts.specs.Named.{asked_by, had_refusal, home_in, may_have, named_key};

use jm_base::{Boxed, Refusal, Str};
use jm_dest::{ClientId, ConsumerId, Destination, Key, Name, SessionId, SubscriptionName};
use jm_session::{Sessions, Source};
use jm_stations::Stations;
use jm_sub::{Decision, Sharing, Subs};
use std::alloc::{AllocError, Global};

/// A subscription that has a name, as a request asks for it.
#[derive(Drop)]
pub struct Wanted<'a> {
    pub destination: &'a Destination,
    pub name: &'a SubscriptionName,
    pub selector: &'a Option<Str>,
    pub no_local: bool,
    pub sharing: Sharing,
}

/// The subscription that was decided, where one was, beside its key. It is dropped by one call, so that a
/// function with several ways out does not drop it, variant by variant, on each.
struct Asked {
    decision: Option<Boxed<(Key, Decision)>>,
}

impl Drop for Asked {
    fn drop(self) {
        let Asked {
            decision: _decision,
        } = self;
    }
}

impl Asked {
    fn into_decision(self) -> Option<Boxed<(Key, Decision)>>
        ensures { result ≡ self.decision }
    {
        let Asked { decision } = self;
        decision
    }
}

/// Whether the session's consumer of that number may be asked for: it may be made, and where the subscription is
/// unshared the connection has a client identifier (Jakarta Messaging 3.1, section 8.3.3).
pub fn may_ask(sessions: &Sessions, session: &SessionId, id: ConsumerId, sharing: Sharing) -> bool
    ensures { result ≡ spec.may_ask sharing sessions.now.life sessions.now.consumers session.now id }
{
    let begins = sessions.may_begin(session, id);
    match sharing {
        Sharing::Unshared => begins && sessions.client_of(session.connection).is_some(),
        Sharing::SharedDurable | Sharing::Shared => begins,
    }
}

/// A copy of the client identifier of the session's connection, where it has one.
fn client_of(sessions: &Sessions, session: &SessionId) -> Result<Option<ClientId>, AllocError>
    ensures { IfOk result (λ client. client ≡ life.client_of sessions.now.life session.now.connection) }
{
    match sessions.client_of(session.connection) {
        None => Ok(None),
        Some(client) => Ok(Some(client.copy()?)),
    }
}

/// The key of the durable subscription that the session means by the name.
pub fn durable_key(
    sessions: &Sessions,
    session: &SessionId,
    name: &SubscriptionName,
) -> Result<Key, AllocError>
    ensures { IfOk result (λ key. key ≡ machine.durable_of (life.client_of sessions.now.life) session.now name.now) }
{
    let client = client_of(sessions, session)?;
    Ok(Key::Durable(client, name.copy()?))
}

/// The key of the subscription that the session means by the name, which is shared in that way.
pub fn key_of(
    sessions: &Sessions,
    session: &SessionId,
    name: &SubscriptionName,
    sharing: Sharing,
) -> Result<Key, AllocError>
    ensures { IfOk result (λ key. key ≡ named_key sharing (life.client_of sessions.now.life) session.now name.now) }
{
    match sharing {
        Sharing::Unshared | Sharing::SharedDurable => durable_key(sessions, session, name),
        Sharing::Shared => {
            let client = client_of(sessions, session)?;
            Ok(Key::SharedOwn(client, name.copy()?))
        }
    }
}

/// Whether no row of the key is out, to whichever session.
pub fn is_home(stations: &Stations, key: &Key) -> bool
    ensures { result ≡ home_in key.now stations.now.keys stations.now.list }
{
    match stations.index_of(key) {
        None => true,
        Some(index) => stations.is_home(index),
    }
}

/// The decision beside a copy of its key.
fn beside(
    alloc: Global,
    key: &Key,
    decision: Decision,
) -> Result<Boxed<(Key, Decision)>, AllocError>
    ensures { IfOk result (λ pair. pair ≡ (key.now, decision)) }
{
    let key = key.copy()?;
    Boxed::new(alloc, (key, decision))
}

/// The decision, where there is one, beside a copy of its key.
fn with_key(
    alloc: Global,
    key: &Key,
    decision: Option<Decision>,
) -> Result<Option<Boxed<(Key, Decision)>>, AllocError>
    ensures { IfOk result (λ pair. pair ≡ option_map (λ d. (key.now, d)) decision) }
{
    match decision {
        None => Ok(None),
        Some(decision) => Ok(Some(beside(alloc, key, decision)?)),
    }
}

/// Decides the subscription of the key: none where what stands under it is as it is wanted. The rest says whether no
/// consumer of the key is active, and whether no row of it is out.
fn decide(
    subs: &mut Subs,
    key: &Key,
    topic: &Name,
    wanted: &Wanted,
    is_idle: bool,
    is_home: bool,
) -> Result<Option<Decision>, Refusal>
    ensures decided { IfOk result (λ d. d ≡ needed key.now (asked_by topic.now wanted.now) subs.old.list) }
    ensures valid { OnOk result (selector_refusal wanted.now.selector.now ≡ None) }
    ensures had { OnOk result (may wanted.now.sharing (definition_at key.now subs.old.list) is_idle is_home
        (asked_by topic.now wanted.now) ≡ true) }
    ensures room { IfOk result (λ d. IfSome d (λ _. 0 < subs.new.spare)) }
    ensures refused { IfErr result (λ refusal. refusal ≢ Memory →
        had_refusal wanted.now.selector.now (may wanted.now.sharing (definition_at key.now subs.old.list) is_idle is_home
        (asked_by topic.now wanted.now)) ≡ Some refusal) }
    ensures same { subs.new.list ≡ subs.old.list }
{
    let key = key.copy()?;
    subs.decide_named(
        key,
        topic,
        wanted.selector,
        wanted.no_local,
        wanted.sharing,
        is_idle,
        is_home,
    )
}

/// Finds why the subscription of the key, which has a name, may not be had, and else decides it, beside a copy of its key.
fn decide_under(
    alloc: Global,
    sessions: &Sessions,
    subs: &mut Subs,
    stations: &Stations,
    key: &Key,
    topic: &Name,
    wanted: &Wanted,
) -> Result<Option<Boxed<(Key, Decision)>>, Refusal>
    requires named { is_named key.now ≡ true }
    ensures decided { IfOk result (λ x. x ≡
        option_map (λ d. (key.now, d)) (needed key.now (asked_by topic.now wanted.now) subs.old.list)) }
    ensures valid { OnOk result (selector_refusal wanted.now.selector.now ≡ None) }
    ensures had { OnOk result (may_have wanted.now.sharing key.now (asked_by topic.now wanted.now)
        sessions.now.consumers subs.old.list stations.now.keys stations.now.list ≡ true) }
    ensures room { IfOk result (λ x. IfSome x (λ _. 0 < subs.new.spare)) }
    ensures refused { IfErr result (λ refusal. refusal ≢ Memory →
        had_refusal wanted.now.selector.now (may_have wanted.now.sharing key.now (asked_by topic.now wanted.now)
        sessions.now.consumers subs.old.list stations.now.keys stations.now.list) ≡ Some refusal) }
    ensures same { subs.new.list ≡ subs.old.list }
{
    let is_idle = sessions.is_idle(key);
    let is_home = is_home(stations, key);
    let decision = decide(subs, key, topic, wanted, is_idle, is_home)?;
    Ok(with_key(alloc, key, decision)?)
}

/// A source of the key, with room for its consumer and for what is held under the key.
fn prepare_source(
    alloc: Global,
    sessions: &mut Sessions,
    stations: &mut Stations,
    key: &Key,
) -> Result<Boxed<Source>, AllocError>
    ensures source { IfOk result (λ x. x ≡ record { key = key.now; selector = None }) }
    ensures room { OnOk result (0 < sessions.new.spare) }
    ensures key_room { OnOk result (0 < stations.new.key_room) }
    ensures life { sessions.new.life ≡ sessions.old.life }
    ensures consumers { sessions.new.consumers ≡ sessions.old.consumers }
    ensures stations { stations.new ≡ record stations.old { key_room = stations.new.key_room } }
{
    sessions.reserve(1)?;
    stations.reserve_key()?;
    let source = Source::named(alloc, key.copy()?)?;
    Boxed::new(alloc, source)
}

/// Finds why the subscription of the key, which has a name, may not be had, and else decides it, and makes room for it
/// and for a consumer.
pub fn prepare_under(
    alloc: Global,
    sessions: &mut Sessions,
    subs: &mut Subs,
    stations: &mut Stations,
    key: &Key,
    topic: &Name,
    wanted: &Wanted,
) -> Result<(Boxed<Source>, Option<Boxed<(Key, Decision)>>), Refusal>
    requires named { is_named key.now ≡ true }
    ensures source { IfOk result (λ x. x.0 ≡ record { key = key.now; selector = None }) }
    ensures decided { IfOk result (λ x. x.1 ≡
        option_map (λ d. (key.now, d)) (needed key.now (asked_by topic.now wanted.now) subs.old.list)) }
    ensures valid { OnOk result (selector_refusal wanted.now.selector.now ≡ None) }
    ensures had { OnOk result (may_have wanted.now.sharing key.now (asked_by topic.now wanted.now)
        sessions.old.consumers subs.old.list stations.old.keys stations.old.list ≡ true) }
    ensures room { OnOk result (0 < sessions.new.spare) }
    ensures subs_room { IfOk result (λ x. IfSome x.1 (λ _. 0 < subs.new.spare)) }
    ensures key_room { OnOk result (0 < stations.new.key_room) }
    ensures refused { IfErr result (λ refusal. refusal ≢ Memory →
        had_refusal wanted.now.selector.now (may_have wanted.now.sharing key.now (asked_by topic.now wanted.now)
        sessions.old.consumers subs.old.list stations.old.keys stations.old.list) ≡ Some refusal) }
    ensures life { sessions.new.life ≡ sessions.old.life }
    ensures consumers { sessions.new.consumers ≡ sessions.old.consumers }
    ensures subs { subs.new.list ≡ subs.old.list }
    ensures stations { stations.new ≡ record stations.old { key_room = stations.new.key_room } }
{
    let decision = decide_under(alloc, sessions, subs, stations, key, topic, wanted)?;
    let asked = Asked { decision };
    let source = prepare_source(alloc, sessions, stations, key)?;
    Ok((source, asked.into_decision()))
}

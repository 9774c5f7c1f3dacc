//! Makes consumers: of a topic each with an empty subscription of its own, of a queue with a selector, of a subscription
//! that has a name with a new one where that was decided. Deletes subscriptions that have names.

ghost use Rattle.std.specs.Prelude.{◌≡◌, ◌≢◌, ◌<◌, ◌≤◌, ◌++◌, [], ◌∷◌, true, false, IfOk, IfErr, OnOk, None, Some};
ghost use Rattle.jm_base.specs.declared.refusal.Refusal.TheVariants.{IllegalState, Memory};
ghost use Rattle.jm_machine.specs.Machine as machine;
ghost use Rattle.jm_selector.specs.Selectors.{selector_refusal};
ghost use Rattle.jm_stations.specs.Backlogs.{empty, kept_under};
ghost use Rattle.jm_sub.specs.Subscriptions.{put, without};
ghost use Rattle.jm_parts.specs.Closing.{is_other, kept_keys};
ghost use Rattle.jm_parts.specs.Named as named;
ghost use Rattle.jm_parts.specs.State as spec;

use jm_base::{Boxed, Refusal, Str};
use jm_dest::{ConsumerId, Key, Name, SessionId};
use jm_selector::Selector;
use jm_session::{Sessions, Source};
use jm_stations::Stations;
use jm_sub::{Decision, Subs};
use std::alloc::Global;

/// Finds why the consumer may not be made, and else decides its subscription, beside its key, and makes room for both.
pub fn prepare_create(
    alloc: Global,
    sessions: &mut Sessions,
    subs: &mut Subs,
    stations: &mut Stations,
    session: &SessionId,
    id: ConsumerId,
    topic: &Name,
    selector: &Option<Str>,
    no_local: bool,
) -> Result<(Boxed<Source>, Boxed<(Key, Decision)>), Refusal>
    ensures begins { OnOk result (machine.may_begin sessions.old.life sessions.old.consumers session.now id ≡ true) }
    ensures source { IfOk result (λ x. x.0 ≡ record { key = Key.Own session.now id; selector = None }) }
    ensures decided { IfOk result (λ x. x.1 ≡ (
      Key.Own session.now id,
      record { key = Key.Own session.now id; definition = machine.defined topic.now selector.now no_local false },
    )) }
    ensures valid { OnOk result (selector_refusal selector.now ≡ None) }
    ensures room { OnOk result (0 < sessions.new.spare) }
    ensures subs_room { OnOk result (0 < subs.new.spare) }
    ensures key_room { OnOk result (0 < stations.new.key_room) }
    ensures illegal { IfErr result (λ refusal.
        machine.may_begin sessions.old.life sessions.old.consumers session.now id ≡ false → refusal ≡ IllegalState) }
    ensures refused { IfErr result (λ refusal.
        machine.may_begin sessions.old.life sessions.old.consumers session.now id ≡ true →
        refusal ≢ Memory → selector_refusal selector.now ≡ Some refusal) }
    ensures life { sessions.new.life ≡ sessions.old.life }
    ensures consumers { sessions.new.consumers ≡ sessions.old.consumers }
    ensures subs { subs.new.list ≡ subs.old.list }
    ensures stations { stations.new ≡ record stations.old { key_room = stations.new.key_room } }
{
    if !sessions.may_begin(session, id) {
        return Err(Refusal::IllegalState);
    }
    sessions.reserve(1)?;
    stations.reserve_key()?;
    let decision = subs.decide_create(Key::Own(*session, id), topic, selector, no_local)?;
    let decision = Boxed::new(alloc, (Key::Own(*session, id), decision))?;
    let source = Source::plain(Key::Own(*session, id), Selector::none(alloc));
    Ok((Boxed::new(alloc, source)?, decision))
}

/// Finds why the consumer of a queue may not be made, and else reads its selector and makes room for it; the queue's name
/// is copied.
pub fn prepare_create_of(
    alloc: Global,
    sessions: &mut Sessions,
    session: &SessionId,
    id: ConsumerId,
    queue: &Name,
    selector: &Option<Str>,
) -> Result<Boxed<Source>, Refusal>
    ensures begins { OnOk result (machine.may_begin sessions.old.life sessions.old.consumers session.now id ≡ true) }
    ensures source { IfOk result (λ x.
        x ≡ record { key = Key.Queue queue.now; selector = machine.standing_as selector.now }) }
    ensures valid { OnOk result (selector_refusal selector.now ≡ None) }
    ensures room { OnOk result (0 < sessions.new.spare) }
    ensures illegal { IfErr result (λ refusal.
        machine.may_begin sessions.old.life sessions.old.consumers session.now id ≡ false → refusal ≡ IllegalState) }
    ensures refused { IfErr result (λ refusal.
        machine.may_begin sessions.old.life sessions.old.consumers session.now id ≡ true →
        refusal ≢ Memory → selector_refusal selector.now ≡ Some refusal) }
    ensures life { sessions.new.life ≡ sessions.old.life }
    ensures consumers { sessions.new.consumers ≡ sessions.old.consumers }
{
    if !sessions.may_begin(session, id) {
        return Err(Refusal::IllegalState);
    }
    sessions.reserve(1)?;
    let selector = Selector::read(alloc, selector)?;
    let source = Source::plain(Key::Queue(queue.copy()?), selector);
    Ok(Boxed::new(alloc, source)?)
}

/// How many rows may be held under the key, where there is a limit: under that of a durable subscription or of a queue
/// there may be any number.
fn limit_of(key: &Key, limit: u32) -> Option<u32>
    ensures { result ≡ spec.limit_of limit key.now }
{
    match key {
        Key::Own(_, _) | Key::SharedOwn(_, _) => Some(limit),
        Key::Durable(_, _) | Key::Queue(_) => None,
    }
}

/// Takes out what is held under the key, where something is. Takes no memory.
fn remove_under(stations: &mut Stations, key: &Key)
    ensures keys { stations.new.keys ≡ kept_keys (is_other key.now) stations.old.keys }
    ensures list { stations.new.list ≡ kept_under (is_other key.now) stations.old.keys stations.old.list }
    ensures next_place { stations.new.next_place ≡ stations.old.next_place }
    ensures key_room { stations.old.key_room ≤ stations.new.key_room }
{
    // The length is what says that each key stands once.
    let _number = stations.len();
    match stations.index_of(key) {
        None => {}
        Some(index) => stations.remove(index),
    }
}

/// Puts the subscription that was decided, and nothing under its key, in place of any other of the key. Takes no memory.
fn make_put(subs: &mut Subs, stations: &mut Stations, key: Key, decision: Decision, limit: u32)
    requires subs_room { 0 < subs.old.spare }
    requires key_room { 0 < stations.old.key_room }
    ensures subs { subs.new.list ≡ put decision subs.old.list }
    ensures keys { stations.new.keys ≡ kept_keys (is_other key) stations.old.keys ++ key ∷ [] }
    ensures list { stations.new.list ≡
        kept_under (is_other key) stations.old.keys stations.old.list ++ empty (spec.limit_of limit key) ∷ [] }
    ensures next_place { stations.new.next_place ≡ stations.old.next_place }
{
    remove_under(stations, &key);
    let limit = limit_of(&key, limit);
    stations.create(key, limit);
    subs.apply(decision);
}

/// Puts the subscription that was decided, where one was. Takes no memory.
pub fn make_decided(
    subs: &mut Subs,
    stations: &mut Stations,
    decision: Option<Boxed<(Key, Decision)>>,
    limit: u32,
)
    requires { named.IsRoomy decision subs.old stations.old }
    ensures subs { subs.new.list ≡ named.subscriptions_with decision subs.old.list }
    ensures keys { stations.new.keys ≡ named.keys_with decision stations.old.keys }
    ensures list { stations.new.list ≡ named.list_with limit decision stations.old.keys stations.old.list }
    ensures next_place { stations.new.next_place ≡ stations.old.next_place }
{
    match decision {
        None => {}
        Some(decided) => {
            let (key, decision) = decided.into_inner();
            make_put(subs, stations, key, decision, limit);
        }
    }
}

/// Makes the consumer of that source.
pub fn make_consumer(
    sessions: &mut Sessions,
    session: &SessionId,
    id: ConsumerId,
    source: Boxed<Source>,
)
    requires begins { machine.may_begin sessions.old.life sessions.old.consumers session.now id ≡ true }
    requires room { 0 < sessions.old.spare }
    ensures life { sessions.new.life ≡ sessions.old.life }
    ensures consumers { sessions.new.consumers ≡
        sessions.old.consumers ++ machine.new_consumer session.now id source.key source.selector ∷ [] }
{
    let _ = sessions.consumer(session, id, source.into_inner());
}

/// Deletes the subscription of the key, with what is held under it. Takes no memory.
pub fn make_delete(subs: &mut Subs, stations: &mut Stations, key: &Key)
    ensures subs { subs.new.list ≡ without key.now subs.old.list }
    ensures keys { stations.new.keys ≡ kept_keys (is_other key.now) stations.old.keys }
    ensures list { stations.new.list ≡ kept_under (is_other key.now) stations.old.keys stations.old.list }
    ensures next_place { stations.new.next_place ≡ stations.old.next_place }
{
    subs.delete(key);
    remove_under(stations, key);
}

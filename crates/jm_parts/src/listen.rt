//! Listeners: who may take, what a take leaves of its consumer, and what is settled or given back once a listener is
//! done. What is made here takes no memory, and does not fail.

ghost use Rattle.std.specs.Prelude.{◌≡◌, ◌<◌, ℕ, List, length, true, false, Some, IfOk, IfErr, OnOk, OnErr};
ghost use Rattle.std.specs.Option.{option_copied};
ghost use Rattle.jm_base.specs.declared.refusal.Refusal.TheVariants.{IllegalState};
ghost use Rattle.jm_dest.specs.declared.key.Key.TheVariants as queue;
ghost use Rattle.jm_machine.specs.Machine as machine;
ghost use Rattle.jm_stations.specs.Stations.{index_in};
ghost use Rattle.jm_parts.specs.Listening as spec;
ghost use Rattle.jm_queues.specs.Queues.{rows_in};

use crate::receive::settles;
use jm_base::{Mode, Refusal};
use jm_dest::{ConsumerId, Key, SessionId};
use jm_machine::{Answer, Consumer, Consumers};
use jm_queues::queues::Queues;
use jm_session::Sessions;
use jm_stations::Stations;

/// The consumer whose listener takes; or why it may not take.
pub fn taker<'a>(
    sessions: &'a Sessions,
    session: &SessionId,
    id: ConsumerId,
) -> Result<&'a Consumer, Refusal>
    ensures ok { OnOk result (machine.may_take sessions.now.life sessions.now.consumers session.now id ≡ true) }
    ensures source { IfOk result (λ x. machine.consumer_of sessions.now.consumers session.now id ≡ Some x.now) }
    ensures illegal { IfErr result (λ refusal. refusal ≡ IllegalState) }
    ensures refused { OnErr result (machine.may_take sessions.now.life sessions.now.consumers session.now id ≡ false) }
{
    if !sessions.may_take(session, id) {
        return Err(Refusal::IllegalState);
    }
    match sessions.consumer_of(session, id) {
        Some(consumer) => Ok(consumer),
        None => Err(Refusal::IllegalState),
    }
}

/// Whether the answer hands a message out.
fn is_delivered(answer: &Answer) -> bool
    ensures { result ≡ spec.is_delivered answer.now }
{
    matches!(answer, Answer::Delivered(_))
}

/// Sets the listener of the session's consumer of that number, or takes it away.
pub fn make_listener(sessions: &mut Sessions, session: &SessionId, id: ConsumerId, on: bool)
    requires { machine.may_set_listener sessions.old.life sessions.old.consumers session.now id ≡ true }
    ensures life { sessions.new.life ≡ sessions.old.life }
    ensures consumers { sessions.new.consumers ≡ machine.set_listening session.now id on sessions.old.consumers }
{
    let _ = sessions.set_listening(session, id, on);
}

/// The listener of the session's consumer of that number took what the answer hands out: where that is a message, the
/// consumer is busy.
pub fn make_busy(sessions: &mut Sessions, session: &SessionId, id: ConsumerId, answer: &Answer)
    requires { machine.may_take sessions.old.life sessions.old.consumers session.now id ≡ true }
    ensures life { sessions.new.life ≡ sessions.old.life }
    ensures consumers { sessions.new.consumers ≡
        machine.set_busy session.now id (spec.is_delivered answer.now) sessions.old.consumers }
{
    let _ = sessions.set_busy(session, id, is_delivered(answer));
}

/// The listener of the session's consumer of that number is done: the consumer is not busy any more.
pub fn make_free(sessions: &mut Sessions, session: &SessionId, id: ConsumerId)
    requires { machine.may_be_done sessions.old.life sessions.old.consumers session.now id ≡ true }
    ensures life { sessions.new.life ≡ sessions.old.life }
    ensures consumers { sessions.new.consumers ≡ machine.set_busy session.now id false sessions.old.consumers }
{
    let _ = sessions.set_busy(session, id, false);
}

/// The key under which the listener of the session's consumer of that number, once done, settles what is out, or gives it
/// back: the consumer's, where the mode settles a message in the step that delivers it, and else none.
pub fn ending_key<'a>(
    sessions: &'a Sessions,
    session: &SessionId,
    id: ConsumerId,
    mode: Mode,
) -> Option<&'a Key>
    ensures { option_copied result ≡ spec.ending_key mode (machine.consumer_of sessions.now.consumers session.now id) }
{
    if !settles(mode) {
        return None;
    }
    match sessions.consumer_of(session, id) {
        None => None,
        Some(consumer) => Some(&consumer.key),
    }
}

/// What is out through those consumers under the key, where there is one, is settled where `ok` is set, and else waits
/// again. What is held under other keys is not looked at.
pub fn make_done(
    stations: &mut Stations,
    queues: &mut Queues,
    key: Option<&Key>,
    which: &Consumers,
    ok: bool,
)
    ensures keys { stations.new.keys ≡ stations.old.keys }
    ensures list { stations.new.list ≡
        spec.ended_under (option_copied key.entry) which.now ok stations.old.keys stations.old.list }
    ensures next_place { stations.new.next_place ≡ stations.old.next_place }
    ensures queues { rows_in queues.new ≡ spec.ended_queues (option_copied key.entry) which.now ok (rows_in queues.old) }
    ensures queue_place { queues.new.next_place ≡ queues.old.next_place }
{
    if let Some(key) = key {
        done_held(stations, key, which, ok);
        done_queued(queues, key, which, ok);
    }
}

/// The same of what is held for the subscription of the key, where there is one.
fn done_held(stations: &mut Stations, key: &Key, which: &Consumers, ok: bool)
    ensures keys { stations.new.keys ≡ stations.old.keys }
    ensures list { stations.new.list ≡ spec.ended_at (index_in stations.old.keys key.now) which.now ok stations.old.list }
    ensures next_place { stations.new.next_place ≡ stations.old.next_place }
{
    match stations.index_of(key) {
        None => {}
        Some(index) if ok => stations.settle_at(index, which),
        Some(index) => stations.give_back_at(index, which),
    }
}

/// The same of what the queue holds whose key it is, where it is that of a queue.
fn done_queued(queues: &mut Queues, key: &Key, which: &Consumers, ok: bool)
    ensures rows { rows_in queues.new ≡ machine.at_queue_of key.now (spec.ended_rows which.now ok) (rows_in queues.old) }
    ensures next_place { queues.new.next_place ≡ queues.old.next_place }
{
    match key {
        Key::Queue(_) => done_in(queues, key, which, ok),
        Key::Own(_, _) | Key::SharedOwn(_, _) | Key::Durable(_, _) => {}
    }
}

/// The same of what the queue of the key holds.
fn done_in(queues: &mut Queues, key: &Key, which: &Consumers, ok: bool)
    ensures rows { (name : List ℕ) → key.now ≡ queue.Queue name →
        rows_in queues.new ≡ machine.at_queue name (spec.ended_rows which.now ok) (rows_in queues.old) }
    ensures next_place { queues.new.next_place ≡ queues.old.next_place }
{
    if let Some(index) = queues.index_of(key) {
        done_at(queues, index, which, ok);
    }
}

/// The same of what the queue with that index holds.
fn done_at(queues: &mut Queues, index: usize, which: &Consumers, ok: bool)
    requires { index < length queues.old.list }
    ensures rows { (name : List ℕ) → index_in queues.old.keys (queue.Queue name) ≡ Some index →
        rows_in queues.new ≡ machine.at_queue name (spec.ended_rows which.now ok) (rows_in queues.old) }
    ensures next_place { queues.new.next_place ≡ queues.old.next_place }
{
    if ok {
        queues.settle_at(index, which);
    } else {
        queues.give_back_at(index, which);
    }
}

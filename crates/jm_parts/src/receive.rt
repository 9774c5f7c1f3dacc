//! Delivers the next row under a key. A delivery is prepared first, which picks the row and makes the copy that it wants, and
//! then made, which takes that row by its place, and no memory.

ghost use Rattle.std.specs.Prelude.{◌≡◌, ◌<◌, Bool, ℕ, List, true, false, length, slice_index_or, IfSome, IfOk, IfErr, OnOk, OnErr, Some};
ghost use Rattle.std.specs.Option.{option_copied};
ghost use Rattle.jm_base.specs.declared.refusal.Refusal.TheVariants.{IllegalState};
ghost use Rattle.jm_header.specs.declared.content.Content.{Content};
ghost use Rattle.jm_machine.specs.Life.{mode_of};
ghost use Rattle.jm_dest.specs.declared.key.Key.TheVariants as queue;
ghost use Rattle.jm_machine.specs.Machine.{at_queue, consumer_of, key_at, may_receive, may_use, selected_by};
ghost use Rattle.jm_machine.specs.Rows.{deliver_chosen, settles_at_once};
ghost use Rattle.jm_stations.specs.Backlogs.{Backlog, IsPicked, answered, answered_where, changed_at};
ghost use Rattle.jm_stations.specs.Stations.{index_in};
ghost use Rattle.jm_parts.specs.Takings as spec;
ghost use Rattle.jm_queues.specs.Queues.{rows_in};
ghost use Rattle.jm_parts.specs.Takings.{IsMissed, IsPickedAt, IsTaken, IsTakenFrom, IsTold, source_of, taken_from, wants_copy, wants_copy_of};

use jm_base::{Mode, Refusal};
use jm_dest::{ConsumerId, Key, Moment, SessionId};
use jm_machine::{Answer, Consumer};
use jm_queues::queues::Queues;
use jm_session::Sessions;
use jm_stations::{Picked, Stations};
use std::alloc::AllocError;

/// Who receives, and when: a session in its mode, through its consumer, at a moment.
#[derive(Drop)]
pub struct Receiver {
    pub session: SessionId,
    pub mode: Mode,
    pub consumer: ConsumerId,
    pub moment: Moment,
}

/// A delivery that is to be made: the index of the key, and what was picked there.
#[derive(Drop)]
pub struct Taking {
    pub index: usize,
    pub picked: Option<Picked>,
}

/// Whether the mode settles a message in the step that delivers it.
pub fn settles(mode: Mode) -> bool
    ensures { result ≡ settles_at_once (Some mode) }
{
    match mode {
        Mode::Auto | Mode::Dups => true,
        Mode::Client | Mode::Transacted => false,
    }
}

/// The mode of the session and its consumer, which is none where the connection is stopped; or why it may not receive.
pub fn receiving<'a>(
    sessions: &'a Sessions,
    session: &SessionId,
    id: ConsumerId,
) -> Result<(Mode, Option<&'a Consumer>), Refusal>
    ensures ok { OnOk result (may_receive sessions.now.life sessions.now.consumers session.now id ≡ true) }
    ensures mode { IfOk result (λ x. mode_of sessions.now.life session.now ≡ Some x.0) }
    ensures source { IfOk result (λ x.
        option_copied x.1 ≡ source_of sessions.now.life sessions.now.consumers session.now id) }
    ensures illegal { IfErr result (λ refusal. refusal ≡ IllegalState) }
    ensures refused { OnErr result (may_receive sessions.now.life sessions.now.consumers session.now id ≡ false) }
{
    let Some(mode) = sessions.mode_of(session) else {
        return Err(Refusal::IllegalState);
    };
    match sessions.consumer_of(session, id) {
        Some(consumer) if consumer.is_active && !consumer.is_listening => {
            if sessions.is_started(session.connection) {
                Ok((mode, Some(consumer)))
            } else {
                Ok((mode, None))
            }
        }
        _ => Err(Refusal::IllegalState),
    }
}

/// Picks what a delivery takes of the rows under the key, where some stand there, with the copy that it wants.
pub fn prepare_delivery(
    stations: &Stations,
    key: &Key,
    receiver: &Receiver,
) -> Result<Option<Taking>, AllocError>
    ensures ok { IfOk result (λ taking. IsTaken (Some key.now) receiver.now stations.now.keys stations.now.list taking) }
    ensures within { IfOk result (λ taking. IfSome taking (λ x. x.index < length stations.now.list)) }
    ensures err { OnErr result (wants_copy (Some key.now) receiver.now stations.now.keys stations.now.list ≡ true) }
{
    match stations.index_of(key) {
        None => Ok(None),
        Some(index) => {
            let picked = stations.pick(index, receiver.moment, settles(receiver.mode))?;
            Ok(Some(Taking { index, picked }))
        }
    }
}

/// Delivers the next row, where there is one: it is settled where the receiver's mode settles at once, and else it is
/// out to the session.
pub fn make_delivery(stations: &mut Stations, receiver: &Receiver, taking: Option<Taking>) -> Answer
    requires within { IfSome taking (λ x. x.index < length stations.old.list) }
    requires picked { IfSome taking (IsPickedAt receiver.now stations.old.list) }
    ensures answer { IsTold taking receiver.now.moment stations.old.list result }
    ensures keys { stations.new.keys ≡ stations.old.keys }
    ensures list { stations.new.list ≡ taken_from taking receiver.now stations.old.list }
    ensures next_place { stations.new.next_place ≡ stations.old.next_place }
{
    let Some(Taking { index, picked }) = taking else {
        return Answer::Nothing;
    };
    deliver_from(stations, index, receiver, picked)
}

/// Delivers what was picked under the key with that index.
#[tactic(auto, unfolding(jm_machine::specs::Rows::left_of))]
fn deliver_from(
    stations: &mut Stations,
    index: usize,
    receiver: &Receiver,
    picked: Option<Picked>,
) -> Answer
    requires within { index < length stations.old.list }
    requires picked { IsPickedAt receiver.now stations.old.list (record { index = index; picked = picked }) }
    ensures answer { (d : Backlog) → result ≡ answered receiver.now.moment (slice_index_or stations.old.list index d).rows }
    ensures keys { stations.new.keys ≡ stations.old.keys }
    ensures list { stations.new.list ≡
        changed_at index (spec.with_delivery (spec.left_by receiver.now) receiver.now.moment) stations.old.list }
    ensures next_place { stations.new.next_place ≡ stations.old.next_place }
{
    if settles(receiver.mode) {
        return stations.receive(index, receiver.moment, picked);
    }
    stations.deliver(
        index,
        receiver.moment,
        picked,
        receiver.session,
        receiver.consumer,
    )
}

/// Picks what a delivery takes of the rows of the consumer's queue, where some stand there: the next one that its selector
/// selects, with the copy that it wants. The selector is asked here, and not again.
pub fn prepare_delivery_from(
    queues: &Queues,
    source: &Consumer,
    receiver: &Receiver,
) -> Result<Option<Taking>, AllocError>
    ensures ok { (name : List ℕ) → source.now.key ≡ queue.Queue name →
        IfOk result (λ taking. IsTakenFrom name (selected_by (Some source.now)) receiver.now queues.now taking) }
    ensures err { (name : List ℕ) → source.now.key ≡ queue.Queue name →
        OnErr result (wants_copy_of (selected_by (Some source.now)) receiver.now (rows_in queues.now name) ≡ true) }
{
    match queues.index_of(&source.key) {
        None => Ok(None),
        Some(index) => {
            let at_once = settles(receiver.mode);
            let picked = queues.pick(index, receiver.moment, at_once, &source.selector)?;
            Ok(Some(Taking { index, picked }))
        }
    }
}

/// Delivers what was picked from the queue, of the rows whose messages pass, as `make_delivery` does.
pub fn make_delivery_from(
    queues: &mut Queues,
    receiver: &Receiver,
    taking: Option<Taking>,
) -> Answer
    requires { (name : List ℕ) × (p : Content → Bool) × IsTakenFrom name p receiver.now queues.old taking }
    ensures answer { (name : List ℕ) (p : Content → Bool) → IsTakenFrom name p receiver.now queues.old taking →
        result ≡ answered_where p receiver.now.moment (rows_in queues.old name) }
    ensures rows { (name : List ℕ) (p : Content → Bool) → IsTakenFrom name p receiver.now queues.old taking →
        rows_in queues.new ≡ at_queue name
        (deliver_chosen p receiver.now.moment (spec.left_by receiver.now)) (rows_in queues.old) }
    ensures next_place { queues.new.next_place ≡ queues.old.next_place }
{
    let Some(Taking { index, picked }) = taking else {
        return Answer::Nothing;
    };
    take_from(queues, index, receiver, picked)
}

/// Delivers what was picked from the queue with that index.
#[tactic(auto, unfolding(jm_machine::specs::Rows::left_of))]
fn take_from(
    queues: &mut Queues,
    index: usize,
    receiver: &Receiver,
    picked: Option<Picked>,
) -> Answer
    requires within { index < length queues.old.list }
    requires picked { (p : Content → Bool) × IsPicked p (spec.settles receiver.now) receiver.now.moment queues.old.list index picked }
    ensures answer { (name : List ℕ) (p : Content → Bool) → index_in queues.old.keys (queue.Queue name) ≡ Some index →
        IsPicked p (spec.settles receiver.now) receiver.now.moment queues.old.list index picked →
        result ≡ answered_where p receiver.now.moment (rows_in queues.old name) }
    ensures rows { (name : List ℕ) (p : Content → Bool) → index_in queues.old.keys (queue.Queue name) ≡ Some index →
        IsPicked p (spec.settles receiver.now) receiver.now.moment queues.old.list index picked →
        rows_in queues.new ≡ at_queue name (deliver_chosen p receiver.now.moment (spec.left_by receiver.now)) (rows_in queues.old) }
    ensures next_place { queues.new.next_place ≡ queues.old.next_place }
{
    if settles(receiver.mode) {
        return queues.receive(index, receiver.moment, picked);
    }
    queues.deliver(
        index,
        receiver.moment,
        picked,
        receiver.session,
        receiver.consumer,
    )
}

/// The key that the consumer receives from, whether its connection is started or not; or why it may not be used.
pub fn missed_key<'a>(
    sessions: &'a Sessions,
    session: &SessionId,
    id: ConsumerId,
) -> Result<&'a Key, Refusal>
    ensures ok { OnOk result (may_use sessions.now.life sessions.now.consumers session.now id ≡ true) }
    ensures key { IfOk result (λ key. key_at (consumer_of sessions.now.consumers session.now id) ≡ Some key.now) }
    ensures illegal { IfErr result (λ refusal. refusal ≡ IllegalState) }
    ensures refused { OnErr result (may_use sessions.now.life sessions.now.consumers session.now id ≡ false) }
{
    if !sessions.may_use(session, id) {
        return Err(Refusal::IllegalState);
    }
    match sessions.consumer_of(session, id) {
        Some(consumer) => Ok(&consumer.key),
        None => Err(Refusal::IllegalState),
    }
}

/// How many publications were missed under the key; none where nothing stands there.
pub fn missed_under(stations: &Stations, key: &Key) -> u64
    ensures { IsMissed (index_in stations.now.keys key.now) stations.now.list result }
{
    match stations.index_of(key) {
        None => 0,
        Some(index) => stations.missed(index),
    }
}

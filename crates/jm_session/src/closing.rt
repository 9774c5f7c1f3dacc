//! What is closed stays known: it is marked where it stands, and stands no more among the numbers of what is open.

ghost use Rattle.std.specs.Prelude.{◌≡◌, ◌≤◌, ◌==◌, false, map};
ghost use Rattle.indexmap.specs.IndexMap.{spare, values};
ghost use Rattle.jm_dest.specs.Names.{session_eq};
ghost use Rattle.jm_machine.specs.Attached.{AreCounted};
ghost use Rattle.jm_machine.specs.Life as life;
ghost use Rattle.jm_machine.specs.Machine as machine;
ghost use Rattle.jm_session.specs.Numbers.{IsNumbered, number_of};
ghost use Rattle.jm_session.specs.Opened.{AreActive, AreOpen};
ghost use Rattle.jm_session.specs.Sources.{IsFollowed};

use crate::number::ConsumerNumber;
use crate::sections::SessionsOf;
use indexmap::IndexMap;
use jm_dest::{ConnectionId, SessionId};
use jm_indexed::KeySet;
use jm_machine::{Attached, Consumer, Consumers, SessionState, is_named};

/// Closes the consumer, which is counted no more.
fn close(consumer: &mut Consumer, attached: &mut Attached)
    ensures consumer { consumer.new ≡ machine.shut consumer.old }
    ensures counted { IsFollowed consumer.old consumer.new attached.old attached.new }
    ensures counts_spare { attached.old.spare ≤ attached.new.spare }
{
    if consumer.is_active && is_named(&consumer.key) {
        attached.leave(&consumer.key);
    }
    consumer.close();
}

/// Marks the consumer of that number as closed, where it was made; it is counted no more.
fn mark_closed(
    consumers: &mut IndexMap<ConsumerNumber, Consumer>,
    attached: &mut Attached,
    number: ConsumerNumber,
)
    requires numbered { IsNumbered number_of consumers.old.entries }
    requires counted { AreCounted (values consumers.old) attached.old }
    ensures values { values consumers.new ≡ map (machine.closed_consumer (machine.of_number number.session number.consumer)) (values consumers.old) }
    ensures numbered { IsNumbered number_of consumers.new.entries }
    ensures counted { AreCounted (values consumers.new) attached.new }
    ensures spare { spare consumers.old ≤ spare consumers.new }
    ensures counts_spare { attached.old.spare ≤ attached.new.spare }
{
    if let Some(at) = consumers.get_index_of(&number) {
        close(&mut consumers[at], attached);
    }
}

/// Closes the consumers that are meant, which are counted no more. No other is looked at.
pub(crate) fn close_consumers(
    consumers: &mut IndexMap<ConsumerNumber, Consumer>,
    active: &mut KeySet<ConsumerNumber>,
    attached: &mut Attached,
    which: &Consumers,
)
    requires numbered { IsNumbered number_of consumers.old.entries }
    requires counted { AreCounted (values consumers.old) attached.old }
    requires active { AreActive (values consumers.old) active.old }
    ensures values { values consumers.new ≡ map (machine.closed_consumer (machine.are_meant which.now)) (values consumers.old) }
    ensures numbered { IsNumbered number_of consumers.new.entries }
    ensures counted { AreCounted (values consumers.new) attached.new }
    ensures active { AreActive (values consumers.new) active.new }
    ensures spare { spare consumers.old ≤ spare consumers.new }
    ensures active_spare { active.old.spare ≤ active.new.spare }
    ensures counts_spare { attached.old.spare ≤ attached.new.spare }
{
    let mut guess = 0;
    while let Some(index) = active.index_in(which, &mut guess) {
        // The length is what says that each number stands once.
        let _length = active.len();
        let number = *active.key_at(index);
        active.remove(index);
        mark_closed(consumers, attached, number);
    }
}

/// Closes the consumer of that number, where it was made; it is counted no more.
pub(crate) fn close_consumer(
    consumers: &mut IndexMap<ConsumerNumber, Consumer>,
    active: &mut KeySet<ConsumerNumber>,
    attached: &mut Attached,
    number: ConsumerNumber,
)
    requires numbered { IsNumbered number_of consumers.old.entries }
    requires counted { AreCounted (values consumers.old) attached.old }
    requires active { AreActive (values consumers.old) active.old }
    ensures values { values consumers.new ≡ map (machine.closed_consumer (machine.of_number number.session number.consumer)) (values consumers.old) }
    ensures numbered { IsNumbered number_of consumers.new.entries }
    ensures counted { AreCounted (values consumers.new) attached.new }
    ensures active { AreActive (values consumers.new) active.new }
    ensures spare { spare consumers.old ≤ spare consumers.new }
    ensures active_spare { active.old.spare ≤ active.new.spare }
    ensures counts_spare { attached.old.spare ≤ attached.new.spare }
{
    mark_closed(consumers, attached, number);
    // The length is what says that each number stands once.
    let _length = active.len();
    if let Some(index) = active.index_of(&number) {
        active.remove(index);
    }
}

/// Marks the session of that number as closed, where it was opened.
fn mark_session_closed(sessions: &mut IndexMap<SessionId, SessionState>, id: &SessionId)
    requires { IsNumbered (λ x. x.id) sessions.old.entries }
    ensures values { values sessions.new ≡ map (life.closed_where (λ t. session_eq t id.now)) (values sessions.old) }
    ensures numbered { IsNumbered (λ x. x.id) sessions.new.entries }
    ensures spare { spare sessions.old ≤ spare sessions.new }
{
    if let Some(at) = sessions.get_index_of(id) {
        sessions[at].is_open = false;
    }
}

/// Closes the sessions of the connection. No other is looked at.
pub(crate) fn close_sessions(
    sessions: &mut IndexMap<SessionId, SessionState>,
    opened: &mut KeySet<SessionId>,
    connection: ConnectionId,
)
    requires numbered { IsNumbered (λ x. x.id) sessions.old.entries }
    requires opened { AreOpen (values sessions.old) opened.old }
    ensures values { values sessions.new ≡ map (life.closed_where (λ s. s.connection == connection)) (values sessions.old) }
    ensures numbered { IsNumbered (λ x. x.id) sessions.new.entries }
    ensures opened { AreOpen (values sessions.new) opened.new }
    ensures spare { spare sessions.old ≤ spare sessions.new }
    ensures opened_spare { opened.old.spare ≤ opened.new.spare }
{
    let section = SessionsOf { connection };
    let mut guess = 0;
    while let Some(index) = opened.index_in(&section, &mut guess) {
        // The length is what says that each number stands once.
        let _length = opened.len();
        let id = *opened.key_at(index);
        opened.remove(index);
        mark_session_closed(sessions, &id);
    }
}

/// Closes the session of that number, where it was opened.
pub(crate) fn close_session(
    sessions: &mut IndexMap<SessionId, SessionState>,
    opened: &mut KeySet<SessionId>,
    id: &SessionId,
)
    requires numbered { IsNumbered (λ x. x.id) sessions.old.entries }
    requires opened { AreOpen (values sessions.old) opened.old }
    ensures values { values sessions.new ≡ map (life.closed_where (λ t. session_eq t id.now)) (values sessions.old) }
    ensures numbered { IsNumbered (λ x. x.id) sessions.new.entries }
    ensures opened { AreOpen (values sessions.new) opened.new }
    ensures spare { spare sessions.old ≤ spare sessions.new }
    ensures opened_spare { opened.old.spare ≤ opened.new.spare }
{
    mark_session_closed(sessions, id);
    // The length is what says that each number stands once.
    let _length = opened.len();
    if let Some(index) = opened.index_of(id) {
        opened.remove(index);
    }
}

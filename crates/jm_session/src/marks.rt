//! A consumer is marked where it stands: that it listens, or that it is busy.

ghost use Rattle.std.specs.Prelude.{◌≡◌, ◌≤◌};
ghost use Rattle.indexmap.specs.IndexMap.{spare, values};
ghost use Rattle.jm_indexed.specs.Keys.{Keys};
ghost use Rattle.jm_machine.specs.Attached.{AreCounted, Counts};
ghost use Rattle.jm_machine.specs.Machine as machine;
ghost use Rattle.jm_session.specs.Numbers.{IsChanged, number_of};
ghost use Rattle.jm_session.specs.declared.number.ConsumerNumber.{ConsumerNumber};
ghost use Rattle.jm_session.specs.Opened.{AreActive};

use crate::number::ConsumerNumber;
use indexmap::IndexMap;
use jm_machine::Consumer;

/// The consumer of that number, where it was made, has that mark of its listener.
pub(crate) fn mark_listening(
    consumers: &mut IndexMap<ConsumerNumber, Consumer>,
    number: ConsumerNumber,
    on: bool,
)
    ensures entries { IsChanged number_of (machine.listening_if number.session number.consumer on) consumers.old.entries consumers.new.entries }
    ensures counted { (counts : Counts) → AreCounted (values consumers.old) counts → AreCounted (values consumers.new) counts }
    ensures active { (active : Keys ConsumerNumber) → AreActive (values consumers.old) active → AreActive (values consumers.new) active }
    ensures spare { spare consumers.old ≤ spare consumers.new }
{
    if let Some(at) = consumers.get_index_of(&number) {
        consumers[at].is_listening = on;
    }
}

/// The consumer of that number, where it was made, is busy, or not.
pub(crate) fn mark_busy(
    consumers: &mut IndexMap<ConsumerNumber, Consumer>,
    number: ConsumerNumber,
    on: bool,
)
    ensures entries { IsChanged number_of (machine.busy_if number.session number.consumer on) consumers.old.entries consumers.new.entries }
    ensures counted { (counts : Counts) → AreCounted (values consumers.old) counts → AreCounted (values consumers.new) counts }
    ensures active { (active : Keys ConsumerNumber) → AreActive (values consumers.old) active → AreActive (values consumers.new) active }
    ensures spare { spare consumers.old ≤ spare consumers.new }
{
    if let Some(at) = consumers.get_index_of(&number) {
        consumers[at].is_busy = on;
    }
}

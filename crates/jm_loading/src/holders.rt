//! Who holds a message.

ghost use Rattle.std.specs.Prelude.{◌≡◌, ◌≤◌, true, Decides, IsTrue, IfOk};
ghost use Rattle.jm_parts.specs.Stored.{admits, queue_admits};
ghost use Rattle.jm_machine.specs.Rows.{greatest_count};
ghost use Rattle.jm_loading.specs.Holding.{EndsBefore, IsHeldInQueue, IsHeldUnder, end_of};
ghost use Rattle.jm_loading.specs.Messages.{IsUnheld};

use jm_core::{Definition, Holders, StoredMessage, StoredRow, admits, queue_admits};
use jm_dest::Name;
use std::alloc::AllocError;

/// The greatest count of deliveries.
const GREATEST_COUNT: u32 = 2_147_483_647;

/// Whether all rows are under subscriptions before that one. They stand by the indexes of their subscriptions.
fn are_before(rows: &[StoredRow], index: usize) -> bool
    ensures { Decides result (end_of 0 rows.now ≤ index) }
{
    match rows.last() {
        None => true,
        Some(row) => row.index < index,
    }
}

/// The message is held in the queue, after so many deliveries. False, and nothing changes, where the queue may not hold it,
/// somebody holds it already, or the count is above 2,147,483,647. Takes no memory.
pub(crate) fn hold_in_queue(message: &mut StoredMessage, name: &Name, count: u32) -> bool
    ensures held { IsTrue result → IsHeldInQueue name.now count message.old message.new }
    ensures fits { queue_admits name.now message.old.message ≡ true → count ≤ greatest_count → IsUnheld message.old.holders → IsTrue result }
{
    if count > GREATEST_COUNT || !queue_admits(name, &message.message) {
        return false;
    }
    match &message.holders {
        Holders::Subscriptions(rows) if rows.is_empty() => {}
        _ => return false,
    }
    message.holders = Holders::Queue(count);
    true
}

/// The message is held under the subscription that asks for that. False, and nothing changes, where the subscription may not hold
/// it, it or one behind it holds it already, a queue does, or the count is above 2,147,483,647.
pub(crate) fn hold_under(
    message: &mut StoredMessage,
    definition: &Definition,
    row: StoredRow,
) -> Result<bool, AllocError>
    ensures held { IfOk result (λ is. IsTrue is → IsHeldUnder definition.now row message.old message.new) }
    ensures fits { IfOk result (λ is. admits definition.now message.old.message ≡ true → row.count ≤ greatest_count → EndsBefore row.index message.old.holders → IsTrue is) }
{
    if row.count > GREATEST_COUNT || !admits(definition, &message.message) {
        return Ok(false);
    }
    let Holders::Subscriptions(rows) = &mut message.holders else {
        return Ok(false);
    };
    if !are_before(rows, row.index) {
        return Ok(false);
    }
    rows.push(row)?;
    Ok(true)
}

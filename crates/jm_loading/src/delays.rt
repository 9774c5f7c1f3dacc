//! The rows of delayed, and what no message may lack.

ghost use Rattle.std.specs.Prelude.{◌≡◌, ◌+◌, ◌<◌, ℕ, All, length, slice_index_or, Decides, IsTrue, OnOk, IfErr};
ghost use Rattle.jm_parts.specs.declared.stored.StoredMessage.{StoredMessage as Stored};
ghost use Rattle.jm_parts.specs.Stored.{ArePlaced};
ghost use Rattle.jm_decoding.specs.declared.delay.DelayRow.{DelayRow as Delay};
ghost use Rattle.jm_reopened.specs.Given.{AreSome};
ghost use Rattle.jm_loading.specs.Delays.{HasItsDelay, IsDelay, IsDueAt, IsHeldInTime};
ghost use Rattle.std.specs.List.Sorted.{IsStrictlySortedBy};
ghost use Rattle.jm_loading.specs.Faults.{IsFaultAt};
ghost use Rattle.jm_loading.specs.Fitting.{delay_cmp};
ghost use Rattle.jm_loading.specs.Unfit.{AreFit, IsFirstUnfit, IsFirstWithout, IsNext};

use crate::messages::message_at;
use crate::order::is_behind;
use jm_core::{Holders, StoredMessage};
use jm_decoding::DelayRow;
use jm_dest::Moment;
use jm_header::Message;
use jm_opening::{OpenFault, TableName};

/// Whether the message is delayed, and becomes due then.
fn is_due(message: &Message, due: Moment) -> bool
    ensures { Decides result (IsDueAt message.now due) }
{
    message.is_delayed() && message.delivery_time() == due
}

/// Whether the message of the row stands, is delayed, and becomes due then.
fn is_delay(messages: &[StoredMessage], delay: DelayRow) -> bool
    requires { ArePlaced 1 messages.now }
    ensures { Decides result (IsDelay messages.now delay) }
{
    match message_at(messages, delay.place) {
        Some(at) => is_due(&messages[at].message, delay.due),
        None => false,
    }
}

/// Whether the row with that index stands behind the one before, and its message stands, is delayed, and becomes due then.
fn fits(messages: &[StoredMessage], delays: &[DelayRow], at: usize) -> bool
    requires within { at < length delays.now }
    requires placed { ArePlaced 1 messages.now }
    ensures { Decides result (IsNext delay_cmp (IsDelay messages.now) delays.now at) }
{
    is_behind(delays, at) && is_delay(messages, delays[at])
}

/// Tests the rows of delayed, whose places rise. Damaged at the first whose place does not, or whose message does not stand, is
/// not delayed, or becomes due at another moment.
pub(crate) fn check_delays(messages: &[StoredMessage], delays: &[DelayRow]) -> Result<(), OpenFault>
    requires { ArePlaced 1 messages.now }
    ensures ok { OnOk result (AreFit delay_cmp (IsDelay messages.now) delays.now (length delays.now)) }
    ensures err { IfErr result (IsFaultAt TableName.Delayed (IsFirstUnfit delay_cmp (IsDelay messages.now) delays.now)) }
{
    for at in 0..delays.len() {
        if !fits(messages, delays, at) {
            return Err(OpenFault::Damaged(TableName::Delayed, at as u64));
        }
    }
    Ok(())
}

/// Whether somebody holds the message.
fn is_held(message: &StoredMessage) -> bool
    ensures { Decides result (AreSome message.now.holders) }
{
    match &message.holders {
        Holders::Queue(_) => true,
        Holders::Subscriptions(rows) => !rows.is_empty(),
    }
}

/// Whether the message is not delayed, or has a row of delayed.
fn has_delay(message: &StoredMessage, delays: &[DelayRow]) -> bool
    requires { IsStrictlySortedBy delay_cmp delays.now }
    ensures { Decides result (HasItsDelay delays.now message.now) }
{
    !message.message.is_delayed()
        || delays
            .binary_search_by_key(&message.place, |delay| delay.place)
            .is_ok()
}

/// Whether somebody holds the message, and it is not delayed or has a row of delayed.
fn is_kept(message: &StoredMessage, delays: &[DelayRow]) -> bool
    requires { IsStrictlySortedBy delay_cmp delays.now }
    ensures { Decides result (IsHeldInTime delays.now message.now) }
{
    is_held(message) && has_delay(message, delays)
}

/// Tests that somebody holds each message, and that each delayed one has its row of delayed. Damaged at the first of which that
/// is not so.
pub(crate) fn check_kept(messages: &[StoredMessage], delays: &[DelayRow]) -> Result<(), OpenFault>
    requires { IsStrictlySortedBy delay_cmp delays.now }
    ensures ok { OnOk result (All (IsHeldInTime delays.now) messages.now) }
    ensures err { IfErr result (IsFaultAt TableName.Message (IsFirstWithout (IsHeldInTime delays.now) messages.now)) }
{
    for (at, message) in messages.iter().enumerate() {
        if !is_kept(message, delays) {
            return Err(OpenFault::Damaged(TableName::Message, at as u64));
        }
    }
    Ok(())
}

//! The messages, by place.

ghost use Rattle.std.specs.Prelude.{◌≡◌, ◌<◌, ◌≤◌, ℕ, None, All, slice_index_or, length, Decides, IfOk, IfErr, IfSome, OnOk};
ghost use Rattle.jm_parts.specs.declared.stored.StoredMessage.{StoredMessage as Stored};
ghost use Rattle.jm_parts.specs.Stored.{ArePlaced};
ghost use Rattle.jm_machine.specs.Machine.{places_end};
ghost use Rattle.jm_loading.specs.Faults.{IsFaultAt};
ghost use Rattle.jm_loading.specs.Fitting.{FitMessages, IsPlaced, message_cmp};
ghost use Rattle.jm_loading.specs.Messages.{ArePairs, ArePlacedAs, IsUnheld};
ghost use Rattle.jm_loading.specs.Unfit.{IsFirstUnfit, IsNext};

use crate::order::is_behind;
use jm_core::{Holders, StoredMessage};
use jm_decoding::MessageRow;
use jm_opening::{OpenFault, TableName};
use std::alloc::{AllocError, Global};

/// The end of the places.
const PLACES_END: u64 = 9_223_372_036_854_775_808;

/// The message of the row, which nobody holds yet.
fn unheld(alloc: Global, row: MessageRow) -> StoredMessage
    ensures place { result.place ≡ row.place }
    ensures message { result.message ≡ row.message }
    ensures unheld { IsUnheld result.holders }
{
    let MessageRow { place, message } = row;
    StoredMessage {
        place,
        message,
        holders: Holders::Subscriptions(Vec::new(alloc)),
    }
}

/// Whether the number is that of a place: from 1 to 9,223,372,036,854,775,807.
fn is_place(place: u64) -> bool
    ensures { Decides result ((1 ≤ place) × (place < places_end)) }
{
    place >= 1 && place < PLACES_END
}

/// Whether the row with that index stands behind the one before, at a place.
fn fits(rows: &[MessageRow], at: usize) -> bool
    requires { at < length rows.now }
    ensures { Decides result (IsNext message_cmp IsPlaced rows.now at) }
{
    is_behind(rows, at) && is_place(rows[at].place)
}

/// Tests that the places rise, and that each is one. Damaged at the first of which that is not so.
fn check(rows: &[MessageRow]) -> Result<(), OpenFault>
    ensures fit { OnOk result (FitMessages rows.now) }
    ensures err { IfErr result (IsFaultAt TableName.Message (IsFirstUnfit message_cmp IsPlaced rows.now)) }
{
    for at in 0..rows.len() {
        if !fits(rows, at) {
            return Err(OpenFault::Damaged(TableName::Message, at as u64));
        }
    }
    Ok(())
}

/// The messages of the rows, in their order, which nobody holds yet.
fn all_unheld(alloc: Global, rows: Vec<MessageRow>) -> Result<Vec<StoredMessage>, AllocError>
    ensures pairs { IfOk result (λ messages. ArePairs rows.items messages.items) }
    ensures unheld { IfOk result (λ messages. All (λ (m : Stored). IsUnheld m.holders) messages.items) }
{
    let mut messages = Vec::new(alloc);
    for row in rows {
        messages.push(unheld(alloc, row)).map_err(AllocError::from)?;
    }
    Ok(messages)
}

/// The messages of the rows, which nobody holds yet. Damaged at the first whose place is not from 1 to 9,223,372,036,854,775,807,
/// or not above that of the row before.
pub(crate) fn messages_of(
    alloc: Global,
    rows: Vec<MessageRow>,
) -> Result<Vec<StoredMessage>, OpenFault>
    ensures ok { IfOk result (λ messages. ArePlacedAs rows.items messages.items) }
    ensures fit { OnOk result (FitMessages rows.items) }
    ensures err { IfErr result (IsFaultAt TableName.Message (IsFirstUnfit message_cmp IsPlaced rows.items)) }
{
    check(&rows)?;
    Ok(all_unheld(alloc, rows)?)
}

/// Where the message at the place stands among messages by place; none where there is none.
pub(crate) fn message_at(messages: &[StoredMessage], place: u64) -> Option<usize>
    ensures within { IfSome result (λ at. at < length messages.now) }
    ensures there { IfSome result (λ at. (d : Stored) → (slice_index_or messages.now at d).place ≡ place) }
    ensures none { ArePlaced 1 messages.now → result ≡ None → (k : ℕ) (d : Stored) → k < length messages.now → ¬ ((slice_index_or messages.now k d).place ≡ place) }
{
    messages
        .binary_search_by_key(&place, |message| message.place)
        .ok()
}

//! Rows of station.

ghost use Rattle.std.specs.Prelude.{◌≡◌, [], pos, if◌then◌else◌, not, Some, None, OnOk, IfOk, IfErr};
ghost use Rattle.jm_dest.specs.Names.{text_eq};
ghost use Rattle.jm_machine.specs.Reopened.{is_durable};
ghost use Rattle.sqlite_value.specs.declared.value.Value.TheVariants as value;
ghost use Rattle.sqlite_value.specs.Order.{bytes, column};
ghost use Rattle.jm_tables.specs.Keys as spec;
ghost use Rattle.jm_tables.specs.Rows.{definition_in, selector_in};
ghost use Rattle.jm_decoding.specs.declared.fault.RowFault.TheVariants.{Damaged};
ghost use Rattle.jm_decoding.specs.Asked.{AsksNothing, IsMarkIn, IsNameIn, IsSelectorIn, MayAsk};
ghost use Rattle.jm_decoding.specs.Decoded.{IsStationOf, IsFaultOfRow};
ghost use Rattle.jm_decoding.specs.Readable.{IsReadableKey, IsReadableStation};

use crate::columns::{number_at, text_at};
use crate::fault::RowFault;
use crate::key::key_of;
use jm_base::Str;
use jm_dest::{Key, Name};
use jm_machine::Definition;
use jm_selector::Selector;
use sqlite::Row;
use std::alloc::Global;

/// What a row of station stands for.
#[derive(Debug, Drop)]
pub struct StationRow {
    /// A queue or a durable subscription.
    pub key: Key,
    /// What the durable subscription asks for; none for a queue.
    pub definition: Option<Definition>,
}

/// Whether the mark in the column is set. `Damaged` exactly where it is neither 0 nor 1. Takes no memory.
fn mark_at(row: &Row, at: usize) -> Result<bool, RowFault>
    ensures ok { IfOk result (λ mark. column row.now at ≡ value.Int (pos (if mark then 1 else 0))) }
    ensures err { IfErr result (λ fault. (fault ≡ Damaged) × ¬ IsMarkIn (column row.now at)) }
{
    match number_at(row, at)? {
        0 => Ok(false),
        1 => Ok(true),
        _ => Err(RowFault::Damaged),
    }
}

/// The name in the column. `Damaged` where it has none; else `Memory` where a request for memory was refused.
fn name_at(alloc: Global, row: &Row, at: usize) -> Result<Name, RowFault>
    ensures ok { IfOk result (λ name. column row.now at ≡ value.Text name) }
    ensures valid { OnOk result (IsNameIn (column row.now at)) }
    ensures err { IfErr result (IsFaultOfRow (IsNameIn (column row.now at))) }
{
    Ok(Name::new(alloc, text_at(row, at)?)?)
}

/// The selector in the column; none where its text holds no token. `Damaged` where it has none that is not refused; `Memory`
/// where a request for memory was refused, which may come in place of it.
fn selector_at(alloc: Global, row: &Row, at: usize) -> Result<Selector, RowFault>
    ensures ok { IfOk result (λ selector. selector ≡ selector_in (bytes (column row.now at))) }
    ensures valid { OnOk result (IsSelectorIn (column row.now at)) }
    ensures err { IfErr result (IsFaultOfRow (IsSelectorIn (column row.now at))) }
{
    let text = String::from_str(alloc, text_at(row, at)?)?;
    Ok(Selector::read(alloc, &Some(Str::new(text)))?)
}

/// Sees that the row asks for nothing. `Damaged` exactly where it asks for something. Takes no memory.
#[tactic(auto, using(crate::proofs::Asking::nothing_topic, crate::proofs::Asking::nothing_selector))]
fn ask_nothing(row: &Row) -> Result<(), RowFault>
    ensures ok { OnOk result (AsksNothing row.now) }
    ensures err { IfErr result (λ fault. (fault ≡ Damaged) × ¬ AsksNothing row.now) }
{
    let is_unmarked = number_at(row, 4)? == 0 && number_at(row, 7)? == 0;
    if is_unmarked && text_at(row, 5)?.is_empty() && text_at(row, 6)?.is_empty() {
        return Ok(());
    }
    Err(RowFault::Damaged)
}

/// What the row asks for, as a durable subscription that has a client or none. `Damaged` where it asks for what it may not;
/// `Memory` where a request for memory was refused, which may come in place of it.
fn asked_by(alloc: Global, row: &Row, has_client: bool) -> Result<Definition, RowFault>
    requires { has_client ≡ not (text_eq (bytes (column row.now 2)) []) }
    ensures ok { IfOk result (λ definition. definition ≡ definition_in row.now) }
    ensures valid { OnOk result (MayAsk row.now) }
    ensures err { IfErr result (IsFaultOfRow (MayAsk row.now)) }
{
    let shared = mark_at(row, 4)?;
    let no_local = mark_at(row, 7)?;
    if shared && no_local || !shared && !has_client {
        return Err(RowFault::Damaged);
    }
    let topic = name_at(alloc, row, 5)?;
    let selector = selector_at(alloc, row, 6)?;
    Ok(Definition {
        topic,
        selector,
        no_local,
        shared,
    })
}

/// What the row of that key asks for, if it is that of a durable subscription. `Damaged` where it asks for what it may not;
/// `Memory` where a request for memory was refused, which may come in place of it.
#[tactic(auto, using(crate::proofs::Asking::asked_of_queue))]
fn definition_of(alloc: Global, row: &Row, key: &Key) -> Result<Option<Definition>, RowFault>
    requires key { spec.key_of row.now ≡ Some key.now }
    requires readable { IsReadableKey row.now }
    ensures ok { IfOk result (λ definition. definition ≡ (if is_durable key.now then Some (definition_in row.now) else None)) }
    ensures valid { OnOk result (IsReadableStation row.now) }
    ensures err { IfErr result (IsFaultOfRow (IsReadableStation row.now)) }
{
    match key {
        Key::Durable(client, _) => Ok(Some(asked_by(alloc, row, client.is_some())?)),
        _ => {
            ask_nothing(row)?;
            Ok(None)
        }
    }
}

/// What the row stands for, which has the columns of station at their indexes in the tree of the table (ours): family, client,
/// name, shared, topic, selector and no_local from 1 to 7. `Damaged` where a column is not of its kind, or the row is that of no
/// queue and of no durable subscription: a queue has the family 1 and a name, its client, topic and selector are empty, its
/// shared and no_local 0; a durable subscription has the family 2, a name, a topic, a client that is empty or a name, a selector
/// that is not refused, and as shared and no_local 0 or 1; an unshared one has a client, and a shared one no noLocal. `Memory`
/// where a request for memory was refused, which may come in place of a damage that was not found yet.
#[tactic(auto, using(crate::proofs::Asking::key_of_station))]
pub fn station_of(alloc: Global, row: &Row) -> Result<StationRow, RowFault>
    ensures ok { IfOk result (IsStationOf row.now) }
    ensures err { IfErr result (IsFaultOfRow (IsReadableStation row.now)) }
{
    let key = key_of(alloc, row)?;
    let definition = definition_of(alloc, row, &key)?;
    Ok(StationRow { key, definition })
}

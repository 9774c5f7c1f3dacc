//! What it changes of what is stored that a durable subscription is deleted, and that one is put.

ghost use Rattle.std.specs.Prelude.{◌≡◌, ◌∷◌, [], ℕ, Some, None, is_some, true, false, IfOk, OnOk, if◌then◌else◌};
ghost use Rattle.jm_machine.specs.Machine.{definition_of, station_of};
ghost use Rattle.jm_keep.specs.declared.change.RowChange.TheVariants.{DropStation, PutStation};
ghost use Rattle.jm_keep.specs.Calls.{DropsThen};
ghost use Rattle.jm_keep.specs.Persisted.{is_lasting as lasts};
ghost use Rattle.jm_keep.specs.Steps.{AreGone, StandsInOrder, all_under};
ghost use Rattle.jm_changes.specs.Subscriptions.{ArePut};

use crate::going::Going;
use crate::lost::Lost;
use crate::planned::{Planned, Which};
use jm_dest::Key;
use jm_keep::RowChange;
use jm_machine::Definition;
use std::alloc::{AllocError, Global};

/// The stored rows under the key, and the messages that go with them.
fn lost_under<P: Planned>(alloc: Global, planned: &P, key: &Key) -> Result<Lost, AllocError>
    requires { StandsInOrder (P.state planned.now) }
    ensures { lasts key.now ≡ true → IfOk result (λ lost. AreGone (all_under key.now) (P.state planned.now) lost.rows.items lost.delays.items lost.gone.items) }
{
    let mut lost = Lost::new(alloc);
    if let Some(index) = planned.index_of(key) {
        lost.add_where(planned, index, &Which::All, &Going::Under(index))?;
    }
    Ok(lost)
}

/// What it changes that the durable subscription of the key is deleted: its rows go, and then it.
pub(crate) fn deleted<P: Planned>(
    alloc: Global,
    planned: &P,
    key: &Key,
) -> Result<Vec<RowChange>, AllocError>
    requires { StandsInOrder (P.state planned.now) }
    ensures { lasts key.now ≡ true → IfOk result (λ changes. DropsThen (all_under key.now) (P.state planned.now) (DropStation key.now ∷ []) changes.items) }
{
    let mut changes = lost_under(alloc, planned, key)?.into_changes()?;
    changes.push(RowChange::DropStation { key: key.copy()? })?;
    Ok(changes)
}

/// What it changes that a durable subscription of the key is put that asks for that: any other goes first.
pub(crate) fn put<P: Planned>(
    alloc: Global,
    planned: &P,
    key: &Key,
    definition: &Definition,
) -> Result<Vec<RowChange>, AllocError>
    requires { StandsInOrder (P.state planned.now) }
    ensures { lasts key.now ≡ true → IfOk result (λ changes. ArePut (is_some (definition_of (station_of key.now (P.state planned.now).stations))) key.now definition.now (P.state planned.now) changes.items) }
{
    let mut changes = match planned.definition_of(key) {
        Some(_) => deleted(alloc, planned, key)?,
        None => Vec::new(alloc),
    };
    let definition = Some(definition.copy()?);
    let key = key.copy()?;
    changes.push(RowChange::PutStation { key, definition })?;
    Ok(changes)
}

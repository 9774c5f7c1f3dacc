//! What is done to the database in the transaction of an opening.

ghost use Rattle.std.specs.Prelude.{◌≡◌, false, pos, [], ◌∷◌, IsTrue, OnOk};
ghost use Rattle.std.specs.List.{AllByRecursion};
ghost use Rattle.sqlite.specs.State.{ExecutesInside, HasCleanDisk, KeepsCommit, Survives};
ghost use Rattle.sqlite.specs.Values.{bound};
ghost use Rattle.sqlite.specs.Held.{state};
ghost use Rattle.jm_tables.specs.Schema as tables;
ghost use Rattle.jm_tables.specs.Schema.{meta_tree, no_schema, schema_1_bare, schema_1};
ghost use Rattle.sqlite_trees.specs.Tree.{rowid};
ghost use Rattle.sqlite_value.specs.declared.value.Value.TheVariants.{Int};
ghost use Rattle.sqlite_value.specs.Order.{Row};
ghost use Rattle.jm_opening.specs.Meta.{meta_row};
ghost use Rattle.jm_opening.specs.Opened.{Grows, IsFound, Leads, Sets};
ghost use Rattle.jm_opening.specs.declared.found.Found.TheVariants.{Blank, Bare, Indexed, Current};

use crate::found::Found;
use jm_tables::{delayed, held, held_by_place, message, meta, station};
use sqlite::{Alter, Error, Transaction, params};
use sqlite_value::value::ValueRef;

/// Runs a statement of the transaction.
fn run<S: Alter>(
    tx: &mut Transaction<'_, S>,
    sql: &str,
    params: &[ValueRef<'_>],
) -> Result<usize, Error>
    ensures same { tx.new.conn.ghost_name ≡ tx.old.conn.ghost_name }
    ensures ended { (state S.Store tx.old.conn.now).in_transaction ≡ false → OnOk result ⊥ }
    ensures runs { HasCleanDisk (state S.Store tx.new.conn.now) → IsTrue (state S.Store tx.old.conn.now).in_transaction → ExecutesInside 0 sql.now (bound params.now) (state S.Store tx.old.conn.now) (state S.Store tx.new.conn.now) result }
    ensures was_open { HasCleanDisk (state S.Store tx.new.conn.now) → OnOk result (IsTrue (state S.Store tx.old.conn.now).is_open) }
    ensures kept { HasCleanDisk (state S.Store tx.new.conn.now) → KeepsCommit (state S.Store tx.old.conn.now) (state S.Store tx.new.conn.now) }
    ensures survives { Survives (state S.Store tx.old.conn.now) (state S.Store tx.new.conn.now) (λ _. ⊥) }
{
    tx.execute(sql, params)
}

/// Makes the tables of version 1, without the index.
pub(crate) fn make_tables<S: Alter>(tx: &mut Transaction<'_, S>) -> Result<(), Error>
    ensures same { tx.new.conn.ghost_name ≡ tx.old.conn.ghost_name }
    ensures done { HasCleanDisk (state S.Store tx.new.conn.now) → IsTrue (state S.Store tx.old.conn.now).in_transaction → (state S.Store tx.old.conn.now).now.schema ≡ no_schema
        → OnOk result (Grows no_schema schema_1_bare (state S.Store tx.old.conn.now) (state S.Store tx.new.conn.now) × AllByRecursion (λ t. (state S.Store tx.new.conn.now).now.trees t.tree ≡ []) schema_1_bare.tables) }
    ensures was_open { HasCleanDisk (state S.Store tx.new.conn.now) → OnOk result (IsTrue (state S.Store tx.old.conn.now).is_open) }
    ensures kept { HasCleanDisk (state S.Store tx.new.conn.now) → KeepsCommit (state S.Store tx.old.conn.now) (state S.Store tx.new.conn.now) }
    ensures survives { Survives (state S.Store tx.old.conn.now) (state S.Store tx.new.conn.now) (λ _. ⊥) }
{
    run(tx, meta(), &[])?;
    run(tx, station(), &[])?;
    run(tx, message(), &[])?;
    run(tx, held(), &[])?;
    Ok(())
}

/// Makes the index of rows by place.
pub(crate) fn make_index<S: Alter>(tx: &mut Transaction<'_, S>) -> Result<(), Error>
    ensures same { tx.new.conn.ghost_name ≡ tx.old.conn.ghost_name }
    ensures done { HasCleanDisk (state S.Store tx.new.conn.now) → IsTrue (state S.Store tx.old.conn.now).in_transaction → (state S.Store tx.old.conn.now).now.schema ≡ schema_1_bare
        → OnOk result (Grows schema_1_bare schema_1 (state S.Store tx.old.conn.now) (state S.Store tx.new.conn.now)) }
    ensures was_open { HasCleanDisk (state S.Store tx.new.conn.now) → OnOk result (IsTrue (state S.Store tx.old.conn.now).is_open) }
    ensures kept { HasCleanDisk (state S.Store tx.new.conn.now) → KeepsCommit (state S.Store tx.old.conn.now) (state S.Store tx.new.conn.now) }
    ensures survives { Survives (state S.Store tx.old.conn.now) (state S.Store tx.new.conn.now) (λ _. ⊥) }
{
    run(tx, held_by_place(), &[])?;
    Ok(())
}

/// Makes the table of delayed messages.
fn make_delayed<S: Alter>(tx: &mut Transaction<'_, S>) -> Result<(), Error>
    ensures same { tx.new.conn.ghost_name ≡ tx.old.conn.ghost_name }
    ensures done { HasCleanDisk (state S.Store tx.new.conn.now) → IsTrue (state S.Store tx.old.conn.now).in_transaction → (state S.Store tx.old.conn.now).now.schema ≡ schema_1
        → OnOk result (Grows schema_1 tables.schema (state S.Store tx.old.conn.now) (state S.Store tx.new.conn.now) × ((state S.Store tx.new.conn.now).now.trees tables.delayed_tree ≡ [])) }
    ensures was_open { HasCleanDisk (state S.Store tx.new.conn.now) → OnOk result (IsTrue (state S.Store tx.old.conn.now).is_open) }
    ensures kept { HasCleanDisk (state S.Store tx.new.conn.now) → KeepsCommit (state S.Store tx.old.conn.now) (state S.Store tx.new.conn.now) }
    ensures survives { Survives (state S.Store tx.old.conn.now) (state S.Store tx.new.conn.now) (λ _. ⊥) }
{
    run(tx, delayed(), &[])?;
    Ok(())
}

/// The first row of meta comes: version 2, opening 1.
fn insert_meta<S: Alter>(tx: &mut Transaction<'_, S>) -> Result<(), Error>
    ensures same { tx.new.conn.ghost_name ≡ tx.old.conn.ghost_name }
    ensures done { HasCleanDisk (state S.Store tx.new.conn.now) → IsTrue (state S.Store tx.old.conn.now).in_transaction → (state S.Store tx.old.conn.now).now.schema ≡ tables.schema → (state S.Store tx.old.conn.now).now.trees meta_tree ≡ []
        → OnOk result (Sets (meta_row 2 1) (state S.Store tx.old.conn.now) (state S.Store tx.new.conn.now)) }
    ensures was_open { HasCleanDisk (state S.Store tx.new.conn.now) → OnOk result (IsTrue (state S.Store tx.old.conn.now).is_open) }
    ensures kept { HasCleanDisk (state S.Store tx.new.conn.now) → KeepsCommit (state S.Store tx.old.conn.now) (state S.Store tx.new.conn.now) }
    ensures survives { Survives (state S.Store tx.old.conn.now) (state S.Store tx.new.conn.now) (λ _. ⊥) }
{
    run(
        tx,
        "INSERT INTO meta (id, version, opening) VALUES (1, 2, 1)",
        &[],
    )?;
    Ok(())
}

/// The row of meta gets version 2 and that opening.
fn set_opening<S: Alter>(tx: &mut Transaction<'_, S>, opening: u32) -> Result<(), Error>
    ensures same { tx.new.conn.ghost_name ≡ tx.old.conn.ghost_name }
    ensures done { HasCleanDisk (state S.Store tx.new.conn.now) → IsTrue (state S.Store tx.old.conn.now).in_transaction → (state S.Store tx.old.conn.now).now.schema ≡ tables.schema
        → (row : Row) → (state S.Store tx.old.conn.now).now.trees meta_tree ≡ row ∷ [] → rowid row ≡ Int (pos 1)
        → OnOk result (Sets (meta_row 2 opening) (state S.Store tx.old.conn.now) (state S.Store tx.new.conn.now)) }
    ensures was_open { HasCleanDisk (state S.Store tx.new.conn.now) → OnOk result (IsTrue (state S.Store tx.old.conn.now).is_open) }
    ensures kept { HasCleanDisk (state S.Store tx.new.conn.now) → KeepsCommit (state S.Store tx.old.conn.now) (state S.Store tx.new.conn.now) }
    ensures survives { Survives (state S.Store tx.old.conn.now) (state S.Store tx.new.conn.now) (λ _. ⊥) }
{
    run(
        tx,
        "UPDATE meta SET version = 2, opening = ?1 WHERE id = 1",
        params![opening],
    )?;
    Ok(())
}

/// Makes the tables of version 2 and opens them first.
fn begin<S: Alter>(tx: &mut Transaction<'_, S>) -> Result<(), Error>
    ensures same { tx.new.conn.ghost_name ≡ tx.old.conn.ghost_name }
    ensures done { HasCleanDisk (state S.Store tx.new.conn.now) → IsTrue (state S.Store tx.old.conn.now).in_transaction → IsFound Blank (state S.Store tx.old.conn.now).now → OnOk result (Leads Blank (state S.Store tx.old.conn.now) (state S.Store tx.new.conn.now)) }
    ensures was_open { HasCleanDisk (state S.Store tx.new.conn.now) → OnOk result (IsTrue (state S.Store tx.old.conn.now).is_open) }
    ensures kept { HasCleanDisk (state S.Store tx.new.conn.now) → KeepsCommit (state S.Store tx.old.conn.now) (state S.Store tx.new.conn.now) }
    ensures survives { Survives (state S.Store tx.old.conn.now) (state S.Store tx.new.conn.now) (λ _. ⊥) }
{
    make_tables(tx)?;
    make_index(tx)?;
    make_delayed(tx)?;
    insert_meta(tx)
}

/// Carries version 1 over, whose index stands.
fn carry_over<S: Alter>(tx: &mut Transaction<'_, S>, opening: u32) -> Result<(), Error>
    ensures same { tx.new.conn.ghost_name ≡ tx.old.conn.ghost_name }
    ensures done { HasCleanDisk (state S.Store tx.new.conn.now) → IsTrue (state S.Store tx.old.conn.now).in_transaction → IsFound (Indexed opening) (state S.Store tx.old.conn.now).now
        → OnOk result (Leads (Indexed opening) (state S.Store tx.old.conn.now) (state S.Store tx.new.conn.now)) }
    ensures was_open { HasCleanDisk (state S.Store tx.new.conn.now) → OnOk result (IsTrue (state S.Store tx.old.conn.now).is_open) }
    ensures kept { HasCleanDisk (state S.Store tx.new.conn.now) → KeepsCommit (state S.Store tx.old.conn.now) (state S.Store tx.new.conn.now) }
    ensures survives { Survives (state S.Store tx.old.conn.now) (state S.Store tx.new.conn.now) (λ _. ⊥) }
{
    make_delayed(tx)?;
    set_opening(tx, opening)
}

/// Carries version 1 over, whose index does not stand.
fn carry_bare_over<S: Alter>(tx: &mut Transaction<'_, S>, opening: u32) -> Result<(), Error>
    ensures same { tx.new.conn.ghost_name ≡ tx.old.conn.ghost_name }
    ensures done { HasCleanDisk (state S.Store tx.new.conn.now) → IsTrue (state S.Store tx.old.conn.now).in_transaction → IsFound (Bare opening) (state S.Store tx.old.conn.now).now
        → OnOk result (Leads (Bare opening) (state S.Store tx.old.conn.now) (state S.Store tx.new.conn.now)) }
    ensures was_open { HasCleanDisk (state S.Store tx.new.conn.now) → OnOk result (IsTrue (state S.Store tx.old.conn.now).is_open) }
    ensures kept { HasCleanDisk (state S.Store tx.new.conn.now) → KeepsCommit (state S.Store tx.old.conn.now) (state S.Store tx.new.conn.now) }
    ensures survives { Survives (state S.Store tx.old.conn.now) (state S.Store tx.new.conn.now) (λ _. ⊥) }
{
    make_index(tx)?;
    carry_over(tx, opening)
}

/// Raises the opening of version 2.
fn raise<S: Alter>(tx: &mut Transaction<'_, S>, opening: u32) -> Result<(), Error>
    ensures same { tx.new.conn.ghost_name ≡ tx.old.conn.ghost_name }
    ensures done { HasCleanDisk (state S.Store tx.new.conn.now) → IsTrue (state S.Store tx.old.conn.now).in_transaction → IsFound (Current opening) (state S.Store tx.old.conn.now).now
        → OnOk result (Leads (Current opening) (state S.Store tx.old.conn.now) (state S.Store tx.new.conn.now)) }
    ensures was_open { HasCleanDisk (state S.Store tx.new.conn.now) → OnOk result (IsTrue (state S.Store tx.old.conn.now).is_open) }
    ensures kept { HasCleanDisk (state S.Store tx.new.conn.now) → KeepsCommit (state S.Store tx.old.conn.now) (state S.Store tx.new.conn.now) }
    ensures survives { Survives (state S.Store tx.old.conn.now) (state S.Store tx.new.conn.now) (λ _. ⊥) }
{
    set_opening(tx, opening)
}

/// Opens the database that was found so, in the transaction.
pub(crate) fn open_found<S: Alter>(tx: &mut Transaction<'_, S>, found: Found) -> Result<(), Error>
    ensures same { tx.new.conn.ghost_name ≡ tx.old.conn.ghost_name }
    ensures done { HasCleanDisk (state S.Store tx.new.conn.now) → IsTrue (state S.Store tx.old.conn.now).in_transaction → IsFound found (state S.Store tx.old.conn.now).now
        → OnOk result (Leads found (state S.Store tx.old.conn.now) (state S.Store tx.new.conn.now)) }
    ensures was_open { HasCleanDisk (state S.Store tx.new.conn.now) → OnOk result (IsTrue (state S.Store tx.old.conn.now).is_open) }
    ensures kept { HasCleanDisk (state S.Store tx.new.conn.now) → KeepsCommit (state S.Store tx.old.conn.now) (state S.Store tx.new.conn.now) }
    ensures survives { Survives (state S.Store tx.old.conn.now) (state S.Store tx.new.conn.now) (λ _. ⊥) }
{
    match found {
        Found::Blank => begin(tx),
        Found::Bare(opening) => carry_bare_over(tx, opening),
        Found::Indexed(opening) => carry_over(tx, opening),
        Found::Current(opening) => raise(tx, opening),
    }
}

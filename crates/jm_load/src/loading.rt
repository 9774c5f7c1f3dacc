//! A core of what a store holds.

ghost use Rattle.std.specs.Prelude.{◌≡◌, ◌⊎◌, false, true, IsTrue, IfOk, IfErr, OnOk};
ghost use Rattle.sqlite.specs.State.{HasCleanDisk, Survives};
ghost use Rattle.sqlite.specs.Held.{state};
ghost use Rattle.jm_plans.specs.Provider.{may_open, state_of};
ghost use Rattle.jm_holds.specs.Holds.{HoldsMessages};
ghost use Rattle.jm_keep.specs.Persisted.{IsPersisted};
ghost use Rattle.jm_queries.specs.Asked.{IsUndone};
ghost use Rattle.jm_tables.specs.Rows.{stored_in};
ghost use Rattle.jm_tables.specs.Sound.{Serves};
ghost use Rattle.jm_opening.specs.declared.judged.OpenFault.TheVariants.{Memory, Store};
ghost use Rattle.jm_load.specs.Causes.{IsStoreCause};
ghost use Rattle.jm_load.specs.Faults.{AreReadRows, IsFaultOf, IsWhole};

use crate::decoding::decode;
use crate::making::make;
use crate::reading::read;
use jm_core::Core;
use jm_opening::OpenFault;
use sqlite::{Alter, Connection};
use std::alloc::Global;

/// Loads what is stored in a database that was opened as a store: a core of that opening, of which that is stored what the tables
/// hold, and in which a subscription that is not durable may hold so many rows. Nobody is connected, and each stored row waits
/// with its count. Nothing of the database is changed, whatever is told.
///
/// - `Damaged`: the first row, in the order station, message, held, delayed, and in each by its key and counted from 0, that is none
///   of a store or does not fit the others; then the first message that nobody holds, or that is delayed and has no row of delayed.
/// - `Memory`: a request for memory was refused.
/// - `Store`: the database was shut before, the disk failed, or a limit on steps was reached.
pub fn load<S: Alter>(
    alloc: Global,
    conn: &mut Connection<S>,
    opening: u32,
    held_limit: u32,
) -> Result<Core, OpenFault>
    requires autocommit { conn.old.in_transaction ≡ false }
    requires range { may_open opening held_limit ≡ true }
    ensures mode { conn.new.in_transaction ≡ false }
    ensures loaded { HasCleanDisk (state S.Store conn.new) → (state S.Store conn.old).now ≡ (state S.Store conn.old).committed → Serves (state S.Store conn.old).now
        → IfOk result (λ core. IsPersisted (state_of core) (stored_in (state S.Store conn.old).now.trees)) }
    // Each row of the core holds a message that its queue or its subscription may hold.
    ensures holds { HasCleanDisk (state S.Store conn.new) → (state S.Store conn.old).now ≡ (state S.Store conn.old).committed → Serves (state S.Store conn.old).now
        → IfOk result (λ core. HoldsMessages (state_of core)) }
    // As far as each row by itself says, a store may have all that was loaded.
    ensures read { HasCleanDisk (state S.Store conn.new) → (state S.Store conn.old).now ≡ (state S.Store conn.old).committed → Serves (state S.Store conn.old).now
        → OnOk result (AreReadRows (state S.Store conn.old).now.trees) }
    ensures fault { HasCleanDisk (state S.Store conn.new) → (state S.Store conn.old).now ≡ (state S.Store conn.old).committed → Serves (state S.Store conn.old).now
        → IfErr result (IsFaultOf (state S.Store conn.old).now.trees) }
    ensures cause { HasCleanDisk (state S.Store conn.new) → (state S.Store conn.old).now ≡ (state S.Store conn.old).committed → Serves (state S.Store conn.old).now
        → IfErr result (λ fault. fault ≡ Store → IsStoreCause (state S.Store conn.old) (state S.Store conn.new)) }
    ensures whole { HasCleanDisk (state S.Store conn.new) → (state S.Store conn.old).now ≡ (state S.Store conn.old).committed → Serves (state S.Store conn.old).now
        → IsWhole (state S.Store conn.old).now.trees → IfErr result (λ fault. (fault ≡ Memory) ⊎ (fault ≡ Store)) }
    ensures opening { IfOk result (λ core. (state_of core).opening ≡ opening) }
    ensures limit { IfOk result (λ core. (state_of core).limit ≡ held_limit) }
    ensures same { HasCleanDisk (state S.Store conn.new) → IsTrue (state S.Store conn.new).is_open → IsUndone (state S.Store conn.old) (state S.Store conn.new) }
    ensures survives { Survives (state S.Store conn.old) (state S.Store conn.new) (λ _. ⊥) }
{
    let rows = read(conn)?;
    let decoded = decode(alloc, &rows)?;
    make(alloc, opening, held_limit, decoded)
}

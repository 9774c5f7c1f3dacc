//! A store is closed.

ghost use Rattle.std.specs.Prelude.{◌≡◌, ◌&&◌, ℕ, false, IsTrue};
ghost use Rattle.sqlite.specs.Held.{state};
ghost use Rattle.jm_holds.specs.Holds.{HoldsMessages};
ghost use Rattle.jm_keep.specs.Persisted.{IsPersisted};
ghost use Rattle.jm_machine.specs.Machine.{State};
ghost use Rattle.jm_tables.specs.Rows.{stored_in};
ghost use Rattle.jm_tables.specs.Valid.{IsValid};

use jm_valid::law_valid;
use jm_writes::Store;
use sqlite::{Alter, Connection};

/// Closes the store: hands back its connection, which is in no transaction. Where the disk is clean, and what is stored of a
/// state each of whose rows holds a message that its key may hold is what the tables hold, the database is a valid file (ours),
/// and so the next opening does not tell it as damaged.
pub fn close<S: Alter>(store: Store<S>) -> Connection<S>
    ensures same { result ≡ store.0 }
    ensures autocommit { result.in_transaction ≡ false }
    ensures valid { (machine : State) → HoldsMessages machine → IsTrue ((state S.Store result).is_clean && (state S.Store result).is_open) → IsPersisted machine (stored_in (state S.Store result).now.trees)
        → (opening : ℕ) × IsValid opening (state S.Store result).now.trees }
{
    law_valid();
    store.into_connection()
}

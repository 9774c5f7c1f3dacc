//! A provider over what a connection or a file holds.

ghost use Rattle.std.specs.Prelude.{◌≡◌, ◌⊎◌, IfErr};
ghost use Rattle.jm_opening.specs.Opening.{IsInNoTransaction, LeavesOf};
ghost use Rattle.jm_opening.specs.declared.judged.OpenFault.TheVariants as cause;
ghost use Rattle.jm_store.specs.Opened.{IsLeft};
ghost use Rattle.sqlite.specs.Held.{state};

use jm_client::{Plain, Provider};
use jm_store::{OpenFault, Reopened, Store, Unopened};
use sqlite::{Alter, Connection, FileFrom, FileStore, Unknown};
use std::alloc::Global;
use std::sync::Wait;
use std::time::Clock;

/// How many rows a subscription that is not durable may hold (ours).
const HELD_LIMIT: u32 = 100_000;

/// A file and its log, of which nothing is known before. A write that a stop tears may leave each byte as it was or as it was to
/// be, and no other; so a commit syncs once.
pub type StoreFile = FileStore<FileFrom<Unknown>>;

/// A connection to the file at that path, which is made where there is none; its log stands beside it. `Memory` where a request
/// for memory was refused; `Store` where the file cannot be opened, as where another process has it open.
pub fn connect(rt: &HostRuntime, path: &str) -> Result<Connection<StoreFile>, OpenFault>
    ensures { IfErr result (λ fault. (fault ≡ cause.Memory) ⊎ (fault ≡ cause.Store)) }
{
    match Connection::open_from(rt, path, false, Unknown) {
        Ok(conn) => Ok(conn),
        Err((error, _)) => Err(OpenFault::from(error)),
    }
}

/// A provider over the store of that connection, which it opens and loads: what was stored of durable subscriptions and queues
/// waits there, and each call stores what it changes before it is answered. A subscription that is not durable may hold 100,000
/// messages. The faults are those of `jm_store::open`, and with one the connection is handed back, or its store where it shut:
/// it was not opened and stands as it was, or it was opened and cannot be loaded, for that fault; a stop of the process leaves it
/// as it was or as it is opened (ours).
pub fn open<'r, R: Wait + Clock, S: Alter + Drop>(
    rt: &'r R,
    alloc: Global,
    conn: Connection<S>,
) -> Result<Provider<'r, R, Plain<Store<S>>>, Unopened<S>>
    ensures left { IfErr result (λ u. IsInNoTransaction u.left) }
    ensures refused { IfErr result (λ u. IsLeft S.Store (state S.Store conn).committed.trees u.fault u.left) }
    ensures stop { IfErr result (λ u. LeavesOf S.Store (state S.Store conn) u.left) }
{
    let Reopened { store, core } = jm_store::open(alloc, conn, HELD_LIMIT)?;
    Ok(Provider::over(rt, alloc, core, store))
}

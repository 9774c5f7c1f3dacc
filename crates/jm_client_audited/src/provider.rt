//! A provider that is audited.

ghost use Rattle.std.specs.Prelude.{◌≡◌, ◌^◌, IfOk, IfErr};
ghost use Rattle.jm_base.specs.declared.refusal.Refusal.TheVariants.{Memory};
ghost use Rattle.jm_error.specs.Refused.{bare};

use crate::audited::Audited;
use jm_base::Refusal;
use jm_client::Provider;
use jm_core::Core;
use jm_error::Error;
use jm_keep::{Keep, NoKeep};
use std::alloc::Global;
use std::sync::Wait;
use std::sync::ledger::{Blank, Ledger};
use std::time::Clock;

/// The parts of the ledger of a provider that is made here (ours): one for each connection and each session that it can
/// number, and more than one beside. They are in proofs alone, and cost nothing.
pub const PARTS: u64 = 1 << 33;

/// The number of the opening of a provider that keeps nothing (ours).
const OPENING: u32 = 1;

/// How many rows a subscription that is not durable may hold, in a provider that keeps nothing (ours).
const HELD_LIMIT: u32 = 100_000;

/// A new audited provider that keeps nothing beyond the process, as `Provider::in_memory` is without an audit. `Memory` where a
/// request for memory was refused.
pub fn in_memory<'r, R: Wait + Clock, L: Ledger>(
    rt: &'r R,
    alloc: Global,
    blank: Blank,
) -> Result<Provider<'r, R, Audited<NoKeep, L>>, Error>
    requires name { blank.name ≡ L.name }
    requires parts { (blank.parts ≡ L.parts) × (blank.parts ≡ 2 ^ 33) }
    ensures ok { IfOk result (λ provider. provider.opening ≡ 1) }
    ensures err { IfErr result (λ r. r ≡ bare Memory) }
{
    let Ok(core) = Core::new(alloc, OPENING, HELD_LIMIT) else {
        unreachable!();
    };
    match Audited::new(alloc, blank, PARTS, core, NoKeep) {
        Ok(backend) => Ok(Provider::with_backend(rt, alloc, backend)),
        Err(_) => Err(Error::new(Refusal::Memory, None)),
    }
}

/// Asks that threads may share the value, and does nothing.
fn crosses<T: Sync>(_value: &T) {}

/// The provider itself may be shared by threads, where the runtime may, and where the keeper may be handed over.
pub fn shared_by<R: Wait + Clock + Sync, K: Keep + Drop + Send, L: Ledger>(
    provider: &Provider<'_, R, Audited<K, L>>,
) {
    crosses(provider);
}

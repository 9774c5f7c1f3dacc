//! That threads may share an embedded provider, since a lock is round all that changes: `Provider_sync` of `proofs/Shared.antt`, which
//! whoever starts threads cites. A search for it finds no end.
//!
//! # Contract
//!
//! `Provider_sync`: threads may share a provider where they may share the runtime, and where its backend may cross
//! threads; `Plain_sync` is that of a core with a keeper that may, as one that keeps nothing may (`NoKeep_send`). Whoever
//! starts threads over a provider cites one, and `Lent_send`, by which a closure may be handed over that borrows what
//! threads may share.
#![tactic(auto)]

use jm_client::{Backend, Provider};
use std::sync::Wait;
use std::time::Clock;

/// Asks that threads may share the value, and does nothing.
fn crosses<T: Sync>(_value: &T) {}

/// The provider itself may be shared by threads, where the runtime may, and where the backend may be handed over.
pub fn shared_by<R: Wait + Clock + Sync, B: Backend + Send>(provider: &Provider<'_, R, B>) {
    crosses(provider);
}

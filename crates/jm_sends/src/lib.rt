//! That a core may cross threads, since it owns all that it holds: `Core_send` of `proofs/Sent.antt`, which whoever starts threads
//! cites. A search for it finds no end.
//!
//! # Contract
//!
//! `Core` is `Send` (`Core_send`, a lemma that the proof of each function cites which hands a core, or what holds
//! one, to another thread).
#![tactic(auto)]

ghost use Rattle.std.specs.Prelude.{◌≡◌};

use jm_core::Core;

/// The value itself, in whatever thread it is.
fn crosses<T: Send>(value: T) -> T
    ensures { result ≡ value }
{
    value
}

/// The core itself: whoever has it may hand it to another thread.
pub fn handed_over(core: Core) -> Core
    ensures { result ≡ core }
{
    crosses(core)
}

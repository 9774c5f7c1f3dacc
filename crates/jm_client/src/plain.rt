//! A core with its keeper, and nothing beside.

ghost use Rattle.std.specs.Prelude.{◌≡◌, ◌≤◌, false, IsTrue, IsErrOf};
ghost use Rattle.jm_client.specs.Locked.{IsKeptStep};
ghost use Rattle.jm_plans.specs.Provider.{state_of};
ghost use Rattle.jm_plans.specs.Steps.{StepFits};
ghost use Rattle.jm_keep.specs.Persisted.{IsPersisted};
ghost use Rattle.jm_keep.specs.Stored.{HasRisen};
ghost use Rattle.jm_kept.specs.Kept.{KeptFits};

use crate::backend::Backend;
use jm_base::Refusal;
use jm_core::{Answer, Core, Step};
use jm_dest::SessionId;
use jm_header::Message;
use jm_keep::Keep;
use std::alloc::Global;
use std::marker::Model;

/// A core and its keeper, without a trace: the backend of a service (ours). Contracts see both. Where the keeper is clean, what
/// it has stored is what is stored of the core's state.
#[derive(Drop)]
pub struct Plain<K: Keep + Drop> {
    alloc: Global,
    core: Core,
    keeper: K,
}

impl<K: Keep + Drop> Model for Plain<K> {
    ghost use Rattle.std.specs.Prelude.{IsTrue};
    ghost use Rattle.jm_client.specs.Locked.{CoreKept};
    ghost use Rattle.jm_plans.specs.Provider.{state_of};
    ghost use Rattle.jm_keep.specs.Persisted.{IsPersisted};

    ghost Value = { CoreKept K };

    ghost view = { λ p. record { core = p.core; keeper = p.keeper } };

    ghost invariant = { λ p. IsTrue (K.is_clean p.keeper) → IsPersisted (state_of p.core) (K.stored p.keeper) };
}

impl<K: Keep + Drop> Plain<K> {
    /// The core with its keeper, which has stored what is stored of the core's state, where it is clean. Takes no memory.
    pub fn new(alloc: Global, core: Core, keeper: K) -> Plain<K>
        requires { IsTrue (K.is_clean keeper) → IsPersisted (state_of core) (K.stored keeper) }
        ensures { (result.core ≡ core) × (result.keeper ≡ keeper) }
    {
        Plain {
            alloc,
            core,
            keeper,
        }
    }

    /// One step, as `jm_kept::step` makes it, with its refusals.
    pub fn step(&mut self, step: &Step) -> Result<Answer, Refusal>
        ensures fits { KeptFits (state_of self.old.core) step.now.who step.now.call result (state_of self.new.core) }
        ensures without { K.is_keeping self.old.keeper ≡ false →
            StepFits (state_of self.old.core) step.now.who step.now.call result (state_of self.new.core) }
        ensures alone { K.is_keeping self.old.keeper ≡ false → self.new.keeper ≡ self.old.keeper }
        ensures store { IsErrOf result Refusal.Store → HasRisen (K.faults self.old.keeper) (K.faults self.new.keeper) }
        ensures faults { K.faults self.old.keeper ≤ K.faults self.new.keeper }
        ensures clean { IsTrue (K.is_clean self.new.keeper) → IsTrue (K.is_clean self.old.keeper) }
        ensures kept { IsTrue (K.is_clean self.new.keeper) → IsPersisted (state_of self.old.core) (K.stored self.old.keeper) →
            IsPersisted (state_of self.new.core) (K.stored self.new.keeper) }
    {
        let Plain {
            alloc,
            core,
            keeper,
        } = self;
        jm_kept::step(*alloc, core, keeper, step)
    }

    /// The core and its keeper.
    pub fn into_parts(self) -> (Core, K)
        ensures parts { (result.0 ≡ self.core) × (result.1 ≡ self.keeper) }
        ensures kept { IsTrue (K.is_clean result.1) → IsPersisted (state_of result.0) (K.stored result.1) }
    {
        let Plain {
            alloc: _,
            core,
            keeper,
        } = self;
        (core, keeper)
    }
}

impl<K: Keep + Drop> Backend for Plain<K> {
    ghost core_of = { λ p. p.core };

    ghost IsStep = { IsKeptStep K.is_keeping K.is_clean K.faults K.stored };

    fn core(&self) -> &Core {
        &self.core
    }

    fn apply(&mut self, step: &Step) -> Result<Answer, Refusal> {
        self.step(step)
    }

    fn publish(&mut self, session: SessionId, message: Message) -> Result<Answer, Refusal> {
        let Plain {
            alloc,
            core,
            keeper,
        } = self;
        jm_kept::publish(*alloc, core, keeper, session, message)
    }
}

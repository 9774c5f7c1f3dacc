//! A step that is planned, as callers see it.

ghost use Rattle.std.specs.Prelude.{◌≡◌};

use jm_plans::plan::Change;
use std::marker::Model;

/// A step that was planned on a core: no cause stands against it, and there is room for it. `Core::install`
/// makes it, and only then is there an answer to read. A plan owns what was prepared; one that is let go
/// leaves the core as it was, with more room. Contracts see it as what it changes.
pub struct Plan {
    pub(crate) change: Change,
}

// (by hand, so that a caller lets a plan go by one call, on each of its ways out)
impl Drop for Plan {
    fn drop(self) {
        let Plan { change } = self;
        drop(change);
    }
}

impl Model for Plan {
    ghost use Rattle.jm_plans.specs.declared.plan.Change.{Change};

    ghost Value = { Change };

    ghost view = { λ p. p.change };
}

impl Plan {
    /// What the plan changes.
    pub(crate) fn into_change(self) -> Change
        ensures { result ≡ self }
    {
        let Plan { change } = self;
        change
    }
}

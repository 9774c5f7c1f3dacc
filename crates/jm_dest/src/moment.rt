ghost use Rattle.std.specs.Prelude.{◌≡◌, ◌<◌, ◌<ℤ◌, pos, MatchResult};
ghost use Rattle.jm_base.specs.declared.refusal.Refusal.TheVariants.{OutOfRange};
ghost use Rattle.jm_dest.specs.Numbers.{long_end};

use jm_base::Refusal;
use std::marker::Model;

/// A moment in milliseconds, from 0 to 9,223,372,036,854,775,807 (ours).
#[derive(Clone, Copy, Debug, PartialEq, Eq)]
pub struct Moment {
    milliseconds: u64,
}

impl Model for Moment {
    ghost use Rattle.std.specs.Prelude.{ℕ, ◌<◌};
    ghost use Rattle.std.specs.Coded.{coded_ℕ};
    ghost use Rattle.jm_dest.specs.Numbers.{long_end};

    ghost Value = { ℕ };

    ghost coded = { coded_ℕ };

    ghost view = { λ m. m.milliseconds };

    ghost invariant = { λ m. m.milliseconds < long_end };

    ghost inverse = { λ n. record { milliseconds = n } };
}

impl Moment {
    /// The moment. `OutOfRange` exactly where it is negative.
    pub fn new(milliseconds: i64) -> Result<Moment, Refusal>
        ensures { MatchResult result (λ moment. pos moment ≡ milliseconds) (λ refusal. (refusal ≡ OutOfRange) × (milliseconds <ℤ pos 0)) }
    {
        if milliseconds < 0 {
            return Err(Refusal::OutOfRange);
        }
        Ok(Moment {
            milliseconds: milliseconds as u64,
        })
    }

    /// The milliseconds.
    pub fn get(self) -> u64
        ensures value { result ≡ self }
        ensures in_range { result < long_end }
    {
        self.milliseconds
    }
}

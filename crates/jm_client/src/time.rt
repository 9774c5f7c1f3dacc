//! The runtime's clock.

ghost use Rattle.std.specs.Prelude.{◌≡◌, IfErr};

use jm_base::Refusal;
use jm_dest::Moment;
use std::time::{Clock, Duration, Instant, SystemTime};

/// The moment now: the milliseconds since 1970. `OutOfRange` where the clock is not read, or reads an earlier time, or one
/// past 9,223,372,036,854,775,807.
pub(crate) fn moment<R: Clock>(rt: &R) -> Result<Moment, Refusal>
    ensures { IfErr result (λ refusal. refusal ≡ Refusal.OutOfRange) }
{
    let Ok(now) = SystemTime::now(rt) else {
        return Err(Refusal::OutOfRange);
    };
    let Ok(since) = now.duration_since(SystemTime::UNIX_EPOCH) else {
        return Err(Refusal::OutOfRange);
    };
    match i64::try_from(since.as_millis()) {
        Ok(milliseconds) => Moment::new(milliseconds),
        Err(_) => Err(Refusal::OutOfRange),
    }
}

/// A wait that ends.
#[derive(Clone, Copy)]
pub(crate) struct Timer {
    start: Instant,
    timeout: Duration,
}

impl Timer {
    /// A wait of that length from now on. `OutOfRange` where the clock is not read.
    pub(crate) fn new<R: Clock>(rt: &R, timeout: Duration) -> Result<Timer, Refusal>
        ensures { IfErr result (λ refusal. refusal ≡ Refusal.OutOfRange) }
    {
        match Instant::now(rt) {
            Ok(start) => Ok(Timer { start, timeout }),
            Err(_) => Err(Refusal::OutOfRange),
        }
    }

    /// How long it still lasts: none where it is over, or where the clock is not read.
    pub(crate) fn left<R: Clock>(&self, rt: &R) -> Option<Duration> {
        let elapsed = self.start.elapsed(rt).ok()?;
        let left = self.timeout.checked_sub(elapsed)?;
        if left.is_zero() { None } else { Some(left) }
    }
}

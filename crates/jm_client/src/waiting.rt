//! Waiting for a consumer's next message.

ghost use Rattle.std.specs.Prelude.{◌≡◌, ◌⊎◌, Err};
ghost use Rattle.jm_base.specs.declared.refusal.Refusal.TheVariants.{OutOfRange};
ghost use Rattle.jm_client.specs.Told.{Asks};
ghost use Rattle.jm_error.specs.Refused.{bare};

use crate::backend::Backend;
use crate::provider::Provider;
use crate::shared::Way;
use crate::time::Timer;
use jm_core::Delivery;
use jm_dest::{ConsumerId, SessionId};
use jm_error::Error;
use std::sync::{CondvarTimeouts, Wait, WaitMethods};
use std::time::{Clock, Duration};

/// A wait looks again after so many milliseconds at the latest: what is held back comes due with no call that would wake it
/// (ours).
const LOOK_AGAIN: u64 = 20;

impl<'r, R: Wait + Clock, B: Backend> Provider<'r, R, B> {
    /// The next message of the session's consumer, or none where none came within the timeout, which may be zero. It looks
    /// again whenever another call may have brought a message, and 50 times a second. `OutOfRange` where the clock is not
    /// read, and the refusals of the request; then no message was taken.
    pub(crate) fn await_message(
        &self,
        way: Way,
        session: &SessionId,
        consumer: ConsumerId,
        timeout: Duration,
    ) -> Result<Option<Delivery>, Error>
        ensures { (result ≡ Err (bare OutOfRange)) ⊎ Asks way session.now consumer result }
    {
        let timer = Timer::new(self.rt, timeout)?;
        let mut guard = self.shared.lock(self.rt);
        for _ in self.rt.forever() {
            let now = self.now()?;
            let delivery = guard.ask_message(way, *session, consumer, now)?;
            if delivery.is_some() {
                return Ok(delivery);
            }
            let Some(left) = timer.left(self.rt) else {
                return Ok(delivery);
            };
            let nap = left.min(Duration::from_millis(LOOK_AGAIN));
            let (again, _) = self.changed.wait_timeout(self.rt, guard, nap);
            guard = again;
        }
        unreachable!()
    }
}

//! What the readers of a provider show.

use crate::keeping::Kept;
use jm_client::{Error, Provider};
use std::sync::Wait;
use std::time::Clock;
use tried::Answer;

/// A number with one digit more.
fn and(number: u64, digit: usize) -> u64 {
    number.wrapping_mul(10).wrapping_add(digit as u64)
}

/// How many connections, sessions, consumers and subscriptions there are, and how many messages are held for these and by queues: a
/// digit each.
pub(crate) fn digits<R: Wait + Clock>(provider: &Provider<'_, R, Kept>) -> u64 {
    let overview = provider.overview();
    let open = and(
        and(overview.connections as u64, overview.sessions),
        overview.consumers,
    );
    and(
        and(and(open, overview.subscriptions), overview.held),
        overview.queued,
    )
}

/// What the readers show after a call that was accepted.
pub(crate) fn after<R: Wait + Clock>(
    provider: &Provider<'_, R, Kept>,
    told: Result<(), Error>,
) -> Answer {
    match told {
        Ok(()) => Ok(digits(provider)),
        Err(error) => Err(error.refusal()),
    }
}

/// What the readers show while what a call made is there.
pub(crate) fn with<R: Wait + Clock, T: Drop>(
    provider: &Provider<'_, R, Kept>,
    made: Result<T, Error>,
) -> Answer {
    match made {
        Ok(_made) => Ok(digits(provider)),
        Err(error) => Err(error.refusal()),
    }
}

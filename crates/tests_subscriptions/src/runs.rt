//! Runs of calls: what each call answers, and what is left.

use jm_base::Refusal;
use jm_core::{Core, Reply};
use std::alloc::{AllocError, Global};
use tests_calls::{Op, all_shown, calls};

/// A run: the limit of rows, its calls, and what they answer, with how many subscriptions and messages of them are left.
/// Connection 1 is of the client k and connection 2 of none where the calls do not say otherwise.
pub(crate) struct Run {
    pub limit: u32,
    pub ops: &'static [Op],
    pub told: &'static str,
}

/// The replies of the core to those calls.
pub(crate) fn replies_of(
    alloc: Global,
    core: &mut Core,
    ops: &[Op],
) -> Result<Vec<Reply>, Refusal> {
    Ok(core.run(calls(alloc, ops)?)?)
}

/// The replies, then how many subscriptions and how many messages are left.
fn with_left(alloc: Global, replies: &[Reply], left: (usize, usize)) -> Result<String, AllocError> {
    let replies = all_shown(alloc, replies)?;
    let (subscriptions, messages) = left;
    format!(in alloc; "{replies}{subscriptions} and {messages}")
}

fn told_by(alloc: Global, core: &mut Core, ops: &[Op]) -> Result<String, AllocError> {
    match replies_of(alloc, core, ops) {
        Ok(replies) => with_left(alloc, &replies, (core.stations_len(), core.kept())),
        Err(_) => Err(AllocError),
    }
}

/// What the calls answer and leave.
pub(crate) fn told(alloc: Global, run: &Run) -> Result<String, AllocError> {
    match Core::new(alloc, 1, run.limit) {
        Ok(mut core) => told_by(alloc, &mut core, run.ops),
        Err(_) => Err(AllocError),
    }
}

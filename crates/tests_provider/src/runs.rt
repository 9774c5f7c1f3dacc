//! Runs of calls.

use jm_base::Refusal;
use jm_core::{Core, Reply};
use std::alloc::Global;
use tests_calls::{Op, calls};

/// The replies of the core to those calls.
pub(crate) fn run(alloc: Global, core: &mut Core, ops: &[Op]) -> Result<Vec<Reply>, Refusal> {
    Ok(core.run(calls(alloc, ops)?)?)
}

//! Runs of calls over a provider.

use crate::desk::Desk;
use crate::once::OnceKeep;
use crate::op::Op;
use crate::told::Told;
use crate::watch::Watch;
use jm_client::{Backend, Provider};
use jm_core::Core;
use std::alloc::Global;
use std::sync::Wait;

/// A call, and what it is told.
pub(crate) type Row = (Op, Told);

/// Calls of a client, the first one at 1000 milliseconds since 1970.
pub(crate) struct Run {
    pub(crate) name: &'static str,
    /// How many messages a subscription that is not durable may hold.
    pub(crate) limit: u32,
    /// How many writes of the store are made before the one that fails; with none, none fails.
    pub(crate) writes: Option<u32>,
    pub(crate) rows: &'static [Row],
}

/// Makes the calls in turn. How many rows are told what they should be, up to the first that is not.
pub(crate) fn right_rows<R: Wait + Drop, B: Backend>(
    desk: &mut Desk<'_, R, B>,
    rows: &[Row],
) -> usize {
    let mut right: usize = 0;
    for (op, told) in rows {
        if desk.make(*op) != *told {
            return right;
        }
        right = right.saturating_add(1);
    }
    right
}

/// The same of a new client of a provider over that core.
pub(crate) fn right_over<R: Wait + Drop>(
    alloc: Global,
    watch: &Watch<R>,
    core: Core,
    writes: Option<u32>,
    rows: &[Row],
) -> usize {
    let provider = Provider::over(watch, alloc, core, OnceKeep::new(writes));
    let mut desk = Desk::new(alloc, watch, &provider);
    right_rows(&mut desk, rows)
}

/// The same of a run.
pub(crate) fn right_in<R: Wait + Drop>(rt: R, alloc: Global, run: &Run) -> usize {
    let watch = Watch::new(rt);
    match Core::new(alloc, 1, run.limit) {
        Ok(core) => right_over(alloc, &watch, core, run.writes, run.rows),
        Err(_) => 0,
    }
}

//! Tests of the core, in `jm_machine`, `jm_core` and `jm_model`, over runs of calls: what a run leaves, copies, plans, and what
//! one subscription answers alone; that calls find memory and succeed, and that what the clauses say was meant.
#![tactic(auto)]

#[cfg(test)]
mod copies;
#[cfg(test)]
mod lone;
#[cfg(test)]
mod ops;
#[cfg(test)]
mod plans;
#[cfg(test)]
mod runs;
#[cfg(test)]
mod taken;
#[cfg(test)]
mod told;

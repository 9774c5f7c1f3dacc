//! Tests of the rows of `jm_pending` and of its table of messages, over tables of calls: that calls find memory, and that what
//! the clauses say was meant.
#![tactic(auto)]

#[cfg(test)]
mod rig;
#[cfg(test)]
mod rows;
#[cfg(test)]
mod tables;
#[cfg(test)]
mod told;

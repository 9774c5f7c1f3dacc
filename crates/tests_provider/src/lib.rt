//! Tests of what the calls of a run answer and leave, in `jm_core`, and of what a session keeps for its commit, in `jm_tx`, over
//! tables of calls: that calls find memory and succeed, and that what the clauses say was meant. Runs with their lines are
//! cases, and stand in `cases`.
#![tactic(auto)]

#[cfg(test)]
mod acknowledgement;
#[cfg(test)]
mod halves;
#[cfg(test)]
mod listeners;
#[cfg(test)]
mod queues;
#[cfg(test)]
mod runs;
#[cfg(test)]
mod told;
#[cfg(test)]
mod transactions;

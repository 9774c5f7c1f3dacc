//! Tests of `jm_gaps`, over tables: that calls find memory, and that what the clauses say was meant.
#![tactic(auto)]

#[cfg(test)]
mod steps;
#[cfg(test)]
mod told;

//! Tests of `jm_grouped`, over tables: that calls find memory, and that what the clauses say was meant.
#![tactic(auto)]

#[cfg(test)]
mod items;
#[cfg(test)]
mod told;

//! Tests of `jm_indexed` and `jm_shared`, over tables: that calls find memory, and that what the clauses say was meant.
#![tactic(auto)]

#[cfg(test)]
mod keys;
#[cfg(test)]
mod map;
#[cfg(test)]
mod sections;
#[cfg(test)]
mod shared;
#[cfg(test)]
mod told;

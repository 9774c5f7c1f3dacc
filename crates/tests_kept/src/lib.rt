//! Tests of a core over a keeper, over whole runs: what is told, and what is stored then.
#![tactic(auto)]

#[cfg(test)]
mod once;
#[cfg(test)]
mod refused;
#[cfg(test)]
mod told;

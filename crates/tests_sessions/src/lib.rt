//! Tests of sessions, their consumers and their sends in `jm_session`, over tables of calls: that calls find memory and succeed,
//! what they leave, and that what the clauses say was meant.
#![tactic(auto)]

#[cfg(test)]
mod listening;
#[cfg(test)]
mod sends;
#[cfg(test)]
mod sessions;
#[cfg(test)]
mod told;

//! Tests of the keys of `jm_stations` and of the rows under them, over tables of publications and deliveries: that calls find
//! memory, and that what the clauses say was meant.
#![tactic(auto)]

#[cfg(test)]
mod closes;
#[cfg(test)]
mod held;
#[cfg(test)]
mod keys;
#[cfg(test)]
mod loaded;
#[cfg(test)]
mod many;
#[cfg(test)]
mod outgoing;
#[cfg(test)]
mod steps;
#[cfg(test)]
mod told;

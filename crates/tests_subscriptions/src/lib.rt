//! Tests of subscriptions that have names, in `jm_core` and `jm_model`, over tables of calls: what each call answers, what is
//! left, and what one subscription answers alone.
#![tactic(auto)]

#[cfg(test)]
mod durable;
#[cfg(test)]
mod lone;
#[cfg(test)]
mod refused;
#[cfg(test)]
mod runs;
#[cfg(test)]
mod shared;
#[cfg(test)]
mod told;

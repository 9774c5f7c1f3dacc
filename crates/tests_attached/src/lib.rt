//! Tests of consumers and subscriptions by their keys, in `jm_machine`, `jm_session` and `jm_sub`, over tables of calls: that
//! calls find memory and succeed, what they leave, and that what the clauses say was meant.
#![tactic(auto)]

#[cfg(test)]
mod counts;
#[cfg(test)]
mod idle;
#[cfg(test)]
mod keys;
#[cfg(test)]
mod named;
#[cfg(test)]
mod subscriptions;
#[cfg(test)]
mod told;

//! Tests of loads: what opening and loading a store answers to databases, and what the provider that it makes holds.
#![tactic(auto)]

#[cfg(test)]
mod faults;
#[cfg(test)]
mod holdings;
#[cfg(test)]
mod parts;
#[cfg(test)]
mod told;

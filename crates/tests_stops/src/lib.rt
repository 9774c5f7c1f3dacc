//! Tests of stops: a provider over a store is stopped at each call of its file and of its log, and what opens and loads then is what
//! stood before the call of the provider that was stopped, or after it.
#![tactic(auto)]

#[cfg(test)]
mod database;
#[cfg(test)]
mod files;
#[cfg(test)]
mod provider;
#[cfg(test)]
mod runs;
#[cfg(test)]
mod stops;
#[cfg(test)]
mod told;
#[cfg(test)]
mod turns;

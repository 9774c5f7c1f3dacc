//! Tests of the provider that a service embeds: each call on its happy path, each refusal, drops in every order, a clock that
//! goes back, and a store that fails once.
#![tactic(auto)]

#[cfg(test)]
mod clock;
#[cfg(test)]
mod desk;
#[cfg(test)]
mod dropped;
#[cfg(test)]
mod happy;
#[cfg(test)]
mod once;
#[cfg(test)]
mod op;
#[cfg(test)]
mod refused;
#[cfg(test)]
mod runs;
#[cfg(test)]
mod store;
#[cfg(test)]
mod told;
#[cfg(test)]
mod watch;

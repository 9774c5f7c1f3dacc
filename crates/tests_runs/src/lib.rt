//! Tests of runs of the program over stores: what is printed, with which status, and what the store says of its last opening then.
#![tactic(auto)]

#[cfg(test)]
mod played;
#[cfg(test)]
mod rows;
#[cfg(test)]
mod scenarios;
#[cfg(test)]
mod told;

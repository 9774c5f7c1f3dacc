//! Tests of the record of a message, whose bytes are written out by hand.
#![tactic(auto)]

#[cfg(test)]
mod both_ways;
#[cfg(test)]
mod damaged;
#[cfg(test)]
mod full;
#[cfg(test)]
mod round_trips;
#[cfg(test)]
mod told;
#[cfg(test)]
mod worked;

//! Tests of the store: what its opening answers to databases, what rows stand after its writes, and what the queries of its page
//! show.
#![tactic(auto)]

#[cfg(test)]
mod openings;
#[cfg(test)]
mod queries;
#[cfg(test)]
mod told;
#[cfg(test)]
mod writes;

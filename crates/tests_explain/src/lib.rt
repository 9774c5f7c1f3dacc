//! Tests of why a core refuses a call: each cause, and that it is the cause of what the core replies.
#![tactic(auto)]

#[cfg(test)]
mod causes;
#[cfg(test)]
mod runs;
#[cfg(test)]
mod senders;
#[cfg(test)]
mod steps;

//! Tests of the lock: whether the passes of callers account for what was called.
#![tactic(auto)]

#[cfg(test)]
mod alike;
#[cfg(test)]
mod client;
#[cfg(test)]
mod many;
#[cfg(test)]
mod missing;
#[cfg(test)]
mod moved;
#[cfg(test)]
mod segments;
#[cfg(test)]
mod steps;
#[cfg(test)]
mod waking;
#[cfg(test)]
mod worked;

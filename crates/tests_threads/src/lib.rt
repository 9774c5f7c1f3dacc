//! Tests of threads that call at once through the lock, and of listeners that work at once.
#![tactic(auto)]

#[cfg(test)]
mod callers;
#[cfg(test)]
mod listeners;
#[cfg(test)]
mod steps;

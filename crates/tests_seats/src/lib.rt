//! Tests of scenarios whose sessions call on threads of their own.
#![tactic(auto)]

#[cfg(test)]
mod scenarios;

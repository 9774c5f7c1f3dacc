//! Tests of what keeps rows: what is stored after a table of changes.
#![tactic(auto)]

#[cfg(test)]
mod kept;
#[cfg(test)]
mod told;

//! Tests of the values of `jm_base`, `jm_dest`, `jm_property` and `jm_header`, over tables: that calls find memory
//! and succeed, that the clauses say what was meant, and how refusals are printed.
#![tactic(auto)]

#[cfg(test)]
mod base;
#[cfg(test)]
mod messages;
#[cfg(test)]
mod names;
#[cfg(test)]
mod properties;
#[cfg(test)]
mod told;

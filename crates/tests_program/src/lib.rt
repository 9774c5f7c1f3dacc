//! Tests of the program of `jm_words`, `jm_scenario`, `jm_play` and `jm_runner`, over tables: that calls find memory and succeed, and
//! what is told where a read or a write fails. Scenarios, selectors, keys and words with what is told of them are cases, and
//! stand in `cases`.
#![tactic(auto)]

#[cfg(test)]
mod commands;
#[cfg(test)]
mod kept;
#[cfg(test)]
mod keys;
#[cfg(test)]
mod lines;
#[cfg(test)]
mod program;
#[cfg(test)]
mod scenarios;
#[cfg(test)]
mod told;
#[cfg(test)]
mod words;

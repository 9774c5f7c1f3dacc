//! Tests of random runs over a keeper in memory: what it keeps, made a core again, answers as the core that went on.
#![tactic(auto)]

#[cfg(test)]
mod asking;
#[cfg(test)]
mod chance;
#[cfg(test)]
mod ops;
#[cfg(test)]
mod rows;
#[cfg(test)]
mod runs;

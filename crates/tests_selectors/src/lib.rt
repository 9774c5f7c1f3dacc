//! Tests of the selectors of `jm_lexer`, `jm_syntax`, `jm_eval` and `jm_selector`, over tables: that calls find memory and
//! succeed, and which tokens, trees and values they give. Selectors with what they select are cases, and stand in `cases`.
#![tactic(auto)]

#[cfg(test)]
mod literals;
#[cfg(test)]
mod memberships;
#[cfg(test)]
mod parsed;
#[cfg(test)]
mod patterns;
#[cfg(test)]
mod tokens;
#[cfg(test)]
mod told;
#[cfg(test)]
mod trees;
#[cfg(test)]
mod values;

//! What identifiers and keywords are made of, for property names and selectors alike (Jakarta
//! Messaging 3.1, section 3.8.1.1).
//!
//! # Contract
//!
//! `is_letter`, `is_word` and `keyword_of` are their definitions: one place for the names of properties and the words
//! of selectors.
#![tactic(auto)]

mod word;

pub use word::{Keyword, is_letter, is_letter_or_digit, is_word, keyword_of};

//! The words of the program's command line, and what they ask for.
//!
//! # Contract
//!
//! `read_words` answers what the words of the command line ask for, by the matches of its library, where a limit of
//! held rows is from 1 to 1,000,000 (`HasLimit`); or the library's refusal, whose text and status are the library's.
#![tactic(auto)]

mod words;

pub use words::{Words, WordsFault, not_text, read_words};

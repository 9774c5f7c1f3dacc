//! The tokens of selector texts (Jakarta Messaging 3.1, section 3.8.1), and the faults of a text.
//!
//! # Contract
//!
//! `lex` answers what `Lexes` relates to the text: the tokens, or the first lexical fault with cause and offset. Each
//! text has exactly one such answer, `tokens`.
#![tactic(auto)]

mod fault;
mod lexer;
mod token;
mod words;

pub use fault::SyntaxFault;
pub use lexer::lex;
pub use token::{Kind, Mark, Token};

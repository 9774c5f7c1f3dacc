//! Selector texts (Jakarta Messaging 3.1, section 3.8.1): from a text to its tree or its first fault.
//! Tokens, trees and the grammar's laws are given out again.
//!
//! # Contract
//!
//! `parse` answers `parsed`: the tree that the tokens spell, none for a text without tokens, or the first fault with
//! cause and offset; it says so of the relations `Lexes` and `Spells` too, and that what is refused is faulty.
//! `jm_syntax` gives all of these out again.
#![tactic(auto)]

mod parser;

pub use jm_grammar::{law_fault, law_one_tree};
pub use jm_lexer::{Kind, Mark, SyntaxFault, Token, lex};
pub use jm_tree::{
    Additive, Comparison, Field, Identifier, Item, Items, Multiplicative, Pattern, Sort, Texts,
    Tree,
};
pub use parser::parse;

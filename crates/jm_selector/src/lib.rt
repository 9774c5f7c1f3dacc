//! A consumer's selector: its text, read once, with the tree that tells which messages it selects.
//!
//! # Contract
//!
//! `Selector` is seen as the text that stands: none where there is none or its text holds no token. `read` reads a
//! text once, and refuses exactly what `selector_refusal` does, or wants memory; `selects` is `matches` of that text
//! over a message, and takes no memory; `text` gives the text that stands, which holds a token; a copy is equal, and
//! is not read again. Two are equal where their texts are.
//!
//! `literal` is the `Literal` that a selector asks a value of a message to be equal to, if it asks so; `literals` has the
//! values of a message that may be asked so. By `law_literal` a selector selects no message that lacks its literal.
#![tactic(auto)]

mod literal;
mod selector;

pub use literal::{Literal, law_literal, literals};
pub use selector::{Selector, copy_text};

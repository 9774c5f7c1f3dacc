//! The trees of selectors (Jakarta Messaging 3.1, section 3.8.1), and the definitions of the grammar,
//! of the kinds of operands, and of what a selector text is answered with.
//!
//! # Contract
//!
//! A tree is seen as plain data, with exact copies; the grammar (`Spells`) and the order of its faults are defined,
//! and so are the items of a pattern (`items`) and the header fields that identifiers name (`field_of`).
//!
//! Three parts of a node keep what evaluation asks of them, found once, and their types carry that it agrees;
//! contracts see the plain parts: an `Identifier` (a name) the header field that it names, the `Texts` of an IN (a
//! list) the ordered set of them, the `Pattern` of a LIKE (a text) its `Items` with the escape character.
#![tactic(auto)]

mod identifier;
mod pattern;
mod sort;
mod texts;
mod tree;

pub use identifier::{Field, Identifier};
pub use pattern::{Item, Items, Pattern, Segment, next_char, next_item};
pub use sort::Sort;
pub use texts::Texts;
pub use tree::{Additive, Comparison, Multiplicative, Tree};

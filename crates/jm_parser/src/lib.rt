//! The reader of selectors (Jakarta Messaging 3.1, section 3.8.1): from tokens to a tree, or to the
//! first fault.
#![tactic(auto)]

mod cursor;
mod growth;
mod kinds;
mod leaves;
mod nodes;
mod operand;
mod predicates;
mod rules;
mod selector;

pub use selector::read_selector;

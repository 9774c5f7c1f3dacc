//! The words that every crate of the provider shares: texts and lists that contracts see as their
//! lists, the refusals, and the acknowledgement modes.
//!
//! # Contract
//!
//! `Str` is seen as its bytes, `List<T>` as the list of its elements, `Boxed<T>` as its value; a copy is equal. The
//! names of refusals, of faults of messages, of causes of refused selectors, and the modes.
#![tactic(auto)]

mod boxed;
mod list;
mod mode;
mod refusal;
mod text;

pub use boxed::Boxed;
pub use list::List;
pub use mode::Mode;
pub use refusal::{Cause, MessageFault, Refusal};
pub use text::Str;

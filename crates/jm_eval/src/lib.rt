//! The values of selectors over messages (Jakarta Messaging 3.1, section 3.8.1): unknown, truth
//! values, whole numbers and texts, and the selection of messages.
//!
//! # Contract
//!
//! `eval` is `value` of the tree over the message's `view`, `condition` the same as a condition; `selects` holds
//! exactly where the selector is absent or its value is TRUE; `like` and `like_items` are `Fits`, of a pattern as it
//! is read and of items as they are kept; `==` and `is` are the equality of what contracts see of two values. None
//! takes memory, and none fails.
//!
//! `law_names`: a name that a property may have is one identifier of a selector.
#![tactic(auto)]

mod arithmetic;
mod evaluation;
mod items;
mod laws;
mod pattern;
mod truth;
mod value;
mod view;

pub use evaluation::{condition, eval, selects};
pub use items::like_items;
pub use jm_tree::{Item, Items};
pub use laws::{law_between, law_in, law_names, law_negations};
pub use pattern::{law_fits, like};
pub use truth::Truth;
pub use value::Value;

//! Lists whose items several owners have: the part of each owner, and such a list put together of the parts.
//!
//! # Contract
//!
//! `parted` gives each owner of a list's items its part: exactly its own items, in their order (`of_owner`), so no
//! item is lost, and none comes twice. `joined` puts a list together of parts: its part of each owner is the part
//! that was handed in; it takes no memory.
#![tactic(auto)]

mod parts;

pub use parts::{joined, parted};

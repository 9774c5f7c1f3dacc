//! Calls of tests in few words, and their replies in fewer.
#![tactic(auto)]

mod asked;
mod op;
mod sends;
mod text;

pub use asked::{call, calls};
pub use op::{At, Kind, Numbers, Op, session, session_of};
pub use sends::{commit, destination, draft, publication, selector, sent};
pub use text::{all_shown, shown};

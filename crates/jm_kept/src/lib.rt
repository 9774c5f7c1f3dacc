//! The provider's core over a keeper: each step that is accepted has told the keeper what it changes of what is stored.
//!
//! # Contract
//!
//! `step` plans a step, has the keeper write what it changes, and installs it. After `Memory` and `Store` the core's
//! state is as before, and else it answers and leaves what the machine does (`KeptFits`); `Store` comes only where
//! the keeper's count of faults rose in the call or is at its last value; where the keeper is clean at the end and
//! its rows were those of the state before, they are those of the state after.
//!
//! Over a keeper that keeps nothing `step` is `step_without_store`, whose promise is `Core::step`'s (`StepFits`):
//! nothing is listed or written, and `Memory` comes only to a call that takes memory. With a keeper that keeps,
//! `Memory` also comes where listing the changes or writing them wanted memory. `step` lists by `jm_listed`; a keeper
//! that keeps nothing is as before, and one that is clean after was clean before. Where nothing is listed the keeper is not
//! called, though no clause says so. `publish` is `step` for one message that is published, which it takes by value, so that none
//! is copied where nothing is kept.
//!
//! `run` makes a list of client calls so, and its replies and end state are what a run over a keeper owes
//! (`RunKept`): each reply is the machine's and the run goes on, or it is `Memory` or `Store`, and state and
//! transactions are as before (`progress_not_made`), so that a rollback or a close that is told so drops nothing, and
//! a refused commit leaves what was sent; a send whose message was to be published has used its number.
//!
//! Such replies fit (`RepliesFit`), so they are isolated (`AreIsolated`). What holds of stored rows over a step holds
//! over the run; `Store` is among the replies only where the count of faults rose in the run or stands at its last
//! value (`HasFailed`). Over a keeper that keeps nothing `run` is `Core::run` (`RunOwed`).
#![tactic(auto)]

mod calls;
mod runs;
mod steps;

pub use runs::run;
pub use steps::{publish, step, step_without_store};

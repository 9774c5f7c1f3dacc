//! The state of a core, and each step on it: planned, which finds why it is refused and else takes all memory, and then
//! installed, which takes none.
//!
//! # Contract
//!
//! `CoreState` is seen as a `Provider`, whose `state_of` is the machine's state. `plan` leaves that state; its `Change` is
//! that of the step (`PlanFits`), and `install` of it answers the machine's reply and leaves the machine's state. `ask`,
//! `publish`, `publish_one_from` and `commit_from` are both at once (`StepFits`, `PublishFits`, `CommitFits`): what is refused
//! leaves all as before. The readers show the parts of the state; `copy` is equal but for the room, and `copy_answer` the answer
//! that a change will give. `reopen` makes the state of what was stored (`state_stored`).
#![tactic(auto)]

pub mod answering;
pub mod install;
pub mod named;
pub mod plan;
pub mod reopen;
pub mod state;

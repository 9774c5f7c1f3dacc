//! Listeners that work on a broker, each on a thread of its own where one can be made.
//!
//! # Contract
//!
//! `serve` hands all jobs back. It answers `SameSession` only where two jobs are of one session, and `Memory` only
//! where none are; then no call was made, and all jobs are as before.
//!
//! Where it answers otherwise, no two jobs are of one session, and each job made just `turns` turns: its pass has
//! grown by the calls of each turn in order (`Turn`), a take, and where a message came, the end of its delivery, well
//! just where the listener answered `Ok`, and the call that its answer names, a commit with no messages; what counts as not made is not noted.
//! For each job the number is told of its deliveries whose end was accepted.
//!
//! Nothing is promised of how many work at once, or that a gate lets a job in.
#![tactic(auto)]

mod gate;
mod jobs;
mod served;
mod turns;

pub use gate::Gate;
pub use jm_listener::{After, Listener, ListenerFault};
pub use jobs::Job;
pub use served::{ServeFault, Served, serve};

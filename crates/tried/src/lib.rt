//! What a call that takes memory is told where a request of its is refused, and what it leaves: the call is made, and after a want
//! of memory it is made again.
//!
//! # Contract
//!
//! None: what is told is compared by `tools/refused`, over the program that refuses each request in turn.
#![tactic(auto)]

mod told;
mod trial;

pub use told::{Left, Made, Told};
pub use trial::{Answer, Called, Trial, changed, of_fault, same, tell, two};

//! What a client is told of a call that is refused: the refusal, its cause, and what to do.
//!
//! # Contract
//!
//! What a client is told of a refused call: `Error` is seen as `Refused`, a refusal with its cause, where one is
//! told; `refusal()` and `cause()` are these two. A `Refusal`, a fault of a message or a want of memory that `?`
//! turns into it has no cause (`bare`). Its text says the refusal, the cause, and what to do.
#![tactic(auto)]

mod error;

pub use error::{Error, passed_on};

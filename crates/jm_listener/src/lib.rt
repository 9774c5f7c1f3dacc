//! What works on the messages of a consumer: listeners, and what is called for the session after a message.
//!
//! # Contract
//!
//! A `Listener` handles a message and names a call, or fails. It may say by a ghost member what it does (`handles`): who
//! calls it knows just that, and by default nothing.
#![tactic(auto)]

mod listener;

pub use listener::{After, Listener, ListenerFault};

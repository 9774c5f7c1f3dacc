//! Sessions at a broker's lock: what each session's thread holds, calls at it, and stretches of calls in which all sessions call
//! at once.
//!
//! # Contract
//!
//! `Seat` is seen as a session's half (a `Buffer`) and its pass.
//!
//! `call` makes a client's call and says exactly which step it asks for, what the pass notes, what is told, and what
//! the half is then (`SeatFits`): a request is one step; a send in a session that is not transacted uses its number
//! and is published by one step, whose refusal it is told; a send in a transacted one makes no step, and its message
//! waits behind all that wait, or memory is wanted and all is as before; a commit is one step with all that waits,
//! and where it is refused that still waits.
//!
//! A send that is not stamped makes no step and leaves all as before: `IllegalState` where the session is not open at
//! the seat, or is another's, then `OutOfRange`, then `Exhausted`. The seat is open from an accepted `CreateSession`
//! of its session to an accepted `CloseSession` or a `CloseConnection` that it hears (`hear`), which drop what waits,
//! as an accepted rollback does; `hear` takes no memory.
//!
//! Which state a step met is not said.
#![tactic(auto)]

mod desk;
mod effect;
mod seat;
mod seats;
mod stretch;

pub use seat::Seat;
pub use seats::Seats;
pub use stretch::StretchFault;

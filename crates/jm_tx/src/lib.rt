//! What sessions send. A session's half of its transaction, which the client's thread owns, stamps what the session sends,
//! and keeps what is sent in a transacted session until the commit takes it. It holds no handle and no lock. A run keeps
//! the halves of its sessions in one table.
//!
//! # Contract
//!
//! `SessionHalf` is seen as a `Buffer`: the session, its mode, how many sends it made, the messages that wait for its
//! commit, and whether it is closed. `send` stamps (`stamp_of`:
//!
//! `IllegalState`, `OutOfRange`, `Exhausted`, in this order; time to live and delivery delay of what is kept count
//! from its send, and not from the commit), and in a transacted session keeps the message behind all that wait, or
//! wants memory; a refused one leaves all as before (`SendFits`).
//!
//! `pending` shows the messages that wait, `take_commit` hands out exactly these, `put_back` takes them back,
//! `drop_all` and `close` drop them; none of these takes memory or can fail. `Halves` holds the halves of a run's
//! sessions, seen as two functions from sessions: how many sends of each were stamped (`sent_of`), and which messages
//! of each wait (`kept_of`); and the `room` for more sessions.
//!
//! Its `send`, of an open session whose mode is named, answers and leaves the same (`RunSendFits`); it wants memory
//! only to keep a message, and at a session's first send where there is no room. `take_commit`, `put_back`,
//! `drop_all` and `drop_connection` are of one session, or of all those of a connection, and leave each other session
//! and all counts; none of them takes memory or can fail. Look-ups do not scan.
#![tactic(auto)]

mod buffer;
mod half;
mod halves;

pub use buffer::{Buffer, Sent};
pub use half::SessionHalf;
pub use halves::Halves;

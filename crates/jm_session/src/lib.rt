//! The connections and sessions of the provider, the consumers that were made in them, and how many
//! sends of each session were stamped. Every look-up is by number or by client, and costs the same
//! however many there are; `Sessions::open` says when one by client does not.
//!
//! # Contract
//!
//! `Sessions` is seen as the machine's `Life` with the list of consumers, and the room that is left. Each call is
//! refused exactly where the machine refuses it, and a refused one leaves all as before: `open` as IllegalState where
//! the number was used, then as InvalidClientId where an open connection has the client (`open_cause`).
//!
//! `client_of` is the client of a connection, `is_client_taken` whether an open one has it, which is found by a table
//! of the clients of open connections; an entry of it is a copy, and where memory for one was refused, the connection
//! opens all the same, and clients are found by a walk until room is reserved again. A consumer listens
//! (`is_listening`) and is busy (`is_busy`) only while it is active:
//!
//! `set_listening` is refused exactly where the machine's `may_set_listener` fails, and `set_busy` where the consumer
//! neither may take nor, to become free, may be done; a busy one is not closed alone, but closes with its session or
//! connection.
//!
//! It is made of a `Source`: its key and its selector, with a second copy of a key that has a name, for the count of
//! active consumers at such keys (`attached`, `AreCounted`), which each close keeps; `is_idle` says by it whether a
//! key has none. Look-ups by number do not scan and take no memory, nor do `start`, `stop` and the three closes, and
//! no call does for which room was reserved.
//!
//! The numbers of the active consumers and of the open sessions are kept in their order (`AreActive`, `AreOpen`,
//! invariants of the types), in which those of a session or of a connection stand together. So a close touches what it
//! closes, and looks at no other consumer or session, open or closed: it finds by halves where they stand, and marks
//! each. Only once in so many closes that an eighth of the numbers went with them are the rest of the numbers moved.
//! What is closed stays known, and its number is never free again; closing it again does nothing. `of_one` holds the
//! connection, the session and the consumer that are given, as they are, and nothing else.
//!
//! `Sends` is seen as a function from sessions to how many sends of each were stamped, and the room that is left: it
//! gives the number of the next send, `None` where the count is at its end, and counts one; that takes memory at a
//! session's first send alone, and none where there is room. A `copy` of the first is equal but for the room.
#![tactic(auto)]

mod clients;
mod closing;
mod copies;
mod marks;
mod number;
mod one;
mod roster;
mod sections;
mod sends;
mod sessions;
mod source;

pub use sends::Sends;
pub use sessions::Sessions;
pub use source::Source;

//! What each change does to the parts of a core: what is known by number, the subscriptions, what is held for them, and
//! what queues hold.
//!
//! # Contract
//!
//! What wants memory is asked first, by a function that changes nothing but the room, also where memory is wanted
//! (`prepare_open`, `prepare_session`, `prepare_create`, `prepare_under`, `prepare_publications`, `prepare_delivery`): it says
//! what cause stands, as the machine does, or that the change may be made. Its counterpart then makes the change, takes no memory
//! and cannot fail (`make_open`, `make_session`, `make_consumer`, `make_publications`, `make_delivery`); so do those that need
//! nothing prepared (starts, stops, closes, `make_settle`, `make_give_back`, listeners).
//!
//! A `Publication` is a message with where it goes: a queue's key, or the subscriptions that take it (`IsAimed`), in order. A
//! `Taking` is a delivery that is prepared: the index of the key, and what was picked there. `copy_delivery` copies its answer
//! from the row that was picked. A `Wanted` is a subscription that has a name, as a request asks for it.
//!
//! What was stored (`StoredSubscription`, `StoredMessage`, `Holders`) is put into empty parts by `add_subscriptions` and
//! `load_messages`; `admits` and `queue_admits` say what may have been stored so.
#![tactic(auto)]

pub mod answering;
pub mod close;
pub mod copies;
pub mod create;
pub mod life;
pub mod listen;
pub mod named;
pub mod publish;
pub mod receive;
pub mod reopen;
pub mod stored;

//! The provider as a machine, in definitions: what a client may ask, what is answered, what state
//! is held, and what one subscription answers alone. The types are those that all layers speak of;
//! `specs/` is what is to be read in order to believe the product.
//!
//! # Contract
//!
//! The types of calls, answers and the state, with exact copies, and the definitions, among them the states that the
//! provider reaches, from a new core or from one that is made of what was stored (`Reached`); look-ups by number in
//! lists of them (`find`), the consumers that one step is about (`Consumers`), and what a delivery hands out of a
//! row, all of which take no memory. The own keys of such consumers are a section of the keys in their order.
//!
//! `Attached` is seen as the number of active consumers at each key of a subscription that has a name (`number_at`),
//! and for how many more keys there is room: `join` and `leave` count one more and one less, `number` is found by the
//! order of the keys, and `ends` says which subscriptions end once consumers are closed (`ended`); only `reserve` and `of`
//! take memory.
//!
//! A consumer has two marks, whether it listens and whether it is busy; `Request` has `SetListener`, `Take` and
//! `Done`.
#![tactic(auto)]

mod answer;
mod attached;
mod call;
mod consumers;
mod delivery;
mod entry;
pub mod find;
mod state;

pub use answer::{Answer, Delivery, Reply, copy_reply, same_reply};
pub use attached::{Attached, is_named};
pub use call::{Call, ClientCall, Request, Step, Who};
pub use consumers::Consumers;
pub use entry::{Entry, Event};
pub use state::{
    ConnectionState, Consumer, Definition, PlacedRow, Row, RowState, SessionState, Station,
};

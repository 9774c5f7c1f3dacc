//! The laws of what is stored: which changes lead from what is stored of one state to what is stored of the next, proved
//! of definitions alone.
//!
//! # Contract
//!
//! `law_changes`: in each state whose rows stand in order, the changes that a call asks for, where it is not refused,
//! lead from what is stored before it to what is stored after it: a publication (messages in turn: of a PERSISTENT
//! one that some queue or durable subscription takes a queue's station, the message, its delivery time where it has a
//! delay, its rows), a commit (what is out to the session is dropped, then the same), a receive on a started
//! connection from a queue or a durable subscription (what has lapsed is dropped; the next row too where the mode
//! settles, else its count is set), an acknowledgement in mode Client, a listener's take on a started connection
//! (what has lapsed is dropped, and the count of the next row is set, in every mode), a listener that is done and
//! settles its message in modes Auto and Dups (what is out through its consumer is dropped), the making, replacing
//! and deletion of a durable subscription; every other call asks for none.
//!
//! A message that is dropped goes with its delivery time where it has one. `law_done`: what a listener that is done
//! loses. `law_refused`: a refused call for none. `law_order`: rows stand in order in each reached state.
//! `law_apart`: where a queue's row stands, no row of another key does, also from a reopened state. The others are
//! its parts.
#![tactic(auto)]

mod law;

pub use law::{
    law_apart, law_chain, law_changes, law_count, law_delete, law_done, law_drops, law_new,
    law_nothing, law_order, law_publish, law_put, law_puts, law_receive, law_receive_counted,
    law_refused, law_return, law_settle, law_station,
};

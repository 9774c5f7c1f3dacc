//! The core of the provider: one state, changed one step at a time. Each step answers what the
//! machine of `jm_machine` answers, or wants memory and changes nothing. A step is prepared, which finds why it
//! is refused and else takes all memory, and then made, which takes none.
//!
//! # Contract
//!
//! `Core` is seen as a `Provider`: what is known by number, the subscriptions and what is held for them, and what the
//! queues hold, each with its room.
//!
//! What the queues hold stands in a second `Stations` with messages of its own, at places of the one count (`jm_queues`).
//!
//! Its `state_of` is the machine's `State`, which is reached by the type (`law_core_reached`), and of that the
//! contracts speak.
//!
//! `plan` leaves the state, and gives a `Plan` of the call on the core as it stands (`IsPlan`: no cause stands, and
//! there is room); or it refuses (`IsRefused`) as the machine does, or wants memory, only where the call takes memory
//! (`may_want`: it opens a connection or a session, makes a consumer, deletes a subscription, publishes or commits, takes a
//! message for a listener, or receives a copy, in modes Client and Transacted or of a message that another row holds too, and
//! no cause stands but a refused selector; a queue's message has no other row).
//!
//! `install` of a plan of the core as it stands (`IsPlanned`) answers the machine's reply and leaves the machine's
//! state (`InstallFits`), needs no memory and cannot fail. `step` is both (`StepFits`).
//!
//! A commit is planned whole, and installed it settles what is out to the session before it publishes: so it is
//! refused with nothing changed, and a subscription at its limit holds as much of what is published as was settled
//! there.
//!
//! `station` gives a copy of what is held under a subscription's key, `queue_rows` copies of a queue's rows,
//! `stations_len` the number of subscriptions, `kept` that of the messages that these hold (`IsNumberOfMessages`),
//! `kept_by_queues` that of the messages of queues; a `copy` is equal.
//!
//! Each row is accepted by the subscription that holds it (`HoldsAccepted`), and the rows of each stand by place
//! below the next place (`AllInOrder`): `law_rows_in_order`. Each subscription that is not durable holds at most as
//! many rows as the limit says (`law_rows_within_limit`), and each row that is out is out to a session that is open
//! (`law_rows_out_to_open`).
//!
//! `new` is refused exactly where a number is out of range (`may_open`). `run`: replies and end state are what a run
//! owes (`RunOwed`): as `step`, where a send in a transacted session is kept for its commit and takes no step, a
//! commit publishes exactly what the session sent in its transaction, and a refused one leaves it there, while a
//! rollback and a close drop it.
//!
//! A send that wants memory has used its number where it was to be published, and leaves all as before where it was
//! to be kept. What is open at the end is dropped; an error of the whole means that no call was made. `run` says that
//! its replies are isolated (`AreIsolated`), from the core as it was before.
//!
//! `reopen` makes a core of what was stored: durable subscriptions (`StoredSubscription`: key and definition) in the
//! order in which they are given, and messages by place (`StoredMessage`), each with those who hold it (`Holders`):
//! its queue, with a count, or subscriptions, each by its index with a count of its own.
//!
//! Its state is `state_stored`: the definitions, the rows under each key and at each queue by place, all waiting,
//! with their counts; missed 0; nobody connected; the next place is one above the greatest, or 1.
//!
//! It asks that all of this may be (`MayReopen`): keys durable and once, places from 1 to 2^63-1, each above those
//! before it, and who holds a message may hold it; a caller tests that by `admits` (a durable subscription of that
//! definition may hold that stored message: PERSISTENT, of its topic, selected) and `queue_admits`, which take no
//! memory. It is refused as `OutOfRange` exactly where `new` is, and else wants memory.
//!
//! A take is planned as a delivery that stays out, and wants memory for its copy in every mode; once installed, the
//! consumer is busy exactly where a message is handed out. Done settles or gives back what is out through its
//! consumer under that consumer's key, in modes Auto and Dups alone; it takes no memory.
//!
//! `key_at` and `index_of` go over the keys of subscriptions and then of queues, `keys_len` of them, and each key
//! under which rows stand is one of them (`CoversRows`); `rows_at` gives the rows under a key without a copy
//! (`Rows`).
//!
//! A `Plan` shows which subscription it deletes and puts; `lasting_takers` gives the queue or durable subscriptions
//! that take a message of it (`AreLasting`); `taken` the place of the row that a planned delivery takes, without a search
//! (`takes`); `copy_answer` is the answer that `install` will give, and may want memory where a message is delivered.
//! `law_places`: the next place is 2^63 at most.
#![tactic(auto)]

mod answering;
mod planned;
mod provider;
mod reading;
mod run;

pub use jm_machine::{
    Answer, Call, ClientCall, ConnectionState, Consumer, Definition, Delivery, PlacedRow, Reply,
    Request, Row, RowState, SessionState, Station, Step, Who, copy_reply,
};
pub use jm_parts::stored::{Holders, StoredMessage, StoredSubscription, admits, queue_admits};
pub use jm_queues::rows::Rows;
pub use jm_stations::{Standing, StoredRow};
pub use planned::Plan;
pub use provider::{
    Core, law_core_reached, law_rows_in_order, law_rows_out_to_open, law_rows_within_limit,
};
pub use reading::law_places;
pub use run::drop_ended;

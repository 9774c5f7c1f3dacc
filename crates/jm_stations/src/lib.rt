//! What is held under each key: the rows of all keys over one table, in which each message stands once.
//! A publication is put into the table and added to the rows of each key that takes it; a delivery that takes
//! a message's last row moves the message out. Only what reserves or copies takes memory.
//!
//! # Contract
//!
//! `Stations` is seen as the keys in order of creation, each once, what is held under each in that order (rows with
//! their messages by place, limit, missed count, room), the place of the next publication, and for how many more
//! messages and keys there is room. `index_of` answers where a key stands, by their order; `indexes_of` answers the same
//! of each of many keys, and of distinct ones distinct indexes.
//!
//! `reserve_key` makes room for a key, and changes nothing but the room, also where memory is wanted; `create` then
//! adds a new key behind all others, under which nothing is held, and takes no memory. `reserve` makes room for more
//! messages, and for as many more rows under each key that is named by its index; also where memory is wanted it
//! changes nothing but the room, which is never less after it (`HasMoreRoom`).
//!
//! `publish` takes the next place and leaves under each named key the message more, or at its limit one more missed,
//! and under each other what it was (`IsPublished`); it takes no memory where room is there.
//!
//! `load` does the same under one key with a row that was held elsewhere, which keeps its state and its count;
//! `load_shared` takes a message that was stored, once for all keys that hold it: it takes the next place, and under
//! the key of each index that is named comes a waiting row with a count of its own (`AreLoaded`); `skip_to` sets the
//! place of the next publication, not below what it was; neither takes memory.
//!
//! `pick` answers what a delivery from the rows under a key takes (`picked_of`): the place of the next row, with a copy of
//! its message, where it is not settled at once or another row holds it; `pick_where` of the next one whose message a selector
//! selects; where each message passes both pick the same. They change nothing, and want memory only where a copy is wanted.
//!
//! `receive` and `deliver` are handed what was picked, answer the machine's `delivery` and change those rows by the machine's
//! `deliver_chosen`: the row is settled, or goes out to the session through its consumer, counted once more. They take the row
//! by its place, so that none is searched twice, and take no memory.
//!
//! `settle` and `give_back` are the machine's `settled_rows` and `returned_rows` of what is held under each key;
//! `close` takes out the keys whose subscriptions end once consumers are closed (`ended`), with their rows, and
//! leaves what is held under the others; `is_home` says whether no row under a key is out; `missed` answers how many
//! publications were missed under a key. None takes memory.
//!
//! `kept` is the number of places that have a row. `rows_of` answers the rows under a key, with copies of their
//! messages; a `copy` has the same keys, and the same under each but for the room. `remove` takes a key out with its
//! rows, and each message that no other row holds; it takes no memory.
//!
//! `row_of`, `row_picked`, `row_from`, `lapsed_from` and `out_from` by index give `Standing`, a row with its
//! message borrowed; `row_picked` gives the row that was picked, at its place, so that it is not searched a second time;
//! `holders_of` says how many rows of all keys stand at a place, `holder_from` the first key from
//! an index on under which one does; `key_at` the key of an index, `keys` all of them in order of creation.
//!
//! `settle_at` and `give_back_at` do what `settle` and `give_back` do under one key alone, and look at no other.
//!
//! # Costs
//!
//! A key is found by halves, and what is held under it by its index, by halves among those that went. `remove` moves what is held
//! under no other key, but for one call in so many that an eighth of the keys can go before the next one; so it costs the same
//! among few keys and among many, but that it looks at the index of each key under which rows may be out.
#![tactic(auto)]

mod copies;
mod delivering;
mod handing;
mod lists;
mod loading;
mod outstanding;
mod picked;
mod reading;
mod standing;
mod stations;

pub use loading::StoredRow;
pub use picked::Picked;
pub use standing::Standing;
pub use stations::Stations;

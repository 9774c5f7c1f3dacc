//! Sets and maps of keys in order of coming, of which each is found by the order of the keys, and each goes without moving others.
//!
//! # Contract
//!
//! `KeySet<K>` is seen as the keys in order of coming, each once, and `spare`, for how many more there is room. `index_of`
//! answers where a key stands (`Order.index_in`: the first that is equal by `==`, of which there is one), and so does
//! `index_near`; `key_at` gives keys back, `any` says whether a `Choice` keeps some key (`list_any`), and `index_in` answers where
//! a key of a `Section` stands, where there is one.
//!
//! `reserve` makes room and changes nothing but the room; it alone, and `copy_with`, want memory. `insert` puts a key that is
//! new behind all others, `remove` takes one out, and those behind it have their indexes one less, `retain` leaves those that a
//! `Choice` keeps (`filter`), in their order; neither takes memory, and room is never less for it. `copy_with` makes the set of
//! equal keys that are handed in.
//!
//! `KeyMap<K, V>` has a value for each key. It is seen as its entries, the keys with their values in order of coming, and
//! `spare`. `get`, `contains_key`, `index_of` and `index_near` look for a key (`lookup` by `==`), `entry_at` and `key_at` give
//! back what stands there, `any_key` says whether a `Choice` keeps some key, `index_in` where one of a `Section` stands,
//! `value_mut` and `get_mut` lend a value to write (`with_value_at`, `WritesThrough`). `insert` and `remove` say what is found
//! under each key afterwards (`Updates`), and where the entries stand; `remove_at` takes out what stands at an index, `retain`
//! leaves those that an `EntryChoice` keeps. As with sets, `reserve` alone wants memory.
//!
//! A `Section` is a stretch of the keys in their order: it says of each key whether that comes before it, is in it, or comes
//! behind it, and of two keys the later one never stands earlier (`IsMonotone`; where the section is of keys by the first part of
//! their order, `monotone_first` shows it). What `index_in` is given as a guess is a hint alone: whatever it holds, the answer is
//! where some key of the section stands, and it is none only where none does. So who asks and takes out what was answered, until
//! there is no answer, has taken out all keys of the section, and no others.
//!
//! # Costs
//!
//! A key is found by halves: it is compared with at most 2 + log2(s) of the keys in `s` slots, whatever the keys are, so there is
//! no seed, no source of chance, and no choice of keys that makes it slower. `index_near` looks at a guessed index first, by one
//! comparison: keys that are asked for in their order of coming, each behind the one before, cost no search.
//!
//! `index_in` looks at the guessed place of the order first, and goes on from there over slots of the section whose entries went.
//! Where nothing of the section is left from there on, it finds by halves where the section begins, and goes on from that place. So
//! a section whose keys are taken out one by one, by the guess that was left, is gone over once, and once more to say that nothing
//! is left, however many keys stand outside of it; where the slots close up meanwhile, the guess is too far, and what is left of
//! the section is gone over from its beginning.
//!
//! Each entry has a slot, and what goes leaves its slot empty: nothing else moves. `remove` finds the slot by halves and notes it
//! among the gaps, which moves numbers of eight bytes in one block, at most an eighth as many as there are slots. The key of an
//! entry that went is dropped when the slots close up, and stands in the order until then. The slots close up in one walk over
//! them, in `retain`, and in `remove` where an eighth of the slots are gaps, so that between two such walks an eighth of the
//! entries can go; and in `reserve` where there is no room and more than one slot in sixteen is a gap, so that entries which come
//! as others go want no more memory. An index of an entry that stands behind gaps costs a search by halves among the gaps.
//!
//! What goes into the order shifts the places behind: `insert` moves at most `s` numbers of eight bytes in one block. So 20,000
//! keys that come in the worst order move 200,000,000 numbers in all, which is 1.6 GB in blocks of at most 160 kB: some tenth of
//! a second. A balanced tree would move fewer, but takes memory at each key, or a slab of links, and is left until somebody holds
//! far more. Beside each key stand its place in the order, room for a mark that a walk writes, and room for an eighth of a gap:
//! seventeen bytes; beside each value stands whether there is one. An entry that went takes its slot's memory until the next walk.
#![tactic(auto)]

mod choice;
mod copy;
mod key_map;
mod key_set;
mod order;
mod section;
mod sweep;

pub use choice::{Choice, EntryChoice};
pub use key_map::KeyMap;
pub use key_set::KeySet;
pub use section::Section;

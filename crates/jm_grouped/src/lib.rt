//! Lists of values in order of coming, in which those that are equal are found together, and each goes without moving others.
//!
//! # Contract
//!
//! `GroupedList<T>` is seen as its items in order of coming, of which some may be equal, and `spare`, for how many more there is
//! room. `at` gives items back. `indexes_of` answers where all those stand that are equal to a value by `==` (`indexes_of`): an
//! iterator over their indexes, in rising order, which is seen as the list of those that are to come.
//!
//! `reserve` makes room and changes nothing but the room; it alone, and `copy_with`, want memory. `push` puts an item behind all
//! others, `remove_at` takes one out, and those behind it have their indexes one less; neither takes memory, and no room is lost
//! but that of the item that came. `copy_with` makes the list of equal items that are handed in.
//!
//! # Costs
//!
//! Equal items stand together in the order of the items, each behind those that came before it. Where they begin is found by
//! halves, and so is where they end: a value is compared with at most 2 + 2 * log2(s) of the items in `s` slots, whatever the
//! items are, so there is no seed, no source of chance, and no choice of items that makes it slower. Each step of the iterator then
//! reads a place of the order, passes those whose items went, and finds the index of the slot by halves among the gaps.
//!
//! Each item has a slot, and what goes leaves its slot empty: nothing else moves. `remove_at` finds the slot by halves and notes it
//! among the gaps, which moves numbers of eight bytes in one block, at most an eighth as many as there are slots. An item that went
//! is dropped when the slots close up, and stands in the order until then. The slots close up in one walk over them: in `remove_at`
//! where an eighth of the slots are gaps, so that between two such walks an eighth of the items can go; and in `reserve` where
//! there is no room and more than one slot in sixteen is a gap, so that items which come as others go want no more memory.
//!
//! What goes into the order shifts the places behind: `push` moves at most `s` numbers of eight bytes in one block, and none where
//! the item is not below any other. So 20,000 items that come in the worst order move 200,000,000 numbers in all, which is 1.6 GB in
//! blocks of at most 160 kB: some tenth of a second. Beside each item stand its place in the order, room for a mark that a walk
//! writes, whether the item is there, and room for an eighth of a gap: eighteen bytes. An item that went takes its slot's memory
//! until the next walk.
#![tactic(auto)]

mod copy;
mod grouped_list;
mod indexes;
mod order;
mod sweep;

pub use grouped_list::GroupedList;
pub use indexes::Indexes;

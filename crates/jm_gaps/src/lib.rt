//! Lists of items in order of coming, each found by its index, of which each goes without moving others.
//!
//! # Contract
//!
//! `GapList<T>` is seen as its items in order of coming, and `spare`, for how many more there is room: to its callers it is a list
//! by index. `at` gives back the item at an index, and `at_mut` lends it to write (`with_item_at`). `push` puts an item behind all
//! others. `remove` takes out the item at an index, and those behind it have their indexes one less.
//!
//! `reserve` makes room and changes nothing but the room; it alone wants memory. `remove` leaves as much room at least as there
//! was, not one more: the place of an item that went is room again only once the gaps are closed.
//!
//! # Costs
//!
//! Each item has a slot, and what goes leaves its slot empty: nothing else moves. `push` costs the same however many items there
//! are. `at` and `at_mut` look at no more than 1 + log2(g) of `g` gaps. `remove` finds the slot in the same way and notes it among
//! the gaps, which moves the gaps behind it by one, eight bytes each, in one block: none where items go in their order.
//!
//! The gaps are closed in one walk over the slots, in which items move: in `remove` where an eighth of the slots are gaps, so that
//! between two such walks an eighth of the items can go; and in `reserve` where there is no room and more than one slot in sixteen
//! is a gap, so that items which come as others go want no more memory. An item takes what an `Option<T>` takes, and a byte for
//! its part of the room for gaps; one that went takes as much until the next walk.
#![tactic(auto)]

mod gap_list;

pub use gap_list::GapList;

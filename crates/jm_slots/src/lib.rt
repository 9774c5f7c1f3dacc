//! Lists of items that keep their slots while others go.
//!
//! # Contract
//!
//! `Slots<T>` is seen as what stands in each slot, an item or none, `spare`, for how many more items there is room, and `leaving`,
//! how many may be taken out before the gaps have to be closed. The items that are there stand in order of coming (`items`). An
//! item's slot is where it stands, and its index is how many items stand before it (`items_before`): `index_of` and `slot_of` go
//! from the one to the other. `get` and `at` give items back, by slot and by index; `get_mut` lends one to write (`with_item`).
//!
//! `reserve` makes room and changes nothing but the room; it alone wants memory. `push` puts an item behind all others. `take`
//! takes one out of its slot, and each other keeps its own. `sweep` closes all gaps: each item's slot is then its index, and so
//! does `retain_marked`, which lets those go that are not marked to stay. `clear` lets all go. `keep_marked` does as
//! `retain_marked` with a list, for what stands beside the slots (`marked_below`).
//!
//! # Costs
//!
//! `push` and `get` cost the same however many items there are. `index_of`, `slot_of` and `at` look at no more than 1 + log2(g) of
//! `g` gaps. `take` moves no item: it finds the slot's place among the gaps by halves, and moves the gaps behind it by one, eight
//! bytes each, in one block. There is room for one gap at least in eight slots. So the gaps have to be closed only where an eighth
//! of the slots is empty or more, and `sweep`, which looks at each slot once, then looks at eight at most for each item that went.
//! A slot takes what an `Option<T>` takes, and a byte at least for its part of the room for gaps.
#![tactic(auto)]

mod marks;
mod search;
mod slot_list;

pub use marks::keep_marked;
pub use slot_list::Slots;

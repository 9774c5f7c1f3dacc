//! Indexes of items that are equal.

ghost use Rattle.std.specs.Iterator.{YieldsFirst, item_count};

use jm_slots::Slots;
use std::marker::Model;

/// The indexes of the items that are equal to a value, in rising order. Contracts see the list of those that are to come.
#[derive(Drop)]
pub struct Indexes<'a> {
    /// The slots of such items that are to come, with some whose items went.
    pub(crate) places: &'a [usize],
    /// Which slots are taken.
    pub(crate) slots: &'a Slots<()>,
}

impl<'a> Model for Indexes<'a> {
    ghost use Rattle.std.specs.Prelude.{ℕ, List};
    ghost use Rattle.jm_grouped.specs.Order.{indexes_in};

    ghost Value = { List ℕ };

    ghost view = { λ i. indexes_in i.slots.now.slots i.places.now };
}

impl<'a> Iterator for Indexes<'a> {
    type Item = usize;

    ghost next_gives = { YieldsFirst (λ rest. rest) };

    ghost remaining = { item_count (λ rest. rest) };

    fn next(&mut self) -> Option<usize> {
        while let Some((slot, rest)) = self.places.split_first() {
            self.places = rest;
            if self.slots.get(*slot).is_some() {
                return Some(self.slots.index_of(*slot));
            }
        }
        None
    }
}

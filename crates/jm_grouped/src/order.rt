//! Slots in the order of their items.

ghost use Rattle.std.specs.Prelude.{◌≡◌, ℕ, ◌+◌, ◌<◌, ◌≤◌, ◌++◌, ◌∷◌, ◌||◌, ◌&&◌, true, false, [], length, slice_index, vec_len};
ghost use Rattle.std.specs.List.{Contains};
ghost use Rattle.std.specs.Ordering.{is_eq, is_lt};
ghost use Rattle.std.specs.Vec.{vec_capacity};
ghost use Rattle.jm_grouped.specs.Order.{IsGroup, IsRising, is_counted};

use std::cmp::Ordering;

/// Whether an item is counted that stands so to a value: one that comes before it, or is equal to it where those are counted too.
fn counts(side: Ordering, and_equal: bool) -> bool
    ensures { result ≡ (is_lt side || and_equal && is_eq side) }
{
    side.is_lt() || and_equal && side.is_eq()
}

/// How many of the slots have items that come before the value, or are equal to it where those are to be counted too. It compares
/// at most one item for each halving.
pub(crate) fn count_before<T: Ord>(
    items: &[T],
    order: &[usize],
    value: &T,
    and_equal: bool,
) -> usize
    requires { IsRising T.cmp items.now order.now }
    ensures within { result ≤ length order.now }
    ensures before { (k : ℕ) → k < result → is_counted T.cmp items.now value.now and_equal (slice_index order.now k) ≡ true }
    ensures behind { (k : ℕ) → result ≤ k → k < length order.now
        → is_counted T.cmp items.now value.now and_equal (slice_index order.now k) ≡ false }
{
    let mut low = 0;
    let mut high = order.len();
    while low < high {
        let middle = low + (high - low) / 2;
        if counts(items[order[middle]].cmp(value), and_equal) {
            low = middle + 1;
        } else {
            high = middle;
        }
    }
    low
}

/// The slots of the order whose items are equal to the value: they stand together.
pub(crate) fn group_of<'a, T: Ord>(items: &[T], order: &'a [usize], value: &T) -> &'a [usize]
    requires { IsRising T.cmp items.now order.now }
    ensures { IsGroup T.eq items.now order.now value.now result.now }
{
    let first = count_before(items, order, value, false);
    let end = count_before(items, order, value, true);
    &order[first..end]
}

/// Puts the slot behind all of theirs, that of the value, where it belongs: behind those of all items that are not above it. Takes
/// no memory, since there is room.
pub(crate) fn insert_slot<T: Ord>(items: &[T], order: &mut Vec<usize>, value: &T)
    requires order { IsRising T.cmp items.now order.old.items }
    requires room { vec_len order.old < vec_capacity order.old }
    ensures order { IsRising T.cmp (items.now ++ value.now ∷ []) order.new.items }
    ensures others { (slot : ℕ) → Contains order.old.items slot → Contains order.new.items slot }
    ensures there { Contains order.new.items (length items.now) }
    ensures len { vec_len order.new ≡ vec_len order.old + 1 }
    ensures capacity { vec_capacity order.old ≤ vec_capacity order.new }
{
    let at = count_before(items, order, value, true);
    let _ = order.insert(at, items.len());
}

//! Stretches of keys in their order, and the places of those that stand in them.

ghost use Rattle.std.specs.Prelude.{◌≡◌, ℕ, ◌<◌, ◌≤◌, true, length, slice_index, slice_index_or, IfNone, IfSome, MatchOption};
ghost use Rattle.std.specs.Ordering.{is_lt};
ghost use Rattle.std.specs.declared.cmp.Ordering.{Ordering};
ghost use Rattle.jm_indexed.specs.Order.{IsBegun, IsInsideAt, IsOutsideFrom, IsRising};
ghost use Rattle.jm_indexed.specs.Section.{IsMonotone};

use jm_slots::Slots;
use std::cmp::Ordering;

/// A stretch of the keys in their order. It answers the same whenever it is asked of a key, and keys that come later in the order
/// never stand earlier to it.
pub trait Section<K: Ord> {
    // `Less`: the key comes before the section; `Equal`: it is in it; `Greater`: it comes behind it.
    ghost place: { Self → K → Ordering };

    /// Where the key stands to the section: before it, in it, or behind it.
    fn compare(&self, key: &K) -> Ordering
        ensures { result ≡ place self.now key.now };

    ghost monotone: { (section : Self) → IsMonotone K.cmp (place section) };
}

/// How many of the slots have keys that come before the section. It asks of at most one key for each halving.
pub(crate) fn count_ahead<K: Ord, S: Section<K>>(keys: &[K], order: &[usize], section: &S) -> usize
    requires { IsRising K.cmp keys.now order.now }
    ensures within { result ≤ length order.now }
    ensures ahead { (k : ℕ) (d : K) → k < result →
        is_lt (S.place section.now (slice_index_or keys.now (slice_index order.now k) d)) ≡ true }
    ensures begun { IsBegun (S.place section.now) keys.now order.now result }
{
    let mut low = 0;
    let mut high = order.len();
    while low < high {
        let middle = low + (high - low) / 2;
        if section.compare(&keys[order[middle]]).is_lt() {
            low = middle + 1;
        } else {
            high = middle;
        }
    }
    low
}

/// The first place of the order, from that one on, of a slot that has a value, where the keys from there up to it are all in the
/// section.
pub(crate) fn next_inside<K: Ord, V, S: Section<K>>(
    keys: &[K],
    values: &Slots<V>,
    order: &[usize],
    section: &S,
    first: usize,
) -> Option<usize>
    requires { IsRising K.cmp keys.now order.now }
    ensures found { IfSome result (IsInsideAt (S.place section.now) keys.now values.now.slots order.now) }
    ensures none { let place = S.place section.now in
        IfNone result (IsBegun place keys.now order.now first → IsOutsideFrom place keys.now values.now.slots order.now first) }
{
    for at in first..order.len() {
        let slot = order[at];
        if !section.compare(&keys[slot]).is_eq() {
            return None;
        }
        if values.get(slot).is_some() {
            return Some(at);
        }
    }
    None
}

/// A place of the order of a slot that has a value and whose key is in the section, where there is one. It is looked for at the
/// guess, and then from where the section begins, which is found by halves.
pub(crate) fn place_inside<K: Ord, V, S: Section<K>>(
    keys: &[K],
    values: &Slots<V>,
    order: &[usize],
    section: &S,
    guess: usize,
) -> Option<usize>
    requires { IsRising K.cmp keys.now order.now }
    ensures { let place = S.place section.now in
        MatchOption result (IsOutsideFrom place keys.now values.now.slots order.now 0) (IsInsideAt place keys.now values.now.slots order.now) }
{
    match next_inside(keys, values, order, section, guess) {
        Some(at) => Some(at),
        None => {
            let first = count_ahead(keys, order, section);
            next_inside(keys, values, order, section, first)
        }
    }
}

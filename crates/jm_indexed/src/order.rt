//! Slots in the order of their keys.

ghost use Rattle.std.specs.Prelude.{◌≡◌, ℕ, ◌+◌, ◌<◌, ◌≤◌, ◌++◌, ◌∷◌, true, false, [], length, map, nat_lt, filter, slice_index, vec_len, MatchOption, Some};
ghost use Rattle.std.specs.List.{All, list_any};
ghost use Rattle.std.specs.Map.{keys_of};
ghost use Rattle.std.specs.Vec.{vec_capacity};
ghost use Rattle.jm_indexed.specs.Entries.{entries_of};
ghost use Rattle.jm_indexed.specs.Order.{is_below, IsNowhere, IsOrder, IsRising, IsSlotOf};

use crate::choice::Choice;
use jm_slots::Slots;

/// How many of the slots have keys that come before the key. It compares at most one key for each halving.
pub(crate) fn count_before<K: Ord>(keys: &[K], order: &[usize], key: &K) -> usize
    requires { IsRising K.cmp keys.now order.now }
    ensures within { result ≤ length order.now }
    ensures before { (k : ℕ) → k < result → is_below K.cmp keys.now (slice_index order.now k) key.now ≡ true }
    ensures behind { (k : ℕ) → result ≤ k → k < length order.now → is_below K.cmp keys.now (slice_index order.now k) key.now ≡ false }
{
    let mut low = 0;
    let mut high = order.len();
    while low < high {
        let middle = low + (high - low) / 2;
        if keys[order[middle]].cmp(key).is_lt() {
            low = middle + 1;
        } else {
            high = middle;
        }
    }
    low
}

/// The slot of the key, where one has a value.
pub(crate) fn find_slot<K: Ord, V>(
    keys: &[K],
    values: &Slots<V>,
    order: &[usize],
    key: &K,
) -> Option<usize>
    requires { IsOrder K.cmp keys.now values.now.slots order.now }
    ensures { MatchOption result (IsNowhere K.eq keys.now values.now.slots key.now) (IsSlotOf K.eq keys.now values.now.slots key.now) }
{
    let at = count_before(keys, order, key);
    if at == order.len() {
        return None;
    }
    let slot = order[at];
    if keys[slot] == *key && values.get(slot).is_some() {
        Some(slot)
    } else {
        None
    }
}

/// Puts the slot behind all of theirs, that of the key, where it belongs: in the place of the slot of an equal key whose value
/// went, where there is one. Takes no memory, since there is room.
pub(crate) fn insert_slot<K: Ord, V>(keys: &[K], values: &Slots<V>, order: &mut Vec<usize>, key: &K)
    requires order { IsOrder K.cmp keys.now values.now.slots order.old.items }
    requires even { length values.now.slots ≡ length keys.now }
    requires absent { IsNowhere K.eq keys.now values.now.slots key.now }
    requires room { vec_len order.old < vec_capacity order.old }
    ensures order { (v : V) → IsOrder K.cmp (keys.now ++ key.now ∷ []) (values.now.slots ++ Some v ∷ []) order.new.items }
    ensures len { vec_len order.new ≤ vec_len order.old + 1 }
    ensures capacity { vec_capacity order.old ≤ vec_capacity order.new }
{
    let at = count_before(keys, order, key);
    if at < order.len() && keys[order[at]] == *key {
        order[at] = keys.len();
    } else {
        let _ = order.insert(at, keys.len());
    }
}

/// Whether the choice keeps the key of some slot that has a value.
pub(crate) fn any_kept<K, V, C: Choice<K>>(keys: &[K], values: &Slots<V>, choice: &C) -> bool
    requires { length values.now.slots ≡ length keys.now }
    ensures { result ≡ list_any (C.kept choice.now) (keys_of (entries_of keys.now values.now.slots)) }
{
    for slot in 0..keys.len() {
        if values.get(slot).is_some() && choice.keeps(&keys[slot]) {
            return true;
        }
    }
    false
}

//! Slots that close up, once their values went.

ghost use Rattle.std.specs.Prelude.{◌≡◌, ◌-◌, ◌*◌, ◌<◌, ◌≤◌, [], filter, length, map, nat_lt, slice_index, slice_index_or, vec_len};
ghost use Rattle.std.specs.List.{All, zip};
ghost use Rattle.std.specs.Vec.{vec_capacity};
ghost use Rattle.jm_slots.specs.Items.{item_in};
ghost use Rattle.jm_indexed.specs.Entries.{entries_of, stays_in};
ghost use Rattle.jm_indexed.specs.Order.{IsIndexed, marks_of};

use crate::choice::EntryChoice;
use jm_slots::{Slots, keep_marked};

/// The choice that keeps all.
#[derive(Clone, Copy)]
pub(crate) struct Everything;

impl<K, V> EntryChoice<K, V> for Everything {
    ghost use Rattle.std.specs.Prelude.{true};

    ghost kept = { λ choice key value. true };

    fn keeps(&self, _key: &K, _value: &V) -> bool {
        true
    }
}

/// Whether the slot has a value that the choice keeps with its key.
fn stays<K, V, C: EntryChoice<K, V>>(keys: &[K], values: &Slots<V>, choice: &C, slot: usize) -> bool
    requires { slot < length keys.now }
    ensures { (d : K) → result ≡ stays_in (C.kept choice.now) (slice_index_or keys.now slot d, item_in values.now.slots slot) }
{
    match values.get(slot) {
        Some(value) => choice.keeps(&keys[slot], value),
        None => false,
    }
}

/// Writes a mark for each slot: how many of those that stay stand before it, or the number of all where it goes, since it has no
/// value or the choice does not keep it. Takes no memory, since there is room.
fn mark_slots<K, V, C: EntryChoice<K, V>>(
    keys: &[K],
    values: &Slots<V>,
    choice: &C,
    marks: &mut Vec<usize>,
)
    requires even { length values.now.slots ≡ length keys.now }
    requires none { marks.old.items ≡ [] }
    requires room { length keys.now ≤ vec_capacity marks.old }
    ensures marks { marks.new.items ≡ marks_of (stays_in (C.kept choice.now)) 0 (length keys.now) (zip keys.now values.now.slots) }
    ensures capacity { vec_capacity marks.new ≡ vec_capacity marks.old }
{
    let gone = keys.len();
    let mut stay = 0;
    for slot in 0..keys.len() {
        if stays(keys, values, choice, slot) {
            marks.push_reserved(stay);
            stay += 1;
        } else {
            marks.push_reserved(gone);
        }
    }
}

/// Puts its mark for each slot.
fn replace_each(order: &mut [usize], marks: &[usize])
    requires { All (λ i. i < length marks.now) order.old }
    ensures { order.new ≡ map (slice_index marks.now) order.old }
{
    for slot in order.iter_mut() {
        *slot = marks[*slot];
    }
}

/// Leaves the slots that stay, each as its mark says. Takes no memory.
fn keep_places(order: &mut Vec<usize>, marks: &[usize])
    requires { All (λ i. i < length marks.now) order.old.items }
    ensures items { order.new.items ≡ filter (λ n. nat_lt n (length marks.now)) (map (slice_index marks.now) order.old.items) }
    ensures fewer { vec_len order.new ≤ vec_len order.old }
    ensures capacity { vec_capacity order.new ≡ vec_capacity order.old }
{
    let gone = marks.len();
    replace_each(order, marks);
    order.retain(|slot| *slot < gone);
}

/// Leaves the entries that the choice keeps, in their order, each in the slot that is its index. Takes no memory.
pub(crate) fn keep_entries<K: Ord + Drop, V: Drop, C: EntryChoice<K, V>>(
    keys: &mut Vec<K>,
    values: &mut Slots<V>,
    order: &mut Vec<usize>,
    marks: &mut Vec<usize>,
    choice: &C,
)
    requires { IsIndexed K.cmp keys.old.items values.old.slots order.old.items marks.old.items (vec_capacity marks.old) }
    ensures indexed { IsIndexed K.cmp keys.new.items values.new.slots order.new.items marks.new.items (vec_capacity marks.new) }
    ensures entries { entries_of keys.new.items values.new.slots ≡ filter (λ e. C.kept choice.now e.0 e.1) (entries_of keys.old.items values.old.slots) }
    ensures keys_room { vec_capacity keys.old - vec_len keys.old ≤ vec_capacity keys.new - vec_len keys.new }
    ensures order_room { vec_capacity order.old - vec_len order.old ≤ vec_capacity order.new - vec_len order.new }
    ensures marks_room { vec_capacity marks.old - vec_len keys.old ≤ vec_capacity marks.new - vec_len keys.new }
    ensures values_room { values.old.spare ≤ values.new.spare }
    ensures eighth { length values.new.slots ≤ 8 * values.new.leaving }
{
    let gone = keys.len();
    mark_slots(keys, values, choice, marks);
    keep_places(order, marks);
    keep_marked(keys, marks, gone);
    values.retain_marked(marks, gone);
    marks.clear();
}

/// Closes all gaps where no value can be taken out before: then one can, where there is one. Takes no memory.
pub(crate) fn sweep_to_leave<K: Ord + Drop, V: Drop>(
    keys: &mut Vec<K>,
    values: &mut Slots<V>,
    order: &mut Vec<usize>,
    marks: &mut Vec<usize>,
)
    requires { IsIndexed K.cmp keys.old.items values.old.slots order.old.items marks.old.items (vec_capacity marks.old) }
    ensures indexed { IsIndexed K.cmp keys.new.items values.new.slots order.new.items marks.new.items (vec_capacity marks.new) }
    ensures entries { entries_of keys.new.items values.new.slots ≡ entries_of keys.old.items values.old.slots }
    ensures keys_room { vec_capacity keys.old - vec_len keys.old ≤ vec_capacity keys.new - vec_len keys.new }
    ensures order_room { vec_capacity order.old - vec_len order.old ≤ vec_capacity order.new - vec_len order.new }
    ensures marks_room { vec_capacity marks.old - vec_len keys.old ≤ vec_capacity marks.new - vec_len keys.new }
    ensures values_room { values.old.spare ≤ values.new.spare }
    ensures leaving { 0 < length (entries_of keys.new.items values.new.slots) → 0 < values.new.leaving }
{
    if values.leaving() == 0 {
        keep_entries(keys, values, order, marks, &Everything);
    }
}

/// Closes all gaps where one slot in sixteen is a gap, and there is no room for so many more. Takes no memory.
pub(crate) fn sweep_for_room<K: Ord + Drop, V: Drop>(
    keys: &mut Vec<K>,
    values: &mut Slots<V>,
    order: &mut Vec<usize>,
    marks: &mut Vec<usize>,
    lacks: bool,
)
    requires { IsIndexed K.cmp keys.old.items values.old.slots order.old.items marks.old.items (vec_capacity marks.old) }
    ensures indexed { IsIndexed K.cmp keys.new.items values.new.slots order.new.items marks.new.items (vec_capacity marks.new) }
    ensures entries { entries_of keys.new.items values.new.slots ≡ entries_of keys.old.items values.old.slots }
    ensures keys_room { vec_capacity keys.old - vec_len keys.old ≤ vec_capacity keys.new - vec_len keys.new }
    ensures order_room { vec_capacity order.old - vec_len order.old ≤ vec_capacity order.new - vec_len order.new }
    ensures marks_room { vec_capacity marks.old - vec_len keys.old ≤ vec_capacity marks.new - vec_len keys.new }
    ensures values_room { values.old.spare ≤ values.new.spare }
{
    if lacks && values.end() / 16 < values.end() - values.len() {
        keep_entries(keys, values, order, marks, &Everything);
    }
}

//! Slots that close up, once their items went.

ghost use Rattle.std.specs.Prelude.{◌≡◌, ◌-◌, ◌*◌, ◌<◌, ◌≤◌, [], filter, length, map, nat_lt, slice_index, vec_len};
ghost use Rattle.std.specs.List.{All};
ghost use Rattle.std.specs.Vec.{vec_capacity};
ghost use Rattle.jm_grouped.specs.Grouped.{items_of};
ghost use Rattle.jm_grouped.specs.Order.{IsGrouped, marks_of};

use jm_slots::{Slots, keep_marked};

/// Writes a mark for each slot: how many of those that are taken stand before it, or the number of all where it is empty. Takes no
/// memory, since there is room.
fn mark_slots(slots: &Slots<()>, marks: &mut Vec<usize>)
    requires none { marks.old.items ≡ [] }
    requires room { length slots.now.slots ≤ vec_capacity marks.old }
    ensures marks { marks.new.items ≡ marks_of 0 (length slots.now.slots) slots.now.slots }
    ensures capacity { vec_capacity marks.new ≡ vec_capacity marks.old }
{
    let gone = slots.end();
    let mut taken = 0;
    for slot in 0..gone {
        if slots.get(slot).is_some() {
            marks.push_reserved(taken);
            taken += 1;
        } else {
            marks.push_reserved(gone);
        }
    }
}

/// Puts its mark for each slot.
fn replace_each(order: &mut [usize], marks: &[usize])
    requires { All (λ i. i < length marks.now) order.old }
    ensures { order.new ≡ map (slice_index marks.now) order.old }
{
    for slot in order.iter_mut() {
        *slot = marks[*slot];
    }
}

/// Leaves the slots that are taken, each as its mark says. Takes no memory.
fn keep_places(order: &mut Vec<usize>, marks: &[usize])
    requires { All (λ i. i < length marks.now) order.old.items }
    ensures items { order.new.items ≡ filter (λ n. nat_lt n (length marks.now)) (map (slice_index marks.now) order.old.items) }
    ensures fewer { vec_len order.new ≤ vec_len order.old }
    ensures capacity { vec_capacity order.new ≡ vec_capacity order.old }
{
    let gone = marks.len();
    replace_each(order, marks);
    order.retain(|slot| *slot < gone);
}

/// Closes all gaps: each item then stands in the slot that is its index. Takes no memory.
fn close_up<T: Ord + Drop>(
    items: &mut Vec<T>,
    slots: &mut Slots<()>,
    order: &mut Vec<usize>,
    marks: &mut Vec<usize>,
)
    requires { IsGrouped T.cmp items.old.items slots.old.slots order.old.items marks.old.items (vec_capacity marks.old) }
    ensures grouped { IsGrouped T.cmp items.new.items slots.new.slots order.new.items marks.new.items (vec_capacity marks.new) }
    ensures items { items_of items.new.items slots.new.slots ≡ items_of items.old.items slots.old.slots }
    ensures items_room { vec_capacity items.old - vec_len items.old ≤ vec_capacity items.new - vec_len items.new }
    ensures order_room { vec_capacity order.old - vec_len order.old ≤ vec_capacity order.new - vec_len order.new }
    ensures marks_room { vec_capacity marks.old - vec_len items.old ≤ vec_capacity marks.new - vec_len items.new }
    ensures slots_room { slots.old.spare ≤ slots.new.spare }
    ensures eighth { length slots.new.slots ≤ 8 * slots.new.leaving }
{
    let gone = slots.end();
    mark_slots(slots, marks);
    keep_places(order, marks);
    keep_marked(items, marks, gone);
    slots.sweep();
    marks.clear();
}

/// Closes all gaps where no item can be taken out before: then one can, where there is one. Takes no memory.
pub(crate) fn sweep_to_leave<T: Ord + Drop>(
    items: &mut Vec<T>,
    slots: &mut Slots<()>,
    order: &mut Vec<usize>,
    marks: &mut Vec<usize>,
)
    requires { IsGrouped T.cmp items.old.items slots.old.slots order.old.items marks.old.items (vec_capacity marks.old) }
    ensures grouped { IsGrouped T.cmp items.new.items slots.new.slots order.new.items marks.new.items (vec_capacity marks.new) }
    ensures items { items_of items.new.items slots.new.slots ≡ items_of items.old.items slots.old.slots }
    ensures items_room { vec_capacity items.old - vec_len items.old ≤ vec_capacity items.new - vec_len items.new }
    ensures order_room { vec_capacity order.old - vec_len order.old ≤ vec_capacity order.new - vec_len order.new }
    ensures marks_room { vec_capacity marks.old - vec_len items.old ≤ vec_capacity marks.new - vec_len items.new }
    ensures slots_room { slots.old.spare ≤ slots.new.spare }
    ensures leaving { 0 < length (items_of items.new.items slots.new.slots) → 0 < slots.new.leaving }
{
    if slots.leaving() == 0 {
        close_up(items, slots, order, marks);
    }
}

/// Closes all gaps where one slot in sixteen is a gap, and there is no room for so many more. Takes no memory.
pub(crate) fn sweep_for_room<T: Ord + Drop>(
    items: &mut Vec<T>,
    slots: &mut Slots<()>,
    order: &mut Vec<usize>,
    marks: &mut Vec<usize>,
    lacks: bool,
)
    requires { IsGrouped T.cmp items.old.items slots.old.slots order.old.items marks.old.items (vec_capacity marks.old) }
    ensures grouped { IsGrouped T.cmp items.new.items slots.new.slots order.new.items marks.new.items (vec_capacity marks.new) }
    ensures items { items_of items.new.items slots.new.slots ≡ items_of items.old.items slots.old.slots }
    ensures items_room { vec_capacity items.old - vec_len items.old ≤ vec_capacity items.new - vec_len items.new }
    ensures order_room { vec_capacity order.old - vec_len order.old ≤ vec_capacity order.new - vec_len order.new }
    ensures marks_room { vec_capacity marks.old - vec_len items.old ≤ vec_capacity marks.new - vec_len items.new }
    ensures slots_room { slots.old.spare ≤ slots.new.spare }
{
    if lacks && slots.end() / 16 < slots.end() - slots.len() {
        close_up(items, slots, order, marks);
    }
}

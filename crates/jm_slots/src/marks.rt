//! Items that are marked to stay.

ghost use Rattle.std.specs.Prelude.{◌≡◌, ◌≤◌, length, vec_len};
ghost use Rattle.std.specs.Vec.{vec_capacity};
ghost use Rattle.jm_slots.specs.Marks.{marked_below};

/// Leaves the items whose marks are below `gone`, in their order. Takes no memory.
pub fn keep_marked<X: Drop>(items: &mut Vec<X>, marks: &[usize], gone: usize)
    requires { vec_len items.old ≡ length marks.now }
    ensures items { items.new.items ≡ marked_below gone marks.now items.old.items }
    ensures fewer { vec_len items.new ≤ vec_len items.old }
    ensures capacity { vec_capacity items.new ≡ vec_capacity items.old }
{
    let mut kept = 0;
    for at in 0..marks.len() {
        if marks[at] < gone {
            items.swap(kept, at);
            kept += 1;
        }
    }
    items.truncate(kept);
}

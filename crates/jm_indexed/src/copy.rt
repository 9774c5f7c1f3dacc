//! Copies of slots that have no gaps.

ghost use Rattle.std.specs.Prelude.{◌≡◌, ◌<◌, filter, length, map, replicate, Some, IfOk};
ghost use Rattle.std.specs.List.{All};
ghost use Rattle.jm_slots.specs.Items.{items_before};
ghost use Rattle.jm_indexed.specs.Order.{has_value};

use jm_slots::Slots;
use std::alloc::{AllocError, Global};

/// The slots of the order that have values, each as the index of its entry. `AllocError` where a request for memory was refused.
pub(crate) fn copy_order<V>(
    alloc: Global,
    order: &[usize],
    values: &Slots<V>,
) -> Result<Vec<usize>, AllocError>
    requires { All (λ i. i < length values.now.slots) order.now }
    ensures { IfOk result (λ copy. copy.items ≡ map (items_before values.now.slots) (filter (has_value values.now.slots) order.now)) }
{
    let mut copy = Vec::with_capacity(alloc, values.len())?;
    for slot in order {
        if values.get(*slot).is_some() {
            copy.push(values.index_of(*slot))?;
        }
    }
    Ok(copy)
}

/// So many slots with a value that says nothing. `AllocError` where a request for memory was refused.
pub(crate) fn units(alloc: Global, n: usize) -> Result<Slots<()>, AllocError>
    ensures { IfOk result (λ units. units.slots ≡ replicate n (Some tt)) }
{
    let mut units = Slots::new(alloc);
    units.reserve(n)?;
    for _made in 0..n {
        units.push(());
    }
    Ok(units)
}

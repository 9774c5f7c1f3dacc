//! Copies of slots that have no gaps.

ghost use Rattle.std.specs.Prelude.{◌≡◌, replicate, Some, IfOk};
ghost use Rattle.jm_grouped.specs.Order.{indexes_in};

use crate::indexes::Indexes;
use jm_slots::Slots;
use std::alloc::{AllocError, Global};

/// The slots of the order that are taken, each as the index of its item. `AllocError` where a request for memory was refused.
pub(crate) fn copy_order(
    alloc: Global,
    order: &[usize],
    slots: &Slots<()>,
) -> Result<Vec<usize>, AllocError>
    ensures { IfOk result (λ copy. copy.items ≡ indexes_in slots.now.slots order.now) }
{
    let mut copy = Vec::with_capacity(alloc, slots.len())?;
    copy.extend(Indexes {
        places: order,
        slots,
    })?;
    Ok(copy)
}

/// So many slots that are taken. `AllocError` where a request for memory was refused.
pub(crate) fn taken_slots(alloc: Global, n: usize) -> Result<Slots<()>, AllocError>
    ensures { IfOk result (λ taken. taken.slots ≡ replicate n (Some tt)) }
{
    let mut taken = Slots::new(alloc);
    taken.reserve(n)?;
    for _made in 0..n {
        taken.push(());
    }
    Ok(taken)
}

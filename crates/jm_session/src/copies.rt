ghost use Rattle.std.specs.Prelude.{◌≡◌, IfOk};

use jm_indexed::KeySet;
use std::alloc::{AllocError, Global};

/// The same keys, in their order of coming; the room may differ. `AllocError` where a request for memory was refused.
pub(crate) fn copied_keys<K: Ord + Copy + Drop>(
    alloc: Global,
    set: &KeySet<K>,
) -> Result<KeySet<K>, AllocError>
    ensures { IfOk result (λ copy. copy.keys ≡ set.now.keys) }
{
    let mut keys = Vec::with_capacity(alloc, set.len())?;
    for index in 0..set.len() {
        keys.push(*set.key_at(index))?;
    }
    set.copy_with(keys)
}

ghost use Rattle.std.specs.Prelude.{◌≡◌, ◌≤◌, ◌<◌, ℕ, [], All, IfOk, length, reverse, slice_index_or, vec_capacity, vec_len};
ghost use Rattle.jm_parted.specs.Parts.{count_of, of_owner};

use std::alloc::{AllocError, Global};

/// So many empty parts. `AllocError` where a request for memory was refused.
fn empty_parts<T: Drop>(alloc: Global, count: usize) -> Result<Vec<Vec<T>>, AllocError>
    ensures len { IfOk result (λ parts. vec_len parts ≡ count) }
    ensures empty { IfOk result (λ parts. (k : ℕ) (d : _) → k < count → (slice_index_or parts.items k d).items ≡ []) }
{
    let mut parts = Vec::with_capacity(alloc, count)?;
    for _ in 0..count {
        parts.push(Vec::new(alloc))?;
    }
    Ok(parts)
}

/// The part of each owner: the items that are its own, in their order. The item of an index is that of the owner at that
/// index, of which there are `count`, numbered from 0. `AllocError` where a request for memory was refused; the items are
/// dropped then.
pub fn parted<T: Drop>(
    alloc: Global,
    owners: &[usize],
    count: usize,
    items: Vec<T>,
) -> Result<Vec<Vec<T>>, AllocError>
    requires len { length owners.now ≡ vec_len items }
    requires owners { All (λ owner. owner < count) owners.now }
    ensures len { IfOk result (λ parts. vec_len parts ≡ count) }
    ensures parts { IfOk result (λ parts. (k : ℕ) (d : _) → k < count
        → (slice_index_or parts.items k d).items ≡ of_owner k owners.now items.items) }
{
    let mut parts = empty_parts(alloc, count)?;
    for (index, item) in items.into_iter().enumerate() {
        parts[owners[index]].push(item)?;
    }
    Ok(parts)
}

/// The parts, each from its end to its beginning.
fn reversed<T: Drop>(parts: &mut [Vec<T>])
    ensures len { length parts.new ≡ length parts.old }
    ensures each { (k : ℕ) (d : _) → k < length parts.old
        → (slice_index_or parts.new k d).items ≡ reverse (slice_index_or parts.old k d).items }
    ensures lens { (k : ℕ) (d : _) → k < length parts.old
        → vec_len (slice_index_or parts.new k d) ≡ vec_len (slice_index_or parts.old k d) }
{
    for part in parts.iter_mut() {
        part.reverse();
    }
}

/// The list of which these are the parts, in a list that is handed in empty, with room: its item of an index is the next of
/// the owner at that index. Takes no memory.
pub fn joined<T: Drop>(mut list: Vec<T>, owners: &[usize], mut parts: Vec<Vec<T>>) -> Vec<T>
    requires empty { list.items ≡ [] }
    requires room { length owners.now ≤ vec_capacity list }
    requires owners { All (λ owner. owner < vec_len parts) owners.now }
    requires parts { (k : ℕ) (d : _) → k < vec_len parts → vec_len (slice_index_or parts.items k d) ≡ count_of k owners.now }
    ensures len { vec_len result ≡ length owners.now }
    ensures parts { (k : ℕ) (d : _) → k < vec_len parts → of_owner k owners.now result.items ≡ (slice_index_or parts.items k d).items }
{
    reversed(&mut parts);
    for owner in owners {
        match parts[*owner].pop() {
            Some(item) => list.push_reserved(item),
            None => unreachable!(),
        }
    }
    list
}

//! How a property is found by its name: in turn among a few, and among more by the order of the names.

ghost use Rattle.std.specs.Prelude.{◌≡◌, ℕ, ◌<◌, ◌≤◌, ◌++◌, ◌∷◌, [], true, false, length, slice_index, take, IfOk, OnOk, OnErr, None};
ghost use Rattle.jm_property.specs.Order.{IsIndex, IsOrder, IsPlaceOf, is_before, name_at};
ghost use Rattle.jm_property.specs.Properties.{value_of};
ghost use Rattle.jm_property.specs.Same.{names_of};
ghost use Rattle.std.specs.Str.{bytes_eq};

use crate::property::Property;
use jm_shared::SharedStr;
use std::alloc::{AllocError, Global};

/// A name with its value.
pub(crate) type Entry = (SharedStr, Property);

/// So many properties are looked through in turn, and more are found by the order of their names.
const IN_TURN: usize = 16;

#[inline(never)]
fn are_equal(one: &str, other: &str) -> bool
    ensures { result ≡ bytes_eq one.now other.now }
{
    one == other
}

/// Whether both texts are equal. All of them is looked at only where their lengths and their first bytes are equal.
#[inline(always)]
fn is_text(one: &str, other: &str) -> bool
    ensures { result ≡ bytes_eq one.now other.now }
{
    let (first, second) = (one.as_bytes(), other.as_bytes());
    if first.len() != second.len() {
        return false;
    }
    if !first.is_empty() && first[0] != second[0] {
        return false;
    }
    are_equal(one, other)
}

#[inline(always)]
fn find_in_turn(entries: &[Entry], name: &str) -> Option<usize>
    ensures { IsPlaceOf entries.now name.now result }
{
    for (place, entry) in entries.iter().enumerate() {
        if is_text(entry.0.as_str(), name) {
            return Some(place);
        }
    }
    None
}

/// Whether the name at that place comes before the name.
fn is_name_before(entries: &[Entry], place: usize, name: &str) -> bool
    requires { place < length entries.now }
    ensures { result ≡ is_before (name_at (names_of entries.now) place) name.now }
{
    entries[place]
        .0
        .as_str()
        .as_bytes()
        .cmp(name.as_bytes())
        .is_lt()
}

/// How many of the names come before the name.
fn count_before(entries: &[Entry], order: &[usize], name: &str) -> usize
    requires { IsOrder (names_of entries.now) order.now }
    ensures within { result ≤ length order.now }
    ensures before { (k : ℕ) → k < result → is_before (name_at (names_of entries.now) (slice_index order.now k)) name.now ≡ true }
    ensures behind { (k : ℕ) → result ≤ k → k < length order.now → is_before (name_at (names_of entries.now) (slice_index order.now k)) name.now ≡ false }
{
    let mut low = 0;
    let mut high = order.len();
    while low < high {
        let middle = low + (high - low) / 2;
        if is_name_before(entries, order[middle], name) {
            low = middle + 1;
        } else {
            high = middle;
        }
    }
    low
}

#[cold]
#[inline(never)]
fn find_in_order(entries: &[Entry], order: &[usize], name: &str) -> Option<usize>
    requires { IsOrder (names_of entries.now) order.now }
    ensures { IsPlaceOf entries.now name.now result }
{
    let at = count_before(entries, order, name);
    if at == order.len() {
        return None;
    }
    let place = order[at];
    if entries[place].0.as_str() == name {
        Some(place)
    } else {
        None
    }
}

/// The place of the name, where it is one of theirs.
#[inline(always)]
pub(crate) fn find(entries: &[Entry], order: &[usize], name: &str) -> Option<usize>
    requires { IsIndex entries.now order.now }
    ensures { IsPlaceOf entries.now name.now result }
{
    if entries.len() > IN_TURN {
        find_in_order(entries, order, name)
    } else {
        find_in_turn(entries, name)
    }
}

/// Puts the place behind theirs, that of the name, where it belongs. `AllocError`, and nothing changes, where a request for
/// memory was refused.
fn insert_place(entries: &[Entry], order: &mut Vec<usize>, name: &str) -> Result<(), AllocError>
    requires { IsOrder (names_of entries.now) order.old.items }
    ensures ok { OnOk result (IsOrder (names_of entries.now ++ name.now ∷ []) order.new.items) }
    ensures err { OnErr result (order.new.items ≡ order.old.items) }
{
    let at = count_before(entries, order, name);
    order.insert(at, entries.len())?;
    Ok(())
}

/// The places in the order of the names.
fn order_of(alloc: Global, entries: &[Entry]) -> Result<Vec<usize>, AllocError>
    ensures { IfOk result (λ order. IsOrder (names_of entries.now) order.items) }
{
    let mut order = Vec::new(alloc);
    for place in 0..entries.len() {
        insert_place(&entries[..place], &mut order, entries[place].0.as_str())?;
    }
    Ok(order)
}

/// The order once the name is put behind theirs. `AllocError`, and the order is still theirs, where a request for memory was
/// refused.
pub(crate) fn add_place(
    entries: &[Entry],
    order: &mut Vec<usize>,
    name: &str,
) -> Result<(), AllocError>
    requires { IsIndex entries.now order.old.items }
    ensures ok { OnOk result (16 ≤ length entries.now → IsOrder (names_of entries.now ++ name.now ∷ []) order.new.items) }
    ensures err { OnErr result (IsIndex entries.now order.new.items) }
{
    if entries.len() < IN_TURN {
        return Ok(());
    }
    if entries.len() == IN_TURN {
        *order = order_of(*order.allocator(), entries)?;
    }
    insert_place(entries, order, name)
}

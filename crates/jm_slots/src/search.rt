//! Places among the gaps, which are found by halves.

ghost use Rattle.std.specs.Prelude.{◌≡◌, ℕ, ◌+◌, ◌<◌, ◌≤◌, length, slice_index};
ghost use Rattle.std.specs.List.Sorted.{IsStrictlyIncreasing};

/// How many of the gaps stand before the slot.
pub(crate) fn count_below(gaps: &[usize], slot: usize) -> usize
    requires { IsStrictlyIncreasing gaps.now }
    ensures within { result ≤ length gaps.now }
    ensures below { (k : ℕ) → k < result → slice_index gaps.now k < slot }
    ensures behind { (k : ℕ) → result ≤ k → k < length gaps.now → slot ≤ slice_index gaps.now k }
{
    let mut low = 0;
    let mut high = gaps.len();
    while low < high {
        let middle = low + (high - low) / 2;
        if gaps[middle] < slot {
            low = middle + 1;
        } else {
            high = middle;
        }
    }
    low
}

/// How many of the gaps stand before the item of that index: those before which no more items stand than the index says.
pub(crate) fn count_passed(gaps: &[usize], index: usize) -> usize
    requires { IsStrictlyIncreasing gaps.now }
    ensures within { result ≤ length gaps.now }
    ensures passed { (k : ℕ) → k < result → slice_index gaps.now k ≤ index + k }
    ensures ahead { (k : ℕ) → result ≤ k → k < length gaps.now → index + k < slice_index gaps.now k }
{
    let mut low = 0;
    let mut high = gaps.len();
    while low < high {
        let middle = low + (high - low) / 2;
        if gaps[middle] - middle <= index {
            low = middle + 1;
        } else {
            high = middle;
        }
    }
    low
}

//! Which lanes may have rows.

ghost use Rattle.std.specs.Prelude.{◌≡◌, ℕ, ◌+◌, ◌<◌, ◌≤◌};

/// The lanes from the one at `first` on, up to the one before `end`.
#[derive(Clone, Copy)]
pub(crate) struct Span {
    first: u8,
    end: u8,
}

impl Span {
    /// No lane.
    pub(crate) fn nothing() -> Span
        ensures first { result.first ≡ 0 }
        ensures end { result.end ≡ 0 }
    {
        Span { first: 0, end: 0 }
    }

    /// The index of the first lane.
    pub(crate) fn first(&self) -> usize
        ensures { result ≡ self.now.first }
    {
        self.first as usize
    }

    /// The index after that of the last lane.
    pub(crate) fn end(&self) -> usize
        ensures { result ≡ self.now.end }
    {
        self.end as usize
    }

    /// The span with the lane at that index: that lane alone where there are no rows yet, and else these lanes too.
    pub(crate) fn with(self, at: u8, count: usize) -> Span
        requires { at < 255 }
        ensures first { result.first ≤ at }
        ensures end { at < result.end }
        ensures others { 0 < count → (result.first ≤ self.first) × (self.end ≤ result.end) }
        ensures bound { (n : ℕ) → at < n → self.end ≤ n → result.end ≤ n }
    {
        if count == 0 {
            return Span {
                first: at,
                end: at + 1,
            };
        }
        Span {
            first: self.first.min(at),
            end: self.end.max(at + 1),
        }
    }

    /// How much room the lanes outside the other span are known to have, where those outside this one have so much: as
    /// much where the other has all of these, and else none.
    pub(crate) fn room_outside(&self, other: &Span, room: u32) -> u32
        ensures { 0 < result → (result ≡ room) × (other.now.first ≤ self.now.first) × (self.now.end ≤ other.now.end) }
    {
        if other.first <= self.first && self.end <= other.end {
            room
        } else {
            0
        }
    }
}

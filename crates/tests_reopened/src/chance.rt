//! Numbers that follow one another without any order that a test would see, the same ones from each start.

ghost use Rattle.std.specs.Prelude.{◌<◌, length};

/// The numbers from one start.
#[derive(Drop)]
pub(crate) struct Chance {
    state: u64,
}

impl Chance {
    /// The numbers of that start.
    pub(crate) fn new(start: u64) -> Chance {
        Chance {
            state: start.wrapping_mul(0x9e37_79b9_7f4a_7c15),
        }
    }

    /// A number below that bound, or 0.
    pub(crate) fn below(&mut self, bound: usize) -> usize
        ensures { 0 < bound → result < bound }
    {
        self.state = self
            .state
            .wrapping_mul(6_364_136_223_846_793_005)
            .wrapping_add(1_442_695_040_888_963_407);
        let drawn = usize::try_from(self.state >> 33).unwrap_or(0);
        drawn.checked_rem(bound).unwrap_or(0)
    }

    /// One of the items.
    pub(crate) fn one_of<T: Copy>(&mut self, items: &[T]) -> T
        requires { 0 < length items.now }
    {
        let at = self.below(items.len());
        items[at]
    }
}

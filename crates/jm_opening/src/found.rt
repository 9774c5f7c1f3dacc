//! What a database is before its opening.

/// What a database is before its opening. The number is that of this opening: one more than that of the last.
#[derive(Clone, Copy, Debug, PartialEq)]
pub enum Found {
    /// Nothing stands in it: this opening is its first.
    Blank,
    /// The tables of version 1 stand in it, without the index of rows by place.
    Bare(u32),
    /// The tables of version 1 and the index.
    Indexed(u32),
    /// The tables of version 2.
    Current(u32),
}

impl Found {
    ghost use Rattle.std.specs.Prelude.{◌≡◌};
    ghost use Rattle.jm_opening.specs.Opened.{opening_of};

    /// The number of this opening, from 1 to 4,294,967,295: 1 where nothing stands.
    pub fn opening(self) -> u32
        ensures { result ≡ opening_of self }
    {
        match self {
            Found::Blank => 1,
            Found::Bare(opening) | Found::Indexed(opening) | Found::Current(opening) => opening,
        }
    }
}

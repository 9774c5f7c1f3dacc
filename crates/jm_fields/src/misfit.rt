use crate::field::Field;
use jm_base::Str;
use std::alloc::AllocError;

/// Why a field of a scenario, or of one of its calls, cannot be read.
#[derive(Debug, PartialEq, Drop)]
pub enum Misfit {
    /// The field is missing, of the wrong type, or out of its range.
    Shape(Field),
    /// A field of that name is not known there.
    Unknown(Str),
    /// A number is no whole number of 64 bits.
    Floating,
    /// A request for memory was refused.
    Memory,
}

impl From<AllocError> for Misfit {
    ghost use Rattle.std.specs.Prelude.{◌≡◌};
    ghost use Rattle.jm_fields.specs.declared.misfit.Misfit.TheVariants.{Memory};

    ghost from_gives = { λ _ misfit. misfit ≡ Memory };

    fn from(_: AllocError) -> Misfit {
        Misfit::Memory
    }
}

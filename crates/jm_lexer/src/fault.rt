use jm_base::Cause;
use std::alloc::AllocError;

/// Why a selector text is refused, and at which byte offset.
///
/// Where the cause is `Memory` the offset means nothing.
#[derive(Clone, Copy, Debug, PartialEq, Eq)]
pub struct SyntaxFault {
    /// The offset in bytes.
    pub at: usize,
    /// The cause.
    pub cause: Cause,
}

impl From<AllocError> for SyntaxFault {
    ghost use Rattle.std.specs.Prelude.{◌≡◌};
    ghost use Rattle.jm_base.specs.declared.refusal.Cause.TheVariants.{Memory};

    ghost from_gives = { λ _ fault. fault.cause ≡ Memory };

    fn from(_: AllocError) -> SyntaxFault {
        SyntaxFault {
            at: 0,
            cause: Cause::Memory,
        }
    }
}

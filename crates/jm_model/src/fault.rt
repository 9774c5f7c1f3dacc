use std::alloc::AllocError;
use std::fmt;

/// Why the replies of one subscription alone are not given.
#[derive(Clone, Copy, Debug, PartialEq, Eq)]
pub enum LoneFault {
    /// The key is not that of an unshared topic subscription: it is a queue's, or that of a subscription that is shared or is
    /// asked for as a shared one, or a durable one's without a client, or its consumer's number names something else.
    NotUnshared,
    /// A request for memory was refused.
    Memory,
}

impl From<AllocError> for LoneFault {
    ghost use Rattle.std.specs.Prelude.{◌≡◌};
    ghost use Rattle.jm_model.specs.declared.fault.LoneFault.TheVariants.{Memory};

    ghost from_gives = { λ _ fault. fault ≡ Memory };

    fn from(_: AllocError) -> LoneFault {
        LoneFault::Memory
    }
}

impl fmt::Display for LoneFault {
    ghost use Rattle.std.specs.Prelude.{Some};
    ghost use Rattle.jm_model.specs.Faults.{fault_name};

    ghost output = { λ fault. Some (fault_name fault) };

    /// The name.
    fn fmt<W: fmt::Write>(&self, f: &mut fmt::Formatter<W>) -> fmt::Result {
        f.write_str(match self {
            LoneFault::NotUnshared => "NotUnshared",
            LoneFault::Memory => "Memory",
        })
    }
}

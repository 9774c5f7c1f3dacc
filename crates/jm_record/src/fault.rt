use jm_base::Refusal;
use std::alloc::AllocError;

/// Why the bytes of a record are refused.
#[derive(Clone, Copy, Debug, PartialEq, Eq)]
pub enum RecordFault {
    /// The bytes are no message's record: the offset at which the first field begins that is cut or not
    /// allowed, or that of the first byte after the end.
    Damaged { at: usize },
    /// A request for memory was refused.
    Memory,
}

/// Why a field is not read.
#[derive(Clone, Copy)]
pub(crate) enum Fault {
    /// The field is cut or not allowed, and nothing of it is read.
    Damaged,
    /// A request for memory was refused.
    Memory,
}

impl From<AllocError> for Fault {
    ghost use Rattle.std.specs.Prelude.{◌≡◌};
    ghost use Rattle.jm_record.specs.declared.fault.Fault.TheVariants.{Memory};

    ghost from_gives = { λ _ fault. fault ≡ Memory };

    fn from(_: AllocError) -> Fault {
        Fault::Memory
    }
}

impl From<Refusal> for Fault {
    ghost use Rattle.std.specs.Prelude.{◌≡◌};
    ghost use Rattle.jm_record.specs.Faults.{fault_of};

    ghost from_gives = { λ refusal fault. fault ≡ fault_of refusal };

    fn from(refusal: Refusal) -> Fault {
        match refusal {
            Refusal::Memory => Fault::Memory,
            _ => Fault::Damaged,
        }
    }
}

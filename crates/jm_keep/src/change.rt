ghost use Rattle.std.specs.Prelude.{◌≡◌, IfOk};

use jm_base::List;
use jm_dest::{Key, Moment};
use jm_machine::Definition;
use std::alloc::{AllocError, Global};

/// One change of what is stored. A step lists its changes so that each row goes before its message and its station, and
/// comes after them; a delivery time goes before its message and comes directly after it.
#[derive(Debug, PartialEq, Drop)]
pub enum RowChange {
    /// The row of that key at that place goes.
    DropHeld {
        key: Key,
        place: u64,
    },
    /// The message at that place goes, which no row holds any more.
    DropMessage {
        place: u64,
    },
    /// The durable subscription of that key goes, under which no row is any more.
    DropStation {
        key: Key,
    },
    /// The subscription of that key comes, with what it asks for; or the station of a queue, where it does not stand yet.
    PutStation {
        key: Key,
        definition: Option<Definition>,
    },
    /// The message at that place comes: its record.
    PutMessage {
        place: u64,
        bytes: List<u8>,
    },
    /// The row of that key at that place comes, which was never delivered.
    PutHeld {
        key: Key,
        place: u64,
    },
    /// The row of that key at that place was delivered so often.
    SetCount {
        key: Key,
        place: u64,
        count: u32,
    },
    /// The delivery time of the message at that place goes, which has a delay.
    DropDelay {
        place: u64,
    },
    /// The delivery time of the message at that place comes, which has a delay: in milliseconds, after its timestamp.
    PutDelay {
        place: u64,
        due: Moment,
    },
}

fn copy_bytes(alloc: Global, bytes: &[u8]) -> Result<List<u8>, AllocError>
    ensures { IfOk result (λ copy. copy ≡ bytes.now) }
{
    Ok(List::new(Vec::from_slice(alloc, bytes)?))
}

fn copy_definition(definition: &Option<Definition>) -> Result<Option<Definition>, AllocError>
    ensures { IfOk result (λ copy. copy ≡ definition.now) }
{
    match definition {
        None => Ok(None),
        Some(definition) => Ok(Some(definition.copy()?)),
    }
}

impl RowChange {
    /// An equal change. `AllocError` where a request for memory was refused.
    pub fn copy(&self, alloc: Global) -> Result<RowChange, AllocError>
        ensures { IfOk result (λ copy. copy ≡ self.now) }
    {
        match self {
            RowChange::DropHeld { key, place } => Ok(RowChange::DropHeld {
                key: key.copy()?,
                place: *place,
            }),
            RowChange::DropMessage { place } => Ok(RowChange::DropMessage { place: *place }),
            RowChange::DropStation { key } => Ok(RowChange::DropStation { key: key.copy()? }),
            RowChange::PutStation { key, definition } => {
                let definition = copy_definition(definition)?;
                Ok(RowChange::PutStation {
                    key: key.copy()?,
                    definition,
                })
            }
            RowChange::PutMessage { place, bytes } => {
                let bytes = copy_bytes(alloc, bytes.as_slice())?;
                Ok(RowChange::PutMessage {
                    place: *place,
                    bytes,
                })
            }
            RowChange::PutHeld { key, place } => Ok(RowChange::PutHeld {
                key: key.copy()?,
                place: *place,
            }),
            RowChange::SetCount { key, place, count } => Ok(RowChange::SetCount {
                key: key.copy()?,
                place: *place,
                count: *count,
            }),
            RowChange::DropDelay { place } => Ok(RowChange::DropDelay { place: *place }),
            RowChange::PutDelay { place, due } => Ok(RowChange::PutDelay {
                place: *place,
                due: *due,
            }),
        }
    }
}

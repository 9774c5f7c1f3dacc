ghost use Rattle.std.specs.Prelude.{◌≡◌, IfOk, IfErr, MatchResult};
ghost use Rattle.jm_header.specs.declared.content.Content.{Content};
ghost use Rattle.jm_record.specs.declared.fault.RecordFault.TheVariants.{Memory};
ghost use Rattle.jm_format.specs.Format as format;
ghost use Rattle.jm_format.specs.Messages.{IsMessage, IsWriteable, writeable};
ghost use Rattle.jm_record.specs.Damage.{Refuses};

use crate::fault::{Fault, RecordFault};
use crate::reader::Reader;
use jm_header::Message;
use std::alloc::Global;

/// The message of which the bytes are the record (ours), of version 1, or of version 2 where it is delayed; its body and
/// properties may be written.
///
/// `Damaged` exactly where the bytes are no message's record, with the offset at which the first field
/// begins that is cut or not allowed, or that of the first byte after the end; else `Memory` where a request
/// for memory was refused. A length is not trusted: memory is taken only for bytes that are there.
pub fn read_record(alloc: Global, bytes: &[u8]) -> Result<Message, RecordFault>
    // What is read is a message, and the bytes are its record.
    ensures message { IfOk result IsMessage }
    ensures fresh { IfOk result IsWriteable }
    ensures spelled { IfOk result (λ message. bytes.now ≡ format.record message) }
    // The record of a message is read, unless memory runs out.
    ensures only { (message : Content) → IsMessage message → bytes.now ≡ format.record message
        → MatchResult result (λ read. read ≡ writeable message) (λ fault. fault ≡ Memory) }
    // Where other bytes are damaged.
    ensures damaged { IfErr result (Refuses bytes.now) }
{
    let mut reader = Reader::new(bytes);
    match reader.whole(alloc) {
        Ok(content) => Ok(Message::new(alloc, content)),
        Err(Fault::Memory) => Err(RecordFault::Memory),
        Err(Fault::Damaged) => Err(RecordFault::Damaged {
            at: bytes.len() - reader.left(),
        }),
    }
}

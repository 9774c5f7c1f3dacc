//! Writing and reading, of which no more is known here than what comes out.

use jm_header::Message;
use jm_record::{RecordFault, read_record, write_record};
use std::alloc::{AllocError, Global};

/// The record of the message.
pub(crate) fn written(alloc: Global, message: &Message) -> Result<Vec<u8>, AllocError> {
    write_record(alloc, message)
}

/// The message of which the bytes are the record.
pub(crate) fn read(alloc: Global, bytes: &[u8]) -> Result<Message, RecordFault> {
    read_record(alloc, bytes)
}

/// Whether the bytes are the record of the message.
pub(crate) fn is_written_as(alloc: Global, message: &Message, bytes: &[u8]) -> bool {
    match written(alloc, message) {
        Ok(record) => record.as_slice() == bytes,
        Err(_) => false,
    }
}

/// Whether the message is read from the bytes.
pub(crate) fn is_read_as(alloc: Global, bytes: &[u8], message: &Message) -> bool {
    match read(alloc, bytes) {
        Ok(again) => again.is(message),
        Err(_) => false,
    }
}

/// Where the bytes are damaged; none where they are a record, and where memory was wanted.
pub(crate) fn damage(alloc: Global, bytes: &[u8]) -> Option<usize> {
    match read(alloc, bytes) {
        Err(RecordFault::Damaged { at }) => Some(at),
        _ => None,
    }
}

//! The record of a message: the bytes that a store keeps of it, version 1, or 2 where it is delayed (ours), written and
//! read. The writing is given out again.
//!
//! # Contract
//!
//! `read_record` answers the message exactly where the bytes are its record, else `Damaged` with the offset at which
//! the first field begins that is cut or not allowed, or of the first byte after the end; memory is taken only for
//! bytes that are there. Both versions are read, and no other.
//!
//! No record is a proper prefix of another, and two messages that differ in more than their read-only marks have
//! different records (laws on public functions). `write_record` is given out again.
#![tactic(auto)]

mod fault;
mod head;
mod laws;
mod parts;
mod reader;
mod reading;

pub use fault::RecordFault;
pub use jm_format::write_record;
pub use laws::{law_no_prefix, law_one_message};
pub use reading::read_record;

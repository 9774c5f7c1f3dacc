//! The record of a message, version 1, or 2 where it is delayed (ours): its fields, the rules by which they are read, the
//! field in front of bytes, and the writing of all.
//!
//! # Contract
//!
//! The record of a message, field by field, and the rule by which each of its parts is read, are defined. A message
//! without a delivery delay has one of version 1, a delayed one of version 2 with its delivery time. `byte_at`,
//! `u64_at`, `text_at` and their like give the field in front of bytes, exactly as it is defined, and take no memory.
//!
//! `write_record` gives exactly `record` of the message, and says that it is one whose record is read again
//! (`IsMessage`).
#![tactic(auto)]

mod fields;
mod length;
mod writing;

pub use fields::{block_at, byte_at, moment_at, text_at, u16_at, u32_at, u64_at};
pub use writing::{VERSION, VERSION_DELAYED, write_record};

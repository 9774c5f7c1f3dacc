//! An audit of what threads did: the calls that each of them noted in its pass, beside the events of a trace.
//!
//! # Contract
//!
//! `Pass` is seen as the entries that it still has, each a position and the event there (`PassEntry`), how many calls
//! were made with it, and for how many more entries there is room; that number is the amount of its one part of the
//! ledger. `note` adds one entry behind all others, one call, and one to the book, and takes no memory once `reserve`
//! found room; `forget` drops the entries below a position, and the number stays.
//!
//! `gather` of a segment (the position of its first event, and its events) and of passes answers Ok where they agree:
//! each position of the segment stands in just one entry of all passes, with the event that stands there
//! (`EachOnce`), and in each pass the positions rise (`Rise`), entries outside being passed over; `gather_last` does
//! the same of the last segment, where an entry past the end does not fit.
//!
//! Else it names the first fault in the order of passes and entries, or the first position that no pass has
//! (`IsFault`), or wants memory.
#![tactic(auto)]

mod audit;
mod pass;

pub use audit::{FinishFault, gather, gather_last};
pub use pass::{Pass, PassEntry};

//! Sends counted by session.

use crate::told::is_true;
use jm_base::Refusal;
use jm_session::Sends;
use std::alloc::Global;
use tests_calls::session_of;

/// Sends in order: the connection and the number of the session, and which send of the session it is.
static SENDS: [(u32, u32, u64); 6] = [
    (1, 1, 1),
    (1, 2, 1),
    (1, 1, 2),
    (2, 1, 1),
    (1, 1, 3),
    (2, 1, 2),
];

/// Counts one send, and gives its number.
fn counted(sends: &mut Sends, c: u32, s: u32) -> Result<u64, Refusal> {
    let session = session_of((c, s))?;
    match sends.next_number(&session) {
        Some(number) => {
            sends.count(&session)?;
            Ok(number)
        }
        None => Err(Refusal::OutOfRange),
    }
}

/// Whether the sends get their numbers.
fn are_counted(sends: &mut Sends) -> Result<bool, Refusal> {
    for (c, s, number) in &SENDS {
        if counted(sends, *c, *s)? != *number {
            return Ok(false);
        }
    }
    Ok(true)
}

/// The same, with room for so many sends.
fn are_counted_with(alloc: Global, room: usize) -> Result<bool, Refusal> {
    let mut sends = Sends::with_capacity(alloc, room)?;
    are_counted(&mut sends)
}

#[test]
fn numbers_of_sends(rt: HostRuntime) {
    let mut sends = Sends::new(rt.alloc());
    is_true(&rt, "no room", are_counted(&mut sends));
    is_true(&rt, "room for all", are_counted_with(rt.alloc(), 6));
}

//! Causes of a publication by the sender of its message.

use crate::runs::right_on;
use jm_base::Mode;
use jm_core::Core;
use jm_explain::{Why, send_why};
use std::alloc::Global;
use tests_calls::{At, Op, sent, session};

/// The mode of session 2.1, the opening in which it stamped the message, and why it may not publish it.
type Row = (Mode, u32, Option<Why>);

static ROWS: [Row; 4] = [
    (Mode::Auto, 1, None),
    (Mode::Auto, 2, Some(Why::ForeignStamp)),
    (Mode::Transacted, 1, Some(Why::Transacted)),
    (Mode::Transacted, 2, Some(Why::Transacted)),
];

/// Whether that cause is told of a message that session 2.1 stamped in that opening.
fn is_told(alloc: Global, core: &Core, opening: u32, cause: Option<Why>) -> bool {
    let Ok(session) = session(2) else {
        return false;
    };
    match sent(alloc, opening, At::Topic("t"), None) {
        Ok(message) => send_why(core, &session, &message.sender()) == cause,
        Err(_) => false,
    }
}

/// Whether the row is right, once the session is open.
fn is_right(alloc: Global, core: &mut Core, (mode, opening, cause): Row) -> bool {
    let opened = [(Op::Open(2), None), (Op::Session((2, 1), mode), None)];
    if right_on(alloc, core, opened.as_slice()) != opened.len() {
        return false;
    }
    is_told(alloc, core, opening, cause)
}

/// How many rows are right, each on a new core, up to the first that is not.
fn right_rows(alloc: Global, rows: &[Row]) -> usize {
    let mut right: usize = 0;
    for row in rows {
        let Ok(mut core) = Core::new(alloc, 1, 100_000) else {
            return right;
        };
        if !is_right(alloc, &mut core, *row) {
            return right;
        }
        right = right.saturating_add(1);
    }
    right
}

#[test]
fn causes_of_publications(rt: HostRuntime) {
    let right = right_rows(rt.alloc(), ROWS.as_slice());
    assert_eq!(&rt; right, ROWS.len());
}

//! Rows that go out to sessions, are chosen by selectors, settled, given back and cleared, and that are missed, expire or
//! are held back.

use crate::rig::{Rig, Seen};
use crate::told::is_number;
use jm_base::Refusal;
use jm_dest::{ConsumerId, Moment};
use std::alloc::Global;
use tests_messages::{Words, selector, session};

/// What is done to the rows.
enum Op {
    /// A message comes to the place.
    Add(u64, Words),
    /// A message with that delivery delay comes to the place.
    AddDelayed(u64, Words, i64),
    /// The next row goes out at that moment, to the session of the first number through its consumer of the second.
    Take(i64, u32, u32),
    /// The next row is delivered at that moment and settled.
    TakeSettled(i64),
    /// The selector's next row is looked for at that moment, and is left.
    NextWhere(&'static str, i64),
    /// The selector's next row goes out at that moment, to the session of the first number through its consumer of the
    /// second.
    TakeWhere(&'static str, i64, u32, u32),
    /// The selector's next row is delivered at that moment and settled.
    TakeSettledWhere(&'static str, i64),
    /// What is out to the session is settled.
    Settle(u32),
    /// What is out to the session through its consumer, at the place, is settled.
    SettleOne(u32, u32, u64),
    /// What is out to the session waits again.
    GiveBack(u32),
    /// What is out to the session through its consumer, at the place, waits again.
    GiveBackOne(u32, u32, u64),
    Clear,
}

/// What is done, the place of the row that is delivered or found, or 0, and the rows after it.
type Step = (Op, u64, &'static [Seen]);

fn take(rig: &mut Rig, now: i64, to: u32, through: u32) -> Result<u64, Refusal> {
    Ok(rig.take(Moment::new(now)?, session(to)?, ConsumerId::new(through)?))
}

fn take_settled(rig: &mut Rig, now: i64) -> Result<u64, Refusal> {
    Ok(rig.take_settled(Moment::new(now)?))
}

fn next_where(alloc: Global, rig: &Rig, text: &str, now: i64) -> Result<u64, Refusal> {
    let now = Moment::new(now)?;
    Ok(rig.next_where(now, &selector(alloc, text)?))
}

fn take_where(
    alloc: Global,
    rig: &mut Rig,
    text: &str,
    now: i64,
    to: u32,
    through: u32,
) -> Result<u64, Refusal> {
    let now = Moment::new(now)?;
    let to = session(to)?;
    let through = ConsumerId::new(through)?;
    Ok(rig.take_where(now, &selector(alloc, text)?, to, through))
}

fn take_settled_where(alloc: Global, rig: &mut Rig, text: &str, now: i64) -> Result<u64, Refusal> {
    let now = Moment::new(now)?;
    Ok(rig.take_settled_where(now, &selector(alloc, text)?))
}

fn settle(rig: &mut Rig, of: u32) -> Result<u64, Refusal> {
    rig.settle(session(of)?);
    Ok(0)
}

fn settle_one(rig: &mut Rig, of: u32, through: u32, place: u64) -> Result<u64, Refusal> {
    rig.settle_one(session(of)?, ConsumerId::new(through)?, place);
    Ok(0)
}

fn give_back(rig: &mut Rig, of: u32) -> Result<u64, Refusal> {
    rig.give_back(session(of)?);
    Ok(0)
}

fn give_back_one(rig: &mut Rig, of: u32, through: u32, place: u64) -> Result<u64, Refusal> {
    rig.give_back_one(session(of)?, ConsumerId::new(through)?, place);
    Ok(0)
}

fn clear(rig: &mut Rig) -> Result<u64, Refusal> {
    rig.clear();
    Ok(0)
}

/// The place of the row that the call delivers or finds, or 0.
fn does(alloc: Global, rig: &mut Rig, op: &Op) -> Result<u64, Refusal> {
    match op {
        Op::Add(place, words) => rig.add(alloc, *place, *words, 0),
        Op::AddDelayed(place, words, delay) => rig.add(alloc, *place, *words, *delay),
        Op::Take(now, to, through) => take(rig, *now, *to, *through),
        Op::TakeSettled(now) => take_settled(rig, *now),
        Op::NextWhere(text, now) => next_where(alloc, rig, text, *now),
        Op::TakeWhere(text, now, to, through) => {
            take_where(alloc, rig, text, *now, *to, *through)
        }
        Op::TakeSettledWhere(text, now) => take_settled_where(alloc, rig, text, *now),
        Op::Settle(of) => settle(rig, *of),
        Op::SettleOne(of, through, place) => settle_one(rig, *of, *through, *place),
        Op::GiveBack(of) => give_back(rig, *of),
        Op::GiveBackOne(of, through, place) => give_back_one(rig, *of, *through, *place),
        Op::Clear => clear(rig),
    }
}

/// Whether that is there after the step.
fn comes_out(alloc: Global, rig: &mut Rig, step: &Step) -> bool {
    does(alloc, rig, &step.0) == Ok(step.1) && rig.shows(step.2)
}

/// The first step after which something else is there, or how many steps there are.
fn first_other(alloc: Global, rig: &mut Rig, steps: &[Step]) -> usize {
    for (n, step) in steps.iter().enumerate() {
        if !comes_out(alloc, rig, step) {
            return n;
        }
    }
    steps.len()
}

/// The same over no row, with that limit, and how many were missed.
fn run(alloc: Global, limit: Option<u32>, steps: &[Step]) -> (usize, u64) {
    let mut rig = Rig::new(alloc, limit);
    let done = first_other(alloc, &mut rig, steps);
    (done, rig.missed())
}

/// How many steps come out as they are written, where so many are missed.
fn done(alloc: Global, limit: Option<u32>, steps: &[Step], missed: u64) -> usize {
    let (done, were_missed) = run(alloc, limit, steps);
    if were_missed == missed {
        done
    } else {
        usize::MAX
    }
}

/// Rows go out by priority and then by place, wait again with their counts, and are settled by session or one by one.
const OUT: [Step; 16] = [
    (Op::Add(1, ("a", 4, 0)), 0, &[(1, 0, 0)]),
    (Op::Add(2, ("b", 9, 0)), 0, &[(1, 0, 0), (2, 0, 0)]),
    (
        Op::Add(5, ("c", 4, 0)),
        0,
        &[(1, 0, 0), (2, 0, 0), (5, 0, 0)],
    ),
    (Op::Take(1000, 1, 1), 2, &[(1, 0, 0), (2, 1, 1), (5, 0, 0)]),
    (Op::Take(1000, 2, 1), 1, &[(1, 1, 2), (2, 1, 1), (5, 0, 0)]),
    (Op::GiveBack(1), 0, &[(1, 1, 2), (2, 1, 0), (5, 0, 0)]),
    (Op::Take(1000, 2, 1), 2, &[(1, 1, 2), (2, 2, 2), (5, 0, 0)]),
    (Op::SettleOne(2, 1, 1), 0, &[(2, 2, 2), (5, 0, 0)]),
    (Op::SettleOne(2, 3, 2), 0, &[(2, 2, 2), (5, 0, 0)]),
    (Op::GiveBackOne(2, 3, 2), 0, &[(2, 2, 2), (5, 0, 0)]),
    (Op::GiveBackOne(2, 1, 2), 0, &[(2, 2, 0), (5, 0, 0)]),
    (Op::Take(1000, 1, 1), 2, &[(2, 3, 1), (5, 0, 0)]),
    (Op::Take(1000, 1, 2), 5, &[(2, 3, 1), (5, 1, 1)]),
    (Op::Take(1000, 1, 1), 0, &[(2, 3, 1), (5, 1, 1)]),
    (Op::Settle(2), 0, &[(2, 3, 1), (5, 1, 1)]),
    (Op::Settle(1), 0, &[]),
];

/// Rows that are out count at the limit; what comes at it is missed, and does not come back with room.
const LIMITED: [Step; 8] = [
    (Op::Add(1, ("a", 4, 0)), 0, &[(1, 0, 0)]),
    (Op::Add(2, ("b", 4, 0)), 0, &[(1, 0, 0), (2, 0, 0)]),
    (Op::Add(3, ("c", 9, 0)), 0, &[(1, 0, 0), (2, 0, 0)]),
    (Op::Take(1000, 1, 1), 1, &[(1, 1, 1), (2, 0, 0)]),
    (Op::Add(4, ("d", 4, 0)), 0, &[(1, 1, 1), (2, 0, 0)]),
    (Op::Settle(1), 0, &[(2, 0, 0)]),
    (Op::Add(6, ("e", 4, 0)), 0, &[(2, 0, 0), (6, 0, 0)]),
    (Op::Clear, 0, &[]),
];

/// Rows of many lifetimes go once they are expired and wait, whatever comes between them.
const EXPIRING: [Step; 11] = [
    (Op::Add(1, ("a", 4, 500)), 0, &[(1, 0, 0)]),
    (Op::Add(2, ("b", 4, 0)), 0, &[(1, 0, 0), (2, 0, 0)]),
    (
        Op::Add(3, ("c", 4, 100)),
        0,
        &[(1, 0, 0), (2, 0, 0), (3, 0, 0)],
    ),
    (
        Op::Add(4, ("d", 4, 50)),
        0,
        &[(1, 0, 0), (2, 0, 0), (3, 0, 0), (4, 0, 0)],
    ),
    (
        Op::Add(5, ("e", 4, 20)),
        0,
        &[(1, 0, 0), (2, 0, 0), (3, 0, 0), (4, 0, 0), (5, 0, 0)],
    ),
    (
        Op::Take(1020, 1, 1),
        1,
        &[(1, 1, 1), (2, 0, 0), (3, 0, 0), (4, 0, 0)],
    ),
    (Op::Take(1099, 1, 1), 2, &[(1, 1, 1), (2, 1, 1), (3, 0, 0)]),
    (Op::Take(1100, 1, 1), 0, &[(1, 1, 1), (2, 1, 1)]),
    (Op::Take(1600, 1, 1), 0, &[(1, 1, 1), (2, 1, 1)]),
    (Op::GiveBack(1), 0, &[(1, 1, 0), (2, 1, 0)]),
    (Op::TakeSettled(1600), 2, &[]),
];

/// A selector's next row goes by priority and then by place among those that it selects; the others stay where they were,
/// and what has no token selects all.
const CHOSEN: [Step; 16] = [
    (Op::Add(1, ("a", 4, 0)), 0, &[(1, 0, 0)]),
    (Op::Add(2, ("b", 9, 0)), 0, &[(1, 0, 0), (2, 0, 0)]),
    (
        Op::Add(3, ("c", 4, 0)),
        0,
        &[(1, 0, 0), (2, 0, 0), (3, 0, 0)],
    ),
    (
        Op::Add(4, ("d", 0, 0)),
        0,
        &[(1, 0, 0), (2, 0, 0), (3, 0, 0), (4, 0, 0)],
    ),
    (
        Op::NextWhere("JMSType = 'd'", 1000),
        4,
        &[(1, 0, 0), (2, 0, 0), (3, 0, 0), (4, 0, 0)],
    ),
    (
        Op::NextWhere(" ", 1000),
        2,
        &[(1, 0, 0), (2, 0, 0), (3, 0, 0), (4, 0, 0)],
    ),
    (
        Op::TakeWhere("JMSPriority < 5", 1000, 1, 1),
        1,
        &[(1, 1, 1), (2, 0, 0), (3, 0, 0), (4, 0, 0)],
    ),
    (
        Op::TakeWhere("JMSType IN ('d', 'c')", 1000, 2, 1),
        3,
        &[(1, 1, 1), (2, 0, 0), (3, 1, 2), (4, 0, 0)],
    ),
    (
        Op::TakeWhere("JMSType = 'c'", 1000, 1, 1),
        0,
        &[(1, 1, 1), (2, 0, 0), (3, 1, 2), (4, 0, 0)],
    ),
    (
        Op::GiveBack(1),
        0,
        &[(1, 1, 0), (2, 0, 0), (3, 1, 2), (4, 0, 0)],
    ),
    (
        Op::TakeSettledWhere("JMSPriority < 5", 1000),
        1,
        &[(2, 0, 0), (3, 1, 2), (4, 0, 0)],
    ),
    (
        Op::TakeWhere(" ", 1000, 1, 1),
        2,
        &[(2, 1, 1), (3, 1, 2), (4, 0, 0)],
    ),
    (Op::GiveBack(2), 0, &[(2, 1, 1), (3, 1, 0), (4, 0, 0)]),
    (
        Op::TakeSettledWhere("JMSType <> 'c'", 1000),
        4,
        &[(2, 1, 1), (3, 1, 0)],
    ),
    (
        Op::TakeSettledWhere("JMSType = 'x'", 1000),
        0,
        &[(2, 1, 1), (3, 1, 0)],
    ),
    (Op::TakeSettled(1000), 3, &[(2, 1, 1)]),
];

/// A row behind others of its priority is chosen; those before it wait, and go first again.
const BEHIND: [Step; 9] = [
    (Op::Add(1, ("a", 4, 0)), 0, &[(1, 0, 0)]),
    (Op::Add(2, ("b", 4, 0)), 0, &[(1, 0, 0), (2, 0, 0)]),
    (
        Op::Add(3, ("c", 4, 0)),
        0,
        &[(1, 0, 0), (2, 0, 0), (3, 0, 0)],
    ),
    (
        Op::TakeWhere("JMSType = 'b'", 1000, 1, 1),
        2,
        &[(1, 0, 0), (2, 1, 1), (3, 0, 0)],
    ),
    (
        Op::TakeSettledWhere("JMSType = 'c'", 1000),
        3,
        &[(1, 0, 0), (2, 1, 1)],
    ),
    (
        Op::TakeWhere("JMSType <> 'a'", 1000, 2, 1),
        0,
        &[(1, 0, 0), (2, 1, 1)],
    ),
    (Op::Take(1000, 2, 1), 1, &[(1, 1, 2), (2, 1, 1)]),
    (Op::GiveBack(1), 0, &[(1, 1, 2), (2, 1, 0)]),
    (
        Op::TakeWhere("JMSPriority = 4", 1000, 1, 1),
        2,
        &[(1, 1, 2), (2, 2, 1)],
    ),
];

/// A row that is expired is not chosen, and goes with a delivery that would not have chosen it.
const CHOSEN_LATE: [Step; 6] = [
    (Op::Add(1, ("a", 4, 500)), 0, &[(1, 0, 0)]),
    (Op::Add(2, ("b", 4, 0)), 0, &[(1, 0, 0), (2, 0, 0)]),
    (
        Op::Add(3, ("c", 9, 100)),
        0,
        &[(1, 0, 0), (2, 0, 0), (3, 0, 0)],
    ),
    (
        Op::NextWhere("JMSType = 'c'", 1100),
        0,
        &[(1, 0, 0), (2, 0, 0), (3, 0, 0)],
    ),
    (
        Op::TakeWhere("JMSType = 'b'", 1100, 1, 1),
        2,
        &[(1, 0, 0), (2, 1, 1)],
    ),
    (Op::TakeSettledWhere("JMSType = 'b'", 1500), 0, &[(2, 1, 1)]),
];

/// A row that is held back hides none of lower priority, and goes from its due moment on.
const HELD_BACK: [Step; 5] = [
    (Op::Add(1, ("a", 4, 0)), 0, &[(1, 0, 0)]),
    (
        Op::AddDelayed(2, ("b", 9, 0), 500),
        0,
        &[(1, 0, 0), (2, 0, 0)],
    ),
    (Op::Take(1000, 1, 1), 1, &[(1, 1, 1), (2, 0, 0)]),
    (Op::Take(1499, 1, 1), 0, &[(1, 1, 1), (2, 0, 0)]),
    (Op::Take(1500, 1, 1), 2, &[(1, 1, 1), (2, 1, 1)]),
];

/// A row that is held back is not dropped before it expires, and is then not delivered.
const EXPIRED_AS_DUE: [Step; 3] = [
    (Op::AddDelayed(1, ("a", 4, 500), 500), 0, &[(1, 0, 0)]),
    (Op::TakeSettled(1499), 0, &[(1, 0, 0)]),
    (Op::TakeSettled(1500), 0, &[]),
];

/// A row that was due is held back again where it waits again and the moment goes back.
const BACK_BEFORE_DUE: [Step; 5] = [
    (Op::AddDelayed(1, ("a", 4, 0), 500), 0, &[(1, 0, 0)]),
    (Op::Take(1500, 1, 1), 1, &[(1, 1, 1)]),
    (Op::GiveBack(1), 0, &[(1, 1, 0)]),
    (Op::Take(1400, 1, 1), 0, &[(1, 1, 0)]),
    (Op::Take(1500, 1, 1), 1, &[(1, 2, 1)]),
];

/// Rows of many delays go each from its due moment on, whatever waits before it.
const MIXED_DUES: [Step; 14] = [
    (Op::AddDelayed(1, ("a", 4, 0), 900), 0, &[(1, 0, 0)]),
    (
        Op::AddDelayed(2, ("b", 4, 0), 300),
        0,
        &[(1, 0, 0), (2, 0, 0)],
    ),
    (
        Op::AddDelayed(3, ("c", 4, 0), 600),
        0,
        &[(1, 0, 0), (2, 0, 0), (3, 0, 0)],
    ),
    (
        Op::Add(4, ("d", 4, 0)),
        0,
        &[(1, 0, 0), (2, 0, 0), (3, 0, 0), (4, 0, 0)],
    ),
    (
        Op::Take(1000, 1, 1),
        4,
        &[(1, 0, 0), (2, 0, 0), (3, 0, 0), (4, 1, 1)],
    ),
    (
        Op::Take(1299, 1, 1),
        0,
        &[(1, 0, 0), (2, 0, 0), (3, 0, 0), (4, 1, 1)],
    ),
    (
        Op::Take(1300, 1, 1),
        2,
        &[(1, 0, 0), (2, 1, 1), (3, 0, 0), (4, 1, 1)],
    ),
    (
        Op::Take(1599, 1, 1),
        0,
        &[(1, 0, 0), (2, 1, 1), (3, 0, 0), (4, 1, 1)],
    ),
    (
        Op::Take(1899, 1, 1),
        3,
        &[(1, 0, 0), (2, 1, 1), (3, 1, 1), (4, 1, 1)],
    ),
    (
        Op::GiveBack(1),
        0,
        &[(1, 0, 0), (2, 1, 0), (3, 1, 0), (4, 1, 0)],
    ),
    (Op::TakeSettled(1300), 2, &[(1, 0, 0), (3, 1, 0), (4, 1, 0)]),
    (Op::TakeSettled(1000), 4, &[(1, 0, 0), (3, 1, 0)]),
    (
        Op::TakeSettledWhere("JMSType = 'a'", 1899),
        0,
        &[(1, 0, 0), (3, 1, 0)],
    ),
    (Op::TakeSettledWhere("JMSType = 'a'", 1900), 1, &[(3, 1, 0)]),
];

/// A row that is held back counts at the limit.
const HELD_BACK_AT_LIMIT: [Step; 4] = [
    (Op::AddDelayed(1, ("a", 4, 0), 500), 0, &[(1, 0, 0)]),
    (Op::Add(2, ("b", 4, 0)), 0, &[(1, 0, 0)]),
    (Op::Take(1000, 1, 1), 0, &[(1, 0, 0)]),
    (Op::Take(1500, 1, 1), 1, &[(1, 1, 1)]),
];

/// The limit, what is done, and how many are missed.
static RUNS: [(&str, Option<u32>, &[Step], u64); 11] = [
    ("out", None, &OUT, 0),
    ("limited", Some(2), &LIMITED, 2),
    ("expiring", None, &EXPIRING, 0),
    ("chosen", None, &CHOSEN, 0),
    ("behind", None, &BEHIND, 0),
    ("chosen late", None, &CHOSEN_LATE, 0),
    ("held back", None, &HELD_BACK, 0),
    ("expired as due", None, &EXPIRED_AS_DUE, 0),
    ("back before due", None, &BACK_BEFORE_DUE, 0),
    ("mixed dues", None, &MIXED_DUES, 0),
    ("held back at the limit", Some(1), &HELD_BACK_AT_LIMIT, 1),
];

#[test]
fn rows_go_out_and_come_back(rt: HostRuntime) {
    for (name, limit, steps, missed) in &RUNS {
        let done = done(rt.alloc(), *limit, steps, *missed);
        is_number(&rt, name, steps.len(), done);
    }
}

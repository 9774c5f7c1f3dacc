//! What a session sends and keeps for its commit: what each call is told, and which messages wait after it.

use crate::told::is_true;
use jm_base::{Mode, Refusal};
use jm_dest::{ConnectionId, Destination, Moment, Number, SessionId};
use jm_header::{Draft, Message, Sender};
use jm_tx::{Sent, SessionHalf};
use std::alloc::Global;

#[derive(Clone, Copy)]
enum Op {
    /// Sends at that moment, with that time to live.
    Send(i64, i64),
    Take,
    PutBack,
    DropAll,
    Close,
}

/// What a call is told.
#[derive(Clone, Copy, PartialEq)]
enum Told {
    Done,
    /// The message of that number waits for the commit.
    Kept(u64),
    /// The message of that number is to be published.
    Published(u64),
    Refused(Refusal),
    /// So many messages were handed out.
    Taken(usize),
}

const END: i64 = 9_223_372_036_854_775_807;

/// Calls of a transacted session, what each is told, and the numbers of the messages that wait after it.
static TRANSACTED: [(Op, Told, &[u64]); 12] = [
    (Op::Take, Told::Taken(0), &[]),
    (Op::Send(1000, 0), Told::Kept(1), &[1]),
    (Op::Send(END, 1), Told::Refused(Refusal::OutOfRange), &[1]),
    (Op::Send(END, 0), Told::Kept(2), &[1, 2]),
    (Op::Take, Told::Taken(2), &[]),
    (Op::PutBack, Told::Done, &[1, 2]),
    (Op::DropAll, Told::Done, &[]),
    (Op::Send(1000, 0), Told::Kept(3), &[3]),
    (Op::Send(1000, 0), Told::Kept(4), &[3, 4]),
    (Op::Close, Told::Done, &[]),
    (Op::Send(1000, 0), Told::Refused(Refusal::IllegalState), &[]),
    (Op::Send(END, 1), Told::Refused(Refusal::IllegalState), &[]),
];

/// The same of a session in mode Auto.
static AUTO: [(Op, Told, &[u64]); 5] = [
    (Op::Send(1000, 0), Told::Published(1), &[]),
    (Op::Send(1000, 500), Told::Published(2), &[]),
    (Op::Take, Told::Taken(0), &[]),
    (Op::Close, Told::Done, &[]),
    (Op::Send(1000, 0), Told::Refused(Refusal::IllegalState), &[]),
];

/// The same of a transacted session that made 9,223,372,036,854,775,806 sends before.
static LAST: [(Op, Told, &[u64]); 4] = [
    (
        Op::Send(1000, 0),
        Told::Kept(9_223_372_036_854_775_807),
        &[9_223_372_036_854_775_807],
    ),
    (
        Op::Send(END, 1),
        Told::Refused(Refusal::OutOfRange),
        &[9_223_372_036_854_775_807],
    ),
    (
        Op::Send(1000, 0),
        Told::Refused(Refusal::Exhausted),
        &[9_223_372_036_854_775_807],
    ),
    (Op::Take, Told::Taken(1), &[]),
];

/// Sends one message of no body to a topic.
fn send(
    alloc: Global,
    half: &mut SessionHalf,
    now: i64,
    time_to_live: i64,
) -> Result<Told, Refusal> {
    let mut draft = Draft::new(alloc);
    draft.set_time_to_live(time_to_live)?;
    let destination = Destination::topic(alloc, "t")?;
    match half.send(draft, destination, Moment::new(now)?) {
        Ok(Sent::Kept(number)) => Ok(Told::Kept(number)),
        Ok(Sent::Publish(message)) => Ok(Told::Published(message.number())),
        Err(refusal) => Ok(Told::Refused(refusal)),
    }
}

/// Whether the messages of these numbers wait, in this order.
fn waits(half: &SessionHalf, numbers: &[u64]) -> bool {
    let pending = half.pending();
    pending.len() == numbers.len() && pending.iter().zip(numbers).all(|(m, n)| m.number() == *n)
}

/// Makes one call; what was handed out last is what is put back.
fn make(
    alloc: Global,
    half: &mut SessionHalf,
    taken: &mut Vec<Message>,
    op: Op,
) -> Result<Told, Refusal> {
    match op {
        Op::Send(now, time_to_live) => send(alloc, half, now, time_to_live),
        Op::Take => {
            *taken = half.take_commit();
            Ok(Told::Taken(taken.len()))
        }
        Op::PutBack => {
            if half.pending().is_empty() {
                half.put_back(std::mem::replace(taken, Vec::new(alloc)));
            }
            Ok(Told::Done)
        }
        Op::DropAll => {
            half.drop_all();
            Ok(Told::Done)
        }
        Op::Close => {
            half.close();
            Ok(Told::Done)
        }
    }
}

/// Whether each call of the table is told what it should be, and leaves what it should.
fn are_told(
    alloc: Global,
    mode: Mode,
    sent: u64,
    calls: &[(Op, Told, &[u64])],
) -> Result<bool, Refusal> {
    let session = SessionId::new(ConnectionId::new(2)?, 1)?;
    let opening = Number::new(1)?;
    let mut half = SessionHalf::new(alloc, Sender { opening, session }, mode, sent);
    let mut taken = Vec::new(alloc);
    for (op, told, numbers) in calls {
        let is_told = make(alloc, &mut half, &mut taken, *op)? == *told;
        if !is_told || !waits(&half, numbers) {
            return Ok(false);
        }
    }
    Ok(true)
}

#[test]
fn what_waits_for_a_commit(rt: HostRuntime) {
    is_true(
        &rt,
        "transacted",
        are_told(rt.alloc(), Mode::Transacted, 0, &TRANSACTED),
    );
    is_true(&rt, "auto", are_told(rt.alloc(), Mode::Auto, 0, &AUTO));
    is_true(
        &rt,
        "last",
        are_told(
            rt.alloc(),
            Mode::Transacted,
            9_223_372_036_854_775_806,
            &LAST,
        ),
    );
}

//! Random calls on a few connections, sessions, consumers and names.

use crate::chance::Chance;
use jm_base::Mode;
use tests_calls::{At, Kind, Numbers, Op};

/// How many calls a run makes after its beginning.
pub(crate) const CALLS: usize = 100;

const CONNECTIONS: [u32; 3] = [1, 2, 3];

const SESSIONS: [u32; 2] = [1, 2];

const CONSUMERS: [u32; 5] = [1, 2, 3, 4, 5];

const MOMENTS: [i64; 4] = [1000, 1010, 1040, 1200];

const LIVES: [i64; 3] = [0, 20, 100];

const DELAYS: [i64; 3] = [5, 30, 500];

const VALUES: [Option<i64>; 3] = [None, Some(1), Some(2)];

static PLACES: [At; 4] = [
    At::Topic("t"),
    At::Topic("u"),
    At::Queue("q"),
    At::Queue("r"),
];

static KINDS: [Kind; 4] = [
    Kind::Durable,
    Kind::Others,
    Kind::Shared,
    Kind::SharedDurable,
];

static NAMES: [&str; 2] = ["m", "n"];

static TEXTS: [&str; 4] = ["a", "b", "c", "d"];

static SELECTORS: [Option<&str>; 3] = [None, Some("x = 1"), Some("x IS NULL OR x = 2")];

/// How each run begins: two connections of clients and one of none, each with two sessions, all of them started.
pub(crate) static BEGINNING: [Op; 12] = [
    Op::OpenFor(1, "k"),
    Op::OpenFor(2, "l"),
    Op::Open(3),
    Op::Session((1, 1), Mode::Auto),
    Op::Session((1, 2), Mode::Client),
    Op::Session((2, 1), Mode::Transacted),
    Op::Session((2, 2), Mode::Dups),
    Op::Session((3, 1), Mode::Auto),
    Op::Session((3, 2), Mode::Transacted),
    Op::Start(1),
    Op::Start(2),
    Op::Start(3),
];

fn session(chance: &mut Chance) -> Numbers {
    (chance.one_of(&CONNECTIONS), chance.one_of(&SESSIONS))
}

fn place(chance: &mut Chance) -> At {
    chance.one_of(&PLACES)
}

fn subscription(chance: &mut Chance) -> Op {
    let session = session(chance);
    let consumer = chance.one_of(&CONSUMERS);
    let kind = chance.one_of(&KINDS);
    let name = chance.one_of(&NAMES);
    let selector = chance.one_of(&SELECTORS);
    Op::NamedAt(session, consumer, kind, At::Topic("t"), name, selector)
}

fn consumer(chance: &mut Chance) -> Op {
    let session = session(chance);
    let consumer = chance.one_of(&CONSUMERS);
    let place = place(chance);
    let selector = chance.one_of(&SELECTORS);
    Op::ConsumerAt(session, consumer, place, selector, false)
}

fn send(chance: &mut Chance) -> Op {
    let connection = chance.one_of(&CONNECTIONS);
    let place = place(chance);
    let text = chance.one_of(&TEXTS);
    let value = chance.one_of(&VALUES);
    Op::SendTo(connection, place, text, value)
}

fn special_send(chance: &mut Chance) -> Op {
    let connection = chance.one_of(&CONNECTIONS);
    let text = chance.one_of(&TEXTS);
    if chance.below(2) == 0 {
        let moment = chance.one_of(&MOMENTS);
        return Op::SendAt(connection, text, moment, chance.one_of(&LIVES));
    }
    let place = place(chance);
    let delay = chance.one_of(&DELAYS);
    Op::SendDelayed(connection, place, text, delay, chance.one_of(&VALUES))
}

fn receive(chance: &mut Chance) -> Op {
    let session = session(chance);
    let consumer = chance.one_of(&CONSUMERS);
    Op::ReceiveAt(session, consumer, chance.one_of(&MOMENTS))
}

fn listening(chance: &mut Chance) -> Op {
    let session = session(chance);
    let consumer = chance.one_of(&CONSUMERS);
    match chance.below(4) {
        0 => Op::Listener(session, consumer, chance.below(2) == 0),
        1 | 2 => Op::TakeAt(session, consumer, chance.one_of(&MOMENTS)),
        _ => Op::Done(session, consumer, chance.below(3) != 0),
    }
}

fn settling(chance: &mut Chance) -> Op {
    let session = session(chance);
    match chance.below(5) {
        0 => Op::Acknowledge(session),
        1 => Op::Recover(session),
        2 => Op::Rollback(session),
        _ => Op::Commit(session),
    }
}

fn closing(chance: &mut Chance) -> Op {
    let session = session(chance);
    match chance.below(8) {
        0 => Op::Stop(session.0),
        1 => Op::Start(session.0),
        2 => Op::Unsubscribe(session, chance.one_of(&NAMES)),
        _ => Op::CloseConsumer(session, chance.one_of(&CONSUMERS)),
    }
}

/// A random call.
pub(crate) fn op(chance: &mut Chance) -> Op {
    match chance.below(20) {
        0 => consumer(chance),
        1 | 2 => subscription(chance),
        3..=8 => send(chance),
        9 | 10 => special_send(chance),
        11..=14 => receive(chance),
        15 => listening(chance),
        16 | 17 => settling(chance),
        _ => closing(chance),
    }
}

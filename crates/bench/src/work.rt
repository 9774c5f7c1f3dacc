//! The kinds of work, each as rounds over a provider that holds rows already.

use crate::provider::{Parcel, Provider};
use jm_base::{Mode, Refusal};
use jm_keep::Keep;

/// What is done in each round.
#[derive(Clone, Copy, PartialEq, Eq)]
pub(crate) enum Kind {
    /// A message is sent, and received by its one subscriber.
    OneToOne,
    /// A message is sent, and received by each of its subscribers.
    FanOut,
    /// A message is sent, and received by the next of its subscribers, each of which selects messages of its own.
    Selectors,
    /// A message is sent to a queue, and received by its one consumer, which selects it and none of the rows that are held
    /// before it.
    Choosing,
    /// A message is sent to the next of many topics, and received there.
    Topics,
    /// As one to one, with priorities in turn.
    Priorities,
    /// A message is sent that expires in two rounds, and one is received.
    Expiry,
    /// A message is sent, and one is received, recovered, received again and acknowledged, beside subscribers of other
    /// topics.
    Redelivery,
    /// A message is sent, and one is received; each hundredth round acknowledges what is out, beside subscribers of
    /// other topics.
    Client,
    /// A message is sent, and one is received; each hundredth round commits what was sent and what was received, beside
    /// subscribers of other topics.
    Transacted,
    /// A message is sent and committed, and one is received, rolled back, received again and committed, beside subscribers
    /// of other topics.
    Rollback,
    /// A message is sent to the first of many topics, each with a durable subscription, and received there.
    Durables,
    /// A message is sent, and received by the next of the consumers of one shared subscription.
    Shared,
    /// As one to one, where the rows that are held before are held back, each until a moment of its own past all rounds.
    HeldBack,
    /// As one to one, where of the rows that are held before the one in the middle expires, and no other does.
    Lasting,
    /// The next of the consumers is closed, each the only one of its topic.
    Closes,
    /// The connection is closed with all its consumers, each the only one of its topic; the first round alone finds it open.
    CloseAll,
    /// A session is opened for the round alone, with a consumer of its own, beside subscribers of other topics.
    Requests,
}

/// How many rows are out at most where they are acknowledged or committed together, and how many messages a commit carries.
const BATCH: u32 = 100;

/// How much of it.
#[derive(Clone, Copy)]
pub(crate) struct Load {
    pub kind: Kind,
    pub rounds: u32,
    /// Rows that are held before the first round, and left after the last.
    pub held: u32,
    /// Subscribers, or topics with one subscriber each, or consumers of one subscription; at least 1.
    pub subscribers: u32,
}

/// The kind of that name.
pub(crate) fn kind_named(name: &str) -> Option<Kind> {
    match name {
        "one-to-one" => Some(Kind::OneToOne),
        "fan-out" => Some(Kind::FanOut),
        "selectors" => Some(Kind::Selectors),
        "choosing" => Some(Kind::Choosing),
        "topics" => Some(Kind::Topics),
        "priorities" => Some(Kind::Priorities),
        "expiry" => Some(Kind::Expiry),
        "redelivery" => Some(Kind::Redelivery),
        "client" => Some(Kind::Client),
        "transacted" => Some(Kind::Transacted),
        "rollback" => Some(Kind::Rollback),
        "durables" => Some(Kind::Durables),
        "shared" => Some(Kind::Shared),
        "held-back" => Some(Kind::HeldBack),
        "lasting" => Some(Kind::Lasting),
        "closes" => Some(Kind::Closes),
        "close-all" => Some(Kind::CloseAll),
        "requests" => Some(Kind::Requests),
        _ => None,
    }
}

/// The parcel of a round.
fn parcel(load: Load, round: u32) -> Parcel {
    let topic = match load.kind {
        Kind::Topics => round % load.subscribers.max(1),
        _ => 0,
    };
    let selected = match load.kind {
        Kind::Selectors => Some(round % load.subscribers.clamp(1, 1_000_000) + 1),
        Kind::Choosing => Some(1),
        _ => None,
    };
    let priority = match load.kind {
        Kind::Priorities => (round % 10) as u8,
        _ => 4,
    };
    let time_to_live = match load.kind {
        Kind::Expiry => 2,
        _ => 0,
    };
    Parcel {
        topic,
        is_queued: load.kind == Kind::Choosing,
        selected,
        priority,
        time_to_live,
        delay: 0,
        now: i64::from(round),
    }
}

/// The parcel of a row that is held before the first round.
fn held_parcel(load: Load, number: u32) -> Parcel {
    let time_to_live = match load.kind {
        Kind::Lasting if number == load.held / 2 => 1,
        _ => 0,
    };
    let delay = match load.kind {
        Kind::HeldBack => 10_000_000 + i64::from(number % 1_009) * 9_973,
        _ => 0,
    };
    let parcel = parcel(load, number);
    let selected = match load.kind {
        Kind::Choosing => Some(0),
        _ => parcel.selected,
    };
    Parcel {
        selected,
        time_to_live,
        delay,
        ..parcel
    }
}

/// The mode of the session that receives.
pub(crate) fn mode(kind: Kind) -> Mode {
    match kind {
        Kind::Redelivery | Kind::Client => Mode::Client,
        Kind::Transacted | Kind::Rollback => Mode::Transacted,
        _ => Mode::Auto,
    }
}

/// The topic of the subscriber that so many were made before.
fn topic(kind: Kind, number: u32) -> u32 {
    match kind {
        Kind::Topics
        | Kind::Redelivery
        | Kind::Client
        | Kind::Transacted
        | Kind::Rollback
        | Kind::Durables
        | Kind::Closes
        | Kind::CloseAll
        | Kind::Requests => number,
        _ => 0,
    }
}

/// Commits in each hundredth round, where the kind of work is transacted.
fn commit_batch<K: Keep + Drop>(
    provider: &mut Provider<K>,
    kind: Kind,
    round: u32,
) -> Result<(), Refusal> {
    match mode(kind) {
        Mode::Transacted if round % BATCH == BATCH - 1 => provider.commit(),
        _ => Ok(()),
    }
}

/// Commits what is left of the last batch, where the kind of work is transacted.
fn finish_fill<K: Keep + Drop>(provider: &mut Provider<K>, kind: Kind) -> Result<(), Refusal> {
    match mode(kind) {
        Mode::Transacted => provider.commit(),
        Mode::Auto | Mode::Client | Mode::Dups => Ok(()),
    }
}

/// Makes a consumer of that number on the topic of that number, with a subscription as the kind of work asks for it.
fn subscribe<K: Keep + Drop>(
    provider: &mut Provider<K>,
    kind: Kind,
    consumer: u32,
    topic: u32,
) -> Result<(), Refusal> {
    match kind {
        Kind::Durables => provider.subscribe_durably(consumer, topic),
        Kind::Selectors => provider.subscribe_selecting(consumer, topic),
        Kind::Choosing => provider.choose(consumer, topic),
        Kind::Shared => provider.share(consumer, topic),
        _ => provider.subscribe(consumer, topic),
    }
}

/// Opens the provider, and makes the subscribers of the load and the rows that are held before it.
pub(crate) fn fill<K: Keep + Drop>(provider: &mut Provider<K>, load: Load) -> Result<(), Refusal> {
    provider.open()?;
    for number in 0..load.subscribers.min(1_000_000) {
        subscribe(provider, load.kind, number + 1, topic(load.kind, number))?;
    }
    for round in 0..load.held {
        provider.send(held_parcel(load, round))?;
        commit_batch(provider, load.kind, round)?;
    }
    finish_fill(provider, load.kind)
}

/// Who receives in a round: the first and the last of the consumers.
fn receivers(load: Load, round: u32) -> (u32, u32) {
    match load.kind {
        Kind::FanOut => (0, load.subscribers.min(1_000_000)),
        Kind::Topics | Kind::Shared | Kind::Selectors => {
            let at = round % load.subscribers.clamp(1, 1_000_000);
            (at, at + 1)
        }
        _ => (0, 1),
    }
}

/// Lets what a round received come again, where the kind of work asks for it, and acknowledges or commits it in its turn.
fn finish<K: Keep + Drop>(
    provider: &mut Provider<K>,
    kind: Kind,
    round: u32,
) -> Result<(), Refusal> {
    match kind {
        Kind::Redelivery => {
            provider.recover()?;
            provider.receive(1, i64::from(round))?;
            provider.acknowledge()
        }
        Kind::Client if round % BATCH == BATCH - 1 => provider.acknowledge(),
        Kind::Transacted => commit_batch(provider, kind, round),
        Kind::Rollback => {
            provider.roll_back()?;
            provider.receive(1, i64::from(round))?;
            provider.commit()
        }
        _ => Ok(()),
    }
}

/// Sends a message, and lets those receive it who do in that round.
fn pass_on<K: Keep + Drop>(
    provider: &mut Provider<K>,
    load: Load,
    round: u32,
) -> Result<(), Refusal> {
    provider.send(parcel(load, round))?;
    if load.kind == Kind::Rollback {
        provider.commit()?;
    }
    let (from, to) = receivers(load, round);
    for number in from..to.min(1_000_000) {
        provider.receive(number + 1, i64::from(round))?;
    }
    finish(provider, load.kind, round)
}

/// Makes one round.
fn work_once<K: Keep + Drop>(
    provider: &mut Provider<K>,
    load: Load,
    round: u32,
) -> Result<(), Refusal> {
    match load.kind {
        Kind::Closes => provider.close(round.min(1_000_000) + 1),
        Kind::CloseAll => provider.close_all(),
        Kind::Requests => provider.request(round.min(1_000_000) + 2),
        _ => pass_on(provider, load, round),
    }
}

/// Makes the rounds of the load.
pub(crate) fn work<K: Keep + Drop>(provider: &mut Provider<K>, load: Load) -> Result<(), Refusal> {
    for round in 0..load.rounds {
        work_once(provider, load, round)?;
    }
    Ok(())
}

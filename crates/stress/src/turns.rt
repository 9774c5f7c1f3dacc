//! What a thread does in its turns, by numbers that seem random and are the same in each run.

/// What is called in one turn.
#[derive(Clone, Copy, PartialEq, Eq)]
pub(crate) enum Turn {
    /// A message is published to the topic.
    Publish,
    /// A message that expires soon is published to the queue.
    Offer,
    /// The thread's own subscription receives.
    Receive,
    /// A consumer of the queue receives, which settles.
    Draw,
    /// The transacted session receives from the queue.
    Borrow,
    /// It commits what it received, and a message to the topic and one to the queue.
    Commit,
    /// It rolls back.
    Rollback,
    /// The shared subscription's consumer receives.
    Share,
    /// What it received is acknowledged.
    Acknowledge,
    /// What it received comes again.
    Recover,
}

/// The next number after that one.
pub(crate) fn next_seed(seed: u64) -> u64 {
    seed.wrapping_mul(6_364_136_223_846_793_005)
        .wrapping_add(1_442_695_040_888_963_407)
}

/// What is called at that number.
pub(crate) fn turn_of(seed: u64) -> Turn {
    match (seed >> 33) % 18 {
        0 | 1 => Turn::Publish,
        2 => Turn::Offer,
        3..=6 => Turn::Receive,
        7 => Turn::Commit,
        8 => Turn::Rollback,
        9 => Turn::Borrow,
        10..=12 => Turn::Draw,
        13 | 14 => Turn::Share,
        15 | 16 => Turn::Acknowledge,
        _ => Turn::Recover,
    }
}

//! The kinds of work, each as rounds over a provider.

use crate::provider::Provider;
use jm_base::{Mode, Refusal};
use jm_keep::Keep;

/// What is done.
#[derive(Clone, Copy)]
pub(crate) enum Work {
    /// In each round a message is sent and received, each in a transaction of its own.
    OneToOne,
    /// In each round a hundred messages are sent, and committed together.
    Commits,
    /// In each round a message is sent; a thousand of them are committed together.
    Fill,
    /// The store is opened with what it holds, and no round is made.
    Load,
}

/// The work of that name.
pub(crate) fn work_named(name: &str) -> Option<Work> {
    match name {
        "one-to-one" => Some(Work::OneToOne),
        "commits" => Some(Work::Commits),
        "fill" => Some(Work::Fill),
        "load" => Some(Work::Load),
        _ => None,
    }
}

/// The mode of the session that publishes.
pub(crate) fn mode(work: Work) -> Mode {
    match work {
        Work::OneToOne | Work::Load => Mode::Auto,
        Work::Commits | Work::Fill => Mode::Transacted,
    }
}

/// Sends a hundred messages, and commits them.
fn commit_hundred<K: Keep + Drop>(provider: &mut Provider<K>) -> Result<(), Refusal> {
    for _ in 0..100u32 {
        provider.send()?;
    }
    provider.commit()
}

/// Makes the round that so many were made before.
fn work_once<K: Keep + Drop>(
    provider: &mut Provider<K>,
    work: Work,
    before: u32,
) -> Result<(), Refusal> {
    match work {
        Work::OneToOne => {
            provider.send()?;
            provider.receive()
        }
        Work::Commits => commit_hundred(provider),
        Work::Fill => {
            provider.send()?;
            if before % 1_000 == 999 {
                provider.commit()?;
            }
            Ok(())
        }
        Work::Load => Ok(()),
    }
}

/// Makes the rounds, and commits what is left of them.
pub(crate) fn make<K: Keep + Drop>(
    provider: &mut Provider<K>,
    work: Work,
    rounds: u32,
) -> Result<(), Refusal> {
    for before in 0..rounds {
        work_once(provider, work, before)?;
    }
    match work {
        Work::Fill => provider.commit(),
        Work::OneToOne | Work::Commits | Work::Load => Ok(()),
    }
}

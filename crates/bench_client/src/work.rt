//! The kinds of work, for whoever sends and receives.

use jm_base::{Mode, Refusal};
use std::time::{Clock, Duration, Instant};

/// How many messages a commit carries.
const BATCH: u32 = 100;

/// One session that sends to a topic, and a consumer of it.
pub(crate) trait Client {
    /// Sends a message.
    fn send(&mut self) -> Result<(), Refusal>;

    /// Receives a message, and adds its number to the sum.
    fn receive(&mut self) -> Result<(), Refusal>;

    /// Commits what was sent and received.
    fn commit(&mut self) -> Result<(), Refusal>;

    /// The sum of the numbers of the messages that were received.
    fn sum(&self) -> u64;
}

/// What a run came to.
#[derive(Clone, Copy)]
pub(crate) struct Outcome {
    pub(crate) sum: u64,
    /// None where the clock was not read.
    pub(crate) elapsed: Option<Duration>,
}

/// Commits a batch, receives each of its messages, and commits that.
fn turn<C: Client>(client: &mut C) -> Result<(), Refusal> {
    client.commit()?;
    for _ in 0..BATCH {
        client.receive()?;
    }
    client.commit()
}

/// Sends a message in each round. In a transacted session each hundredth round commits them, and receives them; in any other
/// each is received in its round.
fn work<C: Client>(client: &mut C, mode: Mode, rounds: u32) -> Result<(), Refusal> {
    for round in 0..rounds {
        client.send()?;
        match mode {
            Mode::Transacted => {
                if round % BATCH == BATCH - 1 {
                    turn(client)?;
                }
            }
            Mode::Auto | Mode::Client | Mode::Dups => client.receive()?,
        }
    }
    Ok(())
}

/// The same, and how long it took.
pub(crate) fn timed_work<C: Client>(
    rt: &impl Clock,
    client: &mut C,
    mode: Mode,
    rounds: u32,
) -> Result<Outcome, Refusal> {
    let start = Instant::now(rt).ok();
    work(client, mode, rounds)?;
    let elapsed = match start {
        Some(start) => start.elapsed(rt).ok(),
        None => None,
    };
    Ok(Outcome {
        sum: client.sum(),
        elapsed,
    })
}

//! What is held under keys: how it is let go, is published to and is received from.

ghost use Rattle.std.specs.Prelude.{◌<◌, nat_eq, All, length};
ghost use Rattle.std.specs.List.{IsDistinct};
ghost use Rattle.jm_machine.specs.Machine.{places_end};

use jm_base::Refusal;
use jm_dest::Moment;
use jm_machine::Answer;
use jm_stations::Stations;
use std::alloc::Global;
use tests_messages::{Words, is_text, selector, sent};

/// Keys with what is held under them. They are dropped by one call, so that a function with several ways out does not
/// drop them, field by field, on each.
pub(crate) struct HeldStations {
    pub(crate) stations: Stations,
}

impl Drop for HeldStations {
    fn drop(self) {
        let HeldStations {
            stations: _stations,
        } = self;
    }
}

impl HeldStations {
    pub(crate) fn new(alloc: Global) -> HeldStations {
        HeldStations {
            stations: Stations::new(alloc),
        }
    }
}

/// A message of those words comes to the keys with those indexes.
pub(crate) fn publish_to(
    alloc: Global,
    stations: &mut Stations,
    words: Words,
    indexes: &[usize],
) -> Result<(), Refusal>
    requires places { stations.old.next_place < places_end }
    requires within { All (λ i. i < length stations.old.list) indexes.now }
    requires once { IsDistinct nat_eq indexes.now }
{
    stations.reserve(indexes, 1)?;
    stations.publish(sent(alloc, words)?, indexes);
    Ok(())
}

/// The next row under the key with that index is delivered at that moment, and settled.
pub(crate) fn receive(stations: &mut Stations, index: usize, at: i64) -> Result<Answer, Refusal> {
    let now = Moment::new(at)?;
    if index >= stations.len() {
        return Err(Refusal::IllegalState);
    }
    let picked = stations.pick(index, now, true)?;
    Ok(stations.receive(index, now, picked))
}

/// The same of those rows that the selector selects.
pub(crate) fn receive_where(
    alloc: Global,
    stations: &mut Stations,
    index: usize,
    at: i64,
    text: &str,
) -> Result<Answer, Refusal> {
    let now = Moment::new(at)?;
    if index >= stations.len() {
        return Err(Refusal::IllegalState);
    }
    let selector = selector(alloc, text)?;
    let picked = stations.pick_where(index, now, true, &selector)?;
    Ok(stations.receive(index, now, picked))
}

fn is_delivered(answer: &Answer, text: &str, count: u32) -> bool {
    match answer {
        Answer::Delivered(delivery) => delivery.count == count && is_text(&delivery.message, text),
        _ => text.is_empty(),
    }
}

/// Whether a message of that text is delivered with that count, or nothing where the text is empty.
pub(crate) fn delivers(answer: Result<Answer, Refusal>, text: &str, count: u32) -> bool {
    match answer {
        Ok(answer) => is_delivered(&answer, text, count),
        Err(_) => false,
    }
}

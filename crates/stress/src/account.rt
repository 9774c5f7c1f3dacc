//! What became of the messages that came to one queue or subscription.

use jm_core::PlacedRow;
use jm_header::Message;
use std::alloc::{AllocError, Global};
use std::mem;

/// How many messages came, and what became of them.
#[derive(Clone, Copy)]
pub(crate) struct Counts {
    pub(crate) came: u64,
    /// They were delivered, and settled at once, acknowledged or committed.
    pub(crate) settled: u64,
    /// They wait, or are out.
    pub(crate) held: u64,
    pub(crate) expired: u64,
    pub(crate) missed: u64,
}

/// Nothing came.
pub(crate) const NONE: Counts = Counts {
    came: 0,
    settled: 0,
    held: 0,
    expired: 0,
    missed: 0,
};

/// Both together.
pub(crate) fn sum(one: Counts, other: Counts) -> Counts {
    Counts {
        came: one.came.saturating_add(other.came),
        settled: one.settled.saturating_add(other.settled),
        held: one.held.saturating_add(other.held),
        expired: one.expired.saturating_add(other.expired),
        missed: one.missed.saturating_add(other.missed),
    }
}

/// A message that came, and is not settled: its name, and the moment at which it expires, 0 for never.
#[derive(Clone, Copy)]
struct Unsettled {
    name: u64,
    expiration: u64,
}

/// The accounts of one queue or subscription: the messages that are open, what became of all, the latest moment of a receive,
/// and how many faults were found.
#[derive(Drop)]
pub(crate) struct Account {
    open: Vec<Unsettled>,
    counts: Counts,
    latest: u64,
    faults: u64,
}

/// A name of the message that no other has: its session, and its number there.
pub(crate) fn name_of(message: &Message) -> u64 {
    let session = message.sender().session;
    let connection = u64::from(session.connection.get());
    let number = u64::from(session.number.get());
    message
        .number()
        .wrapping_mul(0x1_0000)
        .wrapping_add(connection.wrapping_mul(0x10))
        .wrapping_add(number)
}

fn names_of(heap: Global, rows: &[PlacedRow]) -> Result<Vec<u64>, AllocError> {
    let mut names = Vec::new(heap);
    for row in rows {
        names.push(name_of(&row.row.message))?;
    }
    Ok(names)
}

fn place_of(open: &[Unsettled], name: u64) -> Option<usize> {
    for (place, one) in open.iter().enumerate() {
        if one.name == name {
            return Some(place);
        }
    }
    None
}

impl Account {
    /// Nothing came.
    pub(crate) fn new(heap: Global) -> Account {
        Account {
            open: Vec::new(heap),
            counts: NONE,
            latest: 0,
            faults: 0,
        }
    }

    fn fail(&mut self) {
        self.faults = self.faults.saturating_add(1);
    }

    /// A message came.
    pub(crate) fn come(&mut self, message: &Message) {
        self.counts.came = self.counts.came.saturating_add(1);
        let open = Unsettled {
            name: name_of(message),
            expiration: message.expiration().get(),
        };
        if self.open.push(open).is_err() {
            self.fail();
        }
    }

    /// It was received at that moment.
    pub(crate) fn receive(&mut self, now: u64) {
        self.latest = self.latest.max(now);
    }

    /// The message of that name was settled: it is a fault where it did not come, or was settled before.
    pub(crate) fn settle(&mut self, name: u64) {
        match place_of(self.open.as_slice(), name) {
            Some(place) if place < self.open.len() => {
                self.open.swap_remove(place);
                self.counts.settled = self.counts.settled.saturating_add(1);
            }
            _ => self.fail(),
        }
    }

    /// The messages of those names were settled.
    pub(crate) fn settle_all(&mut self, names: &[u64]) {
        for name in names {
            self.settle(*name);
        }
    }

    /// A message is not held any more, and was not settled.
    fn lose(&mut self, open: Unsettled) {
        if open.expiration != 0 && open.expiration <= self.latest {
            self.counts.expired = self.counts.expired.saturating_add(1);
        } else {
            self.counts.missed = self.counts.missed.saturating_add(1);
        }
    }

    /// Keeps the message open where its name is among those that are held.
    fn sort(&mut self, open: Unsettled, held: &[u64]) {
        if !held.contains(&open.name) {
            self.lose(open);
        } else if self.open.push(open).is_err() {
            self.fail();
        }
    }

    fn sort_all(&mut self, heap: Global, held: &[u64]) {
        let all = mem::replace(&mut self.open, Vec::new(heap));
        for open in all {
            self.sort(open, held);
        }
    }

    /// These rows are held, and so many messages were missed in all: it is a fault where another is held than those that are
    /// open, or one is lost that did not expire and was not missed.
    pub(crate) fn close(&mut self, heap: Global, rows: &[PlacedRow], missed: u64) {
        match names_of(heap, rows) {
            Ok(held) => self.sort_all(heap, held.as_slice()),
            Err(_) => self.fail(),
        }
        self.counts.held = self.open.len() as u64;
        if self.open.len() != rows.len() || self.counts.missed != missed {
            self.fail();
        }
    }

    pub(crate) fn became(&self) -> Counts {
        self.counts
    }

    pub(crate) fn faults(&self) -> u64 {
        self.faults
    }
}

//! What the threads of a round know of each other, so that none waits where nobody is left to wake it.

use std::sync::atomic::{AtomicU64, Ordering};

/// How many threads there are, how many have made their turns, and how many may wait.
#[derive(Drop)]
pub(crate) struct Others {
    threads: u64,
    finished: AtomicU64,
    waiting: AtomicU64,
}

impl Others {
    pub(crate) fn new(threads: u64) -> Others {
        Others {
            threads,
            finished: AtomicU64::new(0),
            waiting: AtomicU64::new(0),
        }
    }

    /// The thread is about to receive. How often it may, at most: twice, with one wait between, where a thread is left that has
    /// not made its turns and does not wait; that one ends only once this one has received.
    pub(crate) fn enter(&self) -> u64 {
        let waiting = self.waiting.fetch_add(1, Ordering::SeqCst);
        let finished = self.finished.load(Ordering::SeqCst);
        if waiting.saturating_add(1) < self.threads.saturating_sub(finished) {
            2
        } else {
            1
        }
    }

    /// It has received.
    pub(crate) fn leave(&self) {
        self.waiting.fetch_sub(1, Ordering::SeqCst);
    }

    /// It has made its turns.
    pub(crate) fn finish(&self) {
        self.finished.fetch_add(1, Ordering::SeqCst);
    }

    pub(crate) fn none_waits(&self) -> bool {
        self.waiting.load(Ordering::SeqCst) == 0
    }
}

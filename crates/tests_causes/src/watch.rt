//! A clock that is set by hand.

use std::cell::Cell;
use std::io;
use std::sync::Wait;
use std::time::{Clock, Duration};

/// A runtime that may wait, and whose time of the day is set by hand.
#[derive(Drop)]
pub(crate) struct Watch<R: Drop> {
    rt: R,
    /// The milliseconds since 1970; none where the clock is not read.
    now: Cell<Option<u64>>,
}

impl<R: Drop> Watch<R> {
    /// At 1000 milliseconds.
    pub(crate) fn new(rt: R) -> Watch<R> {
        Watch {
            rt,
            now: Cell::new(Some(1000)),
        }
    }

    /// Sets it to so many milliseconds since 1970; with none it is not read.
    pub(crate) fn set(&self, now: Option<u64>) {
        self.now.set(now);
    }
}

impl<R: Wait + Drop> Wait for Watch<R> {}

impl<R: Drop> Clock for Watch<R> {
    fn monotonic(&self) -> io::Result<Duration> {
        self.since_1970()
    }

    fn since_1970(&self) -> io::Result<Duration> {
        match self.now.get() {
            Some(now) => Ok(Duration::from_millis(now)),
            None => Err(io::Error::from(io::ErrorKind::Unsupported)),
        }
    }
}

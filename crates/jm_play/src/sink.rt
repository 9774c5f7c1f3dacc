ghost use Rattle.std.specs.Prelude.{◌≡◌, ◌≤◌, ◌<◌, length, take, true, false, is_none, IfNone, IfSome, OnSome, MatchOption};
ghost use Rattle.std.specs.Io.KnownBytes.{Appends, Keeps};
ghost use Rattle.jm_play.specs.Sink.{sink_contents};
ghost use Rattle.jm_play.specs.Sink as spec;

use std::io::Write;

/// Where lines are printed: a writer, whether a write or a flush of it failed, and whether all that was
/// written was flushed. From a failure on each write and flush fails.
#[derive(Drop)]
pub struct Sink<W> {
    writer: W,
    has_failed: bool,
    is_flushed: bool,
}

impl<W: Write> Sink<W> {
    /// A sink over a writer, to which nothing was written.
    pub fn new(writer: W) -> Sink<W>
        ensures { result ≡ record { writer = writer; has_failed = false; is_flushed = true } }
    {
        Sink {
            writer,
            has_failed: false,
            is_flushed: true,
        }
    }

    /// Whether a write or a flush has failed.
    pub fn has_failed(&self) -> bool
        ensures { result ≡ spec.has_failed self.now }
    {
        self.has_failed
    }

    /// Whether all that was written was flushed.
    pub fn is_flushed(&self) -> bool
        ensures { result ≡ spec.is_flushed self.now }
    {
        self.is_flushed
    }

    /// How many of the first bytes a write takes, one at least where there is one; none where it fails,
    /// which is remembered.
    pub(crate) fn write(&mut self, bytes: &[u8]) -> Option<usize>
        ensures bound { IfSome result (λ count. count ≤ length bytes.now) }
        ensures some { IfSome result (λ count. 0 < length bytes.now → 0 < count) }
        ensures bytes { MatchOption result (Keeps (sink_contents W.contents self.old) (sink_contents W.contents self.new))
            (λ count. Appends (sink_contents W.contents self.old) (sink_contents W.contents self.new) (take count bytes.now)) }
        ensures unmarked { OnSome result (spec.has_failed self.new ≡ spec.has_failed self.old) }
        ensures marked { spec.has_failed self.new ≡ is_none result }
        ensures unflushed { OnSome result (spec.is_flushed self.new ≡ false) }
        ensures kept { IfNone result (spec.is_flushed self.new ≡ spec.is_flushed self.old) }
    {
        if !self.has_failed {
            if let Ok(count) = self.writer.write(bytes) {
                if count > 0 || bytes.is_empty() {
                    self.is_flushed = false;
                    return Some(count);
                }
            }
        }
        self.has_failed = true;
        None
    }

    /// Flushes what was written; none where it fails, which is remembered.
    pub(crate) fn flush(&mut self) -> Option<()>
        ensures bytes { Keeps (sink_contents W.contents self.old) (sink_contents W.contents self.new) }
        ensures unmarked { OnSome result (spec.has_failed self.new ≡ spec.has_failed self.old) }
        ensures marked { spec.has_failed self.new ≡ is_none result }
        ensures flushed { OnSome result (spec.is_flushed self.new ≡ true) }
        ensures kept { IfNone result (spec.is_flushed self.new ≡ spec.is_flushed self.old) }
    {
        self.has_failed = self.has_failed || self.writer.flush().is_err();
        if self.has_failed {
            return None;
        }
        self.is_flushed = true;
        Some(())
    }
}

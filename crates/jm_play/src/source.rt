ghost use Rattle.std.specs.Prelude.{◌≡◌, ◌≤◌, ◌<◌, length, take, false, is_none, IfSome, IfNone, OnSome};
ghost use Rattle.std.specs.Io.KnownBytes.{Consumes, IsAtEnd, Keeps};
ghost use Rattle.jm_play.specs.Source.{source_remaining};
ghost use Rattle.jm_play.specs.Source as spec;

use std::io;
use std::io::Read;

/// Where a scenario is read from: a reader, how many reads were made of it, and whether one failed. Of one
/// that could not be opened each read fails; from a failed read on each read fails.
#[derive(Drop)]
pub struct Source<R> {
    opened: io::Result<R>,
    reads: u64,
    has_failed: bool,
}

impl<R: Read> Source<R> {
    /// A source over what was opened, of which no read was made.
    pub fn new(opened: io::Result<R>) -> Source<R>
        ensures { result ≡ record { opened = opened; reads = 0; has_failed = false } }
    {
        Source {
            opened,
            reads: 0,
            has_failed: false,
        }
    }

    /// How many reads were made; the count stays at 2^64-1.
    pub fn reads(&self) -> u64
        ensures { result ≡ spec.reads self.now }
    {
        self.reads
    }

    /// Whether a read has failed.
    pub fn has_failed(&self) -> bool
        ensures { result ≡ spec.has_failed self.now }
    {
        self.has_failed
    }

    /// How many bytes a read gives, at the front of the chunk; none where it fails, which is remembered.
    pub(crate) fn read(&mut self, chunk: &mut [u8]) -> Option<usize>
        ensures bound { IfSome result (λ count. count ≤ length chunk.new) }
        ensures bytes { IfSome result (λ count.
            Consumes (source_remaining R.remaining self.old) (source_remaining R.remaining self.new) (take count chunk.new)) }
        ensures end { IfSome result (λ count. count ≡ 0 → 0 < length chunk.new → IsAtEnd (source_remaining R.remaining self.new)) }
        ensures kept { IfNone result (Keeps (source_remaining R.remaining self.old) (source_remaining R.remaining self.new)) }
        ensures unmarked { OnSome result (spec.has_failed self.new ≡ spec.has_failed self.old) }
        ensures marked { spec.has_failed self.new ≡ is_none result }
        ensures counted { spec.reads self.new ≡ spec.one_more (spec.reads self.old) }
    {
        self.reads = self.reads.saturating_add(1);
        if !self.has_failed {
            if let Ok(reader) = &mut self.opened {
                if let Ok(count) = reader.read(chunk) {
                    return Some(count);
                }
            }
        }
        self.has_failed = true;
        None
    }
}

ghost use Rattle.std.specs.Prelude.{◌≡◌, ◌+◌, ◌<◌, ◌≤◌, ◌++◌, ◌∷◌, [], ℕ, OnOk, length};
ghost use Rattle.jm_audit.specs.Passes.{not_below};

use jm_machine::Event;
use std::alloc::{AllocError, Global};
use std::marker::Model;
use std::sync::ledger::{Book, Ledger, Share};

/// One call of a pass: the position of its event in the trace, and the event.
#[derive(Drop)]
pub struct PassEntry {
    pub position: u64,
    pub event: Event,
}

/// The calls that one owner made, in order, of which it may have forgotten the oldest (ours). It has one part of the
/// ledger that counts the events. Contracts see the entries that it still has, how many calls were made with it, and for
/// how many more entries there is room.
#[derive(Drop)]
pub struct Pass<L: Ledger> {
    share: Share<L>,
    entries: Vec<PassEntry>,
}

impl<L: Ledger> Model for Pass<L> {
    ghost use Rattle.std.specs.Prelude.{◌≡◌, ◌-◌, ◌≤◌, length, vec_capacity, vec_len};
    ghost use Rattle.jm_audit.specs.Passes.{Calls};

    ghost Value = { Calls };

    ghost view = { λ p. record {
      entries = p.entries.items;
      made = p.share.amount;
      room = vec_capacity p.entries - vec_len p.entries;
    } };

    ghost invariant = { λ p. (p.share.parts ≡ 1) × (length p.entries.items ≤ p.share.amount) };
}

impl<L: Ledger> Pass<L> {
    /// A pass with which no call was made, with that part of the ledger. Takes no memory.
    pub fn new(alloc: Global, share: Share<L>) -> Pass<L>
        requires part { share.parts ≡ 1 }
        requires amount { share.amount ≡ 0 }
        ensures entries { result.entries ≡ [] }
        ensures made { result.made ≡ 0 }
    {
        Pass {
            share,
            entries: Vec::new(alloc),
        }
    }

    /// The calls, in order, but for those that were forgotten.
    pub fn entries(&self) -> &[PassEntry]
        ensures { result.now ≡ self.now.entries }
    {
        self.entries.as_slice()
    }

    /// Makes room for one entry more. `AllocError` where a request for memory was refused. Either way the calls stay.
    pub fn reserve(&mut self) -> Result<(), AllocError>
        ensures room { OnOk result (0 < self.new.room) }
        ensures entries { self.new.entries ≡ self.old.entries }
        ensures made { self.new.made ≡ self.old.made }
    {
        self.entries.reserve(1)
    }

    /// Notes a call behind all others, and counts it in the book. Takes no memory.
    pub fn note(&mut self, book: &mut Book<L>, entry: PassEntry)
        requires { 0 < self.old.room }
        ensures entries { self.new.entries ≡ self.old.entries ++ entry ∷ [] }
        ensures made { self.new.made ≡ self.old.made + 1 }
        ensures counted { book.new.total ≡ book.old.total + 1 }
    {
        let Pass { share, entries } = self;
        entries.push_reserved(entry);
        book.add(share, 1);
    }

    /// Forgets the entries whose positions are below `first`, once the segments with these were gathered. How many
    /// calls were made stays. Takes no memory.
    pub fn forget(&mut self, first: u64)
        ensures entries { self.new.entries ≡ not_below first self.old.entries }
        ensures made { self.new.made ≡ self.old.made }
    {
        self.entries.retain(|entry| entry.position >= first);
    }

    /// The part of the ledger, whose amount is the number of calls that were made with the pass.
    pub fn into_share(self) -> Share<L>
        ensures part { result.parts ≡ 1 }
        ensures amount { result.amount ≡ self.made }
    {
        let Pass { share, entries: _ } = self;
        share
    }
}

//! What a consumer is made of.

ghost use Rattle.std.specs.Prelude.{◌≡◌, None, false, IfOk};
ghost use Rattle.jm_machine.specs.Attached as attached;
ghost use Rattle.jm_session.specs.Sources.{counted_as};

use jm_dest::Key;
use jm_machine::is_named;
use jm_selector::Selector;
use std::alloc::{AllocError, Global};
use std::marker::Model;

/// What a new consumer receives from: its key, and which messages of a queue it takes. It has a second copy of a key whose
/// subscription has a name, by which the consumer is counted. Contracts see the key and the selector.
pub struct Source {
    key: Key,
    selector: Selector,
    counted: Option<Key>,
}

impl Drop for Source {
    fn drop(self) {
        let Source {
            key: _key,
            selector: _selector,
            counted: _counted,
        } = self;
    }
}

impl Model for Source {
    ghost use Rattle.std.specs.Prelude.{◌≡◌};
    ghost use Rattle.jm_session.specs.Sources.{Origin, counted_as};

    ghost Value = { Origin };

    ghost view = { λ s. record { key = s.key; selector = s.selector } };

    ghost invariant = { λ s. s.counted ≡ counted_as s.key };
}

fn counted(key: &Key) -> Result<Option<Key>, AllocError>
    ensures { IfOk result (λ counted. counted ≡ counted_as key.now) }
{
    if is_named(key) {
        Ok(Some(key.copy()?))
    } else {
        Ok(None)
    }
}

impl Source {
    /// The key, whose subscription has no name, with that selector. Takes no memory.
    pub fn plain(key: Key, selector: Selector) -> Source
        requires { attached.is_named key ≡ false }
        ensures { result ≡ record { key = key; selector = selector } }
    {
        Source {
            key,
            selector,
            counted: None,
        }
    }

    /// The key, with no selector. `AllocError` where a request for memory was refused.
    pub fn named(alloc: Global, key: Key) -> Result<Source, AllocError>
        ensures { IfOk result (λ source. source ≡ record { key = key; selector = None }) }
    {
        let counted = counted(&key)?;
        Ok(Source {
            key,
            selector: Selector::none(alloc),
            counted,
        })
    }

    /// The key, the selector, and the key by which a consumer is counted, where there is one.
    pub(crate) fn into_parts(self) -> (Key, Selector, Option<Key>)
        ensures key { result.0 ≡ self.key }
        ensures selector { result.1 ≡ self.selector }
        ensures counted { result.2 ≡ counted_as result.0 }
    {
        let Source {
            key,
            selector,
            counted,
        } = self;
        (key, selector, counted)
    }
}

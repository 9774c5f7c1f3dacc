//! That a store may cross threads, where its database may, and so may the one over a file: each part of a connection has its lemma in
//! the library of the database, so a search finds it.
//!
//! # Contract
//!
//! `Store<S>` is `Send` where the database's store `S` is, and `Store<FileStore<FileFrom<Unknown>>>`, which `jmsrun`
//! and `jm_file` use, is `Send` with nothing asked. The lemma stands in `jm_writes` itself, and a search finds it.
#![tactic(auto)]

ghost use Rattle.std.specs.Prelude.{◌≡◌};

use jm_writes::Store;
use sqlite::{Alter, FileFrom, FileStore, Unknown};

/// The value itself, in whatever thread it is.
fn crosses<T: Send>(value: T) -> T
    ensures { result ≡ value }
{
    value
}

/// The store itself: whoever has it may hand it to another thread, where its database may be handed over.
pub fn handed_over<S: Alter + Send>(store: Store<S>) -> Store<S>
    ensures { result ≡ store }
{
    crosses(store)
}

/// The store over a file and its log, of which nothing was known before: whoever has it may hand it to another thread.
pub fn file_handed_over(
    store: Store<FileStore<FileFrom<Unknown>>>,
) -> Store<FileStore<FileFrom<Unknown>>>
    ensures { result ≡ store }
{
    handed_over(store)
}

//! The orders of keys and of the rows of the tables.

ghost use Rattle.std.specs.Prelude.{◌≡◌, ◌<◌, ℕ, List, length, Decides};
ghost use Rattle.std.specs.Cmp.Lexicographic.{slice_cmp};
ghost use Rattle.std.specs.Ordering.{nat_cmp};
ghost use Rattle.std.specs.declared.cmp.Ordering.{Ordering as Answer};
ghost use Rattle.jm_loading.specs.Order as spec;
ghost use Rattle.jm_loading.specs.Unfit.{IsBehind};

use jm_decoding::{DelayRow, HeldRow, MessageRow, StationRow};
use jm_dest::{Key, Name};
use std::cmp::Ordering;

/// A row of a table, which is read in an order.
pub(crate) trait Ordered {
    /// Which of two rows is read first.
    ghost by: { Self → Self → Answer };

    /// Which of two rows is read first.
    fn order(&self, other: &Self) -> Ordering
        ensures { result ≡ by self.now other.now };
}

impl Ordered for StationRow {
    ghost use Rattle.jm_loading.specs.Fitting.{station_cmp};

    ghost by = { station_cmp };

    fn order(&self, other: &StationRow) -> Ordering {
        key_cmp(&self.key, &other.key)
    }
}

impl Ordered for MessageRow {
    ghost use Rattle.jm_loading.specs.Fitting.{message_cmp};

    ghost by = { message_cmp };

    fn order(&self, other: &MessageRow) -> Ordering {
        self.place.cmp(&other.place)
    }
}

impl Ordered for HeldRow {
    ghost use Rattle.jm_loading.specs.Fitting.{held_cmp};

    ghost by = { held_cmp };

    fn order(&self, other: &HeldRow) -> Ordering {
        key_cmp(&self.key, &other.key).then(self.place.cmp(&other.place))
    }
}

impl Ordered for DelayRow {
    ghost use Rattle.jm_loading.specs.Fitting.{delay_cmp};

    ghost by = { delay_cmp };

    fn order(&self, other: &DelayRow) -> Ordering {
        self.place.cmp(&other.place)
    }
}

/// Whether the row with that index is read behind the one before, where there is one.
pub(crate) fn is_behind<T: Ordered>(rows: &[T], at: usize) -> bool
    requires { at < length rows.now }
    ensures { Decides result (IsBehind T.by rows.now at) }
{
    at == 0 || rows[at - 1].order(&rows[at]).is_lt()
}

/// The family of a key, as it is stored: 1 for a queue, and 2 for a durable subscription.
fn family(key: &Key) -> u8
    ensures { result ≡ spec.family key.now }
{
    match key {
        Key::Queue(_) => 1,
        Key::Durable(_, _) => 2,
        Key::Own(_, _) | Key::SharedOwn(_, _) => 0,
    }
}

/// The client of a key, as it is stored: empty where it has none.
fn client(key: &Key) -> &str
    ensures { result.now ≡ spec.client key.now }
{
    match key {
        Key::Durable(Some(client), _) => client.as_str(),
        _ => "",
    }
}

/// The name of a key.
fn name(key: &Key) -> &str
    ensures { result.now ≡ spec.name key.now }
{
    match key {
        Key::Queue(name) => name.as_str(),
        Key::Durable(_, name) => name.as_str(),
        _ => "",
    }
}

/// Which of two keys comes first: by family, then by the bytes of the client, then by those of the name, as the tables are read.
pub(crate) fn key_cmp(a: &Key, b: &Key) -> Ordering
    ensures { result ≡ spec.key_cmp a.now b.now }
{
    let families = family(a).cmp(&family(b));
    let clients = client(a).as_bytes().cmp(client(b).as_bytes());
    let names = name(a).as_bytes().cmp(name(b).as_bytes());
    families.then(clients).then(names)
}

/// Which of two names comes first, by their bytes.
pub(crate) fn name_cmp(a: &Name, b: &Name) -> Ordering
    ensures { result ≡ slice_cmp nat_cmp a.now b.now }
{
    a.as_str().as_bytes().cmp(b.as_str().as_bytes())
}

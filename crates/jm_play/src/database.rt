//! Why the database of a store serves no run.

use std::fmt;
use thiserror::Error;

/// Why the database of a store serves no run (ours).
#[derive(Clone, Copy, Debug, PartialEq, Eq, Error)]
pub enum DatabaseFault {
    /// A row of it is none of a store's.
    Damaged,
    /// Its tables are of that version, which is neither 1 nor 2.
    Version(i64),
    /// The number of its last opening is the greatest, 4,294,967,295.
    Exhausted,
    /// It could not be opened, or refused a statement.
    Failed,
}

impl fmt::Display for DatabaseFault {
    ghost use Rattle.std.specs.Prelude.{Some};
    ghost use Rattle.jm_play.specs.Faults.{database_fault_text};

    ghost output = { λ fault. Some (database_fault_text fault) };

    /// What is told of the fault.
    fn fmt<W: fmt::Write>(&self, f: &mut fmt::Formatter<W>) -> fmt::Result {
        match self {
            DatabaseFault::Damaged => f.write_str("store: damaged"),
            DatabaseFault::Version(version) => write!(f, "store: version {version}"),
            DatabaseFault::Exhausted => f.write_str("store: exhausted"),
            DatabaseFault::Failed => f.write_str("store: failed"),
        }
    }
}

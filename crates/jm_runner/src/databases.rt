//! The databases of stores, by their names.

ghost use Rattle.std.specs.Prelude.{◌≡◌, false, IfOk};

use sqlite::{Alter, Connection, Error};

/// What opens the databases of stores by their names (ours).
pub trait Databases<S: Alter + Drop> {
    ghost use Rattle.std.specs.Prelude.{ℕ, List, Result, IfOk};
    ghost use Rattle.sqlite.specs.Held.{Held};
    ghost use Rattle.sqlite.specs.declared.error.Error.{Error};

    /// What opening the database of that name may give: a connection, or an error in its place. By default no connection.
    ghost opens: { Self → List ℕ → Result (Held S) Error → Type 0 } = { λ _ _ given. IfOk given (λ _. ⊥) };

    /// A connection to the database of that name, in no transaction; one that is not there is made. An error is told as the
    /// library tells it.
    fn connect(&self, name: &str) -> Result<Connection<S>, Error>
        ensures opens { opens self.now name.now result }
        ensures autocommit { IfOk result (λ conn. conn.in_transaction ≡ false) };
}

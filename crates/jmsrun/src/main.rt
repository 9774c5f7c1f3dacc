//! The runner of scenarios.
#![tactic(auto)]

ghost use Rattle.std.specs.Prelude.{◌≡◌, false, IfOk};

use jm_runner::{Databases, PARTS, run_program};
use sqlite::{Connection, Error, FileFrom, FileStore, Unknown};
use std::marker::Brand;
use std::process::ExitCode;
use std::sync::ledger::Blank;

/// What the program keeps a store in: a file and its log, of which nothing is known before.
type File = FileStore<FileFrom<Unknown>>;

/// The databases in files.
#[derive(Drop)]
struct FileDatabases<'a> {
    rt: &'a HostRuntime,
}

impl Databases<File> for FileDatabases<'_> {
    ghost use Rattle.std.specs.Prelude.{◌≢◌, codes, IsTrue, MatchResult};
    ghost use Rattle.sqlite.specs.Files.{IsOpened, file_state};
    ghost use Rattle.sqlite.specs.Held.{IsNew};
    ghost use Rattle.sqlite.specs.Opening.{is_open_error};
    ghost use Rattle.sqlite.specs.State.{HasCleanDisk};

    /// What the library says of a file: a connection that nobody used yet, never to `:memory:`; or an error of an opening.
    ghost opens = { λ _ name given. MatchResult given
        (λ conn. (name ≢ codes ":memory:") × IsNew conn × (HasCleanDisk (file_state conn) → IsOpened conn))
        (λ error. IsTrue (is_open_error error)) };

    /// The database in the file of that name.
    fn connect(&self, name: &str) -> Result<Connection<File>, Error> {
        match Connection::open_from(self.rt, name, false, Unknown) {
            Ok(conn) => Ok(conn),
            Err((error, _)) => Err(error),
        }
    }
}

fn main(rt: HostRuntime) -> ExitCode {
    let databases = FileDatabases { rt: &rt };
    let blank = Blank::new(PARTS);
    run_program::<File, _, _, Brand, _>(&rt, &rt, blank, &databases, &mut rt.stderr())
}

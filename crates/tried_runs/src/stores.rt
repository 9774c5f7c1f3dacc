//! A provider over a store in memory.

use jm_base::Refusal;
use jm_file::{Left as Handed, OpenFault, Unopened, open};
use sqlite::{Alter, Connection};
use std::alloc::Global;
use std::sync::Wait;
use std::time::Clock;
use tried::{Answer, Left, Made};
use tried_broker::anew::Run;

/// The call, as it is named.
const NAME: &str = "jm_file open";

/// What a call that was refused hands back.
#[derive(Drop)]
struct Back<S: Alter + Drop> {
    refusal: Refusal,
    /// None where it could not be settled.
    conn: Option<Connection<S>>,
}

fn of_fault(fault: OpenFault) -> Refusal {
    match fault {
        OpenFault::Memory => Refusal::Memory,
        _ => Refusal::Store,
    }
}

/// The connection, where it is handed back.
fn handed_back<S: Alter + Drop>(unopened: Unopened<S>) -> Back<S> {
    let Unopened { fault, left } = unopened;
    let refusal = of_fault(fault);
    let conn = match left {
        Handed::Settled(conn) => Some(conn),
        Handed::Shut(_) => None,
    };
    Back { refusal, conn }
}

/// How many connections there are of a provider over that store.
fn opened<R: Wait + Clock, S: Alter + Drop>(
    rt: &R,
    alloc: Global,
    conn: Connection<S>,
) -> Result<u64, Back<S>> {
    match open(rt, alloc, conn) {
        Ok(provider) => Ok(provider.overview().connections as u64),
        Err(unopened) => Err(handed_back(unopened)),
    }
}

/// What is told as that store is opened again.
fn again<R: Wait + Clock, S: Alter + Drop>(rt: &R, alloc: Global, conn: Connection<S>) -> Answer {
    match opened(rt, alloc, conn) {
        Ok(connections) => Ok(connections),
        Err(back) => Err(back.refusal),
    }
}

/// Opens the store, and where that wanted memory and its connection came back opens it again.
fn run<R: Wait + Clock, S: Alter + Drop>(rt: &R, alloc: Global, conn: Connection<S>) -> Run {
    match opened(rt, alloc, conn) {
        Ok(connections) => Run::Ended(Ok(connections)),
        Err(
            Back {
                refusal: Refusal::Memory,
                conn: Some(conn),
            },
        ) => Run::WentOn(Left {
            before: 0,
            after: 0,
            again: again(rt, alloc, conn),
        }),
        Err(Back { refusal, conn: _ }) => Run::Ended(Err(refusal)),
    }
}

/// Makes the call of that number.
pub fn made<R: Wait + Clock>(rt: &R, alloc: Global, number: usize) -> Made {
    if number > 0 {
        return Made::NoCall;
    }
    match Connection::open_in_memory(alloc) {
        Ok(conn) => run(rt, alloc, conn).told(NAME, Run::NotBegun),
        Err(_) => Made::NoMemory,
    }
}

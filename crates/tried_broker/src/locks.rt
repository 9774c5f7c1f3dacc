//! The lock.

ghost use Rattle.std.specs.Prelude.{◌≡◌};

use crate::locked::{Lock, ask_all, lock, make};
use jm_base::{Mode, Refusal};
use jm_broker::{Clock, Pass};
use jm_dest::{ConsumerId, Moment, SessionId};
use jm_machine::{Answer as Delivered, Reply, Step};
use std::alloc::Global;
use std::sync::Wait;
use std::sync::ledger::{Blank, Ledger};
use tests_calls::{At, Op, publication, session};
use tried::{Answer, Called, Left, Made, Told, Trial};

/// A lock with a consumer of a queue that holds a message, the pass of all calls, and a pass of none.
#[derive(Drop)]
struct Locked<'r, L: Ledger, R: Wait> {
    number: usize,
    rt: &'r R,
    session: SessionId,
    consumer: ConsumerId,
    noon: Noon,
    step: Step,
    lock: Lock<L>,
    pass: Pass<L>,
    unused: Pass<L>,
}

/// A clock that stands.
#[derive(Clone, Copy)]
struct Noon(Moment);

impl Clock for Noon {
    fn now(&self) -> Moment {
        self.0
    }
}

/// With the send they fill the room for eight entries.
static OPS: [Op; 7] = [
    Op::Open(1),
    Op::Open(2),
    Op::Session((1, 1), Mode::Auto),
    Op::Session((2, 1), Mode::Auto),
    Op::ConsumerAt((1, 1), 1, At::Queue("orders"), None, false),
    Op::Start(1),
    Op::Start(2),
];

fn sent(heap: Global) -> Result<Step, Refusal> {
    publication(heap, 1, At::Queue("orders"), None, 1)
}

/// The count of the delivery, or 0.
fn count(reply: Reply) -> Answer {
    match reply {
        Ok(Delivered::Delivered(delivery)) => Ok(u64::from(delivery.count)),
        Ok(_) => Ok(0),
        Err(refusal) => Err(refusal),
    }
}

/// Makes the calls before the message is sent, and sends it.
fn fill<L: Ledger, R: Wait>(
    rt: &R,
    heap: Global,
    lock: &Lock<L>,
    pass: &mut Pass<L>,
    step: &Step,
) -> Result<(), Refusal> {
    ask_all(rt, heap, lock, pass, &OPS)?;
    make(rt, lock, pass, step)?;
    Ok(())
}

impl<'r, L: Ledger, R: Wait> Locked<'r, L, R> {
    fn of(
        rt: &'r R,
        heap: Global,
        lock: Lock<L>,
        number: usize,
    ) -> Result<Locked<'r, L, R>, Refusal> {
        let (session, consumer, noon) = (session(1)?, ConsumerId::new(1)?, Moment::new(1000)?);
        let step = sent(heap)?;
        let mut pass = lock.pass(rt)?;
        let unused = lock.pass(rt)?;
        fill(rt, heap, &lock, &mut pass, &step)?;
        Ok(Locked {
            number,
            rt,
            session,
            consumer,
            noon: Noon(noon),
            step,
            lock,
            pass,
            unused,
        })
    }

    fn receive(&mut self) -> Answer {
        count(
            self.lock.receive(
                self.rt,
                &mut self.pass,
                &self.session,
                self.consumer,
                &self.noon,
                1,
            ),
        )
    }

    /// How many events are handed out.
    fn cut(&self) -> Answer {
        match self.lock.cut(self.rt) {
            Ok(trace) => Ok(trace.events().len() as u64),
            Err(refusal) => Err(refusal),
        }
    }

    fn reserve(&mut self) -> Answer {
        match self.unused.reserve() {
            Ok(()) => Ok(self.unused.entries().len() as u64),
            Err(_) => Err(Refusal::Memory),
        }
    }
}

impl<'r, L: Ledger, R: Wait> Trial for Locked<'r, L, R> {
    /// How many entries the pass has.
    fn state(&self) -> u64 {
        self.pass.entries().len() as u64
    }

    fn call(&mut self) -> Called {
        match self.number {
            0 => Called {
                name: "jm_broker Broker::call",
                answer: make(self.rt, &self.lock, &mut self.pass, &self.step),
            },
            1 => Called {
                name: "jm_broker Broker::receive",
                answer: self.receive(),
            },
            2 => Called {
                name: "jm_broker Broker::cut",
                answer: self.cut(),
            },
            3 => Called {
                name: "jm_audit Pass::reserve",
                answer: self.reserve(),
            },
            _ => Called::NONE,
        }
    }
}

/// Makes the call of the trial, and makes it again where it wanted memory.
fn tell<L: Ledger, R: Wait>(mut trial: Locked<'_, L, R>) -> Made {
    let before = trial.state();
    let Called { name, answer } = trial.call();
    if name.is_empty() {
        return Made::NoCall;
    }
    let left = match answer {
        Err(Refusal::Memory) => Some(Left {
            before,
            after: trial.state(),
            again: trial.call().answer,
        }),
        _ => None,
    };
    Made::Told(Told { name, answer, left })
}

fn made_on<L: Ledger, R: Wait>(rt: &R, heap: Global, lock: Lock<L>, number: usize) -> Made {
    match Locked::of(rt, heap, lock, number) {
        Ok(trial) => tell(trial),
        Err(_) => Made::NoMemory,
    }
}

/// Makes the call of that number.
pub fn made<L: Ledger, R: Wait>(rt: &R, heap: Global, blank: Blank, number: usize) -> Made
    requires name { blank.name ≡ L.name }
    requires parts { (blank.parts ≡ L.parts) × (blank.parts ≡ 3) }
{
    match lock::<L>(heap, blank) {
        Ok(lock) => made_on(rt, heap, lock, number),
        Err(_) => Made::NoMemory,
    }
}

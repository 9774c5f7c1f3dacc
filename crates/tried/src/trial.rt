use crate::told::{Left, Made, Told};
use jm_base::{MessageFault, Refusal};

/// What a call is answered: a number, or why it is refused.
pub type Answer = Result<u64, Refusal>;

/// A call and its answer.
#[derive(Clone, Copy)]
pub struct Called {
    /// The call, as `CRATE FUNCTION`.
    pub name: &'static str,
    /// What it was answered.
    pub answer: Answer,
}

impl Called {
    /// No call.
    pub const NONE: Called = Called {
        name: "",
        answer: Ok(0),
    };
}

/// A call, and what it is made on.
pub trait Trial {
    /// What the readers show, as a number.
    fn state(&self) -> u64;

    /// Makes the call, the same one each time.
    fn call(&mut self) -> Called;
}

/// What is left of the trial whose call wanted memory, and what the call is answered now.
fn left<T: Trial>(trial: &mut T, before: u64) -> Left {
    let after = trial.state();
    let again = trial.call().answer;
    Left {
        before,
        after,
        again,
    }
}

/// Makes the call of the trial, and makes it again where it wanted memory. A trial that could not be made wanted memory before it.
pub fn tell<T: Trial + Drop>(trial: Result<T, Refusal>) -> Made {
    let Ok(mut trial) = trial else {
        return Made::NoMemory;
    };
    let before = trial.state();
    let called = trial.call();
    if called.name.is_empty() {
        return Made::NoCall;
    }
    let left = match called.answer {
        Err(Refusal::Memory) => Some(left(&mut trial, before)),
        _ => None,
    };
    let Called { name, answer } = called;
    Made::Told(Told { name, answer, left })
}

/// Two numbers of at most three digits as one.
pub fn two(high: usize, low: usize) -> u64 {
    (high as u64).wrapping_mul(1000).wrapping_add(low as u64)
}

/// 1 where they are the same, else 0.
pub fn same<T: PartialEq>(one: &T, other: &T) -> u64 {
    u64::from(*one == *other)
}

/// 0 where they are the same, else 1.
pub fn changed<T: PartialEq>(one: &T, other: &T) -> u64 {
    u64::from(*one != *other)
}

/// A fault of a message as a refusal: of its state, of its names, of its numbers, of its types, or for want of memory.
pub fn of_fault(fault: MessageFault) -> Refusal {
    match fault {
        MessageFault::NotWriteable => Refusal::IllegalState,
        MessageFault::BadName => Refusal::BadName,
        MessageFault::OutOfRange => Refusal::OutOfRange,
        MessageFault::Unset | MessageFault::MessageFormat => Refusal::MessageFormat,
        MessageFault::Memory => Refusal::Memory,
    }
}

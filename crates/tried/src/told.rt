use crate::trial::Answer;
use jm_base::Refusal;
use std::fmt;

/// What a call left that wanted memory.
#[derive(Clone, Copy)]
pub struct Left {
    /// What the readers showed before it.
    pub before: u64,
    /// What they showed after it.
    pub after: u64,
    /// What the call was answered as it was made again.
    pub again: Answer,
}

/// What a call was told.
#[derive(Clone, Copy)]
pub struct Told {
    /// The call, as `CRATE FUNCTION`.
    pub name: &'static str,
    /// What it was answered.
    pub answer: Answer,
    /// What it left, where it wanted memory.
    pub left: Option<Left>,
}

/// Whether a call was made.
#[derive(Clone, Copy)]
pub enum Made {
    /// It was, and told this.
    Told(Told),
    /// Memory was wanted before it.
    NoMemory,
    /// There is no call of that number.
    NoCall,
}

/// An answer, as it is printed.
#[derive(Clone, Copy)]
struct Shown(Answer);

impl fmt::Display for Shown {
    /// The number, or the name of the refusal.
    fn fmt<W: fmt::Write>(&self, f: &mut fmt::Formatter<W>) -> fmt::Result {
        match self.0 {
            Ok(number) => write!(f, "{number}"),
            Err(Refusal::Memory) => f.write_str("memory"),
            Err(refusal) => write!(f, "{refusal}"),
        }
    }
}

impl fmt::Display for Told {
    /// The name and the answer; after a want of memory also what the readers showed before and after it, and the next answer.
    fn fmt<W: fmt::Write>(&self, f: &mut fmt::Formatter<W>) -> fmt::Result {
        let name = self.name;
        let answer = Shown(self.answer);
        match self.left {
            None => write!(f, "{name}: {answer}"),
            Some(left) => {
                let Left {
                    before,
                    after,
                    again,
                } = left;
                let again = Shown(again);
                write!(f, "{name}: {answer}, {before} left {after}, {again}")
            }
        }
    }
}

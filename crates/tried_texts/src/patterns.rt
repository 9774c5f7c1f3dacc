//! Patterns of LIKE, and what they are cut into.

use jm_base::{Refusal, Str};
use jm_tree::{Items, Pattern};
use std::alloc::{AllocError, Global};
use tried::{Answer, Called, Made, Trial, tell};

const TEXT: &str = "a%b_c%";

/// A pattern.
#[derive(Drop)]
struct Patterns {
    alloc: Global,
    number: usize,
    pattern: Pattern,
}

fn text(alloc: Global) -> Result<Str, AllocError> {
    Ok(Str::new(String::from_str(alloc, TEXT)?))
}

fn pattern(alloc: Global) -> Result<Pattern, AllocError> {
    Pattern::new(alloc, text(alloc)?, None)
}

/// How many segments stand before the last one.
fn segments(items: &Items) -> u64 {
    items.segments().0.len() as u64
}

fn cut(alloc: Global) -> Answer {
    match Items::cut(alloc, TEXT, None) {
        Ok(items) => Ok(segments(&items)),
        Err(_) => Err(Refusal::Memory),
    }
}

fn made_pattern(alloc: Global) -> Answer {
    match pattern(alloc) {
        Ok(pattern) => Ok(pattern.as_str().len() as u64),
        Err(_) => Err(Refusal::Memory),
    }
}

fn copied(alloc: Global, pattern: &Pattern) -> Answer {
    match pattern.copy(alloc) {
        Ok(copy) => Ok(copy.as_str().len() as u64),
        Err(_) => Err(Refusal::Memory),
    }
}

impl Patterns {
    fn new(alloc: Global, number: usize) -> Result<Patterns, Refusal> {
        Ok(Patterns {
            alloc,
            number,
            pattern: pattern(alloc)?,
        })
    }
}

impl Trial for Patterns {
    /// The length of the pattern.
    fn state(&self) -> u64 {
        self.pattern.as_str().len() as u64
    }

    fn call(&mut self) -> Called {
        match self.number {
            0 => Called {
                name: "jm_tree Items::cut",
                answer: cut(self.alloc),
            },
            1 => Called {
                name: "jm_tree Pattern::new",
                answer: made_pattern(self.alloc),
            },
            2 => Called {
                name: "jm_tree Pattern::copy",
                answer: copied(self.alloc, &self.pattern),
            },
            _ => Called::NONE,
        }
    }
}

/// Makes the call of that number.
pub fn made(alloc: Global, number: usize) -> Made {
    tell(Patterns::new(alloc, number))
}

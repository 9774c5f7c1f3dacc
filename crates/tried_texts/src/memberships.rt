//! Identifiers, and the texts of IN.

use jm_base::{List, Refusal, Str};
use jm_tree::{Identifier, Texts};
use std::alloc::{AllocError, Global};
use tried::{Answer, Called, Made, Trial, tell, two};

/// An identifier and texts.
#[derive(Drop)]
struct Memberships {
    alloc: Global,
    number: usize,
    identifier: Identifier,
    texts: Texts,
}

fn text(alloc: Global, text: &str) -> Result<Str, AllocError> {
    Ok(Str::new(String::from_str(alloc, text)?))
}

fn identifier(alloc: Global) -> Result<Identifier, AllocError> {
    Ok(Identifier::new(text(alloc, "JMSPriority")?))
}

fn list(alloc: Global) -> Result<List<Str>, AllocError> {
    let mut list = List::new(Vec::new(alloc));
    list.push(text(alloc, "a")?)?;
    list.push(text(alloc, "b")?)?;
    Ok(list)
}

fn texts(alloc: Global) -> Result<Texts, AllocError> {
    Texts::new(alloc, list(alloc)?)
}

/// How many texts there are, and whether the second is among them.
fn numbers(texts: &Texts) -> u64 {
    two(texts.as_slice().len(), usize::from(texts.contains("b")))
}

fn copied(identifier: &Identifier) -> Answer {
    Ok(identifier.copy()?.as_str().len() as u64)
}

fn made_texts(alloc: Global) -> Answer {
    match texts(alloc) {
        Ok(texts) => Ok(numbers(&texts)),
        Err(_) => Err(Refusal::Memory),
    }
}

fn copied_texts(texts: &Texts) -> Answer {
    match texts.copy() {
        Ok(copy) => Ok(numbers(&copy)),
        Err(_) => Err(Refusal::Memory),
    }
}

impl Memberships {
    fn new(alloc: Global, number: usize) -> Result<Memberships, Refusal> {
        Ok(Memberships {
            alloc,
            number,
            identifier: identifier(alloc)?,
            texts: texts(alloc)?,
        })
    }
}

impl Trial for Memberships {
    /// What the readers of the texts show.
    fn state(&self) -> u64 {
        numbers(&self.texts)
    }

    fn call(&mut self) -> Called {
        match self.number {
            0 => Called {
                name: "jm_tree Identifier::copy",
                answer: copied(&self.identifier),
            },
            1 => Called {
                name: "jm_tree Texts::new",
                answer: made_texts(self.alloc),
            },
            2 => Called {
                name: "jm_tree Texts::copy",
                answer: copied_texts(&self.texts),
            },
            _ => Called::NONE,
        }
    }
}

/// Makes the call of that number.
pub fn made(alloc: Global, number: usize) -> Made {
    tell(Memberships::new(alloc, number))
}

//! Drafts, whose readers are seen by whether the draft is still the one that it was.

use jm_base::Refusal;
use jm_header::Draft;
use jm_property::Property;
use std::alloc::Global;
use tried::{Answer, Called, Made, Trial, changed, of_fault, same, tell};

/// A draft and one that equals it, to which no call is made.
#[derive(Drop)]
struct Drafts {
    number: usize,
    draft: Draft,
    before: Draft,
}

/// A draft whose every part that takes memory is set.
fn full(alloc: Global) -> Result<Draft, Refusal> {
    let mut draft = Draft::new(alloc);
    match fill(&mut draft) {
        Ok(()) => Ok(draft),
        Err(refusal) => Err(refusal),
    }
}

fn fill(draft: &mut Draft) -> Result<(), Refusal> {
    draft.set_correlation("request 1")?;
    draft.set_type("order")?;
    draft.set_text("one bicycle")?;
    set_property(draft, "x")
}

fn set_property(draft: &mut Draft, name: &str) -> Result<(), Refusal> {
    match draft.set_property(name, Property::Long(1)) {
        Ok(()) => Ok(()),
        Err(fault) => Err(of_fault(fault)),
    }
}

fn copied(draft: &Draft) -> Answer {
    match draft.copy() {
        Ok(copy) => Ok(same(&copy, draft)),
        Err(_) => Err(Refusal::Memory),
    }
}

impl Drafts {
    fn new(alloc: Global, number: usize) -> Result<Drafts, Refusal> {
        Ok(Drafts {
            number,
            draft: full(alloc)?,
            before: full(alloc)?,
        })
    }

    /// Whether the draft was changed.
    fn set(&self, set: Result<(), Refusal>) -> Answer {
        match set {
            Ok(()) => Ok(changed(&self.draft, &self.before)),
            Err(refusal) => Err(refusal),
        }
    }

    fn correlation(&mut self) -> Answer {
        let set = self.draft.set_correlation("request 2");
        self.set(set)
    }

    fn message_type(&mut self) -> Answer {
        let set = self.draft.set_type("invoice");
        self.set(set)
    }

    fn text(&mut self) -> Answer {
        let set = self.draft.set_text("two bicycles");
        self.set(set)
    }

    fn bytes(&mut self) -> Answer {
        let set = self.draft.set_bytes(&[0, 255]);
        self.set(set)
    }

    fn property(&mut self) -> Answer {
        let set = set_property(&mut self.draft, "y");
        self.set(set)
    }
}

impl Trial for Drafts {
    /// 1 where the draft is as it was.
    fn state(&self) -> u64 {
        same(&self.draft, &self.before)
    }

    fn call(&mut self) -> Called {
        match self.number {
            0 => Called {
                name: "jm_header Draft::set_correlation",
                answer: self.correlation(),
            },
            1 => Called {
                name: "jm_header Draft::set_type",
                answer: self.message_type(),
            },
            2 => Called {
                name: "jm_header Draft::set_text",
                answer: self.text(),
            },
            3 => Called {
                name: "jm_header Draft::set_bytes",
                answer: self.bytes(),
            },
            4 => Called {
                name: "jm_header Draft::set_property",
                answer: self.property(),
            },
            5 => Called {
                name: "jm_header Draft::copy",
                answer: copied(&self.draft),
            },
            _ => Called::NONE,
        }
    }
}

/// Makes the call of that number.
pub fn made(alloc: Global, number: usize) -> Made {
    tell(Drafts::new(alloc, number))
}

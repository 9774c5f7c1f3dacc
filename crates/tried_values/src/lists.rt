//! Texts, lists, boxes, slots, and lists of which items go.

use jm_base::{Boxed, List, Refusal, Str};
use jm_gaps::GapList;
use jm_slots::Slots;
use std::alloc::{AllocError, Global};
use tried::{Answer, Called, Made, Trial, tell, two};

/// A text and a list.
#[derive(Drop)]
struct Lists {
    alloc: Global,
    number: usize,
    text: Str,
    list: List<u64>,
}

fn text(alloc: Global) -> Result<Str, AllocError> {
    Ok(Str::new(String::from_str(alloc, "text")?))
}

fn boxed(alloc: Global) -> Answer {
    Ok(Boxed::new(alloc, 7)?.into_inner())
}

fn pushed(list: &mut List<u64>) -> Answer {
    list.push(1)?;
    Ok(list.as_slice().len() as u64)
}

fn copied(text: &Str) -> Answer {
    Ok(text.copy()?.as_str().len() as u64)
}

impl Lists {
    fn new(alloc: Global, number: usize) -> Result<Lists, Refusal> {
        Ok(Lists {
            alloc,
            number,
            text: text(alloc)?,
            list: List::new(Vec::new(alloc)),
        })
    }
}

impl Trial for Lists {
    /// The length of the list and of the text.
    fn state(&self) -> u64 {
        two(self.list.as_slice().len(), self.text.as_str().len())
    }

    fn call(&mut self) -> Called {
        match self.number {
            0 => Called {
                name: "jm_base Boxed::new",
                answer: boxed(self.alloc),
            },
            1 => Called {
                name: "jm_base List::push",
                answer: pushed(&mut self.list),
            },
            2 => Called {
                name: "jm_base Str::copy",
                answer: copied(&self.text),
            },
            _ => Called::NONE,
        }
    }
}

/// Two items in slots, of which one was taken out.
#[derive(Drop)]
struct Items {
    slots: Slots<u64>,
}

fn put_two(slots: &mut Slots<u64>) -> Result<(), AllocError> {
    slots.reserve(2)?;
    slots.push(7);
    slots.push(8);
    if slots.get(0).is_some() && slots.leaving() > 0 {
        let _ = slots.take(0);
    }
    Ok(())
}

impl Items {
    fn new(alloc: Global) -> Result<Items, Refusal> {
        let mut slots = Slots::new(alloc);
        match put_two(&mut slots) {
            Ok(()) => Ok(Items { slots }),
            Err(AllocError) => Err(Refusal::Memory),
        }
    }
}

impl Trial for Items {
    /// How many slots there are, and how many items.
    fn state(&self) -> u64 {
        two(self.slots.end(), self.slots.len())
    }

    fn call(&mut self) -> Called {
        let answer = match self.slots.reserve(100) {
            Ok(()) => Ok(self.slots.len() as u64),
            Err(AllocError) => Err(Refusal::Memory),
        };
        Called {
            name: "jm_slots Slots::reserve",
            answer,
        }
    }
}

/// Two items in a list, of which one went.
#[derive(Drop)]
struct Gaps {
    list: GapList<u64>,
}

fn list_two(list: &mut GapList<u64>) -> Result<(), AllocError> {
    list.reserve(2)?;
    list.push(7);
    list.push(8);
    let _ = list.remove(0);
    Ok(())
}

impl Gaps {
    fn new(alloc: Global) -> Result<Gaps, Refusal> {
        let mut list = GapList::new(alloc);
        match list_two(&mut list) {
            Ok(()) => Ok(Gaps { list }),
            Err(AllocError) => Err(Refusal::Memory),
        }
    }
}

impl Trial for Gaps {
    /// How many items there are, and the first of them.
    fn state(&self) -> u64 {
        let first = if self.list.is_empty() {
            0
        } else {
            *self.list.at(0) as usize
        };
        two(self.list.len(), first)
    }

    fn call(&mut self) -> Called {
        let answer = match self.list.reserve(100) {
            Ok(()) => Ok(self.list.len() as u64),
            Err(AllocError) => Err(Refusal::Memory),
        };
        Called {
            name: "jm_gaps GapList::reserve",
            answer,
        }
    }
}

/// Makes the call of that number.
pub fn made(alloc: Global, number: usize) -> Made {
    match number {
        3 => tell(Items::new(alloc)),
        4 => tell(Gaps::new(alloc)),
        _ => tell(Lists::new(alloc, number)),
    }
}

//! Properties of messages.

use jm_base::Refusal;
use jm_property::{Properties, Property};
use jm_shared::SharedStr;
use std::alloc::{AllocError, Global};
use tried::{Answer, Called, Made, Trial, of_fault, same, tell, two};

/// Properties of which the first is a number, and a property that is a text.
#[derive(Drop)]
struct Kept {
    number: usize,
    properties: Properties,
    property: Property,
}

fn text(alloc: Global) -> Result<Property, AllocError> {
    Ok(Property::Text(SharedStr::from_str(alloc, "text")?))
}

fn first(alloc: Global) -> Result<Properties, Refusal> {
    let mut properties = Properties::new(alloc);
    match properties.set("x", Property::Long(12345)) {
        Ok(()) => Ok(properties),
        Err(fault) => Err(of_fault(fault)),
    }
}

fn set(properties: &mut Properties) -> Answer {
    match properties.set("y", Property::Long(1)) {
        Ok(()) => Ok(properties.len() as u64),
        Err(fault) => Err(of_fault(fault)),
    }
}

/// The length of the number's text.
fn text_of(properties: &Properties) -> Answer {
    match properties.get_text("x") {
        Ok(text) => Ok(text.as_str().len() as u64),
        Err(fault) => Err(of_fault(fault)),
    }
}

fn copied(properties: &Properties) -> Answer {
    match properties.copy() {
        Ok(copy) => Ok(u64::from(copy.is(properties))),
        Err(_) => Err(Refusal::Memory),
    }
}

fn copied_property(property: &Property) -> Answer {
    match property.copy() {
        Ok(copy) => Ok(same(&copy, property)),
        Err(_) => Err(Refusal::Memory),
    }
}

impl Kept {
    fn new(alloc: Global, number: usize) -> Result<Kept, Refusal> {
        Ok(Kept {
            number,
            properties: first(alloc)?,
            property: text(alloc)?,
        })
    }
}

impl Trial for Kept {
    /// How many properties there are, and whether there is the one that is set.
    fn state(&self) -> u64 {
        two(
            self.properties.len(),
            usize::from(self.properties.get("y").is_some()),
        )
    }

    fn call(&mut self) -> Called {
        match self.number {
            0 => Called {
                name: "jm_property Properties::set",
                answer: set(&mut self.properties),
            },
            1 => Called {
                name: "jm_property Properties::get_text",
                answer: text_of(&self.properties),
            },
            2 => Called {
                name: "jm_property Properties::copy",
                answer: copied(&self.properties),
            },
            3 => Called {
                name: "jm_property Property::copy",
                answer: copied_property(&self.property),
            },
            _ => Called::NONE,
        }
    }
}

/// Makes the call of that number.
pub fn made(alloc: Global, number: usize) -> Made {
    tell(Kept::new(alloc, number))
}

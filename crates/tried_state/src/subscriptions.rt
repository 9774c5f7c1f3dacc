//! Subscriptions in order of creation.

use jm_base::{Refusal, Str};
use jm_dest::{Key, Name, SubscriptionName};
use jm_header::Message;
use jm_machine::Definition;
use jm_sub::{Sharing, Subs, defined};
use std::alloc::{AllocError, Global};
use tests_calls::{At, sent};
use tried::{Answer, Called, Made, Trial, tell};

/// A subscription, and a message that it accepts.
#[derive(Drop)]
struct Subscriptions {
    alloc: Global,
    number: usize,
    topic: Name,
    selector: Option<Str>,
    subs: Subs,
    message: Message,
}

fn text(alloc: Global) -> Result<Option<Str>, AllocError> {
    Ok(Some(Str::new(String::from_str(alloc, "x = 1")?)))
}

fn key(alloc: Global, name: &str) -> Result<Key, Refusal> {
    Ok(Key::Durable(None, SubscriptionName::new(alloc, name)?))
}

fn one(alloc: Global) -> Result<Subs, Refusal> {
    let mut subs = Subs::new(alloc);
    match add(alloc, &mut subs) {
        Ok(()) => Ok(subs),
        Err(refusal) => Err(refusal),
    }
}

fn add(alloc: Global, subs: &mut Subs) -> Result<(), Refusal> {
    let topic = Name::new(alloc, "orders")?;
    let decision = subs.decide_create(key(alloc, "first")?, &topic, &None, false)?;
    subs.apply(decision);
    Ok(())
}

/// The length of the selector's text.
fn selected(definition: &Definition) -> u64 {
    match definition.selector.text() {
        Some(text) => text.len() as u64,
        None => 0,
    }
}

fn copied(subs: &Subs) -> Answer {
    match subs.copy() {
        Ok(copy) => Ok(copy.len() as u64),
        Err(_) => Err(Refusal::Memory),
    }
}

impl Subscriptions {
    fn new(alloc: Global, number: usize) -> Result<Subscriptions, Refusal> {
        Ok(Subscriptions {
            alloc,
            number,
            topic: Name::new(alloc, "orders")?,
            selector: text(alloc)?,
            subs: one(alloc)?,
            message: sent(alloc, 1, At::Topic("orders"), None)?,
        })
    }

    fn definition(&self) -> Result<Definition, Refusal> {
        defined(self.alloc, &self.topic, &self.selector, false, false)
    }

    fn defined(&self) -> Answer {
        match self.definition() {
            Ok(definition) => Ok(selected(&definition)),
            Err(refusal) => Err(refusal),
        }
    }

    fn accepting(&self) -> Answer {
        match self.subs.accepting(&self.message, None) {
            Ok(keys) => Ok(keys.len() as u64),
            Err(refusal) => Err(refusal),
        }
    }

    fn accepting_places(&self) -> Answer {
        match self.subs.accepting_places(&self.message, None) {
            Ok(places) => Ok(places.len() as u64),
            Err(refusal) => Err(refusal),
        }
    }

    fn create(&mut self) -> Answer {
        let key = key(self.alloc, "second")?;
        match self
            .subs
            .decide_create(key, &self.topic, &self.selector, false)
        {
            Ok(decision) => Ok(selected(decision.definition())),
            Err(refusal) => Err(refusal),
        }
    }

    fn named(&mut self) -> Answer {
        let key = key(self.alloc, "second")?;
        let sharing = Sharing::Unshared;
        match self.subs.decide_named(key, &self.topic, &self.selector, false, sharing, true, true) {
            Ok(decision) => Ok(u64::from(decision.is_some())),
            Err(refusal) => Err(refusal),
        }
    }

    fn decide(&mut self) -> Answer {
        let key = key(self.alloc, "second")?;
        let definition = self.definition()?;
        match self.subs.decide(key, definition) {
            Ok(decision) => Ok(selected(decision.definition())),
            Err(_) => Err(Refusal::Memory),
        }
    }
}

impl Trial for Subscriptions {
    /// How many subscriptions there are.
    fn state(&self) -> u64 {
        self.subs.len() as u64
    }

    fn call(&mut self) -> Called {
        match self.number {
            0 => Called {
                name: "jm_sub defined",
                answer: self.defined(),
            },
            1 => Called {
                name: "jm_sub Subs::copy",
                answer: copied(&self.subs),
            },
            2 => Called {
                name: "jm_sub Subs::accepting",
                answer: self.accepting(),
            },
            3 => Called {
                name: "jm_sub Subs::decide_create",
                answer: self.create(),
            },
            4 => Called {
                name: "jm_sub Subs::decide_named",
                answer: self.named(),
            },
            5 => Called {
                name: "jm_sub Subs::decide",
                answer: self.decide(),
            },
            6 => Called {
                name: "jm_sub Subs::accepting_places",
                answer: self.accepting_places(),
            },
            _ => Called::NONE,
        }
    }
}

/// Makes the call of that number.
pub fn made(alloc: Global, number: usize) -> Made {
    tell(Subscriptions::new(alloc, number))
}

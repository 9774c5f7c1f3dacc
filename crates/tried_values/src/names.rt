//! Names of destinations, clients and subscriptions.

use jm_base::Refusal;
use jm_dest::{ClientId, Name, SubscriptionName};
use std::alloc::Global;
use tried::{Answer, Called, Made, Trial, tell, two};

/// A name of each kind.
#[derive(Drop)]
struct Names {
    alloc: Global,
    number: usize,
    name: Name,
    client: ClientId,
    subscription: SubscriptionName,
}

fn name(alloc: Global) -> Answer {
    Ok(Name::new(alloc, "orders")?.as_str().len() as u64)
}

fn client(alloc: Global) -> Answer {
    Ok(ClientId::new(alloc, "billing")?.as_str().len() as u64)
}

fn subscription(alloc: Global) -> Answer {
    Ok(SubscriptionName::new(alloc, "invoices")?.as_str().len() as u64)
}

fn copied_name(name: &Name) -> Answer {
    Ok(name.copy()?.as_str().len() as u64)
}

fn copied_client(client: &ClientId) -> Answer {
    Ok(client.copy()?.as_str().len() as u64)
}

fn copied_subscription(name: &SubscriptionName) -> Answer {
    Ok(name.copy()?.as_str().len() as u64)
}

impl Names {
    fn new(alloc: Global, number: usize) -> Result<Names, Refusal> {
        Ok(Names {
            alloc,
            number,
            name: Name::new(alloc, "a")?,
            client: ClientId::new(alloc, "ab")?,
            subscription: SubscriptionName::new(alloc, "abc")?,
        })
    }
}

impl Trial for Names {
    /// The lengths of the first two.
    fn state(&self) -> u64 {
        two(self.name.as_str().len(), self.client.as_str().len())
    }

    fn call(&mut self) -> Called {
        match self.number {
            0 => Called {
                name: "jm_dest Name::new",
                answer: name(self.alloc),
            },
            1 => Called {
                name: "jm_dest ClientId::new",
                answer: client(self.alloc),
            },
            2 => Called {
                name: "jm_dest SubscriptionName::new",
                answer: subscription(self.alloc),
            },
            3 => Called {
                name: "jm_dest Name::copy",
                answer: copied_name(&self.name),
            },
            4 => Called {
                name: "jm_dest ClientId::copy",
                answer: copied_client(&self.client),
            },
            5 => Called {
                name: "jm_dest SubscriptionName::copy",
                answer: copied_subscription(&self.subscription),
            },
            _ => Called::NONE,
        }
    }
}

/// Makes the call of that number.
pub fn made(alloc: Global, number: usize) -> Made {
    tell(Names::new(alloc, number))
}

//! The table of messages, and the rows of one key.

use jm_base::Refusal;
use jm_header::Message;
use jm_pending::{Held, Row, Table};
use std::alloc::Global;
use tests_calls::{At, sent};
use tried::{Answer, Called, Made, Trial, tell, two};

/// A row and its message.
#[derive(Drop)]
struct Tables {
    number: usize,
    table: Table,
    held: Held,
}

fn message(alloc: Global) -> Result<Message, Refusal> {
    sent(alloc, 1, At::Queue("orders"), None)
}

fn copied(table: &Table) -> Answer {
    match table.copy() {
        Ok(copy) => Ok(copy.len() as u64),
        Err(_) => Err(Refusal::Memory),
    }
}

fn copied_rows(held: &Held) -> Answer {
    match held.copy() {
        Ok(copy) => Ok(copy.len() as u64),
        Err(_) => Err(Refusal::Memory),
    }
}

fn reserved(table: &mut Table) -> Answer {
    match table.reserve(100) {
        Ok(()) => Ok(table.len() as u64),
        Err(_) => Err(Refusal::Memory),
    }
}

fn reserved_rows(held: &mut Held) -> Answer {
    match held.reserve(100) {
        Ok(()) => Ok(held.len() as u64),
        Err(_) => Err(Refusal::Memory),
    }
}

impl Tables {
    fn new(alloc: Global, number: usize) -> Result<Tables, Refusal> {
        let message = message(alloc)?;
        let row = Row::new(1, &message);
        let mut table = Table::new(alloc);
        let mut held = Held::new(alloc, None);
        table.reserve(1)?;
        held.reserve(1)?;
        if table.holders(1) == 0 {
            table.put(1, message);
            held.add(&mut table, row);
        }
        Ok(Tables {
            number,
            table,
            held,
        })
    }
}

impl Trial for Tables {
    /// How many messages and how many rows there are.
    fn state(&self) -> u64 {
        two(self.table.len(), self.held.len())
    }

    fn call(&mut self) -> Called {
        match self.number {
            0 => Called {
                name: "jm_lane Table::copy",
                answer: copied(&self.table),
            },
            1 => Called {
                name: "jm_lane Table::reserve",
                answer: reserved(&mut self.table),
            },
            2 => Called {
                name: "jm_pending Held::copy",
                answer: copied_rows(&self.held),
            },
            3 => Called {
                name: "jm_pending Held::reserve",
                answer: reserved_rows(&mut self.held),
            },
            _ => Called::NONE,
        }
    }
}

/// Makes the call of that number.
pub fn made(alloc: Global, number: usize) -> Made {
    tell(Tables::new(alloc, number))
}

//! Rows, and subscriptions with their rows.

use crate::definitions::{definition, key};
use jm_base::{List, Refusal};
use jm_machine::{PlacedRow, Row, RowState, Station};
use std::alloc::Global;
use tests_calls::{At, sent};
use tried::{Answer, Called, Made, Trial, same, tell};

/// A row, and a subscription that holds one.
#[derive(Drop)]
struct Stations {
    alloc: Global,
    number: usize,
    row: PlacedRow,
    station: Station,
}

fn row(alloc: Global) -> Result<PlacedRow, Refusal> {
    let message = sent(alloc, 1, At::Topic("orders"), Some(1))?;
    let row = Row {
        message,
        count: 1,
        state: RowState::Waiting,
    };
    Ok(PlacedRow { place: 1, row })
}

fn rows(alloc: Global) -> Result<List<PlacedRow>, Refusal> {
    let mut rows = List::new(Vec::new(alloc));
    rows.push(row(alloc)?)?;
    Ok(rows)
}

fn station(alloc: Global) -> Result<Station, Refusal> {
    let definition = definition(alloc)?;
    let rows = rows(alloc)?;
    Ok(Station {
        key: key(alloc)?,
        definition,
        missed: 0,
        rows,
    })
}

fn copied_row(row: &Row) -> Answer {
    match row.copy() {
        Ok(copy) => Ok(same(&copy, row)),
        Err(_) => Err(Refusal::Memory),
    }
}

fn copied_placed(row: &PlacedRow) -> Answer {
    match row.copy() {
        Ok(copy) => Ok(same(&copy, row)),
        Err(_) => Err(Refusal::Memory),
    }
}

fn copied_station(alloc: Global, station: &Station) -> Answer {
    match station.copy(alloc) {
        Ok(copy) => Ok(same(&copy, station)),
        Err(_) => Err(Refusal::Memory),
    }
}

impl Stations {
    fn new(alloc: Global, number: usize) -> Result<Stations, Refusal> {
        Ok(Stations {
            alloc,
            number,
            row: row(alloc)?,
            station: station(alloc)?,
        })
    }
}

impl Trial for Stations {
    /// How many rows there are.
    fn state(&self) -> u64 {
        self.station.rows.as_slice().len() as u64
    }

    fn call(&mut self) -> Called {
        match self.number {
            0 => Called {
                name: "jm_machine Row::copy",
                answer: copied_row(&self.row.row),
            },
            1 => Called {
                name: "jm_machine PlacedRow::copy",
                answer: copied_placed(&self.row),
            },
            2 => Called {
                name: "jm_machine Station::copy",
                answer: copied_station(self.alloc, &self.station),
            },
            _ => Called::NONE,
        }
    }
}

/// Makes the call of that number.
pub fn made(alloc: Global, number: usize) -> Made {
    tell(Stations::new(alloc, number))
}

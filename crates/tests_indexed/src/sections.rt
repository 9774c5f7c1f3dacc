//! What stands in a section of the keys, as it is taken out one by one.

ghost use Rattle.std.specs.Prelude.{◌*◌, ◌<◌, ◌^◌};

use crate::told::is_number;
use jm_indexed::{KeyMap, KeySet, Section};
use std::alloc::Global;
use std::cmp::Ordering;

/// The numbers from the one to before the other.
#[derive(Clone, Copy)]
struct Between {
    first: u32,
    end: u32,
}

impl Section<u32> for Between {
    ghost use Rattle.std.specs.Prelude.{nat_lt, if◌then◌else◌};
    ghost use Rattle.std.specs.declared.cmp.Ordering.TheVariants.{Less, Equal, Greater};
    ghost use Rattle.std.proofs.Common.{arith};
    ghost use Rattle.std.proofs.lemmas.Bool.Decides.{nat_tests};

    ghost place = { λ section key. if nat_lt key section.first then Less else (if nat_lt key section.end then Equal else Greater) };

    ghost monotone = { λ section a b before. Prim.grind (arith, nat_tests) };

    fn compare(&self, key: &u32) -> Ordering {
        if *key < self.first {
            Ordering::Less
        } else if *key < self.end {
            Ordering::Equal
        } else {
            Ordering::Greater
        }
    }
}

/// The numbers that a set is filled with, in their order of coming.
static NUMBERS: [u32; 5] = [30, 10, 20, 40, 0];

/// The numbers that were taken out before, from where on the section runs and before what it ends, the guess, and what comes in turn.
type Row = (&'static [u32], u32, u32, usize, &'static [u32]);

/// What is taken out of sets of those numbers.
static ROWS: [Row; 18] = [
    (&[], 25, 30, 0, &[]),
    (&[], 0, 0, 0, &[]),
    (&[], 30, 10, 2, &[]),
    (&[], 41, 100, 5, &[]),
    (&[], 0, 100, 0, &[0, 10, 20, 30, 40]),
    (&[], 0, 1, 4, &[0]),
    (&[], 40, 41, 0, &[40]),
    (&[], 10, 40, 0, &[10, 20, 30]),
    (&[], 10, 40, 1, &[10, 20, 30]),
    (&[], 10, 40, 2, &[20, 30, 10]),
    (&[], 10, 40, 4, &[10, 20, 30]),
    (&[], 10, 40, 1000, &[10, 20, 30]),
    (&[], 10, 40, usize::MAX, &[10, 20, 30]),
    (&[20], 10, 40, 0, &[10, 30]),
    (&[10], 10, 40, 1, &[20, 30]),
    (&[30], 10, 40, 3, &[10, 20]),
    (&[10, 20, 30], 10, 40, 2, &[]),
    (&[40, 0, 20], 0, 41, 4, &[10, 30]),
];

/// The answer where more is in a section than is wanted.
const MORE: usize = 1000;

/// The answer where memory was wanted.
const MEMORY: usize = 2000;

/// Takes out the numbers of the section one by one, and answers how many of them are those that are wanted.
fn taken(set: &mut KeySet<u32>, row: &Row) -> usize {
    let (_, first, end, guess, all) = row;
    let section = Between {
        first: *first,
        end: *end,
    };
    let mut guess = *guess;
    for (passed, wanted) in all.iter().enumerate() {
        match set.index_in(&section, &mut guess) {
            Some(index) if *set.key_at(index) == *wanted => set.remove(index),
            _ => return passed,
        }
    }
    match set.index_in(&section, &mut guess) {
        Some(_) => MORE,
        None => all.len(),
    }
}

fn taken_of_numbers(alloc: Global, row: &Row) -> usize {
    let mut set = KeySet::new(alloc);
    if set.reserve(NUMBERS.len()).is_err() {
        return MEMORY;
    }
    for number in &NUMBERS {
        if set.spare() > 0 && set.index_of(number).is_none() {
            set.insert(*number);
        }
    }
    for number in row.0 {
        if let Some(index) = set.index_of(number) {
            set.remove(index);
        }
    }
    taken(&mut set, row)
}

#[test]
fn sections_are_taken_out_one_by_one(rt: HostRuntime) {
    for (at, row) in ROWS.iter().enumerate() {
        is_number(&rt, at, row.4.len(), taken_of_numbers(rt.alloc(), row));
    }
}

/// What a session holds.
#[derive(Clone, Copy, PartialEq, Eq, PartialOrd, Ord)]
struct Held {
    session: u32,
    number: u32,
}

/// All that one session holds.
#[derive(Clone, Copy)]
struct OfSession {
    session: u32,
}

impl Section<Held> for OfSession {
    ghost use Rattle.std.specs.Ordering.{nat_cmp};
    ghost use Rattle.std.proofs.lemmas.Cmp.{nat_cmp_total};
    ghost use Rattle.jm_indexed.proofs.Sections.{monotone_first};

    ghost place = { λ section key. nat_cmp key.session section.session };

    ghost monotone = { λ section a b. monotone_first nat_cmp_total a.session b.session section.session _ };

    fn compare(&self, key: &Held) -> Ordering {
        key.session.cmp(&self.session)
    }
}

fn hold(map: &mut KeyMap<Held, u32>, held: Held) {
    if map.reserve(1).is_ok() && !map.contains_key(&held) {
        map.insert(held, held.number);
    }
}

/// Takes out all that the session holds, and answers how many they were.
fn closed(map: &mut KeyMap<Held, u32>, session: u32) -> usize {
    let mut guess = 0;
    for count in 0..map.len() {
        match map.index_in(&OfSession { session }, &mut guess) {
            Some(index) => {
                let _ = map.remove_at(index);
            }
            None => return count,
        }
    }
    map.len()
}

/// How many sessions there are, and how much each of them holds.
const SESSIONS: u32 = 40;

/// Closes all sessions but one, each so many behind the one before, and answers how many of them had what they held taken out,
/// where what the last one holds is left.
fn closed_in_turn(alloc: Global, step: u32) -> usize
    requires { step < 2 ^ 16 }
{
    let mut map = KeyMap::new(alloc);
    for number in 0..SESSIONS {
        for session in 0..SESSIONS {
            hold(&mut map, Held { session, number });
        }
    }
    let mut whole: usize = 0;
    for turn in 0..SESSIONS - 1 {
        let count = closed(&mut map, turn * step % SESSIONS);
        whole = whole.saturating_add(usize::from(count == SESSIONS as usize));
    }
    if map.len() == SESSIONS as usize {
        whole
    } else {
        MORE
    }
}

#[test]
fn sessions_close_one_after_another(rt: HostRuntime) {
    for step in [1, 7, 39] {
        is_number(&rt, step as usize, 39, closed_in_turn(rt.alloc(), step));
    }
}

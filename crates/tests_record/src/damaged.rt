//! Where a record is damaged of which a field is cut or not allowed.

use crate::both_ways::{damage, is_written_as, read};
use crate::full::RECORD;
use crate::told::{holds, is_number};
use std::alloc::{AllocError, Global};
use std::process::Abort;

/// Where the fields begin, and where the last of them ends.
static STARTS: [usize; 43] = [
    0, 1, 5, 9, 13, 21, 29, 37, 38, 39, 40, 49, 50, 59, 60, 69, 70, 80, 88, 97, 98, 99, 108, 109,
    110, 119, 120, 122, 134, 135, 139, 148, 149, 157, 166, 167, 177, 196, 197, 206, 226, 227, 231,
];

/// A place, a byte that makes a number, a mark or a tag there one that is not allowed, and where that is told.
static NUMBERS: [(usize, u8, usize); 22] = [
    (0, 0, 0),
    (0, 3, 0),
    (4, 0, 1),
    (8, 0, 5),
    (12, 0, 9),
    (20, 0, 13),
    (13, 0x80, 13),
    (21, 0x80, 21),
    (29, 0x80, 29),
    (36, 0xe8, 29),
    (36, 1, 29),
    (37, 2, 37),
    (38, 10, 38),
    (39, 2, 39),
    (49, 2, 49),
    (59, 2, 59),
    (69, 3, 69),
    (87, 7, 206),
    (87, 9, 231),
    (97, 0, 97),
    (97, 7, 97),
    (98, 2, 98),
];

/// The same of a text or a name, or of a value or a tag that its name may not have.
static TEXTS: [(usize, u8, usize); 19] = [
    (47, 0, 40),
    (48, 0x1f, 40),
    (48, 0x7f, 40),
    (48, 0xff, 40),
    (58, 0xc3, 50),
    (68, 0x80, 60),
    (69, 1, 70),
    (95, 0, 88),
    (96, 0x20, 88),
    (96, 0x31, 88),
    (96, 0xff, 88),
    (107, 0x61, 99),
    (133, 0x4c, 122),
    (175, 0xff, 167),
    (176, 0x20, 167),
    (195, 0x45, 177),
    (196, 4, 196),
    (225, 0x72, 206),
    (226, 6, 226),
];

/// Where a field begins with a length.
static BLOCKS: [usize; 14] = [
    40, 50, 60, 70, 88, 99, 110, 122, 139, 157, 167, 177, 197, 206,
];

/// A place, and a byte that is allowed there.
static LIMITS: [(usize, u8); 16] = [
    (1, 0xff),
    (4, 1),
    (5, 0xff),
    (9, 0xff),
    (13, 0x7f),
    (20, 1),
    (28, 0),
    (28, 0xf1),
    (29, 0x7f),
    (36, 0xe9),
    (37, 1),
    (38, 0),
    (39, 1),
    (48, 0x20),
    (96, 0x24),
    (98, 0),
];

/// The record with those bytes at a place.
fn changed(
    alloc: Global,
    record: &[u8],
    place: usize,
    bytes: &[u8],
) -> Result<Vec<u8>, AllocError> {
    let mut record = Vec::from_slice(alloc, record)?;
    for (index, byte) in bytes.iter().enumerate() {
        if let Some(old) = record.get_mut(place.saturating_add(index)) {
            *old = *byte;
        }
    }
    Ok(record)
}

/// Where the record with those bytes at a place is damaged.
pub(crate) fn damage_of_change(
    alloc: Global,
    record: &[u8],
    place: usize,
    bytes: &[u8],
) -> Option<usize> {
    match changed(alloc, record, place, bytes) {
        Ok(record) => damage(alloc, record.as_slice()),
        Err(_) => None,
    }
}

#[test]
fn numbers_that_are_not_allowed(rt: HostRuntime) {
    for (place, byte, at) in &NUMBERS {
        is_number(
            &rt,
            *at,
            damage_of_change(rt.alloc(), RECORD, *place, &[*byte]),
        );
    }
}

#[test]
fn texts_that_are_not_allowed(rt: HostRuntime) {
    for (place, byte, at) in &TEXTS {
        is_number(
            &rt,
            *at,
            damage_of_change(rt.alloc(), RECORD, *place, &[*byte]),
        );
    }
}

/// A length of 2^64-1: a request for so much memory would be refused, and that would be told.
#[test]
fn lengths_that_are_not_there(rt: HostRuntime) {
    for at in &BLOCKS {
        is_number(
            &rt,
            *at,
            damage_of_change(rt.alloc(), RECORD, *at, &[0xff; 8]),
        );
    }
}

/// A number of properties of 2^64-1.
#[test]
fn properties_that_are_not_there(rt: HostRuntime) {
    is_number(
        &rt,
        231,
        damage_of_change(rt.alloc(), RECORD, 80, &[0xff; 8]),
    );
}

/// The record is cut at each byte of the field from the start to the end.
fn field_is_cut(rt: &impl Abort, alloc: Global, start: usize, end: usize) {
    for cut in start..end {
        is_number(
            rt,
            start,
            damage(alloc, RECORD.get(..cut).unwrap_or_default()),
        );
    }
}

#[test]
fn each_field_cut(rt: HostRuntime) {
    let mut start = 0;
    for end in STARTS {
        field_is_cut(&rt, rt.alloc(), start, end);
        start = end;
    }
}

/// The record with a byte after its end.
fn longer(alloc: Global, record: &[u8]) -> Result<Vec<u8>, AllocError> {
    let mut record = Vec::from_slice(alloc, record)?;
    record.push(0)?;
    Ok(record)
}

/// Where the record with a byte after its end is damaged.
pub(crate) fn damage_of_longer(alloc: Global, record: &[u8]) -> Option<usize> {
    match longer(alloc, record) {
        Ok(record) => damage(alloc, record.as_slice()),
        Err(_) => None,
    }
}

#[test]
fn a_byte_after_the_end(rt: HostRuntime) {
    is_number(&rt, 231, damage_of_longer(rt.alloc(), RECORD));
}

/// Whether the bytes are those of a message's record.
fn is_record(alloc: Global, bytes: &[u8]) -> bool {
    match read(alloc, bytes) {
        Ok(message) => is_written_as(alloc, &message, bytes),
        Err(_) => false,
    }
}

/// Whether the record with that byte at a place is one.
fn is_changed_record(alloc: Global, place: usize, byte: u8) -> bool {
    match changed(alloc, RECORD, place, &[byte]) {
        Ok(record) => is_record(alloc, record.as_slice()),
        Err(_) => false,
    }
}

#[test]
fn values_at_the_limits(rt: HostRuntime) {
    for (place, byte) in &LIMITS {
        holds(&rt, "a limit", is_changed_record(rt.alloc(), *place, *byte));
    }
}

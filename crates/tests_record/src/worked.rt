//! The worked record: a message of priority 4 to the topic t, with the text hi and the long property x, 1; and the record of
//! the same message with a delivery delay of 500.

use crate::both_ways::{damage, is_read_as, is_written_as};
use crate::damaged::{damage_of_change, damage_of_longer};
use crate::full::sender;
use crate::told::{holds, is_number};
use jm_dest::{Destination, Moment};
use jm_header::{Draft, Message, stamp};
use jm_property::Property;
use std::alloc::Global;

static RECORD: [u8; 88] = [
    1, 0, 0, 0, 1, 0, 0, 0, 1, 0, 0, 0, 1, // version, opening, connection, session
    0, 0, 0, 0, 0, 0, 0, 1, // number
    0, 0, 0, 0, 0, 0, 3, 0xe8, // timestamp
    0, 0, 0, 0, 0, 0, 0, 0, 1, 4, // expiration, mode, priority
    1, 0, 0, 0, 0, 0, 0, 0, 1, 0x74, 0, 0, // destination, correlation, type
    1, 0, 0, 0, 0, 0, 0, 0, 2, 0x68, 0x69, // body
    0, 0, 0, 0, 0, 0, 0, 1, // property count
    0, 0, 0, 0, 0, 0, 0, 1, 0x78, 5, 0, 0, 0, 0, 0, 0, 0, 1, // property
];

static DELAYED: [u8; 96] = [
    2, 0, 0, 0, 1, 0, 0, 0, 1, 0, 0, 0, 1, // version, opening, connection, session
    0, 0, 0, 0, 0, 0, 0, 1, // number
    0, 0, 0, 0, 0, 0, 3, 0xe8, // timestamp
    0, 0, 0, 0, 0, 0, 0, 0, // expiration
    0, 0, 0, 0, 0, 0, 5, 0xdc, // delivery time
    1, 4, // mode, priority
    1, 0, 0, 0, 0, 0, 0, 0, 1, 0x74, 0, 0, // destination, correlation, type
    1, 0, 0, 0, 0, 0, 0, 0, 2, 0x68, 0x69, // body
    0, 0, 0, 0, 0, 0, 0, 1, // property count
    0, 0, 0, 0, 0, 0, 0, 1, 0x78, 5, 0, 0, 0, 0, 0, 0, 0, 1, // property
];

fn draft(alloc: Global, delay: i64) -> Draft {
    let mut draft = Draft::new(alloc);
    let _ = draft.set_text("hi");
    let _ = draft.set_property("x", Property::Long(1));
    let _ = draft.set_delivery_delay(delay);
    draft
}

fn message(alloc: Global, delay: i64) -> Option<Message> {
    match (
        Destination::topic(alloc, "t"),
        sender(1, 1, 1),
        Moment::new(1000),
    ) {
        (Ok(topic), Some(sender), Ok(now)) => {
            stamp(draft(alloc, delay), topic, sender, 1, now).ok()
        }
        _ => None,
    }
}

/// Whether the message with that delay is written as these bytes, and read from them.
fn goes_both_ways(alloc: Global, delay: i64, record: &[u8]) -> bool {
    match message(alloc, delay) {
        Some(message) => {
            is_written_as(alloc, &message, record) && is_read_as(alloc, record, &message)
        }
        None => false,
    }
}

#[test]
fn record_bytes(rt: HostRuntime) {
    let is_worked = goes_both_ways(rt.alloc(), 0, RECORD.as_slice());
    holds(&rt, "the worked record", is_worked);
    let is_delayed = goes_both_ways(rt.alloc(), 500, DELAYED.as_slice());
    holds(&rt, "that of a delayed message", is_delayed);
}

#[test]
fn damages(rt: HostRuntime) {
    let cut = RECORD.get(..87).unwrap_or_default();
    is_number(&rt, 88, damage_of_longer(rt.alloc(), RECORD.as_slice()));
    is_number(&rt, 80, damage(rt.alloc(), cut));
    is_number(&rt, 38, damage_of_change(rt.alloc(), cut, 38, &[10]));
    is_number(&rt, 0, damage(rt.alloc(), &[]));
}

/// A place in the record of a delayed message, bytes of which a field there is not allowed, and where that is told.
static DELAYS: [(usize, &[u8], usize); 7] = [
    (0, &[0], 0),
    (0, &[3], 0),
    (36, &[1], 29),
    (43, &[3, 0xe8], 37),
    (37, &[0x80], 37),
    (45, &[2], 45),
    (46, &[10], 46),
];

#[test]
fn damages_of_a_delayed_message(rt: HostRuntime) {
    for (place, bytes, at) in &DELAYS {
        is_number(
            &rt,
            *at,
            damage_of_change(rt.alloc(), DELAYED.as_slice(), *place, bytes),
        );
    }
    let cut = DELAYED.get(..44).unwrap_or_default();
    is_number(&rt, 37, damage(rt.alloc(), cut));
    is_number(&rt, 96, damage_of_longer(rt.alloc(), DELAYED.as_slice()));
}

//! What an audit noted.

use jm_client_audited::Finished;
use jm_core::Core;
use jm_keep::NoKeep;
use jm_machine::{Answer, Call, Event, Reply};
use std::alloc::Global;
use tests_calls::shown;

/// Whether the reply shows that text.
fn is_told(alloc: Global, reply: &Reply, wanted: &str) -> bool {
    match shown(alloc, reply) {
        Ok(text) => text.as_str() == wanted,
        Err(_) => false,
    }
}

/// Whether just so many calls were made, and each was told so.
fn are_told(alloc: Global, events: &[Event], wanted: &[&str]) -> bool {
    if events.len() != wanted.len() {
        return false;
    }
    for place in 0..wanted.len() {
        if !is_told(alloc, &events[place].reply, wanted[place]) {
            return false;
        }
    }
    true
}

/// Whether the passes account for the trace, which begins at position 0.
pub(crate) fn is_whole(finished: &Finished<Core, NoKeep>) -> bool {
    finished.verdict == Ok(()) && finished.trace.first() == 0
}

/// Whether they do, and just these calls were made, each told so.
pub(crate) fn is_noted(alloc: Global, finished: &Finished<Core, NoKeep>, wanted: &[&str]) -> bool {
    is_whole(finished) && are_told(alloc, finished.trace.events(), wanted)
}

/// Whether the call published a message.
fn is_published(event: &Event) -> bool {
    matches!(event.step.call, Call::Publish(_)) && event.reply.is_ok()
}

/// Whether a message was handed out to the call.
fn is_delivered(event: &Event) -> bool {
    matches!(event.reply, Ok(Answer::Delivered(_)))
}

/// How many messages were published, and how many were handed out.
pub(crate) fn traffic(finished: &Finished<Core, NoKeep>) -> (usize, usize) {
    let events = finished.trace.events();
    let published = events.iter().filter(|event| is_published(event)).count();
    let delivered = events.iter().filter(|event| is_delivered(event)).count();
    (published, delivered)
}

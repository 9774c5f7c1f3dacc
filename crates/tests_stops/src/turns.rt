//! The turns of a run: what is done, what is told of it, and what stands in the tables then.

use crate::database::Tables;
use jm_base::Refusal;
use jm_dest::Moment;
use jm_header::DeliveryMode;
use jm_machine::{ClientCall, Reply};
use std::alloc::Global;
use tests_calls::{At, Op, call, destination, draft, session, shown};
use tests_databases::Part;

/// What is done.
#[derive(Clone, Copy)]
pub(crate) enum Deed {
    Calls(Op),
    /// Session 1 of that connection sends to the topic t a text that is not stored.
    SendsLightly(u32, &'static str),
}

pub(crate) struct Turn {
    pub(crate) deed: Deed,
    /// The reply in a few letters.
    pub(crate) told: &'static str,
    pub(crate) then: Tables,
}

/// A run of a provider over a database.
pub(crate) struct Run {
    /// What makes the database.
    pub(crate) parts: &'static [Part],
    pub(crate) before: Tables,
    /// What stands once the store was opened.
    pub(crate) opened: Tables,
    /// The number of that opening.
    pub(crate) opening: u32,
    pub(crate) turns: &'static [Turn],
}

fn light(alloc: Global, connection: u32, text: &str) -> Result<ClientCall, Refusal> {
    let session = session(connection)?;
    let now = Moment::new(1000)?;
    let destination = destination(alloc, At::Topic("t"))?;
    let mut draft = draft(alloc, text, None);
    draft.set_mode(DeliveryMode::NonPersistent);
    Ok(ClientCall::Send {
        session,
        draft,
        destination,
        now,
    })
}

fn call_of(alloc: Global, deed: Deed) -> Result<ClientCall, Refusal> {
    match deed {
        Deed::Calls(op) => call(alloc, op),
        Deed::SendsLightly(connection, text) => light(alloc, connection, text),
    }
}

/// The calls of the turns.
pub(crate) fn calls_of(alloc: Global, turns: &[Turn]) -> Result<Vec<ClientCall>, Refusal> {
    let mut calls = Vec::new(alloc);
    for turn in turns {
        let call = call_of(alloc, turn.deed)?;
        if calls.push(call).is_err() {
            return Err(Refusal::Memory);
        }
    }
    Ok(calls)
}

/// Whether the reply shows that text.
fn is_shown(alloc: Global, reply: &Reply, wanted: &str) -> bool {
    match shown(alloc, reply) {
        Ok(text) => text.as_str() == wanted,
        Err(_) => false,
    }
}

/// How many turns were made before the keeper failed; none where one is told something else.
pub(crate) fn made_before(alloc: Global, replies: &[Reply], turns: &[Turn]) -> Option<usize> {
    let mut replies = replies.iter();
    for (made, turn) in turns.iter().enumerate() {
        match replies.next() {
            Some(Err(Refusal::Store)) => return Some(made),
            Some(reply) if is_shown(alloc, reply, turn.told) => {}
            _ => return None,
        }
    }
    Some(turns.len())
}

impl Run {
    /// What stands after so many steps, the opening among them.
    pub(crate) fn after(&self, steps: usize) -> Option<&Tables> {
        match steps {
            0 => Some(&self.before),
            1 => Some(&self.opened),
            _ => match self.turns.get(steps.saturating_sub(2)) {
                Some(turn) => Some(&turn.then),
                None => None,
            },
        }
    }

    /// How many steps there are, the opening among them.
    pub(crate) fn steps(&self) -> usize {
        self.turns.len().saturating_add(1)
    }
}

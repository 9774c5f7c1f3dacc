//! Whether calls that are made through the lock are answered as through the core.

ghost use Rattle.std.specs.Prelude.{◌≡◌, ◌≤◌};

use crate::client::{Client, answer_all, new_client};
use crate::steps::{Lock, new_lock_of};
use jm_base::Refusal;
use jm_core::{Core, Reply};
use jm_machine::same_reply;
use std::alloc::Global;
use std::sync::Wait;
use std::sync::ledger::{Blank, Ledger};
use tests_calls::{Op, all_shown, calls};

/// The replies of a new core to the calls.
fn replies_of_core(heap: Global, limit: u32, ops: &[Op]) -> Result<Vec<Reply>, Refusal> {
    let calls = calls(heap, ops)?;
    let mut core = Core::new(heap, 1, limit)?;
    Ok(core.run(calls)?)
}

fn are_same(one: &[Reply], other: &[Reply]) -> bool {
    if one.len() != other.len() {
        return false;
    }
    for (reply, wanted) in one.iter().zip(other) {
        if !same_reply(reply, wanted) {
            return false;
        }
    }
    true
}

fn are_shown(heap: Global, replies: &[Reply], wanted: &str) -> bool {
    match all_shown(heap, replies) {
        Ok(text) => text.as_str() == wanted,
        Err(_) => false,
    }
}

/// Whether the replies show that text, where one is named.
fn are_told(heap: Global, replies: &[Reply], told: Option<&str>) -> bool {
    match told {
        Some(wanted) => are_shown(heap, replies, wanted),
        None => true,
    }
}

fn are_as_by_core(heap: Global, limit: u32, ops: &[Op], replies: &[Reply]) -> bool {
    match replies_of_core(heap, limit, ops) {
        Ok(wanted) => are_same(replies, wanted.as_slice()),
        Err(_) => false,
    }
}

/// Whether the only pass accounts for the whole trace.
fn is_accounted_for<L: Ledger>(heap: Global, client: Client<L>) -> bool {
    let Client { lock, pass, .. } = client;
    match vec![in heap; pass] {
        Ok(passes) => lock.finish(passes).verdict == Ok(()),
        Err(_) => false,
    }
}

fn are_answered_alike<L: Ledger, R: Wait>(
    rt: &R,
    heap: Global,
    mut client: Client<L>,
    limit: u32,
    ops: &[Op],
    told: Option<&str>,
) -> bool {
    let are_alike = match answer_all(rt, heap, &mut client, ops) {
        Ok(replies) => {
            are_told(heap, replies.as_slice(), told)
                && are_as_by_core(heap, limit, ops, replies.as_slice())
        }
        Err(_) => false,
    };
    are_alike && is_accounted_for(heap, client)
}

fn client_of<L: Ledger, R: Wait>(
    rt: &R,
    heap: Global,
    lock: Lock<L>,
    limit: u32,
) -> Option<Client<L>> {
    match lock.pass(rt) {
        Ok(pass) => new_client(heap, lock, pass, limit).ok(),
        Err(_) => None,
    }
}

/// Whether the calls, made in turn through a new lock, are answered as through a new core, with that text where one is named,
/// and its pass accounts for them.
pub(crate) fn are_alike<L: Ledger, R: Wait>(
    rt: &R,
    heap: Global,
    blank: Blank,
    limit: u32,
    ops: &[Op],
    told: Option<&str>,
) -> bool
    requires name { blank.name ≡ L.name }
    requires parts { (blank.parts ≡ L.parts) × (blank.parts ≡ 2) }
{
    let Some(lock) = new_lock_of::<L>(heap, blank, 2, limit) else {
        return false;
    };
    match client_of(rt, heap, lock, limit) {
        Some(client) => are_answered_alike(rt, heap, client, limit, ops, told),
        None => false,
    }
}

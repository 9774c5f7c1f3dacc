ghost use Rattle.std.specs.Prelude.{◌≡◌, Some};
ghost use Rattle.serde_json.specs.View.{view};
ghost use Rattle.jm_scenario.specs.Calls as calls;
ghost use Rattle.jm_scenario.specs.Items as spec;
ghost use Rattle.jm_fields.specs.Reading.{Reads};

use crate::call::call;
use jm_fields::{Field, Misfit, Owner, not_known, unknown};
use jm_machine::{ClientCall, Who};
use serde_json::Value;
use std::alloc::Global;

/// An item of a scenario (ours): a call; or a fork, from which on the calls of each session may run on a thread of its own,
/// to the join behind it or else to the end. Forks and joins ask nothing of the provider.
#[derive(PartialEq, Drop)]
pub enum Item {
    Call(ClientCall),
    Fork,
    Join,
}

/// Whether an item is a call, a fork or a join (ours).
#[derive(Clone, Copy, Debug, PartialEq, Eq)]
pub enum ItemKind {
    Call,
    Fork,
    Join,
}

/// Whether a session makes the call, and not a connection.
fn is_by_session(call: &ClientCall) -> bool
    ensures { result ≡ spec.is_by_session call.now }
{
    match call {
        ClientCall::Ask { who, .. } => matches!(who, Who::Session(_)),
        ClientCall::Send { .. } | ClientCall::CommitSession(_) => true,
    }
}

impl Item {
    /// Whether the item is a call, a fork or a join.
    pub fn kind(&self) -> ItemKind
        ensures { result ≡ spec.kind_of self.now }
    {
        match self {
            Item::Call(_) => ItemKind::Call,
            Item::Fork => ItemKind::Fork,
            Item::Join => ItemKind::Join,
        }
    }

    /// Whether the item has its place where a fork is open, or where none is.
    fn is_in_place(&self, is_forked: bool) -> bool
        ensures { result ≡ spec.is_in_place is_forked self.now }
    {
        match self {
            Item::Call(call) => !is_forked || is_by_session(call),
            Item::Fork => !is_forked,
            Item::Join => is_forked,
        }
    }

    /// Whether a fork is open behind the item, where one is open before it or none is.
    pub(crate) fn is_forked_behind(&self, is_forked: bool) -> bool
        ensures { result ≡ spec.is_forked_behind is_forked self.now }
    {
        match self {
            Item::Call(_) => is_forked,
            Item::Fork => true,
            Item::Join => false,
        }
    }
}

/// The fork or join of that operation.
fn fork_or_join_named(name: &str) -> Option<Item>
    ensures { result ≡ calls.fork_or_join_named name.now }
{
    match name {
        "fork" => Some(Item::Fork),
        "join" => Some(Item::Join),
        _ => None,
    }
}

/// The fork or join of the object's operation.
fn fork_or_join(object: &Value) -> Option<Item>
    ensures { result ≡ calls.fork_or_join (view object.now) }
{
    let name = object.get(Field::Operation.name()).and_then(Value::as_str);
    name.and_then(fork_or_join_named)
}

/// The fork or join, where it has its place and the object has no other field than its operation. `Memory` where a request
/// for memory was refused.
#[tactic(auto, using(crate::proofs::Places::mark_misplaced, crate::proofs::Places::mark_unknown, crate::proofs::Places::mark_placed))]
fn fork_or_join_in_place(
    alloc: Global,
    object: &Value,
    one: Item,
    is_forked: bool,
) -> Result<Item, Misfit>
    ensures { Reads result (calls.where_in_place is_forked (calls.item_as (Some one) (view object.now))) }
{
    if !one.is_in_place(is_forked) {
        return Err(Misfit::Shape(Field::Operation));
    }
    match unknown(object, Owner::ForkOrJoin) {
        Some(name) => Err(not_known(alloc, name)),
        None => Ok(one),
    }
}

/// The item that the object spells, where it has its place: where a fork is open, or where none is. That it has none is told
/// at its operation, before its other fields are read. `Memory` where a request for memory was refused.
#[tactic(auto, using(crate::proofs::Places::call_misplaced))]
pub(crate) fn item_in_place(alloc: Global, object: &Value, is_forked: bool) -> Result<Item, Misfit>
    ensures { Reads result (calls.where_in_place is_forked (calls.item_of (view object.now))) }
{
    match fork_or_join(object) {
        Some(one) => fork_or_join_in_place(alloc, object, one, is_forked),
        None => Ok(Item::Call(call(alloc, object, is_forked)?)),
    }
}

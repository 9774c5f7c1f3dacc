//! Items and their calls apart: the kinds of items, their calls, and replies at the places of items.

ghost use Rattle.std.specs.Prelude.{◌≡◌, List, [], ◌∷◌, map, IfOk};
ghost use Rattle.std.specs.List.{list_all};
ghost use Rattle.std.specs.Option.{option_map_or};
ghost use Rattle.std.specs.Vec.Iter.{into_iter_items};
ghost use Rattle.jm_scenario.specs.declared.item.ItemKind.{ItemKind};
ghost use Rattle.jm_scenario.specs.Items as spec;

use crate::item::{Item, ItemKind};
use jm_machine::{Answer, ClientCall, Reply};
use std::alloc::{AllocError, Global};
use std::vec::IntoIter;

/// The kinds of the items, in order. `AllocError` where a request for memory was refused.
pub fn item_kinds(alloc: Global, items: &[Item]) -> Result<Vec<ItemKind>, AllocError>
    ensures { IfOk result (λ kinds. kinds.items ≡ map spec.kind_of items.now) }
{
    let mut kinds = Vec::with_capacity(alloc, items.len())?;
    for item in items {
        kinds.push(item.kind())?;
    }
    Ok(kinds)
}

/// The calls among the items, in order, moved out. `AllocError` where a request for memory was refused.
pub fn into_calls(alloc: Global, items: Vec<Item>) -> Result<Vec<ClientCall>, AllocError>
    ensures { IfOk result (λ calls. calls.items ≡ spec.calls_of items.items) }
{
    let mut calls = Vec::with_capacity(alloc, items.len())?;
    for item in items {
        if let Item::Call(call) = item {
            calls.push(call)?;
        }
    }
    Ok(calls)
}

/// Equal calls to those among the items, in order. `AllocError` where a request for memory was refused.
pub fn copy_calls(alloc: Global, items: &[Item]) -> Result<Vec<ClientCall>, AllocError>
    ensures { IfOk result (λ calls. calls.items ≡ spec.calls_of items.now) }
{
    let mut calls = Vec::with_capacity(alloc, items.len())?;
    for item in items {
        if let Item::Call(call) = item {
            calls.push(call.copy()?)?;
        }
    }
    Ok(calls)
}

/// The reply to an item of that kind: of a call the next of the replies, none where none is left; of a fork or a join `Done`.
fn reply_to(kind: ItemKind, replies: &mut IntoIter<Reply>) -> Option<Reply>
    ensures { (kinds : List ItemKind) → spec.replies_in_place (kind ∷ kinds) (into_iter_items replies.old)
        ≡ option_map_or (λ reply. reply ∷ spec.replies_in_place kinds (into_iter_items replies.new)) result [] }
{
    match kind {
        ItemKind::Call => replies.next(),
        ItemKind::Fork | ItemKind::Join => Some(Ok(Answer::Done)),
    }
}

/// Whether each item is a call.
fn are_calls(kinds: &[ItemKind]) -> bool
    ensures { result ≡ list_all spec.is_call kinds.now }
{
    kinds.iter().all(|kind| matches!(kind, ItemKind::Call))
}

/// The replies to items of those kinds, in order, where those to the calls among them are given: each fork and each join is
/// answered `Done`, and a call by the next reply; where none is left, the replies end there. `AllocError` where a request
/// for memory was refused.
#[tactic(auto, using(crate::proofs::Outlined::calls_in_place))]
pub fn replies_in_place(
    alloc: Global,
    kinds: &[ItemKind],
    replies: Vec<Reply>,
) -> Result<Vec<Reply>, AllocError>
    ensures { IfOk result (λ all. all.items ≡ spec.replies_in_place kinds.now replies.items) }
{
    if replies.len() <= kinds.len() && are_calls(kinds) {
        return Ok(replies);
    }
    let mut all = Vec::with_capacity(alloc, kinds.len())?;
    let mut replies = replies.into_iter();
    for kind in kinds {
        let Some(reply) = reply_to(*kind, &mut replies) else {
            return Ok(all);
        };
        all.push(reply)?;
    }
    Ok(all)
}

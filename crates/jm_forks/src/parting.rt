ghost use Rattle.std.specs.Prelude.{◌≡◌, ◌++◌, [], ◌∷◌, List, All, IfOk, OnOk};
ghost use Rattle.jm_scenario.specs.Items.{AreWellForked, calls_of};
ghost use Rattle.jm_scenario.specs.declared.item.Item.{Item};
ghost use Rattle.jm_scenario.specs.declared.item.Item.TheVariants.{Call};
ghost use Rattle.jm_forks.specs.Forks as spec;

use crate::part::Part;
use jm_base::List;
use jm_machine::ClientCall;
use jm_scenario::Item;
use std::alloc::{AllocError, Global};

/// Ends the fork that is open, if one is, as a part.
fn end_fork(parts: &mut Vec<Part>, forked: Option<List<ClientCall>>) -> Result<(), AllocError>
    ensures { OnOk result (parts.new.items ≡ parts.old.items ++ spec.parts_behind forked []) }
{
    if let Some(calls) = forked {
        parts.push(Part::Together(calls))?;
    }
    Ok(())
}

/// Takes the call: as a part of its own, or behind the calls of the fork that is open, which stays open.
fn take_call(
    parts: &mut Vec<Part>,
    forked: Option<List<ClientCall>>,
    call: ClientCall,
) -> Result<Option<List<ClientCall>>, AllocError>
    ensures { IfOk result (λ still. (items : List Item)
        → parts.new.items ++ spec.parts_behind still items
        ≡ parts.old.items ++ spec.parts_behind forked (Call call ∷ items)) }
{
    match forked {
        None => {
            parts.push(Part::Alone(call))?;
            Ok(None)
        }
        Some(mut calls) => {
            calls.push(call)?;
            Ok(Some(calls))
        }
    }
}

/// Takes the item, and gives the calls of the fork that is open behind it, if one is.
fn take_item(
    alloc: Global,
    parts: &mut Vec<Part>,
    forked: Option<List<ClientCall>>,
    item: Item,
) -> Result<Option<List<ClientCall>>, AllocError>
    ensures { IfOk result (λ still. (items : List Item)
        → parts.new.items ++ spec.parts_behind still items
        ≡ parts.old.items ++ spec.parts_behind forked (item ∷ items)) }
{
    match item {
        Item::Call(call) => take_call(parts, forked, call),
        Item::Fork => {
            end_fork(parts, forked)?;
            Ok(Some(List::new(Vec::new(alloc))))
        }
        Item::Join => {
            end_fork(parts, forked)?;
            Ok(None)
        }
    }
}

/// The parts of the items, in order; the calls are moved. `AllocError` where a request for memory was refused.
pub fn parts_of(alloc: Global, items: Vec<Item>) -> Result<Vec<Part>, AllocError>
    ensures parts { IfOk result (λ parts. parts.items ≡ spec.parts items.items) }
    ensures calls { IfOk result (λ parts. spec.calls_of_parts parts.items ≡ calls_of items.items) }
    ensures by_sessions { IfOk result (λ parts. AreWellForked items.items → All spec.IsBySessions parts.items) }
{
    let mut parts = Vec::new(alloc);
    let mut forked = None;
    for item in items {
        forked = take_item(alloc, &mut parts, forked, item)?;
    }
    end_fork(&mut parts, forked)?;
    Ok(parts)
}

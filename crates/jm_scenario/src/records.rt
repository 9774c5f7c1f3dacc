//! What the records of the array `calls` spell.

ghost use Rattle.std.specs.Prelude.{◌≡◌, [], false, None, MatchResult};
ghost use Rattle.serde_json.specs.View.{view};
ghost use Rattle.jm_scenario.specs.Outer as spec;

use crate::item::{Item, item_in_place};
use crate::scenario::{ScenarioFault, fault_at};
use jm_fields::Misfit;
use serde_json::Value;
use std::alloc::Global;

/// The items of the records so far, in order; or the fault of the first record that has one, and then no items.
#[derive(Drop)]
pub(crate) struct Records {
    pub(crate) items: Vec<Item>,
    /// Whether a fork is open behind the items.
    pub(crate) is_forked: bool,
    pub(crate) fault: Option<ScenarioFault>,
}

impl Records {
    /// Those of no records.
    pub(crate) fn new(alloc: Global) -> Records
        ensures items { result.items.items ≡ [] }
        ensures fault { result.fault ≡ None }
        ensures forked { result.is_forked ≡ false }
    {
        Records {
            items: Vec::new(alloc),
            is_forked: false,
            fault: None,
        }
    }

    /// Adds the item of one more record. One that has not its place behind the others is told at its operation.
    pub(crate) fn add(&mut self, alloc: Global, value: &Value) -> Result<(), ScenarioFault>
        ensures { MatchResult result (λ _. spec.AddsRecord (view value.now) self.old self.new)
            (λ fault. fault ≡ ScenarioFault.Memory) }
    {
        if self.fault.is_some() {
            return Ok(());
        }
        match item_in_place(alloc, value, self.is_forked) {
            Ok(item) => {
                self.is_forked = item.is_forked_behind(self.is_forked);
                self.items.push(item)?;
            }
            Err(Misfit::Memory) => return Err(ScenarioFault::Memory),
            Err(misfit) => {
                self.fault = Some(fault_at(self.items.len() + 1, misfit));
                self.items = Vec::new(alloc);
            }
        }
        Ok(())
    }

    /// The items, or the fault.
    pub(crate) fn told(self) -> Result<Vec<Item>, ScenarioFault>
        ensures { spec.Tells self result }
    {
        let Records { items, fault, .. } = self;
        match fault {
            None => Ok(items),
            Some(fault) => Err(fault),
        }
    }
}

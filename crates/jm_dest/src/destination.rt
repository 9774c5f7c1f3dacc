ghost use Rattle.std.specs.Prelude.{◌≡◌, IfOk, IfErr, IsTrue, if◌then◌else◌};
ghost use Rattle.jm_base.specs.declared.refusal.Refusal.TheVariants.{Memory, BadName};
ghost use Rattle.jm_dest.specs.Names.{is_name};

use crate::name::Name;
use jm_base::Refusal;
use std::alloc::{AllocError, Global};

/// Where a message is sent: a queue or a topic (Jakarta Messaging 3.1, section 2.4).
#[derive(Clone, Debug, PartialEq, Eq, Drop)]
pub enum Destination {
    Queue(Name),
    Topic(Name),
}

impl Destination {
    /// The queue of that name. `BadName` where the text is no name, else `Memory` where a request
    /// for memory was refused.
    pub fn queue(alloc: Global, name: &str) -> Result<Destination, Refusal>
        ensures ok { IfOk result (λ destination. (destination ≡ Destination.Queue name.now) × IsTrue (is_name name.now)) }
        ensures err { IfErr result (λ refusal. refusal ≡ (if is_name name.now then Memory else BadName)) }
    {
        let name = Name::new(alloc, name)?;
        Ok(Destination::Queue(name))
    }

    /// The topic of that name. `BadName` where the text is no name, else `Memory` where a request
    /// for memory was refused.
    pub fn topic(alloc: Global, name: &str) -> Result<Destination, Refusal>
        ensures ok { IfOk result (λ destination. (destination ≡ Destination.Topic name.now) × IsTrue (is_name name.now)) }
        ensures err { IfErr result (λ refusal. refusal ≡ (if is_name name.now then Memory else BadName)) }
    {
        let name = Name::new(alloc, name)?;
        Ok(Destination::Topic(name))
    }

    /// An equal destination, over the same text. Takes no memory; `AllocError` where the text has 9,223,372,036,854,775,807 owners.
    pub fn copy(&self) -> Result<Destination, AllocError>
        ensures { IfOk result (λ copy. copy ≡ self.now) }
    {
        self.clone()
    }
}

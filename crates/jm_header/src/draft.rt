ghost use Rattle.std.specs.Prelude.{◌≡◌, ◌<◌, ◌≤◌, ◌<ℤ◌, pos, Some, IfOk, IsTrue, MatchResult};
ghost use Rattle.jm_base.specs.declared.refusal.Refusal.TheVariants.{Memory, OutOfRange};
ghost use Rattle.std.specs.Borrow.{Lends, sem};
ghost use Rattle.jm_header.specs.Headers.{defaults};
ghost use Rattle.jm_header.specs.contracts.draft.Draft.{the_row as draft_row};
ghost use Rattle.jm_property.specs.contracts.properties.Properties.{the_row as properties_row};
ghost use Rattle.jm_header.specs.Valid.{IsValidSettings};
ghost use Rattle.jm_property.specs.Properties.{with_property, is_allowed, set_fault};

use crate::body::Body;
use crate::content::{DeliveryMode, Settings};
use jm_base::{MessageFault, Refusal};
use jm_property::{Properties, Property};
use jm_shared::{SharedBytes, SharedStr};
use std::alloc::{AllocError, Global};
use std::marker::Model;

/// A message that is not sent yet.
#[derive(Clone, Debug, PartialEq)]
pub struct Draft {
    alloc: Global,
    settings: Settings,
}

impl Drop for Draft {
    fn drop(self) {
        let Draft {
            alloc: _alloc,
            settings: _settings,
        } = self;
    }
}

impl Model for Draft {
    ghost use Rattle.jm_header.specs.declared.content.Settings.{Settings};
    ghost use Rattle.jm_header.specs.Valid.{IsValidSettings};

    ghost Value = { Settings };

    ghost view = { λ d. d.settings };

    ghost invariant = { λ d. IsValidSettings d.settings };

    ghost inverse = { λ s. record { alloc = record { memory = record { seal = tt } }; settings = s } };
}

impl Draft {
    /// A draft without a body, PERSISTENT, of priority 4, time to live 0 and delivery delay 0. Takes no memory.
    pub fn new(alloc: Global) -> Draft
        ensures { result ≡ defaults }
    {
        Draft {
            alloc,
            settings: Settings {
                mode: DeliveryMode::Persistent,
                priority: 4,
                time_to_live: 0,
                delivery_delay: 0,
                correlation: None,
                message_type: None,
                body: Body::None,
                properties: Properties::new(alloc),
            },
        }
    }

    /// The draft of those settings.
    pub(crate) fn of_settings(alloc: Global, settings: Settings) -> Draft
        requires { IsValidSettings settings }
        ensures { result ≡ settings }
    {
        Draft { alloc, settings }
    }

    /// Sets JMSDeliveryMode (Jakarta Messaging 3.1, section 3.4.2).
    pub fn set_mode(&mut self, mode: DeliveryMode)
        ensures { self.new ≡ record self.old { mode = mode } }
    {
        self.settings.mode = mode;
    }

    /// Sets JMSPriority (Jakarta Messaging 3.1, section 3.4.10). `OutOfRange` exactly where it is above
    /// 9, and then the draft is as before.
    pub fn set_priority(&mut self, priority: u8) -> Result<(), Refusal>
        ensures { MatchResult result
            (λ _. (self.new ≡ record self.old { priority = priority }) × (priority ≤ 9))
            (λ refusal. (self.new ≡ self.old) × (refusal ≡ OutOfRange) × (9 < priority)) }
    {
        if priority > 9 {
            return Err(Refusal::OutOfRange);
        }
        self.settings.priority = priority;
        Ok(())
    }

    /// Sets the time to live in milliseconds, where 0 means that the message does not expire (Jakarta
    /// Messaging 3.1, section 3.4.9). `OutOfRange` exactly where it is negative, and then the draft is
    /// as before.
    pub fn set_time_to_live(&mut self, milliseconds: i64) -> Result<(), Refusal>
        ensures { MatchResult result
            (λ _. (self.new ≡ record self.old { time_to_live = self.new.time_to_live }) × (pos self.new.time_to_live ≡ milliseconds))
            (λ refusal. (self.new ≡ self.old) × (refusal ≡ OutOfRange) × (milliseconds <ℤ pos 0)) }
    {
        if milliseconds < 0 {
            return Err(Refusal::OutOfRange);
        }
        self.settings.time_to_live = milliseconds as u64;
        Ok(())
    }

    /// Sets the delivery delay in milliseconds: the message is held back so long after its send (Jakarta
    /// Messaging 3.1, section 7.9). `OutOfRange` exactly where it is negative, and then the draft is as
    /// before.
    pub fn set_delivery_delay(&mut self, milliseconds: i64) -> Result<(), Refusal>
        ensures { MatchResult result
            (λ _. (self.new ≡ record self.old { delivery_delay = self.new.delivery_delay }) × (pos self.new.delivery_delay ≡ milliseconds))
            (λ refusal. (self.new ≡ self.old) × (refusal ≡ OutOfRange) × (milliseconds <ℤ pos 0)) }
    {
        if milliseconds < 0 {
            return Err(Refusal::OutOfRange);
        }
        self.settings.delivery_delay = milliseconds as u64;
        Ok(())
    }

    /// Sets JMSCorrelationID (Jakarta Messaging 3.1, section 3.4.5). `Memory` where a request for
    /// memory was refused, and then the draft is as before.
    pub fn set_correlation(&mut self, correlation: &str) -> Result<(), Refusal>
        ensures { MatchResult result
            (λ _. self.new ≡ record self.old { correlation = Some correlation.now })
            (λ refusal. (self.new ≡ self.old) × (refusal ≡ Memory)) }
    {
        let text = SharedStr::from_str(self.alloc, correlation)?;
        self.settings.correlation = Some(text);
        Ok(())
    }

    /// Sets JMSType (Jakarta Messaging 3.1, section 3.4.8). `Memory` where a request for memory was
    /// refused, and then the draft is as before.
    pub fn set_type(&mut self, message_type: &str) -> Result<(), Refusal>
        ensures { MatchResult result
            (λ _. self.new ≡ record self.old { message_type = Some message_type.now })
            (λ refusal. (self.new ≡ self.old) × (refusal ≡ Memory)) }
    {
        let text = SharedStr::from_str(self.alloc, message_type)?;
        self.settings.message_type = Some(text);
        Ok(())
    }

    /// Sets the body to that text. `Memory` where a request for memory was refused, and then the
    /// draft is as before.
    pub fn set_text(&mut self, text: &str) -> Result<(), Refusal>
        ensures { MatchResult result
            (λ _. self.new ≡ record self.old { body = Body.Text text.now })
            (λ refusal. (self.new ≡ self.old) × (refusal ≡ Memory)) }
    {
        self.settings.body = Body::Text(SharedStr::from_str(self.alloc, text)?);
        Ok(())
    }

    /// Sets the body to those bytes. `Memory` where a request for memory was refused, and then the
    /// draft is as before.
    pub fn set_bytes(&mut self, bytes: &[u8]) -> Result<(), Refusal>
        ensures { MatchResult result
            (λ _. self.new ≡ record self.old { body = Body.Bytes bytes.now })
            (λ refusal. (self.new ≡ self.old) × (refusal ≡ Memory)) }
    {
        self.settings.body = Body::Bytes(SharedBytes::from_slice(self.alloc, bytes)?);
        Ok(())
    }

    /// Sets a property, as `Properties::set` does. `BadName` where the name may not have that value,
    /// else `Memory` where a request for memory was refused; then the draft is as before.
    pub fn set_property(&mut self, name: &str, value: Property) -> Result<(), MessageFault>
        ensures { MatchResult result
            (λ _. (self.new ≡ record self.old { properties = with_property self.old.properties name.now value })
            × IsTrue (is_allowed name.now value))
            (λ fault. (self.new ≡ self.old) × (fault ≡ set_fault name.now value)) }
    {
        self.properties_mut().set(name, value)
    }

    /// The properties, which can be written.
    pub fn properties_mut(&mut self) -> &mut Properties
        ensures value { result.now ≡ self.old.properties }
        ensures* writes_back { sem 𝓛 (Lends draft_row properties_row self.entry result
            (λ properties. record self.entry.now { properties = properties })) }
    {
        &mut self.settings.properties
    }

    /// An equal draft. `AllocError` where a request for memory was refused.
    pub fn copy(&self) -> Result<Draft, AllocError>
        ensures { IfOk result (λ copy. copy ≡ self.now) }
    {
        self.clone()
    }

    /// The settings, and the allocator that the draft keeps. Takes no memory.
    pub(crate) fn into_settings(self) -> (Global, Settings)
        ensures { result.1 ≡ self }
    {
        let Draft { alloc, settings } = self;
        (alloc, settings)
    }
}

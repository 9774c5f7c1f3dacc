ghost use Rattle.std.specs.Prelude.{◌≡◌, ◌↔◌, [], IfOk, IsTrue, MatchResult, true, false, option_copied};
ghost use Rattle.jm_header.specs.Headers.{IsExpired, IsHeldBack, body_fault, draft_of, is_delayed, property_fault};
ghost use Rattle.jm_header.specs.Valid.{IsValid};
ghost use Rattle.jm_property.specs.Properties.{with_property, is_allowed};

use crate::body::Body;
use crate::content::{Content, DeliveryMode, Sender, Settings};
use crate::draft::Draft;
use jm_base::MessageFault;
use jm_dest::{Destination, Moment};
use jm_property::{Properties, Property};
use jm_shared::{SharedBytes, SharedStr};
use std::alloc::{AllocError, Global};
use std::marker::Model;

/// A message that was stamped by its sending session (Jakarta Messaging 3.1, chapter 3).
#[derive(Clone, Debug, PartialEq)]
pub struct Message {
    alloc: Global,
    content: Content,
}

impl Drop for Message {
    fn drop(self) {
        let Message {
            alloc: _alloc,
            content: _content,
        } = self;
    }
}

impl Model for Message {
    ghost use Rattle.jm_header.specs.declared.content.Content.{Content};
    ghost use Rattle.jm_header.specs.Valid.{IsValid};

    ghost Value = { Content };

    ghost view = { λ m. m.content };

    ghost invariant = { λ m. IsValid m.content };

    ghost inverse = { λ c. record { alloc = record { memory = record { seal = tt } }; content = c } };
}

impl Message {
    /// The message of those fields, which must be those of a stamped message. Takes no memory.
    pub fn new(alloc: Global, content: Content) -> Message
        requires { IsValid content }
        ensures { result ≡ content }
    {
        Message { alloc, content }
    }

    /// The session that sent the message.
    pub fn sender(&self) -> Sender
        ensures { result ≡ self.now.sender }
    {
        self.content.sender
    }

    /// The place of the message among the stamped sends of its session, from 1.
    pub fn number(&self) -> u64
        ensures { result ≡ self.now.number }
    {
        self.content.number
    }

    /// JMSDestination.
    pub fn destination(&self) -> &Destination
        ensures { result.now ≡ self.now.destination }
    {
        &self.content.destination
    }

    /// JMSDeliveryMode.
    pub fn mode(&self) -> DeliveryMode
        ensures { result ≡ self.now.mode }
    {
        self.content.mode
    }

    /// JMSPriority, from 0 to 9.
    pub fn priority(&self) -> u8
        ensures value { result ≡ self.now.priority }
        ensures valid { IsValid self.now }
    {
        self.content.priority
    }

    /// JMSTimestamp, the moment of the send.
    pub fn timestamp(&self) -> Moment
        ensures { result ≡ self.now.timestamp }
    {
        self.content.timestamp
    }

    /// JMSExpiration, where 0 means that the message does not expire.
    pub fn expiration(&self) -> Moment
        ensures { result ≡ self.now.expiration }
    {
        self.content.expiration
    }

    /// JMSDeliveryTime, the moment of the send and the delivery delay together; never before the timestamp.
    pub fn delivery_time(&self) -> Moment
        ensures value { result ≡ self.now.delivery_time }
        ensures valid { IsValid self.now }
    {
        self.content.delivery_time
    }

    /// JMSCorrelationID, where it is set.
    pub fn correlation(&self) -> Option<&SharedStr>
        ensures { option_copied result ≡ self.now.correlation }
    {
        self.content.correlation.as_ref()
    }

    /// JMSType, where it is set.
    pub fn message_type(&self) -> Option<&SharedStr>
        ensures { option_copied result ≡ self.now.message_type }
    {
        self.content.message_type.as_ref()
    }

    /// The body.
    pub fn body(&self) -> &Body
        ensures { result.now ≡ self.now.body }
    {
        &self.content.body
    }

    /// The properties.
    pub fn properties(&self) -> &Properties
        ensures { result.now ≡ self.now.properties }
    {
        &self.content.properties
    }

    /// Whether the message is expired at that moment: its expiration is set, and not later (Jakarta
    /// Messaging 3.1, section 3.4.9). Takes no memory.
    pub fn expired(&self, now: Moment) -> bool
        ensures { IsTrue result ↔ IsExpired self.now now }
    {
        let expiration = self.expiration().get();
        expiration != 0 && now.get() >= expiration
    }

    /// Whether the message has a delivery delay: its delivery time is after its timestamp. Takes no memory.
    pub fn is_delayed(&self) -> bool
        ensures { result ≡ is_delayed self.now }
    {
        self.timestamp().get() < self.delivery_time().get()
    }

    /// Whether the message is held back at that moment: it has a delivery delay, and its delivery time is later (Jakarta
    /// Messaging 3.1, section 7.9). Takes no memory.
    pub fn held_back(&self, now: Moment) -> bool
        ensures { IsTrue result ↔ IsHeldBack self.now now }
    {
        self.is_delayed() && now.get() < self.delivery_time().get()
    }

    /// Makes the body and the properties read-only. Takes no memory.
    pub fn protect(&mut self)
        ensures { self.new ≡ record self.old { is_body_read_only = true; are_properties_read_only = true } }
    {
        self.content.is_body_read_only = true;
        self.content.are_properties_read_only = true;
    }

    /// Sets a property, as `Properties::set` does. `NotWriteable` where the properties are read-only,
    /// else `BadName` where the name may not have that value, else `Memory` where a request for memory
    /// was refused; then the message is as before.
    pub fn set_property(&mut self, name: &str, value: Property) -> Result<(), MessageFault>
        ensures { MatchResult result
            (λ _. (self.new ≡ record self.old { properties = with_property self.old.properties name.now value })
            × IsTrue (is_allowed name.now value) × (self.old.are_properties_read_only ≡ false))
            (λ fault. (self.new ≡ self.old) × (fault ≡ property_fault self.old name.now value)) }
    {
        if self.content.are_properties_read_only {
            return Err(MessageFault::NotWriteable);
        }
        self.content.properties.set(name, value)
    }

    /// Sets the body to that text. `NotWriteable` where the body is read-only, else `Memory` where a
    /// request for memory was refused; then the message is as before.
    pub fn set_text(&mut self, text: &str) -> Result<(), MessageFault>
        ensures { MatchResult result
            (λ _. (self.new ≡ record self.old { body = Body.Text text.now }) × (self.old.is_body_read_only ≡ false))
            (λ fault. (self.new ≡ self.old) × (fault ≡ body_fault self.old)) }
    {
        if self.content.is_body_read_only {
            return Err(MessageFault::NotWriteable);
        }
        self.content.body = Body::Text(SharedStr::from_str(self.alloc, text)?);
        Ok(())
    }

    /// Sets the body to those bytes. `NotWriteable` where the body is read-only, else `Memory` where a
    /// request for memory was refused; then the message is as before.
    pub fn set_bytes(&mut self, bytes: &[u8]) -> Result<(), MessageFault>
        ensures { MatchResult result
            (λ _. (self.new ≡ record self.old { body = Body.Bytes bytes.now }) × (self.old.is_body_read_only ≡ false))
            (λ fault. (self.new ≡ self.old) × (fault ≡ body_fault self.old)) }
    {
        if self.content.is_body_read_only {
            return Err(MessageFault::NotWriteable);
        }
        self.content.body = Body::Bytes(SharedBytes::from_slice(self.alloc, bytes)?);
        Ok(())
    }

    /// Removes all properties, and makes them writeable (Jakarta Messaging 3.1, section 3.5.7). Takes
    /// no memory.
    pub fn clear_properties(&mut self)
        ensures { self.new ≡ record self.old { properties = []; are_properties_read_only = false } }
    {
        self.content.properties.clear();
        self.content.are_properties_read_only = false;
    }

    /// Removes the body, and makes it writeable (Jakarta Messaging 3.1, section 3.11.1). Takes no
    /// memory.
    pub fn clear_body(&mut self)
        ensures { self.new ≡ record self.old { body = Body.None; is_body_read_only = false } }
    {
        self.content.body = Body::None;
        self.content.is_body_read_only = false;
    }

    /// A draft with the message's mode, priority, JMSCorrelationID, JMSType, body and properties, and
    /// with time to live 0 and delivery delay 0. Takes no memory.
    pub fn into_draft(self) -> Draft
        ensures { result ≡ draft_of self }
    {
        let Message { alloc, content } = self;
        let Content {
            mode,
            priority,
            correlation,
            message_type,
            body,
            properties,
            ..
        } = content;
        Draft::of_settings(
            alloc,
            Settings {
                mode,
                priority,
                time_to_live: 0,
                delivery_delay: 0,
                correlation,
                message_type,
                body,
                properties,
            },
        )
    }

    /// An equal message. `AllocError` where a request for memory was refused.
    pub fn copy(&self) -> Result<Message, AllocError>
        ensures { IfOk result (λ copy. copy ≡ self.now) }
    {
        self.clone()
    }

    /// Whether both messages are the same in all that contracts see.
    pub fn is(&self, other: &Message) -> bool
        ensures { IsTrue result ↔ (self.now ≡ other.now) }
    {
        *self == *other
    }
}

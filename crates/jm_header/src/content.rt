use crate::body::Body;
use jm_dest::{Destination, Moment, Number, SessionId};
use jm_property::Properties;
use jm_shared::SharedStr;
use std::alloc::AllocError;

/// How a message is delivered (Jakarta Messaging 3.1, section 3.4.2, JMSDeliveryMode).
#[derive(Clone, Copy, Debug, PartialEq, Eq)]
pub enum DeliveryMode {
    /// The message may be lost when the provider stops.
    NonPersistent,
    /// The message is stored, where it is held for a queue or a durable subscription.
    Persistent,
}

/// The session that sent a message, and the opening of the provider in which it did (ours).
#[derive(Clone, Copy, Debug, PartialEq, Eq)]
pub struct Sender {
    pub opening: Number,
    pub session: SessionId,
}

/// The fields of a message, as contracts see it.
#[derive(Debug, PartialEq, Drop)]
pub struct Content {
    /// The session that sent the message.
    pub sender: Sender,
    /// The place of the message among the stamped sends of its session, from 1.
    pub number: u64,
    /// JMSDestination.
    pub destination: Destination,
    /// JMSDeliveryMode.
    pub mode: DeliveryMode,
    /// JMSPriority, from 0 to 9.
    pub priority: u8,
    /// JMSTimestamp, the moment of the send.
    pub timestamp: Moment,
    /// JMSExpiration, where 0 means that the message does not expire.
    pub expiration: Moment,
    /// JMSDeliveryTime, which is the timestamp where the message has no delay.
    pub delivery_time: Moment,
    /// JMSCorrelationID.
    pub correlation: Option<SharedStr>,
    /// JMSType.
    pub message_type: Option<SharedStr>,
    /// The body.
    pub body: Body,
    /// The properties.
    pub properties: Properties,
    /// Whether the body is refused to be written.
    pub is_body_read_only: bool,
    /// Whether properties are refused to be written.
    pub are_properties_read_only: bool,
}

/// The fields of a draft, as contracts see it.
#[derive(Clone, Debug, PartialEq, Drop)]
pub struct Settings {
    /// JMSDeliveryMode.
    pub mode: DeliveryMode,
    /// JMSPriority, from 0 to 9.
    pub priority: u8,
    /// The time to live in milliseconds, where 0 means that the message does not expire.
    pub time_to_live: u64,
    /// The delivery delay in milliseconds.
    pub delivery_delay: u64,
    /// JMSCorrelationID.
    pub correlation: Option<SharedStr>,
    /// JMSType.
    pub message_type: Option<SharedStr>,
    /// The body.
    pub body: Body,
    /// The properties.
    pub properties: Properties,
}

// (by hand: of a derived one, with so many fields, the search does not find that it is equal)
impl Clone for Content {
    ghost use Rattle.std.specs.Prelude.{◌≡◌};

    ghost is_clone = { λ a b. b ≡ a };

    fn clone(&self) -> Result<Content, AllocError> {
        Ok(Content {
            sender: self.sender,
            number: self.number,
            destination: self.destination.copy()?,
            mode: self.mode,
            priority: self.priority,
            timestamp: self.timestamp,
            expiration: self.expiration,
            delivery_time: self.delivery_time,
            correlation: self.correlation.clone()?,
            message_type: self.message_type.clone()?,
            body: self.body.clone()?,
            properties: self.properties.copy()?,
            is_body_read_only: self.is_body_read_only,
            are_properties_read_only: self.are_properties_read_only,
        })
    }
}

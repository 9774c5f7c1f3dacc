use jm_dest::Moment;
use jm_header::{DeliveryMode, Sender};

/// The fields of a message up to JMSPriority, in the order of its record.
#[derive(Clone, Copy)]
pub(crate) struct Head {
    pub(crate) sender: Sender,
    pub(crate) number: u64,
    pub(crate) timestamp: Moment,
    pub(crate) expiration: Moment,
    pub(crate) delivery_time: Moment,
    pub(crate) mode: DeliveryMode,
    pub(crate) priority: u8,
}

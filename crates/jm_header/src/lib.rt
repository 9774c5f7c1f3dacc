//! Messages: their header fields and bodies, drafts of messages that are not sent yet, and the
//! stamp that makes a draft a message (Jakarta Messaging 3.1, section 3.4).
//!
//! # Contract
//!
//! `Message` is seen as the record `Content`, `Draft` as `Settings`.
//!
//! `stamp` is `stamped`: the expiration and the delivery time count from the moment of the send; readers give the
//! fields, and `message_id` the text of JMSMessageID; `expired` is `IsExpired`, `held_back` is `IsHeldBack`, and
//! `is_delayed` says whether the delivery time is after the timestamp, before which it never is; the draft of a
//! message has no delay; writes are refused while read-only.
#![tactic(auto)]

mod body;
mod content;
mod draft;
mod message;
mod message_id;
mod stamping;

pub use body::Body;
pub use content::{Content, DeliveryMode, Sender, Settings};
pub use draft::Draft;
pub use message::Message;
pub use message_id::MessageIdText;
pub use stamping::stamp;

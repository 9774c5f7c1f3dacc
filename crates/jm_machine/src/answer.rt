ghost use Rattle.std.specs.Prelude.{◌≡◌, ◌↔◌, ◌≤◌, IfOk, IsTrue};

use jm_base::Refusal;
use jm_header::Message;
use std::alloc::AllocError;

/// A message that is handed to a consumer, with the count of its deliveries.
#[derive(Clone, Debug, PartialEq, Drop)]
pub struct Delivery {
    /// The message as it was published, with both of its parts read-only.
    pub message: Message,
    /// How often it was delivered so far, this time included: JMSXDeliveryCount (Jakarta Messaging
    /// 3.1, section 3.5.11). At 2,147,483,647 it stays.
    pub count: u32,
}

/// What the core answers to a call that is not refused.
#[derive(Clone, Debug, PartialEq, Drop)]
pub enum Answer {
    /// The call is done.
    Done,
    /// The message is sent; it is the session's message of that number, from 1.
    Sent(u64),
    /// A message is delivered.
    Delivered(Delivery),
    /// There is no message to be delivered.
    Nothing,
    /// The subscription missed so many publications; at 2^64-1 it stays.
    Missed(u64),
}

/// What a call is told: an answer, or a refusal, after which the state is as it was.
pub type Reply = Result<Answer, Refusal>;

impl Delivery {
    /// Whether the message was delivered before: JMSRedelivered (Jakarta Messaging 3.1, section
    /// 3.4.7).
    pub fn redelivered(&self) -> bool
        ensures { IsTrue result ↔ (2 ≤ self.now.count) }
    {
        self.count >= 2
    }

    /// An equal delivery. `AllocError` where a request for memory was refused.
    pub fn copy(&self) -> Result<Delivery, AllocError>
        ensures { IfOk result (λ copy. copy ≡ self.now) }
    {
        Delivery::clone(self)
    }
}

impl Answer {
    /// Whether both are equal in every field.
    pub fn is(&self, other: &Answer) -> bool
        ensures { IsTrue result ↔ (self.now ≡ other.now) }
    {
        *self == *other
    }

    /// An equal answer. `AllocError` where a request for memory was refused.
    pub fn copy(&self) -> Result<Answer, AllocError>
        ensures { IfOk result (λ copy. copy ≡ self.now) }
    {
        Answer::clone(self)
    }
}

/// Whether both are the same answer, or the same refusal.
pub fn same_reply(a: &Reply, b: &Reply) -> bool
    ensures { IsTrue result ↔ (a.now ≡ b.now) }
{
    *a == *b
}

/// An equal reply. `AllocError` where a request for memory was refused.
pub fn copy_reply(reply: &Reply) -> Result<Reply, AllocError>
    ensures { IfOk result (λ copy. copy ≡ reply.now) }
{
    reply.clone()
}

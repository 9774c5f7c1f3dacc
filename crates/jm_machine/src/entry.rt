use crate::answer::Reply;
use crate::call::{Request, Step, Who};
use jm_dest::SessionId;
use jm_header::Message;

/// What a call leaves in the record of a run.
#[derive(Debug, PartialEq, Drop)]
pub enum Entry {
    /// A call that carries no messages, with its reply.
    Asked {
        who: Who,
        request: Request,
        reply: Reply,
    },
    /// A message that was sent, stamped; the reply was its number.
    Sent(Message),
    /// A commit of the session that was done.
    Committed(SessionId),
}

/// One event of the core: a step, and what it was told.
#[derive(Debug, PartialEq, Drop)]
pub struct Event {
    pub step: Step,
    pub reply: Reply,
}

use jm_base::{List, Mode};
use jm_header::{Message, Sender};

/// What a session sends, as contracts see it.
#[derive(Debug, PartialEq, Drop)]
pub struct Buffer {
    /// The session, in its opening of the provider.
    pub sender: Sender,
    /// How the session acknowledges; in mode `Transacted` its messages wait for the commit.
    pub mode: Mode,
    /// How many sends were accepted so far.
    pub sent: u64,
    /// The messages that wait for the commit, in the order of their sends.
    pub messages: List<Message>,
    /// Whether the session is closed.
    pub is_closed: bool,
}

/// What is to be done with a send that was accepted.
#[derive(Debug, PartialEq, Drop)]
pub enum Sent {
    /// The message is to be published now.
    Publish(Message),
    /// The message of that number waits for the session's commit.
    Kept(u64),
}

ghost use Rattle.std.specs.Prelude.{◌≡◌, [], true};
ghost use Rattle.jm_header.specs.Headers.{next_stamped};
ghost use Rattle.jm_tx.specs.Buffers.{is_transacted, new_buffer, stamp_of, KnownSendFits, SendFits};

use crate::buffer::{Buffer, Sent};
use jm_base::{List, Mode, Refusal};
use jm_dest::{Destination, Moment};
use jm_header::{Draft, Message, Sender, stamp};
use std::alloc::Global;
use std::marker::Model;
use std::mem;

/// The greatest number of a send.
const NUMBER_MAX: u64 = 0x7fff_ffff_ffff_ffff;

/// A session's half of its transaction, owned by the client's thread (Jakarta Messaging 3.1, section 6.2). A send in a
/// transacted session is no call of the provider: it takes no lock and waits for nothing. Contracts see it as a `Buffer`.
#[derive(Drop)]
pub struct SessionHalf {
    alloc: Global,
    buffer: Buffer,
}

impl Model for SessionHalf {
    ghost use Rattle.jm_tx.specs.declared.buffer.Buffer.{Buffer};

    ghost Value = { Buffer };

    ghost view = { λ h. h.buffer };
}

impl SessionHalf {
    /// The half of an open session of that mode, which made so many sends before. Takes no memory.
    pub fn new(alloc: Global, sender: Sender, mode: Mode, sent: u64) -> SessionHalf
        ensures { result ≡ new_buffer sender mode sent }
    {
        SessionHalf {
            alloc,
            buffer: Buffer {
                sender,
                mode,
                sent,
                messages: List::new(Vec::new(alloc)),
                is_closed: false,
            },
        }
    }

    /// The message of the sender's next send, or why it is not stamped. Takes no memory.
    fn stamp_next(
        &self,
        sender: Sender,
        draft: Draft,
        destination: Destination,
        now: Moment,
    ) -> Result<Message, Refusal>
        ensures { result ≡ next_stamped draft destination sender self.now.sent now }
    {
        let number = self.buffer.sent.min(NUMBER_MAX - 1) + 1;
        let message = stamp(draft, destination, sender, number, now)?;
        if self.buffer.sent >= NUMBER_MAX {
            return Err(Refusal::Exhausted);
        }
        Ok(message)
    }

    /// Sends the draft to the destination at that moment. In a transacted session the message is kept for the commit, and
    /// its number told; in any other it is handed out, to be published. Its time to live and its delivery delay count from
    /// that moment, and not from the commit (Jakarta Messaging 3.1, section 7.9). `IllegalState` after `close`; else
    /// `OutOfRange` where the moment is past 9,223,372,036,854,775,807 together with the time to live, or with the delivery
    /// delay; else `Exhausted` where so many sends were made already; else `Memory` where a request for memory was refused,
    /// which comes in a transacted session alone. After any of them all is as before, but that the draft is dropped.
    pub fn send(
        &mut self,
        draft: Draft,
        destination: Destination,
        now: Moment,
    ) -> Result<Sent, Refusal>
        ensures { SendFits self.old (stamp_of self.old draft destination now) result self.new }
    {
        if self.buffer.is_closed {
            return Err(Refusal::IllegalState);
        }
        self.send_as(
            self.buffer.sender,
            self.buffer.mode,
            draft,
            destination,
            now,
        )
    }

    /// Sends as `send` does, where the caller knows that the session is open, and names who sends and the mode.
    pub(crate) fn send_as(
        &mut self,
        sender: Sender,
        mode: Mode,
        draft: Draft,
        destination: Destination,
        now: Moment,
    ) -> Result<Sent, Refusal>
        ensures { KnownSendFits (is_transacted mode) self.old
            (next_stamped draft destination sender self.old.sent now) result self.new }
    {
        let message = self.stamp_next(sender, draft, destination, now)?;
        let number = message.number();
        let sent = match mode {
            Mode::Auto | Mode::Client | Mode::Dups => Sent::Publish(message),
            Mode::Transacted => {
                self.buffer.messages.push(message)?;
                Sent::Kept(number)
            }
        };
        self.buffer.sent = number;
        Ok(sent)
    }

    /// The messages that wait for the commit, in the order of their sends. Takes no memory.
    pub fn pending(&self) -> &[Message]
        ensures { result.now ≡ self.now.messages }
    {
        self.buffer.messages.as_slice()
    }

    /// Hands out the messages that wait for the commit, in the order of their sends; none waits then. Takes no memory.
    pub fn take_commit(&mut self) -> Vec<Message>
        ensures messages { result.items ≡ self.old.messages }
        ensures left { self.new ≡ record self.old { messages = [] } }
    {
        let none = List::new(Vec::new(self.alloc));
        mem::replace(&mut self.buffer.messages, none).into_inner()
    }

    /// Takes the messages of a commit back that was refused, as they were handed out; none may wait. Takes no memory.
    pub fn put_back(&mut self, messages: Vec<Message>)
        requires { self.old.messages ≡ [] }
        ensures { self.new ≡ record self.old { messages = messages.items } }
    {
        self.buffer.messages = List::new(messages);
    }

    /// Drops the messages that wait for the commit: the session's transaction was rolled back. Their numbers stay used.
    /// Takes no memory.
    pub fn drop_all(&mut self)
        ensures { self.new ≡ record self.old { messages = [] } }
    {
        self.buffer.messages = List::new(Vec::new(self.alloc));
    }

    /// Closes the session: the messages that wait are dropped, and no send is accepted any more. Takes no memory.
    pub fn close(&mut self)
        ensures { self.new ≡ record self.old { messages = []; is_closed = true } }
    {
        self.drop_all();
        self.buffer.is_closed = true;
    }
}

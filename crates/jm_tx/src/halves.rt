ghost use Rattle.std.specs.Prelude.{◌≡◌, ◌≤◌, ◌<◌, ◌+◌, [], None, Some, IfOk, IsOk, OnOk, OnErr};
ghost use Rattle.std.specs.HashMap.{get, Updates};
ghost use Rattle.jm_dest.specs.Names.{session_eq};
ghost use Rattle.jm_header.specs.Headers.{next_stamped};
ghost use Rattle.jm_tx.specs.Buffers.{is_transacted};
ghost use Rattle.jm_tx.specs.Halves.{sent_of, kept_of, room, none_sent, none_kept, with_messages, without_connection, MayPutBack, RunSendFits};

use crate::buffer::Sent;
use crate::half::SessionHalf;
use jm_base::{Mode, Refusal};
use jm_dest::{ConnectionId, Destination, Moment, SessionId};
use jm_header::{Draft, Message, Sender};
use std::alloc::{AllocError, Global};
use std::collections::HashMap;

/// The halves of a run's sessions, each made at its session's first send. Contracts see them by two functions from
/// sessions, how many sends of each were stamped (`sent_of`) and which messages of each wait for the commit (`kept_of`),
/// and for how many more sessions there is `room`. A session is looked up by its hash, and its half stays.
#[derive(Drop)]
pub struct Halves {
    alloc: Global,
    halves: HashMap<SessionId, SessionHalf>,
}

impl Halves {
    /// No session sent anything, and there is room for that many. `AllocError` where a request for memory was refused.
    #[tactic(auto, using(crate::proofs::Kept::nothing), unfolding(crate::specs::Halves::room))]
    pub fn with_capacity(alloc: Global, sessions: usize) -> Result<Halves, AllocError>
        ensures sent { IfOk result (λ made. sent_of made ≡ none_sent) }
        ensures kept { IfOk result (λ made. kept_of made ≡ none_kept) }
        ensures room { IfOk result (λ made. sessions ≤ room made) }
    {
        Ok(Halves {
            alloc,
            halves: HashMap::with_capacity(alloc, sessions)?,
        })
    }

    /// Sends the draft to the destination at that moment, as the sender, whose session is open in that mode. In mode
    /// `Transacted` the message is kept for the commit, and its number told; in any other it is handed out, to be
    /// published. `OutOfRange` where the moment is past 9,223,372,036,854,775,807 together with the time to live, or with
    /// the delivery delay; else `Exhausted` where the session made so many sends already; else `Memory` where a request for
    /// memory was refused, which comes in mode `Transacted`, and at a session's first send where there is no room. After
    /// any of them all is as before, but that the draft is dropped.
    pub fn send(
        &mut self,
        sender: Sender,
        mode: Mode,
        draft: Draft,
        destination: Destination,
        now: Moment,
    ) -> Result<Sent, Refusal>
        ensures fits { RunSendFits (is_transacted mode) sender.session self.old
            (next_stamped draft destination sender (sent_of self.old sender.session) now) result self.new }
        ensures room { room self.old ≤ room self.new + 1 }
    {
        if let Some(half) = self.halves.get_mut(&sender.session) {
            return half.send_as(sender, mode, draft, destination, now);
        }
        self.send_first(sender, mode, draft, destination, now)
    }

    /// The first send of a session.
    fn send_first(
        &mut self,
        sender: Sender,
        mode: Mode,
        draft: Draft,
        destination: Destination,
        now: Moment,
    ) -> Result<Sent, Refusal>
        requires { get session_eq self.old.halves sender.session ≡ None }
        ensures fits { RunSendFits (is_transacted mode) sender.session self.old
            (next_stamped draft destination sender (sent_of self.old sender.session) now) result self.new }
        ensures room { room self.old ≤ room self.new + 1 }
    {
        let session = sender.session;
        let mut half = SessionHalf::new(self.alloc, sender, mode, 0);
        let sent = half.send(draft, destination, now)?;
        self.add(session, half)?;
        Ok(sent)
    }

    /// Adds the half of a session that has none.
    #[tactic(auto, unfolding(crate::specs::Halves::room))]
    fn add(&mut self, session: SessionId, half: SessionHalf) -> Result<(), AllocError>
        ensures ok { OnOk result (Updates session_eq self.old.halves self.new.halves session (Some half)) }
        ensures err { OnErr result (self.new.halves.entries ≡ self.old.halves.entries) }
        ensures succeeds { 0 < room self.old → IsOk result }
        ensures room { room self.old ≤ room self.new + 1 }
    {
        self.halves.insert(session, half)?;
        Ok(())
    }

    /// Hands out the messages of the session that wait for the commit, in the order of their sends; none waits then.
    /// Takes no memory.
    pub fn take_commit(&mut self, session: &SessionId) -> Vec<Message>
        ensures messages { result.items ≡ kept_of self.old session.now }
        ensures sent { sent_of self.new ≡ sent_of self.old }
        ensures kept { kept_of self.new ≡ with_messages session.now [] (kept_of self.old) }
        ensures room { room self.new ≡ room self.old }
        ensures back { MayPutBack self.new session.now result.items }
    {
        match self.halves.get_mut(session) {
            None => Vec::new(self.alloc),
            Some(half) => half.take_commit(),
        }
    }

    /// Takes the messages of a commit of the session back that was refused, as they were handed out; none may wait.
    /// Takes no memory.
    pub fn put_back(&mut self, session: &SessionId, messages: Vec<Message>)
        requires none { kept_of self.old session.now ≡ [] }
        requires back { MayPutBack self.old session.now messages.items }
        ensures sent { sent_of self.new ≡ sent_of self.old }
        ensures kept { kept_of self.new ≡ with_messages session.now messages.items (kept_of self.old) }
        ensures room { room self.new ≡ room self.old }
    {
        if let Some(half) = self.halves.get_mut(session) {
            half.put_back(messages);
        }
    }

    /// Drops the messages of the session that wait for the commit. Their numbers stay used. Takes no memory.
    pub fn drop_all(&mut self, session: &SessionId)
        ensures sent { sent_of self.new ≡ sent_of self.old }
        ensures kept { kept_of self.new ≡ with_messages session.now [] (kept_of self.old) }
        ensures room { room self.new ≡ room self.old }
    {
        let _ = self.take_commit(session);
    }

    /// Drops the messages of all sessions of the connection that wait for the commit, in a walk over all sessions that
    /// sent. Their numbers stay used. Takes no memory.
    pub fn drop_connection(&mut self, connection: ConnectionId)
        ensures sent { sent_of self.new ≡ sent_of self.old }
        ensures kept { kept_of self.new ≡ without_connection connection (kept_of self.old) }
        ensures room { room self.old ≤ room self.new }
    {
        self.halves.retain(|session, half| {
            if session.connection == connection {
                half.drop_all();
            }
            true
        });
    }
}

//! Connections.

ghost use Rattle.std.specs.Prelude.{◌≡◌, [], IfOk, IfErr, Ok};
ghost use Rattle.jm_client.specs.Told.{Answers, RefusesNew, Told};
ghost use Rattle.jm_machine.specs.declared.answer.Answer.TheVariants.{Done};
ghost use Rattle.jm_machine.specs.declared.call.Call.TheVariants.{Ask};
ghost use Rattle.jm_machine.specs.declared.call.Request.TheVariants.{CloseConnection, CreateSession, Start, Stop};
ghost use Rattle.jm_machine.specs.declared.call.Who.TheVariants.{Connection as ByConnection, Session as BySession};
ghost use Rattle.jm_tx.specs.Buffers.{new_buffer};

use crate::backend::Backend;
use crate::plain::Plain;
use crate::provider::Provider;
use crate::session::Session;
use jm_base::Mode;
use jm_core::{Request, Who};
use jm_dest::{ConnectionId, SessionId};
use jm_error::Error;
use jm_keep::NoKeep;
use std::marker::Model;
use std::sync::Wait;
use std::time::Clock;

/// A connection, which closes as it is dropped, with its sessions. Any thread may call it. Contracts see its number.
pub struct Connection<'p, R: Wait + Clock, B: Backend = Plain<NoKeep>> {
    provider: &'p Provider<'p, R, B>,
    id: ConnectionId,
}

impl<'p, R: Wait + Clock, B: Backend> Model for Connection<'p, R, B> {
    ghost use Rattle.std.specs.Prelude.{ℕ};

    ghost Value = { ℕ };

    ghost view = { λ c. c.id };
}

/// Closes the connection of that number.
fn end<R: Wait + Clock, B: Backend>(
    provider: &Provider<'_, R, B>,
    id: ConnectionId,
) -> Result<(), Error>
    ensures { Answers (ByConnection id) CloseConnection result }
{
    provider.ask_plain(Who::Connection(id), Request::CloseConnection)
}

impl<'p, R: Wait + Clock, B: Backend> Drop for Connection<'p, R, B> {
    fn drop(self) {
        let Connection { provider, id } = self;
        let _ = end(provider, id);
    }
}

impl<'p, R: Wait + Clock, B: Backend> Connection<'p, R, B> {
    /// The connection of that number, which is open.
    pub(crate) fn new(provider: &'p Provider<'p, R, B>, id: ConnectionId) -> Connection<'p, R, B>
        ensures { result ≡ id }
    {
        Connection { provider, id }
    }

    /// Starts the delivery of messages to the connection's consumers (Jakarta Messaging 3.1, section 6.1.4). `IllegalState`
    /// where it is closed. Takes no memory.
    pub fn start(&self) -> Result<(), Error>
        ensures { Answers (ByConnection self.now) Start result }
    {
        self.provider
            .ask_plain(Who::Connection(self.id), Request::Start)
    }

    /// Stops the delivery of messages to the connection's consumers. `IllegalState` where it is closed. Takes no memory.
    pub fn stop(&self) -> Result<(), Error>
        ensures { Answers (ByConnection self.now) Stop result }
    {
        self.provider
            .ask_plain(Who::Connection(self.id), Request::Stop)
    }

    /// Opens a session in that mode, for one thread (Jakarta Messaging 3.1, section 6.2). A refusal opens none:
    ///
    /// - `IllegalState`: the connection is closed.
    /// - `Exhausted`: 4,294,967,295 sessions were asked for already, of all connections of the provider.
    /// - `Memory`: a request for memory was refused.
    pub fn create_session(&self, mode: Mode) -> Result<Session<'p, R, B>, Error>
        ensures mode { IfOk result (λ s. s ≡ new_buffer s.sender mode 0) }
        ensures sender { IfOk result (λ s. s.sender.session.connection ≡ self.now) }
        ensures ok { IfOk result (λ s. Told (BySession s.sender.session) (Ask (CreateSession mode)) (Ok Done)) }
        ensures refused { IfErr result
            (RefusesNew (λ n. BySession (record { connection = self.now; number = n })) (λ n. CreateSession mode)) }
    {
        let provider = self.provider;
        let number = provider.give_session()?;
        let id = SessionId {
            connection: self.id,
            number,
        };
        provider.ask_plain(Who::Session(*&id), Request::CreateSession { mode })?;
        Ok(Session::new(provider, &id, mode))
    }

    /// Closes the connection with its sessions: what is out to them waits again, and what waits for their commits is never
    /// published (Jakarta Messaging 3.1, section 6.1.8). Where it is refused the connection stays open, and nobody has it.
    ///
    /// - `Store`: the keeper failed.
    pub fn close(self) -> Result<(), Error>
        ensures { Answers (ByConnection self.entry) CloseConnection result }
    {
        let Connection { provider, id } = self;
        end(provider, id)
    }
}

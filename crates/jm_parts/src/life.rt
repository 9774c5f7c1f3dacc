//! Opens and closes connections and sessions, and closes consumers. Each call that takes memory is prepared first,
//! which finds why it is refused and else takes all room, and then made, which takes no memory.

ghost use Rattle.std.specs.Prelude.{◌≡◌, ◌<◌, true, false, map, is_some, IfOk, IfErr, OnOk, None};
ghost use Rattle.jm_machine.specs.declared.call.Who.TheVariants.{Connection, Session};
ghost use Rattle.jm_machine.specs.declared.call.Request.TheVariants.{Open, Start, Stop, CloseConnection, CreateSession, CloseSession};
ghost use Rattle.jm_machine.specs.Life as life;
ghost use Rattle.jm_machine.specs.Machine as machine;
ghost use Rattle.jm_session.specs.Known.{cause, open_cause};

use jm_base::{Mode, Refusal};
use jm_dest::{ClientId, ConnectionId, ConsumerId, SessionId};
use jm_session::Sessions;
use std::alloc::AllocError;

/// An equal client identifier, or none.
fn copy_client(client: &Option<ClientId>) -> Result<Option<ClientId>, AllocError>
    ensures { IfOk result (λ copy. copy ≡ client.now) }
{
    match client {
        None => Ok(None),
        Some(client) => Ok(Some(client.copy()?)),
    }
}

/// Finds why the connection may not be opened for the client, or for none, and else makes room for it and copies the
/// client.
pub fn prepare_open(
    sessions: &mut Sessions,
    id: ConnectionId,
    client: &Option<ClientId>,
) -> Result<Option<ClientId>, Refusal>
    ensures new { OnOk result (life.connection_of sessions.old.life.connections id ≡ None) }
    ensures free { OnOk result (life.is_client_taken sessions.old.life client.now ≡ false) }
    ensures client { IfOk result (λ copy. copy ≡ client.now) }
    ensures room { OnOk result (0 < sessions.new.spare) }
    ensures refused { IfErr result (λ refusal. refusal ≡ open_cause
        (is_some (life.connection_of sessions.old.life.connections id)) (life.is_client_taken sessions.old.life client.now)) }
    ensures life { sessions.new.life ≡ sessions.old.life }
    ensures consumers { sessions.new.consumers ≡ sessions.old.consumers }
{
    if sessions.is_used(id) {
        return Err(Refusal::IllegalState);
    }
    if sessions.is_client_taken(client) {
        return Err(Refusal::InvalidClientId);
    }
    sessions.reserve(1)?;
    Ok(copy_client(client)?)
}

/// Opens the connection for the client, or for none, stopped.
pub fn make_open(sessions: &mut Sessions, id: ConnectionId, client: Option<ClientId>)
    requires new { life.connection_of sessions.old.life.connections id ≡ None }
    requires free { life.is_client_taken sessions.old.life client ≡ false }
    requires room { 0 < sessions.old.spare }
    ensures life { sessions.new.life ≡ life.life_after sessions.old.life (Connection id) (Open client) }
    ensures consumers { sessions.new.consumers ≡ sessions.old.consumers }
{
    let _ = sessions.open(id, client);
}

/// Starts the connection.
pub fn make_start(sessions: &mut Sessions, id: ConnectionId)
    requires { life.is_open_connection (life.connection_of sessions.old.life.connections id) ≡ true }
    ensures life { sessions.new.life ≡ life.life_after sessions.old.life (Connection id) Start }
    ensures consumers { sessions.new.consumers ≡ sessions.old.consumers }
{
    let _ = sessions.start(id);
}

/// Stops the connection.
pub fn make_stop(sessions: &mut Sessions, id: ConnectionId)
    requires { life.is_open_connection (life.connection_of sessions.old.life.connections id) ≡ true }
    ensures life { sessions.new.life ≡ life.life_after sessions.old.life (Connection id) Stop }
    ensures consumers { sessions.new.consumers ≡ sessions.old.consumers }
{
    let _ = sessions.stop(id);
}

/// Finds why the session may not be opened, and else makes room for it.
pub fn prepare_session(sessions: &mut Sessions, id: &SessionId) -> Result<(), Refusal>
    ensures ok { OnOk result (life.is_new_session sessions.old.life id.now ≡ true) }
    ensures room { OnOk result (0 < sessions.new.spare) }
    ensures refused { IfErr result (λ refusal. refusal ≡ cause (life.is_new_session sessions.old.life id.now)) }
    ensures life { sessions.new.life ≡ sessions.old.life }
    ensures consumers { sessions.new.consumers ≡ sessions.old.consumers }
{
    if !sessions.is_new_session(id) {
        return Err(Refusal::IllegalState);
    }
    sessions.reserve(1)?;
    Ok(())
}

/// Opens the session in that mode.
pub fn make_session(sessions: &mut Sessions, id: &SessionId, mode: Mode)
    requires new { life.is_new_session sessions.old.life id.now ≡ true }
    requires room { 0 < sessions.old.spare }
    ensures life { sessions.new.life ≡ life.life_after sessions.old.life (Session id.now) (CreateSession mode) }
    ensures consumers { sessions.new.consumers ≡ sessions.old.consumers }
{
    let _ = sessions.session(id, mode);
}

/// Closes the connection, its sessions and their consumers.
pub fn make_close_connection(sessions: &mut Sessions, id: ConnectionId)
    requires { is_some (life.connection_of sessions.old.life.connections id) ≡ true }
    ensures life { sessions.new.life ≡ life.life_after sessions.old.life (Connection id) CloseConnection }
    ensures consumers { sessions.new.consumers ≡ map (machine.closed_consumer (machine.of_connection id)) sessions.old.consumers }
{
    let _ = sessions.close_connection(id);
}

/// Closes the session and its consumers.
pub fn make_close_session(sessions: &mut Sessions, id: &SessionId)
    requires { machine.may_close_session sessions.old.life id.now ≡ true }
    ensures life { sessions.new.life ≡ life.life_after sessions.old.life (Session id.now) CloseSession }
    ensures consumers { sessions.new.consumers ≡ map (machine.closed_consumer (machine.of_session id.now)) sessions.old.consumers }
{
    let _ = sessions.close_session(id);
}

/// Closes the session's consumer of that number.
pub fn make_close_consumer(sessions: &mut Sessions, session: &SessionId, id: ConsumerId)
    requires { machine.may_close_consumer sessions.old.life sessions.old.consumers session.now id ≡ true }
    ensures life { sessions.new.life ≡ sessions.old.life }
    ensures consumers { sessions.new.consumers ≡
        map (machine.closed_consumer (machine.of_number session.now id)) sessions.old.consumers }
{
    let _ = sessions.close_consumer(session, id);
}

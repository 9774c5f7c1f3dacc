//! Which client identifier each connection has, in an opening and a list of entries.

ghost use Rattle.std.specs.Prelude.{◌≡◌, ◌==◌, ℕ, [], ◌∷◌, find, option_map, IfOk, OnOk, None, Some};
ghost use Rattle.std.specs.Option.{option_copied, option_or};
ghost use Rattle.std.specs.HashMap.{get};
ghost use Rattle.jm_machine.specs.Life as life;
ghost use Rattle.jm_machine.specs.Lone as lone;
ghost use Rattle.jm_scope.specs.Parts as spec;
ghost use Rattle.jm_scope.specs.Parts.{client_seen};

use jm_dest::{ClientId, ConnectionId, Key};
use jm_machine::find::connection_of;
use jm_machine::{ConnectionState, Entry, Request, Who};
use std::alloc::{AllocError, Global};
use std::collections::HashMap;

/// Whether the entry opens the connection of that number.
fn opens(entry: &Entry, id: ConnectionId) -> bool
    ensures { result ≡ spec.opens id entry.now }
{
    match entry {
        Entry::Asked {
            who: Who::Connection(opened),
            request: Request::Open { .. },
            reply: Ok(_),
        } => *opened == id,
        _ => false,
    }
}

/// The client identifier, if any, for which the entry opens a connection.
fn client_named(entry: &Entry) -> Option<&ClientId>
    ensures { option_copied result ≡ spec.client_named entry.now }
{
    match entry {
        Entry::Asked {
            who: Who::Connection(_),
            request: Request::Open { client },
            ..
        } => client.as_ref(),
        _ => None,
    }
}

/// The first entry that opens the connection.
fn opening_of(entries: &[Entry], id: ConnectionId) -> Option<&Entry>
    ensures { option_copied result ≡ find (spec.opens id) entries.now }
{
    entries.iter().find(|entry| opens(entry, id))
}

/// The client identifier, if any, with which the connection is opened first among the entries.
#[tactic(auto, using(crate::proofs::Seen::opened_first))]
fn client_opened(entries: &[Entry], id: ConnectionId) -> Option<&ClientId>
    ensures { option_copied result ≡ lone.client_opened entries.now id }
{
    match opening_of(entries, id) {
        None => None,
        Some(entry) => client_named(entry),
    }
}

/// The client identifier, if any, with which the connection is open in the opening, or is opened by the entries. Takes no
/// memory: it looks through both.
pub(crate) fn client_in<'a>(
    connections: &'a [ConnectionState],
    entries: &'a [Entry],
    id: ConnectionId,
) -> Option<&'a ClientId>
    ensures { option_copied result ≡ lone.client_or (life.connection_of connections.now id) (lone.client_opened entries.now id) }
{
    match connection_of(connections, id) {
        None => client_opened(entries, id),
        Some(connection) if connection.is_open => connection.client.as_ref(),
        Some(_) => None,
    }
}

fn copy_client(client: Option<&ClientId>) -> Result<Option<ClientId>, AllocError>
    ensures { IfOk result (λ copy. copy ≡ option_copied client.entry) }
{
    match client {
        None => Ok(None),
        Some(client) => Ok(Some(client.copy()?)),
    }
}

/// The client identifier of a connection of the opening, where it is open and has one.
fn client_left(connection: &ConnectionState) -> Option<&ClientId>
    ensures { option_copied result ≡ spec.client_left connection.now }
{
    if connection.is_open {
        connection.client.as_ref()
    } else {
        None
    }
}

/// Notes the client identifier of the connection, where its number is new.
fn add_connection(
    clients: &mut HashMap<ConnectionId, Option<ClientId>>,
    connection: &ConnectionState,
) -> Result<(), AllocError>
    ensures { (c : ℕ) → OnOk result (get (λ a b. a == b) clients.new c
        ≡ option_or (get (λ a b. a == b) clients.old c) (option_map spec.client_left (life.connection_of (connection.now ∷ []) c))) }
{
    if !clients.contains_key(&connection.id) {
        clients.insert(connection.id, copy_client(client_left(connection))?)?;
    }
    Ok(())
}

/// The client identifiers of the connections of the opening.
fn clients_left(
    alloc: Global,
    connections: &[ConnectionState],
) -> Result<HashMap<ConnectionId, Option<ClientId>>, AllocError>
    ensures { (c : ℕ) → IfOk result (λ made. get (λ a b. a == b) made c
        ≡ option_map spec.client_left (life.connection_of connections.now c)) }
{
    let mut clients = HashMap::with_capacity(alloc, connections.len())?;
    for connection in connections {
        add_connection(&mut clients, connection)?;
    }
    Ok(clients)
}

/// Notes the client identifier of the connection that the entry opens, where its number is new.
fn add_opened(
    clients: &mut HashMap<ConnectionId, Option<ClientId>>,
    entry: &Entry,
) -> Result<(), AllocError>
    ensures { (c : ℕ) → OnOk result (get (λ a b. a == b) clients.new c
        ≡ option_or (get (λ a b. a == b) clients.old c) (option_map spec.client_named (find (spec.opens c) (entry.now ∷ [])))) }
{
    if let Entry::Asked {
        who: Who::Connection(id),
        request: Request::Open { client },
        reply: Ok(_),
    } = entry
    {
        if !clients.contains_key(id) {
            clients.insert(*id, copy_client(client.as_ref())?)?;
        }
    }
    Ok(())
}

/// Notes the client identifiers of the connections that the entries open, where their numbers are new.
fn add_all_opened(
    clients: &mut HashMap<ConnectionId, Option<ClientId>>,
    entries: &[Entry],
) -> Result<(), AllocError>
    ensures { (c : ℕ) → OnOk result (get (λ a b. a == b) clients.new c
        ≡ option_or (get (λ a b. a == b) clients.old c) (option_map spec.client_named (find (spec.opens c) entries.now))) }
{
    for entry in entries {
        add_opened(clients, entry)?;
    }
    Ok(())
}

/// The client identifiers of the connections of the opening, and of those that the entries open.
#[tactic(auto, using(crate::proofs::Seen::client_first))]
fn clients_when(
    alloc: Global,
    connections: &[ConnectionState],
    entries: &[Entry],
) -> Result<HashMap<ConnectionId, Option<ClientId>>, AllocError>
    ensures { (c : ℕ) → IfOk result (λ made. client_seen made c ≡ spec.clients_when connections.now entries.now c) }
{
    let mut clients = clients_left(alloc, connections)?;
    add_all_opened(&mut clients, entries)?;
    Ok(clients)
}

/// The client identifiers of all connections, by their numbers, where the key is a durable one's; none where it is another's,
/// since no client identifier then matters.
pub(crate) fn clients_for(
    alloc: Global,
    key: &Key,
    connections: &[ConnectionState],
    entries: &[Entry],
) -> Result<HashMap<ConnectionId, Option<ClientId>>, AllocError>
    ensures { (c : ℕ) → IfOk result (λ made. client_seen made c ≡ spec.clients_for key.now connections.now entries.now c) }
{
    match key {
        Key::Durable(..) => clients_when(alloc, connections, entries),
        _ => Ok(HashMap::new(alloc)),
    }
}

/// The client identifier of the connection, where it has one.
pub(crate) fn client_of(
    clients: &HashMap<ConnectionId, Option<ClientId>>,
    id: ConnectionId,
) -> Option<&ClientId>
    ensures { option_copied result ≡ client_seen clients.now id }
{
    match clients.get(&id) {
        Some(Some(client)) => Some(client),
        _ => None,
    }
}

//! Copies of the parts of a core.

ghost use Rattle.std.specs.Prelude.{◌≡◌, ◌<◌, ◌&&◌, length, map, slice_index_or, IfOk};
ghost use Rattle.jm_machine.specs.Machine as machine;
ghost use Rattle.jm_stations.specs.Backlogs as backlogs;
ghost use Rattle.jm_stations.specs.Backlogs.{Backlog};
ghost use Rattle.jm_queues.specs.Queues.{rows_in};

use jm_base::List;
use jm_dest::{Key, Number, SessionId};
use jm_header::Message;
use jm_machine::find::same_session;
use jm_machine::{Definition, Station};
use jm_queues::queues::Queues;
use jm_stations::Stations;
use std::alloc::AllocError;

/// A copy of what is held for subscriptions, and of what queues hold.
pub fn copy_held(stations: &Stations, queues: &Queues) -> Result<(Stations, Queues), AllocError>
    ensures keys { IfOk result (λ x. x.0.keys ≡ stations.now.keys) }
    ensures list { IfOk result (λ x. x.0.list ≡ map backlogs.without_room stations.now.list) }
    ensures next_place { IfOk result (λ x. x.0.next_place ≡ stations.now.next_place) }
    ensures queues { IfOk result (λ x. rows_in x.1 ≡ rows_in queues.now) }
    ensures queue_place { IfOk result (λ x. x.1.next_place ≡ queues.now.next_place) }
{
    let stations = stations.copy()?;
    let queues = queues.copy()?;
    Ok((stations, queues))
}

/// A copy of the subscription of the key, of that definition, with the rows that stand at that index.
pub fn station_at(
    stations: &Stations,
    key: &Key,
    index: usize,
    definition: &Definition,
) -> Result<Station, AllocError>
    requires { index < length stations.now.list }
    ensures { (d : Backlog) → IfOk result (λ station. station ≡ record {
      key = key.now;
      definition = definition.now;
      missed = (slice_index_or stations.now.list index d).missed;
      rows = (slice_index_or stations.now.list index d).rows;
    }) }
{
    let rows = stations.rows_of(index)?;
    let definition = definition.copy()?;
    Ok(Station {
        key: key.copy()?,
        definition,
        missed: stations.missed(index),
        rows: List::new(rows),
    })
}

/// Whether each message was stamped by this session in this opening.
pub fn is_stamped(opening: Number, session: &SessionId, messages: &[Message]) -> bool
    ensures { result ≡ machine.is_stamped opening session.now messages.now }
{
    messages.iter().all(|message| {
        let sender = message.sender();
        sender.opening == opening && same_session(&sender.session, session)
    })
}

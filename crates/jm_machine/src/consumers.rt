ghost use Rattle.std.specs.Prelude.{◌≡◌};
ghost use Rattle.jm_machine.specs.Machine as machine;
ghost use Rattle.jm_machine.specs.Sections.{own_place};

use crate::find::same_session;
use jm_dest::{ConnectionId, ConsumerId, Key, SessionId};
use jm_indexed::Section;
use std::cmp::Ordering;

/// Consumers that a call is about: those of the sessions of a connection, those of a session, or one.
#[derive(Clone, Copy, Debug, PartialEq, Eq)]
pub enum Consumers {
    OfConnection(ConnectionId),
    OfSession(SessionId),
    One(SessionId, ConsumerId),
}

impl Consumers {
    /// Whether the session's consumer of that number is among them.
    pub fn include(&self, session: &SessionId, id: ConsumerId) -> bool
        ensures { result ≡ machine.are_meant self.now session.now id }
    {
        match self {
            Consumers::OfConnection(connection) => session.connection == *connection,
            Consumers::OfSession(of) => same_session(session, of),
            Consumers::One(of, number) => same_session(session, of) && id == *number,
        }
    }

    /// Where the session's consumer of that number stands to them: by connections, then by the numbers of sessions and of
    /// consumers.
    pub fn compare_own(&self, session: &SessionId, id: ConsumerId) -> Ordering
        ensures { result ≡ own_place self.now session.now id }
    {
        match self {
            Consumers::OfConnection(connection) => session.connection.cmp(connection),
            Consumers::OfSession(of) => session.cmp(of),
            Consumers::One(of, number) => session.cmp(of).then(id.cmp(number)),
        }
    }
}

/// The keys that are these consumers' own: they stand together in the order of the keys.
impl Section<Key> for Consumers {
    ghost use Rattle.jm_machine.specs.Sections.{key_place};
    ghost use Rattle.jm_machine.specs.SectionsRise.{place_rises};

    ghost place = { key_place };

    ghost monotone = { place_rises };

    fn compare(&self, key: &Key) -> Ordering {
        match key {
            Key::Queue(_) => Ordering::Less,
            Key::Own(session, id) => self.compare_own(session, *id),
            Key::SharedOwn(_, _) | Key::Durable(_, _) => Ordering::Greater,
        }
    }
}

//! Numbers that stand together in their order: those of the consumers that a call is about, and those of the sessions of a
//! connection.

use crate::number::ConsumerNumber;
use jm_dest::{ConnectionId, SessionId};
use jm_indexed::Section;
use jm_machine::Consumers;
use std::cmp::Ordering;

/// The numbers of these consumers.
impl Section<ConsumerNumber> for Consumers {
    ghost use Rattle.jm_machine.specs.Sections.{own_place};
    ghost use Rattle.jm_machine.specs.SectionsRise.{own_rises};

    ghost place = { λ which number. own_place which number.session number.consumer };

    ghost monotone = { λ which a b. own_rises which a.session a.consumer b.session b.consumer };

    fn compare(&self, key: &ConsumerNumber) -> Ordering {
        self.compare_own(&key.session, key.consumer)
    }
}

/// The sessions of one connection.
#[derive(Clone, Copy)]
pub(crate) struct SessionsOf {
    pub connection: ConnectionId,
}

impl Section<SessionId> for SessionsOf {
    ghost use Rattle.std.specs.Ordering.{nat_cmp};
    ghost use Rattle.std.proofs.lemmas.Cmp.{nat_cmp_total};
    ghost use Rattle.jm_indexed.proofs.Sections.{monotone_first};

    ghost place = { λ section id. nat_cmp id.connection section.connection };

    ghost monotone = { λ section a b. monotone_first nat_cmp_total a.connection b.connection section.connection _ };

    fn compare(&self, key: &SessionId) -> Ordering {
        key.connection.cmp(&self.connection)
    }
}

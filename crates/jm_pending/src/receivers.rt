//! Whom rows are out to, as far as it is known, so that what is done for other consumers need not look at them.

ghost use Rattle.std.specs.Prelude.{◌≡◌, true, false};
ghost use Rattle.jm_machine.specs.declared.state.RowState.{RowState};
ghost use Rattle.jm_machine.specs.declared.state.RowState.TheVariants.{Out, Waiting};
ghost use Rattle.jm_machine.specs.Machine.{are_meant};
ghost use Rattle.jm_machine.specs.Rows.{goes_out};
ghost use Rattle.jm_pending.specs.Receivers.{is_known};

use jm_dest::{ConsumerId, SessionId};
use jm_machine::{Consumers, RowState};

/// Whom the rows of a subscription are out to.
#[derive(Clone, Copy)]
pub(crate) enum Receivers {
    /// No row is out.
    Nobody,
    /// Each row that is out is out to the session through that consumer.
    One(SessionId, ConsumerId),
    /// Rows may be out to any.
    Any,
}

impl Receivers {
    /// Whether the rows that are out are out to the session through that consumer.
    fn is_one(&self, session: &SessionId, consumer: ConsumerId) -> bool
        ensures { result ≡ true → is_known self.now (Out session.now consumer) ≡ true }
    {
        match self {
            Receivers::One(to, through) => Consumers::One(*to, *through).include(session, consumer),
            Receivers::Nobody | Receivers::Any => false,
        }
    }

    /// Whether no row is out.
    pub(crate) fn is_nobody(&self) -> bool
        ensures { result ≡ true → (state : RowState) → is_known self.now state ≡ true → state ≡ Waiting }
    {
        matches!(self, Receivers::Nobody)
    }

    /// The same with one more row that is out to the session through that consumer.
    pub(crate) fn with_one(&self, session: &SessionId, consumer: ConsumerId) -> Receivers
        ensures row { is_known result (Out session.now consumer) ≡ true }
        ensures others { (other : RowState) → is_known self.now other ≡ true → is_known result other ≡ true }
    {
        if self.is_one(session, consumer) {
            return *self;
        }
        if self.is_nobody() {
            return Receivers::One(*session, consumer);
        }
        Receivers::Any
    }

    /// The same with one more row, in that state.
    pub(crate) fn with(&self, state: RowState) -> Receivers
        ensures row { is_known result state ≡ true }
        ensures others { (other : RowState) → is_known self.now other ≡ true → is_known result other ≡ true }
    {
        match state {
            RowState::Waiting => *self,
            RowState::Out(session, consumer) => self.with_one(&session, consumer),
        }
    }

    /// Whether a row may be out through one of those consumers.
    pub(crate) fn include(&self, which: &Consumers) -> bool
        ensures { result ≡ false → (state : RowState) → is_known self.now state ≡ true → goes_out (are_meant which.now) state ≡ false }
    {
        match self {
            Receivers::Nobody => false,
            Receivers::One(session, consumer) => which.include(session, *consumer),
            Receivers::Any => true,
        }
    }

    /// The same once no row is out through those consumers, of whom it may have been one.
    pub(crate) fn without(&self, which: &Consumers) -> Receivers
        ensures { (state : RowState) → is_known self.now state ≡ true → goes_out (are_meant which.now) state ≡ false → is_known result state ≡ true }
    {
        match self {
            Receivers::One(session, consumer) => {
                if which.include(session, *consumer) {
                    Receivers::Nobody
                } else {
                    *self
                }
            }
            Receivers::Nobody | Receivers::Any => *self,
        }
    }
}

//! How many sends of each session were stamped.

ghost use Rattle.std.specs.Prelude.{◌≡◌, ◌+◌, ◌<◌, ◌≤◌, ◌^◌, IfOk, OnErr, IsOk, IfNone, IfSome};
ghost use Rattle.jm_machine.specs.Client.{one_more};
ghost use Rattle.jm_session.specs.Sends.{none_sent, room, sent_of};

use jm_dest::SessionId;
use std::alloc::{AllocError, Global};
use std::collections::HashMap;

/// How many sends of each session were stamped. Contracts see it as a function from sessions to
/// numbers (`sent_of`), and for how many more sends there is `room`.
#[derive(Drop)]
pub struct Sends {
    numbers: HashMap<SessionId, u64>,
}

impl Sends {
    /// No send was stamped. Takes no memory.
    #[tactic(auto, using(crate::proofs::Counts::nothing_noted))]
    pub fn new(alloc: Global) -> Sends
        ensures { sent_of result ≡ none_sent }
    {
        Sends {
            numbers: HashMap::new(alloc),
        }
    }

    /// No send was stamped, and there is room for that many. `AllocError` where a request for memory
    /// was refused.
    #[tactic(auto, using(crate::proofs::Counts::nothing_noted), unfolding(crate::specs::Sends::room))]
    pub fn with_capacity(alloc: Global, sends: usize) -> Result<Sends, AllocError>
        ensures sent { IfOk result (λ made. sent_of made ≡ none_sent) }
        ensures room { IfOk result (λ made. sends ≤ room made) }
    {
        Ok(Sends {
            numbers: HashMap::with_capacity(alloc, sends)?,
        })
    }

    /// How many sends of the session were stamped.
    #[tactic(auto, unfolding(crate::specs::Sends::sent_of))]
    fn sent(&self, session: &SessionId) -> u64
        ensures { result ≡ sent_of self.now session.now }
    {
        self.numbers.get(session).copied().unwrap_or(0)
    }

    /// The number of the session's next send, from 1 on. `None` where its count is at its end,
    /// 18,446,744,073,709,551,615.
    pub fn next_number(&self, session: &SessionId) -> Option<u64>
        ensures number { IfSome result (λ number. number ≡ sent_of self.now session.now + 1) }
        ensures end { IfNone result (sent_of self.now session.now + 1 ≡ 2 ^ 64) }
    {
        self.sent(session).checked_add(1)
    }

    /// Counts one more send of the session, whose count is not at its end (`next_number` gives one).
    /// `AllocError` where a request for memory was refused, which comes only at its first send, and not
    /// where there is room; then all counts are as before.
    #[tactic(auto, using(crate::proofs::Counts::counting), unfolding(crate::specs::Sends::room))]
    pub fn count(&mut self, session: &SessionId) -> Result<(), AllocError>
        requires { sent_of self.old session.now + 1 < 2 ^ 64 }
        ensures ok { IfOk result (λ _. sent_of self.new ≡ one_more session.now (sent_of self.old)) }
        ensures err { OnErr result (sent_of self.new ≡ sent_of self.old) }
        ensures first { OnErr result (sent_of self.old session.now ≡ 0) }
        ensures succeeds { 0 < room self.old → IsOk result }
        ensures room { room self.old ≤ room self.new + 1 }
    {
        let number = self.sent(session) + 1;
        self.numbers.insert(*session, number)?;
        Ok(())
    }
}

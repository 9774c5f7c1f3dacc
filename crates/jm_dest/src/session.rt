ghost use Rattle.std.specs.Prelude.{◌≡◌, ◌≤◌, MatchResult};
ghost use Rattle.jm_base.specs.declared.refusal.Refusal.TheVariants.{OutOfRange};

use crate::number::{ConnectionId, Number};
use jm_base::Refusal;

/// A session: its connection, and its number in that connection, chosen by the caller (ours).
#[derive(Clone, Copy, Debug, PartialEq, Eq, PartialOrd, Ord, Hash)]
pub struct SessionId {
    pub connection: ConnectionId,
    pub number: Number,
}

impl SessionId {
    /// The session of that number in the connection. `OutOfRange` exactly where the number is 0.
    pub fn new(connection: ConnectionId, number: u32) -> Result<SessionId, Refusal>
        ensures { MatchResult result
            (λ id. (id.connection ≡ connection) × (id.number ≡ number) × (1 ≤ number))
            (λ refusal. (refusal ≡ OutOfRange) × (number ≡ 0)) }
    {
        let number = Number::new(number)?;
        Ok(SessionId { connection, number })
    }
}

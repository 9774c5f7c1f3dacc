ghost use Rattle.std.specs.Prelude.{◌≡◌, ◌≤◌, MatchResult};
ghost use Rattle.jm_base.specs.declared.refusal.Refusal.TheVariants.{OutOfRange};

use jm_base::Refusal;
use std::marker::Model;

/// A number of an opening, connection, session or consumer: 1 to 4,294,967,295 (ours).
#[derive(Clone, Copy, Debug, PartialEq, Eq, PartialOrd, Ord, Hash)]
pub struct Number {
    value: u32,
}

impl Model for Number {
    ghost use Rattle.std.specs.Prelude.{ℕ, ◌≤◌};
    ghost use Rattle.std.specs.Coded.{coded_ℕ};

    ghost Value = { ℕ };

    ghost coded = { coded_ℕ };

    ghost view = { λ n. n.value };

    ghost invariant = { λ n. 1 ≤ n.value };

    ghost inverse = { λ n. record { value = n } };
}

impl Number {
    /// The number. `OutOfRange` exactly where it is 0.
    pub fn new(value: u32) -> Result<Number, Refusal>
        ensures { MatchResult result (λ number. (number ≡ value) × (1 ≤ value)) (λ refusal. (refusal ≡ OutOfRange) × (value ≡ 0)) }
    {
        if value == 0 {
            return Err(Refusal::OutOfRange);
        }
        Ok(Number { value })
    }

    /// The number as it was given.
    pub fn get(self) -> u32
        ensures value { result ≡ self }
        ensures positive { 1 ≤ result }
    {
        self.value
    }
}

/// The number of a connection, chosen by the caller (ours).
#[derive(Clone, Copy, Debug, PartialEq, Eq, PartialOrd, Ord, Hash)]
pub struct ConnectionId {
    number: Number,
}

impl Model for ConnectionId {
    ghost use Rattle.std.specs.Prelude.{ℕ};
    ghost use Rattle.std.specs.Coded.{coded_ℕ};

    ghost Value = { ℕ };

    ghost coded = { coded_ℕ };

    ghost view = { λ c. c.number };

    ghost inverse = { λ n. record { number = n } };
}

impl ConnectionId {
    /// The connection of that number. `OutOfRange` exactly where it is 0.
    pub fn new(number: u32) -> Result<ConnectionId, Refusal>
        ensures { MatchResult result (λ id. (id ≡ number) × (1 ≤ number)) (λ refusal. (refusal ≡ OutOfRange) × (number ≡ 0)) }
    {
        let number = Number::new(number)?;
        Ok(ConnectionId { number })
    }

    /// The number as it was given.
    pub fn get(self) -> u32
        ensures value { result ≡ self }
        ensures positive { 1 ≤ result }
    {
        self.number.get()
    }
}

/// The number of a consumer in its session, chosen by the caller (ours).
#[derive(Clone, Copy, Debug, PartialEq, Eq, PartialOrd, Ord, Hash)]
pub struct ConsumerId {
    inner: Number,
}

impl Model for ConsumerId {
    ghost use Rattle.std.specs.Prelude.{ℕ};
    ghost use Rattle.std.specs.Coded.{coded_ℕ};

    ghost Value = { ℕ };

    ghost coded = { coded_ℕ };

    ghost view = { λ c. c.inner };

    ghost inverse = { λ n. record { inner = n } };
}

impl ConsumerId {
    /// The consumer of that number. `OutOfRange` exactly where it is 0.
    pub fn new(number: u32) -> Result<ConsumerId, Refusal>
        ensures { MatchResult result (λ id. (id ≡ number) × (1 ≤ number)) (λ refusal. (refusal ≡ OutOfRange) × (number ≡ 0)) }
    {
        let inner = Number::new(number)?;
        Ok(ConsumerId { inner })
    }

    /// The number as it was given.
    pub fn get(self) -> u32
        ensures value { result ≡ self }
        ensures positive { 1 ≤ result }
    {
        self.inner.get()
    }
}

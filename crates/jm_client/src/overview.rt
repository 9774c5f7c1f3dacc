//! How much a provider holds.

/// How much is open in a provider, and how much it holds.
#[derive(Clone, Copy, Debug, PartialEq, Eq)]
pub struct Overview {
    /// The connections that are open.
    pub connections: usize,
    /// The sessions that are open.
    pub sessions: usize,
    /// The consumers that are open.
    pub consumers: usize,
    /// The subscriptions, durable or not.
    pub subscriptions: usize,
    /// The messages that subscriptions hold, waiting or out, each counted once.
    pub held: usize,
    /// The messages that queues hold, waiting or out.
    pub queued: usize,
}

//! What the turns of all jobs pass through.

/// What the turns of all jobs pass through: it may count them, or hold one until another got further (ours).
pub trait Gate {
    /// The job of that number, from 0, begins its turn of that number, from 0.
    fn enter(&self, job: usize, turn: u64);
}

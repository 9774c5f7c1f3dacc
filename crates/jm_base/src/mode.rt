/// How a session acknowledges what its consumers receive (Jakarta Messaging 3.1, section 6.2.10).
#[derive(Clone, Copy, Debug, PartialEq, Eq)]
pub enum Mode {
    /// A message is settled in the same step in which it is delivered.
    Auto,
    /// A message stays out to the session until the client acknowledges, which settles all that are out to it.
    Client,
    /// As `Auto`: duplicates, which this mode allows, do not come (ours).
    Dups,
    /// What is received stays out to the session until it commits, which settles it, or rolls back; what is sent
    /// goes out with the commit (Jakarta Messaging 3.1, section 6.2).
    Transacted,
}

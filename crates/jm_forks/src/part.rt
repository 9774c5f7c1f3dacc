use jm_base::List;
use jm_machine::ClientCall;

/// A part of a scenario (ours).
#[derive(Drop)]
pub enum Part {
    /// A call outside forks.
    Alone(ClientCall),
    /// The calls between a fork and its join, or the end of the items.
    Together(List<ClientCall>),
}

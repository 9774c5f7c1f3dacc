use jm_shared::{SharedBytes, SharedStr};

/// The body of a message: none, a text or bytes (Jakarta Messaging 3.1, section 3.11).
#[derive(Clone, Debug, PartialEq, Drop)]
pub enum Body {
    None,
    Text(SharedStr),
    Bytes(SharedBytes),
}

//! What an opening hands back.

use crate::judged::OpenFault;
use sqlite::{Alter, Connection};

/// A store that is open.
#[derive(Drop)]
pub struct Opened<S: Alter + Drop> {
    /// The connection, in no transaction.
    pub conn: Connection<S>,
    /// The number of this opening, from 1 to 4,294,967,295.
    pub opening: u32,
}

/// What is left of a store that was not opened.
#[derive(Drop)]
pub enum Left<S: Alter + Drop> {
    /// The connection, settled, in no transaction.
    Settled(Connection<S>),
    /// The store alone, which could not be settled.
    Shut(S),
}

/// A store that was not opened, and why.
#[derive(Drop)]
pub struct Unopened<S: Alter + Drop> {
    pub fault: OpenFault,
    pub left: Left<S>,
}

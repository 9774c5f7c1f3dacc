//! One unshared topic subscription alone: what it holds, what it answers to the calls of its own sessions, and how the
//! publications come to it. A consumer's own subscription and a durable one that is not shared are held alike.
//!
//! # Contract
//!
//! `Lone` is seen exactly as the subscription alone of the definitions: the limit of its rows, its own connections,
//! sessions and consumers as plain lists, its definition, how many publications it missed, and its rows. `of` is
//! `lone_of`; `ask` answers `lone_told` and leaves `lone_after` of every call that asks for no shared subscription of
//! the key; `settle`, `bring` and `accepts` are what a commit and a publication do.
//!
//! The consumers carry their marks, and `ask` answers the calls of listeners too. Where memory is wanted all is as
//! before. `bring` wants it only below the limit, where the message comes as a row: what is missed at the limit takes
//! none.
#![tactic(auto)]

mod ask;
mod known;
mod lone;
mod marks;
mod parts;

pub use lone::Lone;

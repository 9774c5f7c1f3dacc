//! The tables of the store, and what their rows stand for.
//!
//! # Contract
//!
//! The texts that make the tables of version 2 and their index, and what each defines.
//!
//! Its specs say the schemas of both versions, which key and definition a row stands for, what a database stores
//! (`stored_in`, where keys are compared as keys and not by their columns), when it serves a store (`Serves`), and
//! which file may be loaded (`IsValid`): each row is one that a store may have, and what a row of held or of delayed
//! speaks of is a message (`IsStoredHeld`, `IsStoredDelay`).
#![tactic(auto)]

mod texts;

pub use texts::{delayed, held, held_by_place, message, meta, station};

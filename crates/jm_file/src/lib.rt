//! The provider of a store: one that a service embeds, whose persistent messages and durable subscriptions outlast the process.
//!
//! # Contract
//!
//! `connect` opens the files at a path, or tells Memory or Store; `open` makes a provider over the store of a
//! connection, which is `jm_store::open` and then `Provider::over`, so that what its lock carries by its type holds
//! of the store. A refusal hands back what is left, and the fault is that of `jm_store::open` (`IsLeft`); a crash leaves
//! what it could leave before, or the opened database (`stop`, with `LeavesOf` of `jm_opening`).
#![tactic(auto)]

mod opening;

pub use jm_store::{Left, OpenFault, Store, TableName, Unopened};
pub use opening::{StoreFile, connect, open};

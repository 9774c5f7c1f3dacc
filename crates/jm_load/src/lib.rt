//! A store is loaded (ours): the rows of its tables, which are read, decoded and made a core again.
//!
//! # Contract
//!
//! `load`: where the disk is clean, all was committed and the database serves a store (`Serves`), a core of that
//! opening, with the limit that was given, of which just that is stored what the tables hold (`IsPersisted` of
//! `stored_in`), and each row of which holds a message that its key may hold (`holds`, with `HoldsMessages` of
//! `jm_holds`). Of the tables it says then that each row by itself is one of a store's (`read`, with `AreReadRows`); with
//! the row of meta that an opening leaves, that is a keeper's `HasOwnRows`. Whatever it tells, nothing of the database is
//! changed, and a crash leaves what it could leave before.
//!
//! A refusal is the first fault of the database (`IsFaultOf`): as Damaged, the row that is named is the first, in the
//! order station, message, held, delayed, and in each by its key, that a store may not have (`IsStation`,
//! `IsStoredMessage`, `IsStoredHeld`, `IsStoredDelay`, where the earlier tables have none); or all rows are such rows
//! and it is the first message that nobody holds or that is delayed and has no row (`IsKept`).
//!
//! Memory and Store may come in place of any; no other fault does. So a database that has only what a store may have
//! (`IsWhole`) is never told as Damaged (`whole`). That is what a valid database (`IsValid`) has beside its row of
//! meta (the lemmas `valid_is_whole` and `whole_is_valid`), and an opening leaves a valid one whole (`opened_whole`).
#![tactic(auto)]

mod decoding;
mod loading;
mod making;
mod reading;

pub use loading::load;

//! Texts and bytes that are made once and have several owners: a copy is one owner more, and takes no memory.
//!
//! # Contract
//!
//! `SharedStr` is seen as the bytes of its text, `SharedBytes` as its bytes. Neither ever changes, so no owner sees more of the
//! others than that memory goes when the last one does. `from_str`, `from_string`, `from_slice` and `from_vec` want memory, and
//! are equal to what they are made of; `clone` and `copy` are equal to what they copy, make no request for memory, and are
//! refused (`AllocError`) only to what has 9,223,372,036,854,775,807 owners. Two are equal (`==`), ordered and hashed by their
//! bytes, whoever their owners are. Both may cross threads and be shared by them, since they own a text or bytes behind a
//! count that threads share.
//!
//! A text has two blocks of memory, one with the count of its owners and one with its bytes, and 8 bytes in each owner.
#![tactic(auto)]

mod bytes;
mod text;
mod threads;

pub use bytes::SharedBytes;
pub use text::SharedStr;

//! The subscriptions of topics: which of them accept a message. A subscription is found by its key, and those that may
//! accept a message by their channels, so that a publication costs what the subscriptions of its channels cost,
//! however many others there are.
//!
//! # Contract
//!
//! `Subs` is seen as the list of subscriptions (key and definition) in order of creation, and the room that is left.
//!
//! `decide_create` answers a consumer's own new subscription of the topic, the selector's text and `no_local`, or
//! refuses exactly what `selector_refusal` does, and leaves the list; `decide_named` is for those that have a name:
//! told whether a consumer of the key is active and whether a row is out, it answers none where the subscription
//! stands as it is asked for, and else the new one; it refuses what `selector_refusal` does, and then as
//! SubscriptionInUse what the machine's `may_resume`, `may_join` or `may_share` does, as the kind is (`Sharing`), and
//! leaves the list too.
//!
//! `decide` is for a definition that is handed in as it stands, as one that was stored: it answers the new
//! subscription and takes the room, and leaves the list. `decide_unsubscribe` says why the one of a key is not
//! deleted, told the same, and takes no memory.
//!
//! `apply` puts a new one last, in place of any other of its key, `delete` ends the one of a key, and neither takes
//! memory; `definition_of` finds by halves under a key what its subscription asks for; `accepting_places` answers where
//! those stand that accept a message, published on the connection of its sender, whose client is handed in: from 0, in
//! that order; `accepting` gives their keys; `accepts_at` says it of one, and takes no memory; `close` ends those
//! subscriptions that end once consumers are closed (`ended`), and takes none.
//!
//! `topics` is the number of distinct topics of the definitions (`number_of_topics`), counted in a walk over all, which looks
//! behind each for another of its topic.
//!
//! Inside, a subscription is found by halves by its key. It stands in a channel: that of its topic and of the literal that
//! its selector asks by `=` of every message (`Selector::literal`), or of its topic and no literal. The channels stand in a
//! list of their own, that of each subscription at its index (an invariant of the type), in which the indexes of all that are
//! equal are found together (`GroupedList`). So `position` does not scan, and `accepting_places` evaluates the selectors of two
//! kinds of channels alone: that of the message's topic and no literal, and that of its topic and each literal of the message
//! (`literals`). A subscription of any other channel asks for a literal that the message lacks, and does not accept it
//! (`law_literal`). The places of those that want the message are put in order where they are not. No key is looked for.
//!
//! `delete`, `apply` where the key stood before, and `close` of one consumer look for one key. `close` of those of a session
//! or a connection finds their own subscriptions one by one, since these stand together in the order of the keys (`Section`).
//! Only where a subscription is shared and not durable does a `close` look at all keys. What ends is taken out of the
//! list and of the channels at its index, and no other moves. That no other is looked at is read in the code, not proved.
#![tactic(auto)]

mod accepting;
mod channel;
mod definition;
mod sharing;
mod subs;

pub use definition::{accepts, defined, is_same};
pub use sharing::Sharing;
pub use subs::{Decision, Subs};

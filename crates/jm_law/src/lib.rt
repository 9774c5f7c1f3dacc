//! The law of isolation, and what leads on from one list of calls to the next: statements of definitions alone, proved.
//!
//! # Contract
//!
//! `law_isolation` is the law, over the definitions alone, `law_isolation_of_events` the same over legal lists of
//! events, and `law_isolation_of_runs` of what a run owes; `law_two_worlds` and `law_two_worlds_of_events`: equal
//! feeds from equal beginnings are answered alike. `law_reached`, `law_events_reached` and `law_runs_fit` lead the
//! law on to every list that a run makes.
//!
//! `law_one_place`, `law_queue` and `law_subscription` say where each message is that came to a queue or to a
//! subscription, from any reached state, and `law_runs_are_steps` that a run of clients' calls is a list of steps;
//! `law_one_consumer` says that an unshared durable subscription has one active consumer at most. The laws hold over
//! the calls of listeners, too.
#![tactic(auto)]

mod law;

pub use law::{
    law_events_reached, law_isolation, law_isolation_of_events, law_isolation_of_runs,
    law_one_consumer, law_one_place, law_queue, law_reached, law_runs_are_steps, law_runs_fit,
    law_subscription, law_two_worlds, law_two_worlds_of_events,
};

//! What is left of a run when the calls are taken out that count as not made: laws, over definitions alone, each proved on a
//! public function that does nothing.
//!
//! # Contract
//!
//! `law_refused`: steps that count as not made, for want of memory or as the store refused, can be taken out of a
//! list with their replies, and what is left fits and leads to the same state (`StepsAreTakenOut`). `law_accepted`: a step
//! that was accepted cannot be taken out so (`AcceptedStepsStay`).
//!
//! `law_refused_calls` says it of clients' calls, where numbers of sends may be passed over (`FitPassingOver`): a
//! send that was refused so may have used its number; `law_refused_requests` where no send was refused so, and no
//! number is passed over.
#![tactic(auto)]

mod law;

pub use law::{law_accepted, law_refused, law_refused_calls, law_refused_requests};

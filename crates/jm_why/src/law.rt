//! The law of causes.

ghost use Rattle.jm_why.specs.Why.{CausesExplain};

/// The law of causes, proved; the function itself does nothing.
///
/// A call that is refused as `IllegalState` or as `SubscriptionInUse` has a cause of that refusal, and no other call has one.
pub fn law_explained()
    ensures { CausesExplain }
{}

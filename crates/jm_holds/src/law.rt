ghost use Rattle.jm_holds.specs.Holds.{EventsHold, NewHolds, StepsHold};

/// The law of a new core, proved; the function itself does nothing.
///
/// A new core holds nothing, and so each row of it holds what it may.
pub fn law_new_holds()
    ensures { NewHolds }
{}

/// The law of what a step leaves in the rows, proved; the function itself does nothing.
///
/// Take any state each of whose rows holds a message that its queue or its subscription may hold, and any call, of which
/// each message that it publishes is one. Each row of the state after it holds such a message too, whether the call was
/// accepted or refused.
pub fn law_steps_hold()
    ensures { StepsHold }
{}

/// The law of what events leave in the rows, proved; the function itself does nothing.
///
/// The same of any list of events, of which each message that they publish is one.
pub fn law_events_hold()
    ensures { EventsHold }
{}

ghost use Rattle.jm_refused.specs.Refused.{AcceptedStepsStay, CallsAreTakenOut, RequestsAreTakenOut, StepsAreTakenOut};

/// The law of refused steps, proved; the function itself does nothing.
///
/// Take replies that fit a list of steps: each is the machine's, or a want of memory or a refusal of the store that leaves the
/// state as it was. Without the steps that were refused so, and their replies, the replies that are left fit as well, and lead
/// to the same state. So nothing of such a step is left, whatever was asked after it.
pub fn law_refused()
    ensures { StepsAreTakenOut }
{}

/// That no more can be taken out, proved; the function itself does nothing.
///
/// A law that would take out a step that was accepted, as it takes out a refused one, is none: what a new core answers to the
/// opening of a connection leads to a state in which it is open, and without that step no replies lead there.
pub fn law_accepted()
    ensures { AcceptedStepsStay }
{}

/// The law of refused calls, proved; the function itself does nothing.
///
/// Take replies that fit a list of clients' calls. Without the calls that were refused for want of memory or by the store, and
/// their replies, the replies that are left fit where numbers of sends may be passed over, and lead to the same end: a send
/// that was refused so may have used its number, and what is sent after it has the numbers that it would have had then.
/// Nothing else is left of such a call.
pub fn law_refused_calls()
    ensures { CallsAreTakenOut }
{}

/// The law of refused requests, proved; the function itself does nothing.
///
/// The same where no send was refused for want of memory or by the store: then no number is passed over, and the replies
/// that are left fit the calls that are left.
pub fn law_refused_requests()
    ensures { RequestsAreTakenOut }
{}

ghost use Rattle.jm_reopened.specs.Given.{ReopenedIsGiven};

/// The law of reopening, proved; the function itself does nothing.
///
/// Where somebody holds each message, what is stored of a core that `Core::reopen` makes is what it was made of: the
/// definitions, the rows under each key with their counts, and the records of the messages.
pub fn law_reopened()
    ensures { ReopenedIsGiven }
{}

ghost use Rattle.jm_machine.specs.Isolation.{EventsReach, Isolation, IsolationOfEvents, IsolationOfRuns, RunsFit, RunsReach, TwoWorlds, TwoWorldsOfEvents};
ghost use Rattle.jm_machine.specs.Places.{OnePlaceEach};
ghost use Rattle.jm_machine.specs.Queues.{QueueKeeps};
ghost use Rattle.jm_law.specs.OneConsumer.{OneConsumerEach};
ghost use Rattle.jm_law.specs.Runs.{RunsAreSteps};
ghost use Rattle.jm_law.specs.Subscriptions.{SubscriptionKeeps};

/// The law of isolation, proved; the function itself does nothing.
///
/// Take any state that the provider reaches, any list of calls of any sessions, and any replies that fit
/// it: each the machine's, or a want of memory or a refusal of the store that leaves the state as it was. Then the replies to the
/// calls of an unshared topic subscription, each at its place, are those that this subscription answers
/// alone, fed with the calls of its own sessions, with the accepted calls of those sessions' connections,
/// and with the committed publications that it accepts. Nothing else in the run has any part in them.
pub fn law_isolation()
    ensures { Isolation }
{}

/// The law of isolation over events, proved; the function itself does nothing.
///
/// Take any state that the provider reaches, and any list of events that is legal from it: each reply is the machine's.
/// Where publications and commits that were accepted are read as the messages that they carried, and each commit as one
/// more entry behind its messages, the law of isolation holds of what is read.
pub fn law_isolation_of_events()
    ensures { IsolationOfEvents }
{}

/// The law of isolation over a run, proved; the function itself does nothing.
///
/// Take any state that the provider reaches, any list of calls, and what `Core::run` owes to it from there. Then at each
/// key that is unshared in the record of the run, and whose numbers it keeps, the replies to the key's calls are those of
/// its subscription alone.
pub fn law_isolation_of_runs()
    ensures { IsolationOfRuns }
{}

/// The law of two worlds, proved; the function itself does nothing.
///
/// Take two lists of calls, each from a state that the provider reaches, with replies that fit, and an unshared topic
/// subscription that starts with the same in both and is fed the same. Then its sessions get the same replies to its
/// calls, in the same order. So whatever others send in transactions that are open at the end or rolled back, what the
/// subscription does not accept, and all that concerns other consumers alone, changes none of them.
pub fn law_two_worlds()
    ensures { TwoWorlds }
{}

/// The law of two worlds over events, proved; the function itself does nothing.
///
/// The same of two lists of events, each legal from a state that the provider reaches.
pub fn law_two_worlds_of_events()
    ensures { TwoWorldsOfEvents }
{}

/// The law that runs lead on, proved; the function itself does nothing.
///
/// Replies that fit a list of calls lead from a state that the provider reaches to one that it reaches. So
/// the law of isolation holds of a list that is run on the end of another.
pub fn law_reached()
    ensures { RunsReach }
{}

/// The law that events lead on, proved; the function itself does nothing.
///
/// A legal list of events leads from a state that the provider reaches to one that it reaches. So the laws over events
/// hold of the events that follow.
pub fn law_events_reached()
    ensures { EventsReach }
{}

/// The law that runs fit, proved; the function itself does nothing.
///
/// What `Core::run` owes to a list of calls are replies that fit it. So the laws of isolation and of runs
/// that lead on hold of it.
pub fn law_runs_fit()
    ensures { RunsFit }
{}

/// The law of one place, proved; the function itself does nothing.
///
/// In each state that the provider reaches a message stands at most once in each queue and in each subscription, a
/// shared one too. So it waits there, or is out to one session through one consumer, and to no second one.
pub fn law_one_place()
    ensures { OnePlaceEach }
{}

/// The law of a queue, proved; the function itself does nothing.
///
/// Over each list of steps from a state that the provider reaches, each message that a queue held or that came to it is
/// in exactly one place: it is held there, waiting or out to one session, or it was settled once, by an acknowledgement,
/// a commit, a receipt that settles at once or a listener that is done with it, or it was dropped once as expired. None is
/// lost, none comes twice, and none stands in another's stead.
pub fn law_queue()
    ensures { QueueKeeps }
{}

/// The law of one consumer, proved; the function itself does nothing.
///
/// In each state that the provider reaches an unshared durable subscription has at most one active consumer (Jakarta
/// Messaging 3.1, section 8.3.3).
pub fn law_one_consumer()
    ensures { OneConsumerEach }
{}

/// The law of a subscription, proved; the function itself does nothing.
///
/// Over each list of steps from a state that the provider reaches, each message that a subscription held or that came to it,
/// a shared one too, is in exactly one place: it is held there, waiting or out to one session, or it was settled once, or it
/// was dropped once as expired, or it went once with the subscription, which ended or was replaced. None is lost, none
/// comes twice, and none stands in another's stead.
pub fn law_subscription()
    ensures { SubscriptionKeeps }
{}

/// The law that runs are steps, proved; the function itself does nothing.
///
/// The record of a run of clients' calls is a list of steps that leads from its opening to its end: each request that was
/// made, each publication, and each commit with what its session sent in its transaction. So the laws of a queue and of a
/// subscription hold over runs.
pub fn law_runs_are_steps()
    ensures { RunsAreSteps }
{}

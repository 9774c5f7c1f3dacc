ghost use Rattle.jm_keep.specs.Apart.{QueuesApart, ReachedInOrder};
ghost use Rattle.jm_keep.specs.Calls.{ChangesLead, RefusedLeads};
ghost use Rattle.jm_keep.specs.Leads.{ChangesChain, CountLeads, DropsLead, NothingLeads, PutsLead, StationLeads};
ghost use Rattle.jm_keep.specs.Steps.{CountedReceiveLeads, DeleteLeads, DoneLoses, NewStoresNothing, PublishGains, PutLeads, ReceiveLoses, ReturnStores, SettleLoses};

/// The law of what goes, proved; the function itself does nothing.
///
/// Where a state loses stored rows, and with them each message of which no stored row is left, the changes lead there
/// that drop those rows and then those messages.
pub fn law_drops()
    ensures { DropsLead }
{}

/// The law of what comes, proved; the function itself does nothing.
///
/// Where a message comes to a state under some keys, at a place that is free, the changes lead there that put the message
/// and then its rows.
pub fn law_puts()
    ensures { PutsLead }
{}

/// The law of changes in turn, proved; the function itself does nothing.
///
/// Changes that lead from one state to a second, and then others that lead on to a third, lead from the first to the third.
pub fn law_chain()
    ensures { ChangesChain }
{}

/// The law of a receive that settles at once, proved; the function itself does nothing.
///
/// Of a lasting key it loses the stored rows that have lapsed, and the one that is taken.
pub fn law_receive()
    ensures { ReceiveLoses }
{}

/// The law of a receive that does not settle, proved; the function itself does nothing.
///
/// Of a lasting key it loses the stored rows that have lapsed, and counts the one that goes out, where that is stored.
pub fn law_receive_counted()
    ensures { CountedReceiveLeads }
{}

/// The law of a publication, proved; the function itself does nothing.
///
/// A PERSISTENT message comes to the keys that take it, at the next place.
pub fn law_publish()
    ensures { PublishGains }
{}

/// The law of what stays, proved; the function itself does nothing.
///
/// Where the same is stored of two states, no changes lead from one to the other.
pub fn law_nothing()
    ensures { NothingLeads }
{}

/// The law of a count, proved; the function itself does nothing.
///
/// Where the count of one stored row alone differs, the change leads there that sets it.
pub fn law_count()
    ensures { CountLeads }
{}

/// The law of a subscription, proved; the function itself does nothing.
///
/// Where one durable subscription alone differs, and no row, the change leads there that drops it or puts it.
pub fn law_station()
    ensures { StationLeads }
{}

/// The law of what is settled, proved; the function itself does nothing.
///
/// An acknowledgement and a commit lose the stored rows that are out to the session.
pub fn law_settle()
    ensures { SettleLoses }
{}

/// The law of a listener that is done with its message, proved; the function itself does nothing.
///
/// Where that settles it, the stored rows of its consumer's key are lost that are out through this consumer.
pub fn law_done()
    ensures { DoneLoses }
{}

/// The law of what is given back, proved; the function itself does nothing.
///
/// A row that waits again is stored as before.
pub fn law_return()
    ensures { ReturnStores }
{}

/// The law of a new core, proved; the function itself does nothing.
///
/// Of a new core nothing is stored.
pub fn law_new()
    ensures { NewStoresNothing }
{}

/// The law of a subscription that is deleted, proved; the function itself does nothing.
///
/// A durable subscription loses its rows, and then goes itself.
pub fn law_delete()
    ensures { DeleteLeads }
{}

/// The law of a subscription that is made, proved; the function itself does nothing.
///
/// A durable subscription that is put where none is comes as it is defined, without rows.
pub fn law_put()
    ensures { PutLeads }
{}

/// The law of queues apart, proved; the function itself does nothing.
///
/// In each state that the provider reaches a message that is held in a queue is in no other queue, and in no subscription.
/// So it goes with its row there.
pub fn law_apart()
    ensures { QueuesApart }
{}

/// The law of order, proved; the function itself does nothing.
///
/// In each state that the provider reaches the rows of each queue and of each subscription stand by place, below the next
/// place.
pub fn law_order()
    ensures { ReachedInOrder }
{}

/// The law of changes, proved; the function itself does nothing.
///
/// Take any state whose rows stand in order, and any call that is not refused. The changes that this call asks for lead
/// from what is stored of the state before it to what is stored of the state after it. A publication, a commit, a receive
/// on a started connection from a queue or a durable subscription, a listener's take as well, an acknowledgement in mode
/// `Client`, in modes `Auto` and `Dups` a listener that is done and settles its message, the making of a durable subscription
/// and its end ask for changes, and every other call for none.
pub fn law_changes()
    ensures { ChangesLead }
{}

/// The law of refusals, proved; the function itself does nothing.
///
/// A call that is refused changes nothing of what is stored.
pub fn law_refused()
    ensures { RefusedLeads }
{}

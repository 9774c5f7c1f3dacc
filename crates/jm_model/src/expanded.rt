//! The record of a list of events.

ghost use Rattle.std.specs.Prelude.{◌≡◌, ◌++◌, ◌∷◌, [], IfOk, OnOk};
ghost use Rattle.jm_machine.specs.Entries as spec;
ghost use Rattle.jm_machine.specs.declared.entry.Entry.TheVariants.{Asked, Committed};

use crate::recorded::is_not_made;
use jm_dest::SessionId;
use jm_header::Message;
use jm_machine::{Call, Entry, Event, Reply, Request, Who, copy_reply};
use std::alloc::{AllocError, Global};

/// Adds the call with its reply, unless it counts as not made.
fn add_request(
    entries: &mut Vec<Entry>,
    who: Who,
    request: &Request,
    reply: &Reply,
) -> Result<(), AllocError>
    ensures { OnOk result (entries.new.items ≡ entries.old.items ++ spec.step_entries who (Call.Ask request.now) reply.now) }
{
    if !is_not_made(reply) {
        entries.push(Entry::Asked {
            who,
            request: request.copy()?,
            reply: copy_reply(reply)?,
        })?;
    }
    Ok(())
}

/// Adds the messages, in their order.
fn add_messages(entries: &mut Vec<Entry>, messages: &[Message]) -> Result<(), AllocError>
    ensures { OnOk result (entries.new.items ≡ entries.old.items ++ spec.sent_entries messages.now) }
{
    for message in messages {
        entries.push(Entry::Sent(message.copy()?))?;
    }
    Ok(())
}

/// Adds the messages of the session's commit, and the commit behind them.
fn add_commit(
    entries: &mut Vec<Entry>,
    session: SessionId,
    messages: &[Message],
) -> Result<(), AllocError>
    ensures { OnOk result (entries.new.items
        ≡ entries.old.items ++ spec.sent_entries messages.now ++ Entry.Committed session ∷ []) }
{
    add_messages(entries, messages)?;
    entries.push(Entry::Committed(session))?;
    Ok(())
}

/// Adds what the event leaves in the record.
fn add_event(entries: &mut Vec<Entry>, event: &Event) -> Result<(), AllocError>
    ensures { OnOk result (entries.new.items
        ≡ entries.old.items ++ spec.step_entries event.now.step.who event.now.step.call event.now.reply) }
{
    match (&event.step.call, &event.reply, event.step.who) {
        (Call::Ask(request), reply, who) => add_request(entries, who, request, reply),
        (Call::Publish(messages), Ok(_), _) => add_messages(entries, messages.as_slice()),
        (Call::Commit(messages), Ok(_), Who::Session(session)) => {
            add_commit(entries, session, messages.as_slice())
        }
        _ => Ok(()),
    }
}

/// The record of the events, in order: each call that carries no messages with its reply, the messages of each
/// publication that was accepted, and of each commit that was done its messages and then the commit. A call whose
/// reply is `Memory` or `Store` leaves nothing, nor does a publication or a commit that was refused, nor a commit by a
/// connection.
///
/// `AllocError` where a request for memory was refused.
pub fn expand(alloc: Global, events: &[Event]) -> Result<Vec<Entry>, AllocError>
    ensures { IfOk result (λ entries. entries.items ≡ spec.expand events.now) }
{
    let mut entries = Vec::new(alloc);
    for event in events {
        add_event(&mut entries, event)?;
    }
    Ok(entries)
}

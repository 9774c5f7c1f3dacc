ghost use Rattle.std.specs.Prelude.{◌≡◌, ◌++◌, IfOk, OnOk, option_to_list, is_ok};
ghost use Rattle.jm_machine.specs.Entries as spec;
ghost use Rattle.jm_header.specs.Headers.{stamped};

use jm_base::Refusal;
use jm_dest::{Destination, Moment, Number, SessionId};
use jm_header::{Draft, Sender, stamp};
use jm_machine::{Answer, ClientCall, Entry, Reply, copy_reply};
use std::alloc::{AllocError, Global};

/// Whether a call with that reply counts as not made.
pub(crate) fn is_not_made(reply: &Reply) -> bool
    ensures { result ≡ spec.is_not_made reply.now }
{
    match reply {
        Err(Refusal::Memory) | Err(Refusal::Store) => true,
        _ => false,
    }
}

/// The entry of the message that the draft becomes, where it is stamped.
fn sent_entry(
    draft: &Draft,
    destination: &Destination,
    sender: Sender,
    number: u64,
    now: Moment,
) -> Result<Option<Entry>, AllocError>
    ensures { IfOk result (λ entry. option_to_list entry
        ≡ spec.sent_entry (stamped draft.now destination.now sender number now)) }
{
    match stamp(draft.copy()?, destination.copy()?, sender, number, now) {
        Ok(message) => Ok(Some(Entry::Sent(message))),
        Err(_) => Ok(None),
    }
}

/// What a client's call leaves in the record, where it leaves anything.
fn entry_of(opening: Number, call: &ClientCall, reply: &Reply) -> Result<Option<Entry>, AllocError>
    ensures { IfOk result (λ entry. option_to_list entry ≡ spec.entry_of opening call.now reply.now) }
{
    match call {
        ClientCall::Ask { who, request } => {
            if is_not_made(reply) {
                return Ok(None);
            }
            Ok(Some(Entry::Asked {
                who: *who,
                request: request.copy()?,
                reply: copy_reply(reply)?,
            }))
        }
        ClientCall::Send {
            session,
            draft,
            destination,
            now,
        } => match reply {
            Ok(Answer::Sent(number)) => {
                let sender = Sender {
                    opening,
                    session: *session,
                };
                sent_entry(draft, destination, sender, *number, *now)
            }
            _ => Ok(None),
        },
        ClientCall::CommitSession(session) => match reply {
            Ok(_) => Ok(Some(Entry::Committed(*session))),
            Err(_) => Ok(None),
        },
    }
}

/// Adds what a client's call leaves in the record.
fn add_entry(
    entries: &mut Vec<Entry>,
    opening: Number,
    call: &ClientCall,
    reply: &Reply,
) -> Result<(), AllocError>
    ensures { OnOk result (entries.new.items ≡ entries.old.items ++ spec.entry_of opening call.now reply.now) }
{
    if let Some(entry) = entry_of(opening, call, reply)? {
        entries.push(entry)?;
    }
    Ok(())
}

/// The record of a run in that opening: each call that carries no messages with its reply, each message that
/// was sent, stamped, and each commit that was done, in order. A call whose reply is `Memory` or `Store` leaves
/// nothing, nor does a send or a commit that was refused; calls without replies, and replies without calls, count
/// for nothing.
///
/// `AllocError` where a request for memory was refused.
pub fn entries(
    alloc: Global,
    opening: Number,
    calls: &[ClientCall],
    replies: &[Reply],
) -> Result<Vec<Entry>, AllocError>
    ensures { IfOk result (λ entries. entries.items ≡ spec.entries_of opening calls.now replies.now) }
{
    let mut entries = Vec::new(alloc);
    for (call, reply) in calls.iter().zip(replies) {
        add_entry(&mut entries, opening, call, reply)?;
    }
    Ok(entries)
}

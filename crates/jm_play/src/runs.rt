//! What is printed of the replies of a run.

ghost use Rattle.std.specs.Prelude.{◌≡◌, IfOk, string_bytes};
ghost use Rattle.std.specs.List.{list_any};
ghost use Rattle.jm_machine.specs.Isolation.{AreIsolated};
ghost use Rattle.jm_machine.specs.Machine as machine;
ghost use Rattle.jm_scenario.specs.Items as marks;
ghost use Rattle.jm_scenario.specs.Lines.{lines};
ghost use Rattle.jm_words.specs.Words.{IsLimit};
ghost use Rattle.jm_play.specs.Play as spec;
ghost use Rattle.jm_play.specs.Play.{IsRun, Replies};

use crate::ending::Printout;
use crate::provider::new_core;
use jm_base::Refusal;
use jm_keep::NoKeep;
use jm_machine::{ClientCall, Reply};
use jm_scenario::{Item, ItemKind, into_calls, item_kinds, replies_in_place, write_replies};
use std::alloc::{AllocError, Global};

/// The replies to the calls, made in turn on a new provider with that limit of held rows, which keeps nothing. `AllocError`
/// where a request for memory was refused.
pub fn run(alloc: Global, limit: u32, calls: Vec<ClientCall>) -> Result<Vec<Reply>, AllocError>
    requires { IsLimit limit }
    ensures ran { IfOk result (λ replies. IsRun limit calls.items replies.items) }
    ensures isolated { IfOk result (λ replies. AreIsolated (machine.new_core 1 limit) calls.items replies.items) }
{
    let mut core = new_core(alloc, limit);
    jm_kept::run(alloc, &mut core, &mut NoKeep, calls)
}

/// Whether the provider found no memory for a call, or its store failed.
fn is_shortage(reply: &Reply) -> bool
    ensures { result ≡ spec.is_shortage reply.now }
{
    matches!(reply, Err(Refusal::Memory | Refusal::Store))
}

fn has_shortage(replies: &[Reply]) -> bool
    ensures { result ≡ list_any spec.is_shortage replies.now }
{
    replies.iter().any(|reply| is_shortage(reply))
}

/// The exit status where those replies are printed: 3 where one is `Memory` or `Store`, else 0 (ours).
pub fn status_of(replies: &[Reply]) -> u8
    ensures { result ≡ spec.status_of replies.now }
{
    if has_shortage(replies) { 3 } else { 0 }
}

/// The lines of the replies to items of those kinds, where those to the calls among them are given, and the exit status where
/// they are printed. Each fork and each join is answered `Done` at its place. `AllocError` where a request for memory was
/// refused.
pub fn printout_of(
    alloc: Global,
    kinds: &[ItemKind],
    replies: Vec<Reply>,
) -> Result<Printout, AllocError>
    ensures text { IfOk result (λ printout. string_bytes printout.text ≡ lines (marks.replies_in_place kinds.now replies.items)) }
    ensures status { IfOk result (λ printout. printout.status ≡ spec.status_of replies.items) }
{
    let status = status_of(&replies);
    let replies = replies_in_place(alloc, kinds, replies)?;
    Ok(Printout {
        text: write_replies(alloc, &replies)?,
        status,
    })
}

/// The lines of the replies to the items, whose calls are made in turn on a new provider with that limit of held rows, which
/// keeps nothing. `AllocError` where a request for memory was refused.
pub(crate) fn lines_of(alloc: Global, limit: u32, items: Vec<Item>) -> Result<Printout, AllocError>
    requires { IsLimit limit }
    ensures { IfOk result (λ printout. Replies limit items.items (string_bytes printout.text) printout.status) }
{
    let kinds = item_kinds(alloc, &items)?;
    let replies = run(alloc, limit, into_calls(alloc, items)?)?;
    printout_of(alloc, &kinds, replies)
}

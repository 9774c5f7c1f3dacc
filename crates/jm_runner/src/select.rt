ghost use Rattle.std.specs.Prelude.{◌≡◌, ◌≤◌, ◌+◌, Ok, string_bytes, IfOk, IfErr, MatchResult};
ghost use Rattle.jm_header.specs.Headers.{stamped};
ghost use Rattle.jm_session.specs.Sends.{sent_of};
ghost use Rattle.jm_tree.specs.Parse.{parsed};
ghost use Rattle.jm_play.specs.Ending.{Ends, ToldBy};
ghost use Rattle.jm_runner.specs.Select as spec;
ghost use Rattle.jm_runner.specs.Select.{Picks, RefusesPick, RefusesSelector};
ghost use Rattle.jm_play.specs.Source.{reads, reads_max};

use jm_base::{Cause, Refusal};
use jm_dest::{Destination, Moment, Number, SessionId};
use jm_eval::{Truth, condition};
use jm_header::{Draft, Message, Sender, stamp};
use jm_machine::ClientCall;
use jm_play::{Ending, Fault, OPENING, Printout, Sink, Source, ended, scenario_of};
use jm_scenario::Item;
use jm_session::Sends;
use jm_syntax::{Tree, parse};
use std::alloc::{AllocError, Global};
use std::io::{Read, Write};

/// The tree of the selector, or none where it has no tokens.
fn tree_of(alloc: Global, selector: &str) -> Result<Option<Tree>, Fault>
    ensures ok { IfOk result (λ tree. parsed selector.now ≡ Ok tree) }
    ensures err { IfErr result (λ fault. MatchResult (parsed selector.now)
        (λ _. fault ≡ Fault.Memory)
        (λ refused. RefusesSelector refused fault)) }
{
    match parse(alloc, selector) {
        Ok(tree) => Ok(tree),
        Err(refused) => match refused.cause {
            Cause::Memory => Err(Fault::Memory),
            cause => Err(Fault::Selector {
                cause,
                at: refused.at,
            }),
        },
    }
}

/// The message of the session's send of that number, or `OutOfRange`.
fn stamp_as(
    session: &SessionId,
    number: u64,
    draft: Draft,
    destination: Destination,
    now: Moment,
) -> Result<Message, Refusal>
    ensures { result ≡ stamped draft destination (spec.sender session.now) number now }
{
    let sender = Sender {
        opening: Number::new(OPENING)?,
        session: *session,
    };
    stamp(draft, destination, sender, number, now)
}

/// The message of the session's next send, which is counted; or `OutOfRange`, and nothing is counted.
/// `AllocError` where a request for memory was refused.
fn stamp_next(
    sends: &mut Sends,
    session: &SessionId,
    draft: Draft,
    destination: Destination,
    now: Moment,
) -> Result<Result<Message, Refusal>, AllocError>
    ensures { IfOk result (λ stamped. (stamped ≡ spec.stamp_next (sent_of sends.old) session.now draft destination now)
        × (sent_of sends.new ≡ spec.counted session.now stamped (sent_of sends.old))) }
{
    let Some(number) = sends.next_number(session) else {
        return Ok(Err(Refusal::OutOfRange));
    };
    let stamped = stamp_as(session, number, draft, destination, now);
    if stamped.is_ok() {
        sends.count(session)?;
    }
    Ok(stamped)
}

/// The value of the selector over the message; a selector without tokens is TRUE.
fn truth(selector: &Option<Tree>, message: &Message) -> Truth
    ensures { result ≡ spec.truth selector.now message.now }
{
    match selector {
        Some(tree) => condition(tree, message),
        None => Truth::True,
    }
}

fn truth_name(truth: Truth) -> &'static str
    ensures { result.now ≡ spec.truth_name truth }
{
    match truth {
        Truth::True => "TRUE",
        Truth::False => "FALSE",
        Truth::Unknown => "UNKNOWN",
    }
}

/// What is printed of a send. `AllocError` where a request for memory was refused.
fn verdict(
    alloc: Global,
    selector: &Option<Tree>,
    stamped: Result<Message, Refusal>,
) -> Result<String, AllocError>
    ensures { IfOk result (λ text. string_bytes text ≡ spec.verdict selector.now stamped) }
{
    match stamped {
        Ok(message) => String::from_str(alloc, truth_name(truth(selector, &message))),
        Err(refusal) => format!(in alloc; "refused {refusal}"),
    }
}

/// The line of a send, the item of that number. `AllocError` where a request for memory was refused.
fn send_line(
    alloc: Global,
    selector: &Option<Tree>,
    number: usize,
    stamped: Result<Message, Refusal>,
) -> Result<String, AllocError>
    ensures { IfOk result (λ line. string_bytes line ≡ spec.send_line selector.now number stamped) }
{
    let verdict = verdict(alloc, selector, stamped)?;
    format!(in alloc; "{number} {verdict}\n")
}

/// The line of the call of that number, empty where it is no send. `AllocError` where a request for
/// memory was refused.
fn call_line(
    alloc: Global,
    selector: &Option<Tree>,
    sends: &mut Sends,
    number: usize,
    call: ClientCall,
) -> Result<String, AllocError>
    ensures { IfOk result (λ line. (string_bytes line ≡ spec.call_line selector.now (sent_of sends.old) number call)
        × (sent_of sends.new ≡ spec.sent_after (sent_of sends.old) call)) }
{
    match call {
        ClientCall::Ask { .. } | ClientCall::CommitSession(_) => Ok(String::new(alloc)),
        ClientCall::Send {
            session,
            draft,
            destination,
            now,
        } => {
            let stamped = stamp_next(sends, &session, draft, destination, now)?;
            send_line(alloc, selector, number, stamped)
        }
    }
}

/// The line of the item of that number, empty where it is no send. `AllocError` where a request for memory was refused.
fn item_line(
    alloc: Global,
    selector: &Option<Tree>,
    sends: &mut Sends,
    number: usize,
    item: Item,
) -> Result<String, AllocError>
    ensures { IfOk result (λ line. (string_bytes line ≡ spec.item_line selector.now (sent_of sends.old) number item)
        × (sent_of sends.new ≡ spec.sent_behind (sent_of sends.old) item)) }
{
    match item {
        Item::Call(call) => call_line(alloc, selector, sends, number, call),
        Item::Fork | Item::Join => Ok(String::new(alloc)),
    }
}

/// The lines of the sends among the items, in order. `AllocError` where a request for memory was refused.
fn item_lines(
    alloc: Global,
    selector: &Option<Tree>,
    items: Vec<Item>,
) -> Result<String, AllocError>
    ensures { IfOk result (λ lines. string_bytes lines ≡ spec.lines selector.now items.items) }
{
    let mut lines = String::new(alloc);
    let mut sends = Sends::new(alloc);
    for (index, item) in items.into_iter().enumerate() {
        let line = item_line(alloc, selector, &mut sends, index + 1, item)?;
        lines.push_str(line.as_str())?;
    }
    Ok(lines)
}

/// The lines of the sends of the scenario that the source gives.
fn told<R: Read>(alloc: Global, selector: &str, source: &mut Source<R>) -> Result<Printout, Fault>
    ensures told { ToldBy (Picks R.remaining selector.now source.old source.new)
        (RefusesPick R.remaining selector.now source.old source.new) result }
    ensures reads { reads source.new ≤ reads source.old + reads_max }
{
    let tree = tree_of(alloc, selector)?;
    let scenario = scenario_of(alloc, source)?;
    Ok(Printout {
        text: item_lines(alloc, &tree, scenario.items.into_inner())?,
        status: 0,
    })
}

/// Reads a selector and then a scenario, in at most 16,777,217 reads, and prints the value of the selector
/// over each send: its number, among calls, forks and joins, and TRUE, FALSE or UNKNOWN. The sends are stamped in order; one
/// that is refused leaves its number free, and neither whether a session is open nor whether it commits matters
/// (ours). Of a selector that is refused the fault is told before anything is read.
pub fn pick<R: Read, W: Write>(
    alloc: Global,
    selector: &str,
    source: &mut Source<R>,
    sink: &mut Sink<W>,
) -> Ending
    ensures ends { Ends (Picks R.remaining selector.now source.old source.new) (RefusesPick R.remaining selector.now source.old source.new)
        W.contents sink.old sink.new result }
    ensures reads { reads source.new ≤ reads source.old + reads_max }
{
    ended(sink, told(alloc, selector, source))
}

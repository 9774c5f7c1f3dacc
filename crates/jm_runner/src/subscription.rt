ghost use Rattle.std.specs.Prelude.{◌≡◌, ◌≤◌, ◌+◌, Some, None, true, string_bytes, IfOk, IfErr, IfSome, MatchResult};
ghost use Rattle.jm_plans.specs.Provider.{state_of};
ghost use Rattle.jm_machine.specs.Isolation.{AreIsolated};
ghost use Rattle.jm_machine.specs.Machine.{new_core};
ghost use Rattle.jm_scenario.specs.Items.{calls_of};
ghost use Rattle.jm_scenario.specs.Key.{key_of_text};
ghost use Rattle.jm_words.specs.Words.{IsLimit};
ghost use Rattle.jm_play.specs.Ending.{Ends, ToldBy};
ghost use Rattle.jm_runner.specs.Lone as spec;
ghost use Rattle.jm_runner.specs.Lone.{IsRunOf, RefusesLone, TellsLone};
ghost use Rattle.jm_play.specs.Play.{GivesScenario, RefusesScenario, held_limit as spec_limit};
ghost use Rattle.jm_play.specs.Source.{reads, reads_max};

use jm_core::Core;
use jm_dest::{Key, Number};
use jm_machine::{ClientCall, Reply};
use jm_model::{LoneFault, entries, lone_replies};
use jm_play::{
    Ending, Fault, KeyFault, Printout, Sink, Source, ended, held_limit, new_core, run, scenario_of,
    status_of,
};
use jm_scenario::{Item, Scenario, copy_calls, into_calls, read_key, write_reply};
use std::alloc::{AllocError, Global};
use std::io::{Read, Write};
use std::slice;

/// Whether the call leaves an entry in the record of a run in that opening. `AllocError` where a
/// request for memory was refused.
fn leaves_entry(
    opening: Number,
    alloc: Global,
    call: &ClientCall,
    reply: &Reply,
) -> Result<bool, AllocError>
    ensures { IfOk result (λ leaves. leaves ≡ spec.leaves_entry opening call.now reply.now) }
{
    let entries = entries(
        alloc,
        opening,
        slice::from_ref(call),
        slice::from_ref(reply),
    )?;
    Ok(!entries.is_empty())
}

/// The numbers of the calls that leave an entry in the record of a run in that opening, among items that are numbered from 1.
/// `AllocError` where a request for memory was refused.
fn numbers(
    opening: Number,
    alloc: Global,
    items: &[Item],
    replies: &[Reply],
) -> Result<Vec<usize>, AllocError>
    ensures { IfOk result (λ numbers. numbers.items ≡ spec.numbers_from opening 1 items.now replies.now) }
{
    let mut numbers = Vec::new(alloc);
    let mut made = 0;
    for (index, item) in items.iter().enumerate() {
        if let Item::Call(call) = item {
            let Some(reply) = replies.get(made) else {
                return Ok(numbers);
            };
            made += 1;
            if leaves_entry(opening, alloc, call, reply)? {
                numbers.push(index + 1)?;
            }
        }
    }
    Ok(numbers)
}

/// The line of a reply with the place of its entry, by the numbers of the entries' calls. `AllocError`
/// where a request for memory was refused.
fn line_at(alloc: Global, numbers: &[usize], placed: &(usize, Reply)) -> Result<String, AllocError>
    ensures { IfOk result (λ text. string_bytes text ≡ spec.line_at numbers.now placed.now) }
{
    let number = numbers.get(placed.0).copied().unwrap_or(0);
    write_reply(alloc, number, &placed.1)
}

/// The lines of replies, each with the place of its entry, by the numbers of the entries' calls.
/// `AllocError` where a request for memory was refused.
fn lines_at(
    alloc: Global,
    numbers: &[usize],
    replies: &[(usize, Reply)],
) -> Result<String, AllocError>
    ensures { IfOk result (λ lines. string_bytes lines ≡ spec.lines_at numbers.now replies.now) }
{
    let mut lines = String::new(alloc);
    for placed in replies {
        let line = line_at(alloc, numbers, placed)?;
        lines.push_str(line.as_str())?;
    }
    Ok(lines)
}

/// The scenario that the source gives, and the replies to its calls, made in turn on a new provider with the
/// scenario's own limit.
fn ran<R: Read>(alloc: Global, source: &mut Source<R>) -> Result<(Scenario, Vec<Reply>), Fault>
    ensures ran { MatchResult result
        (λ ran. GivesScenario R.remaining source.old source.new ran.0 × IsRunOf ran.0 ran.1.items)
        (RefusesScenario R.remaining source.old source.new) }
    ensures limit { IfOk result (λ ran. IfSome ran.0.held IsLimit) }
    ensures isolated { IfOk result (λ ran. AreIsolated (new_core 1 (spec_limit None ran.0.held)) (calls_of ran.0.items) ran.1.items) }
    ensures reads { reads source.new ≤ reads source.old + reads_max }
{
    let scenario = scenario_of(alloc, source)?;
    let limit = held_limit(None, scenario.held);
    let calls = copy_calls(alloc, scenario.items.as_slice())?;
    let replies = run(alloc, limit, calls)?;
    Ok((scenario, replies))
}

/// The key that the text spells.
fn key_of(alloc: Global, text: &str) -> Result<Key, Fault>
    ensures ok { IfOk result (λ key. key_of_text text.now ≡ Some key) }
    ensures err { IfErr result (spec.RefusesText text.now) }
{
    match read_key(alloc, text)? {
        Some(key) => Ok(key),
        None => Err(Fault::Key(KeyFault::Syntax)),
    }
}

/// The lines of what the key's subscription answers alone from a new core, over the record of those items' calls and replies.
fn lines_from(
    alloc: Global,
    opening: &Core,
    key: &Key,
    items: Vec<Item>,
    replies: &[Reply],
) -> Result<String, Fault>
    requires { state_of opening.now ≡ new_core 1 (state_of opening.now).limit }
    ensures ok { IfOk result (λ lines. (string_bytes lines ≡ spec.lines_alone (state_of opening.now).limit key.now items.items replies.now)
        × (spec.is_unshared_in (state_of opening.now).limit key.now (calls_of items.items) replies.now ≡ true)) }
    ensures err { IfErr result (spec.RefusesKey (state_of opening.now).limit key.now (calls_of items.items) replies.now) }
{
    let numbers = numbers(opening.opening(), alloc, &items, replies)?;
    let calls = into_calls(alloc, items)?;
    let entries = entries(alloc, opening.opening(), &calls, replies)?;
    match lone_replies(alloc, opening, &entries, key) {
        Ok(replies) => Ok(lines_at(alloc, &numbers, &replies)?),
        Err(LoneFault::NotUnshared) => Err(Fault::Key(KeyFault::NotUnshared)),
        Err(LoneFault::Memory) => Err(Fault::Memory),
    }
}

/// The same from the opening of a run with that limit of held rows, whose replies are isolated: so, where the numbers of the
/// key's consumers name nothing else, they are the lines of the replies that the run gave to the key's calls.
fn lines_alone(
    alloc: Global,
    limit: u32,
    key: &Key,
    items: Vec<Item>,
    replies: &[Reply],
) -> Result<String, Fault>
    requires limit { IsLimit limit }
    requires isolated { AreIsolated (new_core 1 limit) (calls_of items.items) replies.now }
    ensures ok { IfOk result (λ lines. (string_bytes lines ≡ spec.lines_alone limit key.now items.items replies.now)
        × (spec.is_unshared_in limit key.now (calls_of items.items) replies.now ≡ true)
        × spec.IsOfRun limit key.now items.items replies.now (string_bytes lines)) }
    ensures err { IfErr result (spec.RefusesKey limit key.now (calls_of items.items) replies.now) }
{
    let opening = new_core(alloc, limit);
    lines_from(alloc, &opening, key, items, replies)
}

/// The lines of the subscription of the key that the text spells, over a run of the scenario that the
/// source gives, and the exit status of that run.
fn told<R: Read>(alloc: Global, source: &mut Source<R>, key: &str) -> Result<Printout, Fault>
    ensures told { ToldBy (TellsLone R.remaining key.now source.old source.new)
        (RefusesLone R.remaining key.now source.old source.new) result }
    ensures reads { reads source.new ≤ reads source.old + reads_max }
{
    let (scenario, replies) = ran(alloc, source)?;
    let key = key_of(alloc, key)?;
    let limit = held_limit(None, scenario.held);
    Ok(Printout {
        text: lines_alone(alloc, limit, &key, scenario.items.into_inner(), &replies)?,
        status: status_of(&replies),
    })
}

/// Reads a scenario, in at most 16,777,217 reads, and makes its calls on a new provider, then reads the key of a
/// subscription, a consumer's own or a durable one, and prints what this subscription answers alone: a line for each
/// reply, with the number of its call, where forks and joins count too. By the law of isolation these are the replies that
/// the run gave to the key's calls, where the numbers of its consumers name nothing else. Alone, it is fed with the calls of
/// its own sessions, with the accepted calls of their connections, and with the committed messages that it accepts. Its own
/// sessions are the consumer's; of a durable one those that ask for it, or for its end, with its client identifier. A
/// subscription that is not durable holds at most as many rows as the scenario says, in the run and alone; where it says none,
/// 100,000. The exit status is that of the run.
///
/// The fault of a scenario is told before any of the key, which is judged over the whole run: a consumer's own is not
/// unshared where a creating call, accepted or not, names its number for anything else, nor is a durable one that a
/// call, accepted or not, asks for as a shared one. A key that no call names has no lines.
pub fn lone<R: Read, W: Write>(
    alloc: Global,
    source: &mut Source<R>,
    key: &str,
    sink: &mut Sink<W>,
) -> Ending
    ensures ends { Ends (TellsLone R.remaining key.now source.old source.new) (RefusesLone R.remaining key.now source.old source.new)
        W.contents sink.old sink.new result }
    ensures reads { reads source.new ≤ reads source.old + reads_max }
{
    ended(sink, told(alloc, source, key))
}

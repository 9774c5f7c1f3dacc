ghost use Rattle.std.specs.Prelude.{◌≡◌, ◌++◌, ◌∷◌, [], map, codes, false, IfOk, MatchResult};
ghost use Rattle.clap.specs.Words.{app_of, found_of, rows_of, rule_of, subcommand_rows_of};
ghost use Rattle.jm_words.specs.Words as spec;

use clap::builder::ValueParser;
use clap::error::ErrorKind;
use clap::{Arg, ArgAction, ArgMatches, Command, Error};
use jm_base::Str;
use std::alloc::{AllocError, Global};

/// The greatest limit of held rows (ours).
const GREATEST_LIMIT: u32 = 1_000_000;

/// What the program is asked for.
#[derive(Debug, PartialEq, Drop)]
pub enum Words {
    /// To run the scenario on standard input.
    Input,
    /// To run the scenario of a file; where `db` is given, over the store in that file; with `threads`, the calls between
    /// a fork and its join on a thread of each session; where `held` is given, each subscription that is not durable
    /// holds at most so many rows: 1 to 1,000,000.
    Run {
        file: Str,
        db: Option<Str>,
        threads: bool,
        held: Option<u32>,
    },
    /// To print the value of a selector over each send of the scenario of a file.
    Select {
        selector: Str,
        file: Str,
    },
    /// To print what the subscription of that key answers alone, over the scenario of a file.
    Lone {
        file: Str,
        key: Str,
    },
}

/// Why the words ask for nothing that the program does.
#[derive(Debug, Drop)]
pub enum WordsFault {
    /// The words are wrong, or ask for help or the version: the text is clap's.
    Refused(Error),
    /// A request for memory was refused.
    Memory,
}

impl From<AllocError> for WordsFault {
    ghost use Rattle.std.specs.Prelude.{◌≡◌};
    ghost use Rattle.jm_words.specs.declared.words.WordsFault.TheVariants.{Memory};

    ghost from_gives = { λ _ fault. fault ≡ Memory };

    fn from(_: AllocError) -> WordsFault {
        WordsFault::Memory
    }
}

/// An argument that has to be given, by its place.
fn argument<'a>(alloc: Global, id: &'a str, help: &'a str) -> Arg<'a>
    ensures rule { rule_of result ≡ spec.argument id.entry.now }
    ensures local { result.global ≡ false }
{
    Arg::new(alloc, id).required(true).help(help)
}

/// The option `--db FILE`, whose value is any text.
fn db_option<'a>(alloc: Global) -> Arg<'a>
    ensures rule { rule_of result ≡ spec.db_option }
    ensures local { result.global ≡ false }
{
    Arg::new(alloc, "db").long("db").value_name("FILE").help(
        "The database of the store: what is persistent outlasts the run",
    )
}

/// The flag `--threads`.
fn threads_flag<'a>(alloc: Global) -> Arg<'a>
    ensures rule { rule_of result ≡ spec.threads_flag }
    ensures local { result.global ≡ false }
{
    Arg::new(alloc, "threads")
        .long("threads")
        .action(ArgAction::SetTrue)
        .help("Makes the calls between a fork and its join on a thread of each session")
}

/// The option `--held N`, whose value is a whole number from 1 to 1,000,000.
fn held_option<'a>(alloc: Global) -> Arg<'a>
    ensures rule { rule_of result ≡ spec.held_option }
    ensures local { result.global ≡ false }
{
    Arg::new(alloc, "held")
        .long("held")
        .value_name("N")
        .value_parser(ValueParser::unsigned(1, GREATEST_LIMIT as u64))
        .help("How many rows a subscription holds: in place of the scenario's own limit")
}

/// The command `run FILE [--db FILE] [--threads] [--held N]`. `AllocError` where a request for memory was refused.
fn run_command<'a>(alloc: Global) -> Result<Command<'a>, AllocError>
    ensures { IfOk result (spec.IsCommand spec.run_command) }
{
    Command::new(alloc, "run")
        .about("Runs a scenario, and prints the reply of each call")
        .arg(argument(alloc, "FILE", "The scenario: a JSON file"))?
        .arg(db_option(alloc))?
        .arg(threads_flag(alloc))?
        .arg(held_option(alloc))
}

/// The command `select SELECTOR FILE`. `AllocError` where a request for memory was refused.
fn select_command<'a>(alloc: Global) -> Result<Command<'a>, AllocError>
    ensures { IfOk result (spec.IsCommand spec.select_command) }
{
    Command::new(alloc, "select")
        .about("Prints the value of a selector over each send of a scenario")
        .arg(argument(alloc, "SELECTOR", "The selector, as one word"))?
        .arg(argument(alloc, "FILE", "The scenario: a JSON file"))
}

/// The command `lone FILE KEY`. `AllocError` where a request for memory was refused.
fn lone_command<'a>(alloc: Global) -> Result<Command<'a>, AllocError>
    ensures { IfOk result (spec.IsCommand spec.lone_command) }
{
    Command::new(alloc, "lone")
        .about("Prints what one subscription alone answers over a scenario")
        .arg(argument(alloc, "FILE", "The scenario: a JSON file"))?
        .arg(argument(alloc, "KEY", "The subscription, as {\"own\":[1,1,1]}"))
}

/// The command line with the commands `run` and `select`, and no others. `AllocError` where a request
/// for memory was refused.
fn with_run_and_select<'a>(alloc: Global) -> Result<Command<'a>, AllocError>
    ensures { IfOk result (spec.IsCommand spec.with_run_and_select) }
{
    Command::new(alloc, "jmsrun")
        .version("0.1")
        .about("Runs a scenario of calls on the provider: the one on standard input, or a file's")
        .subcommand(run_command(alloc)?)?
        .subcommand(select_command(alloc)?)
}

/// The command line of the program. `AllocError` where a request for memory was refused.
fn program<'a>(alloc: Global) -> Result<Command<'a>, AllocError>
    ensures { IfOk result (λ command. app_of command ≡ spec.program) }
{
    with_run_and_select(alloc)?.subcommand(lone_command(alloc)?)
}

/// Whether the word begins with `-`, and is neither `--` nor a flag for help.
fn is_dashed(word: &str) -> bool
    ensures { result ≡ spec.is_dashed word.now }
{
    word.as_bytes().first().is_some_and(|byte| *byte == b'-')
        && !matches!(word, "-h" | "--help" | "--")
}

/// Whether the words ask for `select` with a selector that looks like an option.
fn has_dashed_selector(words: &[&str]) -> bool
    ensures { result ≡ spec.has_dashed_selector (map (λ word. word.now) words.now) }
{
    match words {
        [_, command, selector, ..] => *command == "select" && is_dashed(selector),
        _ => false,
    }
}

/// The words, with `--` before a selector that looks like an option. `AllocError` where a request for
/// memory was refused.
fn marked<'a>(alloc: Global, words: &[&'a str]) -> Result<Vec<&'a str>, AllocError>
    ensures { IfOk result (λ marked.
        map (λ word. word.now) marked.items ≡ spec.marked (map (λ word. word.now) words.now)) }
{
    let mut marked = Vec::new(alloc);
    if has_dashed_selector(words) {
        marked.extend_from_slice(&words[..2])?;
        marked.push("--")?;
        marked.extend_from_slice(&words[2..])?;
    } else {
        marked.extend_from_slice(words)?;
    }
    Ok(marked)
}

/// The first value of the argument. `AllocError` where a request for memory was refused.
fn value(alloc: Global, matches: &ArgMatches<'_>, id: &str) -> Result<Str, AllocError>
    ensures { IfOk result (λ text. text ≡ spec.value id.now (rows_of (found_of matches.now))) }
{
    let text = matches.get_str(id).unwrap_or("");
    Ok(Str::new(String::from_str(alloc, text)?))
}

/// The file of the store that is given, if one is. `AllocError` where a request for memory was refused.
#[tactic(auto, using(crate::proofs::CommandLine::db_none))]
fn db(alloc: Global, matches: &ArgMatches<'_>) -> Result<Option<Str>, AllocError>
    ensures { IfOk result (λ db. db ≡ spec.db (rows_of (found_of matches.now))) }
{
    match matches.get_str("db") {
        Some(text) => Ok(Some(Str::new(String::from_str(alloc, text)?))),
        None => Ok(None),
    }
}

/// Whether the flag `--threads` is given: its value is `true` then.
#[tactic(auto, using(crate::proofs::CommandLine::threads_none))]
fn threads(matches: &ArgMatches<'_>) -> bool
    ensures { result ≡ spec.threads (rows_of (found_of matches.now)) }
{
    match matches.get_str("threads") {
        Some(text) => text == "true",
        None => false,
    }
}

/// The limit that the text spells, from 1 to 1,000,000; none where it spells another number, or none.
#[tactic(auto, using(crate::proofs::CommandLine::limit_of_none))]
fn limit_of(text: &str) -> Option<u32>
    ensures { result ≡ spec.limit_of text.now }
{
    match text.parse::<u32>() {
        Ok(number) if 1 <= number && number <= GREATEST_LIMIT => Some(number),
        _ => None,
    }
}

/// The limit of held rows that is given, if one is.
#[tactic(auto, using(crate::proofs::CommandLine::held_some, crate::proofs::CommandLine::held_none))]
fn held(matches: &ArgMatches<'_>) -> Option<u32>
    ensures { result ≡ spec.held (rows_of (found_of matches.now)) }
{
    match matches.get_str("held") {
        Some(text) => limit_of(text),
        None => None,
    }
}

/// What the command of that name asks for. `AllocError` where a request for memory was refused.
fn asked(alloc: Global, name: &str, matches: &ArgMatches<'_>) -> Result<Words, AllocError>
    ensures { IfOk result (λ asked. asked ≡ spec.asked name.now (rows_of (found_of matches.now))) }
{
    match name {
        "run" => Ok(Words::Run {
            file: value(alloc, matches, "FILE")?,
            db: db(alloc, matches)?,
            threads: threads(matches),
            held: held(matches),
        }),
        "select" => Ok(Words::Select {
            selector: value(alloc, matches, "SELECTOR")?,
            file: value(alloc, matches, "FILE")?,
        }),
        "lone" => Ok(Words::Lone {
            file: value(alloc, matches, "FILE")?,
            key: value(alloc, matches, "KEY")?,
        }),
        _ => Ok(Words::Input),
    }
}

/// What the command that is found asks for; without one, to run the scenario on standard input.
/// `AllocError` where a request for memory was refused.
fn asked_by(alloc: Global, matches: &ArgMatches<'_>) -> Result<Words, AllocError>
    ensures asked { IfOk result (λ asked. asked ≡ spec.words_of (subcommand_rows_of matches.now)) }
    ensures limit { IfOk result spec.HasLimit }
{
    match matches.subcommand() {
        Some((name, found)) => asked(alloc, name, found),
        None => Ok(Words::Input),
    }
}

/// What the words ask for, of which the first is the program's name. `Refused` exactly where clap
/// refuses them, or they ask for help or the version; a selector that begins with `-` is no option
/// (ours), and a limit of held rows is from 1 to 1,000,000. `Memory` where a request for memory was refused.
pub fn read_words(alloc: Global, words: &[&str]) -> Result<Words, WordsFault>
    ensures read { IfOk result (λ asked. asked ≡ spec.read (map (λ word. word.now) words.now)) }
    ensures limit { IfOk result spec.HasLimit }
    ensures faults { MatchResult result
        (λ _. spec.faults (map (λ word. word.now) words.now) ≡ [])
        (spec.IsFaultOf (map (λ word. word.now) words.now)) }
{
    let words = marked(alloc, words)?;
    match program(alloc)?.try_get_matches_from(words.as_slice()) {
        Ok(matches) => Ok(asked_by(alloc, &matches)?),
        Err(error) => match error.kind() {
            ErrorKind::OutOfMemory => Err(WordsFault::Memory),
            _ => Err(WordsFault::Refused(error)),
        },
    }
}

/// The fault of words that are no text in UTF-8: `Refused`, or `Memory` where a request for memory was
/// refused.
pub fn not_text(alloc: Global) -> WordsFault
    ensures { spec.IsInvalidValue result }
{
    let refused = match program(alloc) {
        Ok(mut command) => command.error(ErrorKind::InvalidValue, "a word is no text in UTF-8"),
        Err(error) => Err(error),
    };
    match refused {
        Ok(error) => WordsFault::Refused(error),
        Err(_) => WordsFault::Memory,
    }
}

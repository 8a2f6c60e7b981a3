// The job that a command line asks for: the words are checked, and then read with `clap`.

ghost use Rattle.std.specs.Prelude.{◌≡◌, map, string_bytes, option_map, IfOk, IfSome};
ghost use Rattle.command_line.specs.Arguments.{arguments};
ghost use Rattle.command_line.specs.Jobs as spec;
ghost use Rattle.command_line.specs.Reader.{asked_by};
ghost use Rattle.command_line.specs.declared.command.Command.TheVariants as command;
ghost use Rattle.clap.specs.Words.{first_value, found_of};

use crate::arguments::{are_fit, has_positional};
use crate::command::Command;
use crate::event::event_named;
use crate::job::{Job, RecordJob};
use crate::number::{number_or, number_within};
use crate::predicate::accesses_asked;
use crate::reading::matches_of;
use clap::ArgMatches;
use std::alloc::{AllocError, Global};

fn record_of<'a>(matches: &ArgMatches<'a>) -> Option<Job<'a>>
    ensures { option_map spec.told result ≡ asked_by command.Record (first_value (found_of matches.now)) }
{
    let source = matches.get_str("source")?;
    let log = matches.get_str("log")?;
    let slots = number_or(1, 16, 8, matches.get_str("slots"))?;
    let cells = number_or(1_024, 131_072, 16_384, matches.get_str("cells"))?;
    let limit = number_or(1, 67_108_864, 16_777_216, matches.get_str("limit"))?;
    let budget = number_or(1, 1_048_576, 1_000, matches.get_str("budget"))?;
    Some(Job::Record(RecordJob {
        source,
        log,
        profile: matches.get_str("profile"),
        slots: slots as u8,
        cells,
        limit,
        budget,
        reads: matches.get_str("reads"),
    }))
}

fn replay_of<'a>(matches: &ArgMatches<'a>) -> Option<Job<'a>>
    ensures { option_map spec.told result ≡ asked_by command.Replay (first_value (found_of matches.now)) }
{
    let source = matches.get_str("source")?;
    let log = matches.get_str("log")?;
    match (matches.get_str("reads"), matches.get_str("from")) {
        (reads, None) => Some(Job::Replay { source, log, reads }),
        (None, Some(name)) => Some(Job::Resume { source, log, name }),
        (Some(_), Some(_)) => None,
    }
}

fn checkpoint_of<'a>(matches: &ArgMatches<'a>) -> Option<Job<'a>>
    ensures { option_map spec.told result ≡ asked_by command.Checkpoint (first_value (found_of matches.now)) }
{
    let source = matches.get_str("source")?;
    let log = matches.get_str("log")?;
    let count = number_within(0, 16_777_312, matches.get_str("count")?)?;
    let name = matches.get_str("name")?;
    Some(Job::Checkpoint {
        source,
        log,
        count,
        name,
    })
}

fn asked<'a>(command: Command, matches: &ArgMatches<'a>) -> Option<Job<'a>>
    ensures { option_map spec.told result ≡ asked_by command (first_value (found_of matches.now)) }
{
    match command {
        Command::Races => {
            let source = matches.get_str("source")?;
            Some(Job::Races { source })
        }
        Command::Weaken => {
            let source = matches.get_str("source")?;
            let profile = matches.get_str("profile");
            Some(Job::Weaken { source, profile })
        }
        Command::Record => record_of(matches),
        Command::Replay => replay_of(matches),
        Command::Profile => {
            let source = matches.get_str("source")?;
            let log = matches.get_str("log")?;
            let name = matches.get_str("name")?;
            Some(Job::Profile { source, log, name })
        }
        Command::Watch => {
            let source = matches.get_str("source")?;
            let log = matches.get_str("log")?;
            let formula = accesses_asked(matches.get_str("predicate")?)?;
            Some(Job::Watch {
                source,
                log,
                formula,
            })
        }
        Command::Chain => {
            let source = matches.get_str("source")?;
            let log = matches.get_str("log")?;
            let one = event_named(matches.get_str("one")?)?;
            let other = event_named(matches.get_str("other")?)?;
            Some(Job::Chain {
                source,
                log,
                one,
                other,
            })
        }
        Command::Checkpoint => checkpoint_of(matches),
        Command::Make => {
            let count = number_within(1, 1_000, matches.get_str("count")?)?;
            let name = matches.get_str("name")?;
            Some(Job::Make { count, name })
        }
    }
}

// The job that the words after a command are, where they are one.
fn read<'a>(
    alloc: Global,
    command: Command,
    words: &'a [String],
) -> Result<Option<Job<'a>>, AllocError>
    ensures job { IfOk result (λ found. option_map spec.told found ≡ spec.job_by (arguments (map string_bytes words.now)) command) }
    ensures limits { IfOk result (λ found. IfSome found (λ job. spec.HasLimits (spec.told job))) }
{
    if !are_fit(command, words) {
        return Ok(None);
    }
    if !has_positional(words, command.number()) {
        return Ok(None);
    }
    let matches = matches_of(alloc, command, words)?;
    Ok(asked(command, &matches))
}

/// The job that the words after the program's name are, where they are one.
pub fn job_of(alloc: Global, words: &[String]) -> Result<Option<Job<'_>>, AllocError>
    ensures job { IfOk result (λ found. option_map spec.told found ≡ spec.job_of (map string_bytes words.now)) }
    ensures limits { IfOk result (λ found. IfSome found (λ job. spec.HasLimits (spec.told job))) }
{
    let [word, words @ ..] = words else {
        return Ok(None);
    };
    match Command::of(word) {
        Some(command) => read(alloc, command, words),
        None => Ok(None),
    }
}

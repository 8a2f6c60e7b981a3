// The words after a command, read with `clap`: a simple command for each job.

ghost use Rattle.std.specs.Prelude.{◌≡◌, length, map, string_bytes, true, IfOk};
ghost use Rattle.command_line.specs.Arguments.{are_fit, arguments, positional};
ghost use Rattle.command_line.specs.Jobs.{takes};
ghost use Rattle.command_line.specs.Reader as spec;
ghost use Rattle.command_line.specs.declared.command.Command.TheVariants as command;
ghost use Rattle.clap.specs.Words.{app_of, found_of, new_rule, rows_of, with_rule};

use crate::command::Command;
use clap::error::ErrorKind;
use clap::{Arg, ArgMatches, Command as Reader};
use std::alloc::{AllocError, Global};

fn bare<'a>(alloc: Global, name: &'a str) -> Reader<'a>
    ensures { app_of result ≡ spec.bare name.entry.now }
{
    Reader::new(alloc, name).no_binary_name(true)
}

fn with_word<'a>(alloc: Global, reader: Reader<'a>, name: &'a str) -> Result<Reader<'a>, AllocError>
    ensures { IfOk result (λ r. app_of r ≡ with_rule (app_of reader.entry) (new_rule name.entry.now)) }
{
    reader.arg(Arg::new(alloc, name))
}

fn with_option<'a>(
    alloc: Global,
    reader: Reader<'a>,
    name: &'a str,
) -> Result<Reader<'a>, AllocError>
    ensures { IfOk result (λ r. app_of r ≡ with_rule (app_of reader.entry) (spec.option_rule name.entry.now)) }
{
    reader.arg(Arg::new(alloc, name).long(name))
}

fn races_reader<'a>(alloc: Global) -> Result<Reader<'a>, AllocError>
    ensures { IfOk result (λ r. app_of r ≡ spec.reader_of command.Races) }
{
    with_word(alloc, bare(alloc, "races"), "source")
}

fn weaken_reader<'a>(alloc: Global) -> Result<Reader<'a>, AllocError>
    ensures { IfOk result (λ r. app_of r ≡ spec.reader_of command.Weaken) }
{
    let reader = with_word(alloc, bare(alloc, "weaken"), "source")?;
    with_option(alloc, reader, "profile")
}

fn record_reader<'a>(alloc: Global) -> Result<Reader<'a>, AllocError>
    ensures { IfOk result (λ r. app_of r ≡ spec.reader_of command.Record) }
{
    let reader = with_word(alloc, bare(alloc, "record"), "source")?;
    let reader = with_word(alloc, reader, "log")?;
    let reader = with_option(alloc, reader, "profile")?;
    let reader = with_option(alloc, reader, "slots")?;
    let reader = with_option(alloc, reader, "cells")?;
    let reader = with_option(alloc, reader, "limit")?;
    let reader = with_option(alloc, reader, "budget")?;
    with_option(alloc, reader, "reads")
}

fn replay_reader<'a>(alloc: Global) -> Result<Reader<'a>, AllocError>
    ensures { IfOk result (λ r. app_of r ≡ spec.reader_of command.Replay) }
{
    let reader = with_word(alloc, bare(alloc, "replay"), "source")?;
    let reader = with_word(alloc, reader, "log")?;
    let reader = with_option(alloc, reader, "reads")?;
    with_option(alloc, reader, "from")
}

fn profile_reader<'a>(alloc: Global) -> Result<Reader<'a>, AllocError>
    ensures { IfOk result (λ r. app_of r ≡ spec.reader_of command.Profile) }
{
    let reader = with_word(alloc, bare(alloc, "profile"), "source")?;
    let reader = with_word(alloc, reader, "log")?;
    with_word(alloc, reader, "name")
}

fn watch_reader<'a>(alloc: Global) -> Result<Reader<'a>, AllocError>
    ensures { IfOk result (λ r. app_of r ≡ spec.reader_of command.Watch) }
{
    let reader = with_word(alloc, bare(alloc, "watch"), "source")?;
    let reader = with_word(alloc, reader, "log")?;
    with_word(alloc, reader, "predicate")
}

fn chain_reader<'a>(alloc: Global) -> Result<Reader<'a>, AllocError>
    ensures { IfOk result (λ r. app_of r ≡ spec.reader_of command.Chain) }
{
    let reader = with_word(alloc, bare(alloc, "chain"), "source")?;
    let reader = with_word(alloc, reader, "log")?;
    let reader = with_word(alloc, reader, "one")?;
    with_word(alloc, reader, "other")
}

fn checkpoint_reader<'a>(alloc: Global) -> Result<Reader<'a>, AllocError>
    ensures { IfOk result (λ r. app_of r ≡ spec.reader_of command.Checkpoint) }
{
    let reader = with_word(alloc, bare(alloc, "checkpoint"), "source")?;
    let reader = with_word(alloc, reader, "log")?;
    let reader = with_word(alloc, reader, "count")?;
    with_word(alloc, reader, "name")
}

fn make_reader<'a>(alloc: Global) -> Result<Reader<'a>, AllocError>
    ensures { IfOk result (λ r. app_of r ≡ spec.reader_of command.Make) }
{
    let reader = with_word(alloc, bare(alloc, "make"), "count")?;
    with_word(alloc, reader, "name")
}

fn reader_of<'a>(alloc: Global, command: Command) -> Result<Reader<'a>, AllocError>
    ensures { IfOk result (λ r. app_of r ≡ spec.reader_of command) }
{
    match command {
        Command::Races => races_reader(alloc),
        Command::Weaken => weaken_reader(alloc),
        Command::Record => record_reader(alloc),
        Command::Replay => replay_reader(alloc),
        Command::Profile => profile_reader(alloc),
        Command::Watch => watch_reader(alloc),
        Command::Chain => chain_reader(alloc),
        Command::Checkpoint => checkpoint_reader(alloc),
        Command::Make => make_reader(alloc),
    }
}

/// What `clap` matches in words that are fit for a command, and have as many positional ones as it takes. Of these it
/// refuses none, so it fails only for want of memory.
pub fn matches_of<'a>(
    alloc: Global,
    command: Command,
    words: &'a [String],
) -> Result<ArgMatches<'a>, AllocError>
    requires fit { are_fit (takes command) (arguments (map string_bytes words.now)) ≡ true }
    requires number { length (positional (arguments (map string_bytes words.now))) ≡ length (spec.words_of command) }
    ensures { IfOk result (λ matches. rows_of (found_of matches) ≡ spec.rows_read command (arguments (map string_bytes words.now))) }
{
    match reader_of(alloc, command)?.try_get_matches_from(words) {
        Ok(matches) => Ok(matches),
        Err(error) => match error.kind() {
            ErrorKind::OutOfMemory => Err(AllocError),
            _ => unreachable!(),
        },
    }
}

// The words after a command, read as positional words and as options with their values.

ghost use Rattle.std.specs.Prelude.{◌≡◌, ◌≤◌, ◌∷◌, ◌+◌, ◌==◌, length, map, string_bytes, option_map, MatchOption};
ghost use Rattle.command_line.specs.Arguments as spec;
ghost use Rattle.command_line.specs.Jobs.{takes};
ghost use Rattle.command_line.specs.Reading.{read};

use crate::command::Command;

/// A positional word, an option with its value, or what is neither.
#[derive(Clone, Copy)]
enum Argument<'a> {
    Positional(&'a str),
    Setting { name: &'a str, value: &'a str },
    Wrong,
}

fn is_name(word: &str) -> bool
    ensures { result ≡ spec.is_name word.now }
{
    match word.as_bytes() {
        [] => false,
        [first, ..] => *first != b'-',
    }
}

fn setting<'a>(name: &'a str, value: &'a str) -> Argument<'a>
    ensures { read result ≡ spec.setting name.now value.now }
{
    if is_name(value) {
        Argument::Setting { name, value }
    } else {
        Argument::Wrong
    }
}

// The argument that a word begins, and the words after that.
fn first_argument<'a>(word: &'a str, rest: &'a [String]) -> (Argument<'a>, &'a [String])
    ensures first { spec.arguments (word.now ∷ map string_bytes rest.now) ≡ read result.0 ∷ spec.arguments (map string_bytes result.1.now) }
    ensures shorter { length result.1.now ≤ length rest.now }
{
    if is_name(word) {
        return (Argument::Positional(word), rest);
    }
    match word.strip_prefix("--") {
        Some(text) => option_argument(text, rest),
        None => (Argument::Wrong, rest),
    }
}

// The same of what stands after the dashes of an option.
fn option_argument<'a>(text: &'a str, rest: &'a [String]) -> (Argument<'a>, &'a [String])
    ensures first { spec.arguments ((45 ∷ 45 ∷ text.now) ∷ map string_bytes rest.now) ≡ read result.0 ∷ spec.arguments (map string_bytes result.1.now) }
    ensures shorter { length result.1.now ≤ length rest.now }
{
    match (text.split_once('='), rest) {
        (Some((name, value)), _) => (setting(name, value), rest),
        (None, [value, rest @ ..]) => (setting(text, value), rest),
        (None, []) => (Argument::Wrong, rest),
    }
}

/// The value of an option, where it is given.
pub fn value_of<'a>(mut words: &'a [String], name: &str) -> Option<&'a str>
    ensures { option_map (λ value. value.now) result ≡ spec.value_of name.now (spec.arguments (map string_bytes words.now)) }
{
    while let [word, rest @ ..] = words {
        let (argument, rest) = first_argument(word, rest);
        match argument {
            Argument::Setting { name: given, value } if given == name => return Some(value),
            _ => words = rest,
        }
    }
    None
}

/// Whether no argument is wrong, and each option is one of the command's and comes once.
pub fn are_fit(command: Command, mut words: &[String]) -> bool
    ensures { result ≡ spec.are_fit (takes command) (spec.arguments (map string_bytes words.now)) }
{
    while let [word, rest @ ..] = words {
        let (argument, rest) = first_argument(word, rest);
        match argument {
            Argument::Wrong => return false,
            Argument::Setting { name, .. }
                if !command.takes(name) || value_of(rest, name).is_some() => {
                return false;
            }
            _ => words = rest,
        }
    }
    true
}

// The words after the first positional one.
fn after_positional(mut words: &[String]) -> Option<&[String]>
    ensures { MatchOption result (length (spec.positional (spec.arguments (map string_bytes words.now))) ≡ 0) (λ rest. length (spec.positional (spec.arguments (map string_bytes words.now))) ≡ 1 + length (spec.positional (spec.arguments (map string_bytes rest.now)))) }
{
    while let [word, rest @ ..] = words {
        let (argument, rest) = first_argument(word, rest);
        if let Argument::Positional(_) = argument {
            return Some(rest);
        }
        words = rest;
    }
    None
}

/// Whether there are so many positional words.
pub fn has_positional(mut words: &[String], mut number: u8) -> bool
    ensures { result ≡ (length (spec.positional (spec.arguments (map string_bytes words.now))) == number) }
{
    while let Some(rest) = after_positional(words) {
        if number == 0 {
            return false;
        }
        number -= 1;
        words = rest;
    }
    number == 0
}

// Which accesses a word asks for.

ghost use Rattle.std.specs.Prelude.{◌≡◌, None, option_map};
ghost use Rattle.command_line.specs.Predicates as spec;

use crate::number::{number_within, signed_number};
use thread_interpreter::Formula;

// What stands before the first comma of a text, and after it.
fn first_part(text: &str) -> (&str, Option<&str>)
    ensures before { result.0.now ≡ (spec.first_part text.now).0 }
    ensures after { option_map (λ rest. rest.now) result.1 ≡ (spec.first_part text.now).1 }
{
    match text.split_once(',') {
        Some((first, rest)) => (first, Some(rest)),
        None => (text, None),
    }
}

fn after_name<'a>(name: &str, text: &'a str) -> Option<&'a str>
    ensures { option_map (λ rest. rest.now) result ≡ spec.after_name name.now text.now }
{
    text.strip_prefix(name)
}

fn taken_from<'a>(
    left: Option<&'a str>,
    value: Option<&'a str>,
) -> (Option<&'a str>, Option<&'a str>)
    ensures { (option_map (λ text. text.now) result.0, option_map (λ text. text.now) result.1) ≡ spec.taken_from (option_map (λ text. text.now) left.entry) (option_map (λ text. text.now) value.entry) }
{
    match value {
        Some(text) => {
            let (value, left) = first_part(text);
            (Some(value), left)
        }
        None => (None, left),
    }
}

// The value of the part with this name, where that stands next, and what is left then.
fn next_part<'a>(name: &str, left: Option<&'a str>) -> (Option<&'a str>, Option<&'a str>)
    ensures { (option_map (λ text. text.now) result.0, option_map (λ text. text.now) result.1) ≡ spec.next_part name.now (option_map (λ text. text.now) left.entry) }
{
    match left {
        Some(text) => taken_from(left, after_name(name, text)),
        None => (None, None),
    }
}

// Whether loads and stores are asked for.
fn kind_asked(word: &str) -> Option<(bool, bool)>
    ensures { result ≡ spec.kind_asked word.now }
{
    match word {
        "load" => Some((true, false)),
        "store" => Some((false, true)),
        "any" => Some((true, true)),
        _ => None,
    }
}

fn thread_asked(given: Option<&str>) -> Option<Option<u8>>
    ensures { result ≡ spec.thread_asked (option_map (λ text. text.now) given.entry) }
{
    match given {
        Some(text) => {
            let thread = number_within(0, 15, text)?;
            Some(Some(thread as u8))
        }
        None => Some(None),
    }
}

fn cells_asked(given: Option<&str>) -> Option<(u32, u32)>
    ensures { result ≡ spec.cells_asked (option_map (λ text. text.now) given.entry) }
{
    let Some(text) = given else {
        return Some((0, u32::MAX));
    };
    let (low, high) = text.split_once('-')?;
    let high = number_within(0, 4_194_303, high)?;
    let low = number_within(0, high, low)?;
    Some((low, high))
}

fn value_asked(given: Option<&str>) -> Option<Option<i64>>
    ensures { result ≡ spec.value_asked (option_map (λ text. text.now) given.entry) }
{
    match given {
        Some(text) => {
            let value = signed_number(text)?;
            Some(Some(value))
        }
        None => Some(None),
    }
}

fn asked_in(
    kind: &str,
    thread: Option<&str>,
    cells: Option<&str>,
    value: Option<&str>,
) -> Option<Formula>
    ensures { result ≡ spec.asked_in kind.now (option_map (λ text. text.now) thread.entry) (option_map (λ text. text.now) cells.entry) (option_map (λ text. text.now) value.entry) None }
{
    let (loads, stores) = kind_asked(kind)?;
    let thread = thread_asked(thread)?;
    let (low, high) = cells_asked(cells)?;
    let value = value_asked(value)?;
    Some(Formula {
        loads,
        stores,
        thread,
        low,
        high,
        value,
    })
}

/// The accesses that a word asks for.
pub fn accesses_asked(word: &str) -> Option<Formula>
    ensures { result ≡ spec.accesses_asked word.now }
{
    let (kind, left) = first_part(word);
    let (thread, left) = next_part("thread=", left);
    let (cells, left) = next_part("cell=", left);
    let (value, left) = next_part("value=", left);
    match left {
        Some(_) => None,
        None => asked_in(kind, thread, cells, value),
    }
}

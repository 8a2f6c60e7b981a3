// Numbers among the words.

ghost use Rattle.std.specs.Prelude.{◌≡◌, ◌≤◌, option_map, IfSome};
ghost use Rattle.command_line.specs.Arguments as spec;
ghost use Rattle.command_line.specs.Predicates as predicates;

use itoa::Buffer;

/// The number that a text is in decimal, where it is within these bounds.
pub fn number_within(low: u32, high: u32, text: &str) -> Option<u32>
    ensures number { result ≡ spec.number_within low high text.now }
    ensures low { IfSome result (λ n. low ≤ n) }
    ensures high { IfSome result (λ n. n ≤ high) }
{
    let Ok(number) = text.parse::<u32>() else {
        return None;
    };
    let mut buffer = Buffer::new();
    if buffer.format(number) == text && low <= number && number <= high {
        Some(number)
    } else {
        None
    }
}

/// The number of an option that may be given, or else its default.
pub fn number_or(low: u32, high: u32, default: u32, given: Option<&str>) -> Option<u32>
    requires low { low ≤ default }
    requires high { default ≤ high }
    ensures number { result ≡ spec.number_or low high default (option_map (λ text. text.now) given.entry) }
    ensures low { IfSome result (λ n. low ≤ n) }
    ensures high { IfSome result (λ n. n ≤ high) }
{
    match given {
        Some(text) => number_within(low, high, text),
        None => Some(default),
    }
}

/// The signed number of 64 bits that a text is in decimal.
pub fn signed_number(text: &str) -> Option<i64>
    ensures { result ≡ predicates.signed_number text.now }
{
    let Ok(number) = text.parse::<i64>() else {
        return None;
    };
    let mut buffer = Buffer::new();
    if buffer.format(number) == text {
        Some(number)
    } else {
        None
    }
}

// A word of 64 bits as a signed number.
ghost use Rattle.std.specs.Prelude.{◌≡◌, ◌∷◌, ℕ, List};
ghost use Rattle.snapshot_lines.specs.Fields.{IsValue};
ghost use Rattle.snapshot_lines.specs.Values as values;

use order_log::{after_word, number};

fn low(n: u64) -> Option<u64>
    ensures { result ≡ values.low n }
{
    if n < 9_223_372_036_854_775_808 {
        Some(n)
    } else {
        None
    }
}

fn high(n: u64) -> Option<u64>
    ensures { result ≡ values.high n }
{
    if n == 0 || n > 9_223_372_036_854_775_808 {
        return None;
    }
    Some(u64::MAX - (n - 1))
}

// After a sign.
fn below_zero(digits: &[u8]) -> Option<u64>
    ensures { IsValue (45 ∷ digits.now) result }
{
    high(number(digits)?)
}

// Where no sign stands before it.
fn from_zero(field: &[u8]) -> Option<u64>
    ensures { ((digits : List ℕ) → field.now ≡ 45 ∷ digits → ⊥) → IsValue field.now result }
{
    low(number(field)?)
}

/// The word that a field is as a signed number.
pub fn value_in(field: &[u8]) -> Option<u64>
    ensures { IsValue field.now result }
{
    match after_word(b"-", field) {
        Some(digits) => below_zero(digits),
        None => from_zero(field),
    }
}

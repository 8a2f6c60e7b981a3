// What C's operators give of words that hold whole numbers.
ghost use Rattle.std.specs.Prelude.{◌≡◌, ◌+ℤ◌, ◌-ℤ◌, ◌*ℤ◌, pos, int_div, int_rem};
ghost use Rattle.word_semantics.specs.Values as spec;

use crate::operator::BinaryOp;
use rr_base::Trap;

/// The signed number that a word shows.
pub fn number(word: u64) -> i64
    ensures { result ≡ spec.number word }
{
    word.cast_signed()
}

/// The word that shows a signed number.
pub fn word(number: i64) -> u64
    ensures { result ≡ spec.word number }
{
    number.cast_unsigned()
}

/// 1 where it holds, else 0.
pub fn truth(holds: bool) -> u64
    ensures { result ≡ spec.truth holds }
{
    u64::from(holds)
}

fn add(left: i64, right: i64) -> Result<u64, Trap>
    ensures { result ≡ spec.fitting (left +ℤ right) }
{
    let sum = left.checked_add(right).ok_or(Trap::Overflow)?;
    Ok(word(sum))
}

fn subtract(left: i64, right: i64) -> Result<u64, Trap>
    ensures { result ≡ spec.fitting (left -ℤ right) }
{
    let difference = left.checked_sub(right).ok_or(Trap::Overflow)?;
    Ok(word(difference))
}

/// Unary `-` (C99 6.5.3.3). It is Overflow at the least number.
pub fn negate(number: i64) -> Result<u64, Trap>
    ensures { result ≡ spec.fitting (pos 0 -ℤ number) }
{
    subtract(0, number)
}

fn multiply(left: i64, right: i64) -> Result<u64, Trap>
    ensures { result ≡ spec.fitting (left *ℤ right) }
{
    let product = left.checked_mul(right).ok_or(Trap::Overflow)?;
    Ok(word(product))
}

fn divide(left: i64, right: i64) -> Result<u64, Trap>
    ensures { result ≡ spec.divided int_div left right }
{
    if right == 0 {
        return Err(Trap::DivideByZero);
    }
    let quotient = left.checked_div(right).ok_or(Trap::Overflow)?;
    Ok(word(quotient))
}

fn take_remainder(left: i64, right: i64) -> Result<u64, Trap>
    ensures { result ≡ spec.divided int_rem left right }
{
    if right == 0 {
        return Err(Trap::DivideByZero);
    }
    let rest = left.checked_rem(right).ok_or(Trap::Overflow)?;
    Ok(word(rest))
}

fn shift_left(left: i64, right: i64) -> Result<u64, Trap>
    ensures { result ≡ spec.shifted_left left right }
{
    if right < 0 || right >= 64 {
        return Err(Trap::ShiftRange);
    }
    if left < 0 {
        return Err(Trap::Overflow);
    }
    match (left as u64).checked_mul(1 << right) {
        Some(moved) if moved < 1 << 63 => Ok(moved),
        _ => Err(Trap::Overflow),
    }
}

fn shift_right(left: i64, right: i64) -> Result<u64, Trap>
    ensures { result ≡ spec.shifted_right left right }
{
    if right < 0 || right >= 64 {
        return Err(Trap::ShiftRange);
    }
    Ok(word(left >> right))
}

/// What a binary operator gives of two words that hold whole numbers (C99 6.5.5 to 6.5.12).
#[inline(always)]
pub fn binary(op: BinaryOp, left: u64, right: u64) -> Result<u64, Trap>
    ensures { result ≡ spec.binary_of op left right }
{
    let (a, b) = (number(left), number(right));
    match op {
        BinaryOp::Add => add(a, b),
        BinaryOp::Subtract => subtract(a, b),
        BinaryOp::Multiply => multiply(a, b),
        BinaryOp::Divide => divide(a, b),
        BinaryOp::Remainder => take_remainder(a, b),
        BinaryOp::And => Ok(left & right),
        BinaryOp::Or => Ok(left | right),
        BinaryOp::Xor => Ok(left ^ right),
        BinaryOp::ShiftLeft => shift_left(a, b),
        BinaryOp::ShiftRight => shift_right(a, b),
        BinaryOp::Less => Ok(truth(a < b)),
        BinaryOp::LessEqual => Ok(truth(a <= b)),
        BinaryOp::Greater => Ok(truth(a > b)),
        BinaryOp::GreaterEqual => Ok(truth(a >= b)),
        BinaryOp::Equal => Ok(truth(left == right)),
        BinaryOp::NotEqual => Ok(truth(left != right)),
    }
}

//! What C's operators give of whole numbers of 64 bits (C99 6.5.3 to 6.5.12).
ghost use Rattle.std.specs.Prelude.{◌≡◌, ◌+ℤ◌, ◌-ℤ◌, ◌*ℤ◌, int_div, int_rem};
ghost use Rattle.c_types.specs.Numbers as spec;

use c_tree::{BinaryOp, PrefixOp};
use rr_base::Trap;

fn truth(holds: bool) -> i64
    ensures { result ≡ spec.truth holds }
{
    if holds { 1 } else { 0 }
}

fn add(left: i64, right: i64) -> Result<i64, Trap>
    ensures { result ≡ spec.fitting (left +ℤ right) }
{
    left.checked_add(right).ok_or(Trap::Overflow)
}

fn subtract(left: i64, right: i64) -> Result<i64, Trap>
    ensures { result ≡ spec.fitting (left -ℤ right) }
{
    left.checked_sub(right).ok_or(Trap::Overflow)
}

fn multiply(left: i64, right: i64) -> Result<i64, Trap>
    ensures { result ≡ spec.fitting (left *ℤ right) }
{
    left.checked_mul(right).ok_or(Trap::Overflow)
}

fn divide(left: i64, right: i64) -> Result<i64, Trap>
    ensures { result ≡ spec.divided int_div left right }
{
    if right == 0 {
        return Err(Trap::DivideByZero);
    }
    left.checked_div(right).ok_or(Trap::Overflow)
}

fn take_remainder(left: i64, right: i64) -> Result<i64, Trap>
    ensures { result ≡ spec.divided int_rem left right }
{
    if right == 0 {
        return Err(Trap::DivideByZero);
    }
    left.checked_rem(right).ok_or(Trap::Overflow)
}

fn shift_left(left: i64, right: i64) -> Result<i64, Trap>
    ensures { result ≡ spec.shifted_left left right }
{
    if right < 0 || right >= 64 {
        return Err(Trap::ShiftRange);
    }
    if left < 0 {
        return Err(Trap::Overflow);
    }
    match (left as u64).checked_mul(1 << right) {
        Some(moved) if moved < 1 << 63 => Ok(moved as i64),
        _ => Err(Trap::Overflow),
    }
}

fn shift_right(left: i64, right: i64) -> Result<i64, Trap>
    ensures { result ≡ spec.shifted_right left right }
{
    if right < 0 || right >= 64 {
        return Err(Trap::ShiftRange);
    }
    Ok(left >> right)
}

/// What a prefix operator gives of a number. One that needs a place gives the number back.
pub fn prefix_of(op: PrefixOp, number: i64) -> Result<i64, Trap>
    ensures { result ≡ spec.prefixed op number }
{
    match op {
        PrefixOp::Minus => subtract(0, number),
        PrefixOp::Not => Ok(truth(number == 0)),
        PrefixOp::Complement => Ok(-1 - number),
        PrefixOp::Plus
        | PrefixOp::Address
        | PrefixOp::Indirect
        | PrefixOp::Increment
        | PrefixOp::Decrement => Ok(number),
    }
}

/// What a binary operator gives of two numbers, both of which are computed.
pub fn binary_of(op: BinaryOp, left: i64, right: i64) -> Result<i64, Trap>
    ensures { result ≡ spec.computed op left right }
{
    match op {
        BinaryOp::LogicalOr => Ok(truth(left != 0 || right != 0)),
        BinaryOp::LogicalAnd => Ok(truth(left != 0 && right != 0)),
        BinaryOp::Or => Ok((left.cast_unsigned() | right.cast_unsigned()).cast_signed()),
        BinaryOp::Xor => Ok((left.cast_unsigned() ^ right.cast_unsigned()).cast_signed()),
        BinaryOp::And => Ok((left.cast_unsigned() & right.cast_unsigned()).cast_signed()),
        BinaryOp::Equal => Ok(truth(left == right)),
        BinaryOp::NotEqual => Ok(truth(left != right)),
        BinaryOp::Less => Ok(truth(left < right)),
        BinaryOp::Greater => Ok(truth(left > right)),
        BinaryOp::LessEqual => Ok(truth(left <= right)),
        BinaryOp::GreaterEqual => Ok(truth(left >= right)),
        BinaryOp::ShiftLeft => shift_left(left, right),
        BinaryOp::ShiftRight => shift_right(left, right),
        BinaryOp::Add => add(left, right),
        BinaryOp::Subtract => subtract(left, right),
        BinaryOp::Multiply => multiply(left, right),
        BinaryOp::Divide => divide(left, right),
        BinaryOp::Remainder => take_remainder(left, right),
    }
}

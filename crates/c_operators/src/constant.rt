//! The value of a constant expression, by those of its operands (C99 6.6).
ghost use Rattle.std.specs.Prelude.{◌≡◌};
ghost use Rattle.c_operators.specs.Constants as spec;

use c_constants::{chosen_value, is_int, is_of_numbers, operation_value, prefix_value};
use c_tree::{BinaryOp, CType, PrefixOp};
use rr_base::Trap;

/// Whether an expression has the form of a constant one, and the value that counts where it has, or the trap that computing
/// it meets.
#[derive(Clone, Copy)]
pub struct Constant {
    pub is_formed: bool,
    pub value: Result<i64, Trap>,
}

impl Constant {
    /// That of an expression without the form of a constant one.
    pub fn none() -> Constant
        ensures { result ≡ spec.no_constant }
    {
        Constant {
            is_formed: false,
            value: Ok(0),
        }
    }

    /// That of `?:`.
    pub fn of_choice(test: Constant, yes: Constant, no: Constant) -> Constant
        ensures { result ≡ spec.choice_constant test yes no }
    {
        Constant {
            is_formed: test.is_formed && yes.is_formed && no.is_formed,
            value: chosen_value(test.value, yes.value, no.value),
        }
    }

    /// That of an operator with two operands.
    pub fn of_operation(op: BinaryOp, left: Constant, right: Constant) -> Constant
        ensures { result ≡ spec.operation_constant op left right }
    {
        Constant {
            is_formed: left.is_formed && right.is_formed,
            value: operation_value(op, left.value, right.value),
        }
    }

    /// That of an operator before its operand.
    pub fn of_prefix(op: PrefixOp, operand: Constant) -> Constant
        ensures { result ≡ spec.prefix_constant op operand }
    {
        Constant {
            is_formed: is_of_numbers(op) && operand.is_formed,
            value: prefix_value(op, operand.value),
        }
    }

    /// That of a cast.
    pub fn of_cast(to: &CType, operand: Constant) -> Constant
        ensures { result ≡ spec.cast_constant to.now operand }
    {
        Constant {
            is_formed: is_int(to) && operand.is_formed,
            value: operand.value,
        }
    }
}

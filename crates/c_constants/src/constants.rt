//! Which expressions are constant, and their values by those of their operands (C99 6.6).
ghost use Rattle.std.specs.Prelude.{◌≡◌, map};
ghost use Rattle.rr_base.specs.Texts.{entry_of};
ghost use Rattle.c_tree.specs.View.{exp_of};
ghost use Rattle.c_types.specs.Constants as spec;
ghost use Rattle.c_types.specs.Numbers.{prefixed};
ghost use Rattle.c_constants.specs.Values.{chosen_value};

use c_tree::{BinaryOp, CType, Expr, PrefixOp, Specifier};
use c_types::{binary_of, prefix_of};
use rr_base::Trap;

static CONSTANTS: [(&[u8], i64); 6] = [
    (b"EOF", -1),
    (b"EBUSY", 16),
    (b"EAGAIN", 11),
    (b"PTHREAD_BARRIER_SERIAL_THREAD", -1),
    (b"EXIT_SUCCESS", 0),
    (b"EXIT_FAILURE", 1),
];

fn constant_in(mut table: &[(&[u8], i64)], name: &[u8]) -> Option<i64>
    ensures { result ≡ entry_of (map (λ e. (e.0.now, e.1)) table.entry.now) name.now }
{
    while let [entry, rest @ ..] = table {
        if name == entry.0 {
            return Some(entry.1);
        }
        table = rest;
    }
    None
}

/// The value of a constant of the library, if it is one.
#[tactic(auto, unfolding(c_types::specs::Constants::constant_named))]
pub fn constant_named(name: &[u8]) -> Option<i64>
    ensures { result ≡ spec.constant_named name.now }
{
    constant_in(&CONSTANTS, name)
}

/// Whether the type is one of Int.
pub fn is_int(of: &CType) -> bool
    ensures { result ≡ spec.is_int of.now }
{
    let is_number = match of.specifier {
        Specifier::Int { .. } | Specifier::Long { .. } | Specifier::PthreadT { .. } => true,
        Specifier::Void { .. }
        | Specifier::Struct { .. }
        | Specifier::PthreadMutexT { .. }
        | Specifier::PthreadCondT { .. }
        | Specifier::PthreadBarrierT { .. }
        | Specifier::PthreadRwlockT { .. } => false,
    };
    is_number && of.stars == 0
}

/// Whether the operator makes a number of a number.
pub fn is_of_numbers(op: PrefixOp) -> bool
    ensures { result ≡ spec.is_of_numbers op }
{
    match op {
        PrefixOp::Plus | PrefixOp::Minus | PrefixOp::Not | PrefixOp::Complement => true,
        PrefixOp::Address | PrefixOp::Indirect | PrefixOp::Increment | PrefixOp::Decrement => false,
    }
}

/// Whether the expression has the form of a constant one, also in those parts that aren't computed.
pub fn is_constant(e: &Expr) -> bool
    ensures { result ≡ spec.is_constant (exp_of e.now) }
{
    match e {
        Expr::Conditional { test, yes, no, .. } => {
            is_constant(test) && is_constant(yes) && is_constant(no)
        }
        Expr::Binary { left, right, .. } => is_constant(left) && is_constant(right),
        Expr::Prefix { op, operand, .. } => is_of_numbers(*op) && is_constant(operand),
        Expr::Cast { to, operand, .. } => is_int(to) && is_constant(operand),
        Expr::Paren { inner, .. } => is_constant(inner),
        Expr::Name { name, .. } => constant_named(name.as_slice()).is_some(),
        Expr::Number { .. }
        | Expr::Letter { .. }
        | Expr::SizeofExpr { .. }
        | Expr::SizeofType { .. } => true,
        Expr::Comma { .. }
        | Expr::Assign { .. }
        | Expr::Index { .. }
        | Expr::Member { .. }
        | Expr::Arrow { .. }
        | Expr::PostIncrement { .. }
        | Expr::PostDecrement { .. }
        | Expr::Call { .. }
        | Expr::Text { .. }
        | Expr::Null { .. } => false,
    }
}

/// What `?:` gives, by the values of its operands (C99 6.5.15).
pub fn chosen_value(
    test: Result<i64, Trap>,
    yes: Result<i64, Trap>,
    no: Result<i64, Trap>,
) -> Result<i64, Trap>
    ensures { result ≡ chosen_value test yes no }
{
    if test? == 0 { no } else { yes }
}

/// What an operator with two operands gives, by their values. `&&` and `||` leave out the second where the first decides.
pub fn operation_value(
    op: BinaryOp,
    left: Result<i64, Trap>,
    right: Result<i64, Trap>,
) -> Result<i64, Trap>
    ensures { result ≡ spec.binary_value op left right }
{
    let a = left?;
    match op {
        BinaryOp::LogicalOr if a != 0 => Ok(1),
        BinaryOp::LogicalAnd if a == 0 => Ok(0),
        _ => binary_of(op, a, right?),
    }
}

/// What an operator before its operand gives, by the operand's value.
pub fn prefix_value(op: PrefixOp, operand: Result<i64, Trap>) -> Result<i64, Trap>
    ensures { result ≡ spec.and_then operand (prefixed op) }
{
    prefix_of(op, operand?)
}

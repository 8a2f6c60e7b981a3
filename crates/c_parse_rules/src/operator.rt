//! Which signs are operators.

ghost use Rattle.std.specs.Prelude.{◌≡◌, IfOk};
ghost use Rattle.c_tree.specs.View.{exp_of};
ghost use Rattle.c_grammar.specs.Grammar.{tightness as spec_tightness};
ghost use Rattle.c_grammar.specs.Parse as spec;
ghost use Rattle.c_grammar.specs.Rules.{push as spec_push};

use crate::make::binary;
use c_lexer::Punct;
use c_tree::{AssignOp, BinaryOp, Expr, PrefixOp};
use rr_base::Position;
use std::alloc::{AllocError, Global};

/// The operator that the sign is before an operand, if any.
pub fn as_prefix(punct: Punct) -> Option<PrefixOp>
    ensures { result ≡ spec.as_prefix punct }
{
    match punct {
        Punct::And => Some(PrefixOp::Address),
        Punct::Star => Some(PrefixOp::Indirect),
        Punct::Plus => Some(PrefixOp::Plus),
        Punct::Minus => Some(PrefixOp::Minus),
        Punct::Not => Some(PrefixOp::Not),
        Punct::Tilde => Some(PrefixOp::Complement),
        Punct::PlusPlus => Some(PrefixOp::Increment),
        Punct::MinusMinus => Some(PrefixOp::Decrement),
        _ => None,
    }
}

/// The operator that the sign is between two operands, if any.
pub fn as_binary(punct: Punct) -> Option<BinaryOp>
    ensures { result ≡ spec.as_binary punct }
{
    match punct {
        Punct::OrOr => Some(BinaryOp::LogicalOr),
        Punct::AndAnd => Some(BinaryOp::LogicalAnd),
        Punct::Or => Some(BinaryOp::Or),
        Punct::Caret => Some(BinaryOp::Xor),
        Punct::And => Some(BinaryOp::And),
        Punct::EqualEqual => Some(BinaryOp::Equal),
        Punct::NotEqual => Some(BinaryOp::NotEqual),
        Punct::Less => Some(BinaryOp::Less),
        Punct::Greater => Some(BinaryOp::Greater),
        Punct::LessEqual => Some(BinaryOp::LessEqual),
        Punct::GreaterEqual => Some(BinaryOp::GreaterEqual),
        Punct::ShiftLeft => Some(BinaryOp::ShiftLeft),
        Punct::ShiftRight => Some(BinaryOp::ShiftRight),
        Punct::Plus => Some(BinaryOp::Add),
        Punct::Minus => Some(BinaryOp::Subtract),
        Punct::Star => Some(BinaryOp::Multiply),
        Punct::Slash => Some(BinaryOp::Divide),
        Punct::Percent => Some(BinaryOp::Remainder),
        _ => None,
    }
}

/// The assignment that the sign is, if any.
pub fn as_assign(punct: Punct) -> Option<AssignOp>
    ensures { result ≡ spec.as_assign punct }
{
    match punct {
        Punct::Assign => Some(AssignOp::Assign),
        Punct::PlusAssign => Some(AssignOp::Add),
        Punct::MinusAssign => Some(AssignOp::Subtract),
        Punct::StarAssign => Some(AssignOp::Multiply),
        Punct::SlashAssign => Some(AssignOp::Divide),
        Punct::PercentAssign => Some(AssignOp::Remainder),
        Punct::AndAssign => Some(AssignOp::And),
        Punct::OrAssign => Some(AssignOp::Or),
        Punct::CaretAssign => Some(AssignOp::Xor),
        Punct::ShiftLeftAssign => Some(AssignOp::ShiftLeft),
        Punct::ShiftRightAssign => Some(AssignOp::ShiftRight),
        _ => None,
    }
}

// How tightly an operator binds, from the loosest.
fn tightness(op: BinaryOp) -> u8
    ensures { result ≡ spec_tightness op }
{
    match op {
        BinaryOp::LogicalOr => 3,
        BinaryOp::LogicalAnd => 4,
        BinaryOp::Or => 5,
        BinaryOp::Xor => 6,
        BinaryOp::And => 7,
        BinaryOp::Equal | BinaryOp::NotEqual => 8,
        BinaryOp::Less | BinaryOp::Greater | BinaryOp::LessEqual | BinaryOp::GreaterEqual => 9,
        BinaryOp::ShiftLeft | BinaryOp::ShiftRight => 10,
        BinaryOp::Add | BinaryOp::Subtract => 11,
        BinaryOp::Multiply | BinaryOp::Divide | BinaryOp::Remainder => 12,
    }
}

/// One operator and operand more. An operator that binds tighter than the last one takes that one's operand.
pub fn push(
    alloc: Global,
    left: Expr,
    op: BinaryOp,
    operand: Expr,
    place: Position,
) -> Result<Expr, AllocError>
    ensures { IfOk result (λ e. exp_of e ≡ spec_push (exp_of left) op (exp_of operand) place) }
{
    match left {
        Expr::Binary {
            left: first,
            op: last,
            right,
            at,
        } => {
            if tightness(last) < tightness(op) {
                let right = push(alloc, Box::into_inner(right), op, operand, place)?;
                Ok(Expr::Binary {
                    left: first,
                    op: last,
                    right: Box::new(alloc, right)?,
                    at,
                })
            } else {
                let left = Expr::Binary {
                    left: first,
                    op: last,
                    right,
                    at,
                };
                binary(alloc, left, op, operand, place)
            }
        }
        left => binary(alloc, left, op, operand, place),
    }
}

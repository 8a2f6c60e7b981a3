//! Makes trees of smaller ones.

ghost use Rattle.std.specs.Prelude.{◌≡◌, IfOk, map};
ghost use Rattle.c_tree.specs.Tree as tree;
ghost use Rattle.c_tree.specs.View.{exp_of, init_of};

use c_tree::{BinaryOp, CType, Expr, Initial, PrefixOp};
use rr_base::{Bytes, List, Position};
use std::alloc::{AllocError, Global};

/// Expressions with commas between them, at the place of the first.
pub fn comma(first: Box<Expr>, rest: List<Expr>, at: Position) -> Expr
    ensures { exp_of result ≡ tree.comma (exp_of first.value) (tree.listed (map exp_of rest)) at }
{
    Expr::Comma { first, rest, at }
}

/// Two operands and the operator between them.
pub fn binary(
    alloc: Global,
    left: Expr,
    op: BinaryOp,
    right: Expr,
    at: Position,
) -> Result<Expr, AllocError>
    ensures { IfOk result (λ e. exp_of e ≡ tree.binary (exp_of left) op (exp_of right) at) }
{
    Ok(Expr::Binary {
        left: Box::new(alloc, left)?,
        op,
        right: Box::new(alloc, right)?,
        at,
    })
}

/// An operator before its operand.
pub fn prefix(alloc: Global, op: PrefixOp, operand: Expr, at: Position) -> Result<Expr, AllocError>
    ensures { IfOk result (λ e. exp_of e ≡ tree.prefix op (exp_of operand) at) }
{
    Ok(Expr::Prefix {
        op,
        operand: Box::new(alloc, operand)?,
        at,
    })
}

/// `sizeof` of an expression.
pub fn sizeof_expr(alloc: Global, operand: Expr, at: Position) -> Result<Expr, AllocError>
    ensures { IfOk result (λ e. exp_of e ≡ tree.sizeof_exp (exp_of operand) at) }
{
    Ok(Expr::SizeofExpr {
        operand: Box::new(alloc, operand)?,
        at,
    })
}

/// A cast, at the place of its parenthesis.
pub fn cast(alloc: Global, to: CType, operand: Expr, at: Position) -> Result<Expr, AllocError>
    ensures { IfOk result (λ e. exp_of e ≡ tree.cast to (exp_of operand) at) }
{
    Ok(Expr::Cast {
        to,
        operand: Box::new(alloc, operand)?,
        at,
    })
}

/// A call, at the place of its name.
pub fn call(name: Bytes, arguments: List<Expr>, at: Position) -> Expr
    ensures { exp_of result ≡ tree.call name (tree.listed (map exp_of arguments)) at }
{
    Expr::Call {
        name,
        arguments,
        at,
    }
}

/// Initials in braces; whether a comma stands after the last is kept.
pub fn braces(parts: List<Initial>, comma: bool, at: Position) -> Initial
    ensures { init_of result ≡ tree.braces (tree.listed_inits (map init_of parts)) comma at }
{
    Initial::Braces { parts, comma, at }
}

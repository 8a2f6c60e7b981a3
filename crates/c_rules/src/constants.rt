//! The values of constant expressions (C99 6.6).
ghost use Rattle.std.specs.Prelude.{◌≡◌};
ghost use Rattle.c_tree.specs.View.{exp_of};
ghost use Rattle.c_constants.specs.Values.{value_here};

use crate::sizes::size_here;
use c_constants::{chosen_value, constant_named, operation_value, prefix_value};
use c_tree::Expr;
use c_types::Names;
use rr_base::Trap;

/// The value of a constant expression at its place, or the trap that computing it meets. It is 0 for what isn't
/// constant.
pub fn value_of<N: Names>(names: &N, e: &Expr) -> Result<i64, Trap>
    ensures { result ≡ value_here (N.known names.now) (exp_of e.now) }
{
    match e {
        Expr::Conditional { test, yes, no, .. } => chosen_value(
            value_of(names, test),
            value_of(names, yes),
            value_of(names, no),
        ),
        Expr::Binary {
            left,
            op,
            right,
            ..
        } => operation_value(*op, value_of(names, left), value_of(names, right)),
        Expr::Prefix { op, operand, .. } => prefix_value(*op, value_of(names, operand)),
        Expr::SizeofExpr { .. } | Expr::SizeofType { .. } => Ok(i64::from(size_here(names, e))),
        Expr::Cast { operand, .. } => value_of(names, operand),
        Expr::Paren { inner, .. } => value_of(names, inner),
        Expr::Name { name, .. } => Ok(constant_named(name.as_slice()).unwrap_or(0)),
        Expr::Number { value, .. } => Ok(*value),
        Expr::Letter { value, .. } => Ok(i64::from(*value)),
        Expr::Comma { .. }
        | Expr::Assign { .. }
        | Expr::Index { .. }
        | Expr::Member { .. }
        | Expr::Arrow { .. }
        | Expr::PostIncrement { .. }
        | Expr::PostDecrement { .. }
        | Expr::Call { .. }
        | Expr::Text { .. }
        | Expr::Null { .. } => Ok(0),
    }
}

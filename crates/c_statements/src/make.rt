//! Makes core trees of statements of smaller ones.
ghost use Rattle.std.specs.Prelude.{◌≡◌, IfOk, map};
ghost use Rattle.core_tree.specs.Core as core;
ghost use Rattle.core_tree.specs.View.{exp_of, maybe_of, stmt_of};
ghost use Rattle.c_operators.specs.Views.{maybe_word};

use core_tree::{Statement, Value};
use rr_base::{List, Position};
use std::alloc::{AllocError, Global};

/// A statement in a box of its own.
fn placed(alloc: Global, statement: Statement) -> Result<Box<Statement>, AllocError>
    ensures { IfOk result (λ s. stmt_of s.value ≡ stmt_of statement) }
{
    let placed = Box::new(alloc, statement)?;
    Ok(placed)
}

/// No word, or one in no box.
fn unboxed(value: Option<Box<Value>>) -> Option<Value>
    ensures { maybe_of result ≡ maybe_word value }
{
    match value {
        None => None,
        Some(value) => Some(Box::into_inner(value)),
    }
}

/// A block (C99 6.8.2).
pub fn block(alloc: Global, inner: List<Statement>) -> Result<Box<Statement>, AllocError>
    ensures { IfOk result (λ s. stmt_of s.value ≡ core.block (core.listed_statements (map stmt_of inner))) }
{
    placed(alloc, Statement::Block(inner))
}

/// A word computed for what it does (C99 6.8.3).
pub fn compute(alloc: Global, value: Box<Value>) -> Result<Box<Statement>, AllocError>
    ensures { IfOk result (λ s. stmt_of s.value ≡ core.compute (exp_of value.value)) }
{
    placed(alloc, Statement::Compute(Box::into_inner(value)))
}

/// A `break` (C99 6.8.6.3).
pub fn break_at(alloc: Global, at: Position) -> Result<Box<Statement>, AllocError>
    ensures { IfOk result (λ s. stmt_of s.value ≡ core.break_at at) }
{
    placed(alloc, Statement::Break { at })
}

/// A `continue` (C99 6.8.6.2).
pub fn continue_at(alloc: Global, at: Position) -> Result<Box<Statement>, AllocError>
    ensures { IfOk result (λ s. stmt_of s.value ≡ core.continue_at at) }
{
    placed(alloc, Statement::Continue { at })
}

/// A `return`.
pub fn gives(
    alloc: Global,
    value: Option<Box<Value>>,
    at: Position,
) -> Result<Box<Statement>, AllocError>
    ensures { IfOk result (λ s. stmt_of s.value ≡ core.gives (maybe_word value) at) }
{
    let value = unboxed(value);
    placed(alloc, Statement::Return { value, at })
}

/// An `if` without `else`.
pub fn branch(
    alloc: Global,
    test: Box<Value>,
    yes: Box<Statement>,
    at: Position,
) -> Result<Box<Statement>, AllocError>
    ensures { IfOk result (λ s. stmt_of s.value ≡ core.branch (exp_of test.value) (stmt_of yes.value) at) }
{
    let test = Box::into_inner(test);
    placed(alloc, Statement::If { test, yes, at })
}

/// An `if` with `else`.
pub fn branch_else(
    alloc: Global,
    test: Box<Value>,
    yes: Box<Statement>,
    no: Box<Statement>,
    at: Position,
) -> Result<Box<Statement>, AllocError>
    ensures { IfOk result (λ s. stmt_of s.value ≡ core.branch_else (exp_of test.value) (stmt_of yes.value) (stmt_of no.value) at) }
{
    let test = Box::into_inner(test);
    placed(alloc, Statement::IfElse { test, yes, no, at })
}

/// A `while` (C99 6.8.5.1).
pub fn while_loop(
    alloc: Global,
    test: Box<Value>,
    body: Box<Statement>,
    at: Position,
) -> Result<Box<Statement>, AllocError>
    ensures { IfOk result (λ s. stmt_of s.value ≡ core.while_loop (exp_of test.value) (stmt_of body.value) at) }
{
    let test = Box::into_inner(test);
    placed(alloc, Statement::While { test, body, at })
}

/// A `do` (C99 6.8.5.2).
pub fn do_loop(
    alloc: Global,
    body: Box<Statement>,
    test: Box<Value>,
    at: Position,
) -> Result<Box<Statement>, AllocError>
    ensures { IfOk result (λ s. stmt_of s.value ≡ core.do_loop (stmt_of body.value) (exp_of test.value) at) }
{
    let test = Box::into_inner(test);
    placed(alloc, Statement::Do { body, test, at })
}

/// What stands in the parentheses of a `for`.
#[derive(Drop)]
pub struct ForHead {
    pub start: Box<Statement>,
    pub test: Option<Box<Value>>,
    pub step: Option<Box<Value>>,
}

/// A `for` (C99 6.8.5.3).
pub fn for_loop(
    alloc: Global,
    head: ForHead,
    body: Box<Statement>,
    at: Position,
) -> Result<Box<Statement>, AllocError>
    ensures { IfOk result (λ s. stmt_of s.value ≡ core.for_loop (stmt_of head.start.value) (maybe_word head.test) (maybe_word head.step) (stmt_of body.value) at) }
{
    let ForHead { start, test, step } = head;
    let test = unboxed(test);
    let step = unboxed(step);
    placed(
        alloc,
        Statement::For {
            start,
            test,
            step,
            body,
            at,
        },
    )
}

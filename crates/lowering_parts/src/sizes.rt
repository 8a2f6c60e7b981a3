//! How many instructions the code of a core tree has. It tells where jumps go that are made before their target.
ghost use Rattle.std.specs.Prelude.{◌≡◌, ◌+◌, map, IfOk};
ghost use Rattle.rr_base.specs.declared.position.Position.{Position};
ghost use Rattle.core_tree.specs.Core.{listed, listed_statements};
ghost use Rattle.core_tree.specs.View.{exp_of, simple_of, operation_of, choice_of, assignment_of, call_of, maybe_of, stmt_of};
ghost use Rattle.lowering_parts.specs.Kept.{kept, all_kept, maybe_kept, statement_kept, statements_kept, before, before_all};
ghost use Rattle.lowering_parts.specs.Sizes as spec;

use crate::copies::{loses, loses_to};
use crate::library::library_size;
use core_tree::{Assignment, Call, Choice, Operation, Simple, Statement, Value};
use rr_base::sum;
use std::alloc::AllocError;

/// The sum of three.
fn sum_of(a: u32, b: u32, c: u32) -> Result<u32, AllocError>
    ensures { IfOk result (λ n. n ≡ a + (b + c)) }
{
    let rest = sum(b, c)?;
    sum(a, rest)
}

/// The sum of four.
fn sum_of_four(a: u32, b: u32, c: u32, d: u32) -> Result<u32, AllocError>
    ensures { IfOk result (λ n. n ≡ a + (b + (c + d))) }
{
    let rest = sum_of(b, c, d)?;
    sum(a, rest)
}

/// A condition and two values, of which one is taken.
fn conditional_size(test: u32, yes: u32, no: u32) -> Result<u32, AllocError>
    ensures { IfOk result (λ n. n ≡ test + (1 + (yes + (1 + (1 + (no + 1)))))) }
{
    let rest = sum_of_four(yes, 2, no, 1)?;
    sum_of(test, 1, rest)
}

fn simple_size(simple: Simple) -> u32
    ensures { (at : Position) → result ≡ spec.exp_size (kept (simple_of simple at)) }
{
    match simple {
        Simple::Number(_) => 1,
        Simple::Null => 1,
        Simple::Register { .. } => 0,
        Simple::Object(_) => 0,
        Simple::Global(_) => 1,
    }
}

/// The instructions of an expression.
#[cycle(exp_size)]
pub fn value_size(e: &Value) -> Result<u32, AllocError>
    ensures { IfOk result (λ n. n ≡ spec.exp_size (kept (exp_of e.now))) }
{
    match e {
        Value::Simple { simple, .. } => Ok(simple_size(*simple)),
        Value::Operates(operation) => operation_size(operation),
        Value::Chooses(choice) => choice_size(choice),
        Value::Assigns(assignment) => assignment_size(assignment),
        Value::Calls(call) => call_size(call),
    }
}

/// The instructions of an operand before another one.
#[cycle(exp_size)]
fn size_before(e: &Value, later: &Value) -> Result<u32, AllocError>
    ensures { (at : Position) → IfOk result (λ n. n ≡ spec.exp_size (before at (exp_of e.now) (exp_of later.now))) }
{
    let size = value_size(e)?;
    if loses(e, later) {
        sum(size, 1)
    } else {
        Ok(size)
    }
}

/// The instructions of an argument before others.
#[cycle(exp_size)]
fn size_before_all(e: &Value, later: &[Value]) -> Result<u32, AllocError>
    ensures { (at : Position) → IfOk result (λ n. n ≡ spec.exp_size (before_all at (exp_of e.now) (listed (map exp_of later.now)))) }
{
    let size = value_size(e)?;
    if loses_to(e, later) {
        sum(size, 1)
    } else {
        Ok(size)
    }
}

#[cycle(exp_size)]
fn operation_size(operation: &Operation) -> Result<u32, AllocError>
    ensures { IfOk result (λ n. n ≡ spec.exp_size (kept (operation_of operation.now))) }
{
    match operation {
        Operation::Load { through, .. } => sum(value_size(through)?, 1),
        Operation::Unary { operand, .. } => sum(value_size(operand)?, 1),
        Operation::Binary { left, right, .. } => sum_of(
            size_before(left, right)?,
            value_size(right)?,
            1,
        ),
        Operation::Move { pointer, by, .. } => sum_of(
            size_before(pointer, by)?,
            value_size(by)?,
            1,
        ),
        Operation::Advance { by, pointer, .. } => sum_of(
            size_before(by, pointer)?,
            value_size(pointer)?,
            1,
        ),
        Operation::Member { pointer, .. } => sum(value_size(pointer)?, 1),
        Operation::Between { left, right, .. } => sum_of(
            size_before(left, right)?,
            value_size(right)?,
            1,
        ),
        Operation::ToPointer { operand, .. } => sum(value_size(operand)?, 1),
        Operation::ToNumber { operand, .. } => sum(value_size(operand)?, 1),
        Operation::Copy { operand, .. } => sum(value_size(operand)?, 1),
    }
}

#[cycle(exp_size)]
fn choice_size(choice: &Choice) -> Result<u32, AllocError>
    ensures { IfOk result (λ n. n ≡ spec.exp_size (kept (choice_of choice.now))) }
{
    match choice {
        Choice::And { left, right, .. } => sum_of_four(value_size(left)?, 1, value_size(right)?, 4),
        Choice::Or { left, right, .. } => sum_of_four(value_size(left)?, 1, value_size(right)?, 4),
        Choice::Conditional { test, yes, no, .. } => {
            conditional_size(value_size(test)?, value_size(yes)?, value_size(no)?)
        }
        Choice::Comma { before, value, .. } => sum_of(value_size(before)?, value_size(value)?, 1),
    }
}

#[cycle(exp_size)]
fn assignment_size(assignment: &Assignment) -> Result<u32, AllocError>
    ensures { IfOk result (λ n. n ≡ spec.exp_size (kept (assignment_of assignment.now))) }
{
    match assignment {
        Assignment::Set { value, .. } => sum(value_size(value)?, 2),
        Assignment::Store { through, value, .. } => {
            sum_of(size_before(through, value)?, value_size(value)?, 2)
        }
        Assignment::ChangeRegister { operand, .. } => sum_of(1, value_size(operand)?, 3),
        Assignment::ChangeCell {
            through,
            operand,
            ..
        } => sum_of_four(size_before(through, operand)?, 1, value_size(operand)?, 3),
    }
}

#[cycle(exp_size)]
fn call_size(call: &Call) -> Result<u32, AllocError>
    ensures { IfOk result (λ n. n ≡ spec.exp_size (kept (call_of call.now))) }
{
    match call {
        Call::Function { arguments, .. } => sum(values_size(arguments.as_slice())?, 1),
        Call::Library {
            call: library,
            arguments,
            ..
        } => sum(values_size(arguments.as_slice())?, library_size(library)),
        Call::Allocate { size, .. } => sum(value_size(size)?, 1),
    }
}

/// The instructions of arguments, one after another.
#[cycle(exp_size)]
fn values_size(es: &[Value]) -> Result<u32, AllocError>
    ensures { (at : Position) → IfOk result (λ n. n ≡ spec.exps_size (all_kept at (listed (map exp_of es.now)))) }
{
    let mut size = 0;
    for index in 0..es.len() {
        size = sum(size, size_before_all(&es[index], &es[index + 1..])?)?;
    }
    Ok(size)
}

/// The instructions of an expression that may not be there.
pub fn maybe_size(e: &Option<Value>) -> Result<u32, AllocError>
    ensures { IfOk result (λ n. n ≡ spec.maybe_size (maybe_kept (maybe_of e.now))) }
{
    match e {
        None => Ok(0),
        Some(e) => value_size(e),
    }
}

/// The instructions of a condition that may not be there, with its branch.
pub fn test_size(e: &Option<Value>) -> Result<u32, AllocError>
    ensures { IfOk result (λ n. n ≡ spec.test_size (maybe_kept (maybe_of e.now))) }
{
    match e {
        None => Ok(0),
        Some(e) => sum(value_size(e)?, 1),
    }
}

/// A `for`, by the sizes of its parts.
fn for_size(start: u32, test: u32, body: u32, step: u32) -> Result<u32, AllocError>
    ensures { IfOk result (λ n. n ≡ start + (1 + (test + (body + (step + 1))))) }
{
    let rest = sum_of(body, step, 1)?;
    sum_of_four(start, 1, test, rest)
}

/// The instructions of a statement.
#[cycle(statement_size)]
pub fn statement_size(stmt: &Statement) -> Result<u32, AllocError>
    ensures { IfOk result (λ n. n ≡ spec.statement_size (statement_kept (stmt_of stmt.now))) }
{
    match stmt {
        Statement::Block(stmts) => statements_size(stmts.as_slice()),
        Statement::Compute(value) => value_size(value),
        Statement::If { test, yes, .. } => sum_of(value_size(test)?, 1, statement_size(yes)?),
        Statement::IfElse { test, yes, no, .. } => {
            let rest = sum_of(statement_size(yes)?, 1, statement_size(no)?)?;
            sum_of(value_size(test)?, 1, rest)
        }
        Statement::While { test, body, .. } => {
            let rest = sum_of(1, statement_size(body)?, 1)?;
            sum_of(1, value_size(test)?, rest)
        }
        Statement::Do { body, test, .. } => {
            sum_of_four(1, statement_size(body)?, value_size(test)?, 1)
        }
        Statement::For {
            start,
            test,
            step,
            body,
            ..
        } => for_size(
            statement_size(start)?,
            test_size(test)?,
            statement_size(body)?,
            maybe_size(step)?,
        ),
        Statement::Break { .. } => Ok(1),
        Statement::Continue { .. } => Ok(1),
        Statement::Return { value, .. } => sum(maybe_size(value)?, 1),
    }
}

/// The instructions of several statements, one after another.
#[cycle(statement_size)]
fn statements_size(stmts: &[Statement]) -> Result<u32, AllocError>
    ensures { IfOk result (λ n. n ≡ spec.statements_size (statements_kept (listed_statements (map stmt_of stmts.now)))) }
{
    let mut size = 0;
    for stmt in stmts {
        size = sum(size, statement_size(stmt)?)?;
    }
    Ok(size)
}

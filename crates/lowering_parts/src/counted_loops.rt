//! The counted loops of a function.
ghost use Rattle.std.specs.Prelude.{◌≡◌, ◌+◌, ◌≤◌, ◌++◌, map, option_to_list, IfOk, OnOk};
ghost use Rattle.core_tree.specs.Core.{listed_statements};
ghost use Rattle.core_tree.specs.View.{exp_of, maybe_of, stmt_of};
ghost use Rattle.lowering_parts.specs.Kept.{kept, maybe_kept, statement_kept, statements_kept};
ghost use Rattle.lowering_parts.specs.Sizes as size;
ghost use Rattle.lowering_parts.specs.Loops as spec;

use crate::sizes::{maybe_size, statement_size, test_size, value_size};
use core_tree::{Assignment, Change, Operation, Simple, Statement, Value};
use flow_code::{Bound, LoopInfo};
use rr_base::{List, sum};
use std::alloc::AllocError;
use word_semantics::BinaryOp;

fn number_of(e: &Value) -> Option<i64>
    ensures { result ≡ spec.number_of (exp_of e.now) }
{
    match e {
        Value::Simple {
            simple: Simple::Number(number),
            ..
        } => Some(*number),
        _ => None,
    }
}

/// The register that the expression is, if it is one and no pointer.
fn register_of(e: &Value) -> Option<u32>
    ensures { result ≡ spec.register_of (exp_of e.now) }
{
    match e {
        Value::Simple {
            simple: Simple::Register {
                number,
                pointer: false,
            },
            ..
        } => Some(*number),
        _ => None,
    }
}

fn bound_of(e: &Value) -> Option<Bound>
    ensures { result ≡ spec.bound_of (exp_of e.now) }
{
    match number_of(e) {
        Some(number) => Some(Bound::Number(number)),
        None => register_of(e).map(Bound::Register),
    }
}

/// Of `i < b`: i and b.
fn limit_of(e: &Value) -> Option<(u32, Bound)>
    ensures { result ≡ spec.limit_of (exp_of e.now) }
{
    match e {
        Value::Operates(
            Operation::Binary {
                op: BinaryOp::Less,
                left,
                right,
                ..
            },
        ) => Some((register_of(left)?, bound_of(right)?)),
        _ => None,
    }
}

/// Of `i + c`: i and c.
fn sum_of(e: &Value) -> Option<(u32, i64)>
    ensures { result ≡ spec.sum_of (exp_of e.now) }
{
    match e {
        Value::Operates(
            Operation::Binary {
                op: BinaryOp::Add,
                left,
                right,
                ..
            },
        ) => Some((register_of(left)?, number_of(right)?)),
        _ => None,
    }
}

/// Of `i++`, `++i`, `i += c` and `i = i + c`: c.
fn step_of(counter: u32, e: &Value) -> Option<i64>
    ensures { result ≡ spec.step_of counter (exp_of e.now) }
{
    match e {
        Value::Assigns(
            Assignment::ChangeRegister {
                register,
                change: Change::Compute(BinaryOp::Add),
                operand,
                ..
            },
        ) if *register == counter => number_of(operand),
        Value::Assigns(
            Assignment::Set {
                register,
                value,
                ..
            },
        ) if *register == counter => match sum_of(value)? {
            (from, by) if from == counter => Some(by),
            _ => None,
        },
        _ => None,
    }
}

/// A `for` as a counted loop, if it is one.
fn loop_of(
    test: &Option<Value>,
    step: &Option<Value>,
    mark: u32,
    first: u32,
    back: u32,
) -> Option<LoopInfo>
    requires { 1 ≤ back }
    ensures { result ≡ spec.loop_of (maybe_of test.now) (maybe_of step.now) mark first back }
{
    let (counter, bound) = limit_of(test.as_ref()?)?;
    let step = step_of(counter, step.as_ref()?)?;
    if step > 0 {
        Some(LoopInfo {
            at: mark,
            first,
            last: back - 1,
            counter,
            bound,
            step,
        })
    } else {
        None
    }
}

/// After a condition and its branch that begin at the place.
fn after_branch(place: u32, test: &Value) -> Result<u32, AllocError>
    ensures { IfOk result (λ n. n ≡ place + size.exp_size (kept (exp_of test.now)) + 1) }
{
    sum(sum(place, value_size(test)?)?, 1)
}

/// After a `return` that begins at the place.
fn after_return(place: u32, value: &Option<Value>) -> Result<u32, AllocError>
    ensures { IfOk result (λ n. n ≡ place + size.maybe_size (maybe_kept (maybe_of value.now)) + 1) }
{
    sum(sum(place, maybe_size(value)?)?, 1)
}

/// Where the body of a `for` begins whose Mark is at the place.
fn body_of_for(mark: u32, test: &Option<Value>) -> Result<u32, AllocError>
    ensures { IfOk result (λ n. n ≡ mark + 1 + size.test_size (maybe_kept (maybe_of test.now))) }
{
    sum(sum(mark, 1)?, test_size(test)?)
}

/// Where the jump back of a loop stands whose body begins at the place.
fn back_after(first: u32, body: &Statement, step: &Option<Value>) -> Result<u32, AllocError>
    ensures { IfOk result (λ n. n ≡ first + size.statement_size (statement_kept (stmt_of body.now)) + size.maybe_size (maybe_kept (maybe_of step.now))) }
{
    sum(sum(first, statement_size(body)?)?, maybe_size(step)?)
}

fn push_loop(found: Option<LoopInfo>, out: &mut List<LoopInfo>) -> Result<(), AllocError>
    ensures { OnOk result (out.new ≡ out.old ++ option_to_list found) }
{
    match found {
        Some(counted) => out.push(counted),
        None => Ok(()),
    }
}

/// The counted loops of a statement whose code begins at the place, and where it ends.
#[cycle(statement_loops)]
pub fn push_statement_loops(
    stmt: &Statement,
    place: u32,
    out: &mut List<LoopInfo>,
) -> Result<u32, AllocError>
    ensures end { IfOk result (λ n. n ≡ place + size.statement_size (statement_kept (stmt_of stmt.now))) }
    ensures out { OnOk result (out.new ≡ out.old ++ spec.statement_loops (stmt_of stmt.now) place) }
{
    match stmt {
        Statement::Block(stmts) => push_loops(stmts.as_slice(), place, out),
        Statement::Compute(value) => sum(place, value_size(value)?),
        Statement::If { test, yes, .. } => {
            push_statement_loops(yes, after_branch(place, test)?, out)
        }
        Statement::IfElse { test, yes, no, .. } => {
            let jump = push_statement_loops(yes, after_branch(place, test)?, out)?;
            push_statement_loops(no, sum(jump, 1)?, out)
        }
        Statement::While { test, body, .. } => {
            let first = after_branch(sum(place, 1)?, test)?;
            let back = push_statement_loops(body, first, out)?;
            sum(back, 1)
        }
        Statement::Do { body, test, .. } => {
            let tested = push_statement_loops(body, sum(place, 1)?, out)?;
            after_branch(tested, test)
        }
        Statement::For {
            start,
            test,
            step,
            body,
            ..
        } => {
            let mark = push_statement_loops(start, place, out)?;
            let first = body_of_for(mark, test)?;
            let back = back_after(first, body, step)?;
            push_loop(loop_of(test, step, mark, first, back), out)?;
            push_statement_loops(body, first, out)?;
            sum(back, 1)
        }
        Statement::Break { .. } => sum(place, 1),
        Statement::Continue { .. } => sum(place, 1),
        Statement::Return { value, .. } => after_return(place, value),
    }
}

/// The counted loops of several statements, one after another.
#[cycle(statement_loops)]
fn push_loops(stmts: &[Statement], place: u32, out: &mut List<LoopInfo>) -> Result<u32, AllocError>
    ensures end { IfOk result (λ n. n ≡ place + size.statements_size (statements_kept (listed_statements (map stmt_of stmts.now)))) }
    ensures out { OnOk result (out.new ≡ out.old ++ spec.statements_loops (listed_statements (map stmt_of stmts.now)) place) }
{
    let mut next = place;
    for stmt in stmts {
        next = push_statement_loops(stmt, next, out)?;
    }
    Ok(next)
}

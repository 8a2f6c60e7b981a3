//! Which registers of a function are pointers.
ghost use Rattle.std.specs.Prelude.{◌≡◌, ◌++◌, ◌∷◌, [], map, OnOk};
ghost use Rattle.rr_base.specs.declared.position.Position.{Position};
ghost use Rattle.core_tree.specs.Core.{listed, listed_statements};
ghost use Rattle.core_tree.specs.View.{exp_of, simple_of, operation_of, choice_of, assignment_of, call_of, maybe_of, stmt_of};
ghost use Rattle.core_tree.specs.Meaning as meaning;
ghost use Rattle.lowering_parts.specs.Kept.{kept, all_kept, maybe_kept, statement_kept, statements_kept, before, before_all};
ghost use Rattle.lowering_parts.specs.Kinds as spec;

use crate::copies::{loses, loses_to};
use core_tree::{Assignment, Call, Change, Choice, Operation, Simple, Statement, Value};
use rr_base::List;
use std::alloc::AllocError;

fn is_pointer_change(change: Change) -> bool
    ensures { result ≡ meaning.is_pointer_change change }
{
    match change {
        Change::Compute(_) => false,
        Change::Move { .. } => true,
    }
}

fn is_pointer_simple(simple: Simple) -> bool
    ensures { (at : Position) → result ≡ meaning.is_pointer (kept (simple_of simple at)) }
{
    match simple {
        Simple::Number(_) => false,
        Simple::Null => true,
        Simple::Register { pointer, .. } => pointer,
        Simple::Object(_) => true,
        Simple::Global(_) => true,
    }
}

/// Whether an expression gives a pointer.
#[cycle(is_pointer)]
fn is_pointer(e: &Value) -> bool
    ensures { result ≡ meaning.is_pointer (kept (exp_of e.now)) }
{
    match e {
        Value::Simple { simple, .. } => is_pointer_simple(*simple),
        Value::Operates(operation) => is_pointer_operation(operation),
        Value::Chooses(choice) => is_pointer_choice(choice),
        Value::Assigns(assignment) => is_pointer_assignment(assignment),
        Value::Calls(call) => is_pointer_call(call),
    }
}

#[cycle(is_pointer)]
fn is_pointer_operation(operation: &Operation) -> bool
    ensures { result ≡ meaning.is_pointer (kept (operation_of operation.now)) }
{
    match operation {
        Operation::Load { pointer, .. } => *pointer,
        Operation::Unary { .. } => false,
        Operation::Binary { .. } => false,
        Operation::Move { .. } => true,
        Operation::Advance { .. } => true,
        Operation::Member { .. } => true,
        Operation::Between { .. } => false,
        Operation::ToPointer { .. } => true,
        Operation::ToNumber { .. } => false,
        Operation::Copy { operand, .. } => is_pointer(operand),
    }
}

#[cycle(is_pointer)]
fn is_pointer_choice(choice: &Choice) -> bool
    ensures { result ≡ meaning.is_pointer (kept (choice_of choice.now)) }
{
    match choice {
        Choice::And { .. } => false,
        Choice::Or { .. } => false,
        Choice::Conditional { yes, .. } => is_pointer(yes),
        Choice::Comma { value, .. } => is_pointer(value),
    }
}

#[cycle(is_pointer)]
fn is_pointer_assignment(assignment: &Assignment) -> bool
    ensures { result ≡ meaning.is_pointer (kept (assignment_of assignment.now)) }
{
    match assignment {
        Assignment::Set { value, .. } => is_pointer(value),
        Assignment::Store { value, .. } => is_pointer(value),
        Assignment::ChangeRegister { change, .. } => is_pointer_change(*change),
        Assignment::ChangeCell { change, .. } => is_pointer_change(*change),
    }
}

fn is_pointer_call(call: &Call) -> bool
    ensures { result ≡ meaning.is_pointer (kept (call_of call.now)) }
{
    match call {
        Call::Function { gives_pointer, .. } => *gives_pointer,
        Call::Library { .. } => false,
        Call::Allocate { .. } => true,
    }
}

fn push_simple_kinds(simple: Simple, out: &mut List<bool>) -> Result<(), AllocError>
    ensures { (at : Position) → OnOk result (out.new ≡ out.old ++ spec.exp_kinds (kept (simple_of simple at))) }
{
    match simple {
        Simple::Number(_) => out.push(false),
        Simple::Null => out.push(true),
        Simple::Register { .. } => Ok(()),
        Simple::Object(_) => Ok(()),
        Simple::Global(_) => out.push(true),
    }
}

/// The kinds of the registers of an expression, that of its value first.
#[cycle(exp_kinds)]
pub fn push_kinds(e: &Value, out: &mut List<bool>) -> Result<(), AllocError>
    ensures { OnOk result (out.new ≡ out.old ++ spec.exp_kinds (kept (exp_of e.now))) }
{
    match e {
        Value::Simple { simple, .. } => push_simple_kinds(*simple, out),
        Value::Operates(operation) => push_operation_kinds(operation, out),
        Value::Chooses(choice) => push_choice_kinds(choice, out),
        Value::Assigns(assignment) => push_assignment_kinds(assignment, out),
        Value::Calls(call) => push_call_kinds(call, out),
    }
}

/// Those of an operand before another one.
#[cycle(exp_kinds)]
fn push_kinds_before(e: &Value, later: &Value, out: &mut List<bool>) -> Result<(), AllocError>
    ensures { (at : Position) → OnOk result (out.new ≡ out.old ++ spec.exp_kinds (before at (exp_of e.now) (exp_of later.now))) }
{
    if loses(e, later) {
        out.push(is_pointer(e))?;
    }
    push_kinds(e, out)
}

/// Those of an argument before others.
#[cycle(exp_kinds)]
fn push_kinds_before_all(e: &Value, later: &[Value], out: &mut List<bool>) -> Result<(), AllocError>
    ensures { (at : Position) → OnOk result (out.new ≡ out.old ++ spec.exp_kinds (before_all at (exp_of e.now) (listed (map exp_of later.now)))) }
{
    if loses_to(e, later) {
        out.push(is_pointer(e))?;
    }
    push_kinds(e, out)
}

#[cycle(exp_kinds)]
fn push_operation_kinds(operation: &Operation, out: &mut List<bool>) -> Result<(), AllocError>
    ensures { OnOk result (out.new ≡ out.old ++ spec.exp_kinds (kept (operation_of operation.now))) }
{
    out.push(is_pointer_operation(operation))?;
    match operation {
        Operation::Load { through, .. } => push_kinds(through, out),
        Operation::Unary { operand, .. } => push_kinds(operand, out),
        Operation::Binary { left, right, .. } => {
            push_kinds_before(left, right, out)?;
            push_kinds(right, out)
        }
        Operation::Move { pointer, by, .. } => {
            push_kinds_before(pointer, by, out)?;
            push_kinds(by, out)
        }
        Operation::Advance { by, pointer, .. } => {
            push_kinds_before(by, pointer, out)?;
            push_kinds(pointer, out)
        }
        Operation::Member { pointer, .. } => push_kinds(pointer, out),
        Operation::Between { left, right, .. } => {
            push_kinds_before(left, right, out)?;
            push_kinds(right, out)
        }
        Operation::ToPointer { operand, .. } => push_kinds(operand, out),
        Operation::ToNumber { operand, .. } => push_kinds(operand, out),
        Operation::Copy { operand, .. } => push_kinds(operand, out),
    }
}

#[cycle(exp_kinds)]
fn push_choice_kinds(choice: &Choice, out: &mut List<bool>) -> Result<(), AllocError>
    ensures { OnOk result (out.new ≡ out.old ++ spec.exp_kinds (kept (choice_of choice.now))) }
{
    out.push(is_pointer_choice(choice))?;
    match choice {
        Choice::And { left, right, .. } => {
            push_kinds(left, out)?;
            push_kinds(right, out)
        }
        Choice::Or { left, right, .. } => {
            push_kinds(left, out)?;
            push_kinds(right, out)
        }
        Choice::Conditional { test, yes, no, .. } => {
            push_kinds(test, out)?;
            push_kinds(yes, out)?;
            push_kinds(no, out)
        }
        Choice::Comma { before, value, .. } => {
            push_kinds(before, out)?;
            push_kinds(value, out)
        }
    }
}

/// The words before and after a change have registers too.
fn push_change_kinds(change: Change, out: &mut List<bool>) -> Result<(), AllocError>
    ensures { OnOk result (out.new ≡ out.old ++ (meaning.is_pointer_change change ∷ meaning.is_pointer_change change ∷ meaning.is_pointer_change change ∷ [])) }
{
    let kind = is_pointer_change(change);
    out.push(kind)?;
    out.push(kind)?;
    out.push(kind)
}

#[cycle(exp_kinds)]
fn push_assignment_kinds(assignment: &Assignment, out: &mut List<bool>) -> Result<(), AllocError>
    ensures { OnOk result (out.new ≡ out.old ++ spec.exp_kinds (kept (assignment_of assignment.now))) }
{
    match assignment {
        Assignment::Set { value, .. } => {
            out.push(is_pointer(value))?;
            push_kinds(value, out)
        }
        Assignment::Store { through, value, .. } => {
            out.push(is_pointer(value))?;
            push_kinds_before(through, value, out)?;
            push_kinds(value, out)
        }
        Assignment::ChangeRegister {
            change,
            operand,
            ..
        } => {
            push_change_kinds(*change, out)?;
            push_kinds(operand, out)
        }
        Assignment::ChangeCell {
            through,
            change,
            operand,
            ..
        } => {
            push_change_kinds(*change, out)?;
            push_kinds_before(through, operand, out)?;
            push_kinds(operand, out)
        }
    }
}

#[cycle(exp_kinds)]
fn push_call_kinds(call: &Call, out: &mut List<bool>) -> Result<(), AllocError>
    ensures { OnOk result (out.new ≡ out.old ++ spec.exp_kinds (kept (call_of call.now))) }
{
    out.push(is_pointer_call(call))?;
    match call {
        Call::Function { arguments, .. } => push_all_kinds(arguments.as_slice(), out),
        Call::Library { arguments, .. } => push_all_kinds(arguments.as_slice(), out),
        Call::Allocate { size, .. } => push_kinds(size, out),
    }
}

#[cycle(exp_kinds)]
fn push_all_kinds(es: &[Value], out: &mut List<bool>) -> Result<(), AllocError>
    ensures { (at : Position) → OnOk result (out.new ≡ out.old ++ spec.exps_kinds (all_kept at (listed (map exp_of es.now)))) }
{
    for index in 0..es.len() {
        push_kinds_before_all(&es[index], &es[index + 1..], out)?;
    }
    Ok(())
}

fn push_maybe_kinds(e: &Option<Value>, out: &mut List<bool>) -> Result<(), AllocError>
    ensures { OnOk result (out.new ≡ out.old ++ spec.maybe_kinds (maybe_kept (maybe_of e.now))) }
{
    match e {
        None => Ok(()),
        Some(e) => push_kinds(e, out),
    }
}

/// The kinds of the registers of a statement.
#[cycle(statement_kinds)]
pub fn push_statement_kinds(stmt: &Statement, out: &mut List<bool>) -> Result<(), AllocError>
    ensures { OnOk result (out.new ≡ out.old ++ spec.statement_kinds (statement_kept (stmt_of stmt.now))) }
{
    match stmt {
        Statement::Block(stmts) => push_statements_kinds(stmts.as_slice(), out),
        Statement::Compute(value) => push_kinds(value, out),
        Statement::If { test, yes, .. } => {
            push_kinds(test, out)?;
            push_statement_kinds(yes, out)
        }
        Statement::IfElse { test, yes, no, .. } => {
            push_kinds(test, out)?;
            push_statement_kinds(yes, out)?;
            push_statement_kinds(no, out)
        }
        Statement::While { test, body, .. } => {
            push_kinds(test, out)?;
            push_statement_kinds(body, out)
        }
        Statement::Do { body, test, .. } => {
            push_statement_kinds(body, out)?;
            push_kinds(test, out)
        }
        Statement::For {
            start,
            test,
            step,
            body,
            ..
        } => {
            push_statement_kinds(start, out)?;
            push_maybe_kinds(test, out)?;
            push_statement_kinds(body, out)?;
            push_maybe_kinds(step, out)
        }
        Statement::Break { .. } => Ok(()),
        Statement::Continue { .. } => Ok(()),
        Statement::Return { value, .. } => push_maybe_kinds(value, out),
    }
}

#[cycle(statement_kinds)]
fn push_statements_kinds(stmts: &[Statement], out: &mut List<bool>) -> Result<(), AllocError>
    ensures { OnOk result (out.new ≡ out.old ++ spec.statements_kinds (statements_kept (listed_statements (map stmt_of stmts.now)))) }
{
    for stmt in stmts {
        push_statement_kinds(stmt, out)?;
    }
    Ok(())
}

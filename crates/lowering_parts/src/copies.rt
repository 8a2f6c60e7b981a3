//! Which operands are copied: registers that a later operand assigns.
ghost use Rattle.std.specs.Prelude.{◌≡◌, map};
ghost use Rattle.core_tree.specs.Core.{listed};
ghost use Rattle.core_tree.specs.View.{exp_of, operation_of, choice_of, assignment_of, call_of};
ghost use Rattle.lowering_parts.specs.Kept as spec;

use core_tree::{Assignment, Call, Choice, Operation, Simple, Value};

/// Whether a part of the expression assigns the register.
#[cycle(assigns)]
fn assigns(register: u32, e: &Value) -> bool
    ensures { result ≡ spec.assigns register (exp_of e.now) }
{
    match e {
        Value::Simple { .. } => false,
        Value::Operates(operation) => operation_assigns(register, operation),
        Value::Chooses(choice) => choice_assigns(register, choice),
        Value::Assigns(assignment) => assignment_assigns(register, assignment),
        Value::Calls(call) => call_assigns(register, call),
    }
}

#[cycle(assigns)]
fn operation_assigns(register: u32, operation: &Operation) -> bool
    ensures { result ≡ spec.assigns register (operation_of operation.now) }
{
    match operation {
        Operation::Load { through, .. } => assigns(register, through),
        Operation::Unary { operand, .. } => assigns(register, operand),
        Operation::Binary { left, right, .. } => assigns(register, left)
            || assigns(register, right),
        Operation::Move { pointer, by, .. } => assigns(register, pointer) || assigns(register, by),
        Operation::Advance { by, pointer, .. } => {
            assigns(register, by) || assigns(register, pointer)
        }
        Operation::Member { pointer, .. } => assigns(register, pointer),
        Operation::Between { left, right, .. } => {
            assigns(register, left) || assigns(register, right)
        }
        Operation::ToPointer { operand, .. } => assigns(register, operand),
        Operation::ToNumber { operand, .. } => assigns(register, operand),
        Operation::Copy { operand, .. } => assigns(register, operand),
    }
}

#[cycle(assigns)]
fn choice_assigns(register: u32, choice: &Choice) -> bool
    ensures { result ≡ spec.assigns register (choice_of choice.now) }
{
    match choice {
        Choice::And { left, right, .. } => assigns(register, left) || assigns(register, right),
        Choice::Or { left, right, .. } => assigns(register, left) || assigns(register, right),
        Choice::Conditional { test, yes, no, .. } => {
            assigns(register, test) || assigns(register, yes) || assigns(register, no)
        }
        Choice::Comma { before, value, .. } => assigns(register, before)
            || assigns(register, value),
    }
}

#[cycle(assigns)]
fn assignment_assigns(register: u32, assignment: &Assignment) -> bool
    ensures { result ≡ spec.assigns register (assignment_of assignment.now) }
{
    match assignment {
        Assignment::Set {
            register: set,
            value,
            ..
        } => *set == register || assigns(register, value),
        Assignment::Store { through, value, .. } => {
            assigns(register, through) || assigns(register, value)
        }
        Assignment::ChangeRegister {
            register: changed,
            operand,
            ..
        } => *changed == register || assigns(register, operand),
        Assignment::ChangeCell {
            through,
            operand,
            ..
        } => assigns(register, through) || assigns(register, operand),
    }
}

#[cycle(assigns)]
fn call_assigns(register: u32, call: &Call) -> bool
    ensures { result ≡ spec.assigns register (call_of call.now) }
{
    match call {
        Call::Function { arguments, .. } => any_assigns(register, arguments.as_slice()),
        Call::Library { arguments, .. } => any_assigns(register, arguments.as_slice()),
        Call::Allocate { size, .. } => assigns(register, size),
    }
}

#[cycle(assigns)]
fn any_assigns(register: u32, es: &[Value]) -> bool
    ensures { result ≡ spec.any_assigns register (listed (map exp_of es.now)) }
{
    for e in es {
        if assigns(register, e) {
            return true;
        }
    }
    false
}

/// Whether the expression is a register that a later one assigns.
pub fn loses(e: &Value, later: &Value) -> bool
    ensures { result ≡ spec.loses (exp_of e.now) (λ n. spec.assigns n (exp_of later.now)) }
{
    match e {
        Value::Simple {
            simple: Simple::Register { number, .. },
            ..
        } => assigns(*number, later),
        _ => false,
    }
}

/// Whether it is a register that one of the later ones assigns.
pub fn loses_to(e: &Value, later: &[Value]) -> bool
    ensures { result ≡ spec.loses (exp_of e.now) (λ n. spec.any_assigns n (listed (map exp_of later.now))) }
{
    match e {
        Value::Simple {
            simple: Simple::Register { number, .. },
            ..
        } => any_assigns(*number, later),
        _ => false,
    }
}

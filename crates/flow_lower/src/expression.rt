//! The code of expressions.
ghost use Rattle.std.specs.Prelude.{◌≡◌, ◌+◌, ◌++◌, map, length, false, IfOk, OnOk};
ghost use Rattle.flow_code.specs.declared.act.Act.TheVariants as act;
ghost use Rattle.flow_code.specs.declared.work.Work.TheVariants as work;
ghost use Rattle.core_tree.specs.Core.{listed};
ghost use Rattle.core_tree.specs.View.{exp_of, simple_of, operation_of, choice_of, assignment_of, call_of};
ghost use Rattle.core_tree.specs.Core as core;
ghost use Rattle.lowering_parts.specs.Kept.{kept, all_kept, before, before_all};
ghost use Rattle.flow_lower.specs.Lowered as spec;

use core_tree::{Assignment, Call, Change, Choice, Operation, Simple, UnaryOp, Value};
use flow_code::{Act, Instr, Work};
use lowering_parts::{
    Next, Operand, copy_of, loses, loses_to, moved, places_of, push_alone, push_and, push_between,
    push_binary, push_cell_changed, push_chosen, push_computed, push_given, push_left,
    push_library, push_loaded, push_old, push_or, push_register_changed, push_set, push_stored,
    push_tested, unary_work,
};
use rr_base::{List, Position, sum};
use std::alloc::{AllocError, Global};

/// An expression without parts. A formal or local is its register.
pub fn push_simple(
    first: u32,
    simple: Simple,
    at: Position,
    from: Next,
    out: &mut List<Instr>,
) -> Result<Operand, AllocError>
    ensures value { IfOk result (λ o. o.register ≡ spec.held first (kept (simple_of simple at)) from.register) }
    ensures register { IfOk result (λ o. o.following.register ≡ from.register + spec.width (kept (simple_of simple at))) }
    ensures place { IfOk result (λ o. o.following.place ≡ from.place + spec.exp_size (kept (simple_of simple at))) }
    ensures out { OnOk result (out.new ≡ out.old ++ spec.exp_code first (kept (simple_of simple at)) from.register from.place) }
{
    match simple {
        Simple::Number(value) => push_alone(out, at, from, Work::Constant(value)),
        Simple::Null => push_alone(out, at, from, Work::Constant(0)),
        Simple::Register { number, .. } => Ok(Operand {
            register: number,
            following: from,
        }),
        Simple::Object(number) => Ok(Operand {
            register: sum(first, number)?,
            following: from,
        }),
        Simple::Global(address) => push_alone(out, at, from, Work::Address(address)),
    }
}

/// The code of an expression, and the register that has its value.
#[cycle(exp_code)]
pub fn push_value(
    alloc: Global,
    first: u32,
    e: &Value,
    from: Next,
    out: &mut List<Instr>,
) -> Result<Operand, AllocError>
    ensures value { IfOk result (λ o. o.register ≡ spec.held first (kept (exp_of e.now)) from.register) }
    ensures register { IfOk result (λ o. o.following.register ≡ from.register + spec.width (kept (exp_of e.now))) }
    ensures place { IfOk result (λ o. o.following.place ≡ from.place + spec.exp_size (kept (exp_of e.now))) }
    ensures out { OnOk result (out.new ≡ out.old ++ spec.exp_code first (kept (exp_of e.now)) from.register from.place) }
{
    match e {
        Value::Simple { simple, at } => push_simple(first, *simple, *at, from, out),
        Value::Operates(operation) => push_operation(alloc, first, operation, from, out),
        Value::Chooses(choice) => push_choice(alloc, first, choice, from, out),
        Value::Assigns(assignment) => push_assignment(alloc, first, assignment, from, out),
        Value::Calls(call) => push_call(alloc, first, call, from, out),
    }
}

/// The first operand of an expression, whose own register comes before those of the operand.
#[cycle(exp_code)]
fn push_operand(
    alloc: Global,
    first: u32,
    e: &Value,
    from: Next,
    out: &mut List<Instr>,
) -> Result<Operand, AllocError>
    ensures value { IfOk result (λ o. o.register ≡ spec.held first (kept (exp_of e.now)) (from.register + 1)) }
    ensures register { IfOk result (λ o. o.following.register ≡ from.register + 1 + spec.width (kept (exp_of e.now))) }
    ensures place { IfOk result (λ o. o.following.place ≡ from.place + spec.exp_size (kept (exp_of e.now))) }
    ensures out { OnOk result (out.new ≡ out.old ++ spec.exp_code first (kept (exp_of e.now)) (from.register + 1) from.place) }
{
    push_value(alloc, first, e, from.using(1)?, out)
}

/// A copy of an operand's word.
#[cycle(exp_code)]
fn push_copy(
    alloc: Global,
    first: u32,
    e: &Value,
    at: Position,
    from: Next,
    out: &mut List<Instr>,
) -> Result<Operand, AllocError>
    ensures value { IfOk result (λ o. o.register ≡ from.register) }
    ensures register { IfOk result (λ o. o.following.register ≡ from.register + 1 + spec.width (kept (exp_of e.now))) }
    ensures place { IfOk result (λ o. o.following.place ≡ from.place + (spec.exp_size (kept (exp_of e.now)) + 1)) }
    ensures out { OnOk result (out.new ≡ out.old ++ (spec.exp_code first (kept (exp_of e.now)) (from.register + 1) from.place ++ spec.computes at from.register (work.Copy (spec.held first (kept (exp_of e.now)) (from.register + 1))))) }
{
    let inner = push_operand(alloc, first, e, from, out)?;
    let work = Work::Copy(inner.register);
    push_computed(out, at, from.register, inner.following, work)
}

/// An operand before another one, from the first free register on.
#[cycle(exp_code)]
fn push_before(
    alloc: Global,
    first: u32,
    e: &Value,
    later: &Value,
    at: Position,
    from: Next,
    out: &mut List<Instr>,
) -> Result<Operand, AllocError>
    ensures value { IfOk result (λ o. o.register ≡ spec.held first (before at (exp_of e.now) (exp_of later.now)) from.register) }
    ensures register { IfOk result (λ o. o.following.register ≡ from.register + spec.width (before at (exp_of e.now) (exp_of later.now))) }
    ensures place { IfOk result (λ o. o.following.place ≡ from.place + spec.exp_size (before at (exp_of e.now) (exp_of later.now))) }
    ensures out { OnOk result (out.new ≡ out.old ++ spec.exp_code first (before at (exp_of e.now) (exp_of later.now)) from.register from.place) }
{
    if loses(e, later) {
        push_copy(alloc, first, e, at, from, out)
    } else {
        push_value(alloc, first, e, from, out)
    }
}

/// An argument before others.
#[cycle(exp_code)]
fn push_before_all(
    alloc: Global,
    first: u32,
    e: &Value,
    later: &[Value],
    at: Position,
    from: Next,
    out: &mut List<Instr>,
) -> Result<Operand, AllocError>
    ensures value { IfOk result (λ o. o.register ≡ spec.held first (before_all at (exp_of e.now) (listed (map exp_of later.now))) from.register) }
    ensures register { IfOk result (λ o. o.following.register ≡ from.register + spec.width (before_all at (exp_of e.now) (listed (map exp_of later.now)))) }
    ensures place { IfOk result (λ o. o.following.place ≡ from.place + spec.exp_size (before_all at (exp_of e.now) (listed (map exp_of later.now)))) }
    ensures out { OnOk result (out.new ≡ out.old ++ spec.exp_code first (before_all at (exp_of e.now) (listed (map exp_of later.now))) from.register from.place) }
{
    if loses_to(e, later) {
        push_copy(alloc, first, e, at, from, out)
    } else {
        push_value(alloc, first, e, from, out)
    }
}

/// The first of two operands, whose expression's own register comes before those of the operands.
#[cycle(exp_code)]
fn push_first(
    alloc: Global,
    first: u32,
    e: &Value,
    later: &Value,
    at: Position,
    from: Next,
    out: &mut List<Instr>,
) -> Result<Operand, AllocError>
    ensures value { IfOk result (λ o. o.register ≡ spec.held first (before at (exp_of e.now) (exp_of later.now)) (from.register + 1)) }
    ensures register { IfOk result (λ o. o.following.register ≡ from.register + 1 + spec.width (before at (exp_of e.now) (exp_of later.now))) }
    ensures place { IfOk result (λ o. o.following.place ≡ from.place + spec.exp_size (before at (exp_of e.now) (exp_of later.now))) }
    ensures out { OnOk result (out.new ≡ out.old ++ spec.exp_code first (before at (exp_of e.now) (exp_of later.now)) (from.register + 1) from.place) }
{
    push_before(alloc, first, e, later, at, from.using(1)?, out)
}

/// Operands one after another, and an instruction.
#[cycle(exp_code)]
fn push_operation(
    alloc: Global,
    first: u32,
    operation: &Operation,
    from: Next,
    out: &mut List<Instr>,
) -> Result<Operand, AllocError>
    ensures value { IfOk result (λ o. o.register ≡ spec.held first (kept (operation_of operation.now)) from.register) }
    ensures register { IfOk result (λ o. o.following.register ≡ from.register + spec.width (kept (operation_of operation.now))) }
    ensures place { IfOk result (λ o. o.following.place ≡ from.place + spec.exp_size (kept (operation_of operation.now))) }
    ensures out { OnOk result (out.new ≡ out.old ++ spec.exp_code first (kept (operation_of operation.now)) from.register from.place) }
{
    match operation {
        Operation::Load { through, at, .. } => push_load(alloc, first, through, *at, from, out),
        Operation::Unary { op, operand, at } => {
            push_unary(alloc, first, *op, operand, *at, from, out)
        }
        Operation::Binary {
            op,
            left,
            right,
            at,
        } => {
            let one = push_first(alloc, first, left, right, *at, from, out)?;
            let other = push_value(alloc, first, right, one.following, out)?;
            push_binary(out, *at, from.register, *op, one.register, other)
        }
        Operation::Move {
            pointer,
            by,
            element,
            back,
            at,
        } => {
            let one = push_first(alloc, first, pointer, by, *at, from, out)?;
            let other = push_value(alloc, first, by, one.following, out)?;
            let work = moved(one, other, *element, *back);
            push_computed(out, *at, from.register, other.following, work)
        }
        Operation::Advance {
            by,
            pointer,
            element,
            at,
        } => {
            let one = push_first(alloc, first, by, pointer, *at, from, out)?;
            let other = push_value(alloc, first, pointer, one.following, out)?;
            let work = moved(other, one, *element, false);
            push_computed(out, *at, from.register, other.following, work)
        }
        Operation::Member { pointer, by, at } => {
            push_member(alloc, first, pointer, *by, *at, from, out)
        }
        Operation::Between {
            left,
            right,
            element,
            at,
        } => {
            let one = push_first(alloc, first, left, right, *at, from, out)?;
            let other = push_value(alloc, first, right, one.following, out)?;
            push_between(out, *at, from.register, *element, one.register, other)
        }
        Operation::ToPointer { operand, at } => {
            push_to_pointer(alloc, first, operand, *at, from, out)
        }
        Operation::ToNumber { operand, at } => {
            push_to_number(alloc, first, operand, *at, from, out)
        }
        Operation::Copy { operand, at } => push_copy(alloc, first, operand, *at, from, out),
    }
}

/// What the cell holds to which the operand points.
#[cycle(exp_code)]
fn push_load(
    alloc: Global,
    first: u32,
    through: &Value,
    at: Position,
    from: Next,
    out: &mut List<Instr>,
) -> Result<Operand, AllocError>
    ensures value { IfOk result (λ o. o.register ≡ from.register) }
    ensures register { IfOk result (λ o. o.following.register ≡ from.register + 1 + spec.width (kept (exp_of through.now))) }
    ensures place { IfOk result (λ o. o.following.place ≡ from.place + (spec.exp_size (kept (exp_of through.now)) + 1)) }
    ensures out { OnOk result (out.new ≡ out.old ++ (spec.exp_code first (kept (exp_of through.now)) (from.register + 1) from.place ++ spec.one at (act.LoadCell from.register (spec.held first (kept (exp_of through.now)) (from.register + 1))))) }
{
    let inner = push_operand(alloc, first, through, from, out)?;
    let act = Act::LoadCell {
        into: from.register,
        through: inner.register,
    };
    push_given(out, at, from.register, inner.following, act)
}

/// An operator on one number.
#[cycle(exp_code)]
fn push_unary(
    alloc: Global,
    first: u32,
    op: UnaryOp,
    operand: &Value,
    at: Position,
    from: Next,
    out: &mut List<Instr>,
) -> Result<Operand, AllocError>
    ensures value { IfOk result (λ o. o.register ≡ from.register) }
    ensures register { IfOk result (λ o. o.following.register ≡ from.register + spec.width (core.unary op (kept (exp_of operand.now)) at)) }
    ensures place { IfOk result (λ o. o.following.place ≡ from.place + spec.exp_size (core.unary op (kept (exp_of operand.now)) at)) }
    ensures out { OnOk result (out.new ≡ out.old ++ spec.exp_code first (core.unary op (kept (exp_of operand.now)) at) from.register from.place) }
{
    let inner = push_operand(alloc, first, operand, from, out)?;
    let work = unary_work(op, inner.register);
    push_computed(out, at, from.register, inner.following, work)
}

/// A pointer moved to a member.
#[cycle(exp_code)]
fn push_member(
    alloc: Global,
    first: u32,
    pointer: &Value,
    by: u32,
    at: Position,
    from: Next,
    out: &mut List<Instr>,
) -> Result<Operand, AllocError>
    ensures value { IfOk result (λ o. o.register ≡ from.register) }
    ensures register { IfOk result (λ o. o.following.register ≡ from.register + spec.width (core.member (kept (exp_of pointer.now)) by at)) }
    ensures place { IfOk result (λ o. o.following.place ≡ from.place + spec.exp_size (core.member (kept (exp_of pointer.now)) by at)) }
    ensures out { OnOk result (out.new ≡ out.old ++ spec.exp_code first (core.member (kept (exp_of pointer.now)) by at) from.register from.place) }
{
    let inner = push_operand(alloc, first, pointer, from, out)?;
    let work = Work::Member {
        pointer: inner.register,
        by,
    };
    push_computed(out, at, from.register, inner.following, work)
}

/// A number cast to a pointer.
#[cycle(exp_code)]
fn push_to_pointer(
    alloc: Global,
    first: u32,
    operand: &Value,
    at: Position,
    from: Next,
    out: &mut List<Instr>,
) -> Result<Operand, AllocError>
    ensures value { IfOk result (λ o. o.register ≡ from.register) }
    ensures register { IfOk result (λ o. o.following.register ≡ from.register + spec.width (core.to_pointer (kept (exp_of operand.now)) at)) }
    ensures place { IfOk result (λ o. o.following.place ≡ from.place + spec.exp_size (core.to_pointer (kept (exp_of operand.now)) at)) }
    ensures out { OnOk result (out.new ≡ out.old ++ spec.exp_code first (core.to_pointer (kept (exp_of operand.now)) at) from.register from.place) }
{
    let inner = push_operand(alloc, first, operand, from, out)?;
    let work = Work::ToPointer(inner.register);
    push_computed(out, at, from.register, inner.following, work)
}

/// A pointer cast to a number.
#[cycle(exp_code)]
fn push_to_number(
    alloc: Global,
    first: u32,
    operand: &Value,
    at: Position,
    from: Next,
    out: &mut List<Instr>,
) -> Result<Operand, AllocError>
    ensures value { IfOk result (λ o. o.register ≡ from.register) }
    ensures register { IfOk result (λ o. o.following.register ≡ from.register + spec.width (core.to_number (kept (exp_of operand.now)) at)) }
    ensures place { IfOk result (λ o. o.following.place ≡ from.place + spec.exp_size (core.to_number (kept (exp_of operand.now)) at)) }
    ensures out { OnOk result (out.new ≡ out.old ++ spec.exp_code first (core.to_number (kept (exp_of operand.now)) at) from.register from.place) }
{
    let inner = push_operand(alloc, first, operand, from, out)?;
    let work = Work::ToNumber(inner.register);
    push_computed(out, at, from.register, inner.following, work)
}

/// Operands as they are needed.
#[cycle(exp_code)]
fn push_choice(
    alloc: Global,
    first: u32,
    choice: &Choice,
    from: Next,
    out: &mut List<Instr>,
) -> Result<Operand, AllocError>
    ensures value { IfOk result (λ o. o.register ≡ spec.held first (kept (choice_of choice.now)) from.register) }
    ensures register { IfOk result (λ o. o.following.register ≡ from.register + spec.width (kept (choice_of choice.now))) }
    ensures place { IfOk result (λ o. o.following.place ≡ from.place + spec.exp_size (kept (choice_of choice.now))) }
    ensures out { OnOk result (out.new ≡ out.old ++ spec.exp_code first (kept (choice_of choice.now)) from.register from.place) }
{
    match choice {
        Choice::And { left, right, at } => {
            let inner = push_operand(alloc, first, left, from, out)?;
            let second = push_and(out, *at, inner, right)?;
            let tested = push_value(alloc, first, right, second, out)?;
            push_tested(out, *at, from.register, tested)
        }
        Choice::Or { left, right, at } => {
            let inner = push_operand(alloc, first, left, from, out)?;
            let second = push_or(out, *at, inner, right)?;
            let tested = push_value(alloc, first, right, second, out)?;
            push_tested(out, *at, from.register, tested)
        }
        Choice::Conditional { test, yes, no, at } => {
            let tested = push_operand(alloc, first, test, from, out)?;
            let (then_at, else_at, to) = places_of(tested.following.place, yes, no)?;
            let second = push_chosen(out, *at, tested, then_at, else_at)?;
            let one = push_value(alloc, first, yes, second, out)?;
            let third = push_left(out, *at, one.following, from.register, one.register, to)?;
            let other = push_value(alloc, first, no, third, out)?;
            let work = Work::Copy(other.register);
            push_computed(out, *at, from.register, other.following, work)
        }
        Choice::Comma { before, value, at } => {
            let inner = push_operand(alloc, first, before, from, out)?;
            let other = push_value(alloc, first, value, inner.following, out)?;
            let work = Work::Copy(other.register);
            push_computed(out, *at, from.register, other.following, work)
        }
    }
}

/// A register or a cell gets a value.
#[cycle(exp_code)]
fn push_assignment(
    alloc: Global,
    first: u32,
    assignment: &Assignment,
    from: Next,
    out: &mut List<Instr>,
) -> Result<Operand, AllocError>
    ensures value { IfOk result (λ o. o.register ≡ spec.held first (kept (assignment_of assignment.now)) from.register) }
    ensures register { IfOk result (λ o. o.following.register ≡ from.register + spec.width (kept (assignment_of assignment.now))) }
    ensures place { IfOk result (λ o. o.following.place ≡ from.place + spec.exp_size (kept (assignment_of assignment.now))) }
    ensures out { OnOk result (out.new ≡ out.old ++ spec.exp_code first (kept (assignment_of assignment.now)) from.register from.place) }
{
    match assignment {
        Assignment::Set {
            register,
            value,
            at,
        } => {
            let inner = push_operand(alloc, first, value, from, out)?;
            let into = from.register;
            push_set(out, *at, inner.following, *register, inner.register, into)
        }
        Assignment::Store { through, value, at } => {
            let cell = push_first(alloc, first, through, value, *at, from, out)?;
            let given = push_value(alloc, first, value, cell.following, out)?;
            let into = from.register;
            push_stored(
                out,
                *at,
                given.following,
                cell.register,
                given.register,
                into,
            )
        }
        Assignment::ChangeRegister {
            register,
            change,
            operand,
            gives_old,
            at,
        } => {
            let inner = push_old(out, *at, from, *register)?;
            let by = push_value(alloc, first, operand, inner, out)?;
            push_register_changed(out, *at, from, *change, by, *register, *gives_old)
        }
        Assignment::ChangeCell {
            through,
            loaded_at,
            change,
            operand,
            gives_old,
            at,
        } => {
            let inner = from.using(3)?;
            let cell = push_before(alloc, first, through, operand, *at, inner, out)?;
            let second = push_loaded(out, *loaded_at, from, cell.following, cell.register)?;
            let by = push_value(alloc, first, operand, second, out)?;
            push_cell_changed(out, *at, from, *change, by, cell.register, *gives_old)
        }
    }
}

/// Arguments one after another, and a call.
#[cycle(exp_code)]
fn push_call(
    alloc: Global,
    first: u32,
    call: &Call,
    from: Next,
    out: &mut List<Instr>,
) -> Result<Operand, AllocError>
    ensures value { IfOk result (λ o. o.register ≡ spec.held first (kept (call_of call.now)) from.register) }
    ensures register { IfOk result (λ o. o.following.register ≡ from.register + spec.width (kept (call_of call.now))) }
    ensures place { IfOk result (λ o. o.following.place ≡ from.place + spec.exp_size (kept (call_of call.now))) }
    ensures out { OnOk result (out.new ≡ out.old ++ spec.exp_code first (kept (call_of call.now)) from.register from.place) }
{
    match call {
        Call::Function {
            function,
            arguments,
            at,
            ..
        } => {
            let Arguments {
                registers,
                following,
            } = push_values(alloc, first, arguments.as_slice(), *at, from, out)?;
            let act = Act::Call {
                function: *function,
                arguments: registers,
                into: Some(from.register),
            };
            push_given(out, *at, from.register, following, act)
        }
        Call::Library {
            call: library,
            arguments,
            at,
        } => {
            let Arguments {
                registers,
                following,
            } = push_values(alloc, first, arguments.as_slice(), *at, from, out)?;
            let copy = copy_of(alloc, library)?;
            push_library(out, *at, following, from.register, copy, registers)
        }
        Call::Allocate { site, size, at } => {
            let inner = push_operand(alloc, first, size, from, out)?;
            let act = Act::Alloc {
                into: from.register,
                site: *site,
                size: Some(inner.register),
            };
            push_given(out, *at, from.register, inner.following, act)
        }
    }
}

/// The registers of the arguments of a call, and what is free after them.
#[derive(Drop)]
struct Arguments {
    registers: List<u32>,
    following: Next,
}

/// The arguments of a call, one after another.
#[cycle(exp_code)]
fn push_values(
    alloc: Global,
    first: u32,
    es: &[Value],
    at: Position,
    from: Next,
    out: &mut List<Instr>,
) -> Result<Arguments, AllocError>
    ensures values { IfOk result (λ a. a.registers ≡ spec.value_registers first (from.register + 1) (all_kept at (listed (map exp_of es.now)))) }
    ensures register { IfOk result (λ a. a.following.register ≡ from.register + 1 + length (spec.exps_kinds (all_kept at (listed (map exp_of es.now))))) }
    ensures place { IfOk result (λ a. a.following.place ≡ from.place + spec.exps_size (all_kept at (listed (map exp_of es.now)))) }
    ensures out { OnOk result (out.new ≡ out.old ++ spec.exps_code first (all_kept at (listed (map exp_of es.now))) (from.register + 1) from.place) }
{
    let mut following = from.using(1)?;
    let mut registers = List::new(alloc);
    for index in 0..es.len() {
        let later = &es[index + 1..];
        let given = push_before_all(alloc, first, &es[index], later, at, following, out)?;
        registers.push(given.register)?;
        following = given.following;
    }
    Ok(Arguments {
        registers,
        following,
    })
}

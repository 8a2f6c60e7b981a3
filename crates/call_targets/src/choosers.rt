//! The functions that choose.
ghost use Rattle.std.specs.Prelude.{◌≡◌, ◌+◌, ◌++◌, map, length, IfOk, OnOk};
ghost use Rattle.core_tree.specs.Core.{register as register_of};
ghost use Rattle.core_tree.specs.View.{exp_of, stmt_of, function_of, pointer_of};
ghost use Rattle.call_targets.specs.Resolved as spec;

use core_tree::{Call, CoreFunction, Operation, PointerType, Simple, Statement, Value};
use rr_base::{Bytes, List, Position, push_numbered, sum};
use std::alloc::{AllocError, Global};
use word_semantics::BinaryOp;

/// The word of a formal.
fn register(number: u32, pointer: bool, at: Position) -> Value
    ensures { exp_of result ≡ register_of number pointer at }
{
    Value::Simple {
        simple: Simple::Register { number, pointer },
        at,
    }
}

/// Formals of these kinds, from the second on, as arguments.
fn formals(alloc: Global, kinds: &[bool], at: Position) -> Result<List<Value>, AllocError>
    ensures { IfOk result (λ es. map exp_of es ≡ spec.formals_from 1 kinds.now at) }
{
    let mut arguments = List::new(alloc);
    let mut number = 1;
    for kind in kinds {
        arguments.push(register(number, *kind, at))?;
        number = sum(number, 1)?;
    }
    Ok(arguments)
}

/// The arguments with which a target is called.
fn arguments(alloc: Global, pointer: &PointerType) -> Result<List<Value>, AllocError>
    ensures { IfOk result (λ es. map exp_of es ≡ spec.formals_from 1 pointer.now.formals pointer.now.at) }
{
    formals(alloc, pointer.formals.as_slice(), pointer.at)
}

/// Whether the first formal points to the function of this number.
fn is_pointer_to(alloc: Global, at: Position, target: u32) -> Result<Value, AllocError>
    ensures { IfOk result (λ e. exp_of e ≡ spec.is_pointer_to at target) }
{
    let word = Simple::Number(i64::from(target) + 1);
    let left = Box::new(alloc, register(0, false, at))?;
    let right = Box::new(alloc, Value::Simple { simple: word, at })?;
    Ok(Value::Operates(Operation::Binary {
        op: BinaryOp::Equal,
        left,
        right,
        at,
    }))
}

/// The call of the function of this number with the other formals.
fn target_called(alloc: Global, pointer: &PointerType, target: u32) -> Result<Value, AllocError>
    ensures { IfOk result (λ e. exp_of e ≡ spec.target_called (pointer_of pointer.now) target) }
{
    Ok(Value::Calls(Call::Function {
        function: target,
        arguments: arguments(alloc, pointer)?,
        gives_pointer: pointer.gives_pointer,
        at: pointer.at,
    }))
}

/// The result of that call is returned if the first formal points to this function.
fn choice(alloc: Global, pointer: &PointerType, target: u32) -> Result<Statement, AllocError>
    ensures { IfOk result (λ s. stmt_of s ≡ spec.choice (pointer_of pointer.now) target) }
{
    let at = pointer.at;
    let value = Some(target_called(alloc, pointer, target)?);
    let test = is_pointer_to(alloc, at, target)?;
    let yes = Box::new(alloc, Statement::Return { value, at })?;
    Ok(Statement::If { test, yes, at })
}

/// The trap of a pointer that points to none of the functions.
fn no_choice(alloc: Global, at: Position) -> Result<Statement, AllocError>
    ensures { IfOk result (λ s. stmt_of s ≡ spec.no_choice at) }
{
    let simple = Simple::Null;
    let through = Box::new(alloc, Value::Simple { simple, at })?;
    Ok(Statement::Compute(Value::Operates(Operation::Load {
        through,
        pointer: false,
        at,
    })))
}

/// A choice for each target, in their order.
fn push_choices(
    alloc: Global,
    pointer: &PointerType,
    targets: &[u32],
    choices: &mut List<Statement>,
) -> Result<(), AllocError>
    ensures { OnOk result (map stmt_of choices.new ≡ map stmt_of choices.old ++ map (spec.choice (pointer_of pointer.now)) targets.now) }
{
    for target in targets {
        choices.push(choice(alloc, pointer, *target)?)?;
    }
    Ok(())
}

/// The choices of a type, and at last the trap.
fn choices(alloc: Global, pointer: &PointerType) -> Result<List<Statement>, AllocError>
    ensures { IfOk result (λ ss. map stmt_of ss ≡ spec.choices (pointer_of pointer.now) pointer.now.targets) }
{
    let mut choices = List::new(alloc);
    push_choices(alloc, pointer, pointer.targets.as_slice(), &mut choices)?;
    choices.push(no_choice(alloc, pointer.at)?)?;
    Ok(choices)
}

fn body(alloc: Global, pointer: &PointerType) -> Result<Statement, AllocError>
    ensures { IfOk result (λ s. stmt_of s ≡ spec.chooser_body (pointer_of pointer.now)) }
{
    let choices = choices(alloc, pointer)?;
    Ok(Statement::Block(choices))
}

/// The pointer itself, and what it takes.
fn kinds(alloc: Global, pointer: &PointerType) -> Result<List<bool>, AllocError>
    ensures { IfOk result (λ ks. ks ≡ spec.chooser_kinds (pointer_of pointer.now)) }
{
    let mut kinds = List::new(alloc);
    kinds.push(false)?;
    kinds.extend_from_slice(pointer.formals.as_slice())?;
    Ok(kinds)
}

/// How many these are; more than fit 32 bits are more than the machine's memory can hold.
fn counted(kinds: &List<bool>) -> Result<u32, AllocError>
    ensures { IfOk result (λ n. n ≡ length kinds.now) }
{
    match u32::try_from(kinds.len()) {
        Ok(count) => Ok(count),
        Err(_) => Err(AllocError),
    }
}

fn name(alloc: Global, number: u32) -> Result<Bytes, AllocError>
    ensures { IfOk result (λ name. name ≡ spec.chooser_name number) }
{
    let mut name = Bytes::new(alloc);
    push_numbered(&mut name, b"call#", u64::from(number))?;
    Ok(name)
}

/// The function that chooses for a type of pointers, by the type's number.
pub fn chooser(
    alloc: Global,
    number: u32,
    pointer: &PointerType,
) -> Result<CoreFunction, AllocError>
    ensures { IfOk result (λ f. function_of f ≡ spec.chooser number (pointer_of pointer.now)) }
{
    let pointers = kinds(alloc, pointer)?;
    Ok(CoreFunction {
        name: name(alloc, number)?,
        at: pointer.at,
        formals: counted(&pointers)?,
        pointers,
        objects: List::new(alloc),
        arrivals: List::new(alloc),
        gives_pointer: pointer.gives_pointer,
        body: body(alloc, pointer)?,
    })
}

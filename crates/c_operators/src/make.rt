//! Makes core trees of expressions of smaller ones.
ghost use Rattle.std.specs.Prelude.{◌≡◌, IfOk, map};
ghost use Rattle.core_tree.specs.Core as core;
ghost use Rattle.core_tree.specs.View.{exp_of};

use core_tree::{Assignment, Call, Change, Choice, Operation, Simple, UnaryOp, Value};
use rr_base::{List, Position, PtrWord};
use std::alloc::{AllocError, Global};
use word_semantics::{BinaryOp, LibraryCall};

/// A word in a box of its own.
pub fn boxed(alloc: Global, value: Value) -> Result<Box<Value>, AllocError>
    ensures { IfOk result (λ v. exp_of v.value ≡ exp_of value) }
{
    let boxed = Box::new(alloc, value)?;
    Ok(boxed)
}

/// A number (C99 6.4.4.1).
pub fn number(alloc: Global, number: i64, at: Position) -> Result<Box<Value>, AllocError>
    ensures { IfOk result (λ v. exp_of v.value ≡ core.number number at) }
{
    let simple = Simple::Number(number);
    boxed(alloc, Value::Simple { simple, at })
}

/// The null pointer (C99 6.3.2.3).
pub fn null(alloc: Global, at: Position) -> Result<Box<Value>, AllocError>
    ensures { IfOk result (λ v. exp_of v.value ≡ core.null at) }
{
    let simple = Simple::Null;
    boxed(alloc, Value::Simple { simple, at })
}

/// What a register holds.
pub fn register(
    alloc: Global,
    number: u32,
    pointer: bool,
    at: Position,
) -> Result<Box<Value>, AllocError>
    ensures { IfOk result (λ v. exp_of v.value ≡ core.register number pointer at) }
{
    let simple = Simple::Register { number, pointer };
    boxed(alloc, Value::Simple { simple, at })
}

/// The address of a local or formal that is kept in cells.
pub fn object(alloc: Global, number: u32, at: Position) -> Result<Box<Value>, AllocError>
    ensures { IfOk result (λ v. exp_of v.value ≡ core.object number at) }
{
    let simple = Simple::Object(number);
    boxed(alloc, Value::Simple { simple, at })
}

/// The address of a global.
pub fn global(alloc: Global, address: PtrWord, at: Position) -> Result<Box<Value>, AllocError>
    ensures { IfOk result (λ v. exp_of v.value ≡ core.global address at) }
{
    let simple = Simple::Global(address);
    boxed(alloc, Value::Simple { simple, at })
}

/// What a cell holds.
pub fn load(
    alloc: Global,
    through: Box<Value>,
    pointer: bool,
    at: Position,
) -> Result<Box<Value>, AllocError>
    ensures { IfOk result (λ v. exp_of v.value ≡ core.load (exp_of through.value) pointer at) }
{
    boxed(
        alloc,
        Value::Operates(Operation::Load {
            through,
            pointer,
            at,
        }),
    )
}

/// An operator on one word (C99 6.5.3.3).
pub fn unary(
    alloc: Global,
    op: UnaryOp,
    operand: Box<Value>,
    at: Position,
) -> Result<Box<Value>, AllocError>
    ensures { IfOk result (λ v. exp_of v.value ≡ core.unary op (exp_of operand.value) at) }
{
    boxed(alloc, Value::Operates(Operation::Unary { op, operand, at }))
}

/// An operator on two words (C99 6.5.5 to 6.5.12).
pub fn binary(
    alloc: Global,
    op: BinaryOp,
    left: Box<Value>,
    right: Box<Value>,
    at: Position,
) -> Result<Box<Value>, AllocError>
    ensures { IfOk result (λ v. exp_of v.value ≡ core.binary op (exp_of left.value) (exp_of right.value) at) }
{
    boxed(
        alloc,
        Value::Operates(Operation::Binary {
            op,
            left,
            right,
            at,
        }),
    )
}

/// A pointer moved by so many elements, or back (C99 6.5.6).
pub fn move_by(
    alloc: Global,
    pointer: Box<Value>,
    by: Box<Value>,
    element: u32,
    back: bool,
    at: Position,
) -> Result<Box<Value>, AllocError>
    ensures { IfOk result (λ v. exp_of v.value ≡ core.move (exp_of pointer.value) (exp_of by.value) element back at) }
{
    boxed(
        alloc,
        Value::Operates(Operation::Move {
            pointer,
            by,
            element,
            back,
            at,
        }),
    )
}

/// A number added to a pointer that stands right of it (C99 6.5.6).
pub fn advance(
    alloc: Global,
    by: Box<Value>,
    pointer: Box<Value>,
    element: u32,
    at: Position,
) -> Result<Box<Value>, AllocError>
    ensures { IfOk result (λ v. exp_of v.value ≡ core.advance (exp_of by.value) (exp_of pointer.value) element at) }
{
    boxed(
        alloc,
        Value::Operates(Operation::Advance {
            by,
            pointer,
            element,
            at,
        }),
    )
}

/// A pointer moved to a member of its struct (C99 6.5.2.3).
pub fn member(
    alloc: Global,
    pointer: Box<Value>,
    by: u32,
    at: Position,
) -> Result<Box<Value>, AllocError>
    ensures { IfOk result (λ v. exp_of v.value ≡ core.member (exp_of pointer.value) by at) }
{
    boxed(
        alloc,
        Value::Operates(Operation::Member { pointer, by, at }),
    )
}

/// How many elements are between two pointers (C99 6.5.6).
pub fn between(
    alloc: Global,
    left: Box<Value>,
    right: Box<Value>,
    element: u32,
    at: Position,
) -> Result<Box<Value>, AllocError>
    ensures { IfOk result (λ v. exp_of v.value ≡ core.between (exp_of left.value) (exp_of right.value) element at) }
{
    boxed(
        alloc,
        Value::Operates(Operation::Between {
            left,
            right,
            element,
            at,
        }),
    )
}

/// A number cast to a pointer (C99 6.3.2.3).
pub fn to_pointer(
    alloc: Global,
    operand: Box<Value>,
    at: Position,
) -> Result<Box<Value>, AllocError>
    ensures { IfOk result (λ v. exp_of v.value ≡ core.to_pointer (exp_of operand.value) at) }
{
    boxed(alloc, Value::Operates(Operation::ToPointer { operand, at }))
}

/// A pointer cast to a number (C99 6.3.2.3).
pub fn to_number(alloc: Global, operand: Box<Value>, at: Position) -> Result<Box<Value>, AllocError>
    ensures { IfOk result (λ v. exp_of v.value ≡ core.to_number (exp_of operand.value) at) }
{
    boxed(alloc, Value::Operates(Operation::ToNumber { operand, at }))
}

/// A copy of a word, in a register of its own.
pub fn copy(alloc: Global, operand: Box<Value>, at: Position) -> Result<Box<Value>, AllocError>
    ensures { IfOk result (λ v. exp_of v.value ≡ core.copy (exp_of operand.value) at) }
{
    boxed(alloc, Value::Operates(Operation::Copy { operand, at }))
}

/// `&&` (C99 6.5.13).
pub fn both(
    alloc: Global,
    left: Box<Value>,
    right: Box<Value>,
    at: Position,
) -> Result<Box<Value>, AllocError>
    ensures { IfOk result (λ v. exp_of v.value ≡ core.both (exp_of left.value) (exp_of right.value) at) }
{
    boxed(alloc, Value::Chooses(Choice::And { left, right, at }))
}

/// `||` (C99 6.5.14).
pub fn either(
    alloc: Global,
    left: Box<Value>,
    right: Box<Value>,
    at: Position,
) -> Result<Box<Value>, AllocError>
    ensures { IfOk result (λ v. exp_of v.value ≡ core.either (exp_of left.value) (exp_of right.value) at) }
{
    boxed(alloc, Value::Chooses(Choice::Or { left, right, at }))
}

/// `?` with its two choices (C99 6.5.15).
pub fn conditional(
    alloc: Global,
    test: Box<Value>,
    yes: Box<Value>,
    no: Box<Value>,
    at: Position,
) -> Result<Box<Value>, AllocError>
    ensures { IfOk result (λ v. exp_of v.value ≡ core.conditional (exp_of test.value) (exp_of yes.value) (exp_of no.value) at) }
{
    boxed(
        alloc,
        Value::Chooses(Choice::Conditional { test, yes, no, at }),
    )
}

/// One word after another (C99 6.5.17).
pub fn comma(
    alloc: Global,
    before: Box<Value>,
    value: Box<Value>,
    at: Position,
) -> Result<Box<Value>, AllocError>
    ensures { IfOk result (λ v. exp_of v.value ≡ core.comma (exp_of before.value) (exp_of value.value) at) }
{
    boxed(alloc, Value::Chooses(Choice::Comma { before, value, at }))
}

/// A register is set (C99 6.5.16.1).
pub fn set_register(
    alloc: Global,
    register: u32,
    value: Box<Value>,
    at: Position,
) -> Result<Box<Value>, AllocError>
    ensures { IfOk result (λ v. exp_of v.value ≡ core.set_register register (exp_of value.value) at) }
{
    boxed(
        alloc,
        Value::Assigns(Assignment::Set {
            register,
            value,
            at,
        }),
    )
}

/// A cell is set (C99 6.5.16.1).
pub fn store(
    alloc: Global,
    through: Box<Value>,
    value: Box<Value>,
    at: Position,
) -> Result<Box<Value>, AllocError>
    ensures { IfOk result (λ v. exp_of v.value ≡ core.store (exp_of through.value) (exp_of value.value) at) }
{
    boxed(
        alloc,
        Value::Assigns(Assignment::Store { through, value, at }),
    )
}

/// A register is changed, and gives its old word or its new one (C99 6.5.16.2, 6.5.2.4).
pub fn change_register(
    alloc: Global,
    register: u32,
    change: Change,
    operand: Box<Value>,
    gives_old: bool,
    at: Position,
) -> Result<Box<Value>, AllocError>
    ensures { IfOk result (λ v. exp_of v.value ≡ core.change_register register change (exp_of operand.value) gives_old at) }
{
    boxed(
        alloc,
        Value::Assigns(Assignment::ChangeRegister {
            register,
            change,
            operand,
            gives_old,
            at,
        }),
    )
}

/// A cell is changed, and gives its old word or its new one (C99 6.5.16.2, 6.5.2.4).
pub fn change_cell(
    alloc: Global,
    through: Box<Value>,
    loaded_at: Position,
    change: Change,
    operand: Box<Value>,
    gives_old: bool,
    at: Position,
) -> Result<Box<Value>, AllocError>
    ensures { IfOk result (λ v. exp_of v.value ≡ core.change_cell (exp_of through.value) loaded_at change (exp_of operand.value) gives_old at) }
{
    boxed(
        alloc,
        Value::Assigns(Assignment::ChangeCell {
            through,
            loaded_at,
            change,
            operand,
            gives_old,
            at,
        }),
    )
}

/// A call of a function of the source (C99 6.5.2.2).
pub fn call(
    alloc: Global,
    function: u32,
    arguments: List<Value>,
    gives_pointer: bool,
    at: Position,
) -> Result<Box<Value>, AllocError>
    ensures { IfOk result (λ v. exp_of v.value ≡ core.call function (core.listed (map exp_of arguments)) gives_pointer at) }
{
    boxed(
        alloc,
        Value::Calls(Call::Function {
            function,
            arguments,
            gives_pointer,
            at,
        }),
    )
}

/// A call of the library.
pub fn library(
    alloc: Global,
    call: LibraryCall,
    arguments: List<Value>,
    at: Position,
) -> Result<Box<Value>, AllocError>
    ensures { IfOk result (λ v. exp_of v.value ≡ core.library call (core.listed (map exp_of arguments)) at) }
{
    boxed(
        alloc,
        Value::Calls(Call::Library {
            call,
            arguments,
            at,
        }),
    )
}

/// A `malloc` (C99 7.20.3.3).
pub fn allocate(
    alloc: Global,
    site: u16,
    size: Box<Value>,
    at: Position,
) -> Result<Box<Value>, AllocError>
    ensures { IfOk result (λ v. exp_of v.value ≡ core.allocate site (exp_of size.value) at) }
{
    boxed(alloc, Value::Calls(Call::Allocate { site, size, at }))
}

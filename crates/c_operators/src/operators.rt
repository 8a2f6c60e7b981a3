//! What C's operators make of their operands (C99 6.5).
ghost use Rattle.std.specs.Prelude.{◌≡◌, false, IfOk};
ghost use Rattle.c_types.specs.Shown.{shown_operand};
ghost use Rattle.core_tree.specs.View.{exp_of};
ghost use Rattle.core_tree.specs.Core as core;
ghost use Rattle.c_operators.specs.Denoted.{denoted_value, value_in, wanted_in};
ghost use Rattle.c_operators.specs.Operators as spec;
ghost use Rattle.c_operators.specs.Views.{denoted_of, part_of, source_in};

use crate::context::Source;
use crate::denoted::{Denoted, Part, WordKind, is_pointing};
use crate::make;
use c_tree::{AssignOp, BinaryOp, PrefixOp};
use c_types::{Operand, are_whole};
use core_tree::{Change, UnaryOp, Value};
use rr_base::Position;
use std::alloc::{AllocError, Global};
use word_semantics::BinaryOp as FlowOp;

/// The operator on two words. `&&` and `||` are none.
fn flow_operator(op: BinaryOp) -> FlowOp
    ensures { result ≡ spec.flow_operator op }
{
    match op {
        BinaryOp::LogicalOr | BinaryOp::Or => FlowOp::Or,
        BinaryOp::LogicalAnd | BinaryOp::And => FlowOp::And,
        BinaryOp::Xor => FlowOp::Xor,
        BinaryOp::Equal => FlowOp::Equal,
        BinaryOp::NotEqual => FlowOp::NotEqual,
        BinaryOp::Less => FlowOp::Less,
        BinaryOp::Greater => FlowOp::Greater,
        BinaryOp::LessEqual => FlowOp::LessEqual,
        BinaryOp::GreaterEqual => FlowOp::GreaterEqual,
        BinaryOp::ShiftLeft => FlowOp::ShiftLeft,
        BinaryOp::ShiftRight => FlowOp::ShiftRight,
        BinaryOp::Add => FlowOp::Add,
        BinaryOp::Subtract => FlowOp::Subtract,
        BinaryOp::Multiply => FlowOp::Multiply,
        BinaryOp::Divide => FlowOp::Divide,
        BinaryOp::Remainder => FlowOp::Remainder,
    }
}

/// The operator of a compound assignment. `=` has none.
fn changing_operator(op: AssignOp) -> FlowOp
    ensures { result ≡ spec.changing_operator op }
{
    match op {
        AssignOp::Assign | AssignOp::Add => FlowOp::Add,
        AssignOp::Subtract => FlowOp::Subtract,
        AssignOp::Multiply => FlowOp::Multiply,
        AssignOp::Divide => FlowOp::Divide,
        AssignOp::Remainder => FlowOp::Remainder,
        AssignOp::And => FlowOp::And,
        AssignOp::Or => FlowOp::Or,
        AssignOp::Xor => FlowOp::Xor,
        AssignOp::ShiftLeft => FlowOp::ShiftLeft,
        AssignOp::ShiftRight => FlowOp::ShiftRight,
    }
}

/// The two words in their order, each where one of the kind is wanted.
fn both_wanted(
    alloc: Global,
    kind: WordKind,
    left: Part,
    right: Part,
) -> Result<(Box<Value>, Box<Value>), AllocError>
    ensures left { IfOk result (λ r. exp_of r.0.value ≡ wanted_in kind (part_of left.entry)) }
    ensures right { IfOk result (λ r. exp_of r.1.value ≡ wanted_in kind (part_of right.entry)) }
{
    let left = left.into_wanted(alloc, kind)?;
    let right = right.into_wanted(alloc, kind)?;
    Ok((left, right))
}

/// A sum: a pointer moves by elements, whichever side it stands on.
fn sum(
    alloc: Global,
    source: &Source,
    left: Part,
    right: Part,
    at: Position,
) -> Result<Box<Value>, AllocError>
    ensures { IfOk result (λ v. exp_of v.value ≡ spec.sum_in (source_in source.now) (part_of left.entry) (part_of right.entry) at) }
{
    let (a, b) = (left.operand(), right.operand());
    let (left, right) = both_wanted(alloc, WordKind::Number, left, right)?;
    if is_pointing(a) {
        make::move_by(alloc, left, right, source.element_of(a), false, at)
    } else if is_pointing(b) {
        make::advance(alloc, left, right, source.element_of(b), at)
    } else {
        make::binary(alloc, FlowOp::Add, left, right, at)
    }
}

/// The cells of an element of the one that points.
fn element_of_either(source: &Source, a: Operand, b: Operand) -> u32
    ensures { result ≡ spec.element_of_either (source_in source.now) (shown_operand a.entry) (shown_operand b.entry) }
{
    if is_pointing(a) {
        source.element_of(a)
    } else {
        source.element_of(b)
    }
}

/// A pointer less a number, two numbers, or the distance of two pointers.
fn difference(
    alloc: Global,
    source: &Source,
    left: Part,
    right: Part,
    at: Position,
) -> Result<Box<Value>, AllocError>
    ensures { IfOk result (λ v. exp_of v.value ≡ spec.difference_in (source_in source.now) (part_of left.entry) (part_of right.entry) at) }
{
    let (a, b) = (left.operand(), right.operand());
    if is_pointing(a) && b.is_whole() {
        let (left, right) = both_wanted(alloc, WordKind::Number, left, right)?;
        make::move_by(alloc, left, right, source.element_of(a), true, at)
    } else if are_whole(a, b) {
        let (left, right) = both_wanted(alloc, WordKind::Number, left, right)?;
        make::binary(alloc, FlowOp::Subtract, left, right, at)
    } else {
        let (left, right) = both_wanted(alloc, WordKind::Pointer, left, right)?;
        make::between(alloc, left, right, element_of_either(source, a, b), at)
    }
}

/// An operator on two numbers, or two pointers that are compared, to objects or to functions.
fn operated(
    alloc: Global,
    op: FlowOp,
    left: Part,
    right: Part,
    at: Position,
) -> Result<Box<Value>, AllocError>
    ensures { IfOk result (λ v. exp_of v.value ≡ spec.operated_in op (part_of left.entry) (part_of right.entry) at) }
{
    let kind = WordKind::of_both(left.operand(), right.operand());
    let (left, right) = both_wanted(alloc, kind, left, right)?;
    make::binary(alloc, op, left, right, at)
}

/// An operator with two operands.
pub fn binary(
    alloc: Global,
    source: &Source,
    op: BinaryOp,
    left: Part,
    right: Part,
    at: Position,
) -> Result<Box<Value>, AllocError>
    ensures { IfOk result (λ v. exp_of v.value ≡ spec.binary_in (source_in source.now) op (part_of left.entry) (part_of right.entry) at) }
{
    match op {
        BinaryOp::LogicalOr => {
            let (left, right) = both_wanted(alloc, WordKind::Number, left, right)?;
            make::either(alloc, left, right, at)
        }
        BinaryOp::LogicalAnd => {
            let (left, right) = both_wanted(alloc, WordKind::Number, left, right)?;
            make::both(alloc, left, right, at)
        }
        BinaryOp::Add => sum(alloc, source, left, right, at),
        BinaryOp::Subtract => difference(alloc, source, left, right, at),
        _ => operated(alloc, flow_operator(op), left, right, at),
    }
}

/// `?:`
pub fn conditional(
    alloc: Global,
    test: Part,
    yes: Part,
    no: Part,
    at: Position,
) -> Result<Box<Value>, AllocError>
    ensures { IfOk result (λ v. exp_of v.value ≡ spec.conditional_in (part_of test.entry) (part_of yes.entry) (part_of no.entry) at) }
{
    let kind = WordKind::of_both(yes.operand(), no.operand());
    let test = test.into_value(alloc)?;
    let (yes, no) = both_wanted(alloc, kind, yes, no)?;
    make::conditional(alloc, test, yes, no, at)
}

/// An element of an array, as a place.
pub fn index(
    alloc: Global,
    source: &Source,
    base: Part,
    index: Part,
    at: Position,
) -> Result<Denoted, AllocError>
    ensures { IfOk result (λ h. denoted_of h ≡ spec.index_in (source_in source.now) (part_of base.entry) (part_of index.entry) at) }
{
    let through = sum(alloc, source, base, index, at)?;
    Ok(Denoted::Cells { through, at })
}

/// A pointer changes by elements, a number by the operator.
fn change_of(source: &Source, operand: Operand, op: FlowOp) -> Change
    ensures { result ≡ spec.change_of (source_in source.now) (shown_operand operand.entry) op }
{
    if is_pointing(operand) {
        Change::Move {
            element: source.element_of(operand),
            back: matches!(op, FlowOp::Subtract),
        }
    } else {
        Change::Compute(op)
    }
}

/// An object changes by a word.
fn changed_by(
    alloc: Global,
    change: Change,
    place: Denoted,
    by: Box<Value>,
    gives_old: bool,
    at: Position,
) -> Result<Box<Value>, AllocError>
    ensures { IfOk result (λ v. exp_of v.value ≡ spec.changed_by change (denoted_of place) (exp_of by.value) gives_old at) }
{
    match place {
        Denoted::Register { number, .. } => {
            make::change_register(alloc, number, change, by, gives_old, at)
        }
        Denoted::Cells {
            through,
            at: loaded_at,
        } => make::change_cell(alloc, through, loaded_at, change, by, gives_old, at),
        Denoted::Zero { .. } | Denoted::Null { .. } | Denoted::Value(_) => Ok(by),
    }
}

fn changed(
    alloc: Global,
    source: &Source,
    op: FlowOp,
    place: Part,
    by: Box<Value>,
    gives_old: bool,
    at: Position,
) -> Result<Box<Value>, AllocError>
    ensures { IfOk result (λ v. exp_of v.value ≡ spec.changed_in (source_in source.now) op (part_of place.entry) (exp_of by.value) gives_old at) }
{
    let change = change_of(source, place.operand(), op);
    let Part { denoted, .. } = place;
    changed_by(alloc, change, denoted, by, gives_old, at)
}

/// `++` and `--`, by the operator `+` or `-`.
pub fn stepped(
    alloc: Global,
    source: &Source,
    op: FlowOp,
    place: Part,
    gives_old: bool,
    at: Position,
) -> Result<Box<Value>, AllocError>
    ensures { IfOk result (λ v. exp_of v.value ≡ spec.stepped_in (source_in source.now) op (part_of place.entry) gives_old at) }
{
    let by = make::number(alloc, 1, at)?;
    changed(alloc, source, op, place, by, gives_old, at)
}

/// An object gets a word.
fn stored(
    alloc: Global,
    place: Denoted,
    value: Box<Value>,
    at: Position,
) -> Result<Box<Value>, AllocError>
    ensures { IfOk result (λ v. exp_of v.value ≡ spec.stored_in (denoted_of place) (exp_of value.value) at) }
{
    match place {
        Denoted::Register { number, .. } => make::set_register(alloc, number, value, at),
        Denoted::Cells { through, .. } => make::store(alloc, through, value, at),
        Denoted::Zero { .. } | Denoted::Null { .. } | Denoted::Value(_) => Ok(value),
    }
}

/// An assignment.
pub fn assigned(
    alloc: Global,
    source: &Source,
    op: AssignOp,
    left: Part,
    right: Part,
    at: Position,
) -> Result<Box<Value>, AllocError>
    ensures { IfOk result (λ v. exp_of v.value ≡ spec.assigned_in (source_in source.now) op (part_of left.entry) (part_of right.entry) at) }
{
    match op {
        AssignOp::Assign => {
            let value = right.into_wanted(alloc, WordKind::of(left.operand()))?;
            let Part { denoted, .. } = left;
            stored(alloc, denoted, value, at)
        }
        _ => {
            let by = right.into_value(alloc)?;
            changed(alloc, source, changing_operator(op), left, by, false, at)
        }
    }
}

/// The pointer to an object in cells.
fn address(of: Denoted) -> Denoted
    ensures { denoted_of result ≡ spec.address_in (denoted_of of) }
{
    match of {
        Denoted::Cells { through, .. } => Denoted::Value(through),
        Denoted::Register { at, .. } | Denoted::Zero { at } | Denoted::Null { at } => {
            Denoted::Zero { at }
        }
        Denoted::Value(value) => Denoted::Value(value),
    }
}

fn unary(alloc: Global, op: UnaryOp, operand: Part, at: Position) -> Result<Denoted, AllocError>
    ensures { IfOk result (λ h. denoted_of h ≡ denoted_value (core.unary op (value_in (part_of operand.entry)) at)) }
{
    let operand = operand.into_value(alloc)?;
    let value = make::unary(alloc, op, operand, at)?;
    Ok(Denoted::Value(value))
}

/// `++` and `--` before their operand.
fn stepped_before(
    alloc: Global,
    source: &Source,
    op: FlowOp,
    place: Part,
    at: Position,
) -> Result<Denoted, AllocError>
    ensures { IfOk result (λ h. denoted_of h ≡ denoted_value (spec.stepped_in (source_in source.now) op (part_of place.entry) false at)) }
{
    let value = stepped(alloc, source, op, place, false, at)?;
    Ok(Denoted::Value(value))
}

/// An operator before its operand.
pub fn prefix(
    alloc: Global,
    source: &Source,
    op: PrefixOp,
    operand: Part,
    at: Position,
) -> Result<Denoted, AllocError>
    ensures { IfOk result (λ h. denoted_of h ≡ spec.prefix_in (source_in source.now) op (part_of operand.entry) at) }
{
    match op {
        PrefixOp::Address => {
            let Part { denoted, .. } = operand;
            Ok(address(denoted))
        }
        PrefixOp::Indirect => {
            let through = operand.into_value(alloc)?;
            Ok(Denoted::Cells { through, at })
        }
        PrefixOp::Plus => {
            let operand = operand.into_value(alloc)?;
            let value = make::copy(alloc, operand, at)?;
            Ok(Denoted::Value(value))
        }
        PrefixOp::Minus => unary(alloc, UnaryOp::Minus, operand, at),
        PrefixOp::Not => unary(alloc, UnaryOp::Not, operand, at),
        PrefixOp::Complement => unary(alloc, UnaryOp::Complement, operand, at),
        PrefixOp::Increment => stepped_before(alloc, source, FlowOp::Add, operand, at),
        PrefixOp::Decrement => stepped_before(alloc, source, FlowOp::Subtract, operand, at),
    }
}

fn is_some_address(of: Operand) -> bool
    ensures { result ≡ spec.is_some_address (shown_operand of.entry) }
{
    match of {
        Operand::Pointing(_) | Operand::Null => true,
        Operand::Any | Operand::Whole | Operand::Zero | Operand::Function(_) | Operand::Unfit =>
            false,
    }
}

/// A cast between numbers and pointers. One that changes no kind copies the word.
pub fn cast(
    alloc: Global,
    to_pointer: bool,
    operand: Part,
    at: Position,
) -> Result<Box<Value>, AllocError>
    ensures { IfOk result (λ v. exp_of v.value ≡ spec.cast_in to_pointer (part_of operand.entry) at) }
{
    let from_pointer = is_some_address(operand.operand());
    let operand = operand.into_value(alloc)?;
    match (to_pointer, from_pointer) {
        (true, false) => make::to_pointer(alloc, operand, at),
        (false, true) => make::to_number(alloc, operand, at),
        (true, true) | (false, false) => make::copy(alloc, operand, at),
    }
}

/// A member of a struct that stands in cells.
pub fn member(alloc: Global, of: Denoted, by: u32, at: Position) -> Result<Denoted, AllocError>
    ensures { IfOk result (λ h. denoted_of h ≡ spec.member_in (denoted_of of) by at) }
{
    match of {
        Denoted::Cells { through, .. } => {
            let through = make::member(alloc, through, by, at)?;
            Ok(Denoted::Cells { through, at })
        }
        Denoted::Register { .. } | Denoted::Zero { .. } | Denoted::Null { .. } => {
            Ok(Denoted::Zero { at })
        }
        Denoted::Value(value) => Ok(Denoted::Value(value)),
    }
}

/// A member of a struct to which a pointer is given.
pub fn arrow(alloc: Global, of: Part, by: u32, at: Position) -> Result<Denoted, AllocError>
    ensures { IfOk result (λ h. denoted_of h ≡ spec.arrow_in (part_of of.entry) by at) }
{
    let pointer = of.into_value(alloc)?;
    let through = make::member(alloc, pointer, by, at)?;
    Ok(Denoted::Cells { through, at })
}

//! Which operands C's operators take, and what they make of them (C99 6.5). An expression without a type is taken where
//! some type would do.
ghost use Rattle.std.specs.Prelude.{◌≡◌};
ghost use Rattle.c_types.specs.Operands as spec;
ghost use Rattle.c_types.specs.Standing as standings;
ghost use Rattle.c_types.specs.Shown.{shown_type, shown_standing, shown_operand};

use crate::operand::{Operand, Standing};
use crate::type_ref::TypeRef;
use crate::types::{BaseType, Layer};
use c_tree::{AssignOp, BinaryOp};

impl<'a> Operand<'a> {
    /// Whether it has a type.
    pub fn is_typed(self) -> bool
        ensures { result ≡ spec.is_typed (shown_operand self.entry) }
    {
        match self {
            Operand::Any => false,
            Operand::Whole
            | Operand::Zero
            | Operand::Null
            | Operand::Pointing(_)
            | Operand::Function(_)
            | Operand::Unfit => true,
        }
    }

    /// Whether it is a whole number.
    pub fn is_whole(self) -> bool
        ensures { result ≡ spec.is_whole (shown_operand self.entry) }
    {
        match self {
            Operand::Any | Operand::Whole | Operand::Zero => true,
            Operand::Null | Operand::Pointing(_) | Operand::Function(_) | Operand::Unfit => false,
        }
    }

    /// Int or a pointer, also one to functions.
    pub fn is_scalar(self) -> bool
        ensures { result ≡ spec.is_scalar (shown_operand self.entry) }
    {
        match self {
            Operand::Unfit => false,
            Operand::Any
            | Operand::Whole
            | Operand::Zero
            | Operand::Null
            | Operand::Pointing(_)
            | Operand::Function(_) => true,
        }
    }

    /// A number or a pointer to objects, between which casts go.
    pub fn can_cast(self) -> bool
        ensures { result ≡ standings.can_cast (shown_operand self.entry) }
    {
        match self {
            Operand::Function(_) | Operand::Unfit => false,
            Operand::Any | Operand::Whole | Operand::Zero | Operand::Null | Operand::Pointing(_) =>
                true,
        }
    }

    /// A pointer to objects, or what fits every one.
    fn is_some_pointer(self) -> bool
        ensures { result ≡ spec.is_some_pointer (shown_operand self.entry) }
    {
        match self {
            Operand::Any | Operand::Zero | Operand::Null | Operand::Pointing(_) => true,
            Operand::Whole | Operand::Function(_) | Operand::Unfit => false,
        }
    }

    /// A pointer that can be moved by elements.
    pub fn is_movable(self) -> bool
        ensures { result ≡ spec.is_movable (shown_operand self.entry) }
    {
        match self {
            Operand::Any => true,
            Operand::Pointing(to) => !to.is_void(),
            Operand::Whole
            | Operand::Zero
            | Operand::Null
            | Operand::Function(_)
            | Operand::Unfit => false,
        }
    }

    /// What fits each pointer to functions.
    fn fits_functions(self) -> bool
        ensures { result ≡ spec.fits_functions (shown_operand self.entry) }
    {
        match self {
            Operand::Any | Operand::Zero | Operand::Null => true,
            Operand::Whole | Operand::Pointing(_) | Operand::Function(_) | Operand::Unfit => false,
        }
    }

    fn points_to_void(self) -> bool
        ensures { result ≡ spec.points_to_void (shown_operand self.entry) }
    {
        match self {
            Operand::Pointing(to) => to.is_void(),
            Operand::Any
            | Operand::Whole
            | Operand::Zero
            | Operand::Null
            | Operand::Function(_)
            | Operand::Unfit => false,
        }
    }
}

/// Whether both are whole numbers.
pub fn are_whole(a: Operand, b: Operand) -> bool
    ensures { result ≡ spec.are_whole (shown_operand a.entry) (shown_operand b.entry) }
{
    a.is_whole() && b.is_whole()
}

/// Two pointers of one type.
fn are_alike(a: Operand, b: Operand) -> bool
    ensures { result ≡ spec.are_alike (shown_operand a.entry) (shown_operand b.entry) }
{
    match (a, b) {
        (Operand::Pointing(s), Operand::Pointing(t)) => s.is_same(t),
        _ => a.is_some_pointer() && b.is_some_pointer(),
    }
}

/// Two pointers of one type, or one of them a `void *`.
pub fn are_compatible(a: Operand, b: Operand) -> bool
    ensures { result ≡ spec.are_compatible (shown_operand a.entry) (shown_operand b.entry) }
{
    match (a, b) {
        (Operand::Pointing(s), Operand::Pointing(t)) => s.is_void() || t.is_void() || s.is_same(t),
        _ => a.is_some_pointer() && b.is_some_pointer(),
    }
}

/// Two pointers to functions of one type, or one and what fits each.
pub fn are_functions(a: Operand, b: Operand) -> bool
    ensures { result ≡ spec.are_functions (shown_operand a.entry) (shown_operand b.entry) }
{
    match (a, b) {
        (Operand::Function(j), Operand::Function(k)) => j == k,
        (Operand::Function(_), other) => other.fits_functions(),
        (other, Operand::Function(_)) => other.fits_functions(),
        _ => false,
    }
}

fn can_add(a: Operand, b: Operand) -> bool
    ensures { result ≡ spec.can_add (shown_operand a.entry) (shown_operand b.entry) }
{
    are_whole(a, b) || a.is_movable() && b.is_whole() || a.is_whole() && b.is_movable()
}

fn have_distance(a: Operand, b: Operand) -> bool
    ensures { result ≡ spec.have_distance (shown_operand a.entry) (shown_operand b.entry) }
{
    are_alike(a, b)
        && !a.points_to_void()
        && !b.points_to_void()
        && (a.is_movable() || b.is_movable())
}

fn can_subtract(a: Operand, b: Operand) -> bool
    ensures { result ≡ spec.can_subtract (shown_operand a.entry) (shown_operand b.entry) }
{
    are_whole(a, b) || a.is_movable() && b.is_whole() || have_distance(a, b)
}

/// Whether the operator takes the operands.
pub fn takes(op: BinaryOp, a: Operand, b: Operand) -> bool
    ensures { result ≡ spec.takes op (shown_operand a.entry) (shown_operand b.entry) }
{
    match op {
        BinaryOp::LogicalOr | BinaryOp::LogicalAnd => a.is_scalar() && b.is_scalar(),
        BinaryOp::Equal | BinaryOp::NotEqual => {
            are_whole(a, b) || are_compatible(a, b) || are_functions(a, b)
        }
        BinaryOp::Less | BinaryOp::Greater | BinaryOp::LessEqual | BinaryOp::GreaterEqual => {
            are_whole(a, b) || are_alike(a, b)
        }
        BinaryOp::Add => can_add(a, b),
        BinaryOp::Subtract => can_subtract(a, b),
        BinaryOp::Or
        | BinaryOp::Xor
        | BinaryOp::And
        | BinaryOp::ShiftLeft
        | BinaryOp::ShiftRight
        | BinaryOp::Multiply
        | BinaryOp::Divide
        | BinaryOp::Remainder => are_whole(a, b),
    }
}

fn sum_of<'a>(a: Operand<'a>, b: Operand<'a>) -> Standing<'a>
    ensures { shown_standing result ≡ spec.sum_of (shown_operand a.entry) (shown_operand b.entry) }
{
    match (a, b) {
        (Operand::Pointing(to), _) => Standing::Pointer(to),
        (_, Operand::Pointing(to)) => Standing::Pointer(to),
        _ => Standing::Whole,
    }
}

fn difference_of<'a>(a: Operand<'a>, b: Operand<'a>) -> Standing<'a>
    ensures { shown_standing result ≡ spec.difference_of (shown_operand a.entry) (shown_operand b.entry) }
{
    match a {
        Operand::Pointing(to) if b.is_whole() => Standing::Pointer(to),
        Operand::Pointing(_)
        | Operand::Any
        | Operand::Whole
        | Operand::Zero
        | Operand::Null
        | Operand::Function(_)
        | Operand::Unfit => Standing::Whole,
    }
}

fn result_of<'a>(op: BinaryOp, a: Operand<'a>, b: Operand<'a>) -> Standing<'a>
    ensures { shown_standing result ≡ spec.result_of op (shown_operand a.entry) (shown_operand b.entry) }
{
    match op {
        BinaryOp::Add => sum_of(a, b),
        BinaryOp::Subtract => difference_of(a, b),
        BinaryOp::LogicalOr
        | BinaryOp::LogicalAnd
        | BinaryOp::Or
        | BinaryOp::Xor
        | BinaryOp::And
        | BinaryOp::Equal
        | BinaryOp::NotEqual
        | BinaryOp::Less
        | BinaryOp::Greater
        | BinaryOp::LessEqual
        | BinaryOp::GreaterEqual
        | BinaryOp::ShiftLeft
        | BinaryOp::ShiftRight
        | BinaryOp::Multiply
        | BinaryOp::Divide
        | BinaryOp::Remainder => Standing::Whole,
    }
}

/// What the operator makes of its operands: nothing that has a type where one of them has none or it doesn't take them.
pub fn binary_standing<'a>(op: BinaryOp, a: Operand<'a>, b: Operand<'a>) -> Standing<'a>
    ensures { shown_standing result ≡ spec.binary_standing op (shown_operand a.entry) (shown_operand b.entry) }
{
    if takes(op, a, b) && a.is_typed() && b.is_typed() {
        result_of(op, a, b)
    } else {
        Standing::NoType
    }
}

/// Whether the operand may be stored into an object of the type.
pub fn accepts(to: TypeRef, from: Operand) -> bool
    ensures { result ≡ spec.accepts (shown_type to.entry) (shown_operand from.entry) }
{
    match to.peeled() {
        Some((Layer::Pointer, of)) => are_compatible(Operand::Pointing(of), from),
        Some((Layer::Array(_), _)) => false,
        None => match to.base {
            BaseType::Int => from.is_whole(),
            BaseType::Function(number) => are_functions(Operand::Function(number), from),
            BaseType::Void
            | BaseType::Struct(_)
            | BaseType::Mutex
            | BaseType::Cond
            | BaseType::Barrier
            | BaseType::RwLock => false,
        },
    }
}

/// Whether an object of the type can be moved by the operand, as `+=` does.
pub fn moves(to: TypeRef, by: Operand) -> bool
    ensures { result ≡ spec.moves (shown_type to.entry) (shown_operand by.entry) }
{
    match to.peeled() {
        Some((Layer::Pointer, of)) => !of.is_void() && by.is_whole(),
        Some((Layer::Array(_), _)) => false,
        None => match to.base {
            BaseType::Int => by.is_whole(),
            BaseType::Void
            | BaseType::Struct(_)
            | BaseType::Function(_)
            | BaseType::Mutex
            | BaseType::Cond
            | BaseType::Barrier
            | BaseType::RwLock => false,
        },
    }
}

fn is_int(of: TypeRef) -> bool
    ensures { result ≡ spec.is_int_type (shown_type of.entry) }
{
    match of.peeled() {
        Some(_) => false,
        None => match of.base {
            BaseType::Int => true,
            BaseType::Void
            | BaseType::Struct(_)
            | BaseType::Function(_)
            | BaseType::Mutex
            | BaseType::Cond
            | BaseType::Barrier
            | BaseType::RwLock => false,
        },
    }
}

/// Whether the operator may assign the operand to an object of the type.
pub fn assigns(op: AssignOp, to: TypeRef, from: Operand) -> bool
    ensures { result ≡ spec.assigns op (shown_type to.entry) (shown_operand from.entry) }
{
    match op {
        AssignOp::Assign => accepts(to, from),
        AssignOp::Add | AssignOp::Subtract => moves(to, from),
        AssignOp::Multiply
        | AssignOp::Divide
        | AssignOp::Remainder
        | AssignOp::And
        | AssignOp::Or
        | AssignOp::Xor
        | AssignOp::ShiftLeft
        | AssignOp::ShiftRight => is_int(to) && from.is_whole(),
    }
}

/// The same where the object has no type that is known.
pub fn assigns_some(op: AssignOp, from: Operand) -> bool
    ensures { result ≡ spec.assigns_some op (shown_operand from.entry) }
{
    match op {
        AssignOp::Assign => from.is_scalar(),
        AssignOp::Add
        | AssignOp::Subtract
        | AssignOp::Multiply
        | AssignOp::Divide
        | AssignOp::Remainder
        | AssignOp::And
        | AssignOp::Or
        | AssignOp::Xor
        | AssignOp::ShiftLeft
        | AssignOp::ShiftRight => from.is_whole(),
    }
}

/// Whether `?:` takes the two.
pub fn can_choose(a: Operand, b: Operand) -> bool
    ensures { result ≡ spec.can_choose (shown_operand a.entry) (shown_operand b.entry) }
{
    are_whole(a, b) || are_compatible(a, b) || are_functions(a, b)
}

fn voider<'a>(s: TypeRef<'a>, t: TypeRef<'a>) -> TypeRef<'a>
    ensures { shown_type result ≡ spec.voider (shown_type s.entry) (shown_type t.entry) }
{
    if t.is_void() { t } else { s }
}

fn chosen_target<'a>(a: Operand<'a>, b: Operand<'a>) -> TypeRef<'a>
    ensures { shown_type result ≡ spec.chosen_target (shown_operand a.entry) (shown_operand b.entry) }
{
    match a {
        Operand::Pointing(s) => match b {
            Operand::Pointing(t) => voider(s, t),
            _ => s,
        },
        _ => match b {
            Operand::Pointing(t) => t,
            _ => TypeRef::starred(0, BaseType::Void),
        },
    }
}

/// What `?:` gives of the two.
pub fn chosen<'a>(a: Operand<'a>, b: Operand<'a>) -> Standing<'a>
    ensures { shown_standing result ≡ spec.chosen (shown_operand a.entry) (shown_operand b.entry) }
{
    match (a, b) {
        (Operand::Function(number), _) => Standing::Bare(BaseType::Function(number)),
        (_, Operand::Function(number)) => Standing::Bare(BaseType::Function(number)),
        _ if are_whole(a, b) => Standing::Whole,
        _ => Standing::Pointer(chosen_target(a, b)),
    }
}

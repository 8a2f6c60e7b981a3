//! What operators make of the parts of an expression (C99 6.5).
ghost use Rattle.std.specs.Prelude.{◌≡◌, []};
ghost use Rattle.std.specs.Option.{option_map};
ghost use Rattle.c_types.specs.Scopes as scopes;
ghost use Rattle.c_types.specs.Operands as operands;
ghost use Rattle.c_types.specs.Standing as spec;
ghost use Rattle.c_types.specs.Shown.{shown_type, shown_maybe, shown_meaning, shown_standing, shown_operand, shown_target};

use crate::names::{Meaning, Names};
use crate::operand::{Operand, Standing};
use crate::rules::{assigns, can_choose, chosen, moves};
use crate::type_ref::TypeRef;
use crate::types::{BaseType, Layer};
use c_tree::{AssignOp, CType, PrefixOp, Specifier};

/// What a `malloc` is to make an object of.
#[derive(Clone, Copy, Debug)]
pub enum Target<'a> {
    No,
    /// There is one, whose type isn't known for a fault.
    Some,
    Of(TypeRef<'a>),
}

/// What a pointer of the type is to point to.
pub fn type_target<'a>(of: TypeRef<'a>) -> Target<'a>
    ensures { shown_target result ≡ spec.type_target (shown_type of.entry) }
{
    match of.peeled() {
        Some((Layer::Pointer, to)) if !to.is_void() => Target::Of(to),
        Some((Layer::Pointer, _)) => Target::No,
        Some((Layer::Array(_), _)) => Target::No,
        None => Target::No,
    }
}

/// What the right side of an assignment is to point to.
pub fn assigned_target<'a>(op: AssignOp, left: Standing<'a>) -> Target<'a>
    ensures { shown_target result ≡ spec.assigned_target op (shown_standing left.entry) }
{
    match op {
        AssignOp::Assign => match left {
            Standing::NoType => Target::Some,
            Standing::Place(of) => type_target(of),
            Standing::Zero
            | Standing::Null
            | Standing::Whole
            | Standing::Pointer(_)
            | Standing::Bare(_) => Target::No,
        },
        AssignOp::Add
        | AssignOp::Subtract
        | AssignOp::Multiply
        | AssignOp::Divide
        | AssignOp::Remainder
        | AssignOp::And
        | AssignOp::Or
        | AssignOp::Xor
        | AssignOp::ShiftLeft
        | AssignOp::ShiftRight => Target::No,
    }
}

/// What the operand of a cast is to point to.
pub fn cast_target<'a>(to: Option<TypeRef<'a>>, stars: usize) -> Target<'a>
    ensures { shown_target result ≡ spec.cast_target (shown_maybe to.entry) stars }
{
    match to {
        Some(of) => type_target(of),
        None if stars == 0 => Target::No,
        None => Target::Some,
    }
}

/// What a `malloc` is: a pointer to what its place makes an object of, if it does of any.
pub fn malloc_standing<'a>(target: Target<'a>) -> Standing<'a>
    ensures { shown_standing result ≡ spec.malloc_standing (shown_target target.entry) }
{
    match target {
        Target::No => Standing::NoType,
        Target::Some => Standing::NoType,
        Target::Of(to) => Standing::Pointer(to),
    }
}

fn pointee<'a>(of: Operand<'a>) -> Standing<'a>
    ensures { shown_standing result ≡ spec.pointee (shown_operand of.entry) }
{
    match of {
        Operand::Pointing(to) if !to.is_void() => Standing::Place(to),
        Operand::Pointing(_) => Standing::NoType,
        Operand::Any
        | Operand::Whole
        | Operand::Zero
        | Operand::Null
        | Operand::Function(_)
        | Operand::Unfit => Standing::NoType,
    }
}

/// The number of the functions' type, where the type is a pointer to functions.
pub fn type_function(of: TypeRef) -> Option<usize>
    ensures { result ≡ spec.type_function (shown_type of.entry) }
{
    match of.peeled() {
        Some(_) => None,
        None => match of.base {
            BaseType::Function(number) => Some(number),
            BaseType::Int
            | BaseType::Void
            | BaseType::Struct(_)
            | BaseType::Mutex
            | BaseType::Cond
            | BaseType::Barrier
            | BaseType::RwLock => None,
        },
    }
}

/// Whether the type is a pointer to functions.
pub fn points_to_functions(of: TypeRef) -> bool
    ensures { result ≡ spec.points_to_functions (shown_type of.entry) }
{
    type_function(of).is_some()
}

fn address<'a>(of: Standing<'a>) -> Standing<'a>
    ensures { shown_standing result ≡ spec.address (shown_standing of.entry) }
{
    match of {
        Standing::Place(to) if points_to_functions(to) => Standing::NoType,
        Standing::Place(to) => Standing::Pointer(to),
        Standing::NoType
        | Standing::Zero
        | Standing::Null
        | Standing::Whole
        | Standing::Pointer(_)
        | Standing::Bare(_) => Standing::NoType,
    }
}

/// `++` and `--`.
pub fn stepped<'a>(of: Standing<'a>) -> Standing<'a>
    ensures { shown_standing result ≡ spec.stepped (shown_standing of.entry) }
{
    match of {
        Standing::Place(to) if moves(to, Operand::Whole) => Standing::value_of(to),
        Standing::Place(_) => Standing::NoType,
        Standing::NoType
        | Standing::Zero
        | Standing::Null
        | Standing::Whole
        | Standing::Pointer(_)
        | Standing::Bare(_) => Standing::NoType,
    }
}

fn made_int<'a>(allowed: bool, of: Operand<'a>) -> Standing<'a>
    ensures { shown_standing result ≡ spec.made_int allowed (shown_operand of.entry) }
{
    if allowed && of.is_typed() {
        Standing::Whole
    } else {
        Standing::NoType
    }
}

/// What a prefix operator makes of its operand.
pub fn prefix_standing<'a>(op: PrefixOp, of: Standing<'a>) -> Standing<'a>
    ensures { shown_standing result ≡ spec.prefix_standing op (shown_standing of.entry) }
{
    let operand = Operand::of(of);
    match op {
        PrefixOp::Address => address(of),
        PrefixOp::Indirect => pointee(operand),
        PrefixOp::Plus | PrefixOp::Minus | PrefixOp::Complement => {
            made_int(operand.is_whole(), operand)
        }
        PrefixOp::Not => made_int(operand.is_scalar(), operand),
        PrefixOp::Increment | PrefixOp::Decrement => stepped(of),
    }
}

fn settled<'a>(
    allowed: bool,
    a: Operand<'a>,
    b: Operand<'a>,
    standing: Standing<'a>,
) -> Standing<'a>
    ensures { shown_standing result ≡ operands.settled allowed (shown_operand a.entry) (shown_operand b.entry) (shown_standing standing.entry) }
{
    if allowed && a.is_typed() && b.is_typed() {
        standing
    } else {
        Standing::NoType
    }
}

/// What `?:` makes of its three operands.
pub fn conditional_standing<'a>(
    test: Operand<'a>,
    yes: Operand<'a>,
    no: Operand<'a>,
) -> Standing<'a>
    ensures { shown_standing result ≡ spec.conditional_standing (shown_operand test.entry) (shown_operand yes.entry) (shown_operand no.entry) }
{
    if test.is_scalar() && test.is_typed() {
        settled(can_choose(yes, no), yes, no, chosen(yes, no))
    } else {
        Standing::NoType
    }
}

/// What an assignment gives.
pub fn assign_standing<'a>(op: AssignOp, left: Standing<'a>, right: Operand<'a>) -> Standing<'a>
    ensures { shown_standing result ≡ spec.assign_standing op (shown_standing left.entry) (shown_operand right.entry) }
{
    match left {
        Standing::Place(of) if assigns(op, of, right) && right.is_typed() => Standing::value_of(of),
        Standing::Place(_) => Standing::NoType,
        Standing::NoType
        | Standing::Zero
        | Standing::Null
        | Standing::Whole
        | Standing::Pointer(_)
        | Standing::Bare(_) => Standing::NoType,
    }
}

/// The base of the types that are declared with the specifier, if there is one.
pub fn base_of<N: Names>(names: &N, specifier: &Specifier) -> Option<BaseType>
    ensures { result ≡ scopes.base_of (N.known names.now) specifier.now }
{
    match specifier {
        Specifier::Int { .. } => Some(BaseType::Int),
        Specifier::Long { .. } => Some(BaseType::Int),
        Specifier::PthreadT { .. } => Some(BaseType::Int),
        Specifier::Void { .. } => Some(BaseType::Void),
        Specifier::Struct { name, .. } => match names.struct_numbered(name.text.as_slice()) {
            Some(number) => Some(BaseType::Struct(number)),
            None => None,
        },
        Specifier::PthreadMutexT { .. } => Some(BaseType::Mutex),
        Specifier::PthreadCondT { .. } => Some(BaseType::Cond),
        Specifier::PthreadBarrierT { .. } => Some(BaseType::Barrier),
        Specifier::PthreadRwlockT { .. } => Some(BaseType::RwLock),
    }
}

/// The type that is named, unless its struct isn't defined anywhere.
pub fn type_named<'a, N: Names>(names: &N, of: &CType) -> Option<TypeRef<'a>>
    ensures { shown_maybe result ≡ scopes.type_named (N.known names.now) of.now }
{
    match base_of(names, &of.specifier) {
        Some(base) => Some(TypeRef::starred(of.stars, base)),
        None => None,
    }
}

fn is_complete_base<N: Names>(names: &N, base: BaseType) -> bool
    ensures { result ≡ scopes.is_complete_base (N.known names.now) base }
{
    match base {
        BaseType::Int => true,
        BaseType::Void => false,
        BaseType::Struct(number) => names.is_struct_defined(number),
        BaseType::Function(_) => true,
        BaseType::Mutex => true,
        BaseType::Cond => true,
        BaseType::Barrier => true,
        BaseType::RwLock => true,
    }
}

/// Whether the type has a size at the place.
pub fn is_complete<N: Names>(names: &N, of: TypeRef) -> bool
    ensures { result ≡ scopes.is_complete (N.known names.now) (shown_type of.entry) }
{
    match of.peeled() {
        Some((Layer::Pointer, _)) => true,
        Some((Layer::Array(_), element)) => is_complete(names, element),
        None => is_complete_base(names, of.base),
    }
}

/// Whether the operand of a `sizeof` has a size.
pub fn is_sized<N: Names>(names: &N, of: Standing) -> bool
    ensures { result ≡ spec.is_sized (N.known names.now) (shown_standing of.entry) }
{
    match of {
        Standing::NoType
        | Standing::Zero
        | Standing::Null
        | Standing::Whole
        | Standing::Pointer(_) => true,
        Standing::Bare(base) => is_complete_base(names, base),
        Standing::Place(of) => is_complete(names, of),
    }
}

/// What a `sizeof` with an expression is.
pub fn sizeof_standing<'a, N: Names>(names: &N, of: Standing<'a>) -> Standing<'a>
    ensures { shown_standing result ≡ spec.sizeof_standing (N.known names.now) (shown_standing of.entry) }
{
    made_int(is_sized(names, of), Operand::of(of))
}

/// What a `sizeof` with a type is.
pub fn sizeof_type_standing<'a, N: Names>(names: &N, of: Option<TypeRef<'a>>) -> Standing<'a>
    ensures { shown_standing result ≡ spec.sizeof_type_standing (N.known names.now) (shown_maybe of.entry) }
{
    match of {
        Some(of) if is_complete(names, of) => Standing::Whole,
        Some(_) => Standing::NoType,
        None => Standing::NoType,
    }
}

/// Whether something can be cast to the type.
pub fn casts_to(to: Option<TypeRef>, stars: usize) -> bool
    ensures { result ≡ spec.casts_to (shown_maybe to.entry) stars }
{
    match to {
        Some(of) => Operand::of_type(of).is_scalar(),
        None => stars != 0,
    }
}

/// What a cast is.
pub fn cast_standing<'a>(to: Option<TypeRef<'a>>, stars: usize, from: Operand<'a>) -> Standing<'a>
    ensures { shown_standing result ≡ spec.cast_standing (shown_maybe to.entry) stars (shown_operand from.entry) }
{
    match to {
        Some(of) => {
            if casts_to(to, stars) && from.can_cast() && from.is_typed() {
                Standing::value_of(of)
            } else {
                Standing::NoType
            }
        }
        None => Standing::NoType,
    }
}

/// Whether the two stand as base and index, in this order or the other one.
pub fn can_index(a: Operand, b: Operand) -> bool
    ensures { result ≡ spec.can_index (shown_operand a.entry) (shown_operand b.entry) }
{
    a.is_movable() && b.is_whole() || a.is_whole() && b.is_movable()
}

fn element_place<'a>(a: Operand<'a>, b: Operand<'a>) -> Standing<'a>
    ensures { shown_standing result ≡ spec.element_place (shown_operand a.entry) (shown_operand b.entry) }
{
    match (a, b) {
        (Operand::Pointing(to), _) => Standing::Place(to),
        (_, Operand::Pointing(to)) => Standing::Place(to),
        _ => Standing::NoType,
    }
}

/// What a base with an index is.
pub fn index_standing<'a>(a: Operand<'a>, b: Operand<'a>) -> Standing<'a>
    ensures { shown_standing result ≡ spec.index_standing (shown_operand a.entry) (shown_operand b.entry) }
{
    settled(can_index(a, b), a, b, element_place(a, b))
}

fn struct_of_base(base: BaseType) -> Option<usize>
    ensures { result ≡ spec.layered_struct [] base }
{
    match base {
        BaseType::Struct(number) => Some(number),
        BaseType::Int => None,
        BaseType::Void => None,
        BaseType::Function(_) => None,
        BaseType::Mutex => None,
        BaseType::Cond => None,
        BaseType::Barrier => None,
        BaseType::RwLock => None,
    }
}

fn struct_of_type(of: TypeRef) -> Option<usize>
    ensures { result ≡ spec.type_struct (shown_type of.entry) }
{
    match of.peeled() {
        Some(_) => None,
        None => struct_of_base(of.base),
    }
}

/// The struct that stands before a `.`, if one does.
pub fn struct_of(of: Standing) -> Option<usize>
    ensures { result ≡ spec.struct_of (shown_standing of.entry) }
{
    match of {
        Standing::Place(of) => struct_of_type(of),
        Standing::Bare(base) => struct_of_base(base),
        Standing::NoType
        | Standing::Zero
        | Standing::Null
        | Standing::Whole
        | Standing::Pointer(_) => None,
    }
}

/// The struct to which what stands before a `->` points.
pub fn pointed_struct(of: Operand) -> Option<usize>
    ensures { result ≡ spec.pointed_struct (shown_operand of.entry) }
{
    match of {
        Operand::Pointing(to) => struct_of_type(to),
        Operand::Any
        | Operand::Whole
        | Operand::Zero
        | Operand::Null
        | Operand::Function(_)
        | Operand::Unfit => None,
    }
}

/// What a member of the struct is.
pub fn member_standing<'a, N: Names>(
    names: &'a N,
    number: Option<usize>,
    name: &[u8],
) -> Standing<'a>
    ensures { shown_standing result ≡ spec.member_standing (N.known names.now) number name.now }
{
    match number {
        Some(number) => match names.member_of(number, name) {
            Some(Some(of)) => Standing::Place(of),
            Some(None) => Standing::NoType,
            None => Standing::NoType,
        },
        None => Standing::NoType,
    }
}

/// Whether the name is `main`.
pub fn is_main(name: &[u8]) -> bool
    ensures { result ≡ spec.is_main name.now }
{
    name == b"main".as_slice()
}

/// Whether calls and pointers may use the function of this name.
pub fn can_be_used<N: Names>(names: &N, name: &[u8]) -> bool
    ensures { result ≡ spec.can_be_used (N.known names.now) name.now }
{
    !is_main(name) && names.is_function_defined(name)
}

fn function_value<'a>(can_be_used: bool, number: Option<usize>) -> Standing<'a>
    ensures { shown_standing result ≡ spec.function_value can_be_used number }
{
    match number {
        Some(number) if can_be_used => Standing::Bare(BaseType::Function(number)),
        Some(_) => Standing::NoType,
        None => Standing::NoType,
    }
}

/// What a name that stands for itself is, by what it means and its value as a constant of the library.
pub fn named_standing<'a, N: Names>(
    names: &'a N,
    name: &[u8],
    constant: Option<i64>,
) -> Standing<'a>
    ensures { shown_standing result ≡ spec.named_standing (N.known names.now) name.now (scopes.seen (N.known names.now) name.now) constant }
{
    match names.seen(name) {
        Some(Meaning::Variable(Some(of))) => Standing::Place(of),
        Some(Meaning::Variable(None)) => Standing::NoType,
        Some(Meaning::Function(of)) => {
            function_value(can_be_used(names, name), names.type_numbered(of))
        }
        None => match constant {
            Some(_) => Standing::Whole,
            None => Standing::NoType,
        },
    }
}

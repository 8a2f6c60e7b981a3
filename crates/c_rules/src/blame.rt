//! Which rules an expression breaks, and where.
#![tactic(auto, using(c_types::proofs::First::first_of_both))]

ghost use Rattle.std.specs.Prelude.{◌≡◌};
ghost use Rattle.c_types.specs.Found.{first_among};
ghost use Rattle.c_types.specs.Types.{pointer_to};
ghost use Rattle.c_types.specs.Operands.{assigns};
ghost use Rattle.c_rules.specs.Faults as spec;
ghost use Rattle.c_tree.specs.View.{exp_of};
ghost use Rattle.c_types.specs.Shown.{shown_type, shown_meaning, shown_standing, shown_operand};

use c_constants::constant_named;
use c_tree::{AssignOp, CType, Expr, Name, PrefixOp, Specifier};
use c_types::{
    BaseType, FaultKind, Found, Meaning, Names, Operand, Standing, TypeRef, are_compatible,
    assigns, assigns_some, casts_to, library_named, moves, note, points_to_functions, type_named,
};
use rr_base::Position;

/// The place of the expression's own token.
pub fn own_place(e: &Expr) -> Position
    ensures { result ≡ spec.own_place (exp_of e.now) }
{
    match e {
        Expr::Comma { at, .. }
        | Expr::Assign { at, .. }
        | Expr::Conditional { at, .. }
        | Expr::Binary { at, .. }
        | Expr::Prefix { at, .. }
        | Expr::SizeofExpr { at, .. }
        | Expr::SizeofType { at, .. }
        | Expr::Cast { at, .. }
        | Expr::Index { at, .. }
        | Expr::Member { at, .. }
        | Expr::Arrow { at, .. }
        | Expr::PostIncrement { at, .. }
        | Expr::PostDecrement { at, .. }
        | Expr::Name { at, .. }
        | Expr::Call { at, .. }
        | Expr::Number { at, .. }
        | Expr::Letter { at, .. }
        | Expr::Text { at, .. }
        | Expr::Null { at }
        | Expr::Paren { at, .. } => *at,
    }
}

/// The place of the expression's first token.
pub fn first_place(e: &Expr) -> Position
    ensures { result ≡ spec.first_place (exp_of e.now) }
{
    match e {
        Expr::Comma { first, .. } => first_place(first),
        Expr::Assign { left, .. } => first_place(left),
        Expr::Conditional { test, .. } => first_place(test),
        Expr::Binary { left, .. } => first_place(left),
        Expr::Index { base, .. } => first_place(base),
        Expr::Member { base, .. } => first_place(base),
        Expr::Arrow { base, .. } => first_place(base),
        Expr::PostIncrement { operand, .. } => first_place(operand),
        Expr::PostDecrement { operand, .. } => first_place(operand),
        Expr::Prefix { at, .. }
        | Expr::SizeofExpr { at, .. }
        | Expr::SizeofType { at, .. }
        | Expr::Cast { at, .. }
        | Expr::Name { at, .. }
        | Expr::Call { at, .. }
        | Expr::Number { at, .. }
        | Expr::Letter { at, .. }
        | Expr::Text { at, .. }
        | Expr::Null { at }
        | Expr::Paren { at, .. } => *at,
    }
}

/// Where the name stands.
pub fn name_place(name: &Name) -> Position
    ensures { result ≡ spec.name_place name.now }
{
    name.at
}

/// Notes that types don't match at the place, if `comes`.
pub fn note_mismatch(first: &mut Option<Found>, comes: bool, at: Position)
    ensures { first.new ≡ first_among first.old (spec.mismatch comes at) }
{
    note(first, comes, FaultKind::TypeMismatch, at);
}

fn note_place(first: &mut Option<Found>, is_place: bool, at: Position)
    ensures { first.new ≡ first_among first.old (spec.place_faults is_place at) }
{
    note(first, !is_place, FaultKind::NotPlace, at);
}

fn is_unknown_struct<N: Names>(names: &N, needs_size: bool, name: &Name) -> bool
    ensures { result ≡ spec.is_unknown_struct (N.known names.now) needs_size name.now }
{
    match names.struct_numbered(name.text.as_slice()) {
        None => true,
        Some(number) => needs_size && !names.is_struct_defined(number),
    }
}

/// Notes a struct that isn't known, or whose size isn't known where it is needed.
pub fn note_specifier<N: Names>(
    names: &N,
    needs_size: bool,
    specifier: &Specifier,
    first: &mut Option<Found>,
)
    ensures { first.new ≡ first_among first.old (spec.specifier_faults (N.known names.now) needs_size specifier.now) }
{
    match specifier {
        Specifier::Struct { name, .. } => {
            let comes = is_unknown_struct(names, needs_size, name);
            note(first, comes, FaultKind::UnknownName, name_place(name));
        }
        Specifier::Int { .. } => {}
        Specifier::Long { .. } => {}
        Specifier::Void { .. } => {}
        Specifier::PthreadT { .. } => {}
        Specifier::PthreadMutexT { .. } => {}
        Specifier::PthreadCondT { .. } => {}
        Specifier::PthreadBarrierT { .. } => {}
        Specifier::PthreadRwlockT { .. } => {}
    }
}

fn is_indirect(op: PrefixOp) -> bool
    ensures { result ≡ spec.is_indirect op }
{
    match op {
        PrefixOp::Indirect => true,
        PrefixOp::Address
        | PrefixOp::Plus
        | PrefixOp::Minus
        | PrefixOp::Not
        | PrefixOp::Complement
        | PrefixOp::Increment
        | PrefixOp::Decrement => false,
    }
}

fn name_can_be_place(seen: Option<Meaning>, name: &[u8]) -> bool
    ensures { result ≡ spec.name_can_be_place (shown_meaning seen.entry) name.now }
{
    match seen {
        Some(Meaning::Variable(_)) => true,
        Some(Meaning::Function(_)) => false,
        None => constant_named(name).is_none() && library_named(name).is_none(),
    }
}

/// Whether the expression can be a place, whatever the types of its parts are.
pub fn can_be_place<N: Names>(names: &N, e: &Expr) -> bool
    ensures { result ≡ spec.can_be_place (N.known names.now) (exp_of e.now) }
{
    match e {
        Expr::Prefix { op, .. } => is_indirect(*op),
        Expr::Index { .. } | Expr::Arrow { .. } => true,
        Expr::Member { base, .. } => can_be_place(names, base),
        Expr::Name { name, .. } => {
            name_can_be_place(names.seen(name.as_slice()), name.as_slice())
        }
        Expr::Paren { inner, .. } => can_be_place(names, inner),
        Expr::Comma { .. }
        | Expr::Assign { .. }
        | Expr::Conditional { .. }
        | Expr::Binary { .. }
        | Expr::SizeofExpr { .. }
        | Expr::SizeofType { .. }
        | Expr::Cast { .. }
        | Expr::PostIncrement { .. }
        | Expr::PostDecrement { .. }
        | Expr::Call { .. }
        | Expr::Number { .. }
        | Expr::Letter { .. }
        | Expr::Text { .. }
        | Expr::Null { .. } => false,
    }
}

fn assigns_pointer(op: AssignOp, to: TypeRef, from: Operand) -> bool
    ensures { result ≡ assigns op (pointer_to (shown_type to.entry)) (shown_operand from.entry) }
{
    match op {
        AssignOp::Assign => are_compatible(Operand::Pointing(to), from),
        AssignOp::Add | AssignOp::Subtract => !to.is_void() && from.is_whole(),
        AssignOp::Multiply
        | AssignOp::Divide
        | AssignOp::Remainder
        | AssignOp::And
        | AssignOp::Or
        | AssignOp::Xor
        | AssignOp::ShiftLeft
        | AssignOp::ShiftRight => false,
    }
}

/// Whether the operator may assign the operand to what stands on its left.
fn assigns_to(op: AssignOp, to: Standing, from: Operand) -> bool
    ensures { result ≡ spec.assigns_to op (spec.standing_type (shown_standing to.entry)) (shown_operand from.entry) }
{
    match to {
        Standing::NoType => assigns_some(op, from),
        Standing::Zero => assigns(op, TypeRef::starred(0, BaseType::Int), from),
        Standing::Whole => assigns(op, TypeRef::starred(0, BaseType::Int), from),
        Standing::Null => assigns(op, TypeRef::starred(1, BaseType::Void), from),
        Standing::Pointer(of) => assigns_pointer(op, of, from),
        Standing::Bare(base) => assigns(op, TypeRef::starred(0, base), from),
        Standing::Place(of) => assigns(op, of, from),
    }
}

/// Whether `++` and `--` can be applied by the type.
fn steps(of: Standing) -> bool
    ensures { result ≡ spec.steps (spec.standing_type (shown_standing of.entry)) }
{
    match of {
        Standing::NoType => true,
        Standing::Zero => true,
        Standing::Whole => true,
        Standing::Null => false,
        Standing::Pointer(to) => !to.is_void(),
        Standing::Bare(base) => moves(TypeRef::starred(0, base), Operand::Whole),
        Standing::Place(of) => moves(of, Operand::Whole),
    }
}

fn can_follow(of: Operand) -> bool
    ensures { result ≡ spec.can_follow (shown_operand of.entry) }
{
    match of {
        Operand::Any => true,
        Operand::Pointing(to) => !to.is_void(),
        Operand::Whole | Operand::Zero | Operand::Null | Operand::Function(_) | Operand::Unfit =>
            false,
    }
}

fn can_be_pointed_to(of: Standing) -> bool
    ensures { result ≡ spec.can_be_pointed_to (shown_standing of.entry) }
{
    match of {
        Standing::Place(of) => !points_to_functions(of),
        Standing::NoType
        | Standing::Zero
        | Standing::Null
        | Standing::Whole
        | Standing::Pointer(_)
        | Standing::Bare(_) => true,
    }
}

fn prefix_takes(op: PrefixOp, of: Standing) -> bool
    ensures { result ≡ spec.prefix_takes op (shown_standing of.entry) }
{
    let operand = Operand::of(of);
    match op {
        PrefixOp::Address => can_be_pointed_to(of),
        PrefixOp::Indirect => can_follow(operand),
        PrefixOp::Plus | PrefixOp::Minus | PrefixOp::Complement => operand.is_whole(),
        PrefixOp::Not => operand.is_scalar(),
        PrefixOp::Increment | PrefixOp::Decrement => steps(of),
    }
}

fn needs_place(op: PrefixOp) -> bool
    ensures { result ≡ spec.needs_place op }
{
    match op {
        PrefixOp::Address | PrefixOp::Increment | PrefixOp::Decrement => true,
        PrefixOp::Indirect
        | PrefixOp::Plus
        | PrefixOp::Minus
        | PrefixOp::Not
        | PrefixOp::Complement => false,
    }
}

/// Notes what is wrong with a prefix operator.
pub fn note_prefix<N: Names>(
    names: &N,
    op: PrefixOp,
    operand: &Expr,
    of: Standing,
    at: Position,
    first: &mut Option<Found>,
)
    ensures { first.new ≡ first_among first.old (spec.prefix_faults (N.known names.now) op (exp_of operand.now) (shown_standing of.entry) at) }
{
    let is_place = !needs_place(op) || can_be_place(names, operand);
    note_place(first, is_place, at);
    note_mismatch(first, !prefix_takes(op, of), at);
}

/// Notes what is wrong with a `++` or `--` after its operand.
pub fn note_step<N: Names>(
    names: &N,
    operand: &Expr,
    of: Standing,
    at: Position,
    first: &mut Option<Found>,
)
    ensures { first.new ≡ first_among first.old (spec.step_faults (N.known names.now) (exp_of operand.now) (shown_standing of.entry) at) }
{
    note_place(first, can_be_place(names, operand), at);
    note_mismatch(first, !steps(of), at);
}

/// Notes what is wrong with an assignment.
pub fn note_assign<N: Names>(
    names: &N,
    op: AssignOp,
    left: &Expr,
    to: Standing,
    from: Operand,
    at: Position,
    first: &mut Option<Found>,
)
    ensures { first.new ≡ first_among first.old (spec.assign_faults (N.known names.now) op (exp_of left.now) (shown_standing to.entry) (shown_operand from.entry) at) }
{
    note_place(first, can_be_place(names, left), at);
    note_mismatch(first, !assigns_to(op, to, from), at);
}

/// Notes what is wrong with the type that a `sizeof` names.
pub fn note_sizeof_type<N: Names>(names: &N, of: &CType, at: Position, first: &mut Option<Found>)
    ensures { first.new ≡ first_among first.old (spec.sizeof_type_faults (N.known names.now) of.now at) }
{
    let is_void = match type_named(names, of) {
        Some(of) => of.is_void(),
        None => false,
    };
    note_mismatch(first, is_void, at);
    note_specifier(names, of.stars == 0, &of.specifier, first);
}

/// Notes what is wrong with a cast.
pub fn note_cast<N: Names>(
    names: &N,
    to: &CType,
    from: Operand,
    at: Position,
    first: &mut Option<Found>,
)
    ensures { first.new ≡ first_among first.old (spec.cast_faults (N.known names.now) to.now (shown_operand from.entry) at) }
{
    let allowed = casts_to(type_named(names, to), to.stars) && from.can_cast();
    note_mismatch(first, !allowed, at);
    note_specifier(names, false, &to.specifier, first);
}

fn lacks_struct(of: Operand, number: Option<usize>) -> bool
    ensures { result ≡ spec.lacks_struct (shown_operand of.entry) number }
{
    match of {
        Operand::Any => false,
        Operand::Whole
        | Operand::Zero
        | Operand::Null
        | Operand::Pointing(_)
        | Operand::Function(_)
        | Operand::Unfit => number.is_none(),
    }
}

fn lacks_member<N: Names>(names: &N, number: Option<usize>, name: &[u8]) -> bool
    ensures { result ≡ spec.lacks_member (N.known names.now) number name.now }
{
    match number {
        None => false,
        Some(number) => match names.member_of(number, name) {
            Some(_) => false,
            None => true,
        },
    }
}

/// Notes what is wrong with a `.` or `->`.
pub fn note_member<N: Names>(
    names: &N,
    of: Operand,
    number: Option<usize>,
    name: &Name,
    at: Position,
    first: &mut Option<Found>,
)
    ensures { first.new ≡ first_among first.old (spec.member_faults (N.known names.now) (shown_operand of.entry) number name.now at) }
{
    note_mismatch(first, lacks_struct(of, number), at);
    let lacks = lacks_member(names, number, name.text.as_slice());
    note(first, lacks, FaultKind::UnknownName, name_place(name));
}

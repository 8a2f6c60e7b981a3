//! Which rules a call and its arguments break, and where.
#![tactic(auto, using(c_types::proofs::First::first_of_both))]

ghost use Rattle.std.specs.Prelude.{◌≡◌, map};
ghost use Rattle.std.specs.Option.{option_map};
ghost use Rattle.c_tree.specs.Tree.{listed};
ghost use Rattle.c_types.specs.Scopes.{seen};
ghost use Rattle.c_types.specs.Found.{first_among};
ghost use Rattle.c_rules.specs.Faults as spec;
ghost use Rattle.c_tree.specs.View.{exp_of};
ghost use Rattle.c_types.specs.Shown.{shown_standing, shown_target, shown_wants};
ghost use Rattle.c_types.specs.Library.{library_named};
ghost use Rattle.c_types.specs.Standing.{format_of};
ghost use Rattle.c_rules.specs.Seen.{IsSeenOf};

use crate::blame::{first_place, note_mismatch, own_place};
use crate::calls::{format_of, is_null, is_root, is_text, pointed_signature, printf_wants};
use c_constants::constant_named;
use c_tree::Expr;
use c_types::{
    FaultKind, Found, LibraryName, Meaning, Names, Operand, Signature, Standing, Target, TypeRef,
    Wanted, Wants, accepts, is_main, library_named, note, wanted_by,
};
use rr_base::Position;

fn note_undeclared(name: &[u8], at: Position, first: &mut Option<Found>)
    ensures { first.new ≡ first_among first.old (spec.undeclared_faults name.now at) }
{
    if constant_named(name).is_some() {
        return;
    }
    if library_named(name).is_some() {
        note(first, true, FaultKind::TypeMismatch, at);
    } else {
        note(first, true, FaultKind::UnknownName, at);
    }
}

/// Notes what is wrong with a name that stands for itself.
pub fn note_named<N: Names>(names: &N, name: &[u8], at: Position, first: &mut Option<Found>)
    ensures { first.new ≡ first_among first.old (spec.named_faults (N.known names.now) (seen (N.known names.now) name.now) name.now at) }
{
    match names.seen(name) {
        Some(Meaning::Variable(_)) => {}
        Some(Meaning::Function(_)) => {
            note(first, is_main(name), FaultKind::BadCall, at);
            let undefined = !names.is_function_defined(name);
            note(first, undefined, FaultKind::UnknownName, at);
        }
        None => note_undeclared(name, at, first),
    }
}

fn note_count(many: usize, count: usize, at: Position, first: &mut Option<Found>)
    ensures { first.new ≡ first_among first.old (spec.count_faults many count at) }
{
    note(first, many != count, FaultKind::BadCall, at);
}

fn begins_with_text(arguments: &[Expr]) -> bool
    ensures { result ≡ spec.begins_with_text (listed (map exp_of arguments.now)) }
{
    match arguments {
        [Expr::Text { .. }, ..] => true,
        _ => false,
    }
}

/// What is seen of the arguments of a call before they are judged.
#[derive(Clone, Copy, Debug)]
pub struct Arguments {
    pub many: usize,
    pub is_format: bool,
    /// The conversions of the format that stands first, if they are in the profile.
    pub format: Option<usize>,
}

/// The first arguments of a call, as far as there are any.
pub fn arguments_of(arguments: &[Expr]) -> Arguments
    ensures { IsSeenOf result (listed (map exp_of arguments.now)) }
{
    Arguments {
        many: arguments.len(),
        is_format: begins_with_text(arguments),
        format: format_of(arguments),
    }
}

fn note_printf_count(of: Arguments, at: Position, first: &mut Option<Found>)
    ensures { first.new ≡ first_among first.old (spec.printf_count_faults of.is_format of.format of.many at) }
{
    if !of.is_format {
        note(first, of.many == 0, FaultKind::BadCall, at);
        return;
    }
    match of.format {
        Some(numbers) => {
            let differ = of.many == 0 || of.many - 1 != numbers;
            note(first, differ, FaultKind::BadCall, at);
        }
        None => {}
    }
}

fn has_no_target(target: Target) -> bool
    ensures { result ≡ spec.has_no_target (shown_target target.entry) }
{
    match target {
        Target::No => true,
        Target::Some => false,
        Target::Of(_) => false,
    }
}

fn note_library_call(
    call: LibraryName,
    target: Target,
    of: Arguments,
    at: Position,
    first: &mut Option<Found>,
)
    ensures { first.new ≡ first_among first.old (spec.library_call_faults call (shown_target target.entry) of.is_format of.format of.many at) }
{
    match call {
        LibraryName::Malloc => {
            let comes = has_no_target(target);
            note(first, comes, FaultKind::OutOfProfile, at);
            note_count(of.many, 1, at, first);
        }
        LibraryName::PrintFormat => note_printf_count(of, at, first),
        _ => note_count(of.many, wanted_by(call).len(), at, first),
    }
}

fn note_unseen_call(
    name: &[u8],
    target: Target,
    of: Arguments,
    at: Position,
    first: &mut Option<Found>,
)
    ensures { first.new ≡ first_among first.old (spec.unseen_call_faults (library_named name.now) name.now (shown_target target.entry) of.is_format of.format of.many at) }
{
    match library_named(name) {
        Some(call) => note_library_call(call, target, of, at, first),
        None => {
            if constant_named(name).is_some() {
                note(first, true, FaultKind::TypeMismatch, at);
            } else {
                note(first, true, FaultKind::UnknownName, at);
            }
        }
    }
}

/// Notes what is wrong with the number of arguments of a call through a variable, if it points to functions.
fn note_pointer_call(of: Option<&Signature>, many: usize, at: Position, first: &mut Option<Found>)
    ensures { first.new ≡ first_among first.old (spec.pointer_call_faults (option_map (λ f. f.now) of.entry) many at) }
{
    match of {
        None => note_mismatch(first, true, at),
        Some(of) => note_count(many, of.params.len(), at, first),
    }
}

/// Notes what is wrong with the called name and the number of arguments.
pub fn note_callee<N: Names>(
    names: &N,
    name: &[u8],
    target: Target,
    arguments: Arguments,
    at: Position,
    first: &mut Option<Found>,
)
    ensures { first.new ≡ first_among first.old (spec.callee_faults (N.known names.now) name.now (shown_target target.entry) arguments.is_format arguments.format arguments.many at (seen (N.known names.now) name.now)) }
{
    match names.seen(name) {
        Some(Meaning::Variable(of)) => {
            note_pointer_call(pointed_signature(names, of), arguments.many, at, first);
        }
        Some(Meaning::Function(signature)) => {
            note(first, is_main(name), FaultKind::BadCall, at);
            let undefined = !names.is_function_defined(name);
            note(first, undefined, FaultKind::UnknownName, at);
            note_count(arguments.many, signature.params.len(), at, first);
        }
        None => note_unseen_call(name, target, arguments, at, first),
    }
}

/// Notes a format whose conversions are out of the profile, at the format.
pub fn note_format<N: Names>(names: &N, name: &[u8], arguments: &[Expr], first: &mut Option<Found>)
    ensures { let es = listed (map exp_of arguments.now) in first.new ≡ first_among first.old (spec.format_faults (spec.begins_with_text es) (library_named name.now) (seen (N.known names.now) name.now) (format_of es) (spec.place_of_first es)) }
{
    if names.seen(name).is_some() {
        return;
    }
    let Some(LibraryName::PrintFormat) = library_named(name) else {
        return;
    };
    if let [format, ..] = arguments {
        if begins_with_text(arguments) && format_of(arguments).is_none() {
            let at = own_place(format);
            note(first, true, FaultKind::OutOfProfile, at);
        }
    }
}

/// Notes what is wrong with a call, but for its arguments one by one.
pub fn note_call<N: Names>(
    names: &N,
    name: &[u8],
    target: Target,
    arguments: &[Expr],
    at: Position,
    first: &mut Option<Found>,
)
    ensures { first.new ≡ first_among first.old (spec.call_faults (N.known names.now) (shown_target target.entry) name.now (listed (map exp_of arguments.now)) at) }
{
    note_callee(names, name, target, arguments_of(arguments), at, first);
    note_format(names, name, arguments, first);
}

fn library_wants<'a>(call: LibraryName, format: Option<usize>) -> Wants<'a>
    ensures { shown_wants result ≡ spec.some_library_wants call format }
{
    match call {
        LibraryName::PrintFormat => printf_wants(format),
        _ => Wants::listed(wanted_by(call)),
    }
}

fn pointer_wants<'a>(of: Option<&'a Signature>) -> Wants<'a>
    ensures { shown_wants result ≡ spec.pointer_wants (option_map (λ f. f.now) of.entry) }
{
    match of {
        None => Wants::listed(&[]),
        Some(of) => Wants::listed(of.params.as_slice()),
    }
}

/// What the call of a name wants of its arguments.
pub fn wants_of<'a, N: Names>(names: &'a N, name: &[u8], format: Option<usize>) -> Wants<'a>
    ensures { shown_wants result ≡ spec.wants_of (N.known names.now) name.now format (seen (N.known names.now) name.now) }
{
    match names.seen(name) {
        Some(Meaning::Variable(of)) => pointer_wants(pointed_signature(names, of)),
        Some(Meaning::Function(of)) => Wants::listed(of.params.as_slice()),
        None => match library_named(name) {
            Some(call) => library_wants(call, format),
            None => Wants::listed(&[]),
        },
    }
}

fn note_root_name<N: Names>(names: &N, name: &[u8], at: Position, first: &mut Option<Found>)
    ensures { first.new ≡ first_among first.old (spec.root_name_faults (N.known names.now) (seen (N.known names.now) name.now) name.now at) }
{
    match names.seen(name) {
        Some(Meaning::Variable(_)) => {}
        Some(Meaning::Function(_)) => {
            let undefined = !names.is_function_defined(name);
            note(first, undefined, FaultKind::UnknownName, at);
        }
        None => {
            let unknown = constant_named(name).is_none() && library_named(name).is_none();
            note(first, unknown, FaultKind::UnknownName, at);
        }
    }
}

fn note_root<N: Names>(names: &N, e: &Expr, first: &mut Option<Found>)
    ensures { first.new ≡ first_among first.old (spec.root_faults (N.known names.now) (exp_of e.now)) }
{
    match e {
        Expr::Name { name, at } => note_root_name(names, name.as_slice(), *at, first),
        _ => {}
    }
}

/// Notes what is wrong with an argument for what is wanted.
pub fn note_argument<N: Names>(
    names: &N,
    wanted: Wanted,
    e: &Expr,
    of: Standing,
    at: Position,
    first: &mut Option<Found>,
)
    ensures { first.new ≡ first_among first.old (spec.argument_faults (N.known names.now) wanted (exp_of e.now) (shown_standing of.entry) at) }
{
    let begin = first_place(e);
    match wanted {
        Wanted::Fits(to) => {
            let fits = accepts(TypeRef::starred(to.stars, to.base), Operand::of(of));
            note_mismatch(first, !fits, at);
        }
        Wanted::Anything => {}
        Wanted::Attribute => note(first, !is_null(of), FaultKind::OutOfProfile, begin),
        Wanted::Root => {
            note(first, !is_root(names, e), FaultKind::BadRoot, begin);
            note_root(names, e, first);
        }
        Wanted::Text => note(first, !is_text(e), FaultKind::OutOfProfile, begin),
    }
}

fn is_named(e: &Expr) -> bool
    ensures { result ≡ spec.is_named (exp_of e.now) }
{
    matches!(e, Expr::Name { .. })
}

/// Whether the argument is judged as an expression too.
pub fn is_judged(wanted: Wanted, e: &Expr) -> bool
    ensures { result ≡ spec.is_judged wanted (exp_of e.now) }
{
    match wanted {
        Wanted::Fits(_) => true,
        Wanted::Anything => true,
        Wanted::Attribute => true,
        Wanted::Root => !is_named(e),
        Wanted::Text => !is_text(e),
    }
}

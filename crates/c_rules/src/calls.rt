//! What a call wants, and what it gives.
ghost use Rattle.std.specs.Prelude.{◌≡◌, [], ◌∷◌, map, MatchOption, if◌then◌else◌};
ghost use Rattle.std.specs.Option.{option_map};
ghost use Rattle.c_types.specs.Scopes.{seen};
ghost use Rattle.c_types.specs.Operands.{no_type};
ghost use Rattle.c_types.specs.Standing as spec;
ghost use Rattle.c_rules.specs.Faults as faults;
ghost use Rattle.c_types.specs.Shown.{shown_standing, shown_maybe, shown_target, shown_wants};
ghost use Rattle.c_tree.specs.View.{exp_of};
ghost use Rattle.c_tree.specs.Tree.{listed};

use c_tree::Expr;
use c_types::{
    BaseType, LibraryName, Meaning, Names, Operand, Signature, Standing, StarredType, Target,
    TypeRef, Wanted, Wants, accepts, can_be_used, conversions, given_by, library_named,
    malloc_standing, type_function, wanted_by,
};

/// What a `printf` wants: a text, and a number for each conversion that is known.
pub fn printf_wants<'a>(format: Option<usize>) -> Wants<'a>
    ensures { shown_wants result ≡ faults.printf_wants format }
{
    Wants {
        listed: &A_TEXT,
        numbers: format.unwrap_or(0),
    }
}

static A_TEXT: [Wanted; 1] = [Wanted::Text];

fn given_by_printf<'a>(format: Option<usize>) -> Standing<'a>
    ensures { shown_standing result ≡ spec.callee_gives (spec.printf_callee format) }
{
    match format {
        Some(_) => Standing::Whole,
        None => Standing::NoType,
    }
}

fn given_by_library<'a>(
    call: LibraryName,
    target: Target<'a>,
    format: Option<usize>,
) -> Standing<'a>
    ensures { shown_standing result ≡ spec.callee_gives (spec.some_library_callee call (shown_target target.entry) format) }
{
    match call {
        LibraryName::PrintFormat => given_by_printf(format),
        LibraryName::Malloc => malloc_standing(target),
        _ => Standing::value_of(TypeRef::starred(0, given_by(call))),
    }
}

fn given_type<'a>(gives: Option<StarredType>) -> Standing<'a>
    ensures { shown_standing result ≡ spec.given_type gives }
{
    match gives {
        Some(of) => Standing::value_of(TypeRef::starred(of.stars, of.base)),
        None => Standing::NoType,
    }
}

/// The type of the functions that are called through a variable of this type, if it points to functions.
pub fn pointed_signature<'a, N: Names>(names: &'a N, of: Option<TypeRef>) -> Option<&'a Signature>
    ensures { option_map (λ f. f.now) result ≡ spec.pointed_signature (N.known names.now) (shown_maybe of.entry) }
{
    match of {
        Some(of) => match type_function(of) {
            Some(number) => names.signature_numbered(number),
            None => None,
        },
        None => None,
    }
}

fn given_by_pointer<'a>(of: Option<&Signature>) -> Standing<'a>
    ensures { shown_standing result ≡ spec.callee_gives (spec.pointer_callee (option_map (λ f. f.now) of.entry)) }
{
    match of {
        Some(of) => given_type(of.result),
        None => Standing::NoType,
    }
}

/// What the call of a name gives where its arguments fit. It has no type where the name can't be called.
pub fn given_by_call<'a, N: Names>(
    names: &'a N,
    target: Target<'a>,
    name: &[u8],
    format: Option<usize>,
) -> Standing<'a>
    ensures { shown_standing result ≡ spec.callee_gives (spec.callee_of (N.known names.now) (shown_target target.entry) name.now format (seen (N.known names.now) name.now)) }
{
    match names.seen(name) {
        Some(Meaning::Variable(of)) => given_by_pointer(pointed_signature(names, of)),
        Some(Meaning::Function(of)) => {
            if can_be_used(names, name) {
                given_type(of.result)
            } else {
                Standing::NoType
            }
        }
        None => match library_named(name) {
            Some(call) => given_by_library(call, target, format),
            None => Standing::NoType,
        },
    }
}

fn is_pointer_to_void(of: StarredType) -> bool
    ensures { result ≡ spec.is_pointer_to_void of }
{
    of.stars == 1 && TypeRef::starred(0, of.base).is_void()
}

fn has_root_types(of: &Signature) -> bool
    ensures { result ≡ spec.has_root_types of.now }
{
    let gives = match of.result {
        Some(gives) => is_pointer_to_void(gives),
        None => false,
    };
    let wants = match of.params.as_slice() {
        [Wanted::Fits(wants)] => is_pointer_to_void(*wants),
        _ => false,
    };
    gives && wants
}

/// Whether the expression is the name of a function with which a thread can begin.
pub fn is_root<N: Names>(names: &N, e: &Expr) -> bool
    ensures { result ≡ spec.is_root (N.known names.now) (exp_of e.now) }
{
    let Expr::Name { name, .. } = e else {
        return false;
    };
    let Some(Meaning::Function(of)) = names.seen(name.as_slice()) else {
        return false;
    };
    has_root_types(of) && can_be_used(names, name.as_slice())
}

/// Whether it is a text, through parentheses.
pub fn is_text(e: &Expr) -> bool
    ensures { result ≡ spec.is_text (exp_of e.now) }
{
    matches!(e, Expr::Text { .. })
}

/// Whether it is the null pointer (C99 6.3.2.3).
pub fn is_null(of: Standing) -> bool
    ensures { result ≡ spec.is_null (shown_standing of.entry) }
{
    match of {
        Standing::Zero | Standing::Null => true,
        Standing::NoType
        | Standing::Whole
        | Standing::Pointer(_)
        | Standing::Bare(_)
        | Standing::Place(_) => false,
    }
}

/// Whether the argument has no fault and is what is wanted.
pub fn fits_wanted<N: Names>(names: &N, wanted: Wanted, e: &Expr, standing: Standing) -> bool
    ensures { result ≡ spec.fits_wanted (N.known names.now) wanted (exp_of e.now) (shown_standing standing.entry) }
{
    let operand = Operand::of(standing);
    match wanted {
        Wanted::Fits(of) => {
            accepts(TypeRef::starred(of.stars, of.base), operand) && operand.is_typed()
        }
        Wanted::Anything => operand.is_typed(),
        Wanted::Attribute => is_null(standing),
        Wanted::Root => is_root(names, e),
        Wanted::Text => is_text(e),
    }
}

/// What a call is that gives this where its arguments fit.
pub fn call_standing<'a>(gives: Standing<'a>, fit: bool) -> Standing<'a>
    ensures { shown_standing result ≡ (if fit then shown_standing gives.entry else no_type) }
{
    if fit { gives } else { Standing::NoType }
}

fn can_base_go(base: BaseType) -> bool
    ensures { result ≡ spec.is_kept_base base }
{
    match base {
        BaseType::Int | BaseType::Void | BaseType::Function(_) => true,
        BaseType::Struct(_)
        | BaseType::Mutex
        | BaseType::Cond
        | BaseType::Barrier
        | BaseType::RwLock => false,
    }
}

/// Whether the value can be let go, as a statement or before a comma.
pub fn can_go(of: Standing) -> bool
    ensures { result ≡ spec.can_go (shown_standing of.entry) }
{
    match of {
        Standing::Bare(base) => can_base_go(base),
        Standing::Place(of) => match of.peeled() {
            Some(_) => true,
            None => can_base_go(of.base),
        },
        Standing::NoType
        | Standing::Zero
        | Standing::Null
        | Standing::Whole
        | Standing::Pointer(_) => true,
    }
}

/// What is left of a value that is let go.
pub fn let_go<'a>(of: Standing<'a>) -> Standing<'a>
    ensures { shown_standing result ≡ spec.let_go (shown_standing of.entry) }
{
    if can_go(of) { of } else { Standing::NoType }
}

/// The second of two expressions with a comma between them.
pub fn following<'a>(first: Standing<'a>, second: Standing<'a>) -> Standing<'a>
    ensures { shown_standing result ≡ spec.following (shown_standing first.entry) (shown_standing second.entry) }
{
    match first {
        Standing::NoType => Standing::NoType,
        Standing::Zero
        | Standing::Null
        | Standing::Whole
        | Standing::Pointer(_)
        | Standing::Bare(_)
        | Standing::Place(_) => second,
    }
}

/// What a number is as an expression: a constant, and the null pointer if it is 0.
pub fn number_standing<'a>(number: i64) -> Standing<'a>
    ensures { shown_standing result ≡ spec.number_standing number }
{
    if number == 0 {
        Standing::Zero
    } else {
        Standing::Whole
    }
}

/// How many conversions the format has that stands first among the arguments, if one does.
pub fn format_of(arguments: &[Expr]) -> Option<usize>
    ensures { result ≡ spec.format_of (listed (map exp_of arguments.now)) }
{
    match arguments {
        [Expr::Text { bytes, .. }, ..] => conversions(bytes.as_slice()),
        _ => None,
    }
}

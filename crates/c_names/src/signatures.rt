//! The types of functions and of pointers to functions, by their declarators (C99 6.7.5.3).
ghost use Rattle.std.specs.Prelude.{◌≡◌, IfOk};
ghost use Rattle.c_tree.specs.View.{formal_of, formals_of};
ghost use Rattle.c_types.specs.Scopes as scopes;
ghost use Rattle.c_names.specs.Signatures as spec;

use crate::params::listed;
use c_tree::{Param, Params, Specifier};
use c_types::{BaseType, Names, Signature, StarredType, Wanted, base_of};
use rr_base::List;
use std::alloc::{AllocError, Global};

/// Whether it is `void`.
pub fn is_void_specifier(specifier: &Specifier) -> bool
    ensures { result ≡ spec.is_void_specifier specifier.now }
{
    matches!(specifier, Specifier::Void { .. })
}

/// Whether it names a struct.
pub fn is_struct_specifier(specifier: &Specifier) -> bool
    ensures { result ≡ spec.is_struct_specifier specifier.now }
{
    matches!(specifier, Specifier::Struct { .. })
}

/// Void and structs can't be passed, nor given.
pub fn cannot_pass(specifier: &Specifier, stars: usize) -> bool
    ensures { result ≡ spec.cannot_pass specifier.now stars }
{
    stars == 0 && (is_void_specifier(specifier) || is_struct_specifier(specifier))
}

/// Whether no function can give it.
pub fn cannot_give(specifier: &Specifier, stars: usize) -> bool
    ensures { result ≡ spec.cannot_give specifier.now stars }
{
    stars == 0 && is_struct_specifier(specifier)
}

fn result_of<N: Names>(names: &N, specifier: &Specifier, stars: usize) -> Option<StarredType>
    ensures { result ≡ spec.result_of (N.known names.now) specifier.now stars }
{
    if cannot_give(specifier, stars) {
        return None;
    }
    match base_of(names, specifier) {
        None => None,
        Some(base) => Some(StarredType { stars, base }),
    }
}

fn wanted_for<N: Names>(names: &N, specifier: &Specifier, stars: usize) -> Wanted
    ensures { result ≡ spec.wanted_for (spec.cannot_pass specifier.now stars) (scopes.base_of (N.known names.now) specifier.now) stars }
{
    if cannot_pass(specifier, stars) {
        return Wanted::Anything;
    }
    match base_of(names, specifier) {
        Some(base) => Wanted::Fits(StarredType { stars, base }),
        None => Wanted::Anything,
    }
}

/// What a parameter of a pointer to functions wants; it can be no such pointer itself.
fn wanted_inside<N: Names>(names: &N, p: &Param) -> Wanted
    ensures { result ≡ spec.wanted_inside (N.known names.now) (formal_of p.now) }
{
    match p {
        Param::Object {
            specifier,
            stars,
            ..
        } => wanted_for(names, specifier, *stars),
        Param::Pointer { .. } => Wanted::Anything,
    }
}

/// The type of the functions to which a declarator points.
pub fn pointed_by<N: Names>(
    alloc: Global,
    names: &N,
    specifier: &Specifier,
    stars: usize,
    params: &Params,
) -> Result<Signature, AllocError>
    ensures { IfOk result (λ f. f ≡ spec.pointed_by (N.known names.now) specifier.now stars (formals_of params.now)) }
{
    let mut wanted = List::new(alloc);
    for param in listed(params) {
        wanted.push(wanted_inside(names, param))?;
    }
    Ok(Signature {
        result: result_of(names, specifier, stars),
        params: wanted,
    })
}

/// The number of the pointer's type, if it has no fault.
pub fn pointer_of<N: Names>(
    alloc: Global,
    names: &N,
    specifier: &Specifier,
    stars: usize,
    params: &Params,
) -> Result<Option<usize>, AllocError>
    ensures { IfOk result (λ number. number ≡ spec.pointer_of (N.known names.now) specifier.now stars (formals_of params.now)) }
{
    let of = pointed_by(alloc, names, specifier, stars, params)?;
    Ok(names.pointer_numbered(&of))
}

fn wanted_pointer(number: Option<usize>) -> Wanted
    ensures { result ≡ spec.wanted_pointer number }
{
    match number {
        Some(number) => Wanted::Fits(StarredType {
            stars: 0,
            base: BaseType::Function(number),
        }),
        None => Wanted::Anything,
    }
}

/// The argument that the parameter of a function wants.
fn wanted_of<N: Names>(alloc: Global, names: &N, p: &Param) -> Result<Wanted, AllocError>
    ensures { IfOk result (λ wanted. wanted ≡ spec.wanted_of (N.known names.now) (formal_of p.now)) }
{
    match p {
        Param::Object {
            specifier,
            stars,
            ..
        } => Ok(wanted_for(names, specifier, *stars)),
        Param::Pointer {
            specifier,
            stars,
            params,
            ..
        } => {
            let number = pointer_of(alloc, names, specifier, *stars, params)?;
            Ok(wanted_pointer(number))
        }
    }
}

/// The types of the function.
pub fn signature_of<N: Names>(
    alloc: Global,
    names: &N,
    specifier: &Specifier,
    stars: usize,
    params: &Params,
) -> Result<Signature, AllocError>
    ensures { IfOk result (λ f. f ≡ spec.signature_of (N.known names.now) specifier.now stars (formals_of params.now)) }
{
    let mut wanted = List::new(alloc);
    for param in listed(params) {
        let next = wanted_of(alloc, names, param)?;
        wanted.push(next)?;
    }
    Ok(Signature {
        result: result_of(names, specifier, stars),
        params: wanted,
    })
}

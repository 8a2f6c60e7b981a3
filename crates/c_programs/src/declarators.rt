//! What declarators declare (C99 6.7.5): their types, and which rules they break.
#![tactic(auto, using(c_types::proofs::First::first_of_both))]

ghost use Rattle.std.specs.Prelude.{◌≡◌, ◌++◌, [], map, replicate, IfOk, OnOk};
ghost use Rattle.c_tree.specs.View.{exp_of, declared_of};
ghost use Rattle.c_types.specs.declared.types.Layer.TheVariants as layer;
ghost use Rattle.c_programs.specs.Declarators as spec;
ghost use Rattle.c_types.specs.Found.{first_among};
ghost use Rattle.c_names.specs.Table.{known_of};

use crate::pointers::note_pointer;
use c_constants::constant_named;
use c_names::{Table, is_void_specifier, pointer_of};
use c_rules::{length_of, name_place, note_length, note_mismatch, note_specifier};
use c_tree::{Declarator, Expr, Name, Specifier};
use c_types::{
    BaseType, FaultKind, Found, Layer, MAX_CELLS, Names, ObjectType, TypeRef, base_of, is_complete,
    library_named, note,
};
use rr_base::{List, Position};
use std::alloc::{AllocError, Global};

/// The array of the first length is the outermost. There are no layers if something is wrong with a length.
fn arrays_of<N: Names>(
    alloc: Global,
    names: &N,
    lengths: &[Expr],
) -> Result<Option<List<Layer>>, AllocError>
    ensures { IfOk result (λ arrays. arrays ≡ spec.arrays_of (N.known names.now) (map exp_of lengths.now)) }
{
    let mut layers = List::new(alloc);
    for length in lengths {
        match length_of(names, length) {
            None => return Ok(None),
            Some(many) => layers.push(Layer::Array(many))?,
        }
    }
    Ok(Some(layers))
}

/// Puts so many pointers round the layers.
pub fn put_pointers(layers: &mut List<Layer>, stars: usize) -> Result<(), AllocError>
    ensures { OnOk result (layers.new ≡ layers.old ++ replicate stars layer.Pointer) }
{
    let mut left = stars;
    while left > 0 {
        layers.push(Layer::Pointer)?;
        left -= 1;
    }
    Ok(())
}

/// The type of a pointer to the functions whose type has this number.
pub fn pointer_type(alloc: Global, number: Option<usize>) -> Option<ObjectType>
    ensures { result ≡ spec.pointer_type number }
{
    match number {
        Some(number) => Some(ObjectType::plain(alloc, BaseType::Function(number))),
        None => None,
    }
}

fn object_type<N: Names>(
    alloc: Global,
    names: &N,
    specifier: &Specifier,
    stars: usize,
    lengths: &[Expr],
) -> Result<Option<ObjectType>, AllocError>
    ensures { IfOk result (λ of. of ≡ spec.object_type (N.known names.now) specifier.now stars (map exp_of lengths.now)) }
{
    let Some(base) = base_of(names, specifier) else {
        return Ok(None);
    };
    let Some(mut layers) = arrays_of(alloc, names, lengths)? else {
        return Ok(None);
    };
    put_pointers(&mut layers, stars)?;
    let of = ObjectType { layers, base };
    if is_complete(names, TypeRef::of(&of)) {
        Ok(Some(of))
    } else {
        Ok(None)
    }
}

/// The type of what is declared, if its declaration has no fault.
pub fn declared_type<N: Names>(
    alloc: Global,
    names: &N,
    specifier: &Specifier,
    declarator: &Declarator,
) -> Result<Option<ObjectType>, AllocError>
    ensures { IfOk result (λ of. of ≡ spec.declared_type (N.known names.now) specifier.now (declared_of declarator.now)) }
{
    match declarator {
        Declarator::Object { stars, lengths, .. } => {
            object_type(alloc, names, specifier, *stars, lengths.as_slice())
        }
        Declarator::Pointer { stars, params, .. } => {
            let number = pointer_of(alloc, names, specifier, *stars, params)?;
            Ok(pointer_type(alloc, number))
        }
    }
}

fn note_lengths<N: Names>(names: &N, at: Position, lengths: &[Expr], first: &mut Option<Found>)
    ensures { first.new ≡ first_among first.old (spec.lengths_faults (N.known names.now) at (map exp_of lengths.now)) }
{
    for length in lengths {
        note_length(names, at, length, first);
    }
}

/// Notes what is wrong with a declarator after its specifier: a struct that isn't known, an object of type Void, and
/// the lengths; or what is wrong with a pointer to functions.
pub fn note_declarator<N: Names>(
    alloc: Global,
    names: &N,
    specifier: &Specifier,
    declarator: &Declarator,
    first: &mut Option<Found>,
) -> Result<(), AllocError>
    ensures { OnOk result (first.new ≡ first_among first.old (spec.declarator_faults (N.known names.now) specifier.now (declared_of declarator.now))) }
{
    match declarator {
        Declarator::Object {
            stars,
            name,
            lengths,
        } => {
            let is_bare = *stars == 0;
            note_specifier(names, is_bare, specifier, first);
            note_mismatch(
                first,
                is_void_specifier(specifier) && is_bare,
                name_place(name),
            );
            note_lengths(names, name_place(name), lengths.as_slice(), first);
            Ok(())
        }
        Declarator::Pointer {
            stars,
            name,
            params,
        } => note_pointer(alloc, names, specifier, *stars, name, params, first),
    }
}

/// Notes that what the name declares has more cells than an object may have.
pub fn note_size(cells: u32, name: &Name, first: &mut Option<Found>)
    ensures { first.new ≡ first_among first.old (spec.size_faults cells name.now) }
{
    note(
        first,
        cells > MAX_CELLS,
        FaultKind::ObjectTooLarge,
        name_place(name),
    );
}

/// Whether the library has the name.
pub fn is_library_name(name: &[u8]) -> bool
    ensures { result ≡ spec.is_library_name name.now }
{
    library_named(name).is_some() || constant_named(name).is_some()
}

/// Whether the name can't be declared here.
fn is_taken(table: &Table, name: &[u8]) -> bool
    ensures { result ≡ spec.is_taken (known_of table.now) name.now }
{
    is_library_name(name) || table.declared_here(name).is_some()
}

/// Notes a name that can't be declared here: one of the library's, or one that the innermost scope has.
pub fn note_taken(table: &Table, name: &Name, first: &mut Option<Found>)
    ensures { first.new ≡ first_among first.old (spec.taken_faults (known_of table.now) name.now) }
{
    let comes = is_taken(table, name.text.as_slice());
    note(first, comes, FaultKind::DuplicateName, name_place(name));
}

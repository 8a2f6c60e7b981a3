//! Declarators of pointers to functions (C99 6.7.5.3), and which rules they break.
#![tactic(auto, using(c_types::proofs::First::first_of_both))]

ghost use Rattle.std.specs.Prelude.{◌≡◌, ◌||◌, [], map, OnOk};
ghost use Rattle.c_tree.specs.View.{formal_of, formals_of};
ghost use Rattle.c_types.specs.Found.{first_among};
ghost use Rattle.c_types.specs.Scopes.{has_name};
ghost use Rattle.c_names.specs.Sources.{listed_params};
ghost use Rattle.c_names.specs.Table.{texts_of};
ghost use Rattle.c_programs.specs.Declarators as spec;

use crate::declarators::is_library_name;
use c_names::{cannot_give, cannot_pass, listed, put_text};
use c_rules::{name_place, note_mismatch, note_specifier};
use c_tree::{Name, Param, Params, Specifier};
use c_types::{FaultKind, Found, Names, note};
use indexmap::IndexSet;
use rr_base::Position;
use std::alloc::{AllocError, Global};

/// The name's place, or the one that is given where there is no name.
pub fn place_by(name: &Option<Name>, at: Position) -> Position
    ensures { result ≡ spec.place_by name.now at }
{
    match name {
        Some(name) => name_place(name),
        None => at,
    }
}

fn is_among(names: &IndexSet<&[u8]>, name: &[u8]) -> bool
    ensures { result ≡ has_name (texts_of names.now.keys) name.now }
{
    names.contains(name)
}

fn is_again(names: &IndexSet<&[u8]>, name: &[u8]) -> bool
    ensures { result ≡ (spec.is_library_name name.now || has_name (texts_of names.now.keys) name.now) }
{
    is_library_name(name) || is_among(names, name)
}

/// Notes a second parameter of one name, or one with a name of the library.
fn note_again(names: &IndexSet<&[u8]>, name: &Name, first: &mut Option<Found>)
    ensures { first.new ≡ first_among first.old (spec.again_inside (texts_of names.now.keys) name.now) }
{
    let comes = is_again(names, name.text.as_slice());
    note(first, comes, FaultKind::DuplicateName, name_place(name));
}

fn note_name_inside(names: &IndexSet<&[u8]>, name: &Option<Name>, first: &mut Option<Found>)
    ensures { first.new ≡ first_among first.old (spec.name_inside_faults (texts_of names.now.keys) name.now) }
{
    match name {
        Some(name) => note_again(names, name, first),
        None => {}
    }
}

/// Notes what is wrong with a parameter of a pointer to functions, after those with these names.
fn note_inside<N: Names>(known: &N, names: &IndexSet<&[u8]>, p: &Param, first: &mut Option<Found>)
    ensures { first.new ≡ first_among first.old (spec.inside_faults (N.known known.now) (texts_of names.now.keys) (formal_of p.now)) }
{
    match p {
        Param::Object {
            specifier,
            stars,
            name,
            at,
        } => {
            note_specifier(known, *stars == 0, specifier, first);
            note_mismatch(first, cannot_pass(specifier, *stars), place_by(name, *at));
            note_name_inside(names, name, first);
        }
        Param::Pointer {
            specifier,
            stars,
            name,
            ..
        } => {
            note_specifier(known, *stars == 0, specifier, first);
            note_mismatch(first, true, name_place(name));
            note_again(names, name, first);
        }
    }
}

fn add_inside<'a>(names: &mut IndexSet<&'a [u8]>, p: &'a Param) -> Result<(), AllocError>
    ensures { OnOk result (texts_of names.new.keys ≡ spec.with_inside (texts_of names.old.keys) (formal_of p.now)) }
{
    match p {
        Param::Object {
            name: Some(name),
            ..
        } => put_text(names, name.text.as_slice()),
        Param::Object { name: None, .. } => Ok(()),
        Param::Pointer { name, .. } => put_text(names, name.text.as_slice()),
    }
}

/// Notes what is wrong with the parameters of a pointer to functions, one after another.
fn note_all_inside<N: Names>(
    alloc: Global,
    known: &N,
    params: &[Param],
    first: &mut Option<Found>,
) -> Result<(), AllocError>
    ensures { OnOk result (first.new ≡ first_among first.old (spec.all_inside_faults (N.known known.now) [] (map formal_of params.now))) }
{
    let mut names = IndexSet::new(alloc);
    for p in params {
        note_inside(known, &names, p, first);
        add_inside(&mut names, p)?;
    }
    Ok(())
}

/// Notes what is wrong with a pointer to functions: with its result, as functions have it, and with its parameters.
pub fn note_pointer<N: Names>(
    alloc: Global,
    known: &N,
    specifier: &Specifier,
    stars: usize,
    name: &Name,
    params: &Params,
    first: &mut Option<Found>,
) -> Result<(), AllocError>
    ensures { OnOk result (first.new ≡ first_among first.old (spec.pointer_faults (N.known known.now) specifier.now stars name.now (formals_of params.now))) }
{
    note_specifier(known, stars == 0, specifier, first);
    note_mismatch(first, cannot_give(specifier, stars), name_place(name));
    note_all_inside(alloc, known, listed(params), first)
}

//! The parameters of functions (C99 6.7.5.3): the objects that take their arguments, and which rules they break.
#![tactic(auto, using(c_types::proofs::First::first_of_both))]

ghost use Rattle.std.specs.Prelude.{◌≡◌, OnOk, IfOk};
ghost use Rattle.c_tree.specs.View.{formal_of, formals_of};
ghost use Rattle.c_programs.specs.Declarators as spec;
ghost use Rattle.c_types.specs.Found.{first_among};
ghost use Rattle.c_types.specs.Scopes as scopes;
ghost use Rattle.c_names.specs.Table.{known_of};
ghost use Rattle.c_names.specs.Signatures as signatures;
ghost use Rattle.c_names.specs.Sources.{listed_params};

use crate::declarators::{note_taken, pointer_type, put_pointers};
use crate::pointers::{note_pointer, place_by};
use c_names::{Declared, Table, cannot_pass, listed, param_name, pointer_of};
use c_rules::{note_mismatch, note_specifier};
use c_tree::{Name, Param, Params, Specifier};
use c_types::{BaseType, Found, Names, ObjectType, base_of};
use rr_base::{List, Position};
use std::alloc::{AllocError, Global};

fn starred(alloc: Global, stars: usize, base: BaseType) -> Result<ObjectType, AllocError>
    ensures { IfOk result (λ of. of ≡ scopes.starred stars base) }
{
    let mut layers = List::new(alloc);
    put_pointers(&mut layers, stars)?;
    Ok(ObjectType { layers, base })
}

fn passed_type<N: Names>(
    alloc: Global,
    names: &N,
    specifier: &Specifier,
    stars: usize,
) -> Result<Option<ObjectType>, AllocError>
    ensures { IfOk result (λ of. of ≡ spec.passed_by (signatures.cannot_pass specifier.now stars) (scopes.base_of (N.known names.now) specifier.now) stars) }
{
    if cannot_pass(specifier, stars) {
        return Ok(None);
    }
    match base_of(names, specifier) {
        Some(base) => {
            let of = starred(alloc, stars, base)?;
            Ok(Some(of))
        }
        None => Ok(None),
    }
}

/// The type of the object that takes the argument, if the parameter has no fault.
pub fn param_type<N: Names>(
    alloc: Global,
    names: &N,
    p: &Param,
) -> Result<Option<ObjectType>, AllocError>
    ensures { IfOk result (λ of. of ≡ spec.param_type (N.known names.now) (formal_of p.now)) }
{
    match p {
        Param::Object {
            specifier,
            stars,
            ..
        } => passed_type(alloc, names, specifier, *stars),
        Param::Pointer {
            specifier,
            stars,
            params,
            ..
        } => {
            let number = pointer_of(alloc, names, specifier, *stars, params)?;
            Ok(pointer_type(alloc, number))
        }
    }
}

fn note_param_name(table: &Table, name: &Option<Name>, first: &mut Option<Found>)
    ensures { first.new ≡ first_among first.old (spec.param_name_faults (known_of table.now) name.now) }
{
    match name {
        Some(name) => note_taken(table, name, first),
        None => {}
    }
}

fn note_object_param(
    table: &Table,
    is_definition: bool,
    specifier: &Specifier,
    stars: usize,
    name: &Option<Name>,
    at: Position,
    first: &mut Option<Found>,
)
    ensures { first.new ≡ first_among first.old (spec.object_param_faults (known_of table.now) is_definition specifier.now stars name.now at) }
{
    let place = place_by(name, at);
    note_specifier(table, stars == 0, specifier, first);
    note_mismatch(first, cannot_pass(specifier, stars), place);
    note_mismatch(first, is_definition && name.is_none(), place);
    note_param_name(table, name, first);
}

fn note_param(
    alloc: Global,
    table: &Table,
    is_definition: bool,
    p: &Param,
    first: &mut Option<Found>,
) -> Result<(), AllocError>
    ensures { OnOk result (first.new ≡ first_among first.old (spec.param_faults (known_of table.now) is_definition (formal_of p.now))) }
{
    match p {
        Param::Object {
            specifier,
            stars,
            name,
            at,
        } => {
            note_object_param(table, is_definition, specifier, *stars, name, *at, first);
            Ok(())
        }
        Param::Pointer {
            specifier,
            stars,
            name,
            params,
            ..
        } => {
            note_pointer(alloc, table, specifier, *stars, name, params, first)?;
            note_taken(table, name, first);
            Ok(())
        }
    }
}

/// Declares the parameter in the innermost scope, if it has a name.
pub fn declare_param<'a>(
    alloc: Global,
    table: &mut Table<'a>,
    p: &'a Param,
) -> Result<(), AllocError>
    ensures { OnOk result (known_of table.new ≡ spec.after_param (known_of table.old) (formal_of p.now)) }
{
    let of = param_type(alloc, table, p)?;
    match param_name(p) {
        Some(name) => table.declare(name.text.as_slice(), Declared::Variable(of)),
        None => Ok(()),
    }
}

/// Declares the parameters in the innermost scope, and notes what is wrong with them.
pub fn note_params<'a>(
    alloc: Global,
    table: &mut Table<'a>,
    is_definition: bool,
    params: &'a Params,
    first: &mut Option<Found>,
) -> Result<(), AllocError>
    ensures known { OnOk result (known_of table.new ≡ spec.after_params (known_of table.old) (listed_params (formals_of params.now))) }
    ensures first { OnOk result (first.new ≡ first_among first.old (spec.params_faults (known_of table.old) is_definition (listed_params (formals_of params.now)))) }
{
    for p in listed(params) {
        note_param(alloc, table, is_definition, p, first)?;
        declare_param(alloc, table, p)?;
    }
    Ok(())
}

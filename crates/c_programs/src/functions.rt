//! Functions (C99 6.9.1).
#![tactic(auto, using(c_types::proofs::First::first_of_both))]

ghost use Rattle.std.specs.Prelude.{◌≡◌, ◌++◌, OnOk};
ghost use Rattle.c_tree.specs.View.{formals_of, code_of};
ghost use Rattle.c_types.specs.Found.{first_among};
ghost use Rattle.c_types.specs.Scopes.{opened};
ghost use Rattle.c_names.specs.Sources.{listed_params};
ghost use Rattle.c_names.specs.Signatures.{signature_of};
ghost use Rattle.c_programs.specs.Declarators.{params_faults, after_params};
ghost use Rattle.c_programs.specs.Programs as spec;
ghost use Rattle.c_types.specs.Shown.{shown_meaning};
ghost use Rattle.c_names.specs.Table.{known_of};

use crate::declarators::is_library_name;
use crate::params::note_params;
use crate::statements::note_parts;
use c_names::{Declared, Table, cannot_give, signature_of};
use c_rules::{name_place, note_mismatch, note_specifier};
use c_tree::{Body, Name, Params, Specifier};
use c_types::{
    BaseType, FaultKind, Found, Meaning, Signature, StarredType, Wanted, is_main, is_same_starred,
    note,
};
use rr_base::Position;
use std::alloc::{AllocError, Global};

fn agree_on_result(s: Option<StarredType>, t: Option<StarredType>) -> bool
    ensures { result ≡ spec.agree_on_result s t }
{
    match (s, t) {
        (Some(s), Some(t)) => is_same_starred(s, t),
        _ => true,
    }
}

fn agree_on_one(x: Wanted, y: Wanted) -> bool
    ensures { result ≡ spec.agree_on_one x y }
{
    match (x, y) {
        (Wanted::Fits(s), Wanted::Fits(t)) => is_same_starred(s, t),
        _ => true,
    }
}

fn agree_on_params(mut xs: &[Wanted], mut ys: &[Wanted]) -> bool
    ensures { result ≡ spec.agree_on_params xs.entry.now ys.entry.now }
{
    while let [x, more @ ..] = xs {
        let [y, others @ ..] = ys else {
            return false;
        };
        if !agree_on_one(*x, *y) {
            return false;
        }
        xs = more;
        ys = others;
    }
    ys.is_empty()
}

/// Whether two declarations of a function may be of one type.
fn agree(f: &Signature, g: &Signature) -> bool
    ensures { result ≡ spec.agree f.now g.now }
{
    agree_on_result(f.result, g.result) && agree_on_params(f.params.as_slice(), g.params.as_slice())
}

/// `int main(void)`
fn is_main_signature(f: &Signature) -> bool
    ensures { result ≡ spec.is_main_signature f.now }
{
    let int = StarredType {
        stars: 0,
        base: BaseType::Int,
    };
    agree_on_result(f.result, Some(int)) && agree_on_params(f.params.as_slice(), &[])
}

fn is_definition(body: &Body) -> bool
    ensures { result ≡ spec.is_definition (code_of body.now) }
{
    match body {
        Body::Block { .. } => true,
        Body::Prototype => false,
    }
}

/// Notes a name that is declared already: as an object, as a function of other types, or as one that has a body too.
fn note_again(
    seen: Option<Meaning>,
    has_body: bool,
    f: &Signature,
    at: Position,
    first: &mut Option<Found>,
)
    ensures { first.new ≡ first_among first.old (spec.again_faults (shown_meaning seen.entry) has_body f.now at) }
{
    match seen {
        None => {}
        Some(Meaning::Variable(_)) => {
            note(first, true, FaultKind::DuplicateName, at);
        }
        Some(Meaning::Function(g)) => {
            note(first, has_body, FaultKind::DuplicateName, at);
            note_mismatch(first, !agree(g, f), at);
        }
    }
}

fn note_function_name(
    table: &Table,
    name: &Name,
    f: &Signature,
    body: &Body,
    first: &mut Option<Found>,
)
    ensures { first.new ≡ first_among first.old (spec.function_name_faults (known_of table.now) name.now f.now (code_of body.now)) }
{
    let text = name.text.as_slice();
    let is_library = is_library_name(text);
    note(
        first,
        is_library,
        FaultKind::DuplicateName,
        name_place(name),
    );
    let has_body = is_definition(body) && table.has_begun(text);
    note_again(
        table.declared_here(text),
        has_body,
        f,
        name_place(name),
        first,
    );
    let is_other = is_main(text) && !is_main_signature(f);
    note_mismatch(first, is_other, name_place(name));
}

/// Declares the function in the innermost scope; its definition begins where there is a body.
pub fn declare_function<'a>(
    table: &mut Table<'a>,
    name: &'a Name,
    f: Signature,
    body: &Body,
) -> Result<(), AllocError>
    ensures { OnOk result (known_of table.new ≡ spec.after_function (known_of table.old) name.now f (code_of body.now)) }
{
    table.declare(name.text.as_slice(), Declared::Function(f))?;
    match body {
        Body::Block { .. } => table.begin_function(name.text.as_slice()),
        Body::Prototype => Ok(()),
    }
}

fn note_body<'a>(
    alloc: Global,
    table: &mut Table<'a>,
    gives: Option<StarredType>,
    body: &'a Body,
    first: &mut Option<Found>,
) -> Result<(), AllocError>
    ensures known { OnOk result (known_of table.new ≡ spec.after_body (known_of table.old) (code_of body.now)) }
    ensures first { OnOk result (first.new ≡ first_among first.old (spec.body_faults (known_of table.old) gives (code_of body.now))) }
{
    match body {
        Body::Block { parts, .. } => {
            note_parts(alloc, table, gives, false, parts.as_slice(), first)
        }
        Body::Prototype => Ok(()),
    }
}

/// The parameters and the body of a function, in a scope of their own.
fn note_inside<'a>(
    alloc: Global,
    table: &mut Table<'a>,
    gives: Option<StarredType>,
    params: &'a Params,
    body: &'a Body,
    first: &mut Option<Found>,
) -> Result<(), AllocError>
    ensures known { OnOk result (known_of table.new ≡ known_of table.old) }
    ensures first { OnOk result (let inside = opened (known_of table.old) in let ps = listed_params (formals_of params.now) in first.new ≡ first_among first.old (params_faults inside (spec.is_definition (code_of body.now)) ps ++ spec.body_faults (after_params inside ps) gives (code_of body.now))) }
{
    table.open(alloc)?;
    note_params(alloc, table, is_definition(body), params, first)?;
    note_body(alloc, table, gives, body, first)?;
    table.close();
    Ok(())
}

/// Declares a function, and notes what is wrong with it.
pub fn note_function<'a>(
    alloc: Global,
    table: &mut Table<'a>,
    specifier: &Specifier,
    stars: usize,
    name: &'a Name,
    params: &'a Params,
    body: &'a Body,
    first: &mut Option<Found>,
) -> Result<(), AllocError>
    ensures known { OnOk result (known_of table.new ≡ spec.after_function (known_of table.old) name.now (signature_of (known_of table.old) specifier.now stars (formals_of params.now)) (code_of body.now)) }
    ensures first { OnOk result (first.new ≡ first_among first.old (spec.function_faults (known_of table.old) specifier.now stars name.now (formals_of params.now) (code_of body.now))) }
{
    let f = signature_of(alloc, &*table, specifier, stars, params)?;
    let gives = f.result;
    note_specifier(&*table, stars == 0, specifier, first);
    note_mismatch(first, cannot_give(specifier, stars), name_place(name));
    note_function_name(&*table, name, &f, body, first);
    declare_function(table, name, f, body)?;
    note_inside(alloc, table, gives, params, body, first)
}

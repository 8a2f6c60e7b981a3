//! What has cells of its own in functions and in a whole source, in the order of the text.
ghost use Rattle.std.specs.Prelude.{◌≡◌, ◌+◌, ◌++◌, IfOk, OnOk, map, length};
ghost use Rattle.c_tree.specs.Tree.{listed_parts};
ghost use Rattle.c_tree.specs.View.{code_of, fields_of, formal_of, formals_of, part_of, outer_of, program_of};
ghost use Rattle.c_locals.specs.Addresses.{count_of_parts, count_of_code, count_of_outer};
ghost use Rattle.c_names.specs.Sources.{listed_params, param_name};
ghost use Rattle.c_names.specs.Signatures as signatures;
ghost use Rattle.c_names.specs.Known.{known_at_start};
ghost use Rattle.c_programs.specs.Declarators.{after_struct, after_params};
ghost use Rattle.c_programs.specs.Programs as programs;
ghost use Rattle.c_types.specs.Scopes.{opened};
ghost use Rattle.c_spots.specs.Spots as spec;
ghost use Rattle.c_spots.specs.SpotViews.{shown_owner, shown_spots};
ghost use Rattle.c_names.specs.Table.{known_of};

use crate::allocations::push_fields_allocations;
use crate::spot::{Owner, Spot, Where, push_kept};
use crate::spots::{advance, push_objects, push_parts};
use c_locals::{Marks, is_kept_formal};
use c_names::{Table, listed, param_name, signature_of};
use c_programs::{declare_function, declare_param, note_struct, param_type};
use c_tree::{Body, External, Member, Name, Param, Params, Part, Program, Specifier};
use rr_base::List;
use std::alloc::{AllocError, Global};

/// A formal, if it has a name.
fn push_formal<'a>(
    alloc: Global,
    table: &Table,
    owner: Owner<'a>,
    number: usize,
    param: &'a Param,
    out: &mut List<Spot<'a>>,
) -> Result<(), AllocError>
    ensures { OnOk result (shown_spots out.new ≡ shown_spots out.old ++ spec.formal_spot (shown_owner owner.entry) (known_of table.now) number (formal_of param.now) (param_name (formal_of param.now))) }
{
    match param_name(param) {
        None => Ok(()),
        Some(name) => {
            let of = param_type(alloc, table, param)?;
            let here = Where::InFunction(owner);
            let is_cell = here.keeps(number, is_kept_formal(param));
            push_kept(
                alloc,
                is_cell,
                here.holder(name.text.as_slice()),
                name,
                &of,
                out,
            )
        }
    }
}

/// The formals of a definition are numbered from `next`.
fn push_formals<'a>(
    alloc: Global,
    table: &mut Table<'a>,
    owner: Owner<'a>,
    next: &mut usize,
    params: &'a [Param],
    out: &mut List<Spot<'a>>,
) -> Result<(), AllocError>
    ensures known { OnOk result (known_of table.new ≡ after_params (known_of table.old) (map formal_of params.now)) }
    ensures next { OnOk result (next.new ≡ next.old + length (map formal_of params.now)) }
    ensures out { OnOk result (shown_spots out.new ≡ shown_spots out.old ++ spec.formals_spots (shown_owner owner.entry) (known_of table.old) next.old (map formal_of params.now)) }
{
    for param in params {
        push_formal(alloc, &*table, owner, *next, param, out)?;
        declare_param(alloc, table, param)?;
        advance(next)?;
    }
    Ok(())
}

/// The formals of a function stand in one scope with the outermost block of its body.
fn push_definition<'a>(
    alloc: Global,
    table: &mut Table<'a>,
    owner: Owner<'a>,
    next: &mut usize,
    params: &'a [Param],
    parts: &'a [Part],
    out: &mut List<Spot<'a>>,
) -> Result<(), AllocError>
    ensures known { OnOk result (known_of table.new ≡ known_of table.old) }
    ensures next { OnOk result (next.new ≡ next.old + (length (map formal_of params.now) + count_of_parts (listed_parts (map part_of parts.now)))) }
    ensures out { OnOk result (shown_spots out.new ≡ shown_spots out.old ++ spec.definition_spots (shown_owner owner.entry) (opened (known_of table.old)) next.old (map formal_of params.now) (listed_parts (map part_of parts.now))) }
{
    table.open(alloc)?;
    push_formals(alloc, table, owner, next, params, out)?;
    push_parts(alloc, table, owner, next, parts, out)?;
    table.close();
    Ok(())
}

fn push_code<'a>(
    alloc: Global,
    table: &mut Table<'a>,
    owner: Owner<'a>,
    next: &mut usize,
    params: &'a [Param],
    body: &'a Body,
    out: &mut List<Spot<'a>>,
) -> Result<(), AllocError>
    ensures known { OnOk result (known_of table.new ≡ known_of table.old) }
    ensures next { OnOk result (next.new ≡ next.old + count_of_code (map formal_of params.now) (code_of body.now)) }
    ensures out { OnOk result (shown_spots out.new ≡ shown_spots out.old ++ spec.code_spots (shown_owner owner.entry) (known_of table.old) next.old (map formal_of params.now) (code_of body.now)) }
{
    match body {
        Body::Block { parts, .. } => {
            push_definition(alloc, table, owner, next, params, parts.as_slice(), out)
        }
        Body::Prototype => Ok(()),
    }
}

fn push_struct<'a>(
    alloc: Global,
    table: &mut Table<'a>,
    name: &'a Name,
    members: &'a [Member],
    out: &mut List<Spot<'a>>,
) -> Result<(), AllocError>
    ensures known { OnOk result (known_of table.new ≡ after_struct (known_of table.old) name.now (map fields_of members.now)) }
    ensures out { OnOk result (shown_spots out.new ≡ shown_spots out.old ++ spec.fields_allocations (known_of table.old) (map fields_of members.now)) }
{
    push_fields_allocations(alloc, &*table, members, out)?;
    let mut ignored = None;
    note_struct(alloc, table, name, members, &mut ignored)
}

fn declare_signed<'a>(
    alloc: Global,
    table: &mut Table<'a>,
    specifier: &Specifier,
    stars: usize,
    name: &'a Name,
    params: &Params,
    body: &Body,
) -> Result<(), AllocError>
    ensures { OnOk result (known_of table.new ≡ programs.after_function (known_of table.old) name.now (signatures.signature_of (known_of table.old) specifier.now stars (formals_of params.now)) (code_of body.now)) }
{
    let f = signature_of(alloc, &*table, specifier, stars, params)?;
    declare_function(table, name, f, body)
}

fn push_function<'a>(
    alloc: Global,
    table: &mut Table<'a>,
    marks: &'a Marks,
    next: &mut usize,
    name: &'a Name,
    params: &'a Params,
    body: &'a Body,
    out: &mut List<Spot<'a>>,
) -> Result<(), AllocError>
    ensures known { OnOk result (known_of table.new ≡ known_of table.old) }
    ensures next { OnOk result (next.new ≡ next.old + count_of_code (listed_params (formals_of params.now)) (code_of body.now)) }
    ensures out { OnOk result (shown_spots out.new ≡ shown_spots out.old ++ spec.code_spots (spec.in_function name.now.text marks.now.numbers) (known_of table.old) next.old (listed_params (formals_of params.now)) (code_of body.now)) }
{
    let owner = Owner {
        name: name.text.as_slice(),
        marks,
    };
    push_code(alloc, table, owner, next, listed(params), body, out)
}

fn push_outer<'a>(
    alloc: Global,
    table: &mut Table<'a>,
    marks: &'a Marks,
    next: &mut usize,
    external: &'a External,
    out: &mut List<Spot<'a>>,
) -> Result<(), AllocError>
    ensures known { OnOk result (known_of table.new ≡ programs.after_outer (known_of table.old) (outer_of external.now)) }
    ensures next { OnOk result (next.new ≡ next.old + count_of_outer (outer_of external.now)) }
    ensures out { OnOk result (shown_spots out.new ≡ shown_spots out.old ++ spec.outer_spots marks.now.numbers (known_of table.old) next.old (outer_of external.now)) }
{
    match external {
        External::Struct { name, members } => {
            push_struct(alloc, table, name, members.as_slice(), out)
        }
        External::Function {
            specifier,
            stars,
            name,
            params,
            body,
            ..
        } => {
            declare_signed(alloc, table, specifier, *stars, name, params, body)?;
            push_function(alloc, table, marks, next, name, params, body, out)?;
            Ok(())
        }
        External::Objects {
            specifier,
            items,
            ..
        } => {
            let here = Where::FileLevel;
            let mut number = *next;
            push_objects(
                alloc,
                table,
                here,
                &mut number,
                specifier,
                items.as_slice(),
                out,
            )
        }
    }
}

fn push_externals<'a>(
    alloc: Global,
    table: &mut Table<'a>,
    marks: &'a Marks,
    externals: &'a [External],
    out: &mut List<Spot<'a>>,
) -> Result<(), AllocError>
    ensures known { OnOk result (known_of table.new ≡ spec.known_after (known_of table.old) (map outer_of externals.now)) }
    ensures out { OnOk result (shown_spots out.new ≡ shown_spots out.old ++ spec.outers_spots marks.now.numbers (known_of table.old) 0 (map outer_of externals.now)) }
{
    let mut next = 0;
    for external in externals {
        push_outer(alloc, table, marks, &mut next, external, out)?;
    }
    Ok(())
}

/// What has cells of its own in a source, where those are marked to which `&` is applied; and what is known after it.
pub fn spots_in<'a>(
    alloc: Global,
    marks: &'a Marks,
    program: &'a Program,
) -> Result<(Table<'a>, List<Spot<'a>>), AllocError>
    ensures known { IfOk result (λ r. known_of r.0 ≡ spec.known_after (known_at_start (program_of program.now)) (program_of program.now)) }
    ensures spots { IfOk result (λ r. shown_spots r.1 ≡ spec.outers_spots marks.now.numbers (known_at_start (program_of program.now)) 0 (program_of program.now)) }
{
    let mut table = Table::new(alloc, program)?;
    let mut out = List::new(alloc);
    push_externals(
        alloc,
        &mut table,
        marks,
        program.externals.as_slice(),
        &mut out,
    )?;
    Ok((table, out))
}

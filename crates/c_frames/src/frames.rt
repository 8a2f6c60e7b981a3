//! Where each formal and local of a function is kept, and what its core tree says of them (C99 6.9.1).
ghost use Rattle.std.specs.Prelude.{◌≡◌, ◌+◌, ◌++◌, IfOk, OnOk, length, map};
ghost use Rattle.c_tree.specs.Tree.{listed_parts};
ghost use Rattle.c_tree.specs.View as tree;
ghost use Rattle.c_locals.specs.Addresses as numbering;
ghost use Rattle.c_locals.specs.Addresses.{count_of_parts};
ghost use Rattle.c_programs.specs.Declarators.{after_params};
ghost use Rattle.c_numbers.specs.NumberTables.{numbered_of};
ghost use Rattle.c_names.specs.Table.{known_of};
ghost use Rattle.core_tree.specs.View.{arrival_of, function_of, stmt_of};
ghost use Rattle.c_frames.specs.Frames as spec;
ghost use Rattle.c_frames.specs.Locals.{parts_locals};
ghost use Rattle.c_operators.specs.Views.{frame_in, source_in};

use crate::local::{Local, push_parts_locals};
use c_locals::{Marks, is_kept_formal};
use c_names::{Table, param_name};
use c_numbers::NumberTable;
use c_operators::{Frame, Home, Source, site_at};
use c_programs::declare_param;
use c_rules::name_place;
use c_tree::{Name, Param, Part};
use c_types::StarredType;
use c_values::gives_pointer;
use core_tree::{Arrival, CoreFunction, Statement};
use rr_base::{Bytes, List, Position, Site, length_sum, sum};
use std::alloc::{AllocError, Global};

/// A formal without a name is never kept in cells.
fn formal_at(is_kept: bool, is_pointer: bool, name: &Option<Name>, at: Position) -> Local
    ensures { result ≡ spec.formal_at is_kept is_pointer name.now at }
{
    match name {
        None => Local {
            is_kept: false,
            is_pointer,
            at,
        },
        Some(name) => Local {
            is_kept,
            is_pointer,
            at: name_place(name),
        },
    }
}

fn formal_of(param: &Param) -> Local
    ensures { result ≡ spec.formal_of (tree.formal_of param.now) }
{
    match param {
        Param::Object {
            stars,
            name,
            at,
            ..
        } => formal_at(is_kept_formal(param), *stars > 0, name, *at),
        Param::Pointer { name, .. } => Local {
            is_kept: false,
            is_pointer: false,
            at: name_place(name),
        },
    }
}

/// Those to which `&` is applied, by their numbers from `first` on, are kept in cells too.
fn marked(
    alloc: Global,
    marks: &Marks,
    first: usize,
    locals: &[Local],
) -> Result<List<Local>, AllocError>
    ensures { IfOk result (λ ls. ls ≡ spec.marked marks.now.numbers first locals.now) }
{
    let mut out = List::new(alloc);
    let mut number = first;
    for local in locals {
        out.push(Local {
            is_kept: local.is_kept || marks.holds(number),
            is_pointer: local.is_pointer,
            at: local.at,
        })?;
        number = length_sum(number, 1)?;
    }
    Ok(out)
}

/// The formals of a function.
fn formals_of(
    alloc: Global,
    marks: &Marks,
    first: usize,
    params: &[Param],
) -> Result<List<Local>, AllocError>
    ensures { IfOk result (λ ls. ls ≡ spec.marked marks.now.numbers first (map spec.formal_of (map tree.formal_of params.now))) }
{
    let mut formals = List::new(alloc);
    for param in params {
        formals.push(formal_of(param))?;
    }
    marked(alloc, marks, first, formals.as_slice())
}

/// Its locals.
fn locals_of(
    alloc: Global,
    marks: &Marks,
    first: usize,
    parts: &[Part],
) -> Result<List<Local>, AllocError>
    ensures { IfOk result (λ ls. ls ≡ spec.marked marks.now.numbers first (parts_locals (listed_parts (map tree.part_of parts.now)))) }
{
    let mut locals = List::new(alloc);
    push_parts_locals(parts, &mut locals)?;
    marked(alloc, marks, first, locals.as_slice())
}

fn one_if(holds: bool) -> u32
    ensures { result ≡ spec.one_if holds }
{
    if holds { 1 } else { 0 }
}

/// Where the formals are kept, and how many of them are kept in cells.
fn push_formal_homes(formals: &[Local], out: &mut List<Home>) -> Result<u32, AllocError>
    ensures homes { OnOk result (out.new ≡ out.old ++ spec.formal_homes 0 0 formals.now) }
    ensures kept { IfOk result (λ n. n ≡ spec.kept_count formals.now) }
{
    let mut register = 0;
    let mut object = 0;
    for local in formals {
        out.push(if local.is_kept {
            Home::Object(object)
        } else {
            Home::Register(register)
        })?;
        register = sum(register, 1)?;
        object = sum(object, one_if(local.is_kept))?;
    }
    Ok(object)
}

/// Where the locals are kept, whose first register and first object these are.
fn push_local_homes(
    register: u32,
    object: u32,
    locals: &[Local],
    out: &mut List<Home>,
) -> Result<(), AllocError>
    ensures { OnOk result (out.new ≡ out.old ++ spec.local_homes register object locals.now) }
{
    let mut register = register;
    let mut object = object;
    for local in locals {
        out.push(if local.is_kept {
            Home::Object(object)
        } else {
            Home::Register(register)
        })?;
        register = sum(register, one_if(!local.is_kept))?;
        object = sum(object, one_if(local.is_kept))?;
    }
    Ok(())
}

/// A count that doesn't fit 32 bits is one of what the machine's memory can't hold.
fn counted(count: usize) -> Result<u32, AllocError>
    ensures { IfOk result (λ n. n ≡ count) }
{
    match u32::try_from(count) {
        Ok(count) => Ok(count),
        Err(_) => Err(AllocError),
    }
}

fn homes_of(alloc: Global, formals: &[Local], locals: &[Local]) -> Result<List<Home>, AllocError>
    ensures { IfOk result (λ hs. hs ≡ spec.homes_of formals.now locals.now) }
{
    let mut homes = List::new(alloc);
    let objects = push_formal_homes(formals, &mut homes)?;
    push_local_homes(counted(formals.len())?, objects, locals, &mut homes)?;
    Ok(homes)
}

/// Whether each register is a pointer.
fn pointers_of(alloc: Global, formals: &[Local], locals: &[Local]) -> Result<List<bool>, AllocError>
    ensures { IfOk result (λ ps. ps ≡ spec.pointers_of formals.now locals.now) }
{
    let mut pointers = List::new(alloc);
    for formal in formals {
        pointers.push(formal.is_pointer)?;
    }
    for local in locals {
        if !local.is_kept {
            pointers.push(local.is_pointer)?;
        }
    }
    Ok(pointers)
}

/// The sites of those that are kept in cells.
fn push_sites(sites: &[Site], locals: &[Local], out: &mut List<u16>) -> Result<(), AllocError>
    ensures { OnOk result (out.new ≡ out.old ++ spec.sites_of sites.now locals.now) }
{
    for local in locals {
        if local.is_kept {
            out.push(site_at(sites, local.at)?)?;
        }
    }
    Ok(())
}

fn objects_of(
    alloc: Global,
    sites: &[Site],
    formals: &[Local],
    locals: &[Local],
) -> Result<List<u16>, AllocError>
    ensures { IfOk result (λ ss. ss ≡ spec.sites_of sites.now (formals.now ++ locals.now)) }
{
    let mut objects = List::new(alloc);
    push_sites(sites, formals, &mut objects)?;
    push_sites(sites, locals, &mut objects)?;
    Ok(objects)
}

/// The formals that are kept in cells.
fn arrivals_of(alloc: Global, formals: &[Local]) -> Result<List<Arrival>, AllocError>
    ensures { IfOk result (λ xs. map arrival_of xs ≡ spec.arrivals_of 0 0 formals.now) }
{
    let mut arrivals = List::new(alloc);
    let mut register = 0;
    let mut object = 0;
    for local in formals {
        if local.is_kept {
            arrivals.push(Arrival {
                register,
                object,
                at: local.at,
            })?;
        }
        register = sum(register, 1)?;
        object = sum(object, one_if(local.is_kept))?;
    }
    Ok(arrivals)
}

/// The formals have the next numbers, and are declared.
pub fn pass_formals<'a>(
    alloc: Global,
    table: &mut Table<'a>,
    numbers: &mut NumberTable<'a>,
    params: &'a [Param],
) -> Result<(), AllocError>
    ensures known { OnOk result (known_of table.new ≡ after_params (known_of table.old) (map tree.formal_of params.now)) }
    ensures numbers { OnOk result (numbered_of numbers.new ≡ numbering.after_formals (numbered_of numbers.old) (map tree.formal_of params.now)) }
{
    for param in params {
        declare_param(alloc, table, param)?;
        match param_name(param) {
            None => numbers.skip()?,
            Some(name) => numbers.number(name)?,
        }
    }
    Ok(())
}

/// What the expressions of a function see of it: where its formals and locals are kept, and what it gives.
pub fn frame_of(
    alloc: Global,
    first: usize,
    formals: &[Local],
    locals: &[Local],
    gives: Option<StarredType>,
) -> Result<Frame, AllocError>
    ensures { IfOk result (λ f. frame_in f ≡ spec.frame_of first formals.now locals.now gives) }
{
    Ok(Frame {
        first,
        homes: homes_of(alloc, formals, locals)?,
        gives_pointer: gives_pointer(gives),
    })
}

/// A definition of these formals and locals, with this body.
pub fn function_by(
    alloc: Global,
    source: &Source,
    name: &Name,
    gives: Option<StarredType>,
    formals: &[Local],
    locals: &[Local],
    body: Box<Statement>,
) -> Result<CoreFunction, AllocError>
    ensures { IfOk result (λ f. function_of f ≡ spec.function_by (source_in source.now).sites name.now gives formals.now locals.now (stmt_of body.value)) }
{
    Ok(CoreFunction {
        name: Bytes::from_slice(alloc, name.text.as_slice())?,
        at: name_place(name),
        formals: counted(formals.len())?,
        pointers: pointers_of(alloc, formals, locals)?,
        objects: objects_of(alloc, source.sites, formals, locals)?,
        arrivals: arrivals_of(alloc, formals)?,
        gives_pointer: gives_pointer(gives),
        body: Box::into_inner(body),
    })
}

/// The formals and locals of a definition, and the number after theirs.
#[derive(Drop)]
pub struct Kept {
    /// Its formals, in order.
    pub formals: List<Local>,
    /// Its locals, in the order of the text.
    pub locals: List<Local>,
    /// The number after theirs.
    pub last: usize,
}

/// Those of a function, whose numbers begin with the first.
pub fn kept_in(
    alloc: Global,
    marks: &Marks,
    first: usize,
    params: &[Param],
    parts: &[Part],
) -> Result<Kept, AllocError>
    ensures formals { IfOk result (λ k. k.formals ≡ spec.marked marks.now.numbers first (map spec.formal_of (map tree.formal_of params.now))) }
    ensures locals { IfOk result (λ k. k.locals ≡ spec.marked marks.now.numbers (first + length (map tree.formal_of params.now)) (parts_locals (listed_parts (map tree.part_of parts.now)))) }
    ensures last { IfOk result (λ k. k.last ≡ first + (length (map tree.formal_of params.now) + count_of_parts (listed_parts (map tree.part_of parts.now)))) }
{
    let middle = length_sum(first, params.len())?;
    let formals = formals_of(alloc, marks, first, params)?;
    let locals = locals_of(alloc, marks, middle, parts)?;
    let last = length_sum(middle, locals.len())?;
    Ok(Kept {
        formals,
        locals,
        last,
    })
}

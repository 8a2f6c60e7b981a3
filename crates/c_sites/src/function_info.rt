//! The functions that a source defines.
ghost use Rattle.std.specs.Prelude.{◌≡◌, ◌+◌, ◌++◌, [], IfOk, OnOk, map, length};
ghost use Rattle.c_tree.specs.Tree.{listed_parts};
ghost use Rattle.c_tree.specs.View.{declared_of, formal_of, object_of, declares_of, start_of, stmt_of, part_of, code_of, outer_of, program_of};
ghost use Rattle.c_locals.specs.Addresses.{count_of_parts, count_of_outer, count_of_code};
ghost use Rattle.c_locals.specs.Kept.{is_kept_formal};
ghost use Rattle.c_names.specs.Sources.{listed_params, declared_by};
ghost use Rattle.c_sites.specs.Functions as spec;
ghost use Rattle.c_names.specs.Table.{texts_of};

use c_locals::{Marks, Roots, addressed_in, is_kept_declared, is_kept_formal, roots_of};
use c_names::listed;
use c_spots::advance;
use c_tree::{
    Body, Declaration, Declarator, External, ForStart, Item, Name, Param, Params, Part, Program,
    Specifier, Stmt,
};
use rr_base::{Bytes, List};
use std::alloc::{AllocError, Global};

/// A function that a source defines.
#[derive(Debug, Drop)]
pub struct FunctionInfo {
    pub name: Bytes,
    /// How many formals it has.
    pub formals: u32,
    /// How many of its formals and locals aren't kept in cells.
    pub registers: u32,
    /// Whether a thread begins with it: it is `main`, or a `pthread_create` of the source names it.
    pub is_root: bool,
}

fn declarator_of(item: &Item) -> &Declarator
    ensures { declared_of result.now ≡ declared_by (object_of item.now) }
{
    match item {
        Item::Plain(declarator) => declarator,
        Item::Initialised { declarator, .. } => declarator,
    }
}

fn object_kept(specifier: &Specifier, item: &Item) -> bool
    ensures { result ≡ spec.object_kept specifier.now (object_of item.now) }
{
    is_kept_declared(specifier, declarator_of(item))
}

fn push_declares_kept(declaration: &Declaration, out: &mut List<bool>) -> Result<(), AllocError>
    ensures { OnOk result (out.new ≡ out.old ++ spec.declares_kept (declares_of declaration.now)) }
{
    for item in declaration.items.as_slice() {
        out.push(object_kept(&declaration.specifier, item))?;
    }
    Ok(())
}

fn push_start_kept(start: &ForStart, out: &mut List<bool>) -> Result<(), AllocError>
    ensures { OnOk result (out.new ≡ out.old ++ spec.start_kept (start_of start.now)) }
{
    match start {
        ForStart::Declares(declaration) => push_declares_kept(declaration, out),
        ForStart::Computes(_) => Ok(()),
    }
}

#[cycle(statement_kept)]
fn push_statement_kept(stmt: &Stmt, out: &mut List<bool>) -> Result<(), AllocError>
    ensures { OnOk result (out.new ≡ out.old ++ spec.statement_kept (stmt_of stmt.now)) }
{
    match stmt {
        Stmt::Block { parts, .. } => push_parts_kept(parts.as_slice(), out),
        Stmt::If { yes, no, .. } => {
            push_statement_kept(yes, out)?;
            match no {
                None => Ok(()),
                Some(no) => push_statement_kept(no, out),
            }
        }
        Stmt::While { body, .. } => push_statement_kept(body, out),
        Stmt::Do { body, .. } => push_statement_kept(body, out),
        Stmt::For { start, body, .. } => {
            push_start_kept(start, out)?;
            push_statement_kept(body, out)
        }
        Stmt::Expression { .. }
        | Stmt::Break { .. }
        | Stmt::Continue { .. }
        | Stmt::Return { .. } => Ok(()),
    }
}

#[cycle(statement_kept)]
fn push_parts_kept(parts: &[Part], out: &mut List<bool>) -> Result<(), AllocError>
    ensures { OnOk result (out.new ≡ out.old ++ spec.parts_kept (listed_parts (map part_of parts.now))) }
{
    for part in parts {
        match part {
            Part::Declares(declaration) => push_declares_kept(declaration, out)?,
            Part::Does(stmt) => push_statement_kept(stmt, out)?,
        }
    }
    Ok(())
}

fn push_params_kept(params: &[Param], out: &mut List<bool>) -> Result<(), AllocError>
    ensures { OnOk result (out.new ≡ out.old ++ map is_kept_formal (map formal_of params.now)) }
{
    for param in params {
        out.push(is_kept_formal(param))?;
    }
    Ok(())
}

/// For each formal and local in the order of the text, whether its type keeps it in cells.
fn definition_kept(
    alloc: Global,
    params: &[Param],
    parts: &[Part],
) -> Result<List<bool>, AllocError>
    ensures { IfOk result (λ kept. kept ≡ spec.definition_kept (map formal_of params.now) (listed_parts (map part_of parts.now))) }
{
    let mut kept = List::new(alloc);
    push_params_kept(params, &mut kept)?;
    push_parts_kept(parts, &mut kept)?;
    Ok(kept)
}

/// How many are kept neither by their type nor because `&` is applied to them. They are numbered from `next`, and after
/// the call it is the number that follows them.
fn count_registers(marks: &Marks, next: &mut usize, kept: &[bool]) -> Result<usize, AllocError>
    ensures count { IfOk result (λ n. n ≡ spec.registers_from marks.now.numbers next.old kept.now) }
    ensures next { OnOk result (next.new ≡ next.old + length kept.now) }
{
    let mut count = 0;
    for by_type in kept {
        if !(*by_type || marks.holds(*next)) {
            advance(&mut count)?;
        }
        advance(next)?;
    }
    Ok(count)
}

/// A count that the machine's memory can't reach is one that wants memory.
fn counted(count: usize) -> Result<u32, AllocError>
    ensures { IfOk result (λ n. n ≡ count) }
{
    match u32::try_from(count) {
        Ok(count) => Ok(count),
        Err(_) => Err(AllocError),
    }
}

#[tactic(auto, using(crate::proofs::Kept::definition_length))]
fn info_of(
    alloc: Global,
    marks: &Marks,
    roots: &Roots,
    next: &mut usize,
    name: &Name,
    params: &[Param],
    parts: &[Part],
) -> Result<FunctionInfo, AllocError>
    ensures info { IfOk result (λ f. f ≡ spec.info_of marks.now.numbers (texts_of roots.now.names.keys) next.old name.now (map formal_of params.now) (listed_parts (map part_of parts.now))) }
    ensures next { OnOk result (next.new ≡ next.old + (length (map formal_of params.now) + count_of_parts (listed_parts (map part_of parts.now)))) }
{
    let kept = definition_kept(alloc, params, parts)?;
    let registers = count_registers(marks, next, kept.as_slice())?;
    Ok(FunctionInfo {
        name: Bytes::from_slice(alloc, name.text.as_slice())?,
        formals: counted(params.len())?,
        registers: counted(registers)?,
        is_root: roots.is_root(name.text.as_slice()),
    })
}

fn push_code(
    alloc: Global,
    marks: &Marks,
    roots: &Roots,
    next: &mut usize,
    name: &Name,
    params: &[Param],
    body: &Body,
    out: &mut List<FunctionInfo>,
) -> Result<(), AllocError>
    ensures next { OnOk result (next.new ≡ next.old + count_of_code (map formal_of params.now) (code_of body.now)) }
    ensures out { OnOk result (out.new ≡ out.old ++ spec.code_functions marks.now.numbers (texts_of roots.now.names.keys) next.old name.now (map formal_of params.now) (code_of body.now)) }
{
    match body {
        Body::Prototype => Ok(()),
        Body::Block { parts, .. } => {
            let info = info_of(alloc, marks, roots, next, name, params, parts.as_slice())?;
            out.push(info)
        }
    }
}

fn push_outer(
    alloc: Global,
    marks: &Marks,
    roots: &Roots,
    next: &mut usize,
    external: &External,
    out: &mut List<FunctionInfo>,
) -> Result<(), AllocError>
    ensures next { OnOk result (next.new ≡ next.old + count_of_outer (outer_of external.now)) }
    ensures out { OnOk result (out.new ≡ out.old ++ spec.outer_functions marks.now.numbers (texts_of roots.now.names.keys) next.old (outer_of external.now)) }
{
    match external {
        External::Function {
            name,
            params,
            body,
            ..
        } => push_code(alloc, marks, roots, next, name, listed(params), body, out),
        External::Struct { .. } => Ok(()),
        External::Objects { .. } => Ok(()),
    }
}

fn push_externals(
    alloc: Global,
    marks: &Marks,
    roots: &Roots,
    externals: &[External],
    out: &mut List<FunctionInfo>,
) -> Result<(), AllocError>
    ensures { OnOk result (out.new ≡ out.old ++ spec.outers_functions marks.now.numbers (texts_of roots.now.names.keys) 0 (map outer_of externals.now)) }
{
    let mut next = 0;
    for external in externals {
        push_outer(alloc, marks, roots, &mut next, external, out)?;
    }
    Ok(())
}

/// The functions that a source defines, in the order of their definitions.
///
/// # Errors
///
/// Only when memory runs out.
pub fn functions_of(alloc: Global, program: &Program) -> Result<List<FunctionInfo>, AllocError>
    ensures { IfOk result (λ fs. fs ≡ spec.program_functions (program_of program.now)) }
{
    let marks = addressed_in(alloc, program)?;
    let roots = roots_of(alloc, program)?;
    let mut out = List::new(alloc);
    push_externals(
        alloc,
        &marks,
        &roots,
        program.externals.as_slice(),
        &mut out,
    )?;
    Ok(out)
}

//! The code of functions.
ghost use Rattle.std.specs.Prelude.{◌≡◌, ◌+◌, ◌++◌, [], ◌∷◌, true, map, length, replicate, None, IfOk, OnOk};
ghost use Rattle.flow_code.specs.declared.act.Act.TheVariants as act;
ghost use Rattle.core_tree.specs.View.{stmt_of, arrival_of, function_of, core_of};
ghost use Rattle.lowering_parts.specs.Kept.{statement_kept};
ghost use Rattle.lowering_parts.specs.Loops.{statement_loops};
ghost use Rattle.flow_lower.specs.Lowered as spec;

use crate::statement::{Around, push_statement};
use core_tree::{Arrival, Core, CoreFunction};
use flow_code::{Act, Code, Function, Instr, LoopInfo};
use lowering_parts::{Next, push, push_statement_kinds, push_statement_loops, statement_size};
use rr_base::{Bytes, List, Position, sum};
use std::alloc::{AllocError, Global};

/// A count that doesn't fit 32 bits is one of what the machine's memory can't hold.
fn counted(count: usize) -> Result<u32, AllocError>
    ensures { IfOk result (λ n. n ≡ count) }
{
    match u32::try_from(count) {
        Ok(count) => Ok(count),
        Err(_) => Err(AllocError),
    }
}

/// The objects of a function, each with its address in a register of its own.
fn push_objects(
    at: Position,
    first: u32,
    sites: &[u16],
    out: &mut List<Instr>,
) -> Result<(), AllocError>
    ensures { OnOk result (out.new ≡ out.old ++ spec.objects_code at first sites.now) }
{
    let mut into = first;
    for site in sites {
        let act = Act::Alloc {
            into,
            site: *site,
            size: None,
        };
        push(out, at, act)?;
        into = sum(into, 1)?;
    }
    Ok(())
}

/// Each formal that is kept in cells is stored.
fn push_arrivals(first: u32, arrivals: &[Arrival], out: &mut List<Instr>) -> Result<(), AllocError>
    ensures { OnOk result (out.new ≡ out.old ++ spec.arrivals_code first (map arrival_of arrivals.now)) }
{
    for arrival in arrivals {
        let act = Act::StoreCell {
            through: sum(first, arrival.object)?,
            from: arrival.register,
        };
        push(out, arrival.at, act)?;
    }
    Ok(())
}

/// The code of the body, after so many registers and instructions, and the last return.
fn push_body(
    alloc: Global,
    first: u32,
    function: &CoreFunction,
    from: Next,
    out: &mut List<Instr>,
) -> Result<(), AllocError>
    ensures { OnOk result (out.new ≡ out.old ++ (spec.statement_code first (statement_kept (stmt_of function.now.body)) from.register from.place (from.place + spec.statement_size (statement_kept (stmt_of function.now.body))) (from.place + spec.statement_size (statement_kept (stmt_of function.now.body))) ++ spec.one function.now.at (act.Return None))) }
{
    let end = sum(from.place, statement_size(&function.body)?)?;
    let around = Around { out: end, on: end };
    push_statement(alloc, first, &function.body, from, around, out)?;
    push(out, function.at, Act::Return { value: None })
}

fn instrs_of(alloc: Global, function: &CoreFunction) -> Result<List<Instr>, AllocError>
    ensures { IfOk result (λ is. is ≡ spec.body_code (function_of function.now)) }
{
    let first = counted(function.pointers.len())?;
    let objects = counted(function.objects.len())?;
    let from = Next {
        register: sum(first, objects)?,
        place: sum(objects, counted(function.arrivals.len())?)?,
    };
    let mut out = List::new(alloc);
    push_objects(function.at, first, function.objects.as_slice(), &mut out)?;
    push_arrivals(first, function.arrivals.as_slice(), &mut out)?;
    push_body(alloc, first, function, from, &mut out)?;
    Ok(out)
}

fn push_pointers(many: usize, out: &mut List<bool>) -> Result<(), AllocError>
    ensures { OnOk result (out.new ≡ out.old ++ replicate many true) }
{
    let mut left = many;
    while left > 0 {
        out.push(true)?;
        left -= 1;
    }
    Ok(())
}

fn kinds_of(alloc: Global, function: &CoreFunction) -> Result<List<bool>, AllocError>
    ensures { IfOk result (λ ks. ks ≡ spec.function_kinds (function_of function.now)) }
{
    let mut kinds = List::from_slice(alloc, function.pointers.as_slice())?;
    push_pointers(function.objects.len(), &mut kinds)?;
    push_statement_kinds(&function.body, &mut kinds)?;
    Ok(kinds)
}

fn loops_of(alloc: Global, function: &CoreFunction) -> Result<List<LoopInfo>, AllocError>
    ensures { IfOk result (λ ls. ls ≡ statement_loops (stmt_of function.now.body) (length function.now.objects + length function.now.arrivals)) }
{
    let objects = counted(function.objects.len())?;
    let place = sum(objects, counted(function.arrivals.len())?)?;
    let mut out = List::new(alloc);
    push_statement_loops(&function.body, place, &mut out)?;
    Ok(out)
}

fn lower_function(alloc: Global, function: &CoreFunction) -> Result<Function, AllocError>
    ensures { IfOk result (λ f. f ≡ spec.function_code (function_of function.now)) }
{
    let pointers = kinds_of(alloc, function)?;
    Ok(Function {
        name: Bytes::from_slice(alloc, function.name.as_slice())?,
        line: function.at.line,
        formals: function.formals,
        registers: counted(pointers.len())?,
        pointers,
        gives_pointer: function.gives_pointer,
        instrs: instrs_of(alloc, function)?,
        loops: loops_of(alloc, function)?,
        regions: List::new(alloc),
    })
}

fn lower_functions(alloc: Global, functions: &[CoreFunction]) -> Result<List<Function>, AllocError>
    ensures { IfOk result (λ fs. fs ≡ map spec.function_code (map function_of functions.now)) }
{
    let mut lowered = List::new(alloc);
    for function in functions {
        lowered.push(lower_function(alloc, function)?)?;
    }
    Ok(lowered)
}

/// The code of a core tree that has no pointers to functions, without weak locks.
///
/// # Errors
///
/// Only when memory runs out.
pub fn lower(alloc: Global, core: Core) -> Result<Code, AllocError>
    requires { core.pointers ≡ [] }
    ensures { IfOk result (λ code. code ≡ spec.lowered (core_of core)) }
{
    let Core {
        functions,
        pointers: _,
        sites,
        globals,
        global_kinds,
        global_bases,
    } = core;
    let functions = lower_functions(alloc, functions.as_slice())?;
    Ok(Code {
        functions,
        sites,
        globals,
        global_kinds,
        global_bases,
        locks: List::new(alloc),
    })
}

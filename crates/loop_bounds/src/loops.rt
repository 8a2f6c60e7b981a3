//! The counted loops of a code.
ghost use Rattle.std.specs.Prelude.{◌≡◌, ◌+◌, ◌++◌, map, IfOk, OnOk};
ghost use Rattle.loop_bounds.specs.Tables.{AreWays};
ghost use Rattle.weak_lock_facts.specs.Loops as spec;

use crate::counted::is_counted;
use crate::ways::{Ways, ways_of};
use flow_code::{Code, Function, LoopInfo};
use rr_base::{List, sum};
use std::alloc::{AllocError, Global};
use weak_lock_facts::LoopAt;

/// The counted loops of a function.
pub fn counted_of(
    alloc: Global,
    function: &Function,
    ways: &Ways,
) -> Result<List<LoopInfo>, AllocError>
    requires { AreWays function.now.instrs ways.now }
    ensures { IfOk result (λ ls. ls ≡ spec.counted_of function.now) }
{
    let mut found = List::new(alloc);
    for counted in function.loops.as_slice() {
        if is_counted(function, ways, counted) {
            found.push(*counted)?;
        }
    }
    Ok(found)
}

fn push_loops(number: u32, loops: &[LoopInfo], out: &mut List<LoopAt>) -> Result<(), AllocError>
    ensures { OnOk result (out.new ≡ out.old ++ map (spec.loop_in number) loops.now) }
{
    for counted in loops {
        out.push(LoopAt {
            function: number,
            counted: *counted,
        })?;
    }
    Ok(())
}

fn push_function(
    alloc: Global,
    number: u32,
    function: &Function,
    out: &mut List<LoopAt>,
) -> Result<(), AllocError>
    ensures { OnOk result (out.new ≡ out.old ++ map (spec.loop_in number) (spec.counted_of function.now)) }
{
    let ways = ways_of(alloc, function.instrs.as_slice())?;
    let loops = counted_of(alloc, function, &ways)?;
    push_loops(number, loops.as_slice(), out)
}

/// The counted loops of a code, each with its function's number, by function and then as the function lists them: each
/// listed loop whose form the instructions have, whose counter only the last part assigns, and whose bound nothing in it
/// assigns.
pub fn counted_loops(alloc: Global, code: &Code) -> Result<List<LoopAt>, AllocError>
    ensures { IfOk result (λ ls. ls ≡ spec.counted_loops_of code.now) }
{
    let mut out = List::new(alloc);
    let mut number = 0;
    for function in code.functions.as_slice() {
        push_function(alloc, number, function, &mut out)?;
        number = sum(number, 1)?;
    }
    Ok(out)
}

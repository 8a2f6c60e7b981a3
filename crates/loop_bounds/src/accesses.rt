//! The accesses of a code whose elements are known where their loop is entered.
ghost use Rattle.std.specs.Prelude.{◌≡◌, ◌<◌, ◌+◌, ◌^◌, ◌++◌, List as Items, Some, slice_get, length, option_to_list, IfOk, OnOk};
ghost use Rattle.std.specs.Option.{option_copied};
ghost use Rattle.facts.specs.Blocks.{AreAmounts};
ghost use Rattle.facts.specs.PointsTo.{list_at, HasRegisters};
ghost use Rattle.weak_lock_facts.specs.Loops as loops;
ghost use Rattle.flow_code.specs.declared.act.Instr.{Instr as Step};
ghost use Rattle.loop_bounds.specs.Tables.{AreWays, AreMakers, AreOperands, AreRounds, AreCalm, AreHeads, calm_loops};
ghost use Rattle.weak_lock_facts.specs.Ranges as spec;

use crate::acts::pointer_of;
use crate::heads::{Heads, heads_of};
use crate::loops::counted_of;
use crate::makers::{Makers, makers_of, only_maker};
use crate::operands::operand_makers;
use crate::rounds::rounds_of;
use crate::shifts::moved_shift;
use crate::spans::{calls_nothing, loop_code};
use crate::ways::{Ways, ways_of};
use facts::{PointsTo, amounts, block_starts};
use flow_code::{Act, Code, Function, Instr, LoopInfo};
use rr_base::{List, Place, sum};
use std::alloc::{AllocError, Global};
use weak_lock_facts::Range;
use word_semantics::site_at;

// Whether the loop is the innermost one of any kind round the instruction, whose innermost loop begins with this Mark.
fn is_innermost(round: Option<usize>, at: usize, counted: &LoopInfo) -> bool
    ensures { (is : Items Step) → round ≡ spec.mark_before is at at → result ≡ spec.is_innermost is at counted.now }
{
    at <= counted.last as usize && round == Some(counted.at as usize)
}

// The first of these loops, which call nothing, that is the innermost one round the instruction, searched among all.
fn searched_round<'a>(
    instrs: &[Instr],
    rounds: &[Option<usize>],
    at: usize,
    loops: &'a [LoopInfo],
) -> Option<&'a LoopInfo>
    requires rounds { AreRounds instrs.now rounds.now }
    requires length { length rounds.now ≡ length instrs.now }
    requires calm { AreCalm instrs.now loops.now }
    requires at { at < length instrs.now }
    ensures { option_copied result ≡ spec.loop_round instrs.now at loops.now }
{
    let round = rounds[at];
    for counted in loops {
        if is_innermost(round, at, counted) {
            return Some(counted);
        }
    }
    None
}

/// The first of these loops, which call nothing, that is the innermost one round the instruction: the first that begins at
/// its Mark, unless that ends in front of the instruction.
fn loop_round<'a>(
    instrs: &[Instr],
    rounds: &[Option<usize>],
    at: usize,
    loops: &'a [LoopInfo],
    heads: &'a Heads,
) -> Option<&'a LoopInfo>
    requires rounds { AreRounds instrs.now rounds.now }
    requires length { length rounds.now ≡ length instrs.now }
    requires calm { AreCalm instrs.now loops.now }
    requires heads { AreHeads loops.now heads.now }
    requires at { at < length instrs.now }
    ensures { option_copied result ≡ spec.loop_round instrs.now at loops.now }
{
    let mark = rounds[at]?;
    let head = heads.get(&mark)?;
    if at <= head.last as usize {
        Some(head)
    } else {
        searched_round(instrs, rounds, at, loops)
    }
}

// The loops that call nothing.
fn calm_of(alloc: Global, instrs: &[Instr], loops: &[LoopInfo]) -> Result<Vec<LoopInfo>, AllocError>
    ensures { IfOk result (λ calm. calm.items ≡ calm_loops instrs.now loops.now) }
{
    loops
        .iter()
        .copied()
        .filter(|counted| calls_nothing(loop_code(instrs, counted)))
        .collect(alloc)
}

fn has_single_cells(code: &Code, place: Place) -> bool
    ensures { result ≡ spec.has_single_cells code.now place }
{
    match site_at(code.sites.as_slice(), place.site) {
        Some(site) => site.layout.element == 1,
        None => true,
    }
}

fn have_single_cells(code: &Code, places: &[Place]) -> bool
    ensures { result ≡ spec.have_single_cells code.now places.now }
{
    places.iter().all(|place| has_single_cells(code, *place))
}

/// A function, with its number, what made the operands of its moves, the constants that its instructions add, the ways to
/// them, the makers of its registers, the innermost loop round each instruction, and its counted loops that call nothing, with
/// the first that begins at each place.
#[derive(Clone, Copy)]
struct Body<'a> {
    number: u32,
    function: &'a Function,
    operands: &'a [(Option<usize>, Option<usize>)],
    amounts: &'a [Option<i64>],
    ways: &'a Ways,
    makers: &'a Makers,
    rounds: &'a [Option<usize>],
    loops: &'a [LoopInfo],
    heads: &'a Heads,
}

/// The places to which a register of the function may point.
fn places_of<'a>(code: &Code, points: &'a PointsTo, body: &Body<'_>, register: u32) -> &'a [Place]
    requires lists { HasRegisters code.now points.now }
    requires function { slice_get code.now.functions body.now.number ≡ Some body.now.function.now }
    ensures { result.now ≡ list_at points.now.registers body.now.number register }
{
    if register < body.function.registers {
        points.of_register(body.number, register).as_slice()
    } else {
        &[]
    }
}

/// The range of an access by a register in a loop.
fn range_in(
    code: &Code,
    points: &PointsTo,
    body: &Body<'_>,
    at: usize,
    register: u32,
    counted: &LoopInfo,
) -> Option<Range>
    requires lists { HasRegisters code.now points.now }
    requires function { slice_get code.now.functions body.now.number ≡ Some body.now.function.now }
    requires operands { AreOperands body.now.function.now.instrs body.now.operands.now }
    requires amounts { AreAmounts body.now.function.now.instrs body.now.amounts.now }
    requires ways { AreWays body.now.function.now.instrs body.now.ways.now }
    requires makers { AreMakers body.now.function.now.instrs body.now.makers.now }
    requires operands_length { length body.now.operands.now ≡ length body.now.function.now.instrs }
    requires amounts_length { length body.now.amounts.now ≡ length body.now.function.now.instrs }
    requires at { at < length body.now.function.now.instrs }
    requires number { at < 2 ^ 32 }
    ensures { result ≡ spec.range_in code.now points.now body.now.number body.now.function.now.instrs at register counted.now }
{
    let instrs = body.function.instrs.as_slice();
    let maker = only_maker(instrs, body.ways, body.makers, counted, at, register)?;
    let shift = moved_shift(
        instrs,
        body.makers,
        body.operands,
        body.amounts,
        counted,
        maker,
    )?;
    if have_single_cells(code, places_of(code, points, body, register)) {
        Some(Range {
            function: body.number,
            instr: at as u32,
            loop_at: counted.at,
            shift,
        })
    } else {
        None
    }
}

/// The range of an instruction, if it is an access that has one.
fn range_at(code: &Code, points: &PointsTo, body: &Body<'_>, at: usize, act: &Act) -> Option<Range>
    requires lists { HasRegisters code.now points.now }
    requires function { slice_get code.now.functions body.now.number ≡ Some body.now.function.now }
    requires operands { AreOperands body.now.function.now.instrs body.now.operands.now }
    requires amounts { AreAmounts body.now.function.now.instrs body.now.amounts.now }
    requires ways { AreWays body.now.function.now.instrs body.now.ways.now }
    requires makers { AreMakers body.now.function.now.instrs body.now.makers.now }
    requires operands_length { length body.now.operands.now ≡ length body.now.function.now.instrs }
    requires amounts_length { length body.now.amounts.now ≡ length body.now.function.now.instrs }
    requires rounds { AreRounds body.now.function.now.instrs body.now.rounds.now }
    requires rounds_length { length body.now.rounds.now ≡ length body.now.function.now.instrs }
    requires calm { AreCalm body.now.function.now.instrs body.now.loops.now }
    requires heads { AreHeads body.now.loops.now body.now.heads.now }
    requires at { at < length body.now.function.now.instrs }
    requires number { at < 2 ^ 32 }
    ensures { result ≡ spec.range_at code.now points.now body.now.number body.now.function.now.instrs body.now.loops.now at act.now }
{
    let instrs = body.function.instrs.as_slice();
    let register = pointer_of(act)?;
    let counted = loop_round(instrs, body.rounds, at, body.loops, body.heads)?;
    range_in(code, points, body, at, register, counted)
}

fn push_range(found: Option<Range>, out: &mut List<Range>) -> Result<(), AllocError>
    ensures { OnOk result (out.new ≡ out.old ++ option_to_list found) }
{
    match found {
        Some(range) => out.push(range),
        None => Ok(()),
    }
}

/// The ranges of a function's instructions.
fn push_ranges(
    code: &Code,
    points: &PointsTo,
    body: &Body<'_>,
    out: &mut List<Range>,
) -> Result<(), AllocError>
    requires lists { HasRegisters code.now points.now }
    requires function { slice_get code.now.functions body.now.number ≡ Some body.now.function.now }
    requires operands { AreOperands body.now.function.now.instrs body.now.operands.now }
    requires amounts { AreAmounts body.now.function.now.instrs body.now.amounts.now }
    requires ways { AreWays body.now.function.now.instrs body.now.ways.now }
    requires makers { AreMakers body.now.function.now.instrs body.now.makers.now }
    requires operands_length { length body.now.operands.now ≡ length body.now.function.now.instrs }
    requires amounts_length { length body.now.amounts.now ≡ length body.now.function.now.instrs }
    requires rounds { AreRounds body.now.function.now.instrs body.now.rounds.now }
    requires rounds_length { length body.now.rounds.now ≡ length body.now.function.now.instrs }
    requires calm { AreCalm body.now.function.now.instrs body.now.loops.now }
    requires heads { AreHeads body.now.loops.now body.now.heads.now }
    ensures { OnOk result (out.new ≡ out.old ++ spec.ranges_in code.now points.now body.now.number body.now.function.now.instrs body.now.loops.now 0 body.now.function.now.instrs) }
{
    let instrs = body.function.instrs.as_slice();
    number_of(instrs.len())?;
    for at in 0..instrs.len() {
        push_range(range_at(code, points, body, at, &instrs[at].act), out)?;
    }
    Ok(())
}

/// The number of 32 bits. More instructions than there are such numbers don't fit the machine's memory either.
fn number_of(count: usize) -> Result<u32, AllocError>
    ensures { IfOk result (λ n. n ≡ count) }
{
    u32::try_from(count).map_err(|_| AllocError)
}

fn push_function(
    alloc: Global,
    code: &Code,
    points: &PointsTo,
    number: u32,
    function: &Function,
    out: &mut List<Range>,
) -> Result<(), AllocError>
    requires lists { HasRegisters code.now points.now }
    requires function { slice_get code.now.functions number ≡ Some function.now }
    ensures { OnOk result (out.new ≡ out.old ++ spec.ranges_in code.now points.now number function.now.instrs (loops.counted_of function.now) 0 function.now.instrs) }
{
    let instrs = function.instrs.as_slice();
    let ways = ways_of(alloc, instrs)?;
    let counted = counted_of(alloc, function, &ways)?;
    let calm = calm_of(alloc, instrs, counted.as_slice())?;
    let loops = calm.as_slice();
    let heads = heads_of(alloc, loops)?;
    let starts = block_starts(alloc, instrs)?;
    let operands = operand_makers(alloc, instrs, starts.as_slice())?;
    let amounts = amounts(alloc, instrs, starts.as_slice())?;
    let rounds = rounds_of(alloc, instrs, &ways.ends)?;
    let makers = makers_of(alloc, instrs)?;
    let body = Body {
        number,
        function,
        operands: operands.as_slice(),
        amounts: amounts.as_slice(),
        ways: &ways,
        makers: &makers,
        rounds: rounds.as_slice(),
        loops,
        heads: &heads,
    };
    push_ranges(code, points, &body, out)
}

/// The accesses of a code whose elements are known where their loop is entered, by function and then by instruction: those
/// of a counted loop that calls nothing, which is the innermost one round them, by a pointer that is moved from a base which
/// the loop keeps by the counter and a constant, where all that they may touch has elements of one cell.
/// The points-to answer must have a list for each register of the code's functions.
pub fn ranges(alloc: Global, code: &Code, points: &PointsTo) -> Result<List<Range>, AllocError>
    requires { HasRegisters code.now points.now }
    ensures { IfOk result (λ rs. rs ≡ spec.ranges_of code.now points.now) }
{
    let mut out = List::new(alloc);
    let mut number = 0;
    for function in code.functions.as_slice() {
        push_function(alloc, code, points, number, function, &mut out)?;
        number = sum(number, 1)?;
    }
    Ok(out)
}

// The weakened code.
ghost use Rattle.std.specs.Prelude.{◌≡◌, ◌<◌, ◌==◌, true, length, map, List, Some, IfOk, slice_get, filter, All};
ghost use Rattle.flow_code.specs.Valid.{is_valid, function_fits};
ghost use Rattle.flow_code.specs.Regions.{loop_fits};
ghost use Rattle.flow_code.specs.Valid.{loops_fit};
ghost use Rattle.facts.specs.declared.locks.Summary.{Summary};
ghost use Rattle.profiles.specs.declared.profile.Profile.{Profile};
ghost use Rattle.facts.specs.Pairs.{pairs_ascend};
ghost use Rattle.facts.specs.PointsTo.{are_ascending, HasRegisters};
ghost use Rattle.flow_code.specs.declared.code.Function.{Function};
ghost use Rattle.rr_base.specs.declared.layout.Place.{Place};
ghost use Rattle.weak_code.specs.WeakLocks as locks;
ghost use Rattle.weak_code.specs.Weakened as spec;
ghost use Rattle.weak_code.specs.Stretches.{racy_accesses as racy_accesses_of, stretches_of as stretches_of_accesses};
ghost use Rattle.weak_code.specs.Weakened.{weakened};
ghost use Rattle.weak_code.specs.Stripped.{is_plain};
ghost use Rattle.weak_valid.specs.Answers.{AreAnswers};
ghost use Rattle.weak_valid.specs.Apart.{loops_are_apart};
ghost use Rattle.weaken.specs.Tables.{IsPlan};
ghost use Rattle.weaken.specs.Jumps.{all_jumps_within};

use crate::access::racy_accesses;
use crate::copies::copied_sites;
use crate::grouping::{ranges_by_function, ranges_by_instr, rows_by_function};
use crate::locks::places_in;
use crate::places::plan;
use crate::plan::Plan;
use crate::stretches::stretches_of;
use crate::stripes::locks_for;
use crate::writing::{front, seat, weakened_instrs};
use facts::{Pair, PointsTo};
use flow_code::{Code, Function, Instr, LoopInfo, Region};
use rr_base::{List, Place};
use std::alloc::{AllocError, Global};
use weak_code::{RacyAccess, Stretch};
use weak_lock_facts::{Grained, Grains, Range};

fn moved_loop(
    stretches: &[Stretch],
    plan: &Plan,
    function: &Function,
    counted: &LoopInfo,
) -> Result<LoopInfo, AllocError>
    requires plan { IsPlan stretches.now function.now.instrs plan.now }
    requires fits { loop_fits function.now counted.now ≡ true }
    ensures { IfOk result (λ l. l ≡ spec.moved_loop stretches.now function.now.instrs counted.now) }
{
    let instrs = function.instrs.as_slice();
    Ok(LoopInfo {
        at: seat(stretches, plan, instrs, counted.at as usize)?,
        first: front(stretches, plan, instrs, counted.first as usize)?,
        last: seat(stretches, plan, instrs, counted.last as usize)?,
        counter: counted.counter,
        bound: counted.bound,
        step: counted.step,
    })
}

fn moved_loops(
    alloc: Global,
    stretches: &[Stretch],
    plan: &Plan,
    function: &Function,
) -> Result<List<LoopInfo>, AllocError>
    requires plan { IsPlan stretches.now function.now.instrs plan.now }
    requires fits { loops_fit function.now function.now.loops ≡ true }
    ensures { IfOk result (λ loops. loops ≡ map (spec.moved_loop stretches.now function.now.instrs) function.now.loops) }
{
    let mut loops = List::new(alloc);
    for counted in function.loops.as_slice() {
        loops.push(moved_loop(stretches, plan, function, counted)?)?;
    }
    Ok(loops)
}

fn regions_of(alloc: Global, stretches: Vec<Stretch>) -> Result<List<Region>, AllocError>
    ensures { IfOk result (λ regions. regions ≡ map (λ s. s.region) stretches.items) }
{
    let mut regions = List::new(alloc);
    for stretch in stretches {
        regions.push(stretch.region)?;
    }
    Ok(regions)
}

/// The function with regions put into it.
fn with_stretches(
    alloc: Global,
    function: &Function,
    stretches: Vec<Stretch>,
) -> Result<Function, AllocError>
    requires loops { loops_fit function.now function.now.loops ≡ true }
    requires jumps { all_jumps_within (length function.now.instrs) function.now.instrs ≡ true }
    ensures { IfOk result (λ weak. weak ≡ spec.with_stretches function.now stretches.items) }
{
    let instrs = function.instrs.as_slice();
    let plan = plan(alloc, instrs, &stretches)?;
    Ok(Function {
        name: function.name.copied(alloc)?,
        line: function.line,
        formals: function.formals,
        registers: function.registers,
        pointers: function.pointers.copied(alloc)?,
        gives_pointer: function.gives_pointer,
        instrs: weakened_instrs(alloc, &stretches, &plan, instrs)?,
        loops: moved_loops(alloc, &stretches, &plan, function)?,
        regions: regions_of(alloc, stretches)?,
    })
}

/// The accesses of function `number`, by its own ranges and rows among all of them.
fn accesses_of(
    alloc: Global,
    code: &Code,
    points: &PointsTo,
    locked: &[Place],
    ranges: &[Range],
    _rows: &[Grained],
    number: usize,
    own_ranges: &[Range],
    own_rows: &[Grained],
) -> Result<Vec<RacyAccess>, AllocError>
    requires registers { HasRegisters code.now points.now }
    requires places { are_ascending locked.now ≡ true }
    requires number { number < length code.now.functions }
    requires own_ranges { own_ranges.now ≡ filter (λ r. r.function == number) ranges.now }
    requires own_rows { own_rows.now ≡ filter (λ g. g.access.function == number) _rows.now }
    ensures value { IfOk result (λ v. v.items ≡ racy_accesses_of code.now points.now locked.now ranges.now _rows.now number) }
    ensures within { IfOk result (λ v. (fn : Function) → slice_get code.now.functions number ≡ Some fn → All (λ a. a.instr < length fn.instrs) v.items) }
{
    let count = code.functions.as_slice()[number].instrs.len();
    let by_instr = ranges_by_instr(alloc, own_ranges, count)?;
    racy_accesses(alloc, code, points, locked, ranges, &by_instr, own_rows)
}

/// The function with the regions of its accesses.
fn with_accesses(
    alloc: Global,
    _code: &Code,
    function: &Function,
    accesses: &[RacyAccess],
) -> Result<Function, AllocError>
    requires fits { function_fits _code.now function.now ≡ true }
    requires within { All (λ a. a.instr < length function.now.instrs) accesses.now }
    ensures { IfOk result (λ weak. weak ≡ spec.with_stretches function.now (stretches_of_accesses function.now accesses.now)) }
{
    let stretches = stretches_of(alloc, function, accesses)?;
    with_stretches(alloc, function, stretches)
}

/// Function `number` of the weakened code.
fn weakened_function(
    alloc: Global,
    code: &Code,
    points: &PointsTo,
    locked: &[Place],
    ranges: &[Range],
    rows: &[Grained],
    number: usize,
    own_ranges: &[Range],
    own_rows: &[Grained],
) -> Result<Function, AllocError>
    requires valid { is_valid code.now ≡ true }
    requires registers { HasRegisters code.now points.now }
    requires places { are_ascending locked.now ≡ true }
    requires number { number < length code.now.functions }
    requires own_ranges { own_ranges.now ≡ filter (λ r. r.function == number) ranges.now }
    requires own_rows { own_rows.now ≡ filter (λ g. g.access.function == number) rows.now }
    ensures { IfOk result (λ weak. (fn : Function) → slice_get code.now.functions number ≡ Some fn → weak ≡ spec.weakened_function code.now points.now locked.now ranges.now rows.now number fn) }
{
    let accesses = accesses_of(
        alloc, code, points, locked, ranges, rows, number, own_ranges, own_rows,
    )?;
    let function = &code.functions.as_slice()[number];
    with_accesses(alloc, code, function, &accesses)
}

/// The functions of the weakened code.
fn weakened_functions(
    alloc: Global,
    code: &Code,
    points: &PointsTo,
    locked: &[Place],
    ranges: &[Range],
    rows: &[Grained],
) -> Result<List<Function>, AllocError>
    requires valid { is_valid code.now ≡ true }
    requires registers { HasRegisters code.now points.now }
    requires places { are_ascending locked.now ≡ true }
    ensures { IfOk result (λ functions. functions ≡ spec.weakened_functions code.now points.now locked.now ranges.now rows.now 0 code.now.functions) }
{
    let count = code.functions.len();
    let own_ranges = ranges_by_function(alloc, ranges, count)?;
    let own_rows = rows_by_function(alloc, rows, count)?;
    let mut functions = List::new(alloc);
    for number in 0..count {
        let function = weakened_function(
            alloc,
            code,
            points,
            locked,
            ranges,
            rows,
            number,
            own_ranges[number].as_slice(),
            own_rows[number].as_slice(),
        )?;
        functions.push(function)?;
    }
    Ok(functions)
}

/// The places of the pairs, which have locks.
fn locked_places(alloc: Global, pairs: &[Pair]) -> Result<List<Place>, AllocError>
    requires { pairs_ascend pairs.now ≡ true }
    ensures value { IfOk result (λ places. places ≡ locks.places_in pairs.now) }
    ensures ascending { IfOk result (λ places. are_ascending places ≡ true) }
{
    places_in(alloc, pairs)
}

/// The weakened code, where the places of the pairs are known.
fn weaken_at(
    alloc: Global,
    code: &Code,
    points: &PointsTo,
    _pairs: &[Pair],
    locked: &[Place],
    ranges: &[Range],
    rows: &[Grained],
) -> Result<Code, AllocError>
    requires valid { is_valid code.now ≡ true }
    requires points { HasRegisters code.now points.now }
    requires places { locked.now ≡ locks.places_in _pairs.now }
    requires ascending { are_ascending locked.now ≡ true }
    ensures { IfOk result (λ weak. weak ≡ weakened code.now points.now _pairs.now ranges.now rows.now) }
{
    let functions = weakened_functions(alloc, code, points, locked, ranges, rows)?;
    let sites = copied_sites(alloc, code.sites.as_slice())?;
    let globals = code.globals.copied(alloc)?;
    let global_kinds = code.global_kinds.copied(alloc)?;
    let global_bases = code.global_bases.copied(alloc)?;
    let locks = locks_for(alloc, code, points, locked, rows)?;
    Ok(Code {
        functions,
        sites,
        globals,
        global_kinds,
        global_bases,
        locks,
    })
}

/// The code with its weak locks, with the regions of its functions, and with their Takes and Gives: by where its pointers
/// may point, by its race pairs, by the ranges of its accesses, and by the grains of those that may race. The points-to
/// answer must have a list for each register of the code's functions, and the pairs must come by place. The code is valid
/// where all these are the analyses' answers for a code without weak locks, whose loops are told apart by their Marks.
pub fn weaken(
    alloc: Global,
    code: &Code,
    points: &PointsTo,
    pairs: &List<Pair>,
    ranges: &List<Range>,
    grains: &Grains,
) -> Result<Code, AllocError>
    requires valid { is_valid code.now ≡ true }
    requires points { HasRegisters code.now points.now }
    requires pairs { pairs_ascend pairs.now ≡ true }
    ensures value { IfOk result (λ weak. weak ≡ weakened code.now points.now pairs.now ranges.now grains.now.rows) }
    ensures valid { (ss : List Summary) (profile : Profile) → is_plain code.now ≡ true → loops_are_apart code.now ≡ true → AreAnswers code.now points.now ss pairs.now ranges.now profile grains.now.rows → IfOk result (λ weak. is_valid weak ≡ true) }
{
    let locked = locked_places(alloc, pairs.as_slice())?;
    weaken_at(
        alloc,
        code,
        points,
        pairs.as_slice(),
        locked.as_slice(),
        ranges.as_slice(),
        grains.rows.as_slice(),
    )
}

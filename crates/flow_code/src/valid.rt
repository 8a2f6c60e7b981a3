// Which codes are valid.
ghost use Rattle.std.specs.Prelude.{◌≡◌, true};
ghost use Rattle.word_semantics.specs.Layouts as layouts;
ghost use Rattle.flow_code.specs.Constants.{constants_fit as constants_fit_of};
ghost use Rattle.flow_code.specs.Settle.{IsRunnable};
ghost use Rattle.flow_code.specs.Valid as spec;

use crate::act::Instr;
use crate::addresses::globals_fit;
use crate::code::{Code, Function, LockInfo, LoopInfo};
use crate::constants::constants_fit;
use crate::entering::is_main;
use crate::kinds::act_fits;
use crate::order::order_fits;
use crate::region::Region;
use crate::regions::{lock_fits, loop_fits, region_fits};
use rr_base::{Layout, Site};

// Whether an object of the layout has 1 to 65,535 cells with a kind for each, and is a whole number of elements.
fn layout_fits(layout: &Layout) -> bool
    ensures { result ≡ layouts.layout_fits layout.now }
{
    1 <= layout.size
        && layout.size <= 65_535
        && layout.kinds.len() == layout.size as usize
        && 1 <= layout.element
        && layout.size.is_multiple_of(layout.element)
}

fn sites_fit(sites: &[Site]) -> bool
    ensures { result ≡ layouts.sites_fit sites.now }
{
    sites.iter().all(|site| layout_fits(&site.layout))
}

fn all_locks_fit(code: &Code, locks: &[LockInfo]) -> bool
    ensures { result ≡ spec.all_locks_fit code.now locks.now }
{
    locks.iter().all(|lock| lock_fits(code, lock))
}

fn registers_fit(function: &Function) -> bool
    ensures { result ≡ spec.registers_fit function.now }
{
    function.formals <= function.registers && function.pointers.len() == function.registers as usize
}

fn acts_fit(code: &Code, function: &Function, instrs: &[Instr]) -> bool
    ensures { result ≡ spec.acts_fit code.now function.now instrs.now }
{
    instrs
        .iter()
        .all(|instr| act_fits(code, function, &instr.act))
}

fn loops_fit(function: &Function, loops: &[LoopInfo]) -> bool
    ensures { result ≡ spec.loops_fit function.now loops.now }
{
    loops.iter().all(|counted| loop_fits(function, counted))
}

fn regions_fit(code: &Code, function: &Function, regions: &[Region]) -> bool
    ensures { result ≡ spec.regions_fit code.now function.now regions.now }
{
    regions
        .iter()
        .all(|region| region_fits(code, function, region))
}

fn function_fits(code: &Code, function: &Function) -> bool
    ensures { result ≡ spec.function_fits code.now function.now }
{
    registers_fit(function)
        && order_fits(function.instrs.as_slice())
        && acts_fit(code, function, function.instrs.as_slice())
        && loops_fit(function, function.loops.as_slice())
        && regions_fit(code, function, function.regions.as_slice())
}

fn functions_fit(code: &Code, functions: &[Function]) -> bool
    ensures { result ≡ spec.functions_fit code.now functions.now }
{
    functions
        .iter()
        .all(|function| function_fits(code, function))
}

fn is_main_function(function: &Function) -> bool
    ensures { result ≡ spec.is_main_function function.now }
{
    is_main(function.name.as_slice())
}

fn mains_in(functions: &[Function]) -> usize
    ensures { result ≡ spec.mains_in functions.now }
{
    let mut mains = 0;
    for function in functions {
        if is_main_function(function) {
            mains += 1;
        }
    }
    mains
}

fn mains_have_no_formals(functions: &[Function]) -> bool
    ensures { result ≡ spec.mains_have_no_formals functions.now }
{
    functions.iter().all(|function| !is_main_function(function) || function.formals == 0)
}

// Whether exactly one function is `main`, and it has no formals (C99 5.1.2.2.1).
fn has_one_main(functions: &[Function]) -> bool
    ensures { result ≡ spec.has_one_main functions.now }
{
    mains_in(functions) == 1 && mains_have_no_formals(functions)
}

// One weak lock for each of 64 classes of each of 1,023 sites.
const MOST_LOCKS: usize = 65_472;

fn is_within_limits(code: &Code) -> bool
    ensures { result ≡ spec.is_within_limits code.now }
{
    code.functions.len() <= 1 << 20
        && code.sites.len() <= 1023
        && code.globals.len() <= 1 << 20
        && code.locks.len() <= MOST_LOCKS
}

fn conditions_hold(code: &Code) -> bool
    ensures { result ≡ spec.is_valid code.now }
{
    is_within_limits(code)
        && sites_fit(code.sites.as_slice())
        && all_locks_fit(code, code.locks.as_slice())
        && has_one_main(code.functions.as_slice())
        && functions_fit(code, code.functions.as_slice())
        && globals_fit(code)
}

/// Whether the code is valid. It takes no memory.
pub fn is_valid(code: &Code) -> bool
    ensures value { result ≡ spec.is_valid code.now }
    ensures runnable { result ≡ true → IsRunnable code.now }
    ensures constants { result ≡ true → constants_fit_of code.now ≡ true }
{
    let holds = conditions_hold(code);
    constants_fit(code) && holds
}

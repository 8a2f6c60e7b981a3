// Where a thread stands in its code.
ghost use Rattle.std.specs.Prelude.{◌≡◌, ◌<◌, ◌^◌, ◌+◌, ◌*◌, ◌≤◌, length, slice_get, IfSome};
ghost use Rattle.std.specs.Option.{option_copied};
ghost use Rattle.sync_objects.specs.Setup.{IsWithinLimits};
ghost use Rattle.flow_code.specs.Threads.{instr_in, arena_end as arena_end_of, arena_start as arena_start_of, line_of_function, line_in, is_main as is_main_of, registers_in, instrs_in};
ghost use Rattle.flow_code.specs.Next.{pointers_in};
ghost use Rattle.flow_code.specs.Holding.{region_in};

use flow_code::{Code, Function, Instr, Region};
use sync_objects::Setup;

#[inline(always)]
pub(crate) fn function_at(code: &Code, function: u32) -> Option<&Function>
    ensures { option_copied result ≡ slice_get code.now.functions function }
{
    code.functions.get(function as usize)
}

#[inline(always)]
pub(crate) fn instr_at(code: &Code, function: u32, instr: usize) -> Option<&Instr>
    ensures value { option_copied result ≡ instr_in (slice_get code.now.functions function) instr }
    ensures within { IfSome result (λ _. instr + 1 < 2 ^ 64) }
{
    match function_at(code, function) {
        Some(f) => {
            if instr < f.instrs.len() {
                f.instrs.get(instr)
            } else {
                None
            }
        }
        None => None,
    }
}

// A region of a function.
pub(crate) fn region_at(code: &Code, function: u32, region: u32) -> Option<&Region>
    ensures { option_copied result ≡ region_in (slice_get code.now.functions function) region }
{
    match function_at(code, function) {
        Some(f) => f.regions.get(region as usize),
        None => None,
    }
}

// The instructions of a function.
#[inline(always)]
pub(crate) fn instrs_at(code: &Code, function: u32) -> &[Instr]
    ensures { result.now ≡ instrs_in (slice_get code.now.functions function) }
{
    match function_at(code, function) {
        Some(f) => f.instrs.as_slice(),
        None => &[],
    }
}

pub(crate) fn registers_at(code: &Code, function: u32) -> u32
    ensures { result ≡ registers_in (slice_get code.now.functions function) }
{
    match function_at(code, function) {
        Some(f) => f.registers,
        None => 0,
    }
}

#[inline(always)]
pub(crate) fn pointers_at(code: &Code, function: u32) -> &[bool]
    ensures { result.now ≡ pointers_in (slice_get code.now.functions function) }
{
    match function_at(code, function) {
        Some(f) => f.pointers.as_slice(),
        None => &[],
    }
}

pub(crate) fn line_at_function(code: &Code, function: u32) -> u32
    ensures { result ≡ line_of_function (slice_get code.now.functions function) }
{
    match function_at(code, function) {
        Some(f) => f.line,
        None => 0,
    }
}

pub(crate) fn line_at(code: &Code, function: u32, instr: usize) -> u32
    ensures { result ≡ line_in (instr_in (slice_get code.now.functions function) instr) }
{
    match instr_at(code, function, instr) {
        Some(i) => i.at.line,
        None => 0,
    }
}

// The first cell after the arena of a thread.
pub(crate) fn arena_end(code: &Code, setup: &Setup, thread: u8) -> u32
    requires globals { length code.now.globals ≤ 2 ^ 20 }
    requires thread { thread < setup.now.slots }
    ensures value { result ≡ arena_end_of code.now setup.now thread }
    ensures within { result ≤ 2 ^ 22 }
{
    2 * u32::from(setup.slots())
        + code.globals.len() as u32
        + u32::from(thread) * setup.cells()
        + setup.cells()
}

// The first cell of the arena of a thread.
pub(crate) fn arena_start(code: &Code, setup: &Setup, thread: u8) -> u32
    requires globals { length code.now.globals ≤ 2 ^ 20 }
    requires thread { thread < setup.now.slots }
    ensures value { result ≡ arena_start_of code.now setup.now thread }
    ensures within { IsWithinLimits setup.now }
{
    2 * u32::from(setup.slots()) + code.globals.len() as u32 + u32::from(thread) * setup.cells()
}

// What a code and a setup have.
ghost use Rattle.std.specs.Prelude.{◌≡◌, ◌<◌, ◌≤◌, slice_get};
ghost use Rattle.std.specs.Option.{option_copied};
ghost use Rattle.core_run.specs.Words.{cells_of as cells_of_machine};
ghost use Rattle.flow_code.specs.Kinds as kinds;
ghost use Rattle.flow_code.specs.Next.{act_in};
ghost use Rattle.flow_code.specs.Settle.{IsRunnable};
ghost use Rattle.flow_code.specs.Threads.{arena_start as arena_start_of, instr_in, is_main as is_main_of, registers_in};

use flow_code::{Act, Code, Function, is_main as is_main_name, is_pointer};
use sync_objects::Setup;

/// How many cells there are.
pub fn cells_of(code: &Code, setup: &Setup) -> u32
    requires runnable { IsRunnable code.now }
    ensures value { result ≡ cells_of_machine code.now setup.now }
    ensures few { result ≤ 4194304 }
{
    2 * u32::from(setup.slots())
        + code.globals.len() as u32
        + u32::from(setup.slots()) * setup.cells()
}

/// The first cell of a thread's arena.
pub fn arena_start(code: &Code, setup: &Setup, thread: u8) -> u32
    requires runnable { IsRunnable code.now }
    requires thread { thread < 16 }
    ensures value { result ≡ arena_start_of code.now setup.now thread }
    ensures few { result ≤ 4194304 }
{
    2 * u32::from(setup.slots()) + code.globals.len() as u32 + u32::from(thread) * setup.cells()
}

/// The function of a number.
pub fn function_at(code: &Code, function: u32) -> Option<&Function>
    ensures { option_copied result ≡ slice_get code.now.functions function }
{
    code.functions.get(function as usize)
}

/// What the instruction of a function does.
pub fn act_at(function: Option<&Function>, instr: u32) -> Option<&Act>
    ensures { option_copied result ≡ act_in (instr_in (option_copied function.entry) instr) }
{
    match function {
        Some(function) => match function.instrs.get(instr as usize) {
            Some(instr) => Some(&instr.act),
            None => None,
        },
        None => None,
    }
}

/// How many registers the function has.
pub fn registers_of(function: Option<&Function>) -> u32
    ensures { result ≡ registers_in (option_copied function.entry) }
{
    match function {
        Some(function) => function.registers,
        None => 0,
    }
}

/// Whether a thread may be started with the function.
pub fn may_start(function: Option<&Function>) -> bool
    ensures { result ≡ kinds.may_start (option_copied function.entry) }
{
    match function {
        Some(function) => {
            !is_main_name(function.name.as_slice())
                && function.formals == 1
                && is_pointer(function.pointers.as_slice(), 0)
                && function.gives_pointer
        }
        None => false,
    }
}

/// Whether the function is the program's `main`.
pub fn is_main(code: &Code, function: u32) -> bool
    ensures { result ≡ is_main_of code.now function }
{
    match function_at(code, function) {
        Some(function) => is_main_name(function.name.as_slice()),
        None => false,
    }
}

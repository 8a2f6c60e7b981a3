//! Parts of a function's instructions: what they assign and call, and where one enters them.
ghost use Rattle.std.specs.Prelude.{◌≡◌, ◌+◌, ◌<◌, ◌^◌, take, drop, slice_range, length, IsTrue};
ghost use Rattle.facts.specs.Paths as paths;
ghost use Rattle.weak_lock_facts.specs.Loops as loops;
ghost use Rattle.weak_lock_facts.specs.Ranges as ranges;

use crate::acts::{assigns, is_call};
use flow_code::{Act, Bound, Instr, LoopInfo};

fn front(instrs: &[Instr], count: usize) -> &[Instr]
    ensures { result.now ≡ take count instrs.now }
{
    if count < instrs.len() {
        &instrs[..count]
    } else {
        instrs
    }
}

/// The instructions from a place on.
pub fn following(instrs: &[Instr], from: usize) -> &[Instr]
    ensures { result.now ≡ drop from instrs.now }
{
    if from < instrs.len() {
        &instrs[from..]
    } else {
        &[]
    }
}

/// The instructions from a place to another.
pub fn part(instrs: &[Instr], from: usize, to: usize) -> &[Instr]
    ensures { result.now ≡ slice_range instrs.now from to }
{
    front(following(instrs, from), to.saturating_sub(from))
}

/// The instructions of a loop, from its Mark to its jump back.
pub fn loop_code<'a>(instrs: &'a [Instr], counted: &LoopInfo) -> &'a [Instr]
    ensures { result.now ≡ loops.loop_code instrs.now counted.now }
{
    part(instrs, counted.at as usize, counted.last as usize + 2)
}

/// Whether none of the instructions assigns the register.
pub fn is_never_assigned(instrs: &[Instr], register: u32) -> bool
    ensures { result ≡ paths.is_never_assigned instrs.now register }
{
    instrs.iter().all(|instr| !assigns(register, &instr.act))
}

/// Whether none of the instructions calls a function.
pub fn calls_nothing(instrs: &[Instr]) -> bool
    ensures { result ≡ ranges.calls_nothing instrs.now }
{
    instrs.iter().all(|instr| !is_call(&instr.act))
}

/// Whether nothing of the loop assigns the register.
pub fn keeps(instrs: &[Instr], counted: &LoopInfo, register: u32) -> bool
    ensures { result ≡ loops.keeps instrs.now counted.now register }
{
    is_never_assigned(loop_code(instrs, counted), register)
}

/// Whether nothing of the loop assigns a register that is its bound.
pub fn keeps_bound(instrs: &[Instr], counted: &LoopInfo, bound: Bound) -> bool
    ensures { result ≡ loops.keeps_bound instrs.now counted.now bound }
{
    match bound {
        Bound::Number(_) => true,
        Bound::Register(register) => keeps(instrs, counted, register),
    }
}

//! Where control may go from an instruction.
ghost use Rattle.std.specs.Prelude.{◌≡◌, ◌<◌, length, Some, slice_get};
ghost use Rattle.flow_code.specs.declared.act.Instr.{Instr as Step};
ghost use Rattle.lockset_flow.specs.Rounds.{HasNext};

use flow_code::{Act, Instr};

/// The ways from an instruction: to one instruction, to two, or to the exit.
#[derive(Clone, Copy)]
pub enum Successors {
    One(usize),
    Two(usize, usize),
    Exit,
}

/// The ways from the k-th of these instructions.
pub fn next_of(instrs: &[Instr], k: usize) -> Successors
    requires { k < length instrs.now }
    ensures { (i : Step) → slice_get instrs.now k ≡ Some i → HasNext result k i.act }
{
    match &instrs[k].act {
        Act::Jump { to } => Successors::One(*to as usize),
        Act::Branch {
            on: _,
            then_at,
            else_at,
        } => Successors::Two(*then_at as usize, *else_at as usize),
        Act::Return { value: _ } => Successors::Exit,
        _ => Successors::One(k + 1),
    }
}

//! What single instructions do.
ghost use Rattle.std.specs.Prelude.{◌≡◌, ◌≤◌, Some};
ghost use Rattle.std.specs.Option.{option_copied};
ghost use Rattle.flow_code.specs.Next.{act_in};
ghost use Rattle.flow_code.specs.Order as order;
ghost use Rattle.facts.specs.Blocks as blocks;
ghost use Rattle.weak_lock_facts.specs.Loops as loops;
ghost use Rattle.weak_lock_facts.specs.Ranges as ranges;

use flow_code::{Act, Bound, Instr, Work};
use word_semantics::BinaryOp;

/// What the instruction at a place does.
pub fn nth(instrs: &[Instr], at: usize) -> Option<&Act>
    ensures { option_copied result ≡ loops.nth instrs.now at }
{
    match instrs.get(at) {
        Some(instr) => Some(&instr.act),
        None => None,
    }
}

/// The register that the instruction assigns, if it assigns one.
pub fn assigned(act: &Act) -> Option<u32>
    ensures { result ≡ blocks.assigned act.now }
{
    match act {
        Act::Compute { into, .. } | Act::Alloc { into, .. } | Act::LoadCell { into, .. } => {
            Some(*into)
        }
        Act::Call { into, .. } | Act::Library { into, .. } => *into,
        _ => None,
    }
}

/// Whether the instruction assigns the register.
pub fn assigns(register: u32, act: &Act) -> bool
    ensures { result ≡ blocks.assigns register (Some act.now) }
{
    match act {
        Act::Compute { into, .. } | Act::Alloc { into, .. } | Act::LoadCell { into, .. } => {
            *into == register
        }
        Act::Call { into, .. } | Act::Library { into, .. } => *into == Some(register),
        _ => false,
    }
}

/// Whether it is the Mark of a loop.
pub fn is_mark(act: Option<&Act>) -> bool
    ensures { result ≡ order.is_mark (option_copied act.entry) }
{
    matches!(act, Some(Act::Mark))
}

/// Whether it calls a function of the code.
pub fn is_call(act: &Act) -> bool
    ensures { result ≡ ranges.is_call act.now }
{
    matches!(act, Act::Call { .. } | Act::Library { .. })
}

/// The register into which the register is copied.
pub fn copy_into(register: u32, act: Option<&Act>) -> Option<u32>
    ensures { result ≡ loops.copy_into register (option_copied act.entry) }
{
    match act {
        Some(
            Act::Compute {
                into,
                work: Work::Copy(from),
            },
        ) if *from == register => Some(*into),
        _ => None,
    }
}

/// The register into which the number is put.
pub fn number_into(number: i64, act: Option<&Act>) -> Option<u32>
    ensures { result ≡ loops.number_into number (option_copied act.entry) }
{
    match act {
        Some(
            Act::Compute {
                into,
                work: Work::Constant(put),
            },
        ) if *put == number => Some(*into),
        _ => None,
    }
}

/// The register that has the bound, into which the instruction puts it where it is a number.
pub fn bound_into(bound: Bound, act: Option<&Act>) -> Option<u32>
    ensures { result ≡ loops.bound_into bound (option_copied act.entry) }
{
    match bound {
        Bound::Number(number) => number_into(number, act),
        Bound::Register(register) => Some(register),
    }
}

/// How many instructions put the bound into a register.
pub fn bound_size(bound: Bound) -> usize
    ensures size { result ≡ loops.bound_size bound }
    ensures few { result ≤ 1 }
{
    match bound {
        Bound::Number(_) => 1,
        Bound::Register(_) => 0,
    }
}

// Whether the two operands are the registers, and these are two.
fn are_apart(x: u32, y: u32, left: u32, right: u32) -> bool
    ensures { result ≡ loops.are_apart x y left right }
{
    left == x && right == y && x != y
}

/// The register into which it is put whether the first register is less than the second.
pub fn less_into(x: u32, y: u32, act: Option<&Act>) -> Option<u32>
    ensures { result ≡ loops.less_into x y (option_copied act.entry) }
{
    match act {
        Some(
            Act::Compute {
                into,
                work: Work::Binary {
                    op: BinaryOp::Less,
                    left,
                    right,
                },
            },
        ) if are_apart(x, y, *left, *right) => Some(*into),
        _ => None,
    }
}

/// The register into which the sum of the two registers is put.
pub fn sum_into(x: u32, y: u32, act: Option<&Act>) -> Option<u32>
    ensures { result ≡ loops.sum_into x y (option_copied act.entry) }
{
    match act {
        Some(
            Act::Compute {
                into,
                work: Work::Binary {
                    op: BinaryOp::Add,
                    left,
                    right,
                },
            },
        ) if are_apart(x, y, *left, *right) => Some(*into),
        _ => None,
    }
}

/// Whether the instruction adds something to the register.
pub fn is_sum_of(register: u32, act: Option<&Act>) -> bool
    ensures { result ≡ loops.is_sum_of register (option_copied act.entry) }
{
    match act {
        Some(
            Act::Compute {
                work: Work::Binary {
                    op: BinaryOp::Add,
                    left,
                    ..
                },
                ..
            },
        ) => *left == register,
        _ => false,
    }
}

/// Whether the instruction branches on the register.
pub fn is_branch(on: Option<u32>, then_to: u64, else_to: u64, act: Option<&Act>) -> bool
    ensures { result ≡ loops.is_branch on then_to else_to (option_copied act.entry) }
{
    match (on, act) {
        (
            Some(register),
            Some(
                Act::Branch {
                    on,
                    then_at,
                    else_at,
                },
            ),
        ) => *on == register && u64::from(*then_at) == then_to && u64::from(*else_at) == else_to,
        _ => false,
    }
}

/// Whether the instruction copies the one register into the other.
pub fn is_copy(from: Option<u32>, to: u32, act: Option<&Act>) -> bool
    ensures { result ≡ loops.is_copy from to (option_copied act.entry) }
{
    match (from, act) {
        (
            Some(register),
            Some(
                Act::Compute {
                    into,
                    work: Work::Copy(from),
                },
            ),
        ) => *from == register && *into == to,
        _ => false,
    }
}

/// Whether the instruction copies a register.
pub fn is_any_copy(act: Option<&Act>) -> bool
    ensures { result ≡ loops.is_any_copy (option_copied act.entry) }
{
    matches!(
        act,
        Some(Act::Compute {
            work: Work::Copy(_),
            ..
        })
    )
}

/// Whether it jumps there.
pub fn is_jump(target: u32, act: Option<&Act>) -> bool
    ensures { result ≡ loops.is_jump target (option_copied act.entry) }
{
    match act {
        Some(Act::Jump { to }) => *to == target,
        _ => false,
    }
}

/// The register by which an instruction loads or stores a cell.
pub fn pointer_of(act: &Act) -> Option<u32>
    ensures { result ≡ ranges.pointer_of act.now }
{
    match act {
        Act::LoadCell { into: _, through } => Some(*through),
        Act::StoreCell { through, from: _ } => Some(*through),
        _ => None,
    }
}

/// Of a pointer moved on by so many elements of one cell: the pointer, and the number.
pub fn moved_of(act: Option<&Act>) -> Option<(u32, u32)>
    ensures { result ≡ ranges.moved_of (option_copied act.entry) }
{
    match act {
        Some(
            Act::Compute {
                into: _,
                work: Work::Move {
                    pointer,
                    by,
                    element: 1,
                    back: false,
                },
            },
        ) => Some((*pointer, *by)),
        _ => None,
    }
}

// Blocks, by their first instructions.
ghost use Rattle.std.specs.Prelude.{◌≡◌, ◌<◌, if◌then◌else◌, length, true, slice_get, slice_index_or, Some, IfOk};
ghost use Rattle.weak_lock_facts.specs.Grains as spec;
ghost use Rattle.grain_choice.specs.Listed.{is_listed, ascend};
ghost use Rattle.grain_choice.specs.Tables.{AreFirsts, HaveFirsts, block_in, is_in_block, holds_in_block, beside};

use crate::accesses::place_of;
use facts::{AccessAt, block_starts};
use flow_code::{Code, Instr};
use rr_base::List;
use std::alloc::{AllocError, Global};
use weak_lock_facts::Grain;

fn first_at(begins: bool, at: usize, first: usize) -> usize
    ensures { result ≡ (if begins then at else first) }
{
    if begins { at } else { first }
}

// The first instruction of the block of each instruction.
fn firsts_of(alloc: Global, instrs: &[Instr]) -> Result<List<usize>, AllocError>
    ensures { IfOk result (λ firsts. AreFirsts instrs.now firsts) }
{
    let starts = block_starts(alloc, instrs)?;
    let mut firsts = List::new(alloc);
    let mut first = 0;
    for at in 0..starts.len() {
        first = first_at(starts[at], at, first);
        firsts.push(first)?;
    }
    Ok(firsts)
}

/// The first instructions of the blocks of each function's instructions.
pub(crate) fn block_firsts(alloc: Global, code: &Code) -> Result<List<List<usize>>, AllocError>
    ensures { IfOk result (λ firsts. HaveFirsts code.now firsts) }
{
    let mut firsts = List::new(alloc);
    for function in code.functions.as_slice() {
        firsts.push(firsts_of(alloc, function.instrs.as_slice())?)?;
    }
    Ok(firsts)
}

// The first instruction of the access's block, if the access is in the code.
fn block_of(firsts: &[List<usize>], access: AccessAt) -> Option<usize>
    ensures { result ≡ block_in firsts.now access }
{
    let of_function = firsts.get(access.function as usize)?;
    of_function.get(access.instr as usize).copied()
}

fn first_of(code: &Code, firsts: &[List<usize>], access: AccessAt) -> u32
    requires firsts { HaveFirsts code.now firsts.now }
    requires within { access.instr < length (spec.instrs_of code.now access.function) }
    ensures { result ≡ spec.block_at (spec.instrs_of code.now access.function) access.instr }
{
    match block_of(firsts, access) {
        Some(first) => first as u32,
        None => access.instr,
    }
}

// Whether the access is in the block of the function that begins there.
fn is_in(firsts: &[List<usize>], access: AccessAt, function: u32, block: u32) -> bool
    ensures { result ≡ is_in_block firsts.now access function block }
{
    match block_of(firsts, access) {
        Some(first) => access.function == function && first == block as usize,
        None => false,
    }
}

// Whether an access is listed at the place, and is in the block.
fn stands_at(
    firsts: &[List<usize>],
    listed: &[AccessAt],
    at: usize,
    function: u32,
    block: u32,
) -> bool
    ensures { result ≡ holds_in_block firsts.now (slice_get listed.now at) function block }
{
    match listed.get(at) {
        Some(access) => is_in(firsts, *access, function, block),
        None => false,
    }
}

/// The grain of an access by all those that may be guarded with their blocks, of which it is one: its block's, from the
/// first of them there, where another is there too.
pub(crate) fn block_grain(
    code: &Code,
    firsts: &[List<usize>],
    narrow: &[AccessAt],
    access: AccessAt,
) -> Grain
    requires firsts { HaveFirsts code.now firsts.now }
    requires ascending { ascend narrow.now ≡ true }
    requires listed { is_listed narrow.now access ≡ true }
    requires within { access.instr < length (spec.instrs_of code.now access.function) }
    ensures { result ≡ spec.together (beside code.now narrow.now access) }
{
    let function = access.function;
    let instr = first_of(code, firsts, access);
    let at = place_of(narrow, &AccessAt { function, instr });
    if stands_at(firsts, narrow, at + 1, function, instr) {
        Grain::Block(narrow[at].instr)
    } else {
        Grain::Instruction
    }
}

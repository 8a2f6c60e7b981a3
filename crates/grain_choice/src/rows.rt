// The grains of racy accesses.
ghost use Rattle.std.specs.Prelude.{◌≡◌, if◌then◌else◌, true, None, filter, map, IfOk};
ghost use Rattle.facts.specs.Pairs.{act_of};
ghost use Rattle.weak_lock_facts.specs.Grains as spec;
ghost use Rattle.weak_lock_facts.specs.Grains.{AreGrains};
ghost use Rattle.grain_choice.specs.Chosen.{may_share, IsBasis, IsBasisOf, grain_by, row_by};
ghost use Rattle.grain_choice.specs.Listed.{is_listed};
ghost use Rattle.grain_choice.specs.Loops.{loop_at};
ghost use Rattle.grain_choice.specs.Tables.{beside};

use crate::accesses::{has, racy};
use crate::blocks::{block_firsts, block_grain};
use crate::loops::{Loops, loop_of, loops};
use crate::seen::seen;
use facts::{AccessAt, Pair};
use flow_code::{Act, Code};
use profiles::Profile;
use rr_base::List;
use std::alloc::{AllocError, Global};
use weak_lock_facts::{Grain, Grained, Grains, Range};

/// What grains are read from: the accesses of pairs of which the profile has the functions, the loops of those with known
/// ranges, the accesses that may be guarded with their blocks, and the first instruction of each instruction's block.
#[derive(Drop)]
pub(crate) struct Basis {
    pub met: Vec<AccessAt>,
    pub loops: Loops,
    pub narrow: Vec<AccessAt>,
    pub firsts: List<List<usize>>,
}

fn is_load_or_store(code: &Code, access: AccessAt) -> bool
    ensures { result ≡ spec.is_load_or_store (act_of code.now access) }
{
    let Some(function) = code.functions.get(access.function as usize) else {
        return false;
    };
    let Some(instr) = function.instrs.get(access.instr as usize) else {
        return false;
    };
    matches!(instr.act, Act::LoadCell { .. } | Act::StoreCell { .. })
}

// Whether an access that has no function grain may be guarded with its block.
fn is_narrow(code: &Code, loops: &Loops, access: AccessAt) -> bool
    ensures { result ≡ may_share code.now loops.now access }
{
    loop_of(loops, access).is_none() && is_load_or_store(code, access)
}

fn narrow_of(
    alloc: Global,
    code: &Code,
    met: &[AccessAt],
    loops: &Loops,
) -> Result<Vec<AccessAt>, AllocError>
    ensures { IfOk result (λ v. v.items ≡ filter (λ a. may_share code.now loops.now a) met.now) }
{
    met.iter()
        .copied()
        .filter(|access| is_narrow(code, loops, *access))
        .collect(alloc)
}

fn narrow_grain(code: &Code, basis: &Basis, access: AccessAt) -> Grain
    requires basis { IsBasis code.now basis.now }
    requires met { is_listed basis.now.met.items access ≡ true }
    requires loops { loop_at basis.now.loops access ≡ None }
    ensures { result ≡ (if spec.is_load_or_store (act_of code.now access) then spec.together (beside code.now basis.now.narrow.items access) else Grain.Instruction) }
{
    if is_load_or_store(code, access) {
        block_grain(code, basis.firsts.as_slice(), &basis.narrow, access)
    } else {
        Grain::Instruction
    }
}

fn grain(code: &Code, basis: &Basis, access: AccessAt) -> Grain
    requires { IsBasis code.now basis.now }
    ensures { result ≡ grain_by code.now basis.now access }
{
    if !has(&basis.met, access) {
        return Grain::Function;
    }
    match loop_of(&basis.loops, access) {
        Some(at) => Grain::Loop(at),
        None => narrow_grain(code, basis, access),
    }
}

fn rows(
    alloc: Global,
    code: &Code,
    basis: &Basis,
    racy: &[AccessAt],
) -> Result<List<Grained>, AllocError>
    requires { IsBasis code.now basis.now }
    ensures { IfOk result (λ rows. rows ≡ map (λ a. row_by code.now basis.now a) racy.now) }
{
    let mut rows = List::new(alloc);
    for access in racy {
        rows.push(Grained {
            access: *access,
            grain: grain(code, basis, *access),
        })?;
    }
    Ok(rows)
}

fn basis_of(
    alloc: Global,
    code: &Code,
    pairs: &[Pair],
    ranges: &[Range],
    profile: &Profile,
) -> Result<Basis, AllocError>
    ensures { IfOk result (λ b. IsBasisOf code.now pairs.now ranges.now profile.now b) }
{
    let seen = seen(alloc, code, pairs, profile)?;
    let met = racy(alloc, &seen)?;
    let loops = loops(alloc, ranges)?;
    let narrow = narrow_of(alloc, code, &met, &loops)?;
    let firsts = block_firsts(alloc, code)?;
    Ok(Basis {
        met,
        loops,
        narrow,
        firsts,
    })
}

/// The grain at which each racy access is guarded, by function and then by instruction: its function, if the profile has
/// the two functions of no pair in which it stands; else its counted loop, if its range is known; else its block, if that
/// has another such load or store; else the access alone.
pub fn choose(
    alloc: Global,
    code: &Code,
    pairs: &List<Pair>,
    ranges: &List<Range>,
    profile: &Profile,
) -> Result<Grains, AllocError>
    ensures { IfOk result (λ g. AreGrains code.now pairs.now ranges.now profile.now g.rows) }
{
    let racy = racy(alloc, pairs.as_slice())?;
    let basis = basis_of(alloc, code, pairs.as_slice(), ranges.as_slice(), profile)?;
    let rows = rows(alloc, code, &basis, &racy)?;
    Ok(Grains { rows })
}

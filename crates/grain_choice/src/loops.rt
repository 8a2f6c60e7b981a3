// The loops of accesses whose ranges are known.
ghost use Rattle.std.specs.Prelude.{◌≡◌, ◌∷◌, [], IfOk, OnOk};
ghost use Rattle.std.specs.BTreeMap as tree;
ghost use Rattle.facts.specs.declared.pair.AccessAt.{AccessAt};
ghost use Rattle.weak_lock_facts.specs.Grains as spec;
ghost use Rattle.grain_choice.specs.Loops.{loop_at, first_of};

use facts::AccessAt;
use std::alloc::{AllocError, Global};
use std::collections::BTreeMap;
use weak_lock_facts::Range;

/// The Mark of the loop of each range's access, by the access's function and instruction.
pub(crate) type Loops = BTreeMap<(u32, u32), u32>;

fn put(loops: &mut Loops, range: &Range) -> Result<(), AllocError>
    ensures { OnOk result ((a : AccessAt) → loop_at loops.new a ≡ first_of (loop_at loops.old a) (spec.loop_of (range.now ∷ []) a)) }
{
    let access = (range.function, range.instr);
    if !loops.contains_key(&access) {
        loops.insert(access, range.loop_at)?;
    }
    Ok(())
}

/// The loop of each access that a range is of: that of its first range.
pub(crate) fn loops(alloc: Global, ranges: &[Range]) -> Result<Loops, AllocError>
    ensures { IfOk result (λ m. (a : AccessAt) → loop_at m a ≡ spec.loop_of ranges.now a) }
{
    let mut loops = BTreeMap::new(alloc);
    for range in ranges {
        put(&mut loops, range)?;
    }
    Ok(loops)
}

/// The loop of an access.
pub(crate) fn loop_of(loops: &Loops, access: AccessAt) -> Option<u32>
    ensures { result ≡ loop_at loops.now access }
{
    loops.get(&(access.function, access.instr)).copied()
}

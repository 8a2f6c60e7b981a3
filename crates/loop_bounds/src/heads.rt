//! The first of a function's loops that begins at each place.
ghost use Rattle.std.specs.Prelude.{◌≡◌, ◌==◌, ℕ, Some, if◌then◌else◌, nat_eq, IfOk, OnOk};
ghost use Rattle.std.specs.HashMap.{get};
ghost use Rattle.loop_bounds.specs.Tables.{AreHeads};

use flow_code::LoopInfo;
use std::alloc::{AllocError, Global};
use std::collections::HashMap;

/// The first of the loops that begins at each place where one does.
pub type Heads = HashMap<usize, LoopInfo>;

// One more loop, in front of the others.
fn put(heads: &mut Heads, head: LoopInfo) -> Result<(), AllocError>
    ensures { OnOk result ((m : ℕ) → get nat_eq heads.new m ≡ (if head.at == m then Some head else get nat_eq heads.old m)) }
{
    heads.insert(head.at as usize, head)?;
    Ok(())
}

/// The first of these loops that begins at each place.
pub fn heads_of(alloc: Global, loops: &[LoopInfo]) -> Result<Heads, AllocError>
    ensures { IfOk result (λ heads. AreHeads loops.now heads) }
{
    let mut heads = HashMap::new(alloc);
    let mut place = loops.len();
    while place > 0 {
        place -= 1;
        put(&mut heads, loops[place])?;
    }
    Ok(heads)
}

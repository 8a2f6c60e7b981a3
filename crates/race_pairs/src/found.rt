// Pairs in the making, which may be found several times.
ghost use Rattle.std.specs.Prelude.{◌≡◌, ◌↔◌, true, IfOk, OnOk};
ghost use Rattle.std.specs.List.{Contains};
ghost use Rattle.facts.specs.declared.pair.Pair.{Pair};
ghost use Rattle.facts.specs.Pairs.{pairs_ascend};
ghost use Rattle.race_pairs.specs.Gains.{Gains};

use facts::Pair;
use rr_base::List;
use std::alloc::AllocError;

fn drop_repetitions(found: &mut Vec<Pair>) -> Result<(), AllocError>
    ensures ascending { OnOk result (pairs_ascend found.new.items ≡ true) }
    ensures same { OnOk result ((p : Pair) → Contains found.new.items p ↔ Contains found.old.items p) }
{
    found.sort_by_key(|pair| (pair.place, pair.first, pair.second))?;
    found.dedup();
    Ok(())
}

/// Drops repetitions, and asks for more memory where most pairs are left.
fn make_room(found: &mut Vec<Pair>) -> Result<(), AllocError>
    ensures { OnOk result ((p : Pair) → Contains found.new.items p ↔ Contains found.old.items p) }
{
    drop_repetitions(found)?;
    let count = found.len();
    found.reserve(count)?;
    Ok(())
}

fn keep_room(found: &mut Vec<Pair>) -> Result<(), AllocError>
    ensures { OnOk result ((p : Pair) → Contains found.new.items p ↔ Contains found.old.items p) }
{
    if found.len() == found.capacity() {
        make_room(found)?;
    }
    Ok(())
}

/// Adds a pair. However often pairs are found, they take no more than a few times their own room.
pub(crate) fn add_pair(found: &mut Vec<Pair>, pair: Pair) -> Result<(), AllocError>
    ensures { OnOk result (Gains (λ p. p ≡ pair) found.old.items found.new.items) }
{
    keep_room(found)?;
    found.push(pair)?;
    Ok(())
}

/// Each of the pairs once, in order.
pub(crate) fn each_once(found: Vec<Pair>) -> Result<List<Pair>, AllocError>
    ensures ascending { IfOk result (λ vs. pairs_ascend vs ≡ true) }
    ensures same { IfOk result (λ vs. (p : Pair) → Contains vs p ↔ Contains found.items p) }
{
    let mut found = found;
    drop_repetitions(&mut found)?;
    Ok(List::from_vec(found))
}

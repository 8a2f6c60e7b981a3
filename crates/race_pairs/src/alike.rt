// Which accesses belong to one group.
ghost use Rattle.std.specs.Prelude.{◌≡◌, ◌↔◌, IsTrue};
ghost use Rattle.std.specs.Option.{option_copied};
ghost use Rattle.race_pairs.specs.Races as races;
ghost use Rattle.race_pairs.specs.Groups.{Alike};

use crate::touch::{Reached, Touch};
use facts::{Guarded, Held, Summary};
use rr_base::List;

/// The access in the summary of its root.
pub(crate) fn guarded_at<'a>(summaries: &'a [Summary], access: &Reached) -> Option<&'a Guarded>
    ensures { option_copied result ≡ races.guarded_at summaries.now access.now }
{
    summaries.get(access.root)?.guarded.get(access.index)
}

/// Its root, if no two threads begin with it.
pub(crate) fn alone(access: &Reached) -> Option<usize>
    ensures { result ≡ races.alone access.now }
{
    if access.is_main {
        Some(access.root)
    } else {
        None
    }
}

fn same_root(access: &Reached, other: &Reached) -> bool
    ensures { IsTrue result ↔ (races.alone access.now ≡ races.alone other.now) }
{
    alone(access) == alone(other)
}

fn same_locks(locks: &[Held], others: &[Held]) -> bool
    ensures { IsTrue result ↔ (locks.now ≡ others.now) }
{
    locks == others
}

/// Whether the two touch one place, and may race with the same accesses by their roots, kinds and locks.
pub(crate) fn are_alike(summaries: &[Summary], touch: &Touch, other: &Touch) -> bool
    ensures { IsTrue result ↔ Alike summaries.now touch.now other.now }
{
    match (
        guarded_at(summaries, &touch.access),
        guarded_at(summaries, &other.access),
    ) {
        (Some(x), Some(y)) => {
            touch.place == other.place
                && same_root(&touch.access, &other.access)
                && x.store == y.store
                && same_locks(x.plus.as_slice(), y.plus.as_slice())
        }
        _ => false,
    }
}

// Whether the accesses of two groups may be at work at once, with no lock that keeps them apart.
ghost use Rattle.std.specs.Prelude.{◌≡◌, ◌↔◌, [], IfOk, IsTrue, OnOk};
ghost use Rattle.std.specs.List.{Contains};
ghost use Rattle.std.specs.List.Sorted.{IsNonDecreasing};
ghost use Rattle.race_pairs.specs.Gains.{Gains};
ghost use Rattle.race_pairs.specs.Groups.{AreLocksInOrder};
ghost use Rattle.race_pairs.specs.Races as races;
ghost use Rattle.race_pairs.specs.Races.{held_cell};

use crate::touch::Group;
use facts::{Held, LockPath};
use rr_base::List;
use std::alloc::{AllocError, Global};
use sync_objects::Mode;

fn push_cell(cells: &mut Vec<u32>, held: Held, mode: Mode) -> Result<(), AllocError>
    ensures { OnOk result (Gains (λ n. held ≡ held_cell mode n) cells.old.items cells.new.items) }
{
    if held.mode != mode {
        return Ok(());
    }
    match held.path {
        LockPath::Cell(cell) => {
            cells.push(cell)?;
            Ok(())
        }
        LockPath::Formal { .. } => Ok(()),
    }
}

fn cells_in(alloc: Global, locks: &[Held], mode: Mode) -> Result<Vec<u32>, AllocError>
    ensures { IfOk result (λ v. Gains (λ n. Contains locks.now (held_cell mode n)) [] v.items) }
{
    let mut cells = Vec::new(alloc);
    for held in locks {
        push_cell(&mut cells, *held, mode)?;
    }
    Ok(cells)
}

/// The cells of the global locks that are held in a mode, in order.
pub(crate) fn lock_cells(alloc: Global, locks: &[Held], mode: Mode) -> Result<List<u32>, AllocError>
    ensures ascend { IfOk result (λ cells. IsNonDecreasing cells) }
    ensures cells { IfOk result (λ cells. Gains (λ n. Contains locks.now (held_cell mode n)) [] cells) }
{
    let mut cells = cells_in(alloc, locks, mode)?;
    cells.sort_unstable();
    Ok(List::from_vec(cells))
}

fn has(cells: &[u32], cell: u32) -> bool
    requires { IsNonDecreasing cells.now }
    ensures { IsTrue result ↔ Contains cells.now cell }
{
    cells.binary_search(&cell).is_ok()
}

fn share_lock(cells: &[u32], others: &[u32]) -> bool
    requires { IsNonDecreasing others.now }
    ensures { IsTrue result ↔ races.Meet cells.now others.now }
{
    for cell in cells {
        if has(others, *cell) {
            return true;
        }
    }
    false
}

fn may_meet(root: Option<usize>, other: Option<usize>) -> bool
    ensures { result ≡ races.may_meet root other }
{
    match (root, other) {
        (Some(a), Some(b)) => a != b,
        _ => true,
    }
}

// Whether one holds a lock for writing that the other holds too.
fn exclude(group: &Group, other: &Group) -> bool
    requires { AreLocksInOrder other.now }
    ensures { IsTrue result ↔ races.Exclude group.now other.now }
{
    share_lock(group.writing.as_slice(), other.reading.as_slice())
        || share_lock(group.reading.as_slice(), other.writing.as_slice())
}

/// Whether accesses of the two may be at work at once, one of them a store, with no lock that keeps them apart.
pub(crate) fn may_race(group: &Group, other: &Group) -> bool
    requires { AreLocksInOrder other.now }
    ensures { IsTrue result ↔ races.AreRacing group.now other.now }
{
    may_meet(group.alone, other.alone) && (group.store || other.store) && !exclude(group, other)
}

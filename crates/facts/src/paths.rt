//! The order of paths and of locks that are held, and the paths of a called function as its caller sees them.
ghost use Rattle.std.specs.Prelude.{◌≡◌, ◌<◌, ◌^◌, Some, true};
ghost use Rattle.facts.specs.Paths as spec;
ghost use Rattle.facts.specs.Locks.{is_less as is_less_of, is_same as is_same_of, mode_less, held_less, held_same};

use crate::locks::{Held, LockPath};
use crate::sets::SetItem;
use sync_objects::Mode;

// No object has more cells.
const MOST_CELLS: u32 = 65_535;

/// Cells come first, then formals by index and offset.
impl SetItem for LockPath {
    ghost less = { is_less_of };

    ghost same = { is_same_of };

    fn is_less(self, other: LockPath) -> bool {
        match (self, other) {
            (LockPath::Cell(a), LockPath::Cell(b)) => a < b,
            (LockPath::Cell(_), LockPath::Formal { .. }) => true,
            (LockPath::Formal { .. }, LockPath::Cell(_)) => false,
            (
                LockPath::Formal {
                    index: i,
                    offset: m,
                },
                LockPath::Formal {
                    index: j,
                    offset: n,
                },
            ) => i < j || (i == j && m < n),
        }
    }

    fn is_same(self, other: LockPath) -> bool {
        match (self, other) {
            (LockPath::Cell(a), LockPath::Cell(b)) => a == b,
            (
                LockPath::Formal {
                    index: i,
                    offset: m,
                },
                LockPath::Formal {
                    index: j,
                    offset: n,
                },
            ) => i == j && m == n,
            _ => false,
        }
    }
}

// Whether the first is Read and the second Write.
fn mode_is_less(mode: Mode, other: Mode) -> bool
    ensures { result ≡ mode_less mode other }
{
    matches!((mode, other), (Mode::Read, Mode::Write))
}

/// Locks come by path, then Read before Write.
impl SetItem for Held {
    ghost less = { held_less };

    ghost same = { held_same };

    fn is_less(self, other: Held) -> bool {
        self.path.is_less(other.path)
            || (self.path.is_same(other.path) && mode_is_less(self.mode, other.mode))
    }

    fn is_same(self, other: Held) -> bool {
        self.path.is_same(other.path) && self.mode == other.mode
    }
}

impl LockPath {
    /// Whether the two may lead to one lock.
    pub fn may_be(self, other: LockPath) -> bool
        ensures { result ≡ spec.may_be self other }
    {
        match (self, other) {
            (LockPath::Cell(a), LockPath::Cell(b)) => a == b,
            (
                LockPath::Formal {
                    index: i,
                    offset: m,
                },
                LockPath::Formal {
                    index: j,
                    offset: n,
                },
            ) => i != j || m == n,
            _ => true,
        }
    }

    /// Whether it can lead to a cell: no object has more than 65,535.
    pub fn names_cell(self) -> bool
        ensures { result ≡ spec.names_cell self }
    {
        match self {
            LockPath::Cell(_) => true,
            LockPath::Formal { index: _, offset } => offset <= MOST_CELLS,
        }
    }
}

// The path so many cells after what is known of an argument.
fn following(actual: Option<LockPath>, offset: u32) -> Option<LockPath>
    requires small { spec.is_small_actual actual ≡ true }
    requires offset { offset < 2 ^ 31 }
    ensures { result ≡ spec.following offset (Some actual) }
{
    match actual {
        Some(LockPath::Cell(cell)) => Some(LockPath::Cell(cell + offset)),
        Some(
            LockPath::Formal {
                index,
                offset: before,
            },
        ) => Some(LockPath::Formal {
            index,
            offset: before + offset,
        }),
        None => None,
    }
}

/// A path of a called function as the caller sees it, where these are known of its arguments.
pub fn substitute(path: LockPath, actuals: &[Option<LockPath>]) -> Option<LockPath>
    requires path { spec.is_small path ≡ true }
    requires actuals { spec.are_small_actuals actuals.now ≡ true }
    ensures { result ≡ spec.substituted path actuals.now }
{
    match path {
        LockPath::Cell(_) => Some(path),
        LockPath::Formal { index, offset } => match actuals.get(index as usize) {
            Some(actual) => following(*actual, offset),
            None => None,
        },
    }
}

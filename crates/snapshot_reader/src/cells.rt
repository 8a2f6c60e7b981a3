// The lines of cells.
ghost use Rattle.std.specs.Prelude.{◌≡◌, None};
ghost use Rattle.core_run.specs.Words.{cells_of};
ghost use Rattle.snapshots.specs.Conditions as conditions;
ghost use Rattle.snapshot_reader.specs.Misfits.{Misfits};

use crate::order::is_after;
use flow_code::Code;
use sync_objects::Setup;

fn cell_fits(code: &Code, setup: &Setup, cells: u32, before: Option<u64>, cell: &(u32, u64)) -> bool
    requires { cells ≡ cells_of code.now setup.now }
    ensures { result ≡ conditions.cell_fits code.now setup.now before cell.now }
{
    cell.0 < cells && is_after(before, u64::from(cell.0)) && cell.1 != 0
}

/// The line of the first cell that isn't as it must be.
pub fn misfit_cell(
    code: &Code,
    setup: &Setup,
    cells: u32,
    first: u32,
    listed: &[(u32, u64)],
) -> Option<u32>
    requires { cells ≡ cells_of code.now setup.now }
    ensures { Misfits (conditions.cells_judged code.now setup.now None listed.now) first result }
{
    let mut line = first;
    let mut before = None;
    let mut rest = listed;
    while let [cell, more @ ..] = rest {
        if !cell_fits(code, setup, cells, before, cell) {
            return Some(line);
        }
        before = Some(u64::from(cell.0));
        line = line.saturating_add(1);
        rest = more;
    }
    None
}

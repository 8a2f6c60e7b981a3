//! The layout of an object of a named type (C99 6.7.6).
ghost use Rattle.std.specs.Prelude.{◌≡◌, IfOk};
ghost use Rattle.c_tree.specs.View.{program_of};
ghost use Rattle.c_sites.specs.Layouts as spec;
ghost use Rattle.c_types.specs.Shown.{shown_maybe};
ghost use Rattle.c_names.specs.Table.{known_of};

use crate::sites::{is_laid_out, kinds_of_structs, sizes_of};
use c_locals::Marks;
use c_names::Table;
use c_spots::{object_of, spots_in};
use c_tree::{CType, Program};
use c_types::{TypeRef, is_complete, layout_of_type, type_named};
use rr_base::{CellKind, Layout, List};
use std::alloc::{AllocError, Global};

fn layout_in(
    alloc: Global,
    table: &Table,
    structs: &[List<CellKind>],
    of: Option<TypeRef>,
) -> Result<Option<Layout>, AllocError>
    ensures { IfOk result (λ l. l ≡ spec.layout_in (known_of table.now) structs.now (shown_maybe of.entry)) }
{
    let Some(of) = of else {
        return Ok(None);
    };
    let is_complete = is_complete(table, of);
    let of = object_of(alloc, of)?;
    let sizes = sizes_of(alloc, structs)?;
    if is_complete && is_laid_out(&of, structs, sizes.as_slice()) {
        let layout = layout_of_type(alloc, &of, structs)?;
        return Ok(Some(layout));
    }
    Ok(None)
}

/// The layout of an object of the type, with the structs that the table knows.
fn layout_after(alloc: Global, table: &Table, of: &CType) -> Result<Option<Layout>, AllocError>
    ensures { IfOk result (λ l. l ≡ spec.layout_after (known_of table.now) of.now) }
{
    let structs = kinds_of_structs(alloc, table)?;
    layout_in(alloc, table, structs.as_slice(), type_named(table, of))
}

/// The layout of an object of the type, where the structs are those of a source. There is none if the type isn't
/// complete, as where it is Void or a struct that the source doesn't define, or has more than `MAX_CELLS` cells.
///
/// # Errors
///
/// Only when memory runs out.
pub fn layout_of(alloc: Global, program: &Program, of: &CType) -> Result<Option<Layout>, AllocError>
    ensures { IfOk result (λ l. l ≡ spec.layout_named (program_of program.now) of.now) }
{
    let marks = Marks::of(alloc, List::new(alloc))?;
    let (table, _) = spots_in(alloc, &marks, program)?;
    layout_after(alloc, &table, of)
}

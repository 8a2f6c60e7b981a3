//! The sites of a source: the name and the layout of all that has cells of its own.
ghost use Rattle.std.specs.Prelude.{◌≡◌, ◌++◌, codes, length, map, slice_get, IfOk, OnOk};
ghost use Rattle.c_tree.specs.View.{program_of};
ghost use Rattle.c_types.specs.Found.{first_among};
ghost use Rattle.c_types.specs.Scopes.{members_of, counted_cells};
ghost use Rattle.c_types.specs.Shown.{shown_maybe};
ghost use Rattle.c_spots.specs.Spots.{outers_spots, program_spots};
ghost use Rattle.c_spots.specs.SpotViews.{shown_holder, shown_spot};
ghost use Rattle.c_sites.specs.Sites as spec;
ghost use Rattle.c_names.specs.Known.{known_at_start};
ghost use Rattle.c_names.specs.Table.{known_of};
ghost use Rattle.c_types.specs.Types.{struct_kinds};
ghost use Rattle.c_sites.specs.Whole as whole;

use c_locals::{Marks, addressed_in};
use c_names::Table;
use c_spots::{Holder, Spot, advance, object_of, spots_in};
use c_tree::Program;
use c_types::{
    FaultKind, Found, MAX_CELLS, Names, ObjectType, TypeRef, cells_of, cells_of_structs,
    element_of, layout_of_type, note,
};
use rr_base::{Bytes, CellKind, Layout, List, Position, Site, push_numbered};
use std::alloc::{AllocError, Global};

fn with_place(mut text: Bytes, at: Position) -> Result<Bytes, AllocError>
    ensures { IfOk result (λ it. it ≡ spec.at_place text at) }
{
    let line = u64::from(at.line);
    let column = u64::from(at.column);
    push_numbered(&mut text, b"@", line)?;
    push_numbered(&mut text, b":", column)?;
    Ok(text)
}

fn local_name(
    alloc: Global,
    function: &[u8],
    name: &[u8],
    at: Position,
) -> Result<Bytes, AllocError>
    ensures { IfOk result (λ it. it ≡ spec.local_name function.now name.now at) }
{
    let mut text = Bytes::from_slice(alloc, function)?;
    text.push(b'.')?;
    text.extend_from_slice(name)?;
    with_place(text, at)
}

fn allocation_name(alloc: Global, at: Position) -> Result<Bytes, AllocError>
    ensures { IfOk result (λ it. it ≡ spec.at_place (codes "malloc") at) }
{
    let text = Bytes::from_slice(alloc, b"malloc")?;
    with_place(text, at)
}

fn site_name(alloc: Global, holder: Holder, at: Position) -> Result<Bytes, AllocError>
    ensures { IfOk result (λ it. it ≡ spec.site_name (shown_holder holder.entry) at) }
{
    match holder {
        Holder::Global(name) => Bytes::from_slice(alloc, name),
        Holder::Local(function, name) => local_name(alloc, function, name, at),
        Holder::Allocation => allocation_name(alloc, at),
    }
}

/// How many cells each struct has; `MAX_CELLS + 1` where there are more.
pub fn sizes_of(alloc: Global, structs: &[List<CellKind>]) -> Result<List<u32>, AllocError>
    ensures { IfOk result (λ sizes. sizes ≡ map (λ kinds. counted_cells (length kinds)) structs.now) }
{
    let mut sizes = List::new(alloc);
    for kinds in structs {
        let cells = kinds.len().min(MAX_CELLS as usize + 1);
        sizes.push(cells as u32)?;
    }
    Ok(sizes)
}

/// Whether all of the type's cells are known.
pub fn is_laid_out(of: &ObjectType, structs: &[List<CellKind>], sizes: &[u32]) -> bool
    requires { sizes.now ≡ map (λ kinds. counted_cells (length kinds)) structs.now }
    ensures { result ≡ spec.is_laid_out structs.now of.now }
{
    let element = element_of(of.layers.as_slice(), of.base, structs);
    cells_of(of, sizes) <= MAX_CELLS && element <= MAX_CELLS as usize
}

fn layout_of(
    alloc: Global,
    of: &Option<ObjectType>,
    structs: &[List<CellKind>],
    sizes: &[u32],
) -> Result<Layout, AllocError>
    requires { sizes.now ≡ map (λ kinds. counted_cells (length kinds)) structs.now }
    ensures { IfOk result (λ layout. layout ≡ spec.layout_by structs.now of.now) }
{
    if let Some(of) = of {
        if is_laid_out(of, structs, sizes) {
            return layout_of_type(alloc, of, structs);
        }
    }
    Ok(Layout {
        size: 0,
        element: 0,
        kinds: List::new(alloc),
    })
}

fn site_of(
    alloc: Global,
    spot: &Spot,
    structs: &[List<CellKind>],
    sizes: &[u32],
) -> Result<Site, AllocError>
    requires { sizes.now ≡ map (λ kinds. counted_cells (length kinds)) structs.now }
    ensures { IfOk result (λ site. site ≡ spec.site_of structs.now (shown_spot spot.now)) }
{
    let name = site_name(alloc, spot.holder, spot.at)?;
    let layout = layout_of(alloc, &spot.of, structs, sizes)?;
    Ok(Site {
        name,
        layout,
        at: spot.at,
    })
}

fn sites_at(
    alloc: Global,
    spots: &[Spot],
    structs: &[List<CellKind>],
) -> Result<List<Site>, AllocError>
    ensures { IfOk result (λ sites. sites ≡ map (spec.site_of structs.now) (map shown_spot spots.now)) }
{
    let sizes = sizes_of(alloc, structs)?;
    let mut sites = List::new(alloc);
    for spot in spots {
        let site = site_of(alloc, spot, structs, sizes.as_slice())?;
        sites.push(site)?;
    }
    Ok(sites)
}

fn push_type(
    alloc: Global,
    of: Option<TypeRef>,
    types: &mut List<ObjectType>,
) -> Result<(), AllocError>
    ensures { OnOk result (types.new ≡ types.old ++ spec.known_type (shown_maybe of.entry)) }
{
    match of {
        None => Ok(()),
        Some(of) => {
            let of = object_of(alloc, of)?;
            types.push(of)
        }
    }
}

/// The types of the members of a struct, where they have one.
fn types_of_struct<N: Names>(
    alloc: Global,
    names: &N,
    number: usize,
) -> Result<List<ObjectType>, AllocError>
    ensures { IfOk result (λ types. types ≡ spec.known_types (members_of (slice_get (N.known names.now).structs number))) }
{
    let mut types = List::new(alloc);
    let mut index = 0;
    'members: loop {
        match names.member_at(number, index) {
            None => return Ok(types),
            Some(of) => {
                push_type(alloc, of, &mut types)?;
                advance(&mut index)?;
            }
        }
    }
}

fn types_of_structs(alloc: Global, table: &Table) -> Result<List<List<ObjectType>>, AllocError>
    ensures { IfOk result (λ types. types ≡ map spec.types_of_members (known_of table.now).structs) }
{
    let mut all = List::new(alloc);
    for number in 0..table.struct_count() {
        let types = types_of_struct(alloc, table, number)?;
        all.push(types)?;
    }
    Ok(all)
}

/// The greatest number of sites.
const MAX_SITES: usize = 1023;

fn note_too_many(spots: &[Spot], first: &mut Option<Found>)
    ensures { first.new ≡ first_among first.old (whole.sites_faults (map shown_spot spots.now)) }
{
    match spots.get(MAX_SITES) {
        None => {}
        Some(spot) => note(first, true, FaultKind::TooManySites, spot.at),
    }
}

/// Notes the first site of a source that is one too many.
pub fn note_sites(
    alloc: Global,
    program: &Program,
    first: &mut Option<Found>,
) -> Result<(), AllocError>
    ensures { OnOk result (first.new ≡ first_among first.old (whole.sites_faults (program_spots (program_of program.now)))) }
{
    let marks = addressed_in(alloc, program)?;
    let (_, spots) = spots_in(alloc, &marks, program)?;
    note_too_many(spots.as_slice(), first);
    Ok(())
}

/// The cells of each struct that is defined before the place.
pub fn kinds_of_structs(alloc: Global, table: &Table) -> Result<List<List<CellKind>>, AllocError>
    ensures { IfOk result (λ kinds. kinds ≡ struct_kinds (map spec.types_of_members (known_of table.now).structs)) }
{
    let types = types_of_structs(alloc, table)?;
    let kinds = cells_of_structs(alloc, types.as_slice())?;
    Ok(kinds)
}

// The sites of a source, where those are marked to which `&` is applied.
fn marked_sites(alloc: Global, marks: &Marks, program: &Program) -> Result<List<Site>, AllocError>
    ensures { IfOk result (λ sites. sites ≡ map (spec.site_of (spec.kinds_of_structs (program_of program.now))) (outers_spots marks.now.numbers (known_at_start (program_of program.now)) 0 (program_of program.now))) }
{
    let (table, spots) = spots_in(alloc, marks, program)?;
    let kinds = kinds_of_structs(alloc, &table)?;
    sites_at(alloc, spots.as_slice(), kinds.as_slice())
}

/// The sites of a source without a fault, in the order of the text.
///
/// # Errors
///
/// Only when memory runs out.
pub fn sites_of(alloc: Global, program: &Program) -> Result<List<Site>, AllocError>
    ensures { IfOk result (λ sites. sites ≡ spec.program_sites (program_of program.now)) }
{
    let marks = addressed_in(alloc, program)?;
    marked_sites(alloc, &marks, program)
}

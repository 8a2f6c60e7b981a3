//! The cells of which the objects of a type consist, and where its members lie (C99 6.2.5, 6.5.3.4, 6.7.2.1).
ghost use Rattle.std.specs.Prelude.{◌≡◌, ◌++◌, ◌≤◌, ◌+◌, length, min, IfOk, OnOk, [], map};
ghost use Rattle.c_types.specs.Types.{kinds_of_type, layered_kinds, base_kinds, layered_element, layout_of_type, members_kinds, kinds_after, struct_kinds, repeated, size_of_type, layered_size, base_size};

use crate::types::{BaseType, Layer, ObjectType};
use rr_base::{CellKind, Layout, List};
use std::alloc::{AllocError, Global};

/// The greatest number of cells that one object may have.
pub const MAX_CELLS: u32 = 65_535;

fn put_base(
    out: &mut List<CellKind>,
    base: BaseType,
    structs: &[List<CellKind>],
) -> Result<(), AllocError>
    ensures { OnOk result (out.new ≡ out.old ++ base_kinds structs.now base) }
{
    match base {
        BaseType::Int => out.push(CellKind::Whole),
        BaseType::Void => Ok(()),
        BaseType::Struct(number) => match structs.get(number) {
            Some(kinds) => out.extend_from_slice(kinds.as_slice()),
            None => Ok(()),
        },
        BaseType::Function(_) => out.push(CellKind::Whole),
        BaseType::Mutex => out.push(CellKind::Mutex),
        BaseType::Cond => out.push(CellKind::Cond),
        BaseType::Barrier => out.push(CellKind::Barrier),
        BaseType::RwLock => out.push(CellKind::Rw),
    }
}

/// Adds the kinds of the cells of a type to the end.
pub fn put_layered(
    alloc: Global,
    out: &mut List<CellKind>,
    layers: &[Layer],
    base: BaseType,
    structs: &[List<CellKind>],
) -> Result<(), AllocError>
    ensures { OnOk result (out.new ≡ out.old ++ layered_kinds structs.now layers.now base) }
{
    match layers {
        [] => put_base(out, base, structs),
        [Layer::Pointer, ..] => out.push(CellKind::Pointer),
        [Layer::Array(many), rest @ ..] => {
            let mut one = List::new(alloc);
            put_layered(alloc, &mut one, rest, base, structs)?;
            put_repeated(out, *many, one.as_slice())
        }
    }
}

fn put_repeated(out: &mut List<CellKind>, many: u64, kinds: &[CellKind]) -> Result<(), AllocError>
    ensures { OnOk result (out.new ≡ out.old ++ repeated many kinds.now) }
{
    let mut left = many;
    while left > 0 {
        out.extend_from_slice(kinds)?;
        left -= 1;
    }
    Ok(())
}

/// The size of the innermost type that is no array, in cells.
pub fn element_of(layers: &[Layer], base: BaseType, structs: &[List<CellKind>]) -> usize
    ensures { result ≡ layered_element structs.now layers.now base }
{
    match layers {
        [] => cells_of_base(base, structs),
        [Layer::Pointer, ..] => 1,
        [Layer::Array(_), rest @ ..] => element_of(rest, base, structs),
    }
}

fn cells_of_base(base: BaseType, structs: &[List<CellKind>]) -> usize
    ensures { result ≡ length (base_kinds structs.now base) }
{
    match base {
        BaseType::Void => 0,
        BaseType::Struct(number) => match structs.get(number) {
            Some(kinds) => kinds.len(),
            None => 0,
        },
        BaseType::Int
        | BaseType::Function(_)
        | BaseType::Mutex
        | BaseType::Cond
        | BaseType::Barrier
        | BaseType::RwLock => 1,
    }
}

/// The layout of a type whose structs have these cells. The type has at most `MAX_CELLS` cells.
pub fn layout_of_type(
    alloc: Global,
    of: &ObjectType,
    structs: &[List<CellKind>],
) -> Result<Layout, AllocError>
    requires size { length (kinds_of_type structs.now of.now) ≤ MAX_CELLS }
    requires element { layered_element structs.now of.now.layers of.now.base ≤ MAX_CELLS }
    ensures { IfOk result (λ l. l ≡ layout_of_type structs.now of.now) }
{
    let mut kinds = List::new(alloc);
    put_layered(alloc, &mut kinds, of.layers.as_slice(), of.base, structs)?;
    Ok(Layout {
        size: kinds.len() as u32,
        element: element_of(of.layers.as_slice(), of.base, structs) as u32,
        kinds,
    })
}

/// The cells of each struct, from the types of each one's members. A struct holds earlier ones only.
pub fn cells_of_structs(
    alloc: Global,
    structs: &[List<ObjectType>],
) -> Result<List<List<CellKind>>, AllocError>
    ensures { IfOk result (λ cells. cells ≡ struct_kinds structs.now) }
{
    let mut known = List::new(alloc);
    for members in structs {
        let kinds = cells_of_members(alloc, members.as_slice(), known.as_slice())?;
        known.push(kinds)?;
    }
    Ok(known)
}

fn cells_of_members(
    alloc: Global,
    members: &[ObjectType],
    structs: &[List<CellKind>],
) -> Result<List<CellKind>, AllocError>
    ensures { IfOk result (λ kinds. kinds ≡ members_kinds structs.now members.now) }
{
    let mut kinds = List::new(alloc);
    for member in members {
        let layers = member.layers.as_slice();
        put_layered(alloc, &mut kinds, layers, member.base, structs)?;
    }
    Ok(kinds)
}

fn size_of_base(base: BaseType, sizes: &[u32]) -> u32
    ensures { result ≡ base_size sizes.now base }
{
    match base {
        BaseType::Void => 0,
        BaseType::Struct(number) => sizes.get(number).copied().unwrap_or(0),
        BaseType::Int
        | BaseType::Function(_)
        | BaseType::Mutex
        | BaseType::Cond
        | BaseType::Barrier
        | BaseType::RwLock => 1,
    }
}

/// How many cells an object of these layers and this base has; `MAX_CELLS + 1` where there are more.
pub fn cells_of_layered(layers: &[Layer], base: BaseType, sizes: &[u32]) -> u32
    ensures { result ≡ min (layered_size sizes.now layers.now base) (MAX_CELLS + 1) }
{
    match layers {
        [] => size_of_base(base, sizes).min(MAX_CELLS + 1),
        [Layer::Pointer, ..] => 1,
        [Layer::Array(many), rest @ ..] => {
            let limit = u64::from(MAX_CELLS) + 1;
            let one = u64::from(cells_of_layered(rest, base, sizes));
            ((*many).min(limit) * one).min(limit) as u32
        }
    }
}

/// The number of cells of a type, where the structs have these numbers of cells; `MAX_CELLS + 1` where there are more.
pub fn cells_of(of: &ObjectType, sizes: &[u32]) -> u32
    ensures { result ≡ min (size_of_type sizes.now of.now) (MAX_CELLS + 1) }
{
    cells_of_layered(of.layers.as_slice(), of.base, sizes)
}

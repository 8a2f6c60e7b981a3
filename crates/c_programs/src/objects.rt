//! Declarations of objects (C99 6.7).
#![tactic(auto, using(c_types::proofs::First::first_of_both))]

ghost use Rattle.std.specs.Prelude.{◌≡◌, OnOk, IfOk, map};
ghost use Rattle.c_tree.specs.Tree.{initialised};
ghost use Rattle.c_tree.specs.View.{declared_of, init_of, object_of, declares_of};
ghost use Rattle.c_types.specs.Found.{first_among};
ghost use Rattle.c_types.specs.Scopes as scopes;
ghost use Rattle.c_programs.specs.Declarators.{declared_type};
ghost use Rattle.c_programs.specs.Statements as spec;
ghost use Rattle.c_types.specs.Shown.{shown_maybe};
ghost use Rattle.c_names.specs.Table.{known_of};
ghost use Rattle.c_names.specs.Sources.{declared_by};

use crate::declarators::{declared_type, note_declarator, note_size, note_taken};
use crate::initials::note_start;
use crate::structs::cells_of_some;
use c_names::{Declared, Table, declared_name};
use c_rules::{name_place, note_mismatch};
use c_tree::{Declaration, Declarator, Initial, Item, Name, Specifier};
use c_types::{FaultKind, Found, ObjectType, TypeRef, is_main, note};
use rr_base::Position;
use std::alloc::{AllocError, Global};

/// The greatest number of cells that all globals may have.
const MAX_GLOBAL_CELLS: u32 = 1 << 20;

/// The type, borrowed.
pub fn ref_of<'a>(of: &'a Option<ObjectType>) -> Option<TypeRef<'a>>
    ensures { shown_maybe result ≡ of.now }
{
    match of {
        None => None,
        Some(of) => Some(TypeRef::of(of)),
    }
}

/// A copy of the type.
pub fn copy_of(alloc: Global, of: &Option<ObjectType>) -> Result<Option<ObjectType>, AllocError>
    ensures { IfOk result (λ t. t ≡ of.now) }
{
    match of {
        None => Ok(None),
        Some(of) => {
            let copy = of.copied(alloc)?;
            Ok(Some(copy))
        }
    }
}

fn note_global_name(is_global: bool, cells: u32, name: &Name, first: &mut Option<Found>)
    ensures { first.new ≡ first_among first.old (spec.global_name_faults is_global cells name.now) }
{
    if is_global {
        note_mismatch(first, is_main(name.text.as_slice()), name_place(name));
        let comes = cells > MAX_GLOBAL_CELLS;
        note(first, comes, FaultKind::GlobalsTooLarge, name_place(name));
    }
}

/// Notes what is wrong with the declaration of an object of the type.
fn note_declared(
    alloc: Global,
    table: &Table,
    is_global: bool,
    specifier: &Specifier,
    declarator: &Declarator,
    of: &Option<ObjectType>,
    first: &mut Option<Found>,
) -> Result<(), AllocError>
    requires { of.now ≡ declared_type (known_of table.now) specifier.now (declared_of declarator.now) }
    ensures { OnOk result (first.new ≡ first_among first.old (spec.declared_faults (known_of table.now) is_global specifier.now (declared_of declarator.now))) }
{
    let name = declared_name(declarator);
    note_declarator(alloc, table, specifier, declarator, first)?;
    note_taken(table, name, first);
    let cells = cells_of_some(table, of);
    note_size(cells, name, first);
    note_global_name(is_global, table.global_cells_with(cells), name, first);
    Ok(())
}

/// Declares an object of the type.
pub fn declare_object<'a>(
    table: &mut Table<'a>,
    is_global: bool,
    name: &'a Name,
    of: Option<ObjectType>,
) -> Result<(), AllocError>
    ensures { OnOk result (known_of table.new ≡ spec.with_object (known_of table.old) is_global name.now.text of) }
{
    let cells = cells_of_some(&*table, &of);
    table.declare(name.text.as_slice(), Declared::Variable(of))?;
    if is_global {
        table.add_global_cells(cells);
    }
    Ok(())
}

fn note_plain<'a>(
    alloc: Global,
    table: &mut Table<'a>,
    is_global: bool,
    specifier: &Specifier,
    declarator: &'a Declarator,
    first: &mut Option<Found>,
) -> Result<(), AllocError>
    ensures known { OnOk result (known_of table.new ≡ spec.after_declared (known_of table.old) is_global specifier.now (declared_of declarator.now)) }
    ensures first { OnOk result (first.new ≡ first_among first.old (spec.declared_faults (known_of table.old) is_global specifier.now (declared_of declarator.now))) }
{
    let of = declared_type(alloc, &*table, specifier, declarator)?;
    note_declared(alloc, &*table, is_global, specifier, declarator, &of, first)?;
    declare_object(table, is_global, declared_name(declarator), of)
}

/// Declares an object that starts as something. The object is known in its initial value.
fn note_initialised<'a>(
    alloc: Global,
    table: &mut Table<'a>,
    is_global: bool,
    specifier: &Specifier,
    declarator: &'a Declarator,
    initial: &Initial,
    at: Position,
    first: &mut Option<Found>,
) -> Result<(), AllocError>
    ensures known { OnOk result (known_of table.new ≡ spec.after_declared (known_of table.old) is_global specifier.now (declared_of declarator.now)) }
    ensures first { OnOk result (first.new ≡ first_among first.old (spec.object_faults (known_of table.old) is_global specifier.now (initialised (declared_of declarator.now) (init_of initial.now) at))) }
{
    let of = declared_type(alloc, &*table, specifier, declarator)?;
    note_declared(alloc, &*table, is_global, specifier, declarator, &of, first)?;
    let kept = copy_of(alloc, &of)?;
    declare_object(table, is_global, declared_name(declarator), of)?;
    note_start(&*table, is_global, ref_of(&kept), at, initial, first);
    Ok(())
}

/// Declares an object, and notes what is wrong with it.
fn note_object<'a>(
    alloc: Global,
    table: &mut Table<'a>,
    is_global: bool,
    specifier: &Specifier,
    item: &'a Item,
    first: &mut Option<Found>,
) -> Result<(), AllocError>
    ensures known { OnOk result (known_of table.new ≡ spec.after_declared (known_of table.old) is_global specifier.now (declared_by (object_of item.now))) }
    ensures first { OnOk result (first.new ≡ first_among first.old (spec.object_faults (known_of table.old) is_global specifier.now (object_of item.now))) }
{
    match item {
        Item::Plain(declarator) => {
            note_plain(alloc, table, is_global, specifier, declarator, first)
        }
        Item::Initialised {
            declarator,
            initial,
            at,
        } => {
            note_initialised(
                alloc, table, is_global, specifier, declarator, initial, *at, first,
            )
        }
    }
}

/// Declares the objects of one specifier, one after another, and notes what is wrong with them.
pub fn note_objects<'a>(
    alloc: Global,
    table: &mut Table<'a>,
    is_global: bool,
    specifier: &Specifier,
    items: &'a [Item],
    first: &mut Option<Found>,
) -> Result<(), AllocError>
    ensures known { OnOk result (known_of table.new ≡ spec.after_objects (known_of table.old) is_global specifier.now (map object_of items.now)) }
    ensures first { OnOk result (first.new ≡ first_among first.old (spec.objects_faults (known_of table.old) is_global specifier.now (map object_of items.now))) }
{
    for item in items {
        note_object(alloc, table, is_global, specifier, item, first)?;
    }
    Ok(())
}

/// A declaration in a block.
pub fn note_declaration<'a>(
    alloc: Global,
    table: &mut Table<'a>,
    declaration: &'a Declaration,
    first: &mut Option<Found>,
) -> Result<(), AllocError>
    ensures known { OnOk result (known_of table.new ≡ spec.after_declares (known_of table.old) (declares_of declaration.now)) }
    ensures first { OnOk result (first.new ≡ first_among first.old (spec.declares_faults (known_of table.old) (declares_of declaration.now))) }
{
    let items = declaration.items.as_slice();
    note_objects(alloc, table, false, &declaration.specifier, items, first)
}

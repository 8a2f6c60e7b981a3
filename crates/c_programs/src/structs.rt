//! The definitions of structs (C99 6.7.2.1), and which rules they break.
#![tactic(auto, using(c_types::proofs::First::first_of_both))]

ghost use Rattle.std.specs.Prelude.{◌≡◌, ◌≤◌, ◌+◌, map, OnOk};
ghost use Rattle.c_tree.specs.View.{declared_of, fields_of};
ghost use Rattle.c_programs.specs.Declarators as spec;
ghost use Rattle.c_types.specs.Found.{first_among};
ghost use Rattle.c_programs.specs.Members.{shown_members};
ghost use Rattle.c_types.specs.Scopes as scopes;
ghost use Rattle.c_names.specs.Table.{known_of};

use crate::declarators::{declared_type, note_declarator, note_size};
use crate::members::add_member;
use c_names::{Members, Table, declared_name};
use c_rules::name_place;
use c_tree::{Declarator, Member, Name, Specifier};
use c_types::{FaultKind, Found, MAX_CELLS, Names, ObjectType, TypeRef, note};
use indexmap::IndexMap;
use std::alloc::{AllocError, Global};

/// What the declarations of a struct come to: its members, and the cells of all that is declared, up to one more than an object may
/// have.
#[derive(Drop)]
pub(crate) struct Content<'a> {
    pub members: Members<'a>,
    pub cells: u32,
}

/// How many cells an object has; none where its type isn't known.
pub fn cells_of_some<N: Names>(names: &N, of: &Option<ObjectType>) -> u32
    ensures { result ≡ scopes.cells_of_some (N.known names.now) of.now }
{
    match of {
        Some(of) => names.cells_of(TypeRef::of(of)),
        None => 0,
    }
}

/// Adds a member after those that are there, and notes what is wrong with it.
fn note_member<'a, N: Names>(
    alloc: Global,
    names: &N,
    specifier: &Specifier,
    content: &mut Content<'a>,
    declarator: &'a Declarator,
    first: &mut Option<Found>,
) -> Result<(), AllocError>
    requires { content.old.cells ≤ scopes.most_cells + 1 }
    ensures members { OnOk result (shown_members content.new.members.entries ≡ spec.with_member (N.known names.now) specifier.now (shown_members content.old.members.entries) (declared_of declarator.now)) }
    ensures cells { OnOk result (content.new.cells ≡ scopes.counted_cells (content.old.cells + scopes.cells_of_some (N.known names.now) (spec.declared_type (N.known names.now) specifier.now (declared_of declarator.now)))) }
    ensures first { OnOk result (first.new ≡ first_among first.old (spec.one_member_faults (N.known names.now) specifier.now (shown_members content.old.members.entries) (declared_of declarator.now))) }
{
    let name = declared_name(declarator);
    note_declarator(alloc, names, specifier, declarator, first)?;
    let of = declared_type(alloc, names, specifier, declarator)?;
    content.cells = (content.cells + cells_of_some(names, &of)).min(MAX_CELLS + 1);
    let is_there = add_member(&mut content.members, name.text.as_slice(), of)?;
    note(first, is_there, FaultKind::DuplicateName, name_place(name));
    Ok(())
}

/// The members of one specifier.
fn note_some_members<'a, N: Names>(
    alloc: Global,
    names: &N,
    content: &mut Content<'a>,
    some: &'a Member,
    first: &mut Option<Found>,
) -> Result<(), AllocError>
    requires { content.old.cells ≤ scopes.most_cells + 1 }
    ensures members { OnOk result (shown_members content.new.members.entries ≡ spec.with_members (N.known names.now) some.now.specifier (shown_members content.old.members.entries) (map declared_of some.now.declarators)) }
    ensures cells { OnOk result (content.new.cells ≡ scopes.counted_cells (content.old.cells + spec.declared_cells (N.known names.now) some.now.specifier (map declared_of some.now.declarators))) }
    ensures first { OnOk result (first.new ≡ first_among first.old (spec.some_members_faults (N.known names.now) some.now.specifier (shown_members content.old.members.entries) (map declared_of some.now.declarators))) }
{
    for declarator in some.declarators.as_slice() {
        note_member(alloc, names, &some.specifier, content, declarator, first)?;
    }
    Ok(())
}

/// All members.
fn note_fields<'a, N: Names>(
    alloc: Global,
    names: &N,
    content: &mut Content<'a>,
    fields: &'a [Member],
    first: &mut Option<Found>,
) -> Result<(), AllocError>
    requires { content.old.cells ≤ scopes.most_cells + 1 }
    ensures members { OnOk result (shown_members content.new.members.entries ≡ spec.with_fields (N.known names.now) (shown_members content.old.members.entries) (map fields_of fields.now)) }
    ensures cells { OnOk result (content.new.cells ≡ scopes.counted_cells (content.old.cells + spec.fields_cells (N.known names.now) (map fields_of fields.now))) }
    ensures first { OnOk result (first.new ≡ first_among first.old (spec.fields_faults (N.known names.now) (shown_members content.old.members.entries) (map fields_of fields.now))) }
{
    for some in fields {
        note_some_members(alloc, names, content, some, first)?;
    }
    Ok(())
}

/// Whether the struct is defined before the place.
fn is_struct_defined<N: Names>(names: &N, name: &[u8]) -> bool
    ensures { result ≡ spec.is_struct_defined (N.known names.now) name.now }
{
    match names.struct_numbered(name) {
        Some(number) => names.is_struct_defined(number),
        None => false,
    }
}

/// Defines a struct after its closing brace, if it isn't defined before, and notes what is wrong with it.
pub fn note_struct<'a>(
    alloc: Global,
    table: &mut Table<'a>,
    name: &'a Name,
    fields: &'a [Member],
    first: &mut Option<Found>,
) -> Result<(), AllocError>
    ensures known { OnOk result (known_of table.new ≡ spec.after_struct (known_of table.old) name.now (map fields_of fields.now)) }
    ensures first { OnOk result (first.new ≡ first_among first.old (spec.struct_faults (known_of table.old) name.now (map fields_of fields.now))) }
{
    let is_defined = is_struct_defined(table, name.text.as_slice());
    note(
        first,
        is_defined,
        FaultKind::DuplicateName,
        name_place(name),
    );
    let mut content = Content {
        members: IndexMap::new(alloc),
        cells: 0,
    };
    note_fields(alloc, table, &mut content, fields, first)?;
    let Content { members, cells } = content;
    note_size(cells, name, first);
    if is_defined {
        return Ok(());
    }
    table.define_struct(members, cells)
}

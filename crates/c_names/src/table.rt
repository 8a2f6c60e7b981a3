//! The table of names: what is known at a place of a source, kept while its text is passed (C99 6.2.1, 6.2.3).
ghost use Rattle.std.specs.Prelude.{◌≡◌, ◌++◌, ◌∷◌, [], map, slice_get, true, Some, length, IfOk, OnOk};
ghost use Rattle.std.specs.Option.{option_map};
ghost use Rattle.rr_base.specs.Texts.{entry_of};
ghost use Rattle.c_tree.specs.View.{outer_of, program_of};
ghost use Rattle.c_types.specs.Scopes as spec;
ghost use Rattle.c_types.specs.Signatures.{pointed_types};
ghost use Rattle.c_names.specs.Sources.{global_cells_with, structs_with, functions_with};
ghost use Rattle.c_names.specs.Known.{names_at_start, known_at_start};
ghost use Rattle.c_types.specs.Shown.{shown_meaning, shown_member, shown_maybe};
ghost use Rattle.c_names.specs.Table.{texts_of, meaning_of, scope_of, scopes_of, members_of, known_of};

use crate::pointers::{function_types_in, pointer_among, pointers_in, type_among};
use c_tree::{Body, External, Program};
use c_types::{Meaning, Names, ObjectType, PointerType, Signature, TypeRef, cells_of_layered};
use indexmap::{IndexMap, IndexSet};
use rr_base::List;
use std::alloc::{AllocError, Global};

/// The greatest number of cells that all globals together may have.
pub const MAX_GLOBAL_CELLS: u32 = 1 << 20;

/// The members of a struct by name, in their order. One has no type where its declaration has a fault.
pub type Members<'a> = IndexMap<&'a [u8], Option<ObjectType>>;

type Scope<'a> = IndexMap<&'a [u8], Declared>;

/// What a name is declared as.
#[derive(Drop)]
pub enum Declared {
    /// A variable. It has no type where its declaration has a fault.
    Variable(Option<ObjectType>),
    Function(Signature),
}

impl Declared {
    fn meaning(&self) -> Meaning<'_>
        ensures { shown_meaning (Some result) ≡ Some (meaning_of self.now) }
    {
        match self {
            Declared::Variable(of) => Meaning::Variable(borrowed(of)),
            Declared::Function(signature) => Meaning::Function(signature),
        }
    }
}

fn borrowed(of: &Option<ObjectType>) -> Option<TypeRef<'_>>
    ensures { shown_maybe result ≡ of.now }
{
    match of {
        Some(of) => Some(TypeRef::of(of)),
        None => None,
    }
}

/// What is known at a place of a source.
#[derive(Drop)]
pub struct Table<'a> {
    struct_names: IndexSet<&'a [u8]>,
    structs: List<Members<'a>>,
    sizes: List<u32>,
    defined: IndexSet<&'a [u8]>,
    begun: IndexSet<&'a [u8]>,
    pointers: List<PointerType>,
    function_types: List<Signature>,
    global_cells: u32,
    /// The innermost scope last.
    scopes: List<Scope<'a>>,
}

fn note_struct<'a>(names: &mut IndexSet<&'a [u8]>, external: &'a External) -> Result<(), AllocError>
    ensures { OnOk result (texts_of names.new.keys ≡ structs_with (texts_of names.old.keys) (outer_of external.now ∷ [])) }
{
    match external {
        External::Struct { name, .. } => put_text(names, name.text.as_slice()),
        External::Function { .. } | External::Objects { .. } => Ok(()),
    }
}

fn note_function<'a>(
    names: &mut IndexSet<&'a [u8]>,
    external: &'a External,
) -> Result<(), AllocError>
    ensures { OnOk result (texts_of names.new.keys ≡ functions_with (texts_of names.old.keys) (outer_of external.now ∷ [])) }
{
    match external {
        External::Function { name, body, .. } => match body {
            Body::Block { .. } => put_text(names, name.text.as_slice()),
            Body::Prototype => Ok(()),
        },
        External::Struct { .. } | External::Objects { .. } => Ok(()),
    }
}

/// Puts the name among the others, unless it is there.
pub fn put_text<'a>(names: &mut IndexSet<&'a [u8]>, name: &'a [u8]) -> Result<(), AllocError>
    ensures { OnOk result (texts_of names.new.keys ≡ spec.with_text (texts_of names.old.keys) name.now) }
{
    names.insert(name)?;
    Ok(())
}

fn found_in<'s>(scope: &'s Scope, name: &[u8]) -> Option<Meaning<'s>>
    ensures { shown_meaning result ≡ entry_of (scope_of scope.now.entries) name.now }
{
    match scope.get(name) {
        Some(declared) => Some(declared.meaning()),
        None => None,
    }
}

fn seen_in<'s>(scopes: &'s [Scope], name: &[u8]) -> Option<Meaning<'s>>
    ensures { shown_meaning result ≡ spec.seen_in (scopes_of scopes.now) name.now }
{
    let mut left = scopes;
    while let [outer @ .., innermost] = left {
        let found = found_in(innermost, name);
        if found.is_some() {
            return found;
        }
        left = outer;
    }
    None
}

fn declare_in<'a>(
    scope: &mut Scope<'a>,
    name: &'a [u8],
    meaning: Declared,
) -> Result<(), AllocError>
    ensures { OnOk result (scope_of scope.new.entries ≡ spec.with_name (scope_of scope.old.entries) name.now (meaning_of meaning)) }
{
    if !scope.contains_key(name) {
        scope.insert(name, meaning)?;
    }
    Ok(())
}

fn member_named<'s>(members: &'s Members, name: &[u8]) -> Option<Option<TypeRef<'s>>>
    ensures { shown_member result ≡ entry_of (members_of members.now.entries) name.now }
{
    match members.get(name) {
        Some(of) => Some(borrowed(of)),
        None => None,
    }
}

fn member_placed<'s>(members: &'s Members, index: usize) -> Option<Option<TypeRef<'s>>>
    ensures { shown_member result ≡ slice_get (map (λ m. m.1) members.now.entries) index }
{
    match members.get_index(index) {
        Some((_, of)) => Some(borrowed(of)),
        None => None,
    }
}

fn index_in(members: &Members, name: &[u8]) -> Option<usize>
    ensures { result ≡ spec.numbered_among (Some (members_of members.now.entries)) name.now }
{
    members.get_index_of(name)
}

impl<'a> Table<'a> {
    fn of_names(alloc: Global, externals: &'a [External]) -> Result<Table<'a>, AllocError>
        ensures { IfOk result (λ t. known_of t ≡ names_at_start (map outer_of externals.now)) }
    {
        let mut struct_names = IndexSet::new(alloc);
        let mut defined = IndexSet::new(alloc);
        for external in externals {
            note_struct(&mut struct_names, external)?;
            note_function(&mut defined, external)?;
        }
        let mut scopes = List::new(alloc);
        scopes.push(IndexMap::new(alloc))?;
        Ok(Table {
            struct_names,
            structs: List::new(alloc),
            sizes: List::new(alloc),
            defined,
            begun: IndexSet::new(alloc),
            pointers: List::new(alloc),
            function_types: List::new(alloc),
            global_cells: 0,
            scopes,
        })
    }

    /// What is known where the source begins.
    pub fn new(alloc: Global, program: &'a Program) -> Result<Table<'a>, AllocError>
        ensures { IfOk result (λ t. known_of t ≡ known_at_start (program_of program.now)) }
    {
        let externals = program.externals.as_slice();
        let mut table = Table::of_names(alloc, externals)?;
        table.pointers = pointers_in(alloc, &table, externals)?;
        table.function_types = function_types_in(alloc, &table, externals)?;
        Ok(table)
    }

    /// Opens a scope.
    pub fn open(&mut self, alloc: Global) -> Result<(), AllocError>
        ensures { OnOk result (known_of self.new ≡ spec.opened (known_of self.old)) }
    {
        self.scopes.push(IndexMap::new(alloc))
    }

    /// Closes the innermost scope.
    pub fn close(&mut self)
        ensures { known_of self.new ≡ spec.closed (known_of self.old) }
    {
        self.scopes.pop();
    }

    /// Declares a name in the innermost scope. One that is there stays.
    pub fn declare(&mut self, name: &'a [u8], meaning: Declared) -> Result<(), AllocError>
        ensures { OnOk result (known_of self.new ≡ spec.declare (known_of self.old) name.now (meaning_of meaning)) }
    {
        let Some(mut scope) = self.scopes.pop() else {
            return Ok(());
        };
        declare_in(&mut scope, name, meaning)?;
        self.scopes.push(scope)
    }

    /// What the innermost scope declares the name as, if it does.
    pub fn declared_here<'s>(&'s self, name: &[u8]) -> Option<Meaning<'s>>
        ensures { shown_meaning result ≡ entry_of (spec.innermost (known_of self.now).scopes) name.now }
    {
        match self.scopes.as_slice() {
            [.., innermost] => found_in(innermost, name),
            [] => None,
        }
    }

    /// Defines the next struct.
    pub fn define_struct(&mut self, members: Members<'a>, cells: u32) -> Result<(), AllocError>
        ensures { OnOk result (known_of self.new ≡ record (known_of self.old) { structs = (known_of self.old).structs ++ members_of members.entry.entries ∷ []; sizes = (known_of self.old).sizes ++ cells ∷ [] }) }
    {
        self.structs.push(members)?;
        self.sizes.push(cells)
    }

    /// How many structs are defined before the place.
    pub fn struct_count(&self) -> usize
        ensures { result ≡ length (known_of self.now).structs }
    {
        self.structs.len()
    }

    /// The position of a member in its struct, counted from 0.
    pub fn member_numbered(&self, number: usize, name: &[u8]) -> Option<usize>
        ensures { result ≡ spec.member_numbered (known_of self.now) number name.now }
    {
        match self.structs.get(number) {
            Some(members) => index_in(members, name),
            None => None,
        }
    }

    /// The number of the function that the file defines anywhere.
    pub fn function_numbered(&self, name: &[u8]) -> Option<usize>
        ensures { result ≡ spec.function_numbered (known_of self.now) name.now }
    {
        self.defined.get_index_of(name)
    }

    /// How many functions the file defines.
    pub fn function_count(&self) -> usize
        ensures { result ≡ length (known_of self.now).defined }
    {
        self.defined.len()
    }

    /// The name of the function with this number.
    pub fn function_name(&self, number: usize) -> Option<&[u8]>
        ensures { option_map (λ n. n.now) result ≡ slice_get (known_of self.now).defined number }
    {
        self.defined.get_index(number).copied()
    }

    /// The types of the pointers to functions that the file declares.
    pub fn pointers(&self) -> &[PointerType]
        ensures { result.now ≡ (known_of self.now).pointers }
    {
        self.pointers.as_slice()
    }

    /// The definition of the function begins.
    pub fn begin_function(&mut self, name: &'a [u8]) -> Result<(), AllocError>
        ensures { OnOk result (known_of self.new ≡ record (known_of self.old) { begun = spec.with_text (known_of self.old).begun name.now }) }
    {
        put_text(&mut self.begun, name)
    }

    /// Whether the definition of the function has begun before the place.
    pub fn has_begun(&self, name: &[u8]) -> bool
        ensures { result ≡ spec.has_name (known_of self.now).begun name.now }
    {
        self.begun.contains(name)
    }

    /// How many cells all globals have with so many more, but at most one more than they may have.
    pub fn global_cells_with(&self, cells: u32) -> u32
        ensures { result ≡ global_cells_with true (known_of self.now).global_cells cells }
    {
        self.global_cells
            .saturating_add(cells)
            .min(MAX_GLOBAL_CELLS + 1)
    }

    /// A global with so many cells is declared.
    pub fn add_global_cells(&mut self, cells: u32)
        ensures { known_of self.new ≡ record (known_of self.old) { global_cells = global_cells_with true (known_of self.old).global_cells cells } }
    {
        self.global_cells = self.global_cells_with(cells);
    }
}

impl<'a> Names for Table<'a> {
    ghost use Rattle.c_names.specs.Table.{known_of};

    ghost known = { known_of };

    fn seen<'s>(&'s self, name: &[u8]) -> Option<Meaning<'s>> {
        seen_in(self.scopes.as_slice(), name)
    }

    fn struct_numbered(&self, name: &[u8]) -> Option<usize> {
        self.struct_names.get_index_of(name)
    }

    fn is_struct_defined(&self, number: usize) -> bool {
        number < self.structs.len()
    }

    fn member_of<'s>(&'s self, number: usize, name: &[u8]) -> Option<Option<TypeRef<'s>>> {
        match self.structs.get(number) {
            Some(members) => member_named(members, name),
            None => None,
        }
    }

    fn member_at<'s>(&'s self, number: usize, index: usize) -> Option<Option<TypeRef<'s>>> {
        match self.structs.get(number) {
            Some(members) => member_placed(members, index),
            None => None,
        }
    }

    fn cells_of(&self, of: TypeRef) -> u32 {
        if of.stars > 0 {
            1
        } else {
            cells_of_layered(of.layers, of.base, self.sizes.as_slice())
        }
    }

    fn pointer_numbered(&self, of: &Signature) -> Option<usize> {
        pointer_among(self.pointers.as_slice(), of)
    }

    fn type_numbered(&self, of: &Signature) -> Option<usize> {
        match pointer_among(self.pointers.as_slice(), of) {
            Some(number) => Some(number),
            None => match type_among(self.function_types.as_slice(), of) {
                Some(number) => Some(self.pointers.len() + number),
                None => None,
            },
        }
    }

    fn signature_numbered<'s>(&'s self, number: usize) -> Option<&'s Signature> {
        match self.pointers.get(number) {
            Some(of) => Some(&of.signature),
            None => None,
        }
    }

    fn is_function_defined(&self, name: &[u8]) -> bool {
        self.defined.contains(name)
    }
}

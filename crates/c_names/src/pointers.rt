//! The types of the pointers to functions that a source declares, in the order of the text, and those of its functions.
ghost use Rattle.std.specs.Prelude.{◌≡◌, ◌∷◌, [], map, position, OnOk, IfOk};
ghost use Rattle.c_tree.specs.Tree.{no_part, with_part, listed_parts};
ghost use Rattle.c_tree.specs.View.{formal_of, formals_of, declared_of, object_of, declares_of, start_of, stmt_of, part_of, code_of, fields_of, outer_of};
ghost use Rattle.c_types.specs.Signatures.{same_signature, signatures_of};
ghost use Rattle.c_names.specs.Sources.{listed_params, declared_by};
ghost use Rattle.c_names.specs.Pointers as spec;

use crate::params::listed;
use crate::signatures::{pointed_by, signature_of};
use c_tree::{
    Body, Declaration, Declarator, External, ForStart, Item, Member, Name, Param, Params, Part,
    Specifier, Stmt,
};
use c_types::{Names, PointerType, Signature, have_same_signature};
use rr_base::List;
use std::alloc::{AllocError, Global};

fn points_to(pointer: &PointerType, of: &Signature) -> bool
    ensures { result ≡ same_signature of.now pointer.now.signature }
{
    have_same_signature(of, &pointer.signature)
}

/// The number of the type among those of pointers.
pub fn pointer_among(types: &[PointerType], of: &Signature) -> Option<usize>
    ensures { result ≡ position (same_signature of.now) (signatures_of types.now) }
{
    types.iter().position(|pointer| points_to(pointer, of))
}

/// The number of the type among those of functions.
pub fn type_among(types: &[Signature], of: &Signature) -> Option<usize>
    ensures { result ≡ position (same_signature of.now) types.now }
{
    types
        .iter()
        .position(|other| have_same_signature(of, other))
}

/// Adds the type, unless it is there.
fn add_type(types: &mut List<PointerType>, of: PointerType) -> Result<(), AllocError>
    ensures { OnOk result (types.new ≡ spec.type_with types.old of) }
{
    if pointer_among(types.as_slice(), &of.signature).is_some() {
        Ok(())
    } else {
        types.push(of)
    }
}

fn add_pointer<N: Names>(
    alloc: Global,
    names: &N,
    types: &mut List<PointerType>,
    specifier: &Specifier,
    stars: usize,
    name: &Name,
    params: &Params,
) -> Result<(), AllocError>
    ensures { OnOk result (types.new ≡ spec.pointer_with (N.known names.now) types.old specifier.now stars name.now (formals_of params.now)) }
{
    let signature = pointed_by(alloc, names, specifier, stars, params)?;
    let of = PointerType {
        signature,
        at: name.at,
    };
    add_type(types, of)
}

fn add_declared<N: Names>(
    alloc: Global,
    names: &N,
    specifier: &Specifier,
    types: &mut List<PointerType>,
    declarator: &Declarator,
) -> Result<(), AllocError>
    ensures { OnOk result (types.new ≡ spec.declared_with (N.known names.now) specifier.now types.old (declared_of declarator.now)) }
{
    match declarator {
        Declarator::Object { .. } => Ok(()),
        Declarator::Pointer {
            stars,
            name,
            params,
        } => add_pointer(alloc, names, types, specifier, *stars, name, params),
    }
}

fn add_members<N: Names>(
    alloc: Global,
    names: &N,
    types: &mut List<PointerType>,
    members: &Member,
) -> Result<(), AllocError>
    ensures { OnOk result (types.new ≡ spec.fields_with (N.known names.now) types.old (fields_of members.now ∷ [])) }
{
    for declarator in members.declarators.as_slice() {
        add_declared(alloc, names, &members.specifier, types, declarator)?;
    }
    Ok(())
}

fn add_fields<N: Names>(
    alloc: Global,
    names: &N,
    types: &mut List<PointerType>,
    fields: &[Member],
) -> Result<(), AllocError>
    ensures { OnOk result (types.new ≡ spec.fields_with (N.known names.now) types.old (map fields_of fields.now)) }
{
    for members in fields {
        add_members(alloc, names, types, members)?;
    }
    Ok(())
}

fn add_object<N: Names>(
    alloc: Global,
    names: &N,
    specifier: &Specifier,
    types: &mut List<PointerType>,
    item: &Item,
) -> Result<(), AllocError>
    ensures { OnOk result (types.new ≡ spec.declared_with (N.known names.now) specifier.now types.old (declared_by (object_of item.now))) }
{
    match item {
        Item::Plain(declarator) => add_declared(alloc, names, specifier, types, declarator),
        Item::Initialised { declarator, .. } => {
            add_declared(alloc, names, specifier, types, declarator)
        }
    }
}

fn add_objects<N: Names>(
    alloc: Global,
    names: &N,
    specifier: &Specifier,
    types: &mut List<PointerType>,
    items: &[Item],
) -> Result<(), AllocError>
    ensures { OnOk result (types.new ≡ spec.objects_with (N.known names.now) specifier.now types.old (map object_of items.now)) }
{
    for item in items {
        add_object(alloc, names, specifier, types, item)?;
    }
    Ok(())
}

fn add_declaration<N: Names>(
    alloc: Global,
    names: &N,
    types: &mut List<PointerType>,
    declaration: &Declaration,
) -> Result<(), AllocError>
    ensures { OnOk result (types.new ≡ spec.declares_with (N.known names.now) types.old (declares_of declaration.now)) }
{
    let items = declaration.items.as_slice();
    add_objects(alloc, names, &declaration.specifier, types, items)
}

fn add_formal<N: Names>(
    alloc: Global,
    names: &N,
    types: &mut List<PointerType>,
    p: &Param,
) -> Result<(), AllocError>
    ensures { OnOk result (types.new ≡ spec.formal_with (N.known names.now) types.old (formal_of p.now)) }
{
    match p {
        Param::Object { .. } => Ok(()),
        Param::Pointer {
            specifier,
            stars,
            name,
            params,
            ..
        } => add_pointer(alloc, names, types, specifier, *stars, name, params),
    }
}

fn add_formals<N: Names>(
    alloc: Global,
    names: &N,
    types: &mut List<PointerType>,
    params: &Params,
) -> Result<(), AllocError>
    ensures { OnOk result (types.new ≡ spec.formals_with (N.known names.now) types.old (listed_params (formals_of params.now))) }
{
    for p in listed(params) {
        add_formal(alloc, names, types, p)?;
    }
    Ok(())
}

fn add_start<N: Names>(
    alloc: Global,
    names: &N,
    types: &mut List<PointerType>,
    start: &ForStart,
) -> Result<(), AllocError>
    ensures { OnOk result (types.new ≡ spec.start_with (N.known names.now) types.old (start_of start.now)) }
{
    match start {
        ForStart::Declares(declaration) => add_declaration(alloc, names, types, declaration),
        ForStart::Computes(_) => Ok(()),
    }
}

#[cycle(statement)]
fn add_statement<N: Names>(
    alloc: Global,
    names: &N,
    types: &mut List<PointerType>,
    stmt: &Stmt,
) -> Result<(), AllocError>
    ensures { OnOk result (types.new ≡ spec.statement_with (N.known names.now) types.old (stmt_of stmt.now)) }
{
    match stmt {
        Stmt::Block { parts, .. } => add_parts(alloc, names, types, parts.as_slice()),
        Stmt::Expression { .. }
        | Stmt::Break { .. }
        | Stmt::Continue { .. }
        | Stmt::Return { .. } => Ok(()),
        Stmt::If { yes, no, .. } => {
            add_statement(alloc, names, types, yes)?;
            match no {
                None => Ok(()),
                Some(no) => add_statement(alloc, names, types, no),
            }
        }
        Stmt::While { body, .. } | Stmt::Do { body, .. } => {
            add_statement(alloc, names, types, body)
        }
        Stmt::For { start, body, .. } => {
            add_start(alloc, names, types, start)?;
            add_statement(alloc, names, types, body)
        }
    }
}

#[cycle(statement)]
fn add_part<N: Names>(
    alloc: Global,
    names: &N,
    types: &mut List<PointerType>,
    part: &Part,
) -> Result<(), AllocError>
    ensures { OnOk result (types.new ≡ spec.parts_with (N.known names.now) types.old (with_part (part_of part.now) no_part)) }
{
    match part {
        Part::Declares(declaration) => add_declaration(alloc, names, types, declaration),
        Part::Does(stmt) => add_statement(alloc, names, types, stmt),
    }
}

#[cycle(statement)]
fn add_parts<N: Names>(
    alloc: Global,
    names: &N,
    types: &mut List<PointerType>,
    parts: &[Part],
) -> Result<(), AllocError>
    ensures { OnOk result (types.new ≡ spec.parts_with (N.known names.now) types.old (listed_parts (map part_of parts.now))) }
{
    for part in parts {
        add_part(alloc, names, types, part)?;
    }
    Ok(())
}

fn add_body<N: Names>(
    alloc: Global,
    names: &N,
    types: &mut List<PointerType>,
    body: &Body,
) -> Result<(), AllocError>
    ensures { OnOk result (types.new ≡ spec.code_with (N.known names.now) types.old (code_of body.now)) }
{
    match body {
        Body::Block { parts, .. } => add_parts(alloc, names, types, parts.as_slice()),
        Body::Prototype => Ok(()),
    }
}

fn add_external<N: Names>(
    alloc: Global,
    names: &N,
    types: &mut List<PointerType>,
    external: &External,
) -> Result<(), AllocError>
    ensures { OnOk result (types.new ≡ spec.outer_with (N.known names.now) types.old (outer_of external.now)) }
{
    match external {
        External::Struct { members, .. } => add_fields(alloc, names, types, members.as_slice()),
        External::Function { params, body, .. } => {
            add_formals(alloc, names, types, params)?;
            add_body(alloc, names, types, body)
        }
        External::Objects {
            specifier,
            items,
            ..
        } => add_objects(alloc, names, specifier, types, items.as_slice()),
    }
}

/// The types of the pointers to functions that a source declares, each with the place of the first name that has it.
pub fn pointers_in<N: Names>(
    alloc: Global,
    names: &N,
    externals: &[External],
) -> Result<List<PointerType>, AllocError>
    ensures { IfOk result (λ types. types ≡ spec.pointers_with (N.known names.now) [] (map outer_of externals.now)) }
{
    let mut types = List::new(alloc);
    for external in externals {
        add_external(alloc, names, &mut types, external)?;
    }
    Ok(types)
}

fn add_function<N: Names>(
    alloc: Global,
    names: &N,
    types: &mut List<Signature>,
    external: &External,
) -> Result<(), AllocError>
    ensures { OnOk result (types.new ≡ spec.function_types_with (N.known names.now) types.old (outer_of external.now ∷ [])) }
{
    match external {
        External::Function {
            specifier,
            stars,
            params,
            ..
        } => {
            let of = signature_of(alloc, names, specifier, *stars, params)?;
            types.push(of)
        }
        External::Struct { .. } | External::Objects { .. } => Ok(()),
    }
}

/// The types of the functions that a source declares, one for each declaration.
pub fn function_types_in<N: Names>(
    alloc: Global,
    names: &N,
    externals: &[External],
) -> Result<List<Signature>, AllocError>
    ensures { IfOk result (λ types. types ≡ spec.function_types_with (N.known names.now) [] (map outer_of externals.now)) }
{
    let mut types = List::new(alloc);
    for external in externals {
        add_function(alloc, names, &mut types, external)?;
    }
    Ok(types)
}

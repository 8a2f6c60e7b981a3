//! Which names of the file stand as values anywhere in a source (C99 6.3.2.1).
ghost use Rattle.std.specs.Prelude.{◌≡◌, if◌then◌else◌, OnOk, IfOk, map};
ghost use Rattle.c_tree.specs.Tree.{listed, listed_inits, listed_parts};
ghost use Rattle.c_tree.specs.View.{exp_of, maybe_of, formal_of, declared_of, init_of, object_of, declares_of, start_of, stmt_of, part_of, code_of, fields_of, outer_of, program_of};
ghost use Rattle.c_types.specs.Library as library;
ghost use Rattle.c_types.specs.Scopes.{has_name};
ghost use Rattle.c_names.specs.Sources.{declared_by};
ghost use Rattle.c_names.specs.Table.{texts_of};
ghost use Rattle.c_numbers.specs.Numbered.{number_seen};
ghost use Rattle.c_numbers.specs.NumberTables.{numbered_of};
ghost use Rattle.c_locals.specs.Addresses as numbering;
ghost use Rattle.c_locals.specs.Taken as spec;

use crate::addresses::number_formals;
use c_names::{declared_name, listed, put_text};
use c_numbers::NumberTable;
use c_tree::{
    Body, Declaration, Declarator, Expr, External, ForStart, Initial, Item, Member, Param, Part,
    Program, Stmt,
};
use c_types::{LibraryName, library_named};
use indexmap::IndexSet;
use std::alloc::{AllocError, Global};

/// The place of the function with which a thread starts among the arguments of `pthread_create`.
const THREAD_FUNCTION: usize = 2;

/// The names of the file that stand as values.
#[derive(Drop)]
pub struct Taken<'a> {
    names: IndexSet<&'a [u8]>,
}

impl<'a> Taken<'a> {
    /// Whether the name is one of them.
    pub fn holds(&self, name: &[u8]) -> bool
        ensures { result ≡ has_name (texts_of self.now.names.keys) name.now }
    {
        self.names.contains(name)
    }
}

fn put_free<'a>(
    table: &NumberTable,
    name: &'a [u8],
    names: &mut IndexSet<&'a [u8]>,
) -> Result<(), AllocError>
    ensures { OnOk result (texts_of names.new.keys ≡ spec.with_free (number_seen (numbered_of table.now).scopes name.now) (texts_of names.old.keys) name.now) }
{
    match table.seen(name) {
        None => put_text(names, name),
        Some(_) => Ok(()),
    }
}

fn takes_function(call: Option<LibraryName>) -> bool
    ensures { result ≡ spec.takes_function call }
{
    matches!(call, Some(LibraryName::Create))
}

#[cycle(with_taken)]
fn put_taken<'a>(
    table: &NumberTable,
    e: &'a Expr,
    names: &mut IndexSet<&'a [u8]>,
) -> Result<(), AllocError>
    ensures { OnOk result (texts_of names.new.keys ≡ spec.with_taken (numbered_of table.now) (texts_of names.old.keys) (exp_of e.now)) }
{
    match e {
        Expr::Comma { first, rest, .. } => {
            put_taken(table, first, names)?;
            put_all_taken(table, rest.as_slice(), names)
        }
        Expr::Assign { left, right, .. } => {
            put_taken(table, left, names)?;
            put_taken(table, right, names)
        }
        Expr::Conditional { test, yes, no, .. } => {
            put_taken(table, test, names)?;
            put_taken(table, yes, names)?;
            put_taken(table, no, names)
        }
        Expr::Binary { left, right, .. } => {
            put_taken(table, left, names)?;
            put_taken(table, right, names)
        }
        Expr::Index { base, index, .. } => {
            put_taken(table, base, names)?;
            put_taken(table, index, names)
        }
        Expr::Prefix { operand, .. } => put_taken(table, operand, names),
        Expr::SizeofExpr { operand, .. } => put_taken(table, operand, names),
        Expr::Cast { operand, .. } => put_taken(table, operand, names),
        Expr::Member { base, .. } => put_taken(table, base, names),
        Expr::Arrow { base, .. } => put_taken(table, base, names),
        Expr::PostIncrement { operand, .. } => put_taken(table, operand, names),
        Expr::PostDecrement { operand, .. } => put_taken(table, operand, names),
        Expr::Paren { inner, .. } => put_taken(table, inner, names),
        Expr::Name { name, .. } => put_free(table, name.as_slice(), names),
        Expr::Call {
            name,
            arguments,
            ..
        } => put_call_taken(table, name.as_slice(), arguments.as_slice(), names),
        Expr::SizeofType { .. }
        | Expr::Number { .. }
        | Expr::Letter { .. }
        | Expr::Text { .. }
        | Expr::Null { .. } => Ok(()),
    }
}

/// Of the arguments of `pthread_create` the function with which the thread starts is no value.
#[cycle(with_taken)]
fn put_create_taken<'a>(
    table: &NumberTable,
    arguments: &'a [Expr],
    names: &mut IndexSet<&'a [u8]>,
) -> Result<(), AllocError>
    ensures { OnOk result (texts_of names.new.keys ≡ spec.with_create_taken (numbered_of table.now) (texts_of names.old.keys) 0 (listed (map exp_of arguments.now))) }
{
    for place in 0..arguments.len() {
        if place != THREAD_FUNCTION {
            put_taken(table, &arguments[place], names)?;
        }
    }
    Ok(())
}

#[cycle(with_taken)]
fn put_call_taken<'a>(
    table: &NumberTable,
    name: &[u8],
    arguments: &'a [Expr],
    names: &mut IndexSet<&'a [u8]>,
) -> Result<(), AllocError>
    ensures { let es = listed (map exp_of arguments.now) in OnOk result (texts_of names.new.keys ≡ (if spec.takes_function (library.library_named name.now) then spec.with_create_taken (numbered_of table.now) (texts_of names.old.keys) 0 es else spec.with_all_taken (numbered_of table.now) (texts_of names.old.keys) es)) }
{
    if takes_function(library_named(name)) {
        put_create_taken(table, arguments, names)
    } else {
        put_all_taken(table, arguments, names)
    }
}

#[cycle(with_taken)]
fn put_all_taken<'a>(
    table: &NumberTable,
    es: &'a [Expr],
    names: &mut IndexSet<&'a [u8]>,
) -> Result<(), AllocError>
    ensures { OnOk result (texts_of names.new.keys ≡ spec.with_all_taken (numbered_of table.now) (texts_of names.old.keys) (listed (map exp_of es.now))) }
{
    for e in es {
        put_taken(table, e, names)?;
    }
    Ok(())
}

fn put_maybe_taken<'a>(
    table: &NumberTable,
    e: &'a Option<Expr>,
    names: &mut IndexSet<&'a [u8]>,
) -> Result<(), AllocError>
    ensures { OnOk result (texts_of names.new.keys ≡ spec.with_maybe_taken (numbered_of table.now) (texts_of names.old.keys) (maybe_of e.now)) }
{
    match e {
        None => Ok(()),
        Some(e) => put_taken(table, e, names),
    }
}

fn put_lengths_taken<'a>(
    table: &NumberTable,
    lengths: &'a [Expr],
    names: &mut IndexSet<&'a [u8]>,
) -> Result<(), AllocError>
    ensures { OnOk result (texts_of names.new.keys ≡ spec.with_lengths_taken (numbered_of table.now) (texts_of names.old.keys) (map exp_of lengths.now)) }
{
    for length in lengths {
        put_taken(table, length, names)?;
    }
    Ok(())
}

#[cycle(with_initial_taken)]
fn put_initial_taken<'a>(
    table: &NumberTable,
    initial: &'a Initial,
    names: &mut IndexSet<&'a [u8]>,
) -> Result<(), AllocError>
    ensures { OnOk result (texts_of names.new.keys ≡ spec.with_initial_taken (numbered_of table.now) (texts_of names.old.keys) (init_of initial.now)) }
{
    match initial {
        Initial::Value(e) => put_taken(table, e, names),
        Initial::Braces { parts, .. } => put_initials_taken(table, parts.as_slice(), names),
        Initial::Mutex { .. } => Ok(()),
        Initial::Cond { .. } => Ok(()),
        Initial::RwLock { .. } => Ok(()),
    }
}

#[cycle(with_initial_taken)]
fn put_initials_taken<'a>(
    table: &NumberTable,
    initials: &'a [Initial],
    names: &mut IndexSet<&'a [u8]>,
) -> Result<(), AllocError>
    ensures { OnOk result (texts_of names.new.keys ≡ spec.with_initials_taken (numbered_of table.now) (texts_of names.old.keys) (listed_inits (map init_of initials.now))) }
{
    for initial in initials {
        put_initial_taken(table, initial, names)?;
    }
    Ok(())
}

fn put_declared_taken<'a>(
    table: &NumberTable,
    declarator: &'a Declarator,
    names: &mut IndexSet<&'a [u8]>,
) -> Result<(), AllocError>
    ensures { OnOk result (texts_of names.new.keys ≡ spec.with_declared_taken (numbered_of table.now) (texts_of names.old.keys) (declared_of declarator.now)) }
{
    match declarator {
        Declarator::Object { lengths, .. } => put_lengths_taken(table, lengths.as_slice(), names),
        Declarator::Pointer { .. } => Ok(()),
    }
}

/// The object is numbered after its declarator.
fn put_object_taken<'a>(
    table: &mut NumberTable<'a>,
    item: &'a Item,
    names: &mut IndexSet<&'a [u8]>,
) -> Result<(), AllocError>
    ensures known { OnOk result (numbered_of table.new ≡ numbering.after_name (numbered_of table.old) (declared_by (object_of item.now))) }
    ensures names { OnOk result (texts_of names.new.keys ≡ spec.with_object_taken (numbered_of table.old) (texts_of names.old.keys) (object_of item.now)) }
{
    match item {
        Item::Plain(declarator) => {
            put_declared_taken(&*table, declarator, names)?;
            table.number(declared_name(declarator))
        }
        Item::Initialised {
            declarator,
            initial,
            ..
        } => {
            put_declared_taken(&*table, declarator, names)?;
            table.number(declared_name(declarator))?;
            put_initial_taken(&*table, initial, names)
        }
    }
}

fn put_objects_taken<'a>(
    table: &mut NumberTable<'a>,
    items: &'a [Item],
    names: &mut IndexSet<&'a [u8]>,
) -> Result<(), AllocError>
    ensures known { OnOk result (numbered_of table.new ≡ numbering.after_names (numbered_of table.old) (map object_of items.now)) }
    ensures names { OnOk result (texts_of names.new.keys ≡ spec.with_objects_taken (numbered_of table.old) (texts_of names.old.keys) (map object_of items.now)) }
{
    for item in items {
        put_object_taken(table, item, names)?;
    }
    Ok(())
}

fn put_declares_taken<'a>(
    table: &mut NumberTable<'a>,
    declaration: &'a Declaration,
    names: &mut IndexSet<&'a [u8]>,
) -> Result<(), AllocError>
    ensures known { OnOk result (numbered_of table.new ≡ numbering.after_declaration (numbered_of table.old) (declares_of declaration.now)) }
    ensures names { OnOk result (texts_of names.new.keys ≡ spec.with_declares_taken (numbered_of table.old) (texts_of names.old.keys) (declares_of declaration.now)) }
{
    put_objects_taken(table, declaration.items.as_slice(), names)
}

fn put_start_taken<'a>(
    table: &mut NumberTable<'a>,
    start: &'a ForStart,
    names: &mut IndexSet<&'a [u8]>,
) -> Result<(), AllocError>
    ensures known { OnOk result (numbered_of table.new ≡ numbering.after_for_start (numbered_of table.old) (start_of start.now)) }
    ensures names { OnOk result (texts_of names.new.keys ≡ spec.with_start_taken (numbered_of table.old) (texts_of names.old.keys) (start_of start.now)) }
{
    match start {
        ForStart::Declares(declaration) => put_declares_taken(table, declaration, names),
        ForStart::Computes(e) => put_maybe_taken(&*table, e, names),
    }
}

/// What stands in the parentheses of a `for`.
fn put_for_taken<'a>(
    table: &mut NumberTable<'a>,
    start: &'a ForStart,
    test: &'a Option<Expr>,
    step: &'a Option<Expr>,
    names: &mut IndexSet<&'a [u8]>,
) -> Result<(), AllocError>
    ensures known { OnOk result (numbered_of table.new ≡ numbering.after_for_start (numbered_of table.old) (start_of start.now)) }
    ensures names { OnOk result (texts_of names.new.keys ≡ spec.with_for_taken (numbered_of table.old) (texts_of names.old.keys) (start_of start.now) (maybe_of test.now) (maybe_of step.now)) }
{
    put_start_taken(table, start, names)?;
    put_maybe_taken(&*table, test, names)?;
    put_maybe_taken(&*table, step, names)
}

/// The names that the statement declares are numbered, and are not seen after it.
#[cycle(with_statement_taken)]
#[tactic(auto, using(crate::proofs::Numbering::numbering))]
fn put_statement_taken<'a>(
    alloc: Global,
    table: &mut NumberTable<'a>,
    stmt: &'a Stmt,
    names: &mut IndexSet<&'a [u8]>,
) -> Result<(), AllocError>
    ensures known { OnOk result (numbered_of table.new ≡ numbering.past_statement (numbered_of table.old) (stmt_of stmt.now)) }
    ensures names { OnOk result (texts_of names.new.keys ≡ spec.with_statement_taken (numbered_of table.old) (texts_of names.old.keys) (stmt_of stmt.now)) }
{
    match stmt {
        Stmt::Block { parts, .. } => {
            table.open(alloc)?;
            put_parts_taken(alloc, table, parts.as_slice(), names)?;
            table.close();
            Ok(())
        }
        Stmt::Expression { value, .. } => put_maybe_taken(&*table, value, names),
        Stmt::Break { .. } => Ok(()),
        Stmt::Continue { .. } => Ok(()),
        Stmt::Return { value, .. } => put_maybe_taken(&*table, value, names),
        Stmt::If { test, yes, no, .. } => {
            put_taken(&*table, test, names)?;
            put_statement_taken(alloc, table, yes, names)?;
            match no {
                None => Ok(()),
                Some(no) => put_statement_taken(alloc, table, no, names),
            }
        }
        Stmt::While { test, body, .. } => {
            put_taken(&*table, test, names)?;
            put_statement_taken(alloc, table, body, names)
        }
        Stmt::Do { body, test, .. } => {
            put_statement_taken(alloc, table, body, names)?;
            put_taken(&*table, test, names)
        }
        Stmt::For {
            start,
            test,
            step,
            body,
            ..
        } => {
            table.open(alloc)?;
            put_for_taken(table, start, test, step, names)?;
            put_statement_taken(alloc, table, body, names)?;
            table.close();
            Ok(())
        }
    }
}

/// What stands in a block, one after another.
#[cycle(with_statement_taken)]
#[tactic(auto, using(crate::proofs::Numbering::numbering))]
fn put_parts_taken<'a>(
    alloc: Global,
    table: &mut NumberTable<'a>,
    parts: &'a [Part],
    names: &mut IndexSet<&'a [u8]>,
) -> Result<(), AllocError>
    ensures known { OnOk result (numbered_of table.new ≡ numbering.past_parts (numbered_of table.old) (listed_parts (map part_of parts.now))) }
    ensures names { OnOk result (texts_of names.new.keys ≡ spec.with_parts_taken (numbered_of table.old) (texts_of names.old.keys) (listed_parts (map part_of parts.now))) }
{
    for part in parts {
        match part {
            Part::Declares(declaration) => put_declares_taken(table, declaration, names)?,
            Part::Does(stmt) => put_statement_taken(alloc, table, stmt, names)?,
        }
    }
    Ok(())
}

/// What is seen at file level: no local and no formal.
fn file_level<'a>(alloc: Global) -> Result<NumberTable<'a>, AllocError>
    ensures { IfOk result (λ t. numbered_of t ≡ spec.at_file_level) }
{
    let mut table = NumberTable::new(alloc, 0)?;
    table.close();
    Ok(table)
}

fn put_members_taken<'a>(
    alloc: Global,
    declarators: &'a [Declarator],
    names: &mut IndexSet<&'a [u8]>,
) -> Result<(), AllocError>
    ensures { OnOk result (texts_of names.new.keys ≡ spec.with_members_taken (texts_of names.old.keys) (map declared_of declarators.now)) }
{
    let table = file_level(alloc)?;
    for declarator in declarators {
        put_declared_taken(&table, declarator, names)?;
    }
    Ok(())
}

fn put_fields_taken<'a>(
    alloc: Global,
    members: &'a [Member],
    names: &mut IndexSet<&'a [u8]>,
) -> Result<(), AllocError>
    ensures { OnOk result (texts_of names.new.keys ≡ spec.with_fields_taken (texts_of names.old.keys) (map fields_of members.now)) }
{
    for member in members {
        put_members_taken(alloc, member.declarators.as_slice(), names)?;
    }
    Ok(())
}

fn put_definition_taken<'a>(
    alloc: Global,
    params: &'a [Param],
    parts: &'a [Part],
    names: &mut IndexSet<&'a [u8]>,
) -> Result<(), AllocError>
    ensures { OnOk result (texts_of names.new.keys ≡ spec.with_parts_taken (numbering.numbered_from 0 (map formal_of params.now)) (texts_of names.old.keys) (listed_parts (map part_of parts.now))) }
{
    let mut table = NumberTable::new(alloc, 0)?;
    number_formals(&mut table, params)?;
    put_parts_taken(alloc, &mut table, parts, names)
}

fn put_code_taken<'a>(
    alloc: Global,
    params: &'a [Param],
    body: &'a Body,
    names: &mut IndexSet<&'a [u8]>,
) -> Result<(), AllocError>
    ensures { OnOk result (texts_of names.new.keys ≡ spec.with_code_taken (texts_of names.old.keys) (map formal_of params.now) (code_of body.now)) }
{
    match body {
        Body::Block { parts, .. } => put_definition_taken(alloc, params, parts.as_slice(), names),
        Body::Prototype => Ok(()),
    }
}

fn put_globals_taken<'a>(
    alloc: Global,
    items: &'a [Item],
    names: &mut IndexSet<&'a [u8]>,
) -> Result<(), AllocError>
    ensures { OnOk result (texts_of names.new.keys ≡ spec.with_objects_taken spec.at_file_level (texts_of names.old.keys) (map object_of items.now)) }
{
    let mut table = file_level(alloc)?;
    put_objects_taken(&mut table, items, names)
}

fn put_outer_taken<'a>(
    alloc: Global,
    external: &'a External,
    names: &mut IndexSet<&'a [u8]>,
) -> Result<(), AllocError>
    ensures { OnOk result (texts_of names.new.keys ≡ spec.with_outer_taken (texts_of names.old.keys) (outer_of external.now)) }
{
    match external {
        External::Struct { members, .. } => put_fields_taken(alloc, members.as_slice(), names),
        External::Function { params, body, .. } => {
            put_code_taken(alloc, listed(params), body, names)
        }
        External::Objects { items, .. } => put_globals_taken(alloc, items.as_slice(), names),
    }
}

/// The names of the file that stand as values.
pub fn taken_in(alloc: Global, program: &Program) -> Result<Taken<'_>, AllocError>
    ensures { IfOk result (λ t. texts_of t.names.keys ≡ spec.program_taken (program_of program.now)) }
{
    let mut names = IndexSet::new(alloc);
    for external in program.externals.as_slice() {
        put_outer_taken(alloc, external, &mut names)?;
    }
    Ok(Taken { names })
}

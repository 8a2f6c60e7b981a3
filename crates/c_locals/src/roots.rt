//! The functions that the threads of a source start with (POSIX pthread_create).
ghost use Rattle.std.specs.Prelude.{◌≡◌, OnOk, IfOk, map};
ghost use Rattle.std.specs.Option.{option_map};
ghost use Rattle.c_tree.specs.Tree.{listed, listed_inits, listed_parts};
ghost use Rattle.c_tree.specs.View.{exp_of, maybe_of, init_of, object_of, declares_of, start_of, stmt_of, part_of, code_of, outer_of, program_of};
ghost use Rattle.c_types.specs.Library as library;
ghost use Rattle.c_locals.specs.Roots as spec;
ghost use Rattle.c_locals.specs.Roots.{is_root_among};
ghost use Rattle.c_types.specs.Scopes.{has_name};
ghost use Rattle.c_names.specs.Table.{texts_of};

use c_names::{put_text, third_name};
use c_tree::{Body, Declaration, Expr, External, ForStart, Initial, Item, Part, Program, Stmt};
use c_types::{LibraryName, is_main, library_named};
use indexmap::IndexSet;
use std::alloc::{AllocError, Global};

/// The functions that threads start with, by name.
#[derive(Drop)]
pub struct Roots<'a> {
    names: IndexSet<&'a [u8]>,
}

impl<'a> Roots<'a> {
    fn is_started(&self, name: &[u8]) -> bool
        ensures { result ≡ has_name (texts_of self.now.names.keys) name.now }
    {
        self.names.contains(name)
    }

    /// Whether a thread begins with the function: it is `main`, or a `pthread_create` names it.
    pub fn is_root(&self, name: &[u8]) -> bool
        ensures { result ≡ is_root_among (texts_of self.now.names.keys) name.now }
    {
        is_main(name) || self.is_started(name)
    }
}

fn started_by(call: Option<LibraryName>, es: &[Expr]) -> Option<&[u8]>
    ensures { option_map (λ n. n.now) result ≡ spec.started_by call (listed (map exp_of es.now)) }
{
    match call {
        Some(LibraryName::Create) => third_name(es),
        _ => None,
    }
}

fn put_maybe<'a>(names: &mut IndexSet<&'a [u8]>, name: Option<&'a [u8]>) -> Result<(), AllocError>
    ensures { OnOk result (texts_of names.new.keys ≡ spec.with_maybe (texts_of names.old.keys) (option_map (λ n. n.now) name.entry)) }
{
    match name {
        None => Ok(()),
        Some(name) => put_text(names, name),
    }
}

/// What a call starts a thread with, if it does.
fn put_started<'a>(
    names: &mut IndexSet<&'a [u8]>,
    name: &[u8],
    arguments: &'a [Expr],
) -> Result<(), AllocError>
    ensures { OnOk result (texts_of names.new.keys ≡ spec.with_maybe (texts_of names.old.keys) (spec.started_by (library.library_named name.now) (listed (map exp_of arguments.now)))) }
{
    put_maybe(names, started_by(library_named(name), arguments))
}

#[cycle(with_starts)]
fn put_starts<'a>(names: &mut IndexSet<&'a [u8]>, e: &'a Expr) -> Result<(), AllocError>
    ensures { OnOk result (texts_of names.new.keys ≡ spec.with_starts (texts_of names.old.keys) (exp_of e.now)) }
{
    match e {
        Expr::Comma { first, rest, .. } => {
            put_starts(names, first)?;
            put_all_starts(names, rest.as_slice())
        }
        Expr::Assign { left, right, .. } => {
            put_starts(names, left)?;
            put_starts(names, right)
        }
        Expr::Conditional { test, yes, no, .. } => {
            put_starts(names, test)?;
            put_starts(names, yes)?;
            put_starts(names, no)
        }
        Expr::Binary { left, right, .. } => {
            put_starts(names, left)?;
            put_starts(names, right)
        }
        Expr::Prefix { operand, .. } => put_starts(names, operand),
        Expr::Cast { operand, .. } => put_starts(names, operand),
        Expr::Index { base, index, .. } => {
            put_starts(names, base)?;
            put_starts(names, index)
        }
        Expr::Member { base, .. } => put_starts(names, base),
        Expr::Arrow { base, .. } => put_starts(names, base),
        Expr::PostIncrement { operand, .. } => put_starts(names, operand),
        Expr::PostDecrement { operand, .. } => put_starts(names, operand),
        Expr::Call {
            name,
            arguments,
            ..
        } => {
            put_started(names, name.as_slice(), arguments.as_slice())?;
            put_all_starts(names, arguments.as_slice())
        }
        Expr::Paren { inner, .. } => put_starts(names, inner),
        Expr::SizeofExpr { .. }
        | Expr::SizeofType { .. }
        | Expr::Name { .. }
        | Expr::Number { .. }
        | Expr::Letter { .. }
        | Expr::Text { .. }
        | Expr::Null { .. } => Ok(()),
    }
}

#[cycle(with_starts)]
fn put_all_starts<'a>(names: &mut IndexSet<&'a [u8]>, es: &'a [Expr]) -> Result<(), AllocError>
    ensures { OnOk result (texts_of names.new.keys ≡ spec.with_all_starts (texts_of names.old.keys) (listed (map exp_of es.now))) }
{
    for e in es {
        put_starts(names, e)?;
    }
    Ok(())
}

fn put_maybe_starts<'a>(
    names: &mut IndexSet<&'a [u8]>,
    e: &'a Option<Expr>,
) -> Result<(), AllocError>
    ensures { OnOk result (texts_of names.new.keys ≡ spec.with_maybe_starts (texts_of names.old.keys) (maybe_of e.now)) }
{
    match e {
        None => Ok(()),
        Some(e) => put_starts(names, e),
    }
}

#[cycle(with_initial_starts)]
fn put_initial_starts<'a>(
    names: &mut IndexSet<&'a [u8]>,
    initial: &'a Initial,
) -> Result<(), AllocError>
    ensures { OnOk result (texts_of names.new.keys ≡ spec.with_initial_starts (texts_of names.old.keys) (init_of initial.now)) }
{
    match initial {
        Initial::Value(e) => put_starts(names, e),
        Initial::Braces { parts, .. } => put_initials_starts(names, parts.as_slice()),
        Initial::Mutex { .. } => Ok(()),
        Initial::Cond { .. } => Ok(()),
        Initial::RwLock { .. } => Ok(()),
    }
}

#[cycle(with_initial_starts)]
fn put_initials_starts<'a>(
    names: &mut IndexSet<&'a [u8]>,
    initials: &'a [Initial],
) -> Result<(), AllocError>
    ensures { OnOk result (texts_of names.new.keys ≡ spec.with_initials_starts (texts_of names.old.keys) (listed_inits (map init_of initials.now))) }
{
    for initial in initials {
        put_initial_starts(names, initial)?;
    }
    Ok(())
}

fn put_object_starts<'a>(names: &mut IndexSet<&'a [u8]>, item: &'a Item) -> Result<(), AllocError>
    ensures { OnOk result (texts_of names.new.keys ≡ spec.with_object_starts (texts_of names.old.keys) (object_of item.now)) }
{
    match item {
        Item::Plain(_) => Ok(()),
        Item::Initialised { initial, .. } => put_initial_starts(names, initial),
    }
}

fn put_declares_starts<'a>(
    names: &mut IndexSet<&'a [u8]>,
    declaration: &'a Declaration,
) -> Result<(), AllocError>
    ensures { OnOk result (texts_of names.new.keys ≡ spec.with_declares_starts (texts_of names.old.keys) (declares_of declaration.now)) }
{
    for item in declaration.items.as_slice() {
        put_object_starts(names, item)?;
    }
    Ok(())
}

fn put_start_starts<'a>(
    names: &mut IndexSet<&'a [u8]>,
    start: &'a ForStart,
) -> Result<(), AllocError>
    ensures { OnOk result (texts_of names.new.keys ≡ spec.with_start_starts (texts_of names.old.keys) (start_of start.now)) }
{
    match start {
        ForStart::Declares(declaration) => put_declares_starts(names, declaration),
        ForStart::Computes(e) => put_maybe_starts(names, e),
    }
}

#[cycle(with_statement_starts)]
fn put_statement_starts<'a>(
    names: &mut IndexSet<&'a [u8]>,
    stmt: &'a Stmt,
) -> Result<(), AllocError>
    ensures { OnOk result (texts_of names.new.keys ≡ spec.with_statement_starts (texts_of names.old.keys) (stmt_of stmt.now)) }
{
    match stmt {
        Stmt::Block { parts, .. } => put_parts_starts(names, parts.as_slice()),
        Stmt::Expression { value, .. } => put_maybe_starts(names, value),
        Stmt::Break { .. } => Ok(()),
        Stmt::Continue { .. } => Ok(()),
        Stmt::Return { value, .. } => put_maybe_starts(names, value),
        Stmt::If { test, yes, no, .. } => {
            put_starts(names, test)?;
            put_statement_starts(names, yes)?;
            match no {
                None => Ok(()),
                Some(no) => put_statement_starts(names, no),
            }
        }
        Stmt::While { test, body, .. } => {
            put_starts(names, test)?;
            put_statement_starts(names, body)
        }
        Stmt::Do { body, test, .. } => {
            put_statement_starts(names, body)?;
            put_starts(names, test)
        }
        Stmt::For {
            start,
            test,
            step,
            body,
            ..
        } => {
            put_start_starts(names, start)?;
            put_maybe_starts(names, test)?;
            put_maybe_starts(names, step)?;
            put_statement_starts(names, body)
        }
    }
}

#[cycle(with_statement_starts)]
fn put_parts_starts<'a>(names: &mut IndexSet<&'a [u8]>, parts: &'a [Part]) -> Result<(), AllocError>
    ensures { OnOk result (texts_of names.new.keys ≡ spec.with_parts_starts (texts_of names.old.keys) (listed_parts (map part_of parts.now))) }
{
    for part in parts {
        match part {
            Part::Declares(declaration) => put_declares_starts(names, declaration)?,
            Part::Does(stmt) => put_statement_starts(names, stmt)?,
        }
    }
    Ok(())
}

fn put_code_starts<'a>(names: &mut IndexSet<&'a [u8]>, body: &'a Body) -> Result<(), AllocError>
    ensures { OnOk result (texts_of names.new.keys ≡ spec.with_code_starts (texts_of names.old.keys) (code_of body.now)) }
{
    match body {
        Body::Block { parts, .. } => put_parts_starts(names, parts.as_slice()),
        Body::Prototype => Ok(()),
    }
}

fn put_outer_starts<'a>(
    names: &mut IndexSet<&'a [u8]>,
    external: &'a External,
) -> Result<(), AllocError>
    ensures { OnOk result (texts_of names.new.keys ≡ spec.with_outer_starts (texts_of names.old.keys) (outer_of external.now)) }
{
    match external {
        External::Function { body, .. } => put_code_starts(names, body),
        External::Struct { .. } => Ok(()),
        External::Objects { .. } => Ok(()),
    }
}

/// The functions that the threads of a source start with.
pub fn roots_of(alloc: Global, program: &Program) -> Result<Roots<'_>, AllocError>
    ensures { IfOk result (λ r. texts_of r.names.keys ≡ spec.program_starts (program_of program.now)) }
{
    let mut names = IndexSet::new(alloc);
    for external in program.externals.as_slice() {
        put_outer_starts(&mut names, external)?;
    }
    Ok(Roots { names })
}

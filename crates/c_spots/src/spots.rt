//! What has cells of its own in declarations and statements, in the order of the text.
ghost use Rattle.std.specs.Prelude.{◌≡◌, ◌+◌, ◌++◌, OnOk, map, length};
ghost use Rattle.c_tree.specs.Tree.{listed_parts};
ghost use Rattle.c_tree.specs.View.{maybe_of, declared_of, init_of, object_of, declares_of, start_of, stmt_of, part_of};
ghost use Rattle.c_locals.specs.Addresses.{count_of_declares, count_of_start, count_of_locals, count_of_parts};
ghost use Rattle.c_programs.specs.Declarators.{declared_type};
ghost use Rattle.c_programs.specs.Statements as statements;
ghost use Rattle.c_spots.specs.Spots as spec;
ghost use Rattle.c_spots.specs.SpotViews.{shown_owner, shown_spots, shown_where};
ghost use Rattle.c_names.specs.Table.{known_of};
ghost use Rattle.c_names.specs.Sources.{declared_by};

use crate::allocations::{
    declared_lengths, push_allocations, push_initial_allocations, push_lengths_allocations,
    push_maybe_allocations,
};
use crate::spot::{Owner, Spot, Where, push_kept};
use c_locals::is_kept_declared;
use c_names::{Table, declared_name};
use c_programs::{copy_of, declare_object, declared_type, ref_of, value_target};
use c_tree::{Declaration, Declarator, Expr, ForStart, Initial, Item, Part, Specifier, Stmt};
use c_types::{ObjectType, Target};
use rr_base::List;
use std::alloc::{AllocError, Global};

/// An object of the type, and what the lengths of its arrays allocate.
fn push_declared<'a>(
    alloc: Global,
    table: &Table,
    here: Where<'a>,
    number: usize,
    specifier: &Specifier,
    declarator: &'a Declarator,
    of: &Option<ObjectType>,
    out: &mut List<Spot<'a>>,
) -> Result<(), AllocError>
    requires { of.now ≡ declared_type (known_of table.now) specifier.now (declared_of declarator.now) }
    ensures { OnOk result (shown_spots out.new ≡ shown_spots out.old ++ spec.declared_spots (shown_where here.entry) (known_of table.now) number specifier.now (declared_of declarator.now)) }
{
    let name = declared_name(declarator);
    let is_cell = here.keeps(number, is_kept_declared(specifier, declarator));
    push_kept(
        alloc,
        is_cell,
        here.holder(name.text.as_slice()),
        name,
        of,
        out,
    )?;
    push_lengths_allocations(alloc, table, declared_lengths(declarator), out)
}

fn push_plain<'a>(
    alloc: Global,
    table: &mut Table<'a>,
    here: Where<'a>,
    number: usize,
    specifier: &Specifier,
    declarator: &'a Declarator,
    out: &mut List<Spot<'a>>,
) -> Result<(), AllocError>
    ensures known { OnOk result (known_of table.new ≡ statements.after_declared (known_of table.old) (spec.is_global_level (shown_where here.entry)) specifier.now (declared_of declarator.now)) }
    ensures out { OnOk result (shown_spots out.new ≡ shown_spots out.old ++ spec.declared_spots (shown_where here.entry) (known_of table.old) number specifier.now (declared_of declarator.now)) }
{
    let of = declared_type(alloc, &*table, specifier, declarator)?;
    push_declared(
        alloc, &*table, here, number, specifier, declarator, &of, out,
    )?;
    declare_object(table, here.is_global(), declared_name(declarator), of)
}

/// An object that starts as something.
fn push_initialised<'a>(
    alloc: Global,
    table: &mut Table<'a>,
    here: Where<'a>,
    number: usize,
    specifier: &Specifier,
    declarator: &'a Declarator,
    initial: &Initial,
    out: &mut List<Spot<'a>>,
) -> Result<(), AllocError>
    ensures known { OnOk result (known_of table.new ≡ statements.after_declared (known_of table.old) (spec.is_global_level (shown_where here.entry)) specifier.now (declared_of declarator.now)) }
    ensures out { OnOk result (shown_spots out.new ≡ shown_spots out.old ++ spec.initialised_spots (shown_where here.entry) (known_of table.old) number specifier.now (declared_of declarator.now) (init_of initial.now)) }
{
    let of = declared_type(alloc, &*table, specifier, declarator)?;
    push_declared(
        alloc, &*table, here, number, specifier, declarator, &of, out,
    )?;
    let kept = copy_of(alloc, &of)?;
    declare_object(table, here.is_global(), declared_name(declarator), of)?;
    push_initial_allocations(alloc, &*table, value_target(ref_of(&kept)), initial, out)
}

fn push_object<'a>(
    alloc: Global,
    table: &mut Table<'a>,
    here: Where<'a>,
    number: usize,
    specifier: &Specifier,
    item: &'a Item,
    out: &mut List<Spot<'a>>,
) -> Result<(), AllocError>
    ensures known { OnOk result (known_of table.new ≡ statements.after_declared (known_of table.old) (spec.is_global_level (shown_where here.entry)) specifier.now (declared_by (object_of item.now))) }
    ensures out { OnOk result (shown_spots out.new ≡ shown_spots out.old ++ spec.object_spots (shown_where here.entry) (known_of table.old) number specifier.now (object_of item.now)) }
{
    match item {
        Item::Plain(declarator) => {
            push_plain(alloc, table, here, number, specifier, declarator, out)
        }
        Item::Initialised {
            declarator,
            initial,
            ..
        } => push_initialised(
            alloc, table, here, number, specifier, declarator, initial, out,
        ),
    }
}

/// So many more numbers are used. More than the machine can count don't fit its memory either.
pub fn advance(next: &mut usize) -> Result<(), AllocError>
    ensures { OnOk result (next.new ≡ next.old + 1) }
{
    let Some(more) = next.checked_add(1) else {
        return Err(AllocError);
    };
    *next = more;
    Ok(())
}

/// The objects of one specifier, numbered from `next`.
pub fn push_objects<'a>(
    alloc: Global,
    table: &mut Table<'a>,
    here: Where<'a>,
    next: &mut usize,
    specifier: &Specifier,
    items: &'a [Item],
    out: &mut List<Spot<'a>>,
) -> Result<(), AllocError>
    ensures known { OnOk result (known_of table.new ≡ statements.after_objects (known_of table.old) (spec.is_global_level (shown_where here.entry)) specifier.now (map object_of items.now)) }
    ensures next { OnOk result (next.new ≡ next.old + length items.now) }
    ensures out { OnOk result (shown_spots out.new ≡ shown_spots out.old ++ spec.objects_spots (shown_where here.entry) (known_of table.old) next.old specifier.now (map object_of items.now)) }
{
    for item in items {
        push_object(alloc, table, here, *next, specifier, item, out)?;
        advance(next)?;
    }
    Ok(())
}

/// A declaration in a block.
fn push_declares<'a>(
    alloc: Global,
    table: &mut Table<'a>,
    owner: Owner<'a>,
    next: &mut usize,
    declaration: &'a Declaration,
    out: &mut List<Spot<'a>>,
) -> Result<(), AllocError>
    ensures known { OnOk result (known_of table.new ≡ statements.after_declares (known_of table.old) (declares_of declaration.now)) }
    ensures next { OnOk result (next.new ≡ next.old + count_of_declares (declares_of declaration.now)) }
    ensures out { OnOk result (shown_spots out.new ≡ shown_spots out.old ++ spec.declares_spots (shown_owner owner.entry) (known_of table.old) next.old (declares_of declaration.now)) }
{
    let here = Where::InFunction(owner);
    let items = declaration.items.as_slice();
    push_objects(alloc, table, here, next, &declaration.specifier, items, out)
}

fn push_start<'a>(
    alloc: Global,
    table: &mut Table<'a>,
    owner: Owner<'a>,
    next: &mut usize,
    start: &'a ForStart,
    out: &mut List<Spot<'a>>,
) -> Result<(), AllocError>
    ensures known { OnOk result (known_of table.new ≡ statements.after_start (known_of table.old) (start_of start.now)) }
    ensures next { OnOk result (next.new ≡ next.old + count_of_start (start_of start.now)) }
    ensures out { OnOk result (shown_spots out.new ≡ shown_spots out.old ++ spec.start_spots (shown_owner owner.entry) (known_of table.old) next.old (start_of start.now)) }
{
    match start {
        ForStart::Declares(declaration) => {
            push_declares(alloc, table, owner, next, declaration, out)
        }
        ForStart::Computes(e) => push_maybe_allocations(alloc, &*table, e, out),
    }
}

/// What stands in the parentheses of a `for`.
fn push_for<'a>(
    alloc: Global,
    table: &mut Table<'a>,
    owner: Owner<'a>,
    next: &mut usize,
    start: &'a ForStart,
    test: &Option<Expr>,
    step: &Option<Expr>,
    out: &mut List<Spot<'a>>,
) -> Result<(), AllocError>
    ensures known { OnOk result (known_of table.new ≡ statements.after_start (known_of table.old) (start_of start.now)) }
    ensures next { OnOk result (next.new ≡ next.old + count_of_start (start_of start.now)) }
    ensures out { OnOk result (shown_spots out.new ≡ shown_spots out.old ++ spec.for_spots (shown_owner owner.entry) (known_of table.old) next.old (start_of start.now) (maybe_of test.now) (maybe_of step.now)) }
{
    push_start(alloc, table, owner, next, start, out)?;
    push_maybe_allocations(alloc, &*table, test, out)?;
    push_maybe_allocations(alloc, &*table, step, out)
}

/// The locals of a statement are numbered from `next`.
#[cycle(statement_spots)]
fn push_statement<'a>(
    alloc: Global,
    table: &mut Table<'a>,
    owner: Owner<'a>,
    next: &mut usize,
    stmt: &'a Stmt,
    out: &mut List<Spot<'a>>,
) -> Result<(), AllocError>
    ensures known { OnOk result (known_of table.new ≡ known_of table.old) }
    ensures next { OnOk result (next.new ≡ next.old + count_of_locals (stmt_of stmt.now)) }
    ensures out { OnOk result (shown_spots out.new ≡ shown_spots out.old ++ spec.statement_spots (shown_owner owner.entry) (known_of table.old) next.old (stmt_of stmt.now)) }
{
    match stmt {
        Stmt::Block { parts, .. } => {
            table.open(alloc)?;
            push_parts(alloc, table, owner, next, parts.as_slice(), out)?;
            table.close();
            Ok(())
        }
        Stmt::Expression { value, .. } => push_maybe_allocations(alloc, &*table, value, out),
        Stmt::Break { .. } => Ok(()),
        Stmt::Continue { .. } => Ok(()),
        Stmt::Return { value, .. } => push_maybe_allocations(alloc, &*table, value, out),
        Stmt::If { test, yes, no, .. } => {
            push_allocations(alloc, &*table, Target::No, test, out)?;
            push_statement(alloc, table, owner, next, yes, out)?;
            match no {
                None => Ok(()),
                Some(no) => push_statement(alloc, table, owner, next, no, out),
            }
        }
        Stmt::While { test, body, .. } => {
            push_allocations(alloc, &*table, Target::No, test, out)?;
            push_statement(alloc, table, owner, next, body, out)
        }
        Stmt::Do { body, test, .. } => {
            push_statement(alloc, table, owner, next, body, out)?;
            push_allocations(alloc, &*table, Target::No, test, out)
        }
        Stmt::For {
            start,
            test,
            step,
            body,
            ..
        } => {
            table.open(alloc)?;
            push_for(alloc, table, owner, next, start, test, step, out)?;
            push_statement(alloc, table, owner, next, body, out)?;
            table.close();
            Ok(())
        }
    }
}

/// What stands in a block, one after another. Its declarations stay in the innermost scope.
#[cycle(statement_spots)]
pub fn push_parts<'a>(
    alloc: Global,
    table: &mut Table<'a>,
    owner: Owner<'a>,
    next: &mut usize,
    parts: &'a [Part],
    out: &mut List<Spot<'a>>,
) -> Result<(), AllocError>
    ensures known { OnOk result (known_of table.new ≡ statements.after_parts (known_of table.old) (listed_parts (map part_of parts.now))) }
    ensures next { OnOk result (next.new ≡ next.old + count_of_parts (listed_parts (map part_of parts.now))) }
    ensures out { OnOk result (shown_spots out.new ≡ shown_spots out.old ++ spec.parts_spots (shown_owner owner.entry) (known_of table.old) next.old (listed_parts (map part_of parts.now))) }
{
    for part in parts {
        match part {
            Part::Declares(declaration) => {
                push_declares(alloc, table, owner, next, declaration, out)?;
            }
            Part::Does(stmt) => push_statement(alloc, table, owner, next, stmt, out)?,
        }
    }
    Ok(())
}

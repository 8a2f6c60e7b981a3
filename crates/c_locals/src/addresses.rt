//! To which locals and formals `&` is applied anywhere in a source: they are kept in cells (C99 6.5.3.2).
ghost use Rattle.std.specs.Prelude.{◌≡◌, ◌+◌, ◌++◌, OnOk, IfOk, map, length};
ghost use Rattle.c_tree.specs.Tree.{listed, listed_inits, listed_parts};
ghost use Rattle.c_tree.specs.View.{exp_of, maybe_of, formal_of, declared_of, init_of, object_of, declares_of, start_of, stmt_of, part_of, code_of, outer_of, program_of};
ghost use Rattle.c_locals.specs.Addresses as spec;
ghost use Rattle.c_numbers.specs.NumberTables.{numbered_of};
ghost use Rattle.c_types.specs.Constants.{is_address};
ghost use Rattle.c_names.specs.Sources.{declared_by};

use crate::marks::Marks;
use c_names::{declared_name, listed, param_name};
use c_numbers::NumberTable;
use c_tree::{
    Body, Declaration, Declarator, Expr, External, ForStart, Initial, Item, Param, Params, Part,
    PrefixOp, Program, Stmt,
};
use rr_base::List;
use std::alloc::{AllocError, Global};

fn push_seen(number: Option<usize>, out: &mut List<usize>) -> Result<(), AllocError>
    ensures { OnOk result (out.new ≡ out.old ++ spec.maybe_listed number) }
{
    match number {
        None => Ok(()),
        Some(number) => out.push(number),
    }
}

/// The operand of `&`.
fn push_operand(table: &NumberTable, e: &Expr, out: &mut List<usize>) -> Result<(), AllocError>
    ensures { OnOk result (out.new ≡ out.old ++ spec.number_of_operand (numbered_of table.now) (exp_of e.now)) }
{
    match e {
        Expr::Name { name, .. } => push_seen(table.seen(name.as_slice()), out),
        Expr::Paren { inner, .. } => push_operand(table, inner, out),
        Expr::Comma { .. }
        | Expr::Assign { .. }
        | Expr::Conditional { .. }
        | Expr::Binary { .. }
        | Expr::Prefix { .. }
        | Expr::SizeofExpr { .. }
        | Expr::SizeofType { .. }
        | Expr::Cast { .. }
        | Expr::Index { .. }
        | Expr::Member { .. }
        | Expr::Arrow { .. }
        | Expr::PostIncrement { .. }
        | Expr::PostDecrement { .. }
        | Expr::Call { .. }
        | Expr::Number { .. }
        | Expr::Letter { .. }
        | Expr::Text { .. }
        | Expr::Null { .. } => Ok(()),
    }
}

fn is_address(op: PrefixOp) -> bool
    ensures { result ≡ is_address op }
{
    match op {
        PrefixOp::Address => true,
        PrefixOp::Indirect
        | PrefixOp::Plus
        | PrefixOp::Minus
        | PrefixOp::Not
        | PrefixOp::Complement
        | PrefixOp::Increment
        | PrefixOp::Decrement => false,
    }
}

fn push_prefix(
    table: &NumberTable,
    op: PrefixOp,
    operand: &Expr,
    out: &mut List<usize>,
) -> Result<(), AllocError>
    ensures { OnOk result (out.new ≡ out.old ++ spec.where_address (is_address op) (spec.number_of_operand (numbered_of table.now) (exp_of operand.now))) }
{
    if is_address(op) {
        push_operand(table, operand, out)
    } else {
        Ok(())
    }
}

#[cycle(addressed)]
fn push_addressed(table: &NumberTable, e: &Expr, out: &mut List<usize>) -> Result<(), AllocError>
    ensures { OnOk result (out.new ≡ out.old ++ spec.addressed (numbered_of table.now) (exp_of e.now)) }
{
    match e {
        Expr::Comma { first, rest, .. } => {
            push_addressed(table, first, out)?;
            push_all_addressed(table, rest.as_slice(), out)
        }
        Expr::Assign { left, right, .. } => {
            push_addressed(table, left, out)?;
            push_addressed(table, right, out)
        }
        Expr::Conditional { test, yes, no, .. } => {
            push_addressed(table, test, out)?;
            push_addressed(table, yes, out)?;
            push_addressed(table, no, out)
        }
        Expr::Binary { left, right, .. } => {
            push_addressed(table, left, out)?;
            push_addressed(table, right, out)
        }
        Expr::Prefix { op, operand, .. } => {
            push_prefix(table, *op, operand, out)?;
            push_addressed(table, operand, out)
        }
        Expr::SizeofExpr { operand, .. } => push_addressed(table, operand, out),
        Expr::Cast { operand, .. } => push_addressed(table, operand, out),
        Expr::Index { base, index, .. } => {
            push_addressed(table, base, out)?;
            push_addressed(table, index, out)
        }
        Expr::Member { base, .. } => push_addressed(table, base, out),
        Expr::Arrow { base, .. } => push_addressed(table, base, out),
        Expr::PostIncrement { operand, .. } => push_addressed(table, operand, out),
        Expr::PostDecrement { operand, .. } => push_addressed(table, operand, out),
        Expr::Call { arguments, .. } => push_all_addressed(table, arguments.as_slice(), out),
        Expr::Paren { inner, .. } => push_addressed(table, inner, out),
        Expr::SizeofType { .. }
        | Expr::Name { .. }
        | Expr::Number { .. }
        | Expr::Letter { .. }
        | Expr::Text { .. }
        | Expr::Null { .. } => Ok(()),
    }
}

#[cycle(addressed)]
fn push_all_addressed(
    table: &NumberTable,
    es: &[Expr],
    out: &mut List<usize>,
) -> Result<(), AllocError>
    ensures { OnOk result (out.new ≡ out.old ++ spec.all_addressed (numbered_of table.now) (listed (map exp_of es.now))) }
{
    for e in es {
        push_addressed(table, e, out)?;
    }
    Ok(())
}

fn push_maybe_addressed(
    table: &NumberTable,
    e: &Option<Expr>,
    out: &mut List<usize>,
) -> Result<(), AllocError>
    ensures { OnOk result (out.new ≡ out.old ++ spec.maybe_addressed (numbered_of table.now) (maybe_of e.now)) }
{
    match e {
        None => Ok(()),
        Some(e) => push_addressed(table, e, out),
    }
}

fn push_lengths(
    table: &NumberTable,
    lengths: &[Expr],
    out: &mut List<usize>,
) -> Result<(), AllocError>
    ensures { OnOk result (out.new ≡ out.old ++ spec.lengths_addressed (numbered_of table.now) (map exp_of lengths.now)) }
{
    for length in lengths {
        push_addressed(table, length, out)?;
    }
    Ok(())
}

fn push_declared(
    table: &NumberTable,
    declarator: &Declarator,
    out: &mut List<usize>,
) -> Result<(), AllocError>
    ensures { OnOk result (out.new ≡ out.old ++ spec.declared_addressed (numbered_of table.now) (declared_of declarator.now)) }
{
    match declarator {
        Declarator::Object { lengths, .. } => push_lengths(table, lengths.as_slice(), out),
        Declarator::Pointer { .. } => Ok(()),
    }
}

#[cycle(initial_addressed)]
fn push_initial(
    table: &NumberTable,
    initial: &Initial,
    out: &mut List<usize>,
) -> Result<(), AllocError>
    ensures { OnOk result (out.new ≡ out.old ++ spec.initial_addressed (numbered_of table.now) (init_of initial.now)) }
{
    match initial {
        Initial::Value(e) => push_addressed(table, e, out),
        Initial::Braces { parts, .. } => push_initials(table, parts.as_slice(), out),
        Initial::Mutex { .. } => Ok(()),
        Initial::Cond { .. } => Ok(()),
        Initial::RwLock { .. } => Ok(()),
    }
}

#[cycle(initial_addressed)]
fn push_initials(
    table: &NumberTable,
    initials: &[Initial],
    out: &mut List<usize>,
) -> Result<(), AllocError>
    ensures { OnOk result (out.new ≡ out.old ++ spec.initials_addressed (numbered_of table.now) (listed_inits (map init_of initials.now))) }
{
    for initial in initials {
        push_initial(table, initial, out)?;
    }
    Ok(())
}

/// The object is numbered after its declarator.
fn push_object<'a>(
    table: &mut NumberTable<'a>,
    item: &'a Item,
    out: &mut List<usize>,
) -> Result<(), AllocError>
    ensures known { OnOk result (numbered_of table.new ≡ spec.after_name (numbered_of table.old) (declared_by (object_of item.now))) }
    ensures out { OnOk result (out.new ≡ out.old ++ spec.object_addressed (numbered_of table.old) (object_of item.now)) }
{
    match item {
        Item::Plain(declarator) => {
            push_declared(&*table, declarator, out)?;
            table.number(declared_name(declarator))
        }
        Item::Initialised {
            declarator,
            initial,
            ..
        } => {
            push_declared(&*table, declarator, out)?;
            table.number(declared_name(declarator))?;
            push_initial(&*table, initial, out)
        }
    }
}

fn push_objects<'a>(
    table: &mut NumberTable<'a>,
    items: &'a [Item],
    out: &mut List<usize>,
) -> Result<(), AllocError>
    ensures known { OnOk result (numbered_of table.new ≡ spec.after_names (numbered_of table.old) (map object_of items.now)) }
    ensures out { OnOk result (out.new ≡ out.old ++ spec.objects_addressed (numbered_of table.old) (map object_of items.now)) }
{
    for item in items {
        push_object(table, item, out)?;
    }
    Ok(())
}

fn push_declares<'a>(
    table: &mut NumberTable<'a>,
    declaration: &'a Declaration,
    out: &mut List<usize>,
) -> Result<(), AllocError>
    ensures known { OnOk result (numbered_of table.new ≡ spec.after_declaration (numbered_of table.old) (declares_of declaration.now)) }
    ensures out { OnOk result (out.new ≡ out.old ++ spec.declares_addressed (numbered_of table.old) (declares_of declaration.now)) }
{
    push_objects(table, declaration.items.as_slice(), out)
}

fn push_start<'a>(
    table: &mut NumberTable<'a>,
    start: &'a ForStart,
    out: &mut List<usize>,
) -> Result<(), AllocError>
    ensures known { OnOk result (numbered_of table.new ≡ spec.after_for_start (numbered_of table.old) (start_of start.now)) }
    ensures out { OnOk result (out.new ≡ out.old ++ spec.start_addressed (numbered_of table.old) (start_of start.now)) }
{
    match start {
        ForStart::Declares(declaration) => push_declares(table, declaration, out),
        ForStart::Computes(e) => push_maybe_addressed(&*table, e, out),
    }
}

/// What stands in the parentheses of a `for`.
fn push_for<'a>(
    table: &mut NumberTable<'a>,
    start: &'a ForStart,
    test: &Option<Expr>,
    step: &Option<Expr>,
    out: &mut List<usize>,
) -> Result<(), AllocError>
    ensures known { OnOk result (numbered_of table.new ≡ spec.after_for_start (numbered_of table.old) (start_of start.now)) }
    ensures out { OnOk result (out.new ≡ out.old ++ spec.for_addressed (numbered_of table.old) (start_of start.now) (maybe_of test.now) (maybe_of step.now)) }
{
    push_start(table, start, out)?;
    push_maybe_addressed(&*table, test, out)?;
    push_maybe_addressed(&*table, step, out)
}

/// The names that the statement declares are numbered, and are not seen after it.
#[cycle(statement_addressed)]
#[tactic(auto, using(crate::proofs::Numbering::numbering))]
fn push_statement<'a>(
    alloc: Global,
    table: &mut NumberTable<'a>,
    stmt: &'a Stmt,
    out: &mut List<usize>,
) -> Result<(), AllocError>
    ensures known { OnOk result (numbered_of table.new ≡ spec.past_statement (numbered_of table.old) (stmt_of stmt.now)) }
    ensures out { OnOk result (out.new ≡ out.old ++ spec.statement_addressed (numbered_of table.old) (stmt_of stmt.now)) }
{
    match stmt {
        Stmt::Block { parts, .. } => {
            table.open(alloc)?;
            push_parts(alloc, table, parts.as_slice(), out)?;
            table.close();
            Ok(())
        }
        Stmt::Expression { value, .. } => push_maybe_addressed(&*table, value, out),
        Stmt::Break { .. } => Ok(()),
        Stmt::Continue { .. } => Ok(()),
        Stmt::Return { value, .. } => push_maybe_addressed(&*table, value, out),
        Stmt::If { test, yes, no, .. } => {
            push_addressed(&*table, test, out)?;
            push_statement(alloc, table, yes, out)?;
            match no {
                None => Ok(()),
                Some(no) => push_statement(alloc, table, no, out),
            }
        }
        Stmt::While { test, body, .. } => {
            push_addressed(&*table, test, out)?;
            push_statement(alloc, table, body, out)
        }
        Stmt::Do { body, test, .. } => {
            push_statement(alloc, table, body, out)?;
            push_addressed(&*table, test, out)
        }
        Stmt::For {
            start,
            test,
            step,
            body,
            ..
        } => {
            table.open(alloc)?;
            push_for(table, start, test, step, out)?;
            push_statement(alloc, table, body, out)?;
            table.close();
            Ok(())
        }
    }
}

/// What stands in a block, one after another.
#[cycle(statement_addressed)]
#[tactic(auto, using(crate::proofs::Numbering::numbering))]
fn push_parts<'a>(
    alloc: Global,
    table: &mut NumberTable<'a>,
    parts: &'a [Part],
    out: &mut List<usize>,
) -> Result<(), AllocError>
    ensures known { OnOk result (numbered_of table.new ≡ spec.past_parts (numbered_of table.old) (listed_parts (map part_of parts.now))) }
    ensures out { OnOk result (out.new ≡ out.old ++ spec.parts_addressed (numbered_of table.old) (listed_parts (map part_of parts.now))) }
{
    for part in parts {
        match part {
            Part::Declares(declaration) => push_declares(table, declaration, out)?,
            Part::Does(stmt) => push_statement(alloc, table, stmt, out)?,
        }
    }
    Ok(())
}

/// The names of the formals are numbered. One without a name has a number too.
pub fn number_formals<'a>(
    table: &mut NumberTable<'a>,
    params: &'a [Param],
) -> Result<(), AllocError>
    ensures { OnOk result (numbered_of table.new ≡ spec.after_formals (numbered_of table.old) (map formal_of params.now)) }
{
    for param in params {
        match param_name(param) {
            None => table.skip()?,
            Some(name) => table.number(name)?,
        }
    }
    Ok(())
}

/// What follows is numbered from what it gives.
fn push_definition(
    alloc: Global,
    next: usize,
    params: &[Param],
    parts: &[Part],
    out: &mut List<usize>,
) -> Result<usize, AllocError>
    ensures next { IfOk result (λ n. n ≡ next + (length (map formal_of params.now) + spec.count_of_parts (listed_parts (map part_of parts.now)))) }
    ensures out { OnOk result (out.new ≡ out.old ++ spec.parts_addressed (spec.numbered_from next (map formal_of params.now)) (listed_parts (map part_of parts.now))) }
{
    let mut table = NumberTable::new(alloc, next)?;
    number_formals(&mut table, params)?;
    push_parts(alloc, &mut table, parts, out)?;
    Ok(table.next())
}

fn push_code(
    alloc: Global,
    next: usize,
    params: &[Param],
    body: &Body,
    out: &mut List<usize>,
) -> Result<usize, AllocError>
    ensures next { IfOk result (λ n. n ≡ next + spec.count_of_code (map formal_of params.now) (code_of body.now)) }
    ensures out { OnOk result (out.new ≡ out.old ++ spec.code_addressed next (map formal_of params.now) (code_of body.now)) }
{
    match body {
        Body::Block { parts, .. } => push_definition(alloc, next, params, parts.as_slice(), out),
        Body::Prototype => Ok(next),
    }
}

fn push_outer(
    alloc: Global,
    next: usize,
    external: &External,
    out: &mut List<usize>,
) -> Result<usize, AllocError>
    ensures next { IfOk result (λ n. n ≡ next + spec.count_of_outer (outer_of external.now)) }
    ensures out { OnOk result (out.new ≡ out.old ++ spec.outer_addressed next (outer_of external.now)) }
{
    match external {
        External::Function { params, body, .. } => {
            push_code(alloc, next, listed(params), body, out)
        }
        External::Struct { .. } => Ok(next),
        External::Objects { .. } => Ok(next),
    }
}

fn push_program(alloc: Global, program: &Program, out: &mut List<usize>) -> Result<(), AllocError>
    ensures { OnOk result (out.new ≡ out.old ++ spec.program_addressed (program_of program.now)) }
{
    let mut next = 0;
    for external in program.externals.as_slice() {
        next = push_outer(alloc, next, external, out)?;
    }
    Ok(())
}

/// The locals and formals to which `&` is applied.
pub fn addressed_in(alloc: Global, program: &Program) -> Result<Marks, AllocError>
    ensures { IfOk result (λ marks. marks.numbers ≡ spec.program_addressed (program_of program.now)) }
{
    let mut numbers = List::new(alloc);
    push_program(alloc, program, &mut numbers)?;
    Marks::of(alloc, numbers)
}

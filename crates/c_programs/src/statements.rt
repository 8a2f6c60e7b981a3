//! Statements (C99 6.8).
#![tactic(auto, using(c_types::proofs::First::first_of_both))]

ghost use Rattle.std.specs.Prelude.{◌≡◌, ◌++◌, true, OnOk, map};
ghost use Rattle.c_tree.specs.Tree.{for_loop, listed_parts};
ghost use Rattle.c_tree.specs.View.{exp_of, maybe_of, start_of, stmt_of, part_of};
ghost use Rattle.c_types.specs.Found.{first_among};
ghost use Rattle.c_rules.specs.Faults as faults;
ghost use Rattle.c_programs.specs.Statements as spec;
ghost use Rattle.c_types.specs.Shown.{shown_operand, shown_standing};
ghost use Rattle.c_names.specs.Table.{known_of};

use crate::objects::note_declaration;
use c_names::Table;
use c_rules::{can_go, judge, note_mismatch, own_place};
use c_tree::{Expr, ForStart, Part, Stmt};
use c_types::{Found, Names, Operand, Standing, StarredType, Target, TypeRef, accepts};
use rr_base::Position;
use std::alloc::{AllocError, Global};

/// Notes a value that can't be let go.
fn note_go(of: Standing, e: &Expr, first: &mut Option<Found>)
    ensures { first.new ≡ first_among first.old (faults.go_faults (shown_standing of.entry) (exp_of e.now)) }
{
    let at = own_place(e);
    note_mismatch(first, !can_go(of), at);
}

/// An expression for what it does, if there is one.
fn note_computed<N: Names>(names: &N, e: &Option<Expr>, first: &mut Option<Found>)
    ensures { first.new ≡ first_among first.old (spec.computed_faults (N.known names.now) (maybe_of e.now)) }
{
    match e {
        None => {}
        Some(e) => {
            let of = judge(names, Target::No, e, first);
            note_go(of, e, first);
        }
    }
}

/// A condition of the statement at the place.
fn note_condition<N: Names>(names: &N, at: Position, e: &Expr, first: &mut Option<Found>)
    ensures { first.new ≡ first_among first.old (spec.condition_faults (N.known names.now) at (exp_of e.now)) }
{
    let of = Operand::of(judge(names, Target::No, e, first));
    note_mismatch(first, !of.is_scalar(), at);
}

fn note_test<N: Names>(names: &N, at: Position, e: &Option<Expr>, first: &mut Option<Found>)
    ensures { first.new ≡ first_among first.old (spec.test_faults (N.known names.now) at (maybe_of e.now)) }
{
    match e {
        None => {}
        Some(e) => note_condition(names, at, e, first),
    }
}

fn gives_fit(gives: Option<StarredType>, of: Operand) -> bool
    ensures { result ≡ spec.gives_fit gives (shown_operand of.entry) }
{
    match gives {
        None => of.is_scalar(),
        Some(gives) => accepts(TypeRef::starred(gives.stars, gives.base), of),
    }
}

fn note_return<N: Names>(
    names: &N,
    gives: Option<StarredType>,
    at: Position,
    e: &Option<Expr>,
    first: &mut Option<Found>,
)
    ensures { first.new ≡ first_among first.old (spec.return_faults (N.known names.now) gives at (maybe_of e.now)) }
{
    match e {
        None => {}
        Some(e) => {
            let of = Operand::of(judge(names, Target::No, e, first));
            note_mismatch(first, !gives_fit(gives, of), at);
        }
    }
}

fn note_start_of_for<'a>(
    alloc: Global,
    table: &mut Table<'a>,
    start: &'a ForStart,
    first: &mut Option<Found>,
) -> Result<(), AllocError>
    ensures known { OnOk result (known_of table.new ≡ spec.after_start (known_of table.old) (start_of start.now)) }
    ensures first { OnOk result (first.new ≡ first_among first.old (spec.start_of_for_faults (known_of table.old) (start_of start.now))) }
{
    match start {
        ForStart::Declares(declaration) => note_declaration(alloc, table, declaration, first),
        ForStart::Computes(value) => {
            note_computed(&*table, value, first);
            Ok(())
        }
    }
}

/// What stands in the parentheses of a `for`, in its scope.
fn note_head_of_for<'a>(
    alloc: Global,
    table: &mut Table<'a>,
    start: &'a ForStart,
    test: &Option<Expr>,
    step: &Option<Expr>,
    at: Position,
    first: &mut Option<Found>,
) -> Result<(), AllocError>
    ensures known { OnOk result (known_of table.new ≡ spec.after_start (known_of table.old) (start_of start.now)) }
    ensures first { OnOk result (let known = known_of table.old in let s = start_of start.now in first.new ≡ first_among first.old (spec.start_of_for_faults known s ++ spec.test_faults (spec.after_start known s) at (maybe_of test.now) ++ spec.computed_faults (spec.after_start known s) (maybe_of step.now))) }
{
    note_start_of_for(alloc, table, start, first)?;
    note_test(&*table, at, test, first);
    note_computed(&*table, step, first);
    Ok(())
}

/// Notes what is wrong with a statement. `gives` is the type of what its function gives.
#[cycle(statement)]
pub fn note_statement<'a>(
    alloc: Global,
    table: &mut Table<'a>,
    gives: Option<StarredType>,
    in_loop: bool,
    stmt: &'a Stmt,
    first: &mut Option<Found>,
) -> Result<(), AllocError>
    ensures known { OnOk result (known_of table.new ≡ known_of table.old) }
    ensures first { OnOk result (first.new ≡ first_among first.old (spec.statement_faults (known_of table.old) gives in_loop (stmt_of stmt.now))) }
{
    match stmt {
        Stmt::Block { parts, .. } => {
            table.open(alloc)?;
            note_parts(alloc, table, gives, in_loop, parts.as_slice(), first)?;
            table.close();
            Ok(())
        }
        Stmt::Expression { value, .. } => {
            note_computed(&*table, value, first);
            Ok(())
        }
        Stmt::Break { at } | Stmt::Continue { at } => {
            note_mismatch(first, !in_loop, *at);
            Ok(())
        }
        Stmt::Return { value, at } => {
            note_return(&*table, gives, *at, value, first);
            Ok(())
        }
        Stmt::If { test, yes, no, at } => {
            note_condition(&*table, *at, test, first);
            note_statement(alloc, table, gives, in_loop, yes, first)?;
            match no {
                None => Ok(()),
                Some(no) => note_statement(alloc, table, gives, in_loop, no, first),
            }
        }
        Stmt::While { test, body, at } => {
            note_condition(&*table, *at, test, first);
            note_statement(alloc, table, gives, true, body, first)
        }
        Stmt::Do { body, test, at } => {
            note_statement(alloc, table, gives, true, body, first)?;
            note_condition(&*table, *at, test, first);
            Ok(())
        }
        Stmt::For {
            start,
            test,
            step,
            body,
            at,
        } => note_for(alloc, table, gives, body, start, test, step, *at, first),
    }
}

/// Notes what is wrong with a `for`, in a scope of its own (C99 6.8.5.3).
#[cycle(statement)]
fn note_for<'a>(
    alloc: Global,
    table: &mut Table<'a>,
    gives: Option<StarredType>,
    body: &'a Stmt,
    start: &'a ForStart,
    test: &Option<Expr>,
    step: &Option<Expr>,
    at: Position,
    first: &mut Option<Found>,
) -> Result<(), AllocError>
    ensures known { OnOk result (known_of table.new ≡ known_of table.old) }
    ensures first { OnOk result (first.new ≡ first_among first.old (spec.statement_faults (known_of table.old) gives true (for_loop (start_of start.now) (maybe_of test.now) (maybe_of step.now) (stmt_of body.now) at))) }
{
    table.open(alloc)?;
    note_head_of_for(alloc, table, start, test, step, at, first)?;
    note_statement(alloc, table, gives, true, body, first)?;
    table.close();
    Ok(())
}

/// Notes what is wrong with what stands in a block. Its declarations stay in the innermost scope.
#[cycle(statement)]
pub fn note_parts<'a>(
    alloc: Global,
    table: &mut Table<'a>,
    gives: Option<StarredType>,
    in_loop: bool,
    parts: &'a [Part],
    first: &mut Option<Found>,
) -> Result<(), AllocError>
    ensures known { OnOk result (known_of table.new ≡ spec.after_parts (known_of table.old) (listed_parts (map part_of parts.now))) }
    ensures first { OnOk result (first.new ≡ first_among first.old (spec.parts_faults (known_of table.old) gives in_loop (listed_parts (map part_of parts.now)))) }
{
    for part in parts {
        match part {
            Part::Declares(declaration) => note_declaration(alloc, table, declaration, first)?,
            Part::Does(stmt) => note_statement(alloc, table, gives, in_loop, stmt, first)?,
        }
    }
    Ok(())
}

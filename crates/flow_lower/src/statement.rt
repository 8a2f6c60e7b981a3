//! The code of statements.
ghost use Rattle.std.specs.Prelude.{◌≡◌, ◌+◌, ◌++◌, ◌∷◌, map, length, IfOk, OnOk};
ghost use Rattle.flow_code.specs.declared.act.Act.TheVariants as act;
ghost use Rattle.core_tree.specs.Core.{listed_statements};
ghost use Rattle.core_tree.specs.View.{exp_of, maybe_of, stmt_of};
ghost use Rattle.lowering_parts.specs.Kept.{kept, maybe_kept, statement_kept, statements_kept};
ghost use Rattle.flow_lower.specs.Lowered as spec;

use crate::expression::push_value;
use core_tree::{Statement, Value};
use flow_code::{Act, Instr};
use lowering_parts::{Next, maybe_size, push_last, statement_size, test_size, value_size};
use rr_base::{List, Position, sum};
use std::alloc::{AllocError, Global};

/// Where the loop round a statement is left and continued.
#[derive(Clone, Copy, Debug)]
pub struct Around {
    pub out: u32,
    pub on: u32,
}

/// An expression that may not be there.
fn push_maybe(
    alloc: Global,
    first: u32,
    e: &Option<Value>,
    from: Next,
    out: &mut List<Instr>,
) -> Result<Next, AllocError>
    ensures register { IfOk result (λ n. n.register ≡ from.register + length (spec.maybe_kinds (maybe_kept (maybe_of e.now)))) }
    ensures place { IfOk result (λ n. n.place ≡ from.place + spec.maybe_size (maybe_kept (maybe_of e.now))) }
    ensures out { OnOk result (out.new ≡ out.old ++ spec.maybe_code first (maybe_kept (maybe_of e.now)) from.register from.place) }
{
    match e {
        None => Ok(from),
        Some(e) => Ok(push_value(alloc, first, e, from, out)?.following),
    }
}

/// A condition, and the branch to what follows it or to another place.
fn push_condition(
    alloc: Global,
    first: u32,
    e: &Value,
    at: Position,
    from: Next,
    else_at: u32,
    out: &mut List<Instr>,
) -> Result<Next, AllocError>
    ensures register { IfOk result (λ n. n.register ≡ from.register + spec.width (kept (exp_of e.now))) }
    ensures place { IfOk result (λ n. n.place ≡ from.place + spec.exp_size (kept (exp_of e.now)) + 1) }
    ensures out { OnOk result (out.new ≡ out.old ++ (spec.exp_code first (kept (exp_of e.now)) from.register from.place ++ spec.one at (act.Branch (spec.held first (kept (exp_of e.now)) from.register) (from.place + spec.exp_size (kept (exp_of e.now)) + 1) else_at))) }
{
    let tested = push_value(alloc, first, e, from, out)?;
    let act = Act::Branch {
        on: tested.register,
        then_at: sum(tested.following.place, 1)?,
        else_at,
    };
    push_last(out, at, tested.following, act)
}

/// The Mark of a loop, and its condition.
fn push_marked(
    alloc: Global,
    first: u32,
    e: &Value,
    at: Position,
    from: Next,
    else_at: u32,
    out: &mut List<Instr>,
) -> Result<Next, AllocError>
    ensures register { IfOk result (λ n. n.register ≡ from.register + spec.width (kept (exp_of e.now))) }
    ensures place { IfOk result (λ n. n.place ≡ from.place + 1 + spec.exp_size (kept (exp_of e.now)) + 1) }
    ensures out { OnOk result (out.new ≡ out.old ++ (spec.instr at act.Mark ∷ (spec.exp_code first (kept (exp_of e.now)) from.register (from.place + 1) ++ spec.one at (act.Branch (spec.held first (kept (exp_of e.now)) from.register) (from.place + 1 + spec.exp_size (kept (exp_of e.now)) + 1) else_at)))) }
{
    let marked = push_last(out, at, from, Act::Mark)?;
    push_condition(alloc, first, e, at, marked, else_at, out)
}

/// A condition that may not be there.
fn push_test(
    alloc: Global,
    first: u32,
    e: &Option<Value>,
    at: Position,
    from: Next,
    else_at: u32,
    out: &mut List<Instr>,
) -> Result<Next, AllocError>
    ensures register { IfOk result (λ n. n.register ≡ from.register + length (spec.maybe_kinds (maybe_kept (maybe_of e.now)))) }
    ensures place { IfOk result (λ n. n.place ≡ from.place + spec.test_size (maybe_kept (maybe_of e.now))) }
    ensures out { OnOk result (out.new ≡ out.old ++ spec.test_code first at (maybe_kept (maybe_of e.now)) from.register from.place else_at) }
{
    match e {
        None => Ok(from),
        Some(e) => push_condition(alloc, first, e, at, from, else_at, out),
    }
}

fn push_return(
    alloc: Global,
    first: u32,
    e: &Option<Value>,
    at: Position,
    from: Next,
    out: &mut List<Instr>,
) -> Result<Next, AllocError>
    ensures register { IfOk result (λ n. n.register ≡ from.register + length (spec.maybe_kinds (maybe_kept (maybe_of e.now)))) }
    ensures place { IfOk result (λ n. n.place ≡ from.place + (spec.maybe_size (maybe_kept (maybe_of e.now)) + 1)) }
    ensures out { OnOk result (out.new ≡ out.old ++ spec.return_code first at (maybe_kept (maybe_of e.now)) from.register from.place) }
{
    match e {
        None => push_last(out, at, from, Act::Return { value: None }),
        Some(e) => {
            let given = push_value(alloc, first, e, from, out)?;
            let value = Some(given.register);
            push_last(out, at, given.following, Act::Return { value })
        }
    }
}

/// Where an `if` without `else` ends.
fn end_of_if(place: u32, test: &Value, yes: &Statement) -> Result<u32, AllocError>
    ensures { IfOk result (λ n. n ≡ place + spec.exp_size (kept (exp_of test.now)) + 1 + spec.statement_size (statement_kept (stmt_of yes.now))) }
{
    let then_at = sum(sum(place, value_size(test)?)?, 1)?;
    sum(then_at, statement_size(yes)?)
}

/// Where the second branch of an `if` begins, and where it ends.
fn places_of_if(
    place: u32,
    test: &Value,
    yes: &Statement,
    no: &Statement,
) -> Result<(u32, u32), AllocError>
    ensures else_at { IfOk result (λ r. r.0 ≡ place + spec.exp_size (kept (exp_of test.now)) + 1 + spec.statement_size (statement_kept (stmt_of yes.now)) + 1) }
    ensures to { IfOk result (λ r. r.1 ≡ place + spec.exp_size (kept (exp_of test.now)) + 1 + spec.statement_size (statement_kept (stmt_of yes.now)) + 1 + spec.statement_size (statement_kept (stmt_of no.now))) }
{
    let then_at = sum(sum(place, value_size(test)?)?, 1)?;
    let else_at = sum(sum(then_at, statement_size(yes)?)?, 1)?;
    let to = sum(else_at, statement_size(no)?)?;
    Ok((else_at, to))
}

/// Where a loop is left and continued that begins at the place.
fn places_of_while(place: u32, test: &Value, body: &Statement) -> Result<Around, AllocError>
    ensures out { IfOk result (λ r. r.out ≡ place + 1 + spec.exp_size (kept (exp_of test.now)) + 1 + spec.statement_size (statement_kept (stmt_of body.now)) + 1) }
    ensures on { IfOk result (λ r. r.on ≡ place + 1 + spec.exp_size (kept (exp_of test.now)) + 1 + spec.statement_size (statement_kept (stmt_of body.now))) }
{
    let begin = sum(sum(sum(place, 1)?, value_size(test)?)?, 1)?;
    let on = sum(begin, statement_size(body)?)?;
    let out = sum(on, 1)?;
    Ok(Around { out, on })
}

fn places_of_do(place: u32, body: &Statement, test: &Value) -> Result<Around, AllocError>
    ensures out { IfOk result (λ r. r.out ≡ place + 1 + spec.statement_size (statement_kept (stmt_of body.now)) + spec.exp_size (kept (exp_of test.now)) + 1) }
    ensures on { IfOk result (λ r. r.on ≡ place + 1 + spec.statement_size (statement_kept (stmt_of body.now))) }
{
    let on = sum(sum(place, 1)?, statement_size(body)?)?;
    let out = sum(sum(on, value_size(test)?)?, 1)?;
    Ok(Around { out, on })
}

/// The same of a `for` whose Mark is at the place.
fn places_of_for(
    mark: u32,
    test: &Option<Value>,
    body: &Statement,
    step: &Option<Value>,
) -> Result<Around, AllocError>
    ensures out { IfOk result (λ r. r.out ≡ mark + 1 + spec.test_size (maybe_kept (maybe_of test.now)) + spec.statement_size (statement_kept (stmt_of body.now)) + spec.maybe_size (maybe_kept (maybe_of step.now)) + 1) }
    ensures on { IfOk result (λ r. r.on ≡ mark + 1 + spec.test_size (maybe_kept (maybe_of test.now)) + spec.statement_size (statement_kept (stmt_of body.now))) }
{
    let begin = sum(sum(mark, 1)?, test_size(test)?)?;
    let on = sum(begin, statement_size(body)?)?;
    let out = sum(sum(on, maybe_size(step)?)?, 1)?;
    Ok(Around { out, on })
}

/// What comes before the body of a loop: where the body begins, and where it is left and continued.
#[derive(Clone, Copy, Debug)]
struct Head {
    inner: Next,
    inside: Around,
}

/// The condition of an `if` without `else`: its branch goes right after the statement.
fn push_if_head(
    alloc: Global,
    first: u32,
    test: &Value,
    yes: &Statement,
    at: Position,
    from: Next,
    out: &mut List<Instr>,
) -> Result<Next, AllocError>
    ensures register { IfOk result (λ n. n.register ≡ from.register + spec.width (kept (exp_of test.now))) }
    ensures place { IfOk result (λ n. n.place ≡ from.place + spec.exp_size (kept (exp_of test.now)) + 1) }
    ensures out { OnOk result (out.new ≡ out.old ++ (spec.exp_code first (kept (exp_of test.now)) from.register from.place ++ spec.one at (act.Branch (spec.held first (kept (exp_of test.now)) from.register) (from.place + spec.exp_size (kept (exp_of test.now)) + 1) (from.place + spec.exp_size (kept (exp_of test.now)) + 1 + spec.statement_size (statement_kept (stmt_of yes.now)))))) }
{
    let else_at = end_of_if(from.place, test, yes)?;
    push_condition(alloc, first, test, at, from, else_at, out)
}

/// The condition of an `if` with `else`, and where its second branch ends.
fn push_if_else_head(
    alloc: Global,
    first: u32,
    test: &Value,
    yes: &Statement,
    no: &Statement,
    at: Position,
    from: Next,
    out: &mut List<Instr>,
) -> Result<(Next, u32), AllocError>
    ensures register { IfOk result (λ r. r.0.register ≡ from.register + spec.width (kept (exp_of test.now))) }
    ensures place { IfOk result (λ r. r.0.place ≡ from.place + spec.exp_size (kept (exp_of test.now)) + 1) }
    ensures to { IfOk result (λ r. r.1 ≡ from.place + spec.exp_size (kept (exp_of test.now)) + 1 + spec.statement_size (statement_kept (stmt_of yes.now)) + 1 + spec.statement_size (statement_kept (stmt_of no.now))) }
    ensures out { OnOk result (out.new ≡ out.old ++ (spec.exp_code first (kept (exp_of test.now)) from.register from.place ++ spec.one at (act.Branch (spec.held first (kept (exp_of test.now)) from.register) (from.place + spec.exp_size (kept (exp_of test.now)) + 1) (from.place + spec.exp_size (kept (exp_of test.now)) + 1 + spec.statement_size (statement_kept (stmt_of yes.now)) + 1)))) }
{
    let (else_at, to) = places_of_if(from.place, test, yes, no)?;
    let inner = push_condition(alloc, first, test, at, from, else_at, out)?;
    Ok((inner, to))
}

/// The Mark and the condition of a `while`.
fn push_while_head(
    alloc: Global,
    first: u32,
    test: &Value,
    body: &Statement,
    at: Position,
    from: Next,
    out: &mut List<Instr>,
) -> Result<Head, AllocError>
    ensures register { IfOk result (λ h. h.inner.register ≡ from.register + spec.width (kept (exp_of test.now))) }
    ensures place { IfOk result (λ h. h.inner.place ≡ from.place + 1 + spec.exp_size (kept (exp_of test.now)) + 1) }
    ensures left { IfOk result (λ h. h.inside.out ≡ from.place + 1 + spec.exp_size (kept (exp_of test.now)) + 1 + spec.statement_size (statement_kept (stmt_of body.now)) + 1) }
    ensures continued { IfOk result (λ h. h.inside.on ≡ from.place + 1 + spec.exp_size (kept (exp_of test.now)) + 1 + spec.statement_size (statement_kept (stmt_of body.now))) }
    ensures out { OnOk result (out.new ≡ out.old ++ (spec.instr at act.Mark ∷ (spec.exp_code first (kept (exp_of test.now)) from.register (from.place + 1) ++ spec.one at (act.Branch (spec.held first (kept (exp_of test.now)) from.register) (from.place + 1 + spec.exp_size (kept (exp_of test.now)) + 1) (from.place + 1 + spec.exp_size (kept (exp_of test.now)) + 1 + spec.statement_size (statement_kept (stmt_of body.now)) + 1))))) }
{
    let inside = places_of_while(from.place, test, body)?;
    let inner = push_marked(alloc, first, test, at, from, inside.out, out)?;
    Ok(Head { inner, inside })
}

/// The condition of a `do` whose Mark is at the place.
fn push_do_test(
    alloc: Global,
    first: u32,
    test: &Value,
    at: Position,
    from: Next,
    mark: u32,
    else_at: u32,
    out: &mut List<Instr>,
) -> Result<Next, AllocError>
    ensures register { IfOk result (λ n. n.register ≡ from.register + spec.width (kept (exp_of test.now))) }
    ensures place { IfOk result (λ n. n.place ≡ from.place + spec.exp_size (kept (exp_of test.now)) + 1) }
    ensures out { OnOk result (out.new ≡ out.old ++ (spec.exp_code first (kept (exp_of test.now)) from.register from.place ++ spec.one at (act.Branch (spec.held first (kept (exp_of test.now)) from.register) mark else_at))) }
{
    let tested = push_value(alloc, first, test, from, out)?;
    let act = Act::Branch {
        on: tested.register,
        then_at: mark,
        else_at,
    };
    push_last(out, at, tested.following, act)
}

/// The Mark and the condition of a `for`.
fn push_for_head(
    alloc: Global,
    first: u32,
    test: &Option<Value>,
    body: &Statement,
    step: &Option<Value>,
    at: Position,
    mark: Next,
    out: &mut List<Instr>,
) -> Result<Head, AllocError>
    ensures register { IfOk result (λ h. h.inner.register ≡ mark.register + length (spec.maybe_kinds (maybe_kept (maybe_of test.now)))) }
    ensures place { IfOk result (λ h. h.inner.place ≡ mark.place + 1 + spec.test_size (maybe_kept (maybe_of test.now))) }
    ensures left { IfOk result (λ h. h.inside.out ≡ mark.place + 1 + spec.test_size (maybe_kept (maybe_of test.now)) + spec.statement_size (statement_kept (stmt_of body.now)) + spec.maybe_size (maybe_kept (maybe_of step.now)) + 1) }
    ensures continued { IfOk result (λ h. h.inside.on ≡ mark.place + 1 + spec.test_size (maybe_kept (maybe_of test.now)) + spec.statement_size (statement_kept (stmt_of body.now))) }
    ensures out { OnOk result (out.new ≡ out.old ++ (spec.instr at act.Mark ∷ spec.test_code first at (maybe_kept (maybe_of test.now)) mark.register (mark.place + 1) (mark.place + 1 + spec.test_size (maybe_kept (maybe_of test.now)) + spec.statement_size (statement_kept (stmt_of body.now)) + spec.maybe_size (maybe_kept (maybe_of step.now)) + 1))) }
{
    let inside = places_of_for(mark.place, test, body, step)?;
    let tested = push_last(out, at, mark, Act::Mark)?;
    let inner = push_test(alloc, first, test, at, tested, inside.out, out)?;
    Ok(Head { inner, inside })
}

/// The last part of a `for`, and the jump back to its Mark.
fn push_step(
    alloc: Global,
    first: u32,
    step: &Option<Value>,
    at: Position,
    from: Next,
    mark: u32,
    out: &mut List<Instr>,
) -> Result<Next, AllocError>
    ensures register { IfOk result (λ n. n.register ≡ from.register + length (spec.maybe_kinds (maybe_kept (maybe_of step.now)))) }
    ensures place { IfOk result (λ n. n.place ≡ from.place + spec.maybe_size (maybe_kept (maybe_of step.now)) + 1) }
    ensures out { OnOk result (out.new ≡ out.old ++ (spec.maybe_code first (maybe_kept (maybe_of step.now)) from.register from.place ++ spec.one at (act.Jump mark))) }
{
    let following = push_maybe(alloc, first, step, from, out)?;
    push_last(out, at, following, Act::Jump { to: mark })
}

/// The code of a statement.
#[cycle(statement_code)]
pub fn push_statement(
    alloc: Global,
    first: u32,
    stmt: &Statement,
    from: Next,
    around: Around,
    out: &mut List<Instr>,
) -> Result<Next, AllocError>
    ensures register { IfOk result (λ n. n.register ≡ from.register + length (spec.statement_kinds (statement_kept (stmt_of stmt.now)))) }
    ensures place { IfOk result (λ n. n.place ≡ from.place + spec.statement_size (statement_kept (stmt_of stmt.now))) }
    ensures out { OnOk result (out.new ≡ out.old ++ spec.statement_code first (statement_kept (stmt_of stmt.now)) from.register from.place around.out around.on) }
{
    match stmt {
        Statement::Block(stmts) => {
            push_statements(alloc, first, stmts.as_slice(), from, around, out)
        }
        Statement::Compute(value) => Ok(push_value(alloc, first, value, from, out)?.following),
        Statement::If { test, yes, at } => {
            let inner = push_if_head(alloc, first, test, yes, *at, from, out)?;
            push_statement(alloc, first, yes, inner, around, out)
        }
        Statement::IfElse { test, yes, no, at } => {
            let (inner, to) = push_if_else_head(alloc, first, test, yes, no, *at, from, out)?;
            let following = push_statement(alloc, first, yes, inner, around, out)?;
            let following = push_last(out, *at, following, Act::Jump { to })?;
            push_statement(alloc, first, no, following, around, out)
        }
        Statement::While { test, body, at } => {
            let head = push_while_head(alloc, first, test, body, *at, from, out)?;
            let following = push_statement(alloc, first, body, head.inner, head.inside, out)?;
            push_last(out, *at, following, Act::Jump { to: from.place })
        }
        Statement::Do { body, test, at } => {
            let inside = places_of_do(from.place, body, test)?;
            let marked = push_last(out, *at, from, Act::Mark)?;
            let tested = push_statement(alloc, first, body, marked, inside, out)?;
            push_do_test(alloc, first, test, *at, tested, from.place, inside.out, out)
        }
        Statement::For {
            start,
            test,
            step,
            body,
            at,
        } => {
            let mark = push_statement(alloc, first, start, from, around, out)?;
            let head = push_for_head(alloc, first, test, body, step, *at, mark, out)?;
            let stepped = push_statement(alloc, first, body, head.inner, head.inside, out)?;
            push_step(alloc, first, step, *at, stepped, mark.place, out)
        }
        Statement::Break { at } => push_last(out, *at, from, Act::Jump { to: around.out }),
        Statement::Continue { at } => push_last(out, *at, from, Act::Jump { to: around.on }),
        Statement::Return { value, at } => push_return(alloc, first, value, *at, from, out),
    }
}

/// The code of several statements, one after another.
#[cycle(statement_code)]
fn push_statements(
    alloc: Global,
    first: u32,
    stmts: &[Statement],
    from: Next,
    around: Around,
    out: &mut List<Instr>,
) -> Result<Next, AllocError>
    ensures register { IfOk result (λ n. n.register ≡ from.register + length (spec.statements_kinds (statements_kept (listed_statements (map stmt_of stmts.now))))) }
    ensures place { IfOk result (λ n. n.place ≡ from.place + spec.statements_size (statements_kept (listed_statements (map stmt_of stmts.now)))) }
    ensures out { OnOk result (out.new ≡ out.old ++ spec.statements_code first (statements_kept (listed_statements (map stmt_of stmts.now))) from.register from.place around.out around.on) }
{
    let mut next = from;
    for stmt in stmts {
        next = push_statement(alloc, first, stmt, next, around, out)?;
    }
    Ok(next)
}

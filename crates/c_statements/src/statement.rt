//! The core tree of statements (C99 6.8). A declaration in a block is the statements that give its objects their first
//! values.
ghost use Rattle.std.specs.Prelude.{◌≡◌, ◌++◌, [], false, IfOk, OnOk, map};
ghost use Rattle.c_tree.specs.Tree.{initialised, listed_parts};
ghost use Rattle.c_tree.specs.View as tree;
ghost use Rattle.c_locals.specs.Addresses as numbering;
ghost use Rattle.c_numbers.specs.NumberTables.{numbered_of};
ghost use Rattle.c_programs.specs.Statements as statements;
ghost use Rattle.c_names.specs.Table.{known_of};
ghost use Rattle.c_tree.specs.Tree as trees;
ghost use Rattle.core_tree.specs.Core as core;
ghost use Rattle.core_tree.specs.View.{exp_of, stmt_of};
ghost use Rattle.c_operators.specs.Denoted.{position_of};
ghost use Rattle.c_operators.specs.Context.{context_in};
ghost use Rattle.c_values.specs.Expressions.{value_of};
ghost use Rattle.c_statements.specs.Statements as spec;
ghost use Rattle.c_operators.specs.Views.{frame_in, context_of, maybe_word, source_in};
ghost use Rattle.c_names.specs.Sources.{declared_by};
ghost use Rattle.c_numbers.specs.Numbered.{following};

use crate::make::{self, ForHead};
use c_initials::push_begun;
use c_names::{Table, declared_name};
use c_numbers::NumberTable;
use c_operators::{Context, Frame, Source, WordKind};
use c_programs::{copy_of, declare_object, declared_type};
use c_tree::{Declaration, Declarator, Expr, ForStart, Initial, Item, Part, Specifier, Stmt};
use c_types::Target;
use c_values::{value, wanted};
use core_tree::{Statement, Value};
use rr_base::{List, Position};
use std::alloc::{AllocError, Global};

/// The place at which so much is known.
fn context<'h, 'a>(
    source: &'h Source<'a>,
    frame: &'h Frame,
    table: &'h Table<'a>,
    numbers: &'h NumberTable<'a>,
) -> Context<'h, 'a>
    ensures { context_of result ≡ context_in (source_in source.now) (frame_in frame.now) (known_of table.now) (numbered_of numbers.now) }
{
    Context {
        source,
        frame,
        table,
        numbers,
    }
}

/// A local that starts as something. The scope of its name begins after its declarator.
fn push_initialised<'a>(
    alloc: Global,
    source: &Source<'a>,
    frame: &Frame,
    table: &mut Table<'a>,
    numbers: &mut NumberTable<'a>,
    specifier: &Specifier,
    declarator: &'a Declarator,
    initial: &Initial,
    at: Position,
    out: &mut List<Statement>,
) -> Result<(), AllocError>
    ensures known { OnOk result (known_of table.new ≡ statements.after_declared (known_of table.old) false specifier.now (tree.declared_of declarator.now)) }
    ensures numbers { OnOk result (numbered_of numbers.new ≡ numbering.after_name (numbered_of numbers.old) (tree.declared_of declarator.now)) }
    ensures out { OnOk result (map stmt_of out.new ≡ map stmt_of out.old ++ spec.object_elaborated (context_in (source_in source.now) (frame_in frame.now) (known_of table.old) (numbered_of numbers.old)) specifier.now (initialised (tree.declared_of declarator.now) (tree.init_of initial.now) at)) }
{
    let of = declared_type(alloc, &*table, specifier, declarator)?;
    let kept = copy_of(alloc, &of)?;
    declare_object(table, false, declared_name(declarator), of)?;
    numbers.number(declared_name(declarator))?;
    let context = context(source, frame, &*table, &*numbers);
    let home = context.home_of(declared_name(declarator).text.as_slice());
    push_begun(alloc, context, home, &kept, initial, at, out)
}

/// A local that starts as nothing.
fn pass_plain<'a>(
    alloc: Global,
    table: &mut Table<'a>,
    numbers: &mut NumberTable<'a>,
    specifier: &Specifier,
    declarator: &'a Declarator,
) -> Result<(), AllocError>
    ensures known { OnOk result (known_of table.new ≡ statements.after_declared (known_of table.old) false specifier.now (tree.declared_of declarator.now)) }
    ensures numbers { OnOk result (numbered_of numbers.new ≡ numbering.after_name (numbered_of numbers.old) (tree.declared_of declarator.now)) }
{
    let of = declared_type(alloc, &*table, specifier, declarator)?;
    declare_object(table, false, declared_name(declarator), of)?;
    numbers.number(declared_name(declarator))
}

fn push_object<'a>(
    alloc: Global,
    source: &Source<'a>,
    frame: &Frame,
    table: &mut Table<'a>,
    numbers: &mut NumberTable<'a>,
    specifier: &Specifier,
    item: &'a Item,
    out: &mut List<Statement>,
) -> Result<(), AllocError>
    ensures known { OnOk result (known_of table.new ≡ statements.after_declared (known_of table.old) false specifier.now (declared_by (tree.object_of item.now))) }
    ensures numbers { OnOk result (numbered_of numbers.new ≡ numbering.after_name (numbered_of numbers.old) (declared_by (tree.object_of item.now))) }
    ensures out { OnOk result (map stmt_of out.new ≡ map stmt_of out.old ++ spec.object_elaborated (context_in (source_in source.now) (frame_in frame.now) (known_of table.old) (numbered_of numbers.old)) specifier.now (tree.object_of item.now)) }
{
    match item {
        Item::Plain(declarator) => pass_plain(alloc, table, numbers, specifier, declarator),
        Item::Initialised {
            declarator,
            initial,
            at,
        } => {
            push_initialised(
                alloc, source, frame, table, numbers, specifier, declarator, initial, *at, out,
            )
        }
    }
}

/// A declaration in a block.
fn push_declares<'a>(
    alloc: Global,
    source: &Source<'a>,
    frame: &Frame,
    table: &mut Table<'a>,
    numbers: &mut NumberTable<'a>,
    declaration: &'a Declaration,
    out: &mut List<Statement>,
) -> Result<(), AllocError>
    ensures known { OnOk result (known_of table.new ≡ statements.after_declares (known_of table.old) (tree.declares_of declaration.now)) }
    ensures numbers { OnOk result (numbered_of numbers.new ≡ numbering.after_declaration (numbered_of numbers.old) (tree.declares_of declaration.now)) }
    ensures out { OnOk result (map stmt_of out.new ≡ map stmt_of out.old ++ spec.declares_elaborated (context_in (source_in source.now) (frame_in frame.now) (known_of table.old) (numbered_of numbers.old)) (tree.declares_of declaration.now)) }
{
    let specifier = &declaration.specifier;
    for item in declaration.items.as_slice() {
        push_object(alloc, source, frame, table, numbers, specifier, item, out)?;
    }
    Ok(())
}

/// No statement.
fn nothing(alloc: Global) -> Result<Box<Statement>, AllocError>
    ensures { IfOk result (λ s. stmt_of s.value ≡ spec.block_of []) }
{
    make::block(alloc, List::new(alloc))
}

/// The word of an expression at this place.
fn value_at<'a>(
    alloc: Global,
    source: &Source<'a>,
    frame: &Frame,
    table: &Table<'a>,
    numbers: &NumberTable<'a>,
    e: &Expr,
) -> Result<Box<Value>, AllocError>
    ensures { IfOk result (λ v. exp_of v.value ≡ value_of (context_in (source_in source.now) (frame_in frame.now) (known_of table.now) (numbered_of numbers.now)) (tree.exp_of e.now)) }
{
    value(alloc, context(source, frame, table, numbers), e)
}

/// An expression for what it does.
fn computed<'a>(
    alloc: Global,
    source: &Source<'a>,
    frame: &Frame,
    table: &Table<'a>,
    numbers: &NumberTable<'a>,
    e: &Option<Expr>,
) -> Result<Box<Statement>, AllocError>
    ensures { IfOk result (λ s. stmt_of s.value ≡ spec.computed (context_in (source_in source.now) (frame_in frame.now) (known_of table.now) (numbered_of numbers.now)) (tree.maybe_of e.now)) }
{
    match e {
        None => nothing(alloc),
        Some(e) => {
            let value = value_at(alloc, source, frame, table, numbers, e)?;
            make::compute(alloc, value)
        }
    }
}

fn maybe_value(
    alloc: Global,
    context: Context,
    e: &Option<Expr>,
) -> Result<Option<Box<Value>>, AllocError>
    ensures { IfOk result (λ v. maybe_word v ≡ spec.maybe_value (context_of context.entry) (tree.maybe_of e.now)) }
{
    match e {
        None => Ok(None),
        Some(e) => {
            let value = value(alloc, context, e)?;
            Ok(Some(value))
        }
    }
}

/// What a function gives, which is no pointer to functions.
fn kind_given(pointer: bool) -> WordKind
    ensures { result ≡ spec.kind_given pointer }
{
    if pointer {
        WordKind::Pointer
    } else {
        WordKind::Number
    }
}

/// What a `return` gives.
fn given<'a>(
    alloc: Global,
    source: &Source<'a>,
    frame: &Frame,
    table: &Table<'a>,
    numbers: &NumberTable<'a>,
    e: &Option<Expr>,
) -> Result<Option<Box<Value>>, AllocError>
    ensures { IfOk result (λ v. maybe_word v ≡ spec.given (context_in (source_in source.now) (frame_in frame.now) (known_of table.now) (numbered_of numbers.now)) (tree.maybe_of e.now)) }
{
    match e {
        None => Ok(None),
        Some(e) => {
            let context = context(source, frame, table, numbers);
            let kind = kind_given(frame.gives_pointer);
            let value = wanted(alloc, context, kind, Target::No, e)?;
            Ok(Some(value))
        }
    }
}

/// A `return`.
fn returned<'a>(
    alloc: Global,
    source: &Source<'a>,
    frame: &Frame,
    table: &Table<'a>,
    numbers: &NumberTable<'a>,
    e: &Option<Expr>,
    at: Position,
) -> Result<Box<Statement>, AllocError>
    ensures { IfOk result (λ s. stmt_of s.value ≡ core.gives (spec.given (context_in (source_in source.now) (frame_in frame.now) (known_of table.now) (numbered_of numbers.now)) (tree.maybe_of e.now)) (position_of at)) }
{
    let value = given(alloc, source, frame, table, numbers, e)?;
    make::gives(alloc, value, at)
}

/// How a `for` begins.
fn start<'a>(
    alloc: Global,
    source: &Source<'a>,
    frame: &Frame,
    table: &mut Table<'a>,
    numbers: &mut NumberTable<'a>,
    start: &'a ForStart,
) -> Result<Box<Statement>, AllocError>
    ensures known { OnOk result (known_of table.new ≡ statements.after_start (known_of table.old) (tree.start_of start.now)) }
    ensures numbers { OnOk result (numbered_of numbers.new ≡ numbering.after_for_start (numbered_of numbers.old) (tree.start_of start.now)) }
    ensures statement { IfOk result (λ s. stmt_of s.value ≡ spec.start_elaborated (context_in (source_in source.now) (frame_in frame.now) (known_of table.old) (numbered_of numbers.old)) (tree.start_of start.now)) }
{
    match start {
        ForStart::Declares(declaration) => {
            let mut begun = List::new(alloc);
            push_declares(
                alloc,
                source,
                frame,
                table,
                numbers,
                declaration,
                &mut begun,
            )?;
            let made = make::block(alloc, begun)?;
            Ok(made)
        }
        ForStart::Computes(e) => { computed(alloc, source, frame, &*table, &*numbers, e) }
    }
}

/// A block opens a scope.
#[cycle(statement)]
fn block<'a>(
    alloc: Global,
    source: &Source<'a>,
    frame: &Frame,
    table: &mut Table<'a>,
    numbers: &mut NumberTable<'a>,
    parts: &'a [Part],
) -> Result<Box<Statement>, AllocError>
    ensures known { OnOk result (known_of table.new ≡ known_of table.old) }
    ensures numbers { OnOk result (numbered_of numbers.new ≡ following (numbered_of numbers.old) (numbering.count_of_parts (listed_parts (map tree.part_of parts.now)))) }
    ensures statement { IfOk result (λ s. stmt_of s.value ≡ spec.block_of (spec.all_elaborated (spec.context_inside (context_in (source_in source.now) (frame_in frame.now) (known_of table.old) (numbered_of numbers.old))) (listed_parts (map tree.part_of parts.now)))) }
{
    table.open(alloc)?;
    numbers.open(alloc)?;
    let mut inner = List::new(alloc);
    push_parts(alloc, source, frame, table, numbers, parts, &mut inner)?;
    let made = make::block(alloc, inner)?;
    table.close();
    numbers.close();
    Ok(made)
}

#[cycle(statement)]
fn while_loop<'a>(
    alloc: Global,
    source: &Source<'a>,
    frame: &Frame,
    table: &mut Table<'a>,
    numbers: &mut NumberTable<'a>,
    body: &'a Stmt,
    test: &Expr,
    at: Position,
) -> Result<Box<Statement>, AllocError>
    ensures known { OnOk result (known_of table.new ≡ known_of table.old) }
    ensures numbers { OnOk result (numbered_of numbers.new ≡ numbering.past_statement (numbered_of numbers.old) (tree.stmt_of body.now)) }
    ensures statement { IfOk result (λ s. stmt_of s.value ≡ spec.elaborated (context_in (source_in source.now) (frame_in frame.now) (known_of table.old) (numbered_of numbers.old)) (trees.while_loop (tree.exp_of test.now) (tree.stmt_of body.now) at)) }
{
    let test = value_at(alloc, source, frame, &*table, &*numbers, test)?;
    let body = statement(alloc, source, frame, table, numbers, body)?;
    make::while_loop(alloc, test, body, at)
}

#[cycle(statement)]
fn do_loop<'a>(
    alloc: Global,
    source: &Source<'a>,
    frame: &Frame,
    table: &mut Table<'a>,
    numbers: &mut NumberTable<'a>,
    body: &'a Stmt,
    test: &Expr,
    at: Position,
) -> Result<Box<Statement>, AllocError>
    ensures known { OnOk result (known_of table.new ≡ known_of table.old) }
    ensures numbers { OnOk result (numbered_of numbers.new ≡ numbering.past_statement (numbered_of numbers.old) (tree.stmt_of body.now)) }
    ensures statement { IfOk result (λ s. stmt_of s.value ≡ spec.elaborated (context_in (source_in source.now) (frame_in frame.now) (known_of table.old) (numbered_of numbers.old)) (trees.do_loop (tree.stmt_of body.now) (tree.exp_of test.now) at)) }
{
    let body = statement(alloc, source, frame, table, numbers, body)?;
    let test = value_at(alloc, source, frame, &*table, &*numbers, test)?;
    make::do_loop(alloc, body, test, at)
}

/// What is tested in the parentheses of a `for`, and its step.
fn for_parts<'a>(
    alloc: Global,
    source: &Source<'a>,
    frame: &Frame,
    table: &Table<'a>,
    numbers: &NumberTable<'a>,
    test: &Option<Expr>,
    step: &Option<Expr>,
) -> Result<(Option<Box<Value>>, Option<Box<Value>>), AllocError>
    ensures test { IfOk result (λ r. maybe_word r.0 ≡ spec.maybe_value (context_in (source_in source.now) (frame_in frame.now) (known_of table.now) (numbered_of numbers.now)) (tree.maybe_of test.now)) }
    ensures step { IfOk result (λ r. maybe_word r.1 ≡ spec.maybe_value (context_in (source_in source.now) (frame_in frame.now) (known_of table.now) (numbered_of numbers.now)) (tree.maybe_of step.now)) }
{
    let context = context(source, frame, table, numbers);
    let test = maybe_value(alloc, context, test)?;
    let step = maybe_value(alloc, context, step)?;
    Ok((test, step))
}

/// What stands in the parentheses of a `for`.
fn for_head<'a>(
    alloc: Global,
    source: &Source<'a>,
    frame: &Frame,
    table: &mut Table<'a>,
    numbers: &mut NumberTable<'a>,
    begin: &'a ForStart,
    test: &Option<Expr>,
    step: &Option<Expr>,
) -> Result<ForHead, AllocError>
    ensures known { OnOk result (known_of table.new ≡ statements.after_start (known_of table.old) (tree.start_of begin.now)) }
    ensures numbers { OnOk result (numbered_of numbers.new ≡ numbering.after_for_start (numbered_of numbers.old) (tree.start_of begin.now)) }
    ensures start { IfOk result (λ h. stmt_of h.start.value ≡ spec.start_elaborated (context_in (source_in source.now) (frame_in frame.now) (known_of table.old) (numbered_of numbers.old)) (tree.start_of begin.now)) }
    ensures test { IfOk result (λ h. maybe_word h.test ≡ spec.maybe_value (spec.here_after_start (context_in (source_in source.now) (frame_in frame.now) (known_of table.old) (numbered_of numbers.old)) (tree.start_of begin.now)) (tree.maybe_of test.now)) }
    ensures step { IfOk result (λ h. maybe_word h.step ≡ spec.maybe_value (spec.here_after_start (context_in (source_in source.now) (frame_in frame.now) (known_of table.old) (numbered_of numbers.old)) (tree.start_of begin.now)) (tree.maybe_of step.now)) }
{
    let start = start(alloc, source, frame, table, numbers, begin)?;
    let parts = for_parts(alloc, source, frame, &*table, &*numbers, test, step)?;
    Ok(ForHead {
        start,
        test: parts.0,
        step: parts.1,
    })
}

/// A `for` in a scope of its own, which its caller opens and closes.
#[cycle(statement)]
fn for_loop<'a>(
    alloc: Global,
    source: &Source<'a>,
    frame: &Frame,
    table: &mut Table<'a>,
    numbers: &mut NumberTable<'a>,
    body: &'a Stmt,
    begin: &'a ForStart,
    test: &Option<Expr>,
    step: &Option<Expr>,
    at: Position,
) -> Result<Box<Statement>, AllocError>
    ensures known { OnOk result (known_of table.new ≡ statements.after_start (known_of table.old) (tree.start_of begin.now)) }
    ensures numbers { OnOk result (numbered_of numbers.new ≡ numbering.past_statement (numbering.after_for_start (numbered_of numbers.old) (tree.start_of begin.now)) (tree.stmt_of body.now)) }
    ensures statement { let h = (context_in (source_in source.now) (frame_in frame.now) (known_of table.old) (numbered_of numbers.old)) in let after = spec.here_after_start h (tree.start_of begin.now) in IfOk result (λ s. stmt_of s.value ≡ core.for_loop (spec.start_elaborated h (tree.start_of begin.now)) (spec.maybe_value after (tree.maybe_of test.now)) (spec.maybe_value after (tree.maybe_of step.now)) (spec.elaborated after (tree.stmt_of body.now)) (position_of at)) }
{
    let head = for_head(alloc, source, frame, table, numbers, begin, test, step)?;
    let body = statement(alloc, source, frame, table, numbers, body)?;
    make::for_loop(alloc, head, body, at)
}

/// A `for`, whose names aren't seen after it.
#[cycle(statement)]
fn for_statement<'a>(
    alloc: Global,
    source: &Source<'a>,
    frame: &Frame,
    table: &mut Table<'a>,
    numbers: &mut NumberTable<'a>,
    body: &'a Stmt,
    begin: &'a ForStart,
    test: &Option<Expr>,
    step: &Option<Expr>,
    at: Position,
) -> Result<Box<Statement>, AllocError>
    ensures known { OnOk result (known_of table.new ≡ known_of table.old) }
    ensures numbers { OnOk result (numbered_of numbers.new ≡ numbering.past_statement (numbered_of numbers.old) (trees.for_loop (tree.start_of begin.now) (tree.maybe_of test.now) (tree.maybe_of step.now) (tree.stmt_of body.now) at)) }
    ensures statement { IfOk result (λ s. stmt_of s.value ≡ spec.elaborated (context_in (source_in source.now) (frame_in frame.now) (known_of table.old) (numbered_of numbers.old)) (trees.for_loop (tree.start_of begin.now) (tree.maybe_of test.now) (tree.maybe_of step.now) (tree.stmt_of body.now) at)) }
{
    table.open(alloc)?;
    numbers.open(alloc)?;
    let made = for_loop(
        alloc, source, frame, table, numbers, body, begin, test, step, at,
    )?;
    table.close();
    numbers.close();
    Ok(made)
}

/// The place of a statement.
fn place_of(stmt: &Stmt) -> Position
    ensures { result ≡ spec.own_place (tree.stmt_of stmt.now) }
{
    match stmt {
        Stmt::Block { at, .. }
        | Stmt::Expression { at, .. }
        | Stmt::Break { at }
        | Stmt::Continue { at }
        | Stmt::Return { at, .. }
        | Stmt::If { at, .. }
        | Stmt::While { at, .. }
        | Stmt::Do { at, .. }
        | Stmt::For { at, .. } => *at,
    }
}

/// A statement. Its locals aren't seen after it.
#[cycle(statement)]
fn statement<'a>(
    alloc: Global,
    source: &Source<'a>,
    frame: &Frame,
    table: &mut Table<'a>,
    numbers: &mut NumberTable<'a>,
    stmt: &'a Stmt,
) -> Result<Box<Statement>, AllocError>
    ensures known { OnOk result (known_of table.new ≡ known_of table.old) }
    ensures numbers { OnOk result (numbered_of numbers.new ≡ numbering.past_statement (numbered_of numbers.old) (tree.stmt_of stmt.now)) }
    ensures statement { IfOk result (λ s. stmt_of s.value ≡ spec.elaborated (context_in (source_in source.now) (frame_in frame.now) (known_of table.old) (numbered_of numbers.old)) (tree.stmt_of stmt.now)) }
{
    let at = place_of(stmt);
    match stmt {
        Stmt::Block { parts, .. } => {
            block(alloc, source, frame, table, numbers, parts.as_slice())
        }
        Stmt::Expression { value, .. } => {
            computed(alloc, source, frame, &*table, &*numbers, value)
        }
        Stmt::Break { .. } => make::break_at(alloc, at),
        Stmt::Continue { .. } => make::continue_at(alloc, at),
        Stmt::Return { value, .. } => {
            returned(alloc, source, frame, &*table, &*numbers, value, at)
        }
        Stmt::If { test, yes, no, .. } => {
            let test = value_at(alloc, source, frame, &*table, &*numbers, test)?;
            let yes = statement(alloc, source, frame, table, numbers, yes)?;
            match no {
                None => make::branch(alloc, test, yes, at),
                Some(no) => {
                    let no = statement(alloc, source, frame, table, numbers, no)?;
                    make::branch_else(alloc, test, yes, no, at)
                }
            }
        }
        Stmt::While { test, body, .. } => {
            while_loop(alloc, source, frame, table, numbers, body, test, at)
        }
        Stmt::Do { body, test, .. } => {
            do_loop(alloc, source, frame, table, numbers, body, test, at)
        }
        Stmt::For {
            start,
            test,
            step,
            body,
            ..
        } => for_statement(
            alloc, source, frame, table, numbers, body, start, test, step, at,
        ),
    }
}

/// What stands in a block, one after another. Its declarations stay in the innermost scope.
#[cycle(statement)]
pub fn push_parts<'a>(
    alloc: Global,
    source: &Source<'a>,
    frame: &Frame,
    table: &mut Table<'a>,
    numbers: &mut NumberTable<'a>,
    parts: &'a [Part],
    out: &mut List<Statement>,
) -> Result<(), AllocError>
    ensures known { OnOk result (known_of table.new ≡ statements.after_parts (known_of table.old) (listed_parts (map tree.part_of parts.now))) }
    ensures numbers { OnOk result (numbered_of numbers.new ≡ numbering.past_parts (numbered_of numbers.old) (listed_parts (map tree.part_of parts.now))) }
    ensures out { OnOk result (map stmt_of out.new ≡ map stmt_of out.old ++ spec.all_elaborated (context_in (source_in source.now) (frame_in frame.now) (known_of table.old) (numbered_of numbers.old)) (listed_parts (map tree.part_of parts.now))) }
{
    for part in parts {
        match part {
            Part::Declares(declaration) => {
                push_declares(alloc, source, frame, table, numbers, declaration, out)?;
            }
            Part::Does(stmt) => {
                let made = statement(alloc, source, frame, table, numbers, stmt)?;
                out.push(Box::into_inner(made))?;
            }
        }
    }
    Ok(())
}

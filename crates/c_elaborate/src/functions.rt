//! Functions: the core tree of a definition (C99 6.9.1).
ghost use Rattle.std.specs.Prelude.{◌≡◌, ◌+◌, IfOk, OnOk, length, map};
ghost use Rattle.c_tree.specs.Tree.{listed_parts};
ghost use Rattle.c_tree.specs.View as tree;
ghost use Rattle.c_locals.specs.Addresses as numbering;
ghost use Rattle.c_locals.specs.Addresses.{count_of_parts};
ghost use Rattle.c_programs.specs.Declarators.{after_params};
ghost use Rattle.c_programs.specs.Statements.{after_parts};
ghost use Rattle.c_names.specs.Table.{known_of};
ghost use Rattle.core_tree.specs.View.{function_of, stmt_of};
ghost use Rattle.c_operators.specs.Context.{context_in};
ghost use Rattle.c_statements.specs.Statements as spec_statements;
ghost use Rattle.c_elaborate.specs.Functions as spec;
ghost use Rattle.c_operators.specs.Views.{frame_in, source_in};

use c_frames::{Local, frame_of, function_by, kept_in, pass_formals};
use c_locals::Marks;
use c_names::Table;
use c_numbers::NumberTable;
use c_operators::{Frame, Source};
use c_statements::{block, push_parts};
use c_tree::{Name, Param, Part};
use c_types::StarredType;
use core_tree::{CoreFunction, Statement};
use rr_base::List;
use std::alloc::{AllocError, Global};

/// The body of a function, where its formals and locals are kept in these places.
fn body_of<'a>(
    alloc: Global,
    source: &Source<'a>,
    frame: &Frame,
    table: &mut Table<'a>,
    params: &'a [Param],
    parts: &'a [Part],
) -> Result<Box<Statement>, AllocError>
    ensures known { OnOk result (known_of table.new ≡ after_parts (after_params (known_of table.old) (map tree.formal_of params.now)) (listed_parts (map tree.part_of parts.now))) }
    ensures body { IfOk result (λ s. stmt_of s.value ≡ spec_statements.block_of (spec_statements.all_elaborated (context_in (source_in source.now) (frame_in frame.now) (after_params (known_of table.old) (map tree.formal_of params.now)) (numbering.numbered_from frame.now.first (map tree.formal_of params.now))) (listed_parts (map tree.part_of parts.now)))) }
{
    let mut numbers = NumberTable::new(alloc, frame.first)?;
    pass_formals(alloc, table, &mut numbers, params)?;
    let mut body = List::new(alloc);
    push_parts(alloc, source, frame, table, &mut numbers, parts, &mut body)?;
    let made = block(alloc, body)?;
    Ok(made)
}

/// A definition of these formals and locals. The table's innermost scope is its own.
fn defined<'a>(
    alloc: Global,
    source: &Source<'a>,
    table: &mut Table<'a>,
    name: &Name,
    gives: Option<StarredType>,
    params: &'a [Param],
    parts: &'a [Part],
    first: usize,
    formals: &[Local],
    locals: &[Local],
) -> Result<CoreFunction, AllocError>
    ensures known { OnOk result (known_of table.new ≡ after_parts (after_params (known_of table.old) (map tree.formal_of params.now)) (listed_parts (map tree.part_of parts.now))) }
    ensures function { IfOk result (λ f. function_of f ≡ spec.definition_by (source_in source.now) (after_params (known_of table.old) (map tree.formal_of params.now)) first name.now gives (map tree.formal_of params.now) (listed_parts (map tree.part_of parts.now)) formals.now locals.now) }
{
    let frame = frame_of(alloc, first, formals, locals, gives)?;
    let body = body_of(alloc, source, &frame, table, params, parts)?;
    function_by(alloc, source, name, gives, formals, locals, body)
}

/// A definition, whose formals and locals have the next numbers. The table's innermost scope is its own.
pub fn definition<'a>(
    alloc: Global,
    source: &Source<'a>,
    marks: &Marks,
    table: &mut Table<'a>,
    next: &mut usize,
    name: &Name,
    gives: Option<StarredType>,
    params: &'a [Param],
    parts: &'a [Part],
) -> Result<CoreFunction, AllocError>
    ensures known { OnOk result (known_of table.new ≡ after_parts (after_params (known_of table.old) (map tree.formal_of params.now)) (listed_parts (map tree.part_of parts.now))) }
    ensures next { OnOk result (next.new ≡ next.old + (length (map tree.formal_of params.now) + count_of_parts (listed_parts (map tree.part_of parts.now)))) }
    ensures function { IfOk result (λ f. function_of f ≡ spec.definition (source_in source.now) marks.now.numbers (known_of table.old) next.old name.now gives (map tree.formal_of params.now) (listed_parts (map tree.part_of parts.now))) }
{
    let first = *next;
    let kept = kept_in(alloc, marks, first, params, parts)?;
    let function = defined(
        alloc,
        source,
        table,
        name,
        gives,
        params,
        parts,
        first,
        kept.formals.as_slice(),
        kept.locals.as_slice(),
    )?;
    *next = kept.last;
    Ok(function)
}

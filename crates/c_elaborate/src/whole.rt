//! The core tree of a whole source (C99 6.9).
ghost use Rattle.std.specs.Prelude.{◌≡◌, ◌+◌, ◌++◌, ◌∷◌, [], IfOk, OnOk, length, map};
ghost use Rattle.c_tree.specs.Tree.{listed_parts};
ghost use Rattle.c_tree.specs.View.{code_of, fields_of, formal_of, formals_of, outer_of, part_of, program_of};
ghost use Rattle.c_locals.specs.Addresses.{count_of_code, count_of_outer, count_of_parts, program_addressed};
ghost use Rattle.c_names.specs.Sources.{listed_params};
ghost use Rattle.c_names.specs.Signatures as signatures;
ghost use Rattle.c_names.specs.Known.{known_at_start};
ghost use Rattle.c_programs.specs.Declarators.{after_struct};
ghost use Rattle.c_programs.specs.Programs as programs;
ghost use Rattle.c_types.specs.Scopes.{opened};
ghost use Rattle.c_spots.specs.Spots.{program_spots};
ghost use Rattle.c_sites.specs.Sites.{program_sites};
ghost use Rattle.c_locals.specs.Taken.{program_taken};
ghost use Rattle.c_names.specs.Table.{known_of, texts_of};
ghost use Rattle.c_sites.specs.Typed.{program_in};
ghost use Rattle.core_tree.specs.View.{core_of, function_of, pointer_of};
ghost use Rattle.c_elaborate.specs.Functions.{definition};
ghost use Rattle.c_globals.specs.Globals as spec_globals;
ghost use Rattle.c_operators.specs.Views.{source_in};
ghost use Rattle.c_elaborate.specs.Whole as spec;

use crate::functions::definition;
use crate::pointers::source_pointers;
use c_globals::{global_bases, global_kinds, globals_in, push_objects};
use c_locals::{Marks, Taken, addressed_in, taken_in};
use c_names::{Table, listed, signature_of};
use c_operators::Source;
use c_programs::{declare_function, note_struct};
use c_sites::{Typed, kinds_of_structs};
use c_spots::spots_in;
use c_tree::{Body, External, Member, Name, Param, Params, Part, Program, Specifier};
use c_types::StarredType;
use core_tree::{Core, CoreFunction, PointerType};
use rr_base::{CellKind, List, Site};
use std::alloc::{AllocError, Global};

/// A definition in a scope of its own.
fn push_definition<'a>(
    alloc: Global,
    source: &Source<'a>,
    marks: &Marks,
    table: &mut Table<'a>,
    next: &mut usize,
    name: &Name,
    gives: Option<StarredType>,
    params: &'a [Param],
    parts: &'a [Part],
    out: &mut List<CoreFunction>,
) -> Result<(), AllocError>
    ensures known { OnOk result (known_of table.new ≡ known_of table.old) }
    ensures next { OnOk result (next.new ≡ next.old + (length (map formal_of params.now) + count_of_parts (listed_parts (map part_of parts.now)))) }
    ensures out { OnOk result (map function_of out.new ≡ map function_of out.old ++ definition (source_in source.now) marks.now.numbers (opened (known_of table.old)) next.old name.now gives (map formal_of params.now) (listed_parts (map part_of parts.now)) ∷ []) }
{
    table.open(alloc)?;
    let function = definition(
        alloc, source, marks, table, next, name, gives, params, parts,
    )?;
    table.close();
    out.push(function)?;
    Ok(())
}

/// A function. A prototype defines none.
fn push_function<'a>(
    alloc: Global,
    source: &Source<'a>,
    marks: &Marks,
    table: &mut Table<'a>,
    next: &mut usize,
    specifier: &Specifier,
    stars: usize,
    name: &'a Name,
    params: &'a Params,
    body: &'a Body,
    out: &mut List<CoreFunction>,
) -> Result<(), AllocError>
    ensures known { OnOk result (known_of table.new ≡ programs.after_function (known_of table.old) name.now (signatures.signature_of (known_of table.old) specifier.now stars (formals_of params.now)) (code_of body.now)) }
    ensures next { OnOk result (next.new ≡ next.old + count_of_code (listed_params (formals_of params.now)) (code_of body.now)) }
    ensures out { OnOk result (map function_of out.new ≡ map function_of out.old ++ spec.code_functions (source_in source.now) marks.now.numbers (known_of table.old) next.old name.now (signatures.signature_of (known_of table.old) specifier.now stars (formals_of params.now)) (formals_of params.now) (code_of body.now)) }
{
    let signature = signature_of(alloc, &*table, specifier, stars, params)?;
    let gives = signature.result;
    declare_function(table, name, signature, body)?;
    match body {
        Body::Block { parts, .. } => push_definition(
            alloc,
            source,
            marks,
            table,
            next,
            name,
            gives,
            listed(params),
            parts.as_slice(),
            out,
        ),
        Body::Prototype => Ok(()),
    }
}

fn pass_struct<'a>(
    alloc: Global,
    table: &mut Table<'a>,
    name: &'a Name,
    members: &'a [Member],
) -> Result<(), AllocError>
    ensures { OnOk result (known_of table.new ≡ after_struct (known_of table.old) name.now (map fields_of members.now)) }
{
    let mut unnoted = None;
    note_struct(alloc, table, name, members, &mut unnoted)
}

fn push_external<'a>(
    alloc: Global,
    source: &Source<'a>,
    marks: &Marks,
    table: &mut Table<'a>,
    next: &mut usize,
    external: &'a External,
    functions: &mut List<CoreFunction>,
    words: &mut List<u64>,
) -> Result<(), AllocError>
    ensures known { OnOk result (known_of table.new ≡ programs.after_outer (known_of table.old) (outer_of external.now)) }
    ensures next { OnOk result (next.new ≡ next.old + count_of_outer (outer_of external.now)) }
    ensures functions { OnOk result (map function_of functions.new ≡ map function_of functions.old ++ spec.outer_functions (source_in source.now) marks.now.numbers (known_of table.old) next.old (outer_of external.now)) }
    ensures words { OnOk result (words.new ≡ words.old ++ spec.outer_words (source_in source.now) (known_of table.old) (outer_of external.now)) }
{
    match external {
        External::Struct { name, members } => pass_struct(alloc, table, name, members.as_slice()),
        External::Function {
            specifier,
            stars,
            name,
            params,
            body,
            ..
        } => push_function(
            alloc, source, marks, table, next, specifier, *stars, name, params, body, functions,
        ),
        External::Objects {
            specifier,
            items,
            ..
        } => push_objects(alloc, source, table, specifier, items.as_slice(), words),
    }
}

/// The functions of a source, and the start words of its global cells.
fn walked<'a>(
    alloc: Global,
    source: &Source<'a>,
    marks: &Marks,
    program: &'a Program,
) -> Result<(List<CoreFunction>, List<u64>), AllocError>
    ensures functions { IfOk result (λ r. map function_of r.0 ≡ spec.outers_functions (source_in source.now) marks.now.numbers (known_at_start (program_of program.now)) 0 (program_of program.now)) }
    ensures words { IfOk result (λ r. r.1 ≡ spec.outers_words (source_in source.now) (known_at_start (program_of program.now)) (program_of program.now)) }
{
    let mut table = Table::new(alloc, program)?;
    let mut next = 0;
    let mut functions = List::new(alloc);
    let mut words = List::new(alloc);
    for external in program.externals.as_slice() {
        push_external(
            alloc,
            source,
            marks,
            &mut table,
            &mut next,
            external,
            &mut functions,
            &mut words,
        )?;
    }
    Ok((functions, words))
}

/// What is known of a whole source, the kinds of its global cells and the first ones of its globals, where those are
/// marked to which `&` is applied.
fn source_of<'a>(
    alloc: Global,
    marks: &'a Marks,
    program: &'a Program,
    sites: &'a [Site],
) -> Result<(Source<'a>, List<CellKind>, List<Option<u32>>), AllocError>
    requires marks { marks.now.numbers ≡ program_addressed (program_of program.now) }
    requires sites { sites.now ≡ program_sites (program_of program.now) }
    ensures source { IfOk result (λ r. source_in r.0 ≡ spec.source_of (program_of program.now)) }
    ensures kinds { IfOk result (λ r. r.1 ≡ spec_globals.global_kinds (program_spots (program_of program.now)) (program_sites (program_of program.now))) }
    ensures bases { IfOk result (λ r. r.2 ≡ spec_globals.global_bases 0 (program_spots (program_of program.now)) (program_sites (program_of program.now))) }
{
    let (whole, spots) = spots_in(alloc, marks, program)?;
    let kinds = kinds_of_structs(alloc, &whole)?;
    let globals = globals_in(alloc, spots.as_slice(), sites)?;
    let global_kinds = global_kinds(alloc, spots.as_slice(), sites)?;
    let global_bases = global_bases(alloc, spots.as_slice(), sites)?;
    let source = Source {
        whole,
        kinds,
        sites,
        globals,
    };
    Ok((source, global_kinds, global_bases))
}

/// All that the core tree of a source holds but its sites.
#[derive(Drop)]
struct Made {
    functions: List<CoreFunction>,
    pointers: List<PointerType>,
    globals: List<u64>,
    global_kinds: List<CellKind>,
    global_bases: List<Option<u32>>,
}

/// What is made of a source, where the marks, the names that stand as values and the sites are known.
#[tactic(auto, unfolding(crate::specs::Whole::core_of_source))]
fn made_of(
    alloc: Global,
    marks: &Marks,
    taken: &Taken,
    program: &Program,
    sites: &[Site],
) -> Result<Made, AllocError>
    requires marks { marks.now.numbers ≡ program_addressed (program_of program.now) }
    requires taken { texts_of taken.now.names.keys ≡ program_taken (program_of program.now) }
    requires sites { sites.now ≡ program_sites (program_of program.now) }
    ensures functions { IfOk result (λ r. map function_of r.functions ≡ (spec.core_of_source (program_of program.now)).functions) }
    ensures pointers { IfOk result (λ r. map pointer_of r.pointers ≡ (spec.core_of_source (program_of program.now)).pointers) }
    ensures words { IfOk result (λ r. r.globals ≡ (spec.core_of_source (program_of program.now)).globals) }
    ensures kinds { IfOk result (λ r. r.global_kinds ≡ (spec.core_of_source (program_of program.now)).global_kinds) }
    ensures bases { IfOk result (λ r. r.global_bases ≡ (spec.core_of_source (program_of program.now)).global_bases) }
{
    let (source, global_kinds, global_bases) = source_of(alloc, marks, program, sites)?;
    let pointers = source_pointers(alloc, &source.whole, taken)?;
    let (functions, globals) = walked(alloc, &source, marks, program)?;
    Ok(Made {
        functions,
        pointers,
        globals,
        global_kinds,
        global_bases,
    })
}

/// What is made of a source without a fault.
fn parts_of(alloc: Global, typed: &Typed) -> Result<Made, AllocError>
    ensures functions { IfOk result (λ r. map function_of r.functions ≡ (spec.core_of_source (program_of (program_in typed.now))).functions) }
    ensures pointers { IfOk result (λ r. map pointer_of r.pointers ≡ (spec.core_of_source (program_of (program_in typed.now))).pointers) }
    ensures words { IfOk result (λ r. r.globals ≡ (spec.core_of_source (program_of (program_in typed.now))).globals) }
    ensures kinds { IfOk result (λ r. r.global_kinds ≡ (spec.core_of_source (program_of (program_in typed.now))).global_kinds) }
    ensures bases { IfOk result (λ r. r.global_bases ≡ (spec.core_of_source (program_of (program_in typed.now))).global_bases) }
{
    let program = typed.program();
    let marks = addressed_in(alloc, program)?;
    let taken = taken_in(alloc, program)?;
    made_of(alloc, &marks, &taken, program, typed.sites().as_slice())
}

/// What a source without a fault does.
///
/// # Errors
///
/// Only when memory runs out.
#[tactic(auto, unfolding(crate::specs::Whole::core_of_source))]
pub fn elaborate(alloc: Global, typed: Typed) -> Result<Core, AllocError>
    ensures { IfOk result (λ c. core_of c ≡ spec.core_of_source (program_of (program_in typed))) }
{
    let made = parts_of(alloc, &typed)?;
    Ok(Core {
        functions: made.functions,
        pointers: made.pointers,
        sites: typed.into_sites(),
        globals: made.globals,
        global_kinds: made.global_kinds,
        global_bases: made.global_bases,
    })
}

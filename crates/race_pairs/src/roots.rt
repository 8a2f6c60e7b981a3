// With which functions a thread may begin.
ghost use Rattle.std.specs.Prelude.{◌≡◌, ◌<◌, ℕ, length, false, slice_index_or, IfOk};
ghost use Rattle.std.specs.List.{list_any};
ghost use Rattle.flow_code.specs.Threads as threads;
ghost use Rattle.facts.specs.Pairs as facts_pairs;
ghost use Rattle.race_pairs.specs.Roots.{Marks, is_number};

use flow_code::{Act, Code, Instr};
use std::alloc::{AllocError, Global};
use word_semantics::LibraryCall;

/// The function with which an instruction starts a thread.
fn created(act: &Act) -> Option<u32>
    ensures { (g : ℕ) → facts_pairs.creates g act.now ≡ is_number result g }
{
    match act {
        Act::Library {
            call: LibraryCall::Create { function },
            arguments: _,
            into: _,
        } => Some(*function),
        _ => None,
    }
}

fn mark(marks: &mut [bool], act: &Act)
    ensures { Marks (λ g. facts_pairs.creates g act.now) marks.old marks.new }
{
    if let Some(function) = created(act) {
        if (function as usize) < marks.len() {
            marks[function as usize] = true;
        }
    }
}

fn mark_all(marks: &mut [bool], instrs: &[Instr])
    ensures { Marks (λ g. list_any (λ i. facts_pairs.creates g i.act) instrs.now) marks.old marks.new }
{
    for instr in instrs {
        mark(marks, &instr.act);
    }
}

/// Which of so many functions, from the first on, some thread is started with.
pub(crate) fn started(alloc: Global, code: &Code, count: usize) -> Result<Vec<bool>, AllocError>
    ensures len { IfOk result (λ marks. length marks.items ≡ count) }
    ensures each { IfOk result (λ marks. (g : ℕ) → g < count → slice_index_or marks.items g false ≡ facts_pairs.is_started code.now g) }
{
    let mut marks = vec![in alloc; false; count]?;
    for function in code.functions.as_slice() {
        mark_all(&mut marks, function.instrs.as_slice());
    }
    Ok(marks)
}

pub(crate) fn is_main(code: &Code, function: usize) -> bool
    ensures { result ≡ threads.is_main code.now function }
{
    match code.functions.get(function) {
        Some(found) => flow_code::is_main(found.name.as_slice()),
        None => false,
    }
}

/// Whether a thread may begin with the function, where it is known whether some thread is started with it.
pub(crate) fn is_root(code: &Code, function: usize, is_started: bool) -> bool
    requires { is_started ≡ facts_pairs.is_started code.now function }
    ensures { result ≡ facts_pairs.is_root code.now function }
{
    is_main(code, function) || is_started
}

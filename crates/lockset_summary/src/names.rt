// The names of the arguments of calls.
ghost use Rattle.std.specs.Prelude.{◌≡◌, ◌<◌, length, map, slice_get, Some, IfOk};
ghost use Rattle.flow_code.specs.declared.act.Instr.{Instr as Step};
ghost use Rattle.flow_code.specs.declared.code.Function.{Function as Routine};
ghost use Rattle.facts.specs.Paths as paths;
ghost use Rattle.lockset_summary.specs.Names as spec;

use facts::{Naming, argument_names};
use flow_code::{Code, Function};
use rr_base::List;
use std::alloc::{AllocError, Global};
use word_semantics::LibraryCall;

#[tactic(auto, using(crate::proofs::Naming::only_is, crate::proofs::Naming::not_only))]
fn only_name(names: &[Naming]) -> Naming
    ensures { result ≡ spec.only_name names.now }
{
    if names.len() == 1 {
        names[0]
    } else {
        Naming::Unknown
    }
}

#[tactic(auto, using(crate::proofs::Naming::second_is, crate::proofs::Naming::not_second))]
fn second_name(names: &[Naming]) -> Naming
    ensures { result ≡ spec.second_name names.now }
{
    if names.len() == 2 {
        names[1]
    } else {
        Naming::Unknown
    }
}

/// The name of the mutex or read-write lock of which a library call speaks, where its arguments have these names.
pub fn lock_name(call: &LibraryCall, names: &[Naming]) -> Naming
    ensures { result ≡ spec.lock_name call.now names.now }
{
    match call {
        LibraryCall::MutexInit
        | LibraryCall::MutexLock
        | LibraryCall::MutexUnlock
        | LibraryCall::MutexTryLock
        | LibraryCall::MutexDestroy
        | LibraryCall::RwInit
        | LibraryCall::RwRdLock
        | LibraryCall::RwWrLock
        | LibraryCall::RwUnlock
        | LibraryCall::RwDestroy => only_name(names),
        LibraryCall::CondWait => second_name(names),
        _ => Naming::Unknown,
    }
}

fn row_at(names: &[List<Naming>], k: usize) -> &List<Naming>
    requires { k < length names.now }
    ensures { slice_get names.now k ≡ Some result.now }
{
    &names[k]
}

/// How a function names what the arguments of its k-th instruction point to.
pub fn names_at<'a>(_function: &Function, names: &'a [List<Naming>], k: usize) -> &'a [Naming]
    requires names { names.now ≡ paths.argument_namings _function.now }
    requires within { k < length _function.now.instrs }
    ensures { (i : Step) → slice_get _function.now.instrs k ≡ Some i → result.now ≡ map (paths.naming_at _function.now k) (paths.arguments_of i.act) }
{
    row_at(names, k).as_slice()
}

/// The names of the arguments of the instructions of the f-th function.
pub fn names_of<'a>(_code: &Code, names: &'a [List<List<Naming>>], f: usize) -> &'a [List<Naming>]
    requires names { names.now ≡ map paths.argument_namings _code.now.functions }
    requires within { f < length _code.now.functions }
    ensures { (fn : Routine) → slice_get _code.now.functions f ≡ Some fn → result.now ≡ paths.argument_namings fn }
{
    rows_at(names, f).as_slice()
}

fn rows_at(names: &[List<List<Naming>>], f: usize) -> &List<List<Naming>>
    requires { f < length names.now }
    ensures { slice_get names.now f ≡ Some result.now }
{
    &names[f]
}

/// The names of the arguments of all instructions of all functions.
#[tactic(auto, using(crate::proofs::Naming::map_more, crate::proofs::Naming::map_all))]
pub fn all_names(alloc: Global, code: &Code) -> Result<List<List<List<Naming>>>, AllocError>
    ensures { IfOk result (λ names. names ≡ map paths.argument_namings code.now.functions) }
{
    let mut names = List::new(alloc);
    for function in code.functions.as_slice() {
        names.push(argument_names(alloc, function)?)?;
    }
    Ok(names)
}

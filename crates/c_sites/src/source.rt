//! The check of a source.
ghost use Rattle.std.specs.Prelude.{◌≡◌, None, IfOk, IfErr};
ghost use Rattle.c_tree.specs.View.{program_of};
ghost use Rattle.c_sites.specs.Functions.{program_functions};
ghost use Rattle.c_sites.specs.Sites.{program_sites};
ghost use Rattle.c_sites.specs.Whole.{first_fault};
ghost use Rattle.c_sites.specs.Typed.{program_in};
ghost use Rattle.c_sites.specs.Answers.{IsFault};

use crate::checking::{TypeFault, first_fault_of};
use crate::function_info::{FunctionInfo, functions_of};
use crate::sites::sites_of;
use crate::typed::Typed;
use c_tree::Program;
use rr_base::{List, Site};
use std::alloc::{AllocError, Global};

fn lists_of(
    alloc: Global,
    program: &Program,
) -> Result<(List<Site>, List<FunctionInfo>), AllocError>
    ensures sites { IfOk result (λ r. r.0 ≡ program_sites (program_of program.now)) }
    ensures functions { IfOk result (λ r. r.1 ≡ program_functions (program_of program.now)) }
{
    let sites = sites_of(alloc, program)?;
    let functions = functions_of(alloc, program)?;
    Ok((sites, functions))
}

fn with_lists(alloc: Global, program: Program) -> Result<Typed, TypeFault>
    requires { first_fault (program_of program) ≡ None }
    ensures found { IfOk result (λ t. program_in t ≡ program) }
    ensures fault { IfErr result (λ f. IsFault f (program_of program)) }
{
    match lists_of(alloc, &program) {
        Ok((sites, functions)) => Ok(Typed::new(program, sites, functions)),
        Err(_) => Err(TypeFault::OutOfMemory),
    }
}

/// A source whose types and names break no rule.
///
/// # Errors
/// The first rule that the source breaks, in the text and at one place by its number; `NoMain` where it breaks no other
/// rule. `OutOfMemory` if its names don't fit into memory.
pub fn check(alloc: Global, program: Program) -> Result<Typed, TypeFault>
    // What is found is the source, as it stands.
    ensures found { IfOk result (λ t. program_in t ≡ program) }
    // It breaks no rule.
    ensures sound { IfOk result (λ t. first_fault (program_of program) ≡ None) }
    // Which fault it is.
    ensures fault { IfErr result (λ f. IsFault f (program_of program)) }
{
    match first_fault_of(alloc, &program) {
        Err(_) => Err(TypeFault::OutOfMemory),
        Ok(Some(found)) => Err(TypeFault::Found(found)),
        Ok(None) => with_lists(alloc, program),
    }
}

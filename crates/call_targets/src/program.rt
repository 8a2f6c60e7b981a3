//! Each call through a pointer becomes one of a function that chooses.
ghost use Rattle.std.specs.Prelude.{◌≡◌, ◌++◌, [], map, IfOk, OnOk};
ghost use Rattle.core_tree.specs.View.{function_of, pointer_of, core_of};
ghost use Rattle.call_targets.specs.Resolved as spec;

use crate::choosers::chooser;
use core_tree::{Core, CoreFunction, PointerType};
use rr_base::{List, sum};
use std::alloc::{AllocError, Global};

/// One function for each type of pointers, in their order.
fn push_choosers(
    alloc: Global,
    pointers: &[PointerType],
    functions: &mut List<CoreFunction>,
) -> Result<(), AllocError>
    ensures { OnOk result (map function_of functions.new ≡ map function_of functions.old ++ spec.choosers 1 (map pointer_of pointers.now)) }
{
    let mut number = 1;
    for pointer in pointers {
        functions.push(chooser(alloc, number, pointer)?)?;
        number = sum(number, 1)?;
    }
    Ok(())
}

/// The core tree without pointers to functions. `law_resolved_runs` says that it does the same.
///
/// # Errors
///
/// Only when memory runs out.
pub fn resolve(alloc: Global, core: Core) -> Result<Core, AllocError>
    ensures resolved { IfOk result (λ r. core_of r ≡ spec.resolved (core_of core)) }
    ensures no_pointers { IfOk result (λ r. r.pointers ≡ []) }
{
    let Core {
        mut functions,
        pointers,
        sites,
        globals,
        global_kinds,
        global_bases,
    } = core;
    push_choosers(alloc, pointers.as_slice(), &mut functions)?;
    Ok(Core {
        functions,
        pointers: List::new(alloc),
        sites,
        globals,
        global_kinds,
        global_bases,
    })
}

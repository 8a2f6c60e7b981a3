//! The types of the pointers to functions of a source, and to which functions each may point (C99 6.7.5.3).
ghost use Rattle.std.specs.Prelude.{◌≡◌, ◌++◌, [], IfOk, OnOk, map};
ghost use Rattle.c_names.specs.Table.{known_of, texts_of};
ghost use Rattle.core_tree.specs.View.{pointer_of};
ghost use Rattle.c_elaborate.specs.Pointers as spec;

use c_locals::Taken;
use c_names::Table;
use c_types::{Meaning, Names, PointerType, Wanted, is_main};
use c_values::{gives_pointer, is_pointer_wanted};
use core_tree::PointerType as CorePointer;
use rr_base::{List, sum};
use std::alloc::{AllocError, Global};

/// The number of the pointers that may point to a function: none unless its name stands as a value somewhere.
fn target_type(table: &Table, taken: &Taken, name: &[u8]) -> Option<usize>
    ensures { result ≡ spec.target_type (known_of table.now) (texts_of taken.now.names.keys) name.now }
{
    if !taken.holds(name) || is_main(name) {
        return None;
    }
    match table.seen(name) {
        Some(Meaning::Function(signature)) => table.pointer_numbered(signature),
        Some(Meaning::Variable(_)) | None => None,
    }
}

/// The same of each function that the source defines.
fn target_types(
    alloc: Global,
    table: &Table,
    taken: &Taken,
) -> Result<List<Option<usize>>, AllocError>
    ensures { IfOk result (λ ts. ts ≡ spec.target_types (known_of table.now) (texts_of taken.now.names.keys)) }
{
    let mut types = List::new(alloc);
    for number in 0..table.function_count() {
        match table.function_name(number) {
            None => return Ok(types),
            Some(name) => types.push(target_type(table, taken, name))?,
        }
    }
    Ok(types)
}

fn is_numbered(number: usize, of: Option<usize>) -> bool
    ensures { result ≡ spec.is_numbered number of }
{
    match of {
        None => false,
        Some(of) => of == number,
    }
}

/// The functions to which pointers with this number may point.
fn targets(alloc: Global, number: usize, types: &[Option<usize>]) -> Result<List<u32>, AllocError>
    ensures { IfOk result (λ ns. ns ≡ spec.targets_from number 0 types.now) }
{
    let mut targets = List::new(alloc);
    let mut function: u32 = 0;
    for of in types {
        if is_numbered(number, *of) {
            targets.push(function)?;
        }
        function = sum(function, 1)?;
    }
    Ok(targets)
}

fn is_pointer_kind(wanted: Wanted) -> bool
    ensures { result ≡ spec.is_pointer_kind wanted }
{
    match wanted {
        Wanted::Fits(of) => is_pointer_wanted(of),
        Wanted::Anything => false,
        Wanted::Attribute => false,
        Wanted::Root => false,
        Wanted::Text => false,
    }
}

/// Which parameters are pointers to objects.
fn kinds_of(alloc: Global, params: &[Wanted]) -> Result<List<bool>, AllocError>
    ensures { IfOk result (λ ks. ks ≡ map spec.is_pointer_kind params.now) }
{
    let mut kinds = List::new(alloc);
    for wanted in params {
        kinds.push(is_pointer_kind(*wanted))?;
    }
    Ok(kinds)
}

/// The type with this number, where the functions may be pointed to by pointers of these numbers.
fn pointer_type(
    alloc: Global,
    types: &[Option<usize>],
    number: usize,
    of: &PointerType,
) -> Result<CorePointer, AllocError>
    ensures { IfOk result (λ p. pointer_of p ≡ spec.pointer_type types.now number of.now) }
{
    Ok(CorePointer {
        formals: kinds_of(alloc, of.signature.params.as_slice())?,
        gives_pointer: gives_pointer(of.signature.result),
        at: of.at,
        targets: targets(alloc, number, types)?,
    })
}

fn pointer_types(
    alloc: Global,
    types: &[Option<usize>],
    pointers: &[PointerType],
) -> Result<List<CorePointer>, AllocError>
    ensures { IfOk result (λ ps. map pointer_of ps ≡ spec.pointer_types types.now 0 pointers.now) }
{
    let mut made = List::new(alloc);
    for (number, of) in pointers.iter().enumerate() {
        made.push(pointer_type(alloc, types, number, of)?)?;
    }
    Ok(made)
}

/// The types of the pointers of a source, by the table after it and the names that stand as values in it.
pub fn source_pointers(
    alloc: Global,
    table: &Table,
    taken: &Taken,
) -> Result<List<CorePointer>, AllocError>
    ensures { IfOk result (λ ps. map pointer_of ps ≡ spec.source_pointers (known_of table.now) (texts_of taken.now.names.keys)) }
{
    let types = target_types(alloc, table, taken)?;
    pointer_types(alloc, types.as_slice(), table.pointers())
}

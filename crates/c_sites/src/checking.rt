//! Whole sources (C99 6.9).
#![tactic(auto, using(c_types::proofs::First::first_of_both))]

ghost use Rattle.std.specs.Prelude.{◌≡◌, IfOk, OnOk, map};
ghost use Rattle.c_tree.specs.View.{outer_of, program_of};
ghost use Rattle.c_types.specs.Found.{first_among};
ghost use Rattle.c_programs.specs.Programs as spec;
ghost use Rattle.c_names.specs.Table.{known_of};
ghost use Rattle.c_sites.specs.Whole as whole;

use crate::sites::note_sites;
use c_names::Table;
use c_programs::{note_function, note_objects, note_struct};
use c_tree::{External, Program};
use c_types::{FaultKind, Found, Names};
use rr_base::Position;
use std::alloc::{AllocError, Global};
use thiserror::Error;

/// Why a source isn't typed.
#[derive(Clone, Copy, Debug, Error)]
pub enum TypeFault {
    /// The machine has no memory left for the names of the source.
    #[error("out of memory")]
    OutOfMemory,
    /// The first rule that the source breaks.
    #[error(transparent)]
    Found(Found),
}

impl TypeFault {
    ghost use Rattle.c_sites.specs.Answers.{told_number};

    /// The number by which messages tell the fault; none for `OutOfMemory`.
    pub fn number(&self) -> Option<u8>
        ensures { result ≡ told_number self.now }
    {
        match self {
            TypeFault::OutOfMemory => None,
            TypeFault::Found(found) => Some(found.fault.number()),
        }
    }
}

/// Notes what is wrong with a part of a source.
fn note_external<'a>(
    alloc: Global,
    table: &mut Table<'a>,
    external: &'a External,
    first: &mut Option<Found>,
) -> Result<(), AllocError>
    ensures known { OnOk result (known_of table.new ≡ spec.after_outer (known_of table.old) (outer_of external.now)) }
    ensures first { OnOk result (first.new ≡ first_among first.old (spec.outer_faults (known_of table.old) (outer_of external.now))) }
{
    match external {
        External::Struct { name, members } => {
            note_struct(alloc, table, name, members.as_slice(), first)
        }
        External::Function {
            specifier,
            stars,
            name,
            params,
            body,
            ..
        } => note_function(alloc, table, specifier, *stars, name, params, body, first),
        External::Objects {
            specifier,
            items,
            ..
        } => note_objects(alloc, table, true, specifier, items.as_slice(), first),
    }
}

fn note_externals<'a>(
    alloc: Global,
    table: &mut Table<'a>,
    externals: &'a [External],
    first: &mut Option<Found>,
) -> Result<(), AllocError>
    ensures { OnOk result (first.new ≡ first_among first.old (spec.outers_faults (known_of table.old) (map outer_of externals.now))) }
{
    for external in externals {
        note_external(alloc, table, external, first)?;
    }
    Ok(())
}

fn with_main(first: Option<Found>, has_main: bool) -> Option<Found>
    ensures { result ≡ whole.first_fault_by first has_main }
{
    match first {
        Some(found) => Some(found),
        None => {
            if has_main {
                return None;
            }
            Some(Found {
                fault: FaultKind::NoMain,
                at: Position { line: 1, column: 1 },
            })
        }
    }
}

/// The first rule that the source breaks.
pub fn first_fault_of(alloc: Global, program: &Program) -> Result<Option<Found>, AllocError>
    ensures { IfOk result (λ f. f ≡ whole.first_fault (program_of program.now)) }
{
    let mut table = Table::new(alloc, program)?;
    let has_main = table.is_function_defined(b"main".as_slice());
    let mut first = None;
    note_externals(alloc, &mut table, program.externals.as_slice(), &mut first)?;
    note_sites(alloc, program, &mut first)?;
    Ok(with_main(first, has_main))
}

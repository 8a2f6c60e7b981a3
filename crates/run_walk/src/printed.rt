// What entries print, by the pieces of their threads.
ghost use Rattle.std.specs.Prelude.{◌≡◌, ◌++◌, drop, slice_set, IfOk, OnOk};
ghost use Rattle.run_walk.specs.Printed.{bytes_by, first_piece, is_print, pieces_at, pieces_in, pieces_of};

use crate::remains::Remains;
use core_run::Entry;
use rr_base::{Bytes, List};
use std::alloc::{AllocError, Global};
use sync_objects::OpName;

// Whether an operation of this name prints.
fn is_print(op: OpName) -> bool
    ensures { result ≡ is_print op }
{
    matches!(op, OpName::Print)
}

// The pieces of each thread.
fn slices_of<'a>(alloc: Global, remains: &'a [Remains]) -> Result<List<&'a [Bytes]>, AllocError>
    ensures { IfOk result (λ slices. pieces_of slices ≡ pieces_in remains.now) }
{
    let mut slices = List::new(alloc);
    for thread in remains {
        slices.push(thread.pieces.as_slice())?;
    }
    Ok(slices)
}

// Puts the next piece of a thread after the bytes, and takes it from those that are still to come.
fn put_next(out: &mut Bytes, slices: &mut List<&[Bytes]>, thread: usize) -> Result<(), AllocError>
    ensures out { OnOk result (out.new ≡ out.old ++ first_piece (pieces_at (pieces_of slices.old) thread)) }
    ensures rest { OnOk result (pieces_of slices.new ≡ slice_set (pieces_of slices.old) thread (drop 1 (pieces_at (pieces_of slices.old) thread))) }
{
    if thread >= slices.len() {
        return Ok(());
    }
    let [first, more @ ..] = *slices.at(thread) else {
        return Ok(());
    };
    out.extend_from_slice(first.as_slice())?;
    slices.set(thread, more);
    Ok(())
}

/// What the entries print: each print the next piece of its thread.
pub(crate) fn bytes_of(
    alloc: Global,
    entries: &List<Entry>,
    remains: &[Remains],
) -> Result<Bytes, AllocError>
    ensures { IfOk result (λ out. out ≡ bytes_by entries.now (pieces_in remains.now)) }
{
    let mut slices = slices_of(alloc, remains)?;
    let mut out = Bytes::new(alloc);
    for entry in entries.as_slice() {
        if is_print(entry.op) {
            put_next(&mut out, &mut slices, usize::from(entry.thread))?;
        }
    }
    Ok(out)
}

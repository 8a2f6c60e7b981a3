// The text of weak locks and of the accesses that they guard.
ghost use Rattle.std.specs.Prelude.{◌≡◌, ◌++◌, IfOk, OnOk};
ghost use Rattle.weak_lock_facts.specs.Grains.{name_of};
ghost use Rattle.listing.specs.Sorting.{sorted_by};
ghost use Rattle.listing.specs.WeakText as listing;

use crate::lines::shown;
use crate::text::{kind, push_place};
use facts::AccessAt;
use flow_code::{Code, LockInfo};
use rr_base::{Bytes, List, Place, Position, push_numbered};
use std::alloc::{AllocError, Global};
use weak_lock_facts::{Grain, Grained};

fn push_lock(out: &mut Bytes, code: &Code, number: usize, lock: LockInfo) -> Result<(), AllocError>
    ensures { OnOk result (out.new ≡ out.old ++ listing.lock_text code.now number lock) }
{
    let place = Place {
        site: lock.site,
        class: lock.class,
    };
    push_numbered(out, b"lock w", number as u64)?;
    out.push(b' ')?;
    push_place(out, code, place)?;
    push_numbered(out, b" stripes ", u64::from(lock.stripes))?;
    out.push(b'\n')
}

fn push_locks(out: &mut Bytes, code: &Code, locks: &[LockInfo]) -> Result<(), AllocError>
    ensures { OnOk result (out.new ≡ out.old ++ listing.locks_text code.now 0 locks.now) }
{
    for number in 0..locks.len() {
        push_lock(out, code, number, locks[number])?;
    }
    Ok(())
}

// A place in the source after a word.
fn push_spot(out: &mut Bytes, word: &[u8], at: Position) -> Result<(), AllocError>
    ensures { OnOk result (out.new ≡ out.old ++ listing.spot_text word.now at) }
{
    push_numbered(out, word, u64::from(at.line))?;
    push_numbered(out, b":", u64::from(at.column))
}

fn push_name(out: &mut Bytes, code: &Code, number: u32) -> Result<(), AllocError>
    ensures { OnOk result (out.new ≡ out.old ++ name_of code.now number) }
{
    match code.functions.get(number as usize) {
        Some(function) => out.extend_from_slice(function.name.as_slice()),
        None => Ok(()),
    }
}

fn beside(access: AccessAt, instr: u32) -> AccessAt
    ensures { result ≡ listing.beside access instr }
{
    AccessAt {
        function: access.function,
        instr,
    }
}

fn push_function(out: &mut Bytes, code: &Code, number: u32) -> Result<(), AllocError>
    ensures { OnOk result (out.new ≡ out.old ++ (listing.function_text code.now number)) }
{
    out.extend_from_slice(b"function ")?;
    push_name(out, code, number)
}

fn push_grain(
    out: &mut Bytes,
    code: &Code,
    access: AccessAt,
    grain: Grain,
) -> Result<(), AllocError>
    ensures { OnOk result (out.new ≡ out.old ++ listing.grain_text code.now access grain) }
{
    match grain {
        Grain::Function => push_function(out, code, access.function),
        Grain::Loop(mark) => push_spot(out, b"loop ", shown(code, beside(access, mark)).at),
        Grain::Block(first) => push_spot(out, b"block ", shown(code, beside(access, first)).at),
        Grain::Instruction => push_spot(out, b"instruction ", shown(code, access).at),
    }
}

fn push_access(out: &mut Bytes, code: &Code, row: &Grained) -> Result<(), AllocError>
    ensures { OnOk result (out.new ≡ out.old ++ listing.access_text code.now row.now) }
{
    let access = shown(code, row.access);
    push_spot(out, b"access ", access.at)?;
    out.extend_from_slice(kind(access.store))?;
    push_grain(out, code, row.access, row.grain)?;
    out.push(b'\n')
}

fn push_accesses(out: &mut Bytes, code: &Code, rows: &[Grained]) -> Result<(), AllocError>
    ensures { OnOk result (out.new ≡ out.old ++ listing.accesses_text code.now rows.now) }
{
    for row in rows {
        push_access(out, code, row)?;
    }
    Ok(())
}

// The accesses as they stand in the source.
fn in_order(alloc: Global, code: &Code, rows: &[Grained]) -> Result<Vec<Grained>, AllocError>
    ensures { IfOk result (λ all. all.items ≡ sorted_by (listing.access_before code.now) rows.now) }
{
    let mut all = Vec::from_slice(alloc, rows)?;
    all.sort_by_key(|row| shown(code, row.access))?;
    Ok(all)
}

/// A line `lock wNUMBER PLACE stripes COUNT` for each lock of the weakened code, and then, in the order of the source, a line
/// `access LINE:COLUMN KIND GRAIN WHERE` for each access that may race, where the grain is a function, with its name, a loop,
/// a block, or one instruction, with the line and column where it begins.
pub fn weak_text(
    alloc: Global,
    code: &Code,
    locks: &[LockInfo],
    rows: &[Grained],
) -> Result<Bytes, AllocError>
    ensures { IfOk result (λ text. text ≡ listing.weak_text_of code.now locks.now rows.now) }
{
    let sorted = in_order(alloc, code, rows)?;
    let mut out = List::new(alloc);
    push_locks(&mut out, code, locks)?;
    push_accesses(&mut out, code, &sorted)?;
    Ok(out)
}

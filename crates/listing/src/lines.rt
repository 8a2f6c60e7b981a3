// The lines of pairs.
ghost use Rattle.std.specs.Prelude.{◌≡◌, map, IfOk};
ghost use Rattle.facts.specs.Accesses as accesses;
ghost use Rattle.listing.specs.Lines as lines;

use crate::line::{Line, Shown};
use facts::{AccessAt, Pair};
use flow_code::{Act, Code};
use rr_base::Position;
use std::alloc::{AllocError, Global};
use word_semantics::LibraryCall;

fn call_stores(call: &LibraryCall, arguments: &[u32]) -> bool
    ensures { result ≡ lines.is_store (accesses.library_access call.now arguments.now) }
{
    match (call, arguments) {
        (LibraryCall::Create { function: _ }, [_, _]) => true,
        (LibraryCall::Join, [_, _]) => true,
        _ => false,
    }
}

fn stores(act: &Act) -> bool
    ensures { result ≡ lines.is_store (accesses.access_of act.now) }
{
    match act {
        Act::StoreCell {
            through: _,
            from: _,
        } => true,
        Act::Library {
            call,
            arguments,
            into: _,
        } => call_stores(call, arguments.as_slice()),
        _ => false,
    }
}

/// An access as the source shows it, at line 0 if the code doesn't have its instruction.
pub(crate) fn shown(code: &Code, at: AccessAt) -> Shown
    ensures { result ≡ lines.shown code.now at }
{
    let nowhere = Shown {
        at: Position { line: 0, column: 0 },
        store: false,
    };
    let Some(function) = code.functions.get(at.function as usize) else {
        return nowhere;
    };
    match function.instrs.get(at.instr as usize) {
        Some(instr) => Shown {
            at: instr.at,
            store: stores(&instr.act),
        },
        None => nowhere,
    }
}

fn comes_before(access: Shown, other: Shown) -> bool
    ensures { result ≡ lines.shown_less access other }
{
    access.cmp(&other).is_lt()
}

fn line_of(code: &Code, pair: &Pair) -> Line
    ensures { result ≡ lines.line_of code.now pair.now }
{
    let place = pair.place;
    let first = shown(code, pair.first);
    let second = shown(code, pair.second);
    if comes_before(second, first) {
        return Line {
            place,
            first: second,
            second: first,
        };
    }
    Line {
        place,
        first,
        second,
    }
}

fn unsorted(alloc: Global, code: &Code, pairs: &[Pair]) -> Result<Vec<Line>, AllocError>
    ensures { IfOk result (λ all. all.items ≡ map (lines.line_of code.now) pairs.now) }
{
    let mut all = Vec::new(alloc);
    for pair in pairs {
        all.push(line_of(code, pair))?;
    }
    Ok(all)
}

/// The lines of the pairs, in order.
pub(crate) fn sorted(alloc: Global, code: &Code, pairs: &[Pair]) -> Result<Vec<Line>, AllocError>
    ensures { IfOk result (λ all. all.items ≡ lines.sorted_lines (map (lines.line_of code.now) pairs.now)) }
{
    let mut all = unsorted(alloc, code, pairs)?;
    all.sort()?;
    Ok(all)
}

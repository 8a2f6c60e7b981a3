// What is told of two points of a log.

ghost use Rattle.std.specs.Prelude.{◌≡◌, ◌++◌, codes, decimal, IfOk, OnOk};
ghost use Rattle.walk_chains.specs.Telling as spec;
ghost use Rattle.walk_chains.specs.Telling.{TellsChain};

use chain_report::{Found, Point, find};
use core_run::walk;
use job_outcomes::Outcome;
use lock_sound::{Weakened, law_weakened_runs};
use order_log::Log;
use rr_base::{Bytes, List, push_numbered};
use std::alloc::{AllocError, Global};
use walk_answers::formula_of;
use walk_hits::answer_of;

// A word, and a point's thread and count.
fn push_point(out: &mut Bytes, word: &[u8], point: Point) -> Result<(), AllocError>
    ensures { OnOk result (out.new ≡ out.old ++ (word.now ++ spec.point_text point)) }
{
    push_numbered(out, word, u64::from(point.thread))?;
    push_numbered(out, b".", u64::from(point.count))
}

fn push_pass(out: &mut Bytes, pass: (u32, u32)) -> Result<(), AllocError>
    ensures { OnOk result (out.new ≡ out.old ++ spec.pass_text pass) }
{
    push_numbered(out, b"pass ", u64::from(pass.0))?;
    push_numbered(out, b" ", u64::from(pass.1))?;
    out.push(b'\n')
}

fn push_passes(out: &mut Bytes, passes: &[(u32, u32)]) -> Result<(), AllocError>
    ensures { OnOk result (out.new ≡ out.old ++ spec.passes_text passes.now) }
{
    for pass in passes {
        push_pass(out, *pass)?;
    }
    Ok(())
}

fn push_chain(
    out: &mut Bytes,
    first: Point,
    second: Point,
    passes: &[(u32, u32)],
) -> Result<(), AllocError>
    ensures { OnOk result (out.new ≡ out.old ++ spec.chain_text first second passes.now) }
{
    push_point(out, b"order ", first)?;
    push_point(out, b" ", second)?;
    out.push(b'\n')?;
    push_passes(out, passes)?;
    push_numbered(out, b"passes ", passes.len() as u64)?;
    out.push(b'\n')
}

fn lines_of(alloc: Global, found: &Found) -> Result<Bytes, AllocError>
    ensures { IfOk result (λ lines. lines ≡ spec.lines_of found.now) }
{
    let mut lines = List::new(alloc);
    match found {
        Found::Wrong { .. } => {}
        Found::NoConflict => lines.extend_from_slice(b"no conflict\n")?,
        Found::Chain {
            first,
            second,
            passes,
        } => push_chain(&mut lines, *first, *second, passes.as_slice())?,
    }
    Ok(lines)
}

/// What is told of two points of a log on weakened code: which of the accesses that they name came first in the log's walk, and the
/// passes from entry to entry that order them; or that they aren't two conflicting accesses. The walk's trap is told after it.
/// Where the walk is wrong its first wrong entry is told alone.
pub fn told_chain<'a>(
    alloc: Global,
    weakened: &Weakened,
    log: &Log,
    one: Point,
    other: Point,
) -> Result<Outcome<'a>, AllocError>
    ensures { IfOk result (TellsChain weakened.now.weak log.now.setup log.now.entries one other) }
{
    law_weakened_runs();
    let walk = walk(
        alloc,
        weakened.code(),
        log.setup(),
        log.entries(),
        &formula_of(None),
    )?;
    let found = find(alloc, weakened, log.setup(), log.entries(), one, other)?;
    let lines = lines_of(alloc, &found)?;
    let answer = answer_of(lines, &walk);
    Ok(Outcome::answers(alloc, answer))
}

// What is told of a watched walk.

ghost use Rattle.std.specs.Prelude.{◌≡◌, ◌++◌, codes, decimal, IfOk, OnOk};
ghost use Rattle.flow_code.specs.Settle.{IsRunnable};
ghost use Rattle.walk_hits.specs.Telling as spec;
ghost use Rattle.walk_hits.specs.Telling.{TellsHit};

use command_line::Answer;
use core_run::Walk;
use flow_code::Code;
use job_outcomes::Outcome;
use order_log::Log;
use reads_text::push_value;
use rr_base::{Bytes, List, push_numbered};
use std::alloc::{AllocError, Global};
use thread_interpreter::{Access, Formula};
use walk_accesses::{Seen, first_in_walk};
use watch_calls::watch_of;

fn kind_of(access: &Access) -> &'static [u8]
    ensures { result.now ≡ spec.kind_text access.now }
{
    if access.store { b" store " } else { b" load " }
}

// A blank and a number.
fn push_number(out: &mut Bytes, number: u32) -> Result<(), AllocError>
    ensures { OnOk result (out.new ≡ out.old ++ (codes " " ++ decimal number)) }
{
    push_numbered(out, b" ", u64::from(number))
}

fn push_hit(out: &mut Bytes, part: u32, access: Access) -> Result<(), AllocError>
    ensures { OnOk result (out.new ≡ out.old ++ spec.hit_text part access) }
{
    out.extend_from_slice(b"hit")?;
    push_number(out, part)?;
    push_number(out, u32::from(access.thread))?;
    push_number(out, access.count)?;
    push_numbered(out, kind_of(&access), u64::from(access.cell))?;
    out.push(b' ')?;
    push_value(out, access.value)?;
    out.push(b'\n')
}

fn line_of(alloc: Global, seen: Seen) -> Result<Bytes, AllocError>
    ensures { IfOk result (λ line. line ≡ spec.line_of seen) }
{
    let mut line = List::new(alloc);
    match seen {
        Seen::Hit { part, access } => push_hit(&mut line, part, access)?,
        Seen::Nowhere => line.extend_from_slice(b"no hit\n")?,
    }
    Ok(line)
}

/// This line, and the trap of the walk; or the first wrong entry alone.
pub fn answer_of(line: Bytes, walk: &Walk) -> Answer
    ensures { result ≡ spec.answer_of line walk.now }
{
    match *walk {
        Walk::Done { .. } => Answer::Done { out: line },
        Walk::Trapped {
            kind,
            thread,
            line: at,
            ..
        } => Answer::Trapped {
            out: line,
            kind,
            thread,
            line: at,
        },
        Walk::Wrong { at } => Answer::WrongEntry { at },
    }
}

/// What is told of the first access of a log's walk on a code that meets a formula: the position of the entry whose part it is in,
/// its thread, how many events this had made before, its kind, its cell and its value; or that there is none. The walk's trap is told
/// after it. Where the walk is wrong its first wrong entry is told alone.
pub fn told_hit<'a>(
    alloc: Global,
    code: &Code,
    log: &Log,
    formula: Formula,
) -> Result<Outcome<'a>, AllocError>
    requires { IsRunnable code.now }
    ensures { IfOk result (TellsHit code.now log.now.setup log.now.entries formula) }
{
    let watch = watch_of(formula);
    let watched = first_in_walk(alloc, code, log.setup(), log.entries(), &watch)?;
    let line = line_of(alloc, watched.seen)?;
    let answer = answer_of(line, &watched.walk);
    Ok(Outcome::answers(alloc, answer))
}

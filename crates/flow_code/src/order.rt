// The order of a function's instructions: where it ends, where its jumps go, and where its objects are made.
ghost use Rattle.std.specs.Prelude.{◌≡◌};
ghost use Rattle.std.specs.Option.{option_copied};
ghost use Rattle.flow_code.specs.Next.{act_in};
ghost use Rattle.flow_code.specs.Order as spec;

use crate::act::{Act, Instr};
use crate::entering::object_in;

fn is_end(last: Option<&Instr>) -> bool
    ensures { result ≡ spec.is_end (act_in (option_copied last.entry)) }
{
    match last {
        Some(instr) => matches!(
            &instr.act,
            Act::Jump { .. } | Act::Branch { .. } | Act::Return { .. }
        ),
        None => false,
    }
}

// Whether the last instruction doesn't go on to a next one.
fn ends_in_itself(instrs: &[Instr]) -> bool
    ensures { result ≡ spec.ends_in_itself instrs.now }
{
    is_end(instrs.last())
}

fn is_mark(target: Option<&Instr>) -> bool
    ensures { result ≡ spec.is_mark (act_in (option_copied target.entry)) }
{
    match target {
        Some(instr) => matches!(&instr.act, Act::Mark),
        None => false,
    }
}

// Whether a jump goes to a later instruction or to a Mark.
fn jump_fits(instrs: &[Instr], at: usize, to: u32) -> bool
    ensures { result ≡ spec.jump_fits instrs.now at to }
{
    at < to as usize || is_mark(instrs.get(to as usize))
}

fn jumps_fit_at(instrs: &[Instr], at: usize, act: &Act) -> bool
    ensures { result ≡ spec.jumps_fit_at instrs.now at act.now }
{
    match act {
        Act::Jump { to } => jump_fits(instrs, at, *to),
        Act::Branch {
            on: _,
            then_at,
            else_at,
        } => jump_fits(instrs, at, *then_at) && jump_fits(instrs, at, *else_at),
        _ => true,
    }
}

fn jumps_fit(instrs: &[Instr]) -> bool
    ensures { result ≡ spec.jumps_fit instrs.now 0 instrs.now }
{
    for (at, instr) in instrs.iter().enumerate() {
        if !jumps_fit_at(instrs, at, &instr.act) {
            return false;
        }
    }
    true
}

fn makes_no_object(instr: &Instr) -> bool
    ensures { result ≡ spec.makes_no_object instr.now }
{
    object_in(&instr.act).is_none()
}

fn make_no_objects(instrs: &[Instr]) -> bool
    ensures { result ≡ spec.make_no_objects instrs.now }
{
    instrs.iter().all(makes_no_object)
}

// Whether only the first instructions make objects of the function's entry.
fn objects_are_first(instrs: &[Instr]) -> bool
    ensures { result ≡ spec.objects_are_first instrs.now }
{
    let mut rest = instrs;
    while let [instr, more @ ..] = rest {
        if makes_no_object(instr) {
            return make_no_objects(more);
        }
        rest = more;
    }
    true
}

/// Whether the function ends in itself, its jumps go on or to a Mark, and its objects are made first.
pub(crate) fn order_fits(instrs: &[Instr]) -> bool
    ensures { result ≡ spec.order_fits instrs.now }
{
    ends_in_itself(instrs) && jumps_fit(instrs) && objects_are_first(instrs)
}

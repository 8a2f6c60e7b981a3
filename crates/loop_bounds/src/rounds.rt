//! The innermost loop round each instruction of a function.
ghost use Rattle.std.specs.Prelude.{◌≡◌, ◌<◌, ◌^◌, length, IfOk};
ghost use Rattle.loop_bounds.specs.Tables as tables;
ghost use Rattle.loop_bounds.specs.Tables.{AreEnds, AreRounds};
ghost use Rattle.weak_lock_facts.specs.Ranges as spec;

use crate::acts::{is_mark, nth};
use flow_code::Instr;
use std::alloc::{AllocError, Global};

// Whether a loop round an instruction begins with another.
fn begins_round(instrs: &[Instr], ends: &[usize], at: usize, mark: usize) -> bool
    requires ends { AreEnds instrs.now ends.now }
    requires length { length ends.now ≡ length instrs.now }
    requires mark { mark < length instrs.now }
    ensures { result ≡ spec.begins_round instrs.now at mark }
{
    is_mark(nth(instrs, mark)) && at < ends[mark]
}

fn following(place: Option<usize>) -> usize
    requires { tables.following place < 2 ^ 64 }
    ensures { result ≡ tables.following place }
{
    match place {
        Some(place) => place + 1,
        None => 0,
    }
}

// The Mark of the innermost loop round an instruction: that of one in front of it, or of a loop round that one, and so on.
fn round_of(instrs: &[Instr], ends: &[usize], rounds: &[Option<usize>], at: usize) -> Option<usize>
    requires ends { AreEnds instrs.now ends.now }
    requires length { length ends.now ≡ length instrs.now }
    requires rounds { AreRounds instrs.now rounds.now }
    requires so_far { length rounds.now ≡ at }
    requires at { at < length instrs.now }
    ensures { result ≡ spec.mark_before instrs.now at at }
{
    let mut front = at;
    while front > 0 {
        let mark = front - 1;
        if begins_round(instrs, ends, at, mark) {
            return Some(mark);
        }
        front = following(rounds[mark]);
    }
    None
}

/// The Mark of the innermost loop round each instruction.
pub fn rounds_of(
    alloc: Global,
    instrs: &[Instr],
    ends: &[usize],
) -> Result<Vec<Option<usize>>, AllocError>
    requires ends { AreEnds instrs.now ends.now }
    requires length { length ends.now ≡ length instrs.now }
    ensures length { IfOk result (λ v. length v.items ≡ length instrs.now) }
    ensures each { IfOk result (λ v. AreRounds instrs.now v.items) }
{
    let mut rounds = Vec::new(alloc);
    for at in 0..instrs.len() {
        let round = round_of(instrs, ends, &rounds, at);
        rounds.push(round)?;
    }
    Ok(rounds)
}

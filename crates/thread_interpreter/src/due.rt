// What is due in a thread, by its code, its limits and the stripes that it owes.
ghost use Rattle.std.specs.Prelude.{◌≡◌, nat_le, Option};
ghost use Rattle.flow_code.specs.Next.{limited as limited_of, owing as owing_of, listed as listed_of, first_owed as first_owed_of, action_of as action_of_due, retake as retake_of};
ghost use Rattle.word_semantics.specs.Limits.{is_free_of_limit as is_free};

use flow_code::Stripe;
use rr_base::Trap;
use sync_objects::{ObjId, Op};
use word_semantics::{Action, Due};

fn is_free_of_limit(op: Op) -> bool
    ensures { result ≡ is_free op }
{
    op.name().is_ending() || op.name().is_weak()
}

// At its limit a thread traps in place of each event, but for its last ones and those on stripes.
pub(crate) fn limited(at_limit: bool, due: Due) -> Due
    ensures { result ≡ limited_of at_limit due }
{
    if !at_limit {
        return due;
    }
    match due {
        Due::Load { .. } | Due::Store { .. } | Due::Mark => Due::Trap(Trap::Limit),
        Due::Operate { op, obj } => {
            if is_free_of_limit(op) {
                Due::Operate { op, obj }
            } else {
                Due::Trap(Trap::Limit)
            }
        }
        Due::Nothing | Due::Quiet | Due::Trap(_) => due,
    }
}

#[inline(always)]
pub(crate) fn first_owed(stripes: &[Stripe]) -> Option<Stripe>
    ensures { result ≡ first_owed_of stripes.now }
{
    let mut rest = stripes;
    while let [first, following @ ..] = rest {
        if first.owed {
            return Some(*first);
        }
        rest = following;
    }
    None
}

fn retake(stripe: Stripe) -> Due
    ensures { result ≡ retake_of stripe }
{
    Due::Operate {
        op: Op::Retake,
        obj: ObjId::Weak {
            lock: stripe.lock,
            stripe: stripe.stripe,
        },
    }
}

// A thread that owes stripes makes no access, no mark and no other operation on a stripe, but takes the least of them
// again.
pub(crate) fn owing(owed: Option<Stripe>, due: Due) -> Due
    ensures { result ≡ owing_of owed due }
{
    let Some(stripe) = owed else {
        return due;
    };
    match due {
        Due::Load { .. } | Due::Store { .. } | Due::Mark => retake(stripe),
        Due::Operate { op, obj } => {
            if op.name().is_weak() {
                retake(stripe)
            } else {
                Due::Operate { op, obj }
            }
        }
        Due::Nothing | Due::Quiet | Due::Trap(_) => due,
    }
}

// Where a thread's list of entries is full, it traps in place of each operation but its last ones.
pub(crate) fn listed(is_full: bool, due: Due) -> Due
    ensures { result ≡ listed_of is_full due }
{
    match due {
        Due::Operate { op, .. } => {
            if is_full && !op.name().is_ending() {
                Due::Trap(Trap::LogFull)
            } else {
                due
            }
        }
        _ => due,
    }
}

pub(crate) fn action_of(due: Due) -> Action
    ensures { result ≡ action_of_due due }
{
    match due {
        Due::Nothing => Action::Ended,
        Due::Quiet => Action::Quiet,
        Due::Load { cell } => Action::Load { cell },
        Due::Store { cell, value } => Action::Store { cell, value },
        Due::Mark => Action::Mark,
        Due::Operate { op, obj } => Action::Operate { op, obj },
        Due::Trap(_) => Action::Operate {
            op: Op::TrapHere,
            obj: ObjId::Halt,
        },
    }
}

// The loops and regions of a function, and the weak locks.
ghost use Rattle.std.specs.Prelude.{◌≡◌};
ghost use Rattle.flow_code.specs.Regions as spec;

use crate::addresses::is_global;
use crate::code::{Code, Function, LockInfo, LoopInfo};
use crate::kinds::{has_instr, has_pointer, has_register, has_whole, is_site};
use crate::region::{Base, Bound, Region, Span};

fn bound_is_register(function: &Function, bound: Bound) -> bool
    ensures { result ≡ spec.bound_is_register function.now bound }
{
    match bound {
        Bound::Number(_) => true,
        Bound::Register(r) => has_register(function, r),
    }
}

/// Whether the instructions and registers of a counted loop are the function's.
pub(crate) fn loop_fits(function: &Function, counted: &LoopInfo) -> bool
    ensures { result ≡ spec.loop_fits function.now counted.now }
{
    has_instr(function, counted.at)
        && has_instr(function, counted.first)
        && has_instr(function, counted.last)
        && has_register(function, counted.counter)
        && bound_is_register(function, counted.bound)
}

// Whether the numbers ascend strictly.
fn ascend(numbers: &[u16]) -> bool
    ensures { result ≡ spec.ascend numbers.now }
{
    let mut rest = numbers;
    while let [number, more @ ..] = rest {
        if let [next, ..] = more
            && *number >= *next
        {
            return false;
        }
        rest = more;
    }
    true
}

fn are_locks(code: &Code, locks: &[u16]) -> bool
    ensures { result ≡ spec.are_locks code.now locks.now }
{
    locks
        .iter()
        .all(|lock| usize::from(*lock) < code.locks.len())
}

fn locks_fit(code: &Code, locks: &[u16]) -> bool
    ensures { result ≡ spec.locks_fit code.now locks.now }
{
    ascend(locks) && are_locks(code, locks)
}

fn base_fits(code: &Code, function: &Function, base: Base) -> bool
    ensures { result ≡ spec.base_fits code.now function.now base }
{
    match base {
        Base::Site(site) => is_global(code, site),
        Base::Register(r) => has_pointer(function, r),
    }
}

fn bound_is_whole(function: &Function, bound: Bound) -> bool
    ensures { result ≡ spec.bound_is_whole function.now bound }
{
    match bound {
        Bound::Number(_) => true,
        Bound::Register(r) => has_whole(function, r),
    }
}

fn span_fits(code: &Code, function: &Function, span: &Span) -> bool
    ensures { result ≡ spec.span_fits code.now function.now span.now }
{
    base_fits(code, function, span.base) && locks_fit(code, span.locks.as_slice())
}

fn spans_fit(code: &Code, function: &Function, spans: &[Span]) -> bool
    ensures { result ≡ spec.spans_fit code.now function.now spans.now }
{
    spans.iter().all(|span| span_fits(code, function, span))
}

/// Whether the locks of a region ascend, and its registers and bases are of the kinds that it needs.
pub(crate) fn region_fits(code: &Code, function: &Function, region: &Region) -> bool
    ensures { result ≡ spec.region_fits code.now function.now region.now }
{
    match region {
        Region::Whole { locks } => locks_fit(code, locks.as_slice()),
        Region::Ranged {
            counter,
            bound,
            spans,
        } => {
            has_whole(function, *counter)
                && bound_is_whole(function, *bound)
                && spans_fit(code, function, spans.as_slice())
        }
        Region::Cell { base, locks } => {
            base_fits(code, function, *base) && locks_fit(code, locks.as_slice())
        }
    }
}

/// Whether the lock has 1 or 8 stripes, and its place is of a site of the code.
pub(crate) fn lock_fits(code: &Code, lock: &LockInfo) -> bool
    ensures { result ≡ spec.lock_fits code.now lock.now }
{
    is_site(code, lock.site) && (lock.stripes == 1 || lock.stripes == 8)
}

// Whether passes are a chain.
ghost use Rattle.std.specs.Prelude.{◌≡◌, ◌<◌, length, slice_get, true, IfSome};
ghost use Rattle.chain_report.specs.Accesses.{AreInOrder};
ghost use Rattle.chain_report.specs.Chains.{exclude as exclude_of, hands_thread as hands_thread_of, passes_to as passes_to_of, passes as passes_of, is_after as is_after_of, is_before as is_before_of, is_of_one as is_of_one_of, goes_on as goes_on_of, ends as ends_of, is_chain as is_chain_of};

use crate::point::Point;
use crate::replayed::{acquired, released};
use core_run::same_object;
use lock_sound::Weakened;
use rr_base::List;
use sync_objects::{Entry, Mode, OpName, Setup};

// Whether the two modes exclude each other.
pub(crate) fn exclude(released: Option<Mode>, acquired: Option<Mode>) -> bool
    ensures { result ≡ exclude_of released acquired }
{
    match (released, acquired) {
        (Some(Mode::Write), Some(_)) => true,
        (Some(Mode::Read), Some(Mode::Write)) => true,
        (Some(Mode::Read), Some(Mode::Read)) => false,
        (Some(_), None) | (None, _) => false,
    }
}

// Whether the one operation hands a thread to the other.
pub(crate) fn hands_thread(first: OpName, second: OpName) -> bool
    ensures { result ≡ hands_thread_of first second }
{
    match (first, second) {
        (OpName::Start, OpName::Begin) | (OpName::End, OpName::Join) => true,
        _ => false,
    }
}

// Whether the one entry passes its object to the other.
fn passes_to(entries: &List<Entry>, a: u32, first: Entry, b: u32, second: Entry) -> bool
    requires first { a < length entries.now }
    requires second { b < length entries.now }
    ensures { result ≡ passes_to_of entries.now a first b second }
{
    a < b
        && same_object(first.obj, second.obj)
        && (hands_thread(first.op, second.op)
            || exclude(
                released(&entries.as_slice()[..a as usize], first),
                acquired(&entries.as_slice()[..b as usize], second),
            ))
}

// Whether the one of the entries at these positions passes to the other.
fn passes(entries: &List<Entry>, a: u32, b: u32) -> bool
    ensures { result ≡ passes_of entries.now a b }
{
    match (entry_at(entries, a), entry_at(entries, b)) {
        (Some(first), Some(second)) => passes_to(entries, a, first, b, second),
        _ => false,
    }
}

// The entry at this position, if there is one.
fn entry_at(entries: &List<Entry>, at: u32) -> Option<Entry>
    ensures value { result ≡ slice_get entries.now at }
    ensures within { IfSome result (λ _. at < length entries.now) }
{
    entries.get(at as usize).copied()
}

// Whether the entry is of the point's thread, and after the point.
pub(crate) fn is_after(point: Point, entry: Option<Entry>) -> bool
    ensures { result ≡ is_after_of point entry }
{
    match entry {
        Some(entry) => entry.thread == point.thread && point.count < entry.count,
        None => false,
    }
}

// Whether the entry is of the point's thread, and before the point.
pub(crate) fn is_before(point: Point, entry: Option<Entry>) -> bool
    ensures { result ≡ is_before_of point entry }
{
    match entry {
        Some(entry) => entry.thread == point.thread && entry.count <= point.count,
        None => false,
    }
}

// Whether the two are entries of one thread.
fn is_of_one(first: Option<Entry>, second: Option<Entry>) -> bool
    ensures { result ≡ is_of_one_of first second }
{
    match (first, second) {
        (Some(first), Some(second)) => first.thread == second.thread,
        _ => false,
    }
}

// Whether a chain that was led to the one entry may go on with the other.
fn goes_on(entries: &List<Entry>, from: Point, reached: Option<u32>, a: u32) -> bool
    ensures { result ≡ goes_on_of entries.now from reached a }
{
    match reached {
        None => is_after(from, entry_at(entries, a)),
        Some(b) => b < a && is_of_one(entry_at(entries, b), entry_at(entries, a)),
    }
}

// Whether a chain may end with the entry that it was led to.
fn ends(entries: &List<Entry>, to: Point, reached: Option<u32>) -> bool
    ensures { result ≡ ends_of entries.now to reached }
{
    match reached {
        None => false,
        Some(b) => is_before(to, entry_at(entries, b)),
    }
}

// Whether the passes are a chain from the one point to the other.
fn are_chain(
    entries: &List<Entry>,
    first: Point,
    second: Point,
    passes_given: &[(u32, u32)],
) -> bool
    ensures { result ≡ is_chain_of entries.now first second passes_given.now }
{
    let mut reached = None;
    let mut rest = passes_given;
    while let [(a, b), more @ ..] = rest {
        if !(goes_on(entries, first, reached, *a) && passes(entries, *a, *b)) {
            return false;
        }
        reached = Some(*b);
        rest = more;
    }
    ends(entries, second, reached)
}

/// Whether the passes are a chain from the one point to the other: each of them leads from an entry to a later one to which it
/// passes its object, the first one from an entry of the first point's thread after the point, each next one from a later entry of
/// the thread that the one before it has led to, and the last one to an entry of the second point's thread before the point.
/// Where the points are accesses of the walk of the entries, they are ordered in it. It takes no memory.
pub fn is_chain(
    w: &Weakened,
    setup: &Setup,
    entries: &List<Entry>,
    first: Point,
    second: Point,
    passes: &List<(u32, u32)>,
) -> bool
    ensures exact { result ≡ is_chain_of entries.now first second passes.now }
    ensures ordered { result ≡ true → AreInOrder w.now.weak setup.now entries.now first second }
{
    let _code = w.code();
    let _slots = setup.slots();
    are_chain(entries, first, second, passes.as_slice())
}

// Entries that share a line.

ghost use Rattle.std.specs.Prelude.{◌≡◌, ◌≤◌, ◌∷◌, length, drop};
ghost use Rattle.order_log.specs.Text as text;

use crate::version::Version;
use sync_objects::{Entry, ObjId, OpName};

/// Whether both are takes, or both gives.
pub fn are_alike(first: OpName, second: OpName) -> bool
    ensures { result ≡ text.are_alike first second }
{
    matches!(
        (first, second),
        (OpName::Take, OpName::Take) | (OpName::Give, OpName::Give)
    )
}

fn is_next(before: ObjId, after: ObjId) -> bool
    ensures { result ≡ text.is_next before after }
{
    match (before, after) {
        (
            ObjId::Weak { lock, stripe },
            ObjId::Weak {
                lock: other,
                stripe: next,
            },
        ) => lock == other && u16::from(next) == u16::from(stripe) + 1,
        _ => false,
    }
}

fn continues(first: &Entry, second: &Entry) -> bool
    ensures { result ≡ text.continues first.now second.now }
{
    first.thread == second.thread
        && first.count == second.count
        && are_alike(first.op, second.op)
        && is_next(first.obj, second.obj)
}

/// Whether the second stands in the line of the first, right after it.
pub fn shares(version: Version, first: &Entry, second: &Entry) -> bool
    ensures { result ≡ text.shares version first.now second.now }
{
    match version {
        Version::One => false,
        Version::Two => continues(first, second),
    }
}

/// How many entries stand in the line of the first, after it.
pub fn sharing(version: Version, first: &Entry, rest: &[Entry]) -> usize
    ensures within { result ≤ length rest.now }
    ensures group { text.groups_of version (first.now ∷ rest.now)
        ≡ record { first = first.now; more = result } ∷ text.groups_of version (drop result rest.now) }
{
    let mut more = 0;
    let mut before = first;
    for entry in rest {
        if !shares(version, before, entry) {
            return more;
        }
        more += 1;
        before = entry;
    }
    more
}

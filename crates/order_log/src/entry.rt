// The entries that a line is.

ghost use Rattle.std.specs.Prelude.{◌≡◌, ℕ, Some, min, nat_lt, option_map};
ghost use Rattle.order_log.specs.Line as line;
ghost use Rattle.order_log.specs.Text.{stripe_of};

use crate::group::are_alike;
use crate::operation::op_in;
use crate::part::{cut, number};
use crate::version::Version;
use sync_objects::{Entry, ObjId, OpName, fits};

/// The entries of a line: the first, and the last stripe, up to which each stripe has one.
#[derive(Clone, Copy)]
pub struct LineGroup {
    pub first: Entry,
    pub last: u8,
}

fn as_u8(n: u64) -> u8
    ensures { result ≡ min n 255 }
{
    n.min(255) as u8
}

fn as_u16(n: u64) -> u16
    ensures { result ≡ min n 65535 }
{
    n.min(65_535) as u16
}

fn as_u32(n: u64) -> u32
    ensures { result ≡ min n 4294967295 }
{
    n.min(4_294_967_295) as u32
}

#[tactic(auto, unfolding(crate::specs::Line::weak_in))]
fn weak_in(text: &[u8]) -> Option<ObjId>
    ensures { result ≡ option_map line.clipped_object (line.weak_in text.now) }
{
    let (lock, stripe) = cut(text, b'.')?;
    let lock = as_u16(number(lock)?);
    let stripe = as_u8(number(stripe)?);
    Some(ObjId::Weak { lock, stripe })
}

/// The object that a text names. The greatest number of each type stands for all that are above.
#[tactic(auto, unfolding(crate::specs::Line::object_in))]
pub fn object_in(text: &[u8]) -> Option<ObjId>
    ensures { result ≡ option_map line.clipped_object (line.object_in text.now) }
{
    match text {
        [b'm', cell @ ..] => Some(ObjId::Mutex(as_u32(number(cell)?))),
        [b'c', cell @ ..] => Some(ObjId::Cond(as_u32(number(cell)?))),
        [b'b', cell @ ..] => Some(ObjId::Barrier(as_u32(number(cell)?))),
        [b'r', cell @ ..] => Some(ObjId::Rw(as_u32(number(cell)?))),
        [b'w', parts @ ..] => weak_in(parts),
        [b's', slot @ ..] => Some(ObjId::Slot(as_u8(number(slot)?))),
        [b'T'] => Some(ObjId::Threads),
        [b'H'] => Some(ObjId::Halt),
        [b'I'] => Some(ObjId::Input),
        [b'O'] => Some(ObjId::Output),
        _ => None,
    }
}

// As `fits` says it, on the two as they were read.
fn is_fitting(op: OpName, obj: ObjId) -> bool
    ensures { result ≡ line.fits op obj }
{
    fits(op, obj)
}

// The entry that a text is. The greatest number of each type stands for all that are above.
#[tactic(auto, unfolding(crate::specs::Line::entry_in))]
fn entry_in(text: &[u8]) -> Option<Entry>
    ensures { result ≡ option_map line.clipped (line.entry_in text.now) }
{
    let (thread, rest) = cut(text, b' ')?;
    let (count, rest) = cut(rest, b' ')?;
    let (op, obj) = cut(rest, b' ')?;
    let thread = as_u8(number(thread)?);
    let count = as_u32(number(count)?);
    let op = op_in(op)?;
    let obj = object_in(obj)?;
    if !is_fitting(op, obj) {
        return None;
    }
    Some(Entry {
        thread,
        count,
        op,
        obj,
    })
}

/// The stripe of an object that has one.
pub fn stripe_of(obj: ObjId) -> u8
    ensures { result ≡ stripe_of obj }
{
    match obj {
        ObjId::Weak { stripe, .. } => stripe,
        _ => 0,
    }
}

fn may_share(op: OpName) -> bool
    ensures { result ≡ line.may_share op }
{
    are_alike(op, op)
}

// Whether the first of two numbers in digits is the lesser, however long they are.
fn is_less(first: &[u8], second: &[u8]) -> bool
    ensures { (m n : ℕ) → line.number_in first.now ≡ Some m → line.number_in second.now ≡ Some n
        → result ≡ nat_lt m n }
{
    let by_length = first.len().cmp(&second.len());
    by_length.then(first.cmp(&second)).is_lt()
}

fn alone(first: Entry) -> LineGroup
    ensures { result ≡ record { first = first; last = stripe_of first.obj } }
{
    LineGroup {
        first,
        last: stripe_of(first.obj),
    }
}

// From the stripe of the entry `front` to the stripe `last`.
#[tactic(auto, unfolding(crate::specs::Line::range_in))]
fn range_in(front: &[u8], last: &[u8]) -> Option<LineGroup>
    ensures { result ≡ option_map line.clipped_group (line.range_in (front.now, last.now)) }
{
    let first = entry_in(front)?;
    let end = as_u8(number(last)?);
    if !may_share(first.op) {
        return None;
    }
    let (_, stripe) = cut(front, b'.')?;
    if !is_less(stripe, last) {
        return None;
    }
    Some(LineGroup { first, last: end })
}

/// The entries that a line is. The greatest number of each type stands for all that are above.
pub fn group_in(version: Version, text: &[u8]) -> Option<LineGroup>
    ensures { result ≡ option_map line.clipped_group (line.group_in version text.now) }
{
    let parts = match version {
        Version::One => None,
        Version::Two => cut(text, b'-'),
    };
    match parts {
        Some((front, last)) => range_in(front, last),
        None => Some(alone(entry_in(text)?)),
    }
}

// Whether two entries are the same.
ghost use Rattle.std.specs.Prelude.{◌≡◌};
ghost use Rattle.run_theory.specs.Same.{same_object as same_object_of, same_entry as same_entry_of, operation_index as operation_index_of};

use sync_objects::{Entry, ObjId, OpName};

fn operation_index(op: OpName) -> u8
    ensures { result ≡ operation_index_of op }
{
    match op {
        OpName::Lock => 0,
        OpName::TryLock => 1,
        OpName::Unlock => 2,
        OpName::MutexInit => 3,
        OpName::CondEnter => 4,
        OpName::CondWake => 5,
        OpName::Signal => 6,
        OpName::BarrierInit => 7,
        OpName::Arrive => 8,
        OpName::Pass => 9,
        OpName::Take => 10,
        OpName::Retake => 11,
        OpName::Give => 12,
        OpName::Revoke => 13,
        OpName::Draw => 14,
        OpName::Start => 15,
        OpName::Begin => 16,
        OpName::End => 17,
        OpName::Join => 18,
        OpName::Close => 19,
        OpName::Leave => 20,
        OpName::HaltAll => 21,
        OpName::TrapHere => 22,
        OpName::Stop => 23,
        OpName::GetChar => 24,
        OpName::Print => 25,
        OpName::RdLock => 26,
        OpName::WrLock => 27,
        OpName::RwUnlock => 28,
        OpName::RwInit => 29,
    }
}

/// Whether the two are one object.
pub fn same_object(a: ObjId, b: ObjId) -> bool
    ensures { result ≡ same_object_of a b }
{
    match (a, b) {
        (ObjId::Mutex(c), ObjId::Mutex(d)) => c == d,
        (ObjId::Cond(c), ObjId::Cond(d)) => c == d,
        (ObjId::Barrier(c), ObjId::Barrier(d)) => c == d,
        (ObjId::Rw(c), ObjId::Rw(d)) => c == d,
        (ObjId::Weak { lock: l, stripe: s }, ObjId::Weak { lock: m, stripe: r }) => l == m
            && s == r,
        (ObjId::Slot(k), ObjId::Slot(n)) => k == n,
        (ObjId::Threads, ObjId::Threads) => true,
        (ObjId::Halt, ObjId::Halt) => true,
        (ObjId::Input, ObjId::Input) => true,
        (ObjId::Output, ObjId::Output) => true,
        _ => false,
    }
}

pub(crate) fn same_entry(a: Entry, b: Entry) -> bool
    ensures { result ≡ same_entry_of a b }
{
    a.thread == b.thread
        && a.count == b.count
        && operation_index(a.op) == operation_index(b.op)
        && same_object(a.obj, b.obj)
}

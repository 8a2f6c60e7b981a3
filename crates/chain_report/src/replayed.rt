// Which locks the entries of a log get and let go.
ghost use Rattle.std.specs.Prelude.{◌≡◌, None, if◌then◌else◌};
ghost use Rattle.chain_report.specs.Past.{asks_hold as asks_hold_of, asks_holder as asks_holder_of, let_go as let_go_of, got as got_of};
ghost use Rattle.chain_report.specs.Replayed.{holder_after as holder_after_of, holder_over as holder_over_of, hold_after as hold_after_of, hold_over as hold_over_of, unless_held as unless_held_of, released as released_of, acquired as acquired_of};

use core_run::same_object;
use sync_objects::{Entry, Mode, ObjId, OpName};

/// Who holds a mutex after an operation on it.
pub(crate) fn holder_after(op: OpName, thread: u8, before: Option<u8>) -> Option<u8>
    ensures { result ≡ holder_after_of op thread before }
{
    match (op, before) {
        (OpName::Lock | OpName::TryLock, None) => Some(thread),
        (OpName::Unlock, Some(holder)) => if holder == thread { None } else { Some(holder) },
        _ => before,
    }
}

// Who holds the mutex after these entries, of which the first is the first one of a log.
fn holder_over(mutex: ObjId, entries: &[Entry]) -> Option<u8>
    ensures { result ≡ holder_over_of mutex None entries.now }
{
    let mut holder = None;
    let mut rest = entries;
    while let [entry, more @ ..] = rest {
        if same_object(entry.obj, mutex) {
            holder = holder_after(entry.op, entry.thread, holder);
        }
        rest = more;
    }
    holder
}

/// How a thread holds a read-write lock after its own operation on it.
pub(crate) fn hold_after(op: OpName, held: Option<Mode>) -> Option<Mode>
    ensures { result ≡ hold_after_of op held }
{
    match (op, held) {
        (OpName::RdLock, None) => Some(Mode::Read),
        (OpName::WrLock, None) => Some(Mode::Write),
        (OpName::RwUnlock, _) => None,
        _ => held,
    }
}

// How the thread holds the read-write lock after these entries, of which the first is the first one of a log.
fn hold_over(lock: ObjId, thread: u8, entries: &[Entry]) -> Option<Mode>
    ensures { result ≡ hold_over_of lock thread None entries.now }
{
    let mut held = None;
    let mut rest = entries;
    while let [entry, more @ ..] = rest {
        if same_object(entry.obj, lock) && entry.thread == thread {
            held = hold_after(entry.op, held);
        }
        rest = more;
    }
    held
}

/// Whether the operation asks how its thread holds a read-write lock, or changes that.
pub(crate) fn asks_hold(op: OpName) -> bool
    ensures { result ≡ asks_hold_of op }
{
    matches!(op, OpName::RdLock | OpName::WrLock | OpName::RwUnlock)
}

// Whether the operation asks who holds its mutex.
fn asks_holder(op: OpName) -> bool
    ensures { result ≡ asks_holder_of op }
{
    matches!(op, OpName::TryLock)
}

/// The mode in which the operation lets its object go, if it does, where its thread held it in this mode.
pub(crate) fn let_go(op: OpName, held: Option<Mode>) -> Option<Mode>
    ensures { result ≡ let_go_of op held }
{
    match op {
        OpName::Unlock | OpName::Give | OpName::Revoke => Some(Mode::Write),
        OpName::RwUnlock => held,
        _ => None,
    }
}

// The mode, where nobody held the object.
fn unless_held<T: Copy>(held: Option<T>, mode: Mode) -> Option<Mode>
    ensures { result ≡ unless_held_of held mode }
{
    match held {
        None => Some(mode),
        Some(_) => None,
    }
}

/// The mode in which the operation gets its object, if it does, where this thread held it as a mutex and its own thread held it
/// in this mode.
pub(crate) fn got(op: OpName, holder: Option<u8>, held: Option<Mode>) -> Option<Mode>
    ensures { result ≡ got_of op holder held }
{
    match op {
        OpName::Lock | OpName::Take | OpName::Retake => Some(Mode::Write),
        OpName::TryLock => unless_held(holder, Mode::Write),
        OpName::RdLock => unless_held(held, Mode::Read),
        OpName::WrLock => unless_held(held, Mode::Write),
        _ => None,
    }
}

// Who holds the entry's object as a mutex after the entries before it, where the entry asks.
fn holder_before(before: &[Entry], entry: Entry) -> Option<u8>
    ensures { result ≡ (if asks_holder_of entry.op then holder_over_of entry.obj None before.now else None) }
{
    if asks_holder(entry.op) {
        holder_over(entry.obj, before)
    } else {
        None
    }
}

// How the entry's thread holds its object after the entries before it, where the entry asks.
fn hold_before(before: &[Entry], entry: Entry) -> Option<Mode>
    ensures { result ≡ (if asks_hold_of entry.op then hold_over_of entry.obj entry.thread None before.now else None) }
{
    if asks_hold(entry.op) {
        hold_over(entry.obj, entry.thread, before)
    } else {
        None
    }
}

/// The mode in which the entry after these lets a lock or a stripe go, if it does.
pub(crate) fn released(before: &[Entry], entry: Entry) -> Option<Mode>
    ensures { result ≡ released_of before.now entry }
{
    let_go(entry.op, hold_before(before, entry))
}

/// The mode in which the entry after these gets a lock or a stripe, if it does.
pub(crate) fn acquired(before: &[Entry], entry: Entry) -> Option<Mode>
    ensures { result ≡ acquired_of before.now entry }
{
    got(
        entry.op,
        holder_before(before, entry),
        hold_before(before, entry),
    )
}

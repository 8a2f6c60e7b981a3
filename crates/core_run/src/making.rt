// The operation that makes an entry, over one thread and the words.
ghost use Rattle.std.specs.Prelude.{◌≡◌, ◌<◌, IfOk, false, true};
ghost use Rattle.sync_objects.specs.Setup.{IsWithinLimits};
ghost use Rattle.flow_code.specs.Settle.{IsRunnable};
ghost use Rattle.core_run.specs.Machine.{Told, may_revoke as may_revoke_of, may_stop as may_stop_of, may_close as may_close_of};
ghost use Rattle.core_run.specs.Words.{cells_of};
ghost use Rattle.core_run.specs.Parts.{MadeIs, AreUsable, LacksWord, HasWord};
ghost use Rattle.std.specs.Prelude.{MatchOption};
ghost use Rattle.sync_objects.specs.Names.{name_of, Fits};
ghost use Rattle.sync_objects.specs.Sound.{IsInRange};
ghost use Rattle.run_theory.specs.Labels.{Go, Revoke, Stop, Close, label_of};
ghost use Rattle.std.specs.Prelude.{slice_set};

use crate::parts::{Made, has_object, perform, place_of, word_at};
use crate::same::same_entry;
use std::alloc::AllocError;
use sync_objects::{Entry, ObjId, Op, OpName, advance};
use thread_interpreter::Flow;
use word_semantics::Action;

// The entry's operation as the thread's own next one.
fn make_own(
    flow: &mut Flow,
    words: &mut Vec<u64>,
    cells: u32,
    entry: Entry,
) -> Result<Made, AllocError>
    requires runnable { IsRunnable flow.old.code }
    requires limits { IsWithinLimits flow.old.setup }
    requires cells { cells ≡ cells_of flow.old.code flow.old.setup }
    requires thread { entry.thread < 16 }
    requires number { flow.old.number ≡ entry.thread }
    requires label { label_of entry ≡ Go entry.thread }
    requires sound { AreUsable flow.old.code flow.old.setup words.old.items }
    ensures code { flow.new.code ≡ flow.old.code }
    ensures setup { flow.new.setup ≡ flow.old.setup }
    ensures number { flow.new.number ≡ flow.old.number }
    ensures made { (told : Told) → told.thread ≡ flow.old.kept.thread → IfOk result (MadeIs flow.old.code flow.old.setup told entry words.old.items words.new.items flow.new.kept.thread) }
{
    flow.settle()?;
    match flow.next_action() {
        Action::Operate { op, obj } => {
            let own = Entry {
                thread: entry.thread,
                count: flow.count(),
                op: op.name(),
                obj,
            };
            if !same_entry(own, entry) {
                return Ok(Made::Refused);
            }
            let made = perform(flow, words, cells, entry.thread, op, obj)?;
            Ok(made)
        }
        Action::Load { .. } => Ok(Made::Refused),
        Action::Store { .. } => Ok(Made::Refused),
        Action::Mark => Ok(Made::Refused),
        Action::Quiet => Ok(Made::Refused),
        Action::Ended => Ok(Made::Refused),
    }
}

fn may_revoke(flow: &Flow, lock: u16, stripe: u8) -> bool
    ensures { result ≡ may_revoke_of flow.now.kept.thread lock stripe }
{
    flow.ending().is_none()
        && flow.holds(lock, stripe)
        && flow.entries() < 1 << 20
        && flow.revokes() < 1 << 14
}

fn may_stop(flow: &Flow) -> bool
    ensures { result ≡ may_stop_of flow.now.kept.thread }
{
    flow.has_begun() && flow.ending().is_none()
}

fn may_close(flow: &Flow) -> bool
    ensures { result ≡ may_close_of flow.now.kept.thread }
{
    !flow.has_begun() && flow.ending().is_none()
}

// The word after an operation on the object, if it is one of the machine's and the operation is allowed there.
fn advanced_word(
    flow: &Flow,
    words: &[u64],
    cells: u32,
    thread: u8,
    op: Op,
    obj: ObjId,
) -> Option<u64>
    requires cells { cells ≡ cells_of flow.now.code flow.now.setup }
    requires thread { thread < 16 }
    requires range { IsInRange op }
    requires fits { Fits (name_of op) obj }
    requires sound { AreUsable flow.now.code flow.now.setup words.now }
    ensures { MatchOption result (LacksWord flow.now.code flow.now.setup thread op obj words.now) (λ next. HasWord flow.now.code flow.now.setup thread op obj words.now next) }
{
    if !has_object(flow.code(), flow.setup(), cells, obj) {
        return None;
    }
    let Some(word) = word_at(words, place_of(cells, obj)) else {
        return None;
    };
    match advance(op, thread, word) {
        Some((next, _)) => Some(next),
        None => None,
    }
}

fn set_word(words: &mut Vec<u64>, place: usize, word: u64)
    ensures { words.new.items ≡ slice_set words.old.items place word }
{
    if place < words.len() {
        words[place] = word;
    }
}

// The stripe is revoked, if the thread holds it.
fn revoke(
    flow: &mut Flow,
    words: &mut Vec<u64>,
    cells: u32,
    entry: Entry,
    lock: u16,
    stripe: u8,
) -> Made
    requires cells { cells ≡ cells_of flow.old.code flow.old.setup }
    requires thread { entry.thread < 16 }
    requires label { label_of entry ≡ Revoke entry.thread lock stripe }
    requires sound { AreUsable flow.old.code flow.old.setup words.old.items }
    ensures code { flow.new.code ≡ flow.old.code }
    ensures setup { flow.new.setup ≡ flow.old.setup }
    ensures number { flow.new.number ≡ flow.old.number }
    ensures made { (told : Told) → told.thread ≡ flow.old.kept.thread → MadeIs flow.old.code flow.old.setup told entry words.old.items words.new.items flow.new.kept.thread result }
{
    if !may_revoke(flow, lock, stripe) {
        return Made::Refused;
    }
    let own = Entry {
        thread: entry.thread,
        count: flow.count(),
        op: OpName::Revoke,
        obj: ObjId::Weak { lock, stripe },
    };
    if !same_entry(own, entry) {
        return Made::Refused;
    }
    let Some(next) = advanced_word(
        flow,
        words,
        cells,
        entry.thread,
        Op::Revoke,
        ObjId::Weak { lock, stripe },
    ) else {
        return Made::Refused;
    };
    flow.give_up(lock, stripe);
    set_word(words, place_of(cells, ObjId::Weak { lock, stripe }), next);
    Made::Silent
}

// The thread is stopped, if it has begun and not ended.
fn stop(flow: &mut Flow, words: &mut Vec<u64>, cells: u32, entry: Entry) -> Made
    requires cells { cells ≡ cells_of flow.old.code flow.old.setup }
    requires thread { entry.thread < 16 }
    requires label { label_of entry ≡ Stop entry.thread }
    requires sound { AreUsable flow.old.code flow.old.setup words.old.items }
    ensures code { flow.new.code ≡ flow.old.code }
    ensures setup { flow.new.setup ≡ flow.old.setup }
    ensures number { flow.new.number ≡ flow.old.number }
    ensures made { (told : Told) → told.thread ≡ flow.old.kept.thread → MadeIs flow.old.code flow.old.setup told entry words.old.items words.new.items flow.new.kept.thread result }
{
    if !may_stop(flow) {
        return Made::Refused;
    }
    let own = Entry {
        thread: entry.thread,
        count: flow.count(),
        op: OpName::Stop,
        obj: ObjId::Halt,
    };
    if !same_entry(own, entry) {
        return Made::Refused;
    }
    let Some(next) = advanced_word(flow, words, cells, entry.thread, Op::Stop, ObjId::Halt) else {
        return Made::Refused;
    };
    flow.stop();
    set_word(words, place_of(cells, ObjId::Halt), next);
    Made::Silent
}

// The thread's slot is closed, if it hasn't begun.
fn close(flow: &mut Flow, words: &mut Vec<u64>, cells: u32, entry: Entry) -> Made
    requires cells { cells ≡ cells_of flow.old.code flow.old.setup }
    requires thread { entry.thread < 16 }
    requires label { label_of entry ≡ Close entry.thread }
    requires sound { AreUsable flow.old.code flow.old.setup words.old.items }
    ensures code { flow.new.code ≡ flow.old.code }
    ensures setup { flow.new.setup ≡ flow.old.setup }
    ensures number { flow.new.number ≡ flow.old.number }
    ensures made { (told : Told) → told.thread ≡ flow.old.kept.thread → MadeIs flow.old.code flow.old.setup told entry words.old.items words.new.items flow.new.kept.thread result }
{
    if !may_close(flow) {
        return Made::Refused;
    }
    let own = Entry {
        thread: entry.thread,
        count: flow.count(),
        op: OpName::Close,
        obj: ObjId::Slot(entry.thread),
    };
    if !same_entry(own, entry) {
        return Made::Refused;
    }
    let Some(next) = advanced_word(
        flow,
        words,
        cells,
        entry.thread,
        Op::Close,
        ObjId::Slot(entry.thread),
    ) else {
        return Made::Refused;
    };
    flow.close_slot();
    set_word(words, place_of(cells, ObjId::Slot(entry.thread)), next);
    Made::Silent
}

/// The operation that makes the entry, if it is allowed: a revoke, stop or close at the thread as it stands, and any
/// other one as the thread's next after its quiet steps. `cells` is how many of the words are cells. After an Err some
/// quiet steps may be made.
pub(crate) fn make_entry(
    flow: &mut Flow,
    words: &mut Vec<u64>,
    cells: u32,
    entry: Entry,
) -> Result<Made, AllocError>
    requires runnable { IsRunnable flow.old.code }
    requires limits { IsWithinLimits flow.old.setup }
    requires cells { cells ≡ cells_of flow.old.code flow.old.setup }
    requires thread { entry.thread < 16 }
    requires number { flow.old.number ≡ entry.thread }
    requires sound { AreUsable flow.old.code flow.old.setup words.old.items }
    ensures code { flow.new.code ≡ flow.old.code }
    ensures setup { flow.new.setup ≡ flow.old.setup }
    ensures number { flow.new.number ≡ flow.old.number }
    ensures made { (told : Told) → told.thread ≡ flow.old.kept.thread → IfOk result (MadeIs flow.old.code flow.old.setup told entry words.old.items words.new.items flow.new.kept.thread) }
{
    match entry.op {
        OpName::Revoke => match entry.obj {
            ObjId::Weak { lock, stripe } => Ok(revoke(flow, words, cells, entry, lock, stripe)),
            ObjId::Mutex(_) => make_own(flow, words, cells, entry),
            ObjId::Cond(_) => make_own(flow, words, cells, entry),
            ObjId::Barrier(_) => make_own(flow, words, cells, entry),
            ObjId::Rw(_) => make_own(flow, words, cells, entry),
            ObjId::Slot(_) => make_own(flow, words, cells, entry),
            ObjId::Threads => make_own(flow, words, cells, entry),
            ObjId::Halt => make_own(flow, words, cells, entry),
            ObjId::Input => make_own(flow, words, cells, entry),
            ObjId::Output => make_own(flow, words, cells, entry),
        },
        OpName::Stop => Ok(stop(flow, words, cells, entry)),
        OpName::Close => Ok(close(flow, words, cells, entry)),
        _ => make_own(flow, words, cells, entry),
    }
}

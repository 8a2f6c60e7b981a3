// The steps of an entry's part, over one thread and the words.
ghost use Rattle.std.specs.Prelude.{◌≡◌, ◌<◌, ◌≤◌, ◌^◌, ◌+◌, length, true, IfOk, IfSome, ℕ, List, slice_get};
ghost use Rattle.sync_objects.specs.Setup.{IsWithinLimits};
ghost use Rattle.flow_code.specs.Settle.{IsRunnable};
ghost use Rattle.flow_code.specs.Next.{action_at};
ghost use Rattle.flow_code.specs.Settle.{settled};
ghost use Rattle.word_semantics.specs.declared.event.Action.TheVariants as action;
ghost use Rattle.core_run.specs.Machine.{Told};
ghost use Rattle.core_run.specs.Words.{cells_of, has_object as has_object_of, place_of as place_of_object};
ghost use Rattle.core_run.specs.Parts.{OwnOf, OwnIs, KeepsObjects, is_print as is_print_of, PerformedIs, AreUsable};

use flow_code::Code;
use rr_base::Bytes;
use std::alloc::AllocError;
use sync_objects::{ObjId, Op, Setup, advance};
use thread_interpreter::{Access, Flow};
use word_semantics::Action;

/// What a thread's own step has come to.
#[derive(Clone, Copy)]
pub(crate) enum Own {
    /// None was to be made: the thread operates next, or has ended.
    Stays,
    /// The next is a load or store of a cell that the machine doesn't have.
    Outside,
    Marked,
    Accessed(Access),
}

/// What the operation for an entry has come to.
#[derive(Drop)]
pub(crate) enum Made {
    /// It isn't the thread's next one there, or its object doesn't allow it.
    Refused,
    Silent,
    Printed(Bytes),
}

fn load(
    flow: &mut Flow,
    words: &[u64],
    cells: u32,
    thread: u8,
    cell: u32,
) -> Result<Own, AllocError>
    requires cells { cells ≡ cells_of flow.old.code flow.old.setup }
    requires words { cells ≤ length words.now }
    requires number { flow.old.number ≡ thread }
    requires next { action_at flow.old.code flow.old.setup thread flow.old.kept.thread ≡ action.Load cell }
    ensures code { flow.new.code ≡ flow.old.code }
    ensures setup { flow.new.setup ≡ flow.old.setup }
    ensures number { flow.new.number ≡ flow.old.number }
    ensures own { (told : Told) → IfOk result (OwnOf flow.old.code flow.old.setup thread told flow.old.kept.thread (action.Load cell) words.now words.now flow.new.kept.thread) }
{
    if cell >= cells {
        return Ok(Own::Outside);
    }
    let value = words[cell as usize];
    let access = Access {
        thread,
        count: flow.count(),
        cell,
        value,
        store: false,
    };
    flow.reserve()?;
    flow.take_answer(value.cast_signed());
    Ok(Own::Accessed(access))
}

fn store(
    flow: &mut Flow,
    words: &mut Vec<u64>,
    cells: u32,
    thread: u8,
    cell: u32,
    value: u64,
) -> Result<Own, AllocError>
    requires cells { cells ≡ cells_of flow.old.code flow.old.setup }
    requires words { cells ≤ length words.old.items }
    requires number { flow.old.number ≡ thread }
    requires next { action_at flow.old.code flow.old.setup thread flow.old.kept.thread ≡ action.Store cell value }
    ensures code { flow.new.code ≡ flow.old.code }
    ensures setup { flow.new.setup ≡ flow.old.setup }
    ensures number { flow.new.number ≡ flow.old.number }
    ensures keeps { KeepsObjects cells words.old.items words.new.items }
    ensures own { (told : Told) → IfOk result (OwnOf flow.old.code flow.old.setup thread told flow.old.kept.thread (action.Store cell value) words.old.items words.new.items flow.new.kept.thread) }
{
    if cell >= cells {
        return Ok(Own::Outside);
    }
    let access = Access {
        thread,
        count: flow.count(),
        cell,
        value,
        store: true,
    };
    flow.reserve()?;
    words[cell as usize] = value;
    flow.take_answer(0);
    Ok(Own::Accessed(access))
}

fn mark(flow: &mut Flow, thread: u8) -> Result<Own, AllocError>
    requires number { flow.old.number ≡ thread }
    ensures code { flow.new.code ≡ flow.old.code }
    ensures setup { flow.new.setup ≡ flow.old.setup }
    ensures number { flow.new.number ≡ flow.old.number }
    ensures own { (told : Told) (ws : List ℕ) → IfOk result (OwnOf flow.old.code flow.old.setup thread told flow.old.kept.thread action.Mark ws ws flow.new.kept.thread) }
{
    flow.reserve()?;
    flow.take_answer(0);
    let _ = thread;
    Ok(Own::Marked)
}

/// One own step of a thread that makes no entry, if its next is one: all its quiet steps, and then a load, a store or a
/// mark. `cells` is how many of the words are cells. After an Err some quiet steps may be made.
pub(crate) fn own_step(
    flow: &mut Flow,
    words: &mut Vec<u64>,
    cells: u32,
    thread: u8,
) -> Result<Own, AllocError>
    requires cells { cells ≡ cells_of flow.old.code flow.old.setup }
    requires words { cells ≤ length words.old.items }
    requires number { flow.old.number ≡ thread }
    ensures code { flow.new.code ≡ flow.old.code }
    ensures setup { flow.new.setup ≡ flow.old.setup }
    ensures number { flow.new.number ≡ flow.old.number }
    ensures keeps { KeepsObjects cells words.old.items words.new.items }
    ensures own { (told : Told) → told.thread ≡ flow.old.kept.thread → IfOk result (OwnIs flow.old.code flow.old.setup thread told words.old.items words.new.items flow.new.kept.thread) }
{
    flow.settle()?;
    match flow.next_action() {
        Action::Load { cell } => {
            let own = load(flow, words, cells, thread, cell)?;
            Ok(own)
        }
        Action::Store { cell, value } => {
            let own = store(flow, words, cells, thread, cell, value)?;
            Ok(own)
        }
        Action::Mark => {
            let own = mark(flow, thread)?;
            Ok(own)
        }
        Action::Quiet | Action::Operate { .. } | Action::Ended => Ok(Own::Stays),
    }
}

fn is_print(op: Op) -> bool
    ensures { result ≡ is_print_of op }
{
    matches!(op, Op::Print)
}

/// Whether the machine has the object.
pub fn has_object(code: &Code, setup: &Setup, cells: u32, obj: ObjId) -> bool
    requires { cells ≡ cells_of code.now setup.now }
    ensures { result ≡ has_object_of code.now setup.now obj }
{
    match obj {
        ObjId::Mutex(cell) | ObjId::Cond(cell) | ObjId::Barrier(cell) | ObjId::Rw(cell) => {
            cell < cells
        }
        ObjId::Weak { lock, stripe } => usize::from(lock) < code.locks.len() && stripe < 8,
        ObjId::Slot(k) => k < setup.slots(),
        ObjId::Threads | ObjId::Halt | ObjId::Input | ObjId::Output => true,
    }
}

/// Where the object's word stands among the words, of which so many are those of cells.
pub fn place_of(cells: u32, obj: ObjId) -> usize
    ensures { result ≡ place_of_object cells obj }
{
    let cells = cells as usize;
    match obj {
        ObjId::Mutex(cell) => cells + cell as usize,
        ObjId::Cond(cell) => 2 * cells + cell as usize,
        ObjId::Barrier(cell) => 3 * cells + cell as usize,
        ObjId::Rw(cell) => 4 * cells + cell as usize,
        ObjId::Slot(k) => 5 * cells + usize::from(k),
        ObjId::Threads => 5 * cells + 16,
        ObjId::Halt => 5 * cells + 17,
        ObjId::Input => 5 * cells + 18,
        ObjId::Output => 5 * cells + 19,
        ObjId::Weak { lock, stripe } => {
            5 * cells + 20 + 8 * usize::from(lock) + usize::from(stripe)
        }
    }
}

// The operation that comes next in a settled thread, if its object allows it there.
pub(crate) fn perform(
    flow: &mut Flow,
    words: &mut Vec<u64>,
    cells: u32,
    thread: u8,
    op: Op,
    obj: ObjId,
) -> Result<Made, AllocError>
    requires runnable { IsRunnable flow.old.code }
    requires limits { IsWithinLimits flow.old.setup }
    requires cells { cells ≡ cells_of flow.old.code flow.old.setup }
    requires thread { thread < 16 }
    requires number { flow.old.number ≡ thread }
    requires next { action_at flow.old.code flow.old.setup thread flow.old.kept.thread ≡ action.Operate op obj }
    requires sound { AreUsable flow.old.code flow.old.setup words.old.items }
    ensures code { flow.new.code ≡ flow.old.code }
    ensures setup { flow.new.setup ≡ flow.old.setup }
    ensures number { flow.new.number ≡ flow.old.number }
    ensures made { (told : Told) → IfOk result (PerformedIs flow.old.code flow.old.setup thread told flow.old.kept.thread op obj words.old.items words.new.items flow.new.kept.thread) }
{
    if !has_object(flow.code(), flow.setup(), cells, obj) {
        return Ok(Made::Refused);
    }
    let place = place_of(cells, obj);
    let Some(word) = word_at(words, place) else {
        return Ok(Made::Refused);
    };
    let Some((next, answer)) = advance(op, thread, word) else {
        return Ok(Made::Refused);
    };
    if is_print(op) {
        let bytes = flow.piece()?;
        flow.reserve()?;
        flow.take_answer(answer);
        words[place] = next;
        return Ok(Made::Printed(bytes));
    }
    flow.reserve()?;
    flow.take_answer(answer);
    words[place] = next;
    Ok(Made::Silent)
}

/// The word at this place, if there is one.
pub(crate) fn word_at(words: &[u64], place: usize) -> Option<u64>
    ensures value { result ≡ slice_get words.now place }
    ensures within { IfSome result (λ _. place < length words.now) }
{
    words.get(place).copied()
}

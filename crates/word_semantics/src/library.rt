// Calls of the library: the events of each, one after another.
ghost use Rattle.std.specs.Prelude.{◌≡◌};
ghost use Rattle.word_semantics.specs.Library as spec;
ghost use Rattle.word_semantics.specs.Cells.{argument_cell as argument_cell_of, result_cell as result_cell_of};
ghost use Rattle.word_semantics.specs.Registers.{words_of};

use crate::caller::Caller;
use crate::evaluate::{number, word};
use crate::event::Due;
use crate::library_call::LibraryCall;
use crate::pointers::resolved;
use crate::printing::piece_len;
use crate::registers::register;
use rr_base::{CellKind, Trap};
use sync_objects::{ObjId, Op};

// The most bytes that a thread prints.
const MOST_PRINTED: u128 = 1 << 24;

/// The word of argument `k`, and 0 where the call has fewer.
pub fn argument(registers: &[u64], arguments: &[u32], k: usize) -> u64
    ensures { result ≡ spec.argument (words_of registers.now arguments.now) k }
{
    match arguments.get(k) {
        Some(r) => register(registers, *r),
        None => 0,
    }
}

fn clipped(bound: u64, value: i64) -> u64
    ensures { result ≡ spec.clipped bound value }
{
    match u64::try_from(value) {
        Ok(value) if value < bound => value,
        _ => 0,
    }
}

/// A thread's number, or 0 where the answer isn't one.
pub fn slot_in(answer: i64) -> u8
    ensures { result ≡ spec.slot_in answer }
{
    clipped(16, answer) as u8
}

/// An epoch, a generation or a function, or 0 where the answer isn't one.
pub fn count_in(answer: i64) -> u32
    ensures { result ≡ spec.count_in answer }
{
    clipped(1 << 32, answer) as u32
}

// How many threads a barrier is to wait for, or 0 where the number can't be.
fn barrier_count(number: i64) -> u8
    ensures { result ≡ spec.barrier_count number }
{
    clipped(17, number) as u8
}

/// Whether an operation answers that its object was used against its rules.
pub fn is_misuse(answer: i64) -> bool
    ensures { result ≡ spec.is_misuse answer }
{
    answer == -2
}

/// Whether a barrier answers the last thread to come.
pub fn is_serial(answer: i64) -> bool
    ensures { result ≡ spec.is_serial answer }
{
    answer == -1
}

/// The cell by which a thread is handed its argument.
pub fn argument_cell(thread: u8) -> u32
    ensures { result ≡ argument_cell_of thread }
{
    2 * u32::from(thread)
}

/// The cell by which a thread hands back its result.
pub fn result_cell(thread: u8) -> u32
    ensures { result ≡ result_cell_of thread }
{
    2 * u32::from(thread) + 1
}

fn cell_of(
    caller: &Caller,
    registers: &[u64],
    arguments: &[u32],
    k: usize,
    kind: CellKind,
) -> Result<u32, Trap>
    ensures { result ≡ spec.cell_of caller.now (words_of registers.now arguments.now) k kind }
{
    resolved(caller.sites(), argument(registers, arguments, k), kind)
}

fn create_due(
    caller: &Caller,
    function: u32,
    registers: &[u64],
    arguments: &[u32],
    made: u8,
    kept: i64,
) -> Due
    ensures { result ≡ spec.create_due caller.now function (words_of registers.now arguments.now) made kept }
{
    match made {
        0 => match cell_of(caller, registers, arguments, 0, CellKind::Whole) {
            Ok(_) => Due::Operate {
                op: Op::Draw {
                    slots: caller.setup().slots(),
                },
                obj: ObjId::Threads,
            },
            Err(trap) => Due::Trap(trap),
        },
        1 => Due::Store {
            cell: argument_cell(slot_in(kept)),
            value: argument(registers, arguments, 1),
        },
        2 => match cell_of(caller, registers, arguments, 0, CellKind::Whole) {
            Ok(cell) => Due::Store {
                cell,
                value: word(kept),
            },
            Err(trap) => Due::Trap(trap),
        },
        _ => Due::Operate {
            op: Op::Start { function },
            obj: ObjId::Slot(slot_in(kept)),
        },
    }
}

fn is_joinable(caller: &Caller, thread: i64) -> bool
    ensures { result ≡ spec.is_joinable caller.now thread }
{
    1 <= thread
        && thread < i64::from(caller.setup().slots())
        && thread != i64::from(caller.thread())
}

fn join_thread_due(caller: &Caller, thread: i64) -> Due
    ensures { result ≡ spec.join_thread_due caller.now thread }
{
    if is_joinable(caller, thread) {
        Due::Operate {
            op: Op::Join,
            obj: ObjId::Slot(slot_in(thread)),
        }
    } else {
        Due::Trap(Trap::BadThread)
    }
}

fn join_due(caller: &Caller, registers: &[u64], arguments: &[u32], made: u8, kept: i64) -> Due
    ensures { result ≡ spec.join_due caller.now (words_of registers.now arguments.now) made kept }
{
    let thread = number(argument(registers, arguments, 0));
    match made {
        0 => {
            if argument(registers, arguments, 1) == 0 {
                return join_thread_due(caller, thread);
            }
            match cell_of(caller, registers, arguments, 1, CellKind::Pointer) {
                Ok(_) => join_thread_due(caller, thread),
                Err(trap) => Due::Trap(trap),
            }
        }
        1 => {
            if is_misuse(kept) {
                Due::Trap(Trap::BadThread)
            } else {
                Due::Load {
                    cell: result_cell(slot_in(thread)),
                }
            }
        }
        _ => match cell_of(caller, registers, arguments, 1, CellKind::Pointer) {
            Ok(cell) => Due::Store {
                cell,
                value: word(kept),
            },
            Err(trap) => Due::Trap(trap),
        },
    }
}

fn exit_due(caller: &Caller, value: u64, made: u8) -> Due
    ensures { result ≡ spec.exit_due caller.now value made }
{
    match made {
        0 => Due::Store {
            cell: result_cell(caller.thread()),
            value,
        },
        1 => Due::Operate {
            op: Op::End,
            obj: ObjId::Slot(caller.thread()),
        },
        _ => Due::Operate {
            op: Op::Leave,
            obj: ObjId::Threads,
        },
    }
}

// What is due after the only event of a call, which may have answered that it was a misuse.
fn checked_due(misuse: Trap, kept: i64) -> Due
    ensures { result ≡ spec.checked_due misuse kept }
{
    if is_misuse(kept) {
        Due::Trap(misuse)
    } else {
        Due::Quiet
    }
}

fn mutex_due(
    caller: &Caller,
    op: Op,
    registers: &[u64],
    arguments: &[u32],
    made: u8,
    kept: i64,
) -> Due
    ensures { result ≡ spec.mutex_due caller.now op (words_of registers.now arguments.now) made kept }
{
    if made > 0 {
        return checked_due(Trap::MutexMisuse, kept);
    }
    match cell_of(caller, registers, arguments, 0, CellKind::Mutex) {
        Ok(cell) => Due::Operate {
            op,
            obj: ObjId::Mutex(cell),
        },
        Err(trap) => Due::Trap(trap),
    }
}

fn try_due(caller: &Caller, registers: &[u64], arguments: &[u32], made: u8) -> Due
    ensures { result ≡ spec.try_due caller.now (words_of registers.now arguments.now) made }
{
    if made > 0 {
        return Due::Quiet;
    }
    match cell_of(caller, registers, arguments, 0, CellKind::Mutex) {
        Ok(cell) => Due::Operate {
            op: Op::TryLock,
            obj: ObjId::Mutex(cell),
        },
        Err(trap) => Due::Trap(trap),
    }
}

fn wait_due_at(cond: u32, mutex: u32, made: u8, kept: i64) -> Due
    ensures { result ≡ spec.wait_due_at cond mutex made kept }
{
    match made {
        0 => Due::Operate {
            op: Op::CondEnter,
            obj: ObjId::Cond(cond),
        },
        1 => Due::Operate {
            op: Op::Unlock,
            obj: ObjId::Mutex(mutex),
        },
        2 => {
            if is_misuse(kept) {
                return Due::Trap(Trap::MutexMisuse);
            }
            Due::Operate {
                op: Op::CondWake {
                    epoch: count_in(kept),
                },
                obj: ObjId::Cond(cond),
            }
        }
        _ => Due::Operate {
            op: Op::Lock,
            obj: ObjId::Mutex(mutex),
        },
    }
}

fn wait_due(caller: &Caller, registers: &[u64], arguments: &[u32], made: u8, kept: i64) -> Due
    ensures { result ≡ spec.wait_due caller.now (words_of registers.now arguments.now) made kept }
{
    let cond = match cell_of(caller, registers, arguments, 0, CellKind::Cond) {
        Ok(cell) => cell,
        Err(trap) => return Due::Trap(trap),
    };
    match cell_of(caller, registers, arguments, 1, CellKind::Mutex) {
        Ok(mutex) => wait_due_at(cond, mutex, made, kept),
        Err(trap) => Due::Trap(trap),
    }
}

fn signal_due(caller: &Caller, registers: &[u64], arguments: &[u32]) -> Due
    ensures { result ≡ spec.signal_due caller.now (words_of registers.now arguments.now) }
{
    match cell_of(caller, registers, arguments, 0, CellKind::Cond) {
        Ok(cell) => Due::Operate {
            op: Op::Signal,
            obj: ObjId::Cond(cell),
        },
        Err(trap) => Due::Trap(trap),
    }
}

fn barrier_init_due(
    caller: &Caller,
    registers: &[u64],
    arguments: &[u32],
    made: u8,
    kept: i64,
) -> Due
    ensures { result ≡ spec.barrier_init_due caller.now (words_of registers.now arguments.now) made kept }
{
    if made > 0 {
        return checked_due(Trap::BarrierMisuse, kept);
    }
    match cell_of(caller, registers, arguments, 0, CellKind::Barrier) {
        Ok(cell) => Due::Operate {
            op: Op::BarrierInit {
                count: barrier_count(number(argument(registers, arguments, 1))),
            },
            obj: ObjId::Barrier(cell),
        },
        Err(trap) => Due::Trap(trap),
    }
}

fn barrier_wait_due(
    caller: &Caller,
    registers: &[u64],
    arguments: &[u32],
    made: u8,
    kept: i64,
) -> Due
    ensures { result ≡ spec.barrier_wait_due caller.now (words_of registers.now arguments.now) made kept }
{
    if made > 0 && is_misuse(kept) {
        return Due::Trap(Trap::BarrierMisuse);
    }
    if made > 0 && is_serial(kept) {
        return Due::Quiet;
    }
    match cell_of(caller, registers, arguments, 0, CellKind::Barrier) {
        Ok(cell) => Due::Operate {
            op: if made == 0 {
                Op::Arrive
            } else {
                Op::Pass {
                    generation: count_in(kept),
                }
            },
            obj: ObjId::Barrier(cell),
        },
        Err(trap) => Due::Trap(trap),
    }
}

fn rwlock_due(
    caller: &Caller,
    op: Op,
    registers: &[u64],
    arguments: &[u32],
    made: u8,
    kept: i64,
) -> Due
    ensures { result ≡ spec.rwlock_due caller.now op (words_of registers.now arguments.now) made kept }
{
    if made > 0 {
        return checked_due(Trap::RwMisuse, kept);
    }
    match cell_of(caller, registers, arguments, 0, CellKind::Rw) {
        Ok(cell) => Due::Operate {
            op,
            obj: ObjId::Rw(cell),
        },
        Err(trap) => Due::Trap(trap),
    }
}

fn asks_for(caller: &Caller, registers: &[u64], arguments: &[u32], kind: CellKind) -> Due
    ensures { result ≡ spec.asks_for caller.now (words_of registers.now arguments.now) kind }
{
    match cell_of(caller, registers, arguments, 0, kind) {
        Ok(_) => Due::Quiet,
        Err(trap) => Due::Trap(trap),
    }
}

fn print_due(caller: &Caller, bytes: u128) -> Due
    ensures { result ≡ spec.print_due caller.now bytes }
{
    if bytes <= MOST_PRINTED && u128::from(caller.printed()) + bytes <= MOST_PRINTED {
        Due::Operate {
            op: Op::Print,
            obj: ObjId::Output,
        }
    } else {
        Due::Trap(Trap::Limit)
    }
}

/// What comes next in a call of the library, of whose events `made` are made, with the last answer that it keeps.
pub fn library_due(
    caller: &Caller,
    call: &LibraryCall,
    registers: &[u64],
    arguments: &[u32],
    made: u8,
    kept: i64,
) -> Due
    ensures { result ≡ spec.library_due caller.now call.now (words_of registers.now arguments.now) made kept }
{
    match call {
        LibraryCall::Create { function } => create_due(
            caller, *function, registers, arguments, made, kept,
        ),
        LibraryCall::Join => join_due(caller, registers, arguments, made, kept),
        LibraryCall::Exit => exit_due(caller, argument(registers, arguments, 0), made),
        LibraryCall::SelfNumber | LibraryCall::SameThread | LibraryCall::Free => Due::Quiet,
        LibraryCall::MutexInit => mutex_due(
            caller,
            Op::MutexInit,
            registers,
            arguments,
            made,
            kept,
        ),
        LibraryCall::MutexLock => mutex_due(caller, Op::Lock, registers, arguments, made, kept),
        LibraryCall::MutexUnlock => mutex_due(caller, Op::Unlock, registers, arguments, made, kept),
        LibraryCall::MutexTryLock => try_due(caller, registers, arguments, made),
        LibraryCall::MutexDestroy => asks_for(caller, registers, arguments, CellKind::Mutex),
        LibraryCall::CondInit | LibraryCall::CondDestroy => asks_for(
            caller,
            registers,
            arguments,
            CellKind::Cond,
        ),
        LibraryCall::CondWait => wait_due(caller, registers, arguments, made, kept),
        LibraryCall::CondSignal => signal_due(caller, registers, arguments),
        LibraryCall::BarrierInit => barrier_init_due(caller, registers, arguments, made, kept),
        LibraryCall::BarrierWait => barrier_wait_due(caller, registers, arguments, made, kept),
        LibraryCall::BarrierDestroy => asks_for(caller, registers, arguments, CellKind::Barrier),
        LibraryCall::RwInit => rwlock_due(caller, Op::RwInit, registers, arguments, made, kept),
        LibraryCall::RwRdLock => rwlock_due(caller, Op::RdLock, registers, arguments, made, kept),
        LibraryCall::RwWrLock => rwlock_due(caller, Op::WrLock, registers, arguments, made, kept),
        LibraryCall::RwUnlock => rwlock_due(caller, Op::RwUnlock, registers, arguments, made, kept),
        LibraryCall::RwDestroy => asks_for(caller, registers, arguments, CellKind::Rw),
        LibraryCall::GetChar => Due::Operate {
            op: Op::GetChar {
                len: caller.setup().input_len(),
            },
            obj: ObjId::Input,
        },
        LibraryCall::Print { format: _ } => print_due(
            caller,
            piece_len(call, registers, arguments),
        ),
        LibraryCall::PutChar => print_due(caller, 1),
    }
}

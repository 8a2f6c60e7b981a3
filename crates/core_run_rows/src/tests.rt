// Walks of logs in which stripes are taken, given, revoked and retaken.
use crate::instructions::{
    add, address, binary, call, cell, compute, constant, function, load, lone, site, store, whole,
};
use core_run::{Entry, Walk, walk};
use flow_code::{Act, Base, Bound, Code, Function, Instr, LockInfo, Region, Span, Work, is_valid};
use rr_base::{Bytes, CellKind, List, PtrWord, Site};
use std::alloc::{AllocError, Global};
use std::process::Abort;
use std::test::Fail;
use sync_objects::{ObjId, OpName, Setup};
use thread_interpreter::Formula;
use word_semantics::{BinaryOp, LibraryCall, Piece};

pub type Row = (u8, u32, OpName, ObjId);

const W: ObjId = ObjId::Weak { lock: 0, stripe: 0 };

fn push_create(
    alloc: Global,
    instrs: &mut List<Instr>,
    function: u32,
    into: u32,
) -> Result<(), AllocError> {
    let create = call(alloc, LibraryCall::Create { function }, &[into, 2])?;
    add(instrs, create)
}

fn push_join(
    alloc: Global,
    instrs: &mut List<Instr>,
    thread: u32,
    through: u32,
) -> Result<(), AllocError> {
    add(instrs, load(thread, through))?;
    let join = call(alloc, LibraryCall::Join, &[thread, 2])?;
    add(instrs, join)
}

// `main` starts two threads and joins them. `sites` are those of its two locals.
fn push_starts(
    alloc: Global,
    instrs: &mut List<Instr>,
    sites: [u16; 2],
    second: u32,
) -> Result<(), AllocError> {
    for (into, site) in [0, 1].into_iter().zip(sites) {
        add(
            instrs,
            Act::Alloc {
                into,
                site,
                size: None,
            },
        )?;
    }
    add(instrs, constant(2, 0))?;
    push_create(alloc, instrs, 1, 0)?;
    push_create(alloc, instrs, second, 1)?;
    push_join(alloc, instrs, 3, 0)?;
    push_join(alloc, instrs, 4, 1)
}

const MAIN_POINTERS: [bool; 8] = [true, true, true, false, false, true, false, false];

fn returns(instrs: &mut List<Instr>, register: u32) -> Result<(), AllocError> {
    add(instrs, constant(register, 0))?;
    add(
        instrs,
        Act::Return {
            value: Some(register),
        },
    )
}

fn plain_main(alloc: Global, sites: [u16; 2], second: u32) -> Result<Function, AllocError> {
    let mut instrs = List::new(alloc);
    push_starts(alloc, &mut instrs, sites, second)?;
    returns(&mut instrs, 7)?;
    function(alloc, b"main", 0, &MAIN_POINTERS, instrs, List::new(alloc))
}

fn push_printing(alloc: Global, instrs: &mut List<Instr>) -> Result<(), AllocError> {
    push_starts(alloc, instrs, [2, 3], 1)?;
    add(instrs, address(5, 1))?;
    add(instrs, Act::Take(0))?;
    add(instrs, load(6, 5))?;
    add(instrs, Act::Give(0))?;
    let format = List::from_slice(alloc, &[Piece::Number, Piece::Byte(b'\n')])?;
    let print = call(alloc, LibraryCall::Print { format }, &[6])?;
    add(instrs, print)?;
    returns(instrs, 7)
}

// `main` that prints the first global at the end.
fn printing_main(alloc: Global) -> Result<Function, AllocError> {
    let mut instrs = List::new(alloc);
    push_printing(alloc, &mut instrs)?;
    let regions = lone(alloc, cell(alloc, 5)?)?;
    function(alloc, b"main", 0, &MAIN_POINTERS, instrs, regions)
}

fn sites_of(alloc: Global, kinds: &[CellKind], sizes: &[u32]) -> Result<List<Site>, AllocError> {
    let mut sites = List::new(alloc);
    for (kind, size) in kinds.iter().zip(sizes) {
        sites.push(site(alloc, *kind, *size)?)?;
    }
    for _k in 0..2 {
        sites.push(site(alloc, CellKind::Whole, 1)?)?;
    }
    Ok(sites)
}

// The objects lie one after another; the last two sites are no globals.
fn bases_of(alloc: Global, sizes: &[u32]) -> Result<List<Option<u32>>, AllocError> {
    let mut bases = List::new(alloc);
    let mut next: u32 = 0;
    for size in sizes {
        bases.push(Some(next))?;
        next = next.saturating_add(*size);
    }
    for _k in 0..2 {
        bases.push(None)?;
    }
    Ok(bases)
}

fn cells_of(
    alloc: Global,
    kinds: &[CellKind],
    sizes: &[u32],
) -> Result<List<CellKind>, AllocError> {
    let mut cells = List::new(alloc);
    for (kind, size) in kinds.iter().zip(sizes) {
        for _k in 0..*size {
            cells.push(*kind)?;
        }
    }
    Ok(cells)
}

fn zeros(alloc: Global, sizes: &[u32]) -> Result<List<u64>, AllocError> {
    let mut zeros = List::new(alloc);
    for size in sizes {
        for _k in 0..*size {
            zeros.push(0)?;
        }
    }
    Ok(zeros)
}

fn code_of(
    alloc: Global,
    functions: List<Function>,
    kinds: &[CellKind],
    sizes: &[u32],
    stripes: u8,
    guarded: u16,
) -> Result<Code, AllocError> {
    let lock = LockInfo {
        site: guarded,
        class: 0,
        stripes,
    };
    Ok(Code {
        functions,
        sites: sites_of(alloc, kinds, sizes)?,
        globals: zeros(alloc, sizes)?,
        global_kinds: cells_of(alloc, kinds, sizes)?,
        global_bases: bases_of(alloc, sizes)?,
        locks: lone(alloc, lock)?,
    })
}

// `x = x + 1` in one region.
fn push_block(instrs: &mut List<Instr>) -> Result<(), AllocError> {
    add(instrs, address(1, 1))?;
    add(instrs, Act::Take(0))?;
    add(instrs, load(2, 1))?;
    add(instrs, constant(3, 1))?;
    add(instrs, binary(4, BinaryOp::Add, 2, 3))?;
    add(instrs, store(1, 4))?;
    add(instrs, Act::Give(0))?;
    returns(instrs, 5)
}

pub fn block_code(alloc: Global) -> Result<Code, AllocError> {
    let mut instrs = List::new(alloc);
    push_block(&mut instrs)?;
    let regions = lone(alloc, whole(alloc)?)?;
    let pointers = [true, true, false, false, false, true];
    let root = function(alloc, b"inc", 1, &pointers, instrs, regions)?;
    let mut functions = lone(alloc, printing_main(alloc)?)?;
    functions.push(root)?;
    code_of(alloc, functions, &[CellKind::Whole], &[1], 1, 1)
}

// `int t = x; if (t >= 0) x = t + 1;` with a region round each access.
fn push_instructions(instrs: &mut List<Instr>) -> Result<(), AllocError> {
    add(instrs, address(1, 1))?;
    add(instrs, Act::Take(0))?;
    add(instrs, load(2, 1))?;
    add(instrs, Act::Give(0))?;
    add(instrs, constant(3, 0))?;
    add(instrs, binary(4, BinaryOp::GreaterEqual, 2, 3))?;
    add(
        instrs,
        Act::Branch {
            on: 4,
            then_at: 7,
            else_at: 13,
        },
    )?;
    push_second(instrs)
}

fn push_second(instrs: &mut List<Instr>) -> Result<(), AllocError> {
    add(instrs, address(5, 1))?;
    add(instrs, constant(6, 1))?;
    add(instrs, binary(7, BinaryOp::Add, 2, 6))?;
    add(instrs, Act::Take(1))?;
    add(instrs, store(5, 7))?;
    add(instrs, Act::Give(1))?;
    returns(instrs, 8)
}

fn instruction_code(alloc: Global) -> Result<Code, AllocError> {
    let mut instrs = List::new(alloc);
    push_instructions(&mut instrs)?;
    let mut regions = lone(alloc, cell(alloc, 1)?)?;
    regions.push(cell(alloc, 5)?)?;
    let pointers = [true, true, false, false, false, true, false, false, true];
    let root = function(alloc, b"inc", 1, &pointers, instrs, regions)?;
    let mut functions = lone(alloc, printing_main(alloc)?)?;
    functions.push(root)?;
    code_of(alloc, functions, &[CellKind::Whole], &[1], 1, 1)
}

// `for (int i = FROM; i < TO; i++) v[i] = i;` of an array of eight.
fn push_half(instrs: &mut List<Instr>, from: i64, to: i64) -> Result<(), AllocError> {
    add(instrs, constant(1, from))?;
    add(instrs, Act::Take(0))?;
    add(instrs, Act::Mark)?;
    add(instrs, constant(2, to))?;
    add(instrs, binary(3, BinaryOp::Less, 1, 2))?;
    add(
        instrs,
        Act::Branch {
            on: 3,
            then_at: 6,
            else_at: 13,
        },
    )?;
    push_turn(instrs)?;
    add(instrs, Act::Jump { to: 2 })?;
    add(instrs, Act::Give(0))?;
    returns(instrs, 8)
}

// `v[i] = i; i++`
fn push_turn(instrs: &mut List<Instr>) -> Result<(), AllocError> {
    add(instrs, address(4, 8))?;
    add(
        instrs,
        compute(
            5,
            Work::Move {
                pointer: 4,
                by: 1,
                element: 1,
                back: false,
            },
        ),
    )?;
    add(instrs, store(5, 1))?;
    add(instrs, constant(6, 1))?;
    add(instrs, binary(7, BinaryOp::Add, 1, 6))?;
    add(instrs, compute(1, Work::Copy(7)))
}

fn half(alloc: Global, name: &[u8], from: i64, to: i64) -> Result<Function, AllocError> {
    let mut instrs = List::new(alloc);
    push_half(&mut instrs, from, to)?;
    let span = Span {
        base: Base::Site(1),
        shift: 0,
        locks: List::from_slice(alloc, &[0])?,
    };
    let region = Region::Ranged {
        counter: 1,
        bound: Bound::Number(to),
        spans: lone(alloc, span)?,
    };
    let pointers = [true, false, false, false, true, true, false, false, true];
    function(alloc, name, 1, &pointers, instrs, lone(alloc, region)?)
}

fn halves_code(alloc: Global) -> Result<Code, AllocError> {
    let mut functions = lone(alloc, plain_main(alloc, [2, 3], 2)?)?;
    functions.push(half(alloc, b"low", 0, 4)?)?;
    functions.push(half(alloc, b"high", 4, 8)?)?;
    code_of(alloc, functions, &[CellKind::Whole], &[8], 8, 1)
}

// Stores a number in the second global, in the region of its function.
fn stores(
    instrs: &mut List<Instr>,
    value: u32,
    pointer: u32,
    number: i64,
) -> Result<(), AllocError> {
    add(instrs, Act::Take(0))?;
    add(instrs, constant(value, number))?;
    add(
        instrs,
        compute(pointer, Work::Address(PtrWord::pack(2, 1, 1, 0))),
    )?;
    add(instrs, store(pointer, value))
}

// Holds its region over a mutex.
fn push_holding(alloc: Global, instrs: &mut List<Instr>) -> Result<(), AllocError> {
    stores(instrs, 1, 2, 1)?;
    add(instrs, address(3, 1))?;
    add(instrs, call(alloc, LibraryCall::MutexLock, &[3])?)?;
    add(instrs, call(alloc, LibraryCall::MutexUnlock, &[3])?)?;
    add(instrs, constant(4, 0))?;
    add(instrs, Act::Give(0))?;
    add(instrs, Act::Return { value: Some(4) })
}

fn holding(alloc: Global) -> Result<Function, AllocError> {
    let mut instrs = List::new(alloc);
    push_holding(alloc, &mut instrs)?;
    let regions = lone(alloc, whole(alloc)?)?;
    let pointers = [true, false, true, true, true];
    function(alloc, b"f", 1, &pointers, instrs, regions)
}

// Calls the fourth function under the mutex.
fn push_calling(alloc: Global, instrs: &mut List<Instr>) -> Result<(), AllocError> {
    add(instrs, address(1, 1))?;
    add(instrs, call(alloc, LibraryCall::MutexLock, &[1])?)?;
    add(
        instrs,
        Act::Call {
            function: 3,
            arguments: List::new(alloc),
            into: None,
        },
    )?;
    add(instrs, call(alloc, LibraryCall::MutexUnlock, &[1])?)?;
    returns(instrs, 2)
}

fn calling(alloc: Global) -> Result<Function, AllocError> {
    let mut instrs = List::new(alloc);
    push_calling(alloc, &mut instrs)?;
    let pointers = [true, true, true];
    function(alloc, b"g", 1, &pointers, instrs, List::new(alloc))
}

// Stores in a region of its own.
fn push_called(instrs: &mut List<Instr>) -> Result<(), AllocError> {
    stores(instrs, 0, 1, 2)?;
    add(instrs, Act::Give(0))?;
    add(instrs, Act::Return { value: None })
}

fn called(alloc: Global) -> Result<Function, AllocError> {
    let mut instrs = List::new(alloc);
    push_called(&mut instrs)?;
    let regions = lone(alloc, whole(alloc)?)?;
    function(alloc, b"h", 0, &[false, true], instrs, regions)
}

// A function that holds its region over a mutex, one that calls a function with a region under the mutex, and that one.
fn revoked_code(alloc: Global) -> Result<Code, AllocError> {
    let mut functions = lone(alloc, plain_main(alloc, [3, 4], 2)?)?;
    functions.push(holding(alloc)?)?;
    functions.push(calling(alloc)?)?;
    functions.push(called(alloc)?)?;
    code_of(
        alloc,
        functions,
        &[CellKind::Mutex, CellKind::Whole],
        &[1, 1],
        1,
        2,
    )
}

// Each thread ends by pthread_exit within its region, of a lock with eight stripes.
fn push_leaving(alloc: Global, instrs: &mut List<Instr>) -> Result<(), AllocError> {
    add(instrs, address(1, 8))?;
    add(instrs, Act::Take(0))?;
    add(instrs, call(alloc, LibraryCall::Exit, &[0])?)?;
    returns(instrs, 2)
}

fn exiting_code(alloc: Global) -> Result<Code, AllocError> {
    let mut instrs = List::new(alloc);
    push_leaving(alloc, &mut instrs)?;
    let regions = lone(alloc, cell(alloc, 1)?)?;
    let root = function(alloc, b"leave", 1, &[true, true, true], instrs, regions)?;
    let mut functions = lone(alloc, plain_main(alloc, [2, 3], 1)?)?;
    functions.push(root)?;
    code_of(alloc, functions, &[CellKind::Whole], &[8], 8, 1)
}

const NO_READS: Formula = Formula {
    loads: false,
    stores: false,
    thread: None,
    low: 0,
    high: 0,
    value: None,
};

pub fn entries_of(alloc: Global, rows: &[Row]) -> Result<List<Entry>, AllocError> {
    let mut entries = List::new(alloc);
    for (thread, count, op, obj) in rows {
        entries.push(Entry {
            thread: *thread,
            count: *count,
            op: *op,
            obj: *obj,
        })?;
    }
    Ok(entries)
}

// What the walk of a log with three slots prints, or the first wrong position.
fn walked(alloc: Global, code: &Code, rows: &[Row]) -> Result<Result<Bytes, u32>, AllocError> {
    if !is_valid(code) {
        return Ok(Err(u32::MAX));
    }
    let entries = entries_of(alloc, rows)?;
    let setup = Setup::new(3, 16_384, 16_777_216, Bytes::new(alloc));
    if entries.len() > 1_000 {
        return Ok(Err(u32::MAX));
    }
    let no_reads = NO_READS;
    let walk = walk(alloc, code, &setup, &entries, &no_reads)?;
    Ok(shown(walk))
}

fn shown(walk: Walk) -> Result<Bytes, u32> {
    match walk {
        Walk::Done { out, .. } => Ok(out),
        Walk::Trapped { out, .. } => Ok(out),
        Walk::Wrong { at } => Err(at),
    }
}

fn check(
    rt: &impl Abort,
    alloc: Global,
    code: &Code,
    rows: &[Row],
    want: Result<&[u8], u32>,
) -> Result<(), AllocError> {
    let walked = walked(alloc, code, rows)?;
    let found = match &walked {
        Ok(out) => Ok(out.as_slice()),
        Err(at) => Err(*at),
    };
    assert_eq!(rt; found, want);
    Ok(())
}

// The same of a log in parts, so that no table is long: the proof of a function grows with the rows of each table that it names.
fn check_parts(
    rt: &impl Abort,
    alloc: Global,
    code: &Code,
    parts: &[&[Row]],
    want: Result<&[u8], u32>,
) -> Result<(), Fail> {
    let mut rows = Vec::new(alloc);
    for part in parts {
        rows.extend_from_slice(part)?;
    }
    check(rt, alloc, code, rows.as_slice(), want)?;
    Ok(())
}

// `main` starts two threads.
pub static STARTS: [Row; 4] = [
    (0, 1, OpName::Draw, ObjId::Threads),
    (0, 4, OpName::Start, ObjId::Slot(1)),
    (0, 5, OpName::Draw, ObjId::Threads),
    (0, 8, OpName::Start, ObjId::Slot(2)),
];

// The first thread counts in its region, then the second.
pub static FIRST_COUNTS: [Row; 4] = [
    (1, 0, OpName::Begin, ObjId::Slot(1)),
    (1, 3, OpName::Take, W),
    (1, 5, OpName::Give, W),
    (1, 6, OpName::End, ObjId::Slot(1)),
];

pub static SECOND_COUNTS: [Row; 4] = [
    (2, 0, OpName::Begin, ObjId::Slot(2)),
    (2, 3, OpName::Take, W),
    (2, 5, OpName::Give, W),
    (2, 6, OpName::End, ObjId::Slot(2)),
];

pub static JOINS_AND_PRINTS: [Row; 8] = [
    (0, 10, OpName::Join, ObjId::Slot(1)),
    (0, 12, OpName::Join, ObjId::Slot(2)),
    (0, 13, OpName::Take, W),
    (0, 14, OpName::Give, W),
    (0, 14, OpName::Print, ObjId::Output),
    (0, 15, OpName::HaltAll, ObjId::Halt),
    (1, 7, OpName::Leave, ObjId::Threads),
    (2, 7, OpName::Leave, ObjId::Threads),
];

#[test]
fn counts_in_one_region(rt: HostRuntime) -> Result<(), Fail> {
    let code = block_code(rt.alloc())?;
    check_parts(
        &rt,
        rt.alloc(),
        &code,
        &[&STARTS, &FIRST_COUNTS, &SECOND_COUNTS, &JOINS_AND_PRINTS],
        Ok(b"2\n"),
    )
}

// Without its take the thread can't give.
#[test]
fn gives_nothing_untaken(rt: HostRuntime) -> Result<(), Fail> {
    let code = block_code(rt.alloc())?;
    let parts: [&[Row]; 2] = [&STARTS, &FIRST_COUNTS[..1]];
    check_parts(&rt, rt.alloc(), &code, &parts, Err(5))
}

// The parts of a count access by access.
static FIRST_READS: [Row; 3] = [
    (1, 0, OpName::Begin, ObjId::Slot(1)),
    (1, 3, OpName::Take, W),
    (1, 4, OpName::Give, W),
];

static SECOND_READS: [Row; 3] = [
    (2, 0, OpName::Begin, ObjId::Slot(2)),
    (2, 3, OpName::Take, W),
    (2, 4, OpName::Give, W),
];

static FIRST_WRITES: [Row; 5] = [
    (1, 4, OpName::Take, W),
    (1, 5, OpName::Give, W),
    (1, 6, OpName::End, ObjId::Slot(1)),
    (0, 10, OpName::Join, ObjId::Slot(1)),
    (1, 7, OpName::Leave, ObjId::Threads),
];

static SECOND_WRITES: [Row; 9] = [
    (2, 4, OpName::Take, W),
    (2, 5, OpName::Give, W),
    (2, 6, OpName::End, ObjId::Slot(2)),
    (0, 12, OpName::Join, ObjId::Slot(2)),
    (0, 13, OpName::Take, W),
    (0, 14, OpName::Give, W),
    (0, 14, OpName::Print, ObjId::Output),
    (0, 15, OpName::HaltAll, ObjId::Halt),
    (2, 7, OpName::Leave, ObjId::Threads),
];

#[test]
fn counts_access_by_access(rt: HostRuntime) -> Result<(), Fail> {
    let code = instruction_code(rt.alloc())?;
    check_parts(
        &rt,
        rt.alloc(),
        &code,
        &[
            &STARTS,
            &FIRST_READS,
            &FIRST_WRITES,
            &SECOND_READS,
            &SECOND_WRITES,
        ],
        Ok(b"2\n"),
    )
}

#[test]
fn loses_a_count(rt: HostRuntime) -> Result<(), Fail> {
    let code = instruction_code(rt.alloc())?;
    check_parts(
        &rt,
        rt.alloc(),
        &code,
        &[
            &STARTS,
            &FIRST_READS,
            &SECOND_READS,
            &FIRST_WRITES,
            &SECOND_WRITES,
        ],
        Ok(b"1\n"),
    )
}

// Each thread takes its half, and gives it back.
static TAKES: [Row; 10] = [
    (1, 0, OpName::Begin, ObjId::Slot(1)),
    (1, 3, OpName::Take, ObjId::Weak { lock: 0, stripe: 0 }),
    (1, 3, OpName::Take, ObjId::Weak { lock: 0, stripe: 1 }),
    (1, 3, OpName::Take, ObjId::Weak { lock: 0, stripe: 2 }),
    (1, 3, OpName::Take, ObjId::Weak { lock: 0, stripe: 3 }),
    (2, 0, OpName::Begin, ObjId::Slot(2)),
    (2, 3, OpName::Take, ObjId::Weak { lock: 0, stripe: 4 }),
    (2, 3, OpName::Take, ObjId::Weak { lock: 0, stripe: 5 }),
    (2, 3, OpName::Take, ObjId::Weak { lock: 0, stripe: 6 }),
    (2, 3, OpName::Take, ObjId::Weak { lock: 0, stripe: 7 }),
];

static GIVES: [Row; 8] = [
    (2, 12, OpName::Give, ObjId::Weak { lock: 0, stripe: 4 }),
    (2, 12, OpName::Give, ObjId::Weak { lock: 0, stripe: 5 }),
    (2, 12, OpName::Give, ObjId::Weak { lock: 0, stripe: 6 }),
    (2, 12, OpName::Give, ObjId::Weak { lock: 0, stripe: 7 }),
    (1, 12, OpName::Give, ObjId::Weak { lock: 0, stripe: 0 }),
    (1, 12, OpName::Give, ObjId::Weak { lock: 0, stripe: 1 }),
    (1, 12, OpName::Give, ObjId::Weak { lock: 0, stripe: 2 }),
    (1, 12, OpName::Give, ObjId::Weak { lock: 0, stripe: 3 }),
];

static ENDS: [Row; 7] = [
    (1, 13, OpName::End, ObjId::Slot(1)),
    (2, 13, OpName::End, ObjId::Slot(2)),
    (0, 10, OpName::Join, ObjId::Slot(1)),
    (0, 12, OpName::Join, ObjId::Slot(2)),
    (0, 13, OpName::HaltAll, ObjId::Halt),
    (1, 14, OpName::Leave, ObjId::Threads),
    (2, 14, OpName::Stop, ObjId::Halt),
];

#[test]
fn takes_halves(rt: HostRuntime) -> Result<(), Fail> {
    let code = halves_code(rt.alloc())?;
    check_parts(
        &rt,
        rt.alloc(),
        &code,
        &[&STARTS, &TAKES, &GIVES, &ENDS],
        Ok(b""),
    )
}

// A stripe is revoked over a mutex, and taken again after it.
static REVOKES: [Row; 8] = [
    (1, 0, OpName::Begin, ObjId::Slot(1)),
    (1, 3, OpName::Take, W),
    (1, 4, OpName::Revoke, W),
    (2, 0, OpName::Begin, ObjId::Slot(2)),
    (2, 3, OpName::Lock, ObjId::Mutex(6)),
    (2, 5, OpName::Take, W),
    (2, 6, OpName::Give, W),
    (2, 6, OpName::Unlock, ObjId::Mutex(6)),
];

static RETAKES: [Row; 11] = [
    (1, 4, OpName::Lock, ObjId::Mutex(6)),
    (1, 5, OpName::Unlock, ObjId::Mutex(6)),
    (1, 6, OpName::Retake, W),
    (1, 6, OpName::Give, W),
    (1, 7, OpName::End, ObjId::Slot(1)),
    (0, 10, OpName::Join, ObjId::Slot(1)),
    (1, 8, OpName::Leave, ObjId::Threads),
    (2, 8, OpName::End, ObjId::Slot(2)),
    (0, 12, OpName::Join, ObjId::Slot(2)),
    (0, 13, OpName::HaltAll, ObjId::Halt),
    (2, 9, OpName::Leave, ObjId::Threads),
];

#[test]
fn takes_revoked_stripes_again(rt: HostRuntime) -> Result<(), Fail> {
    let code = revoked_code(rt.alloc())?;
    check_parts(
        &rt,
        rt.alloc(),
        &code,
        &[&STARTS, &REVOKES, &RETAKES],
        Ok(b""),
    )
}

// One thread has given its stripe when it leaves, and from the other one it is revoked.
static LEAVES: [Row; 13] = [
    (1, 0, OpName::Begin, ObjId::Slot(1)),
    (1, 3, OpName::Take, W),
    (1, 3, OpName::Give, W),
    (1, 4, OpName::End, ObjId::Slot(1)),
    (1, 5, OpName::Leave, ObjId::Threads),
    (2, 0, OpName::Begin, ObjId::Slot(2)),
    (2, 3, OpName::Take, W),
    (2, 3, OpName::Revoke, W),
    (2, 4, OpName::End, ObjId::Slot(2)),
    (2, 5, OpName::Leave, ObjId::Threads),
    (0, 10, OpName::Join, ObjId::Slot(1)),
    (0, 12, OpName::Join, ObjId::Slot(2)),
    (0, 13, OpName::HaltAll, ObjId::Halt),
];

#[test]
fn exits_without_stripes(rt: HostRuntime) -> Result<(), Fail> {
    let code = exiting_code(rt.alloc())?;
    check_parts(&rt, rt.alloc(), &code, &[&STARTS, &LEAVES], Ok(b""))
}

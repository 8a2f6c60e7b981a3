ghost use Rattle.std.specs.Prelude.{◌≡◌, ℕ, [], ◌<◌, length, slice_get, slice_index_or, Some, IfOk};
ghost use Rattle.flow_code.specs.declared.code.Function.{Function};

use crate::made::{READS_FORMAL, WRITES_FORMAL, instrs, library};
use facts::{AccessAt, Guarded, Held, LockPath, Minus, Pair, PointsTo, RelLocks, Summary};
use flow_code::{Act, Code, Function};
use race_pairs::pairs;
use rr_base::{List, Place};
use std::alloc::{AllocError, Global};
use std::process::Abort;
use std::test::Fail;
use sync_objects::Mode;
use word_semantics::LibraryCall;

const INC: u32 = 0;

const MAIN: u32 = 1;

const DEC: u32 = 2;

const HELPER: u32 = 3;

const X: Place = Place { site: 1, class: 0 };

const Y: Place = Place { site: 2, class: 3 };

const NO_LOCKS: &[Held] = &[];

// The lock in cell 7, held for reading.
const READ: Held = Held {
    path: LockPath::Cell(7),
    mode: Mode::Read,
};

// The same, held for writing.
const WRITTEN: Held = Held {
    path: LockPath::Cell(7),
    mode: Mode::Write,
};

const GLOBAL: &[Held] = &[READ, WRITTEN];

const READ_GLOBAL: &[Held] = &[READ];

const OTHER_GLOBAL: &[Held] = &[
    Held {
        path: LockPath::Cell(6),
        mode: Mode::Read,
    },
    Held {
        path: LockPath::Cell(6),
        mode: Mode::Write,
    },
    Held {
        path: LockPath::Cell(8),
        mode: Mode::Read,
    },
];

const FORMAL: &[Held] = &[READS_FORMAL, WRITES_FORMAL];

/// An access of a summary: its function and instruction there, whether it stores, and the locks that are held.
type Seen = (u32, u32, bool, &'static [Held]);

/// The accesses of the summaries of the four functions, and the pairs: a place, and two accesses.
#[derive(Clone, Copy)]
struct Row {
    summaries: [&'static [Seen]; 4],
    want: &'static [(Place, (u32, u32), (u32, u32))],
}

fn four<T: Drop>(alloc: Global, items: [T; 4]) -> Result<List<T>, AllocError>
    ensures { IfOk result (λ list. list ≡ items) }
{
    Ok(List::from_vec(Vec::from_array(alloc, items)?))
}

fn load(through: u32) -> Act {
    Act::LoadCell { into: 1, through }
}

fn store(through: u32) -> Act {
    Act::StoreCell { through, from: 1 }
}

fn create(alloc: Global, function: u32) -> Result<Act, AllocError> {
    library(alloc, LibraryCall::Create { function }, &[1, 1])
}

// Each function has two registers: the first points to x, the second to y.
fn function(alloc: Global, name: &[u8], acts: [Act; 4]) -> Result<Function, AllocError>
    ensures { IfOk result (λ f. f.registers ≡ 2) }
{
    let acts = Vec::from_array(alloc, acts)?;
    let instrs = instrs(alloc, acts)?;
    Ok(Function {
        name: List::from_slice(alloc, name)?,
        line: 1,
        formals: 0,
        registers: 2,
        pointers: List::from_slice(alloc, &[true, true])?,
        gives_pointer: false,
        instrs,
        loops: List::new(alloc),
        regions: List::new(alloc),
    })
}

fn registers(alloc: Global) -> Result<List<List<Place>>, AllocError>
    ensures { IfOk result (λ rows. length rows ≡ 2) }
{
    let x = List::from_slice(alloc, &[X])?;
    let y = List::from_slice(alloc, &[Y])?;
    Ok(List::from_vec(Vec::from_array(alloc, [x, y])?))
}

fn points(alloc: Global) -> Result<PointsTo, AllocError>
    ensures long { IfOk result (λ t. length t.registers ≡ 4) }
    ensures each { IfOk result (λ t. (f : ℕ) → f < 4 → length (slice_index_or t.registers f []) ≡ 2) }
{
    let rows = [
        registers(alloc)?,
        registers(alloc)?,
        registers(alloc)?,
        registers(alloc)?,
    ];
    Ok(PointsTo::new(four(alloc, rows)?, List::new(alloc)))
}

// It starts `inc` and `dec`.
fn main_of(alloc: Global) -> Result<Function, AllocError>
    ensures { IfOk result (λ f. f.registers ≡ 2) }
{
    let inc = create(alloc, INC)?;
    let dec = create(alloc, DEC)?;
    function(alloc, b"main", [inc, dec, load(0), store(0)])
}

fn work(alloc: Global, name: &[u8]) -> Result<Function, AllocError>
    ensures { IfOk result (λ f. f.registers ≡ 2) }
{
    function(alloc, name, [load(0), store(0), store(1), load(1)])
}

fn code(alloc: Global) -> Result<Code, AllocError>
    ensures long { IfOk result (λ code. length code.functions ≡ 4) }
    ensures each { IfOk result (λ code. (f : ℕ) (fn : Function) → slice_get code.functions f ≡ Some fn → fn.registers ≡ 2) }
{
    let inc = work(alloc, b"inc")?;
    let main = main_of(alloc)?;
    let dec = work(alloc, b"dec")?;
    let helper = work(alloc, b"helper")?;
    Ok(Code {
        functions: four(alloc, [inc, main, dec, helper])?,
        sites: List::new(alloc),
        globals: List::new(alloc),
        global_kinds: List::new(alloc),
        global_bases: List::new(alloc),
        locks: List::new(alloc),
    })
}

fn guarded_of(alloc: Global, seen: &Seen) -> Result<Guarded, AllocError> {
    let (function, instr, store, plus) = *seen;
    Ok(Guarded {
        function,
        instr,
        store,
        plus: List::from_slice(alloc, plus)?,
        minus: Minus::All,
    })
}

fn summary(alloc: Global, seen: &[Seen]) -> Result<Summary, AllocError> {
    let mut guarded = List::new(alloc);
    for access in seen {
        guarded.push(guarded_of(alloc, access)?)?;
    }
    let exit = RelLocks {
        plus: List::new(alloc),
        minus: Minus::All,
    };
    Ok(Summary { exit, guarded })
}

fn summaries_of(alloc: Global, row: Row) -> Result<List<Summary>, AllocError> {
    let mut summaries = List::new(alloc);
    for seen in &row.summaries {
        summaries.push(summary(alloc, *seen)?)?;
    }
    Ok(summaries)
}

fn pairs_of(alloc: Global, row: Row) -> Result<List<Pair>, AllocError> {
    let summaries = summaries_of(alloc, row)?;
    let code = code(alloc)?;
    let points = points(alloc)?;
    pairs(alloc, &code, &points, &summaries)
}

static ROWS: [Row; 5] = [
    // Two threads that begin with `inc` count up x, and `main` loads it.
    Row {
        summaries: [
            &[(INC, 0, false, NO_LOCKS), (INC, 1, true, NO_LOCKS)],
            &[(MAIN, 2, false, NO_LOCKS)],
            &[],
            &[],
        ],
        want: &[
            (X, (INC, 0), (INC, 1)),
            (X, (INC, 1), (INC, 1)),
            (X, (INC, 1), (MAIN, 2)),
        ],
    },
    // A common global lock.
    Row {
        summaries: [
            &[(INC, 0, false, GLOBAL), (INC, 1, true, GLOBAL)],
            &[(MAIN, 2, false, GLOBAL)],
            &[],
            &[],
        ],
        want: &[],
    },
    // A lock on one side, and two that differ.
    Row {
        summaries: [
            &[(INC, 1, true, GLOBAL)],
            &[(MAIN, 2, false, NO_LOCKS)],
            &[(DEC, 1, true, OTHER_GLOBAL)],
            &[],
        ],
        want: &[
            (X, (INC, 1), (MAIN, 2)),
            (X, (INC, 1), (DEC, 1)),
            (X, (MAIN, 2), (DEC, 1)),
        ],
    },
    // A lock that is known by a formal may be another at each call.
    Row {
        summaries: [
            &[(INC, 0, false, FORMAL), (INC, 1, true, FORMAL)],
            &[],
            &[],
            &[],
        ],
        want: &[(X, (INC, 0), (INC, 1)), (X, (INC, 1), (INC, 1))],
    },
    // No two threads begin with `main`.
    Row {
        summaries: [
            &[],
            &[(MAIN, 2, false, NO_LOCKS), (MAIN, 3, true, NO_LOCKS)],
            &[],
            &[],
        ],
        want: &[],
    },
];

// More of them, in a table of its own, since the proof of a function grows with the rows of each table that it names.
static MORE_ROWS: [Row; 8] = [
    // Of one lock, those who read under it may meet, and who writes under it is alone.
    Row {
        summaries: [
            &[(INC, 0, false, READ_GLOBAL), (INC, 1, true, GLOBAL)],
            &[(MAIN, 3, true, READ_GLOBAL)],
            &[],
            &[],
        ],
        want: &[(X, (INC, 0), (MAIN, 3))],
    },
    // A lock for writing on one side, and another one on the other.
    Row {
        summaries: [
            &[(INC, 0, false, READ_GLOBAL)],
            &[(MAIN, 3, true, OTHER_GLOBAL)],
            &[],
            &[],
        ],
        want: &[(X, (INC, 0), (MAIN, 3))],
    },
    // Two functions with which threads begin.
    Row {
        summaries: [
            &[(INC, 1, true, NO_LOCKS)],
            &[],
            &[(DEC, 1, true, NO_LOCKS)],
            &[],
        ],
        want: &[
            (X, (INC, 1), (INC, 1)),
            (X, (INC, 1), (DEC, 1)),
            (X, (DEC, 1), (DEC, 1)),
        ],
    },
    // Loads alone.
    Row {
        summaries: [
            &[(INC, 0, false, NO_LOCKS)],
            &[(MAIN, 2, false, NO_LOCKS)],
            &[(DEC, 0, false, NO_LOCKS)],
            &[],
        ],
        want: &[],
    },
    // Two places.
    Row {
        summaries: [
            &[(INC, 2, true, NO_LOCKS)],
            &[(MAIN, 3, true, NO_LOCKS)],
            &[(DEC, 3, false, NO_LOCKS)],
            &[],
        ],
        want: &[(Y, (INC, 2), (INC, 2)), (Y, (INC, 2), (DEC, 3))],
    },
    // No thread begins with `helper`.
    Row {
        summaries: [
            &[],
            &[(MAIN, 3, true, NO_LOCKS)],
            &[],
            &[(HELPER, 1, true, NO_LOCKS)],
        ],
        want: &[],
    },
    // Two roots call it, with and without a lock.
    Row {
        summaries: [
            &[(HELPER, 1, true, GLOBAL), (HELPER, 1, true, NO_LOCKS)],
            &[(HELPER, 1, true, GLOBAL)],
            &[(HELPER, 0, false, NO_LOCKS)],
            &[(HELPER, 0, false, NO_LOCKS), (HELPER, 1, true, NO_LOCKS)],
        ],
        want: &[(X, (HELPER, 0), (HELPER, 1)), (X, (HELPER, 1), (HELPER, 1))],
    },
    // The code has no such instruction, and no such function.
    Row {
        summaries: [
            &[(INC, 4, true, NO_LOCKS)],
            &[(9, 0, true, NO_LOCKS)],
            &[],
            &[],
        ],
        want: &[],
    },
];

fn access(at: (u32, u32)) -> AccessAt {
    AccessAt {
        function: at.0,
        instr: at.1,
    }
}

fn check_pairs(rt: &impl Abort, index: usize, row: &Row, found: &[Pair]) {
    assert_eq!(rt; found.len(), row.want.len(), "row {index}: {found:?}");
    for (pair, (place, first, second)) in found.iter().zip(row.want.iter()) {
        let want = Pair {
            place: *place,
            first: access(*first),
            second: access(*second),
        };
        assert_eq!(rt; *pair, want, "row {index}");
    }
}

fn check_rows(rt: &impl Abort, alloc: Global, rows: &[Row]) -> Result<(), Fail> {
    for (index, row) in rows.iter().enumerate() {
        let found = pairs_of(alloc, *row)?;
        check_pairs(rt, index, row, found.as_slice());
    }
    Ok(())
}

#[test]
fn pairs_of_rows(rt: HostRuntime) -> Result<(), Fail> {
    check_rows(&rt, rt.alloc(), &ROWS)
}

#[test]
fn pairs_of_more_rows(rt: HostRuntime) -> Result<(), Fail> {
    check_rows(&rt, rt.alloc(), &MORE_ROWS)
}

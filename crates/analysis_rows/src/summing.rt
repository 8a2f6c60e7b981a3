use crate::made::{
    READS_FIRST_CELL, READS_FORMAL, START, WRITES_FIRST_CELL, WRITES_FORMAL, add, library,
};
use facts::{AccessAt, Guarded, Held, LockPath, Minus, Pair, RelLocks, Summary};
use flow_code::{Act, Code, Function, Instr, Work, is_valid};
use lockset_summary::summaries;
use points_to::solve;
use race_pairs::pairs;
use rr_base::{CellKind, Layout, List, Place, PtrWord, Site};
use std::alloc::{AllocError, Global};
use std::process::Abort;
use std::test::Fail;
use word_semantics::LibraryCall;

// The addresses of the globals: a lock, and two numbers.
const LOCK: u64 = (1 << 54) + (1 << 16);

const NUMBER: u64 = (2 << 54) + (1 << 32) + (1 << 16);

const THREAD: u64 = (3 << 54) + (2 << 32) + (1 << 16);

const HELD: &[Held] = &[READS_FIRST_CELL, WRITES_FIRST_CELL];

const READ_HELD: &[Held] = &[READS_FIRST_CELL];

const GONE: &[LockPath] = &[LockPath::Cell(0)];

const HANDED: &[Held] = &[READS_FORMAL, WRITES_FORMAL];

/// What is expected of an access: where it is made, whether it stores, which locks are held there, and which may have
/// been given back; `None` is any lock.
#[derive(Clone, Copy, Debug)]
struct Want {
    function: u32,
    instr: u32,
    store: bool,
    plus: &'static [Held],
    minus: Option<&'static [LockPath]>,
}

#[derive(Clone, Copy, Debug)]
enum Program {
    /// Function 0 stores, 1 stores and then takes the mutex and gives it back, 2 takes it, calls 0 and gives it back, and
    /// `main` starts 1 and 2 and joins both.
    Threads,
    /// Function 0 takes the mutex of its formal, 1 gives one back that it doesn't know, 2 calls both with the mutex, and
    /// stores after each call.
    Formals,
    /// Function 0 takes a read-write lock for reading, loads and gives it back. `main` starts it, takes the lock for
    /// writing, stores and gives it back.
    ReaderAndWriter,
    /// The same, where `main` takes the lock for reading too.
    TwoReaders,
}

fn address_into(into: u32, word: u64) -> Act {
    Act::Compute {
        into,
        work: Work::Address(PtrWord::from_word(word)),
    }
}

// Register 1 gets an address.
fn address(word: u64) -> Act {
    address_into(1, word)
}

fn store() -> Act {
    Act::StoreCell {
        through: 1,
        from: 2,
    }
}

fn call(alloc: Global, function: u32, arguments: &[u32]) -> Result<Act, AllocError> {
    let arguments = List::from_slice(alloc, arguments)?;
    Ok(Act::Call {
        function,
        arguments,
        into: None,
    })
}

// Two instructions: the call, with the address of the lock.
fn of_lock(alloc: Global, instrs: &mut List<Instr>, call: LibraryCall) -> Result<(), AllocError> {
    add(instrs, address(LOCK))?;
    add(instrs, library(alloc, call, &[1])?)?;
    Ok(())
}

fn give_back(alloc: Global, instrs: &mut List<Instr>) -> Result<(), AllocError> {
    of_lock(alloc, instrs, LibraryCall::MutexUnlock)
}

fn take(alloc: Global, instrs: &mut List<Instr>) -> Result<(), AllocError> {
    of_lock(alloc, instrs, LibraryCall::MutexLock)
}

fn start_and_join(alloc: Global, instrs: &mut List<Instr>) -> Result<(), AllocError> {
    add(instrs, address(THREAD))?;
    add(
        instrs,
        library(alloc, LibraryCall::Create { function: 1 }, &[1, 1])?,
    )?;
    add(
        instrs,
        library(alloc, LibraryCall::Create { function: 2 }, &[1, 1])?,
    )?;
    add(
        instrs,
        Act::LoadCell {
            into: 2,
            through: 1,
        },
    )?;
    add(instrs, library(alloc, LibraryCall::Join, &[2, 1])?)?;
    add(instrs, library(alloc, LibraryCall::Join, &[2, 1])?)?;
    Ok(())
}

fn push_threads(
    alloc: Global,
    instrs: &mut List<Instr>,
    function: usize,
) -> Result<(), AllocError> {
    match function {
        0 => {
            add(instrs, address(NUMBER))?;
            add(instrs, store())
        }
        1 => {
            add(instrs, address(NUMBER))?;
            add(instrs, store())?;
            take(alloc, instrs)?;
            give_back(alloc, instrs)
        }
        2 => {
            take(alloc, instrs)?;
            add(instrs, call(alloc, 0, &[0])?)?;
            give_back(alloc, instrs)
        }
        _ => start_and_join(alloc, instrs),
    }
}

fn call_and_store(
    alloc: Global,
    instrs: &mut List<Instr>,
    function: u32,
) -> Result<(), AllocError> {
    add(instrs, address(LOCK))?;
    add(instrs, call(alloc, function, &[1])?)?;
    add(instrs, address(NUMBER))?;
    add(instrs, store())?;
    Ok(())
}

fn push_formals(
    alloc: Global,
    instrs: &mut List<Instr>,
    function: usize,
) -> Result<(), AllocError> {
    match function {
        0 => add(instrs, library(alloc, LibraryCall::MutexLock, &[0])?),
        1 => {
            add(
                instrs,
                Act::Compute {
                    into: 0,
                    work: Work::Copy(1),
                },
            )?;
            add(instrs, library(alloc, LibraryCall::MutexUnlock, &[0])?)
        }
        2 => {
            call_and_store(alloc, instrs, 0)?;
            call_and_store(alloc, instrs, 1)
        }
        _ => Ok(()),
    }
}

// Function 0 reads a number under a read-write lock, and `main`, which starts it, writes it where it has taken the lock by
// this call. Each address has a register of its own.
fn push_readers(
    alloc: Global,
    instrs: &mut List<Instr>,
    function: usize,
    call: LibraryCall,
) -> Result<(), AllocError> {
    match function {
        0 => {
            of_lock(alloc, instrs, LibraryCall::RwRdLock)?;
            add(instrs, address_into(3, NUMBER))?;
            add(
                instrs,
                Act::LoadCell {
                    into: 2,
                    through: 3,
                },
            )?;
            of_lock(alloc, instrs, LibraryCall::RwUnlock)
        }
        3 => {
            add(instrs, address_into(4, THREAD))?;
            let start = LibraryCall::Create { function: 0 };
            add(instrs, library(alloc, start, &[4, 4])?)?;
            of_lock(alloc, instrs, call)?;
            add(instrs, address_into(3, NUMBER))?;
            add(
                instrs,
                Act::StoreCell {
                    through: 3,
                    from: 2,
                },
            )?;
            of_lock(alloc, instrs, LibraryCall::RwUnlock)
        }
        _ => Ok(()),
    }
}

fn push_instrs(
    alloc: Global,
    instrs: &mut List<Instr>,
    program: Program,
    function: usize,
) -> Result<(), AllocError> {
    match program {
        Program::Threads => push_threads(alloc, instrs, function)?,
        Program::Formals => push_formals(alloc, instrs, function)?,
        Program::ReaderAndWriter => {
            push_readers(alloc, instrs, function, LibraryCall::RwWrLock)?
        }
        Program::TwoReaders => push_readers(alloc, instrs, function, LibraryCall::RwRdLock)?,
    }
    add(instrs, Act::Return { value: None })
}

// Register 2 is a number, and the others are pointers. Each function but `main` has one formal.
fn function(alloc: Global, program: Program, index: usize) -> Result<Function, AllocError> {
    let mut instrs = List::new(alloc);
    push_instrs(alloc, &mut instrs, program, index)?;
    let name: &[u8] = if index == 3 { b"main" } else { b"work" };
    Ok(Function {
        name: List::from_slice(alloc, name)?,
        line: 1,
        formals: if index == 3 { 0 } else { 1 },
        registers: 5,
        pointers: List::from_slice(alloc, &[true, true, false, true, true])?,
        gives_pointer: index != 3,
        instrs,
        loops: List::new(alloc),
        regions: List::new(alloc),
    })
}

fn functions(alloc: Global, program: Program) -> Result<List<Function>, AllocError> {
    let mut functions = List::new(alloc);
    for index in 0..4 {
        functions.push(function(alloc, program, index)?)?;
    }
    Ok(functions)
}

fn site(alloc: Global, kind: CellKind) -> Result<Site, AllocError> {
    let layout = Layout {
        size: 1,
        element: 1,
        kinds: List::from_slice(alloc, &[kind])?,
    };
    Ok(Site {
        name: List::new(alloc),
        layout,
        at: START,
    })
}

fn sites(alloc: Global, kinds: &[CellKind]) -> Result<List<Site>, AllocError> {
    let mut sites = List::new(alloc);
    for kind in kinds {
        sites.push(site(alloc, *kind)?)?;
    }
    Ok(sites)
}

fn lock_kind(program: Program) -> CellKind {
    match program {
        Program::Threads | Program::Formals => CellKind::Mutex,
        Program::ReaderAndWriter | Program::TwoReaders => CellKind::Rw,
    }
}

fn code_of(alloc: Global, program: Program) -> Result<Code, AllocError> {
    let kinds = [lock_kind(program), CellKind::Whole, CellKind::Whole];
    let functions = functions(alloc, program)?;
    let sites = sites(alloc, &kinds)?;
    Ok(Code {
        functions,
        sites,
        globals: List::from_slice(alloc, &[0, 0, 0])?,
        global_kinds: List::from_slice(alloc, &kinds)?,
        global_bases: List::from_slice(alloc, &[Some(0), Some(1), Some(2)])?,
        locks: List::new(alloc),
    })
}

fn summaries_of(alloc: Global, program: Program) -> Result<Option<List<Summary>>, AllocError> {
    let code = code_of(alloc, program)?;
    if !is_valid(&code) {
        return Ok(None);
    }
    let summaries = summaries(alloc, &code)?;
    Ok(Some(summaries))
}

fn locks_are(plus: &List<Held>, minus: &Minus, held: &[Held], gone: Option<&[LockPath]>) -> bool {
    let minus_is = match (minus, gone) {
        (Minus::All, None) => true,
        (Minus::Listed(paths), Some(gone)) => paths.as_slice() == gone,
        _ => false,
    };
    plus.as_slice() == held && minus_is
}

fn is_wanted(access: &Guarded, want: Want) -> bool {
    access.function == want.function
        && access.instr == want.instr
        && access.store == want.store
        && locks_are(&access.plus, &access.minus, want.plus, want.minus)
}

fn are_wanted(accesses: &[Guarded], wants: &[Want]) -> bool {
    if accesses.len() != wants.len() {
        return false;
    }
    for k in 0..wants.len() {
        if !is_wanted(&accesses[k], wants[k]) {
            return false;
        }
    }
    true
}

fn agrees(
    summaries: &Option<List<Summary>>,
    function: usize,
    held: &[Held],
    gone: Option<&[LockPath]>,
    wants: &[Want],
) -> bool {
    let Some(summaries) = summaries else {
        return false;
    };
    let Some(summary) = summaries.get(function) else {
        return false;
    };
    let RelLocks { plus, minus } = &summary.exit;
    locks_are(plus, minus, held, gone) && are_wanted(summary.guarded.as_slice(), wants)
}

// The second instruction of function 0, which stores without a lock.
const FREE: Want = Want {
    function: 0,
    instr: 1,
    store: true,
    plus: &[],
    minus: Some(&[]),
};

const UNDER: Want = Want { plus: HELD, ..FREE };

const ALONE: Want = Want {
    function: 1,
    ..FREE
};

const AFTER_TAKE: Want = Want {
    function: 2,
    instr: 3,
    plus: HELD,
    ..FREE
};

const AFTER_ANY: Want = Want {
    function: 2,
    instr: 7,
    minus: None,
    ..FREE
};

const START_FIRST: Want = Want {
    function: 3,
    ..FREE
};

const START_SECOND: Want = Want {
    instr: 2,
    ..START_FIRST
};

const LOAD_THREAD: Want = Want {
    instr: 3,
    store: false,
    ..START_FIRST
};

const JOIN_FIRST: Want = Want {
    instr: 4,
    ..START_FIRST
};

const JOIN_SECOND: Want = Want {
    instr: 5,
    ..START_FIRST
};

/// The locks at a function's exit, those that may have been given back by then, and its accesses.
type Found = (
    &'static [Held],
    Option<&'static [LockPath]>,
    &'static [Want],
);

// What is found of each function of the two programs.
static THREADS: [Found; 4] = [
    (&[], Some(&[]), &[FREE]),
    (&[], Some(GONE), &[ALONE]),
    (&[], Some(GONE), &[UNDER]),
    (
        &[],
        Some(&[]),
        &[
            START_FIRST,
            START_SECOND,
            LOAD_THREAD,
            JOIN_FIRST,
            JOIN_SECOND,
        ],
    ),
];

// The load under a lock that is held for reading.
const READ: Want = Want {
    function: 0,
    instr: 3,
    store: false,
    plus: READ_HELD,
    minus: Some(&[]),
};

const WRITTEN: Want = Want {
    function: 3,
    instr: 5,
    store: true,
    plus: HELD,
    minus: Some(&[]),
};

const WRITTEN_AS_READER: Want = Want {
    plus: READ_HELD,
    ..WRITTEN
};

static READER_AND_WRITER: [Found; 4] = [
    (&[], Some(GONE), &[READ]),
    (&[], Some(&[]), &[]),
    (&[], Some(&[]), &[]),
    (&[], Some(GONE), &[START_FIRST, WRITTEN]),
];

static TWO_READERS: [Found; 4] = [
    (&[], Some(GONE), &[READ]),
    (&[], Some(&[]), &[]),
    (&[], Some(&[]), &[]),
    (&[], Some(GONE), &[START_FIRST, WRITTEN_AS_READER]),
];

static FORMALS: [Found; 4] = [
    (HANDED, Some(&[]), &[]),
    (&[], None, &[]),
    (&[], None, &[AFTER_TAKE, AFTER_ANY]),
    (&[], Some(&[]), &[]),
];

fn check_program(
    rt: &impl Abort,
    alloc: Global,
    program: Program,
    rows: &[Found],
) -> Result<(), Fail> {
    for (function, (held, gone, wants)) in rows.iter().enumerate() {
        let found = summaries_of(alloc, program)?;
        assert!(rt;
            agrees(&found, function, held, *gone, wants),
            "{program:?} function {function}"
        );
    }
    Ok(())
}

#[test]
fn functions_with_threads_are_summarised(rt: HostRuntime) -> Result<(), Fail> {
    check_program(&rt, rt.alloc(), Program::Threads, &THREADS)
}

#[test]
fn functions_with_formals_are_summarised(rt: HostRuntime) -> Result<(), Fail> {
    check_program(&rt, rt.alloc(), Program::Formals, &FORMALS)
}

#[test]
fn functions_with_a_reader_and_a_writer_are_summarised(rt: HostRuntime) -> Result<(), Fail> {
    check_program(
        &rt,
        rt.alloc(),
        Program::ReaderAndWriter,
        &READER_AND_WRITER,
    )
}

#[test]
fn functions_with_two_readers_are_summarised(rt: HostRuntime) -> Result<(), Fail> {
    check_program(&rt, rt.alloc(), Program::TwoReaders, &TWO_READERS)
}

// The pairs of a program's accesses, if its code is valid.
fn pairs_of(alloc: Global, program: Program) -> Result<Option<List<Pair>>, AllocError> {
    let code = code_of(alloc, program)?;
    if !is_valid(&code) {
        return Ok(None);
    }
    let points = solve(alloc, &code)?;
    let summaries = summaries(alloc, &code)?;
    let pairs = pairs(alloc, &code, &points, &summaries)?;
    Ok(Some(pairs))
}

fn check_pairs(
    rt: &impl Abort,
    alloc: Global,
    program: Program,
    want: &[Pair],
) -> Result<(), Fail> {
    let Some(found) = pairs_of(alloc, program)? else {
        panic!(rt; "{program:?} is not valid");
    };
    assert_eq!(rt; found.as_slice(), want, "{program:?}");
    Ok(())
}

#[test]
fn a_writer_shuts_a_reader_out(rt: HostRuntime) -> Result<(), Fail> {
    check_pairs(&rt, rt.alloc(), Program::ReaderAndWriter, &[])
}

#[test]
fn two_readers_may_race(rt: HostRuntime) -> Result<(), Fail> {
    let want = Pair {
        place: Place { site: 2, class: 0 },
        first: AccessAt {
            function: 0,
            instr: 3,
        },
        second: AccessAt {
            function: 3,
            instr: 5,
        },
    };
    check_pairs(&rt, rt.alloc(), Program::TwoReaders, &[want])
}

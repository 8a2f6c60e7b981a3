ghost use Rattle.std.specs.Prelude.{◌≡◌, true, IfOk};
ghost use Rattle.lockset_flow.specs.Flow.{all_sized};

use crate::made::{READS_FORMAL, WRITES_FORMAL, add, library};
use facts::{Held, LockPath, Minus, RelLocks, argument_names};
use flow_code::{Act, Code, Function, Instr, is_valid};
use lockset_flow::{FlowFacts, flow_function};
use rr_base::{Bytes, List};
use std::alloc::{AllocError, Global};
use std::test::Fail;
use sync_objects::Mode;
use word_semantics::LibraryCall;

// The lock to which the first formal points.
const FIRST: LockPath = LockPath::Formal {
    index: 0,
    offset: 0,
};

// The one two cells after it.
const READS_THIRD: Held = Held {
    path: LockPath::Formal {
        index: 0,
        offset: 2,
    },
    mode: Mode::Read,
};

const WRITES_THIRD: Held = Held {
    path: LockPath::Formal {
        index: 0,
        offset: 2,
    },
    mode: Mode::Write,
};

// A lock that may be written under may be read under too.
const TAKEN: &[Held] = &[READS_FORMAL, WRITES_FORMAL];

/// What the function under test does.
#[derive(Clone, Copy, Debug)]
enum Body {
    /// It locks its mutex, stores, and unlocks it.
    Guards,
    /// It locks its mutex, and gives one back that it doesn't know.
    GivesUnknown,
    /// It locks its mutex, and unlocks it in a loop.
    Loops,
    /// It locks its mutex, and waits with it.
    Waits,
    /// It tries to lock its mutex.
    Tries,
    /// It locks its read-write lock for reading, loads, and unlocks it.
    Reads,
    /// It locks its read-write lock for writing, stores, and unlocks it.
    Writes,
    /// It locks its read-write lock for writing, and gives one back that it doesn't know.
    GivesUnknownBack,
    /// It calls a function that takes a lock.
    Calls,
}

// The instructions after the first one, which takes the mutex or tries to.
fn push_rest(alloc: Global, instrs: &mut List<Instr>, body: Body) -> Result<(), AllocError> {
    match body {
        Body::Guards => {
            add(
                instrs,
                Act::StoreCell {
                    through: 0,
                    from: 3,
                },
            )?;
            add(instrs, library(alloc, LibraryCall::MutexUnlock, &[0])?)
        }
        Body::GivesUnknown => push_unknown(alloc, instrs, LibraryCall::MutexUnlock),
        Body::GivesUnknownBack => push_unknown(alloc, instrs, LibraryCall::RwUnlock),
        Body::Reads => {
            add(
                instrs,
                Act::LoadCell {
                    into: 3,
                    through: 1,
                },
            )?;
            add(instrs, library(alloc, LibraryCall::RwUnlock, &[0])?)
        }
        Body::Writes => {
            add(
                instrs,
                Act::StoreCell {
                    through: 1,
                    from: 3,
                },
            )?;
            add(instrs, library(alloc, LibraryCall::RwUnlock, &[0])?)
        }
        Body::Loops => push_loop(alloc, instrs),
        Body::Waits => add(instrs, library(alloc, LibraryCall::CondWait, &[1, 0])?),
        Body::Tries | Body::Calls => Ok(()),
    }
}

// A lock that no name leads to is given back.
fn push_unknown(
    alloc: Global,
    instrs: &mut List<Instr>,
    call: LibraryCall,
) -> Result<(), AllocError> {
    add(
        instrs,
        Act::LoadCell {
            into: 2,
            through: 0,
        },
    )?;
    add(instrs, library(alloc, call, &[2])?)
}

fn push_loop(alloc: Global, instrs: &mut List<Instr>) -> Result<(), AllocError> {
    add(instrs, Act::Mark)?;
    add(
        instrs,
        Act::Branch {
            on: 3,
            then_at: 3,
            else_at: 5,
        },
    )?;
    add(instrs, library(alloc, LibraryCall::MutexUnlock, &[0])?)?;
    add(instrs, Act::Jump { to: 1 })
}

fn first(alloc: Global, body: Body) -> Result<Act, AllocError> {
    match body {
        Body::Tries => library(alloc, LibraryCall::MutexTryLock, &[0]),
        Body::Reads => library(alloc, LibraryCall::RwRdLock, &[0]),
        Body::Writes | Body::GivesUnknownBack => library(alloc, LibraryCall::RwWrLock, &[0]),
        Body::Calls => Ok(Act::Call {
            function: 0,
            arguments: List::from_slice(alloc, &[0, 1])?,
            into: None,
        }),
        _ => library(alloc, LibraryCall::MutexLock, &[0]),
    }
}

fn function(
    alloc: Global,
    name: &[u8],
    formals: u32,
    instrs: List<Instr>,
) -> Result<Function, AllocError> {
    let name: Bytes = List::from_slice(alloc, name)?;
    let pointers = List::from_slice(alloc, &[true, true, true, false])?;
    Ok(Function {
        name,
        line: 1,
        formals,
        registers: 4,
        pointers,
        gives_pointer: false,
        instrs,
        loops: List::new(alloc),
        regions: List::new(alloc),
    })
}

fn push_instrs(alloc: Global, instrs: &mut List<Instr>, body: Body) -> Result<(), AllocError> {
    add(instrs, first(alloc, body)?)?;
    push_rest(alloc, instrs, body)?;
    add(instrs, Act::Return { value: None })
}

// A function with two formals and this body.
fn work(alloc: Global, body: Body) -> Result<Function, AllocError> {
    let mut instrs = List::new(alloc);
    push_instrs(alloc, &mut instrs, body)?;
    function(alloc, b"work", 2, instrs)
}

fn empty_main(alloc: Global) -> Result<Function, AllocError> {
    let mut instrs = List::new(alloc);
    add(&mut instrs, Act::Return { value: None })?;
    function(alloc, b"main", 0, instrs)
}

// That function, and an empty `main`.
fn code_of(alloc: Global, body: Body) -> Result<Code, AllocError> {
    let mut functions = List::new(alloc);
    functions.push(work(alloc, body)?)?;
    functions.push(empty_main(alloc)?)?;
    Ok(Code {
        functions,
        sites: List::new(alloc),
        globals: List::new(alloc),
        global_kinds: List::new(alloc),
        global_bases: List::new(alloc),
        locks: List::new(alloc),
    })
}

// The exit of a function that takes the lock two cells behind its formal, and may have given any back.
fn exits(alloc: Global) -> Result<Vec<RelLocks>, AllocError>
    ensures { IfOk result (λ v. all_sized v.items ≡ true) }
{
    let plus = List::from_slice(alloc, &[READS_THIRD, WRITES_THIRD])?;
    let mut exits = Vec::new(alloc);
    exits.push(RelLocks {
        plus,
        minus: Minus::All,
    })?;
    Ok(exits)
}

// The locks at all points of the first function, if the code is valid.
fn facts_of(alloc: Global, code: &Code, exits: &[RelLocks]) -> Result<Option<FlowFacts>, AllocError>
    requires { all_sized exits.now ≡ true }
{
    if !is_valid(code) {
        return Ok(None);
    }
    let Some(function) = code.functions.get(0) else {
        return Ok(None);
    };
    let names = argument_names(alloc, function)?;
    let top = [READS_FORMAL, WRITES_FORMAL, READS_THIRD, WRITES_THIRD];
    let facts = flow_function(alloc, function, names.as_slice(), exits, &top)?;
    Ok(Some(facts))
}

// Whether these locks are held, and no others may have been given back; `None` is any lock.
fn are(locks: &RelLocks, held: &[Held], gone: Option<&[LockPath]>) -> bool {
    let plus_is = locks.plus.as_slice() == held;
    let minus_is = match (&locks.minus, gone) {
        (Minus::All, None) => true,
        (Minus::Listed(paths), Some(gone)) => paths.as_slice() == gone,
        _ => false,
    };
    plus_is && minus_is
}

// Whether the locks before this instruction of the function are these.
fn flow_to(
    alloc: Global,
    body: Body,
    exits: &[RelLocks],
    at: usize,
    held: &[Held],
    gone: Option<&[LockPath]>,
) -> Result<bool, AllocError>
    requires { all_sized exits.now ≡ true }
{
    let code = code_of(alloc, body)?;
    let facts = facts_of(alloc, &code, exits)?;
    let Some(facts) = &facts else {
        return Ok(false);
    };
    let Some(locks) = facts.before().get(at) else {
        return Ok(false);
    };
    Ok(are(locks, held, gone))
}

#[test]
fn locks_flow(rt: HostRuntime) -> Result<(), Fail> {
    let alloc = rt.alloc();
    let exits = exits(alloc)?;
    let rows: [(Body, usize, &[Held], Option<&[LockPath]>); 13] = [
        (Body::Guards, 0, &[], Some(&[])),
        (Body::Guards, 1, TAKEN, Some(&[])),
        (Body::Guards, 3, &[], Some(&[FIRST])),
        (Body::GivesUnknown, 3, &[], None),
        (Body::Loops, 1, &[], Some(&[FIRST])),
        (Body::Waits, 2, TAKEN, Some(&[FIRST])),
        (Body::Tries, 1, &[], Some(&[])),
        (Body::Reads, 1, &[READS_FORMAL], Some(&[])),
        (Body::Reads, 3, &[], Some(&[FIRST])),
        (Body::Writes, 1, TAKEN, Some(&[])),
        (Body::Writes, 3, &[], Some(&[FIRST])),
        (Body::GivesUnknownBack, 3, &[], None),
        (Body::Calls, 1, &[READS_THIRD, WRITES_THIRD], None),
    ];
    for &(body, at, held, gone) in &rows {
        let found = flow_to(alloc, body, &exits, at, held, gone)?;
        assert!(rt; found, "{body:?} before {at}");
    }
    Ok(())
}

ghost use Rattle.std.specs.Prelude.{◌≡◌, IfOk};

use super::*;
use facts::{AccessAt, Pair};
use flow_code::{Act, Code, Function, Instr, Work};
use profiles::{FunctionPairs, Profile};
use rr_base::{Bytes, List, Place, Position};
use std::alloc::{AllocError, Global};
use std::test::Fail;
use weak_lock_facts::{Grain, Grained, Range};
use word_semantics::LibraryCall;

const START: Position = Position { line: 1, column: 1 };

const H: u32 = 0;

const F: u32 = 1;

const MAIN: u32 = 3;

/// What an instruction does, as far as grains ask for it.
#[derive(Clone, Copy)]
enum Step {
    Load,
    Store,
    Compute,
    Mark,
    Jump(u32),
    Branch(u32, u32),
    Library,
    Join,
    Return,
}

#[derive(Clone, Copy)]
enum Seen {
    /// Any two functions.
    All,
    /// No two functions.
    Nothing,
    /// f with g, f with h, f with `main`, g with `main`, h with `main`.
    Some,
}

/// The instructions of h, f, g and `main`; the pairs, each with two functions and instructions; the ranges, each with its
/// function, its instruction and its loop; and the rows.
#[derive(Clone, Copy)]
struct Row {
    functions: [&'static [Step]; 4],
    pairs: &'static [((u32, u32), (u32, u32))],
    ranges: &'static [(u32, u32, u32)],
    seen: Seen,
    want: &'static [(u32, u32, Grain)],
}

fn library(alloc: Global, call: LibraryCall) -> Result<Act, AllocError> {
    Ok(Act::Library {
        call,
        arguments: List::from_slice(alloc, &[0, 0])?,
        into: None,
    })
}

fn act(alloc: Global, step: Step) -> Result<Act, AllocError> {
    match step {
        Step::Load => Ok(Act::LoadCell {
            into: 1,
            through: 0,
        }),
        Step::Store => Ok(Act::StoreCell {
            through: 0,
            from: 1,
        }),
        Step::Compute => Ok(Act::Compute {
            into: 1,
            work: Work::Constant(1),
        }),
        Step::Mark => Ok(Act::Mark),
        Step::Jump(to) => Ok(Act::Jump { to }),
        Step::Branch(then_at, else_at) => Ok(Act::Branch {
            on: 1,
            then_at,
            else_at,
        }),
        Step::Library => library(alloc, LibraryCall::MutexLock),
        Step::Join => library(alloc, LibraryCall::Join),
        Step::Return => Ok(Act::Return { value: None }),
    }
}

fn function(alloc: Global, name: &[u8], steps: &[Step]) -> Result<Function, AllocError> {
    let mut instrs = List::new(alloc);
    for step in steps {
        instrs.push(Instr {
            at: START,
            act: act(alloc, *step)?,
        })?;
    }
    Ok(Function {
        name: List::from_slice(alloc, name)?,
        line: 1,
        formals: 0,
        registers: 2,
        pointers: List::from_slice(alloc, &[true, false])?,
        gives_pointer: false,
        instrs,
        loops: List::new(alloc),
        regions: List::new(alloc),
    })
}

fn code(alloc: Global, steps: [&[Step]; 4]) -> Result<Code, AllocError> {
    let mut functions = List::new(alloc);
    functions.push(function(alloc, b"h", steps[0])?)?;
    functions.push(function(alloc, b"f", steps[1])?)?;
    functions.push(function(alloc, b"g", steps[2])?)?;
    functions.push(function(alloc, b"main", steps[3])?)?;
    Ok(Code {
        functions,
        sites: List::new(alloc),
        globals: List::new(alloc),
        global_kinds: List::new(alloc),
        global_bases: List::new(alloc),
        locks: List::new(alloc),
    })
}

fn names(alloc: Global, lesser: &[u8], greater: &[u8]) -> Result<(Bytes, Bytes), AllocError>
    ensures { IfOk result (λ p. p ≡ (lesser.now, greater.now)) }
{
    Ok((
        List::from_slice(alloc, lesser)?,
        List::from_slice(alloc, greater)?,
    ))
}

fn some_pairs(alloc: Global) -> Result<FunctionPairs, AllocError> {
    let f_g = names(alloc, b"f", b"g")?;
    let f_h = names(alloc, b"f", b"h")?;
    let f_main = names(alloc, b"f", b"main")?;
    let g_main = names(alloc, b"g", b"main")?;
    let h_main = names(alloc, b"h", b"main")?;
    let pairs = Vec::from_array(alloc, [f_g, f_h, f_main, g_main, h_main])?;
    Ok(FunctionPairs::new(List::from_vec(pairs)))
}

fn profile(alloc: Global, seen: Seen) -> Result<Profile, AllocError> {
    match seen {
        Seen::All => Ok(Profile::All),
        Seen::Nothing => Ok(Profile::Pairs(FunctionPairs::new(List::new(alloc)))),
        Seen::Some => Ok(Profile::Pairs(some_pairs(alloc)?)),
    }
}

fn at(place: (u32, u32)) -> AccessAt {
    AccessAt {
        function: place.0,
        instr: place.1,
    }
}

fn pairs_of(
    alloc: Global,
    accesses: &[((u32, u32), (u32, u32))],
) -> Result<List<Pair>, AllocError> {
    let mut pairs = List::new(alloc);
    for (first, second) in accesses {
        pairs.push(Pair {
            place: Place { site: 1, class: 0 },
            first: at(*first),
            second: at(*second),
        })?;
    }
    Ok(pairs)
}

fn ranges_of(alloc: Global, accesses: &[(u32, u32, u32)]) -> Result<List<Range>, AllocError> {
    let mut ranges = List::new(alloc);
    for (function, instr, loop_at) in accesses {
        ranges.push(Range {
            function: *function,
            instr: *instr,
            loop_at: *loop_at,
            shift: 0,
        })?;
    }
    Ok(ranges)
}

fn grains_of(alloc: Global, row: Row) -> Result<List<Grained>, AllocError> {
    let code = code(alloc, row.functions)?;
    let pairs = pairs_of(alloc, row.pairs)?;
    let ranges = ranges_of(alloc, row.ranges)?;
    let profile = profile(alloc, row.seen)?;
    Ok(choose(alloc, &code, &pairs, &ranges, &profile)?.rows)
}

const CALLED: &[Step] = &[Step::Store, Step::Return];

const LOCKING: &[Step] = &[Step::Store, Step::Library, Step::Library, Step::Return];

const COUNTING: &[Step] = &[Step::Load, Step::Compute, Step::Store, Step::Return];

const PRINTING: &[Step] = &[Step::Library, Step::Load, Step::Library, Step::Return];

// A loop from its Mark at 1 on, with two stores in its body's one block.
const LOOPING: &[Step] = &[
    Step::Compute,
    Step::Mark,
    Step::Branch(3, 6),
    Step::Store,
    Step::Store,
    Step::Jump(1),
    Step::Return,
];

const ROWS: [Row; 11] = [
    // h, which g calls with a lock, and f store to a global; the profile has no two functions.
    Row {
        functions: [CALLED, LOCKING, PRINTING, PRINTING],
        pairs: &[((H, 0), (F, 0)), ((F, 0), (F, 0))],
        ranges: &[],
        seen: Seen::Nothing,
        want: &[(H, 0, Grain::Function), (F, 0, Grain::Function)],
    },
    // The profile has f and h, so each of the two accesses has a pair that it has.
    Row {
        functions: [CALLED, LOCKING, PRINTING, PRINTING],
        pairs: &[((H, 0), (F, 0)), ((F, 0), (F, 0))],
        ranges: &[],
        seen: Seen::Some,
        want: &[(H, 0, Grain::Instruction), (F, 0, Grain::Instruction)],
    },
    // The load and the store of `x = x + 1` stand in one block.
    Row {
        functions: [CALLED, COUNTING, PRINTING, PRINTING],
        pairs: &[((F, 0), (F, 2)), ((F, 2), (F, 2)), ((F, 2), (MAIN, 1))],
        ranges: &[],
        seen: Seen::All,
        want: &[
            (F, 0, Grain::Block(0)),
            (F, 2, Grain::Block(0)),
            (MAIN, 1, Grain::Instruction),
        ],
    },
    // Both ranges are known; the pairs stand in no order, and one access has two ranges.
    Row {
        functions: [CALLED, LOOPING, PRINTING, PRINTING],
        pairs: &[((F, 4), (F, 4)), ((F, 3), (F, 4)), ((F, 3), (F, 3))],
        ranges: &[(F, 3, 1), (F, 4, 1), (F, 4, 0)],
        seen: Seen::All,
        want: &[(F, 3, Grain::Loop(1)), (F, 4, Grain::Loop(1))],
    },
    // One range alone is known, so its block has one access beside it.
    Row {
        functions: [CALLED, LOOPING, PRINTING, PRINTING],
        pairs: &[((F, 3), (F, 3)), ((F, 4), (F, 4))],
        ranges: &[(F, 4, 1), (MAIN, 3, 0)],
        seen: Seen::All,
        want: &[(F, 3, Grain::Instruction), (F, 4, Grain::Loop(1))],
    },
    // A join has no block grain, and doesn't count for it.
    Row {
        functions: [
            CALLED,
            &[Step::Load, Step::Join, Step::Store, Step::Return],
            PRINTING,
            PRINTING,
        ],
        pairs: &[((F, 0), (F, 1)), ((F, 1), (F, 2))],
        ranges: &[],
        seen: Seen::All,
        want: &[
            (F, 0, Grain::Instruction),
            (F, 1, Grain::Instruction),
            (F, 2, Grain::Instruction),
        ],
    },
    // One access of a block has its function's grain: the profile has f and h, but f with itself it hasn't.
    Row {
        functions: [CALLED, COUNTING, PRINTING, PRINTING],
        pairs: &[((H, 0), (F, 2)), ((F, 0), (F, 0))],
        ranges: &[(F, 0, 7)],
        seen: Seen::Some,
        want: &[
            (H, 0, Grain::Instruction),
            (F, 0, Grain::Function),
            (F, 2, Grain::Instruction),
        ],
    },
    // A block begins where a jump goes.
    Row {
        functions: [
            CALLED,
            &[
                Step::Branch(1, 2),
                Step::Store,
                Step::Store,
                Step::Store,
                Step::Return,
            ],
            PRINTING,
            PRINTING,
        ],
        pairs: &[((F, 1), (F, 2)), ((F, 1), (F, 3))],
        ranges: &[],
        seen: Seen::All,
        want: &[
            (F, 1, Grain::Instruction),
            (F, 2, Grain::Block(2)),
            (F, 3, Grain::Block(2)),
        ],
    },
    // Two blocks of a function, the second with three accesses; what isn't racy doesn't count.
    Row {
        functions: [
            CALLED,
            &[
                Step::Load,
                Step::Store,
                Step::Load,
                Step::Library,
                Step::Compute,
                Step::Load,
                Step::Store,
                Step::Store,
                Step::Return,
            ],
            PRINTING,
            PRINTING,
        ],
        pairs: &[
            ((F, 1), (F, 5)),
            ((F, 2), (F, 6)),
            ((F, 7), (MAIN, 1)),
            ((F, 1), (MAIN, 1)),
        ],
        ranges: &[],
        seen: Seen::All,
        want: &[
            (F, 1, Grain::Block(1)),
            (F, 2, Grain::Block(1)),
            (F, 5, Grain::Block(5)),
            (F, 6, Grain::Block(5)),
            (F, 7, Grain::Block(5)),
            (MAIN, 1, Grain::Instruction),
        ],
    },
    // The code has no such function, and no such instruction.
    Row {
        functions: [CALLED, COUNTING, PRINTING, PRINTING],
        pairs: &[((9, 0), (9, 1)), ((F, 8), (F, 9))],
        ranges: &[],
        seen: Seen::All,
        want: &[
            (F, 8, Grain::Instruction),
            (F, 9, Grain::Instruction),
            (9, 0, Grain::Instruction),
            (9, 1, Grain::Instruction),
        ],
    },
    // Nothing races.
    Row {
        functions: [CALLED, COUNTING, PRINTING, PRINTING],
        pairs: &[],
        ranges: &[(F, 0, 1)],
        seen: Seen::Nothing,
        want: &[],
    },
];

#[test]
fn grains_of_rows(rt: HostRuntime) -> Result<(), Fail> {
    for (index, row) in ROWS.iter().enumerate() {
        let found = grains_of(rt.alloc(), *row)?;
        assert_eq!(rt; found.len(), row.want.len(), "row {index}: {found:?}");
        for (grained, (function, instr, grain)) in found.as_slice().iter().zip(row.want.iter()) {
            let want = Grained {
                access: AccessAt {
                    function: *function,
                    instr: *instr,
                },
                grain: *grain,
            };
            assert_eq!(rt; *grained, want, "row {index}");
        }
    }
    Ok(())
}

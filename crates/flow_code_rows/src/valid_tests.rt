use flow_code::{Act, Base, Bound, Code, Function, Instr, LockInfo, Region, Span, Work, is_valid};
use rr_base::{Bytes, CellKind, Layout, List, Position, PtrWord, Site};
use std::alloc::{AllocError, Global};
use std::process::Abort;
use std::test::Fail;
use word_semantics::{BinaryOp, LibraryCall, Piece};

// What of the code below differs from row to row.
#[derive(Clone, Copy, Debug)]
struct Shape {
    size: u32,
    element: u32,
    kind: CellKind,
    word: u64,
    bases: [Option<u32>; 2],
    stripes: u8,
    locks: [u16; 2],
    counter: u32,
    base: Base,
    two_mains: bool,
    formals: u32,
    registers: u32,
    jump: u32,
}

const START: Position = Position { line: 1, column: 1 };

// The address of the one global, an object of two cells.
const GLOBAL: u64 = (1 << 54) + (2 << 16);

// A valid code.
const GOOD: Shape = Shape {
    size: 2,
    element: 2,
    kind: CellKind::Whole,
    word: GLOBAL,
    bases: [Some(0), None],
    stripes: 8,
    locks: [0, 1],
    counter: 1,
    base: Base::Site(1),
    two_mains: false,
    formals: 0,
    registers: 4,
    jump: 1,
};

fn lone<T: Drop>(alloc: Global, item: T) -> Result<List<T>, AllocError> {
    let mut list = List::new(alloc);
    list.push(item)?;
    Ok(list)
}

fn pair<T: Drop>(alloc: Global, first: T, second: T) -> Result<List<T>, AllocError> {
    let mut list = lone(alloc, first)?;
    list.push(second)?;
    Ok(list)
}

fn site(alloc: Global, kinds: &[CellKind], size: u32, element: u32) -> Result<Site, AllocError> {
    let layout = Layout {
        size,
        element,
        kinds: List::from_slice(alloc, kinds)?,
    };
    Ok(Site {
        name: List::new(alloc),
        layout,
        at: START,
    })
}

fn instr(act: Act) -> Instr {
    Instr { at: START, act }
}

// A first instruction, a Mark, a jump and a return.
fn body(alloc: Global, first: Act, jump: u32) -> Result<List<Instr>, AllocError> {
    let mut instrs = lone(alloc, instr(first))?;
    instrs.push(instr(Act::Mark))?;
    instrs.push(instr(Act::Jump { to: jump }))?;
    instrs.push(instr(Act::Return { value: None }))?;
    Ok(instrs)
}

fn function(
    alloc: Global,
    name: &[u8],
    formals: u32,
    registers: u32,
    instrs: List<Instr>,
    regions: List<Region>,
) -> Result<Function, AllocError> {
    Ok(Function {
        name: List::from_slice(alloc, name)?,
        line: 1,
        formals,
        registers,
        pointers: List::from_slice(alloc, &[true, false, true, false])?,
        gives_pointer: formals == 1,
        instrs,
        loops: List::new(alloc),
        regions,
    })
}

fn region(alloc: Global, shape: Shape) -> Result<Region, AllocError> {
    let span = Span {
        base: shape.base,
        shift: 0,
        locks: List::from_slice(alloc, &shape.locks)?,
    };
    Ok(Region::Ranged {
        counter: shape.counter,
        bound: Bound::Number(3),
        spans: lone(alloc, span)?,
    })
}

fn locks(alloc: Global, stripes: u8) -> Result<List<LockInfo>, AllocError> {
    let first = LockInfo {
        site: 1,
        class: 0,
        stripes,
    };
    let second = LockInfo {
        site: 1,
        class: 1,
        stripes: 1,
    };
    pair(alloc, first, second)
}

fn main_of(alloc: Global, shape: Shape, first: Act) -> Result<Function, AllocError> {
    let instrs = body(alloc, first, shape.jump)?;
    let regions = lone(alloc, region(alloc, shape)?)?;
    function(
        alloc,
        b"main",
        shape.formals,
        shape.registers,
        instrs,
        regions,
    )
}

fn other_of(alloc: Global, name: &[u8]) -> Result<Function, AllocError> {
    let address = Act::Compute {
        into: 0,
        work: Work::Address(PtrWord::from_word(GLOBAL)),
    };
    let instrs = body(alloc, address, 1)?;
    function(alloc, name, 1, 4, instrs, List::new(alloc))
}

// `main` begins with the given instruction; the other function has one formal, a pointer, and gives a pointer.
fn functions_of(alloc: Global, shape: Shape, first: Act) -> Result<List<Function>, AllocError> {
    let name = if shape.two_mains {
        b"main".as_slice()
    } else {
        b"work".as_slice()
    };
    let mut functions = lone(alloc, main_of(alloc, shape, first)?)?;
    functions.push(other_of(alloc, name)?)?;
    Ok(functions)
}

fn sites_of(alloc: Global, shape: Shape) -> Result<List<Site>, AllocError> {
    let kinds = [CellKind::Whole, CellKind::Pointer];
    let mut sites = lone(alloc, site(alloc, &kinds, shape.size, shape.element)?)?;
    sites.push(site(alloc, &[CellKind::Whole], 1, 1)?)?;
    Ok(sites)
}

fn code_of(alloc: Global, shape: Shape, first: Act) -> Result<Code, AllocError> {
    let functions = functions_of(alloc, shape, first)?;
    let sites = sites_of(alloc, shape)?;
    Ok(Code {
        functions,
        sites,
        globals: List::from_slice(alloc, &[7, shape.word])?,
        global_kinds: List::from_slice(alloc, &[shape.kind, CellKind::Pointer])?,
        global_bases: List::from_slice(alloc, &shape.bases)?,
        locks: locks(alloc, shape.stripes)?,
    })
}

// The shape of a code, and whether it is valid.
const CODES: [(Shape, bool); 13] = [
    (GOOD, true),
    (Shape { word: 0, ..GOOD }, true),
    (Shape { jump: 3, ..GOOD }, true),
    (
        Shape {
            base: Base::Register(2),
            ..GOOD
        },
        true,
    ),
    (Shape { size: 3, ..GOOD }, false),
    (Shape { element: 0, ..GOOD }, false),
    (Shape { element: 4, ..GOOD }, false),
    (
        Shape {
            kind: CellKind::Mutex,
            ..GOOD
        },
        false,
    ),
    (
        Shape {
            word: GLOBAL + 1,
            ..GOOD
        },
        false,
    ),
    (
        Shape {
            word: GLOBAL + (1 << 54),
            ..GOOD
        },
        false,
    ),
    (
        Shape {
            bases: [None, None],
            ..GOOD
        },
        false,
    ),
    (
        Shape {
            bases: [Some(0), Some(0)],
            ..GOOD
        },
        false,
    ),
    (
        Shape {
            bases: [Some(1), None],
            ..GOOD
        },
        false,
    ),
];

// More of them, in a table of its own, since the proof of a function grows with the rows of each table that it names.
const MORE_CODES: [(Shape, bool); 12] = [
    (Shape { stripes: 2, ..GOOD }, false),
    (
        Shape {
            locks: [1, 0],
            ..GOOD
        },
        false,
    ),
    (
        Shape {
            locks: [1, 2],
            ..GOOD
        },
        false,
    ),
    (Shape { counter: 2, ..GOOD }, false),
    (
        Shape {
            base: Base::Site(2),
            ..GOOD
        },
        false,
    ),
    (
        Shape {
            base: Base::Register(1),
            ..GOOD
        },
        false,
    ),
    (
        Shape {
            two_mains: true,
            ..GOOD
        },
        false,
    ),
    (Shape { formals: 1, ..GOOD }, false),
    (
        Shape {
            registers: 3,
            ..GOOD
        },
        false,
    ),
    (Shape { jump: 0, ..GOOD }, false),
    (Shape { jump: 2, ..GOOD }, false),
    (Shape { jump: 4, ..GOOD }, false),
];

fn is_valid_shape(alloc: Global, shape: Shape) -> Result<bool, AllocError> {
    let first = Act::Compute {
        into: 1,
        work: Work::Constant(0),
    };
    let code = code_of(alloc, shape, first)?;
    Ok(is_valid(&code))
}

fn check_codes(rt: &impl Abort, alloc: Global, rows: &[(Shape, bool)]) -> Result<(), Fail> {
    for (shape, want) in rows {
        let found = is_valid_shape(alloc, *shape)?;
        assert_eq!(rt; found, *want, "{shape:?}");
    }
    Ok(())
}

#[test]
fn codes_are_valid(rt: HostRuntime) -> Result<(), Fail> {
    let rows = CODES;
    check_codes(&rt, rt.alloc(), &rows)
}

#[test]
fn more_codes_are_valid(rt: HostRuntime) -> Result<(), Fail> {
    let rows = MORE_CODES;
    check_codes(&rt, rt.alloc(), &rows)
}

// Whether a code whose `main` begins with the given instruction is valid.
fn is_valid_with(alloc: Global, first: Act) -> Result<bool, AllocError> {
    let code = code_of(alloc, GOOD, first)?;
    Ok(is_valid(&code))
}

// The register that a work fills, the work, and whether it is valid there.
const WORKS: [(u32, Work, bool); 16] = [
    (1, Work::Constant(5), true),
    (0, Work::Constant(0), true),
    (0, Work::Constant(5), false),
    (4, Work::Constant(0), false),
    (1, Work::Copy(3), true),
    (1, Work::Copy(0), false),
    (1, Work::Minus(0), false),
    (1, Work::Not(0), true),
    (
        1,
        Work::Binary {
            op: BinaryOp::Less,
            left: 0,
            right: 2,
        },
        true,
    ),
    (
        1,
        Work::Binary {
            op: BinaryOp::Add,
            left: 0,
            right: 2,
        },
        false,
    ),
    (
        1,
        Work::Binary {
            op: BinaryOp::Equal,
            left: 0,
            right: 3,
        },
        false,
    ),
    (
        2,
        Work::Move {
            pointer: 0,
            by: 1,
            element: 1,
            back: true,
        },
        true,
    ),
    (
        2,
        Work::Move {
            pointer: 0,
            by: 1,
            element: 0,
            back: true,
        },
        false,
    ),
    (
        1,
        Work::Between {
            left: 0,
            right: 2,
            element: 0,
        },
        false,
    ),
    (0, Work::ToPointer(1), true),
    (1, Work::ToNumber(1), false),
];

#[test]
fn works_are_valid(rt: HostRuntime) -> Result<(), Fail> {
    for &(into, work, want) in &WORKS {
        let found = is_valid_with(rt.alloc(), Act::Compute { into, work })?;
        assert_eq!(rt; found, want, "{work:?} into {into}");
    }
    Ok(())
}

#[test]
fn addresses_are_valid(rt: HostRuntime) -> Result<(), Fail> {
    let rows = [
        (0, GLOBAL, true),
        (1, GLOBAL, false),
        (0, GLOBAL + (1 << 32), false),
    ];
    for &(into, word, want) in &rows {
        let work = Work::Address(PtrWord::from_word(word));
        let found = is_valid_with(rt.alloc(), Act::Compute { into, work })?;
        assert_eq!(rt; found, want, "{word} into {into}");
    }
    Ok(())
}

/// A call of the library.
#[derive(Clone, Copy, Debug)]
enum Called {
    Create(u32),
    Join,
    Lock,
    /// It prints a letter and a number.
    Print,
    GetChar,
    Free,
}

fn call_of(alloc: Global, called: Called) -> Result<LibraryCall, AllocError> {
    match called {
        Called::Create(function) => Ok(LibraryCall::Create { function }),
        Called::Join => Ok(LibraryCall::Join),
        Called::Lock => Ok(LibraryCall::MutexLock),
        Called::Print => {
            let format = List::from_slice(alloc, &[Piece::Byte(b'x'), Piece::Number])?;
            Ok(LibraryCall::Print { format })
        }
        Called::GetChar => Ok(LibraryCall::GetChar),
        Called::Free => Ok(LibraryCall::Free),
    }
}

fn is_valid_library(
    alloc: Global,
    called: Called,
    arguments: &[u32],
    into: Option<u32>,
) -> Result<bool, AllocError> {
    let arguments = List::from_slice(alloc, arguments)?;
    let act = Act::Library {
        call: call_of(alloc, called)?,
        arguments,
        into,
    };
    is_valid_with(alloc, act)
}

// A call with its arguments, where its result goes, and whether it is valid.
static LIBRARY: [(Called, &[u32], Option<u32>, bool); 11] = [
    (Called::Create(1), &[0, 2], Some(1), true),
    (Called::Create(0), &[0, 2], Some(1), false),
    (Called::Create(2), &[0, 2], Some(1), false),
    (Called::Join, &[1, 0], None, true),
    (Called::Join, &[0, 1], None, false),
    (Called::Lock, &[0], None, true),
    (Called::Lock, &[0, 2], None, false),
    (Called::Lock, &[], None, false),
    (Called::Print, &[1], Some(3), true),
    (Called::GetChar, &[], Some(0), false),
    (Called::Free, &[0], Some(1), false),
];

#[test]
fn library_calls_are_valid(rt: HostRuntime) -> Result<(), Fail> {
    for &(called, arguments, into, want) in &LIBRARY {
        let found = is_valid_library(rt.alloc(), called, arguments, into)?;
        assert_eq!(rt; found, want, "{called:?}");
    }
    Ok(())
}

fn is_valid_call(
    alloc: Global,
    function: u32,
    arguments: &[u32],
    into: Option<u32>,
) -> Result<bool, AllocError> {
    let arguments = List::from_slice(alloc, arguments)?;
    let act = Act::Call {
        function,
        arguments,
        into,
    };
    is_valid_with(alloc, act)
}

// The same of calls of functions.
static CALLS: [(u32, &[u32], Option<u32>, bool); 6] = [
    (1, &[0], Some(2), true),
    (1, &[0], Some(1), false),
    (1, &[1], None, false),
    (1, &[], None, false),
    (0, &[], None, false),
    (2, &[], None, false),
];

#[test]
fn calls_are_valid(rt: HostRuntime) -> Result<(), Fail> {
    for &(function, arguments, into, want) in &CALLS {
        let found = is_valid_call(rt.alloc(), function, arguments, into)?;
        assert_eq!(rt; found, want, "{function} {arguments:?}");
    }
    Ok(())
}

#[test]
fn allocations_are_valid(rt: HostRuntime) -> Result<(), Fail> {
    let rows = [
        (0, 2, None, true),
        (0, 3, None, false),
        (0, 2, Some(1), true),
        (0, 2, Some(2), false),
        (1, 2, None, false),
    ];
    for &(into, site, size, want) in &rows {
        let found = is_valid_with(rt.alloc(), Act::Alloc { into, site, size })?;
        assert_eq!(rt; found, want, "{size:?} of {site} into {into}");
    }
    Ok(())
}

#[test]
fn loads_and_stores_are_valid(rt: HostRuntime) -> Result<(), Fail> {
    let alloc = rt.alloc();
    for (through, want) in [(2, true), (1, false)] {
        let found = is_valid_with(alloc, Act::LoadCell { into: 0, through })?;
        assert_eq!(rt; found, want, "through {through}");
    }
    let store = Act::StoreCell {
        through: 1,
        from: 0,
    };
    assert!(rt; !is_valid_with(alloc, store)?);
    Ok(())
}

#[test]
fn branches_are_valid(rt: HostRuntime) -> Result<(), Fail> {
    let else_at = 3;
    for (on, then_at, want) in [(0, 1, true), (4, 1, false), (1, 0, false)] {
        let act = Act::Branch {
            on,
            then_at,
            else_at,
        };
        assert_eq!(rt;
            is_valid_with(rt.alloc(), act)?,
            want,
            "to {then_at} on {on}"
        );
    }
    Ok(())
}

#[test]
fn returns_are_valid(rt: HostRuntime) -> Result<(), Fail> {
    for (value, want) in [(1, true), (0, false)] {
        let found = is_valid_with(rt.alloc(), Act::Return { value: Some(value) })?;
        assert_eq!(rt; found, want, "{value}");
    }
    Ok(())
}

#[test]
fn takes_and_gives_are_valid(rt: HostRuntime) -> Result<(), Fail> {
    assert!(rt; is_valid_with(rt.alloc(), Act::Take(0))?);
    assert!(rt; !is_valid_with(rt.alloc(), Act::Give(1))?);
    Ok(())
}

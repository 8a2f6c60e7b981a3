ghost use Rattle.std.specs.Prelude.{◌≡◌, ◌<◌};
ghost use Rattle.facts.specs.PointsTo as spec;
ghost use Rattle.facts.specs.PointsTo.{IsPointsTo};

use crate::made::{START, add};
use facts::{Node, PointsTo};
use flow_code::{Act, Code, Function, Instr, Work, is_valid};
use points_to::solve;
use rr_base::{CellKind, Layout, List, Place, PtrWord, Site};
use std::alloc::{AllocError, Global};
use std::process::Abort;
use std::test::Fail;
use word_semantics::LibraryCall;

// An instruction; the numbers are registers.
#[derive(Clone, Copy, Debug)]
enum Step {
    Compute(u32, Work),
    // Into a register, through another.
    Load(u32, u32),
    // Through a register, from another.
    Store(u32, u32),
    // Of function 1, by where its thread is put and its argument, with a number in register 2.
    Create(u32, u32),
    // Of a thread, with where its result is put.
    Join(u32, u32),
    Exit(u32),
    GetChar(u32),
    Return(u32),
}

// Globals of one cell.
const WHOLE: (CellKind, u32, u32) = (CellKind::Whole, 1, 1);

const POINTER: (CellKind, u32, u32) = (CellKind::Pointer, 1, 1);

fn place(site: u16, class: u8) -> Place {
    Place { site, class }
}

fn register(function: u32, register: u32) -> Node {
    Node::Register { function, register }
}

fn cells(site: u16) -> Node {
    Node::Cells(place(site, 0))
}

// The address of a global object whose sizes fit a word.
fn address(site: u16, base: u16, cells: u16) -> Work
    requires { site < 1024 }
{
    let object = (u64::from(site) << 54) + (u64::from(base) << 32);
    Work::Address(PtrWord::from_word(object + (u64::from(cells) << 16)))
}

fn moved(pointer: u32, by: u32, element: u32) -> Work {
    Work::Move {
        pointer,
        by,
        element,
        back: false,
    }
}

fn called(
    alloc: Global,
    call: LibraryCall,
    arguments: &[u32],
    into: Option<u32>,
) -> Result<Act, AllocError> {
    Ok(Act::Library {
        call,
        arguments: List::from_slice(alloc, arguments)?,
        into,
    })
}

fn act_of(alloc: Global, step: Step) -> Result<Act, AllocError> {
    match step {
        Step::Compute(into, work) => Ok(Act::Compute { into, work }),
        Step::Load(into, through) => Ok(Act::LoadCell { into, through }),
        Step::Store(through, from) => Ok(Act::StoreCell { through, from }),
        Step::Create(thread, argument) => {
            let call = LibraryCall::Create { function: 1 };
            called(alloc, call, &[thread, argument], Some(2))
        }
        Step::Join(thread, into) => called(alloc, LibraryCall::Join, &[thread, into], Some(2)),
        Step::Exit(value) => called(alloc, LibraryCall::Exit, &[value], None),
        Step::GetChar(into) => called(alloc, LibraryCall::GetChar, &[], Some(into)),
        Step::Return(value) => Ok(Act::Return { value: Some(value) }),
    }
}

fn site_of(alloc: Global, kind: CellKind, size: u32, element: u32) -> Result<Site, AllocError> {
    let mut kinds = List::new(alloc);
    for _cell in 0..size {
        kinds.push(kind)?;
    }
    let layout = Layout {
        size,
        element,
        kinds,
    };
    Ok(Site {
        name: List::new(alloc),
        layout,
        at: START,
    })
}

/// A function: its name, which of its registers are pointers, and its steps.
#[derive(Clone, Copy)]
struct Body<'a> {
    name: &'a [u8],
    formals: u32,
    pointers: &'a [bool],
    steps: &'a [Step],
}

fn instrs_of(alloc: Global, steps: &[Step]) -> Result<List<Instr>, AllocError> {
    let mut instrs = List::new(alloc);
    for step in steps {
        add(&mut instrs, act_of(alloc, *step)?)?;
    }
    Ok(instrs)
}

fn function_of(alloc: Global, body: &Body<'_>) -> Result<Function, AllocError> {
    let instrs = instrs_of(alloc, body.steps)?;
    Ok(Function {
        name: List::from_slice(alloc, body.name)?,
        line: 1,
        formals: body.formals,
        registers: (body.pointers.len() % 64) as u32,
        pointers: List::from_slice(alloc, body.pointers)?,
        gives_pointer: body.formals == 1,
        instrs,
        loops: List::new(alloc),
        regions: List::new(alloc),
    })
}

fn sites_of(alloc: Global, rows: &[(CellKind, u32, u32)]) -> Result<List<Site>, AllocError> {
    let mut sites = List::new(alloc);
    for (kind, size, element) in rows {
        sites.push(site_of(alloc, *kind, *size, *element)?)?;
    }
    Ok(sites)
}

fn kinds_of(alloc: Global, rows: &[(CellKind, u32, u32)]) -> Result<List<CellKind>, AllocError> {
    let mut kinds = List::new(alloc);
    for (kind, size, _element) in rows {
        for _cell in 0..*size {
            kinds.push(*kind)?;
        }
    }
    Ok(kinds)
}

// The objects lie one after another.
fn bases_of(alloc: Global, rows: &[(CellKind, u32, u32)]) -> Result<List<Option<u32>>, AllocError> {
    let mut bases = List::new(alloc);
    let mut next: u32 = 0;
    for (_kind, size, _element) in rows {
        bases.push(Some(next))?;
        next = next.saturating_add(*size);
    }
    Ok(bases)
}

fn code_of(
    alloc: Global,
    functions: List<Function>,
    rows: &[(CellKind, u32, u32)],
    words: &[u64],
) -> Result<Code, AllocError> {
    let sites = sites_of(alloc, rows)?;
    let globals = List::from_slice(alloc, words)?;
    let global_kinds = kinds_of(alloc, rows)?;
    Ok(Code {
        functions,
        sites,
        globals,
        global_kinds,
        global_bases: bases_of(alloc, rows)?,
        locks: List::new(alloc),
    })
}

// How many classes a site has, by the cells of its elements.
fn classes_of(element: u32) -> u32
    ensures { result ≡ spec.classes_of element }
{
    if element > 64 { 1 } else { element }
}

// The places of a node that the code has.
fn places<'a>(code: &Code, answer: &'a PointsTo, node: Node) -> Option<&'a [Place]>
    requires { IsPointsTo code.now answer.now }
{
    match node {
        Node::Register { function, register } => {
            let body = code.functions.get(function as usize)?;
            if register >= body.registers {
                return None;
            }
            Some(answer.of_register(function, register).as_slice())
        }
        Node::Cells(place) => {
            if place.site == 0 {
                return None;
            }
            let site = code.sites.get(usize::from(place.site) - 1)?;
            if u32::from(place.class) >= classes_of(site.layout.element) {
                return None;
            }
            Some(answer.of_place(place).as_slice())
        }
        Node::Result(_) | Node::Ended => None,
    }
}

/// A node with the two places wanted at most.
type Wanted = (Node, Option<Place>, Option<Place>);

// The first node whose places aren't the wanted ones.
fn first_other(code: &Code, answer: &PointsTo, rows: &[Wanted]) -> Option<Node>
    requires { IsPointsTo code.now answer.now }
{
    for (node, first, second) in rows {
        let Some(got) = places(code, answer, *node) else {
            return Some(*node);
        };
        if got.get(0).copied() != *first || got.get(1).copied() != *second || got.len() > 2 {
            return Some(*node);
        }
    }
    None
}

// The same of a code; one that isn't valid has no nodes to ask.
fn first_wrong(alloc: Global, code: &Code, rows: &[Wanted]) -> Result<Option<Node>, AllocError> {
    if !is_valid(code) {
        return Ok(Some(Node::Ended));
    }
    let answer = solve(alloc, code)?;
    Ok(first_other(code, &answer, rows))
}

/// What a test's code has: its functions, the kinds, sizes and element sizes of its globals, and their words.
#[derive(Clone, Copy)]
struct Source<'a> {
    functions: &'a [Body<'a>],
    globals: &'a [(CellKind, u32, u32)],
    words: &'a [u64],
}

fn functions_of(alloc: Global, bodies: &[Body<'_>]) -> Result<List<Function>, AllocError> {
    let mut functions = List::new(alloc);
    for body in bodies {
        functions.push(function_of(alloc, body)?)?;
    }
    Ok(functions)
}

fn check(rt: &impl Abort, alloc: Global, source: &Source<'_>, rows: &[Wanted]) -> Result<(), Fail> {
    let functions = functions_of(alloc, source.functions)?;
    let code = code_of(alloc, functions, source.globals, source.words)?;
    let wrong = first_wrong(alloc, &code, rows)?;
    assert_eq!(rt; wrong, None);
    Ok(())
}

fn main_of<'a>(pointers: &'a [bool], steps: &'a [Step]) -> Body<'a> {
    Body {
        name: b"main",
        formals: 0,
        pointers,
        steps,
    }
}

// int a; int b; int *p = &a; int main(void) { int *q = p; p = &b; *q = 1; return 1; }
#[test]
fn stores_are_loaded(rt: HostRuntime) -> Result<(), Fail> {
    let steps = [
        Step::Compute(0, address(3, 2, 1)),
        Step::Load(1, 0),
        Step::Compute(2, address(2, 1, 1)),
        Step::Store(0, 2),
        Step::Compute(3, Work::Constant(1)),
        Step::Store(1, 3),
        Step::Return(3),
    ];
    let pointers = [true, true, true, false];
    let main = main_of(&pointers, &steps);
    let words = [0, 0, (1 << 54) + (1 << 16)];
    let source = Source {
        functions: &[main],
        globals: &[WHOLE, WHOLE, POINTER],
        words: &words,
    };
    let first = Some(place(1, 0));
    let second = Some(place(2, 0));
    let rows = [
        (cells(3), first, second),
        (register(0, 1), first, second),
        (register(0, 2), second, None),
        (cells(1), None, None),
    ];
    check(&rt, rt.alloc(), &source, &rows)
}

// int a; int *p = &a; int **unused = &p; int main(void) { return 1; }
#[test]
fn unnamed_globals_count(rt: HostRuntime) -> Result<(), Fail> {
    let steps = [Step::Compute(0, Work::Constant(1)), Step::Return(0)];
    let main = main_of(&[false], &steps);
    let words = [0, (1 << 54) + (1 << 16), (2 << 54) + (1 << 32) + (1 << 16)];
    let source = Source {
        functions: &[main],
        globals: &[WHOLE, POINTER, POINTER],
        words: &words,
    };
    let rows = [
        (cells(1), None, None),
        (cells(2), Some(place(1, 0)), None),
        (cells(3), Some(place(2, 0)), None),
    ];
    check(&rt, rt.alloc(), &source, &rows)
}

// struct s { int a; int b; }; struct s v[4];
// int main(void) { int n = getchar(); int *p = &v[0].a; int *q = p + 1; int *r = p + n; .. }
// and q moved by n elements of v
#[test]
fn moves_go_on(rt: HostRuntime) -> Result<(), Fail> {
    let steps = [
        Step::GetChar(0),
        Step::Compute(1, address(1, 0, 8)),
        Step::Compute(2, Work::Constant(1)),
        Step::Compute(3, moved(1, 2, 1)),
        Step::Compute(4, moved(1, 0, 1)),
        Step::Compute(5, moved(3, 0, 2)),
        Step::Return(0),
    ];
    let pointers = [false, true, false, true, true, true];
    let main = main_of(&pointers, &steps);
    let source = Source {
        functions: &[main],
        globals: &[(CellKind::Whole, 8, 2)],
        words: &[0; 8],
    };
    let first = Some(place(1, 0));
    let second = Some(place(1, 1));
    let rows = [
        (register(0, 1), first, None),
        (register(0, 3), second, None),
        (register(0, 4), first, second),
        (register(0, 5), second, None),
    ];
    check(&rt, rt.alloc(), &source, &rows)
}

// int x; int y; long t; void *left; void *work(void *given) { pthread_exit(&y); return given; }
// int main(void) { pthread_create(&t, work, &x); pthread_join(t, &left); int *p = left; return 0; }
#[test]
fn threads_hand_over(rt: HostRuntime) -> Result<(), Fail> {
    let steps = [
        Step::Compute(0, address(3, 2, 1)),
        Step::Compute(1, address(1, 0, 1)),
        Step::Create(0, 1),
        Step::Load(3, 0),
        Step::Compute(4, address(4, 3, 1)),
        Step::Join(3, 4),
        Step::Load(5, 4),
        Step::Return(2),
    ];
    let pointers = [true, true, false, false, true, true];
    let main = main_of(&pointers, &steps);
    let steps = [
        Step::Compute(1, address(2, 1, 1)),
        Step::Exit(1),
        Step::Return(0),
    ];
    let work = Body {
        name: b"work",
        formals: 1,
        pointers: &[true, true],
        steps: &steps,
    };
    let source = Source {
        functions: &[main, work],
        globals: &[WHOLE, WHOLE, WHOLE, POINTER],
        words: &[0; 4],
    };
    let first = Some(place(1, 0));
    let second = Some(place(2, 0));
    let rows = [
        (register(1, 0), first, None),
        (cells(4), first, second),
        (register(0, 5), first, second),
    ];
    check(&rt, rt.alloc(), &source, &rows)
}

// int a; int main(void) { int *p = &a; long n = (long)p; int *q = (int *)n; int *r = p; return n; }
#[test]
fn casts_hand_on_nothing(rt: HostRuntime) -> Result<(), Fail> {
    let steps = [
        Step::Compute(0, address(1, 0, 1)),
        Step::Compute(1, Work::ToNumber(0)),
        Step::Compute(2, Work::ToPointer(1)),
        Step::Compute(3, Work::Copy(0)),
        Step::Return(1),
    ];
    let pointers = [true, false, true, true];
    let main = main_of(&pointers, &steps);
    let source = Source {
        functions: &[main],
        globals: &[WHOLE],
        words: &[0],
    };
    let first = Some(place(1, 0));
    let rows = [
        (register(0, 0), first, None),
        (register(0, 1), None, None),
        (register(0, 2), None, None),
        (register(0, 3), first, None),
    ];
    check(&rt, rt.alloc(), &source, &rows)
}

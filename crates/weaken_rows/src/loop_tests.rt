ghost use Rattle.std.specs.Prelude.{◌≡◌, ℕ, [], ◌<◌, ◌≤◌, length, slice_get, slice_index_or, Some, IfOk};
ghost use Rattle.flow_code.specs.declared.code.Function.{Function};

use facts::PointsTo;
use flow_code::{Act, Bound, Code, Function, Instr, LoopInfo, Work};
use loop_bounds::{counted_loops, ranges};
use rr_base::{Layout, List, Place, Position, PtrWord, Site};
use std::alloc::{AllocError, Global};
use std::process::Abort;
use std::test::Fail;
use weak_lock_facts::{LoopAt, Range};
use word_semantics::{BinaryOp, LibraryCall};

const ORIGIN: Position = Position { line: 1, column: 1 };

// An instruction; the numbers are registers, and those of jumps and branches instructions.
#[derive(Clone, Copy)]
enum Step {
    Constant(u32, i64),
    // The address of the global v.
    Address(u32),
    Copy(u32, u32),
    Binary(u32, BinaryOp, u32, u32),
    // Into a register, a pointer by a number of elements of so many cells.
    Move(u32, u32, u32, u32),
    Back(u32, u32, u32),
    Member(u32, u32),
    Load(u32, u32),
    Store(u32, u32),
    Mark,
    Call,
    GetChar,
    Jump(u32),
    Branch(u32, u32, u32),
    Return,
}

use BinaryOp::{Add, Less, Multiply, Remainder, Subtract};
use Step::{
    Address, Back, Binary, Branch, Call, Constant, Copy, GetChar, Jump, Load, Mark, Member, Move,
    Return, Store,
};

// The counter, two other variables, and pointers that are variables. Numbers have registers below 20.
const I: u32 = 0;

const J: u32 = 1;

const P: u32 = 30;

// Two registers for each instruction: a number below 16 and a pointer, of two more each.
const REGISTERS: u32 = 40;

const FIRST_POINTER: u32 = 20;

// Where the body of the outer loop begins if its bound is a number. Its Mark is the fourth instruction.
const MARK: u32 = 3;

const BODY: u32 = 7;

// `int i = 0;`
const START: [Step; 3] = [Constant(2, 0), Copy(I, 2), Copy(3, 2)];

// `i++`
const PLUS_PLUS: [Step; 5] = [
    Copy(10, I),
    Constant(11, 1),
    Binary(12, Add, 10, 11),
    Copy(I, 12),
    Copy(9, 10),
];

// `i += 2`
const PLUS_TWO: [Step; 5] = [
    Copy(10, I),
    Constant(11, 2),
    Binary(12, Add, 10, 11),
    Copy(I, 12),
    Copy(9, 12),
];

// `i = i + 1`
const SUM: [Step; 4] = [
    Constant(11, 1),
    Binary(9, Add, I, 11),
    Copy(I, 9),
    Copy(8, 9),
];

// `i -= 1`
const MINUS_ONE: [Step; 5] = [
    Copy(10, I),
    Constant(11, 1),
    Binary(12, Subtract, 10, 11),
    Copy(I, 12),
    Copy(9, 12),
];

// A sum of the step and itself.
const TWICE: [Step; 5] = [
    Copy(11, I),
    Constant(11, 1),
    Binary(12, Add, 11, 11),
    Copy(I, 12),
    Copy(9, 12),
];

/// A function `for (int i = 0; i < b; ..) ..`, and what is found of it: whether the loop is counted, and the instructions of
/// the ranges with their Marks and shifts.
#[derive(Clone, Copy)]
struct Row {
    start: [Step; 3],
    bound: Bound,
    body: &'static [Step],
    last_part: &'static [Step],
    step: i64,
    // A loop in the body, listed after the outer one.
    inner: Option<LoopInfo>,
    // All pointers point to this site.
    site: u16,
    counted: bool,
    want: &'static [(u32, u32, i64)],
}

// `v[i] = i` with `i < 4`, and `i++`
const PLAIN: Row = Row {
    start: START,
    bound: Bound::Number(4),
    body: &[Address(21), Move(20, 21, I, 1), Store(20, I), Copy(6, I)],
    last_part: &PLUS_PLUS,
    step: 1,
    inner: None,
    site: 1,
    counted: true,
    want: &[(9, MARK, 0)],
};

fn work(step: Step) -> Option<(u32, Work)> {
    match step {
        Constant(into, number) => Some((into, Work::Constant(number))),
        Address(into) => Some((
            into,
            Work::Address(PtrWord::from_word((1 << 54) + (8 << 16))),
        )),
        Copy(into, from) => Some((into, Work::Copy(from))),
        Binary(into, op, left, right) => Some((into, Work::Binary { op, left, right })),
        Move(into, pointer, by, element) => Some((
            into,
            Work::Move {
                pointer,
                by,
                element,
                back: false,
            },
        )),
        Back(into, pointer, by) => Some((
            into,
            Work::Move {
                pointer,
                by,
                element: 1,
                back: true,
            },
        )),
        Member(into, pointer) => Some((into, Work::Member { pointer, by: 0 })),
        _ => None,
    }
}

fn act(alloc: Global, step: Step) -> Act {
    if let Some((into, work)) = work(step) {
        return Act::Compute { into, work };
    }
    match step {
        Load(into, through) => Act::LoadCell { into, through },
        Store(through, from) => Act::StoreCell { through, from },
        Call => Act::Call {
            function: 0,
            arguments: List::new(alloc),
            into: Some(15),
        },
        GetChar => Act::Library {
            call: LibraryCall::GetChar,
            arguments: List::new(alloc),
            into: Some(15),
        },
        Jump(to) => Act::Jump { to },
        Branch(on, then_at, else_at) => Act::Branch {
            on,
            then_at,
            else_at,
        },
        Return => Act::Return { value: None },
        _ => Act::Mark,
    }
}

fn push_steps(alloc: Global, steps: &[Step], instrs: &mut List<Instr>) -> Result<(), AllocError> {
    for step in steps {
        instrs.push(Instr {
            at: ORIGIN,
            act: act(alloc, *step),
        })?;
    }
    Ok(())
}

fn body_at(bound: Bound) -> u32
    ensures some { 1 ≤ result }
    ensures few { result ≤ 7 }
{
    match bound {
        Bound::Number(_) => BODY,
        Bound::Register(_) => BODY - 1,
    }
}

// The last instruction of the last part.
fn last_of(row: Row) -> u32
    ensures { result ≤ 80 }
{
    body_at(row.bound) + (row.body.len() % 64 + row.last_part.len() % 8) as u32 - 1
}

// A number is put into register 5.
fn push_condition(alloc: Global, row: Row, instrs: &mut List<Instr>) -> Result<(), AllocError> {
    let branch = Branch(3, body_at(row.bound), last_of(row) + 2);
    match row.bound {
        Bound::Number(number) => {
            let condition = [Mark, Constant(5, number), Binary(3, Less, I, 5), branch];
            push_steps(alloc, &condition, instrs)
        }
        Bound::Register(register) => {
            push_steps(alloc, &[Mark, Binary(3, Less, I, register), branch], instrs)
        }
    }
}

fn push_body(alloc: Global, row: Row, instrs: &mut List<Instr>) -> Result<(), AllocError> {
    push_steps(alloc, &row.start, instrs)?;
    push_condition(alloc, row, instrs)?;
    push_steps(alloc, row.body, instrs)?;
    push_steps(alloc, row.last_part, instrs)?;
    push_steps(alloc, &[Jump(MARK), Return], instrs)
}

fn body(alloc: Global, row: Row) -> Result<List<Instr>, AllocError> {
    let mut instrs = List::new(alloc);
    push_body(alloc, row, &mut instrs)?;
    Ok(instrs)
}

fn outer(row: Row) -> LoopInfo {
    LoopInfo {
        at: MARK,
        first: body_at(row.bound),
        last: last_of(row),
        counter: I,
        bound: row.bound,
        step: row.step,
    }
}

fn kinds(alloc: Global) -> Result<List<bool>, AllocError> {
    let mut kinds = List::new(alloc);
    for register in 0..REGISTERS {
        kinds.push(FIRST_POINTER <= register)?;
    }
    Ok(kinds)
}

fn function(
    alloc: Global,
    name: &[u8],
    instrs: List<Instr>,
    loops: List<LoopInfo>,
) -> Result<Function, AllocError>
    ensures { IfOk result (λ f. f.registers ≡ 40) }
{
    Ok(Function {
        name: List::from_slice(alloc, name)?,
        line: 1,
        formals: 0,
        registers: REGISTERS,
        pointers: kinds(alloc)?,
        gives_pointer: false,
        instrs,
        loops,
        regions: List::new(alloc),
    })
}

fn looping(alloc: Global, name: &[u8], row: Row) -> Result<Function, AllocError>
    ensures { IfOk result (λ f. f.registers ≡ 40) }
{
    let mut loops = List::new(alloc);
    loops.push(outer(row))?;
    if let Some(inner) = row.inner {
        loops.push(inner)?;
    }
    function(alloc, name, body(alloc, row)?, loops)
}

fn site(alloc: Global, element: u32) -> Result<Site, AllocError> {
    Ok(Site {
        name: List::from_slice(alloc, b"v")?,
        layout: Layout {
            size: 8,
            element,
            kinds: List::new(alloc),
        },
        at: ORIGIN,
    })
}

fn sites(alloc: Global) -> Result<List<Site>, AllocError> {
    let mut sites = List::new(alloc);
    sites.push(site(alloc, 1)?)?;
    sites.push(site(alloc, 2)?)?;
    Ok(sites)
}

fn three<T: Drop>(alloc: Global, items: [T; 3]) -> Result<List<T>, AllocError>
    ensures { IfOk result (λ list. list ≡ items) }
{
    Ok(List::from_vec(Vec::from_array(alloc, items)?))
}

// A function without loops, and two with that of the row. Elements of site 2 have two cells.
fn code(alloc: Global, row: Row) -> Result<Code, AllocError>
    ensures long { IfOk result (λ code. length code.functions ≡ 3) }
    ensures each { IfOk result (λ code. (f : ℕ) (fn : Function) → slice_get code.functions f ≡ Some fn → fn.registers ≡ 40) }
{
    let sites = sites(alloc)?;
    let plain = function(alloc, b"plain", List::new(alloc), List::new(alloc))?;
    let low = looping(alloc, b"low", row)?;
    let high = looping(alloc, b"high", row)?;
    Ok(Code {
        functions: three(alloc, [plain, low, high])?,
        sites,
        globals: List::new(alloc),
        global_kinds: List::new(alloc),
        global_bases: List::new(alloc),
        locks: List::new(alloc),
    })
}

fn registers(alloc: Global, site: u16) -> Result<List<List<Place>>, AllocError>
    ensures { IfOk result (λ rows. length rows ≡ 40) }
{
    let mut rows = List::new(alloc);
    for _register in 0..REGISTERS {
        rows.push(List::from_slice(alloc, &[Place { site, class: 0 }])?)?;
    }
    Ok(rows)
}

fn points(alloc: Global, site: u16) -> Result<PointsTo, AllocError>
    ensures long { IfOk result (λ t. length t.registers ≡ 3) }
    ensures each { IfOk result (λ t. (f : ℕ) → f < 3 → length (slice_index_or t.registers f []) ≡ 40) }
{
    let rows = [
        registers(alloc, site)?,
        registers(alloc, site)?,
        registers(alloc, site)?,
    ];
    Ok(PointsTo::new(three(alloc, rows)?, List::new(alloc)))
}

fn ranges_of(alloc: Global, row: Row) -> Result<List<Range>, AllocError> {
    let code = code(alloc, row)?;
    let points = points(alloc, row.site)?;
    ranges(alloc, &code, &points)
}

fn wanted_ranges(alloc: Global, row: Row) -> Result<List<Range>, AllocError> {
    let mut want = List::new(alloc);
    for function in 1..3 {
        for (instr, loop_at, shift) in row.want {
            want.push(Range {
                function,
                instr: *instr,
                loop_at: *loop_at,
                shift: *shift,
            })?;
        }
    }
    Ok(want)
}

fn wanted_loops(alloc: Global, row: Row) -> Result<List<LoopAt>, AllocError> {
    let mut want = List::new(alloc);
    for function in 1..3 {
        if row.counted {
            want.push(LoopAt {
                function,
                counted: outer(row),
            })?;
        }
        if let Some(inner) = row.inner {
            want.push(LoopAt {
                function,
                counted: inner,
            })?;
        }
    }
    Ok(want)
}

// Which loops are counted.
static LOOPS: [Row; 10] = [
    PLAIN,
    // `++i` and `i += 2`, and `i = i + 1`
    Row {
        last_part: &PLUS_TWO,
        step: 2,
        ..PLAIN
    },
    Row {
        last_part: &SUM,
        ..PLAIN
    },
    // No step, one that goes down, one that is another, and one that isn't beside the counter.
    Row {
        step: 0,
        counted: false,
        want: &[],
        ..PLAIN
    },
    Row {
        last_part: &MINUS_ONE,
        counted: false,
        want: &[],
        ..PLAIN
    },
    Row {
        step: 2,
        counted: false,
        want: &[],
        ..PLAIN
    },
    Row {
        last_part: &TWICE,
        counted: false,
        want: &[],
        ..PLAIN
    },
    // `i < j`, where the body keeps j, and where it doesn't
    Row {
        bound: Bound::Register(J),
        want: &[(8, MARK, 0)],
        ..PLAIN
    },
    Row {
        bound: Bound::Register(J),
        body: &[Copy(J, 2), Address(21), Move(20, 21, I, 1), Load(6, 20)],
        counted: false,
        want: &[],
        ..PLAIN
    },
    // A pointer is no bound.
    Row {
        bound: Bound::Register(P),
        counted: false,
        want: &[],
        ..PLAIN
    },
];

// Calls and sums. The proof of a function grows with the rows of each table that it names, so there are three tables.
static SUMS: [Row; 10] = [
    // The body assigns the counter.
    Row {
        body: &[Copy(I, 2), Address(21), Move(20, 21, I, 1), Load(6, 20)],
        counted: false,
        want: &[],
        ..PLAIN
    },
    // A branch from in front goes into the body, and one of the body into the last part.
    Row {
        start: [Constant(2, 0), Copy(I, 2), Branch(2, MARK, BODY)],
        counted: false,
        want: &[],
        ..PLAIN
    },
    Row {
        body: &[
            Branch(2, 8, 12),
            Address(21),
            Move(20, 21, I, 1),
            Load(6, 20),
        ],
        counted: false,
        want: &[],
        ..PLAIN
    },
    // The same where the last part adds the counter itself.
    Row {
        body: &[
            Branch(2, 8, 12),
            Address(21),
            Move(20, 21, I, 1),
            Load(6, 20),
        ],
        last_part: &SUM,
        counted: false,
        want: &[],
        ..PLAIN
    },
    // A call of a function, and one of the library.
    Row {
        body: &[Address(21), Move(20, 21, I, 1), Load(6, 20), Call],
        want: &[],
        ..PLAIN
    },
    Row {
        body: &[GetChar, Address(21), Move(20, 21, I, 1), Load(6, 20)],
        want: &[],
        ..PLAIN
    },
    // `v[i * 2 % 8]`, and `v[+i]`
    Row {
        body: &[
            Address(21),
            Constant(8, 2),
            Binary(6, Multiply, I, 8),
            Constant(13, 8),
            Binary(14, Remainder, 6, 13),
            Move(20, 21, 14, 1),
            Load(15, 20),
        ],
        want: &[],
        ..PLAIN
    },
    Row {
        body: &[Address(21), Copy(7, I), Move(20, 21, 7, 1), Load(6, 20)],
        want: &[],
        ..PLAIN
    },
    // `v[i - 1]` and `v[i + 3]`, `v[3 + i]` and `v[i + j]`
    Row {
        body: &[
            Address(21),
            Constant(8, 1),
            Binary(6, Subtract, I, 8),
            Move(20, 21, 6, 1),
            Load(15, 20),
            Address(23),
            Constant(8, 3),
            Binary(6, Add, I, 8),
            Move(22, 23, 6, 1),
            Load(15, 22),
        ],
        want: &[(11, MARK, -1), (16, MARK, 3)],
        ..PLAIN
    },
    Row {
        body: &[
            Address(21),
            Constant(8, 3),
            Binary(6, Add, 8, I),
            Move(20, 21, 6, 1),
            Load(15, 20),
            Address(23),
            Binary(6, Add, I, J),
            Move(22, 23, 6, 1),
            Load(15, 22),
        ],
        want: &[],
        ..PLAIN
    },
];

// Pointers, and loops in loops.
static POINTERS: [Row; 10] = [
    // The least number has no negative.
    Row {
        body: &[
            Address(21),
            Constant(8, i64::MIN),
            Binary(6, Subtract, I, 8),
            Move(20, 21, 6, 1),
            Load(15, 20),
            Address(23),
            Constant(8, i64::MIN),
            Binary(6, Add, I, 8),
            Move(22, 23, 6, 1),
            Load(15, 22),
        ],
        want: &[(16, MARK, i64::MIN)],
        ..PLAIN
    },
    // `p[i]`, where the body keeps p, and where it doesn't, and `(j, p)[i]`
    Row {
        body: &[Move(20, P, I, 1), Load(6, 20)],
        want: &[(8, MARK, 0)],
        ..PLAIN
    },
    Row {
        body: &[Move(20, P, I, 1), Load(6, 20), Copy(P, 20)],
        want: &[],
        ..PLAIN
    },
    Row {
        body: &[Copy(21, P), Move(20, 21, I, 1), Load(6, 20)],
        want: &[],
        ..PLAIN
    },
    // A member's array, elements of two cells, a pointer that goes back, and one that is loaded
    Row {
        body: &[
            Address(22),
            Member(21, 22),
            Move(20, 21, I, 1),
            Load(6, 20),
            Address(24),
            Move(23, 24, I, 2),
            Load(6, 23),
            Address(26),
            Back(25, 26, I),
            Load(6, 25),
            Address(29),
            Load(28, 29),
            Move(27, 28, I, 1),
            Load(6, 27),
        ],
        want: &[],
        ..PLAIN
    },
    // What may be touched has elements of two cells.
    Row {
        site: 2,
        want: &[],
        ..PLAIN
    },
    // `v[i] = j ? 1 : 2`
    Row {
        body: &[
            Address(21),
            Move(20, 21, I, 1),
            Branch(J, 10, 12),
            Constant(8, 1),
            Jump(13),
            Constant(8, 2),
            Store(20, 8),
        ],
        want: &[(13, MARK, 0)],
        ..PLAIN
    },
    // A pointer with two makers, and one whose maker isn't passed in each turn.
    Row {
        body: &[
            Branch(J, 8, 10),
            Address(21),
            Move(20, 21, I, 1),
            Load(6, 20),
            Address(23),
            Move(22, 23, I, 1),
            Load(6, 22),
            Copy(22, P),
        ],
        want: &[],
        ..PLAIN
    },
    // A loop in it: `for (j = 0; j < 4; j++) v[j], v[i];` and then `v[i]`
    Row {
        body: &[
            Constant(2, 0),
            Copy(J, 2),
            Mark,
            Constant(5, 4),
            Binary(3, Less, J, 5),
            Branch(3, 13, 25),
            Address(21),
            Move(20, 21, J, 1),
            Load(6, 20),
            Address(23),
            Move(22, 23, I, 1),
            Load(6, 22),
            Copy(10, J),
            Constant(11, 1),
            Binary(12, Add, 10, 11),
            Copy(J, 12),
            Copy(9, 10),
            Jump(9),
            Address(25),
            Move(24, 25, I, 1),
            Load(6, 24),
        ],
        inner: Some(LoopInfo {
            at: 9,
            first: 13,
            last: 23,
            counter: J,
            bound: Bound::Number(4),
            step: 1,
        }),
        want: &[(15, 9, 0), (27, MARK, 0)],
        ..PLAIN
    },
    // `do v[i] while (j)`, which isn't counted, and then `v[i]`
    Row {
        body: &[
            Mark,
            Address(21),
            Move(20, 21, I, 1),
            Load(6, 20),
            Branch(J, 7, 12),
            Address(23),
            Move(22, 23, I, 1),
            Load(6, 22),
        ],
        want: &[(14, MARK, 0)],
        ..PLAIN
    },
];

fn check_loops(rt: &impl Abort, alloc: Global, index: usize, row: Row) -> Result<(), AllocError> {
    let code = code(alloc, row)?;
    let loops = counted_loops(alloc, &code)?;
    let want = wanted_loops(alloc, row)?;
    assert_eq!(rt; loops.as_slice(), want.as_slice(), "loops of row {index}");
    Ok(())
}

fn check_ranges(rt: &impl Abort, alloc: Global, index: usize, row: Row) -> Result<(), AllocError> {
    let found = ranges_of(alloc, row)?;
    let want = wanted_ranges(alloc, row)?;
    assert_eq!(rt; found.as_slice(), want.as_slice(), "ranges of row {index}");
    Ok(())
}

fn check_rows(rt: &impl Abort, alloc: Global, rows: &[Row]) -> Result<(), Fail> {
    for (index, row) in rows.iter().enumerate() {
        check_loops(rt, alloc, index, *row)?;
        check_ranges(rt, alloc, index, *row)?;
    }
    Ok(())
}

#[test]
fn counted_loops_of_rows(rt: HostRuntime) -> Result<(), Fail> {
    check_rows(&rt, rt.alloc(), &LOOPS)
}

#[test]
fn ranges_of_sums(rt: HostRuntime) -> Result<(), Fail> {
    check_rows(&rt, rt.alloc(), &SUMS)
}

#[test]
fn ranges_of_pointers(rt: HostRuntime) -> Result<(), Fail> {
    check_rows(&rt, rt.alloc(), &POINTERS)
}

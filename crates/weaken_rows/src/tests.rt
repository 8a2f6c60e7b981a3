ghost use Rattle.std.specs.Prelude.{◌≡◌, ℕ, ◌<◌, true, [], length, slice_get, slice_index_or, Some, IfOk};
ghost use Rattle.facts.specs.Pairs.{pairs_ascend};
ghost use Rattle.flow_code.specs.declared.code.Function.{Function};
ghost use Rattle.flow_code.specs.Valid as validity;

use facts::{AccessAt, Pair, PointsTo};
use flow_code::{Act, Base, Bound, Code, Function, Instr, LoopInfo, Region, Span, Work, is_valid};
use rr_base::{CellKind, Layout, List, Place, Position, PtrWord, Site};
use std::alloc::{AllocError, Global};
use std::fmt::Write;
use std::process::Abort;
use std::test::Fail;
use weak_lock_facts::{Grain, Grained, Grains, Range};
use weaken::weaken;
use word_semantics::{BinaryOp, LibraryCall};

const START: Position = Position { line: 1, column: 1 };

const X: Place = Place { site: 1, class: 0 };

/// An instruction of a function whose registers 3, 4 and 7 are pointers.
#[derive(Clone, Copy)]
enum Op {
    Object,
    Address(u32),
    Set(u32),
    Less,
    Add,
    Element,
    Load(u32),
    Store(u32),
    Mark,
    Join,
    Jump(u32),
    Branch(u32, u32),
    Return,
}

/// The instructions and loops (Mark, first and last instruction) of a function; the instructions of its accesses with
/// their grains, and with their shifts where their ranges are known; and the weakened instructions, the moved loops, the
/// regions and the number of stripes.
#[derive(Clone, Copy)]
struct Row {
    ops: &'static [Op],
    loops: &'static [(u32, u32, u32)],
    accesses: &'static [(u32, Grain, Option<i64>)],
    want: &'static str,
    moved: &'static [(u32, u32, u32)],
    regions: &'static str,
    stripes: u8,
}

static ROWS: [Row; 5] = [
    // `int t = x; if (t) x = t;`, each access alone.
    Row {
        ops: &[
            Op::Address(3),
            Op::Load(3),
            Op::Branch(3, 6),
            Op::Address(4),
            Op::Store(4),
            Op::Jump(6),
            Op::Return,
        ],
        loops: &[],
        accesses: &[(1, Grain::Instruction, None), (4, Grain::Instruction, None)],
        want: "C T0 L G0 B5,10 C T1 S G1 J10 R ",
        moved: &[],
        regions: "cell r3 [0] cell r4 [0] ",
        stripes: 1,
    },
    // `x = x + 1;`, with its block.
    Row {
        ops: &[
            Op::Address(3),
            Op::Address(4),
            Op::Load(4),
            Op::Set(1),
            Op::Store(3),
            Op::Return,
        ],
        loops: &[],
        accesses: &[(2, Grain::Block(2), None), (4, Grain::Block(2), None)],
        want: "C C T0 L C S G0 R ",
        moved: &[],
        regions: "whole [0] ",
        stripes: 1,
    },
    // `for (int i = 0; i < 4; i++) v[i] = i;`, with its loop.
    Row {
        ops: &[
            Op::Set(0),
            Op::Mark,
            Op::Set(1),
            Op::Less,
            Op::Branch(5, 11),
            Op::Address(3),
            Op::Element,
            Op::Store(4),
            Op::Set(1),
            Op::Add,
            Op::Jump(1),
            Op::Return,
        ],
        loops: &[(1, 5, 9)],
        accesses: &[(7, Grain::Loop(1), Some(0))],
        want: "C T0 M C C B6,12 C C S C C J2 G0 R ",
        moved: &[(2, 6, 10)],
        regions: "ranged s1+0 [0] ",
        stripes: 8,
    },
    // A loop in a loop at the start of a function, with a return inside both.
    Row {
        ops: &[
            Op::Object,
            Op::Mark,
            Op::Branch(3, 12),
            Op::Mark,
            Op::Branch(5, 9),
            Op::Branch(6, 7),
            Op::Return,
            Op::Store(3),
            Op::Jump(3),
            Op::Store(3),
            Op::Set(1),
            Op::Jump(1),
            Op::Store(4),
            Op::Return,
        ],
        loops: &[(1, 3, 10), (3, 5, 7)],
        accesses: &[
            (7, Grain::Loop(3), Some(-1)),
            (9, Grain::Loop(1), Some(2)),
            (12, Grain::Function, None),
        ],
        want: "O T0 T1 M B5,19 T2 M B8,15 B9,13 G2 G1 G0 R S J6 G2 S C J3 G1 S G0 R ",
        moved: &[(3, 5, 17), (6, 8, 13)],
        regions: "whole [0] ranged r3+2 [0] ranged r3+-1 [0] ",
        stripes: 8,
    },
    // A join that stores, alone.
    Row {
        ops: &[Op::Join, Op::Return],
        loops: &[],
        accesses: &[(0, Grain::Instruction, None)],
        want: "T0 P G0 R ",
        moved: &[],
        regions: "cell r7 [0] ",
        stripes: 1,
    },
];

fn join_of(arguments: List<u32>) -> Act {
    Act::Library {
        call: LibraryCall::Join,
        arguments,
        into: None,
    }
}

fn act_of(alloc: Global, op: Op) -> Result<Act, AllocError> {
    Ok(match op {
        Op::Object => Act::Alloc {
            into: 7,
            site: 2,
            size: None,
        },
        Op::Address(into) => Act::Compute {
            into,
            work: Work::Address(PtrWord::pack(1, 0, 4, 0)),
        },
        Op::Set(into) => Act::Compute {
            into,
            work: Work::Constant(1),
        },
        Op::Less => Act::Compute {
            into: 2,
            work: Work::Binary {
                op: BinaryOp::Less,
                left: 0,
                right: 1,
            },
        },
        Op::Add => Act::Compute {
            into: 0,
            work: Work::Binary {
                op: BinaryOp::Add,
                left: 0,
                right: 1,
            },
        },
        Op::Element => Act::Compute {
            into: 4,
            work: Work::Move {
                pointer: 3,
                by: 0,
                element: 1,
                back: false,
            },
        },
        Op::Load(through) => Act::LoadCell { into: 1, through },
        Op::Store(through) => Act::StoreCell { through, from: 1 },
        Op::Mark => Act::Mark,
        Op::Join => join_of(List::from_slice(alloc, &[0, 7])?),
        Op::Jump(to) => Act::Jump { to },
        Op::Branch(then_at, else_at) => Act::Branch {
            on: 1,
            then_at,
            else_at,
        },
        Op::Return => Act::Return { value: None },
    })
}

fn instrs_of(alloc: Global, ops: &[Op]) -> Result<List<Instr>, AllocError> {
    let mut instrs = List::new(alloc);
    for op in ops {
        instrs.push(Instr {
            at: START,
            act: act_of(alloc, *op)?,
        })?;
    }
    Ok(instrs)
}

fn loops_of(alloc: Global, loops: &[(u32, u32, u32)]) -> Result<List<LoopInfo>, AllocError> {
    let mut infos = List::new(alloc);
    for (at, first, last) in loops {
        infos.push(LoopInfo {
            at: *at,
            first: *first,
            last: *last,
            counter: 0,
            bound: Bound::Number(4),
            step: 1,
        })?;
    }
    Ok(infos)
}

fn function_of(alloc: Global, row: Row) -> Result<Function, AllocError>
    ensures { IfOk result (λ f. f.registers ≡ 8) }
{
    let kinds = [false, false, false, true, true, false, false, true];
    Ok(Function {
        name: List::from_slice(alloc, b"main")?,
        line: 1,
        formals: 0,
        registers: 8,
        pointers: List::from_slice(alloc, &kinds)?,
        gives_pointer: false,
        instrs: instrs_of(alloc, row.ops)?,
        loops: loops_of(alloc, row.loops)?,
        regions: List::new(alloc),
    })
}

fn site(alloc: Global, kinds: &[CellKind], size: u32) -> Result<Site, AllocError> {
    Ok(Site {
        name: List::from_slice(alloc, b"x")?,
        layout: Layout {
            size,
            element: 1,
            kinds: List::from_slice(alloc, kinds)?,
        },
        at: START,
    })
}

fn sites(alloc: Global) -> Result<List<Site>, AllocError> {
    let mut sites = List::new(alloc);
    sites.push(site(alloc, &[CellKind::Whole; 4], 4)?)?;
    sites.push(site(alloc, &[CellKind::Whole], 1)?)?;
    Ok(sites)
}

fn code_of(alloc: Global, row: Row) -> Result<Code, AllocError>
    ensures long { IfOk result (λ code. length code.functions ≡ 1) }
    ensures each { IfOk result (λ code. (f : ℕ) (fn : Function) → slice_get code.functions f ≡ Some fn → fn.registers ≡ 8) }
{
    let function = function_of(alloc, row)?;
    Ok(Code {
        functions: List::from_vec(Vec::from_array(alloc, [function])?),
        sites: sites(alloc)?,
        globals: List::from_slice(alloc, &[0; 4])?,
        global_kinds: List::from_slice(alloc, &[CellKind::Whole; 4])?,
        global_bases: List::from_slice(alloc, &[Some(0), None])?,
        locks: List::new(alloc),
    })
}

/// Each pointer may point to x.
fn registers(alloc: Global) -> Result<List<List<Place>>, AllocError>
    ensures { IfOk result (λ rows. length rows ≡ 8) }
{
    let third = List::from_slice(alloc, &[X])?;
    let fourth = List::from_slice(alloc, &[X])?;
    let seventh = List::from_slice(alloc, &[X])?;
    let rows = [
        List::new(alloc),
        List::new(alloc),
        List::new(alloc),
        third,
        fourth,
        List::new(alloc),
        List::new(alloc),
        seventh,
    ];
    Ok(List::from_vec(Vec::from_array(alloc, rows)?))
}

fn points(alloc: Global) -> Result<PointsTo, AllocError>
    ensures long { IfOk result (λ t. length t.registers ≡ 1) }
    ensures each { IfOk result (λ t. (f : ℕ) → f < 1 → length (slice_index_or t.registers f []) ≡ 8) }
{
    let rows = List::from_vec(Vec::from_array(alloc, [registers(alloc)?])?);
    Ok(PointsTo::new(rows, List::new(alloc)))
}

fn at(instr: u32) -> AccessAt {
    AccessAt { function: 0, instr }
}

fn pairs(alloc: Global) -> Result<List<Pair>, AllocError>
    ensures { IfOk result (λ vs. pairs_ascend vs ≡ true) }
{
    let pair = Pair {
        place: X,
        first: at(0),
        second: at(0),
    };
    List::from_slice(alloc, &[pair])
}

fn ranges(alloc: Global, row: Row) -> Result<List<Range>, AllocError> {
    let mut ranges = List::new(alloc);
    for (instr, grain, shift) in row.accesses {
        if let (Grain::Loop(loop_at), Some(shift)) = (*grain, *shift) {
            ranges.push(Range {
                function: 0,
                instr: *instr,
                loop_at,
                shift,
            })?;
        }
    }
    Ok(ranges)
}

fn grains(alloc: Global, row: Row) -> Result<Grains, AllocError> {
    let mut rows = List::new(alloc);
    for (instr, grain, _) in row.accesses {
        rows.push(Grained {
            access: at(*instr),
            grain: *grain,
        })?;
    }
    Ok(Grains { rows })
}

fn show_act(text: &mut String, act: &Act) -> Result<(), AllocError> {
    match act {
        Act::Compute { .. } => text.push_str("C "),
        Act::Alloc { .. } => text.push_str("O "),
        Act::LoadCell { .. } => text.push_str("L "),
        Act::StoreCell { .. } => text.push_str("S "),
        Act::Mark => text.push_str("M "),
        Act::Call { .. } => text.push_str("F "),
        Act::Library { .. } => text.push_str("P "),
        Act::Jump { to } => write!(text, "J{to} "),
        Act::Branch {
            on: _,
            then_at,
            else_at,
        } => write!(text, "B{then_at},{else_at} "),
        Act::Return { .. } => text.push_str("R "),
        Act::Take(region) => write!(text, "T{region} "),
        Act::Give(region) => write!(text, "G{region} "),
    }
}

fn shown(alloc: Global, instrs: &[Instr]) -> Result<String, AllocError> {
    let mut text = String::new(alloc);
    for instr in instrs {
        show_act(&mut text, &instr.act)?;
    }
    Ok(text)
}

fn show_base(text: &mut String, base: Base) -> Result<(), AllocError> {
    match base {
        Base::Site(site) => write!(text, "s{site}"),
        Base::Register(register) => write!(text, "r{register}"),
    }
}

fn show_locks(text: &mut String, locks: &[u16]) -> Result<(), AllocError> {
    text.push_str(" [")?;
    for lock in locks {
        write!(text, "{lock}")?;
    }
    text.push_str("] ")
}

fn show_span(text: &mut String, span: &Span) -> Result<(), AllocError> {
    let shift = span.shift;
    show_base(text, span.base)?;
    write!(text, "+{shift}")?;
    show_locks(text, span.locks.as_slice())
}

fn show_region(text: &mut String, region: &Region) -> Result<(), AllocError> {
    match region {
        Region::Whole { locks } => {
            text.push_str("whole")?;
            show_locks(text, locks.as_slice())
        }
        Region::Ranged {
            counter: _,
            bound: _,
            spans,
        } => {
            text.push_str("ranged ")?;
            for span in spans.as_slice() {
                show_span(text, span)?;
            }
            Ok(())
        }
        Region::Cell { base, locks } => {
            text.push_str("cell ")?;
            show_base(text, *base)?;
            show_locks(text, locks.as_slice())
        }
    }
}

fn shown_regions(alloc: Global, regions: &[Region]) -> Result<String, AllocError> {
    let mut text = String::new(alloc);
    for region in regions {
        show_region(&mut text, region)?;
    }
    Ok(text)
}

// The row's weakened code.
#[tactic(auto, using(crate::proofs::Tables::has_registers))]
fn weakened(alloc: Global, row: Row, code: &Code) -> Result<Code, AllocError>
    requires valid { validity.is_valid code.now ≡ true }
    requires long { length code.now.functions ≡ 1 }
    requires each { (f : ℕ) (fn : Function) → slice_get code.now.functions f ≡ Some fn → fn.registers ≡ 8 }
{
    let points = points(alloc)?;
    let pairs = pairs(alloc)?;
    let ranges = ranges(alloc, row)?;
    let grains = grains(alloc, row)?;
    weaken(alloc, code, &points, &pairs, &ranges, &grains)
}

fn check_texts(
    rt: &impl Abort,
    alloc: Global,
    row: Row,
    function: &Function,
) -> Result<(), AllocError> {
    let text = shown(alloc, function.instrs.as_slice())?;
    assert_eq!(rt; text.as_str(), row.want);
    let regions = shown_regions(alloc, function.regions.as_slice())?;
    assert_eq!(rt; regions.as_str(), row.regions, "of {}", row.want);
    Ok(())
}

fn check_moved(rt: &impl Abort, row: Row, function: &Function) {
    for (found, want) in function.loops.as_slice().iter().zip(row.moved.iter()) {
        assert_eq!(rt;
            (found.at, found.first, found.last),
            *want,
            "of {}",
            row.want
        );
    }
}

fn check_stripes(rt: &impl Abort, stripes: u8, want: u8, text: &str) {
    assert_eq!(rt; stripes, want, "of {text}");
}

fn check_weak(rt: &impl Abort, alloc: Global, row: Row, weak: &Code) -> Result<(), AllocError> {
    assert!(rt; is_valid(weak), "{} is valid", row.want);
    assert_eq!(rt; weak.locks.len(), 1);
    check_stripes(rt, weak.locks.as_slice()[0].stripes, row.stripes, row.want);
    for function in weak.functions.as_slice() {
        check_texts(rt, alloc, row, function)?;
        check_moved(rt, row, function);
    }
    Ok(())
}

fn check_row(rt: &impl Abort, alloc: Global, row: Row) -> Result<(), AllocError> {
    let code = code_of(alloc, row)?;
    assert!(rt; is_valid(&code), "the code of {} is valid", row.want);
    let weak = weakened(alloc, row, &code)?;
    check_weak(rt, alloc, row, &weak)
}

#[test]
fn weakened_rows(rt: HostRuntime) -> Result<(), Fail> {
    for row in &ROWS {
        check_row(&rt, rt.alloc(), *row)?;
    }
    Ok(())
}

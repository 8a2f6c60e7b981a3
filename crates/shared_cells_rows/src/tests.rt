// Each call once, on a code whose `main` returns at once.
ghost use Rattle.std.specs.Prelude.{◌≡◌, length, IfOk};

use flow_code::{Act, Code, Function, Instr, LockInfo, is_valid};
use rr_base::{Bytes, CellKind, Layout, List, Position, Site};
use shared_cells::{Attempt, Cells};
use std::alloc::{AllocError, Global};
use std::test::Fail;
use sync_objects::{ObjId, Op, Setup};

fn lone<T: Drop>(alloc: Global, item: T) -> Result<List<T>, AllocError>
    ensures { IfOk result (λ it. length it ≡ 1) }
{
    let mut list = List::new(alloc);
    list.push(item)?;
    Ok(list)
}

fn main_alone(alloc: Global) -> Result<Function, AllocError> {
    let end = Instr {
        at: Position { line: 1, column: 1 },
        act: Act::Return { value: None },
    };
    Ok(Function {
        name: List::from_slice(alloc, b"main")?,
        line: 1,
        formals: 0,
        registers: 0,
        pointers: List::new(alloc),
        gives_pointer: false,
        instrs: lone(alloc, end)?,
        loops: List::new(alloc),
        regions: List::new(alloc),
    })
}

fn code(alloc: Global) -> Result<Code, AllocError>
    ensures { IfOk result (λ it. length it.locks ≡ 1) }
{
    let layout = Layout {
        size: 1,
        element: 1,
        kinds: lone(alloc, CellKind::Whole)?,
    };
    let site = Site {
        name: List::new(alloc),
        layout,
        at: Position { line: 1, column: 1 },
    };
    let lock = LockInfo {
        site: 1,
        class: 0,
        stripes: 1,
    };
    Ok(Code {
        functions: lone(alloc, main_alone(alloc)?)?,
        sites: lone(alloc, site)?,
        globals: List::new(alloc),
        global_kinds: List::new(alloc),
        global_bases: lone(alloc, None)?,
        locks: lone(alloc, lock)?,
    })
}

// 4 hand-off cells, 2 arenas, and for each cell 4 objects, 20 others and 8 stripes.
#[test]
fn starts_and_ends(rt: HostRuntime) -> Result<(), Fail> {
    let alloc = rt.alloc();
    let code = code(alloc)?;
    assert!(rt; is_valid(&code));
    let setup = Setup::new(2, 1024, 100, Bytes::new(alloc));
    let (cells, seats) = Cells::new(alloc, &code, &setup)?;
    assert_eq!(rt; cells.cell_count(), 2052);
    let closed = cells.close(alloc, seats)?;
    assert_eq!(rt; closed.words.len(), 5 * 2052 + 28);
    assert_eq!(rt; closed.departure, 4_294_967_295);
    Ok(())
}

// A slot is closed by its own thread, which no one has started.
#[test]
fn closes_a_slot(rt: HostRuntime) -> Result<(), Fail> {
    let alloc = rt.alloc();
    let code = code(alloc)?;
    assert!(rt; is_valid(&code));
    let setup = Setup::new(2, 1024, 100, Bytes::new(alloc));
    let (cells, mut seats) = Cells::new(alloc, &code, &setup)?;
    let Some(mut seat) = seats.pop() else {
        return Ok(());
    };
    let done = cells.attempt(&mut seat, ObjId::Slot(1), Op::Close);
    assert_eq!(rt;
        done,
        Attempt::Done {
            answer: 0,
            number: 0
        }
    );
    // closed, after one operation
    assert_eq!(rt; cells.look(&mut seat, ObjId::Slot(1)), (1 << 32) + 1);
    // one thread is drawn and live
    assert_eq!(rt; cells.look(&mut seat, ObjId::Threads), 33);
    Ok(())
}

#[test]
fn tells_of_other_words(rt: HostRuntime) -> Result<(), Fail> {
    let alloc = rt.alloc();
    let code = code(alloc)?;
    assert!(rt; is_valid(&code));
    let setup = Setup::new(2, 1024, 100, Bytes::new(alloc));
    let (cells, mut seats) = Cells::new(alloc, &code, &setup)?;
    let Some(mut seat) = seats.pop() else {
        return Ok(());
    };
    assert!(rt; !cells.wanted(&mut seat, 0, 3));
    cells.want(&mut seat, 0, 3, true);
    assert!(rt; cells.wanted(&mut seat, 0, 3));
    assert_eq!(rt; cells.least(&mut seat, 7), 4_294_967_295);
    assert_eq!(rt; cells.depart(&mut seat), 7);
    cells.no_memory(&mut seat);
    assert!(rt; cells.lacks_memory(&mut seat));
    Ok(())
}

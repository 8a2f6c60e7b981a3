// The accesses of a walk in which two threads count, and after them `main` prints.
ghost use Rattle.flow_code.specs.Settle.{IsRunnable};
ghost use Rattle.core_run.specs.Walks.{WalkIs};
ghost use Rattle.thread_interpreter.specs.declared.access.Formula.{Formula as FormulaOf};

use crate::tests::{
    FIRST_COUNTS, JOINS_AND_PRINTS, Row, SECOND_COUNTS, STARTS, block_code, entries_of,
};
use core_run::{Entry, Walk};
use flow_code::{Code, is_valid};
use rr_base::{Bytes, List};
use std::alloc::{AllocError, Global};
use std::process::Abort;
use std::test::Fail;
use sync_objects::Setup;
use thread_interpreter::{Access, Formula};
use walk_accesses::{Seen, access_at, first_in_walk};
use watch_calls::watch_of;

// The cell in which the threads count.
const COUNTER: u32 = 6;

// Stores of a value there.
fn stores(value: i64) -> Formula {
    Formula {
        loads: false,
        stores: true,
        thread: None,
        low: COUNTER,
        high: COUNTER,
        value: Some(value),
    }
}

fn access(thread: u8, count: u32, value: u64, store: bool) -> Access {
    Access {
        thread,
        count,
        cell: COUNTER,
        value,
        store,
    }
}

// The access at a count, in a walk that isn't wrong.
fn access_in(
    alloc: Global,
    code: &Code,
    setup: &Setup,
    entries: &List<Entry>,
    walk: &Walk,
    thread: u8,
    count: u32,
) -> Result<Option<Access>, AllocError>
    requires runnable { IsRunnable code.now }
    requires walk { (f : FormulaOf) × WalkIs code.now setup.now entries.now f walk.now }
{
    match walk {
        Walk::Wrong { .. } => Ok(None),
        Walk::Done { .. } => access_at(alloc, code, setup, entries, thread, count),
        Walk::Trapped { .. } => access_at(alloc, code, setup, entries, thread, count),
    }
}

fn check_row(
    rt: &impl Abort,
    alloc: Global,
    code: &Code,
    setup: &Setup,
    entries: &List<Entry>,
) -> Result<(), AllocError>
    requires runnable { IsRunnable code.now }
{
    if entries.len() > 1_000 {
        return Ok(());
    }
    let hits = [
        (
            1,
            Seen::Hit {
                part: 6,
                access: access(1, 4, 1, true),
            },
        ),
        (
            2,
            Seen::Hit {
                part: 10,
                access: access(2, 4, 2, true),
            },
        ),
        (3, Seen::Nowhere),
    ];
    for (value, want) in hits {
        let watch = watch_of(stores(value));
        let found = first_in_walk(alloc, code, setup, entries, &watch)?;
        assert_eq!(rt; found.seen, want);
    }
    let watch = watch_of(stores(1));
    let found = first_in_walk(alloc, code, setup, entries, &watch)?;
    let accesses = [
        (1, 3, Some(access(1, 3, 0, false))),
        (1, 4, Some(access(1, 4, 1, true))),
        (1, 6, None),
        (2, 3, Some(access(2, 3, 1, false))),
        (0, 13, Some(access(0, 13, 2, false))),
        (0, 14, None),
        (3, 0, None),
    ];
    for (thread, count, want) in accesses {
        let found = access_in(alloc, code, setup, entries, &found.walk, thread, count)?;
        assert_eq!(rt; found, want);
    }
    Ok(())
}

#[test]
fn sees_accesses(rt: HostRuntime) -> Result<(), Fail> {
    let alloc = rt.alloc();
    let code = block_code(alloc)?;
    let mut rows: Vec<Row> = Vec::new(alloc);
    for part in [
        &STARTS[..],
        &FIRST_COUNTS,
        &SECOND_COUNTS,
        &JOINS_AND_PRINTS,
    ] {
        rows.extend_from_slice(part)?;
    }
    let entries = entries_of(alloc, &rows)?;
    let setup = Setup::new(3, 16_384, 16_777_216, Bytes::new(alloc));
    assert_eq!(rt; is_valid(&code), true);
    if is_valid(&code) {
        check_row(&rt, alloc, &code, &setup, &entries)?;
    }
    Ok(())
}

use crate::Remains;
use crate::whole::from_remains;
use core_run::Walk;
use rr_base::{Bytes, List, Trap};
use std::alloc::Global;
use std::test::Fail;
use sync_objects::{Entry, ObjId, OpName};
use thread_interpreter::{Ending, Formula};

const NONE: Formula = Formula {
    loads: false,
    stores: false,
    thread: None,
    low: 1,
    high: 0,
    value: None,
};

// The threads of a log's entries that print, the pieces of each thread, and all bytes.
type Row = (
    &'static [u8],
    &'static [&'static [&'static [u8]]],
    &'static [u8],
);

static PRINTS: [Row; 4] = [
    (&[], &[], b""),
    (&[0, 0], &[&[b"a", b"b"]], b"ab"),
    (
        &[1, 0, 1],
        &[&[b"in"], &[b"turn ", b" by turn"]],
        b"turn in by turn",
    ),
    (&[2, 0], &[&[b""], &[], &[b"c"]], b"c"),
];

fn entries_of(alloc: Global, threads: &[u8]) -> Result<List<Entry>, Fail> {
    let mut entries = List::new(alloc);
    for thread in threads {
        for op in [OpName::Print, OpName::Leave] {
            entries.push(Entry {
                thread: *thread,
                count: 0,
                op,
                obj: ObjId::Output,
            })?;
        }
    }
    Ok(entries)
}

fn remains_of(alloc: Global, lists: &[&[&[u8]]]) -> Result<Vec<Remains>, Fail> {
    let mut all = Vec::new(alloc);
    for list in lists {
        let mut pieces = List::new(alloc);
        for piece in *list {
            pieces.push(Bytes::from_slice(alloc, *piece)?)?;
        }
        all.push(Remains {
            pieces,
            ending: Some(Ending::Ended),
            trap: None,
            formula: NONE,
            reads: List::new(alloc),
        })?;
    }
    Ok(all)
}

fn prints(walk: &Walk, bytes: &[u8]) -> bool {
    match walk {
        Walk::Done { out, .. } => out.as_slice() == bytes,
        _ => false,
    }
}

#[test]
fn prints_in_the_order_of_the_entries(rt: HostRuntime) -> Result<(), Fail> {
    let alloc = rt.alloc();
    for (threads, lists, bytes) in &PRINTS {
        let entries = entries_of(alloc, *threads)?;
        let remains = remains_of(alloc, *lists)?;
        assert!(&rt; remains.len() <= 16);
        let walk = from_remains(alloc, &entries, &remains)?;
        assert!(&rt; prints(&walk, *bytes));
    }
    Ok(())
}

#[test]
fn tells_the_lowest_thread_that_has_trapped(rt: HostRuntime) -> Result<(), Fail> {
    let alloc = rt.alloc();
    let mut remains = remains_of(alloc, &[&[], &[], &[]])?;
    assert_eq!(&rt; remains.len(), 3);
    remains[1].trap = Some((Trap::DivideByZero, 7));
    remains[2].trap = Some((Trap::DivideByZero, 3));
    let walk = from_remains(alloc, &List::new(alloc), &remains)?;
    assert!(&rt;
        matches!(
            walk,
            Walk::Trapped {
                thread: 1,
                line: 7,
                ..
            }
        )
    );
    Ok(())
}

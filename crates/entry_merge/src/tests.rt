use crate::merge;
use rr_base::List;
use std::alloc::Global;
use std::process::Abort;
use std::test::Fail;
use sync_objects::{Entry, Noted, ObjId, OpName};

const M: ObjId = ObjId::Mutex(16);

const N: ObjId = ObjId::Mutex(17);

// An entry: its thread and count, its operation and object, and the operation's number.
type Row = (u8, u32, OpName, ObjId, u32);

// The entries of each thread, and their merge: which thread each entry is of.
static MERGES: [(&[&[Row]], &[(u8, u32)]); 5] = [
    (&[], &[]),
    (&[&[], &[]], &[]),
    // Thread 1 had the lock first.
    (
        &[
            &[(0, 3, OpName::Lock, M, 2), (0, 5, OpName::Unlock, M, 3)],
            &[(1, 1, OpName::Lock, M, 0), (1, 2, OpName::Unlock, M, 1)],
        ],
        &[(1, 1), (1, 2), (0, 3), (0, 5)],
    ),
    // Two locks: the lowest thread goes on as long as it can.
    (
        &[
            &[
                (0, 1, OpName::Lock, M, 0),
                (0, 2, OpName::Lock, N, 2),
                (0, 3, OpName::Unlock, M, 1),
            ],
            &[
                (1, 1, OpName::Lock, N, 0),
                (1, 2, OpName::Unlock, N, 1),
                (1, 3, OpName::Lock, M, 2),
            ],
        ],
        &[(0, 1), (1, 1), (1, 2), (0, 2), (0, 3), (1, 3)],
    ),
    // No lists of a run: each thread waits for the other.
    (
        &[
            &[(0, 1, OpName::Lock, M, 1), (0, 2, OpName::Lock, N, 0)],
            &[(1, 1, OpName::Lock, N, 1), (1, 2, OpName::Lock, M, 0)],
        ],
        &[],
    ),
];

fn list_of(alloc: Global, rows: &[Row]) -> Result<List<Noted>, Fail> {
    let mut list = List::new(alloc);
    for row in rows {
        let (thread, count, op, obj, number) = *row;
        let entry = Entry {
            thread,
            count,
            op,
            obj,
        };
        list.push(Noted { entry, number })?;
    }
    Ok(list)
}

fn check(rt: &impl Abort, alloc: Global, lists: &[&[Row]], want: &[(u8, u32)]) -> Result<(), Fail> {
    let mut given = List::new(alloc);
    for rows in lists {
        given.push(list_of(alloc, rows)?)?;
    }
    let merged = merge(alloc, given.as_slice())?;
    let mut got = List::new(alloc);
    for entry in merged.as_slice() {
        got.push((entry.thread, entry.count))?;
    }
    assert_eq!(rt; got.as_slice(), want);
    Ok(())
}

#[test]
fn merges_by_numbers_and_threads(rt: HostRuntime) -> Result<(), Fail> {
    for (lists, want) in MERGES {
        check(&rt, rt.alloc(), lists, want)?;
    }
    Ok(())
}

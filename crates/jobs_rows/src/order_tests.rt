use crate::checks::check_in;
use crate::record_tests::same_log;
use rr_base::MemShelf;
use samples::bank::{BANK, BANK_LOG, CHANGES};
use samples::logs::{RECORDED, SLOTS_3};
use samples::outside::{Outside, SOUND};
use samples::shelves::{REPLAY, bank_files, files_of, with_source};
use samples::sources::{COUNTER, HALVES, HELD_BY_CALLER, ONE_LINE};
use std::alloc::Global;
use std::process::Abort;
use std::sync::Wait;
use std::test::Fail;
use std::thread::Threads;
use std::time::Clock;

const SLOTS_3_NO_PAIRS: &str =
    "chimera log 2\nslots 3\ncells 16384\nlimit 16777216\nprofile 0\ninput 0\n\n";

// Thread 2's refused take makes thread 1 give its stripe up, and take it again.
const REVOKED: &str =
    "0 1 draw T\n0 4 start s1\n0 5 draw T\n0 8 start s2\n1 0 begin s1\n1 3 take w0.0\n1 4 revoke w0.0\n2 0 begin s2\n2 3 lock m6\n2 5 take w0.0\n2 6 give w0.0\n2 6 unlock m6\n1 4 lock m6\n1 5 unlock m6\n1 6 retake w0.0\n1 6 give w0.0\n1 7 end s1\n0 10 join s1\n1 8 leave T\n2 8 end s2\n0 12 join s2\n0 13 halt H\n2 9 leave T\n";

// Each thread takes the stripes of its half of an array together, and gives them together.
const TOGETHER: &str =
    "0 1 draw T\n0 4 start s1\n0 5 draw T\n0 8 start s2\n1 0 begin s1\n1 3 take w0.0-3\n1 12 give w0.0-3\n1 13 end s1\n0 10 join s1\n1 14 leave T\n2 0 begin s2\n2 3 take w0.4-7\n2 12 give w0.4-7\n2 13 end s2\n0 12 join s2\n0 13 halt H\n2 14 leave T\n";

// Words, a source, the order of turns, what is told, and the log where it is pinned.
static RECORDS: [(&[&str], &str, &[(u8, usize)], &str, &[&str]); 6] = [
    (
        &["record", "a", "l", "--slots", "3"],
        COUNTER,
        &[(0, 9), (1, 6), (2, 6)],
        "1\n",
        &[],
    ),
    (
        &["record", "a", "l", "--slots", "3"],
        COUNTER,
        &[(0, 9), (1, 12), (2, 12)],
        "2\n",
        &[],
    ),
    (
        &["record", "a", "l", "--slots=3", "--budget=1", "--profile=b"],
        HELD_BY_CALLER,
        &[(0, 9), (2, 4), (1, 5), (2, 2), (1, 1), (2, 4), (1, 7)],
        "",
        &[SLOTS_3_NO_PAIRS, REVOKED],
    ),
    // Thread 1 takes the stripe in its fourth turn and loads in its fifth, and then thread 2 wants it: in its sixth turn thread 1
    // has held it for two turns, so with that budget it gives up the stripe between its load and its store.
    (
        &["record", "a", "l", "--slots=3", "--budget=2"],
        ONE_LINE,
        &[(0, 9), (1, 5), (2, 4), (1, 1), (2, 20), (1, 20)],
        "1\n",
        &[],
    ),
    // With a greater one it stores first.
    (
        &["record", "a", "l", "--slots=3", "--budget=3"],
        ONE_LINE,
        &[(0, 9), (1, 5), (2, 4), (1, 1), (2, 20), (1, 20)],
        "2\n",
        &[],
    ),
    (
        &["record", "a", "l", "--slots", "3"],
        HALVES,
        &[(0, 9), (1, 14)],
        "",
        &[RECORDED, SLOTS_3, TOGETHER],
    ),
];

// Each order of turns tells the same.
fn check_orders(
    rt: &(impl Abort + Threads + Wait + Clock + Sync),
    alloc: Global,
    words: &[&str],
    orders: &[&[(u8, usize)]],
    shelf: &mut MemShelf,
    want: (&str, u8),
) -> Result<(), Fail> {
    for &order in orders {
        let outside = Outside { order, ..SOUND };
        check_in(rt, alloc, words, &outside, shelf, want)?;
    }
    Ok(())
}

fn check_record(
    rt: &(impl Abort + Threads + Wait + Clock + Sync),
    alloc: Global,
    row: (&[&str], &str, &[(u8, usize)], &str, &[&str]),
) -> Result<(), Fail> {
    let (words, source, order, text, log) = row;
    let mut shelf = with_source(alloc, &[source])?;
    check_orders(rt, alloc, words, &[order], &mut shelf, (text, 0))?;
    same_log(rt, alloc, &shelf, log)?;
    let replay = ["replay", "a", "l"];
    check_orders(rt, alloc, &replay, &ORDERS, &mut shelf, (text, 0))
}

// A run shows the order of its turns, and its log is replayed the same by any order.
#[test]
fn records_by_orders(rt: HostRuntime) -> Result<(), Fail> {
    for row in RECORDS {
        check_record(&rt, rt.alloc(), row)?;
    }
    Ok(())
}

// Turns of thread 2 first, of thread 1 first, and of each in turn.
pub static ORDERS: [&[(u8, usize)]; 3] = [&[(2, 20)], &[(1, 20)], &[]];

// Which thread's turns come first, with how many each.
static TWENTY: [&[(u8, usize)]; 20] = [
    &[],
    &[(0, 20)],
    &[(1, 20)],
    &[(2, 20)],
    &[(7, 20)],
    &[(1, 1), (2, 1)],
    &[(2, 1), (1, 1)],
    &[(0, 4), (2, 20)],
    &[(0, 4), (1, 20)],
    &[(0, 9), (1, 3), (2, 20)],
    &[(0, 9), (1, 4), (2, 20)],
    &[(0, 9), (1, 5), (2, 20)],
    &[(0, 9), (1, 9), (2, 20)],
    &[(0, 9), (2, 3), (1, 20)],
    &[(0, 9), (2, 9), (1, 1), (0, 20)],
    &[(0, 9), (2, 1), (1, 1), (2, 1), (1, 1), (2, 1), (1, 1)],
    &[(7, 1), (6, 1), (5, 1), (4, 1), (3, 1), (2, 9), (1, 9)],
    &[(2, 9), (1, 9), (0, 20), (2, 9), (1, 9)],
    &[(0, 9), (1, 20), (0, 20), (2, 20)],
    &[
        (0, 1),
        (1, 1),
        (0, 1),
        (2, 1),
        (0, 7),
        (1, 3),
        (2, 3),
        (7, 2),
    ],
];

fn check_change(
    rt: &(impl Abort + Threads + Wait + Clock + Sync),
    alloc: Global,
    entries: &[&str],
    want: (&str, u8),
) -> Result<(), Fail> {
    let mut shelf = bank_files(alloc, entries)?;
    check_orders(rt, alloc, &REPLAY, &TWENTY, &mut shelf, want)
}

#[test]
fn names_the_first_wrong_entry_by_any_order(rt: HostRuntime) -> Result<(), Fail> {
    for &(entries, text, status) in &CHANGES {
        check_change(&rt, rt.alloc(), entries, (text, status))?;
    }
    Ok(())
}

// No log `l` stands there before.
fn check_turns(
    rt: &(impl Abort + Threads + Wait + Clock + Sync),
    alloc: Global,
    turns: u64,
    shelf: &mut MemShelf,
    want: (&str, u8),
) -> Result<(), Fail> {
    assert!(rt; shelf.content("l").is_none());
    let outside = Outside { turns, ..SOUND };
    check_in(rt, alloc, &REPLAY, &outside, shelf, want)?;
    check_in(rt, alloc, &["record", "a", "l"], &outside, shelf, want)
}

// A crew with fewer turns than the log has entries, and one with enough of them.
#[test]
fn tells_when_the_turns_end(rt: HostRuntime) -> Result<(), Fail> {
    let alloc = rt.alloc();
    let mut shelf = files_of(alloc, &[BANK], BANK_LOG)?;
    check_turns(&rt, alloc, 24, &mut shelf, ("crew fault\n", 10))?;
    check_turns(&rt, alloc, 1000, &mut shelf, ("20\n", 0))?;
    let words = ["replay", "a", "l"];
    check_in(&rt, alloc, &words, &SOUND, &mut shelf, ("20\n", 0))
}

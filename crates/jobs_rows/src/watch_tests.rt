use crate::checks::{check_log_ends, check_on_log};
use crate::walked::{CATALOGUE, CATALOGUE_LOG, LOST, TRAPS};
use samples::logs::{FIRST, SLOTS_3};
use samples::sources::{COUNTER, HELD};
use std::test::Fail;

// What is asked of the accesses of the catalogue, and what is told.
static CATALOGUE_ROWS: [(&str, &str, u8); 21] = [
    ("load", "hit 8 1 1 load 2 0\n", 0),
    ("store", "hit 2 0 3 store 2 0\n", 0),
    ("any", "hit 2 0 3 store 2 0\n", 0),
    ("store,cell=13-13", "hit 55 3 34 store 13 1\n", 0),
    ("load,thread=2", "hit 17 2 1 load 4 0\n", 0),
    ("load,thread=2,cell=12-14", "hit 39 2 14 load 12 1\n", 0),
    ("store,value=10", "hit 28 1 17 store 16403 10\n", 0),
    ("any,value=-1", "no hit\n", 0),
    ("store,thread=1,cell=4194303-4194303", "no hit\n", 0),
    ("load,thread=15", "no hit\n", 0),
    ("any,thread=3,cell=0-16000,value=20", "no hit\n", 0),
    ("store,cell=6", "usage\n", 1),
    ("load,", "usage\n", 1),
    ("value=3", "usage\n", 1),
    ("load,thread=16", "usage\n", 1),
    ("store,cell=3-2", "usage\n", 1),
    ("any,value=-0", "usage\n", 1),
    ("any,value=9223372036854775808", "usage\n", 1),
    ("any,value=-9223372036854775808", "no hit\n", 0),
    ("Load", "usage\n", 1),
    ("load,value=1,thread=1", "usage\n", 1),
];

// A source, a log, what is asked of its accesses, and what is told.
static ROWS: [(&str, &[&str], &str, &str, u8); 8] = [
    (
        COUNTER,
        LOST,
        "store,cell=6-6,value=1",
        "hit 11 1 4 store 6 1\n",
        0,
    ),
    (COUNTER, LOST, "store,cell=6-6,value=2", "no hit\n", 0),
    (COUNTER, LOST, "store,cell=6", "usage\n", 1),
    // The last thread's accesses are after the first one's.
    (
        COUNTER,
        LOST,
        "store,thread=2,cell=6-6",
        "hit 16 2 4 store 6 1\n",
        0,
    ),
    // The walk ends with a trap.
    (
        HELD,
        TRAPS,
        "load,thread=1,value=1",
        "hit 5 1 3 load 5 1\ntrap 2 thread 1 line 5\n",
        3,
    ),
    (
        HELD,
        TRAPS,
        "any,value=77",
        "no hit\ntrap 2 thread 1 line 5\n",
        3,
    ),
    // The second entry is wrong.
    (
        COUNTER,
        &[FIRST, SLOTS_3, "0 1 draw T\n0 3 start s1\n"],
        "any",
        "wrong entry 1\n",
        5,
    ),
    ("int x int y;", LOST, "any", "source refused 7 1 7\n", 2),
];

#[test]
fn finds_first_accesses(rt: HostRuntime) -> Result<(), Fail> {
    let alloc = rt.alloc();
    for &(source, log, predicate, text, status) in &ROWS {
        let words = ["watch", "a", "b", predicate];
        check_on_log(&rt, alloc, &words, source, log, (text, status))?;
    }
    for &(predicate, text, status) in &CATALOGUE_ROWS {
        let words = ["watch", "a", "b", predicate];
        let want = (text, status);
        check_on_log(&rt, alloc, &words, CATALOGUE, &[CATALOGUE_LOG], want)?;
    }
    let words = ["watch", "a", "b", "any"];
    check_log_ends(
        &rt,
        alloc,
        &words,
        &["watch", "a", "c", "any"],
        COUNTER,
        LOST,
    )
}

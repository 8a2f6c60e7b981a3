use crate::checks::{check_log_ends, check_on_log};
use crate::walked::{CATALOGUE, CATALOGUE_LOG, LOST, TRAPS};
use samples::logs::{FIRST, SLOTS_3};
use samples::sources::{COUNTER, HELD};
use samples::weak_runs::STARTS;
use std::alloc::Global;
use std::process::Abort;
use std::sync::Wait;
use std::test::Fail;
use std::thread::Threads;
use std::time::Clock;

// Which events of the catalogue's run are asked for, and what is told of their order.
static CATALOGUE_ROWS: [(&str, &str, &str, u8); 26] = [
    ("1.21", "2.25", "no conflict\n", 0),
    ("2.25", "1.21", "no conflict\n", 0),
    ("3.19", "2.18", "order 3.19 2.18\npass 37 38\npasses 1\n", 0),
    ("2.18", "3.19", "order 3.19 2.18\npass 37 38\npasses 1\n", 0),
    ("2.19", "3.18", "order 3.18 2.19\npass 37 38\npasses 1\n", 0),
    ("1.5", "3.8", "order 1.5 3.8\npass 13 16\npasses 1\n", 0),
    ("1.6", "2.8", "no conflict\n", 0),
    ("0.20", "1.21", "no conflict\n", 0),
    ("3.14", "2.15", "order 3.14 2.15\npass 33 38\npasses 1\n", 0),
    ("3.14", "0.22", "no conflict\n", 0),
    ("2.53", "3.54", "order 2.53 3.54\npass 78 89\npasses 1\n", 0),
    ("1.20", "1.21", "no conflict\n", 0),
    ("2.5", "2.5", "no conflict\n", 0),
    ("16.1", "1.1", "usage\n", 1),
    ("1.67108866", "1.2", "usage\n", 1),
    ("1.67108865", "1.2", "no conflict\n", 0),
    ("1", "1.2", "usage\n", 1),
    ("1.02", "1.2", "usage\n", 1),
    ("2.60", "3.18", "order 3.18 2.60\npass 37 38\npasses 1\n", 0),
    ("2.37", "3.60", "order 2.37 3.60\npass 60 72\npasses 1\n", 0),
    ("3.24", "1.10", "order 1.10 3.24\npass 13 16\npasses 1\n", 0),
    ("2.19", "3.59", "order 2.19 3.59\npass 43 54\npasses 1\n", 0),
    (
        "2.15",
        "0.25",
        "order 2.15 0.25\npass 51 52\npass 86 87\npasses 2\n",
        0,
    ),
    ("2.38", "3.38", "order 2.38 3.38\npass 60 72\npasses 1\n", 0),
    (
        "0.25",
        "3.32",
        "order 3.32 0.25\npass 55 56\npass 65 68\npass 86 87\npasses 3\n",
        0,
    ),
    ("3.46", "1.20", "order 1.20 3.46\npass 53 75\npasses 1\n", 0),
];

// A source, a log, which events are asked for, and what is told of their order.
static ROWS: [(&str, &[&str], [&str; 2], &str, u8); 12] = [
    (
        COUNTER,
        LOST,
        ["2.4", "1.4"],
        "order 1.4 2.4\npass 11 15\npasses 1\n",
        0,
    ),
    (
        COUNTER,
        LOST,
        ["1.4", "0.13"],
        "order 1.4 0.13\npass 12 13\npasses 1\n",
        0,
    ),
    // Two loads.
    (COUNTER, LOST, ["1.3", "2.3"], "no conflict\n", 0),
    // One thread.
    (COUNTER, LOST, ["1.3", "1.4"], "no conflict\n", 0),
    // A thread enters its function there.
    (COUNTER, LOST, ["1.2", "2.4"], "no conflict\n", 0),
    // The thread has ended before.
    (COUNTER, LOST, ["1.60", "2.4"], "no conflict\n", 0),
    (COUNTER, LOST, ["2.4", "16.4"], "usage\n", 1),
    // The walk ends with a trap. The thread loads the argument that `main` has stored for it.
    (
        HELD,
        TRAPS,
        ["1.1", "0.3"],
        "order 0.3 1.1\npass 2 3\npasses 1\ntrap 2 thread 1 line 5\n",
        3,
    ),
    (
        HELD,
        TRAPS,
        ["1.3", "0.3"],
        "no conflict\ntrap 2 thread 1 line 5\n",
        3,
    ),
    // The second entry is wrong.
    (
        COUNTER,
        &[FIRST, SLOTS_3, "0 1 draw T\n0 3 start s1\n"],
        ["1.4", "2.4"],
        "wrong entry 1\n",
        5,
    ),
    // All entries have a walk, and threads are left.
    (
        COUNTER,
        &[FIRST, SLOTS_3, STARTS],
        ["1.4", "2.4"],
        "wrong entry 5\n",
        5,
    ),
    (
        "int x int y;",
        LOST,
        ["1.4", "2.4"],
        "source refused 7 1 7\n",
        2,
    ),
];

fn check_chain(
    rt: &(impl Abort + Threads + Wait + Clock + Sync),
    alloc: Global,
    source: &str,
    log: &[&str],
    events: [&str; 2],
    want: (&str, u8),
) -> Result<(), Fail> {
    let [one, other] = events;
    check_on_log(
        rt,
        alloc,
        &["chain", "a", "b", one, other],
        source,
        log,
        want,
    )
}

#[test]
fn tells_what_orders_accesses(rt: HostRuntime) -> Result<(), Fail> {
    for &(source, log, events, text, status) in &ROWS {
        check_chain(&rt, rt.alloc(), source, log, events, (text, status))?;
    }
    let words = ["chain", "a", "b", "1.4", "2.4"];
    let missing = ["chain", "a", "c", "1.4", "2.4"];
    check_log_ends(&rt, rt.alloc(), &words, &missing, COUNTER, LOST)
}

#[test]
fn orders_accesses_under_read_write_locks(rt: HostRuntime) -> Result<(), Fail> {
    for &(one, other, text, status) in &CATALOGUE_ROWS {
        let events = [one, other];
        let want = (text, status);
        check_chain(&rt, rt.alloc(), CATALOGUE, &[CATALOGUE_LOG], events, want)?;
    }
    Ok(())
}

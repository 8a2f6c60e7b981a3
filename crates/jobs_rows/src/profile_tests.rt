use crate::checks::{check_in, holds_bytes, holds_parts};
use rr_base::{List, MemShelf};
use samples::bank::BANK;
use samples::logs::{FIRST, IDLE, SLOTS_1, SLOTS_2, SLOTS_3, SLOTS_8};
use samples::outside::{Outside, SOUND};
use samples::shelves::{files_of, push_file};
use samples::sources::{COUNTER, HELD, HELD_BY_CALLER, MISUSE};
use samples::{bank, weak_runs};
use std::alloc::{AllocError, Global};
use std::process::Abort;
use std::sync::Wait;
use std::test::Fail;
use std::thread::Threads;
use std::time::Clock;

// A byte is printed before the only thread traps.
const PRINTS: &str = "#include <stdio.h>
#include <pthread.h>
pthread_mutex_t m;
int main(void) { putchar('a'); pthread_mutex_unlock(&m); return 0; }
";

const HELD_LOG: &str =
    "0 1 lock m4\n0 2 draw T\n0 5 start s1\n1 0 begin s1\n1 3 take w0.0\n1 4 trap H\n0 7 stop H\n";

const BOTH_AND_MAIN: &str = "{\"pairs\":[[\"f\",\"main\"]]}";

// A source, a log, what is told, the status, and the profile that is put.
static PROFILES: [(&str, &[&str], &str, u8, Option<&str>); 11] = [
    // The two payments are one after the other.
    (
        BANK,
        &[
            FIRST,
            SLOTS_8,
            bank::STARTS,
            bank::BEGIN,
            bank::LOCK,
            bank::UNLOCK,
            bank::GOES_ON,
            bank::LAST,
        ],
        "",
        0,
        Some("{\"pairs\":[[\"main\",\"pay\"]]}"),
    ),
    // Two threads are in one function.
    (
        COUNTER,
        &[
            FIRST,
            SLOTS_3,
            weak_runs::STARTS,
            weak_runs::LOAD_1,
            weak_runs::BEGIN,
            weak_runs::LOAD_2,
            weak_runs::STORE_1,
            weak_runs::JOIN_1,
            weak_runs::STORE_2,
            weak_runs::END_2,
            weak_runs::PRINT,
        ],
        "",
        0,
        Some("{\"pairs\":[[\"inc\",\"inc\"],[\"inc\",\"main\"]]}"),
    ),
    // The code is that for the log's profile, and a function is on the stack together with those that called it.
    (
        HELD_BY_CALLER,
        &[
            FIRST,
            weak_runs::NO_PAIRS,
            weak_runs::STARTS,
            weak_runs::REVOKED,
        ],
        "",
        0,
        Some(
            "{\"pairs\":[[\"f\",\"g\"],[\"f\",\"h\"],[\"f\",\"main\"],[\"g\",\"main\"],[\"h\",\"main\"]]}",
        ),
    ),
    (
        HELD_BY_CALLER,
        &[FIRST, SLOTS_3, weak_runs::STARTS, weak_runs::REVOKED],
        "wrong entry 12\n",
        5,
        None,
    ),
    // One thread is beside no other.
    (
        MISUSE,
        &[FIRST, SLOTS_1, "0 1 unlock m2\n0 2 trap H\n"],
        "trap 9 thread 0 line 2\n",
        3,
        Some("{\"pairs\":[]}"),
    ),
    (
        PRINTS,
        &[FIRST, SLOTS_1, "0 1 print O\n0 2 unlock m2\n0 3 trap H\n"],
        "trap 9 thread 0 line 4\n",
        3,
        Some("{\"pairs\":[]}"),
    ),
    (
        HELD,
        &[FIRST, SLOTS_2, HELD_LOG],
        "trap 2 thread 1 line 5\n",
        3,
        Some(BOTH_AND_MAIN),
    ),
    (
        BANK,
        &[
            FIRST,
            SLOTS_8,
            bank::STARTS,
            bank::BEGIN,
            bank::UNLOCK,
            bank::LOCK,
            bank::GOES_ON,
            bank::LAST,
        ],
        "wrong entry 5\n",
        5,
        None,
    ),
    // The log stops too early.
    (
        BANK,
        &[
            FIRST,
            SLOTS_8,
            bank::STARTS,
            bank::BEGIN,
            bank::LOCK,
            bank::UNLOCK,
            bank::GOES_ON,
        ],
        "wrong entry 24\n",
        5,
        None,
    ),
    // A log is refused before its source is.
    ("int @", &[FIRST], "log refused 23 2\n", 4, None),
    (
        "int @",
        &[FIRST, SLOTS_8, IDLE],
        "source refused 1 1 5\n",
        2,
        None,
    ),
];

static PROFILE: [&str; 4] = ["profile", "a", "b", "p"];

// Under this name stands this profile, or nothing.
fn holds(rt: &impl Abort, shelf: &MemShelf, name: &str, want: Option<&str>) {
    match want {
        Some(text) => holds_bytes(rt, shelf, name, text.as_bytes()),
        None => assert!(rt; shelf.content(name).is_none(), "{name}"),
    }
}

fn check_profile(
    rt: &(impl Abort + Threads + Wait + Clock + Sync),
    alloc: Global,
    source: &str,
    log: &[&str],
    want: (&str, u8),
    profile: Option<&str>,
) -> Result<(), Fail> {
    let mut shelf = files_of(alloc, &[source], log)?;
    check_in(rt, alloc, &PROFILE, &SOUND, &mut shelf, want)?;
    holds(rt, &shelf, "p", profile);
    holds_bytes(rt, &shelf, "a", source.as_bytes());
    Ok(holds_parts(rt, alloc, &shelf, "b", log)?)
}

#[test]
fn writes_profiles(rt: HostRuntime) -> Result<(), Fail> {
    for &(source, log, text, status, profile) in &PROFILES {
        check_profile(&rt, rt.alloc(), source, log, (text, status), profile)?;
    }
    Ok(())
}

// A shelf of a trapping source and its log, whose calls of these numbers fail.
fn failing(alloc: Global, fails: &[u64]) -> Result<MemShelf, AllocError> {
    let mut files = List::new(alloc);
    push_file(alloc, &mut files, "a", &[HELD])?;
    push_file(alloc, &mut files, "b", &[FIRST, SLOTS_2, HELD_LOG])?;
    Ok(MemShelf::new(files, List::from_slice(alloc, fails)?))
}

// The calls of the shelf and of the sink that fail, what is told, the status, and the profile that is put.
static FAULTS: [(&[u64], &[u64], &str, u8, Option<&str>); 5] = [
    (&[0], &[], "shelf fault\n", 9, None),
    (&[1], &[], "shelf fault\n", 9, None),
    (&[2], &[], "shelf fault\n", 9, None),
    (&[], &[0], "", 8, Some(BOTH_AND_MAIN)),
    (&[], &[4], "trap", 8, Some(BOTH_AND_MAIN)),
];

fn check_fault(
    rt: &(impl Abort + Threads + Wait + Clock + Sync),
    alloc: Global,
    shelf_fails: &[u64],
    write_fails: &[u64],
    want: (&str, u8),
    profile: Option<&str>,
) -> Result<(), Fail> {
    let mut shelf = failing(alloc, shelf_fails)?;
    let outside = Outside {
        write_fails,
        ..SOUND
    };
    check_in(rt, alloc, &PROFILE, &outside, &mut shelf, want)?;
    holds(rt, &shelf, "p", profile);
    Ok(())
}

#[test]
fn tells_faults_of_a_profile(rt: HostRuntime) -> Result<(), Fail> {
    for &(shelf_fails, write_fails, text, status, profile) in &FAULTS {
        let want = (text, status);
        check_fault(&rt, rt.alloc(), shelf_fails, write_fails, want, profile)?;
    }
    Ok(())
}

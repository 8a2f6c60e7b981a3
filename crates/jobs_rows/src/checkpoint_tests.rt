use crate::checks::{check_files, check_in, holds_bytes};
use crate::walked::{CATALOGUE, CATALOGUE_LOG, LOST};
use rr_base::{List, MemShelf};
use samples::bank::{BANK, BANK_LOG, BEGIN, GOES_ON, LAST, LOCK, STARTS, UNLOCK};
use samples::logs::{FIRST, SLOTS_1, SLOTS_2, SLOTS_8};
use samples::outside::SOUND;
use samples::shelves::{files_of, push_file};
use samples::sources::{COUNTER, DIVIDES, HELD_BY_CALLER};
use samples::weak_runs::{NO_PAIRS, REVOKED, STARTS as BOTH_STARTS};
use std::alloc::{AllocError, Global};
use std::process::Abort;
use std::sync::Wait;
use std::test::Fail;
use std::thread::Threads;
use std::time::Clock;

const EMPTY: &str = "int main(void){return 0;}\n";

const HALTS: &[&str] = &[FIRST, SLOTS_1, "0 1 halt H\n"];

// The state before the first entry of it.
const AT_0: &str =
    "chimera checkpoint 1\nat 0\ncells 0\nobjects 0\nthread 0 0 2 0 0 0 0 0 0 begun 0\n";

// A function is called through a pointer.
const POINTS: &str = "#include <stdio.h>
int n;
void a(void) { n = 1; }
void b(void) { putchar('b'); }
int main(void) { void (*p)(void) = a; p(); p = b; p(); return 0; }
";

const POINTS_LOG: &[&str] = &[FIRST, SLOTS_1, "0 6 print O\n0 7 halt H\n"];

// A thread traps while `main` waits for it.
const DIVIDES_LOG: &[&str] = &[
    FIRST,
    SLOTS_2,
    "0 1 lock m4\n0 2 draw T\n0 5 start s1\n1 0 begin s1\n1 3 trap H\n0 7 stop H\n",
];

const LOOKUPS: &str = "6 lookups, 4 misses, 0 read\n";

const CUT: &[&str] = &[FIRST, SLOTS_8, STARTS, BEGIN, LOCK, UNLOCK, GOES_ON];

const SWAPPED: &[&str] = &[FIRST, SLOTS_8, STARTS, BEGIN, UNLOCK, LOCK, GOES_ON, LAST];

// After so many entries of the log a checkpoint is taken, and from there the walk tells this.
fn check_from(
    rt: &(impl Abort + Threads + Wait + Clock + Sync),
    alloc: Global,
    shelf: &mut MemShelf,
    count: &str,
    want: (&str, u8),
) -> Result<(), Fail> {
    check_in(
        rt,
        alloc,
        &["checkpoint", "a", "b", count, "c"],
        &SOUND,
        shelf,
        ("", 0),
    )?;
    let words = ["replay", "a", "b", "--from", "c"];
    check_in(rt, alloc, &words, &SOUND, shelf, want)
}

// A source, a log, after how many entries, and what the rest tells.
static RESTS: [(&str, &[&str], &str, &str, u8); 11] = [
    (BANK, BANK_LOG, "16", "20\n", 0),
    (BANK, BANK_LOG, "17", "", 0),
    (BANK, BANK_LOG, "25", "", 0),
    (DIVIDES, DIVIDES_LOG, "5", "trap 1 thread 1 line 5\n", 3),
    (CATALOGUE, &[CATALOGUE_LOG], "17", LOOKUPS, 0),
    (CATALOGUE, &[CATALOGUE_LOG], "60", LOOKUPS, 0),
    (CATALOGUE, &[CATALOGUE_LOG], "104", LOOKUPS, 0),
    (CATALOGUE, &[CATALOGUE_LOG], "105", "", 0),
    (BANK, CUT, "10", "wrong entry 24\n", 5),
    (BANK, CUT, "24", "wrong entry 24\n", 5),
    (BANK, SWAPPED, "5", "wrong entry 5\n", 5),
];

#[test]
fn goes_on_from_checkpoints(rt: HostRuntime) -> Result<(), Fail> {
    for &(source, log, count, text, status) in &RESTS {
        let mut shelf = files_of(rt.alloc(), &[source], log)?;
        check_from(&rt, rt.alloc(), &mut shelf, count, (text, status))?;
    }
    Ok(())
}

// A source, a log, how many entries it has, the last one from which this is told, what is told in any case, and the status.
static EACH: [(&str, &[&str], u32, u32, &str, &str, u8); 5] = [
    (BANK, BANK_LOG, 25, 16, "20\n", "", 0),
    (COUNTER, LOST, 24, 21, "1\n", "", 0),
    (
        HELD_BY_CALLER,
        &[FIRST, NO_PAIRS, BOTH_STARTS, REVOKED],
        23,
        0,
        "",
        "",
        0,
    ),
    (
        DIVIDES,
        DIVIDES_LOG,
        6,
        0,
        "trap 1 thread 1 line 5\n",
        "trap 1 thread 1 line 5\n",
        3,
    ),
    (POINTS, POINTS_LOG, 2, 0, "b", "", 0),
];

fn check_each(
    rt: &(impl Abort + Threads + Wait + Clock + Sync),
    alloc: Global,
    row: &(&str, &[&str], u32, u32, &str, &str, u8),
) -> Result<(), Fail> {
    let &(source, log, entries, last, text, after, status) = row;
    let mut shelf = files_of(alloc, &[source], log)?;
    for count in 0..=entries {
        let told = if count <= last { text } else { after };
        let count = format!(in alloc; "{count}")?;
        check_from(rt, alloc, &mut shelf, count.as_str(), (told, status))?;
    }
    Ok(())
}

#[test]
fn goes_on_from_each_entry(rt: HostRuntime) -> Result<(), Fail> {
    for row in &EACH {
        check_each(&rt, rt.alloc(), row)?;
    }
    Ok(())
}

// A source, a log, after how many entries, what is told, the status, and the checkpoint that is put.
static TAKEN: [(&str, &[&str], &str, &str, u8, Option<&str>); 9] = [
    (EMPTY, HALTS, "0", "", 0, Some(AT_0)),
    (EMPTY, HALTS, "2", "wrong entry 1\n", 5, None),
    (BANK, BANK_LOG, "26", "wrong entry 25\n", 5, None),
    (BANK, BANK_LOG, "16777312", "wrong entry 25\n", 5, None),
    (BANK, BANK_LOG, "16777313", "usage\n", 1, None),
    (BANK, SWAPPED, "6", "wrong entry 5\n", 5, None),
    (BANK, SWAPPED, "26", "wrong entry 5\n", 5, None),
    // A log is refused before its source is.
    ("int @", &[FIRST], "0", "log refused 23 2\n", 4, None),
    ("int @", HALTS, "0", "source refused 1 1 5\n", 2, None),
];

fn holds(rt: &impl Abort, shelf: &MemShelf, name: &str, want: Option<&str>) {
    match want {
        Some(text) => holds_bytes(rt, shelf, name, text.as_bytes()),
        None => assert!(rt; shelf.content(name).is_none(), "{name}"),
    }
}

#[test]
fn takes_checkpoints(rt: HostRuntime) -> Result<(), Fail> {
    let alloc = rt.alloc();
    for &(source, log, count, text, status, file) in &TAKEN {
        let mut shelf = files_of(alloc, &[source], log)?;
        let words = ["checkpoint", "a", "b", count, "c"];
        check_in(&rt, alloc, &words, &SOUND, &mut shelf, (text, status))?;
        holds(&rt, &shelf, "c", file);
    }
    Ok(())
}

// A shelf of a source, a log and a checkpoint.
fn three_files(
    alloc: Global,
    source: &str,
    log: &[&str],
    checkpoint: &str,
) -> Result<MemShelf, AllocError> {
    let mut files = List::new(alloc);
    push_file(alloc, &mut files, "a", &[source])?;
    push_file(alloc, &mut files, "b", log)?;
    push_file(alloc, &mut files, "c", &[checkpoint])?;
    Ok(MemShelf::new(files, List::new(alloc)))
}

// A source, a checkpoint, what is told, and the status.
static REFUSED: [(&str, &str, &str, u8); 8] = [
    (EMPTY, AT_0, "", 0),
    (
        EMPTY,
        "chimera checkpoint 1\nat 2\ncells 0\nobjects 0\nthread 0 0 2 0 0 0 0 0 0 begun 0\n",
        "checkpoint refused 26 2\n",
        13,
    ),
    (
        EMPTY,
        "chimera checkpoint 1\nat 0\ncells 0\nobjects 0\n",
        "checkpoint refused 25 5\n",
        13,
    ),
    (EMPTY, "", "checkpoint refused 25 1\n", 13),
    (
        EMPTY,
        "chimera checkpoint 1\nat 0\ncells 1\n2 0\nobjects 0\nthread 0 0 2 0 0 0 0 0 0 begun 0\n",
        "checkpoint refused 26 4\n",
        13,
    ),
    (
        EMPTY,
        "chimera checkpoint 1\nat 0\ncells 1\n2 -0\nobjects 0\nthread 0 0 2 0 0 0 0 0 0 begun 0\n",
        "checkpoint refused 25 4\n",
        13,
    ),
    (
        EMPTY,
        "chimera checkpoint 1\nat 0\ncells 0\nobjects 0\nthread 0 0 2 0 0 0 0 0 0 fresh\n",
        "checkpoint refused 26 5\n",
        13,
    ),
    // A source is refused before a checkpoint is.
    ("int @", "", "source refused 1 1 5\n", 2),
];

#[test]
fn refuses_checkpoints(rt: HostRuntime) -> Result<(), Fail> {
    let alloc = rt.alloc();
    let words = ["replay", "a", "b", "--from", "c"];
    for &(source, checkpoint, text, status) in &REFUSED {
        let mut shelf = three_files(alloc, source, HALTS, checkpoint)?;
        check_in(&rt, alloc, &words, &SOUND, &mut shelf, (text, status))?;
    }
    Ok(())
}

const STORES: &str = "int x;\nint *p = &x;\nint main(void) { *p = 1; return 0; }\n";

// What the cell of `p` holds, what is told, and the status: a pointer to `x`, and one to a cell that the setup doesn't have.
static POINTERS: [(&str, &str, u8); 2] = [
    ("18014407099482112", "", 0),
    ("35194267693547520", "checkpoint refused 27 0\n", 13),
];

#[test]
fn comes_to_no_cell_outside(rt: HostRuntime) -> Result<(), Fail> {
    let alloc = rt.alloc();
    let log = [FIRST, SLOTS_1, "0 3 halt H\n"];
    let words = ["replay", "a", "b", "--from", "c"];
    for &(word, text, status) in &POINTERS {
        let checkpoint = format!(in alloc;
            "chimera checkpoint 1\nat 0\ncells 1\n3 {word}\nobjects 0\nthread 0 0 4 0 0 0 0 0 0 begun 0\n"
        )?;
        let mut shelf = three_files(alloc, STORES, &log, checkpoint.as_str())?;
        check_in(&rt, alloc, &words, &SOUND, &mut shelf, (text, status))?;
    }
    Ok(())
}

// A checkpoint that is missing is told before the source is refused, but after the log is.
#[test]
fn misses_a_checkpoint(rt: HostRuntime) -> Result<(), Fail> {
    let alloc = rt.alloc();
    let words = ["replay", "a", "b", "--from", "c"];
    check_files(&rt, alloc, &words, &["int @"], HALTS, ("shelf fault\n", 9))?;
    let refused = ("log refused 23 2\n", 4);
    check_files(&rt, alloc, &words, &["int @"], &[FIRST], refused)?;
    let with_reads = ["replay", "a", "b", "--from", "c", "--reads", "r"];
    check_files(&rt, alloc, &with_reads, &[EMPTY], HALTS, ("usage\n", 1))
}

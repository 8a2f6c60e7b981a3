use crate::checks::{check, check_in, check_on, holds_bytes};
use crate::tired_crew::TiredCrew;
use rr_base::{List, MemShelf};
use samples::outside::{Outside, SOUND, crew_of};
use samples::shelves::shelf_of;
use std::alloc::Global;
use std::process::Abort;
use std::sync::Wait;
use std::test::Fail;
use std::thread::Threads;
use std::time::Clock;
use workload::program_of;

fn holds_source(rt: &impl Abort, alloc: Global, shelf: &MemShelf) -> Result<(), Fail> {
    let want = program_of(alloc, 1)?;
    holds_bytes(rt, shelf, "n.c", want.as_slice());
    Ok(())
}

// What is made is told, and its log is told once more.
#[test]
fn makes_a_source(rt: HostRuntime) -> Result<(), Fail> {
    let alloc = rt.alloc();
    let mut shelf = MemShelf::new(List::new(alloc), List::new(alloc));
    let made = ("made 1 bytes 496 slots 8\n112\n112\n", 0);
    check(&rt, alloc, &["make", "1", "n.c"], &[], &mut shelf, made)?;
    holds_source(&rt, alloc, &shelf)?;
    let replay = ["replay", "n.c", "n.c.log"];
    check(&rt, alloc, &replay, &[], &mut shelf, ("112\n", 0))
}

// Words that are no job.
static NO_MAKES: [&[&str]; 4] = [
    &["make", "0", "a"],
    &["make", "1001", "a"],
    &["make", "01", "a"],
    &["make", "1", "a", "b"],
];

// File `a` stays empty.
fn check_no_make(
    rt: &(impl Abort + Threads + Wait + Clock + Sync),
    alloc: Global,
    words: &[&str],
) -> Result<(), Fail> {
    let mut shelf = shelf_of(alloc, &[], &[])?;
    check(rt, alloc, words, &[], &mut shelf, ("usage\n", 1))?;
    holds_bytes(rt, &shelf, "a", &[]);
    Ok(())
}

#[test]
fn makes_none_of_other_sizes(rt: HostRuntime) -> Result<(), Fail> {
    for words in &NO_MAKES {
        check_no_make(&rt, rt.alloc(), words)?;
    }
    Ok(())
}

// The calls of the shelf and of the sink that fail, the turns of each run of the crew, what is told, and whether the source and the log are put.
static FAULTS: [(&[u64], &[u64], u64, &str, u8, bool, bool); 5] = [
    (&[0], &[], u64::MAX, "shelf fault\n", 9, false, false),
    (&[1], &[], u64::MAX, "shelf fault\n", 9, true, false),
    (&[], &[1], u64::MAX, "m", 8, true, true),
    (&[], &[], 0, "crew fault\n", 10, true, false),
    (&[], &[], 24, "crew fault\n", 10, true, false),
];

fn check_fault(
    rt: &(impl Abort + Threads + Wait + Clock + Sync),
    alloc: Global,
    row: (&[u64], &[u64], u64, &str, u8, bool, bool),
) -> Result<(), Fail> {
    let (shelf_fails, write_fails, turns, text, status, has_source, has_log) = row;
    let mut shelf = MemShelf::new(List::new(alloc), List::from_slice(alloc, shelf_fails)?);
    let outside = Outside {
        write_fails,
        turns,
        ..SOUND
    };
    let words = ["make", "1", "n.c"];
    check_in(rt, alloc, &words, &outside, &mut shelf, (text, status))?;
    assert_eq!(rt; shelf.content("n.c").is_some(), has_source, "{text}");
    assert_eq!(rt; shelf.content("n.c.log").is_some(), has_log, "{text}");
    Ok(())
}

#[test]
fn keeps_what_was_put(rt: HostRuntime) -> Result<(), Fail> {
    let alloc = rt.alloc();
    for row in FAULTS {
        check_fault(&rt, alloc, row)?;
    }
    Ok(())
}

// The crew fails in its second run, that of the replay: 8 jobs were run, those of the recording, and the log stays that the
// recording alone writes.
#[test]
fn keeps_the_log_of_a_recording(rt: HostRuntime) -> Result<(), Fail> {
    let alloc = rt.alloc();
    let mut shelf = MemShelf::new(List::new(alloc), List::new(alloc));
    let mut tired = TiredCrew::new(crew_of(alloc, &SOUND)?, 1);
    let make = ["make", "1", "n.c"];
    let fault = ("crew fault\n", 10);
    check_on(&rt, alloc, &make, &SOUND, &mut shelf, &mut tired, fault)?;
    holds_source(&rt, alloc, &shelf)?;
    let mut crew = crew_of(alloc, &SOUND)?;
    let record = ["record", "n.c", "b"];
    let done = ("112\n", 0);
    check_on(&rt, alloc, &record, &SOUND, &mut shelf, &mut crew, done)?;
    let alone = shelf.content("b").map(|held| held.as_slice());
    let kept = shelf.content("n.c.log").map(|held| held.as_slice());
    assert!(rt; alone.is_some());
    assert_eq!(rt; kept, alone);
    assert_eq!(rt; (tired.jobs_run(), crew.jobs_run()), (8, 8));
    assert_eq!(rt; tired.turns(), crew.turns());
    Ok(())
}

use crate::checks::check_on;
use crew::ScopeCrew;
use rr_base::MemShelf;
use samples::bank::{BANK, CHANGES};
use samples::outside::SOUND;
use samples::runs::{MORE_RUNS, RUNS};
use samples::shelves::{REPLAY, bank_files, files_of, with_source};
use samples::sources::{NONE_LEFT, PASSES, WAITS};
use samples::weak_runs::WEAK_RUNS;
use std::alloc::Global;
use std::process::Abort;
use std::sync::Wait;
use std::test::Fail;
use std::thread::Threads;
use std::time::Clock;

// Calls with these words, where each thread of the source is one of the system.
fn check_on_threads(
    rt: &(impl Abort + Threads + Wait + Clock + Sync),
    alloc: Global,
    words: &[&str],
    shelf: &mut MemShelf,
    want: (&str, u8),
) -> Result<(), Fail> {
    let mut crew = ScopeCrew::new();
    check_on(rt, alloc, words, &SOUND, shelf, &mut crew, want)
}

// Words, a source, and what is told whatever the interleaving: of condition variables, of a barrier, and where no slot is left.
static RECORDS: [(&[&str], &str, &str); 4] = [
    (&["record", "a", "l"], BANK, "20\n"),
    (&["record", "a", "l"], WAITS, "2\n"),
    (&["record", "a", "l"], PASSES, "2\n"),
    (&["record", "a", "l", "--slots", "2"], NONE_LEFT, "11\n"),
];

fn check_record(
    rt: &(impl Abort + Threads + Wait + Clock + Sync),
    alloc: Global,
    words: &[&str],
    source: &str,
    want: (&str, u8),
) -> Result<(), Fail> {
    let mut shelf = with_source(alloc, &[source])?;
    check_on_threads(rt, alloc, words, &mut shelf, want)?;
    check_on_threads(rt, alloc, &["replay", "a", "l"], &mut shelf, want)
}

#[test]
fn records_on_threads(rt: HostRuntime) -> Result<(), Fail> {
    for &(words, source, text) in &RECORDS {
        check_record(&rt, rt.alloc(), words, source, (text, 0))?;
    }
    Ok(())
}

fn check_change(
    rt: &(impl Abort + Threads + Wait + Clock + Sync),
    alloc: Global,
    entries: &[&str],
    want: (&str, u8),
) -> Result<(), Fail> {
    let mut shelf = bank_files(alloc, entries)?;
    check_on_threads(rt, alloc, &REPLAY, &mut shelf, want)
}

// The bank's log with one thing changed.
fn check_changes(
    rt: &(impl Abort + Threads + Wait + Clock + Sync),
    alloc: Global,
) -> Result<(), Fail> {
    for &(entries, text, status) in &CHANGES {
        check_change(rt, alloc, entries, (text, status))?;
    }
    Ok(())
}

fn check_row(
    rt: &(impl Abort + Threads + Wait + Clock + Sync),
    alloc: Global,
    source: &str,
    log: &[&str],
    want: (&str, u8),
) -> Result<(), Fail> {
    let mut shelf = files_of(alloc, &[source], log)?;
    check_on_threads(rt, alloc, &REPLAY, &mut shelf, want)
}

fn check_rows(
    rt: &(impl Abort + Threads + Wait + Clock + Sync),
    alloc: Global,
    rows: &[(&str, &[&str], &str, u8)],
) -> Result<(), Fail> {
    for (source, log, text, status) in rows {
        check_row(rt, alloc, source, log, (text, *status))?;
    }
    Ok(())
}

fn check_runs(
    rt: &(impl Abort + Threads + Wait + Clock + Sync),
    alloc: Global,
) -> Result<(), Fail> {
    check_rows(rt, alloc, &RUNS)
}

fn check_more_runs(
    rt: &(impl Abort + Threads + Wait + Clock + Sync),
    alloc: Global,
) -> Result<(), Fail> {
    check_rows(rt, alloc, &MORE_RUNS)
}

fn check_weak_runs(
    rt: &(impl Abort + Threads + Wait + Clock + Sync),
    alloc: Global,
) -> Result<(), Fail> {
    check_rows(rt, alloc, &WEAK_RUNS)
}

// Each log comes to its walk, or to its first wrong entry.
#[test]
fn replays_on_threads(rt: HostRuntime) -> Result<(), Fail> {
    check_runs(&rt, rt.alloc())?;
    check_more_runs(&rt, rt.alloc())?;
    check_weak_runs(&rt, rt.alloc())?;
    check_changes(&rt, rt.alloc())
}

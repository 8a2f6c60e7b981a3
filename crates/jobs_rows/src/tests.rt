use crate::checks::{check, check_files, check_large};
use rr_base::Bytes;
use samples::bank::{BANK, BANK_LOG};
use samples::logs::{FIRST, IDLE, SLOTS_8};
use samples::outside::push_times;
use samples::runs::{MORE_RUNS, RUNS};
use samples::shelves::{REPLAY, files_of, joined, push_part, shelf_of};
use std::alloc::{AllocError, Global};
use std::process::Abort;
use std::sync::Wait;
use std::test::Fail;
use std::thread::Threads;
use std::time::Clock;

// A source, and what is told of it with a log of one thread that only ends: its faults by bytes, by the grammar, and by
// types.
static SOURCES: [(&str, &str, u8); 14] = [
    ("int main(void){return 0;}", "", 0),
    ("int @", "source refused 1 1 5\n", 2),
    ("int x; /*", "source refused 2 1 8\n", 2),
    ("int x = \"a", "source refused 3 1 9\n", 2),
    ("int x = '\\q'", "source refused 4 1 10\n", 2),
    ("int x = 9223372036854775808;", "source refused 5 1 9\n", 2),
    ("int x;\n#if", "source refused 6 2 1\n", 2),
    ("int main(void){switch(0){}}", "source refused 20 1 16\n", 2),
    ("int main(void){return 1;\n", "source refused 7 1 25\n", 2),
    ("int x int y;", "source refused 7 1 7\n", 2),
    ("", "source refused 15 1 1\n", 2),
    ("int main(void){return y;}", "source refused 9 1 23\n", 2),
    ("int main(void){return (0);}", "", 0),
    ("int main(void){return 1;}", "", 0),
];

// Words that are no job.
static NO_JOBS: [&[&str]; 7] = [
    &[],
    &["record", "a"],
    &["record", "a", "b", "--slots", "08"],
    &["replay", "a", "b", "--"],
    &["replay", "a", "-b"],
    &["profile", "a", "b"],
    &["profile", "a", "b", "p", "--reads", "r"],
];

fn check_no_jobs(
    rt: &(impl Abort + Threads + Wait + Clock + Sync),
    alloc: Global,
) -> Result<(), Fail> {
    for words in &NO_JOBS {
        check_files(rt, alloc, words, &[], &[], ("usage\n", 1))?;
    }
    Ok(())
}

// A sink that fails at once and after one byte.
fn check_outside(
    rt: &(impl Abort + Threads + Wait + Clock + Sync),
    alloc: Global,
) -> Result<(), Fail> {
    let mut shelf = files_of(alloc, &[BANK], BANK_LOG)?;
    check(rt, alloc, &REPLAY, &[0], &mut shelf, ("", 8))?;
    check(rt, alloc, &REPLAY, &[1], &mut shelf, ("2", 8))
}

/// Each source is told so when it is run by its log.
pub fn check_rows(
    rt: &(impl Abort + Threads + Wait + Clock + Sync),
    alloc: Global,
    rows: &[(&str, &[&str], &str, u8)],
) -> Result<(), Fail> {
    for (source, log, text, status) in rows {
        check_files(rt, alloc, &REPLAY, &[source], log, (text, *status))?;
    }
    Ok(())
}

fn check_runs(
    rt: &(impl Abort + Threads + Wait + Clock + Sync),
    alloc: Global,
) -> Result<(), Fail> {
    check_rows(rt, alloc, &RUNS)
}

fn check_more_runs(
    rt: &(impl Abort + Threads + Wait + Clock + Sync),
    alloc: Global,
) -> Result<(), Fail> {
    check_rows(rt, alloc, &MORE_RUNS)
}

// What is told of a log's front part that is no log yet, or one that stops too early: its head has seven lines.
fn cut_answer(alloc: Global, front: &[u8]) -> Result<(String, u8), AllocError> {
    let lines = front.iter().filter(|byte| **byte == b'\n').count();
    if lines >= 7 && front.last() == Some(&b'\n') {
        Ok((format!(in alloc; "wrong entry {}\n", lines - 7)?, 5))
    } else {
        Ok((format!(in alloc; "log refused 23 {}\n", lines + 1)?, 4))
    }
}

fn check_front_part(
    rt: &(impl Abort + Threads + Wait + Clock + Sync),
    alloc: Global,
    front: &[u8],
) -> Result<(), Fail> {
    let mut shelf = shelf_of(alloc, BANK.as_bytes(), front)?;
    let (text, status) = cut_answer(alloc, front)?;
    check(rt, alloc, &REPLAY, &[], &mut shelf, (&text, status))
}

// Each front part of the bank's log, byte by byte: none but the whole runs to the end.
fn check_front_parts(
    rt: &(impl Abort + Threads + Wait + Clock + Sync),
    alloc: Global,
) -> Result<(), Fail> {
    let whole = joined(alloc, BANK_LOG)?;
    for end in 0..whole.len() {
        check_front_part(rt, alloc, &whole.as_slice()[..end])?;
    }
    Ok(())
}

fn check_sources(
    rt: &(impl Abort + Threads + Wait + Clock + Sync),
    alloc: Global,
) -> Result<(), Fail> {
    for &(source, text, status) in &SOURCES {
        let log = [FIRST, SLOTS_8, IDLE];
        check_files(rt, alloc, &REPLAY, &[source], &log, (text, status))?;
    }
    Ok(())
}

// `main` returns 0 in so many parentheses, on one line.
fn nested(alloc: Global, depth: usize) -> Result<Bytes, AllocError> {
    let mut text = joined(alloc, &["int main(void){return "])?;
    push_times(alloc, &mut text, b'(', depth)?;
    push_part(&mut text, "0")?;
    push_times(alloc, &mut text, b')', depth)?;
    push_part(&mut text, ";}\n")?;
    Ok(text)
}

fn check_nested(
    rt: &(impl Abort + Threads + Wait + Clock + Sync),
    alloc: Global,
    depth: usize,
    want: (&str, u8),
) -> Result<(), Fail> {
    let source = nested(alloc, depth)?;
    let log = joined(alloc, &[FIRST, SLOTS_8, IDLE])?;
    let mut shelf = shelf_of(alloc, source.as_slice(), log.as_slice())?;
    check(rt, alloc, &REPLAY, &[], &mut shelf, want)
}

// One level more than 256, and the last that the grammar takes.
fn check_levels(
    rt: &(impl Abort + Threads + Wait + Clock + Sync),
    alloc: Global,
) -> Result<(), Fail> {
    let rows = [(255, "source refused 8 1 278\n", 2), (254, "", 0)];
    for (depth, text, status) in rows {
        check_nested(rt, alloc, depth, (text, status))?;
    }
    Ok(())
}

#[test]
fn tells_the_rows(rt: HostRuntime) -> Result<(), Fail> {
    check_no_jobs(&rt, rt.alloc())?;
    check_large(&rt, rt.alloc(), &REPLAY, &["replay", "c", "b"])?;
    check_outside(&rt, rt.alloc())?;
    check_runs(&rt, rt.alloc())?;
    check_more_runs(&rt, rt.alloc())?;
    check_sources(&rt, rt.alloc())?;
    check_levels(&rt, rt.alloc())?;
    check_front_parts(&rt, rt.alloc())
}

use crate::checks::check_on;
use rr_base::{Bytes, List, MemShelf};
use samples::bank::{BANK, BANK_LOG};
use samples::outside::{Outside, SOUND, crew_of};
use samples::shelves::push_file;
use samples::sources::HELD_BY_CALLER;
use std::alloc::{AllocError, Global};
use std::process::Abort;
use std::sync::Wait;
use std::test::Fail;
use std::thread::Threads;
use std::time::Clock;

/// What fails of the outside: nothing, the call of this number of one of its objects, or the crew after this number of turns.
#[derive(Clone, Copy)]
enum Failing {
    Nothing,
    Read(u64),
    Shelf(u64),
    Write(u64),
    CrewAfter(u64),
}

use Failing::{CrewAfter, Nothing, Read, Shelf, Write};

const RECORD: &[&str] = &["record", "bank", "l", "--profile", "p", "--reads", "r"];

const REPLAY: &[&str] = &["replay", "bank", "log", "--reads", "r"];

const RACES: &[&str] = &["races", "bank"];

const WEAKEN: &[&str] = &["weaken", "held", "--profile", "p"];

const LOCKS: &str =
    "lock w0 x+0 stripes 1\naccess 4:18 store function h\naccess 6:3 store function f\n";

// Words, what fails, what is told with which status, and whether `l` and `r` are put.
static RECORDS: [(&[&str], Failing, &str, u8, (bool, bool)); 10] = [
    (RECORD, Nothing, "20\n", 0, (true, true)),
    (RECORD, Shelf(0), "shelf fault\n", 9, (false, false)),
    (RECORD, Shelf(1), "shelf fault\n", 9, (false, false)),
    (RECORD, Read(0), "read fault\n", 7, (false, false)),
    (RECORD, CrewAfter(0), "crew fault\n", 10, (false, false)),
    (RECORD, CrewAfter(24), "crew fault\n", 10, (false, false)),
    (RECORD, Shelf(2), "shelf fault\n", 9, (false, false)),
    (RECORD, Shelf(3), "shelf fault\n", 9, (true, false)),
    (RECORD, Write(0), "", 8, (true, true)),
    (RECORD, Write(1), "2", 8, (true, true)),
];

// The same of the jobs that record nothing.
static OTHERS: [(&[&str], Failing, &str, u8, (bool, bool)); 12] = [
    (REPLAY, Nothing, "20\n", 0, (false, true)),
    (REPLAY, Shelf(0), "shelf fault\n", 9, (false, false)),
    (REPLAY, Shelf(1), "shelf fault\n", 9, (false, false)),
    (REPLAY, CrewAfter(24), "crew fault\n", 10, (false, false)),
    (REPLAY, Shelf(2), "shelf fault\n", 9, (false, false)),
    (REPLAY, Write(2), "20", 8, (false, true)),
    (RACES, Shelf(0), "shelf fault\n", 9, (false, false)),
    (RACES, Write(3), "rac", 8, (false, false)),
    (WEAKEN, Nothing, LOCKS, 0, (false, false)),
    (WEAKEN, Shelf(0), "shelf fault\n", 9, (false, false)),
    (WEAKEN, Shelf(1), "shelf fault\n", 9, (false, false)),
    (WEAKEN, Write(0), "", 8, (false, false)),
];

fn shelf_with(alloc: Global, fails: &[u64]) -> Result<MemShelf, AllocError> {
    let files: [(&str, &[&str]); 4] = [
        ("bank", &[BANK]),
        ("held", &[HELD_BY_CALLER]),
        ("p", &["{\"pairs\":[]}"]),
        ("log", BANK_LOG),
    ];
    let mut held: List<(Bytes, Bytes)> = List::new(alloc);
    for (name, parts) in files {
        push_file(alloc, &mut held, name, parts)?;
    }
    Ok(MemShelf::new(held, List::from_slice(alloc, fails)?))
}

fn number_of(failing: Failing) -> u64 {
    match failing {
        Nothing => 0,
        Read(number) | Shelf(number) | Write(number) | CrewAfter(number) => number,
    }
}

// The outside but for the shelf, where a call of this number fails.
fn outside_of<'a>(failing: Failing, number: &'a [u64]) -> Outside<'a> {
    match failing {
        Nothing | Shelf(_) => SOUND,
        Read(_) => Outside {
            read_fails: number,
            ..SOUND
        },
        Write(_) => Outside {
            write_fails: number,
            ..SOUND
        },
        CrewAfter(turns) => Outside { turns, ..SOUND },
    }
}

// Calls with these words on the outside's crew.
fn check_in(
    rt: &(impl Abort + Threads + Wait + Clock + Sync),
    alloc: Global,
    words: &[&str],
    outside: &Outside,
    shelf: &mut MemShelf,
    want: (&str, u8),
) -> Result<(), Fail> {
    let mut crew = crew_of(alloc, outside)?;
    check_on(rt, alloc, words, outside, shelf, &mut crew, want)
}

fn check_failing(
    rt: &(impl Abort + Threads + Wait + Clock + Sync),
    alloc: Global,
    words: &[&str],
    failing: Failing,
    want: (&str, u8),
    puts: (bool, bool),
) -> Result<(), Fail> {
    let number = [number_of(failing)];
    let shelf_fails: &[u64] = if matches!(failing, Shelf(_)) {
        &number
    } else {
        &[]
    };
    let mut shelf = shelf_with(alloc, shelf_fails)?;
    let outside = outside_of(failing, &number);
    check_in(rt, alloc, words, &outside, &mut shelf, want)?;
    let held = (shelf.content("l").is_some(), shelf.content("r").is_some());
    assert_eq!(rt; held, puts);
    Ok(())
}

fn check_rows(
    rt: &(impl Abort + Threads + Wait + Clock + Sync),
    alloc: Global,
    rows: &[(&[&str], Failing, &str, u8, (bool, bool))],
) -> Result<(), Fail> {
    for &(words, failing, text, status, puts) in rows {
        check_failing(rt, alloc, words, failing, (text, status), puts)?;
    }
    Ok(())
}

// Each call that a recording makes outside fails in turn: what was put before stays, and nothing is put after it.
#[test]
fn tells_each_fault_of_a_recording(rt: HostRuntime) -> Result<(), Fail> {
    check_rows(&rt, rt.alloc(), &RECORDS)
}

// The same of the other jobs.
#[test]
fn tells_each_fault_of_the_outside(rt: HostRuntime) -> Result<(), Fail> {
    check_rows(&rt, rt.alloc(), &OTHERS)
}

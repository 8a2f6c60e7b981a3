use crate::checks::{check_files, check_in, holds_bytes, holds_parts};
use rr_base::MemShelf;
use samples::bank::BANK;
use samples::logs::{FIRST, IDLE, INPUT_HI, RECORDED, SLOTS_1, SLOTS_2, SLOTS_3, SLOTS_8};
use samples::outside::{Outside, SOUND, repeated};
use samples::shelves::{files_of, with_source};
use samples::sources::{
    COUNTER, DIVIDES, ECHOES, HELD_BY_CALLER, MISUSE, NO_POINTER, NONE_LEFT, PASSES, READERS,
    RWLOCK_MISUSE, WAITS,
};
use std::alloc::Global;
use std::process::Abort;
use std::sync::Wait;
use std::test::Fail;
use std::thread::Threads;
use std::time::Clock;

const SHORT: &str = "int main(void){return 0;}\n";

// Words, a source, an input, what is told with which status, and the log where it is the only one.
static RECORDS: [(&[&str], &str, &str, &str, u8, &[&str]); 11] = [
    (&["record", "a", "l"], BANK, "", "20\n", 0, &[]),
    (
        &["record", "a", "l"],
        SHORT,
        "",
        "",
        0,
        &[RECORDED, SLOTS_8, IDLE],
    ),
    (
        &["record", "--slots=1", "a", "l"],
        ECHOES,
        "hi",
        "hi",
        0,
        &[
            RECORDED,
            INPUT_HI,
            "0 1 getchar I\n0 3 print O\n0 4 getchar I\n0 6 print O\n0 7 getchar I\n0 9 halt H\n",
        ],
    ),
    (
        &["record", "a", "l", "--slots", "1"],
        MISUSE,
        "",
        "trap 9 thread 0 line 2\n",
        3,
        &[RECORDED, SLOTS_1, "0 1 unlock m2\n0 2 trap H\n"],
    ),
    (
        &["record", "--slots", "1", "a", "l"],
        RWLOCK_MISUSE,
        "",
        "trap 18 thread 0 line 2\n",
        3,
        &[RECORDED, SLOTS_1, "0 1 rwunlock r2\n0 2 trap H\n"],
    ),
    (
        &["record", "a", "--slots", "1", "l"],
        NO_POINTER,
        "",
        "trap 13 thread 0 line 2\n",
        3,
        &[RECORDED, SLOTS_1, "0 1 trap H\n"],
    ),
    (
        &["record", "a", "l", "--slots", "2"],
        DIVIDES,
        "",
        "trap 1 thread 1 line 5\n",
        3,
        &[],
    ),
    (
        &["record", "a", "l", "--slots", "2"],
        NONE_LEFT,
        "",
        "11\n",
        0,
        &[],
    ),
    (&["record", "a", "l"], WAITS, "", "2\n", 0, &[]),
    (&["record", "a", "l"], PASSES, "", "2\n", 0, &[]),
    (
        &["record", "a", "l", "--profile", "b"],
        HELD_BY_CALLER,
        "",
        "",
        0,
        &[],
    ),
];

// Fails unless file `l` of the shelf is this log; where none is given, any will do.
pub fn same_log(
    rt: &impl Abort,
    alloc: Global,
    shelf: &MemShelf,
    log: &[&str],
) -> Result<(), Fail> {
    if log.is_empty() {
        assert!(rt; shelf.content("l").is_some());
    } else {
        holds_parts(rt, alloc, shelf, "l", log)?;
    }
    Ok(())
}

// A call, and the log that stands there after it.
fn check_log(
    rt: &(impl Abort + Threads + Wait + Clock + Sync),
    alloc: Global,
    words: &[&str],
    outside: &Outside,
    shelf: &mut MemShelf,
    want: (&str, u8),
    log: &[&str],
) -> Result<(), Fail> {
    check_in(rt, alloc, words, outside, shelf, want)?;
    same_log(rt, alloc, shelf, log)
}

fn check_record(
    rt: &(impl Abort + Threads + Wait + Clock + Sync),
    alloc: Global,
    row: (&[&str], &str, &str, &str, u8, &[&str]),
) -> Result<(), Fail> {
    let (words, source, input, text, status, log) = row;
    let want = (text, status);
    let mut shelf = with_source(alloc, &[source])?;
    let outside = Outside {
        input: input.as_bytes(),
        turns: 100_000,
        ..SOUND
    };
    check_log(rt, alloc, words, &outside, &mut shelf, want, log)?;
    let replay = ["replay", "a", "l"];
    check_log(rt, alloc, &replay, &outside, &mut shelf, want, log)
}

// Each row is told, and its log is told the same.
#[test]
fn records_and_replays(rt: HostRuntime) -> Result<(), Fail> {
    for row in RECORDS {
        check_record(&rt, rt.alloc(), row)?;
    }
    Ok(())
}

// An input of so many bytes, and what is told of it.
static INPUTS: [(usize, &str, u8); 2] = [(1_048_576, "", 0), (1_048_577, "too large input\n", 11)];

// A log is put where all is well.
fn check_input(
    rt: &(impl Abort + Threads + Wait + Clock + Sync),
    alloc: Global,
    input: &[u8],
    want: (&str, u8),
) -> Result<(), Fail> {
    let (_, status) = want;
    let mut shelf = with_source(alloc, &[SHORT])?;
    let outside = Outside { input, ..SOUND };
    let words = ["record", "a", "l"];
    check_in(rt, alloc, &words, &outside, &mut shelf, want)?;
    assert_eq!(rt; shelf.content("l").is_some(), status == 0);
    Ok(())
}

fn check_length(
    rt: &(impl Abort + Threads + Wait + Clock + Sync),
    alloc: Global,
    length: usize,
    want: (&str, u8),
) -> Result<(), Fail> {
    let input = repeated(alloc, b'a', length)?;
    check_input(rt, alloc, input.as_slice(), want)
}

#[test]
fn takes_an_input_of_its_limit(rt: HostRuntime) -> Result<(), Fail> {
    for &(length, text, status) in &INPUTS {
        check_length(&rt, rt.alloc(), length, (text, status))?;
    }
    Ok(())
}

// A profile, and what is told of a source with it.
static PROFILES: [(&[&str], &str, &str, u8); 5] = [
    (
        &["weaken", "a", "--profile=b"],
        "{",
        "profile refused 21\n",
        6,
    ),
    (
        &["record", "a", "l", "--profile", "b"],
        "{\"pairs\":3}",
        "profile refused 22\n",
        6,
    ),
    (
        &["weaken", "a", "--profile=b"],
        "{\"pairs\":[]}",
        "lock w0 x+0 stripes 1\naccess 4:18 store function h\naccess 6:3 store function f\n",
        0,
    ),
    (
        &["weaken", "a", "--profile=b"],
        "{\"pairs\":[[\"f\",\"g\"],[\"f\",\"h\"],[\"f\",\"main\"],[\"g\",\"main\"],[\"h\",\"main\"]]}",
        "lock w0 x+0 stripes 1\naccess 4:18 store instruction 4:18\naccess 6:3 store instruction 6:3\n",
        0,
    ),
    (&["weaken", "a", "--profile=c"], "", "shelf fault\n", 9),
];

// A refused source, profile or absent file is told where the input would fail, too; an accepted source comes to that fault.
#[test]
fn reads_no_input_for_a_refused_source(rt: HostRuntime) -> Result<(), Fail> {
    let alloc = rt.alloc();
    let outside = Outside {
        read_fails: &[0],
        ..SOUND
    };
    let words = ["record", "a", "l"];
    let mut shelf = with_source(alloc, &["int main(void) { return x; }\n"])?;
    check_in(
        &rt,
        alloc,
        &words,
        &outside,
        &mut shelf,
        ("source refused 9 1 25\n", 2),
    )?;
    let mut shelf = with_source(alloc, &[SHORT])?;
    let missing = ["record", "c", "l"];
    check_in(
        &rt,
        alloc,
        &missing,
        &outside,
        &mut shelf,
        ("shelf fault\n", 9),
    )?;
    let own = ["record", "a", "l", "--profile", "a"];
    check_in(
        &rt,
        alloc,
        &own,
        &outside,
        &mut shelf,
        ("profile refused 21\n", 6),
    )?;
    check_in(
        &rt,
        alloc,
        &words,
        &outside,
        &mut shelf,
        ("read fault\n", 7),
    )?;
    assert!(&rt; shelf.content("l").is_none());
    Ok(())
}

#[test]
fn takes_a_profile(rt: HostRuntime) -> Result<(), Fail> {
    for &(words, profile, text, status) in &PROFILES {
        let want = (text, status);
        check_files(&rt, rt.alloc(), words, &[HELD_BY_CALLER], &[profile], want)?;
    }
    Ok(())
}

// The entries of a counter's run on three slots, whose threads both load 0, and its loads: thread, count, cell and number.
const LOST_UPDATE: &str =
    "0 1 draw T\n0 4 start s1\n0 5 draw T\n0 8 start s2\n1 0 begin s1\n1 3 take w0.0\n1 4 give w0.0\n2 0 begin s2\n2 3 take w0.0\n2 4 give w0.0\n1 4 take w0.0\n1 5 give w0.0\n1 6 end s1\n0 10 join s1\n1 7 leave T\n2 4 take w0.0\n2 5 give w0.0\n2 6 end s2\n0 12 join s2\n0 13 take w0.0\n0 14 give w0.0\n0 14 print O\n0 15 halt H\n2 7 leave T\n";

const LOADS: &str = "0 9 7 1\n0 11 8 2\n0 13 6 1\n1 1 2 0\n1 3 6 0\n2 1 4 0\n2 3 6 0\n";

// One thread reads and the other writes under a read-write lock, which no weak lock guards beside it.
const READ_AFTER_WRITE: &str =
    "0 1 draw T\n0 4 start s1\n0 5 wrlock r4\n0 7 rwunlock r4\n1 0 begin s1\n1 3 rdlock r4\n1 5 rwunlock r4\n1 7 end s1\n0 9 join s1\n0 10 halt H\n1 8 leave T\n";

// A source, the parts of its log, what it writes, and its loads.
static LOADED: [(&str, &[&str], &str, &str); 2] = [
    (COUNTER, &[FIRST, SLOTS_3, LOST_UPDATE], "1\n", LOADS),
    (
        READERS,
        &[RECORDED, SLOTS_2, READ_AFTER_WRITE],
        "",
        "0 8 6 1\n1 1 2 0\n1 4 5 5\n",
    ),
];

#[test]
fn writes_the_loads(rt: HostRuntime) -> Result<(), Fail> {
    let alloc = rt.alloc();
    for &(source, log, text, loads) in &LOADED {
        let mut shelf = files_of(alloc, &[source], log)?;
        let words = ["replay", "a", "--reads", "r", "b"];
        check_in(&rt, alloc, &words, &SOUND, &mut shelf, (text, 0))?;
        holds_bytes(&rt, &shelf, "r", loads.as_bytes());
    }
    Ok(())
}

// A source, the crew's first turns for its recording, and what is told of it: both additions count, one is lost, a thread traps.
static BOTH: [(&str, &[(u8, usize)], &str, u8); 3] = [
    (COUNTER, &[], "2\n", 0),
    (COUNTER, &[(0, 40), (1, 3), (2, 3), (1, 1)], "1\n", 0),
    (DIVIDES, &[], "trap 1 thread 1 line 5\n", 3),
];

// A recording and the replay of its log tell the same, and read the same values.
fn check_both(
    rt: &(impl Abort + Threads + Wait + Clock + Sync),
    alloc: Global,
    source: &str,
    order: &[(u8, usize)],
    want: (&str, u8),
) -> Result<(), Fail> {
    let mut shelf = with_source(alloc, &[source])?;
    let outside = Outside {
        order,
        turns: 100_000,
        ..SOUND
    };
    let record = ["record", "a", "l", "--reads", "r"];
    check_in(rt, alloc, &record, &outside, &mut shelf, want)?;
    let replay = ["replay", "a", "l", "--reads", "q"];
    check_in(rt, alloc, &replay, &SOUND, &mut shelf, want)?;
    let recorded = shelf.content("r").map(|held| held.as_slice());
    let replayed = shelf.content("q").map(|held| held.as_slice());
    assert!(rt; recorded.is_some_and(|reads| !reads.is_empty()));
    assert_eq!(rt; replayed, recorded);
    Ok(())
}

#[test]
fn replays_what_was_read(rt: HostRuntime) -> Result<(), Fail> {
    for &(source, order, text, status) in &BOTH {
        check_both(&rt, rt.alloc(), source, order, (text, status))?;
    }
    Ok(())
}

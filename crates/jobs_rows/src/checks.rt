// Calls of the jobs, and what is compared after them.
use crew::Crew;
use jobs::chimera;
use rr_base::MemShelf;
use samples::outside::{Outside, SOUND, crew_of, input_of, owned, repeated, sink_of};
use samples::shelves::{files_of, joined, shelf_of};
use std::alloc::{AllocError, Global};
use std::process::Abort;
use std::sync::Wait;
use std::test::Fail;
use std::thread::Threads;
use std::time::Clock;

// What is told and the status are those that are wanted.
fn tells(rt: &impl Abort, told: &[u8], status: u8, want: (&str, u8)) {
    let (text, wanted) = want;
    assert_eq!(rt; told, text.as_bytes());
    assert_eq!(rt; status, wanted, "{text}");
}

/// Calls with these words on this crew, and compares what is told and the status.
pub fn check_on<C: Crew>(
    rt: &(impl Abort + Threads + Wait + Clock + Sync),
    alloc: Global,
    words: &[&str],
    outside: &Outside,
    shelf: &mut MemShelf,
    crew: &mut C,
    want: (&str, u8),
) -> Result<(), Fail> {
    let words = owned(alloc, words)?;
    let mut input = input_of(alloc, outside)?;
    let mut out = sink_of(alloc, outside)?;
    let words = words.as_slice();
    let status = chimera(rt, alloc, words, &mut input, &mut out, shelf, crew);
    tells(rt, out.bytes().as_slice(), status, want);
    Ok(())
}

/// The same on the outside's crew.
pub fn check_in(
    rt: &(impl Abort + Threads + Wait + Clock + Sync),
    alloc: Global,
    words: &[&str],
    outside: &Outside,
    shelf: &mut MemShelf,
    want: (&str, u8),
) -> Result<(), Fail> {
    let mut crew = crew_of(alloc, outside)?;
    check_on(rt, alloc, words, outside, shelf, &mut crew, want)
}

/// The same over a sink that fails at these calls.
pub fn check(
    rt: &(impl Abort + Threads + Wait + Clock + Sync),
    alloc: Global,
    words: &[&str],
    fails: &[u64],
    shelf: &mut MemShelf,
    want: (&str, u8),
) -> Result<(), Fail> {
    let outside = Outside {
        write_fails: fails,
        ..SOUND
    };
    check_in(rt, alloc, words, &outside, shelf, want)
}

/// The same over a sound sink and these two files.
pub fn check_files(
    rt: &(impl Abort + Threads + Wait + Clock + Sync),
    alloc: Global,
    words: &[&str],
    source: &[&str],
    other: &[&str],
    want: (&str, u8),
) -> Result<(), Fail> {
    let mut shelf = files_of(alloc, source, other)?;
    check_in(rt, alloc, words, &SOUND, &mut shelf, want)
}

/// A source of one byte more than it may have, and no file of the name in `missing`.
pub fn check_large(
    rt: &(impl Abort + Threads + Wait + Clock + Sync),
    alloc: Global,
    words: &[&str],
    missing: &[&str],
) -> Result<(), Fail> {
    let large = repeated(alloc, b' ', 1_048_577)?;
    let mut shelf = shelf_of(alloc, large.as_slice(), &[])?;
    let want = ("too large source\n", 11);
    check(rt, alloc, words, &[], &mut shelf, want)?;
    check(rt, alloc, missing, &[], &mut shelf, ("shelf fault\n", 9))
}

/// File `name` of the shelf is this.
pub fn holds_bytes(rt: &impl Abort, shelf: &MemShelf, name: &str, want: &[u8]) {
    let found = shelf.content(name).map(|held| held.as_slice());
    assert_eq!(rt; found, Some(want), "{name}");
}

/// It is these parts, one after another.
pub fn holds_parts(
    rt: &impl Abort,
    alloc: Global,
    shelf: &MemShelf,
    name: &str,
    parts: &[&str],
) -> Result<(), AllocError> {
    let whole = joined(alloc, parts)?;
    holds_bytes(rt, shelf, name, whole.as_slice());
    Ok(())
}

/// A call with these words on source `a` and log `b`, which stays.
pub fn check_on_log(
    rt: &(impl Abort + Threads + Wait + Clock + Sync),
    alloc: Global,
    words: &[&str],
    source: &str,
    log: &[&str],
    want: (&str, u8),
) -> Result<(), Fail> {
    let mut shelf = files_of(alloc, &[source], log)?;
    check_in(rt, alloc, words, &SOUND, &mut shelf, want)?;
    Ok(holds_parts(rt, alloc, &shelf, "b", log)?)
}

/// A log that is none, one that isn't there under the name in `missing`, and a sink that fails.
pub fn check_log_ends(
    rt: &(impl Abort + Threads + Wait + Clock + Sync),
    alloc: Global,
    words: &[&str],
    missing: &[&str],
    source: &str,
    log: &[&str],
) -> Result<(), Fail> {
    let refused = ("log refused 23 1\n", 4);
    check_files(rt, alloc, words, &[source], &["no log"], refused)?;
    check_files(rt, alloc, missing, &[source], log, ("shelf fault\n", 9))?;
    let mut shelf = files_of(alloc, &[source], log)?;
    check(rt, alloc, words, &[0], &mut shelf, ("", 8))
}

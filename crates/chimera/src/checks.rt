// Calls of the jobs, and what is compared after them.
use crew::Crew;
use jobs::chimera;
use rr_base::MemShelf;
use samples::outside::{Outside, input_of, owned, sink_of};
use std::alloc::Global;
use std::process::Abort;
use std::sync::Wait;
use std::test::Fail;
use std::thread::Threads;
use std::time::Clock;

// What is told and the status are those that are wanted.
fn tells(rt: &impl Abort, told: &[u8], status: u8, want: (&str, u8)) {
    let (text, wanted) = want;
    assert_eq!(rt; told, text.as_bytes());
    assert_eq!(rt; status, wanted, "{text}");
}

/// Calls with these words on this crew, and compares what is told and the status.
pub fn check_on<C: Crew>(
    rt: &(impl Abort + Threads + Wait + Clock + Sync),
    alloc: Global,
    words: &[&str],
    outside: &Outside,
    shelf: &mut MemShelf,
    crew: &mut C,
    want: (&str, u8),
) -> Result<(), Fail> {
    let words = owned(alloc, words)?;
    let mut input = input_of(alloc, outside)?;
    let mut out = sink_of(alloc, outside)?;
    let words = words.as_slice();
    let status = chimera(rt, alloc, words, &mut input, &mut out, shelf, crew);
    tells(rt, out.bytes().as_slice(), status, want);
    Ok(())
}

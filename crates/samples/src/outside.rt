// What a call is given of the outside but for its shelf.
use crew::SchedCrew;
use rr_base::{Bytes, List, MemSink, MemSource};
use std::alloc::{AllocError, Global};

/// The outside of a call but for its shelf: the input with the numbers of its reads that fail, the numbers of the sink's calls
/// that fail, where each takes one byte, the order of the crew's first turns, as jobs with how many turns each, and how many
/// turns it gives in all.
#[derive(Clone, Copy)]
pub struct Outside<'a> {
    pub input: &'a [u8],
    pub read_fails: &'a [u64],
    pub write_fails: &'a [u64],
    pub order: &'a [(u8, usize)],
    pub turns: u64,
}

/// No input, no fault, no order, and all turns that are wanted.
pub const SOUND: Outside<'static> = Outside {
    input: &[],
    read_fails: &[],
    write_fails: &[],
    order: &[],
    turns: u64::MAX,
};

/// So many of one byte.
pub fn repeated(alloc: Global, byte: u8, times: usize) -> Result<Vec<u8>, AllocError> {
    vec![in alloc; byte; times]
}

/// So many of one byte, after those before them.
pub fn push_times(
    alloc: Global,
    bytes: &mut Bytes,
    byte: u8,
    times: usize,
) -> Result<(), AllocError> {
    let more = repeated(alloc, byte, times)?;
    bytes.extend_from_slice(more.as_slice())
}

// The jobs to which the crew's first turns go, one after another.
fn order_of(alloc: Global, runs: &[(u8, usize)]) -> Result<List<u8>, AllocError> {
    let mut order = List::new(alloc);
    for &(job, turns) in runs {
        push_times(alloc, &mut order, job, turns)?;
    }
    Ok(order)
}

/// The outside's crew.
pub fn crew_of(alloc: Global, outside: &Outside) -> Result<SchedCrew, AllocError> {
    let order = order_of(alloc, outside.order)?;
    Ok(SchedCrew::new(order, outside.turns))
}

fn push_word(alloc: Global, words: &mut Vec<String>, word: &str) -> Result<(), AllocError> {
    words.push(String::from_str(alloc, word)?)?;
    Ok(())
}

/// These words as a call takes them.
pub fn owned(alloc: Global, words: &[&str]) -> Result<Vec<String>, AllocError> {
    let mut owned = Vec::new(alloc);
    for word in words {
        push_word(alloc, &mut owned, word)?;
    }
    Ok(owned)
}

/// The outside's input.
pub fn input_of(alloc: Global, outside: &Outside) -> Result<MemSource, AllocError> {
    let bytes = List::from_slice(alloc, outside.input)?;
    let fails = List::from_slice(alloc, outside.read_fails)?;
    Ok(MemSource::new(bytes, fails))
}

/// An empty sink that takes one byte a call, and fails where the outside's does.
pub fn sink_of(alloc: Global, outside: &Outside) -> Result<MemSink, AllocError> {
    let fails = List::from_slice(alloc, outside.write_fails)?;
    Ok(MemSink::new(List::new(alloc), fails, 1))
}

// Shelves, and the words of a call on them.
use crate::bank::BANK;
use crate::logs::{FIRST, SLOTS_8};
use rr_base::{Bytes, List, MemShelf};
use std::alloc::{AllocError, Global};

/// The words of a replay of source `a` by log `b`.
pub static REPLAY: [&str; 3] = ["replay", "a", "b"];

/// This part after what stands there.
pub fn push_part(text: &mut Bytes, part: &str) -> Result<(), AllocError> {
    text.extend_from_slice(part.as_bytes())
}

/// The parts of a text, one after another.
pub fn joined(alloc: Global, parts: &[&str]) -> Result<Bytes, AllocError> {
    let mut text = List::new(alloc);
    for part in parts {
        push_part(&mut text, part)?;
    }
    Ok(text)
}

// The parts of a head, and after them those of its entries.
fn log_of(alloc: Global, head: &[&str], entries: &[&str]) -> Result<Bytes, AllocError> {
    let mut log = joined(alloc, head)?;
    for part in entries {
        push_part(&mut log, part)?;
    }
    Ok(log)
}

fn push_content(
    alloc: Global,
    files: &mut List<(Bytes, Bytes)>,
    name: &str,
    content: &[u8],
) -> Result<(), AllocError> {
    let name = List::from_slice(alloc, name.as_bytes())?;
    let content = List::from_slice(alloc, content)?;
    files.push((name, content))
}

/// Puts a file of these parts after the others.
pub fn push_file(
    alloc: Global,
    files: &mut List<(Bytes, Bytes)>,
    name: &str,
    parts: &[&str],
) -> Result<(), AllocError> {
    let content = joined(alloc, parts)?;
    push_content(alloc, files, name, content.as_slice())
}

/// A shelf of a source `a` and another file `b`.
pub fn shelf_of(alloc: Global, source: &[u8], other: &[u8]) -> Result<MemShelf, AllocError> {
    let mut files = List::new(alloc);
    push_content(alloc, &mut files, "a", source)?;
    push_content(alloc, &mut files, "b", other)?;
    Ok(MemShelf::new(files, List::new(alloc)))
}

/// The same, where each file has these parts.
pub fn files_of(alloc: Global, source: &[&str], other: &[&str]) -> Result<MemShelf, AllocError> {
    let source = joined(alloc, source)?;
    let other = joined(alloc, other)?;
    shelf_of(alloc, source.as_slice(), other.as_slice())
}

/// The same of a source and a log of this head and these entries.
pub fn log_files(
    alloc: Global,
    source: &[&str],
    head: &[&str],
    entries: &[&str],
) -> Result<MemShelf, AllocError> {
    let source = joined(alloc, source)?;
    let log = log_of(alloc, head, entries)?;
    shelf_of(alloc, source.as_slice(), log.as_slice())
}

/// The same of the bank and these entries of a log of it.
pub fn bank_files(alloc: Global, entries: &[&str]) -> Result<MemShelf, AllocError> {
    log_files(alloc, &[BANK], &[FIRST, SLOTS_8], entries)
}

/// A shelf of a source, and beside it the profile of no pairs.
pub fn with_source(alloc: Global, source: &[&str]) -> Result<MemShelf, AllocError> {
    files_of(alloc, source, &["{\"pairs\":[]}"])
}

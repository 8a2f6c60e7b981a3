// A whole draft.

ghost use Rattle.std.specs.Prelude.{ℕ, map, min};
ghost use Rattle.std.specs.List.{flat_map};
ghost use Rattle.snapshots.specs.Conditions.{IsForm, IsThreadForm};
ghost use Rattle.snapshots.specs.Text as text;
ghost use Rattle.snapshot_lines.specs.Lines.{IsAny, long_most};
ghost use Rattle.snapshot_grammar.specs.Drafts.{DraftIs, clipped_draft, clipped_thread, opening};
ghost use Rattle.snapshot_grammar.specs.Parts.{left, AreMany, Reads};

use crate::fault::DraftFault;
use crate::lined::{read_counted, read_line, read_lines, read_number};
use crate::reader::Reader;
use rr_base::List;
use snapshots::{Draft, DraftThread, Head};
use std::alloc::Global;

// The lines of a thread.
fn read_thread(alloc: Global, reader: &mut Reader) -> Result<DraftThread, DraftFault>
    ensures { Reads IsThreadForm text.thread_lines clipped_thread (left reader.old) result (left reader.new) }
{
    let _line = reader.line;
    let head: Head = read_line(alloc, reader)?;
    let frames = read_lines(alloc, reader, head.frames)?;
    let stripes = read_lines(alloc, reader, head.stripes)?;
    let regions = read_lines(alloc, reader, head.regions)?;
    Ok(DraftThread {
        head,
        frames,
        stripes,
        regions,
    })
}

// The lines of so many threads.
fn read_threads(
    alloc: Global,
    reader: &mut Reader,
    slots: u8,
) -> Result<List<DraftThread>, DraftFault>
    ensures { Reads (AreMany _ IsThreadForm slots) (flat_map text.thread_lines) (map clipped_thread) (left reader.old) result (left reader.new) }
{
    let _line = reader.line;
    let mut found = List::new(alloc);
    let mut left = slots;
    while left > 0 {
        let thread = read_thread(alloc, reader)?;
        found.push(thread)?;
        left -= 1;
    }
    Ok(found)
}

// The first two lines: the format, and after how many entries it was taken.
fn read_opening(reader: &mut Reader) -> Result<u64, DraftFault>
    ensures { Reads {A = ℕ} IsAny opening (λ n. min n long_most) (left reader.old) result (left reader.new) }
{
    let at = reader.line;
    if !reader.takes_text(b"chimera checkpoint 1") {
        return Err(DraftFault::Syntax(at));
    }
    read_number(reader, b"at ")
}

// The lines of a draft.
fn read_lines_of_draft(alloc: Global, reader: &mut Reader, slots: u8) -> Result<Draft, DraftFault>
    ensures { Reads (IsForm slots) text.draft_lines clipped_draft (left reader.old) result (left reader.new) }
{
    let _line = reader.line;
    let at = read_opening(reader)?;
    let cells = read_counted(alloc, reader, b"cells ")?;
    let objects = read_counted(alloc, reader, b"objects ")?;
    let threads = read_threads(alloc, reader, slots)?;
    let at = at.min(4_294_967_295) as u32;
    Ok(Draft {
        at,
        cells,
        objects,
        threads,
    })
}

/// The draft whose text the bytes are, with so many threads. The greatest number of each type stands for all from there on. A fault
/// tells the first line that spoils the bytes: with the lines up to it no such text begins, or it is missing or unfinished.
pub fn read_draft(alloc: Global, bytes: &[u8], slots: u8) -> Result<Draft, DraftFault>
    ensures { DraftIs slots bytes.now result }
{
    let mut reader = Reader { bytes, line: 1 };
    let draft = read_lines_of_draft(alloc, &mut reader, slots)?;
    if !reader.bytes.is_empty() {
        return Err(DraftFault::Syntax(reader.line));
    }
    Ok(draft)
}

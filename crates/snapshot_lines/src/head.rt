// The first line of a thread.
ghost use Rattle.std.specs.Prelude.{◌≡◌};
ghost use Rattle.snapshots.specs.Text as text;
ghost use Rattle.snapshot_lines.specs.Fields.{fields_left};
ghost use Rattle.snapshot_lines.specs.Lines as lines;
ghost use Rattle.snapshot_lines.specs.Lines.{ReadsAs, IsAny, IsBegun, IsLone, IsPhase, IsTrapped};

use crate::fields::Fields;
use snapshots::{Head, HeadPhase};

// The phase, where nothing is left.
fn lone(fields: &Fields, phase: HeadPhase) -> Option<HeadPhase>
    ensures { IsLone (fields_left fields.now.rest) phase result }
{
    if fields.is_over() { Some(phase) } else { None }
}

// A thread that began with the function that is left.
fn begun(rest: Fields) -> Option<HeadPhase>
    ensures { IsBegun (fields_left rest.entry.rest) result }
{
    let mut fields = rest;
    let function = fields.take_u32()?;
    lone(&fields, HeadPhase::Begun(function))
}

// A thread with the trap and the line that are left.
fn trapped(rest: Fields) -> Option<HeadPhase>
    ensures { IsTrapped (fields_left rest.entry.rest) result }
{
    let mut fields = rest;
    let kind = fields.take_u8()?;
    let line = fields.take_long()?;
    lone(&fields, HeadPhase::Trapped { kind, line })
}

// How far a thread is, by what is left of its line.
fn phase_in(rest: Fields) -> Option<HeadPhase>
    ensures { IsPhase (fields_left rest.entry.rest) result }
{
    let mut fields = rest;
    let word = fields.take()?;
    if word == b"fresh".as_slice() {
        lone(&fields, HeadPhase::Fresh)
    } else if word == b"begun".as_slice() {
        begun(fields)
    } else if word == b"running".as_slice() {
        lone(&fields, HeadPhase::Running)
    } else if word == b"ended".as_slice() {
        lone(&fields, HeadPhase::Ended)
    } else if word == b"trapped".as_slice() {
        trapped(fields)
    } else {
        None
    }
}

/// The first line of a thread.
pub fn head_in(line: &[u8]) -> Option<Head>
    ensures { ReadsAs IsAny text.head_line lines.clipped_head line.now result }
{
    let mut fields = Fields::of(line);
    if !fields.take_word(b"thread") {
        return None;
    }
    let (number, count, arena) = fields.take_three()?;
    let (entries, revokes, printed) = fields.take_three()?;
    let (frames, stripes, regions) = fields.take_three_long()?;
    let phase = phase_in(fields)?;
    Some(Head {
        number,
        count,
        arena,
        entries,
        revokes,
        printed,
        frames,
        stripes,
        regions,
        phase,
    })
}

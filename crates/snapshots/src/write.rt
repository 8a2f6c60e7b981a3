// Writing a checkpoint.

ghost use Rattle.std.specs.Prelude.{◌≡◌, ◌++◌, ◌∷◌, [], ◌<◌, ◌+◌, ◌^◌, length, map, codes, IfOk, OnOk};
ghost use Rattle.order_log.specs.Text.{number_text, text_of};
ghost use Rattle.reads_text.specs.Text.{value_text};
ghost use Rattle.snapshots.specs.Text as text;
ghost use Rattle.snapshots.specs.Text.{spaced};

use crate::snapshot::Snapshot;
use order_log::push_object;
use reads_text::push_value;
use rr_base::{Bytes, List};
use std::alloc::{AllocError, Global};
use sync_objects::ObjId;
use thread_interpreter::{FramePart, PhasePart, RegionPart, StripePart, ThreadPart};

// A number after a word.
fn push_number(out: &mut Bytes, word: &[u8], n: u64) -> Result<(), AllocError>
    ensures { OnOk result (out.new ≡ out.old ++ (word.now ++ number_text n)) }
{
    rr_base::push_numbered(out, word, n)
}

// A number after a word, alone in its line.
fn push_number_line(out: &mut Bytes, word: &[u8], n: usize) -> Result<(), AllocError>
    ensures { OnOk result (out.new ≡ out.old ++ (word.now ++ number_text n ++ 10 ∷ [])) }
{
    push_number(out, word, n as u64)?;
    out.push(b'\n')
}

// A blank, and a word as a signed number.
fn push_word(out: &mut Bytes, word: u64) -> Result<(), AllocError>
    ensures { OnOk result (out.new ≡ out.old ++ 32 ∷ value_text word) }
{
    out.push(b' ')?;
    push_value(out, word)
}

fn push_cell_line(out: &mut Bytes, cell: &(u32, u64)) -> Result<(), AllocError>
    ensures { OnOk result (out.new ≡ out.old ++ (text.cell_line cell.now ++ 10 ∷ [])) }
{
    push_number(out, b"", u64::from(cell.0))?;
    push_word(out, cell.1)?;
    out.push(b'\n')
}

fn push_cell_lines(out: &mut Bytes, cells: &[(u32, u64)]) -> Result<(), AllocError>
    ensures { OnOk result (out.new ≡ out.old ++ text_of (map text.cell_line cells.now)) }
{
    for cell in cells {
        push_cell_line(out, cell)?;
    }
    Ok(())
}

fn push_object_line(out: &mut Bytes, object: &(ObjId, u32, u32)) -> Result<(), AllocError>
    ensures { OnOk result (out.new ≡ out.old ++ (text.object_line object.now ++ 10 ∷ [])) }
{
    push_object(out, object.0)?;
    push_number(out, b" ", u64::from(object.1))?;
    push_number(out, b" ", u64::from(object.2))?;
    out.push(b'\n')
}

fn push_object_lines(out: &mut Bytes, objects: &[(ObjId, u32, u32)]) -> Result<(), AllocError>
    ensures { OnOk result (out.new ≡ out.old ++ text_of (map text.object_line objects.now)) }
{
    for object in objects {
        push_object_line(out, object)?;
    }
    Ok(())
}

fn push_words(out: &mut Bytes, words: &[u64]) -> Result<(), AllocError>
    ensures { OnOk result (out.new ≡ out.old ++ spaced (map value_text words.now)) }
{
    for word in words {
        push_word(out, *word)?;
    }
    Ok(())
}

fn push_frame_line(out: &mut Bytes, frame: &FramePart) -> Result<(), AllocError>
    ensures { OnOk result (out.new ≡ out.old ++ (text.frame_line frame.now ++ 10 ∷ [])) }
{
    push_number(out, b"frame ", u64::from(frame.function))?;
    push_number(out, b" ", u64::from(frame.instr))?;
    push_number(out, b" ", u64::from(frame.made))?;
    push_word(out, frame.kept)?;
    push_words(out, frame.registers.as_slice())?;
    out.push(b'\n')
}

fn push_frame_lines(out: &mut Bytes, frames: &[FramePart]) -> Result<(), AllocError>
    ensures { OnOk result (out.new ≡ out.old ++ text_of (map text.frame_line frames.now)) }
{
    for frame in frames {
        push_frame_line(out, frame)?;
    }
    Ok(())
}

fn stripe_word(owed: bool) -> &'static [u8]
    ensures { result.now ≡ text.stripe_word owed }
{
    if owed { b"owed" } else { b"held" }
}

fn push_stripe_line(out: &mut Bytes, stripe: &StripePart) -> Result<(), AllocError>
    ensures { OnOk result (out.new ≡ out.old ++ (text.stripe_line stripe.now ++ 10 ∷ [])) }
{
    out.extend_from_slice(stripe_word(stripe.owed))?;
    push_number(out, b" ", u64::from(stripe.lock))?;
    push_number(out, b" ", u64::from(stripe.stripe))?;
    push_number(out, b" ", u64::from(stripe.nesting))?;
    out.push(b'\n')
}

fn push_stripe_lines(out: &mut Bytes, stripes: &[StripePart]) -> Result<(), AllocError>
    ensures { OnOk result (out.new ≡ out.old ++ text_of (map text.stripe_line stripes.now)) }
{
    for stripe in stripes {
        push_stripe_line(out, stripe)?;
    }
    Ok(())
}

fn push_pairs(out: &mut Bytes, pairs: &[(u16, u8)]) -> Result<(), AllocError>
    ensures { OnOk result (out.new ≡ out.old ++ spaced (map text.pair_text pairs.now)) }
{
    for pair in pairs {
        push_number(out, b" ", u64::from(pair.0))?;
        push_number(out, b".", u64::from(pair.1))?;
    }
    Ok(())
}

fn push_region_line(out: &mut Bytes, region: &RegionPart) -> Result<(), AllocError>
    ensures { OnOk result (out.new ≡ out.old ++ (text.region_line region.now ++ 10 ∷ [])) }
{
    push_number(out, b"region ", u64::from(region.frame))?;
    push_number(out, b" ", u64::from(region.instr))?;
    push_pairs(out, region.stripes.as_slice())?;
    out.push(b'\n')
}

fn push_region_lines(out: &mut Bytes, regions: &[RegionPart]) -> Result<(), AllocError>
    ensures { OnOk result (out.new ≡ out.old ++ text_of (map text.region_line regions.now)) }
{
    for region in regions {
        push_region_line(out, region)?;
    }
    Ok(())
}

fn push_phase(out: &mut Bytes, phase: PhasePart) -> Result<(), AllocError>
    ensures { OnOk result (out.new ≡ out.old ++ spaced (text.phase_fields (text.head_phase phase))) }
{
    match phase {
        PhasePart::Fresh => out.extend_from_slice(b" fresh"),
        PhasePart::Begun(function) => push_number(out, b" begun ", u64::from(function)),
        PhasePart::Running => out.extend_from_slice(b" running"),
        PhasePart::Ended => out.extend_from_slice(b" ended"),
        PhasePart::Trapped { kind, line } => {
            push_number(out, b" trapped ", u64::from(kind.number()))?;
            push_number(out, b" ", u64::from(line))
        }
    }
}

fn push_numbers(out: &mut Bytes, part: &ThreadPart) -> Result<(), AllocError>
    ensures { OnOk result (out.new ≡ out.old ++ spaced (number_text part.now.count ∷ number_text part.now.arena ∷ number_text part.now.entries ∷ number_text part.now.revokes ∷ number_text part.now.printed ∷ [])) }
{
    push_number(out, b" ", u64::from(part.count))?;
    push_number(out, b" ", u64::from(part.arena))?;
    push_number(out, b" ", u64::from(part.entries))?;
    push_number(out, b" ", u64::from(part.revokes))?;
    push_number(out, b" ", u64::from(part.printed))
}

fn push_lengths(out: &mut Bytes, part: &ThreadPart) -> Result<(), AllocError>
    ensures { OnOk result (out.new ≡ out.old ++ spaced (number_text (length part.now.frames) ∷ number_text (length part.now.stripes) ∷ number_text (length part.now.regions) ∷ [])) }
{
    push_number(out, b" ", part.frames.len() as u64)?;
    push_number(out, b" ", part.stripes.len() as u64)?;
    push_number(out, b" ", part.regions.len() as u64)
}

fn push_head_line(out: &mut Bytes, thread: usize, part: &ThreadPart) -> Result<(), AllocError>
    ensures { OnOk result (out.new ≡ out.old ++ (text.head_line (text.head_of thread part.now) ++ 10 ∷ [])) }
{
    push_number(out, b"thread ", thread as u64)?;
    push_numbers(out, part)?;
    push_lengths(out, part)?;
    push_phase(out, part.phase)?;
    out.push(b'\n')
}

fn push_thread(out: &mut Bytes, thread: usize, part: &ThreadPart) -> Result<(), AllocError>
    ensures { OnOk result (out.new ≡ out.old ++ text_of (text.thread_lines (text.thread_draft thread part.now))) }
{
    push_head_line(out, thread, part)?;
    push_frame_lines(out, part.frames.as_slice())?;
    push_stripe_lines(out, part.stripes.as_slice())?;
    push_region_lines(out, part.regions.as_slice())
}

fn push_threads(out: &mut Bytes, threads: &[ThreadPart]) -> Result<(), AllocError>
    ensures { OnOk result (out.new ≡ out.old ++ text.threads_text 0 threads.now) }
{
    for (number, thread) in threads.iter().enumerate() {
        push_thread(out, number, thread)?;
    }
    Ok(())
}

/// The text of a checkpoint.
pub fn write_snapshot(alloc: Global, snapshot: &Snapshot) -> Result<Bytes, AllocError>
    ensures { IfOk result (λ bytes. bytes ≡ text.snapshot_text snapshot.now) }
{
    let mut out = List::new(alloc);
    out.extend_from_slice(b"chimera checkpoint 1\n")?;
    push_number_line(&mut out, b"at ", snapshot.at as usize)?;
    push_number_line(&mut out, b"cells ", snapshot.cells.len())?;
    push_cell_lines(&mut out, snapshot.cells.as_slice())?;
    push_number_line(&mut out, b"objects ", snapshot.objects.len())?;
    push_object_lines(&mut out, snapshot.objects.as_slice())?;
    push_threads(&mut out, snapshot.threads.as_slice())?;
    Ok(out)
}

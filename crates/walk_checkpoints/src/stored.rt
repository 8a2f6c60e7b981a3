// What the types of a snapshot in memory tell of its numbers.

ghost use Rattle.std.specs.Prelude.{◌≡◌, ◌<◌, ◌^◌, ℕ};
ghost use Rattle.std.specs.List.{AllByRecursion};
ghost use Rattle.rr_base.specs.declared.trap.Trap.{Trap};
ghost use Rattle.snapshot_reached.specs.Stored.{IsStored, IsStoredThread};
ghost use Rattle.thread_interpreter.specs.declared.part.FramePart.{FramePart};
ghost use Rattle.thread_interpreter.specs.declared.part.PhasePart.TheVariants as part;

use snapshots::Snapshot;
use thread_interpreter::{FramePart, PhasePart, ThreadPart};

// A word that is read has 64 bits.
fn read_word(word: u64)
    ensures { word < 2 ^ 64 }
{
    let _word = word;
}

// Reads words.
fn read_words(words: &[u64])
    ensures { AllByRecursion (λ w. w < 2 ^ 64) words.now }
{
    let mut rest = words;
    while let [word, more @ ..] = rest {
        read_word(*word);
        rest = more;
    }
}

// Reads the words of cells.
fn read_cells(cells: &[(u32, u64)])
    ensures { AllByRecursion (λ (c : ℕ × ℕ). c.1 < 2 ^ 64) cells.now }
{
    let mut rest = cells;
    while let [cell, more @ ..] = rest {
        read_word(cell.1);
        rest = more;
    }
}

// Reads the registers of frames.
fn read_frames(frames: &[FramePart])
    ensures { AllByRecursion (λ (f : FramePart). AllByRecursion (λ w. w < 2 ^ 64) f.registers) frames.now }
{
    let mut rest = frames;
    while let [frame, more @ ..] = rest {
        read_words(frame.registers.as_slice());
        rest = more;
    }
}

// Reads the line of a trap: it has 32 bits.
fn read_phase(phase: PhasePart)
    ensures { (kind : Trap) (line : ℕ) → phase ≡ part.Trapped kind line → line < 2 ^ 32 }
{
    match phase {
        PhasePart::Trapped { line, .. } => {
            let _line = line;
        }
        PhasePart::Fresh | PhasePart::Begun(_) | PhasePart::Running | PhasePart::Ended => {}
    }
}

// Reads the numbers of a thread.
fn read_thread(thread: &ThreadPart)
    ensures { IsStoredThread thread.now }
{
    read_frames(thread.frames.as_slice());
    read_phase(thread.phase);
}

// Reads those of all threads.
fn read_threads(threads: &[ThreadPart])
    ensures { AllByRecursion IsStoredThread threads.now }
{
    let mut rest = threads;
    while let [thread, more @ ..] = rest {
        read_thread(thread);
        rest = more;
    }
}

// Reads the numbers of a snapshot, each of which its type has. Nothing else is done.
pub fn read_numbers(snapshot: &Snapshot)
    ensures { IsStored snapshot.now }
{
    read_cells(snapshot.cells.as_slice());
    read_threads(snapshot.threads.as_slice());
}

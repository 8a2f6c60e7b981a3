// The snapshot of a draft.
ghost use Rattle.std.specs.Prelude.{◌≡◌, ◌≤◌, ℕ, IfOk};
ghost use Rattle.rr_base.specs.Traps.{trap_number};
ghost use Rattle.snapshots.specs.Text as text;
ghost use Rattle.snapshot_reader.specs.Made.{AllCanBe, CanBe, IsPhase};

use rr_base::{List, Trap};
use snapshots::{Draft, DraftThread, HeadPhase, Snapshot};
use std::alloc::{AllocError, Global};
use thread_interpreter::{PhasePart, ThreadPart};

// The trap of a number.
fn trap_of(number: u8) -> Trap
    requires some { 1 ≤ number }
    requires few { number ≤ 18 }
    ensures { trap_number result ≡ number }
{
    match number {
        2 => Trap::Overflow,
        3 => Trap::ShiftRange,
        4 => Trap::BadDereference,
        5 => Trap::OutOfObject,
        6 => Trap::BadKind,
        7 => Trap::BadSize,
        8 => Trap::ArenaFull,
        9 => Trap::MutexMisuse,
        10 => Trap::BarrierMisuse,
        11 => Trap::BadThread,
        12 => Trap::Limit,
        13 => Trap::CastRange,
        14 => Trap::PointerToNumber,
        15 => Trap::CompareObjects,
        16 => Trap::Depth,
        17 => Trap::LogFull,
        18 => Trap::RwMisuse,
        _ => Trap::DivideByZero,
    }
}

fn phase_of(phase: HeadPhase) -> PhasePart
    requires { IsPhase phase }
    ensures { text.head_phase result ≡ phase }
{
    match phase {
        HeadPhase::Fresh => PhasePart::Fresh,
        HeadPhase::Begun(function) => PhasePart::Begun(function),
        HeadPhase::Running => PhasePart::Running,
        HeadPhase::Ended => PhasePart::Ended,
        HeadPhase::Trapped { kind, line } => PhasePart::Trapped {
            kind: trap_of(kind),
            line: line as u32,
        },
    }
}

fn part_of(draft: DraftThread) -> ThreadPart
    requires { IsPhase draft.head.phase }
    ensures { (t : ℕ) → CanBe t draft → text.thread_draft t result ≡ draft }
{
    let DraftThread {
        head,
        frames,
        stripes,
        regions,
    } = draft;
    ThreadPart {
        count: head.count,
        arena: head.arena,
        entries: head.entries,
        revokes: head.revokes,
        printed: head.printed,
        frames,
        stripes,
        regions,
        phase: phase_of(head.phase),
    }
}

fn parts_of(alloc: Global, drafts: List<DraftThread>) -> Result<List<ThreadPart>, AllocError>
    requires { AllCanBe 0 drafts }
    ensures { IfOk result (λ it. text.threads_from 0 it ≡ drafts) }
{
    let mut found = List::new(alloc);
    for draft in drafts {
        found.push(part_of(draft))?;
    }
    Ok(found)
}

/// The snapshot of a draft.
pub fn snapshot_of(alloc: Global, draft: Draft) -> Result<Snapshot, AllocError>
    requires { AllCanBe 0 draft.threads }
    ensures { IfOk result (λ it. text.draft_of it ≡ draft) }
{
    let Draft {
        at,
        cells,
        objects,
        threads,
    } = draft;
    let threads = parts_of(alloc, threads)?;
    Ok(Snapshot {
        at,
        cells,
        objects,
        threads,
    })
}

// A thread's state out of its part, and its part out of its state.
ghost use Rattle.std.specs.Prelude.{◌≡◌, ◌++◌, ◌∷◌, [], map, false, IfOk, OnOk};
ghost use Rattle.flow_code.specs.Next.{has_ended as has_ended_of};
ghost use Rattle.flow_code.specs.Holding.{nesting as nesting_of};
ghost use Rattle.thread_interpreter.specs.Starts.{no_frame as no_frame_of};
ghost use Rattle.thread_interpreter.specs.Parts.{frame_part as frame_part_of, stripe_part as stripe_part_of, region_part as region_part_of, phase_part as phase_part_of, part_of as part_of_thread, frames_in, still, frame_of as frame_of_part, stripe_of as stripe_of_part, region_of as region_of_part, phase_of as phase_of_part, top_in, below_in, thread_of, is_loaded, IsWord, AreWords};

use crate::frame::Frame;
use crate::giving::nesting;
use crate::part::{FramePart, PhasePart, RegionPart, StripePart, ThreadPart};
use crate::region::OpenRegion;
use crate::state::ThreadState;
use crate::stripes::number_of_stripe;
use flow_code::{Phase, Stripe};
use rr_base::List;
use std::alloc::{AllocError, Global};
use word_semantics::{number, word};

// What stands on top of a thread without frames.
fn no_frame(alloc: Global) -> Frame
    ensures { result ≡ no_frame_of }
{
    Frame {
        function: 0,
        instr: 0,
        made: 0,
        kept: 0,
        registers: Vec::new(alloc),
    }
}

fn frame_of(alloc: Global, part: &FramePart) -> Result<Frame, AllocError>
    ensures { IfOk result (λ it. it ≡ frame_of_part part.now) }
{
    let registers = Vec::from_slice(alloc, part.registers.as_slice())?;
    Ok(Frame {
        function: part.function,
        instr: part.instr as usize,
        made: part.made,
        kept: number(part.kept),
        registers,
    })
}

fn frames_of(alloc: Global, parts: &[FramePart]) -> Result<Vec<Frame>, AllocError>
    ensures { IfOk result (λ it. it.items ≡ map frame_of_part parts.now) }
{
    let mut frames = Vec::new(alloc);
    let mut rest = parts;
    while let [part, more @ ..] = rest {
        frames.push(frame_of(alloc, part)?)?;
        rest = more;
    }
    Ok(frames)
}

// The running frame, with those below it left.
fn take_top(alloc: Global, frames: &mut Vec<Frame>) -> Frame
    ensures top { result ≡ top_in frames.old.items }
    ensures below { frames.new.items ≡ below_in frames.old.items }
{
    match frames.pop() {
        Some(top) => top,
        None => no_frame(alloc),
    }
}

fn stripe_of(part: StripePart) -> Stripe
    ensures { result ≡ stripe_of_part part }
{
    Stripe {
        lock: part.lock,
        stripe: part.stripe,
        owed: part.owed,
    }
}

fn stripes_of(alloc: Global, parts: &[StripePart]) -> Result<Vec<Stripe>, AllocError>
    ensures { IfOk result (λ it. it.items ≡ map stripe_of_part parts.now) }
{
    let mut stripes = Vec::new(alloc);
    let mut rest = parts;
    while let [part, more @ ..] = rest {
        stripes.push(stripe_of(*part))?;
        rest = more;
    }
    Ok(stripes)
}

fn region_of(alloc: Global, part: &RegionPart) -> Result<OpenRegion, AllocError>
    ensures { IfOk result (λ it. it ≡ region_of_part part.now) }
{
    let stripes = Vec::from_slice(alloc, part.stripes.as_slice())?;
    Ok(OpenRegion {
        frame: part.frame as usize,
        instr: part.instr as usize,
        stripes,
    })
}

fn regions_of(alloc: Global, parts: &[RegionPart]) -> Result<Vec<OpenRegion>, AllocError>
    ensures { IfOk result (λ it. it.items ≡ map region_of_part parts.now) }
{
    let mut regions = Vec::new(alloc);
    let mut rest = parts;
    while let [part, more @ ..] = rest {
        regions.push(region_of(alloc, part)?)?;
        rest = more;
    }
    Ok(regions)
}

fn phase_of(part: PhasePart) -> Phase
    ensures { result ≡ phase_of_part part }
{
    match part {
        PhasePart::Fresh => Phase::Fresh,
        PhasePart::Begun(function) => Phase::Begun(function),
        PhasePart::Running => Phase::Running,
        PhasePart::Ended => Phase::Ended,
        PhasePart::Trapped { kind, line } => Phase::Trapped { kind, line },
    }
}

/// The state of the thread that a part stands for.
pub(crate) fn state_of(alloc: Global, part: &ThreadPart) -> Result<ThreadState, AllocError>
    ensures { IfOk result (λ it. it.thread ≡ thread_of part.now) }
{
    let mut below = frames_of(alloc, part.frames.as_slice())?;
    let top = take_top(alloc, &mut below);
    let stripes = stripes_of(alloc, part.stripes.as_slice())?;
    let regions = regions_of(alloc, part.regions.as_slice())?;
    Ok(ThreadState {
        count: part.count,
        arena: part.arena,
        entries: part.entries,
        revokes: part.revokes,
        printed: part.printed,
        phase: phase_of(part.phase),
        top,
        below,
        spare: Vec::new(alloc),
        stripes,
        regions,
        pairs: Vec::new(alloc),
    })
}

// The number of an instruction, a frame or a list's items: memory has no room for more than these of them.
fn counted(number: usize) -> Result<u32, AllocError>
    ensures { IfOk result (λ it. it ≡ number) }
{
    u32::try_from(number).map_err(|_| AllocError)
}

fn frame_part(alloc: Global, frame: &Frame) -> Result<FramePart, AllocError>
    ensures part { IfOk result (λ it. it ≡ frame_part_of frame.now) }
    ensures shown { IsWord frame.now }
{
    let kept = word(frame.kept);
    Ok(FramePart {
        function: frame.function,
        instr: counted(frame.instr)?,
        made: frame.made,
        kept,
        registers: List::from_slice(alloc, &frame.registers)?,
    })
}

// The parts of the frames of a running thread, the running one last.
fn frame_parts(alloc: Global, below: &[Frame], top: &Frame) -> Result<List<FramePart>, AllocError>
    ensures parts { IfOk result (λ it. it ≡ map frame_part_of (below.now ++ top.now ∷ [])) }
    ensures words { OnOk result (AreWords (below.now ++ top.now ∷ [])) }
{
    let mut parts = List::new(alloc);
    let mut rest = below;
    while let [frame, more @ ..] = rest {
        let part = frame_part(alloc, frame)?;
        parts.push(part)?;
        rest = more;
    }
    let part = frame_part(alloc, top)?;
    parts.push(part)?;
    Ok(parts)
}

fn stripe_part(regions: &[OpenRegion], stripe: Stripe) -> Result<StripePart, AllocError>
    ensures { IfOk result (λ it. it ≡ stripe_part_of regions.now stripe) }
{
    Ok(StripePart {
        lock: stripe.lock,
        stripe: stripe.stripe,
        owed: stripe.owed,
        nesting: counted(nesting(regions, number_of_stripe(stripe)))?,
    })
}

fn stripe_parts(
    alloc: Global,
    regions: &[OpenRegion],
    stripes: &[Stripe],
) -> Result<List<StripePart>, AllocError>
    ensures { IfOk result (λ it. it ≡ map (stripe_part_of regions.now) stripes.now) }
{
    let mut parts = List::new(alloc);
    let mut rest = stripes;
    while let [stripe, more @ ..] = rest {
        parts.push(stripe_part(regions, *stripe)?)?;
        rest = more;
    }
    Ok(parts)
}

fn region_part(alloc: Global, region: &OpenRegion) -> Result<RegionPart, AllocError>
    ensures { IfOk result (λ it. it ≡ region_part_of region.now) }
{
    Ok(RegionPart {
        frame: counted(region.frame)?,
        instr: counted(region.instr)?,
        stripes: List::from_slice(alloc, &region.stripes)?,
    })
}

fn region_parts(alloc: Global, regions: &[OpenRegion]) -> Result<List<RegionPart>, AllocError>
    ensures { IfOk result (λ it. it ≡ map region_part_of regions.now) }
{
    let mut parts = List::new(alloc);
    let mut rest = regions;
    while let [region, more @ ..] = rest {
        parts.push(region_part(alloc, region)?)?;
        rest = more;
    }
    Ok(parts)
}

fn phase_part(phase: Phase) -> PhasePart
    requires { is_loaded phase ≡ false }
    ensures { result ≡ phase_part_of phase }
{
    match phase {
        Phase::Fresh => PhasePart::Fresh,
        Phase::Begun(function) => PhasePart::Begun(function),
        Phase::Loaded { .. } | Phase::Running => PhasePart::Running,
        Phase::Trapped { kind, line } => PhasePart::Trapped { kind, line },
        Phase::Ended | Phase::Halted | Phase::Stopped | Phase::Closed => PhasePart::Ended,
    }
}

// Whether the thread makes no more events.
fn has_ended(phase: Phase) -> bool
    ensures { result ≡ has_ended_of phase }
{
    !matches!(
        phase,
        Phase::Fresh | Phase::Begun(_) | Phase::Loaded { .. } | Phase::Running
    )
}

// The frames of a thread that runs; none before and after.
#[tactic(auto, using(crate::proofs::Parted::no_words))]
fn frames_part(alloc: Global, state: &ThreadState) -> Result<List<FramePart>, AllocError>
    ensures parts { IfOk result (λ it. it ≡ map frame_part_of (frames_in state.now.thread.phase state.now.thread)) }
    ensures words { OnOk result (AreWords (frames_in state.now.thread.phase state.now.thread)) }
{
    match state.phase {
        Phase::Running => frame_parts(alloc, &state.below, &state.top),
        _ => Ok(List::new(alloc)),
    }
}

// The stripes of a thread that hasn't ended.
fn stripes_part(alloc: Global, state: &ThreadState) -> Result<List<StripePart>, AllocError>
    ensures { IfOk result (λ it. it ≡ map (stripe_part_of state.now.thread.regions) (still state.now.thread.phase state.now.thread.stripes)) }
{
    if has_ended(state.phase) {
        return Ok(List::new(alloc));
    }
    stripe_parts(alloc, &state.regions, &state.stripes)
}

// The open regions of a thread that hasn't ended.
fn regions_part(alloc: Global, state: &ThreadState) -> Result<List<RegionPart>, AllocError>
    ensures { IfOk result (λ it. it ≡ map region_part_of (still state.now.thread.phase state.now.thread.regions)) }
{
    if has_ended(state.phase) {
        return Ok(List::new(alloc));
    }
    region_parts(alloc, &state.regions)
}

/// The part of a thread in this state.
pub(crate) fn part_of(alloc: Global, state: &ThreadState) -> Result<ThreadPart, AllocError>
    requires { is_loaded state.now.thread.phase ≡ false }
    ensures part { IfOk result (λ it. it ≡ part_of_thread state.now.thread) }
    ensures words { OnOk result (AreWords (frames_in state.now.thread.phase state.now.thread)) }
{
    Ok(ThreadPart {
        count: state.count,
        arena: state.arena,
        entries: state.entries,
        revokes: state.revokes,
        printed: state.printed,
        frames: frames_part(alloc, state)?,
        stripes: stripes_part(alloc, state)?,
        regions: regions_part(alloc, state)?,
        phase: phase_part(state.phase),
    })
}

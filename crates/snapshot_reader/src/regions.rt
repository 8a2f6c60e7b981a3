// The lines of regions.
ghost use Rattle.std.specs.Prelude.{◌≡◌, ◌<◌, ◌+◌, ◌*◌, ◌&&◌, None, List, length, IfOk};
ghost use Rattle.std.specs.List.{list_all};
ghost use Rattle.std.specs.Option.{option_copied};
ghost use Rattle.snapshots.specs.Conditions as conditions;
ghost use Rattle.snapshot_reader.specs.Misfits.{Misfits};
ghost use Rattle.snapshot_reader.specs.Tallies.{AreBelow, AreListed};
ghost use Rattle.thread_interpreter.specs.declared.part.StripePart.{StripePart};

use crate::machine::{act_at, function_at};
use crate::order::is_from;
use crate::places::place_in;
use flow_code::{Act, Code};
use std::alloc::{AllocError, Global};
use thread_interpreter::{FramePart, RegionPart};

fn is_take(act: Option<&Act>) -> bool
    ensures { result ≡ conditions.is_take (option_copied act.entry) }
{
    matches!(act, Some(Act::Take(_)))
}

fn opens(code: &Code, frame: Option<&FramePart>, instr: u32) -> bool
    ensures { result ≡ conditions.opens code.now (option_copied frame.entry) instr }
{
    match frame {
        Some(frame) => is_take(act_at(function_at(code, frame.function), instr)),
        None => false,
    }
}

// Whether the pairs differ and each is listed. Each is marked.
fn pairs_fit(
    locks: usize,
    listed: &[u32],
    marks: &mut [u32],
    mark: u32,
    pairs: &[(u16, u8)],
) -> bool
    requires listed { length listed.now ≡ 8 * locks }
    requires marks { length marks.old ≡ 8 * locks }
    requires fresh { AreBelow mark marks.old }
    ensures marks { length marks.new ≡ 8 * locks }
    ensures used { AreBelow (mark + 1) marks.new }
    ensures fits { (stripes : List StripePart) → AreListed locks stripes listed.now → result ≡ (conditions.all_differ pairs.now && list_all (conditions.is_among stripes) pairs.now) }
{
    let mut rest = pairs;
    while let [pair, more @ ..] = rest {
        let Some(place) = place_in(locks, *pair) else {
            return false;
        };
        if marks[place] == mark || listed[place] == 0 {
            return false;
        }
        marks[place] = mark;
        rest = more;
    }
    true
}

/// The line of the first region that isn't as it must be, in a thread with these frames and listed stripes.
pub fn misfit_region(
    alloc: Global,
    code: &Code,
    frames: &[FramePart],
    listed: &[u32],
    first: u32,
    regions: &[RegionPart],
) -> Result<Option<u32>, AllocError>
    requires locks { length code.now.locks < 65536 }
    requires few { length regions.now < 4294967295 }
    requires listed { length listed.now ≡ 8 * length code.now.locks }
    ensures { (stripes : List StripePart) → AreListed (length code.now.locks) stripes listed.now → IfOk result (Misfits (conditions.regions_judged code.now frames.now stripes None regions.now) first) }
{
    let locks = code.locks.len();
    let mut marks = vec![in alloc; 0; 8 * locks]?;
    let mut mark = 1;
    let mut line = first;
    let mut before = None;
    let mut rest = regions;
    while let [region, more @ ..] = rest {
        let stands = opens(code, frames.get(region.frame as usize), region.instr)
            && is_from(before, region.frame);
        if !pairs_fit(locks, listed, &mut marks, mark, region.stripes.as_slice()) || !stands {
            return Ok(Some(line));
        }
        before = Some(region.frame);
        mark += 1;
        line = line.saturating_add(1);
        rest = more;
    }
    Ok(None)
}

// Stripes by their places, 8 to a lock.
ghost use Rattle.std.specs.Prelude.{◌≡◌, ◌*◌, ◌+◌, ◌<◌, ◌≤◌, IfOk, length};
ghost use Rattle.snapshot_reader.specs.Tallies.{AreBelow, AreListed, AreNestings, PlaceIs, Tallied};
ghost use Rattle.std.specs.List.{AllByRecursion};
ghost use Rattle.snapshot_reader.specs.Tallies as tallies;

use rr_base::List;
use std::alloc::{AllocError, Global};
use thread_interpreter::{RegionPart, StripePart};

/// The place of a stripe, 8 to a lock.
pub fn place_of(pair: (u16, u8)) -> usize
    ensures { result ≡ tallies.place pair }
{
    8 * usize::from(pair.0) + usize::from(pair.1)
}

/// The place of a stripe, if a machine with so many locks has it.
pub fn place_in(locks: usize, pair: (u16, u8)) -> Option<usize>
    ensures { PlaceIs locks pair result }
{
    if usize::from(pair.0) < locks && pair.1 < 8 {
        Some(place_of(pair))
    } else {
        None
    }
}

// Counts each stripe among the pairs once, with the mark of their region.
fn tally_pairs(counts: &mut [u32], marks: &mut [u32], mark: u32, locks: usize, pairs: &[(u16, u8)])
    requires counts { length counts.old ≡ 8 * locks }
    requires marks { length marks.old ≡ 8 * locks }
    requires fresh { AreBelow mark marks.old }
    requires few { AreBelow mark counts.old }
    requires some { 1 ≤ mark }
    ensures counts { length counts.new ≡ 8 * locks }
    ensures marks { length marks.new ≡ 8 * locks }
    ensures tallied { Tallied locks counts.old counts.new pairs.now }
    ensures used { AreBelow (mark + 1) marks.new }
    ensures more { AreBelow (mark + 1) counts.new }
{
    let mut rest = pairs;
    while let [pair, more @ ..] = rest {
        if let Some(place) = place_in(locks, *pair) {
            if marks[place] != mark {
                marks[place] = mark;
                counts[place] += 1;
            }
        }
        rest = more;
    }
}

/// In how many of the regions each stripe is.
pub fn nestings(
    alloc: Global,
    locks: usize,
    regions: &[RegionPart],
) -> Result<List<u32>, AllocError>
    requires locks { locks < 65536 }
    requires few { length regions.now < 4294967295 }
    ensures { IfOk result (AreNestings locks regions.now) }
{
    let mut counts = vec![in alloc; 0; 8 * locks]?;
    let mut marks = vec![in alloc; 0; 8 * locks]?;
    let mut mark = 1;
    let mut rest = regions;
    while let [region, more @ ..] = rest {
        tally_pairs(
            &mut counts,
            &mut marks,
            mark,
            locks,
            region.stripes.as_slice(),
        );
        mark += 1;
        rest = more;
    }
    Ok(List::from_vec(counts))
}

/// The places of the stripes.
pub fn listed(alloc: Global, locks: usize, stripes: &[StripePart]) -> Result<List<u32>, AllocError>
    requires locks { locks < 65536 }
    requires inside { AllByRecursion (λ x. tallies.IsIn locks (x.lock, x.stripe)) stripes.now }
    ensures { IfOk result (AreListed locks stripes.now) }
{
    let mut places = vec![in alloc; 0; 8 * locks]?;
    let mut rest = stripes;
    while let [stripe, more @ ..] = rest {
        if let Some(place) = place_in(locks, (stripe.lock, stripe.stripe)) {
            places[place] = 1;
        }
        rest = more;
    }
    Ok(List::from_vec(places))
}

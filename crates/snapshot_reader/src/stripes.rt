// The lines of stripes.
ghost use Rattle.std.specs.Prelude.{◌≡◌, ◌<◌, None, length};
ghost use Rattle.snapshots.specs.Conditions as conditions;
ghost use Rattle.snapshot_reader.specs.Misfits.{Misfits};
ghost use Rattle.snapshot_reader.specs.Tallies.{AreNestings};
ghost use Rattle.sync_objects.specs.Setup.{SetupView};
ghost use Rattle.thread_interpreter.specs.declared.part.RegionPart.{RegionPart};
ghost use Rattle.std.specs.Prelude.{List};

use crate::order::is_after;
use crate::places::{place_in, place_of};
use flow_code::Code;
use thread_interpreter::StripePart;

fn stripe_fits(code: &Code, counts: &[u32], before: Option<u64>, stripe: &StripePart) -> bool
    requires { length code.now.locks < 65536 }
    ensures { (s : SetupView) (regions : List RegionPart) → AreNestings (length code.now.locks) regions counts.now → result ≡ conditions.stripe_fits code.now s regions before stripe.now }
{
    match place_in(code.locks.len(), (stripe.lock, stripe.stripe)) {
        Some(place) => {
            is_after(before, place as u64)
                && 1 <= stripe.nesting
                && counts.get(place) == Some(&stripe.nesting)
        }
        None => false,
    }
}

/// The line of the first stripe that isn't as it must be, by the number of regions that have each.
pub fn misfit_stripe(code: &Code, counts: &[u32], first: u32, stripes: &[StripePart]) -> Option<u32>
    requires { length code.now.locks < 65536 }
    ensures { (s : SetupView) (regions : List RegionPart) → AreNestings (length code.now.locks) regions counts.now → Misfits (conditions.stripes_judged code.now s regions None stripes.now) first result }
{
    let mut line = first;
    let mut before = None;
    let mut rest = stripes;
    while let [stripe, more @ ..] = rest {
        if !stripe_fits(code, counts, before, stripe) {
            return Some(line);
        }
        before = Some(place_of((stripe.lock, stripe.stripe)) as u64);
        line = line.saturating_add(1);
        rest = more;
    }
    None
}

// The race listing of a source.

ghost use Rattle.std.specs.Prelude.{◌≡◌, ◌≤◌, ◌^◌, length, IfErr, IfOk, MatchResult};
ghost use Rattle.command_line.specs.declared.answer.Answer.TheVariants as answer;
ghost use Rattle.job_laws.specs.Listings.{ListsRaces};
ghost use Rattle.job_laws.specs.Readings.{ReadsSource};
ghost use Rattle.job_laws.specs.Sources.{IsTree};
ghost use Rattle.job_outcomes.specs.Faults.{IsPure, ShelfStops};
ghost use Rattle.listing.specs.Text.{races_text_of};
ghost use Rattle.job_outcomes.specs.Outcomes.{answers};
ghost use Rattle.job_outcomes.specs.Steps.{Comes, Gives, Lacks};

use crate::sources::{SOURCE_BYTES, compiled, let_go};
use command_line::{Answer, Part};
use job_outcomes::{Keeper, Outcome, Stop, file};
use job_runs::or_stop;
use listing::races_text;
use lock_sound::Weakened;
use profiles::Profile;
use std::alloc::{AllocError, Global};

// The listing of a code.
fn listing_of<'a>(alloc: Global, weakened: &Weakened) -> Result<Outcome<'a>, AllocError>
    ensures { IfOk result (λ o. o ≡ answers (answer.Done (races_text_of weakened.now.plain weakened.now.pairs))) }
{
    let out = races_text(alloc, weakened.plain(), weakened.pairs().as_slice())?;
    Ok(Outcome::answers(alloc, Answer::Done { out }))
}

// The outcome of a source's bytes.
fn listed<'a>(alloc: Global, source: &[u8]) -> Result<Outcome<'a>, Stop>
    requires { length source.now ≤ 2 ^ 20 }
    ensures outcome { Gives (Comes (IsTree source.now) ListsRaces) result }
    ensures pure { IfErr result IsPure }
{
    match compiled(alloc, source, &Profile::All) {
        Ok(weakened) => {
            let told = or_stop(listing_of(alloc, &weakened));
            let_go(weakened);
            told
        }
        Err(stop) => Err(stop),
    }
}

/// The outcome of a source by its name.
pub(crate) fn races<'a, S: Keeper>(
    alloc: Global,
    source: &'a str,
    shelf: &mut S,
) -> Result<Outcome<'a>, Stop>
    ensures outcome { Gives (ReadsSource (S.files shelf.old) source.now ListsRaces) result }
    ensures files { S.files shelf.new ≡ S.files shelf.old }
    ensures faults { MatchResult result (λ _. S.faults shelf.new ≡ S.faults shelf.old) (λ stop. ShelfStops stop (S.faults shelf.old) (S.faults shelf.new)) }
    ensures sound { S.IsSound shelf.old → S.IsSound shelf.new }
    ensures lacks { S.IsSound shelf.old → result ≡ Err Stop.ShelfFailed → Lacks (S.files shelf.old) source.now }
{
    let text = file(alloc, shelf, source, SOURCE_BYTES, Part::Source)?;
    listed(alloc, text.as_slice())
}

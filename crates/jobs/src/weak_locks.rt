// The listing of a source's weak locks.

ghost use Rattle.std.specs.Prelude.{◌≡◌, ◌≤◌, ◌^◌, length, IfErr, IfOk, MatchResult, option_map};
ghost use Rattle.command_line.specs.declared.answer.Answer.TheVariants as answer;
ghost use Rattle.job_laws.specs.Listings.{ListsWeakLocks};
ghost use Rattle.job_laws.specs.Readings.{ReadsProfile};
ghost use Rattle.job_laws.specs.Sources.{IsTree};
ghost use Rattle.job_laws.specs.Wants.{LacksEither};
ghost use Rattle.job_profiles.specs.Profiles.{LacksProfile};
ghost use Rattle.job_outcomes.specs.Faults.{IsPure, ShelfStops};
ghost use Rattle.listing.specs.WeakText.{weak_text_of};
ghost use Rattle.job_outcomes.specs.Outcomes.{answers};
ghost use Rattle.job_outcomes.specs.Steps.{Comes, Gives};

use crate::sources::{SOURCE_BYTES, compiled, let_go};
use command_line::{Answer, Part};
use job_outcomes::{Keeper, Outcome, Stop, file};
use job_profiles::profile_of;
use job_runs::or_stop;
use listing::weak_text;
use lock_sound::Weakened;
use profiles::Profile;
use std::alloc::{AllocError, Global};

// The listing of a code.
fn listing_of<'a>(alloc: Global, weakened: &Weakened) -> Result<Outcome<'a>, AllocError>
    ensures { IfOk result (λ o. o ≡ answers (answer.Done (weak_text_of weakened.now.plain weakened.now.weak.locks weakened.now.grains.rows))) }
{
    let locks = weakened.code().locks.as_slice();
    let rows = weakened.grains().rows.as_slice();
    let out = weak_text(alloc, weakened.plain(), locks, rows)?;
    Ok(Outcome::answers(alloc, Answer::Done { out }))
}

// The outcome of a source's bytes.
fn listed<'a>(alloc: Global, source: &[u8], profile: &Profile) -> Result<Outcome<'a>, Stop>
    requires { length source.now ≤ 2 ^ 20 }
    ensures outcome { Gives (Comes (IsTree source.now) (ListsWeakLocks profile.now)) result }
    ensures pure { IfErr result IsPure }
{
    match compiled(alloc, source, profile) {
        Ok(weakened) => {
            let told = or_stop(listing_of(alloc, &weakened));
            let_go(weakened);
            told
        }
        Err(stop) => Err(stop),
    }
}

/// The outcome of a source and a profile by their names.
pub(crate) fn weak_locks<'a, S: Keeper>(
    alloc: Global,
    source: &'a str,
    profile: Option<&str>,
    shelf: &mut S,
) -> Result<Outcome<'a>, Stop>
    ensures outcome { Gives (ReadsProfile (S.files shelf.old) source.now (option_map (λ n. n.now) profile.entry) ListsWeakLocks) result }
    ensures files { S.files shelf.new ≡ S.files shelf.old }
    ensures faults { MatchResult result (λ _. S.faults shelf.new ≡ S.faults shelf.old) (λ stop. ShelfStops stop (S.faults shelf.old) (S.faults shelf.new)) }
    ensures sound { S.IsSound shelf.old → S.IsSound shelf.new }
    ensures lacks { S.IsSound shelf.old → result ≡ Err Stop.ShelfFailed → LacksEither (S.files shelf.old) source.now (LacksProfile (S.files shelf.old) (option_map (λ n. n.now) profile.entry)) }
{
    let text = file(alloc, shelf, source, SOURCE_BYTES, Part::Source)?;
    let profile = profile_of(alloc, shelf, profile)?;
    listed(alloc, text.as_slice(), &profile)
}

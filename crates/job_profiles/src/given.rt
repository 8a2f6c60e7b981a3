// The profile that a job is given.

ghost use Rattle.std.specs.Prelude.{◌≡◌, filter, Some, IfErr, IfOk, MatchResult, Ok, option_map};
ghost use Rattle.job_profiles.specs.Profiles.{IsProfile, IsSpelled, LacksProfile, are_names, named as named_of};
ghost use Rattle.command_line.specs.declared.answer.Answer.TheVariants as answer;
ghost use Rattle.profiles.specs.declared.profile.Profile.TheVariants as profile;
ghost use Rattle.order_log.specs.Line as line;
ghost use Rattle.order_log.specs.Log.{HasNames};
ghost use Rattle.job_outcomes.specs.Faults.{IsPure, ShelfStops};
ghost use Rattle.job_outcomes.specs.Steps.{Finds};
ghost use Rattle.job_outcomes.specs.declared.stop.Stop.TheVariants as stop;

use command_line::{Answer, Part};
use job_outcomes::{Keeper, Stop, file};
use order_log::is_name;
use profile_book::{ProfileFault, read_profile};
use profiles::{FunctionPairs, Profile};
use rr_base::{Bytes, List};
use std::alloc::{AllocError, Global};

/// The most bytes of a profile.
const PROFILE_BYTES: u32 = 1_048_576;

// A profile that is refused by this number.
fn refused(number: u8) -> Stop
    ensures { result ≡ stop.Refused (answer.ProfileRefused number) }
{
    Stop::Refused(Answer::ProfileRefused { number })
}

// The profile that bytes spell.
fn spelled(alloc: Global, bytes: &[u8]) -> Result<Profile, Stop>
    ensures profile { Finds (IsSpelled (Ok bytes.now)) result }
    ensures pure { IfErr result IsPure }
{
    match read_profile(alloc, bytes) {
        Ok(profile) => Ok(profile),
        Err(ProfileFault::NotJson) => Err(refused(21)),
        Err(ProfileFault::NotProfile) => Err(refused(22)),
        Err(ProfileFault::OutOfMemory) => Err(Stop::OutOfMemory),
    }
}

// The profile in the file of this name.
fn profile_in<S: Keeper>(alloc: Global, shelf: &mut S, name: &str) -> Result<Profile, Stop>
    ensures profile { Finds (IsProfile (S.files shelf.old) (Some name.now)) result }
    ensures files { S.files shelf.new ≡ S.files shelf.old }
    ensures faults { MatchResult result (λ _. S.faults shelf.new ≡ S.faults shelf.old) (λ stop. ShelfStops stop (S.faults shelf.old) (S.faults shelf.new)) }
    ensures sound { S.IsSound shelf.old → S.IsSound shelf.new }
    ensures lacks { S.IsSound shelf.old → result ≡ Err Stop.ShelfFailed → LacksProfile (S.files shelf.old) (Some name.now) }
{
    let bytes = file(alloc, shelf, name, PROFILE_BYTES, Part::Profile)?;
    spelled(alloc, bytes.as_slice())
}

/// The profile in the file of this name, or All without a name. A sound shelf fails for want of the name alone.
pub fn profile_of<S: Keeper>(
    alloc: Global,
    shelf: &mut S,
    name: Option<&str>,
) -> Result<Profile, Stop>
    ensures profile { Finds (IsProfile (S.files shelf.old) (option_map (λ n. n.now) name.entry)) result }
    ensures files { S.files shelf.new ≡ S.files shelf.old }
    ensures faults { MatchResult result (λ _. S.faults shelf.new ≡ S.faults shelf.old) (λ stop. ShelfStops stop (S.faults shelf.old) (S.faults shelf.new)) }
    ensures sound { S.IsSound shelf.old → S.IsSound shelf.new }
    ensures lacks { S.IsSound shelf.old → result ≡ Err Stop.ShelfFailed → LacksProfile (S.files shelf.old) (option_map (λ n. n.now) name.entry) }
{
    match name {
        Some(name) => profile_in(alloc, shelf, name),
        None => Ok(Profile::All),
    }
}

fn tells_name(text: &[u8]) -> bool
    ensures { result ≡ line.is_name text.now }
{
    is_name(text)
}

fn has_names(pair: &(Bytes, Bytes)) -> bool
    ensures { result ≡ are_names pair.now }
{
    tells_name(pair.0.as_slice()) && tells_name(pair.1.as_slice())
}

fn copied(alloc: Global, pair: &(Bytes, Bytes)) -> Result<(Bytes, Bytes), AllocError>
    ensures { IfOk result (λ copy. copy ≡ pair.now) }
{
    Ok((pair.0.copied(alloc)?, pair.1.copied(alloc)?))
}

fn kept_pairs(alloc: Global, pairs: &[(Bytes, Bytes)]) -> Result<List<(Bytes, Bytes)>, AllocError>
    ensures { IfOk result (λ kept. kept ≡ filter are_names pairs.now) }
{
    let mut kept = List::new(alloc);
    let mut rest = pairs;
    while let [pair, more @ ..] = rest {
        if has_names(pair) {
            kept.push(copied(alloc, pair)?)?;
        }
        rest = more;
    }
    Ok(kept)
}

// The pairs whose texts are names.
fn named_pairs(alloc: Global, pairs: &FunctionPairs) -> Result<FunctionPairs, AllocError>
    ensures value { IfOk result (λ kept. kept ≡ filter are_names pairs.now) }
    ensures names { IfOk result (λ kept. HasNames (profile.Pairs kept)) }
{
    let kept = kept_pairs(alloc, pairs.as_list().as_slice())?;
    Ok(FunctionPairs::new(kept))
}

/// The profile with the pairs that a source can have, which are those that a log can tell.
pub fn named(alloc: Global, profile: &Profile) -> Result<Profile, AllocError>
    ensures value { IfOk result (λ it. it ≡ named_of profile.now) }
    ensures names { IfOk result HasNames }
{
    match profile {
        Profile::All => Ok(Profile::All),
        Profile::Pairs(pairs) => Ok(Profile::Pairs(named_pairs(alloc, pairs)?)),
    }
}

//! From a source to its code with what the analyses find of it, and with its weak locks.
ghost use Rattle.std.specs.Prelude.{◌≡◌, ◌≤◌, ◌^◌, length, true, IfOk, IfErr};
ghost use Rattle.facts.specs.Pairs.{ArePairs, pairs_ascend};
ghost use Rattle.facts.specs.PointsTo.{HasRegisters, IsPointsTo};
ghost use Rattle.facts.specs.Summaries.{AreSummaries};
ghost use Rattle.flow_code.specs.Valid as validity;
ghost use Rattle.weak_code.specs.Stripped.{is_plain};
ghost use Rattle.weak_code.specs.Weakened.{weakened};
ghost use Rattle.weak_lock_facts.specs.Grains.{AreGrains};
ghost use Rattle.weak_lock_facts.specs.Ranges.{ranges_of};
ghost use Rattle.weak_valid.specs.Apart.{loops_are_apart};
ghost use Rattle.guard_paths.specs.LoopsClosed.{loops_are_closed};
ghost use Rattle.front.specs.Plain.{IsCodeOf};
ghost use Rattle.front.specs.Readings.{IsRefusedFor};

use crate::code::plain;
use crate::reading::CompileFault;
use facts::{Pair, PointsTo, Summary};
use flow_code::{Code, constants_fit};
use grain_choice::choose;
use lock_sound::{Weakened, copied_profile};
use lockset_summary::summaries;
use loop_bounds::ranges;
use points_to::solve;
use profiles::Profile;
use race_pairs::pairs;
use rr_base::List;
use std::alloc::{AllocError, Global};
use weak_lock_facts::Grains;
use weaken::weaken;

/// What two threads may touch at once: the functions' summaries, and the pairs.
#[derive(Drop)]
struct Raced {
    summaries: List<Summary>,
    pairs: List<Pair>,
}

/// What is locked where, and the code with these locks.
#[derive(Drop)]
struct Locked {
    grains: Grains,
    weak: Code,
}

/// All that the analyses find of a code.
#[derive(Drop)]
struct Findings {
    points: PointsTo,
    raced: Raced,
    locked: Locked,
}

// The summaries of a code's functions, and its pairs.
fn races_of(alloc: Global, code: &Code, points: &PointsTo) -> Result<Raced, AllocError>
    requires valid { validity.is_valid code.now ≡ true }
    requires points { HasRegisters code.now points.now }
    ensures summaries { IfOk result (λ r. AreSummaries code.now r.summaries) }
    ensures pairs { IfOk result (λ r. ArePairs code.now points.now r.summaries r.pairs) }
{
    let summaries = summaries(alloc, code)?;
    let pairs = pairs(alloc, code, points, &summaries)?;
    Ok(Raced { summaries, pairs })
}

// The grains for these pairs and this profile, and the code with their weak locks.
#[tactic(auto, using(crate::proofs::Together::grains_by, crate::proofs::Together::weak_by))]
fn locks_of(
    alloc: Global,
    code: &Code,
    points: &PointsTo,
    pairs: &List<Pair>,
    profile: &Profile,
) -> Result<Locked, AllocError>
    requires valid { validity.is_valid code.now ≡ true }
    requires points { HasRegisters code.now points.now }
    requires pairs { pairs_ascend pairs.now ≡ true }
    ensures grains { IfOk result (λ l. AreGrains code.now pairs.now (ranges_of code.now points.now) profile.now l.grains.rows) }
    ensures weak { IfOk result (λ l. l.weak ≡ weakened code.now points.now pairs.now (ranges_of code.now points.now) l.grains.rows) }
{
    let ranges = ranges(alloc, code, points)?;
    let grains = choose(alloc, code, pairs, &ranges, profile)?;
    let weak = weaken(alloc, code, points, pairs, &ranges, &grains)?;
    Ok(Locked { grains, weak })
}

// What the analyses find of a code for a profile.
#[tactic(auto, using(crate::proofs::Together::has_registers, crate::proofs::Together::ascending))]
fn find(alloc: Global, code: &Code, profile: &Profile) -> Result<Findings, AllocError>
    requires valid { validity.is_valid code.now ≡ true }
    ensures points { IfOk result (λ f. IsPointsTo code.now f.points) }
    ensures summaries { IfOk result (λ f. AreSummaries code.now f.raced.summaries) }
    ensures pairs { IfOk result (λ f. ArePairs code.now f.points f.raced.summaries f.raced.pairs) }
    ensures grains { IfOk result (λ f. AreGrains code.now f.raced.pairs (ranges_of code.now f.points) profile.now f.locked.grains.rows) }
    ensures weak { IfOk result (λ f. f.locked.weak ≡ weakened code.now f.points f.raced.pairs (ranges_of code.now f.points) f.locked.grains.rows) }
{
    let points = solve(alloc, code)?;
    let raced = races_of(alloc, code, &points)?;
    let locked = locks_of(alloc, code, &points, &raced.pairs, profile)?;
    Ok(Findings {
        points,
        raced,
        locked,
    })
}

// The code with the answers of the analyses for this profile, and with its weak locks.
#[tactic(auto, using(crate::proofs::Together::analysed))]
fn analysed(alloc: Global, code: Code, profile: Profile) -> Result<Weakened, AllocError>
    requires valid { validity.is_valid code ≡ true }
    requires without_locks { is_plain code ≡ true }
    requires apart { loops_are_apart code ≡ true }
    requires closed { loops_are_closed code ≡ true }
    ensures code { IfOk result (λ w. w.plain ≡ code) }
    ensures profile { IfOk result (λ w. w.profile ≡ profile) }
{
    let _fit = constants_fit(&code);
    let Findings {
        points,
        raced: Raced { summaries, pairs },
        locked: Locked { grains, weak },
    } = find(alloc, &code, &profile)?;
    Ok(Weakened::of(code, points, summaries, pairs, profile, grains, weak))
}

// The same for a profile that stays with its owner.
fn analysed_for(alloc: Global, code: Code, profile: &Profile) -> Result<Weakened, AllocError>
    requires valid { validity.is_valid code ≡ true }
    requires without_locks { is_plain code ≡ true }
    requires apart { loops_are_apart code ≡ true }
    requires closed { loops_are_closed code ≡ true }
    ensures code { IfOk result (λ w. w.plain ≡ code) }
    ensures profile { IfOk result (λ w. w.profile ≡ profile.now) }
{
    let own = copied_profile(alloc, profile)?;
    analysed(alloc, code, own)
}

/// The code of a source, with where its pointers point, the summaries of its functions, its race pairs, and its weak locks
/// where the profile tells which functions may be at work at once.
///
/// # Errors
/// The first fault of the source, as `plain` tells it; `OutOfMemory` if memory runs out.
pub fn compile(alloc: Global, text: &[u8], profile: &Profile) -> Result<Weakened, CompileFault>
    requires { length text.now ≤ 2 ^ 20 }
    ensures code { IfOk result (λ w. IsCodeOf text.now w.plain) }
    ensures profile { IfOk result (λ w. w.profile ≡ profile.now) }
    ensures refused { IfErr result (λ f. IsRefusedFor text.now f) }
{
    let code = plain(alloc, text)?;
    match analysed_for(alloc, code, profile) {
        Ok(weakened) => Ok(weakened),
        Err(_) => Err(CompileFault::OutOfMemory),
    }
}

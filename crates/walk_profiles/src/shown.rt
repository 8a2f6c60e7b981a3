// The file of a walk's profile, and what is told of the walk.

ghost use Rattle.std.specs.Prelude.{◌≡◌, ◌∷◌, [], IfOk};
ghost use Rattle.std.specs.List.{AllByRecursion};
ghost use Rattle.std.specs.Str.{IsUtf8};
ghost use Rattle.core_run.specs.Walks.{WalkIs};
ghost use Rattle.profiles.specs.Profile.{ArePairs};
ghost use Rattle.flow_code.specs.Settle.{IsRunnable};
ghost use Rattle.profile_book.specs.Writing.{profile_text};
ghost use Rattle.walk_answers.specs.Walking.{no_reads};
ghost use Rattle.walk_profiles.specs.Profiling as spec;
ghost use Rattle.walk_profiles.specs.Profiling.{PutsFor, PutsWalked, ShowsProfile};

use command_line::Answer;
use core_run::{Walk, walk};
use flow_code::Code;
use job_outcomes::{Outcome, Put};
use order_log::Log;
use profile_book::write_profile;
use profiles::FunctionPairs;
use rr_base::{Bytes, List};
use seen_pairs::seen_pairs;
use std::alloc::{AllocError, Global};
use walk_answers::formula_of;

// The file of a profile's pairs.
fn file_of<'a>(
    alloc: Global,
    name: &'a str,
    pairs: List<(Bytes, Bytes)>,
) -> Result<List<Put<'a>>, AllocError>
    requires { ArePairs pairs }
    ensures { IfOk result (λ puts. puts ≡ record { name = name.now; content = profile_text pairs } ∷ []) }
{
    let content = write_profile(alloc, &FunctionPairs::new(pairs))?;
    let mut puts = List::new(alloc);
    puts.push(Put::new(name, content))?;
    Ok(puts)
}

// The file of the pairs that are seen along the walk; none where the entries have no walk.
fn file_seen<'a>(
    alloc: Global,
    code: &Code,
    log: &Log,
    name: &'a str,
) -> Result<List<Put<'a>>, AllocError>
    requires runnable { IsRunnable code.now }
    requires names { AllByRecursion (λ f. IsUtf8 f.name) code.now.functions }
    ensures { IfOk result (PutsWalked code.now log.now.setup log.now.entries name.now) }
{
    match seen_pairs(alloc, code, log.setup(), log.entries())? {
        Some(pairs) => file_of(alloc, name, pairs),
        None => Ok(List::new(alloc)),
    }
}

// The files that are put for a walk.
fn files_for<'a>(
    alloc: Global,
    code: &Code,
    log: &Log,
    name: &'a str,
    walk: &Walk,
) -> Result<List<Put<'a>>, AllocError>
    requires runnable { IsRunnable code.now }
    requires names { AllByRecursion (λ f. IsUtf8 f.name) code.now.functions }
    requires walks { WalkIs code.now log.now.setup log.now.entries no_reads walk.now }
    ensures { IfOk result (PutsFor code.now log.now.setup log.now.entries name.now walk.now) }
{
    match walk {
        Walk::Done { .. } | Walk::Trapped { .. } => file_seen(alloc, code, log, name),
        Walk::Wrong { .. } => Ok(List::new(alloc)),
    }
}

// What is told of a walk.
fn answer_of(alloc: Global, walk: &Walk) -> Answer
    ensures { result ≡ spec.answer_of walk.now }
{
    let out = Bytes::new(alloc);
    match *walk {
        Walk::Done { .. } => Answer::Done { out },
        Walk::Trapped {
            kind,
            thread,
            line,
            ..
        } => Answer::Trapped {
            out,
            kind,
            thread,
            line,
        },
        Walk::Wrong { at } => Answer::WrongEntry { at },
    }
}

/// The profile of a log on a code, as the file of this name: the pairs of functions that are on two threads' stacks right after some
/// entry of the walk. Nothing that the walk prints is told, but its trap is. Where the walk is wrong its first wrong entry is told,
/// and there is no file.
pub fn shown_profile<'a>(
    alloc: Global,
    code: &Code,
    log: &Log,
    name: &'a str,
) -> Result<Outcome<'a>, AllocError>
    requires runnable { IsRunnable code.now }
    requires names { AllByRecursion (λ f. IsUtf8 f.name) code.now.functions }
    ensures { IfOk result (ShowsProfile code.now log.now.setup log.now.entries name.now) }
{
    let formula = formula_of(None);
    let walk = walk(alloc, code, log.setup(), log.entries(), &formula)?;
    let puts = files_for(alloc, code, log, name, &walk)?;
    let answer = answer_of(alloc, &walk);
    Ok(Outcome { puts, answer })
}

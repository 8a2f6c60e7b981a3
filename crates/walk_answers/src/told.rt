// What is told of a walk.

ghost use Rattle.std.specs.Prelude.{◌≡◌, ◌++◌, IfOk, OnOk, option_map};
ghost use Rattle.walk_answers.specs.Walking as spec;

use command_line::Answer;
use core_run::Walk;
use job_outcomes::{Outcome, Put};
use reads_text::reads_text;
use rr_base::List;
use std::alloc::{AllocError, Global};
use thread_interpreter::{Access, Formula};

/// Which accesses are kept: all loads where a file is named for them, and none otherwise.
pub fn formula_of(reads: Option<&str>) -> Formula
    ensures { result ≡ spec.formula_of (option_map (λ n. n.now) reads.entry) }
{
    let wanted = reads.is_some();
    Formula {
        loads: wanted,
        stores: false,
        thread: None,
        low: if wanted { 0 } else { 1 },
        high: if wanted { u32::MAX } else { 0 },
        value: None,
    }
}

/// The answer to a walk, without the accesses that it kept.
pub fn answer_of(walk: Walk) -> Answer
    ensures { result ≡ spec.answer_of walk }
{
    match walk {
        Walk::Done { out, .. } => Answer::Done { out },
        Walk::Trapped {
            kind,
            thread,
            line,
            out,
            ..
        } => Answer::Trapped {
            out,
            kind,
            thread,
            line,
        },
        Walk::Wrong { at } => Answer::WrongEntry { at },
    }
}

// The accesses that the walk kept.
fn kept(walk: &Walk) -> Option<&List<Access>>
    ensures { option_map (λ it. it.now) result ≡ spec.kept walk.now }
{
    match walk {
        Walk::Done { reads, .. } | Walk::Trapped { reads, .. } => Some(reads),
        Walk::Wrong { .. } => None,
    }
}

// The file of the accesses that were kept.
fn push_reads<'a>(
    alloc: Global,
    puts: &mut List<Put<'a>>,
    reads: Option<&'a str>,
    walk: &Walk,
) -> Result<(), AllocError>
    ensures { OnOk result (puts.new ≡ puts.old ++ spec.reads_put (option_map (λ n. n.now) reads.entry) walk.now) }
{
    if let (Some(name), Some(accesses)) = (reads, kept(walk)) {
        puts.push(Put::new(name, reads_text(alloc, accesses)?))?;
    }
    Ok(())
}

/// What comes of a walk, where these files are put before that of its accesses.
pub fn outcome_of<'a>(
    alloc: Global,
    puts: List<Put<'a>>,
    reads: Option<&'a str>,
    walk: Walk,
) -> Result<Outcome<'a>, AllocError>
    ensures { IfOk result (λ o. o ≡ spec.outcome_of puts.entry (option_map (λ n. n.now) reads.entry) walk) }
{
    let mut puts = puts;
    push_reads(alloc, &mut puts, reads, &walk)?;
    Ok(Outcome {
        puts,
        answer: answer_of(walk),
    })
}

// From the bytes of a source to its code.

ghost use Rattle.std.specs.Prelude.{◌≡◌, ◌≤◌, ◌^◌, length};
ghost use Rattle.job_laws.specs.Sources.{Compiles};
ghost use Rattle.command_line.specs.declared.answer.Answer.TheVariants as answer;

use command_line::Answer;
use front::{CompileFault, SourceFault, compile};
use job_outcomes::Stop;
use lock_sound::Weakened;
use profiles::Profile;
use std::alloc::Global;

/// The most bytes of a source.
pub(crate) const SOURCE_BYTES: u32 = 1_048_576;

// What is told of a source's fault.
fn refusal_of(fault: SourceFault) -> Answer
    ensures { result ≡ answer.SourceRefused fault.number fault.at.line fault.at.column }
{
    Answer::SourceRefused {
        number: fault.number,
        line: fault.at.line,
        column: fault.at.column,
    }
}

/// Lets a code go. It has many lists, which are let go here for all who had it made.
pub(crate) fn let_go(_weakened: Weakened) {}

/// The code of a source, with what the analyses find of it, and with its weak locks for this profile.
pub(crate) fn compiled(alloc: Global, source: &[u8], profile: &Profile) -> Result<Weakened, Stop>
    requires { length source.now ≤ 2 ^ 20 }
    ensures { Compiles source.now profile.now result }
{
    match compile(alloc, source, profile) {
        Ok(weakened) => Ok(weakened),
        Err(CompileFault::Source(fault)) => Err(Stop::Refused(refusal_of(fault))),
        Err(CompileFault::OutOfMemory) => Err(Stop::OutOfMemory),
    }
}

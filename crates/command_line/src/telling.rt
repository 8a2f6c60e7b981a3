// Telling a text and its status.

ghost use Rattle.command_line.specs.Answers.{status_of, text_of as told_by};
ghost use Rattle.command_line.specs.Endings.{Writes};

use crate::answer::{Answer, text_of};
use rr_base::{Sink, SinkEnd, write_all};
use std::alloc::Global;

/// Writes a text, and answers its status. Where the sink fails that is 8, and 12 without memory; a front part of the
/// text is written then.
pub fn tell<O: Sink>(alloc: Global, out: &mut O, text: &[u8], status: u8) -> u8
    ensures { Writes text.now status (record { held = O.held out.old; faults = O.faults out.old }) (record { held = O.held out.new; faults = O.faults out.new }) result }
{
    match write_all(alloc, out, text) {
        Ok(()) => status,
        Err(SinkEnd::Failed) => 8,
        Err(SinkEnd::OutOfMemory) => 12,
    }
}

/// Writes the text of an answer, and answers its status. The ends of `tell` apply.
pub fn tell_answer<O: Sink>(alloc: Global, out: &mut O, answer: Answer) -> u8
    ensures { Writes (told_by answer) (status_of answer) (record { held = O.held out.old; faults = O.faults out.old }) (record { held = O.held out.new; faults = O.faults out.new }) result }
{
    let status = answer.status();
    match text_of(alloc, answer) {
        Ok(text) => tell(alloc, out, text.as_slice(), status),
        Err(_) => 12,
    }
}

// Putting and telling what a job came to, or why it stopped.

ghost use Rattle.std.specs.Prelude.{◌≡◌, ◌≢◌, MatchResult, OnOk};
ghost use Rattle.rr_base.specs.Faults.{ShelfFaults};
ghost use Rattle.job_outcomes.specs.Endings.{Finishes, TellsStop};
ghost use Rattle.job_outcomes.specs.Puts.{ArePartlyPut, ArePut, PutFailed};

use crate::keeper::Keeper;
use crate::outcome::{Outcome, Put};
use crate::stop::Stop;
use command_line::{tell, tell_answer};
use rr_base::{ShelfEnd, Sink};
use std::alloc::Global;

/// Puts files in their order, up to the first one that fails. On a sound shelf none does.
pub fn put_all<S: Keeper>(alloc: Global, shelf: &mut S, puts: &[Put]) -> Result<(), ShelfEnd>
    ensures ok { OnOk result (ArePut puts.now (S.files shelf.old) (S.files shelf.new)) }
    ensures failed { result ≡ Err ShelfEnd.Failed → PutFailed puts.now (S.files shelf.old) (S.files shelf.new) }
    ensures memory { result ≡ Err ShelfEnd.OutOfMemory → ArePartlyPut puts.now (S.files shelf.old) (S.files shelf.new) }
    ensures faults { MatchResult result (λ _. S.faults shelf.new ≡ S.faults shelf.old) (λ end. ShelfFaults end (S.faults shelf.old) (S.faults shelf.new)) }
    ensures sound { S.IsSound shelf.old → S.IsSound shelf.new }
    ensures kept { S.IsSound shelf.old → result ≢ Err ShelfEnd.Failed }
{
    for put in puts {
        shelf.keep(alloc, put.name(), put.content().as_slice())?;
    }
    Ok(())
}

/// Tells why a job stopped, and answers the status: that of a refusal, 7 for a fault of the input, 9 for one of the shelf, 10 for
/// one of the crew, and 12 without memory, when nothing is written. The ends of `tell` apply.
pub fn tell_stop<O: Sink>(alloc: Global, out: &mut O, stop: Stop) -> u8
    ensures { TellsStop stop (record { held = O.held out.old; faults = O.faults out.old }) (record { held = O.held out.new; faults = O.faults out.new }) result }
{
    match stop {
        Stop::Refused(answer) => tell_answer(alloc, out, answer),
        Stop::ShelfFailed => tell(alloc, out, b"shelf fault\n", 9),
        Stop::InputFailed => tell(alloc, out, b"read fault\n", 7),
        Stop::CrewFailed => tell(alloc, out, b"crew fault\n", 10),
        Stop::OutOfMemory => 12,
    }
}

/// Puts the files of an outcome, then tells its answer, and answers the status. Where a put fails that is told instead.
pub fn finish<S: Keeper, O: Sink>(alloc: Global, outcome: Outcome, shelf: &mut S, out: &mut O) -> u8
    ensures finishes { Finishes outcome.entry (record { files = S.files shelf.old; faults = S.faults shelf.old }) (record { files = S.files shelf.new; faults = S.faults shelf.new }) (record { held = O.held out.old; faults = O.faults out.old }) (record { held = O.held out.new; faults = O.faults out.new }) result }
    ensures kept { S.IsSound shelf.old → result ≢ 9 }
{
    match put_all(alloc, shelf, outcome.puts.as_slice()) {
        Ok(()) => tell_answer(alloc, out, outcome.answer),
        Err(ShelfEnd::Failed) => tell(alloc, out, b"shelf fault\n", 9),
        Err(ShelfEnd::OutOfMemory) => 12,
    }
}

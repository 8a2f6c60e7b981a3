// Reading what a job asks for.

ghost use Rattle.std.specs.Prelude.{◌≡◌, ◌≤◌, None, length, IfOk, IfSome, MatchResult};
ghost use Rattle.command_line.specs.Contents.{IsWithin, KeepsWithin};
ghost use Rattle.rr_base.specs.Faults.{ShelfFaults};
ghost use Rattle.rr_base.specs.Streams.{IsUsedUp};
ghost use Rattle.job_outcomes.specs.Faults.{InputStops, ShelfStops};
ghost use Rattle.job_outcomes.specs.Steps.{Finds, IsFile, IsInput, Lacks};

use crate::keeper::Keeper;
use crate::stop::Stop;
use command_line::{Answer, Part};
use rr_base::{Bytes, List, ReadEnd, ShelfEnd, Source, read_to_end};
use std::alloc::Global;

// The content of a name, or nothing where it has more than `most` bytes.
fn fetch_within<S: Keeper>(
    alloc: Global,
    shelf: &mut S,
    name: &str,
    most: u32,
) -> Result<Option<Bytes>, ShelfEnd>
    ensures content { IfOk result (λ found. IfSome (S.files shelf.old) (λ files. IsWithin most (files name.now) found)) }
    ensures fits { IfOk result (λ found. IfSome found (λ bytes. length bytes ≤ most)) }
    ensures files { S.files shelf.new ≡ S.files shelf.old }
    ensures faults { MatchResult result (λ _. S.faults shelf.new ≡ S.faults shelf.old) (λ end. ShelfFaults end (S.faults shelf.old) (S.faults shelf.new)) }
    ensures sound { S.IsSound shelf.old → S.IsSound shelf.new }
    ensures lacks { S.IsSound shelf.old → result ≡ Err ShelfEnd.Failed → Lacks (S.files shelf.old) name.now }
{
    let bytes = shelf.fetch(alloc, name, most)?;
    Ok(within(bytes, most))
}

// All of the bytes, where they are no more than `most`.
fn within(bytes: Vec<u8>, most: u32) -> Option<Bytes>
    ensures { KeepsWithin most bytes.items result }
{
    if bytes.len() > most as usize {
        None
    } else {
        Some(List::from_vec(bytes))
    }
}

/// The content of a name, which may have so many bytes. A sound shelf fails for want of the name alone.
pub fn file<S: Keeper>(
    alloc: Global,
    shelf: &mut S,
    name: &str,
    most: u32,
    what: Part,
) -> Result<Bytes, Stop>
    ensures content { Finds (IsFile (S.files shelf.old) most what name.now) result }
    ensures fits { IfOk result (λ bytes. length bytes ≤ most) }
    ensures files { S.files shelf.new ≡ S.files shelf.old }
    ensures faults { MatchResult result (λ _. S.faults shelf.new ≡ S.faults shelf.old) (λ stop. ShelfStops stop (S.faults shelf.old) (S.faults shelf.new)) }
    ensures sound { S.IsSound shelf.old → S.IsSound shelf.new }
    ensures lacks { S.IsSound shelf.old → result ≡ Err Stop.ShelfFailed → Lacks (S.files shelf.old) name.now }
{
    match fetch_within(alloc, shelf, name, most)? {
        Some(bytes) => Ok(bytes),
        None => Err(Stop::Refused(Answer::TooLarge(what))),
    }
}

/// What an input has left, which may be so many bytes.
pub fn input<I: Source>(alloc: Global, source: &mut I, most: u32, what: Part) -> Result<Bytes, Stop>
    ensures content { Finds (IsInput (I.left source.old) most what) result }
    ensures fits { IfOk result (λ bytes. length bytes ≤ most) }
    ensures end { IfOk result (λ _. IsUsedUp (I.left source.old) (I.left source.new)) }
    ensures faults { MatchResult result (λ _. I.faults source.new ≡ I.faults source.old) (λ stop. InputStops stop (I.faults source.old) (I.faults source.new)) }
{
    match read_to_end(alloc, source, most as usize) {
        Ok(bytes) => Ok(bytes),
        Err(ReadEnd::TooLarge) => Err(Stop::Refused(Answer::TooLarge(what))),
        Err(ReadEnd::Failed) => Err(Stop::InputFailed),
        Err(ReadEnd::OutOfMemory) => Err(Stop::OutOfMemory),
    }
}

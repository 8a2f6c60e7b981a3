ghost use Rattle.std.specs.Prelude.{◌≡◌, ◌≢◌, ◌≤◌, ◌<◌, ℕ, List, Option, [], length, take, IfOk, OnErr, IfSome, MatchResult};
ghost use Rattle.rr_base.specs.Faults.{Rose};
ghost use Rattle.rr_base.specs.Streams.{Gave, IsUsedUp, ReadFaults};
ghost use Rattle.rr_base.specs.declared.source.ReadEnd.TheVariants as read_end;

use crate::list::List;
use std::alloc::{AllocError, Global};
use thiserror::Error;

/// A fault of the outside, which its count of faults shows too.
#[derive(Clone, Copy, Debug, PartialEq, Eq, Error)]
#[error("the outside failed")]
pub struct Failed;

/// Where bytes are read from.
pub trait Source {
    /// The bytes that are left, where the source tells them.
    ghost left: { Self → Option (List ℕ) };

    /// The count of faults.
    ghost faults: { Self → ℕ };

    /// Puts the next bytes at the front of `into` and answers how many. None for an `into` that isn't empty is the end.
    fn read(&mut self, into: &mut [u8]) -> Result<usize, Failed>
        ensures fits { IfOk result (λ n. n ≤ length into.old) }
        ensures bytes { IfOk result (λ n. Gave (take n into.new) (left self.old) (left self.new)) }
        ensures end { IfOk result (λ n. n ≡ 0 → into.old ≢ [] → IsUsedUp (left self.old) (left self.new)) }
        ensures failed { OnErr result (left self.new ≡ left self.old) }
        ensures faults { MatchResult result (λ _. faults self.new ≡ faults self.old) (λ _. Rose (faults self.old) (faults self.new)) };
}

/// Why a source wasn't read to its end.
#[derive(Clone, Copy, Debug, PartialEq, Eq, Error)]
pub enum ReadEnd {
    /// A fault of the source.
    #[error("the input failed")]
    Failed,
    /// More bytes came than were allowed.
    #[error("the input is too large")]
    TooLarge,
    #[error("out of memory")]
    OutOfMemory,
}

impl From<Failed> for ReadEnd {
    ghost from_gives = { λ _ end. end ≡ read_end.Failed };

    fn from(_failed: Failed) -> ReadEnd {
        ReadEnd::Failed
    }
}

impl From<AllocError> for ReadEnd {
    ghost from_gives = { λ _ end. end ≡ read_end.OutOfMemory };

    fn from(_error: AllocError) -> ReadEnd {
        ReadEnd::OutOfMemory
    }
}

/// Reads a source to its end. It is TooLarge where more than `most` bytes come; what came is then lost.
pub fn read_to_end<S: Source>(
    alloc: Global,
    source: &mut S,
    most: usize,
) -> Result<List<u8>, ReadEnd>
    ensures all { IfOk result (λ bytes. IfSome (S.left source.old) (λ left. bytes ≡ left)) }
    ensures fits { IfOk result (λ bytes. length bytes ≤ most) }
    ensures end { IfOk result (λ _. IsUsedUp (S.left source.old) (S.left source.new)) }
    ensures too_large { result ≡ Err ReadEnd.TooLarge → IfSome (S.left source.old) (λ left. most < length left) }
    ensures err { OnErr result ((lost : List ℕ) × Gave lost (S.left source.old) (S.left source.new)) }
    ensures faults { MatchResult result (λ _. S.faults source.new ≡ S.faults source.old) (λ end. ReadFaults end (S.faults source.old) (S.faults source.new)) }
{
    let mut bytes = List::new(alloc);
    let mut chunk = [0; 4096];
    loop {
        let count = source.read(&mut chunk)?;
        if count == 0 {
            return Ok(bytes);
        }
        if count > most - bytes.len() {
            return Err(ReadEnd::TooLarge);
        }
        bytes.extend_from_slice(&chunk[..count])?;
    }
}

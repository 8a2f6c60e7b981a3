ghost use Rattle.std.specs.Prelude.{◌≡◌, ◌≤◌, ℕ, List, Option, [], length, take, IfOk, OnOk, OnErr, MatchResult};
ghost use Rattle.rr_base.specs.Faults.{SinkFaults};
ghost use Rattle.rr_base.specs.Streams.{Took, TookSome};
ghost use Rattle.rr_base.specs.declared.sink.SinkEnd.TheVariants as sink_end;

use std::alloc::{AllocError, Global};
use thiserror::Error;

/// Why a sink took nothing.
#[derive(Clone, Copy, Debug, PartialEq, Eq, Error)]
pub enum SinkEnd {
    /// A fault of the outside, which its count of faults shows too.
    #[error("the output failed")]
    Failed,
    #[error("out of memory")]
    OutOfMemory,
}

impl From<AllocError> for SinkEnd {
    ghost from_gives = { λ _ end. end ≡ sink_end.OutOfMemory };

    fn from(_error: AllocError) -> SinkEnd {
        SinkEnd::OutOfMemory
    }
}

/// Where bytes are written to.
pub trait Sink {
    /// The bytes that the sink holds, where it tells them.
    ghost held: { Self → Option (List ℕ) };

    /// The count of faults.
    ghost faults: { Self → ℕ };

    /// Takes bytes from the front of `piece` and answers how many. To take none of a `piece` that isn't empty is a fault.
    fn write(&mut self, alloc: Global, piece: &[u8]) -> Result<usize, SinkEnd>
        ensures fits { IfOk result (λ n. n ≤ length piece.now) }
        ensures some { IfOk result (λ n. n ≡ 0 → piece.now ≡ []) }
        ensures bytes { IfOk result (λ n. Took (take n piece.now) (held self.old) (held self.new)) }
        ensures err { OnErr result (held self.new ≡ held self.old) }
        ensures faults { MatchResult result (λ _. faults self.new ≡ faults self.old) (λ end. SinkFaults end (faults self.old) (faults self.new)) };
}

/// Writes all of `bytes`. Where it ends early the sink has taken a front part of them.
pub fn write_all<O: Sink>(alloc: Global, sink: &mut O, bytes: &[u8]) -> Result<(), SinkEnd>
    ensures ok { OnOk result (Took bytes.now (O.held sink.old) (O.held sink.new)) }
    ensures err { OnErr result (TookSome bytes.now (O.held sink.old) (O.held sink.new)) }
    ensures faults { MatchResult result (λ _. O.faults sink.new ≡ O.faults sink.old) (λ end. SinkFaults end (O.faults sink.old) (O.faults sink.new)) }
{
    let mut at = 0;
    while at < bytes.len() {
        at += sink.write(alloc, &bytes[at..])?;
    }
    Ok(())
}

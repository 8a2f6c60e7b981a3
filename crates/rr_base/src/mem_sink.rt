ghost use Rattle.std.specs.Prelude.{◌≡◌, ◌<◌, ◌++◌, ◌↔◌, Some, [], length, take, min, IfOk, IfErr, OnErr, MatchResult, IsTrue};
ghost use Rattle.rr_base.specs.Faults.{SinkFaults};
ghost use Rattle.rr_base.specs.Memory.{new_plan, is_due, after_write};

use crate::Bytes;
use crate::list::List;
use crate::plan::Plan;
use crate::sink::{Sink, SinkEnd};
use std::alloc::{AllocError, Global};
use std::marker::Model;

/// A sink in memory, of whose calls some may be to fail.
#[derive(Debug, Drop)]
pub struct MemSink {
    held: Bytes,
    most: usize,
    plan: Plan,
}

impl Model for MemSink {
    ghost use Rattle.std.specs.Prelude.{◌<◌};
    ghost use Rattle.rr_base.specs.Memory.{Store};

    ghost Value = { Store };

    ghost view = { λ s. record { held = s.held; most = s.most; plan = s.plan } };

    ghost invariant = { λ s. 0 < s.most };
}

impl MemSink {
    /// A sink that holds these bytes at first and takes at most `most` bytes in one call. `fails` has the numbers,
    /// from 0, of the calls of `write` that are to fail.
    pub fn new(bytes: Bytes, fails: List<u64>, most: usize) -> MemSink
        requires { 0 < most }
        ensures { result ≡ record { held = bytes; most = most; plan = new_plan fails } }
    {
        MemSink {
            held: bytes,
            most,
            plan: Plan::new(fails),
        }
    }

    /// The bytes that the sink holds.
    pub fn bytes(&self) -> &Bytes
        ensures { result.now ≡ self.now.held }
    {
        &self.held
    }
}

impl Sink for MemSink {
    ghost held = { λ s. Some s.held };

    ghost faults = { λ s. s.plan.faults };

    fn write(&mut self, _alloc: Global, piece: &[u8]) -> Result<usize, SinkEnd>
        ensures failed { (result ≡ Err SinkEnd.Failed) ↔ IsTrue (is_due self.old.plan) }
        ensures count { IfOk result (λ n. n ≡ min self.old.most (length piece.now)) }
        ensures some { IfOk result (λ n. n ≡ 0 → piece.now ≡ []) }
        ensures sink { self.new ≡ after_write self.old piece.now result }
        ensures faults { MatchResult result (λ _. self.new.plan.faults ≡ self.old.plan.faults) (λ end. SinkFaults end self.old.plan.faults self.new.plan.faults) }
    {
        if self.plan.is_due() {
            self.plan.count_fault();
            return Err(SinkEnd::Failed);
        }
        let count = take_some(&mut self.held, piece, self.most)?;
        self.plan.count_call();
        Ok(count)
    }
}

/// A sink in memory that never fails.
#[derive(Debug, Drop)]
pub struct SoundSink {
    held: Bytes,
    most: usize,
}

impl Model for SoundSink {
    ghost use Rattle.std.specs.Prelude.{◌<◌};
    ghost use Rattle.rr_base.specs.Memory.{SoundStore};

    ghost Value = { SoundStore };

    ghost view = { λ s. record { held = s.held; most = s.most } };

    ghost invariant = { λ s. 0 < s.most };
}

impl SoundSink {
    /// A sink that holds these bytes at first and takes at most `most` bytes in one call.
    pub fn sound(bytes: Bytes, most: usize) -> SoundSink
        requires { 0 < most }
        ensures { result ≡ record { held = bytes; most = most } }
    {
        SoundSink { held: bytes, most }
    }

    /// The bytes that the sink holds.
    pub fn bytes(&self) -> &Bytes
        ensures { result.now ≡ self.now.held }
    {
        &self.held
    }
}

impl Sink for SoundSink {
    ghost held = { λ s. Some s.held };

    ghost faults = { λ _. 0 };

    fn write(&mut self, _alloc: Global, piece: &[u8]) -> Result<usize, SinkEnd>
        ensures count { IfOk result (λ n. n ≡ min self.old.most (length piece.now)) }
        ensures some { IfOk result (λ n. n ≡ 0 → piece.now ≡ []) }
        ensures sink { IfOk result (λ n. self.new ≡ record self.old { held = self.old.held ++ take n piece.now }) }
        ensures err { OnErr result (self.new ≡ self.old) }
        ensures sound { IfErr result (λ end. end ≡ SinkEnd.OutOfMemory) }
    {
        let count = take_some(&mut self.held, piece, self.most)?;
        Ok(count)
    }
}

/// Copies bytes from the front of `piece` to the end, at most `most`, and answers how many.
fn take_some(held: &mut Bytes, piece: &[u8], most: usize) -> Result<usize, AllocError>
    ensures count { IfOk result (λ n. n ≡ min most (length piece.now)) }
    ensures ok { IfOk result (λ n. held.new ≡ held.old ++ take n piece.now) }
    ensures err { OnErr result (held.new ≡ held.old) }
{
    let count = most.min(piece.len());
    held.extend_from_slice(&piece[..count])?;
    Ok(count)
}

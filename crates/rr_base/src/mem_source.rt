ghost use Rattle.std.specs.Prelude.{◌≡◌, ◌++◌, Some, length, take, drop, min, OnOk, MatchResult, if◌then◌else◌};
ghost use Rattle.rr_base.specs.Faults.{Rose};
ghost use Rattle.rr_base.specs.Memory.{new_plan, is_due, after_read};

use crate::Bytes;
use crate::list::List;
use crate::plan::Plan;
use crate::source::{Failed, Source};
use std::marker::Model;

/// A source in memory, of whose calls some may be to fail.
#[derive(Debug, Drop)]
pub struct MemSource {
    left: Bytes,
    plan: Plan,
}

impl Model for MemSource {
    ghost use Rattle.rr_base.specs.Memory.{Supply};

    ghost Value = { Supply };

    ghost view = { λ s. record { left = s.left; plan = s.plan } };
}

impl MemSource {
    /// A source of these bytes. `fails` has the numbers, from 0, of the calls of `read` that are to fail.
    pub fn new(bytes: Bytes, fails: List<u64>) -> MemSource
        ensures { result ≡ record { left = bytes; plan = new_plan fails } }
    {
        MemSource {
            left: bytes,
            plan: Plan::new(fails),
        }
    }

    /// The bytes that are left.
    pub fn bytes(&self) -> &Bytes
        ensures { result.now ≡ self.now.left }
    {
        &self.left
    }
}

impl Source for MemSource {
    ghost left = { λ s. Some s.left };

    ghost faults = { λ s. s.plan.faults };

    fn read(&mut self, into: &mut [u8]) -> Result<usize, Failed>
        ensures answer { result ≡ (if is_due self.old.plan then Err (record {}) else Ok (min (length into.old) (length self.old.left))) }
        ensures rest { OnOk result (into.new ≡ take (length into.old) self.old.left ++ drop (length self.old.left) into.old) }
        ensures source { self.new ≡ after_read self.old (length into.old) }
        ensures faults { MatchResult result (λ _. self.new.plan.faults ≡ self.old.plan.faults) (λ _. Rose self.old.plan.faults self.new.plan.faults) }
    {
        if self.plan.is_due() {
            self.plan.count_fault();
            return Err(Failed);
        }
        let count = take_front(&mut self.left, into);
        self.plan.count_call();
        Ok(count)
    }
}

/// A source in memory that never fails.
#[derive(Debug, Drop)]
pub struct SoundSource {
    left: Bytes,
}

impl Model for SoundSource {
    ghost use Rattle.std.specs.Prelude.{ℕ, List};

    ghost Value = { List ℕ };

    ghost view = { λ s. s.left };
}

impl SoundSource {
    /// A source of these bytes.
    pub fn sound(bytes: Bytes) -> SoundSource
        ensures { result ≡ bytes }
    {
        SoundSource { left: bytes }
    }

    /// The bytes that are left.
    pub fn bytes(&self) -> &Bytes
        ensures { result.now ≡ self.now }
    {
        &self.left
    }
}

impl Source for SoundSource {
    ghost left = { λ s. Some s };

    ghost faults = { λ _. 0 };

    fn read(&mut self, into: &mut [u8]) -> Result<usize, Failed>
        ensures answer { result ≡ Ok (min (length into.old) (length self.old)) }
        ensures rest { into.new ≡ take (length into.old) self.old ++ drop (length self.old) into.old }
        ensures source { self.new ≡ drop (length into.old) self.old }
    {
        Ok(take_front(&mut self.left, into))
    }
}

/// Moves as many bytes to the front of `into` as there are and as have room there, and answers how many.
fn take_front(left: &mut Bytes, into: &mut [u8]) -> usize
    ensures count { result ≡ min (length into.old) (length left.old) }
    ensures into { into.new ≡ take (length into.old) left.old ++ drop (length left.old) into.old }
    ensures left { left.new ≡ drop (length into.old) left.old }
{
    let count = into.len().min(left.len());
    into[..count].copy_from_slice(&left.as_slice()[..count]);
    left.remove_front(count);
    count
}

//! The locks at all points of a function.
ghost use Rattle.std.specs.Prelude.{◌≡◌, ◌<◌, true, false, length, IfOk, Some, slice_get};
ghost use Rattle.facts.specs.Locks.{topmost, nothing};
ghost use Rattle.facts.specs.declared.locks.RelLocks.{RelLocks as Locks};
ghost use Rattle.lockset_flow.specs.Rounds.{meet_of, weight, start_row, starting, with_row, with_exit};

use crate::meeting::meet;
use facts::{Held, Minus, RelLocks};
use rr_base::List;
use std::alloc::{AllocError, Global};
use std::marker::Model;

/// The locks before each instruction of a function, and those at its exit.
#[derive(Debug, Drop)]
pub struct FlowFacts {
    rows: Vec<RelLocks>,
    last: RelLocks,
}

impl Model for FlowFacts {
    ghost use Rattle.facts.specs.Locks.{Points};

    ghost Value = { Points };

    ghost view = { λ x. record { before = x.rows.items; exit = x.last } };
}

// Nothing is known.
fn none(alloc: Global) -> RelLocks
    ensures { result ≡ nothing }
{
    RelLocks {
        plus: List::new(alloc),
        minus: Minus::Listed(List::new(alloc)),
    }
}

// All that may be known.
fn most(alloc: Global, top: &[Held]) -> Result<RelLocks, AllocError>
    ensures { IfOk result (λ l. l ≡ topmost top.now) }
{
    let plus = List::from_slice(alloc, top)?;
    Ok(RelLocks {
        plus,
        minus: Minus::Listed(List::new(alloc)),
    })
}

// What is known before an instruction as the rounds start.
fn row_at(alloc: Global, k: usize, top: &[Held]) -> Result<RelLocks, AllocError>
    ensures { IfOk result (λ l. l ≡ start_row top.now k) }
{
    if k == 0 {
        Ok(none(alloc))
    } else {
        most(alloc, top)
    }
}

impl FlowFacts {
    /// Nothing is known before the first of so many instructions, and all these locks everywhere else.
    pub fn start(alloc: Global, points: usize, top: &[Held]) -> Result<FlowFacts, AllocError>
        ensures { IfOk result (λ x. x ≡ starting top.now points) }
    {
        let mut rows = Vec::new(alloc);
        for k in 0..points {
            rows.push(row_at(alloc, k, top)?)?;
        }
        let last = most(alloc, top)?;
        Ok(FlowFacts { rows, last })
    }

    /// The locks before each instruction.
    pub fn before(&self) -> &[RelLocks]
        ensures { result.now ≡ self.now.before }
    {
        self.rows.as_slice()
    }

    /// The locks at the exit.
    pub fn exit(&self) -> &RelLocks
        ensures { result.now ≡ self.now.exit }
    {
        &self.last
    }

    // The locks before an instruction.
    /// The locks before an instruction.
    pub fn row(&self, k: usize) -> &RelLocks
        requires { k < length self.now.before }
        ensures { slice_get self.now.before k ≡ Some result.now }
    {
        &self.rows[k]
    }

    // Before an instruction no more is known than the others tell; whether that is less than before.
    /// Meets the locks before an instruction with others, and tells whether they changed.
    pub fn meet_at(&mut self, alloc: Global, k: usize, other: &RelLocks) -> Result<bool, AllocError>
        requires { k < length self.old.before }
        ensures { IfOk result (λ changed. (b : Locks) → slice_get self.old.before k ≡ Some b → (self.new ≡ with_row self.old k (meet_of b other.now)) × (changed ≡ false → meet_of b other.now ≡ b) × (changed ≡ true → weight (meet_of b other.now) < weight b)) }
    {
        meet(alloc, &mut self.rows[k], other)
    }

    // At the exit no more is known than the others tell; whether that is less than before.
    /// Meets the locks at the exit with others, and tells whether they changed.
    pub fn meet_exit(&mut self, alloc: Global, other: &RelLocks) -> Result<bool, AllocError>
        ensures { IfOk result (λ changed. (self.new ≡ with_exit self.old (meet_of self.old.exit other.now)) × (changed ≡ false → meet_of self.old.exit other.now ≡ self.old.exit) × (changed ≡ true → weight (meet_of self.old.exit other.now) < weight self.old.exit)) }
    {
        meet(alloc, &mut self.last, other)
    }
}

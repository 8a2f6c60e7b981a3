// A thread with its seat, as a job.
ghost use Rattle.std.specs.Prelude.{◌≡◌, ◌≤◌, [], IfOk, IsTrue, true, false};
ghost use Rattle.std.proofs.Common.{refl, ◌∙◌};
ghost use Rattle.core_run.specs.Machine.{start_told};
ghost use Rattle.crew.specs.Counts.{RoseBy};
ghost use Rattle.flow_code.specs.Constants.{constants_fit};
ghost use Rattle.flow_code.specs.Valid.{is_valid};
ghost use Rattle.shared_cells.specs.Plays.{IsReached};
ghost use Rattle.shared_cells.specs.Seats.{IsSeatOf, start_view, view_of};
ghost use Rattle.sync_objects.specs.Setup.{IsWithinLimits};
ghost use Rattle.thread_step.specs.Steps.{told_of};
ghost use Rattle.weak_turns.specs.Carrying.{IsSameCarrier, IsSound, is_over, run_has_ended};
ghost use Rattle.weak_turns.specs.Turns.{HasPlayed, PlayedIs};

use crate::played::Played;
use crate::turn::advance;
use crew::Job;
use shared_cells::{Attempt, Cells, Seat};
use std::alloc::{AllocError, Global};
use std::marker::Model;
use sync_objects::Op;
use thread_step::ThreadRun;

/// Runs one thread of a code, over words that all threads share. A stripe that another thread wants is taken from it once it has
/// held it for `budget` turns.
#[derive(Drop)]
pub struct Carrier<'c, 'a> {
    cells: &'c Cells<'a>,
    seat: Seat,
    run: ThreadRun<'a>,
    budget: u32,
    turns: u64,
    // For each stripe of the code's locks the turn in which it was taken last.
    since: Vec<u64>,
    is_out: bool,
    turns_in_vain: u32,
}

impl<'c, 'a> Model for Carrier<'c, 'a> {
    ghost use Rattle.weak_turns.specs.Carrying.{Carrying, IsSound};

    ghost Value = { Carrying };

    ghost view = { λ c. record { cells = c.cells.now; seat = c.seat; run = c.run; budget = c.budget; turns = c.turns; since = c.since.items; is_out = c.is_out } };

    ghost invariant = { λ c. IsSound (record { cells = c.cells.now; seat = c.seat; run = c.run; budget = c.budget; turns = c.turns; since = c.since.items; is_out = c.is_out }) };
}

impl<'c, 'a> Carrier<'c, 'a> {
    /// A thread at its start, with its seat.
    pub fn new(
        alloc: Global,
        cells: &'c Cells<'a>,
        seat: Seat,
        run: ThreadRun<'a>,
        budget: u32,
    ) -> Result<Carrier<'c, 'a>, AllocError>
        requires valid { is_valid cells.now.code ≡ true }
        requires constants { constants_fit cells.now.code ≡ true }
        requires limits { IsWithinLimits cells.now.setup }
        requires seat { IsSeatOf cells.now seat }
        requires view { view_of seat ≡ start_view cells.now.code cells.now.setup (view_of seat).from }
        requires reached { IsReached (view_of seat) }
        requires marks { seat.marks ≡ 0 }
        requires code { run.flow.code ≡ cells.now.code }
        requires setup { run.flow.setup ≡ cells.now.setup }
        requires number { run.flow.number ≡ (view_of seat).from }
        requires told { told_of run ≡ start_told cells.now.code cells.now.setup (view_of seat).from }
        requires reads { run.reads ≡ [] }
        ensures { IfOk result (λ c. (c.cells ≡ cells.now) × (c.seat ≡ seat) × (c.run ≡ run.entry) × (c.budget ≡ budget) × (c.turns ≡ 0) × (c.is_out ≡ false)) }
    {
        let stripes = cells.code().locks.len();
        let mut since = Vec::new(alloc);
        for _k in 0..stripes {
            since.extend_from_slice(&[0; 8])?;
        }
        Ok(Carrier {
            cells,
            seat,
            run,
            budget,
            turns: 0,
            since,
            is_out: false,
            turns_in_vain: 0,
        })
    }

    /// The seat and the run. What holds of them is told here too.
    pub fn into_parts(self) -> (Seat, ThreadRun<'a>)
        ensures seat { result.0 ≡ self.entry.seat }
        ensures run { result.1 ≡ self.entry.run }
        ensures sound { IsSound self.entry }
    {
        let Carrier { seat, run, .. } = self;
        (seat, run)
    }

    /// A turn, and what it has come to. None where the job is over: its thread had ended, or memory is out, which the memory word
    /// then tells all other carriers of these cells.
    pub fn play(&mut self) -> Option<Played>
        ensures same { IsSameCarrier self.old self.new }
        ensures turns { RoseBy 1 self.old.turns self.new.turns }
        ensures stays { is_over self.old ≡ true → is_over self.new ≡ true }
        ensures played { PlayedIs self.old self.new result }
    {
        self.turns = self.turns.saturating_add(1);
        if self.is_out || self.run.ending().is_some() {
            return None;
        }
        let advanced = advance(
            self.cells,
            &mut self.seat,
            &mut self.run,
            &mut self.since,
            self.budget,
            self.turns,
        );
        // no turn makes two entries
        let entries = self.run.noted().len() as u64;
        prove!(entries <= self.turns);
        match advanced {
            Some(played) => Some(played),
            None => {
                self.is_out = true;
                None
            }
        }
    }
}

impl<'c, 'a> Job for Carrier<'c, 'a> {
    ghost ended = { λ c. is_over c };

    ghost turns = { λ c. c.turns };

    ghost leads_to = { λ c later. IsSameCarrier c later };

    ghost reflexive = { λ c. record { cells = refl; thread = refl; budget = refl } };

    ghost transitive = { λ first second third one two. record { cells = two.cells ∙ one.cells; thread = two.thread ∙ one.thread; budget = two.budget ∙ one.budget } };

    fn turn(&mut self) -> bool
        ensures ended { result ≡ is_over self.new }
        ensures stays { IsTrue (is_over self.old) → IsTrue (is_over self.new) }
        ensures turns { RoseBy 1 self.old.turns self.new.turns }
        ensures leads { IsSameCarrier self.old self.new }
        ensures played { HasPlayed self.old self.new }
    {
        self.turns_in_vain = if let Some(
            Played::Tried {
                op,
                came: Attempt::NotYet { .. },
                ..
            },
        ) = self.play()
        {
            if matches!(op, Op::Take | Op::Retake) {
                1
            } else {
                self.turns_in_vain.saturating_add(1)
            }
        } else {
            0
        };
        self.is_out || self.run.ending().is_some()
    }

    fn turns(&self) -> u64 {
        self.turns
    }

    // Who holds a stripe, owes one or waits for one doesn't sleep: its turns are those that a budget counts, and a stripe that was
    // given up is free for a moment alone.
    fn turns_in_vain(&self) -> u32 {
        if self.run.stripes().is_empty() {
            self.turns_in_vain
        } else {
            self.turns_in_vain.min(1)
        }
    }
}

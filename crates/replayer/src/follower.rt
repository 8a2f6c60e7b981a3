// A thread that follows a log, as a job.
ghost use Rattle.std.specs.Prelude.{◌≡◌, ◌^◌, ◌<◌, [], false, length, None, Some, slice_get, ℕ};
ghost use Rattle.std.proofs.Common.{refl, ◌∙◌};
ghost use Rattle.core_run.specs.Machine.{start_told};
ghost use Rattle.flow_code.specs.Next.{has_ended};
ghost use Rattle.flow_code.specs.Settle.{IsRunnable};
ghost use Rattle.shared_cells.specs.Plays.{IsReached};
ghost use Rattle.shared_cells.specs.Seats.{IsSeatOf, start_view, view_of};
ghost use Rattle.sync_objects.specs.Setup.{IsWithinLimits};
ghost use Rattle.thread_step.specs.Steps.{told_of};
ghost use Rattle.replayer.specs.Following.{IsSameFollower, IsSound, is_over, next_of};
ghost use Rattle.replayer.specs.declared.wanted.Wanted.{Wanted as WantedOf};

use crate::step::Step;
use crate::trying::try_next;
use crate::wanted::Wanted;
use crew::Job;
use rr_base::List;
use shared_cells::{Cells, Seat};
use std::marker::Model;
use thread_step::ThreadRun;

/// A thread of a code that follows its entries of a log, over words that all threads share. It goes on only while its next entry
/// stands before the least departure of any thread.
#[derive(Drop)]
pub struct Follower<'c, 'a> {
    cells: &'c Cells<'a>,
    seat: Seat,
    run: ThreadRun<'a>,
    wanted: List<Wanted>,
    // How many of the entries it has made.
    made: usize,
    // The least departure word that it knows of.
    bound: u32,
    turns: u64,
    has_departed: bool,
    is_out: bool,
    // The position that it has put before its first turn.
    known: Option<u32>,
    turns_in_vain: u32,
}

impl<'c, 'a> Model for Follower<'c, 'a> {
    ghost use Rattle.replayer.specs.Following.{Following, IsSound};

    ghost Value = { Following };

    ghost view = { λ f. record { cells = f.cells.now; seat = f.seat; run = f.run; wanted = f.wanted; made = f.made; bound = f.bound; turns = f.turns; has_departed = f.has_departed; is_out = f.is_out; known = f.known } };

    ghost invariant = { λ f. IsSound (record { cells = f.cells.now; seat = f.seat; run = f.run; wanted = f.wanted; made = f.made; bound = f.bound; turns = f.turns; has_departed = f.has_departed; is_out = f.is_out; known = f.known }) };
}

impl<'c, 'a> Follower<'c, 'a> {
    /// A thread at its start, with its seat and its entries of the log.
    pub fn new(
        cells: &'c Cells<'a>,
        seat: Seat,
        run: ThreadRun<'a>,
        wanted: List<Wanted>,
    ) -> Follower<'c, 'a>
        requires runnable { IsRunnable cells.now.code }
        requires limits { IsWithinLimits cells.now.setup }
        requires seat { IsSeatOf cells.now seat }
        requires view { view_of seat ≡ start_view cells.now.code cells.now.setup (view_of seat).from }
        requires reached { IsReached (view_of seat) }
        requires marks { seat.marks ≡ 0 }
        requires code { run.flow.code ≡ cells.now.code }
        requires setup { run.flow.setup ≡ cells.now.setup }
        requires number { run.flow.number ≡ (view_of seat).from }
        requires told { told_of run ≡ start_told cells.now.code cells.now.setup (view_of seat).from }
        requires reads { run.reads ≡ [] }
        requires own { (k : ℕ) (w : WantedOf) → slice_get wanted k ≡ Some w → w.noted.entry.thread ≡ (view_of seat).from }
        requires few { length wanted < 2 ^ 32 }
        ensures cells { result.cells ≡ cells.now }
        ensures seat { result.seat ≡ seat }
        ensures wanted { result.wanted ≡ wanted }
        ensures turns { result.turns ≡ 0 }
        ensures known { result.known ≡ None }
        ensures stays { result.has_departed ≡ false }
    {
        Follower {
            cells,
            seat,
            run,
            wanted,
            made: 0,
            bound: u32::MAX,
            turns: 0,
            has_departed: false,
            is_out: false,
            known: None,
            turns_in_vain: 0,
        }
    }

    /// Lowers the departure word to the position of an entry that is known to be wrong before any turn.
    pub fn put_known(&mut self, position: u32)
        requires none { self.old.known ≡ None }
        requires stays { self.old.has_departed ≡ false }
        ensures cells { self.new.cells ≡ self.old.cells }
        ensures thread { (view_of self.new.seat).from ≡ (view_of self.old.seat).from }
        ensures wanted { self.new.wanted ≡ self.old.wanted }
        ensures turns { self.new.turns ≡ self.old.turns }
        ensures known { self.new.known ≡ Some position }
    {
        self.cells.least(&mut self.seat, position);
        self.known = Some(position);
    }

    /// Whether memory ran out, so that nothing is known of the log. That the follower is sound is told here too.
    pub fn is_out(&self) -> bool
        ensures value { result ≡ self.now.is_out }
        ensures sound { IsSound self.now }
    {
        self.is_out
    }

    /// Whether its thread has ended.
    pub fn has_ended(&self) -> bool
        ensures { result ≡ has_ended self.now.run.flow.kept.thread.phase }
    {
        self.run.ending().is_some()
    }

    /// The seat and the run.
    pub fn into_parts(self) -> (Seat, ThreadRun<'a>)
        ensures seat { result.0 ≡ self.entry.seat }
        ensures run { result.1 ≡ self.entry.run }
    {
        let Follower { seat, run, .. } = self;
        (seat, run)
    }

    // The entry that the thread has to make next, if it has to make one.
    fn next(&self) -> Option<Wanted>
        ensures { result ≡ next_of self.now }
    {
        self.wanted.get(self.made).copied()
    }

    // Whether the thread does nothing more.
    fn is_over(&self) -> bool
        ensures { result ≡ is_over self.now }
    {
        if self.is_out || self.has_departed {
            return true;
        }
        match self.next() {
            Some(next) => self.bound <= next.position,
            None => true,
        }
    }

    // A turn at the next entry.
    fn play(&mut self, next: Wanted)
        requires next { next_of self.old ≡ Some next }
        requires open { is_over self.old ≡ false }
        requires room { self.old.made < self.old.turns }
        ensures same { IsSameFollower self.old self.new }
        ensures turns { self.new.turns ≡ self.old.turns }
    {
        let Some(tried) = try_next(self.cells, &mut self.seat, &mut self.run, next) else {
            self.is_out = true;
            return;
        };
        self.bound = tried.bound;
        match tried.step {
            Step::Waits => self.turns_in_vain = self.turns_in_vain.saturating_add(1),
            Step::Goes => self.turns_in_vain = 0,
            Step::Makes => {
                self.turns_in_vain = 0;
                self.made += 1;
            }
            Step::Departs => self.has_departed = true,
        }
    }
}

impl<'c, 'a> Job for Follower<'c, 'a> {
    ghost ended = { λ f. is_over f };

    ghost turns = { λ f. f.turns };

    ghost leads_to = { λ f later. IsSameFollower f later };

    ghost reflexive = { λ f. record { cells = refl; thread = refl; wanted = refl; known = refl } };

    ghost transitive = { λ first second third one two. record { cells = two.cells ∙ one.cells; thread = two.thread ∙ one.thread; wanted = two.wanted ∙ one.wanted; known = two.known ∙ one.known } };

    fn turn(&mut self) -> bool {
        self.turns = self.turns.saturating_add(1);
        if self.is_over() {
            return true;
        }
        if let Some(next) = self.next() {
            self.play(next);
        }
        self.is_over()
    }

    fn turns(&self) -> u64 {
        self.turns
    }

    fn turns_in_vain(&self) -> u32 {
        self.turns_in_vain
    }
}

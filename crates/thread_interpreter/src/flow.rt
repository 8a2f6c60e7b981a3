// The interpreter of one thread.
ghost use Rattle.std.specs.Prelude.{◌≡◌, ◌<◌, ◌≤◌, ◌^◌, ◌+◌, true, false, OnOk, IfOk, ◌≢◌, length};
ghost use Rattle.flow_code.specs.Next.{action_at, due_of, stepped, gave_up, stopped, slot_closed, has_ended, has_begun, holds as holds_stripe};
ghost use Rattle.word_semantics.specs.Limits.{most_entries, most_revokes};
ghost use Rattle.flow_code.specs.Settle.{IsRunnable, weight, settled};
ghost use Rattle.thread_interpreter.specs.Flows.{is_ready, needs};
ghost use Rattle.thread_interpreter.specs.Starts.{start_thread, start_phase as start_phase_of};
ghost use Rattle.thread_interpreter.specs.Pieces.{piece_at};
ghost use Rattle.thread_interpreter.specs.Stacks.{stack_of};
ghost use Rattle.thread_interpreter.specs.Parts.{part_of as part_of_thread, thread_of, is_loaded, frames_in, AreWords};
ghost use Rattle.thread_interpreter.specs.Flows.{most_extra};
ghost use Rattle.flow_code.specs.Ranges.{InRange};
ghost use Rattle.flow_code.specs.Next.{act_at};
ghost use Rattle.thread_interpreter.specs.Endings.{ending_of, trap_of};

use crate::due::action_of;
use crate::next::main_function;
use crate::outcome::Ending;
use crate::part::ThreadPart;
use crate::place::arena_start;
use crate::resuming::{part_of, state_of};
use crate::state::ThreadState;
use flow_code::{Code, Phase, Stripe};
use rr_base::{Bytes, List, Trap};
use std::alloc::{AllocError, Global};
use std::marker::Model;
use sync_objects::Setup;
use word_semantics::{Action, Due};

/// One running thread of a code. Contracts see its code, its setup, its number, and its state.
#[derive(Drop)]
pub struct Flow<'a> {
    alloc: Global,
    code: &'a Code,
    setup: &'a Setup,
    thread: u8,
    state: ThreadState,
}

impl<'a> Model for Flow<'a> {
    ghost use Rattle.thread_interpreter.specs.Flows.{Running, IsSoundFlow};

    ghost Value = { Running };

    ghost view = { λ f. record { code = f.code.now; setup = f.setup.now; number = f.thread; kept = f.state } };

    ghost invariant = { λ f. IsSoundFlow f.code.now f.setup.now f.thread f.state.thread };
}

impl<'a> Flow<'a> {
    // What comes next, of any kind.
    #[tactic(auto, unfolding(flow_code::specs::Next::action_at))]
    #[inline(never)]
    fn due_action(&self) -> Action
        ensures { result ≡ action_at self.now.code self.now.setup self.now.number self.now.kept.thread }
    {
        action_of(self.state.due(self.code, self.setup, self.thread))
    }

    /// What comes next: a quiet step, or what the thread does to the words.
    #[tactic(auto, unfolding(flow_code::specs::Next::action_at))]
    #[inline(always)]
    pub fn next_action(&self) -> Action
        ensures { result ≡ action_at self.now.code self.now.setup self.now.number self.now.kept.thread }
    {
        match self.state.next_event(self.code, self.setup) {
            Some(next) => next,
            None => self.due_action(),
        }
    }

    /// One step: a quiet one, or what comes next, with its answer.
    #[inline(never)]
    pub fn take_answer(&mut self, answer: i64)
        requires { is_ready self.old.code self.old.kept ≡ true }
        ensures code { self.new.code ≡ self.old.code }
        ensures setup { self.new.setup ≡ self.old.setup }
        ensures number { self.new.number ≡ self.old.number }
        ensures thread { self.new.kept.thread ≡ stepped self.old.code self.old.setup self.old.number self.old.kept.thread answer }
        ensures falls { action_at self.old.code self.old.setup self.old.number self.old.kept.thread ≡ Action.Quiet → weight self.new.code self.new.setup self.new.number self.new.kept.thread < weight self.old.code self.old.setup self.old.number self.old.kept.thread }
        ensures same { action_at self.old.code self.old.setup self.old.number self.old.kept.thread ≡ Action.Quiet → settled self.new.code self.new.setup self.new.number self.new.kept.thread ≡ settled self.old.code self.old.setup self.old.number self.old.kept.thread }
    {
        let due = self.state.due(self.code, self.setup, self.thread);
        self.state.step(self.alloc, self.code, self.setup, self.thread, due, answer);
    }

    // What is due where this comes next.
    #[tactic(auto, using(crate::proofs::FlowFacts::known_load, crate::proofs::FlowFacts::known_store, crate::proofs::FlowFacts::known_mark))]
    #[inline(always)]
    fn due_of(&self, next: Action) -> Due
        requires { next ≡ action_at self.now.code self.now.setup self.now.number self.now.kept.thread }
        ensures { result ≡ due_of self.now.code self.now.setup self.now.number self.now.kept.thread }
    {
        match next {
            Action::Load { cell } => Due::Load { cell },
            Action::Store { cell, value } => Due::Store { cell, value },
            Action::Mark => Due::Mark,
            _ => self.state.due(self.code, self.setup, self.thread),
        }
    }

    /// One step of which it is known that it comes next, with its answer.
    #[inline(always)]
    pub fn take_next(&mut self, next: Action, answer: i64)
        requires ready { is_ready self.old.code self.old.kept ≡ true }
        requires next { next ≡ action_at self.old.code self.old.setup self.old.number self.old.kept.thread }
        ensures code { self.new.code ≡ self.old.code }
        ensures setup { self.new.setup ≡ self.old.setup }
        ensures number { self.new.number ≡ self.old.number }
        ensures thread { self.new.kept.thread ≡ stepped self.old.code self.old.setup self.old.number self.old.kept.thread answer }
    {
        let due = self.due_of(next);
        self.state.step(self.alloc, self.code, self.setup, self.thread, due, answer);
    }

    /// Makes room for one more step.
    #[inline(always)]
    pub fn reserve(&mut self) -> Result<(), AllocError>
        ensures code { self.new.code ≡ self.old.code }
        ensures setup { self.new.setup ≡ self.old.setup }
        ensures number { self.new.number ≡ self.old.number }
        ensures same { self.new.kept.thread ≡ self.old.kept.thread }
        ensures ready { OnOk result (is_ready self.new.code self.new.kept ≡ true) }
    {
        self.state.reserve(self.code)
    }

    /// Whether the thread holds the stripe.
    pub fn holds(&self, lock: u16, stripe: u8) -> bool
        ensures { result ≡ holds_stripe self.now.kept.thread.stripes lock stripe }
    {
        self.state.holds(lock, stripe)
    }

    /// The stripes that the thread holds or owes.
    pub fn stripes(&self) -> &[Stripe]
        ensures { result.now ≡ self.now.kept.thread.stripes }
    {
        self.state.stripes()
    }

    /// The code that the thread runs.
    pub fn code(&self) -> &'a Code
        ensures { result.now ≡ self.now.code }
    {
        self.code
    }

    /// The setup under which it runs.
    pub fn setup(&self) -> &'a Setup
        ensures { result.now ≡ self.now.setup }
    {
        self.setup
    }

    /// How many events the thread has made.
    pub fn count(&self) -> u32
        ensures { result ≡ self.now.kept.thread.count }
    {
        self.state.count
    }

    /// How many entries it has that aren't ending ones.
    pub fn entries(&self) -> u32
        ensures { result ≡ self.now.kept.thread.entries }
    {
        self.state.entries
    }

    /// How many of its entries are revokes.
    pub fn revokes(&self) -> u32
        ensures { result ≡ self.now.kept.thread.revokes }
    {
        self.state.revokes
    }

    /// How far the thread is in its life.
    pub fn phase(&self) -> Phase
        ensures { result ≡ self.now.kept.thread.phase }
    {
        self.state.phase
    }

    /// Whether the thread has begun. Thread 0 has begun at the start.
    pub fn has_begun(&self) -> bool
        ensures { result ≡ has_begun self.now.kept.thread.phase }
    {
        !matches!(self.state.phase, Phase::Fresh | Phase::Closed)
    }

    /// How the thread has ended; None exactly where it hasn't.
    pub fn ending(&self) -> Option<Ending>
        ensures { result ≡ ending_of self.now.kept.thread.phase }
    {
        match self.state.phase {
            Phase::Fresh | Phase::Begun(_) | Phase::Loaded { .. } | Phase::Running => None,
            Phase::Ended => Some(Ending::Ended),
            Phase::Halted => Some(Ending::Halted),
            Phase::Trapped { .. } => Some(Ending::Trapped),
            Phase::Stopped => Some(Ending::Stopped),
            Phase::Closed => Some(Ending::Closed),
        }
    }

    /// The kind and the line of the thread's trap; None exactly where it hasn't trapped.
    pub fn trap(&self) -> Option<(Trap, u32)>
        ensures { result ≡ trap_of self.now.kept.thread.phase }
    {
        match self.state.phase {
            Phase::Trapped { kind, line } => Some((kind, line)),
            _ => None,
        }
    }

    // Quiet steps that need no room.
    #[inline(always)]
    fn pass_alone(&mut self)
        ensures code { self.new.code ≡ self.old.code }
        ensures setup { self.new.setup ≡ self.old.setup }
        ensures number { self.new.number ≡ self.old.number }
        ensures same { settled self.new.code self.new.setup self.new.number self.new.kept.thread ≡ settled self.old.code self.old.setup self.old.number self.old.kept.thread }
        ensures falls { weight self.new.code self.new.setup self.new.number self.new.kept.thread ≤ weight self.old.code self.old.setup self.old.number self.old.kept.thread }
    {
        self.state.pass_alone(self.code, self.setup);
    }

    /// All quiet steps, and what comes next after them. After an Err some of the quiet steps are made, and the others are still to
    /// come.
    #[inline(always)]
    pub fn settle_to_next(&mut self) -> Result<Action, AllocError>
        ensures code { self.new.code ≡ self.old.code }
        ensures setup { self.new.setup ≡ self.old.setup }
        ensures number { self.new.number ≡ self.old.number }
        ensures thread { OnOk result (self.new.kept.thread ≡ settled self.old.code self.old.setup self.old.number self.old.kept.thread) }
        ensures rest { settled self.new.code self.new.setup self.new.number self.new.kept.thread ≡ settled self.old.code self.old.setup self.old.number self.old.kept.thread }
        ensures next { IfOk result (λ next. next ≡ action_at self.new.code self.new.setup self.new.number self.new.kept.thread) }
        ensures quiet { IfOk result (λ next. next ≢ Action.Quiet) }
    {
        loop {
            self.pass_alone();
            match self.next_action() {
                Action::Quiet => {
                    self.reserve()?;
                    self.take_answer(0);
                }
                next => return Ok(next),
            }
        }
    }

    /// All quiet steps. After an Err some of them are made, and the others are still to come.
    pub fn settle(&mut self) -> Result<(), AllocError>
        ensures code { self.new.code ≡ self.old.code }
        ensures setup { self.new.setup ≡ self.old.setup }
        ensures number { self.new.number ≡ self.old.number }
        ensures thread { OnOk result (self.new.kept.thread ≡ settled self.old.code self.old.setup self.old.number self.old.kept.thread) }
        ensures rest { settled self.new.code self.new.setup self.new.number self.new.kept.thread ≡ settled self.old.code self.old.setup self.old.number self.old.kept.thread }
        ensures quiet { OnOk result (action_at self.new.code self.new.setup self.new.number self.new.kept.thread ≢ Action.Quiet) }
    {
        let _next = self.settle_to_next()?;
        Ok(())
    }

    /// What a revoke of a stripe that the thread holds does to it.
    pub fn give_up(&mut self, lock: u16, stripe: u8)
        requires entries { self.old.kept.thread.entries < most_entries }
        requires revokes { self.old.kept.thread.revokes < most_revokes }
        ensures code { self.new.code ≡ self.old.code }
        ensures setup { self.new.setup ≡ self.old.setup }
        ensures number { self.new.number ≡ self.old.number }
        ensures thread { self.new.kept.thread ≡ gave_up self.old.kept.thread lock stripe }
    {
        self.state.give_up(lock, stripe);
    }

    /// What a stop does to the thread.
    pub fn stop(&mut self)
        requires { has_ended self.old.kept.thread.phase ≡ false }
        ensures code { self.new.code ≡ self.old.code }
        ensures setup { self.new.setup ≡ self.old.setup }
        ensures number { self.new.number ≡ self.old.number }
        ensures thread { self.new.kept.thread ≡ stopped self.old.kept.thread }
    {
        self.state.stop();
    }

    /// What a close of the thread's slot does to it.
    pub fn close_slot(&mut self)
        requires { has_ended self.old.kept.thread.phase ≡ false }
        ensures code { self.new.code ≡ self.old.code }
        ensures setup { self.new.setup ≡ self.old.setup }
        ensures number { self.new.number ≡ self.old.number }
        ensures thread { self.new.kept.thread ≡ slot_closed self.old.kept.thread }
    {
        self.state.close_slot();
    }

    /// The functions on the thread's stack, the running one last: none before it enters its first function, and none once it
    /// has ended.
    pub fn stack(&self) -> Result<List<u32>, AllocError>
        ensures { IfOk result (λ it. it ≡ stack_of self.now.kept.thread) }
    {
        self.state.stack(self.alloc)
    }

    /// The bytes that the call at which the thread stands prints.
    pub fn piece(&self) -> Result<Bytes, AllocError>
        ensures { IfOk result (λ bytes. bytes ≡ piece_at (act_at self.now.code self.now.kept.thread.top) self.now.kept.thread.top.registers) }
    {
        self.state.piece(self.alloc, self.code)
    }
}

// Thread 0 has begun at the start, and all others are fresh.
fn start_phase(code: &Code, thread: u8) -> Phase
    requires { length code.now.functions ≤ 2 ^ 20 }
    ensures { result ≡ start_phase_of code.now thread }
{
    if thread == 0 {
        Phase::Begun(main_function(code))
    } else {
        Phase::Fresh
    }
}

impl<'a> Flow<'a> {
    /// Thread `thread` of the code at its start.
    pub fn new(
        alloc: Global,
        code: &'a Code,
        setup: &'a Setup,
        thread: u8,
    ) -> Result<Flow<'a>, AllocError>
        requires runnable { IsRunnable code.now }
        requires thread { thread < setup.now.slots }
        ensures { IfOk result (λ f. (f.code ≡ code.now) × (f.setup ≡ setup.now) × (f.number ≡ thread) × (f.kept.thread ≡ start_thread code.now setup.now thread)) }
    {
        let arena = arena_start(code, setup, thread);
        let mut state = ThreadState::start(alloc, start_phase(code, thread), arena);
        state.reserve(code)?;
        Ok(Flow {
            alloc,
            code,
            setup,
            thread,
            state,
        })
    }

    /// Thread `thread` of the code in the state that a part keeps.
    pub fn resumed(
        alloc: Global,
        code: &'a Code,
        setup: &'a Setup,
        thread: u8,
        part: &ThreadPart,
    ) -> Result<Flow<'a>, AllocError>
        requires runnable { IsRunnable code.now }
        requires thread { thread < setup.now.slots }
        requires range { InRange code.now setup.now most_extra thread (thread_of part.now) }
        ensures { IfOk result (λ f. (f.code ≡ code.now) × (f.setup ≡ setup.now) × (f.number ≡ thread) × (f.kept.thread ≡ thread_of part.now)) }
    {
        let _slots = setup.slots();
        let mut state = state_of(alloc, part)?;
        state.reserve(code)?;
        Ok(Flow {
            alloc,
            code,
            setup,
            thread,
            state,
        })
    }

    /// What is to be kept of the thread's state. The answers that its frames keep have 64 bits.
    pub fn parts(&self) -> Result<ThreadPart, AllocError>
        requires { is_loaded self.now.kept.thread.phase ≡ false }
        ensures part { IfOk result (λ part. part ≡ part_of_thread self.now.kept.thread) }
        ensures words { OnOk result (AreWords (frames_in self.now.kept.thread.phase self.now.kept.thread)) }
    {
        part_of(self.alloc, &self.state)
    }
}

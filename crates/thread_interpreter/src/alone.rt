// Quiet steps that need no room: instructions that compute, jump and branch.
ghost use Rattle.std.specs.Prelude.{◌≡◌, ℕ, ◌<◌, ◌^◌, ◌+◌, true, false, pos, Some};
ghost use Rattle.word_semantics.specs.declared.event.Due.TheVariants as due;
ghost use Rattle.thread_interpreter.specs.Passing.{Passes, StepsIf};
ghost use Rattle.flow_code.specs.Next.{act_due, act_after, computed, pointers_of, quiet_unless};
ghost use Rattle.flow_code.specs.Threads.{instr_at};
ghost use Rattle.flow_code.specs.Works.{work_of};
ghost use Rattle.flow_code.specs.declared.thread.Phase.TheVariants as phase;

use crate::place::{instrs_at, pointers_at};
use crate::state::ThreadState;
use flow_code::{Act, Code, Instr, Phase, Work, compute};
use sync_objects::Setup;
use word_semantics::{based, register, word};

impl ThreadState {
    // Computes into a register and goes on, unless that traps.
    fn result_alone(
        &mut self,
        code: &Code,
        setup: &Setup,
        pointers: &[bool],
        into: u32,
        work: &Work,
    ) -> bool
        requires instr { self.old.thread.top.instr + 1 < 2 ^ 64 }
        requires pointers { pointers.now ≡ pointers_of code.now self.old.thread.top }
        ensures quiet { result ≡ true → quiet_unless (work_of setup.now.slots code.now.sites (pointers_of code.now self.old.thread.top) self.old.thread.top.registers work.now) ≡ due.Quiet }
        ensures thread { result ≡ true → self.new.thread ≡ computed self.old.thread into (work_of setup.now.slots code.now.sites (pointers_of code.now self.old.thread.top) self.old.thread.top.registers work.now) }
        ensures same { result ≡ false → self.new.thread ≡ self.old.thread }
    {
        let value = compute(
            setup.slots(),
            code.sites.as_slice(),
            pointers,
            self.top.registers(),
            work,
        );
        let is_quiet = value.is_ok();
        self.compute(into, value);
        is_quiet
    }

    // The same, with what most works do at hand.
    #[inline(always)]
    fn work_alone(
        &mut self,
        code: &Code,
        setup: &Setup,
        pointers: &[bool],
        into: u32,
        work: &Work,
    ) -> bool
        requires instr { self.old.thread.top.instr + 1 < 2 ^ 64 }
        requires pointers { pointers.now ≡ pointers_of code.now self.old.thread.top }
        ensures quiet { result ≡ true → quiet_unless (work_of setup.now.slots code.now.sites (pointers_of code.now self.old.thread.top) self.old.thread.top.registers work.now) ≡ due.Quiet }
        ensures thread { result ≡ true → self.new.thread ≡ computed self.old.thread into (work_of setup.now.slots code.now.sites (pointers_of code.now self.old.thread.top) self.old.thread.top.registers work.now) }
        ensures same { result ≡ false → self.new.thread ≡ self.old.thread }
    {
        match *work {
            Work::Constant(value) => {
                self.compute(into, Ok(word(value)));
                true
            }
            Work::Copy(r) => {
                let value = register(self.top.registers(), r);
                self.compute(into, Ok(value));
                true
            }
            Work::Address(address) => {
                self.compute(into, Ok(based(setup.slots(), address)));
                true
            }
            _ => self.result_alone(code, setup, pointers, into, work),
        }
    }

    #[inline(always)]
    fn act_alone(&mut self, code: &Code, setup: &Setup, pointers: &[bool], act: &Act) -> bool
        requires instr { self.old.thread.top.instr + 1 < 2 ^ 64 }
        requires pointers { pointers.now ≡ pointers_of code.now self.old.thread.top }
        ensures quiet { result ≡ true → (t : ℕ) → act_due code.now setup.now t self.old.thread (Some act.now) ≡ due.Quiet }
        ensures thread { result ≡ true → (t : ℕ) → self.new.thread ≡ act_after code.now setup.now t self.old.thread (Some act.now) (pos 0) }
        ensures same { result ≡ false → self.new.thread ≡ self.old.thread }
        ensures phase { self.new.thread.phase ≡ self.old.thread.phase }
        ensures function { self.new.thread.top.function ≡ self.old.thread.top.function }
    {
        match act {
            Act::Compute { into, work } => self.work_alone(code, setup, pointers, *into, work),
            Act::Jump { to } => {
                self.top.jump(*to);
                true
            }
            Act::Branch {
                on,
                then_at,
                else_at,
            } => {
                self.take_branch(*on, *then_at, *else_at);
                true
            }
            _ => false,
        }
    }

    // One quiet step of a running thread that needs no room. False, and nothing is made, where no such step comes next.
    #[inline(always)]
    fn step_alone(&mut self, code: &Code, setup: &Setup, pointers: &[bool], instr: &Instr) -> bool
        requires running { self.old.thread.phase ≡ phase.Running }
        requires stands { instr_at code.now self.old.thread.top ≡ Some instr.now }
        requires instr { self.old.thread.top.instr + 1 < 2 ^ 64 }
        requires pointers { pointers.now ≡ pointers_of code.now self.old.thread.top }
        ensures steps { StepsIf result code.now setup.now self.old.thread self.new.thread }
        ensures phase { self.new.thread.phase ≡ phase.Running }
        ensures function { self.new.thread.top.function ≡ self.old.thread.top.function }
    {
        self.act_alone(code, setup, pointers, &instr.act)
    }

    /// Quiet steps that need no room: all up to the first step of another kind, or to a jump back.
    #[tactic(auto, using(crate::proofs::StepsAlone::passes_none, crate::proofs::StepsAlone::passes_on))]
    pub(crate) fn pass_alone(&mut self, code: &Code, setup: &Setup)
        ensures { Passes code.now setup.now self.old.thread self.new.thread }
    {
        if !matches!(self.phase, Phase::Running) {
            return;
        }
        let (function, mut at) = self.top.place();
        let instrs = instrs_at(code, function);
        let pointers = pointers_at(code, function);
        while at < instrs.len() {
            let is_made = self.step_alone(code, setup, pointers, &instrs[at]);
            if !is_made || self.top.instr <= at {
                return;
            }
            at = self.top.instr;
        }
    }
}

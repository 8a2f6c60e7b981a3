// One step of a thread, with its answer.
ghost use Rattle.std.specs.Prelude.{◌≡◌, ◌<◌, ◌≤◌, ◌^◌, ◌+◌, ◌-◌, ℕ, length, slice_get, true, false, Some};
ghost use Rattle.sync_objects.specs.Setup.{SetupView};
ghost use Rattle.flow_code.specs.Threads.{registers_in, Frame as FrameView, line_of as line_of_phase, instrs_in};
ghost use Rattle.flow_code.specs.Next.{returned as returned_of, act_after, call_after, phase_after, after_due as after_due_of, branch_to as branch_to_of, computed, pointers_of, allocated, in_frame, past as past_of, with_register, jumped, counted, repaid};
ghost use Rattle.word_semantics.specs.Cells.{cells_in as cells_in_of};
ghost use Rattle.sync_objects.specs.declared.operation.Op.TheVariants as op;
ghost use Rattle.flow_code.specs.declared.thread.Phase.TheVariants as phase;
ghost use Rattle.flow_code.specs.Works.{work_of};
ghost use Rattle.word_semantics.specs.Registers.{register as register_of};
ghost use Rattle.word_semantics.specs.Values.{number as number_of, word as word_of};
ghost use Rattle.thread_interpreter.specs.Flows.{needs, needs_of_act, needs_pairs, pairs_of_act, is_retake as is_retake_of, Fits};
ghost use Rattle.flow_code.specs.Next.{act_at};
ghost use Rattle.flow_code.specs.declared.act.Act.TheVariants as act;

use crate::next::{cells_in, is_main_function, value_of};
use crate::place::{instr_at, line_at, line_at_function, pointers_at};
use crate::state::ThreadState;
use flow_code::{Act, Code, Phase, Work, compute};
use rr_base::Trap;
use std::alloc::Global;
use sync_objects::{Op, Setup};
use word_semantics::{
    Caller, Due, LibraryCall, count_in, library_onward, number, piece_len, register, word,
};

fn branch_to(value: u64, then_at: u32, else_at: u32) -> u32
    ensures { result ≡ branch_to_of value then_at else_at }
{
    if value == 0 { else_at } else { then_at }
}

fn is_retake(op: Op) -> bool
    ensures { result ≡ is_retake_of op }
{
    matches!(op, Op::Retake)
}

impl ThreadState {
    fn take_return(&mut self, code: &Code, value: u64)
        requires made { self.old.thread.top.made + 1 < 2 ^ 8 }
        requires caller { (f : FrameView) → slice_get self.old.thread.below (length self.old.thread.below - 1) ≡ Some f → f.instr < length (instrs_in (slice_get code.now.functions f.function)) }
        ensures { self.new.thread ≡ returned_of code.now self.old.thread value }
    {
        if self.below.is_empty() {
            let (function, _) = self.top.place();
            self.end(is_main_function(code, function));
        } else {
            self.back(code, value);
        }
    }

    fn take_call(
        &mut self,
        code: &Code,
        setup: &Setup,
        thread: u8,
        call: &LibraryCall,
        arguments: &[u32],
        into: Option<u32>,
        answer: i64,
    )
        requires instr { self.old.thread.top.instr + 1 < 2 ^ 64 }
        requires made { (call_after code.now setup.now thread self.old.thread call.now arguments.now into answer).top.made < 2 ^ 8 }
        requires printed { (call_after code.now setup.now thread self.old.thread call.now arguments.now into answer).printed < 2 ^ 32 }
        ensures { self.new.thread ≡ call_after code.now setup.now thread self.old.thread call.now arguments.now into answer }
    {
        let caller = Caller::new(code.sites.as_slice(), setup, thread, self.printed);
        let (made, kept) = self.top.events();
        let onward = library_onward(
            &caller,
            call,
            self.top.registers(),
            arguments,
            made,
            kept,
            answer,
        );
        self.printed += piece_len(call, self.top.registers(), arguments) as u32;
        self.go_onward(into, onward);
    }

    fn take_library(
        &mut self,
        code: &Code,
        setup: &Setup,
        thread: u8,
        call: &LibraryCall,
        arguments: &[u32],
        into: Option<u32>,
        answer: i64,
    )
        requires instr { self.old.thread.top.instr + 1 < 2 ^ 64 }
        requires made { (act_after code.now setup.now thread self.old.thread (Some (act.Library call.now arguments.now into)) answer).top.made < 2 ^ 8 }
        requires printed { (act_after code.now setup.now thread self.old.thread (Some (act.Library call.now arguments.now into)) answer).printed < 2 ^ 32 }
        ensures { self.new.thread ≡ act_after code.now setup.now thread self.old.thread (Some (act.Library call.now arguments.now into)) answer }
    {
        if self.is_parting(call) {
            self.part();
        } else {
            self.take_call(code, setup, thread, call, arguments, into, answer);
        }
    }

    fn take_work(&mut self, code: &Code, setup: &Setup, into: u32, work: &Work)
        requires { self.old.thread.top.instr + 1 < 2 ^ 64 }
        ensures { self.new.thread ≡ computed self.old.thread into (work_of setup.now.slots code.now.sites (pointers_of code.now self.old.thread.top) self.old.thread.top.registers work.now) }
    {
        let (function, _) = self.top.place();
        let pointers = pointers_at(code, function);
        let value = compute(
            setup.slots(),
            code.sites.as_slice(),
            pointers,
            self.top.registers(),
            work,
        );
        self.compute(into, value);
    }

    fn take_alloc(&mut self, into: u32, site: u16, size: u32)
        requires instr { self.old.thread.top.instr + 1 < 2 ^ 64 }
        requires arena { (allocated self.old.thread into site (cells_in_of (number_of (register_of self.old.thread.top.registers size)))).arena < 2 ^ 32 }
        ensures { self.new.thread ≡ allocated self.old.thread into site (cells_in_of (number_of (register_of self.old.thread.top.registers size))) }
    {
        let cells = cells_in(number(register(self.top.registers(), size)));
        self.allocate(into, site, cells as u32);
    }

    #[inline(always)]
    fn take_load(&mut self, into: u32, answer: i64)
        requires { self.old.thread.top.instr + 1 < 2 ^ 64 }
        ensures { self.new.thread ≡ in_frame self.old.thread (past_of (with_register self.old.thread.top into (word_of answer))) }
    {
        self.top.set_register(into, word(answer));
        self.top.pass();
    }

    #[inline(always)]
    pub(crate) fn take_branch(&mut self, on: u32, then_at: u32, else_at: u32)
        ensures { self.new.thread ≡ in_frame self.old.thread (jumped self.old.thread.top (branch_to_of (register_of self.old.thread.top.registers on) then_at else_at)) }
    {
        let value = register(self.top.registers(), on);
        self.top.jump(branch_to(value, then_at, else_at));
    }

    fn take_act(
        &mut self,
        alloc: Global,
        code: &Code,
        setup: &Setup,
        thread: u8,
        act: &Act,
        answer: i64,
    )
        requires globals { length code.now.globals ≤ 2 ^ 20 }
        requires thread { thread < setup.now.slots }
        requires place { self.old.has_place ≡ true }
        requires room { needs_of_act code.now (Some act.now) ≤ self.old.registers }
        requires stripe { self.old.has_stripe ≡ true }
        requires region { self.old.has_region ≡ true }
        requires pairs { pairs_of_act code.now self.old.thread (Some act.now) ≤ self.old.pairs }
        requires instr { self.old.thread.top.instr + 1 < 2 ^ 64 }
        requires before { self.old.thread.top.made + 1 < 2 ^ 8 }
        requires caller { (f : FrameView) → slice_get self.old.thread.below (length self.old.thread.below - 1) ≡ Some f → f.instr < length (instrs_in (slice_get code.now.functions f.function)) }
        requires made { (act_after code.now setup.now thread self.old.thread (Some act.now) answer).top.made < 2 ^ 8 }
        requires arena { (act_after code.now setup.now thread self.old.thread (Some act.now) answer).arena < 2 ^ 32 }
        requires printed { (act_after code.now setup.now thread self.old.thread (Some act.now) answer).printed < 2 ^ 32 }
        ensures { self.new.thread ≡ act_after code.now setup.now thread self.old.thread (Some act.now) answer }
    {
        match act {
            Act::Call {
                function,
                arguments,
                into: _,
            } => {
                self.call(alloc, code, setup, thread, *function, arguments.as_slice());
            }
            Act::Library {
                call,
                arguments,
                into,
            } => {
                self.take_library(
                    code,
                    setup,
                    thread,
                    call,
                    arguments.as_slice(),
                    *into,
                    answer,
                );
            }
            Act::Return { value } => {
                let value = value_of(self.top.registers(), *value);
                self.take_return(code, value);
            }
            Act::Compute { into, work } => self.take_work(code, setup, *into, work),
            Act::Alloc {
                into: _,
                site: _,
                size: None,
            } => self.pass(),
            Act::Alloc {
                into,
                site,
                size: Some(size),
            } => self.take_alloc(*into, *site, *size),
            Act::LoadCell { into, through: _ } => self.take_load(*into, answer),
            Act::StoreCell { .. } | Act::Mark => self.pass(),
            Act::Take(region) => self.take_region(alloc, code, *region),
            Act::Give(region) => self.give_region(code, *region),
            Act::Jump { to } => self.top.jump(*to),
            Act::Branch {
                on,
                then_at,
                else_at,
            } => self.take_branch(*on, *then_at, *else_at),
        }
    }

    // What becomes of the thread by what is due by its code alone.
    #[inline(never)]
    fn go(&mut self, alloc: Global, code: &Code, setup: &Setup, thread: u8, answer: i64)
        requires globals { length code.now.globals ≤ 2 ^ 20 }
        requires thread { thread < setup.now.slots }
        requires place { self.old.has_place ≡ true }
        requires room { needs code.now self.old.thread ≤ self.old.registers }
        requires stripe { self.old.has_stripe ≡ true }
        requires region { self.old.has_region ≡ true }
        requires pairs { needs_pairs code.now self.old.thread ≤ self.old.pairs }
        requires before { self.old.thread.top.made + 1 < 2 ^ 8 }
        requires caller { (f : FrameView) → slice_get self.old.thread.below (length self.old.thread.below - 1) ≡ Some f → f.instr < length (instrs_in (slice_get code.now.functions f.function)) }
        requires made { (phase_after code.now setup.now thread self.old.thread self.old.thread.phase answer).top.made < 2 ^ 8 }
        requires arena { (phase_after code.now setup.now thread self.old.thread self.old.thread.phase answer).arena < 2 ^ 32 }
        requires printed { (phase_after code.now setup.now thread self.old.thread self.old.thread.phase answer).printed < 2 ^ 32 }
        ensures { self.new.thread ≡ phase_after code.now setup.now thread self.old.thread self.old.thread.phase answer }
    {
        match self.phase {
            Phase::Fresh => self.phase = Phase::Begun(count_in(answer)),
            Phase::Begun(function) => {
                if thread == 0 {
                    self.enter_first(alloc, code, setup, thread, function, &[], &[]);
                } else {
                    self.phase = Phase::Loaded {
                        function,
                        argument: word(answer),
                    };
                }
            }
            Phase::Loaded { function, argument } => {
                self.enter_first(alloc, code, setup, thread, function, &[0], &[argument]);
            }
            Phase::Running => {
                let (function, instr) = self.top.place();
                if let Some(instr) = instr_at(code, function, instr) {
                    self.take_act(alloc, code, setup, thread, &instr.act, answer);
                }
            }
            Phase::Ended | Phase::Halted | Phase::Trapped { .. } | Phase::Stopped | Phase::Closed =>
                {}
        }
    }

    // Goes on from an access or a mark of a running thread. False, and nothing is made, elsewhere.
    #[inline(always)]
    fn go_alone(&mut self, code: &Code, answer: i64) -> bool
        ensures thread { result ≡ true → (s : SetupView) (t : ℕ) → self.new.thread ≡ phase_after code.now s t self.old.thread self.old.thread.phase answer }
        ensures same { result ≡ false → self.new ≡ self.old }
    {
        if !matches!(self.phase, Phase::Running) {
            return false;
        }
        let Some(instr) = self.instr_here(code) else {
            return false;
        };
        match &instr.act {
            Act::LoadCell { into, through: _ } => {
                self.take_load(*into, answer);
                true
            }
            Act::StoreCell { .. } | Act::Mark => {
                self.pass();
                true
            }
            _ => false,
        }
    }

    // What becomes of the thread by an access or a mark; most of them are a running thread's.
    #[inline(always)]
    fn go_event(&mut self, alloc: Global, code: &Code, setup: &Setup, thread: u8, answer: i64)
        requires globals { length code.now.globals ≤ 2 ^ 20 }
        requires thread { thread < setup.now.slots }
        requires place { self.old.has_place ≡ true }
        requires room { needs code.now self.old.thread ≤ self.old.registers }
        requires stripe { self.old.has_stripe ≡ true }
        requires region { self.old.has_region ≡ true }
        requires pairs { needs_pairs code.now self.old.thread ≤ self.old.pairs }
        requires before { self.old.thread.top.made + 1 < 2 ^ 8 }
        requires caller { (f : FrameView) → slice_get self.old.thread.below (length self.old.thread.below - 1) ≡ Some f → f.instr < length (instrs_in (slice_get code.now.functions f.function)) }
        requires made { (phase_after code.now setup.now thread self.old.thread self.old.thread.phase answer).top.made < 2 ^ 8 }
        requires arena { (phase_after code.now setup.now thread self.old.thread self.old.thread.phase answer).arena < 2 ^ 32 }
        requires printed { (phase_after code.now setup.now thread self.old.thread self.old.thread.phase answer).printed < 2 ^ 32 }
        ensures { self.new.thread ≡ phase_after code.now setup.now thread self.old.thread self.old.thread.phase answer }
    {
        if !self.go_alone(code, answer) {
            self.go(alloc, code, setup, thread, answer);
        }
    }

    // The line at which the thread stands.
    fn line(&self, code: &Code) -> u32
        ensures { result ≡ line_of_phase code.now self.now.thread.phase self.now.thread.top }
    {
        match self.phase {
            Phase::Begun(function) | Phase::Loaded { function, .. } => line_at_function(
                code, function,
            ),
            _ => {
                let (function, instr) = self.top.place();
                line_at(code, function, instr)
            }
        }
    }

    // Takes an owed stripe again.
    #[inline(never)]
    fn take_stripe(&mut self, op: Op)
        requires count { (counted op self.old.thread).count < 2 ^ 32 }
        requires entries { (counted op self.old.thread).entries < 2 ^ 32 }
        ensures { self.new.thread ≡ counted op (record self.old.thread { stripes = repaid self.old.thread.stripes }) }
    {
        self.repay();
        self.note(op);
    }

    // The thread traps, at the line at which it stands.
    #[inline(never)]
    fn take_trap(&mut self, code: &Code, kind: Trap)
        requires { self.old.thread.count + 1 < 2 ^ 32 }
        ensures { self.new.thread ≡ counted op.TrapHere (record self.old.thread { phase = phase.Trapped kind (line_of_phase code.now self.old.thread.phase self.old.thread.top) }) }
    {
        self.phase = Phase::Trapped {
            kind,
            line: self.line(code),
        };
        self.count += 1;
    }

    /// What becomes of the thread by what is due, with its answer.
    #[inline(always)]
    pub(crate) fn step(
        &mut self,
        alloc: Global,
        code: &Code,
        setup: &Setup,
        thread: u8,
        due: Due,
        answer: i64,
    )
        requires globals { length code.now.globals ≤ 2 ^ 20 }
        requires thread { thread < setup.now.slots }
        requires place { self.old.has_place ≡ true }
        requires room { needs code.now self.old.thread ≤ self.old.registers }
        requires stripe { self.old.has_stripe ≡ true }
        requires region { self.old.has_region ≡ true }
        requires pairs { needs_pairs code.now self.old.thread ≤ self.old.pairs }
        requires before { self.old.thread.top.made + 1 < 2 ^ 8 }
        requires caller { (f : FrameView) → slice_get self.old.thread.below (length self.old.thread.below - 1) ≡ Some f → f.instr < length (instrs_in (slice_get code.now.functions f.function)) }
        requires fits { Fits (after_due_of code.now setup.now thread self.old.thread due answer) }
        ensures { self.new.thread ≡ after_due_of code.now setup.now thread self.old.thread due answer }
    {
        match due {
            Due::Nothing => {}
            Due::Quiet => self.go(alloc, code, setup, thread, answer),
            Due::Load { .. } | Due::Store { .. } | Due::Mark => {
                self.go_event(alloc, code, setup, thread, answer);
                self.count += 1;
            }
            Due::Operate { op, obj: _ } => {
                if is_retake(op) {
                    self.take_stripe(op);
                } else {
                    self.go(alloc, code, setup, thread, answer);
                    self.note(op);
                }
            }
            Due::Trap(kind) => self.take_trap(code, kind),
        }
    }
}

// How a thread enters a function.
ghost use Rattle.std.specs.Prelude.{◌≡◌, ◌<◌, ◌≤◌, ◌^◌, ◌+◌, ◌∷◌, [], ◌++◌, length, pos, true};
ghost use Rattle.std.specs.Vec.{vec_len, vec_capacity};
ghost use Rattle.flow_code.specs.Threads.{fitted, objects_in, placed, registers_in};
ghost use Rattle.flow_code.specs.Next.{one_made, or_else, entered};
ghost use Rattle.word_semantics.specs.Registers.{words_of};
ghost use Rattle.flow_code.specs.declared.thread.Phase.TheVariants as phase;
ghost use Rattle.std.specs.Prelude.{slice_get};

use crate::frame::Frame;
use crate::place::{arena_end, instrs_at, registers_at};
use crate::state::ThreadState;
use flow_code::{Code, Phase, fill, fitted_in, objects_len, place};
use std::alloc::Global;
use std::mem;
use sync_objects::Setup;

// The frame with which a function begins, in these registers.
fn frame_in(code: &Code, function: u32, arena: u32, mut registers: Vec<u64>) -> Frame
    ensures { result ≡ record { function = function; instr = length (objects_in code.now function); made = 0; kept = pos 0; registers = placed code.now.sites (objects_in code.now function) arena registers.items } }
{
    let instrs = instrs_at(code, function);
    place(code.sites.as_slice(), instrs, arena, &mut registers);
    Frame {
        function,
        instr: objects_len(instrs),
        made: 0,
        kept: 0,
        registers,
    }
}

// Puts a frame on the others, where there is room.
fn put(below: &mut Vec<Frame>, frame: Frame)
    requires { vec_len below.old < vec_capacity below.old }
    ensures { below.new.items ≡ below.old.items ++ frame ∷ [] }
{
    match below.push(frame) {
        Ok(()) => {}
        Err(_) => unreachable!(),
    }
}

impl ThreadState {
    // Takes the frame of a function, in these registers, in place of the running one, which is answered.
    fn enter(&mut self, code: &Code, end: u32, function: u32, registers: Vec<u64>) -> Frame
        ensures thread { self.new.thread ≡ record self.old.thread { phase = phase.Running; arena = or_else (fitted code.now.sites end (objects_in code.now function) self.old.thread.arena) self.old.thread.arena; top = record { function = function; instr = length (objects_in code.now function); made = 0; kept = pos 0; registers = placed code.now.sites (objects_in code.now function) self.old.thread.arena registers.items } } }
        ensures place { self.new.has_place ≡ self.old.has_place }
        ensures before { result ≡ self.old.thread.top }
    {
        let frame = frame_in(code, function, self.arena, registers);
        let fitted = fitted_in(
            code.sites.as_slice(),
            end,
            instrs_at(code, function),
            self.arena,
        );
        self.arena = fitted.unwrap_or(self.arena);
        self.phase = Phase::Running;
        mem::replace(&mut self.top, frame)
    }

    /// Enters a thread's first function, with the words at these registers.
    pub(crate) fn enter_first(
        &mut self,
        alloc: Global,
        code: &Code,
        setup: &Setup,
        thread: u8,
        function: u32,
        arguments: &[u32],
        words: &[u64],
    )
        requires globals { length code.now.globals ≤ 2 ^ 20 }
        requires thread { thread < setup.now.slots }
        requires room { registers_in (slice_get code.now.functions function) ≤ self.old.registers }
        ensures { self.new.thread ≡ entered code.now setup.now thread self.old.thread [] function (words_of words.now arguments.now) }
    {
        let end = arena_end(code, setup, thread);
        let spare = mem::replace(&mut self.spare, Vec::new(alloc));
        let registers = fill(arguments, words, registers_at(code, function), spare);
        let _before = self.enter(code, end, function, registers);
        self.below.clear();
    }

    /// Enters a function that the running frame calls, with its words at these registers.
    pub(crate) fn call(
        &mut self,
        alloc: Global,
        code: &Code,
        setup: &Setup,
        thread: u8,
        function: u32,
        arguments: &[u32],
    )
        requires globals { length code.now.globals ≤ 2 ^ 20 }
        requires thread { thread < setup.now.slots }
        requires place { self.old.has_place ≡ true }
        requires room { registers_in (slice_get code.now.functions function) ≤ self.old.registers }
        requires made { self.old.thread.top.made + 1 < 2 ^ 8 }
        ensures { self.new.thread ≡ entered code.now setup.now thread self.old.thread (self.old.thread.below ++ one_made self.old.thread.top (pos 0) ∷ []) function (words_of self.old.thread.top.registers arguments.now) }
    {
        let end = arena_end(code, setup, thread);
        let spare = mem::replace(&mut self.spare, Vec::new(alloc));
        let registers = fill(
            arguments,
            self.top.registers(),
            registers_at(code, function),
            spare,
        );
        let mut caller = self.enter(code, end, function, registers);
        caller.count_event(0);
        put(&mut self.below, caller);
    }
}

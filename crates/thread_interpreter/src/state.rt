// A thread's own state.
ghost use Rattle.std.specs.Prelude.{◌≡◌, ◌<◌, ◌≤◌, ◌^◌, ◌+◌, ◌-◌, ◌∷◌, [], ◌++◌, true, Some, None, length, pos, position, slice_get};
ghost use Rattle.std.specs.Vec.{vec_len, vec_capacity};
ghost use Rattle.sync_objects.specs.Names.{name_of};
ghost use Rattle.flow_code.specs.Next.{computed, allocated, end_onward, back_in, resumed, counted, in_frame, past as past_of, result_of, gave_up, stopped, slot_closed, lost, repaid, with_owed, same_stripe, act_in, holds as holds_stripe};
ghost use Rattle.flow_code.specs.Threads.{Frame as FrameView, instrs_in};
ghost use Rattle.std.specs.Option.{option_copied};
ghost use Rattle.thread_interpreter.specs.Flows.{Kept, is_ready, needs, needs_pairs};
ghost use Rattle.thread_interpreter.specs.Starts.{no_frame};
ghost use Rattle.std.specs.Prelude.{OnOk, IfOk};
ghost use Rattle.thread_interpreter.specs.Pieces.{piece_at};
ghost use Rattle.thread_interpreter.specs.Stacks.{functions_of as functions_of_frames, stack_of};
ghost use Rattle.flow_code.specs.Next.{act_at};

use crate::frame::Frame;
use crate::place::{instr_at, instrs_at, registers_at};
use crate::region::OpenRegion;
use flow_code::{Act, Code, Instr, Phase, Stripe};
use rr_base::{Bytes, List, Trap};
use std::alloc::{AllocError, Global};
use std::marker::Model;
use sync_objects::Op;
use word_semantics::{Onward, piece, pointer_at};

/// A thread's state, with room for the next step once it was reserved.
#[derive(Drop)]
pub(crate) struct ThreadState {
    pub(crate) count: u32,
    pub(crate) arena: u32,
    pub(crate) entries: u32,
    pub(crate) revokes: u32,
    pub(crate) printed: u32,
    pub(crate) phase: Phase,
    pub(crate) top: Frame,
    pub(crate) below: Vec<Frame>,
    pub(crate) spare: Vec<u64>,
    pub(crate) stripes: Vec<Stripe>,
    pub(crate) regions: Vec<OpenRegion>,
    // For the stripes of the next region.
    pub(crate) pairs: Vec<(u16, u8)>,
}

impl Model for ThreadState {
    ghost use Rattle.std.specs.Prelude.{nat_lt};
    ghost use Rattle.std.specs.Vec.{vec_len, vec_capacity};
    ghost use Rattle.thread_interpreter.specs.Flows.{Kept};

    ghost Value = { Kept };

    ghost view = { λ s. record {
      thread = record { count = s.count; arena = s.arena; entries = s.entries; revokes = s.revokes; printed = s.printed; phase = s.phase; top = s.top; below = s.below.items; stripes = s.stripes.items; regions = s.regions.items };
      has_place = nat_lt (vec_len s.below) (vec_capacity s.below);
      registers = vec_capacity s.spare;
      has_stripe = nat_lt (vec_len s.stripes) (vec_capacity s.stripes);
      has_region = nat_lt (vec_len s.regions) (vec_capacity s.regions);
      pairs = vec_capacity s.pairs;
    } };
}

impl ThreadState {
    /// A thread at its start, in this phase and with its arena from this cell on.
    pub(crate) fn start(alloc: Global, phase: Phase, arena: u32) -> ThreadState
        ensures { result.thread ≡ record { count = 0; arena = arena; entries = 0; revokes = 0; printed = 0; phase = phase; top = no_frame; below = []; stripes = []; regions = [] } }
    {
        ThreadState {
            count: 0,
            arena,
            entries: 0,
            revokes: 0,
            printed: 0,
            phase,
            top: Frame {
                function: 0,
                instr: 0,
                made: 0,
                kept: 0,
                registers: Vec::new(alloc),
            },
            below: Vec::new(alloc),
            spare: Vec::new(alloc),
            stripes: Vec::new(alloc),
            regions: Vec::new(alloc),
            pairs: Vec::new(alloc),
        }
    }

    // How many registers the next step needs.
    fn needed(&self, code: &Code) -> u32
        ensures { result ≡ needs code.now self.now.thread }
    {
        match self.phase {
            Phase::Begun(function) | Phase::Loaded { function, .. } => registers_at(code, function),
            Phase::Running => {
                let (function, instr) = self.top.place();
                match instr_at(code, function, instr) {
                    Some(
                        Instr {
                            act: Act::Call { function, .. },
                            ..
                        },
                    ) => registers_at(code, *function),
                    _ => 0,
                }
            }
            _ => 0,
        }
    }

    // For how many stripes of a region the next step needs room.
    fn needed_pairs(&self, code: &Code) -> usize
        ensures { result ≡ needs_pairs code.now self.now.thread }
    {
        let (function, instr) = self.top.place();
        match instr_at(code, function, instr) {
            Some(
                Instr {
                    act: Act::Take(region),
                    ..
                },
            ) => self.needed_of(code, *region),
            _ => 0,
        }
    }

    // Makes room for one more frame.
    #[inline(never)]
    fn reserve_frame(&mut self, code: &Code) -> Result<(), AllocError>
        ensures same { self.new.thread ≡ self.old.thread }
        ensures place { OnOk result (self.new.has_place ≡ true) }
        ensures registers { OnOk result (needs code.now self.new.thread ≤ self.new.registers) }
    {
        self.below.reserve(1)?;
        let needed = self.needed(code);
        self.spare.clear();
        self.spare.reserve(needed as usize)
    }

    // Makes room for one more stripe and one more open region, with its stripes.
    #[inline(never)]
    fn reserve_stripes(&mut self, code: &Code) -> Result<(), AllocError>
        ensures same { self.new.thread ≡ self.old.thread }
        ensures place { self.new.has_place ≡ self.old.has_place }
        ensures registers { self.new.registers ≡ self.old.registers }
        ensures stripe { OnOk result (self.new.has_stripe ≡ true) }
        ensures region { OnOk result (self.new.has_region ≡ true) }
        ensures pairs { OnOk result (needs_pairs code.now self.new.thread ≤ self.new.pairs) }
    {
        self.stripes.reserve(1)?;
        self.regions.reserve(1)?;
        let needed = self.needed_pairs(code);
        self.pairs.clear();
        self.pairs.reserve(needed)
    }

    // Whether there is room for what the next step needs of registers and of a region's stripes.
    #[inline(never)]
    fn has_needed(&self, code: &Code) -> bool
        ensures registers { result ≡ true → needs code.now self.now.thread ≤ self.now.registers }
        ensures pairs { result ≡ true → needs_pairs code.now self.now.thread ≤ self.now.pairs }
    {
        self.needed(code) as usize <= self.spare.capacity()
            && self.needed_pairs(code) <= self.pairs.capacity()
    }

    // The same, where most steps need none.
    #[inline(always)]
    fn has_room(&self, code: &Code) -> bool
        ensures registers { result ≡ true → needs code.now self.now.thread ≤ self.now.registers }
        ensures pairs { result ≡ true → needs_pairs code.now self.now.thread ≤ self.now.pairs }
    {
        self.needs_none(code) || self.has_needed(code)
    }

    // Whether there is room for one more frame, one more stripe and one more open region.
    #[inline(always)]
    fn has_places(&self) -> bool
        ensures { result ≡ true → (self.now.has_place ≡ true) × (self.now.has_stripe ≡ true) × (self.now.has_region ≡ true) }
    {
        self.below.len() < self.below.capacity()
            && self.stripes.len() < self.stripes.capacity()
            && self.regions.len() < self.regions.capacity()
    }

    // Makes room for one more step, whatever it is.
    #[inline(never)]
    fn reserve_all(&mut self, code: &Code) -> Result<(), AllocError>
        ensures same { self.new.thread ≡ self.old.thread }
        ensures ready { OnOk result (is_ready code.now self.new ≡ true) }
    {
        self.reserve_frame(code)?;
        self.reserve_stripes(code)
    }

    /// Makes room for one more step.
    #[inline(always)]
    pub(crate) fn reserve(&mut self, code: &Code) -> Result<(), AllocError>
        ensures same { self.new.thread ≡ self.old.thread }
        ensures ready { OnOk result (is_ready code.now self.new ≡ true) }
    {
        if self.has_places() && self.has_room(code) {
            return Ok(());
        }
        self.reserve_all(code)
    }

    // The bytes that the call at which the thread stands prints.
    pub(crate) fn piece(&self, alloc: Global, code: &Code) -> Result<Bytes, AllocError>
        ensures { IfOk result (λ bytes. bytes ≡ piece_at (act_at code.now self.now.thread.top) self.now.thread.top.registers) }
    {
        let (function, instr) = self.top.place();
        match instr_at(code, function, instr) {
            Some(
                Instr {
                    act: Act::Library {
                        call,
                        arguments,
                        ..
                    },
                    ..
                },
            ) => { piece(alloc, call, self.top.registers(), arguments.as_slice()) }
            _ => Ok(Bytes::new(alloc)),
        }
    }

    // The functions on the thread's stack.
    pub(crate) fn stack(&self, alloc: Global) -> Result<List<u32>, AllocError>
        ensures { IfOk result (λ it. it ≡ stack_of self.now.thread) }
    {
        if !matches!(self.phase, Phase::Running) {
            return Ok(List::new(alloc));
        }
        let mut stack = functions_of(alloc, &self.below)?;
        stack.push(self.top.function)?;
        Ok(stack)
    }

    // Puts a result into a register, and goes on.
    #[inline(always)]
    pub(crate) fn compute(&mut self, into: u32, value: Result<u64, Trap>)
        requires { self.old.thread.top.instr + 1 < 2 ^ 64 }
        ensures { self.new.thread ≡ computed self.old.thread into value }
    {
        if let Ok(value) = value {
            self.top.set_register(into, value);
            self.top.pass();
        }
    }

    // Goes on after the instruction.
    #[inline(always)]
    pub(crate) fn pass(&mut self)
        requires { self.old.thread.top.instr + 1 < 2 ^ 64 }
        ensures { self.new.thread ≡ in_frame self.old.thread (past_of self.old.thread.top) }
    {
        self.top.pass();
    }

    // The next step of the end of a thread's first function.
    pub(crate) fn end(&mut self, is_main: bool)
        requires { self.old.thread.top.made + 1 < 2 ^ 8 }
        ensures { self.new.thread ≡ end_onward is_main self.old.thread self.old.thread.top.made }
    {
        if is_main {
            self.phase = Phase::Halted;
            return;
        }
        match self.top.events() {
            (0 | 1, _) => self.top.count_event(0),
            _ => self.phase = Phase::Ended,
        }
    }

    // What an answer to the event of a call leads to.
    pub(crate) fn go_onward(&mut self, into: Option<u32>, onward: Onward)
        requires made { (resumed self.old.thread into onward).top.made < 2 ^ 8 }
        requires instr { self.old.thread.top.instr + 1 < 2 ^ 64 }
        ensures { self.new.thread ≡ resumed self.old.thread into onward }
    {
        match onward {
            Onward::Stays { kept } => self.top.count_event(kept),
            Onward::Gives { value } => {
                self.top.give(into, value);
                self.top.pass();
            }
            Onward::Ends => self.phase = Phase::Ended,
        }
    }

    // Counts an operation as an event, unless it is one on a stripe, and as an entry, unless it is an ending one.
    pub(crate) fn note(&mut self, op: Op)
        requires count { (counted op self.old.thread).count < 2 ^ 32 }
        requires entries { (counted op self.old.thread).entries < 2 ^ 32 }
        ensures { self.new.thread ≡ counted op self.old.thread }
    {
        if !op.name().is_weak() {
            self.count += 1;
        }
        if !op.name().is_ending() {
            self.entries += 1;
        }
    }

    // Gives the object of a `malloc` its cells and puts its pointer into a register.
    pub(crate) fn allocate(&mut self, into: u32, site: u16, cells: u32)
        requires arena { self.old.thread.arena + cells < 2 ^ 32 }
        requires instr { self.old.thread.top.instr + 1 < 2 ^ 64 }
        ensures { self.new.thread ≡ allocated self.old.thread into site cells }
    {
        self.top
            .set_register(into, pointer_at(site, self.arena, cells));
        self.top.pass();
        self.arena += cells;
    }

    // Goes back to the frame below, after its call.
    pub(crate) fn back(&mut self, code: &Code, value: u64)
        requires { (f : FrameView) → slice_get self.old.thread.below (length self.old.thread.below - 1) ≡ Some f → f.instr < length (instrs_in (slice_get code.now.functions f.function)) }
        ensures { self.new.thread ≡ back_in code.now self.old.thread value (slice_get self.old.thread.below (length self.old.thread.below - 1)) }
    {
        if let Some(mut caller) = self.below.pop() {
            let (function, instr) = caller.place();
            let _instrs = instrs_at(code, function).len();
            caller.give(result_register(instr_at(code, function, instr)), value);
            caller.pass();
            self.top = caller;
        }
    }

    // Whether the thread holds the stripe.
    pub(crate) fn holds(&self, lock: u16, stripe: u8) -> bool
        ensures { result ≡ holds_stripe self.now.thread.stripes lock stripe }
    {
        holds(&self.stripes, lock, stripe)
    }

    // The stripes that the thread holds or owes.
    pub(crate) fn stripes(&self) -> &[Stripe]
        ensures { result.now ≡ self.now.thread.stripes }
    {
        self.stripes.as_slice()
    }

    // The stripe was revoked.
    pub(crate) fn give_up(&mut self, lock: u16, stripe: u8)
        requires count { self.old.thread.count < 2 ^ 32 }
        requires entries { self.old.thread.entries + 1 < 2 ^ 32 }
        requires revokes { self.old.thread.revokes + 1 < 2 ^ 32 }
        ensures { self.new.thread ≡ gave_up self.old.thread lock stripe }
    {
        let at = place_of(&self.stripes, lock, stripe);
        set_owed(&mut self.stripes, at, true);
        self.revokes += 1;
        self.note(Op::Revoke);
    }

    // The first owed stripe is held again.
    pub(crate) fn repay(&mut self)
        ensures { self.new.thread ≡ record self.old.thread { stripes = repaid self.old.thread.stripes } }
    {
        let at = first_owed_place(&self.stripes);
        set_owed(&mut self.stripes, at, false);
    }

    // The thread was stopped.
    pub(crate) fn stop(&mut self)
        requires { self.old.thread.count + 1 < 2 ^ 32 }
        ensures { self.new.thread ≡ stopped self.old.thread }
    {
        self.phase = Phase::Stopped;
        self.count += 1;
    }

    // The thread was closed before it began.
    pub(crate) fn close_slot(&mut self)
        requires { self.old.thread.count + 1 < 2 ^ 32 }
        ensures { self.new.thread ≡ slot_closed self.old.thread }
    {
        self.phase = Phase::Closed;
        self.count += 1;
    }
}

// The functions of the frames.
fn functions_of(alloc: Global, frames: &[Frame]) -> Result<List<u32>, AllocError>
    ensures { IfOk result (λ it. it ≡ functions_of_frames frames.now) }
{
    let mut functions = List::new(alloc);
    let mut rest = frames;
    while let [frame, more @ ..] = rest {
        functions.push(frame.function)?;
        rest = more;
    }
    Ok(functions)
}

// The register that is to get the value of a call.
fn result_register(instr: Option<&Instr>) -> Option<u32>
    ensures { result ≡ result_of (act_in (option_copied instr.entry)) }
{
    match instr {
        Some(
            Instr {
                act: Act::Call { into, .. },
                ..
            },
        ) => *into,
        _ => None,
    }
}

fn is_of(item: Stripe, lock: u16, stripe: u8) -> bool
    ensures { result ≡ same_stripe lock stripe item }
{
    item.lock == lock && item.stripe == stripe
}

fn holds(stripes: &[Stripe], lock: u16, stripe: u8) -> bool
    ensures { result ≡ holds_stripe stripes.now lock stripe }
{
    let mut rest = stripes;
    while let [first, following @ ..] = rest {
        if is_of(*first, lock, stripe) && !first.owed {
            return true;
        }
        rest = following;
    }
    false
}

fn place_of(stripes: &[Stripe], lock: u16, stripe: u8) -> Option<usize>
    ensures { result ≡ position (same_stripe lock stripe) stripes.now }
{
    stripes.iter().position(|x| is_of(*x, lock, stripe))
}

fn first_owed_place(stripes: &[Stripe]) -> Option<usize>
    ensures { result ≡ position (λ x. x.owed) stripes.now }
{
    stripes.iter().position(|x| x.owed)
}

// Puts the stripe at this place, if there is one, under the owed or the held ones.
fn set_owed(stripes: &mut Vec<Stripe>, at: Option<usize>, owed: bool)
    ensures { stripes.new.items ≡ with_owed owed stripes.old.items at }
{
    let Some(i) = at else {
        return;
    };
    if i < stripes.len() {
        let mut stripe = stripes[i];
        stripe.owed = owed;
        stripes[i] = stripe;
    }
}

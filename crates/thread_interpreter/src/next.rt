// What is due in a thread.
ghost use Rattle.std.specs.Prelude.{◌≡◌, ◌<◌, ◌≤◌, ◌^◌, ◌+◌, ℕ, nat_le, true, false, length, slice_get};
ghost use Rattle.std.specs.Option.{option_copied};
ghost use Rattle.sync_objects.specs.Setup.{IsWithinLimits};
ghost use Rattle.flow_code.specs.Threads.{instr_at as instr_of_frame, arena_end as arena_end_of, is_main as is_main_of, is_main_in};
ghost use Rattle.flow_code.specs.Next.{quiet_unless as quiet_unless_of, load_due as load_due_of, store_due as store_due_of, malloc_due as malloc_due_of, enter_due as enter_due_of, end_due as end_due_of, return_due as return_due_of, act_due as act_due_of, act_in, act_at, begun_due as begun_due_of, phase_due as phase_due_of, due_of, value_of as value_of_register, pointers_of, caller as caller_of, action_of as action_of_due, first_owed as first_owed_of};
ghost use Rattle.sync_objects.specs.Setup.{SetupView};
ghost use Rattle.word_semantics.specs.Limits.{most_entries};
ghost use Rattle.word_semantics.specs.Cells.{is_size as is_size_of, cells_in as cells_in_of, access_kind as access_kind_of};
ghost use Rattle.word_semantics.specs.Registers.{words_of};
ghost use Rattle.word_semantics.specs.Library.{library_due as library_due_of};
ghost use Rattle.word_semantics.specs.Pointers.{resolved as resolved_of};
ghost use Rattle.flow_code.specs.Works.{is_pointer as is_pointer_of};
ghost use Rattle.word_semantics.specs.Registers.{register as register_of};
ghost use Rattle.flow_code.specs.declared.act.Act.TheVariants as act;
ghost use Rattle.std.specs.Prelude.{Some, None, position, IfSome};
ghost use Rattle.thread_interpreter.specs.Flows.{needs, needs_pairs};
ghost use Rattle.thread_interpreter.specs.Starts.{main_of};

use crate::due::{first_owed, limited, listed, owing};
use crate::place::{arena_end, function_at, instr_at, instrs_at, pointers_at};
use crate::state::ThreadState;
use flow_code::{Act, Code, Function, Instr, Phase, compute, fitted_in, is_main, is_pointer};
use rr_base::{CellKind, Trap};
use sync_objects::{ObjId, Op, Setup};
use word_semantics::{
    Action, Caller, Due, LibraryCall, library_due, number, register, resolved, size_of,
};

// The most frames of a thread, and the most entries that aren't ending ones.
const MOST_FRAMES: usize = 1000;

const MOST_ENTRIES: u32 = 1 << 20;

fn quiet_unless(value: Result<u64, Trap>) -> Due
    ensures { result ≡ quiet_unless_of value }
{
    match value {
        Ok(_) => Due::Quiet,
        Err(trap) => Due::Trap(trap),
    }
}

fn load_due(cell: Result<u32, Trap>) -> Due
    ensures { result ≡ load_due_of cell }
{
    match cell {
        Ok(cell) => Due::Load { cell },
        Err(trap) => Due::Trap(trap),
    }
}

fn store_due(cell: Result<u32, Trap>, value: u64) -> Due
    ensures { result ≡ store_due_of cell value }
{
    match cell {
        Ok(cell) => Due::Store { cell, value },
        Err(trap) => Due::Trap(trap),
    }
}

fn access_kind(is_pointer: bool) -> CellKind
    ensures { result ≡ access_kind_of is_pointer }
{
    if is_pointer {
        CellKind::Pointer
    } else {
        CellKind::Whole
    }
}

// Whether `malloc` can give so many cells, of a site whose objects have `unit` cells.
fn is_size(unit: u32, cells: i64) -> bool
    ensures { result ≡ is_size_of unit cells }
{
    1 <= cells && cells <= 65_535 && unit != 0 && (cells as u64) % u64::from(unit) == 0
}

fn malloc_due(unit: u32, arena: u32, end: u32, cells: i64) -> Due
    ensures { result ≡ malloc_due_of unit arena end cells }
{
    if !is_size(unit, cells) {
        return Due::Trap(Trap::BadSize);
    }
    if u64::from(arena) + cells as u64 <= u64::from(end) {
        Due::Quiet
    } else {
        Due::Trap(Trap::ArenaFull)
    }
}

// The number of cells, or 0 where the number is below 0.
pub(crate) fn cells_in(cells: i64) -> u64
    ensures { result ≡ cells_in_of cells }
{
    if cells < 0 { 0 } else { cells as u64 }
}

fn end_due(is_main: bool, thread: u8, made: u8, value: u64) -> Due
    ensures { result ≡ end_due_of is_main thread made value }
{
    if is_main {
        return Due::Operate {
            op: Op::HaltAll,
            obj: ObjId::Halt,
        };
    }
    match made {
        0 => Due::Store {
            cell: 2 * u32::from(thread) + 1,
            value,
        },
        1 => Due::Operate {
            op: Op::End,
            obj: ObjId::Slot(thread),
        },
        _ => Due::Operate {
            op: Op::Leave,
            obj: ObjId::Threads,
        },
    }
}

// Whether the function is the program's `main`.
pub(crate) fn is_main_function(code: &Code, function: u32) -> bool
    ensures { result ≡ is_main_of code.now function }
{
    match function_at(code, function) {
        Some(f) => is_main(f.name.as_slice()),
        None => false,
    }
}

fn main_place(functions: &[Function]) -> Option<usize>
    ensures value { result ≡ position (λ f. is_main_in (Some f)) functions.now }
    ensures within { IfSome result (λ k. k < length functions.now) }
{
    functions.iter().position(|f| is_main(f.name.as_slice()))
}

// The function `main`.
pub(crate) fn main_function(code: &Code) -> u32
    requires { length code.now.functions ≤ 2 ^ 20 }
    ensures { result ≡ main_of code.now }
{
    match main_place(code.functions.as_slice()) {
        Some(k) => k as u32,
        None => 0,
    }
}

// The word of the register, or 0 where there is none.
pub(crate) fn value_of(registers: &[u64], value: Option<u32>) -> u64
    ensures { result ≡ value_of_register registers.now value }
{
    match value {
        Some(r) => register(registers, r),
        None => 0,
    }
}

impl ThreadState {
    // The Mark with which a function is entered above so many frames, or the trap that stands in its place.
    fn enter_due(&self, code: &Code, setup: &Setup, thread: u8, frames: usize, function: u32) -> Due
        requires globals { length code.now.globals ≤ 2 ^ 20 }
        requires thread { thread < setup.now.slots }
        ensures { result ≡ enter_due_of code.now setup.now thread self.now.thread frames function }
    {
        if setup.limit() <= self.count {
            return Due::Trap(Trap::Limit);
        }
        if MOST_FRAMES <= frames {
            return Due::Trap(Trap::Depth);
        }
        let end = arena_end(code, setup, thread);
        match fitted_in(
            code.sites.as_slice(),
            end,
            instrs_at(code, function),
            self.arena,
        ) {
            Some(_) => Due::Mark,
            None => Due::Trap(Trap::ArenaFull),
        }
    }

    fn return_due(&self, code: &Code, thread: u8, value: u64) -> Due
        ensures { result ≡ return_due_of code.now thread self.now.thread value }
    {
        if !self.below.is_empty() {
            return Due::Quiet;
        }
        let (function, _) = self.top.place();
        let (made, _) = self.top.events();
        end_due(is_main_function(code, function), thread, made, value)
    }

    // What is due in a call, before which the thread has no stripes to give.
    fn plain_call_due(
        &self,
        code: &Code,
        setup: &Setup,
        thread: u8,
        call: &LibraryCall,
        arguments: &[u32],
    ) -> Due
        ensures { result ≡ library_due_of (caller_of code.now setup.now thread self.now.thread) call.now (words_of self.now.thread.top.registers arguments.now) self.now.thread.top.made self.now.thread.top.kept }
    {
        let caller = Caller::new(code.sites.as_slice(), setup, thread, self.printed);
        let (made, kept) = self.top.events();
        library_due(&caller, call, self.top.registers(), arguments, made, kept)
    }

    fn call_due(
        &self,
        code: &Code,
        setup: &Setup,
        thread: u8,
        call: &LibraryCall,
        arguments: &[u32],
    ) -> Due
        ensures { result ≡ act_due_of code.now setup.now thread self.now.thread (Some (act.Library call.now arguments.now None)) }
    {
        let due = self.plain_call_due(code, setup, thread, call, arguments);
        self.parting_due(call, due)
    }

    #[inline(always)]
    fn access_due(&self, code: &Code, through: u32, other: u32) -> Result<u32, Trap>
        ensures { result ≡ resolved_of code.now.sites (register_of self.now.thread.top.registers through) (access_kind_of (is_pointer_of (pointers_of code.now self.now.thread.top) other)) }
    {
        let (function, _) = self.top.place();
        let kind = access_kind(is_pointer(pointers_at(code, function), other));
        resolved(
            code.sites.as_slice(),
            register(self.top.registers(), through),
            kind,
        )
    }

    fn act_due(&self, code: &Code, setup: &Setup, thread: u8, act: &Act) -> Due
        requires globals { length code.now.globals ≤ 2 ^ 20 }
        requires thread { thread < setup.now.slots }
        ensures { result ≡ act_due_of code.now setup.now thread self.now.thread (Some act.now) }
    {
        let (function, _) = self.top.place();
        let registers = self.top.registers();
        let sites = code.sites.as_slice();
        match act {
            Act::Compute { into: _, work } => {
                quiet_unless(compute(
                    setup.slots(),
                    sites,
                    pointers_at(code, function),
                    registers,
                    work,
                ))
            }
            Act::Alloc {
                into: _,
                site,
                size,
            } => match size {
                None => Due::Quiet,
                Some(r) => {
                    let end = arena_end(code, setup, thread);
                    malloc_due(
                        size_of(sites, *site),
                        self.arena,
                        end,
                        number(register(registers, *r)),
                    )
                }
            },
            Act::LoadCell { into, through } => load_due(self.access_due(code, *through, *into)),
            Act::StoreCell { through, from } => {
                store_due(
                    self.access_due(code, *through, *from),
                    register(registers, *from),
                )
            }
            Act::Mark => Due::Mark,
            Act::Call {
                function,
                arguments: _,
                into: _,
            } => { self.enter_due(code, setup, thread, self.below.len() + 1, *function) }
            Act::Library {
                call,
                arguments,
                into: _,
            } => { self.call_due(code, setup, thread, call, arguments.as_slice()) }
            Act::Return { value } => self.return_due(code, thread, value_of(registers, *value)),
            Act::Take(region) => self.take_due(code, *region),
            Act::Give(region) => self.give_due(code, *region),
            Act::Jump { to: _ } | Act::Branch { .. } => Due::Quiet,
        }
    }

    fn phase_due(&self, code: &Code, setup: &Setup, thread: u8) -> Due
        requires globals { length code.now.globals ≤ 2 ^ 20 }
        requires thread { thread < setup.now.slots }
        ensures { result ≡ phase_due_of code.now setup.now thread self.now.thread self.now.thread.phase }
    {
        match self.phase {
            Phase::Fresh => Due::Operate {
                op: Op::Begin,
                obj: ObjId::Slot(thread),
            },
            Phase::Begun(function) => {
                if thread == 0 {
                    self.enter_due(code, setup, thread, 0, function)
                } else {
                    Due::Load {
                        cell: 2 * u32::from(thread),
                    }
                }
            }
            Phase::Loaded {
                function,
                argument: _,
            } => self.enter_due(code, setup, thread, 0, function),
            Phase::Running => {
                let (function, instr) = self.top.place();
                match instr_at(code, function, instr) {
                    Some(instr) => self.act_due(code, setup, thread, &instr.act),
                    None => Due::Nothing,
                }
            }
            Phase::Ended | Phase::Halted | Phase::Trapped { .. } | Phase::Stopped | Phase::Closed =>
                Due::Nothing,
        }
    }

    // Whether no limit is reached and no stripe owed.
    #[inline(always)]
    fn is_free(&self, setup: &Setup) -> bool
        ensures limit { result ≡ true → nat_le setup.now.limit self.now.thread.count ≡ false }
        ensures entries { result ≡ true → nat_le most_entries self.now.thread.entries ≡ false }
        ensures owed { result ≡ true → first_owed_of self.now.thread.stripes ≡ None }
    {
        self.count < setup.limit()
            && self.entries < MOST_ENTRIES
            && first_owed(&self.stripes).is_none()
    }

    // What comes next by the act alone, where it is an access or a mark that doesn't trap.
    #[inline(always)]
    fn event_of(&self, code: &Code, act: &Act) -> Option<Action>
        ensures { (s : SetupView) (t : ℕ) → IfSome result (λ a. a ≡ action_of_due (act_due_of code.now s t self.now.thread (Some act.now))) }
    {
        match act {
            Act::LoadCell { into, through } => match self.access_due(code, *through, *into) {
                Ok(cell) => Some(Action::Load { cell }),
                Err(_) => None,
            },
            Act::StoreCell { through, from } => match self.access_due(code, *through, *from) {
                Ok(cell) => {
                    let value = register(self.top.registers(), *from);
                    Some(Action::Store { cell, value })
                }
                Err(_) => None,
            },
            Act::Mark => Some(Action::Mark),
            _ => None,
        }
    }

    // The instruction of the thread's frame.
    #[inline(always)]
    pub(crate) fn instr_here<'b>(&self, code: &'b Code) -> Option<&'b Instr>
        ensures value { option_copied result ≡ instr_of_frame code.now self.now.thread.top }
        ensures within { IfSome result (λ _. self.now.thread.top.instr + 1 < 2 ^ 64) }
    {
        let (function, instr) = self.top.place();
        instr_at(code, function, instr)
    }

    // Whether an access or a mark of a running thread comes next, which needs no registers and no room for a region's stripes.
    #[inline(always)]
    pub(crate) fn needs_none(&self, code: &Code) -> bool
        ensures registers { result ≡ true → needs code.now self.now.thread ≡ 0 }
        ensures pairs { result ≡ true → needs_pairs code.now self.now.thread ≡ 0 }
    {
        if !matches!(self.phase, Phase::Running) {
            return false;
        }
        match self.instr_here(code) {
            Some(instr) => matches!(
                instr.act,
                Act::LoadCell { .. } | Act::StoreCell { .. } | Act::Mark
            ),
            None => false,
        }
    }

    // What comes next, where it is an access or a mark of a running thread and nothing stands in its place.
    #[inline(always)]
    pub(crate) fn next_event(&self, code: &Code, setup: &Setup) -> Option<Action>
        ensures { (t : ℕ) → IfSome result (λ a. a ≡ action_of_due (due_of code.now setup.now t self.now.thread)) }
    {
        if !matches!(self.phase, Phase::Running) || !self.is_free(setup) {
            return None;
        }
        match self.instr_here(code) {
            Some(instr) => self.event_of(code, &instr.act),
            None => None,
        }
    }

    // What is due: by the code, then by the limit of events, by owed stripes, and by the limit of entries.
    #[inline(never)]
    pub(crate) fn due(&self, code: &Code, setup: &Setup, thread: u8) -> Due
        requires globals { length code.now.globals ≤ 2 ^ 20 }
        requires thread { thread < setup.now.slots }
        ensures { result ≡ due_of code.now setup.now thread self.now.thread }
    {
        let due = self.phase_due(code, setup, thread);
        let at_limit = setup.limit() <= self.count;
        let is_full = MOST_ENTRIES <= self.entries;
        let owed = first_owed(&self.stripes);
        if at_limit || is_full || owed.is_some() {
            return listed(is_full, owing(owed, limited(at_limit, due)));
        }
        due
    }
}

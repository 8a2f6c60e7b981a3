// A thread's run with its lists.
ghost use Rattle.std.specs.Prelude.{◌≡◌, ◌≢◌, ◌<◌, ◌++◌, ◌∷◌, [], true, false, OnOk, IfOk};
ghost use Rattle.std.specs.Vec.{vec_len, vec_capacity};
ghost use Rattle.sync_objects.specs.Names.{name_of};
ghost use Rattle.flow_code.specs.Next.{gave_up, stopped, slot_closed, has_ended, has_begun, holds as holds_stripe};
ghost use Rattle.flow_code.specs.Settle.{IsRunnable, settled};
ghost use Rattle.word_semantics.specs.Limits.{most_entries, most_revokes};
ghost use Rattle.thread_interpreter.specs.Endings.{ending_of, trap_of};
ghost use Rattle.thread_interpreter.specs.Flows.{is_ready, most_extra};
ghost use Rattle.thread_interpreter.specs.Parts.{part_of, thread_of, is_loaded, frames_in, AreWords};
ghost use Rattle.flow_code.specs.Ranges.{InRange};
ghost use Rattle.core_run.specs.Machine.{access_of, entry_of, operated, marked};
ghost use Rattle.thread_interpreter.specs.Starts.{start_thread};
ghost use Rattle.thread_interpreter.specs.Pieces.{piece_at};
ghost use Rattle.core_run.specs.Shown.{with_read};
ghost use Rattle.flow_code.specs.Next.{act_at};
ghost use Rattle.sync_objects.specs.declared.operation.OpName.TheVariants as name;
ghost use Rattle.sync_objects.specs.declared.object.ObjId.TheVariants as object;
ghost use Rattle.thread_step.specs.Steps.{Stepping, IsReady, IsPiece, IsSameRun, told_of, next_of, after, reads_after};

use core_run::{Action, Entry, Noted, Setup};
use flow_code::{Code, Stripe};
use rr_base::{Bytes, Trap};
use std::alloc::{AllocError, Global};
use std::marker::Model;
use std::mem;
use sync_objects::{ObjId, Op, OpName};
use thread_interpreter::{Access, Ending, Flow, Formula, ThreadPart};
use watch_calls::AccessTest;

/// The most accesses that are kept of a thread.
const MOST_READS: usize = 262_144;

/// One running thread of a code, with the list of its entries, the pieces that it has printed, and the first of its accesses that
/// meet a formula.
#[derive(Drop)]
pub struct ThreadRun<'a> {
    alloc: Global,
    thread: u8,
    flow: Flow<'a>,
    noted: Vec<Noted>,
    pieces: Vec<Bytes>,
    formula: Formula,
    reads: Vec<Access>,
    // The next step, for which there is room, and what it prints.
    next: Action,
    ready: Bytes,
}

impl<'a> Model for ThreadRun<'a> {
    ghost use Rattle.std.specs.Prelude.{◌≡◌, nat_lt};
    ghost use Rattle.std.specs.Vec.{vec_len, vec_capacity};
    ghost use Rattle.thread_step.specs.Steps.{Stepping};

    ghost Value = { Stepping };

    ghost view = { λ r. record {
      flow = r.flow;
      entries = r.noted.items;
      pieces = r.pieces.items;
      formula = r.formula;
      reads = r.reads.items;
      has_entry = nat_lt (vec_len r.noted) (vec_capacity r.noted);
      has_piece = nat_lt (vec_len r.pieces) (vec_capacity r.pieces);
      has_read = nat_lt (vec_len r.reads) (vec_capacity r.reads);
      next = r.next;
      ready = r.ready;
    } };

    ghost invariant = { λ r. r.thread ≡ r.flow.number };
}

// Puts an entry after the others, where there is room.
fn put_entry(noted: &mut Vec<Noted>, entry: Noted)
    requires { vec_len noted.old < vec_capacity noted.old }
    ensures { noted.new.items ≡ noted.old.items ++ entry ∷ [] }
{
    match noted.push(entry) {
        Ok(()) => {}
        Err(_) => unreachable!(),
    }
}

// Puts a piece after the others, where there is room.
fn put_piece(pieces: &mut Vec<Bytes>, piece: Bytes)
    requires { vec_len pieces.old < vec_capacity pieces.old }
    ensures { pieces.new.items ≡ pieces.old.items ++ piece ∷ [] }
{
    match pieces.push(piece) {
        Ok(()) => {}
        Err(_) => unreachable!(),
    }
}

// Keeps an access after the others, if it meets the formula and isn't one too many.
#[inline(always)]
fn keep_access(reads: &mut Vec<Access>, formula: &Formula, access: Access)
    requires { vec_len reads.old < vec_capacity reads.old }
    ensures { reads.new.items ≡ with_read formula.now reads.old.items access }
{
    if formula.test(&access) && reads.len() < MOST_READS {
        match reads.push(access) {
            Ok(()) => {}
            Err(_) => unreachable!(),
        }
    }
}

impl<'a> ThreadRun<'a> {
    // A thread that has left nothing yet since it stands where it does.
    fn with_flow(alloc: Global, thread: u8, flow: Flow<'a>, formula: Formula) -> ThreadRun<'a>
        requires { flow.number ≡ thread }
        ensures flow { result.flow ≡ flow.entry }
        ensures lists { (result.entries ≡ []) × (result.pieces ≡ []) × (result.reads ≡ []) }
        ensures formula { result.formula ≡ formula }
    {
        ThreadRun {
            alloc,
            thread,
            flow,
            noted: Vec::new(alloc),
            pieces: Vec::new(alloc),
            formula,
            reads: Vec::new(alloc),
            next: Action::Quiet,
            ready: Bytes::new(alloc),
        }
    }

    /// Thread `thread` of the code at its start, with empty lists. It keeps the accesses that meet the formula.
    pub fn new(
        alloc: Global,
        code: &'a Code,
        setup: &'a Setup,
        thread: u8,
        formula: Formula,
    ) -> Result<ThreadRun<'a>, AllocError>
        requires runnable { IsRunnable code.now }
        requires thread { thread < setup.now.slots }
        ensures flow { IfOk result (λ r. (r.flow.code ≡ code.now) × (r.flow.setup ≡ setup.now) × (r.flow.number ≡ thread)) }
        ensures told { IfOk result (λ r. told_of r ≡ record { thread = start_thread code.now setup.now thread; entries = []; accesses = []; pieces = [] }) }
        ensures reads { IfOk result (λ r. (r.formula ≡ formula) × (r.reads ≡ [])) }
    {
        let flow = Flow::new(alloc, code, setup, thread)?;
        Ok(ThreadRun::with_flow(alloc, thread, flow, formula))
    }

    /// Thread `thread` of the code in the state that a part keeps, with empty lists. It keeps the accesses that meet the formula.
    pub fn resumed(
        alloc: Global,
        code: &'a Code,
        setup: &'a Setup,
        thread: u8,
        part: &ThreadPart,
        formula: Formula,
    ) -> Result<ThreadRun<'a>, AllocError>
        requires runnable { IsRunnable code.now }
        requires thread { thread < setup.now.slots }
        requires range { InRange code.now setup.now most_extra thread (thread_of part.now) }
        ensures flow { IfOk result (λ r. (r.flow.code ≡ code.now) × (r.flow.setup ≡ setup.now) × (r.flow.number ≡ thread)) }
        ensures told { IfOk result (λ r. told_of r ≡ record { thread = thread_of part.now; entries = []; accesses = []; pieces = [] }) }
        ensures reads { IfOk result (λ r. (r.formula ≡ formula) × (r.reads ≡ [])) }
    {
        let flow = Flow::resumed(alloc, code, setup, thread, part)?;
        Ok(ThreadRun::with_flow(alloc, thread, flow, formula))
    }

    /// What is to be kept of the thread's state. The answers that its frames keep have 64 bits.
    pub fn parts(&self) -> Result<ThreadPart, AllocError>
        requires { is_loaded self.now.flow.kept.thread.phase ≡ false }
        ensures part { IfOk result (λ part. part ≡ part_of self.now.flow.kept.thread) }
        ensures words { OnOk result (AreWords (frames_in self.now.flow.kept.thread.phase self.now.flow.kept.thread)) }
    {
        self.flow.parts()
    }

    /// The thread's entries, in order, each with its number among the operations of its object.
    pub fn noted(&self) -> &[Noted]
        ensures { result.now ≡ self.now.entries }
    {
        self.noted.as_slice()
    }

    /// What each of its prints has printed, in order.
    pub fn pieces(&self) -> &[Bytes]
        ensures { result.now ≡ self.now.pieces }
    {
        self.pieces.as_slice()
    }

    /// The formula of the accesses that are kept: the first 262,144 that meet it.
    pub fn formula(&self) -> Formula
        ensures { result ≡ self.now.formula }
    {
        self.formula
    }

    /// The three lists: its entries, its pieces, and the accesses that were kept.
    pub fn into_lists(self) -> (Vec<Noted>, Vec<Bytes>, Vec<Access>)
        ensures { (result.0.items ≡ self.entry.entries) × (result.1.items ≡ self.entry.pieces) × (result.2.items ≡ self.entry.reads) }
    {
        let ThreadRun {
            noted,
            pieces,
            reads,
            ..
        } = self;
        (noted, pieces, reads)
    }

    /// What comes next, for which room was made: a quiet step, or what the thread does to the words.
    pub fn next_action(&self) -> Action
        requires { IsReady self.now }
        ensures { result ≡ next_of self.now }
    {
        self.next
    }

    // Keeps what comes next, and has ready what it prints.
    #[inline(always)]
    fn look_ahead(&mut self, next: Action) -> Result<(), AllocError>
        requires { next ≡ next_of self.old }
        ensures flow { self.new.flow ≡ self.old.flow }
        ensures entries { self.new.entries ≡ self.old.entries }
        ensures pieces { self.new.pieces ≡ self.old.pieces }
        ensures has_entry { self.new.has_entry ≡ self.old.has_entry }
        ensures has_piece { self.new.has_piece ≡ self.old.has_piece }
        ensures has_read { self.new.has_read ≡ self.old.has_read }
        ensures reads { (self.new.formula ≡ self.old.formula) × (self.new.reads ≡ self.old.reads) }
        ensures next { self.new.next ≡ next_of self.new }
        ensures bytes { OnOk result (IsPiece self.new.flow.code self.new.flow.kept.thread self.new.ready (next_of self.new)) }
    {
        self.next = next;
        if let Action::Operate { op: Op::Print, .. } = self.next {
            self.ready = self.flow.piece()?;
        }
        Ok(())
    }

    // Whether the three lists have room for one item each.
    #[inline(always)]
    fn has_places(&self) -> bool
        ensures { result ≡ true → (self.now.has_entry ≡ true) × (self.now.has_piece ≡ true) × (self.now.has_read ≡ true) }
    {
        self.noted.len() < self.noted.capacity()
            && self.pieces.len() < self.pieces.capacity()
            && self.reads.len() < self.reads.capacity()
    }

    // Makes room for one item in each of the three lists.
    #[inline(never)]
    fn reserve_lists(&mut self) -> Result<(), AllocError>
        ensures flow { self.new.flow ≡ self.old.flow }
        ensures same { IsSameRun self.old self.new }
        ensures told { told_of self.new ≡ told_of self.old }
        ensures reads { self.new.reads ≡ self.old.reads }
        ensures entry { OnOk result (self.new.has_entry ≡ true) }
        ensures piece { OnOk result (self.new.has_piece ≡ true) }
        ensures read { OnOk result (self.new.has_read ≡ true) }
    {
        self.noted.reserve(1)?;
        self.pieces.reserve(1)?;
        self.reads.reserve(1)
    }

    // Makes room for what the interpreter needs, an entry, a piece and an access.
    #[inline(always)]
    fn make_room(&mut self) -> Result<(), AllocError>
        ensures same { IsSameRun self.old self.new }
        ensures told { told_of self.new ≡ told_of self.old }
        ensures reads { self.new.reads ≡ self.old.reads }
        ensures frame { OnOk result (is_ready self.new.flow.code self.new.flow.kept ≡ true) }
        ensures entry { OnOk result (self.new.has_entry ≡ true) }
        ensures piece { OnOk result (self.new.has_piece ≡ true) }
        ensures read { OnOk result (self.new.has_read ≡ true) }
    {
        self.flow.reserve()?;
        if self.has_places() {
            return Ok(());
        }
        self.reserve_lists()
    }

    /// Makes room for one more step: for what the interpreter needs, an entry, a piece and an access. A quiet step is one too.
    pub fn reserve(&mut self) -> Result<(), AllocError>
        ensures same { IsSameRun self.old self.new }
        ensures told { told_of self.new ≡ told_of self.old }
        ensures reads { self.new.reads ≡ self.old.reads }
        ensures ready { OnOk result (IsReady self.new) }
    {
        self.make_room()?;
        let next = self.flow.next_action();
        self.look_ahead(next)
    }

    /// All quiet steps, and room for the step after them. After an Err some of the quiet steps may be made.
    #[inline(always)]
    pub fn prepare(&mut self) -> Result<(), AllocError>
        ensures same { IsSameRun self.old self.new }
        ensures lists { (self.new.entries ≡ self.old.entries) × (self.new.pieces ≡ self.old.pieces) × (self.new.reads ≡ self.old.reads) }
        ensures thread { OnOk result (self.new.flow.kept.thread ≡ settled self.old.flow.code self.old.flow.setup self.old.flow.number self.old.flow.kept.thread) }
        ensures rest { settled self.new.flow.code self.new.flow.setup self.new.flow.number self.new.flow.kept.thread ≡ settled self.old.flow.code self.old.flow.setup self.old.flow.number self.old.flow.kept.thread }
        ensures ready { OnOk result (IsReady self.new) }
    {
        let next = self.flow.settle_to_next()?;
        self.make_room()?;
        self.look_ahead(next)
    }

    // Notes an entry of the thread as it stands.
    fn note(&mut self, op: OpName, obj: ObjId, number: u32)
        requires { self.old.has_entry ≡ true }
        ensures flow { self.new.flow ≡ self.old.flow }
        ensures entries { self.new.entries ≡ self.old.entries ++ record { entry = entry_of self.old.flow.number self.old.flow.kept.thread op obj; number = number } ∷ [] }
        ensures pieces { self.new.pieces ≡ self.old.pieces }
        ensures has_piece { self.new.has_piece ≡ self.old.has_piece }
        ensures reads { (self.new.formula ≡ self.old.formula) × (self.new.reads ≡ self.old.reads) }
        ensures bytes { self.new.ready ≡ self.old.ready }
    {
        let entry = Entry {
            thread: self.thread,
            count: self.flow.count(),
            op,
            obj,
        };
        put_entry(&mut self.noted, Noted { entry, number });
    }

    // Puts the bytes that are ready after what was printed.
    fn print(&mut self)
        requires { self.old.has_piece ≡ true }
        ensures flow { self.new.flow ≡ self.old.flow }
        ensures entries { self.new.entries ≡ self.old.entries }
        ensures pieces { self.new.pieces ≡ self.old.pieces ++ self.old.ready ∷ [] }
        ensures reads { (self.new.formula ≡ self.old.formula) × (self.new.reads ≡ self.old.reads) }
    {
        let piece = mem::replace(&mut self.ready, Bytes::new(self.alloc));
        put_piece(&mut self.pieces, piece);
    }

    // Keeps an access of the thread as it stands, if it meets the formula.
    #[inline(always)]
    fn keep(&mut self, cell: u32, value: u64, store: bool)
        requires { self.old.has_read ≡ true }
        ensures flow { self.new.flow ≡ self.old.flow }
        ensures entries { self.new.entries ≡ self.old.entries }
        ensures pieces { self.new.pieces ≡ self.old.pieces }
        ensures formula { self.new.formula ≡ self.old.formula }
        ensures reads { self.new.reads ≡ with_read self.old.formula self.old.reads (access_of self.old.flow.number self.old.flow.kept.thread cell value store) }
    {
        let access = Access {
            thread: self.thread,
            count: self.flow.count(),
            cell,
            value,
            store,
        };
        keep_access(&mut self.reads, &self.formula, access);
    }

    /// One step, with its answer: a quiet one, or what comes next. An operation is noted as an entry with its number among
    /// those of its object, a print with what it prints, and an access is kept if it meets the formula.
    #[inline(always)]
    pub fn take_answer(&mut self, answer: i64, number: u32)
        requires { IsReady self.old }
        ensures same { IsSameRun self.old self.new }
        ensures told { told_of self.new ≡ after self.old.flow.code self.old.flow.setup self.old.flow.number (told_of self.old) (next_of self.old) answer number }
        ensures reads { self.new.reads ≡ reads_after self.old.formula self.old.flow.number self.old.flow.kept.thread (next_of self.old) answer self.old.reads }
    {
        let next = self.next;
        match next {
            Action::Load { cell } => self.keep(cell, answer.cast_unsigned(), false),
            Action::Store { cell, value } => self.keep(cell, value, true),
            Action::Operate { op, obj } => {
                self.note(op.name(), obj, number);
                if matches!(op, Op::Print) {
                    self.print();
                }
            }
            Action::Quiet | Action::Mark | Action::Ended => {}
        }
        self.flow.take_next(next, answer);
    }

    /// All quiet steps. After an Err some of them are made, and the others are still to come.
    pub fn settle(&mut self) -> Result<(), AllocError>
        ensures same { IsSameRun self.old self.new }
        ensures lists { (self.new.entries ≡ self.old.entries) × (self.new.pieces ≡ self.old.pieces) × (self.new.reads ≡ self.old.reads) }
        ensures thread { OnOk result (self.new.flow.kept.thread ≡ settled self.old.flow.code self.old.flow.setup self.old.flow.number self.old.flow.kept.thread) }
        ensures rest { settled self.new.flow.code self.new.flow.setup self.new.flow.number self.new.flow.kept.thread ≡ settled self.old.flow.code self.old.flow.setup self.old.flow.number self.old.flow.kept.thread }
        ensures quiet { OnOk result (next_of self.new ≢ Action.Quiet) }
    {
        self.flow.settle()
    }

    /// What a revoke of a stripe that the thread holds does to it, noted with its number.
    pub fn give_up(&mut self, lock: u16, stripe: u8, number: u32)
        requires room { self.old.has_entry ≡ true }
        requires entries { self.old.flow.kept.thread.entries < most_entries }
        requires revokes { self.old.flow.kept.thread.revokes < most_revokes }
        ensures same { IsSameRun self.old self.new }
        ensures told { told_of self.new ≡ operated (told_of self.old) (gave_up self.old.flow.kept.thread lock stripe) (record { entry = entry_of self.old.flow.number self.old.flow.kept.thread name.Revoke (object.Weak lock stripe); number = number }) [] }
        ensures reads { self.new.reads ≡ self.old.reads }
    {
        self.note(OpName::Revoke, ObjId::Weak { lock, stripe }, number);
        self.flow.give_up(lock, stripe);
    }

    /// What a stop does to the thread, noted with its number.
    pub fn stop(&mut self, number: u32)
        requires room { self.old.has_entry ≡ true }
        requires open { has_ended self.old.flow.kept.thread.phase ≡ false }
        ensures same { IsSameRun self.old self.new }
        ensures told { told_of self.new ≡ operated (told_of self.old) (stopped self.old.flow.kept.thread) (record { entry = entry_of self.old.flow.number self.old.flow.kept.thread name.Stop object.Halt; number = number }) [] }
        ensures reads { self.new.reads ≡ self.old.reads }
    {
        self.note(OpName::Stop, ObjId::Halt, number);
        self.flow.stop();
    }

    /// What a close of the thread's slot does to it, noted with its number.
    pub fn close_slot(&mut self, number: u32)
        requires room { self.old.has_entry ≡ true }
        requires open { has_ended self.old.flow.kept.thread.phase ≡ false }
        ensures same { IsSameRun self.old self.new }
        ensures told { told_of self.new ≡ operated (told_of self.old) (slot_closed self.old.flow.kept.thread) (record { entry = entry_of self.old.flow.number self.old.flow.kept.thread name.Close (object.Slot self.old.flow.number); number = number }) [] }
        ensures reads { self.new.reads ≡ self.old.reads }
    {
        let slot = self.thread;
        self.note(OpName::Close, ObjId::Slot(slot), number);
        self.flow.close_slot();
    }

    /// How many events the thread has made.
    pub fn count(&self) -> u32
        ensures { result ≡ self.now.flow.kept.thread.count }
    {
        self.flow.count()
    }

    /// How many entries it has that aren't ending ones.
    pub fn entries(&self) -> u32
        ensures { result ≡ self.now.flow.kept.thread.entries }
    {
        self.flow.entries()
    }

    /// How many of its entries are revokes.
    pub fn revokes(&self) -> u32
        ensures { result ≡ self.now.flow.kept.thread.revokes }
    {
        self.flow.revokes()
    }

    /// Whether the thread has begun. Thread 0 has begun at the start.
    pub fn has_begun(&self) -> bool
        ensures { result ≡ has_begun self.now.flow.kept.thread.phase }
    {
        self.flow.has_begun()
    }

    /// Whether the thread holds the stripe.
    pub fn holds(&self, lock: u16, stripe: u8) -> bool
        ensures { result ≡ holds_stripe self.now.flow.kept.thread.stripes lock stripe }
    {
        self.flow.holds(lock, stripe)
    }

    /// The stripes that the thread holds or owes.
    pub fn stripes(&self) -> &[Stripe]
        ensures { result.now ≡ self.now.flow.kept.thread.stripes }
    {
        self.flow.stripes()
    }

    /// How the thread has ended; None exactly where it hasn't.
    pub fn ending(&self) -> Option<Ending>
        ensures { result ≡ ending_of self.now.flow.kept.thread.phase }
    {
        self.flow.ending()
    }

    /// The kind and the line of the thread's trap; None exactly where it hasn't trapped.
    pub fn trap(&self) -> Option<(Trap, u32)>
        ensures { result ≡ trap_of self.now.flow.kept.thread.phase }
    {
        self.flow.trap()
    }
}

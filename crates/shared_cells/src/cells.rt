// The words and the calls on them.
ghost use Rattle.std.specs.Prelude.{◌≡◌, ◌+◌, ◌*◌, ◌<◌, ◌≤◌, ◌++◌, [], ◌∷◌, true, length, None, IfOk};
ghost use Rattle.std.specs.Vec.{vec_len, vec_capacity};
ghost use Rattle.word_semantics.specs.declared.event.Action.TheVariants as action;
ghost use Rattle.flow_code.specs.Settle.{IsRunnable};
ghost use Rattle.core_run.specs.Words.{cells_of, has_object, place_of};
ghost use Rattle.shared_cells.specs.Views.{looked, departing, lowered};
ghost use Rattle.shared_cells.specs.Words.{objects_end, departure_place, memory_place, first_words, lone_cells, spot_of};
ghost use Rattle.shared_cells.specs.Seats.{is_asked};
ghost use Rattle.shared_cells.specs.Threads.{loaded, stored};

use crate::asked::Asked;
use crate::attempt::Attempt;
use crate::closed::Closed;
use crate::dealing::{deal, join};
use crate::seat::Seat;
use crate::spots::{LONE_GLOBALS, spot_of, spread_words};
use crate::steps::{Depart, Exchange, Load, Look, Lower, Part, Put, Rule, Stay, Store, Whole};
use crate::view::{TableInput, View};
use atomic_table::Table;
use core_run::{place_of, start_words};
use flow_code::Code;
use std::alloc::{AllocError, Global};
use std::marker::Model;
use sync_objects::{ObjId, Op, Setup, advance, number_of};

/// The words of a code's cells and objects under a setup, and beside them a want word for each stripe, the departure word and
/// the memory word. Words that different threads change often stand on lines of the cache of their own.
#[derive(Drop)]
pub struct Cells<'a> {
    code: &'a Code,
    setup: &'a Setup,
    cells: u32,
    // So many of the first cells have fillers after them.
    lone: usize,
    objects: usize,
    // The spots of these two words on the table.
    departure: usize,
    memory: usize,
    table: Table<Asked, View, TableInput<'a>, Rule, Global>,
}

impl<'a> Model for Cells<'a> {
    ghost use Rattle.std.specs.Prelude.{◌≡◌};
    ghost use Rattle.shared_cells.specs.Rule.{Board, IsBoard};

    ghost Value = { Board };

    ghost view = { λ c. record { code = c.table.shared.key.code; setup = c.table.shared.key.setup; table = c.table.shared.table_id } };

    ghost invariant = { λ c. IsBoard c.cells c.lone c.objects c.departure c.memory c.table.shared.key c.table.shared.table_id × (c.code.now ≡ c.table.shared.key.code) × (c.setup.now ≡ c.table.shared.key.setup) };
}

// The words at the start.
fn first_words(alloc: Global, code: &Code, setup: &Setup) -> Result<Vec<u64>, AllocError>
    requires { IsRunnable code.now }
    ensures { IfOk result (λ it. it.items ≡ first_words code.now setup.now) }
{
    let mut words = start_words(alloc, code, setup)?;
    for _k in 0..code.locks.len() {
        words.extend_from_slice(&[0; 8])?;
    }
    words.push(u64::from(u32::MAX))?;
    words.push(0)?;
    Ok(words)
}

// Puts a word after the others, where there is room.
fn put_word(words: &mut Vec<u64>, word: u64)
    requires { vec_len words.old < vec_capacity words.old }
    ensures items { words.new.items ≡ words.old.items ++ word ∷ [] }
    ensures count { vec_len words.new ≡ vec_len words.old + 1 }
    ensures room { vec_capacity words.old ≤ vec_capacity words.new }
{
    match words.push(word) {
        Ok(()) => {}
        Err(_) => unreachable!(),
    }
}

// Whether an operation with this number is asked for. None asks for any number.
fn is_asked(at: Option<u32>, number: u32) -> bool
    ensures { result ≡ is_asked at number }
{
    match at {
        Some(asked) => number == asked,
        None => true,
    }
}

impl<'a> Cells<'a> {
    ghost use Rattle.shared_cells.specs.Seats.{view_of, IsSeatOf, HasNext, HasDue, place_in, AttemptIs, Tells, IsSameSeat, AreSeats, AreAtStart};
    ghost use Rattle.shared_cells.specs.Plays.{IsReached, IsReachedWith, GoesOn};
    ghost use Rattle.shared_cells.specs.Closing.{Closes};

    /// The cells and objects with their start words, and a seat for each thread, in order. Nothing is wanted, nothing has
    /// departed, and there is memory.
    pub fn new(
        alloc: Global,
        code: &'a Code,
        setup: &'a Setup,
    ) -> Result<(Cells<'a>, Vec<Seat>), AllocError>
        requires runnable { IsRunnable code.now }
        ensures code { IfOk result (λ r. r.0.code ≡ code.now) }
        ensures setup { IfOk result (λ r. r.0.setup ≡ setup.now) }
        ensures seats { IfOk result (λ r. AreSeats r.0 r.1.items) }
        ensures start { IfOk result (λ r. AreAtStart code.now setup.now r.1.items) }
    {
        let words = first_words(alloc, code, setup)?;
        let count = words.len();
        let cells = 2 * u32::from(setup.slots())
            + code.globals.len() as u32
            + u32::from(setup.slots()) * setup.cells();
        let all = cells as usize;
        let lone = 2 * usize::from(setup.slots()) + code.globals.len().min(LONE_GLOBALS);
        let words = spread_words(alloc, all, lone, words.as_slice())?;
        let known = TableInput { code, setup };
        let (table, first) = Table::<Asked, View, TableInput<'a>, Rule, Global>::of_words(
            alloc,
            words.as_slice(),
            &known,
        )?;
        let seats = deal(alloc, &table.shared, first, setup.slots())?;
        let made = Cells {
            code,
            setup,
            cells,
            lone,
            objects: count - 2 - 8 * code.locks.len(),
            departure: spot_of(all, lone, count - 2),
            memory: spot_of(all, lone, count - 1),
            table,
        };
        Ok((made, seats))
    }

    // Where the table has the word of a place.
    #[inline(always)]
    fn spot(&self, place: usize) -> usize
        requires { place < length (first_words self.now.code self.now.setup) }
        ensures { result ≡ spot_of self.now.code self.now.setup place }
    {
        spot_of(self.cells as usize, self.lone, place)
    }

    // Where the table has the word of a cell.
    #[inline(always)]
    fn cell_spot(&self, cell: u32) -> usize
        requires { cell < cells_of self.now.code self.now.setup }
        ensures { result ≡ spot_of self.now.code self.now.setup cell }
    {
        let cell = cell as usize;
        cell + 7 * cell.min(self.lone)
    }

    /// Loads a cell. The seat's thread has this load next.
    pub fn load(&self, seat: &mut Seat, cell: u32) -> u64
        requires seat { IsSeatOf self.now seat.old }
        requires cell { cell < cells_of self.now.code self.now.setup }
        requires next { HasNext seat.old (action.Load cell) }
        ensures seat { IsSeatOf self.now seat.new }
        ensures view { view_of seat.new ≡ loaded (view_of seat.old) seat.old.marks cell result }
        ensures reached { IsReached (view_of seat.new) }
        ensures marks { seat.new.marks ≡ 0 }
    {
        seat.marks = 0;
        self.table
            .shared
            .load::<Load>(&mut seat.seat, self.cell_spot(cell))
    }

    /// Stores a word into a cell. The seat's thread has this store next.
    pub fn store(&self, seat: &mut Seat, cell: u32, value: u64)
        requires seat { IsSeatOf self.now seat.old }
        requires cell { cell < cells_of self.now.code self.now.setup }
        requires next { HasNext seat.old (action.Store cell value) }
        ensures seat { IsSeatOf self.now seat.new }
        ensures view { view_of seat.new ≡ stored (view_of seat.old) seat.old.marks cell value }
        ensures reached { IsReached (view_of seat.new) }
        ensures marks { seat.new.marks ≡ 0 }
    {
        seat.marks = 0;
        self.table
            .shared
            .store::<Store>(&mut seat.seat, self.cell_spot(cell), value);
    }

    /// Attempts an operation that the seat's thread may make as far as it goes: its own next one, or a revoke, a stop or a close
    /// of it. It makes one load of the object's word, and at most one exchange. The operation isn't made where that word doesn't
    /// allow it, or has changed between the two.
    pub fn attempt(&self, seat: &mut Seat, obj: ObjId, op: Op) -> Attempt
        requires seat { IsSeatOf self.now seat.old }
        requires object { has_object self.now.code self.now.setup obj ≡ true }
        requires due { HasDue seat.old op obj }
        ensures seat { IsSeatOf self.now seat.new }
        ensures is { AttemptIs None seat.old seat.new op obj result }
    {
        self.attempt_at(seat, obj, op, None)
    }

    /// Attempts an operation as `attempt` does. Where it is asked for with a number, it is made as the object's operation with
    /// that number, or not at all.
    pub fn attempt_at(&self, seat: &mut Seat, obj: ObjId, op: Op, at: Option<u32>) -> Attempt
        requires seat { IsSeatOf self.now seat.old }
        requires object { has_object self.now.code self.now.setup obj ≡ true }
        requires due { HasDue seat.old op obj }
        ensures seat { IsSeatOf self.now seat.new }
        ensures is { AttemptIs at seat.old seat.new op obj result }
    {
        let place = self.spot(place_of(self.cells, obj));
        let seen = self.table.shared.load::<Look>(&mut seat.seat, place);
        let number = number_of(seen);
        if !is_asked(at, number) {
            return Attempt::NotYet { seen };
        }
        let Some((next, answer)) = advance(op, seat.thread, seen) else {
            return Attempt::NotYet { seen };
        };
        let asked = Asked {
            op,
            obj,
            marks: seat.marks,
            answer,
        };
        let found = self
            .table
            .shared
            .compare_exchange_with::<Exchange>(&mut seat.seat, place, seen, next, &asked);
        if found != seen {
            return Attempt::NotYet { seen: found };
        }
        seat.marks = 0;
        Attempt::Done { answer, number }
    }

    /// The word of an object, as this look finds it.
    pub fn look(&self, seat: &mut Seat, obj: ObjId) -> u64
        requires seat { IsSeatOf self.now seat.old }
        requires object { has_object self.now.code self.now.setup obj ≡ true }
        ensures seat { IsSeatOf self.now seat.new }
        ensures view { view_of seat.new ≡ looked (view_of seat.old) (place_in (view_of seat.old) obj) result }
        ensures found { IsReachedWith (view_of seat.old) (place_in (view_of seat.old) obj) result }
        ensures later { GoesOn (view_of seat.old) (place_in (view_of seat.old) obj) result }
        ensures marks { seat.new.marks ≡ seat.old.marks }
    {
        self.table
            .shared
            .load::<Look>(&mut seat.seat, self.spot(place_of(self.cells, obj)))
    }

    // Where the table has the want word of a stripe.
    fn want_spot(&self, lock: u16, stripe: u8) -> usize
        requires lock { lock < length self.now.code.locks }
        requires stripe { stripe < 8 }
        ensures { result ≡ spot_of self.now.code self.now.setup (objects_end self.now.code self.now.setup + 8 * lock + stripe) }
    {
        self.spot(self.objects + 8 * usize::from(lock) + usize::from(stripe))
    }

    /// Says that a stripe is wanted, or that it isn't any more. Where its want word says so already, it isn't written again.
    pub fn want(&self, seat: &mut Seat, lock: u16, stripe: u8, on: bool)
        requires seat { IsSeatOf self.now seat.old }
        requires lock { lock < length self.now.code.locks }
        requires stripe { stripe < 8 }
        ensures seat { IsSeatOf self.now seat.new }
        ensures same { IsSameSeat seat.old seat.new }
    {
        let place = self.want_spot(lock, stripe);
        let word = u64::from(on);
        if self.table.shared.peek(place) == word {
            return;
        }
        self.table.shared.store::<Stay>(&mut seat.seat, place, word);
    }

    /// Whether a stripe is wanted, as this look finds it.
    pub fn wanted(&self, seat: &mut Seat, lock: u16, stripe: u8) -> bool
        requires seat { IsSeatOf self.now seat.old }
        requires lock { lock < length self.now.code.locks }
        requires stripe { stripe < 8 }
        ensures seat { IsSeatOf self.now seat.new }
        ensures tells { Tells seat.old seat.new (objects_end self.now.code self.now.setup + 8 * lock + stripe) result }
    {
        let place = self.want_spot(lock, stripe);
        self.table.shared.load::<Look>(&mut seat.seat, place) != 0
    }

    /// Says that memory has run out: it sets the memory word.
    pub fn no_memory(&self, seat: &mut Seat)
        requires seat { IsSeatOf self.now seat.old }
        ensures seat { IsSeatOf self.now seat.new }
        ensures view { view_of seat.new ≡ looked (view_of seat.old) (memory_place self.now.code self.now.setup) 1 }
        ensures marks { seat.new.marks ≡ seat.old.marks }
    {
        self.table
            .shared
            .store::<Put>(&mut seat.seat, self.memory, 1);
    }

    /// Whether memory has run out, as this look finds it.
    pub fn lacks_memory(&self, seat: &mut Seat) -> bool
        requires seat { IsSeatOf self.now seat.old }
        ensures seat { IsSeatOf self.now seat.new }
        ensures tells { Tells seat.old seat.new (memory_place self.now.code self.now.setup) result }
    {
        self.table.shared.load::<Look>(&mut seat.seat, self.memory) != 0
    }

    /// Lowers the departure word to a position, if that is lower, and answers the word before.
    pub fn least(&self, seat: &mut Seat, position: u32) -> u32
        requires seat { IsSeatOf self.now seat.old }
        ensures seat { IsSeatOf self.now seat.new }
        ensures view { view_of seat.new ≡ lowered (view_of seat.old) position result }
        ensures below { result ≤ (view_of seat.old).met }
        ensures marks { seat.new.marks ≡ seat.old.marks }
    {
        self.table
            .shared
            .fetch_min::<Lower>(&mut seat.seat, self.departure, u64::from(position)) as u32
    }

    /// The departure word, as this look finds it.
    pub fn depart(&self, seat: &mut Seat) -> u32
        requires seat { IsSeatOf self.now seat.old }
        ensures seat { IsSeatOf self.now seat.new }
        ensures view { view_of seat.new ≡ departing (view_of seat.old) (departure_place self.now.code self.now.setup) result }
        ensures below { result ≤ (view_of seat.old).met }
        ensures marks { seat.new.marks ≡ seat.old.marks }
    {
        self.table
            .shared
            .load::<Depart>(&mut seat.seat, self.departure) as u32
    }

    /// The code.
    pub fn code(&self) -> &'a Code
        ensures { result.now ≡ self.now.code }
    {
        self.code
    }

    /// The setup.
    pub fn setup(&self) -> &'a Setup
        ensures { result.now ≡ self.now.setup }
    {
        self.setup
    }

    /// How many cells there are.
    pub fn cell_count(&self) -> u32
        ensures { result ≡ cells_of self.now.code self.now.setup }
    {
        self.cells
    }

    /// Takes all seats back, and gives the words of all cells and objects, and the departure word. Its memory is taken before the
    /// seats are joined.
    pub fn close(self, alloc: Global, seats: Vec<Seat>) -> Result<Closed, AllocError>
        requires { AreSeats self seats.items }
        ensures { IfOk result (λ c. Closes self.entry.code self.entry.setup seats.items c.words.items c.departure) }
    {
        let Cells {
            cells,
            lone,
            objects,
            departure,
            table,
            ..
        } = self;
        let cells = cells as usize;
        let mut words = Vec::new(alloc);
        words.reserve(objects)?;
        let whole = join(&table.shared, seats);
        let closed = table.close_with(whole);
        for k in 0..objects {
            put_word(&mut words, closed.word(spot_of(cells, lone, k)));
        }
        let departure = closed.word(departure) as u32;
        closed.free();
        Ok(Closed { words, departure })
    }
}

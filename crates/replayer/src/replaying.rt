// The replay of a log.
ghost use Rattle.std.specs.Prelude.{◌≡◌, ◌-◌, ◌<◌, ◌≤◌, ◌^◌, ℕ, false, IfOk, IfSome, MatchResult, List, None, Some, length, map, slice_get};
ghost use Rattle.std.specs.List.{list_all};
ghost use Rattle.core_run.specs.Histories.{HasNoRace};
ghost use Rattle.core_run.specs.Walks.{WalkIs};
ghost use Rattle.crew.specs.Counts.{CrewFaults, RoseAtLeast, RoseBy};
ghost use Rattle.flow_code.specs.Settle.{IsRunnable};
ghost use Rattle.shared_cells.specs.Rule.{Board};
ghost use Rattle.shared_cells.specs.Seats.{AreAtStart, AreSeats, view_of};
ghost use Rattle.sync_objects.specs.declared.entry.Entry.{Entry as EntryOf};
ghost use Rattle.replayer.specs.Following.{Following, made_in};
ghost use Rattle.replayer.specs.Replays.{AreDone, AreFollowers, AreFresh, AreThreads, AreWhole, HaveFollowed, HaveLowered, entries_taken, has_ended_in};
ghost use Rattle.run_walk.specs.Remains.{remains_in};

use crate::follower::Follower;
use crate::numbering::{number_all, own_entries};
use core_run::Walk;
use crew::{Crew, CrewEnd};
use flow_code::Code;
use log_walks::{known_wrong, law_known, law_unfinished, law_whole, law_wrong};
use rr_base::List;
use run_walk::{Remains, into_remains, whole_walk};
use shared_cells::{Cells, Seat};
use std::alloc::{AllocError, Global};
use std::sync::Wait;
use std::thread::Threads;
use std::time::Clock;
use sync_objects::{Entry, Setup};
use thread_interpreter::Formula;
use thread_step::ThreadRun;

// The follower, which lowers the departure word first where the entry that is known to be wrong is of its thread.
fn with_known<'c, 'a>(
    mut follower: Follower<'c, 'a>,
    thread: u8,
    entries: &List<Entry>,
    wrong: Option<u32>,
) -> Follower<'c, 'a>
    requires none { follower.known ≡ None }
    requires stays { follower.has_departed ≡ false }
    requires inside { IfSome wrong (λ at. at < length entries.now) }
    ensures cells { result.cells ≡ follower.entry.cells }
    ensures thread { (view_of result.seat).from ≡ (view_of follower.entry.seat).from }
    ensures wanted { result.wanted ≡ follower.entry.wanted }
    ensures turns { result.turns ≡ follower.entry.turns }
    ensures known { (p : ℕ) → result.known ≡ Some p → wrong ≡ Some p }
    ensures lowers { (p : ℕ) (e : EntryOf) → wrong ≡ Some p → slice_get entries.now p ≡ Some e → e.thread ≡ thread → result.known ≡ Some p }
{
    if let Some(at) = wrong {
        if entries.at(at as usize).thread == thread {
            follower.put_known(at);
        }
    }
    follower
}

// A follower for each seat, in order. The departure word is lowered already where an entry is known to be wrong.
fn followers<'c, 'a>(
    alloc: Global,
    cells: &'c Cells<'a>,
    code: &'a Code,
    setup: &'a Setup,
    seats: Vec<Seat>,
    entries: &List<Entry>,
    formula: &Formula,
) -> Result<Vec<Follower<'c, 'a>>, AllocError>
    requires runnable { IsRunnable code.now }
    requires code { cells.now.code ≡ code.now }
    requires setup { cells.now.setup ≡ setup.now }
    requires seats { AreSeats cells.now seats.items }
    requires start { AreAtStart code.now setup.now seats.items }
    requires few { length entries.now < 2 ^ 32 - 1 }
    requires threads { AreThreads setup.now entries.now }
    ensures followers { IfOk result (λ it. AreFollowers cells.now entries.now it.items) }
    ensures fresh { IfOk result (λ it. AreFresh it.items) }
    ensures known { IfOk result (λ it. HaveLowered setup.now entries.now it.items) }
{
    let wrong = known_wrong(alloc, setup, entries)?;
    let noted = number_all(alloc, entries)?;
    let mut jobs = Vec::with_capacity(alloc, usize::from(setup.slots()))?;
    for seat in seats {
        let thread = seat.thread();
        let run = ThreadRun::new(alloc, code, setup, thread, *formula)?;
        let wanted = own_entries(alloc, noted.as_slice(), thread)?;
        jobs.push(with_known(
            Follower::new(cells, seat, run, wanted),
            thread,
            entries,
            wrong,
        ))?;
    }
    Ok(jobs)
}

// Whether memory ran out for one of them. Else all of them are whole.
fn some_is_out(followers: &[Follower]) -> bool
    ensures { result ≡ false → AreWhole followers.now }
{
    for k in 0..followers.len() {
        if followers[k].is_out() {
            return true;
        }
    }
    false
}

// Whether the threads of all of them have ended.
fn all_have_ended(followers: &[Follower]) -> bool
    ensures { result ≡ list_all has_ended_in followers.now }
{
    let mut rest = followers;
    while let [follower, more @ ..] = rest {
        if !follower.has_ended() {
            return false;
        }
        rest = more;
    }
    true
}

// Their seats, and what remains of their runs, in order.
fn parts_of(
    alloc: Global,
    followers: Vec<Follower>,
) -> Result<(Vec<Seat>, Vec<Remains>), AllocError>
    ensures seats { IfOk result (λ it. it.0.items ≡ map (λ (f : Following). f.seat) followers.entry.items) }
    ensures remains { IfOk result (λ it. it.1.items ≡ map (λ (f : Following). remains_in f.run) followers.entry.items) }
{
    let mut seats = Vec::new(alloc);
    let mut remains = Vec::new(alloc);
    for follower in followers {
        let (seat, run) = follower.into_parts();
        let (_, rest) = into_remains(run);
        seats.push(seat)?;
        remains.push(rest)?;
    }
    Ok((seats, remains))
}

/// What is left of followers that have come to their end: their seats and what remains of their runs, in order, and whether their
/// threads have ended.
#[derive(Drop)]
pub(crate) struct Gathered {
    pub seats: Vec<Seat>,
    pub remains: Vec<Remains>,
    pub all_ended: bool,
}

// What is left of these followers. Err where memory ran out for one of them.
fn gather(alloc: Global, followers: Vec<Follower>) -> Result<Gathered, AllocError>
    ensures { IfOk result (λ it. (cells : Board) (es : List EntryOf) → AreDone cells es followers.entry.items → (h : HaveFollowed cells es it.seats.items it.remains.items it.all_ended) × (h.fs ≡ followers.entry.items)) }
{
    if some_is_out(&followers) {
        return Err(AllocError);
    }
    let all_ended = all_have_ended(&followers);
    let (seats, remains) = parts_of(alloc, followers)?;
    Ok(Gathered {
        seats,
        remains,
        all_ended,
    })
}

// What the walk of the log comes to, by how the threads have followed it.
fn conclude(
    alloc: Global,
    cells: Cells,
    code: &Code,
    setup: &Setup,
    entries: &List<Entry>,
    formula: &Formula,
    gathered: Gathered,
) -> Result<Walk, AllocError>
    requires code { cells.code ≡ code.now }
    requires setup { cells.setup ≡ setup.now }
    requires runnable { IsRunnable code.now }
    requires race_free { HasNoRace code.now setup.now }
    requires few { length entries.now < 2 ^ 32 - 1 }
    requires threads { AreThreads setup.now entries.now }
    requires followed { HaveFollowed cells entries.now gathered.seats.items gathered.remains.items gathered.all_ended }
    ensures walk { IfOk result (WalkIs code.now setup.now entries.now formula.now) }
    ensures taken { IfOk result (λ w. (h : HaveFollowed cells.entry entries.now gathered.seats.items gathered.remains.items gathered.all_ended) → entries_taken entries.now w ≤ made_in h.fs) }
{
    let Gathered {
        seats,
        remains,
        all_ended,
    } = gathered;
    let closed = cells.close(alloc, seats)?;
    if closed.departure != u32::MAX {
        law_wrong();
        law_known();
        return Ok(Walk::Wrong {
            at: closed.departure,
        });
    }
    if !all_ended {
        law_unfinished();
        return Ok(Walk::Wrong {
            at: entries.len() as u32,
        });
    }
    law_whole();
    whole_walk(alloc, code, setup, entries, formula, &remains)
}

/// Replays a log: each thread of the code follows its own entries of it, in turns that the crew gives, as a job of its own. The
/// answer is the log's walk.
pub fn replay<R: Threads + Wait + Clock + Sync, C: Crew>(
    rt: &R,
    alloc: Global,
    code: &Code,
    setup: &Setup,
    entries: &List<Entry>,
    formula: &Formula,
    crew: &mut C,
) -> Result<Walk, CrewEnd>
    requires runnable { IsRunnable code.now }
    requires race_free { HasNoRace code.now setup.now }
    requires few { length entries.now < 2 ^ 32 - 1 }
    requires threads { AreThreads setup.now entries.now }
    ensures walk { IfOk result (WalkIs code.now setup.now entries.now formula.now) }
    ensures fault { MatchResult result (λ _. C.faults crew.new ≡ C.faults crew.old) (λ end. CrewFaults end (C.faults crew.old) (C.faults crew.new)) }
    ensures turns { IfOk result (λ w. RoseAtLeast (entries_taken entries.now w) (C.turns crew.old) (C.turns crew.new)) }
    ensures jobs_run { IfOk result (λ _. RoseBy setup.now.slots (C.jobs_run crew.old) (C.jobs_run crew.new)) }
    ensures failed { result ≡ Err CrewEnd.Failed → C.jobs_run crew.new ≡ C.jobs_run crew.old }
{
    let (cells, seats) = match Cells::new(alloc, code, setup) {
        Ok(made) => made,
        Err(error) => return Err(CrewEnd::from(error)),
    };
    let jobs = match followers(alloc, &cells, code, setup, seats, entries, formula) {
        Ok(jobs) => jobs,
        Err(error) => return Err(CrewEnd::from(error)),
    };
    let jobs = match crew.run(rt, alloc, jobs) {
        Ok(jobs) => jobs,
        Err(end) => return Err(end),
    };
    let gathered = match gather(alloc, jobs) {
        Ok(gathered) => gathered,
        Err(error) => return Err(CrewEnd::from(error)),
    };
    match conclude(alloc, cells, code, setup, entries, formula, gathered) {
        Ok(walk) => Ok(walk),
        Err(error) => Err(CrewEnd::from(error)),
    }
}

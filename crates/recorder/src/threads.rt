// The log of a run whose threads run as jobs of their own.
ghost use Rattle.std.specs.Prelude.{◌≡◌, ◌≤◌, IfOk, MatchResult, length, true};
ghost use Rattle.core_run.specs.Histories.{HasNoRace};
ghost use Rattle.crew.specs.Counts.{CrewFaults, RoseAtLeast, RoseBy};
ghost use Rattle.flow_code.specs.Constants.{constants_fit};
ghost use Rattle.flow_code.specs.Settle.{IsRunnable};
ghost use Rattle.flow_code.specs.Valid.{is_valid};
ghost use Rattle.recorder.specs.Carriers.{AreCarriers, AreParts};
ghost use Rattle.recorder.specs.Records.{Records};
ghost use Rattle.recorder.specs.Finished.{IsFinished};
ghost use Rattle.run_theory.specs.Merge.{total_length};
ghost use Rattle.shared_cells.specs.Seats.{AreAtStart, AreSeats};
ghost use Rattle.sync_objects.specs.Setup.{IsWithinLimits};

use crate::record::Recorded;
use core_run::Noted;
use crew::{Crew, CrewEnd};
use entry_merge::merge;
use flow_code::Code;
use rr_base::List;
use run_walk::{Remains, into_remains, whole_walk};
use shared_cells::{Cells, Seat};
use std::alloc::{AllocError, Global};
use std::sync::Wait;
use std::thread::Threads;
use std::time::Clock;
use sync_objects::Setup;
use thread_interpreter::Formula;
use thread_step::ThreadRun;
use weak_turns::Carrier;

/// The seats of all threads, their entries, and what else remains of their runs, in order.
#[derive(Drop)]
pub(crate) struct Parts {
    pub seats: Vec<Seat>,
    pub lists: List<List<Noted>>,
    pub remains: Vec<Remains>,
}

/// A carrier for each seat.
fn carriers_of<'c, 'a>(
    alloc: Global,
    cells: &'c Cells<'a>,
    seats: Vec<Seat>,
    budget: u32,
    formula: &Formula,
) -> Result<Vec<Carrier<'c, 'a>>, AllocError>
    requires valid { is_valid cells.now.code ≡ true }
    requires constants { constants_fit cells.now.code ≡ true }
    requires limits { IsWithinLimits cells.now.setup }
    requires seats { AreSeats cells.now seats.items }
    requires start { AreAtStart cells.now.code cells.now.setup seats.items }
    ensures { IfOk result (λ it. AreCarriers cells.now budget it.items) }
{
    let code = cells.code();
    let setup = cells.setup();
    let mut carriers = Vec::new(alloc);
    for seat in seats {
        let run = ThreadRun::new(alloc, code, setup, seat.thread(), *formula)?;
        carriers.push(Carrier::new(alloc, cells, seat, run, budget)?)?;
    }
    Ok(carriers)
}

/// The parts of carriers whose threads have ended. Where one has not, memory ran out.
fn parts_of(alloc: Global, carriers: Vec<Carrier>) -> Result<Parts, AllocError>
    ensures { IfOk result (λ it. AreParts carriers.entry.items it.seats.items it.lists it.remains.items) }
{
    let mut seats = Vec::new(alloc);
    let mut lists = List::new(alloc);
    let mut remains = Vec::new(alloc);
    for carrier in carriers {
        let (seat, run) = carrier.into_parts();
        if run.ending().is_none() {
            return Err(AllocError);
        }
        let (list, rest) = into_remains(run);
        seats.push(seat)?;
        lists.push(list)?;
        remains.push(rest)?;
    }
    Ok(Parts {
        seats,
        lists,
        remains,
    })
}

// What these lists leave, which are those of a run in which all threads have ended, as is what remains of its threads.
fn log_of(
    alloc: Global,
    lists: &List<List<Noted>>,
    remains: &[Remains],
    code: &Code,
    setup: &Setup,
    formula: &Formula,
) -> Result<Recorded, AllocError>
    requires runnable { IsRunnable code.now }
    requires limits { IsWithinLimits setup.now }
    requires finished { IsFinished code.now setup.now lists.now remains.now }
    requires race_free { HasNoRace code.now setup.now }
    ensures records { IfOk result (λ it. Records code.now setup.now formula.now it.entries it.walk) }
    ensures entries { IfOk result (λ it. length it.entries ≤ total_length lists.now) }
{
    let entries = merge(alloc, lists.as_slice())?;
    if entries.len() >= u32::MAX as usize {
        return Err(AllocError);
    }
    let walk = whole_walk(alloc, code, setup, &entries, formula, remains)?;
    Ok(Recorded { entries, walk })
}

/// Runs the code's threads to their end, each as a job of its own, in turns that the crew gives; a stripe that another thread
/// wants may be taken from a thread that has held it for `budget` of its turns. The entries are the log of that run, and the walk
/// is theirs: it takes all entries, and keeps the accesses that meet the formula.
pub fn record_threads<R: Threads + Wait + Clock + Sync, C: Crew>(
    rt: &R,
    alloc: Global,
    code: &Code,
    setup: &Setup,
    budget: u32,
    formula: &Formula,
    crew: &mut C,
) -> Result<Recorded, CrewEnd>
    requires valid { is_valid code.now ≡ true }
    requires constants { constants_fit code.now ≡ true }
    requires race_free { HasNoRace code.now setup.now }
    ensures records { IfOk result (λ it. Records code.now setup.now formula.now it.entries it.walk) }
    ensures jobs_run { IfOk result (λ _. RoseBy setup.now.slots (C.jobs_run crew.old) (C.jobs_run crew.new)) }
    ensures turns { IfOk result (λ it. RoseAtLeast (length it.entries) (C.turns crew.old) (C.turns crew.new)) }
    ensures fault { MatchResult result (λ _. C.faults crew.new ≡ C.faults crew.old) (λ end. CrewFaults end (C.faults crew.old) (C.faults crew.new)) }
    ensures failed { result ≡ Err CrewEnd.Failed → C.jobs_run crew.new ≡ C.jobs_run crew.old }
{
    prove!(setup.slots() <= 16);
    let (cells, seats) = match Cells::new(alloc, code, setup) {
        Ok(made) => made,
        Err(error) => return Err(CrewEnd::from(error)),
    };
    let carriers = match carriers_of(alloc, &cells, seats, budget, formula) {
        Ok(carriers) => carriers,
        Err(error) => return Err(CrewEnd::from(error)),
    };
    let carriers = match crew.run(rt, alloc, carriers) {
        Ok(carriers) => carriers,
        Err(end) => return Err(end),
    };
    let Parts {
        seats,
        lists,
        remains,
    } = match parts_of(alloc, carriers) {
        Ok(parts) => parts,
        Err(error) => return Err(CrewEnd::from(error)),
    };
    let _closed = match cells.close(alloc, seats) {
        Ok(closed) => closed,
        Err(error) => return Err(CrewEnd::from(error)),
    };
    match log_of(alloc, &lists, &remains, code, setup, formula) {
        Ok(recorded) => Ok(recorded),
        Err(error) => Err(CrewEnd::from(error)),
    }
}

// What remains of a thread's run.
ghost use Rattle.std.specs.Prelude.{◌≡◌};
ghost use Rattle.run_walk.specs.Remains.{remains_in};

use core_run::Noted;
use rr_base::{Bytes, List, Trap};
use thread_interpreter::{Access, Ending, Formula};
use thread_step::ThreadRun;

/// What remains of a thread's run.
#[derive(Debug, Drop)]
pub struct Remains {
    /// What each of its prints has printed, in order.
    pub pieces: List<Bytes>,
    /// How it has ended; None where it hasn't.
    pub ending: Option<Ending>,
    /// The kind and the line of its trap, if it has trapped.
    pub trap: Option<(Trap, u32)>,
    /// The formula by which accesses were kept, and these.
    pub formula: Formula,
    pub reads: List<Access>,
}

/// The entries of a thread, and what else remains of its run.
pub fn into_remains(run: ThreadRun) -> (List<Noted>, Remains)
    ensures entries { result.0 ≡ run.entry.entries }
    ensures remains { result.1 ≡ remains_in run.entry }
{
    let ending = run.ending();
    let trap = run.trap();
    let formula = run.formula();
    let (noted, pieces, reads) = run.into_lists();
    let remains = Remains {
        pieces: List::from_vec(pieces),
        ending,
        trap,
        formula,
        reads: List::from_vec(reads),
    };
    (List::from_vec(noted), remains)
}

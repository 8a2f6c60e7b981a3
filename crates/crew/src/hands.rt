ghost use Rattle.std.specs.Prelude.{◌≡◌, ◌≤◌, length, IsTrue, vec_len, vec_capacity};
ghost use Rattle.std.specs.List.{AllZip};
ghost use Rattle.crew.specs.Turns.{Finished};
ghost use Rattle.crew.specs.Hands.{IsHandOf, IsReadyHandOf};

use crate::given::Given;
use crate::hand::{Hand, join, start, turn};
use crate::job::Job;
use crate::table::Table;
use std::sync::Wait;
use std::thread::{Scope, Threads};
use std::time::Clock;

/// Starts a thread for each job.
fn start_all<'s, E, R: Threads + Wait + Clock + Sync, J: Job + Send, G: Given<J> + Send>(
    scope: &Scope<'s, E>,
    rt: &'s R,
    table: &'s Table<J, G>,
    mut hands: Vec<Hand<J, G>>,
    count: usize,
) -> Vec<Hand<J, G>>
where
    J: 's,
    G: 's,
    requires all { count ≡ length G.given }
    requires none { vec_len hands ≡ 0 }
    requires room { count ≤ vec_capacity hands }
    ensures { AllZip (IsHandOf J.Job G.given) G.given result.items }
{
    for at in 0..count {
        let Ok(()) = hands.push(start(scope, rt, table, at)) else {
            unreachable!()
        };
    }
    hands
}

/// Gives each job that is here a turn. Whether all of them have ended.
pub(crate) fn round<J: Job, G: Given<J>>(hands: &mut Vec<Hand<J, G>>) -> bool
    ensures keeps { AllZip (IsHandOf J.Job G.given) G.given hands.old.items → AllZip (IsHandOf J.Job G.given) G.given hands.new.items }
    ensures ready { IsTrue result → AllZip (IsHandOf J.Job G.given) G.given hands.old.items → AllZip (IsReadyHandOf J.Job G.given) G.given hands.new.items }
{
    let mut is_ready = true;
    for at in 0..hands.len() {
        if !turn(&mut hands[at]) {
            is_ready = false;
        }
    }
    is_ready
}

/// Gives turns to the jobs that are here, round robin, until all of them have ended.
fn finish_all<R: Wait, J: Job, G: Given<J>>(rt: &R, hands: &mut Vec<Hand<J, G>>)
    requires { AllZip (IsHandOf J.Job G.given) G.given hands.old.items }
    ensures { AllZip (IsReadyHandOf J.Job G.given) G.given hands.new.items }
{
    for _ in rt.forever() {
        if round(hands) {
            return;
        }
    }
    unreachable!()
}

/// Starts a thread for each job, and brings to their end those for which none could be started.
pub(crate) fn run_all<'s, E, R: Threads + Wait + Clock + Sync, J: Job + Send, G: Given<J> + Send>(
    scope: &Scope<'s, E>,
    rt: &'s R,
    table: &'s Table<J, G>,
    hands: Vec<Hand<J, G>>,
    count: usize,
) -> Vec<Hand<J, G>>
where
    J: 's,
    G: 's,
    requires all { count ≡ length G.given }
    requires none { vec_len hands ≡ 0 }
    requires room { count ≤ vec_capacity hands }
    ensures { AllZip (IsReadyHandOf J.Job G.given) G.given result.items }
{
    let mut hands = start_all(scope, rt, table, hands, count);
    finish_all(rt, &mut hands);
    hands
}

/// Waits for all threads, and gathers the jobs.
pub(crate) fn join_all<R: Threads, J: Job, G: Given<J>>(
    rt: &R,
    hands: Vec<Hand<J, G>>,
    mut back: Vec<J>,
) -> Vec<J>
    requires hands { AllZip (IsReadyHandOf J.Job G.given) G.given hands.items }
    requires none { vec_len back ≡ 0 }
    requires room { length G.given ≤ vec_capacity back }
    ensures { AllZip (Finished J.Job) G.given result.items }
{
    for hand in hands {
        let Ok(()) = back.push(join(rt, hand)) else {
            unreachable!()
        };
    }
    back
}

ghost use Rattle.std.specs.Prelude.{◌≡◌, ◌≤◌, length, IfOk, vec_len, vec_capacity};
ghost use Rattle.std.specs.List.{AllZip};
ghost use Rattle.crew.specs.Counts.{rises};
ghost use Rattle.crew.specs.Turns.{Finished};
ghost use Rattle.crew.specs.Hands.{IsReadyHandOf};

use crate::given::Given;
use crate::hand::Hand;
use crate::hands::{join_all, run_all};
use crate::job::Job;
use crate::table::{Table, lay_out};
use crate::tally::total_turns;
use std::alloc::{AllocError, Global};
use std::marker::Brand;
use std::sync::Wait;
use std::thread;
use std::thread::Threads;
use std::time::Clock;

/// Runs each job to its end in a thread of its own, and answers how many turns they were given.
pub(crate) fn in_threads<R: Threads + Wait + Clock + Sync, J: Job + Send>(
    rt: &R,
    alloc: Global,
    jobs: Vec<J>,
) -> Result<(Vec<J>, u128), AllocError>
    ensures finished { IfOk result (λ done. AllZip (Finished J.Job) jobs.items done.0.items) }
    ensures rose { IfOk result (λ done. done.1 ≡ rises J.turns jobs.items done.0.items) }
{
    let before = total_turns(jobs.as_slice());
    let back = run_given::<R, J, Brand>(rt, alloc, jobs)?;
    let now = total_turns(back.as_slice());
    let rose = now - before;
    Ok((back, rose))
}

/// Runs the jobs that were given. All memory is taken before the first thread is started.
fn run_given<R: Threads + Wait + Clock + Sync, J: Job + Send, G: Given<J> + Send>(
    rt: &R,
    alloc: Global,
    jobs: Vec<J>,
) -> Result<Vec<J>, AllocError>
    requires { jobs.items ≡ G.given }
    ensures { IfOk result (λ back. AllZip (Finished J.Job) G.given back.items) }
{
    let count = jobs.len();
    let hands: Vec<Hand<J, G>> = Vec::with_capacity(alloc, count)?;
    let back: Vec<J> = Vec::with_capacity(alloc, count)?;
    let table: Table<J, G> = lay_out(alloc, jobs)?;
    let hands = run_in_scope(rt, &table, hands, count);
    Ok(join_all(rt, hands, back))
}

/// Runs the jobs on the table in threads of a scope of their own.
fn run_in_scope<R: Threads + Wait + Clock + Sync, J: Job + Send, G: Given<J> + Send>(
    rt: &R,
    table: &Table<J, G>,
    hands: Vec<Hand<J, G>>,
    count: usize,
) -> Vec<Hand<J, G>>
    requires all { count ≡ length G.given }
    requires none { vec_len hands ≡ 0 }
    requires room { count ≤ vec_capacity hands }
    ensures { AllZip (IsReadyHandOf J.Job G.given) G.given result.items }
{
    thread::scope(
        thread::scope_env(),
        rt,
        move |scope| -> Vec<Hand<J, G>>
            requires { (count ≡ length G.given) × (vec_len hands ≡ 0) × (count ≤ vec_capacity hands) }
            ensures { AllZip (IsReadyHandOf J.Job G.given) G.given result.items }
        { run_all(scope, rt, table, hands, count) },
    )
}

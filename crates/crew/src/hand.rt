ghost use Rattle.std.specs.Prelude.{◌≡◌, Some, slice_get, IsTrue};
ghost use Rattle.crew.specs.Turns.{Finished, FinishedAt};
ghost use Rattle.crew.specs.Hands.{IsHandOf, IsReady, IsReadyHandOf};

use crate::given::Given;
use crate::job::Job;
use crate::rest::rest;
use crate::table::{Table, take};
use std::marker::PhantomData;
use std::sync::Wait;
use std::thread::{Promise, PromisedHandle, Scope, Threads};
use std::time::Clock;

/// The promise that an ended job is handed back, to which the given one with this number has led.
#[derive(Drop)]
pub(crate) struct ToItsEnd<G> {
    at: usize,
    of: PhantomData<G>,
}

impl<J: Job, G: Given<J>> Promise<J> for ToItsEnd<G> {
    ghost kept_by = { λ promise later. FinishedAt J.Job G.given promise.at later };
}

/// Who has a job: a thread of its own, or the thread that gave it, which knows whether it has ended.
#[derive(Drop)]
pub(crate) enum Hand<J: Job, G: Given<J>> {
    There(PromisedHandle<J, ToItsEnd<G>>),
    Here { job: J, over: bool },
}

/// Gives the job turns until it has ended.
fn finish<R: Wait + Clock, J: Job>(rt: &R, mut job: J) -> J
    ensures { Finished J.Job job result }
{
    for _ in rt.forever() {
        if job.turn() {
            return job;
        }
        rest(rt, job.turns_in_vain());
    }
    unreachable!()
}

/// What a thread does with the job of this number.
fn work<R: Wait + Clock, J: Job, G: Given<J>>(rt: &R, table: &Table<J, G>, at: usize) -> J
    ensures { FinishedAt J.Job G.given at result }
{
    finish(rt, take(rt, table, at))
}

/// Starts a thread for the job of this number. Where none can be started, the job comes back.
pub(crate) fn start<'s, E, R: Threads + Wait + Clock + Sync, J: Job + Send, G: Given<J> + Send>(
    scope: &Scope<'s, E>,
    rt: &'s R,
    table: &'s Table<J, G>,
    at: usize,
) -> Hand<J, G>
where
    J: 's,
    G: 's,
    ensures { (job : J) → slice_get G.given at ≡ Some job → IsHandOf J.Job G.given job result }
{
    let promise = ToItsEnd {
        at,
        of: PhantomData,
    };
    match scope.spawn_with(promise, move || work(rt, table, at)) {
        Ok(handle) => Hand::There(handle),
        Err(_refused) => Hand::Here {
            job: take(rt, table, at),
            over: false,
        },
    }
}

/// Gives a job that is here a turn, unless it has ended. Whether it has, or is in a thread.
pub(crate) fn turn<J: Job, G: Given<J>>(hand: &mut Hand<J, G>) -> bool
    ensures keeps { (job : J) → IsHandOf J.Job G.given job hand.old → IsHandOf J.Job G.given job hand.new }
    ensures ready { IsTrue result → IsReady hand.new }
{
    match hand {
        Hand::There(_) => true,
        Hand::Here { job, over } => {
            if !*over {
                *over = job.turn();
            }
            *over
        }
    }
}

/// The job at its end, for which a thread is waited for.
pub(crate) fn join<R: Threads, J: Job, G: Given<J>>(rt: &R, hand: Hand<J, G>) -> J
    requires { IsReady hand }
    ensures { (job : J) → IsHandOf J.Job G.given job hand → Finished J.Job job result }
{
    match hand {
        Hand::There(handle) => handle.join(rt),
        Hand::Here { job, over: _ } => job,
    }
}

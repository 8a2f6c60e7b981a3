ghost use Rattle.std.specs.Prelude.{◌≡◌, ℕ, ◌≤◌, nat_le, nat_lt};
ghost use Rattle.std.proofs.Common.{rules};

use super::*;
use crate::hand::Hand;
use crate::hands::round;
use rr_base::List;
use std::alloc::Global;
use std::marker::Brand;
use std::process::Abort;
use std::sync::Wait;
use std::sync::atomic::AtomicU64;
use std::sync::atomic::Ordering::SeqCst;
use std::test::Fail;
use std::thread;
use std::thread::Threads;
use std::time::Clock;

/// A job of so many turns, which notes by a common clock when it got them, as the digits of a number to the base 16.
#[derive(Drop)]
struct Ticker<'a> {
    clock: &'a AtomicU64,
    length: u64,
    turns: u64,
    ticks: u64,
}

impl<'a> Job for Ticker<'a> {
    ghost ended = { λ job. nat_le job.length job.turns };

    ghost turns = { λ job. job.turns };

    ghost leads_to = { λ job later. job.turns ≤ later.turns };

    ghost reflexive = { λ job. Prim.search rules };

    ghost transitive = { λ first second third one two. Prim.search rules };

    fn turn(&mut self) -> bool {
        self.turns = self.turns.saturating_add(1);
        self.ticks = (self.ticks << 4) | (self.clock.fetch_add(1, SeqCst) & 15);
        self.length <= self.turns
    }

    fn turns(&self) -> u64 {
        self.turns
    }

    fn turns_in_vain(&self) -> u32 {
        0
    }
}

fn job_of(clock: &AtomicU64, length: u64) -> Ticker<'_> {
    Ticker {
        clock,
        length,
        turns: 0,
        ticks: 0,
    }
}

// Jobs of these lengths.
fn jobs_of<'a>(
    alloc: Global,
    clock: &'a AtomicU64,
    lengths: &[u64],
) -> Result<Vec<Ticker<'a>>, Fail> {
    let mut jobs = Vec::new(alloc);
    for length in lengths {
        jobs.push(job_of(clock, *length))?;
    }
    Ok(jobs)
}

// When each of two jobs of these lengths had its turns, or how the crew ended.
fn ticks_of(
    rt: &(impl Abort + Threads + Wait + Clock + Sync),
    alloc: Global,
    crew: &mut SchedCrew,
    lengths: &[u64],
) -> Result<Result<(u64, u64), CrewEnd>, Fail> {
    let clock = AtomicU64::new(1);
    let jobs = jobs_of(alloc, &clock, lengths)?;
    match crew.run(rt, alloc, jobs) {
        Ok(back) => {
            assert_eq!(rt; back.len(), 2);
            Ok(Ok((back[0].ticks, back[1].ticks)))
        }
        Err(end) => Ok(Err(end)),
    }
}

#[test]
fn turns_by_an_order(rt: HostRuntime) -> Result<(), Fail> {
    let alloc = rt.alloc();
    // The order, the turns at most, the lengths of two jobs, and when each of them then had its turns.
    let rows = [
        ([1, 1, 7, 0], 5, [2, 3], Ok((0x34, 0x125))),
        ([1, 1, 7, 0], 4, [2, 3], Err(CrewEnd::Failed)),
        ([0, 0, 0, 0], 2, [1, 1], Ok((0x1, 0x2))),
        ([0, 0, 0, 0], 1, [1, 1], Err(CrewEnd::Failed)),
        ([9, 9, 9, 9], 4, [1, 3], Ok((0x1, 0x234))),
        ([9, 9, 9, 9], 3, [1, 3], Err(CrewEnd::Failed)),
        ([1, 0, 1, 0], 9, [4, 3], Ok((0x2457, 0x136))),
        ([0, 1, 0, 1], 0, [1, 1], Err(CrewEnd::Failed)),
    ];
    for &(order, most, lengths, want) in &rows {
        let mut crew = SchedCrew::new(List::from_slice(alloc, &order)?, most);
        let found = ticks_of(&rt, alloc, &mut crew, &lengths)?;
        assert_eq!(rt; found, want, "at {most}");
        let counts = match want {
            Ok(_) => (0, 2, lengths[0].wrapping_add(lengths[1])),
            Err(_) => (1, 0, most),
        };
        assert_eq!(rt;
            (crew.faults(), crew.jobs_run(), crew.turns()),
            counts,
            "at {most}"
        );
    }
    Ok(())
}

/// The lengths of three jobs after a run, and how many turns each of them had.
fn run_three<R: Threads + Wait + Clock + Sync>(
    rt: &R,
    alloc: Global,
    crew: &mut ScopeCrew,
) -> Result<Vec<(u64, u64)>, Fail> {
    let clock = AtomicU64::new(1);
    let mut jobs = Vec::with_capacity(alloc, 3)?;
    for length in [5, 1, 1000] {
        jobs.push(job_of(&clock, length))?;
    }
    let back = crew.run(rt, alloc, jobs)?;
    let mut done = Vec::with_capacity(alloc, 3)?;
    for job in &back {
        done.push((job.length, job.turns))?;
    }
    Ok(done)
}

#[test]
fn a_thread_for_each_job(rt: HostRuntime) -> Result<(), Fail> {
    let alloc = rt.alloc();
    let mut crew = ScopeCrew::new();
    let want = [(5, 5), (1, 1), (1000, 1000)];
    let done = run_three(&rt, alloc, &mut crew)?;
    assert_eq!(rt; done.as_slice(), want.as_slice());
    assert_eq!(rt; (crew.jobs_run(), crew.turns()), (3, 1006));
    let again = run_three(&rt, alloc, &mut crew)?;
    assert_eq!(rt; again.as_slice(), want.as_slice());
    assert_eq!(rt; (crew.jobs_run(), crew.turns()), (6, 2012));
    Ok(())
}

#[test]
fn jobs_that_came_back(rt: HostRuntime) -> Result<(), Fail> {
    let clock = AtomicU64::new(1);
    let mut hands: Vec<Hand<Ticker<'_>, Brand>> = Vec::with_capacity(rt.alloc(), 2)?;
    for length in [1, 3] {
        let job = job_of(&clock, length);
        hands.push(Hand::Here { job, over: false })?;
    }
    assert!(rt; !round(&mut hands));
    assert!(rt; !round(&mut hands));
    assert!(rt; round(&mut hands));
    let mut ticks = Vec::with_capacity(rt.alloc(), 2)?;
    for hand in hands {
        if let Hand::Here { job, over } = hand {
            ticks.push((job.ticks, over))?;
        }
    }
    assert_eq!(rt; ticks.as_slice(), [(0x1, true), (0x234, true)].as_slice());
    Ok(())
}

/// A job of one turn, which raises its own flag and waits a while for the other's.
#[derive(Drop)]
struct Gate<'a> {
    own: &'a AtomicU64,
    other: &'a AtomicU64,
    turns: u64,
    saw: bool,
}

impl<'a> Job for Gate<'a> {
    ghost ended = { λ job. nat_lt 0 job.turns };

    ghost turns = { λ job. job.turns };

    ghost leads_to = { λ job later. job.turns ≤ later.turns };

    ghost reflexive = { λ job. Prim.search rules };

    ghost transitive = { λ first second third one two. Prim.search rules };

    fn turn(&mut self) -> bool {
        self.turns = self.turns.saturating_add(1);
        self.own.store(1, SeqCst);
        self.saw = sees(self.other);
        true
    }

    fn turns(&self) -> u64 {
        self.turns
    }

    fn turns_in_vain(&self) -> u32 {
        0
    }
}

/// Whether the flag is raised within ten million looks.
fn sees(flag: &AtomicU64) -> bool {
    for _ in 0..10_000_000 {
        if flag.load(SeqCst) == 1 {
            return true;
        }
        thread::yield_now();
    }
    false
}

#[test]
fn crew_gate(rt: HostRuntime) -> Result<(), Fail> {
    let alloc = rt.alloc();
    let (left, right) = (AtomicU64::new(0), AtomicU64::new(0));
    let mut jobs = Vec::with_capacity(alloc, 2)?;
    for (own, other) in [(&left, &right), (&right, &left)] {
        jobs.push(Gate {
            own,
            other,
            turns: 0,
            saw: false,
        })?;
    }
    let back = ScopeCrew::new().run(&rt, alloc, jobs)?;
    assert_eq!(rt; back.len(), 2);
    assert!(rt; back[0].saw && back[1].saw);
    Ok(())
}

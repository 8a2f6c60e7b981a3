ghost use Rattle.std.specs.Prelude.{◌≡◌, ◌++◌, ◌<◌, Some, slice_get, IfOk, IfSome};

use crate::given::Given;
use std::alloc::{AllocError, Global};
use std::marker::{Model, PhantomData};
use std::sync::{Mutex, Wait};
use std::thread;

/// A job that was given, with its number.
#[derive(Drop)]
pub(crate) struct Parcel<J, G: Given<J>> {
    at: usize,
    job: J,
    of: PhantomData<G>,
}

impl<J, G: Given<J>> Model for Parcel<J, G> {
    ghost use Rattle.std.specs.Prelude.{◌≡◌, ℕ, Some, slice_get};

    ghost Value = { ℕ × J };

    ghost view = { λ p. (p.at, p.job) };

    ghost invariant = { λ p. slice_get G.given p.at ≡ Some p.job };
}

impl<J, G: Given<J>> Parcel<J, G> {
    fn new(at: usize, job: J) -> Parcel<J, G>
        requires { slice_get G.given at ≡ Some job }
    {
        Parcel {
            at,
            job,
            of: PhantomData,
        }
    }

    fn number(&self) -> usize
        ensures { result ≡ self.now.0 }
    {
        self.at
    }

    fn into_job(self) -> J
        ensures { slice_get G.given self.0 ≡ Some result }
    {
        let Parcel { at: _, job, of: _ } = self;
        job
    }
}

/// Where the jobs lie until they are taken.
pub(crate) type Table<J, G> = Mutex<Vec<Parcel<J, G>>>;

/// Lays out the jobs that were given.
pub(crate) fn lay_out<J, G: Given<J>>(
    alloc: Global,
    jobs: Vec<J>,
) -> Result<Table<J, G>, AllocError>
where
    J: Drop,
    requires { jobs.items ≡ G.given }
{
    let mut parcels = Vec::with_capacity(alloc, jobs.len())?;
    for job in jobs {
        parcels.push(Parcel::new(parcels.len(), job))?;
    }
    Ok(Mutex::new(parcels))
}

/// The job with this number, if it is there.
fn find<J: Drop, G: Given<J>>(parcels: &mut Vec<Parcel<J, G>>, at: usize) -> Option<J>
    ensures { IfSome result (λ job. slice_get G.given at ≡ Some job) }
{
    for place in 0..parcels.len() {
        if parcels[place].number() == at {
            return Some(parcels.swap_remove(place).into_job());
        }
    }
    None
}

/// Takes the job with this number from the table, as soon as it is there.
pub(crate) fn take<R: Wait, J: Drop, G: Given<J>>(rt: &R, table: &Table<J, G>, at: usize) -> J
    ensures { slice_get G.given at ≡ Some result }
{
    for _ in rt.forever() {
        let found = find(&mut table.lock(rt), at);
        if let Some(job) = found {
            return job;
        }
        thread::yield_now();
    }
    unreachable!()
}

use crate::checks::{check, check_files, check_large};
use crate::race_tests::READERS;
use crate::tests::check_rows;
use samples::bank::BANK;
use samples::shelves::files_of;
use samples::sources::{COUNTER, HALVES, HELD_BY_CALLER, ONE_LINE};
use samples::weak_runs::WEAK_RUNS;
use std::alloc::Global;
use std::process::Abort;
use std::sync::Wait;
use std::test::Fail;
use std::thread::Threads;
use std::time::Clock;

// Two threads store an array, and the first of them every second element.
const STEPS: &str = "#include <pthread.h>
int v[8];
void *low(void *p) {
for (int i = 0; i < 4; i++)
v[i * 2 % 8] = i;
return NULL; }
void *high(void *p) {
for (int i = 4; i < 8; i++)
v[i] = i;
return NULL; }
int main(void) {
pthread_t a; pthread_t b;
pthread_create(&a, NULL, low, NULL);
pthread_create(&b, NULL, high, NULL);
pthread_join(a, NULL); pthread_join(b, NULL);
return 0; }
";

// A source, and the listing of its weak locks.
static LISTINGS: [(&str, &str, u8); 9] = [
    (BANK, "", 0),
    (
        COUNTER,
        "lock w0 x+0 stripes 1\naccess 5:9 load instruction 5:9\naccess 7:3 store instruction 7:3\naccess 14:16 load instruction 14:16\n",
        0,
    ),
    (READERS, "", 0),
    (
        ONE_LINE,
        "lock w0 x+0 stripes 1\naccess 5:3 store block 5:5\naccess 5:5 load block 5:5\naccess 12:16 load instruction 12:16\n",
        0,
    ),
    (
        HELD_BY_CALLER,
        "lock w0 x+0 stripes 1\naccess 4:18 store instruction 4:18\naccess 6:3 store instruction 6:3\n",
        0,
    ),
    (
        HALVES,
        "lock w0 v+0 stripes 8\naccess 5:6 store loop 4:1\naccess 9:6 store loop 8:1\n",
        0,
    ),
    (
        STEPS,
        "lock w0 v+0 stripes 8\naccess 5:14 store instruction 5:14\naccess 9:6 store loop 8:1\n",
        0,
    ),
    (
        "int main(void){switch(0){}}\n",
        "source refused 20 1 16\n",
        2,
    ),
    ("", "source refused 15 1 1\n", 2),
];

static WEAKEN: [&str; 2] = ["weaken", "a"];

fn check_listings(
    rt: &(impl Abort + Threads + Wait + Clock + Sync),
    alloc: Global,
) -> Result<(), Fail> {
    for &(source, text, status) in &LISTINGS {
        check_files(rt, alloc, &WEAKEN, &[source], &[], (text, status))?;
    }
    Ok(())
}

// A sink that fails after four bytes.
fn check_outside(
    rt: &(impl Abort + Threads + Wait + Clock + Sync),
    alloc: Global,
) -> Result<(), Fail> {
    let mut shelf = files_of(alloc, &[COUNTER], &[])?;
    check(rt, alloc, &WEAKEN, &[4], &mut shelf, ("lock", 8))
}

#[test]
fn walks_the_weak_locks(rt: HostRuntime) -> Result<(), Fail> {
    check_rows(&rt, rt.alloc(), &WEAK_RUNS)
}

#[test]
fn lists_the_weak_locks(rt: HostRuntime) -> Result<(), Fail> {
    check_listings(&rt, rt.alloc())?;
    check_large(&rt, rt.alloc(), &WEAKEN, &["weaken", "c"])?;
    check_outside(&rt, rt.alloc())
}

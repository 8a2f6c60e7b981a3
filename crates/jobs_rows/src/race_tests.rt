use crate::checks::{check, check_files, check_large};
use samples::bank::BANK;
use samples::shelves::files_of;
use samples::sources::{COUNTER, HELD_BY_CALLER, ONE_LINE};
use std::alloc::Global;
use std::process::Abort;
use std::sync::Wait;
use std::test::Fail;
use std::thread::Threads;
use std::time::Clock;

// Two threads and `main` load; nothing is stored after the start.
pub const READERS: &str = "#include <pthread.h>
#include <stdio.h>
int v[2] = {4, 5};
void *inc(void *p) {
return (void *)v[1];
}
int main(void) {
pthread_t a; pthread_t b;
pthread_create(&a, NULL, inc, NULL);
pthread_create(&b, NULL, inc, NULL);
pthread_join(a, NULL); pthread_join(b, NULL);
printf(\"%d\\n\", v[0]);
return 0; }
";

// Threads meet in an object of `malloc`.
const SHARED: &str = "#include <pthread.h>
int *p;
void *f(void *q) { *p = 1; return NULL; }
int main(void) {
pthread_t a; pthread_t b;
p = malloc(sizeof(int));
pthread_create(&a, NULL, f, NULL);
pthread_create(&b, NULL, f, NULL);
return 0; }
";

// A path through calls: the lock is taken by one function and given back by another, through a pointer that it changes.
const THROUGH_CALLS: &str = "pthread_mutex_t m;
int x;
int y;
void k(pthread_mutex_t *q) { pthread_mutex_lock(q); }
void u(pthread_mutex_t *q) { q = q + 0; pthread_mutex_unlock(q); }
void *c(void *p) { k(&m); x = 1; u(&m); y = 2; return NULL; }
int main(void) { pthread_t a; pthread_create(&a, NULL, c, NULL); return 0; }
";

// A formal is known by its name on the other side of a call, and of a choice, in the same arguments.
const AFTER_A_CALL: &str = "pthread_mutex_t m; int x;
int f(void) { return 1; }
void k(pthread_mutex_t *q, int n) { pthread_mutex_lock(q); }
void c(pthread_mutex_t *q) { k(q, f()); x = x + 1; pthread_mutex_unlock(q); }
void *r(void *p) { c(&m); return NULL; }
int main(void) { pthread_t a; pthread_t b; pthread_create(&a, NULL, r, NULL);
pthread_create(&b, NULL, r, NULL); return 0; }
";

const AFTER_A_CHOICE: &str = "pthread_mutex_t m; int x; int n;
void k(pthread_mutex_t *q, int n) { pthread_mutex_lock(q); }
void c(pthread_mutex_t *q) { k(q, n ? 1 : 2); x = x + 1; pthread_mutex_unlock(q); }
void *r(void *p) { c(&m); return NULL; }
int main(void) { pthread_t a; pthread_t b; pthread_create(&a, NULL, r, NULL);
pthread_create(&b, NULL, r, NULL); return 0; }
";

const ROWS: [(&str, &str, u8); 12] = [
    (BANK, "races 0\n", 0),
    (
        COUNTER,
        "race x+0 load 5:9 store 7:3\nrace x+0 store 7:3 store 7:3\nrace x+0 store 7:3 load 14:16\nraces 3\n",
        0,
    ),
    (READERS, "races 0\n", 0),
    (
        HELD_BY_CALLER,
        "race x+0 store 4:18 store 6:3\nrace x+0 store 6:3 store 6:3\nraces 2\n",
        0,
    ),
    (
        ONE_LINE,
        "race x+0 store 5:3 store 5:3\nrace x+0 store 5:3 load 5:5\nrace x+0 store 5:3 load 12:16\nraces 3\n",
        0,
    ),
    (
        SHARED,
        "race p+0 load 3:21 store 6:3\nrace malloc@6:5+0 store 3:23 store 3:23\nraces 2\n",
        0,
    ),
    (
        THROUGH_CALLS,
        "race y+0 store 6:43 store 6:43\nraces 1\n",
        0,
    ),
    (AFTER_A_CALL, "races 0\n", 0),
    (AFTER_A_CHOICE, "races 0\n", 0),
    ("int main(void){return y;}\n", "source refused 9 1 23\n", 2),
    (
        "int main(void){switch(0){}}\n",
        "source refused 20 1 16\n",
        2,
    ),
    ("", "source refused 15 1 1\n", 2),
];

static RACES: [&str; 2] = ["races", "a"];

fn check_rows(
    rt: &(impl Abort + Threads + Wait + Clock + Sync),
    alloc: Global,
) -> Result<(), Fail> {
    for (source, text, status) in ROWS {
        check_files(rt, alloc, &RACES, &[source], &[], (text, status))?;
    }
    Ok(())
}

// A sink that fails after four bytes.
fn check_outside(
    rt: &(impl Abort + Threads + Wait + Clock + Sync),
    alloc: Global,
) -> Result<(), Fail> {
    let mut shelf = files_of(alloc, &[BANK], &[])?;
    check(rt, alloc, &RACES, &[4], &mut shelf, ("race", 8))
}

#[test]
fn lists_the_races(rt: HostRuntime) -> Result<(), Fail> {
    check_rows(&rt, rt.alloc())?;
    check_large(&rt, rt.alloc(), &RACES, &["races", "c"])?;
    check_outside(&rt, rt.alloc())
}

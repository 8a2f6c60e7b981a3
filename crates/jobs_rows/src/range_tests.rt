use crate::checks::{check_files, check_in};
use samples::logs::{FIRST, SLOTS_3};
use samples::outside::SOUND;
use samples::shelves::{REPLAY, log_files};
use samples::weak_runs::{BEGIN, STARTS};
use std::alloc::Global;
use std::process::Abort;
use std::sync::Wait;
use std::test::Fail;
use std::thread::Threads;
use std::time::Clock;

const HEAD: &str = "#include <pthread.h>\nint v[8]; int u[8];\n";

// Two threads that run `f`.
const MAIN: &str = "int main(void) {
pthread_t a; pthread_t b;
pthread_create(&a, NULL, f, NULL);
pthread_create(&b, NULL, f, NULL);
pthread_join(a, NULL); pthread_join(b, NULL);
return 0; }
";

// What the threads run, from line 3 on, and the listing of its weak locks: loops in which no range is known.
static WITHOUT_RANGE: [(&str, &str); 6] = [
    // a counter that goes down
    (
        "void *f(void *p) {\nfor (int i = 3; i > 0; i--)\nv[i] = i;\nreturn NULL; }\n",
        "lock w0 v+0 stripes 1\naccess 5:6 store instruction 5:6\n",
    ),
    // a bound that changes in the body
    (
        "void *f(void *p) {\nint n = 8;\nfor (int i = 0; i < n; i++) {\nv[i] = i; n = 4; }\nreturn NULL; }\n",
        "lock w0 v+0 stripes 1\naccess 6:6 store instruction 6:6\n",
    ),
    // a call
    (
        "int one(void) { return 1; }\nvoid *f(void *p) {\nfor (int i = 0; i < 4; i++)\nv[i] = one();\nreturn NULL; }\n",
        "lock w0 v+0 stripes 1\naccess 6:6 store instruction 6:6\n",
    ),
    // a base that is assigned in the body
    (
        "void *f(void *p) {\nint *q = v;\nfor (int i = 0; i < 4; i++) {\nq[i] = i; q = v; }\nreturn NULL; }\n",
        "lock w0 v+0 stripes 1\naccess 6:6 store instruction 6:6\n",
    ),
    // the counter of the outer loop
    (
        "void *f(void *p) {\nfor (int i = 0; i < 4; i++)\nfor (int j = 0; j < 2; j++)\nv[i] = j;\nreturn NULL; }\n",
        "lock w0 v+0 stripes 1\naccess 6:6 store instruction 6:6\n",
    ),
    // the bound of the outer loop in the index of the inner one
    (
        "void *f(void *p) {\nint n = 2;\nfor (int i = 0; i < n; i++)\nfor (int j = 0; j < 2; j++)\nv[j + n] = j;\nreturn NULL; }\n",
        "lock w0 v+0 stripes 1\naccess 7:10 store instruction 7:10\n",
    ),
];

// Threads that take no stripe.
const NO_TURN: &str =
    "1 5 end s1\n0 10 join s1\n1 6 leave T\n2 0 begin s2\n2 5 end s2\n0 12 join s2\n0 13 halt H\n2 6 leave T\n";

const LOOP_AT_4: &str = "lock w0 v+0 stripes 8\naccess 5:6 store loop 4:1\n";

// What the threads run, the listing of its weak locks, a log in which one thread comes after the other, from the begin of the
// first on, and what is told of that log.
static RANGES: [(&str, &str, &[&str], &str, u8); 7] = [
    // after the counter: elements 0 to 2
    (
        "void *f(void *p) {\nfor (int i = 1; i < 4; i++)\nv[i - 1] = i;\nreturn NULL; }\n",
        "lock w0 v+0 stripes 8\naccess 5:10 store loop 4:1\n",
        &[
            "1 3 take w0.0\n1 3 take w0.1\n1 3 take w0.2\n1 10 give w0.0\n1 10 give w0.1\n1 10 give w0.2\n1 11 end s1\n0 10 join s1\n1 12 leave T\n",
            BEGIN,
            "2 3 take w0.0\n2 3 take w0.1\n2 3 take w0.2\n2 10 give w0.0\n2 10 give w0.1\n2 10 give w0.2\n2 11 end s2\n0 12 join s2\n0 13 halt H\n2 12 leave T\n",
        ],
        "",
        0,
    ),
    // two arrays
    (
        "void *f(void *p) {\nfor (int i = 0; i < 2; i++)\n{ v[i] = i; u[i] = i; }\nreturn NULL; }\n",
        "lock w0 v+0 stripes 8\nlock w1 u+0 stripes 8\naccess 5:8 store loop 4:1\naccess 5:18 store loop 4:1\n",
        &[
            "1 3 take w0.0\n1 3 take w0.1\n1 3 take w1.0\n1 3 take w1.1\n1 10 give w0.0\n1 10 give w0.1\n1 10 give w1.0\n1 10 give w1.1\n1 11 end s1\n0 10 join s1\n1 12 leave T\n",
            BEGIN,
            "2 3 take w0.0\n2 3 take w0.1\n2 3 take w1.0\n2 3 take w1.1\n2 10 give w0.0\n2 10 give w0.1\n2 10 give w1.0\n2 10 give w1.1\n2 11 end s2\n0 12 join s2\n0 13 halt H\n2 12 leave T\n",
        ],
        "",
        0,
    ),
    // steps of 3: all elements up to the bound
    (
        "void *f(void *p) {\nfor (int i = 5; i < 8; i += 3)\nv[i] = i;\nreturn NULL; }\n",
        LOOP_AT_4,
        &[
            "1 3 take w0.5\n1 3 take w0.6\n1 3 take w0.7\n1 6 give w0.5\n1 6 give w0.6\n1 6 give w0.7\n1 7 end s1\n0 10 join s1\n1 8 leave T\n",
            BEGIN,
            "2 3 take w0.5\n2 3 take w0.6\n2 3 take w0.7\n2 6 give w0.5\n2 6 give w0.6\n2 6 give w0.7\n2 7 end s2\n0 12 join s2\n0 13 halt H\n2 8 leave T\n",
        ],
        "",
        0,
    ),
    // a loop without turns
    (
        "void *f(void *p) {\nfor (int i = 4; i < 4; i++)\nv[i] = i;\nreturn NULL; }\n",
        LOOP_AT_4,
        &[NO_TURN],
        "",
        0,
    ),
    // a bound below the start
    (
        "void *f(void *p) {\nfor (int i = 4; i < 2; i++)\nv[i] = i;\nreturn NULL; }\n",
        LOOP_AT_4,
        &[NO_TURN],
        "",
        0,
    ),
    // a base that the caller gives
    (
        "void fill(int *q) {\nfor (int i = 0; i < 2; i++)\nq[i] = i; }\nvoid *f(void *p) {\nfill(v + 4);\nreturn NULL; }\n",
        LOOP_AT_4,
        &[
            "1 4 take w0.4\n1 4 take w0.5\n1 9 give w0.4\n1 9 give w0.5\n1 10 end s1\n0 10 join s1\n1 11 leave T\n",
            BEGIN,
            "2 4 take w0.4\n2 4 take w0.5\n2 9 give w0.4\n2 9 give w0.5\n2 10 end s2\n0 12 join s2\n0 13 halt H\n2 11 leave T\n",
        ],
        "",
        0,
    ),
    // an index that leaves the object
    (
        "void *f(void *p) {\nfor (int i = 6; i < 10; i++)\nv[i] = i;\nreturn NULL; }\n",
        LOOP_AT_4,
        &[
            BEGIN,
            "1 3 take w0.6\n1 3 take w0.7\n1 8 trap H\n0 10 stop H\n2 1 stop H\n",
        ],
        "trap 5 thread 1 line 5\n",
        3,
    ),
];

fn check_without_range(
    rt: &(impl Abort + Threads + Wait + Clock + Sync),
    alloc: Global,
) -> Result<(), Fail> {
    for &(body, listing) in &WITHOUT_RANGE {
        let source = [HEAD, body, MAIN];
        check_files(rt, alloc, &["weaken", "a"], &source, &[], (listing, 0))?;
    }
    Ok(())
}

fn check_range(
    rt: &(impl Abort + Threads + Wait + Clock + Sync),
    alloc: Global,
    body: &str,
    listing: &str,
    entries: &[&str],
    want: (&str, u8),
) -> Result<(), Fail> {
    let head = [FIRST, SLOTS_3, STARTS];
    let mut shelf = log_files(alloc, &[HEAD, body, MAIN], &head, entries)?;
    let weaken = ["weaken", "a"];
    check_in(rt, alloc, &weaken, &SOUND, &mut shelf, (listing, 0))?;
    check_in(rt, alloc, &REPLAY, &SOUND, &mut shelf, want)
}

fn check_ranges(
    rt: &(impl Abort + Threads + Wait + Clock + Sync),
    alloc: Global,
) -> Result<(), Fail> {
    for &(body, listing, entries, text, status) in &RANGES {
        check_range(rt, alloc, body, listing, entries, (text, status))?;
    }
    Ok(())
}

// The weak locks of loops, and the stripes that a thread takes where it enters one.
#[test]
fn takes_the_ranges_of_loops(rt: HostRuntime) -> Result<(), Fail> {
    check_without_range(&rt, rt.alloc())?;
    check_ranges(&rt, rt.alloc())
}

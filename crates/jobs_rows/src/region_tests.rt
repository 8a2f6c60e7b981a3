use crate::checks::check_in;
use crate::order_tests::ORDERS;
use samples::outside::{Outside, SOUND};
use samples::shelves::with_source;
use std::alloc::Global;
use std::process::Abort;
use std::sync::Wait;
use std::test::Fail;
use std::thread::Threads;
use std::time::Clock;

// Two threads that run `f`, and what `main` does after them.
const MAIN: &str = "int main(void) {
pthread_t a; pthread_t b;
pthread_create(&a, NULL, f, NULL);
pthread_create(&b, NULL, f, NULL);
pthread_join(a, NULL); pthread_join(b, NULL);
printf(\"%d %d\\n\", x, v[2] / d);
return 0; }
";

const HEAD: &str =
    "#include <pthread.h>\n#include <stdio.h>\nint x; int v[4]; int d = 1; pthread_mutex_t m;\n";

// What a thread does with regions open round it, where no two functions are at work at once; what is told, and the status.
static REGIONS: [(&str, &str, u8); 7] = [
    // a return out of two open regions
    (
        "void *f(void *p) {\nx = x + 1;\nfor (int i = 0; i < 4; i++) { v[i] = i; if (i == 2) return NULL; }\nreturn NULL; }\n",
        "2 2\n",
        0,
    ),
    // a break out of a loop in a region
    (
        "void *f(void *p) {\nx = x + 1;\nfor (int i = 0; i < 4; i++) { v[i] = x; if (i == 2) break; }\nx = x + 1;\nreturn NULL; }\n",
        "4 3\n",
        0,
    ),
    // the end of the thread in a function that is called in a region
    (
        "void last(void) { pthread_exit(NULL); }\nvoid *f(void *p) {\nx = x + 1;\nlast();\nreturn NULL; }\n",
        "2 0\n",
        0,
    ),
    // a trap in a region
    (
        "void *f(void *p) {\nx = x + 1;\nd = 0;\nreturn NULL; }\n",
        "trap 1 thread 0 line 13\n",
        3,
    ),
    // a call in a region
    (
        "int two(int n) { return 2 * n; }\nvoid *f(void *p) {\nx = two(x) + 1;\nv[2] = x;\nreturn NULL; }\n",
        "3 3\n",
        0,
    ),
    // operations on a mutex between two accesses of a region
    (
        "void *f(void *p) {\nx = x + 1;\npthread_mutex_lock(&m); pthread_mutex_unlock(&m);\nx = x + 1;\nv[2] = 7;\nreturn NULL; }\n",
        "4 7\n",
        0,
    ),
    // a region of a function that is called in a region of the same place
    (
        "void raise(void) { x = x + 1; }\nvoid *f(void *p) {\nx = x + 1;\nraise();\nv[2] = x;\nreturn NULL; }\n",
        "4 4\n",
        0,
    ),
];

static RECORD: [&str; 7] = ["record", "a", "l", "--slots", "3", "--profile", "b"];

fn check_order(
    rt: &(impl Abort + Threads + Wait + Clock + Sync),
    alloc: Global,
    body: &str,
    order: &[(u8, usize)],
    want: (&str, u8),
) -> Result<(), Fail> {
    let mut shelf = with_source(alloc, &[HEAD, body, MAIN])?;
    let outside = Outside { order, ..SOUND };
    check_in(rt, alloc, &RECORD, &outside, &mut shelf, want)?;
    let replay = ["replay", "a", "l"];
    check_in(rt, alloc, &replay, &outside, &mut shelf, want)
}

fn check_orders(
    rt: &(impl Abort + Threads + Wait + Clock + Sync),
    alloc: Global,
    body: &str,
    want: (&str, u8),
) -> Result<(), Fail> {
    for order in &ORDERS {
        check_order(rt, alloc, body, order, want)?;
    }
    Ok(())
}

// Each is recorded by some orders of turns, and told the same by its log.
#[test]
fn keeps_regions_by_any_order(rt: HostRuntime) -> Result<(), Fail> {
    for &(body, text, status) in &REGIONS {
        check_orders(&rt, rt.alloc(), body, (text, status))?;
    }
    Ok(())
}

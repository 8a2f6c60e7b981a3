// Two threads pay under a lock: the source, its log in parts, and that log with one thing changed.
use crate::logs::{FIRST, SLOTS_8};

/// Two threads pay under a lock, and `main` prints the sum.
pub const BANK: &str = "#include <pthread.h>
#include <stdio.h>
pthread_mutex_t m = PTHREAD_MUTEX_INITIALIZER;
int a = 100;
int b = 0;
void *pay(void *p) {
pthread_mutex_lock(&m);
a = a - 10;
b = b + 10;
pthread_mutex_unlock(&m);
return NULL; }
int main(void) {
pthread_t t; pthread_t u;
pthread_create(&t, NULL, pay, NULL);
pthread_create(&u, NULL, pay, NULL);
pthread_join(t, NULL); pthread_join(u, NULL);
pthread_mutex_lock(&m);
printf(\"%d\\n\", b);
pthread_mutex_unlock(&m);
return 0; }
";

/// The bank's entries at positions 0 to 3, 4, 5, 6, 7 to 23, and 24.
pub const STARTS: &str = "0 1 draw T\n0 4 start s1\n0 5 draw T\n0 8 start s2\n";

/// The first thread of the bank begins.
pub const BEGIN: &str = "1 0 begin s1\n";

/// It takes the lock.
pub const LOCK: &str = "1 3 lock m16\n";

/// It gives the lock back.
pub const UNLOCK: &str = "1 8 unlock m16\n";

/// What comes after it, but for the last entry.
pub const GOES_ON: &str =
    "1 10 end s1\n0 10 join s1\n1 11 leave T\n2 0 begin s2\n2 3 lock m16\n2 8 unlock m16\n\
2 10 end s2\n0 12 join s2\n0 13 lock m16\n0 15 print O\n0 16 unlock m16\n0 17 halt H\n2 11 leave T\n\
3 0 close s3\n4 0 close s4\n5 0 close s5\n6 0 close s6\n";

/// The last slot is closed.
pub const LAST: &str = "7 0 close s7\n";

/// A log of the bank, in parts.
pub const BANK_LOG: &[&str] = &[FIRST, SLOTS_8, STARTS, BEGIN, LOCK, UNLOCK, GOES_ON, LAST];

/// The bank's log with one thing changed, and what is told of it.
pub static CHANGES: [(&[&str], &str, u8); 13] = [
    (&[STARTS, BEGIN, LOCK, UNLOCK, GOES_ON, LAST], "20\n", 0),
    // exchanged
    (
        &[STARTS, BEGIN, UNLOCK, LOCK, GOES_ON, LAST],
        "wrong entry 5\n",
        5,
    ),
    (
        &[STARTS, "1 1 begin s1\n", UNLOCK, LOCK, GOES_ON, LAST],
        "wrong entry 4\n",
        5,
    ),
    // left out
    (&[STARTS, LOCK, UNLOCK, GOES_ON, LAST], "wrong entry 4\n", 5),
    (
        &[STARTS, BEGIN, UNLOCK, GOES_ON, LAST],
        "wrong entry 5\n",
        5,
    ),
    (&[STARTS, BEGIN, LOCK, GOES_ON, LAST], "wrong entry 6\n", 5),
    (
        &[STARTS, BEGIN, LOCK, UNLOCK, GOES_ON],
        "wrong entry 24\n",
        5,
    ),
    // doubled
    (
        &[STARTS, BEGIN, BEGIN, LOCK, UNLOCK, GOES_ON, LAST],
        "wrong entry 5\n",
        5,
    ),
    (
        &[STARTS, BEGIN, LOCK, LOCK, UNLOCK, GOES_ON, LAST],
        "wrong entry 6\n",
        5,
    ),
    // another count, thread and object
    (
        &[STARTS, BEGIN, "1 4 lock m16\n", UNLOCK, GOES_ON, LAST],
        "wrong entry 5\n",
        5,
    ),
    (
        &[STARTS, BEGIN, "1 2 lock m16\n", UNLOCK, GOES_ON, LAST],
        "wrong entry 5\n",
        5,
    ),
    (
        &[STARTS, BEGIN, "2 3 lock m16\n", UNLOCK, GOES_ON, LAST],
        "wrong entry 5\n",
        5,
    ),
    (
        &[STARTS, BEGIN, "1 3 lock m17\n", UNLOCK, GOES_ON, LAST],
        "wrong entry 5\n",
        5,
    ),
];

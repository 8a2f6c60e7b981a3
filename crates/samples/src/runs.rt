// Sources with logs of their runs, or of none.
use crate::bank::{BANK, BANK_LOG, BEGIN, GOES_ON, LAST, LOCK, STARTS, UNLOCK};
use crate::logs::{FIRST, INPUT_HI, SLOTS_1, SLOTS_2, SLOTS_3, SLOTS_8};
use crate::sources::{DIVIDES, ECHOES, HELD, MISUSE, NO_POINTER, NONE_LEFT, PASSES, WAITS};

const SUM: &str =
    "#include <stdio.h>\nint x;\nint main(void) { x = 1 + 2; printf(\"%d\\n\", x); return 0; }\n";

// The number that a cell held before it was freed.
const FREED: &str =
    "int main(void) { int *p = malloc(sizeof(int)); *p = 7; free(p); printf(\"%d\\n\", *p); return 0; }\n";

// A number goes through a thread as a pointer.
const THROUGH: &str = "#include <pthread.h>
#include <stdio.h>
void *f(void *p) { return p; }
int main(void) {
pthread_t t; void *r;
pthread_create(&t, NULL, f, (void *)(long)5);
pthread_join(t, &r);
printf(\"%ld\\n\", (long)r);
return 0; }
";

const OVERFLOWS: &str = "int main(void) { long x = 9223372036854775807; x = x + 1; return 0; }\n";

const LONE_BARRIER: &str =
    "int main(void) { pthread_barrier_t b; pthread_barrier_init(&b, NULL, 1); printf(\"%d\\n\", pthread_barrier_wait(&b)); return 0; }\n";

// A pointer is stored into a cell for a number.
const WRONG_KIND: &str =
    "int main(void) { long x = 1; int **p = (int **)&x; *p = NULL; return 0; }\n";

// Two threads return an element of an array as a pointer.
const ELEMENTS: &str = "#include <pthread.h>
#include <stdio.h>
int v[2] = {4, 5};
void *f(void *p) {
return (void *)v[1]; }
int main(void) {
pthread_t a; pthread_t b;
pthread_create(&a, NULL, f, NULL);
pthread_create(&b, NULL, f, NULL);
pthread_join(a, NULL); pthread_join(b, NULL);
printf(\"%d\\n\", v[0]);
return 0; }
";

// A function that calls itself 177 times.
const RECURSION: &str =
    "int fib(int n) { return n < 2 ? n : fib(n - 1) + fib(n - 2); }\nint main(void) { printf(\"%d\\n\", fib(10)); return 0; }\n";

const MEMBERS: &str =
    "struct p { int a; int *q; };\nstruct p v[3]; int x;\nint main(void) { struct p *s = v; s[1].a = 5; s[1].q = &x; *s[1].q = 7; (s + 1)->a += x; printf(\"%d\\n\", v[1].a); return 0; }\n";

// Two elements have values, and the others are 0.
const BRACES: &str =
    "int main(void) { int v[4] = {1, 2}; int s = 0; for (int i = 0; i < 4; i++) s += v[i]; printf(\"%d\\n\", s); return 0; }\n";

const LEAVES: &str =
    "int main(void) { int i = 0; int n = 0; do { i++; if (i == 2) continue; if (i == 5) break; n += i; } while (i < 10); printf(\"%d\\n\", n); return 0; }\n";

/// A source, the parts of a log, and what is told of them: the text and the status.
pub static RUNS: [(&str, &[&str], &str, u8); 14] = [
    (BANK, BANK_LOG, "20\n", 0),
    (
        BANK,
        &[FIRST, SLOTS_8, STARTS, BEGIN, UNLOCK, LOCK, GOES_ON, LAST],
        "wrong entry 5\n",
        5,
    ),
    (
        BANK,
        &[
            FIRST,
            SLOTS_8,
            STARTS,
            "1 1 begin s1\n",
            UNLOCK,
            LOCK,
            GOES_ON,
            LAST,
        ],
        "wrong entry 4\n",
        5,
    ),
    (BANK, &[FIRST], "log refused 23 2\n", 4),
    (
        BANK,
        &[FIRST, SLOTS_8, STARTS, BEGIN, LOCK, "1 8 unl"],
        "log refused 23 14\n",
        4,
    ),
    (
        BANK,
        &[FIRST, SLOTS_8, STARTS, BEGIN, LOCK, UNLOCK, GOES_ON],
        "wrong entry 24\n",
        5,
    ),
    (BANK, &[FIRST, SLOTS_8], "wrong entry 0\n", 5),
    (
        MISUSE,
        &[FIRST, SLOTS_1, "0 1 unlock m2\n0 2 trap H\n"],
        "trap 9 thread 0 line 2\n",
        3,
    ),
    (
        HELD,
        &[
            FIRST,
            SLOTS_2,
            "0 1 lock m4\n0 2 draw T\n0 5 start s1\n1 0 begin s1\n1 3 take w0.0\n1 4 trap H\n0 7 stop H\n",
        ],
        "trap 2 thread 1 line 5\n",
        3,
    ),
    (
        SUM,
        &[FIRST, SLOTS_1, "0 3 print O\n0 4 halt H\n"],
        "3\n",
        0,
    ),
    (
        SUM,
        &[FIRST, SLOTS_1, "0 3 print O\n"],
        "wrong entry 1\n",
        5,
    ),
    (
        FREED,
        &[FIRST, SLOTS_1, "0 3 print O\n0 4 halt H\n"],
        "7\n",
        0,
    ),
    (
        THROUGH,
        &[
            FIRST,
            SLOTS_2,
            "0 1 draw T\n0 4 start s1\n1 0 begin s1\n1 4 end s1\n0 6 join s1\n0 10 print O\n0 11 halt H\n1 5 leave T\n",
        ],
        "5\n",
        0,
    ),
    (
        NO_POINTER,
        &[FIRST, SLOTS_1, "0 1 trap H\n"],
        "trap 13 thread 0 line 2\n",
        3,
    ),
];

/// The same, in a table of its own, since the proof of a function grows with the rows of each table that it names.
pub static MORE_RUNS: [(&str, &[&str], &str, u8); 14] = [
    (
        DIVIDES,
        &[
            FIRST,
            SLOTS_2,
            "0 1 lock m4\n0 2 draw T\n0 5 start s1\n1 0 begin s1\n1 3 trap H\n0 7 stop H\n",
        ],
        "trap 1 thread 1 line 5\n",
        3,
    ),
    (
        NONE_LEFT,
        &[
            FIRST,
            SLOTS_2,
            "0 1 draw T\n0 4 start s1\n1 0 begin s1\n1 4 end s1\n1 5 leave T\n0 5 draw T\n0 6 print O\n0 7 halt H\n",
        ],
        "11\n",
        0,
    ),
    (
        OVERFLOWS,
        &[FIRST, SLOTS_1, "0 1 trap H\n"],
        "trap 2 thread 0 line 1\n",
        3,
    ),
    (
        ECHOES,
        &[
            FIRST,
            INPUT_HI,
            "0 1 getchar I\n0 3 print O\n0 4 getchar I\n0 6 print O\n0 7 getchar I\n0 9 halt H\n",
        ],
        "hi",
        0,
    ),
    (
        WAITS,
        &[
            FIRST,
            SLOTS_3,
            "0 1 draw T\n0 4 start s1\n0 5 draw T\n0 8 start s2\n1 0 begin s1\n1 3 lock m6\n1 6 center c7\n1 7 unlock m6\n2 0 begin s2\n2 3 lock m6\n2 6 center c7\n2 7 unlock m6\n0 9 lock m6\n0 12 unlock m6\n0 13 signal c7\n0 14 lock m6\n0 17 unlock m6\n0 18 signal c7\n1 8 cwake c7\n1 9 lock m6\n1 12 unlock m6\n1 14 end s1\n2 8 cwake c7\n2 9 lock m6\n2 12 unlock m6\n2 14 end s2\n0 20 join s1\n1 15 leave T\n0 22 join s2\n2 15 leave T\n0 23 lock m6\n0 25 print O\n0 26 unlock m6\n0 27 halt H\n",
        ],
        "2\n",
        0,
    ),
    (
        PASSES,
        &[
            FIRST,
            SLOTS_3,
            "0 1 binit b7\n0 2 draw T\n0 5 start s1\n0 6 draw T\n0 9 start s2\n0 11 arrive b7\n1 0 begin s1\n1 4 arrive b7\n2 0 begin s2\n2 4 arrive b7\n2 5 lock m6\n2 8 unlock m6\n0 12 pass b7\n1 5 pass b7\n0 14 arrive b7\n1 7 arrive b7\n2 10 arrive b7\n2 11 lock m6\n2 14 unlock m6\n0 15 pass b7\n1 8 pass b7\n1 10 end s1\n0 17 join s1\n1 11 leave T\n2 16 end s2\n0 19 join s2\n2 17 leave T\n0 20 lock m6\n0 22 print O\n0 23 unlock m6\n0 24 halt H\n",
        ],
        "2\n",
        0,
    ),
    (
        LONE_BARRIER,
        &[
            FIRST,
            SLOTS_1,
            "0 1 binit b2\n0 2 arrive b2\n0 3 print O\n0 4 halt H\n",
        ],
        "-1\n",
        0,
    ),
    (
        WRONG_KIND,
        &[FIRST, SLOTS_1, "0 2 trap H\n"],
        "trap 6 thread 0 line 1\n",
        3,
    ),
    (
        ELEMENTS,
        &[
            FIRST,
            SLOTS_3,
            "0 1 draw T\n0 4 start s1\n0 5 draw T\n0 8 start s2\n1 0 begin s1\n1 5 end s1\n0 10 join s1\n1 6 leave T\n2 0 begin s2\n2 5 end s2\n0 12 join s2\n2 6 leave T\n0 14 print O\n0 15 halt H\n",
        ],
        "4\n",
        0,
    ),
    (
        RECURSION,
        &[FIRST, SLOTS_1, "0 178 print O\n0 179 halt H\n"],
        "55\n",
        0,
    ),
    (
        MEMBERS,
        &[FIRST, SLOTS_1, "0 9 print O\n0 10 halt H\n"],
        "12\n",
        0,
    ),
    (
        BRACES,
        &[FIRST, SLOTS_1, "0 14 print O\n0 15 halt H\n"],
        "3\n",
        0,
    ),
    (
        LEAVES,
        &[FIRST, SLOTS_1, "0 6 print O\n0 7 halt H\n"],
        "8\n",
        0,
    ),
    (
        BRACES,
        &[FIRST, SLOTS_1, "0 15 halt H\n"],
        "wrong entry 0\n",
        5,
    ),
];

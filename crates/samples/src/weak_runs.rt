// Logs in which weak locks are taken, given, revoked and taken again.
use crate::logs::{FIRST, RECORDED, SLOTS_3};
use crate::sources::{COUNTER, HALVES, HELD_BY_CALLER, ONE_LINE};

/// The entries of `main` up to the begin of both threads, in sources that start two of them and join them.
pub const STARTS: &str = "0 1 draw T\n0 4 start s1\n0 5 draw T\n0 8 start s2\n1 0 begin s1\n";

/// The second thread begins.
pub const BEGIN: &str = "2 0 begin s2\n";

/// Each thread of the counter loads it, and then stores it.
pub const LOAD_1: &str = "1 3 take w0.0\n1 4 give w0.0\n";

/// The first thread stores the counter under its weak lock.
pub const STORE_1: &str = "1 4 take w0.0\n1 5 give w0.0\n";

/// The second thread loads it.
pub const LOAD_2: &str = "2 3 take w0.0\n2 4 give w0.0\n";

/// The second thread stores it.
pub const STORE_2: &str = "2 4 take w0.0\n2 5 give w0.0\n";

/// The first thread ends and is joined.
pub const JOIN_1: &str = "1 6 end s1\n0 10 join s1\n1 7 leave T\n";

/// The second thread ends and is joined.
pub const END_2: &str = "2 6 end s2\n0 12 join s2\n";

/// `main` prints the counter, and the program halts.
pub const PRINT: &str = "0 13 take w0.0\n0 14 give w0.0\n0 14 print O\n0 15 halt H\n2 7 leave T\n";

/// No two functions are at work at once.
pub const NO_PAIRS: &str = "slots 3\ncells 16384\nlimit 16777216\nprofile 0\ninput 0\n\n";

const ONE_PAIR: &str = "slots 3\ncells 16384\nlimit 16777216\nprofile 1\npair f h\ninput 0\n\n";

/// The lock is revoked while the first thread holds it; the second stores, and the first takes it again.
pub const REVOKED: &str =
    "1 3 take w0.0\n1 4 revoke w0.0\n2 0 begin s2\n2 3 lock m6\n2 5 take w0.0\n2 6 give w0.0\n2 6 unlock m6\n1 4 lock m6\n1 5 unlock m6\n1 6 retake w0.0\n1 6 give w0.0\n1 7 end s1\n0 10 join s1\n1 8 leave T\n2 8 end s2\n0 12 join s2\n0 13 halt H\n2 9 leave T\n";

/// A source, a log of it, and what is told.
pub static WEAK_RUNS: [(&str, &[&str], &str, u8); 13] = [
    (
        COUNTER,
        &[
            FIRST, SLOTS_3, STARTS, LOAD_1, BEGIN, LOAD_2, STORE_1, JOIN_1, STORE_2, END_2, PRINT,
        ],
        "1\n",
        0,
    ),
    (
        COUNTER,
        &[
            FIRST, SLOTS_3, STARTS, LOAD_1, STORE_1, BEGIN, LOAD_2, STORE_2, JOIN_1, END_2, PRINT,
        ],
        "2\n",
        0,
    ),
    // The stripe is still held.
    (
        COUNTER,
        &[
            FIRST,
            SLOTS_3,
            STARTS,
            "1 3 take w0.0\n",
            BEGIN,
            LOAD_2,
            "1 4 give w0.0\n",
            STORE_1,
            JOIN_1,
            STORE_2,
            END_2,
            PRINT,
        ],
        "wrong entry 7\n",
        5,
    ),
    // A log of the code without weak locks.
    (
        COUNTER,
        &[
            FIRST,
            SLOTS_3,
            STARTS,
            BEGIN,
            JOIN_1,
            END_2,
            "0 14 print O\n0 15 halt H\n2 7 leave T\n",
        ],
        "wrong entry 6\n",
        5,
    ),
    (
        ONE_LINE,
        &[
            FIRST,
            SLOTS_3,
            STARTS,
            "1 3 take w0.0\n1 5 give w0.0\n1 6 end s1\n2 0 begin s2\n2 3 take w0.0\n2 5 give w0.0\n2 6 end s2\n0 10 join s1\n0 12 join s2\n0 13 take w0.0\n0 14 give w0.0\n0 14 print O\n0 15 halt H\n1 7 leave T\n2 7 leave T\n",
        ],
        "2\n",
        0,
    ),
    (HELD_BY_CALLER, &[FIRST, NO_PAIRS, STARTS, REVOKED], "", 0),
    // There each access is guarded alone, so what is revoked is taken again at once.
    (
        HELD_BY_CALLER,
        &[FIRST, SLOTS_3, STARTS, REVOKED],
        "wrong entry 12\n",
        5,
    ),
    (
        HELD_BY_CALLER,
        &[FIRST, ONE_PAIR, STARTS, REVOKED],
        "wrong entry 12\n",
        5,
    ),
    // Each half of the array has stripes of its own.
    (
        HALVES,
        &[
            FIRST,
            SLOTS_3,
            STARTS,
            "1 3 take w0.0\n1 3 take w0.1\n1 3 take w0.2\n1 3 take w0.3\n2 0 begin s2\n2 3 take w0.4\n2 3 take w0.5\n2 3 take w0.6\n2 3 take w0.7\n1 12 give w0.0\n1 12 give w0.1\n1 12 give w0.2\n1 12 give w0.3\n1 13 end s1\n0 10 join s1\n1 14 leave T\n2 12 give w0.4\n2 12 give w0.5\n2 12 give w0.6\n2 12 give w0.7\n2 13 end s2\n0 12 join s2\n0 13 halt H\n2 14 leave T\n",
        ],
        "",
        0,
    ),
    // The same where what neighbouring stripes have in common stands in one line.
    (
        HALVES,
        &[
            RECORDED,
            SLOTS_3,
            STARTS,
            "1 3 take w0.0-3\n2 0 begin s2\n2 3 take w0.4-7\n1 12 give w0.0-3\n1 13 end s1\n0 10 join s1\n1 14 leave T\n2 12 give w0.4-7\n2 13 end s2\n0 12 join s2\n0 13 halt H\n2 14 leave T\n",
        ],
        "",
        0,
    ),
    (
        HALVES,
        &[RECORDED, SLOTS_3, STARTS, "1 3 take w0.0\n1 3 take w0.1\n"],
        "log refused 23 14\n",
        4,
    ),
    (
        HALVES,
        &[RECORDED, SLOTS_3, STARTS, "1 3 take w0.3-3\n"],
        "log refused 23 13\n",
        4,
    ),
    (
        HALVES,
        &[RECORDED, SLOTS_3, STARTS, "1 3 take w0.0-8\n"],
        "log refused 24 13\n",
        4,
    ),
];

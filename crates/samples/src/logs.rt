// The heads of logs, and the entries of the shortest run.

/// The first line of a log of version 1.
pub const FIRST: &str = "chimera log 1\n";

/// The first line of a log that is recorded.
pub const RECORDED: &str = "chimera log 2\n";

/// The head of a log with one slot, and so for the other numbers.
pub const SLOTS_1: &str = "slots 1\ncells 16384\nlimit 16777216\nprofile all\ninput 0\n\n";

/// Two slots.
pub const SLOTS_2: &str = "slots 2\ncells 16384\nlimit 16777216\nprofile all\ninput 0\n\n";

/// Three slots.
pub const SLOTS_3: &str = "slots 3\ncells 16384\nlimit 16777216\nprofile all\ninput 0\n\n";

/// Eight slots.
pub const SLOTS_8: &str = "slots 8\ncells 16384\nlimit 16777216\nprofile all\ninput 0\n\n";

/// One thread reads these two bytes.
pub const INPUT_HI: &str = "slots 1\ncells 16384\nlimit 16777216\nprofile all\ninput 2\n6869\n";

/// The entries of a program of one thread that only ends.
pub const IDLE: &str =
    "0 1 halt H\n1 0 close s1\n2 0 close s2\n3 0 close s3\n4 0 close s4\n5 0 close s5\n6 0 close s6\n7 0 close s7\n";

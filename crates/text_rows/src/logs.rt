use order_log::{Log, LogFault, fits_version_1, is_name, read_log, write_log, write_log_1};
use rr_base::{Bytes, List};
use std::alloc::{AllocError, Global};
use std::test::Fail;

const START: &[u8] = b"chimera log 1\nslots 8\ncells 16384\nlimit 16777216\n";

const START_2: &[u8] =
    b"chimera log 2\nslots 8\ncells 16384\nlimit 16777216\nprofile all\ninput 0\n\n";

const BANK: &[u8] =
    b"chimera log 1\nslots 8\ncells 16384\nlimit 16777216\nprofile all\ninput 0\n\n0 1 draw T\n0 4 start s1\n0 5 draw T\n0 8 start s2\n1 0 begin s1\n1 3 lock m16\n1 8 unlock m16\n1 10 end s1\n0 10 join s1\n1 11 leave T\n2 0 begin s2\n2 3 lock m16\n2 8 unlock m16\n2 10 end s2\n0 12 join s2\n0 13 lock m16\n0 15 print O\n0 16 unlock m16\n0 17 halt H\n2 11 leave T\n3 0 close s3\n4 0 close s4\n5 0 close s5\n6 0 close s6\n7 0 close s7\n";

const LOCKS: &[u8] = b"0 1 rwinit r4\n1 3 rdlock r4\n1 5 rwunlock r4\n0 5 wrlock r4194303\n";

/// What reading answers: so many entries, or the fault's line.
#[derive(Clone, Copy, Debug, PartialEq, Eq)]
enum Answer {
    Read(usize),
    Syntax(u32),
    Limit(u32),
    Memory,
}

// What follows the start of a log, with what reading answers.
static RESTS: [(&[u8], Answer); 46] = [
    (
        b"profile all\ninput 0\n\n0 1 halt H\n1 0 close s1\n",
        Answer::Read(2),
    ),
    (b"profile all\ninput 0\n\n0 01 halt H\n", Answer::Syntax(8)),
    (
        b"profile all\ninput 0\n\n1 3 rdlock r4\n",
        Answer::Syntax(8),
    ),
    (b"profile all\ninput 0\n\n00 1 halt H\n", Answer::Syntax(8)),
    (b"profile all\ninput 0\n\n8 0 close s7\n", Answer::Limit(8)),
    (b"profile all\ninput 0\n\n0 0 close s8\n", Answer::Limit(8)),
    (b"profile all\ninput 1\n6a\n", Answer::Read(0)),
    (b"profile all\ninput 1\n6A\n", Answer::Syntax(7)),
    (b"profile all\ninput 2\n6a\n", Answer::Syntax(7)),
    (b"profile all\ninput 1\n6a6a\n", Answer::Syntax(7)),
    (b"profile all\ninput 1048577\n", Answer::Limit(6)),
    (b"profile 0\ninput 0\n\n", Answer::Read(0)),
    (
        b"profile 2\npair f f\npair f main\ninput 0\n\n",
        Answer::Read(0),
    ),
    (b"profile 1\npair if while\ninput 0\n\n", Answer::Read(0)),
    (b"profile 2\npair f g\ninput 0\n\n", Answer::Syntax(7)),
    (
        b"profile 2\npair f h\npair f g\ninput 0\n\n",
        Answer::Syntax(7),
    ),
    (
        b"profile 2\npair f g\npair f g\ninput 0\n\n",
        Answer::Syntax(7),
    ),
    (b"profile 1\npair g f\ninput 0\n\n", Answer::Syntax(6)),
    (b"profile 1\npair 1 f\ninput 0\n\n", Answer::Syntax(6)),
    (b"profile 99999999999999999999999\n", Answer::Syntax(6)),
    (b"profile 01\n", Answer::Syntax(5)),
    (
        b"profile all\ninput 0\n\n0 1 lock w0.0\n",
        Answer::Syntax(8),
    ),
    (b"profile all\ninput 0\n\n0 1 take w0.8\n", Answer::Limit(8)),
    (
        b"profile all\ninput 0\n\n0 1 take w65471.7\n",
        Answer::Read(1),
    ),
    (
        b"profile all\ninput 0\n\n0 1 take w65472.0\n",
        Answer::Limit(8),
    ),
    (b"profile all\ninput 0\n\n0 1 take w0\n", Answer::Syntax(8)),
    (
        b"profile all\ninput 0\n\n0 1 lock m4194303\n",
        Answer::Read(1),
    ),
    (
        b"profile all\ninput 0\n\n0 1 lock m4194304\n",
        Answer::Limit(8),
    ),
    (
        b"profile all\ninput 0\n\n0 16777216 draw T\n",
        Answer::Read(1),
    ),
    (
        b"profile all\ninput 0\n\n0 16777217 draw T\n",
        Answer::Limit(8),
    ),
    (
        b"profile all\ninput 0\n\n0 16777217 halt H\n",
        Answer::Read(1),
    ),
    (
        b"profile all\ninput 0\n\n0 16777218 halt H\n",
        Answer::Limit(8),
    ),
    (
        b"profile all\ninput 0\n\n0 99999999999999999999999 halt H\n",
        Answer::Limit(8),
    ),
    (
        b"profile all\ninput 0\n\n0 99999999999999999999999 halt T\n",
        Answer::Syntax(8),
    ),
    (b"profile all\ninput 0\n\n0  1 halt H\n", Answer::Syntax(8)),
    (b"profile all\ninput 0\n\n0 1 halt H\r\n", Answer::Syntax(8)),
    (b"profile all\ninput 0\n\n0 1 halt H \n", Answer::Syntax(8)),
    (b"profile all\ninput 0\n\n0 1 halt H", Answer::Syntax(8)),
    (b"profile all\ninput 0\n\n0 1 halt H\n\n", Answer::Syntax(9)),
    (
        b"profile all\ninput 0\n\n0 1 take w0.0-3\n",
        Answer::Syntax(8),
    ),
    (b"profile all\ninput 0\n", Answer::Syntax(7)),
    (b"profile some\n", Answer::Syntax(5)),
    (
        b"profile all\ninput 0\n\n0 1 end s0\n0 1 leave T\n0 1 halt H\n0 1 trap H\n0 1 stop H\n0 1 close s0\n",
        Answer::Read(6),
    ),
    (
        b"profile all\ninput 0\n\n0 1 end s0\n0 1 leave T\n0 1 halt H\n0 1 trap H\n0 1 stop H\n0 1 close s0\n0 1 end s0\n",
        Answer::Limit(14),
    ),
    (
        b"profile all\ninput 0\n\n9 1 halt H\n0 01 halt H\n",
        Answer::Limit(8),
    ),
    (
        b"profile all\ninput 0\n\n0 01 halt H\n9 1 halt H\n",
        Answer::Syntax(8),
    ),
];

// Texts that are refused in the start of a log, with what reading answers.
static HEADS: [(&[u8], Answer); 13] = [
    (b"", Answer::Syntax(1)),
    (b"\n", Answer::Syntax(1)),
    (b"chimera log 1", Answer::Syntax(1)),
    (b"chimera log 1\r\n", Answer::Syntax(1)),
    (b"chimera log 3\nslots 8\n", Answer::Syntax(1)),
    (b"chimera log 2\nslots 8\n", Answer::Syntax(3)),
    (b"chimera log 1\n", Answer::Syntax(2)),
    (b"chimera log 1\nslots 17\nnothing\n", Answer::Limit(2)),
    (b"chimera log 1\nslots 0\n", Answer::Limit(2)),
    (b"chimera log 1\nslots 08\n", Answer::Syntax(2)),
    (b"chimera log 1\nslots 17 \n", Answer::Syntax(2)),
    (b"chimera log 1\nslots 8\ncells 1023\n", Answer::Limit(3)),
    (
        b"chimera log 1\nslots 8\ncells 1024\nlimit 67108865\n",
        Answer::Limit(4),
    ),
];

// Entries of a log of version 2, of which the first stands in line 8, with what reading answers.
static LINES: [(&[u8], Answer); 26] = [
    (b"1 3 take w0.0-3\n1 12 give w0.0-3\n", Answer::Read(8)),
    (b"1 3 take w0.0\n1 3 take w0.1\n", Answer::Syntax(9)),
    (b"1 3 take w0.0-1\n1 3 take w0.2-3\n", Answer::Syntax(9)),
    (b"1 3 take w0.3-3\n", Answer::Syntax(8)),
    (b"1 3 take w0.300-280\n", Answer::Syntax(8)),
    (b"1 3 take w0.0-03\n", Answer::Syntax(8)),
    (b"1 3 take w0.0-3-5\n", Answer::Syntax(8)),
    (b"1 3 take w0.0-8\n", Answer::Limit(8)),
    (b"9 3 take w0.0-1\n", Answer::Limit(8)),
    // numbers that no type holds
    (b"1 3 take w0.0-99999999999999999999999\n", Answer::Limit(8)),
    (
        b"1 3 take w0.99999999999999999999998-99999999999999999999999\n",
        Answer::Limit(8),
    ),
    (
        b"1 3 take w0.99999999999999999999999-99999999999999999999998\n",
        Answer::Syntax(8),
    ),
    // what shares no line
    (b"1 3 take w0.0-1\n1 3 take w0.3\n", Answer::Read(3)),
    (b"1 3 take w0.0-1\n1 3 take w1.2\n", Answer::Read(3)),
    (b"1 3 take w0.0\n1 4 take w0.1\n", Answer::Read(2)),
    (b"1 3 take w0.0\n2 3 take w0.1\n", Answer::Read(2)),
    (b"1 3 take w0.0\n1 3 give w0.1\n", Answer::Read(2)),
    (b"1 3 take w0.1\n1 3 take w0.0\n", Answer::Read(2)),
    (b"1 3 retake w0.0\n1 3 retake w0.1\n", Answer::Read(2)),
    (b"1 3 retake w0.0-1\n", Answer::Syntax(8)),
    (b"1 3 revoke w0.0-1\n", Answer::Syntax(8)),
    (b"1 3 lock m0-1\n", Answer::Syntax(8)),
    // read-write locks
    (LOCKS, Answer::Read(4)),
    (b"1 3 rdlock r4194304\n", Answer::Limit(8)),
    (b"1 3 rdlock m4\n", Answer::Syntax(8)),
    (b"1 3 lock r4\n", Answer::Syntax(8)),
];

fn answer_to(alloc: Global, bytes: &[u8]) -> Answer {
    match read_log(alloc, bytes) {
        Ok(log) => Answer::Read(log.entries().len()),
        Err(LogFault::LogSyntax(line)) => Answer::Syntax(line),
        Err(LogFault::LogLimit(line)) => Answer::Limit(line),
        Err(LogFault::OutOfMemory) => Answer::Memory,
    }
}

fn joined(alloc: Global, start: &[u8], rest: &[u8]) -> Result<Vec<u8>, AllocError> {
    let mut text = Vec::from_slice(alloc, start)?;
    text.extend_from_slice(rest)?;
    Ok(text)
}

fn past_start(alloc: Global, rest: &[u8]) -> Result<Vec<u8>, AllocError> {
    joined(alloc, START, rest)
}

#[test]
fn answers_each_rest(rt: HostRuntime) -> Result<(), Fail> {
    for (rest, want) in RESTS {
        let text = past_start(rt.alloc(), rest)?;
        assert_eq!(rt; answer_to(rt.alloc(), text.as_slice()), want, "{rest:?}");
    }
    Ok(())
}

#[test]
fn answers_each_line(rt: HostRuntime) -> Result<(), Fail> {
    for (lines, want) in LINES {
        let text = joined(rt.alloc(), START_2, lines)?;
        assert_eq!(rt; answer_to(rt.alloc(), text.as_slice()), want, "{lines:?}");
    }
    Ok(())
}

#[test]
fn answers_each_head(rt: HostRuntime) {
    for (text, want) in HEADS {
        assert_eq!(rt; answer_to(rt.alloc(), text), want, "{text:?}");
    }
}

/// Each front of a log is refused at its first line that isn't whole, but where it ends with the head or an entry.
#[test]
fn answers_each_prefix(rt: HostRuntime) -> Result<(), Fail> {
    let mut lines: u32 = 0;
    let mut whole = true;
    for (len, byte) in BANK.iter().enumerate() {
        assert!(rt; lines < 100);
        let want = if whole && lines >= 7 {
            Answer::Read(lines as usize - 7)
        } else {
            Answer::Syntax(lines + 1)
        };
        assert_eq!(rt; answer_to(rt.alloc(), &BANK[..len]), want, "{len} bytes");
        whole = *byte == b'\n';
        if whole {
            lines += 1;
        }
    }
    assert_eq!(rt; answer_to(rt.alloc(), BANK), Answer::Read(25));
    Ok(())
}

// Nothing where version 1 can't say the log.
fn in_version_1(alloc: Global, log: &Log) -> Result<Bytes, AllocError> {
    if fits_version_1(log) {
        write_log_1(alloc, log)
    } else {
        Ok(List::new(alloc))
    }
}

/// A text of every operation but those of read-write locks is written as it was read.
#[test]
fn writes_what_it_reads(rt: HostRuntime) -> Result<(), Fail> {
    let text = past_start(
        rt.alloc(),
        b"profile 3\npair f g\npair f main\npair main while\ninput 5\n00096affe0\n0 0 lock m16\n0 10 trylock m4194303\n0 10 unlock m0\n0 1 minit m7\n1 2 center c9\n1 2 cwake c9\n1 3 signal c10\n2 0 binit b100\n2 1 arrive b100\n2 2 pass b100\n3 4 take w0.0\n3 4 retake w65471.7\n3 5 give w12.3\n3 5 revoke w12.3\n4 6 draw T\n4 6 start s7\n4 6 begin s1\n4 6 end s1\n5 6 join s1\n5 6 close s2\n5 6 leave T\n6 16777217 halt H\n6 6 trap H\n6 6 stop H\n7 1234567 getchar I\n7 6 print O\n",
    )?;
    let log = read_log(rt.alloc(), text.as_slice())?;
    assert_eq!(rt; log.entries().len(), 26);
    assert_eq!(rt;
        log.setup().input().as_slice(),
        b"\x00\x09\x6a\xff\xe0".as_slice()
    );
    assert_eq!(rt; in_version_1(rt.alloc(), &log)?.as_slice(), text.as_slice());
    Ok(())
}

const APART: &[u8] =
    b"profile all\ninput 0\n\n1 3 take w0.0\n1 3 take w0.1\n1 3 take w0.2\n1 3 take w1.3\n1 3 draw T\n1 4 give w0.0\n1 4 give w0.1\n2 4 give w0.2\n";

const SHARED: &[u8] =
    b"1 3 take w0.0-2\n1 3 take w1.3\n1 3 draw T\n1 4 give w0.0-1\n2 4 give w0.2\n";

/// The two versions of a log are read as one, and each is written again.
#[test]
fn writes_both_versions(rt: HostRuntime) -> Result<(), Fail> {
    let apart = past_start(rt.alloc(), APART)?;
    let shared = joined(rt.alloc(), START_2, SHARED)?;
    for text in [&apart, &shared] {
        let log = read_log(rt.alloc(), text.as_slice())?;
        assert_eq!(rt; write_log(rt.alloc(), &log)?.as_slice(), shared.as_slice());
        assert_eq!(rt;
            in_version_1(rt.alloc(), &log)?.as_slice(),
            apart.as_slice()
        );
    }
    Ok(())
}

/// Read-write locks have words in version 2 alone.
#[test]
fn writes_read_write_locks(rt: HostRuntime) -> Result<(), Fail> {
    let text = joined(rt.alloc(), START_2, LOCKS)?;
    let log = read_log(rt.alloc(), text.as_slice())?;
    assert!(rt; !fits_version_1(&log));
    assert_eq!(rt; write_log(rt.alloc(), &log)?.as_slice(), text.as_slice());
    Ok(())
}

#[test]
fn knows_names(rt: HostRuntime) {
    let rows: [(&[u8], bool); 8] = [
        (b"main", true),
        (b"_", true),
        (b"a1_Z", true),
        (b"while", true),
        (b"", false),
        (b"1a", false),
        (b"a b", false),
        (b"caf\xc3\xa9", false),
    ];
    for (text, want) in rows {
        assert_eq!(rt; is_name(text), want, "{text:?}");
    }
}

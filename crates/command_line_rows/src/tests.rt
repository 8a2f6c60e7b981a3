use command_line::{Answer, Event, Job, Part, RecordJob, job_of, summary_text, text_of};
use rr_base::{Bytes, List, Trap};
use std::alloc::{AllocError, Global};
use std::test::Fail;
use thread_interpreter::Formula;

fn words_of(alloc: Global, line: &str) -> Result<Vec<String>, AllocError> {
    let mut words = Vec::new(alloc);
    for word in line.split(' ') {
        words.push(format!(in alloc; "{word}")?)?;
    }
    Ok(words)
}

fn told_record(alloc: Global, job: RecordJob<'_>) -> Result<String, AllocError> {
    let profile = job.profile.unwrap_or("none");
    let reads = job.reads.unwrap_or("none");
    let RecordJob {
        source,
        log,
        slots,
        cells,
        limit,
        budget,
        ..
    } = job;
    format!(in alloc; "record {source} {log} {profile} {slots} {cells} {limit} {budget} {reads}")
}

fn told_watch(
    alloc: Global,
    source: &str,
    log: &str,
    formula: Formula,
) -> Result<String, AllocError> {
    let Formula {
        loads,
        stores,
        thread,
        low,
        high,
        value,
    } = formula;
    let thread = thread.unwrap_or(99);
    let value = value.unwrap_or(99);
    format!(in alloc; "watch {source} {log} {loads} {stores} {thread} {low} {high} {value}")
}

fn told_chain(
    alloc: Global,
    source: &str,
    log: &str,
    events: [Event; 2],
) -> Result<String, AllocError> {
    let [one, other] = events;
    let Event { thread, count } = one;
    let text = format!(in alloc; "chain {source} {log} {thread} {count}")?;
    let Event { thread, count } = other;
    format!(in alloc; "{text} {thread} {count}")
}

fn told(alloc: Global, job: Job<'_>) -> Result<String, AllocError> {
    match job {
        Job::Races { source } => format!(in alloc; "races {source}"),
        Job::Weaken { source, profile } => {
            let profile = profile.unwrap_or("none");
            format!(in alloc; "weaken {source} {profile}")
        }
        Job::Record(job) => told_record(alloc, job),
        Job::Replay { source, log, reads } => {
            let reads = reads.unwrap_or("none");
            format!(in alloc; "replay {source} {log} {reads}")
        }
        Job::Profile { source, log, name } => format!(in alloc; "profile {source} {log} {name}"),
        Job::Watch {
            source,
            log,
            formula,
        } => told_watch(alloc, source, log, formula),
        Job::Chain {
            source,
            log,
            one,
            other,
        } => told_chain(alloc, source, log, [one, other]),
        Job::Checkpoint {
            source,
            log,
            count,
            name,
        } => format!(in alloc; "checkpoint {source} {log} {count} {name}"),
        Job::Resume { source, log, name } => {
            format!(in alloc; "replay {source} {log} from {name}")
        }
        Job::Make { count, name } => format!(in alloc; "make {count} {name}"),
    }
}

// Each command, and each option in both spellings and in any place.
const JOBS: [(&str, &str); 39] = [
    ("races a", "races a"),
    ("weaken a", "weaken a none"),
    ("weaken a --profile p", "weaken a p"),
    ("weaken --profile p a", "weaken a p"),
    ("weaken --profile=p a", "weaken a p"),
    ("weaken a --profile=p=-q", "weaken a p=-q"),
    ("replay a b", "replay a b none"),
    ("replay --reads r a b", "replay a b r"),
    ("replay a --reads=r b", "replay a b r"),
    ("replay a b --from c", "replay a b from c"),
    ("replay --from=c a b", "replay a b from c"),
    ("profile a b c", "profile a b c"),
    ("watch a b load", "watch a b true false 99 0 4294967295 99"),
    (
        "watch a b store,cell=6-6,value=1",
        "watch a b false true 99 6 6 1",
    ),
    (
        "watch a b any,thread=15,cell=0-4194303,value=-9223372036854775808",
        "watch a b true true 15 0 4194303 -9223372036854775808",
    ),
    (
        "watch a b any,value=9223372036854775807",
        "watch a b true true 99 0 4294967295 9223372036854775807",
    ),
    ("chain a b 2.4 1.4", "chain a b 2 4 1 4"),
    ("chain a b 0.0 15.67108865", "chain a b 0 0 15 67108865"),
    ("chain a b 1.20 1.20", "chain a b 1 20 1 20"),
    ("checkpoint a b 0 c", "checkpoint a b 0 c"),
    ("checkpoint a b 16777312 c", "checkpoint a b 16777312 c"),
    ("make 1 a", "make 1 a"),
    ("make 1000 a", "make 1000 a"),
    ("record a b", "record a b none 8 16384 16777216 1000 none"),
    (
        "record --profile p a b",
        "record a b p 8 16384 16777216 1000 none",
    ),
    (
        "record a --profile=p b",
        "record a b p 8 16384 16777216 1000 none",
    ),
    (
        "record a b --reads r",
        "record a b none 8 16384 16777216 1000 r",
    ),
    (
        "record a --reads=r b",
        "record a b none 8 16384 16777216 1000 r",
    ),
    (
        "record --slots 1 a b",
        "record a b none 1 16384 16777216 1000 none",
    ),
    (
        "record a b --slots=16",
        "record a b none 16 16384 16777216 1000 none",
    ),
    (
        "record a --cells 1024 b",
        "record a b none 8 1024 16777216 1000 none",
    ),
    (
        "record a b --cells=131072",
        "record a b none 8 131072 16777216 1000 none",
    ),
    (
        "record a b --limit 1",
        "record a b none 8 16384 1 1000 none",
    ),
    (
        "record --limit=67108864 a b",
        "record a b none 8 16384 67108864 1000 none",
    ),
    (
        "record a b --budget 1",
        "record a b none 8 16384 16777216 1 none",
    ),
    (
        "record a --budget=1048576 b",
        "record a b none 8 16384 16777216 1048576 none",
    ),
    (
        "record --slots 3 a --reads=r b --budget 2 --profile p",
        "record a b p 3 16384 16777216 2 r",
    ),
    (
        "record race a",
        "record race a none 8 16384 16777216 1000 none",
    ),
    ("record a- b", "record a- b none 8 16384 16777216 1000 none"),
];

// Lists of words that are no job.
const NO_JOBS: [&str; 106] = [
    "",
    "help",
    "--help",
    "race a",
    "races",
    "races a b",
    "races -a",
    "races  ",
    "races --",
    "races -- a",
    "races a --",
    "races a --profile p",
    "weaken",
    "weaken a b",
    "weaken a --reads r",
    "weaken a --profile",
    "weaken a --profile=",
    "weaken a --profile -p",
    "weaken a --profile=-p",
    "weaken a -profile p",
    "weaken a --profile p --profile=p",
    "weaken a --profile=p --profile q",
    "weaken a --profile --profile=p",
    "record a",
    "record a b c",
    "replay a",
    "replay a b --",
    "replay a b --slots 3",
    "replay a b --reads r --reads r",
    "replay a ",
    "profile a b",
    "profile a b c d",
    "profile a b c --reads r",
    "watch a b",
    "watch a b load c",
    "watch a b load --reads r",
    "watch a b Load",
    "watch a b load,",
    "watch a b value=3",
    "watch a b load,value=1,thread=1",
    "watch a b load,thread=16",
    "watch a b load,thread=01",
    "watch a b load,thread=-1",
    "watch a b store,cell=6",
    "watch a b store,cell=3-2",
    "watch a b store,cell=0-4194304",
    "watch a b store,cell=1-2-3",
    "watch a b any,value=-0",
    "watch a b any,value=+1",
    "watch a b any,value=9223372036854775808",
    "watch a b any,value=-9223372036854775809",
    "chain a b",
    "chain a b 2.4",
    "chain a b 2.4 1.4 0.1",
    "chain a b 2.4 1.4 --reads r",
    "chain a b 2.4 1.4 --reads=r",
    "chain a b 16.1 1.1",
    "chain a b 1.1 16.1",
    "chain a b 1.67108866 1.2",
    "chain a b 1.2 1.67108866",
    "chain a b 1 1.2",
    "chain a b 1.2 1",
    "chain a b 1.02 1.2",
    "chain a b 01.2 1.2",
    "chain a b 1.-0 1.2",
    "chain a b -0.2 1.2",
    "chain a b 1.-2 1.2",
    "chain a b 1.+2 1.2",
    "chain a b 1.2.3 1.2",
    "chain a b 1. 1.2",
    "chain a b .2 1.2",
    "chain a b . 1.2",
    "chain a b 1,2 1.2",
    "chain a b t.2 1.2",
    "replay a b --from",
    "replay a b --from c --from c",
    "replay a b --from c --reads r",
    "replay a b --reads=r --from=c",
    "profile a b c --from d",
    "checkpoint a b",
    "checkpoint a b 1",
    "checkpoint a b 1 c d",
    "checkpoint a b 1 c --reads r",
    "checkpoint a b 16777313 c",
    "checkpoint a b 01 c",
    "checkpoint a b -1 c",
    "checkpoint a b c 1",
    "make",
    "make a",
    "make 0 a",
    "make 1001 a",
    "make 01 a",
    "make a 1",
    "make 1 a b",
    "record a b --slots 0",
    "record a b --slots 17",
    "record a b --slots 08",
    "record a b --slots +8",
    "record a b --slots 8x",
    "record a b --slots 4294967304",
    "record a b --cells 1023",
    "record a b --cells 131073",
    "record a b --limit 67108865",
    "record a b --budget 1048577",
    "record a b --Slots 8",
    "record a b --=8",
];

#[test]
fn words_are_a_job(rt: HostRuntime) -> Result<(), Fail> {
    for (line, want) in JOBS {
        let words = words_of(rt.alloc(), line)?;
        match job_of(rt.alloc(), words.as_slice())? {
            Some(job) => assert_eq!(rt; told(rt.alloc(), job)?.as_str(), want),
            None => assert!(rt; false, "{line}"),
        }
    }
    Ok(())
}

#[test]
fn words_are_no_job(rt: HostRuntime) -> Result<(), Fail> {
    for line in NO_JOBS {
        let words = words_of(rt.alloc(), line)?;
        assert!(rt; job_of(rt.alloc(), words.as_slice())?.is_none(), "{line}");
    }
    assert!(rt; job_of(rt.alloc(), &[])?.is_none());
    Ok(())
}

// Eight of these are names: two of a file and a log 64 times each, one beside the profile 16 times, and one after the
// number 8 times.
#[test]
fn lists_of_three_words(rt: HostRuntime) -> Result<(), Fail> {
    let line = "races weaken record replay profile make a 7 --profile=p --profile --slots=3 -- -x ";
    let alloc = rt.alloc();
    let mut jobs: u32 = 0;
    for first in line.split(' ') {
        for second in line.split(' ') {
            for third in line.split(' ') {
                let words = words_of(alloc, &format!(in alloc; "{first} {second} {third}")?)?;
                if job_of(alloc, words.as_slice())?.is_some() {
                    jobs = jobs.saturating_add(1);
                }
            }
        }
    }
    assert_eq!(rt; jobs, 64 + 64 + 16 + 8);
    Ok(())
}

fn bytes(alloc: Global, text: &[u8]) -> Result<Bytes, AllocError> {
    List::from_slice(alloc, text)
}

#[test]
fn answers_are_told(rt: HostRuntime) -> Result<(), Fail> {
    let alloc = rt.alloc();
    let out = bytes(alloc, b"5\n")?;
    let front = bytes(alloc, b"5")?;
    let trapped = Answer::Trapped {
        out: front,
        kind: Trap::LogFull,
        thread: 15,
        line: 120,
    };
    let refused = Answer::SourceRefused {
        number: 7,
        line: 3,
        column: 12,
    };
    let unread = Answer::LogRefused {
        number: 23,
        line: 1,
    };
    let rows = [
        (Answer::Done { out }, 0, "5\n"),
        (Answer::Usage, 1, "usage\n"),
        (refused, 2, "source refused 7 3 12\n"),
        (trapped, 3, "5trap 17 thread 15 line 120\n"),
        (unread, 4, "log refused 23 1\n"),
        (Answer::WrongEntry { at: 10 }, 5, "wrong entry 10\n"),
        (
            Answer::ProfileRefused { number: 22 },
            6,
            "profile refused 22\n",
        ),
        (
            Answer::CheckpointRefused {
                number: 26,
                place: 2,
            },
            13,
            "checkpoint refused 26 2\n",
        ),
        (
            Answer::TooLarge(Part::Checkpoint),
            11,
            "too large checkpoint\n",
        ),
        (Answer::TooLarge(Part::Source), 11, "too large source\n"),
        (Answer::TooLarge(Part::Log), 11, "too large log\n"),
        (Answer::TooLarge(Part::Profile), 11, "too large profile\n"),
        (Answer::TooLarge(Part::Input), 11, "too large input\n"),
    ];
    for (answer, status, want) in rows {
        assert_eq!(rt; answer.status(), status, "{want}");
        assert_eq!(rt; text_of(alloc, answer)?.as_slice(), want.as_bytes());
    }
    Ok(())
}

#[test]
fn a_made_source_is_told(rt: HostRuntime) -> Result<(), Fail> {
    let text = summary_text(rt.alloc(), 1000, 103_069, b"16096000\n", b"16096000\n")?;
    let want = b"made 1000 bytes 103069 slots 8\n16096000\n16096000\n";
    assert_eq!(rt; text.as_slice(), want.as_slice());
    Ok(())
}

use crate::*;
use command_line::{Answer, Part};
use rr_base::{Bytes, List, MemShelf, MemSink, MemSource};
use std::alloc::{AllocError, Global};
use std::process::Abort;
use std::test::Fail;

fn bytes(alloc: Global, text: &str) -> Result<Bytes, AllocError> {
    List::from_slice(alloc, text.as_bytes())
}

// Two files, of which the later one is put under the name of a file that is there.
fn two_puts<'a>(alloc: Global) -> Result<Outcome<'a>, AllocError> {
    let mut puts = List::new(alloc);
    puts.push(Put::new("b", bytes(alloc, "one")?))?;
    puts.push(Put::new("a", bytes(alloc, "two")?))?;
    Ok(Outcome {
        puts,
        answer: Answer::Done {
            out: bytes(alloc, "5\n")?,
        },
    })
}

fn holds(rt: &impl Abort, shelf: &MemShelf, name: &str, want: Option<&str>) {
    let found = shelf.content(name).map(|held| held.as_slice());
    assert_eq!(rt; found, want.map(|text| text.as_bytes()), "{name}");
}

// Which calls of the shelf fail, and then the contents of `a` and `b`, the text, and the status.
const FINISHES: [(&[u64], Option<&str>, Option<&str>, &str, u8); 3] = [
    (&[], Some("two"), Some("one"), "5\n", 0),
    (&[0], Some("old"), None, "shelf fault\n", 9),
    (&[1], Some("old"), Some("one"), "shelf fault\n", 9),
];

#[test]
fn puts_then_tells(rt: HostRuntime) -> Result<(), Fail> {
    let alloc = rt.alloc();
    for (fails, a, b, text, status) in FINISHES {
        let mut files = List::new(alloc);
        files.push((bytes(alloc, "a")?, bytes(alloc, "old")?))?;
        let mut shelf = MemShelf::new(files, List::from_slice(alloc, fails)?);
        let mut out = MemSink::new(List::new(alloc), List::new(alloc), 100);
        let found = finish(alloc, two_puts(alloc)?, &mut shelf, &mut out);
        assert_eq!(rt; found, status);
        assert_eq!(rt; out.bytes().as_slice(), text.as_bytes());
        holds(&rt, &shelf, "a", a);
        holds(&rt, &shelf, "b", b);
    }
    Ok(())
}

// How many bytes an input may have, which of its reads fails, and what comes of the input `abc`.
const INPUTS: [(u32, &[u64], &str, u8); 3] = [
    (3, &[], "abc", 0),
    (2, &[], "too large input\n", 11),
    (3, &[0], "read fault\n", 7),
];

#[test]
fn reads_an_input(rt: HostRuntime) -> Result<(), Fail> {
    let alloc = rt.alloc();
    for (most, fails, text, status) in INPUTS {
        let mut source = MemSource::new(bytes(alloc, "abc")?, List::from_slice(alloc, fails)?);
        let mut out = MemSink::new(List::new(alloc), List::new(alloc), 100);
        let found = match input(alloc, &mut source, most, Part::Input) {
            Ok(content) => {
                let mut shelf = MemShelf::new(List::new(alloc), List::new(alloc));
                let outcome = Outcome::answers(alloc, Answer::Done { out: content });
                finish(alloc, outcome, &mut shelf, &mut out)
            }
            Err(stop) => tell_stop(alloc, &mut out, stop),
        };
        assert_eq!(rt; found, status);
        assert_eq!(rt; out.bytes().as_slice(), text.as_bytes());
    }
    Ok(())
}

// What the program answers, and what it tells of it.

ghost use Rattle.std.specs.Prelude.{◌≡◌, ◌++◌, [], decimal, codes, IfOk, OnOk};
ghost use Rattle.command_line.specs.Answers as spec;

use rr_base::{Bytes, List, Trap};
use std::alloc::{AllocError, Global};

/// A file that is read.
#[derive(Clone, Copy, Debug, PartialEq, Eq)]
pub enum Part {
    Source,
    Log,
    Profile,
    Input,
    Checkpoint,
}

/// What the program answers, where neither the outside nor memory fails it.
#[derive(Debug, Drop)]
pub enum Answer {
    /// The run ended; these bytes were printed.
    Done {
        out: Bytes,
    },
    /// The words are no job.
    Usage,
    /// The source is no program, with the number of the fault and its place.
    SourceRefused {
        number: u8,
        line: u32,
        column: u32,
    },
    /// These bytes were printed, and a thread trapped.
    Trapped {
        out: Bytes,
        kind: Trap,
        thread: u8,
        line: u32,
    },
    /// The bytes are no log, with the number of the fault and its line.
    LogRefused {
        number: u8,
        line: u32,
    },
    /// The log isn't one of this program, from this entry on.
    WrongEntry {
        at: u32,
    },
    /// The bytes are no profile, with the number of the fault.
    ProfileRefused {
        number: u8,
    },
    /// A file has more bytes than it may.
    TooLarge(Part),
    /// The bytes are no checkpoint of the log's run that can be gone on from, with the number of the fault, and its line or
    /// the thread that it stopped.
    CheckpointRefused {
        number: u8,
        place: u32,
    },
}

impl Answer {
    /// The exit status that tells the answer.
    pub fn status(&self) -> u8
        ensures { result ≡ spec.status_of self.now }
    {
        match self {
            Answer::Done { .. } => 0,
            Answer::Usage => 1,
            Answer::SourceRefused { .. } => 2,
            Answer::Trapped { .. } => 3,
            Answer::LogRefused { .. } => 4,
            Answer::WrongEntry { .. } => 5,
            Answer::ProfileRefused { .. } => 6,
            Answer::TooLarge(_) => 11,
            Answer::CheckpointRefused { .. } => 13,
        }
    }
}

/// A word, and a number after it.
pub(crate) fn push_numbered(out: &mut Bytes, word: &[u8], n: u32) -> Result<(), AllocError>
    ensures { OnOk result (out.new ≡ out.old ++ (word.now ++ decimal n)) }
{
    rr_base::push_numbered(out, word, u64::from(n))
}

fn push_source_refused(
    out: &mut Bytes,
    number: u8,
    line: u32,
    column: u32,
) -> Result<(), AllocError>
    ensures { OnOk result (out.new ≡ out.old ++ spec.source_refused number line column) }
{
    push_numbered(out, b"source refused ", u32::from(number))?;
    push_numbered(out, b" ", line)?;
    push_numbered(out, b" ", column)?;
    out.extend_from_slice(b"\n")
}

// That a file is refused, which the words say, with the number of the fault and its place.
fn push_refused(out: &mut Bytes, words: &[u8], number: u8, place: u32) -> Result<(), AllocError>
    ensures { OnOk result (out.new ≡ out.old ++ spec.refused words.now number place) }
{
    push_numbered(out, words, u32::from(number))?;
    push_numbered(out, b" ", place)?;
    out.extend_from_slice(b"\n")
}

fn push_trap_line(out: &mut Bytes, kind: Trap, thread: u8, line: u32) -> Result<(), AllocError>
    ensures { OnOk result (out.new ≡ out.old ++ spec.trap_line kind thread line) }
{
    push_numbered(out, b"trap ", u32::from(kind.number()))?;
    push_numbered(out, b" thread ", u32::from(thread))?;
    push_numbered(out, b" line ", line)?;
    out.extend_from_slice(b"\n")
}

fn push_wrong_entry(out: &mut Bytes, at: u32) -> Result<(), AllocError>
    ensures { OnOk result (out.new ≡ out.old ++ spec.wrong_entry at) }
{
    push_numbered(out, b"wrong entry ", at)?;
    out.extend_from_slice(b"\n")
}

fn push_profile_refused(out: &mut Bytes, number: u8) -> Result<(), AllocError>
    ensures { OnOk result (out.new ≡ out.old ++ spec.profile_refused number) }
{
    push_numbered(out, b"profile refused ", u32::from(number))?;
    out.extend_from_slice(b"\n")
}

fn too_large(what: Part) -> &'static [u8]
    ensures { result.now ≡ spec.too_large what }
{
    match what {
        Part::Source => b"too large source\n",
        Part::Log => b"too large log\n",
        Part::Profile => b"too large profile\n",
        Part::Input => b"too large input\n",
        Part::Checkpoint => b"too large checkpoint\n",
    }
}

/// The text that tells the answer.
pub fn text_of(alloc: Global, answer: Answer) -> Result<Bytes, AllocError>
    ensures { IfOk result (λ text. text ≡ spec.text_of answer) }
{
    let mut text = List::new(alloc);
    match answer {
        Answer::Done { out } => text = out,
        Answer::Usage => text.extend_from_slice(b"usage\n")?,
        Answer::SourceRefused {
            number,
            line,
            column,
        } => push_source_refused(&mut text, number, line, column)?,
        Answer::Trapped {
            out,
            kind,
            thread,
            line,
        } => {
            text = out;
            push_trap_line(&mut text, kind, thread, line)?;
        }
        Answer::LogRefused { number, line } => {
            push_refused(&mut text, b"log refused ", number, line)?;
        }
        Answer::WrongEntry { at } => push_wrong_entry(&mut text, at)?,
        Answer::ProfileRefused { number } => push_profile_refused(&mut text, number)?,
        Answer::TooLarge(what) => text.extend_from_slice(too_large(what))?,
        Answer::CheckpointRefused { number, place } => {
            push_refused(&mut text, b"checkpoint refused ", number, place)?;
        }
    }
    Ok(text)
}

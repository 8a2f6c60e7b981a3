// What is answered to one source.

ghost use Rattle.std.specs.Prelude.{◌≤◌, ◌^◌, length, IfOk};

use command_line::{Answer, text_of};
use core_run::{Walk, walk};
use front::{CompileFault, compile, plain};
use listing::{races_text, weak_text};
use lock_sound::Weakened;
use order_log::{Log, LogFault, read_log};
use profiles::Profile;
use rr_base::{Bytes, List, Shelf, ShelfEnd};
use std::alloc::{AllocError, Global};
use thread_interpreter::Formula;

/// The most bytes of a source, and of any other file here.
const MOST_BYTES: u32 = 1_048_576;

fn refused(fault: CompileFault) -> Result<Answer, AllocError> {
    match fault {
        CompileFault::Source(fault) => Ok(Answer::SourceRefused {
            number: fault.number,
            line: fault.at.line,
            column: fault.at.column,
        }),
        CompileFault::OutOfMemory => Err(AllocError),
    }
}

fn reading(alloc: Global, source: &[u8]) -> Result<Answer, AllocError>
    requires { length source.now ≤ 2 ^ 20 }
{
    match plain(alloc, source) {
        Ok(_) => Ok(Answer::Done {
            out: List::from_slice(alloc, b"accepted\n")?,
        }),
        Err(fault) => refused(fault),
    }
}

fn race_listing(alloc: Global, source: &[u8]) -> Result<Answer, AllocError>
    requires { length source.now ≤ 2 ^ 20 }
{
    match compile(alloc, source, &Profile::All) {
        Ok(weakened) => Ok(Answer::Done {
            out: races_text(alloc, weakened.plain(), weakened.pairs().as_slice())?,
        }),
        Err(fault) => refused(fault),
    }
}

fn weak_lock_listing(alloc: Global, source: &[u8]) -> Result<Answer, AllocError>
    requires { length source.now ≤ 2 ^ 20 }
{
    match compile(alloc, source, &Profile::All) {
        Ok(weakened) => {
            let locks = weakened.code().locks.as_slice();
            let rows = weakened.grains().rows.as_slice();
            let out = weak_text(alloc, weakened.plain(), locks, rows)?;
            Ok(Answer::Done { out })
        }
        Err(fault) => refused(fault),
    }
}

fn answer_of(walk: Walk) -> Answer {
    match walk {
        Walk::Done { out, .. } => Answer::Done { out },
        Walk::Trapped {
            kind,
            thread,
            line,
            out,
            ..
        } => Answer::Trapped {
            out,
            kind,
            thread,
            line,
        },
        Walk::Wrong { at } => Answer::WrongEntry { at },
    }
}

fn walked(alloc: Global, weakened: &Weakened, log: &Log) -> Result<Answer, AllocError> {
    let no_reads = Formula {
        loads: false,
        stores: false,
        thread: None,
        low: 1,
        high: 0,
        value: None,
    };
    let code = weakened.code();
    let walk = walk(alloc, code, log.setup(), log.entries(), &no_reads)?;
    Ok(answer_of(walk))
}

fn replaying(alloc: Global, source: &[u8], log: &[u8]) -> Result<Answer, AllocError>
    requires { length source.now ≤ 2 ^ 20 }
{
    let log = match read_log(alloc, log) {
        Ok(log) => log,
        Err(LogFault::LogSyntax(line)) => return Ok(Answer::LogRefused { number: 23, line }),
        Err(LogFault::LogLimit(line)) => return Ok(Answer::LogRefused { number: 24, line }),
        Err(LogFault::OutOfMemory) => return Err(AllocError),
    };
    match compile(alloc, source, log.profile()) {
        Ok(weakened) => walked(alloc, &weakened, &log),
        Err(fault) => refused(fault),
    }
}

/// The text that the bytes are.
pub fn text_in(bytes: &Bytes) -> &str {
    str::from_utf8(bytes.as_slice()).unwrap_or("no text")
}

/// The content of a file of the shelf.
pub fn content<S: Shelf>(alloc: Global, shelf: &mut S, name: &str) -> Result<Bytes, ShelfEnd>
    ensures { IfOk result (λ bytes. length bytes ≤ 2 ^ 20) }
{
    let bytes = shelf.get(alloc, name, MOST_BYTES)?;
    if bytes.len() > MOST_BYTES as usize {
        return Err(ShelfEnd::Failed);
    }
    Ok(List::from_vec(bytes))
}

fn source_named<S: Shelf>(alloc: Global, shelf: &mut S, name: &str) -> Result<Bytes, ShelfEnd>
    ensures { IfOk result (λ bytes. length bytes ≤ 2 ^ 20) }
{
    let file = format!(in alloc; "{name}.c")?;
    content(alloc, shelf, &file)
}

/// The text that tells whether the source of that name is accepted.
pub fn read_source<S: Shelf>(alloc: Global, shelf: &mut S, name: &str) -> Result<Bytes, ShelfEnd> {
    let source = source_named(alloc, shelf, name)?;
    Ok(text_of(alloc, reading(alloc, source.as_slice())?)?)
}

/// The text that tells whether the source of that name is accepted with one line more.
pub fn read_longer<S: Shelf>(
    alloc: Global,
    shelf: &mut S,
    name: &str,
    line: &str,
) -> Result<Bytes, ShelfEnd> {
    let source = source_named(alloc, shelf, name)?;
    let longer = format!(in alloc; "{}{line}\n", text_in(&source))?;
    if longer.len() > MOST_BYTES as usize {
        return Err(ShelfEnd::Failed);
    }
    Ok(text_of(alloc, reading(alloc, longer.as_bytes())?)?)
}

/// The race listing of the source of that name.
pub fn list_races<S: Shelf>(alloc: Global, shelf: &mut S, name: &str) -> Result<Bytes, ShelfEnd> {
    let source = source_named(alloc, shelf, name)?;
    Ok(text_of(alloc, race_listing(alloc, source.as_slice())?)?)
}

/// The listing of the weak locks of the source of that name.
pub fn list_weak_locks<S: Shelf>(
    alloc: Global,
    shelf: &mut S,
    name: &str,
) -> Result<Bytes, ShelfEnd> {
    let source = source_named(alloc, shelf, name)?;
    Ok(text_of(alloc, weak_lock_listing(alloc, source.as_slice())?)?)
}

/// What the source of that name does by the log of the other.
pub fn replay_log<S: Shelf>(
    alloc: Global,
    shelf: &mut S,
    name: &str,
    log: &str,
) -> Result<Bytes, ShelfEnd> {
    let source = source_named(alloc, shelf, name)?;
    let file = format!(in alloc; "{log}.log")?;
    let log = content(alloc, shelf, &file)?;
    let answer = replaying(alloc, source.as_slice(), log.as_slice())?;
    Ok(text_of(alloc, answer)?)
}

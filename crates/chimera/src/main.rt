//! The program: it records a run of a C source on threads with its log, runs a source by a log, and lists the accesses
//! of a source that may race, its weak locks, and which functions were at work at once; and it makes a large source.
//!
//! Its contract: `main` alone; tests on threads and of what fails outside.
//! It knows nothing of jobs.
#![tactic(auto)]

ghost use Rattle.std.specs.Prelude.{◌≡◌, drop, map, string_bytes};
ghost use Rattle.std.specs.Process.{exit_status};
ghost use Rattle.chimera.specs.Mains.{IsEndOf};

#[cfg(test)]
mod checks;
#[cfg(test)]
mod outside_tests;
#[cfg(test)]
mod thread_tests;

use command_line::{FileShelf, InSource, OutSink};
use crew::ScopeCrew;
use jobs::chimera;
use std::alloc::Global;
use std::env;
use std::io::{self, ErrorKind, Read, Write};
use std::process::ExitCode;
use std::rt::Files;
use std::sync::Wait;
use std::thread::Threads;
use std::time::Clock;

// All words of the command line, the program's name first.
fn command_line(rt: &(impl std::rt::Env + AllocGlobal)) -> io::Result<Vec<String>> {
    let mut words = Vec::new(rt.alloc());
    for word in env::args(rt)? {
        words.push(word)?;
    }
    Ok(words)
}

// The words after the program's name.
fn past_name(mut line: Vec<String>) -> Vec<String>
    ensures { result.items ≡ drop 1 line.items }
{
    if !line.is_empty() {
        let _name = line.remove(0);
    }
    line
}

// Does what the words ask for, on these streams and the system's files and threads.
fn run<R: Threads + Wait + Clock + Sync + Files, I: Read + Drop, O: Write + Drop>(
    rt: &R,
    alloc: Global,
    words: &[String],
    input: I,
    out: O,
) -> ExitCode
    ensures { IsEndOf (map string_bytes words.now) (exit_status result) }
{
    ExitCode::from(chimera(
        rt,
        alloc,
        words,
        &mut InSource::new(input),
        &mut OutSink::new(out),
        &mut FileShelf::new(rt),
        &mut ScopeCrew::new(),
    ))
}

fn main(rt: HostRuntime) -> ExitCode {
    let line = match command_line(&rt) {
        Ok(line) => line,
        Err(error) if error.kind() == ErrorKind::OutOfMemory => return ExitCode::from(12),
        // Words that aren't text are no job.
        Err(_) => Vec::new(rt.alloc()),
    };
    let words = past_name(line);
    run(
        &rt,
        rt.alloc(),
        words.as_slice(),
        rt.stdin(),
        io::writer(&rt),
    )
}

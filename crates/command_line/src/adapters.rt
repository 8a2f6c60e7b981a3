// The outside by files and streams of the system. Nothing is told of what they hold.

ghost use Rattle.std.specs.Prelude.{◌≡◌, ◌≤◌, ◌+◌, None, vec_len, IfOk, MatchResult};
ghost use Rattle.rr_base.specs.Faults.{Rose, ShelfFaults};

use crate::replacing::write_whole;
use rr_base::{Failed, Shelf, ShelfEnd, Sink, SinkEnd, Source};
use std::alloc::{AllocError, Global};
use std::fs;
use std::io::{ErrorKind, Read, Write};
use std::rt::Files;

/// The files of a system, by their paths.
#[derive(Debug, Drop)]
pub struct FileShelf<R> {
    system: R,
    faults: u64,
}

/// Bytes from a reader, as from a program's input.
#[derive(Debug, Drop)]
pub struct InSource<R> {
    reader: R,
    faults: u64,
}

/// Bytes to a writer, as to a program's output.
#[derive(Debug, Drop)]
pub struct OutSink<W> {
    writer: W,
    faults: u64,
}

impl<R> FileShelf<R> {
    /// One with which nothing has gone wrong yet.
    pub fn new(system: R) -> FileShelf<R>
        ensures { result ≡ record { system = system; faults = 0 } }
    {
        FileShelf { system, faults: 0 }
    }
}

impl<R> InSource<R> {
    /// One with which nothing has gone wrong yet.
    pub fn new(reader: R) -> InSource<R>
        ensures { result ≡ record { reader = reader; faults = 0 } }
    {
        InSource { reader, faults: 0 }
    }
}

impl<W> OutSink<W> {
    /// One with which nothing has gone wrong yet.
    pub fn new(writer: W) -> OutSink<W>
        ensures { result ≡ record { writer = writer; faults = 0 } }
    {
        OutSink { writer, faults: 0 }
    }
}

fn count_fault(faults: &mut u64)
    ensures { Rose faults.old faults.new }
{
    *faults = faults.saturating_add(1);
}

/// Why reading or writing a file ended early.
#[derive(Debug, Drop)]
pub(crate) enum FileEnd {
    System(ErrorKind),
    OutOfMemory,
}

impl From<std::io::Error> for FileEnd {
    fn from(error: std::io::Error) -> FileEnd {
        FileEnd::System(error.kind())
    }
}

impl From<AllocError> for FileEnd {
    fn from(_error: AllocError) -> FileEnd {
        FileEnd::OutOfMemory
    }
}

// The first `most` bytes of a reader, or all where there are fewer.
fn read_front<R: Read>(alloc: Global, reader: &mut R, most: usize) -> Result<Vec<u8>, FileEnd>
    ensures { IfOk result (λ bytes. vec_len bytes ≤ most) }
{
    let mut bytes = Vec::new(alloc);
    let mut chunk = [0; 4096];
    while bytes.len() < most {
        let room = chunk.len().min(most - bytes.len());
        let count = reader.read(&mut chunk[..room])?;
        if count == 0 {
            break;
        }
        bytes.extend_from_slice(&chunk[..count])?;
    }
    Ok(bytes)
}

fn read_file<R: Files>(
    alloc: Global,
    system: &R,
    name: &str,
    most: usize,
) -> Result<Vec<u8>, FileEnd>
    ensures { IfOk result (λ bytes. vec_len bytes ≤ most) }
{
    let mut file = fs::open(system, name)?;
    read_front(alloc, &mut file, most)
}

// What a shelf answers for such an end, which it counts where it is a fault.
fn shelf_end(faults: &mut u64, end: FileEnd) -> ShelfEnd
    ensures { ShelfFaults result faults.old faults.new }
{
    match end {
        FileEnd::OutOfMemory | FileEnd::System(ErrorKind::OutOfMemory) => ShelfEnd::OutOfMemory,
        FileEnd::System(_) => {
            count_fault(faults);
            ShelfEnd::Failed
        }
    }
}

impl<R: Files> Shelf for FileShelf<R> {
    ghost files = { λ _. None };

    ghost faults = { λ s. s.faults };

    fn get(&mut self, alloc: Global, name: &str, most: u32) -> Result<Vec<u8>, ShelfEnd> {
        match read_file(alloc, &self.system, name, most as usize + 1) {
            Ok(bytes) => Ok(bytes),
            Err(end) => Err(shelf_end(&mut self.faults, end)),
        }
    }

    fn put(&mut self, alloc: Global, name: &str, bytes: &[u8]) -> Result<(), ShelfEnd> {
        match write_whole(alloc, &self.system, name, bytes) {
            Ok(()) => Ok(()),
            Err(end) => Err(shelf_end(&mut self.faults, end)),
        }
    }
}

impl<R: Read> Source for InSource<R> {
    ghost left = { λ _. None };

    ghost faults = { λ s. s.faults };

    fn read(&mut self, into: &mut [u8]) -> Result<usize, Failed> {
        match self.reader.read(into) {
            Ok(count) => Ok(count),
            Err(_) => {
                count_fault(&mut self.faults);
                Err(Failed)
            }
        }
    }
}

impl<W: Write> Sink for OutSink<W> {
    ghost held = { λ _. None };

    ghost faults = { λ s. s.faults };

    fn write(&mut self, _alloc: Global, piece: &[u8]) -> Result<usize, SinkEnd> {
        match self.writer.write(piece) {
            Ok(count) if count > 0 || piece.is_empty() => Ok(count),
            _ => {
                count_fault(&mut self.faults);
                Err(SinkEnd::Failed)
            }
        }
    }
}

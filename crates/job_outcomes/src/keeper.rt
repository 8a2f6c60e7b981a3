// Shelves of which is known when they may fail.

ghost use Rattle.std.specs.Prelude.{◌≡◌, ◌≢◌, ◌≤◌, ◌+◌, [], None, Some, take, vec_len, IfOk, IfSome, OnOk, MatchResult};
ghost use Rattle.std.specs.Option.{option_map};
ghost use Rattle.rr_base.specs.Faults.{ShelfFaults};
ghost use Rattle.rr_base.specs.Files.{LeavesOthers, with_file};
ghost use Rattle.job_outcomes.specs.Steps.{Lacks};

use command_line::FileShelf;
use rr_base::{MemShelf, Shelf, ShelfEnd};
use std::alloc::Global;
use std::rt::Files;

/// A shelf that may be sound. It fails nothing then but a `fetch` of a name that it doesn't hold.
pub trait Keeper: Shelf {
    ghost IsSound: { Self → Type 0 };

    /// As `get`, which on a sound shelf fails for want of the name alone.
    fn fetch(&mut self, alloc: Global, name: &str, most: u32) -> Result<Vec<u8>, ShelfEnd>
        ensures fits { IfOk result (λ bytes. vec_len bytes ≤ most + 1) }
        ensures bytes { IfOk result (λ bytes. IfSome (Self.files self.old) (λ held. option_map (take (most + 1)) (held name.now) ≡ Some bytes.items)) }
        ensures files { Self.files self.new ≡ Self.files self.old }
        ensures faults { MatchResult result (λ _. Self.faults self.new ≡ Self.faults self.old) (λ end. ShelfFaults end (Self.faults self.old) (Self.faults self.new)) }
        ensures sound { IsSound self.old → IsSound self.new }
        ensures lacks { IsSound self.old → result ≡ Err ShelfEnd.Failed → Lacks (Self.files self.old) name.now };

    /// As `put`, which a sound shelf never fails.
    fn keep(&mut self, alloc: Global, name: &str, bytes: &[u8]) -> Result<(), ShelfEnd>
        ensures ok { OnOk result (Self.files self.new ≡ option_map (with_file name.now bytes.now) (Self.files self.old)) }
        ensures failed { result ≡ Err ShelfEnd.Failed → LeavesOthers name.now (Self.files self.old) (Self.files self.new) }
        ensures memory { result ≡ Err ShelfEnd.OutOfMemory → Self.files self.new ≡ Self.files self.old }
        ensures faults { MatchResult result (λ _. Self.faults self.new ≡ Self.faults self.old) (λ end. ShelfFaults end (Self.faults self.old) (Self.faults self.new)) }
        ensures sound { IsSound self.old → IsSound self.new }
        ensures kept { IsSound self.old → result ≢ Err ShelfEnd.Failed };
}

/// The system's files may fail at any call.
impl<R: Files> Keeper for FileShelf<R> {
    ghost IsSound = { λ _. ⊥ };

    fn fetch(&mut self, alloc: Global, name: &str, most: u32) -> Result<Vec<u8>, ShelfEnd> {
        self.get(alloc, name, most)
    }

    fn keep(&mut self, alloc: Global, name: &str, bytes: &[u8]) -> Result<(), ShelfEnd> {
        self.put(alloc, name, bytes)
    }
}

/// A shelf in memory is sound where none of its calls is to fail.
impl Keeper for MemShelf {
    ghost IsSound = { λ s. s.plan.fails ≡ [] };

    fn fetch(&mut self, alloc: Global, name: &str, most: u32) -> Result<Vec<u8>, ShelfEnd> {
        self.get(alloc, name, most)
    }

    fn keep(&mut self, alloc: Global, name: &str, bytes: &[u8]) -> Result<(), ShelfEnd> {
        self.put(alloc, name, bytes)
    }
}

ghost use Rattle.std.specs.Prelude.{◌≡◌, ◌≤◌, ◌+◌, ℕ, Option, take, vec_len, IfOk, IfErr, OnOk, OnErr, IfSome, MatchResult};
ghost use Rattle.std.specs.Option.{option_map};
ghost use Rattle.rr_base.specs.Faults.{ShelfFaults};
ghost use Rattle.rr_base.specs.Files.{Files, with_file, LeavesOthers};
ghost use Rattle.rr_base.specs.declared.shelf.ShelfEnd.TheVariants as shelf_end;

use std::alloc::{AllocError, Global};
use thiserror::Error;

/// Why a shelf gave or took nothing.
#[derive(Clone, Copy, Debug, PartialEq, Eq, Error)]
pub enum ShelfEnd {
    /// A fault of the outside, which its count of faults shows too.
    #[error("the shelf failed")]
    Failed,
    #[error("out of memory")]
    OutOfMemory,
}

impl From<AllocError> for ShelfEnd {
    ghost from_gives = { λ _ end. end ≡ shelf_end.OutOfMemory };

    fn from(_error: AllocError) -> ShelfEnd {
        ShelfEnd::OutOfMemory
    }
}

/// Where named contents are kept.
pub trait Shelf {
    /// The content of each name, where the shelf tells them.
    ghost files: { Self → Option Files };

    /// The count of faults.
    ghost faults: { Self → ℕ };

    /// The first `most + 1` bytes of a name's content, or all where there are fewer. A name that isn't held is a fault.
    fn get(&mut self, alloc: Global, name: &str, most: u32) -> Result<Vec<u8>, ShelfEnd>
        ensures fits { IfOk result (λ bytes. vec_len bytes ≤ most + 1) }
        ensures bytes { IfOk result (λ bytes. IfSome (files self.old) (λ held. option_map (take (most + 1)) (held name.now) ≡ Some bytes.items)) }
        ensures files { files self.new ≡ files self.old }
        ensures faults { MatchResult result (λ _. faults self.new ≡ faults self.old) (λ end. ShelfFaults end (faults self.old) (faults self.new)) };

    /// Keeps `bytes` as the name's content. After a fault that content may be anything, and no other has changed.
    fn put(&mut self, alloc: Global, name: &str, bytes: &[u8]) -> Result<(), ShelfEnd>
        ensures ok { OnOk result (files self.new ≡ option_map (with_file name.now bytes.now) (files self.old)) }
        ensures failed { result ≡ Err ShelfEnd.Failed → LeavesOthers name.now (files self.old) (files self.new) }
        ensures memory { result ≡ Err ShelfEnd.OutOfMemory → files self.new ≡ files self.old }
        ensures faults { MatchResult result (λ _. faults self.new ≡ faults self.old) (λ end. ShelfFaults end (faults self.old) (faults self.new)) };
}

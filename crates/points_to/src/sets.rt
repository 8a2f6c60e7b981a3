//! The sets of nodes: rows in blocks.
ghost use Rattle.std.specs.Prelude.{◌≡◌, ◌<◌, ◌⊎◌, ℕ, List, [], ◌∷◌, ◌++◌, length, slice_get, Some, IfOk, true, false};
ghost use Rattle.std.specs.List.{Contains};
ghost use Rattle.points_to.specs.Ascending.{block_of, row_at, widths, rooms};

use crate::ascending::Rows;
use std::alloc::{AllocError, Global};
use std::marker::Model;

/// Where the row of a node stands.
#[derive(Clone, Copy, Debug)]
pub struct RowIndex {
    pub block: usize,
    pub at: usize,
}

/// Blocks of rows of numbers, each of which ascends.
#[derive(Drop)]
pub struct Sets {
    blocks: Vec<Rows>,
}

impl Model for Sets {
    ghost use Rattle.std.specs.Prelude.{List, ℕ};
    ghost use Rattle.points_to.specs.Ascending.{AreAscending};

    ghost Value = { List (List (List ℕ)) };

    ghost view = { λ s. s.blocks.items };

    ghost invariant = { λ s. AreAscending s.blocks.items };
}

impl Sets {
    /// No blocks.
    pub fn new(alloc: Global) -> Sets
        ensures { result ≡ [] }
    {
        Sets {
            blocks: Vec::new(alloc),
        }
    }

    /// One more block, of so many empty rows.
    pub fn push_block(&mut self, alloc: Global, count: usize) -> Result<(), AllocError>
        ensures widths { IfOk result (λ done. widths self.new ≡ widths self.old ++ count ∷ []) }
        ensures empty { ((b n : ℕ) → row_at self.old b n ≡ []) → (b n : ℕ) → row_at self.new b n ≡ [] }
    {
        self.blocks.push(Rows::new(alloc, count)?)?;
        Ok(())
    }

    /// The k-th number of a row.
    pub fn get(&self, spot: RowIndex, k: usize) -> Option<u16>
        ensures { result ≡ slice_get (row_at self.now spot.block spot.at) k }
    {
        match self.blocks.get(spot.block) {
            Some(rows) => rows.get(spot.at, k),
            None => None,
        }
    }

    /// How many places a set has.
    pub fn len_of(&self, spot: RowIndex) -> usize
        ensures { result ≡ length (row_at self.now spot.block spot.at) }
    {
        match self.blocks.get(spot.block) {
            Some(rows) => rows.len_of(spot.at),
            None => 0,
        }
    }

    /// How many blocks of sets there are.
    pub fn blocks(&self) -> usize
        ensures { result ≡ length self.now }
    {
        self.blocks.len()
    }

    /// How many rows a block has.
    pub fn count(&self, block: usize) -> usize
        ensures { result ≡ length (block_of self.now block) }
    {
        match self.blocks.get(block) {
            Some(rows) => rows.count(),
            None => 0,
        }
    }

    /// Adds a number to a row, and tells whether it wasn't there.
    pub fn add(&mut self, spot: RowIndex, p: u16) -> Result<bool, AllocError>
        requires { spot.at < length (block_of self.old spot.block) }
        ensures widths { widths self.new ≡ widths self.old }
        ensures in_it { IfOk result (λ added. Contains (row_at self.new spot.block spot.at) p) }
        ensures from { (b n q : ℕ) → Contains (row_at self.new b n) q → Contains (row_at self.old b n) q ⊎ ((b ≡ spot.block) × (n ≡ spot.at) × (q ≡ p)) }
        ensures same { IfOk result (λ added. added ≡ false → self.new ≡ self.old) }
        ensures falls { IfOk result (λ added. added ≡ true → rooms self.new < rooms self.old) }
    {
        self.blocks[spot.block].add(spot.at, p)
    }
}

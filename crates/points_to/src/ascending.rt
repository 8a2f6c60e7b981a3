//! Sets of numbers as ascending rows.
ghost use Rattle.std.specs.Prelude.{◌≡◌, ◌≢◌, ◌<◌, ◌≤◌, ◌+◌, ◌⊎◌, ℕ, List, [], length, slice_get, slice_index, slice_index_or, Some, None, MatchOption, IfOk, true, false, vec_len};
ghost use Rattle.std.specs.List.{Contains, insert};
ghost use Rattle.points_to.specs.Ascending.{IsAscending, row_of, In, room};

use std::alloc::{AllocError, Global};
use std::marker::Model;

/// Puts the number in its place, if it isn't there already.
fn insert_sorted(row: &mut Vec<u16>, p: u16) -> Result<bool, AllocError>
    requires { IsAscending row.old.items }
    ensures ascends { IsAscending row.new.items }
    ensures in_it { IfOk result (λ added. Contains row.new.items p) }
    ensures from { (q : ℕ) → Contains row.new.items q → Contains row.old.items q ⊎ (q ≡ p) }
    ensures same { IfOk result (λ added. added ≡ false → row.new.items ≡ row.old.items) }
    ensures longer { IfOk result (λ added. added ≡ true → length row.new.items ≡ length row.old.items + 1) }
    ensures small { length row.new.items < 9223372036854775808 }
{
    match row.binary_search(&p) {
        Ok(_) => Ok(false),
        Err(i) => {
            row.insert(i, p)?;
            Ok(true)
        }
    }
}

/// Rows of numbers, each of which ascends.
#[derive(Drop)]
pub struct Rows {
    rows: Vec<Vec<u16>>,
}

impl Model for Rows {
    ghost use Rattle.std.specs.Prelude.{List, ℕ, map};
    ghost use Rattle.points_to.specs.Ascending.{AreSound};

    ghost Value = { List (List ℕ) };

    ghost view = { λ r. map (λ row. row.items) r.rows.items };

    ghost invariant = { λ r. AreSound (map (λ row. row.items) r.rows.items) };
}

impl Rows {
    /// So many empty rows.
    pub fn new(alloc: Global, count: usize) -> Result<Self, AllocError>
        ensures { IfOk result (λ r. (length r ≡ count) × ((n : ℕ) → row_of r n ≡ [])) }
    {
        let mut rows = Vec::new(alloc);
        for _i in 0..count {
            rows.push(Vec::new(alloc))?;
        }
        Ok(Rows { rows })
    }

    /// How many rows there are.
    pub fn count(&self) -> usize
        ensures { result ≡ length self.now }
    {
        self.rows.len()
    }

    /// The k-th number of a row.
    pub fn get(&self, n: usize, k: usize) -> Option<u16>
        ensures { result ≡ slice_get (row_of self.now n) k }
    {
        match self.rows.get(n) {
            Some(row) => row.get(k).copied(),
            None => None,
        }
    }

    /// How many numbers a row has.
    pub fn len_of(&self, n: usize) -> usize
        ensures { result ≡ length (row_of self.now n) }
    {
        match self.rows.get(n) {
            Some(row) => row.len(),
            None => 0,
        }
    }

    /// Adds a number to a row, and tells whether it wasn't there.
    pub fn add(&mut self, n: usize, p: u16) -> Result<bool, AllocError>
        requires { n < length self.old }
        ensures length { length self.new ≡ length self.old }
        ensures in_it { IfOk result (λ added. In self.new n p) }
        ensures from { (m q : ℕ) → In self.new m q → In self.old m q ⊎ ((m ≡ n) × (q ≡ p)) }
        ensures same { IfOk result (λ added. added ≡ false → self.new ≡ self.old) }
        ensures falls { IfOk result (λ added. added ≡ true → room self.new < room self.old) }
        ensures ascend { (m : ℕ) → IsAscending (row_of self.new m) }
    {
        insert_sorted(&mut self.rows[n], p)
    }
}

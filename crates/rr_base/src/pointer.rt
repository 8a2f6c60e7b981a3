ghost use Rattle.std.specs.Prelude.{◌≡◌, ◌<◌, ◌≤◌, ◌^◌, ◌↔◌, pos, ◌+ℤ◌, IfOk};
ghost use Rattle.rr_base.specs.Words.{site_of, base_of, length_of, offset_of, pack, moved, cell_of, of_number, to_number, place_of};

use crate::layout::Place;
use crate::trap::Trap;
use std::marker::Model;

/// A pointer as one word, which contracts see as its number. From the top bit on it has the site that made the
/// object (10 bits), the object's first cell (22), its number of cells (16) and how many cells after the first the
/// pointer stands (16). A word of site 0 points nowhere, and holds a whole number of 54 bits; the word 0 is null.
#[derive(Clone, Copy, Debug, PartialEq, Eq, PartialOrd, Ord, Hash)]
pub struct PtrWord(u64);

impl Model for PtrWord {
    ghost use Rattle.std.specs.Prelude.{ℕ};
    ghost use Rattle.std.specs.Coded.{coded_ℕ};

    ghost Value = { ℕ };

    ghost coded = { coded_ℕ };

    ghost view = { λ p. p.0 };

    ghost inverse = { λ w. record { 0 = w } };
}

/// The greatest number that a word holds is one less, and the least one is this below zero.
const NUMBERS: i64 = 1 << 53;

impl PtrWord {
    /// The null pointer.
    pub fn null() -> PtrWord
        ensures { result ≡ 0 }
    {
        PtrWord(0)
    }

    /// The pointer of a word.
    pub fn from_word(word: u64) -> PtrWord
        ensures value { result ≡ word }
        ensures parts { pack (site_of result) (base_of result) (length_of result) (offset_of result) ≡ result }
    {
        PtrWord(word)
    }

    /// Its word.
    pub fn word(self) -> u64
        ensures { result ≡ self }
    {
        self.0
    }

    /// The pointer to the cell that lies `offset` cells after `base`, in the object of `length` cells from `base` on.
    pub fn pack(site: u16, base: u32, length: u16, offset: u16) -> PtrWord
        requires object { 0 < site }
        requires site { site < 2 ^ 10 }
        requires base { base < 2 ^ 22 }
        requires offset { offset ≤ length }
        ensures value { result ≡ pack site base length offset }
        ensures site { site_of result ≡ site }
        ensures base { base_of result ≡ base }
        ensures length { length_of result ≡ length }
        ensures offset { offset_of result ≡ offset }
    {
        PtrWord(
            (u64::from(site) << 54)
                + (u64::from(base) << 32)
                + (u64::from(length) << 16)
                + u64::from(offset),
        )
    }

    /// The site that made the object, and 0 where the word points nowhere.
    pub fn site(self) -> u16
        ensures value { result ≡ site_of self }
        ensures within { result < 2 ^ 10 }
    {
        (self.0 >> 54) as u16
    }

    /// The object's first cell.
    pub fn base(self) -> u32
        ensures value { result ≡ base_of self }
        ensures within { result < 2 ^ 22 }
    {
        ((self.0 >> 32) % (1 << 22)) as u32
    }

    /// The object's number of cells.
    pub fn length(self) -> u16
        ensures { result ≡ length_of self }
    {
        ((self.0 >> 16) % (1 << 16)) as u16
    }

    /// How many cells after the object's first one the pointer stands.
    pub fn offset(self) -> u16
        ensures { result ≡ offset_of self }
    {
        (self.0 % (1 << 16)) as u16
    }

    /// The pointer `by` cells further on (C99 6.5.6). It is BadDereference where the word points nowhere, and
    /// OutOfObject where the pointer would leave its object by more than the one place after it.
    pub fn moved(self, by: i64) -> Result<PtrWord, Trap>
        ensures value { result ≡ moved self by }
        ensures nowhere { (result ≡ Err Trap.BadDereference) ↔ (site_of self ≡ 0) }
        ensures object { IfOk result (λ p. (site_of p ≡ site_of self) × (base_of p ≡ base_of self) × (length_of p ≡ length_of self)) }
        ensures offset { IfOk result (λ p. pos (offset_of p) ≡ pos (offset_of self) +ℤ by) }
    {
        if self.site() == 0 {
            return Err(Trap::BadDereference);
        }
        let Some(offset) = i64::from(self.offset()).checked_add(by) else {
            return Err(Trap::OutOfObject);
        };
        if offset < 0 || offset > i64::from(self.length()) {
            return Err(Trap::OutOfObject);
        }
        Ok(PtrWord::pack(self.site(), self.base(), self.length(), offset as u16))
    }

    /// The cell to which the word points (C99 6.5.3.2). It is BadDereference where the word points nowhere, and
    /// OutOfObject where it points right after its object.
    pub fn cell(self) -> Result<u32, Trap>
        ensures { result ≡ cell_of self }
    {
        if self.site() == 0 {
            return Err(Trap::BadDereference);
        }
        if self.offset() >= self.length() {
            return Err(Trap::OutOfObject);
        }
        Ok(self.base() + u32::from(self.offset()))
    }

    /// The word that holds the number `n`. It is CastRange exactly outside of -2^53 to 2^53 - 1.
    pub fn of_number(n: i64) -> Result<PtrWord, Trap>
        ensures value { result ≡ of_number n }
        ensures back { IfOk result (λ w. to_number w ≡ Ok n) }
    {
        if n < -NUMBERS || n >= NUMBERS {
            return Err(Trap::CastRange);
        }
        if n < 0 {
            return Ok(PtrWord((n + 2 * NUMBERS) as u64));
        }
        Ok(PtrWord(n as u64))
    }

    /// The number that the word holds. It is PointerToNumber exactly where the word points to an object.
    pub fn to_number(self) -> Result<i64, Trap>
        ensures value { result ≡ to_number self }
        ensures back { IfOk result (λ n. of_number n ≡ Ok self) }
    {
        if self.site() != 0 {
            return Err(Trap::PointerToNumber);
        }
        let word = self.0 as i64;
        if word < NUMBERS {
            return Ok(word);
        }
        Ok(word - 2 * NUMBERS)
    }

    /// The place to which the word points, where the elements of its site have `element` cells.
    pub fn place(self, element: u32) -> Place
        requires { 0 < element }
        ensures { result ≡ place_of element self }
    {
        let class = if element > 64 {
            0
        } else {
            (u32::from(self.offset()) % element) as u8
        };
        Place {
            site: self.site(),
            class,
        }
    }
}

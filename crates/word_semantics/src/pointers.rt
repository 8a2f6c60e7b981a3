// Pointer words in a code: the cells that they point to, how they are moved and how they compare.
ghost use Rattle.std.specs.Prelude.{◌≡◌, ◌<◌, ◌^◌, ◌%◌, ◌*ℤ◌, pos};
ghost use Rattle.std.specs.Option.{option_copied};
ghost use Rattle.rr_base.specs.Words.{pack};
ghost use Rattle.word_semantics.specs.Pointers as spec;

use crate::evaluate;
use rr_base::{CellKind, Layout, PtrWord, Site, Trap};

/// The site of this number; the first has number 1.
pub fn site_at(sites: &[Site], number: u16) -> Option<&Site>
    ensures { option_copied result ≡ spec.site_at sites.now number }
{
    if number == 0 {
        return None;
    }
    sites.get(usize::from(number) - 1)
}

/// The word as the code reads it: one of a site that the code doesn't have is read as a word of site 0.
pub fn known(sites: &[Site], word: u64) -> PtrWord
    ensures { result ≡ spec.known sites.now word }
{
    let pointer = PtrWord::from_word(word);
    if usize::from(pointer.site()) <= sites.len() {
        pointer
    } else {
        PtrWord::from_word(word % (1 << 54))
    }
}

fn is_kind(found: Option<CellKind>, want: CellKind) -> bool
    ensures { result ≡ spec.is_kind found want }
{
    match found {
        Some(kind) => kind == want,
        None => false,
    }
}

// The rest of an offset by a size, without a division where it is below.
#[tactic(auto, using(crate::proofs::Offsets::within_one))]
fn within(offset: u32, size: u32) -> u32
    requires { 0 < size }
    ensures { result ≡ offset % size }
{
    if offset < size { offset } else { offset % size }
}

fn kind_at(layout: &Layout, offset: u16) -> Option<CellKind>
    ensures { result ≡ spec.kind_at layout.now offset }
{
    if layout.size == 0 {
        return None;
    }
    layout
        .kinds
        .get(within(u32::from(offset), layout.size) as usize)
        .copied()
}

fn kind_in(site: Option<&Site>, offset: u16) -> Option<CellKind>
    ensures { result ≡ spec.kind_in (option_copied site.entry) offset }
{
    kind_at(&site?.layout, offset)
}

/// The cell to which the word points, for an access of this kind (C99 6.5.3.2). It is BadDereference or OutOfObject
/// where the word points to no cell, else BadKind where the cell is of another kind.
pub fn resolved(sites: &[Site], word: u64, want: CellKind) -> Result<u32, Trap>
    ensures { result ≡ spec.resolved sites.now word want }
{
    let cell = known(sites, word).cell()?;
    let pointer = PtrWord::from_word(word);
    let kind = kind_in(site_at(sites, pointer.site()), pointer.offset());
    if is_kind(kind, want) {
        Ok(cell)
    } else {
        Err(Trap::BadKind)
    }
}

/// The pointer so many cells further on, within its object or right after it (C99 6.5.6). It is BadDereference
/// where the word points nowhere, else OutOfObject where the pointer would leave its object.
pub fn moved(sites: &[Site], word: u64, cells: i64) -> Result<u64, Trap>
    ensures { result ≡ spec.moved sites.now word cells }
{
    let pointer = known(sites, word).moved(cells)?;
    Ok(pointer.word())
}

// A number of elements, forwards or back; back, the least of 64 bits is one of 65.
fn directed(back: bool, elements: i64) -> i128
    ensures { result ≡ spec.directed back elements }
{
    if back {
        -i128::from(elements)
    } else {
        i128::from(elements)
    }
}

/// The pointer moved by so many elements of `element` cells, forwards or back (C99 6.5.6). It is OutOfObject where
/// the cells' number doesn't fit 64 bits, else as `moved` is.
pub fn moved_by(
    sites: &[Site],
    word: u64,
    elements: i64,
    element: u32,
    back: bool,
) -> Result<u64, Trap>
    ensures { result ≡ spec.moved_by sites.now word (spec.directed back elements *ℤ pos element) }
{
    let cells = directed(back, elements)
        .checked_mul(i128::from(element))
        .ok_or(Trap::OutOfObject)?;
    match i64::try_from(cells) {
        Ok(cells) => moved(sites, word, cells),
        Err(_) => Err(Trap::OutOfObject),
    }
}

/// The pointer to the first cell of a new object. Its parts are to fit, as those of a valid code do: a site below
/// 2^10, a base below 2^22 and at most 65,535 cells; else the word has what is left of them.
pub fn pointer_at(site: u16, base: u32, cells: u32) -> u64
    ensures value { result ≡ spec.pointer_at site base cells }
    ensures parts { site < 2 ^ 10 → base < 2 ^ 22 → cells < 2 ^ 16 → result ≡ pack site base cells 0 }
{
    let word = (u128::from(site) << 54) + (u128::from(base) << 32) + (u128::from(cells) << 16);
    (word % (1 << 64)) as u64
}

fn in_one_object(left: PtrWord, right: PtrWord) -> bool
    ensures { result ≡ spec.in_one_object left right }
{
    left.site() != 0 && left.site() == right.site() && left.base() == right.base()
}

/// What is asked of two pointers into one object (C99 6.5.8). It is CompareObjects exactly where they aren't.
pub fn compared(sites: &[Site], left: u64, right: u64, answer: u64) -> Result<u64, Trap>
    ensures { result ≡ spec.compared sites.now left right answer }
{
    if in_one_object(known(sites, left), known(sites, right)) {
        Ok(answer)
    } else {
        Err(Trap::CompareObjects)
    }
}

/// How many elements of `element` cells lie from the second pointer to the first, truncated towards zero, as a
/// word (C99 6.5.6); of elements of no cells, 0.
pub fn elements_between(left: u64, right: u64, element: u32) -> u64
    ensures { result ≡ spec.elements_between left right element }
{
    if element == 0 {
        return 0;
    }
    let cells = i64::from(PtrWord::from_word(left).offset())
        - i64::from(PtrWord::from_word(right).offset());
    evaluate::word(cells / i64::from(element))
}

/// The number as a pointer (C99 6.3.2.3). It is CastRange exactly outside of -2^53 to 2^53 - 1.
pub fn pointer_to(number: i64) -> Result<u64, Trap>
    ensures { result ≡ spec.pointer_to number }
{
    let pointer = PtrWord::of_number(number)?;
    Ok(pointer.word())
}

/// The pointer as a number, as a word (C99 6.3.2.3). It is PointerToNumber exactly where it points to an object.
pub fn number_from(sites: &[Site], word: u64) -> Result<u64, Trap>
    ensures { result ≡ spec.number_from sites.now word }
{
    let number = known(sites, word).to_number()?;
    Ok(evaluate::word(number))
}

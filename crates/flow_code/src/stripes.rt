// Which stripes of weak locks a region takes.
ghost use Rattle.std.specs.Prelude.{◌≡◌, ◌≤◌, ◌<◌, ℕ, ◌+◌, ◌-◌, ◌*◌, ◌/◌, ◌^◌, min, ◌+ℤ◌, pos, length, slice_get};
ghost use Rattle.std.specs.List.{list_any};
ghost use Rattle.std.specs.Option.{option_copied};
ghost use Rattle.rr_base.specs.Words.{length_of};
ghost use Rattle.flow_code.specs.Stripes as spec;
ghost use Rattle.flow_code.specs.Stripes.{any_from};

use crate::code::{Code, LockInfo};
use crate::region::{Base, Bound, Region, Span};
use rr_base::{PtrWord, Site};
use word_semantics::{known, number, pointer_at, register, site_at, size_of};

// In which of a lock's stripes a cell of an object of so many cells lies.
fn stripe_at(stripes: u8, offset: u16, cells: u16) -> u32
    requires { offset < cells }
    ensures { result ≡ spec.stripe_at stripes offset cells }
{
    if stripes == 8 {
        u32::from(offset) * 8 / u32::from(cells)
    } else {
        0
    }
}

// Which cell of one element of the site's objects it is.
fn class_in(site: Option<&Site>, offset: u16) -> u32
    ensures { result ≡ spec.class_in (option_copied site.entry) offset }
{
    let Some(site) = site else {
        return 0;
    };
    let element = site.layout.element;
    if element == 0 || element > 64 {
        0
    } else {
        u32::from(offset) % element
    }
}

fn lock_guards(
    lock: Option<&LockInfo>,
    sites: &[Site],
    word: PtrWord,
    offset: u16,
    stripe: u32,
) -> bool
    requires { offset < length_of word }
    ensures { result ≡ spec.lock_guards (option_copied lock.entry) sites.now word offset stripe }
{
    let Some(lock) = lock else {
        return false;
    };
    lock.site == word.site()
        && u32::from(lock.class) == class_in(site_at(sites, word.site()), offset)
        && stripe == stripe_at(lock.stripes, offset, word.length())
}

// Whether the stripe guards the cell at this offset of the word's object.
fn guards(code: &Code, word: PtrWord, offset: u16, lock: u32, stripe: u32) -> bool
    requires { offset < length_of word }
    ensures { result ≡ spec.guards code.now word offset lock stripe }
{
    lock_guards(
        code.locks.get(lock as usize),
        code.sites.as_slice(),
        word,
        offset,
        stripe,
    )
}

// The pointer in a register, or one to the first cell of a global.
fn base_word(sites: &[Site], registers: &[u64], base: Base) -> PtrWord
    ensures { result ≡ spec.base_word sites.now registers.now base }
{
    match base {
        Base::Register(r) => known(sites, register(registers, r)),
        Base::Site(site) => known(sites, pointer_at(site, 0, size_of(sites, site))),
    }
}

fn cell_wants(code: &Code, word: PtrWord, lock: u32, stripe: u32) -> bool
    ensures { result ≡ spec.cell_wants code.now word lock stripe }
{
    if word.site() == 0 || word.offset() >= word.length() {
        return false;
    }
    guards(code, word, word.offset(), lock, stripe)
}

#[tactic(auto, using(crate::proofs::Counting::any_step))]
// Whether the stripe guards one of the word's cells from one offset to before another, each of which is looked at.
fn scan(code: &Code, word: PtrWord, first: u16, following: u16, lock: u32, stripe: u32) -> bool
    requires { following ≤ length_of word }
    ensures { result ≡ any_from (λ offset. spec.guards code.now word offset lock stripe) (following - first) first }
{
    for offset in first..following {
        if guards(code, word, offset, lock, stripe) {
            return true;
        }
    }
    false
}

// The first cell, in an object of so many, that lies in this eighth or in a later one.
fn first_in_eighth(eighth: u64, cells: u16) -> u16
    requires { eighth ≤ 2 ^ 32 }
    ensures { result ≡ min ((eighth * cells + 7) / 8) cells }
{
    let first = (eighth * u64::from(cells) + 7) / 8;
    first.min(u64::from(cells)) as u16
}

// From which cell to before which other the cells lie that a lock guards by this stripe, in an object of so many.
#[tactic(auto, using(crate::proofs::Scanning::in_eighth))]
fn cells_of_stripe(stripes: u8, stripe: u32, cells: u16) -> (u16, u16)
    ensures guarded { (offset : ℕ) → offset < cells → spec.stripe_at stripes offset cells ≡ stripe → (result.0 ≤ offset) × (offset < result.1) }
    ensures within { result.1 ≤ cells }
{
    if stripes != 8 {
        return (0, cells);
    }
    let stripe = u64::from(stripe);
    (
        first_in_eighth(stripe, cells),
        first_in_eighth(stripe + 1, cells),
    )
}

// Whether the stripe guards a cell of the word's object from one offset to before another. Only cells that lie in the stripe
// are looked at.
#[tactic(auto, using(crate::proofs::Scanning::no_lock, crate::proofs::Scanning::other_site, crate::proofs::Scanning::in_stripe))]
fn guards_any(
    code: &Code,
    word: PtrWord,
    first: u16,
    following: u16,
    lock: u32,
    stripe: u32,
) -> bool
    requires { following ≤ length_of word }
    ensures { result ≡ any_from (λ offset. spec.guards code.now word offset lock stripe) (following - first) first }
{
    let Some(info) = code.locks.get(lock as usize) else {
        return false;
    };
    if info.site != word.site() {
        return false;
    }
    let (from, to) = cells_of_stripe(info.stripes, stripe, word.length());
    scan(code, word, first.max(from), following.min(to), lock, stripe)
}

// The number, but at least 0 and at most so many.
fn clamped(most: u16, number: i128) -> u16
    ensures value { result ≡ spec.clamped most number }
    ensures within { result ≤ most }
{
    if number < 0 {
        0
    } else if number >= i128::from(most) {
        most
    } else {
        number as u16
    }
}

fn cells_want(
    code: &Code,
    word: PtrWord,
    first: i128,
    following: i128,
    lock: u32,
    stripe: u32,
) -> bool
    ensures { result ≡ spec.cells_want code.now word first following lock stripe }
{
    if word.site() == 0 {
        return false;
    }
    let most = word.length();
    guards_any(
        code,
        word,
        clamped(most, first),
        clamped(most, following),
        lock,
        stripe,
    )
}

fn among(locks: &[u16], lock: u32) -> bool
    ensures { result ≡ spec.among locks.now lock }
{
    locks.iter().any(|l| u32::from(*l) == lock)
}

// How many cells after the object's first one an element lies, which may be outside.
fn offset_at(offset: u16, element: i64, shift: i64) -> i128
    ensures { result ≡ pos offset +ℤ element +ℤ shift }
{
    i128::from(offset) + i128::from(element) + i128::from(shift)
}

// Whether the stripe guards an element from counter to before bound, counted from where the word points to.
fn range_wants(
    code: &Code,
    word: PtrWord,
    counter: i64,
    bound: i64,
    shift: i64,
    lock: u32,
    stripe: u32,
) -> bool
    ensures { result ≡ spec.range_wants code.now word counter bound shift lock stripe }
{
    let first = offset_at(word.offset(), counter, shift);
    let following = offset_at(word.offset(), bound, shift);
    cells_want(code, word, first, following, lock, stripe)
}

fn span_wants(
    code: &Code,
    registers: &[u64],
    counter: i64,
    bound: i64,
    lock: u32,
    stripe: u32,
    span: &Span,
) -> bool
    ensures { result ≡ spec.span_wants code.now registers.now counter bound lock stripe span.now }
{
    if !among(span.locks.as_slice(), lock) {
        return false;
    }
    let word = base_word(code.sites.as_slice(), registers, span.base);
    range_wants(code, word, counter, bound, span.shift, lock, stripe)
}

fn spans_want(
    code: &Code,
    registers: &[u64],
    counter: i64,
    bound: i64,
    lock: u32,
    stripe: u32,
    spans: &[Span],
) -> bool
    ensures { result ≡ list_any (spec.span_wants code.now registers.now counter bound lock stripe) spans.now }
{
    spans.iter().any(|span| span_wants(code, registers, counter, bound, lock, stripe, span))
}

fn bound_of(registers: &[u64], bound: Bound) -> i64
    ensures { result ≡ spec.bound_of registers.now bound }
{
    match bound {
        Bound::Number(value) => value,
        Bound::Register(r) => number(register(registers, r)),
    }
}

fn stripes_in(lock: Option<&LockInfo>) -> u32
    ensures { result ≡ spec.stripes_in (option_copied lock.entry) }
{
    match lock {
        Some(lock) => u32::from(lock.stripes),
        None => 0,
    }
}

fn wants(code: &Code, registers: &[u64], region: &Region, lock: u32, stripe: u32) -> bool
    ensures { result ≡ spec.wants code.now registers.now region.now lock stripe }
{
    match region {
        Region::Whole { locks } => {
            among(locks.as_slice(), lock) && stripe < stripes_in(code.locks.get(lock as usize))
        }
        Region::Ranged {
            counter,
            bound,
            spans,
        } => {
            let from = number(register(registers, *counter));
            let to = bound_of(registers, *bound);
            spans_want(code, registers, from, to, lock, stripe, spans.as_slice())
        }
        Region::Cell { base, locks } => {
            among(locks.as_slice(), lock)
                && cell_wants(
                    code,
                    base_word(code.sites.as_slice(), registers, *base),
                    lock,
                    stripe,
                )
        }
    }
}

/// Whether the region, in a frame with these registers, takes the stripe that has this number: eight for each lock.
pub fn wants_number(code: &Code, registers: &[u64], region: &Region, number: u32) -> bool
    ensures { result ≡ spec.wants_number code.now registers.now region.now number }
{
    wants(code, registers, region, number / 8, number % 8)
}

// The first of the locks, or 0.
fn first_of(locks: &[u16]) -> u32
    ensures value { result ≡ spec.or_zero (slice_get locks.now 0) }
    ensures within { result < 65536 }
{
    match locks.first() {
        Some(lock) => u32::from(*lock),
        None => 0,
    }
}

// The lock after the last one, or 0.
fn end_of(locks: &[u16]) -> u32
    ensures value { result ≡ spec.after_lock (slice_get locks.now (length locks.now - 1)) }
    ensures within { result ≤ 65536 }
{
    match locks.last() {
        Some(lock) => u32::from(*lock) + 1,
        None => 0,
    }
}

/// The first lock of which the region can take a stripe.
pub fn first_lock(region: &Region) -> u32
    ensures value { result ≡ spec.first_lock region.now }
    ensures within { result ≤ 65536 }
{
    match region {
        Region::Whole { locks } | Region::Cell { base: _, locks } => first_of(locks.as_slice()),
        Region::Ranged { .. } => 0,
    }
}

/// The lock after the last one of which the region can take a stripe.
pub fn end_lock(code: &Code, region: &Region) -> u32
    ensures value { result ≡ spec.end_lock code.now region.now }
    ensures within { result ≤ 65536 }
{
    match region {
        Region::Whole { locks } | Region::Cell { base: _, locks } => end_of(locks.as_slice()),
        Region::Ranged { .. } => code.locks.len().min(65_536) as u32,
    }
}

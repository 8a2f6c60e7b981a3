// The addresses of globals, and whether the objects of globals lie apart.
ghost use Rattle.std.specs.Prelude.{◌≡◌, drop};
ghost use Rattle.rr_base.specs.Words.{pack};
ghost use Rattle.word_semantics.specs.Pointers as pointers;
ghost use Rattle.flow_code.specs.Addresses as spec;

use crate::code::Code;
use rr_base::{CellKind, PtrWord, Site};
use word_semantics::site_at;

/// The first global cell of the object of the site with this number; none of a site that is no global.
pub fn base_at(bases: &[Option<u32>], site: u16) -> Option<u32>
    ensures { result ≡ pointers.base_at bases.now site }
{
    if site == 0 {
        return None;
    }
    match bases.get(usize::from(site) - 1) {
        Some(base) => *base,
        None => None,
    }
}

// The word of a pointer to a whole object. In a code that isn't valid it may need more than 64 bits.
fn whole(site: u16, base: u32, size: u32) -> u128
    ensures { result ≡ pack site base size 0 }
{
    let site = u128::from(site) * (1 << 54);
    let base = u128::from(base) * (1 << 32);
    let size = u128::from(size) * (1 << 16);
    site + base + size
}

// The pointer to the object of a global site.
fn address_of(code: &Code, site: u16) -> Option<u128>
    ensures { result ≡ spec.address_of code.now site }
{
    let object = site_at(code.sites.as_slice(), site)?;
    let base = base_at(code.global_bases.as_slice(), site)?;
    Some(whole(site, base, object.layout.size))
}

/// Whether the site's object is a global's.
pub(crate) fn is_global(code: &Code, site: u16) -> bool
    ensures { result ≡ spec.is_global code.now site }
{
    address_of(code, site).is_some()
}

/// Whether the word is the pointer to the whole object of a global site.
pub(crate) fn is_address(code: &Code, word: u64) -> bool
    ensures { result ≡ spec.is_address code.now word }
{
    match address_of(code, PtrWord::from_word(word).site()) {
        Some(address) => u128::from(word) == address,
        None => false,
    }
}

// The address that a global cell holds at the start.
fn address_at(kind: CellKind, word: u64) -> Option<u64>
    ensures { result ≡ spec.address_at kind word }
{
    match kind {
        CellKind::Pointer => { if word == 0 { None } else { Some(word) } }
        CellKind::Whole | CellKind::Mutex | CellKind::Cond | CellKind::Barrier | CellKind::Rw =>
            None,
    }
}

// Whether the kinds of the first cells are these.
fn begin_with(kinds: &[CellKind], wanted: &[CellKind]) -> bool
    ensures { result ≡ spec.begin_with kinds.now wanted.now }
{
    let mut kinds_left = kinds;
    let mut wanted_left = wanted;
    while let [want, others @ ..] = wanted_left {
        let [kind, more @ ..] = kinds_left else {
            return false;
        };
        if *kind != *want {
            return false;
        }
        kinds_left = more;
        wanted_left = others;
    }
    true
}

fn kinds_from(kinds: &[CellKind], base: u32) -> &[CellKind]
    ensures { result.now ≡ drop base kinds.now }
{
    if base as usize <= kinds.len() {
        &kinds[base as usize..]
    } else {
        &[]
    }
}

fn lies_apart(base: u32, cells: u32, other: Option<u32>, site: &Site) -> bool
    ensures { result ≡ spec.lies_apart base cells other site.now }
{
    let Some(other) = other else {
        return true;
    };
    u64::from(base) + u64::from(cells) <= u64::from(other)
        || u64::from(other) + u64::from(site.layout.size) <= u64::from(base)
}

// Whether the cells from `base` on, so many, are none of those of these sites' objects.
fn all_apart(base: u32, cells: u32, bases: &[Option<u32>], sites: &[Site]) -> bool
    ensures { result ≡ spec.all_apart base cells bases.now sites.now }
{
    let mut bases_left = bases;
    let mut sites_left = sites;
    while let [other, more @ ..] = bases_left {
        let [site, rest @ ..] = sites_left else {
            return true;
        };
        if !lies_apart(base, cells, *other, site) {
            return false;
        }
        bases_left = more;
        sites_left = rest;
    }
    true
}

// Whether an object lies within the global cells, with the kinds of its layout, and has no cell of a later one.
fn object_fits(
    code: &Code,
    base: Option<u32>,
    site: &Site,
    bases: &[Option<u32>],
    sites: &[Site],
) -> bool
    ensures { result ≡ spec.object_fits code.now base site.now bases.now sites.now }
{
    let Some(base) = base else {
        return true;
    };
    let size = site.layout.size;
    base as usize + size as usize <= code.globals.len()
        && begin_with(
            kinds_from(code.global_kinds.as_slice(), base),
            site.layout.kinds.as_slice(),
        )
        && all_apart(base, size, bases, sites)
}

fn objects_fit(code: &Code, bases: &[Option<u32>], sites: &[Site]) -> bool
    ensures { result ≡ spec.objects_fit code.now bases.now sites.now }
{
    let mut bases_left = bases;
    let mut sites_left = sites;
    while let [base, more @ ..] = bases_left {
        let [site, rest @ ..] = sites_left else {
            return true;
        };
        if !object_fits(code, *base, site, more, rest) {
            return false;
        }
        bases_left = more;
        sites_left = rest;
    }
    true
}

fn word_fits(code: &Code, address: Option<u64>) -> bool
    ensures { result ≡ spec.word_fits code.now address }
{
    match address {
        Some(word) => is_address(code, word),
        None => true,
    }
}

// Whether the word of each pointer cell is null or an address.
fn words_fit(code: &Code, kinds: &[CellKind], words: &[u64]) -> bool
    ensures { result ≡ spec.words_fit code.now kinds.now words.now }
{
    let mut kinds_left = kinds;
    let mut words_left = words;
    while let [kind, more @ ..] = kinds_left {
        let [word, rest @ ..] = words_left else {
            return true;
        };
        if !word_fits(code, address_at(*kind, *word)) {
            return false;
        }
        kinds_left = more;
        words_left = rest;
    }
    true
}

/// Whether each global cell has a kind and a word that fits, and belongs to one site at most.
pub(crate) fn globals_fit(code: &Code) -> bool
    ensures { result ≡ spec.globals_fit code.now }
{
    code.global_kinds.len() == code.globals.len()
        && code.global_bases.len() == code.sites.len()
        && words_fit(code, code.global_kinds.as_slice(), code.globals.as_slice())
        && objects_fit(code, code.global_bases.as_slice(), code.sites.as_slice())
}

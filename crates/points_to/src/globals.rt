//! The constraints of the start words of a code's globals.
ghost use Rattle.std.specs.Prelude.{◌≡◌, ◌≤◌, ◌++◌, ℕ, drop, take, length, OnOk};
ghost use Rattle.rr_base.specs.Words.{class_of as class_at};
ghost use Rattle.flow_code.specs.Addresses.{address_at as address_for};
ghost use Rattle.facts.specs.PointsTo as spec;

use facts::{Constraint, Node};
use flow_code::{Code, base_at};
use rr_base::{CellKind, List, Place, PtrWord, Site};
use std::alloc::AllocError;

/// The address that a global cell holds at the start.
fn address_at(kind: CellKind, word: u64) -> Option<u64>
    ensures { result ≡ address_for kind word }
{
    match kind {
        CellKind::Pointer => { if word == 0 { None } else { Some(word) } }
        CellKind::Whole | CellKind::Mutex | CellKind::Cond | CellKind::Barrier | CellKind::Rw =>
            None,
    }
}

/// The class of the cell at an offset.
fn class_of(element: u32, offset: usize) -> u8
    requires { 1 ≤ element }
    ensures { result ≡ class_at element offset }
{
    if element > 64 {
        0
    } else {
        (offset % element as usize) as u8
    }
}

/// Where a cell points at the start.
fn push_word(
    site: u16,
    element: u32,
    offset: usize,
    address: Option<u64>,
    out: &mut List<Constraint>,
) -> Result<(), AllocError>
    requires { 1 ≤ element }
    ensures { OnOk result (out.new ≡ out.old ++ spec.word_constraints site element offset address) }
{
    match address {
        None => Ok(()),
        Some(word) => out.push(Constraint::Given {
            node: Node::Cells(Place {
                site,
                class: class_of(element, offset),
            }),
            place: Place {
                site: PtrWord::from_word(word).site(),
                class: 0,
            },
        }),
    }
}

/// The pointers that the cells of an object hold at the start.
fn push_cells(
    site: u16,
    element: u32,
    kinds: &[CellKind],
    words: &[u64],
    out: &mut List<Constraint>,
) -> Result<(), AllocError>
    requires { 1 ≤ element }
    ensures { OnOk result (out.new ≡ out.old ++ spec.cells_constraints site element 0 kinds.now words.now) }
{
    let mut offset = 0;
    let mut kinds_left = kinds;
    let mut words_left = words;
    while let [kind, more @ ..] = kinds_left {
        let [word, rest @ ..] = words_left else {
            return Ok(());
        };
        push_word(site, element, offset, address_at(*kind, *word), out)?;
        offset += 1;
        kinds_left = more;
        words_left = rest;
    }
    Ok(())
}

/// The kinds from a place on, as many as there are of these.
fn kinds_from(kinds: &[CellKind], first: usize, count: usize) -> &[CellKind]
    ensures { result.now ≡ take count (drop first kinds.now) }
{
    let first = first.min(kinds.len());
    let rest = &kinds[first..];
    let count = count.min(rest.len());
    &rest[..count]
}

fn words_from(words: &[u64], first: usize) -> &[u64]
    ensures { result.now ≡ drop first words.now }
{
    let first = first.min(words.len());
    &words[first..]
}

/// What the object of a global site holds at the start.
fn push_object(
    code: &Code,
    number: u16,
    site: &Site,
    base: Option<u32>,
    out: &mut List<Constraint>,
) -> Result<(), AllocError>
    requires { 1 ≤ site.now.layout.element }
    ensures { OnOk result (out.new ≡ out.old ++ spec.object_constraints code.now number site.now base) }
{
    let Some(base) = base else {
        return Ok(());
    };
    let base = base as usize;
    let size = site.layout.size as usize;
    let kinds = kinds_from(code.global_kinds.as_slice(), base, size);
    let words = words_from(code.globals.as_slice(), base);
    push_cells(number, site.layout.element, kinds, words, out)
}

/// What the objects of all global sites hold at the start.
pub fn push_sites(code: &Code, out: &mut List<Constraint>) -> Result<(), AllocError>
    requires sites { length code.now.sites ≤ 1023 }
    requires elements { (s : ℕ) → 1 ≤ spec.element_of code.now.sites s }
    ensures { OnOk result (out.new ≡ out.old ++ spec.sites_constraints code.now 1 code.now.sites) }
{
    let bases = code.global_bases.as_slice();
    let sites = code.sites.as_slice();
    for k in 0..sites.len() {
        let number = k as u16 + 1;
        push_object(code, number, &sites[k], base_at(bases, number), out)?;
    }
    Ok(())
}

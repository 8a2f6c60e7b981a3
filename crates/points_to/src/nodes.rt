//! Where the rows of nodes stand, and places as numbers.
ghost use Rattle.std.specs.Prelude.{◌≡◌, ◌<◌, ◌≤◌, ◌+◌, ◌*◌, ◌/◌, ◌^◌, ℕ, ℤ, pos, ◌*ℤ◌, unsigned_abs, length, Some};
ghost use Rattle.word_semantics.specs.Pointers.{directed as directed_by};
ghost use Rattle.facts.specs.PointsTo as spec;
ghost use Rattle.points_to.specs.Nodes.{number_of as number_for, place_from, block_at, index_at, IsPlace};

use crate::sets::RowIndex;
use facts::Node;
use flow_code::Code;
use rr_base::{Place, Site};
use word_semantics::site_at;

/// Where the row of a node stands.
pub fn spot_of(code: &Code, node: Node) -> RowIndex
    requires { length code.now.functions ≤ 2 ^ 20 }
    ensures block { result.block ≡ block_at (length code.now.functions) node }
    ensures at { result.at ≡ index_at (length code.now.functions) node }
{
    let functions = code.functions.len();
    match node {
        Node::Register { function, register } => RowIndex {
            block: function as usize + 1,
            at: register as usize,
        },
        Node::Result(function) => RowIndex {
            block: 0,
            at: function as usize,
        },
        Node::Ended => RowIndex {
            block: 0,
            at: functions,
        },
        Node::Cells(place) => RowIndex {
            block: functions + usize::from(place.site),
            at: usize::from(place.class),
        },
    }
}

/// The place of a number.
pub fn place_at(number: u16) -> Place
    ensures { result ≡ place_from number }
{
    Place {
        site: number / 64,
        class: (number % 64) as u8,
    }
}

/// The number of a place.
pub fn number_of(place: Place) -> u16
    requires site { place.site < 1024 }
    requires class { place.class < 64 }
    ensures { result ≡ number_for place }
{
    place.site * 64 + u16::from(place.class)
}

/// How many cells an element of the site's objects has.
pub fn element_of(sites: &[Site], site: u16) -> u32
    ensures { result ≡ spec.element_of sites.now site }
{
    match site_at(sites, site) {
        Some(site) => site.layout.element,
        None => 1,
    }
}

/// How many classes a site with such elements has.
pub fn classes_of(element: u32) -> u16
    ensures value { result ≡ spec.classes_of element }
    ensures within { result ≤ 64 }
{
    if element > 64 { 1 } else { element as u16 }
}

/// The number of elements, forwards or back.
fn directed(back: bool, by: i64) -> i128
    ensures value { result ≡ directed_by back by }
    ensures small { unsigned_abs result ≤ 2 ^ 63 }
{
    let by = i128::from(by);
    if back { 0 - by } else { by }
}

/// The class so many cells on.
fn class_on(element: u32, class: u8, by: i128) -> u8
    requires element { 1 ≤ element }
    requires small { unsigned_abs by ≤ 2 ^ 96 }
    ensures value { result ≡ spec.class_on element class by }
    ensures within { result < 64 }
{
    if element > 64 {
        return 0;
    }
    (i128::from(class) + by).rem_euclid(i128::from(element)) as u8
}

/// So many elements of so many cells, forwards or back.
fn cells_in(by: i64, element: u32, back: bool) -> i128
    ensures value { result ≡ directed_by back by *ℤ pos element }
    ensures small { unsigned_abs result ≤ 2 ^ 96 }
{
    directed(back, by) * i128::from(element)
}

/// The number of the place that lies so many elements of so many cells on, or back.
pub fn moved(sites: &[Site], number: u16, by: i64, element: u32, back: bool) -> u16
    requires { 1 ≤ spec.element_of sites.now (number / 64) }
    ensures { result ≡ number_for (spec.place_on sites.now (place_from number) (directed_by back by *ℤ pos element)) }
{
    let place = place_at(number);
    let cells = cells_in(by, element, back);
    let class = class_on(element_of(sites, place.site), place.class, cells);
    number_of(Place {
        site: place.site,
        class,
    })
}

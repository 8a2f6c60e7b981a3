//! The sets of nodes as tables of places.
ghost use Rattle.std.specs.Prelude.{◌≡◌, ◌<◌, ◌+◌, ◌^◌, ℕ, [], map, length, slice_index_or, IfOk};
ghost use Rattle.points_to.specs.Ascending.{block_of, row_at};
ghost use Rattle.points_to.specs.Nodes.{place_from, listed};

use crate::nodes::place_at;
use crate::sets::{RowIndex, Sets};
use rr_base::{List, Place};
use std::alloc::{AllocError, Global};

/// The places of a row.
fn places_of(alloc: Global, sets: &Sets, spot: RowIndex) -> Result<List<Place>, AllocError>
    ensures { IfOk result (λ ps. ps ≡ map place_from (row_at sets.now spot.block spot.at)) }
{
    let mut places = List::new(alloc);
    for k in 0..sets.len_of(spot) {
        let Some(number) = sets.get(spot, k) else {
            return Ok(places);
        };
        places.push(place_at(number))?;
    }
    Ok(places)
}

/// The places of a block's rows.
fn block_places(alloc: Global, sets: &Sets, block: usize) -> Result<List<List<Place>>, AllocError>
    ensures { IfOk result (λ pss. pss ≡ listed (block_of sets.now block)) }
{
    let mut lists = List::new(alloc);
    for at in 0..sets.count(block) {
        lists.push(places_of(alloc, sets, RowIndex { block, at })?)?;
    }
    Ok(lists)
}

/// The places of so many blocks.
pub fn table_of(
    alloc: Global,
    sets: &Sets,
    first: usize,
    count: usize,
) -> Result<List<List<List<Place>>>, AllocError>
    requires { first + count < 2 ^ 64 }
    ensures length { IfOk result (λ t. length t ≡ count) }
    ensures each { IfOk result (λ t. (k : ℕ) → k < count → slice_index_or t k [] ≡ listed (block_of sets.now (first + k))) }
{
    let mut table = List::new(alloc);
    for k in 0..count {
        table.push(block_places(alloc, sets, first + k)?)?;
    }
    Ok(table)
}

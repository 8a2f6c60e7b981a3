// Where the table has its words.
ghost use Rattle.std.specs.Prelude.{◌≡◌, ◌^◌, ◌<◌, length, IfOk};
ghost use Rattle.shared_cells.specs.Words.{spread, IsSpread};

use std::alloc::{AllocError, Global};

/// So many globals, and the mutexes in them, have lines of the cache of their own.
pub(crate) const LONE_GLOBALS: usize = 256;

// No memory has room for more words.
const MOST_WORDS: usize = 1 << 59;

/// The spot of a place: after each word that stands alone on its line of the cache there are seven fillers.
#[inline(always)]
pub(crate) fn spot_of(cells: usize, lone: usize, place: usize) -> usize
    requires cells { cells < 2 ^ 32 }
    requires fits { spread cells lone place < 2 ^ 64 }
    ensures { result ≡ spread cells lone place }
{
    let lone_before = place.min(lone) + place.saturating_sub(cells).min(lone);
    place + 7 * (lone_before + place.saturating_sub(5 * cells))
}

/// A table's words, with each of these at its spot.
pub(crate) fn spread_words(
    alloc: Global,
    cells: usize,
    lone: usize,
    words: &[u64],
) -> Result<Vec<u64>, AllocError>
    requires { cells < 2 ^ 32 }
    ensures spread { IfOk result (λ it. IsSpread cells lone words.now it.items) }
    ensures fits { IfOk result (λ it. length it.items < 2 ^ 64) }
{
    if words.len() > MOST_WORDS {
        return Err(AllocError);
    }
    let mut table = vec![in alloc; 0; spot_of(cells, lone, words.len())]?;
    for k in 0..words.len() {
        table[spot_of(cells, lone, k)] = words[k];
    }
    Ok(table)
}

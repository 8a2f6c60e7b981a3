// Rows of guarded accesses that ascend.
ghost use Rattle.std.specs.Prelude.{◌≡◌, ◌≤◌, ◌<◌, ◌^◌, ℕ, true, false, length, slice_get, slice_set, MatchResult, IfOk, Some};
ghost use Rattle.facts.specs.Summaries.{guarded_ascend, guarded_less as guarded_less_of};
ghost use Rattle.facts.specs.declared.locks.Guarded.{Guarded as Entry};
ghost use Rattle.lockset_summary.specs.Guarding.{IsPlace, IsPut};

use crate::compare::guarded_less;
use facts::Guarded;
use rr_base::List;
use std::alloc::AllocError;

fn access_at(row: &[Guarded], place: usize) -> &Guarded
    requires { place < length row.now }
    ensures { slice_get row.now place ≡ Some result.now }
{
    &row[place]
}

// Where the access stands in the row, or where it is to be put.
fn place_of(row: &[Guarded], access: &Guarded) -> Result<usize, usize>
    requires { guarded_ascend row.now ≡ true }
    ensures { MatchResult result (λ i. slice_get row.now i ≡ Some access.now) (λ i. IsPlace row.now access.now i) }
{
    let mut low = 0;
    let mut high = row.len();
    while low < high {
        let middle = low + (high - low) / 2;
        let standing = access_at(row, middle);
        if guarded_less(standing, access) {
            low = middle + 1;
        } else if guarded_less(access, standing) {
            high = middle;
        } else {
            return Ok(middle);
        }
    }
    Err(low)
}

// Puts the access where it is to be put, and tells that it wasn't there.
fn insert_at(row: &mut List<Guarded>, place: usize, access: Guarded) -> Result<bool, AllocError>
    requires ascends { guarded_ascend row.old ≡ true }
    requires place { IsPlace row.old access place }
    ensures { IfOk result (λ added. IsPut row.old access row.new added) }
{
    row.insert(place, access)?;
    let _length = row.len();
    Ok(true)
}

/// Puts an access in its place in an ascending row, and tells whether it wasn't there.
pub fn insert(row: &mut List<Guarded>, access: Guarded) -> Result<bool, AllocError>
    requires { guarded_ascend row.old ≡ true }
    ensures { IfOk result (λ added. IsPut row.old access row.new added) }
{
    match place_of(row.as_slice(), &access) {
        Ok(_) => Ok(false),
        Err(place) => insert_at(row, place, access),
    }
}

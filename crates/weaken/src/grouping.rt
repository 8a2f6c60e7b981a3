// Items in groups, by number.
ghost use Rattle.std.specs.Prelude.{◌≡◌, ◌<◌, ◌==◌, ◌++◌, ◌∷◌, [], ℕ, length, slice_index_or, if◌then◌else◌, IfOk, OnOk, filter};
ghost use Rattle.weak_code.specs.Stretches as stretches;

use facts::AccessAt;
use rr_base::List;
use std::alloc::{AllocError, Global};
use weak_lock_facts::{Grained, Range};

/// So many empty groups.
pub(crate) fn empty_groups<T: Drop>(alloc: Global, count: usize) -> Result<Vec<List<T>>, AllocError>
    ensures len { IfOk result (λ v. length v.items ≡ count) }
    ensures each { IfOk result (λ v. (k : ℕ) → slice_index_or v.items k [] ≡ []) }
{
    let mut groups = Vec::new(alloc);
    for _at in 0..count {
        groups.push(List::new(alloc))?;
    }
    Ok(groups)
}

/// Puts an item at the end of its group, if there is such a group.
pub(crate) fn put<T: Drop>(groups: &mut Vec<List<T>>, at: usize, item: T) -> Result<(), AllocError>
    ensures len { length groups.new.items ≡ length groups.old.items }
    ensures each { OnOk result ((k : ℕ) → k < length groups.old.items → slice_index_or groups.new.items k [] ≡ (if at == k then slice_index_or groups.old.items k [] ++ item ∷ [] else slice_index_or groups.old.items k [])) }
{
    if at < groups.len() {
        groups[at].push(item)?;
    }
    Ok(())
}

/// The accesses of each function.
pub(crate) fn rows_by_function(
    alloc: Global,
    rows: &[Grained],
    count: usize,
) -> Result<Vec<List<Grained>>, AllocError>
    ensures len { IfOk result (λ v. length v.items ≡ count) }
    ensures each { IfOk result (λ v. (f : ℕ) → f < count → slice_index_or v.items f [] ≡ filter (λ g. g.access.function == f) rows.now) }
{
    let mut groups = empty_groups(alloc, count)?;
    for row in rows {
        put(&mut groups, row.access.function as usize, *row)?;
    }
    Ok(groups)
}

/// The ranges of each function.
pub(crate) fn ranges_by_function(
    alloc: Global,
    ranges: &[Range],
    count: usize,
) -> Result<Vec<List<Range>>, AllocError>
    ensures len { IfOk result (λ v. length v.items ≡ count) }
    ensures each { IfOk result (λ v. (f : ℕ) → f < count → slice_index_or v.items f [] ≡ filter (λ r. r.function == f) ranges.now) }
{
    let mut groups = empty_groups(alloc, count)?;
    for range in ranges {
        put(&mut groups, range.function as usize, *range)?;
    }
    Ok(groups)
}

/// The ranges of each of so many instructions.
pub(crate) fn ranges_by_instr(
    alloc: Global,
    ranges: &[Range],
    count: usize,
) -> Result<Vec<List<Range>>, AllocError>
    ensures len { IfOk result (λ v. length v.items ≡ count) }
    ensures each { IfOk result (λ v. (k : ℕ) → k < count → slice_index_or v.items k [] ≡ filter (λ r. r.instr == k) ranges.now) }
{
    let mut groups = empty_groups(alloc, count)?;
    for range in ranges {
        put(&mut groups, range.instr as usize, *range)?;
    }
    Ok(groups)
}

// The chain that the rows of entries tell.
ghost use Rattle.std.specs.Prelude.{◌≡◌, ◌<◌, ◌^◌, ◌-◌, length, true, IfOk, MatchOption, List as ListOf, ℕ};
ghost use Rattle.chain_report.specs.Chains.{is_chain as is_chain_of};
ghost use Rattle.chain_report.specs.Directions.{has_before as has_before_of, may_lead as may_lead_of};
ghost use Rattle.chain_report.specs.Finds.{IsLowest};
ghost use Rattle.chain_report.specs.Past.{AreLinks};
ghost use Rattle.chain_report.specs.Rows.{AreRows};

use crate::checker::{is_after, is_before};
use crate::linking::{first_end, first_of_thread, noted_of};
use crate::point::Point;
use crate::row::Row;
use rr_base::List;
use std::alloc::{AllocError, Global};
use sync_objects::Entry;

// Whether one of the entries is before the point.
fn has_before(entries: &[Entry], to: Point) -> bool
    ensures { result ≡ has_before_of to entries.now }
{
    let mut rest = entries;
    while let [entry, more @ ..] = rest {
        if is_before(to, Some(*entry)) {
            return true;
        }
        rest = more;
    }
    false
}

// Whether behind the first entry after the one point there is one before the other point. Where there isn't, no chain leads there.
fn may_lead(entries: &[Entry], from: Point, to: Point) -> bool
    ensures { result ≡ may_lead_of from to entries.now }
{
    let mut rest = entries;
    while let [entry, more @ ..] = rest {
        if is_after(from, Some(*entry)) {
            return has_before(more, to);
        }
        rest = more;
    }
    false
}

// The lowest chain that the rows of the entries tell, if there is one. It is read from its end to its beginning.
fn read_off(
    alloc: Global,
    entries: &List<Entry>,
    rows: &[Row],
    links: &[Option<u32>],
    from: Point,
    to: Point,
) -> Result<Option<List<(u32, u32)>>, AllocError>
    requires few { length rows.now < 2 ^ 32 - 1 }
    requires all { length rows.now ≡ length entries.now }
    requires rows { AreRows entries.now from rows.now }
    requires links { AreLinks rows.now links.now }
    ensures { IfOk result (λ found. MatchOption found
        ((given : ListOf (ℕ × ℕ)) → is_chain_of entries.now from to given ≡ true → ⊥)
        (λ given. IsLowest entries.now from to given × (is_chain_of entries.now from to given ≡ true))) }
{
    let _ = entries;
    let Some(mut reached) = first_end(rows, to) else {
        return Ok(None);
    };
    let mut backwards = List::new(alloc);
    while let Some(link) = rows[reached as usize].link {
        backwards.push((link, reached))?;
        let giver = rows[link as usize].entry;
        if is_after(from, Some(giver)) {
            let mut passes = backwards.into_vec();
            passes.reverse();
            return Ok(Some(List::from_vec(passes)));
        }
        let Some(before) = first_of_thread(links, giver.thread) else {
            return Ok(None);
        };
        reached = before;
    }
    Ok(None)
}

/// The lowest chain from the one point to the other, if there is one.
pub(crate) fn lowest_chain(
    alloc: Global,
    entries: &List<Entry>,
    from: Point,
    to: Point,
) -> Result<Option<List<(u32, u32)>>, AllocError>
    requires few { length entries.now < 2 ^ 32 - 1 }
    ensures { IfOk result (λ found. MatchOption found
        ((given : ListOf (ℕ × ℕ)) → is_chain_of entries.now from to given ≡ true → ⊥)
        (λ given. IsLowest entries.now from to given × (is_chain_of entries.now from to given ≡ true))) }
{
    if !may_lead(entries.as_slice(), from, to) {
        return Ok(None);
    }
    let noted = noted_of(alloc, entries, from)?;
    let found = read_off(
        alloc,
        entries,
        noted.rows.as_slice(),
        noted.links.as_slice(),
        from,
        to,
    )?;
    Ok(found)
}

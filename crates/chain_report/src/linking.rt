// Which entries chains from a point lead to.
ghost use Rattle.std.specs.Prelude.{◌≡◌, ◌<◌, ◌-◌, ◌^◌, length, [], IfOk, List as ListOf};
ghost use Rattle.chain_report.specs.Past.{AreLinks};
ghost use Rattle.chain_report.specs.Tables.{first_from, is_link_of as is_link_of_test, is_end_at as is_end_at_test, rows_from};
ghost use Rattle.chain_report.specs.declared.row.Row.{Row as RowOf};

use crate::checker::is_before;
use crate::past::Past;
use crate::point::Point;
use crate::row::Row;
use rr_base::List;
use std::alloc::{AllocError, Global};
use sync_objects::Entry;

/// What is noted of all entries: the row of each, and the first linked one of each thread.
#[derive(Drop)]
pub(crate) struct Noted {
    pub rows: List<Row>,
    pub links: List<Option<u32>>,
}

/// The first linked entry of the thread.
pub(crate) fn first_of_thread(links: &[Option<u32>], thread: u8) -> Option<u32>
    ensures value { (rows : ListOf RowOf) → AreLinks rows links.now → result ≡ first_from (is_link_of_test thread) 0 rows }
{
    links.get(usize::from(thread)).copied().unwrap_or(None)
}

/// The first linked entry of the point's thread before the point.
pub(crate) fn first_end(rows: &[Row], to: Point) -> Option<u32>
    requires { length rows.now < 2 ^ 32 }
    ensures value { result ≡ first_from (is_end_at_test to) 0 rows.now }
{
    let mut at: u32 = 0;
    let mut rest = rows;
    while let [row, more @ ..] = rest {
        if row.link.is_some() && is_before(to, Some(row.entry)) {
            return Some(at);
        }
        at += 1;
        rest = more;
    }
    None
}

/// What is noted of all entries.
pub(crate) fn noted_of(
    alloc: Global,
    entries: &List<Entry>,
    from: Point,
) -> Result<Noted, AllocError>
    requires { length entries.now < 2 ^ 32 - 1 }
    ensures rows { IfOk result (λ noted. noted.rows ≡ rows_from from entries.now [] entries.now) }
    ensures links { IfOk result (λ noted. AreLinks noted.rows noted.links) }
{
    let mut past = Past::new(alloc)?;
    let mut rows = List::with_capacity(alloc, entries.len())?;
    let mut at: u32 = 0;
    while (at as usize) < entries.len() {
        let row = past.note(from, *entries.at(at as usize), at)?;
        rows.push(row)?;
        at += 1;
    }
    let Past { links, .. } = past;
    Ok(Noted { rows, links })
}

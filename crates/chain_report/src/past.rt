// What the entries before one tell of it.
ghost use Rattle.std.specs.Prelude.{◌≡◌, ◌++◌, ◌∷◌, [], length, IfOk, List as ListOf};
ghost use Rattle.sync_objects.specs.declared.entry.Entry.{Entry as EntryOf};
ghost use Rattle.chain_report.specs.Past.{row_by as row_by_of, PastIs};
ghost use Rattle.chain_report.specs.Tables.{row_of as row_of_entry};
ghost use Rattle.chain_report.specs.declared.row.Row.{Row as RowOf};

use crate::checker::is_after;
use crate::kept::{
    Hold, Holds, Kept, Objects, first_or, hold_of, keep, kept_after, kept_of, link_by, note_hold,
};
use crate::point::Point;
use crate::replayed::{asks_hold, got, hold_after, let_go};
use crate::row::Row;
use indexmap::IndexMap;
use rr_base::List;
use std::alloc::{AllocError, Global};
use sync_objects::{Entry, Mode};

/// What is kept of the entries before one: of their objects, of who holds read-write locks, and the first linked entry of each
/// thread.
#[derive(Drop)]
pub(crate) struct Past {
    pub objects: Objects,
    pub holds: Holds,
    pub links: List<Option<u32>>,
}

// What is noted of an entry, where so much is known of its object and of its thread.
fn row_by(from: Point, kept: Kept, held: Option<Mode>, linked: bool, entry: Entry) -> Row
    ensures { result ≡ row_by_of from kept held linked entry }
{
    Row {
        entry,
        eligible: is_after(from, Some(entry)) || linked,
        released: let_go(entry.op, held),
        link: link_by(kept, entry.op, got(entry.op, kept.holder, held)),
    }
}

impl Past {
    /// Nothing is kept before the first entry.
    pub(crate) fn new(alloc: Global) -> Result<Past, AllocError>
        ensures { IfOk result (λ past. PastIs [] [] past × (length past.links ≡ 256)) }
    {
        let links = List::from_slice(alloc, &[None; 256])?;
        Ok(Past {
            objects: IndexMap::new(alloc),
            holds: IndexMap::new(alloc),
            links,
        })
    }

    /// What is noted of the entry at this position, which comes after those of which all is kept. It is one of them from now on.
    pub(crate) fn note(&mut self, from: Point, entry: Entry, at: u32) -> Result<Row, AllocError>
        requires room { length self.old.links ≡ 256 }
        ensures room { length self.new.links ≡ 256 }
        ensures noted { (before : ListOf EntryOf) → (rows : ListOf RowOf) → PastIs before rows self.old → length rows ≡ at → IfOk result (λ row. (row ≡ row_of_entry from before rows entry) × PastIs (before ++ entry ∷ []) (rows ++ row ∷ []) self.new) }
    {
        let hold = Hold {
            lock: entry.obj,
            thread: entry.thread,
        };
        let kept = kept_of(&self.objects, entry.obj);
        let held = if asks_hold(entry.op) {
            hold_of(&self.holds, hold)
        } else {
            None
        };
        let link = *self.links.at(usize::from(entry.thread));
        let row = row_by(from, kept, held, link.is_some(), entry);
        keep(&mut self.objects, entry.obj, kept_after(kept, row, at))?;
        if asks_hold(entry.op) {
            note_hold(&mut self.holds, hold, hold_after(entry.op, held))?;
        }
        self.links.set(
            usize::from(entry.thread),
            first_or(link, row.link.is_some(), at),
        );
        Ok(row)
    }
}

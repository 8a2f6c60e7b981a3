// What is kept of objects and of who holds them, while the entries of a log are gone through.
ghost use Rattle.std.specs.Prelude.{◌≡◌, OnOk};
ghost use Rattle.chain_report.specs.Past.{kept_in, hold_in, first_or as first_or_of, kept_after as kept_after_of, link_by as link_by_of, IsKept, IsHeld};

use crate::checker::{exclude, hands_thread};
use crate::replayed::holder_after;
use crate::row::Row;
use indexmap::IndexMap;
use std::alloc::AllocError;
use sync_objects::{Mode, ObjId, OpName};

/// What is kept of an object: who holds it as a mutex, and of the entries that may begin a pass the first ones that pass it to a
/// begin, to a join, to who gets it for writing and to who gets it for reading.
#[derive(Clone, Copy, Debug, PartialEq, Eq)]
pub(crate) struct Kept {
    pub holder: Option<u8>,
    pub to_begin: Option<u32>,
    pub to_join: Option<u32>,
    pub to_writer: Option<u32>,
    pub to_reader: Option<u32>,
}

/// A read-write lock and a thread that may hold it.
#[derive(Clone, Copy, Debug, PartialEq, Eq, Hash)]
pub(crate) struct Hold {
    pub lock: ObjId,
    pub thread: u8,
}

/// What is kept of each object.
pub(crate) type Objects = IndexMap<ObjId, Kept>;

/// How threads hold read-write locks.
pub(crate) type Holds = IndexMap<Hold, Option<Mode>>;

// Nothing is kept yet.
const NOTHING: Kept = Kept {
    holder: None,
    to_begin: None,
    to_join: None,
    to_writer: None,
    to_reader: None,
};

/// What is kept of the object.
pub(crate) fn kept_of(objects: &Objects, obj: ObjId) -> Kept
    ensures { result ≡ kept_in objects.now obj }
{
    objects.get(&obj).copied().unwrap_or(NOTHING)
}

/// How the thread holds the lock.
pub(crate) fn hold_of(holds: &Holds, hold: Hold) -> Option<Mode>
    ensures { result ≡ hold_in holds.now hold }
{
    holds.get(&hold).copied().unwrap_or(None)
}

/// This is kept of the object from now on.
pub(crate) fn keep(objects: &mut Objects, obj: ObjId, kept: Kept) -> Result<(), AllocError>
    ensures { OnOk result (IsKept objects.old obj kept objects.new) }
{
    objects.insert(obj, kept)?;
    Ok(())
}

/// So the thread holds the lock from now on.
pub(crate) fn note_hold(holds: &mut Holds, hold: Hold, held: Option<Mode>) -> Result<(), AllocError>
    ensures { OnOk result (IsHeld holds.old hold held holds.new) }
{
    holds.insert(hold, held)?;
    Ok(())
}

/// The first position, or this one where there is none yet and the entry there is one that is looked for.
pub(crate) fn first_or(first: Option<u32>, meets: bool, at: u32) -> Option<u32>
    ensures { result ≡ first_or_of first meets at }
{
    match first {
        Some(first) => Some(first),
        None => if meets { Some(at) } else { None },
    }
}

/// What is kept of its object after the entry of the row at this position.
pub(crate) fn kept_after(kept: Kept, row: Row, at: u32) -> Kept
    ensures { result ≡ kept_after_of kept row at }
{
    let to_begin = row.eligible && hands_thread(row.entry.op, OpName::Begin);
    let to_join = row.eligible && hands_thread(row.entry.op, OpName::Join);
    let to_writer = row.eligible && exclude(row.released, Some(Mode::Write));
    let to_reader = row.eligible && exclude(row.released, Some(Mode::Read));
    Kept {
        holder: holder_after(row.entry.op, row.entry.thread, kept.holder),
        to_begin: first_or(kept.to_begin, to_begin, at),
        to_join: first_or(kept.to_join, to_join, at),
        to_writer: first_or(kept.to_writer, to_writer, at),
        to_reader: first_or(kept.to_reader, to_reader, at),
    }
}

/// The first entry that may begin a pass to an operation which gets its object in this mode.
pub(crate) fn link_by(kept: Kept, op: OpName, mode: Option<Mode>) -> Option<u32>
    ensures { result ≡ link_by_of kept op mode }
{
    match op {
        OpName::Begin => kept.to_begin,
        OpName::Join => kept.to_join,
        _ => match mode {
            Some(Mode::Write) => kept.to_writer,
            Some(Mode::Read) => kept.to_reader,
            None => None,
        },
    }
}

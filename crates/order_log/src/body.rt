// The entries of a log, and their limits.

ghost use Rattle.std.specs.Prelude.{◌≡◌, ◌<◌, ◌+◌, ◌∷◌, ◌++◌, [], true, List, IsTrue, IfOk, Ok, length, nat_lt, slice_index, slice_set};
ghost use Rattle.sync_objects.specs.declared.entry.Entry.{Entry};
ghost use Rattle.sync_objects.specs.Setup.{IsWithinLimits};
ghost use Rattle.order_log.specs.Line as line;
ghost use Rattle.order_log.specs.Log.{last_count};
ghost use Rattle.order_log.specs.Recogniser as recogniser;
ghost use Rattle.order_log.specs.Recogniser.{AreCounted, Gives, Pushes, left};
ghost use Rattle.order_log.specs.Text.{Group, stripe_of};

use crate::entry::{LineGroup, group_in, stripe_of};
use crate::fault::LogFault;
use crate::group::shares;
use crate::reader::{Reader, next_line};
use crate::version::Version;
use rr_base::List;
use std::alloc::{AllocError, Global};
use sync_objects::{Entry, ObjId, OpName, Setup};

/// How many entries of either sort each thread has.
#[derive(Drop)]
struct Counts {
    others: [u32; 16],
    endings: [u32; 16],
}

fn is_object_within(slots: u8, obj: ObjId) -> bool
    ensures { result ≡ recogniser.is_object_within slots obj }
{
    match obj {
        ObjId::Mutex(cell) | ObjId::Cond(cell) | ObjId::Barrier(cell) | ObjId::Rw(cell) => {
            cell < 4_194_304
        }
        ObjId::Weak { lock, stripe } => lock <= 65_471 && stripe <= 7,
        ObjId::Slot(slot) => slot < slots,
        ObjId::Threads | ObjId::Halt | ObjId::Input | ObjId::Output => true,
    }
}

// The greatest count of an entry: an ending one may stand after the last event.
fn greatest_count(limit: u32, op: OpName) -> u32
    requires { limit < 67108865 }
    ensures { result ≡ last_count limit op }
{
    if op.is_ending() { limit + 1 } else { limit }
}

fn is_within(setup: &Setup, entry: &Entry) -> bool
    ensures value { result ≡ recogniser.is_entry_within setup.now entry.now }
    ensures thread { IsTrue result → entry.now.thread < 16 }
{
    let slots = setup.slots();
    let last = greatest_count(setup.limit(), entry.op);
    entry.thread < slots && entry.count <= last && is_object_within(slots, entry.obj)
}

// Counts one entry more of a thread, where it has fewer than the most.
fn takes(counts: &mut [u32], thread: u8, most: u32) -> bool
    requires { thread < length counts.old }
    ensures room { result ≡ nat_lt (slice_index counts.old thread) most }
    ensures taken { IsTrue result
        → counts.new ≡ slice_set counts.old thread (slice_index counts.old thread + 1) }
{
    let count = &mut counts[thread as usize];
    if *count >= most {
        return false;
    }
    *count += 1;
    true
}

// Whether the entry is within the limits after those that are counted. It is then counted too.
fn may_follow(setup: &Setup, counts: &mut Counts, entry: &Entry) -> bool
    ensures value { (es : List Entry) → AreCounted counts.old.others counts.old.endings es
        → result ≡ recogniser.may_follow setup.now es entry.now }
    ensures counted { (es : List Entry) → AreCounted counts.old.others counts.old.endings es → IsTrue result
        → AreCounted counts.new.others counts.new.endings (es ++ entry.now ∷ []) }
{
    if !is_within(setup, entry) {
        return false;
    }
    if entry.op.is_ending() {
        takes(&mut counts.endings, entry.thread, 6)
    } else {
        takes(&mut counts.others, entry.thread, 1_048_576)
    }
}

// Whether the entry belongs into the last line of those before.
fn joins(version: Version, before: &[Entry], entry: &Entry) -> bool
    ensures { result ≡ recogniser.joins version before.now entry.now }
{
    match before.last() {
        None => false,
        Some(last) => shares(version, last, entry),
    }
}

// Whether a line may begin with the entry, after those before.
fn may_begin(version: Version, before: &[Entry], entry: &Entry) -> bool
    ensures { result ≡ recogniser.may_begin version before.now entry.now }
{
    version.has_word(entry.op) && !joins(version, before, entry)
}

// The same entry of the next stripe.
fn next_entry(entry: &Entry) -> Entry
    requires { stripe_of entry.now.obj < 255 }
    ensures { result ≡ line.next_entry entry.now }
{
    let obj = match entry.obj {
        ObjId::Weak { lock, stripe } => ObjId::Weak {
            lock,
            stripe: stripe + 1,
        },
        obj => obj,
    };
    Entry { obj, ..*entry }
}

// Puts an entry after those before, where it may follow them. Tells whether it may.
fn push_entry(
    setup: &Setup,
    counts: &mut Counts,
    found: &mut List<Entry>,
    entry: Entry,
) -> Result<bool, AllocError>
    ensures told { AreCounted counts.old.others counts.old.endings found.old
        → IfOk result (λ may. may ≡ recogniser.may_follow setup.now found.old entry) }
    ensures put { result ≡ Ok true → found.new ≡ found.old ++ entry ∷ [] }
    ensures counted { AreCounted counts.old.others counts.old.endings found.old → result ≡ Ok true
        → AreCounted counts.new.others counts.new.endings found.new }
{
    if !may_follow(setup, counts, &entry) {
        return Ok(false);
    }
    found.push(entry)?;
    Ok(true)
}

// Puts the entries of a line after those before, up to the first that may not follow. Tells whether all may.
fn push_group(
    setup: &Setup,
    counts: &mut Counts,
    found: &mut List<Entry>,
    group: LineGroup,
) -> Result<bool, AllocError>
    requires { IsWithinLimits setup.now }
    ensures { (r : Group) → line.IsGroup r → group ≡ line.clipped_group r
        → AreCounted counts.old.others counts.old.endings found.old
        → IfOk result (λ may. Pushes setup.now found.old (line.entries_of r) may found.new counts.new.others counts.new.endings) }
{
    let mut entry = group.first;
    let mut left = group.last.saturating_sub(stripe_of(entry.obj));
    if !push_entry(setup, counts, found, entry)? {
        return Ok(false);
    }
    while left > 0 {
        entry = next_entry(&entry);
        if !push_entry(setup, counts, found, entry)? {
            return Ok(false);
        }
        left -= 1;
    }
    Ok(true)
}

/// The entries of a log of this version, to the end of the text.
pub fn entries(
    alloc: Global,
    reader: &mut Reader,
    version: Version,
    setup: &Setup,
) -> Result<List<Entry>, LogFault>
    requires { IsWithinLimits setup.now }
    ensures { Gives (λ es. es) result
        (recogniser.entries_at version setup.now (left reader.old)) }
{
    let mut found = List::new(alloc);
    let mut counts = Counts {
        others: [0; 16],
        endings: [0; 16],
    };
    while !reader.bytes.is_empty() {
        let at = reader.line;
        let Some(group) = group_in(version, next_line(reader)?) else {
            return Err(LogFault::LogSyntax(at));
        };
        if !may_begin(version, found.as_slice(), &group.first) {
            return Err(LogFault::LogSyntax(at));
        }
        if !push_group(setup, &mut counts, &mut found, group)? {
            return Err(LogFault::LogLimit(at));
        }
    }
    Ok(found)
}

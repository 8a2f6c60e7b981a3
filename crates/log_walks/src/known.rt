// The first entry of a log that its object never allows.
ghost use Rattle.std.specs.Prelude.{◌≡◌, ◌-◌, ◌<◌, ◌≤◌, ◌^◌, ℕ, ℤ, List, Some, slice_get, length, IfOk, OnOk, MatchOption};
ghost use Rattle.sync_objects.specs.Advance.{Advances, NotAllowed};
ghost use Rattle.sync_objects.specs.Names.{Fits, object_kind};
ghost use Rattle.sync_objects.specs.Sound.{IsSoundWord};
ghost use Rattle.sync_objects.specs.Words.{number_of};
ghost use Rattle.sync_objects.specs.declared.entry.Entry.{Entry as EntryOf};
ghost use Rattle.log_walks.specs.Known.{IsWrongAt, NoneIsWrong, known_advance, known_op};
ghost use Rattle.log_walks.specs.WordMap.{IsPut, word_in};

use indexmap::IndexMap;
use rr_base::List;
use std::alloc::{AllocError, Global};
use sync_objects::{Entry, ObjId, Op, OpName, Setup, advance, fits, start_word};

// The words of the objects of which there were entries.
type Words = IndexMap<ObjId, u64>;

// The word of the object; that of the start where there was no entry of it.
fn word_of(words: &Words, obj: ObjId) -> u64
    ensures { result ≡ word_in words.now obj }
{
    words.get(&obj).copied().unwrap_or(start_word(obj))
}

// The object's word becomes this one.
fn put_word(words: &mut Words, obj: ObjId, word: u64) -> Result<(), AllocError>
    ensures { OnOk result (IsPut words.old obj word words.new) }
{
    words.insert(obj, word)?;
    Ok(())
}

// The operation of a name that decides what its object allows.
fn known_op(slots: u8, name: OpName) -> Option<Op>
    ensures { result ≡ known_op slots name }
{
    match name {
        OpName::Lock => Some(Op::Lock),
        OpName::TryLock => Some(Op::TryLock),
        OpName::Unlock => Some(Op::Unlock),
        OpName::MutexInit => Some(Op::MutexInit),
        OpName::RdLock => Some(Op::RdLock),
        OpName::WrLock => Some(Op::WrLock),
        OpName::RwUnlock => Some(Op::RwUnlock),
        OpName::RwInit => Some(Op::RwInit),
        OpName::Take => Some(Op::Take),
        OpName::Retake => Some(Op::Retake),
        OpName::Give => Some(Op::Give),
        OpName::Revoke => Some(Op::Revoke),
        OpName::Draw => Some(Op::Draw { slots }),
        OpName::Start => Some(Op::Start { function: 0 }),
        OpName::Begin => Some(Op::Begin),
        OpName::End => Some(Op::End),
        OpName::Join => Some(Op::Join),
        OpName::Close => Some(Op::Close),
        OpName::Leave => Some(Op::Leave),
        OpName::HaltAll => Some(Op::HaltAll),
        OpName::TrapHere => Some(Op::TrapHere),
        OpName::Stop => Some(Op::Stop),
        OpName::CondEnter | OpName::CondWake | OpName::Signal => None,
        OpName::BarrierInit | OpName::Arrive | OpName::Pass => None,
        OpName::GetChar | OpName::Print => None,
    }
}

// The word after the entry, by its name, or None where the word never allows it.
fn allowed(slots: u8, entry: Entry, word: u64) -> Option<u64>
    requires some { 1 ≤ slots }
    requires few { slots ≤ 16 }
    requires thread { entry.thread < slots }
    requires sound { IsSoundWord (object_kind entry.obj) word }
    requires number { number_of word < 2 ^ 32 - 1 }
    ensures { MatchOption result
        (Fits entry.op entry.obj → known_advance slots entry word ≡ NotAllowed)
        (λ next. Fits entry.op entry.obj × (answer : ℤ) × (known_advance slots entry word ≡ Advances next answer)) }
{
    if !fits(entry.op, entry.obj) {
        return None;
    }
    let Some(op) = known_op(slots, entry.op) else {
        return Some(word);
    };
    match advance(op, entry.thread, word) {
        Some((next, _)) => Some(next),
        None => None,
    }
}

/// The position of the first entry of a log that its object never allows, whatever the threads compute.
pub fn known_wrong(
    alloc: Global,
    setup: &Setup,
    entries: &List<Entry>,
) -> Result<Option<u32>, AllocError>
    requires few { length entries.now < 2 ^ 32 - 1 }
    requires threads { (k : ℕ) (e : EntryOf) → slice_get entries.now k ≡ Some e → e.thread < setup.now.slots }
    ensures { IfOk result (λ it. MatchOption it
        (NoneIsWrong setup.now.slots entries.now (length entries.now))
        (λ at. IsWrongAt setup.now.slots entries.now at × NoneIsWrong setup.now.slots entries.now at)) }
{
    let slots = setup.slots();
    let mut words = IndexMap::new(alloc);
    for k in 0..entries.len() {
        let entry = *entries.at(k);
        let word = word_of(&words, entry.obj);
        let Some(next) = allowed(slots, entry, word) else {
            return Ok(Some(k as u32));
        };
        put_word(&mut words, entry.obj, next)?;
    }
    Ok(None)
}

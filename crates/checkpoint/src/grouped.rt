// The objects whose words aren't those at the start.
ghost use Rattle.std.specs.Prelude.{◌≡◌, ◌++◌, ◌∷◌, [], ◌<◌, ◌≤◌, length, IfOk, OnOk, ℕ};
ghost use Rattle.std.specs.List.{filter_map};
ghost use Rattle.flow_code.specs.Settle.{IsRunnable};
ghost use Rattle.core_run.specs.Words.{place_of as place_of_object, start_words as start_words_of};
ghost use Rattle.flow_code.specs.Valid.{most_locks};
ghost use Rattle.snapshots.specs.Snapshots.{objects_at};
ghost use Rattle.checkpoint.specs.Groups.{IsNumbered, in_group, listed_of, object_at as object_at_number};

use core_run::{Setup, place_of};
use flow_code::Code;
use rr_base::List;
use std::alloc::{AllocError, Global};
use sync_objects::{ObjId, number_of, start_word, state_of};

// The kinds of objects of which there are many, each with its own number.
#[derive(Clone, Copy)]
pub(crate) enum Group {
    Mutexes,
    Conds,
    Barriers,
    // By eight for each weak lock.
    Stripes,
    Slots,
    Rws,
}

// The object with this number.
fn object_at(group: Group, number: u32) -> ObjId
    requires { IsNumbered group number }
    ensures { result ≡ object_at_number group number }
{
    match group {
        Group::Mutexes => ObjId::Mutex(number),
        Group::Conds => ObjId::Cond(number),
        Group::Barriers => ObjId::Barrier(number),
        Group::Stripes => ObjId::Weak {
            lock: (number / 8) as u16,
            stripe: (number % 8) as u8,
        },
        Group::Slots => ObjId::Slot(number as u8),
        Group::Rws => ObjId::Rw(number),
    }
}

// Lists the object, if its word isn't the one at the start.
fn list_object(
    found: &mut List<(ObjId, u32, u32)>,
    words: &[u64],
    cells: u32,
    object: ObjId,
) -> Result<(), AllocError>
    requires { place_of_object cells object < length words.now }
    ensures { OnOk result (found.new ≡ found.old ++ filter_map (listed_of cells words.now) (object ∷ [])) }
{
    let word = words[place_of(cells, object)];
    if word == start_word(object) {
        return Ok(());
    }
    found.push((object, number_of(word), state_of(word)))
}

// Lists those of the first objects of a group whose words aren't those at the start.
fn list_group(
    found: &mut List<(ObjId, u32, u32)>,
    words: &[u64],
    cells: u32,
    group: Group,
    count: u32,
) -> Result<(), AllocError>
    requires numbered { (n : ℕ) → n < count → IsNumbered group n }
    requires places { (n : ℕ) → n < count → place_of_object cells (object_at_number group n) < length words.now }
    ensures { OnOk result (found.new ≡ found.old ++ filter_map (listed_of cells words.now) (in_group group count)) }
{
    let mut number = 0;
    while number < count {
        list_object(found, words, cells, object_at(group, number))?;
        number += 1;
    }
    Ok(())
}

/// The objects whose words aren't those at the start, in the order in which a snapshot lists them.
pub(crate) fn list_objects(
    alloc: Global,
    code: &Code,
    setup: &Setup,
    words: &[u64],
) -> Result<List<(ObjId, u32, u32)>, AllocError>
    requires runnable { IsRunnable code.now }
    requires locks { length code.now.locks ≤ most_locks }
    requires words { length words.now ≡ length (start_words_of code.now setup.now) }
    ensures { IfOk result (λ it. it ≡ objects_at code.now setup.now words.now) }
{
    let slots = setup.slots();
    let cells = 2 * u32::from(slots) + code.globals.len() as u32 + u32::from(slots) * setup.cells();
    let mut found = List::new(alloc);
    list_group(&mut found, words, cells, Group::Mutexes, cells)?;
    list_group(&mut found, words, cells, Group::Conds, cells)?;
    list_group(&mut found, words, cells, Group::Barriers, cells)?;
    list_group(
        &mut found,
        words,
        cells,
        Group::Stripes,
        8 * code.locks.len() as u32,
    )?;
    list_group(&mut found, words, cells, Group::Slots, u32::from(slots))?;
    list_object(&mut found, words, cells, ObjId::Threads)?;
    list_object(&mut found, words, cells, ObjId::Halt)?;
    list_object(&mut found, words, cells, ObjId::Input)?;
    list_object(&mut found, words, cells, ObjId::Output)?;
    list_group(&mut found, words, cells, Group::Rws, cells)?;
    Ok(found)
}

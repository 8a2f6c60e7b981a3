// What each thread has to make of a log.
ghost use Rattle.std.specs.Prelude.{◌≡◌, ◌-◌, ◌<◌, ◌^◌, IfOk, length};
ghost use Rattle.replay_theory.specs.Numbered.{numbered};
ghost use Rattle.replayer.specs.Wants.{wanted_from};

use crate::wanted::Wanted;
use core_run::Noted;
use entry_merge::{count_of, count_up};
use indexmap::IndexMap;
use rr_base::List;
use std::alloc::{AllocError, Global};
use sync_objects::Entry;

/// The entries of a log with their numbers.
pub(crate) fn number_all(alloc: Global, entries: &List<Entry>) -> Result<List<Noted>, AllocError>
    requires { length entries.now < 2 ^ 32 - 1 }
    ensures { IfOk result (λ it. it ≡ numbered entries.now) }
{
    let mut counts = IndexMap::new(alloc);
    let mut noted = List::new(alloc);
    for k in 0..entries.len() {
        let entry = *entries.at(k);
        let number = count_of(&counts, entry.obj);
        count_up(&mut counts, entry.obj)?;
        noted.push(Noted {
            entry,
            number: number as u32,
        })?;
    }
    Ok(noted)
}

/// The entries of one thread, with their positions in the log.
pub(crate) fn own_entries(
    alloc: Global,
    noted: &[Noted],
    thread: u8,
) -> Result<List<Wanted>, AllocError>
    requires { length noted.now < 2 ^ 32 - 1 }
    ensures wanted { IfOk result (λ it. it ≡ wanted_from thread 0 noted.now) }
    ensures few { IfOk result (λ it. length it < 2 ^ 32) }
{
    let mut wanted = List::new(alloc);
    let mut position: u32 = 0;
    let mut rest = noted;
    while let [first, more @ ..] = rest {
        if first.entry.thread == thread {
            wanted.push(Wanted {
                noted: *first,
                position,
            })?;
        }
        position += 1;
        rest = more;
    }
    Ok(wanted)
}

// The start of a run: its threads and its words.
ghost use Rattle.std.specs.Prelude.{◌≡◌, ◌<◌, ◌≤◌, ◌^◌, ◌*◌, ◌++◌, length, replicate, IfOk, OnOk};
ghost use Rattle.flow_code.specs.Settle.{IsRunnable};
ghost use Rattle.core_run.specs.Words.{start_global as start_global_of, start_globals, start_words as start_words_of, objects_from};
ghost use Rattle.core_run.specs.Shown.{AreStarted};

use flow_code::Code;
use rr_base::CellKind;
use std::alloc::{AllocError, Global};
use sync_objects::{ObjId, Setup, start_word};
use thread_interpreter::Flow;

fn push_zeros(words: &mut Vec<u64>, count: usize) -> Result<(), AllocError>
    ensures { OnOk result (words.new.items ≡ words.old.items ++ replicate count 0) }
{
    for _k in 0..count {
        words.push(0)?;
    }
    Ok(())
}

fn start_global(slots: u8, kind: CellKind, word: u64) -> u64
    ensures { result ≡ start_global_of slots kind word }
{
    match kind {
        CellKind::Pointer => {
            if word == 0 {
                0
            } else {
                word.wrapping_add(2 * u64::from(slots) * (1 << 32))
            }
        }
        CellKind::Whole | CellKind::Mutex | CellKind::Cond | CellKind::Barrier | CellKind::Rw =>
            word,
    }
}

fn push_globals(words: &mut Vec<u64>, code: &Code, slots: u8) -> Result<(), AllocError>
    ensures { OnOk result (words.new.items ≡ words.old.items ++ start_globals slots code.now.global_kinds code.now.globals) }
{
    let mut kinds = code.global_kinds.as_slice();
    let mut globals = code.globals.as_slice();
    while let [kind, more @ ..] = kinds {
        let [word, rest @ ..] = globals else {
            return Ok(());
        };
        words.push(start_global(slots, *kind, *word))?;
        kinds = more;
        globals = rest;
    }
    words.extend_from_slice(globals)
}

fn push_stripes(words: &mut Vec<u64>, locks: usize) -> Result<(), AllocError>
    ensures { OnOk result (words.new.items ≡ words.old.items ++ replicate (8 * locks) 0) }
{
    for _k in 0..locks {
        push_zeros(words, 8)?;
    }
    Ok(())
}

fn push_objects(words: &mut Vec<u64>, cells: usize, locks: usize) -> Result<(), AllocError>
    requires { cells < 2 ^ 32 }
    ensures { OnOk result (words.new.items ≡ words.old.items ++ objects_from cells locks) }
{
    push_zeros(words, 4 * cells)?;
    words.push(start_word(ObjId::Slot(0)))?;
    push_zeros(words, 15)?;
    words.push(start_word(ObjId::Threads))?;
    words.push(start_word(ObjId::Halt))?;
    words.push(start_word(ObjId::Input))?;
    words.push(start_word(ObjId::Output))?;
    push_stripes(words, locks)?;
    Ok(())
}

/// The words at the start: those of the cells, and after them those of the objects.
pub fn start_words(alloc: Global, code: &Code, setup: &Setup) -> Result<Vec<u64>, AllocError>
    requires runnable { IsRunnable code.now }
    ensures { IfOk result (λ it. it.items ≡ start_words_of code.now setup.now) }
{
    let slots = setup.slots();
    let arenas = usize::from(slots) * setup.cells() as usize;
    let cells = 2 * usize::from(slots) + code.globals.len() + arenas;
    let mut words = Vec::new(alloc);
    push_zeros(&mut words, 2 * usize::from(slots))?;
    push_globals(&mut words, code, slots)?;
    push_zeros(&mut words, arenas)?;
    push_objects(&mut words, cells, code.locks.len())?;
    Ok(words)
}

/// The threads at the start, one for each slot.
pub fn start_flows<'a>(
    alloc: Global,
    code: &'a Code,
    setup: &'a Setup,
) -> Result<Vec<Flow<'a>>, AllocError>
    requires runnable { IsRunnable code.now }
    ensures { IfOk result (λ it. AreStarted code.now setup.now it.items) }
{
    let mut flows = Vec::new(alloc);
    for k in 0..setup.slots() {
        let flow = Flow::new(alloc, code, setup, k)?;
        flows.push(flow)?;
    }
    Ok(flows)
}

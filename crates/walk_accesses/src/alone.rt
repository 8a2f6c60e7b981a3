// A thread that goes alone, up to an event.
ghost use Rattle.std.specs.Prelude.{◌≡◌, IfOk, OnOk};
ghost use Rattle.walk_accesses.specs.Steps.{FindsAt, Goes, Steps, access_by, answer_of as answer_to, words_by};

use core_run::Action;
use std::alloc::AllocError;
use thread_interpreter::{Access, Flow};

// The access that comes next in a thread without quiet steps.
fn access_of(flow: &Flow, words: &[u64], thread: u8, next: Action) -> Option<Access>
    ensures { result ≡ access_by thread flow.now.kept.thread words.now next }
{
    let count = flow.count();
    match next {
        Action::Load { cell } => words.get(cell as usize).map(|value| Access {
            thread,
            count,
            cell,
            value: *value,
            store: false,
        }),
        Action::Store { cell, value } => Some(Access {
            thread,
            count,
            cell,
            value,
            store: true,
        }),
        _ => None,
    }
}

// What the thread is answered.
fn answer_of(access: Option<Access>) -> i64
    ensures { result ≡ answer_to access }
{
    match access {
        Some(
            Access {
                value,
                store: false,
                ..
            },
        ) => value.cast_signed(),
        _ => 0,
    }
}

// Puts the word of a store in its cell.
fn put(words: &mut Vec<u64>, access: Option<Access>)
    ensures { words.new.items ≡ words_by words.old.items access }
{
    if let Some(
        Access {
            cell,
            value,
            store: true,
            ..
        },
    ) = access
    {
        if (cell as usize) < words.len() {
            words[cell as usize] = value;
        }
    }
}

// One step of a thread: all its quiet steps, and then the load, the store or the mark that comes next. The answer is its
// access. It isn't asked for where an operation comes next, whose word would stay as it is.
fn step(flow: &mut Flow, words: &mut Vec<u64>, thread: u8) -> Result<Option<Access>, AllocError>
    requires number { flow.old.number ≡ thread }
    ensures code { flow.new.code ≡ flow.old.code }
    ensures setup { flow.new.setup ≡ flow.old.setup }
    ensures number { flow.new.number ≡ flow.old.number }
    ensures step { IfOk result (Steps flow.old.code flow.old.setup thread flow.old.kept.thread flow.new.kept.thread words.old.items words.new.items) }
{
    let next = flow.settle_to_next()?;
    let access = access_of(flow, words, thread, next);
    flow.reserve()?;
    flow.take_answer(answer_of(access));
    put(words, access);
    Ok(access)
}

// So many steps of a thread, where each of them is a load, a store or a mark.
fn go(flow: &mut Flow, words: &mut Vec<u64>, thread: u8, count: u32) -> Result<(), AllocError>
    requires number { flow.old.number ≡ thread }
    ensures code { flow.new.code ≡ flow.old.code }
    ensures setup { flow.new.setup ≡ flow.old.setup }
    ensures number { flow.new.number ≡ flow.old.number }
    ensures goes { OnOk result (Goes flow.old.code flow.old.setup count thread flow.old.kept.thread words.old.items flow.new.kept.thread words.new.items) }
{
    let mut left = count;
    while left > 0 {
        step(flow, words, thread)?;
        left -= 1;
    }
    Ok(())
}

/// The access that a thread makes at this count, where it goes on alone beyond it; None where it is past it.
pub(crate) fn access_ahead(
    flow: &mut Flow,
    words: &mut Vec<u64>,
    thread: u8,
    count: u32,
) -> Result<Option<Access>, AllocError>
    requires number { flow.old.number ≡ thread }
    ensures { IfOk result (FindsAt count flow.old words.old.items) }
{
    if count < flow.count() {
        return Ok(None);
    }
    let left = count - flow.count();
    go(flow, words, thread, left)?;
    step(flow, words, thread)
}

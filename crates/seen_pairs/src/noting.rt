// Pairs of functions that are at work at once, as a set.
ghost use Rattle.std.specs.Prelude.{◌≡◌, ◌<◌, ℕ, false, OnOk, IfOk, Some, length, slice_get, slice_set, Contains};
ghost use Rattle.thread_interpreter.specs.Flows.{Running};
ghost use Rattle.thread_interpreter.specs.Stacks.{stack_of};
ghost use Rattle.seen_pairs.specs.Pairings.{Follows, IsElsewhere, Notes};

use rr_base::List;
use std::alloc::AllocError;
use std::collections::BTreeSet;
use thread_interpreter::Flow;

/// Pairs of functions, by their numbers.
pub(crate) type Pairs = BTreeSet<(u32, u32)>;

// Notes a function beside each of a stack.
fn note_beside(pairs: &mut Pairs, function: u32, stack: &[u32]) -> Result<(), AllocError>
    ensures { OnOk result (Notes pairs.old.keys pairs.new.keys (λ f g. (f ≡ function) × Contains stack.now g)) }
{
    let mut at: usize = 0;
    while at < stack.len() {
        pairs.insert((function, stack[at]))?;
        at += 1;
    }
    Ok(())
}

// Notes each function of one stack beside each of another.
fn note_stacks(pairs: &mut Pairs, mine: &[u32], other: &[u32]) -> Result<(), AllocError>
    ensures { OnOk result (Notes pairs.old.keys pairs.new.keys (λ f g. Contains mine.now f × Contains other.now g)) }
{
    let mut at: usize = 0;
    while at < mine.len() {
        note_beside(pairs, mine[at], other)?;
        at += 1;
    }
    Ok(())
}

// The same, unless both stacks are of one thread.
fn note_other(
    pairs: &mut Pairs,
    mine: &[u32],
    other: &[u32],
    is_own: bool,
) -> Result<(), AllocError>
    ensures { OnOk result (Notes pairs.old.keys pairs.new.keys (λ f g. (is_own ≡ false) × Contains mine.now f × Contains other.now g)) }
{
    if is_own {
        return Ok(());
    }
    note_stacks(pairs, mine, other)?;
    Ok(())
}

// Notes each function of a thread's stack beside each that is on the stack of another thread.
fn note_thread(
    pairs: &mut Pairs,
    stacks: &List<List<u32>>,
    thread: u8,
    mine: &[u32],
) -> Result<(), AllocError>
    ensures { OnOk result (Notes pairs.old.keys pairs.new.keys (λ f g. Contains mine.now f × IsElsewhere stacks.now thread g)) }
{
    let own = usize::from(thread);
    let mut at: usize = 0;
    while at < stacks.len() {
        let other = stacks.at(at);
        note_other(pairs, mine, other.as_slice(), at == own)?;
        at += 1;
    }
    Ok(())
}

// The functions on a thread's stack.
fn stack_in(flows: &[Flow], thread: u8) -> Result<List<u32>, AllocError>
    requires { thread < length flows.now }
    ensures { (r : Running) → slice_get flows.now thread ≡ Some r → IfOk result (λ it. it ≡ stack_of r.kept.thread) }
{
    let flow = &flows[usize::from(thread)];
    flow.stack()
}

/// Brings the stack of a thread up to date, and notes what is at work at once with it now.
pub(crate) fn note_change(
    pairs: &mut Pairs,
    stacks: &mut List<List<u32>>,
    flows: &[Flow],
    thread: u8,
) -> Result<(), AllocError>
    requires thread { thread < length flows.now }
    requires stacks { length stacks.old ≡ length flows.now }
    ensures stacks { (r : Running) → slice_get flows.now thread ≡ Some r → OnOk result (stacks.new ≡ slice_set stacks.old thread (stack_of r.kept.thread)) }
    ensures pairs { OnOk result (Follows stacks.old stacks.new pairs.old.keys pairs.new.keys) }
{
    let own = usize::from(thread);
    let stack = stack_in(flows, thread)?;
    note_thread(pairs, stacks, thread, stack.as_slice())?;
    stacks.set(own, stack);
    Ok(())
}

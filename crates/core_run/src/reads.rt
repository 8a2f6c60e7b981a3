// What is kept of a thread's accesses.
ghost use Rattle.std.specs.Prelude.{◌≡◌, ◌<◌, length, slice_get, slice_set, Some, OnOk, List};
ghost use Rattle.thread_interpreter.specs.Formulas.{meets as meets_of, same_number as same_number_of, is_of_thread as is_of, has_value as has_value_of};
ghost use Rattle.core_run.specs.Shown.{with_read};
ghost use Rattle.thread_interpreter.specs.declared.access.Access.{Access as AccessOf};

use rr_base::List;
use std::alloc::AllocError;
use thread_interpreter::{Access, Formula};

// The most accesses that are kept of one thread.
const MOST_READS: usize = 262_144;

fn has_value(value: Option<i64>, word: u64) -> bool
    ensures { result ≡ has_value_of value word }
{
    match value {
        None => true,
        Some(z) => z == word.cast_signed(),
    }
}

fn is_of_thread(asked: Option<u8>, thread: u8) -> bool
    ensures { result ≡ is_of asked thread }
{
    match asked {
        None => true,
        Some(t) => t == thread,
    }
}

// Whether the access is what the formula asks for.
fn meets(formula: &Formula, access: Access) -> bool
    ensures { result ≡ meets_of formula.now access }
{
    let kind = if access.store {
        formula.stores
    } else {
        formula.loads
    };
    kind && is_of_thread(formula.thread, access.thread)
        && formula.low <= access.cell
        && access.cell <= formula.high
        && has_value(formula.value, access.value)
}

fn with_access(list: &mut List<Access>, formula: &Formula, access: Access) -> Result<(), AllocError>
    ensures { OnOk result (list.new ≡ with_read formula.now list.old access) }
{
    if meets(formula, access) && list.len() < MOST_READS {
        return list.push(access);
    }
    Ok(())
}

/// Keeps the access of a thread, if it is what the formula asks for and there is room.
pub(crate) fn keep(
    reads: &mut Vec<List<Access>>,
    thread: u8,
    formula: &Formula,
    access: Access,
) -> Result<(), AllocError>
    requires { thread < length reads.old.items }
    ensures len { length reads.new.items ≡ length reads.old.items }
    ensures kept { (xs : List AccessOf) → slice_get reads.old.items thread ≡ Some xs → OnOk result (reads.new.items ≡ slice_set reads.old.items thread (with_read formula.now xs access)) }
{
    let list = &mut reads[usize::from(thread)];
    with_access(list, formula, access)
}

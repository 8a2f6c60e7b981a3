// What may stand in a watch for a formula.
ghost use Rattle.std.specs.Prelude.{◌≡◌};
ghost use Rattle.thread_interpreter.specs.Formulas.{meets, is_of_thread as is_of, has_value as has_value_of};
ghost use Rattle.thread_interpreter.specs.declared.access.Formula.{Formula as FormulaOf};

use thread_interpreter::{Access, Formula};

/// A test of accesses. It may be called on every access.
pub trait AccessTest {
    // The formulas for which it stands: it answers exactly whether an access meets them.
    ghost stands_for: { Self → FormulaOf → Type 0 };

    fn test(&self, access: &Access) -> bool
        ensures { (f : FormulaOf) → stands_for self.now f → result ≡ meets f access.now };
}

fn has_value(value: Option<i64>, word: u64) -> bool
    ensures { result ≡ has_value_of value word }
{
    match value {
        None => true,
        Some(z) => z == word.cast_signed(),
    }
}

fn is_of_thread(asked: Option<u8>, thread: u8) -> bool
    ensures { result ≡ is_of asked thread }
{
    match asked {
        None => true,
        Some(t) => t == thread,
    }
}

fn is_met(formula: &Formula, access: &Access) -> bool
    ensures { result ≡ meets formula.now access.now }
{
    let kind = if access.store {
        formula.stores
    } else {
        formula.loads
    };
    kind && is_of_thread(formula.thread, access.thread)
        && formula.low <= access.cell
        && access.cell <= formula.high
        && has_value(formula.value, access.value)
}

/// A formula is the test of itself.
impl AccessTest for Formula {
    ghost stands_for = { λ test f. test ≡ f };

    #[inline(always)]
    fn test(&self, access: &Access) -> bool {
        is_met(self, access)
    }
}

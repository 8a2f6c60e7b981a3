// A formula, with a test that answers it.
ghost use Rattle.std.specs.Prelude.{◌≡◌};
ghost use Rattle.thread_interpreter.specs.Formulas.{meets as meets_of};

use crate::access_test::AccessTest;
use std::marker::Model;
use thread_interpreter::{Access, Formula};

/// A formula, with a test that answers at every access exactly whether this meets it.
#[derive(Drop)]
pub struct Watch<T: AccessTest + Sync> {
    formula: Formula,
    test: T,
}

impl<T: AccessTest + Sync> Model for Watch<T> {
    ghost use Rattle.thread_interpreter.specs.declared.access.Formula.{Formula};

    ghost Value = { Formula };

    ghost view = { λ w. w.formula };

    ghost invariant = { λ w. T.stands_for w.test w.formula };
}

impl<T: AccessTest + Sync> Watch<T> {
    /// The watch of a formula for which the test stands.
    pub fn new(formula: Formula, test: T) -> Watch<T>
        requires { T.stands_for test formula }
        ensures { result ≡ formula }
    {
        Watch { formula, test }
    }

    /// Which accesses it watches.
    pub fn formula(&self) -> Formula
        ensures { result ≡ self.now }
    {
        self.formula
    }

    /// Whether the access meets the formula.
    pub fn meets(&self, access: &Access) -> bool
        ensures { result ≡ meets_of self.now access.now }
    {
        self.test.test(access)
    }
}

/// The watch of a formula by the formula itself.
pub fn watch_of(formula: Formula) -> Watch<Formula>
    ensures { result ≡ formula }
{
    Watch::new(formula, formula)
}

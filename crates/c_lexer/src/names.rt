//! The names to which `#define` has given values.

ghost use Rattle.std.specs.Prelude.{◌≡◌, [], ◌∷◌, ◌++◌, map, None, OnOk, IsNone};
ghost use Rattle.rr_base.specs.Texts.{entry_of};

use indexmap::IndexMap;
use std::alloc::{AllocError, Global};
use std::marker::Model;

/// Names with their values, in the order of their directives.
#[derive(Drop)]
pub struct Names<'a> {
    values: IndexMap<&'a [u8], i64>,
}

impl<'a> Model for Names<'a> {
    ghost use Rattle.std.specs.Prelude.{map};
    ghost use Rattle.c_lexer.specs.Defined.{Defined};

    ghost Value = { Defined };

    ghost view = { λ n. map (λ e. (e.0.now, e.1)) n.values.entries };
}

impl<'a> Names<'a> {
    /// No names.
    pub fn new(alloc: Global) -> Names<'a>
        ensures { result ≡ [] }
    {
        Names {
            values: IndexMap::new(alloc),
        }
    }

    /// The value that the name has, if any.
    pub fn value_of(&self, name: &[u8]) -> Option<i64>
        ensures { result ≡ entry_of self.now name.now }
    {
        self.values.get(name).copied()
    }

    /// Gives a value to a name that has none.
    pub fn define(&mut self, name: &'a [u8], value: i64) -> Result<(), AllocError>
        requires { entry_of self.old name.now ≡ None }
        ensures { OnOk result (self.new ≡ self.old ++ (name.now, value) ∷ []) }
    {
        self.values.insert(name, value)?;
        Ok(())
    }
}

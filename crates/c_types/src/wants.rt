//! The arguments that a call wants.
ghost use Rattle.std.specs.Prelude.{◌≡◌, [], ◌∷◌, MatchOption};
ghost use Rattle.c_types.specs.Shown.{shown_wants};

use crate::library::{StarredType, Wanted};
use crate::types::BaseType;

/// The arguments that a call wants: those that are listed, and then so many numbers.
#[derive(Clone, Copy, Debug)]
pub struct Wants<'a> {
    pub listed: &'a [Wanted],
    pub numbers: usize,
}

impl<'a> Wants<'a> {
    /// What arguments are wanted, one after another.
    pub fn listed(listed: &'a [Wanted]) -> Wants<'a>
        ensures { shown_wants result ≡ listed.entry.now }
    {
        Wants { listed, numbers: 0 }
    }

    /// The first one, and those after it.
    pub fn next(self) -> Option<(Wanted, Wants<'a>)>
        ensures { MatchOption result (shown_wants self.entry ≡ []) (λ next. shown_wants self.entry ≡ next.0 ∷ shown_wants next.1) }
    {
        match self.listed {
            [first, listed @ ..] => {
                let rest = Wants {
                    listed,
                    numbers: self.numbers,
                };
                Some((*first, rest))
            }
            [] if self.numbers > 0 => {
                let rest = Wants {
                    listed: &[],
                    numbers: self.numbers - 1,
                };
                Some((
                    Wanted::Fits(StarredType {
                        stars: 0,
                        base: BaseType::Int,
                    }),
                    rest,
                ))
            }
            [] => None,
        }
    }
}

ghost use Rattle.std.specs.Prelude.{◌≡◌};
ghost use Rattle.profiles.specs.Profile.{ArePairs};

use rr_base::{Bytes, List};
use std::marker::Model;

/// Which functions may be at work at once, on two threads.
#[derive(Debug, Drop)]
pub enum Profile {
    /// Any two.
    All,
    /// These alone.
    Pairs(FunctionPairs),
}

/// Pairs of functions by their names, which are texts in UTF-8. Each pair has the name that is less by its bytes
/// first, and the pairs strictly ascend: by the first name, and then by the second.
#[derive(Debug, Drop)]
pub struct FunctionPairs {
    pairs: List<(Bytes, Bytes)>,
}

impl Model for FunctionPairs {
    ghost use Rattle.std.specs.Prelude.{ℕ, List};
    ghost use Rattle.profiles.specs.Profile.{ArePairs};

    ghost Value = { List (List ℕ × List ℕ) };

    ghost view = { λ p. p.pairs };

    ghost invariant = { λ p. ArePairs p.pairs };
}

impl FunctionPairs {
    /// The pairs, which must be in order already.
    pub fn new(pairs: List<(Bytes, Bytes)>) -> FunctionPairs
        requires { ArePairs pairs }
        ensures { result ≡ pairs }
    {
        FunctionPairs { pairs }
    }

    /// The pairs in their order.
    pub fn as_list(&self) -> &List<(Bytes, Bytes)>
        ensures value { result.now ≡ self.now }
        ensures kept { ArePairs self.now }
    {
        &self.pairs
    }
}

//! Which types of functions are one (C99 6.7.5.3).
ghost use Rattle.std.specs.Prelude.{◌≡◌};
ghost use Rattle.c_types.specs.Signatures as spec;

use crate::library::{StarredType, Wanted};
use crate::names::Signature;
use crate::type_ref::have_same_base;

/// Whether the bases are one, with as many stars.
pub fn is_same_starred(s: StarredType, t: StarredType) -> bool
    ensures { result ≡ spec.same_starred s t }
{
    s.stars == t.stars && have_same_base(s.base, t.base)
}

fn have_same_result(s: Option<StarredType>, t: Option<StarredType>) -> bool
    ensures { result ≡ spec.same_result s t }
{
    match (s, t) {
        (Some(s), Some(t)) => is_same_starred(s, t),
        _ => false,
    }
}

fn are_same_wanted(x: Wanted, y: Wanted) -> bool
    ensures { result ≡ spec.same_wanted x y }
{
    match (x, y) {
        (Wanted::Fits(s), Wanted::Fits(t)) => is_same_starred(s, t),
        _ => false,
    }
}

fn have_same_params(mut xs: &[Wanted], mut ys: &[Wanted]) -> bool
    ensures { result ≡ spec.same_params xs.entry.now ys.entry.now }
{
    while let [x, more @ ..] = xs {
        let [y, others @ ..] = ys else {
            return false;
        };
        if !are_same_wanted(*x, *y) {
            return false;
        }
        xs = more;
        ys = others;
    }
    ys.is_empty()
}

/// Whether two functions are of one type. A type with a fault in it isn't even the same as itself.
pub fn have_same_signature(f: &Signature, g: &Signature) -> bool
    ensures { result ≡ spec.same_signature f.now g.now }
{
    have_same_result(f.result, g.result)
        && have_same_params(f.params.as_slice(), g.params.as_slice())
}

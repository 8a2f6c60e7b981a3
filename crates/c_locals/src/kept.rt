//! Which objects are kept in cells by their types.
ghost use Rattle.std.specs.Prelude.{◌≡◌, map};
ghost use Rattle.c_tree.specs.View.{declared_of, exp_of, formal_of};
ghost use Rattle.c_locals.specs.Kept as spec;

use c_tree::{Declarator, Expr, Param, Specifier};

fn is_kept_specifier(specifier: &Specifier) -> bool
    ensures { result ≡ spec.is_kept_specifier specifier.now }
{
    match specifier {
        Specifier::Int { .. } => false,
        Specifier::Long { .. } => false,
        Specifier::Void { .. } => false,
        Specifier::Struct { .. } => true,
        Specifier::PthreadT { .. } => false,
        Specifier::PthreadMutexT { .. } => true,
        Specifier::PthreadCondT { .. } => true,
        Specifier::PthreadBarrierT { .. } => true,
        Specifier::PthreadRwlockT { .. } => true,
    }
}

fn is_some_length(lengths: &[Expr]) -> bool
    ensures { result ≡ spec.is_some_length (map exp_of lengths.now) }
{
    match lengths {
        [] => false,
        [_, ..] => true,
    }
}

fn is_kept(specifier: &Specifier, stars: usize, lengths: &[Expr]) -> bool
    ensures { result ≡ spec.is_kept specifier.now stars (map exp_of lengths.now) }
{
    is_some_length(lengths) || stars == 0 && is_kept_specifier(specifier)
}

/// Whether an object is kept in cells by its type.
pub fn is_kept_declared(specifier: &Specifier, declarator: &Declarator) -> bool
    ensures { result ≡ spec.is_kept_declared specifier.now (declared_of declarator.now) }
{
    match declarator {
        Declarator::Object { stars, lengths, .. } => {
            is_kept(specifier, *stars, lengths.as_slice())
        }
        Declarator::Pointer { .. } => false,
    }
}

/// Whether a formal is kept in cells by its type.
pub fn is_kept_formal(param: &Param) -> bool
    ensures { result ≡ spec.is_kept_formal (formal_of param.now) }
{
    match param {
        Param::Object {
            specifier,
            stars,
            ..
        } => is_kept(specifier, *stars, &[]),
        Param::Pointer { .. } => false,
    }
}

//! Reads the names of types.

ghost use Rattle.std.specs.Prelude.{◌≡◌, ◌≤◌, IfOk};
ghost use Rattle.c_parse_rules.specs.Gives.{limit, lexemes, Reads, Follows};
ghost use Rattle.c_grammar.specs.Grammar.{specifier_place as spec_specifier_place};
ghost use Rattle.c_grammar.specs.Rules.{long_rule};
ghost use Rattle.c_grammar.specs.Phrase as phrase;

use crate::token::{Stop, name, next_punct, next_word, word};
use c_lexer::{Punct, Token, Word};
use c_tree::{CType, Specifier};
use rr_base::Position;
use std::alloc::Global;

/// The specifier that begins a declaration, a parameter or the name of a type.
#[tactic(auto, using(crate::proofs::Steps::specifier_rules))]
pub fn specifier(
    alloc: Global,
    level: u32,
    tokens: &[Token],
) -> Result<(Specifier, &[Token]), Stop<'_>>
    ensures { Reads (phrase.specifier level) (λ s. s) tokens.now result }
{
    if let Some((at, rest)) = next_word(tokens, Word::Int, level)? {
        return Ok((Specifier::Int { at }, rest));
    }
    if let Some((at, rest)) = next_word(tokens, Word::Long, level)? {
        return long(level, at, rest);
    }
    if let Some((at, rest)) = next_word(tokens, Word::Void, level)? {
        return Ok((Specifier::Void { at }, rest));
    }
    if let Some((at, rest)) = next_word(tokens, Word::Struct, level)? {
        let (name, rest) = name(alloc, rest, level)?;
        return Ok((Specifier::Struct { name, at }, rest));
    }
    if let Some((at, rest)) = next_word(tokens, Word::PthreadT, level)? {
        return Ok((Specifier::PthreadT { at }, rest));
    }
    if let Some((at, rest)) = next_word(tokens, Word::PthreadMutexT, level)? {
        return Ok((Specifier::PthreadMutexT { at }, rest));
    }
    if let Some((at, rest)) = next_word(tokens, Word::PthreadCondT, level)? {
        return Ok((Specifier::PthreadCondT { at }, rest));
    }
    if let Some((at, rest)) = next_word(tokens, Word::PthreadBarrierT, level)? {
        return Ok((Specifier::PthreadBarrierT { at }, rest));
    }
    let (at, rest) = word(tokens, Word::PthreadRwlockT, level)?;
    Ok((Specifier::PthreadRwlockT { at }, rest))
}

// After the first `long`, which stands at that place.
fn long(level: u32, at: Position, tokens: &[Token]) -> Result<(Specifier, &[Token]), Stop<'_>>
    ensures { Follows (long_rule level at) (λ s. s) tokens.now result }
{
    let (second, rest) = match next_word(tokens, Word::Long, level)? {
        Some((_, rest)) => (true, rest),
        None => (false, tokens),
    };
    let (int, rest) = match next_word(rest, Word::Int, level)? {
        Some((_, rest)) => (true, rest),
        None => (false, rest),
    };
    Ok((Specifier::Long { second, int, at }, rest))
}

/// A specifier and stars, as in a cast.
#[tactic(auto, using(crate::proofs::Steps::type_name_rules))]
pub fn type_name(alloc: Global, level: u32, tokens: &[Token]) -> Result<(CType, &[Token]), Stop<'_>>
    ensures { Reads (phrase.type_name level) (λ t. t) tokens.now result }
{
    let (specifier, rest) = specifier(alloc, level, tokens)?;
    let (stars, rest) = stars(level, rest)?;
    let at = specifier_place(&specifier);
    Ok((
        CType {
            specifier,
            stars,
            at,
        },
        rest,
    ))
}

/// Where a specifier begins.
pub fn specifier_place(specifier: &Specifier) -> Position
    ensures { result ≡ spec_specifier_place specifier.now }
{
    match *specifier {
        Specifier::Int { at }
        | Specifier::Long { at, .. }
        | Specifier::Void { at }
        | Specifier::Struct { at, .. }
        | Specifier::PthreadT { at }
        | Specifier::PthreadMutexT { at }
        | Specifier::PthreadCondT { at }
        | Specifier::PthreadBarrierT { at }
        | Specifier::PthreadRwlockT { at } => at,
    }
}

/// The number of stars.
#[tactic(auto, using(crate::proofs::Steps::stars_rules))]
pub fn stars(level: u32, tokens: &[Token]) -> Result<(usize, &[Token]), Stop<'_>>
    ensures { Reads (phrase.stars level 0) (λ n. n) tokens.now result }
{
    let mut rest = tokens;
    let mut count = 0;
    while let Some((_, following)) = next_punct(rest, Punct::Star, level)? {
        count += 1;
        rest = following;
    }
    Ok((count, rest))
}

//! Reads parameters and pointers to functions (C99 6.7.5.3). Each reader is named after its phrase. It takes the level of
//! nesting at which the phrase stands, and gives the tree and the tokens after it.

ghost use Rattle.std.specs.Prelude.{◌≡◌, ◌≤◌, map};
ghost use Rattle.c_tree.specs.Tree.{formal, listed_row};
ghost use Rattle.c_tree.specs.View.{formal_of, formals_of};
ghost use Rattle.c_parse_rules.specs.Gives.{limit, pointed_of, Reads};
ghost use Rattle.c_grammar.specs.Grammar.{specifier_place as spec_specifier_place, is_void_alone as spec_is_void_alone};
ghost use Rattle.c_grammar.specs.Phrase as phrase;
ghost use Rattle.c_grammar.specs.Rules as rules;

use c_lexer::{Punct, Token};
use c_parse_rules::token::{Stop, begins_with, name, next_name, next_punct, punct};
use c_parse_rules::types::{specifier, specifier_place, stars};
use c_tree::{Name, Param, Params, Specifier};
use rr_base::List;
use std::alloc::Global;

#[cycle(params)]
#[tactic(auto, using(c_parse_rules::proofs::Steps::param_rules))]
fn param(alloc: Global, level: u32, tokens: &[Token]) -> Result<(Param, &[Token]), Stop<'_>>
    requires { level ≤ limit }
    ensures { Reads (phrase.param level) (λ x. formal_of x) tokens.now result }
{
    let (specifier, rest) = specifier(alloc, level, tokens)?;
    param_after(alloc, level, specifier, rest)
}

// An object, with a name or none.
fn object(specifier: Specifier, stars: usize, name: Option<Name>) -> Param
    ensures { formal_of result ≡ formal specifier stars name (spec_specifier_place specifier) }
{
    let at = specifier_place(&specifier);
    Param::Object {
        specifier,
        stars,
        name,
        at,
    }
}

// After the specifier.
#[cycle(params)]
#[tactic(auto, using(c_parse_rules::proofs::Steps::param_after_rules))]
fn param_after(
    alloc: Global,
    level: u32,
    specifier: Specifier,
    tokens: &[Token],
) -> Result<(Param, &[Token]), Stop<'_>>
    requires { level ≤ limit }
    ensures { Reads (phrase.param_after level specifier) (λ x. formal_of x) tokens.now result }
{
    let (stars, rest) = stars(level, tokens)?;
    if let Some((_, inside)) = next_punct(rest, Punct::OpenParen, level)? {
        let at = specifier_place(&specifier);
        let ((name, params), rest) = pointer(alloc, level, inside)?;
        return Ok((
            Param::Pointer {
                specifier,
                stars,
                name,
                params,
                at,
            },
            rest,
        ));
    }
    if let Some((name, following)) = next_name(alloc, rest, level)? {
        return Ok((object(specifier, stars, Some(name)), following));
    }
    Ok((object(specifier, stars, None), rest))
}

// The parameters with a comma before each, after those that were found.
#[cycle(params)]
fn more_params(
    alloc: Global,
    level: u32,
    mut found: List<Param>,
    tokens: &[Token],
) -> Result<(List<Param>, &[Token]), Stop<'_>>
    requires { level ≤ limit }
    ensures { Reads (phrase.more_params level (map formal_of found)) (λ xs. map formal_of xs) tokens.now result }
{
    let mut rest = tokens;
    'params: while let Some((_, following)) = next_punct(rest, Punct::Comma, level)? {
        let (next, following) = param(alloc, level, following)?;
        found.push(next)?;
        rest = following;
    }
    Ok((found, rest))
}

// The word `void` alone is no parameter.
fn is_void_alone(params: &[Param]) -> bool
    ensures { result ≡ spec_is_void_alone (listed_row (map formal_of params.now)) }
{
    let [param] = params else {
        return false;
    };
    let Param::Object {
        specifier,
        stars,
        name,
        ..
    } = param
    else {
        return false;
    };
    match (specifier, name) {
        (Specifier::Void { .. }, None) => *stars == 0,
        _ => false,
    }
}

fn params_from(found: List<Param>) -> Params
    ensures { formals_of result ≡ rules.params_from (map formal_of found) }
{
    if is_void_alone(found.as_slice()) {
        Params::Void
    } else {
        Params::Listed(found)
    }
}

/// Up to the parenthesis that closes them.
#[cycle(params)]
#[tactic(auto, using(c_parse_rules::proofs::Steps::params_rules))]
pub fn params(alloc: Global, level: u32, tokens: &[Token]) -> Result<(Params, &[Token]), Stop<'_>>
    requires { level ≤ limit }
    ensures { Reads (phrase.params level) (λ x. formals_of x) tokens.now result }
{
    if begins_with(tokens, Punct::CloseParen) {
        return Ok((Params::Nothing, tokens));
    }
    let (first, rest) = param(alloc, level, tokens)?;
    let mut found = List::new(alloc);
    found.push(first)?;
    let (found, rest) = more_params(alloc, level, found, rest)?;
    Ok((params_from(found), rest))
}

/// A pointer to a function after its first parenthesis: the name and the parameters, which stand one level deeper.
#[cycle(params)]
#[tactic(auto, using(c_parse_rules::proofs::Steps::pointer_rules))]
pub fn pointer(
    alloc: Global,
    level: u32,
    tokens: &[Token],
) -> Result<((Name, Params), &[Token]), Stop<'_>>
    requires { level ≤ limit }
    ensures { Reads (phrase.pointer level) (λ x. pointed_of x) tokens.now result }
{
    let (_, rest) = punct(tokens, Punct::Star, level)?;
    let (name, rest) = name(alloc, rest, level)?;
    let (_, rest) = punct(rest, Punct::CloseParen, level)?;
    let (_, rest) = punct(rest, Punct::OpenParen, level + 1)?;
    let (params, rest) = params(alloc, level + 1, rest)?;
    let (_, rest) = punct(rest, Punct::CloseParen, level + 1)?;
    Ok(((name, params), rest))
}

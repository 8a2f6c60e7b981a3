//! Reads declarations (C99 6.7). Each reader is named after its phrase. It takes the level of nesting at which the phrase
//! stands, and gives the tree and the tokens after it.

ghost use Rattle.std.specs.Prelude.{◌≡◌, ◌≤◌, [], map};
ghost use Rattle.c_tree.specs.View.{exp_of, declared_of, init_of, object_of, declares_of};
ghost use Rattle.c_parse_rules.specs.Gives.{limit, initials_of, Reads, Follows};
ghost use Rattle.c_grammar.specs.Phrase as phrase;
ghost use Rattle.c_grammar.specs.Rules.{braces_rule};

use crate::param::pointer;
use c_expressions::expression::{assignment, conditional};
use c_lexer::{Punct, Token, Word};
use c_parse_rules::head::{Front, declarator_front};
use c_parse_rules::make;
use c_parse_rules::token::{Stop, begins_with, next_punct, next_word, punct};
use c_parse_rules::types::{specifier, specifier_place};
use c_tree::{Declaration, Declarator, Expr, Initial, Item};
use rr_base::{List, Position};
use std::alloc::Global;

#[tactic(auto, using(c_parse_rules::proofs::Steps::declarator_rules))]
pub fn declarator(
    alloc: Global,
    level: u32,
    tokens: &[Token],
) -> Result<(Declarator, &[Token]), Stop<'_>>
    requires { level ≤ limit }
    ensures { Reads (phrase.declarator level) (λ d. declared_of d) tokens.now result }
{
    let (front, rest) = declarator_front(alloc, level, tokens)?;
    match front {
        Front::Object { stars, name } => {
            let (lengths, rest) = lengths(alloc, level + stars, rest)?;
            let stars = stars as usize;
            Ok((
                Declarator::Object {
                    stars,
                    name,
                    lengths,
                },
                rest,
            ))
        }
        Front::Pointer { stars } => {
            let ((name, params), rest) = pointer(alloc, level, rest)?;
            Ok((
                Declarator::Pointer {
                    stars,
                    name,
                    params,
                },
                rest,
            ))
        }
    }
}

/// The lengths of arrays in brackets, each pair one level above the one before it.
#[tactic(auto, using(c_parse_rules::proofs::Steps::lengths_rules))]
pub fn lengths(
    alloc: Global,
    level: u32,
    tokens: &[Token],
) -> Result<(List<Expr>, &[Token]), Stop<'_>>
    requires { level ≤ limit }
    ensures { Reads (phrase.lengths level []) (λ es. map exp_of es) tokens.now result }
{
    let mut found = List::new(alloc);
    let mut rest = tokens;
    let mut above = level;
    while let Some((_, following)) = next_punct(rest, Punct::OpenBracket, above + 1)? {
        let (e, next) = conditional(alloc, above, following)?;
        found.push(e)?;
        let (_, next) = punct(next, Punct::CloseBracket, above + 1)?;
        above += 1;
        rest = next;
    }
    Ok((found, rest))
}

#[cycle(initials)]
#[tactic(auto, using(c_parse_rules::proofs::Steps::initial_rules))]
pub fn initial(alloc: Global, level: u32, tokens: &[Token]) -> Result<(Initial, &[Token]), Stop<'_>>
    requires { level ≤ limit }
    ensures { Reads (phrase.initial level) (λ i. init_of i) tokens.now result }
{
    if let Some((at, rest)) = next_punct(tokens, Punct::OpenBrace, level + 1)? {
        return braces(alloc, level + 1, at, rest);
    }
    if let Some((at, rest)) = next_word(tokens, Word::PthreadMutexInitializer, level + 1)? {
        return Ok((Initial::Mutex { at }, rest));
    }
    if let Some((at, rest)) = next_word(tokens, Word::PthreadCondInitializer, level + 1)? {
        return Ok((Initial::Cond { at }, rest));
    }
    if let Some((at, rest)) = next_word(tokens, Word::PthreadRwlockInitializer, level + 1)? {
        return Ok((Initial::RwLock { at }, rest));
    }
    let (e, rest) = assignment(alloc, level + 1, tokens)?;
    Ok((Initial::Value(e), rest))
}

// After an opening brace at that place, all at one level.
#[cycle(initials)]
fn braces(
    alloc: Global,
    level: u32,
    at: Position,
    tokens: &[Token],
) -> Result<(Initial, &[Token]), Stop<'_>>
    requires { level ≤ limit }
    ensures { Follows (braces_rule level at) (λ i. init_of i) tokens.now result }
{
    let (first, rest) = initial(alloc, level, tokens)?;
    let mut parts = List::new(alloc);
    parts.push(first)?;
    let ((parts, comma), rest) = more_initials(alloc, level, parts, rest)?;
    let (_, rest) = punct(rest, Punct::CloseBrace, level)?;
    Ok((make::braces(parts, comma, at), rest))
}

// The initials with a comma before each, after those that were found, and whether a comma stands after the last.
#[cycle(initials)]
#[tactic(auto, using(c_parse_rules::proofs::Steps::more_initials_rules))]
fn more_initials(
    alloc: Global,
    level: u32,
    mut found: List<Initial>,
    tokens: &[Token],
) -> Result<((List<Initial>, bool), &[Token]), Stop<'_>>
    requires { level ≤ limit }
    ensures { Reads (phrase.more_initials level (map init_of found)) (λ x. initials_of x) tokens.now result }
{
    let mut rest = tokens;
    while let Some((_, following)) = next_punct(rest, Punct::Comma, level)? {
        if begins_with(following, Punct::CloseBrace) {
            return Ok(((found, true), following));
        }
        let (i, next) = initial(alloc, level, following)?;
        found.push(i)?;
        rest = next;
    }
    Ok(((found, false), rest))
}

#[tactic(auto, using(c_parse_rules::proofs::Steps::object_rules))]
fn object(alloc: Global, level: u32, tokens: &[Token]) -> Result<(Item, &[Token]), Stop<'_>>
    requires { level ≤ limit }
    ensures { Reads (phrase.object level) (λ o. object_of o) tokens.now result }
{
    let (declarator, rest) = declarator(alloc, level, tokens)?;
    object_past(alloc, level, declarator, rest)
}

/// An object after its declarator.
#[tactic(auto, using(c_parse_rules::proofs::Steps::object_after_rules))]
pub fn object_past(
    alloc: Global,
    level: u32,
    declarator: Declarator,
    tokens: &[Token],
) -> Result<(Item, &[Token]), Stop<'_>>
    requires { level ≤ limit }
    ensures { Reads (phrase.object_past level (declared_of declarator)) (λ o. object_of o) tokens.now result }
{
    let Some((at, rest)) = next_punct(tokens, Punct::Assign, level)? else {
        return Ok((Item::Plain(declarator), tokens));
    };
    let (initial, rest) = initial(alloc, level, rest)?;
    Ok((
        Item::Initialised {
            declarator,
            initial,
            at,
        },
        rest,
    ))
}

/// The objects with a comma before each, after those that were found.
#[tactic(auto, using(c_parse_rules::proofs::Steps::more_objects_rules))]
pub fn more_objects(
    alloc: Global,
    level: u32,
    mut found: List<Item>,
    tokens: &[Token],
) -> Result<(List<Item>, &[Token]), Stop<'_>>
    requires { level ≤ limit }
    ensures { Reads (phrase.more_objects level (map object_of found)) (λ os. map object_of os) tokens.now result }
{
    let mut rest = tokens;
    while let Some((_, following)) = next_punct(rest, Punct::Comma, level)? {
        let (item, next) = object(alloc, level, following)?;
        found.push(item)?;
        rest = next;
    }
    Ok((found, rest))
}

#[tactic(auto, using(c_parse_rules::proofs::Steps::declaration_rules))]
pub fn declaration(
    alloc: Global,
    level: u32,
    tokens: &[Token],
) -> Result<(Declaration, &[Token]), Stop<'_>>
    requires { level ≤ limit }
    ensures { Reads (phrase.declaration level) (λ d. declares_of d) tokens.now result }
{
    let (specifier, rest) = specifier(alloc, level, tokens)?;
    let (first, rest) = object(alloc, level, rest)?;
    let mut items = List::new(alloc);
    items.push(first)?;
    let (items, rest) = more_objects(alloc, level, items, rest)?;
    let (_, rest) = punct(rest, Punct::Semicolon, level)?;
    let at = specifier_place(&specifier);
    Ok((
        Declaration {
            specifier,
            items,
            at,
        },
        rest,
    ))
}

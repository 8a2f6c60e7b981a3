//! Reads what a source consists of (C99 6.9). No level of nesting is open there.

ghost use Rattle.std.specs.Prelude.{◌≡◌, ◌≤◌, [], map};
ghost use Rattle.c_tree.specs.View.{code_of, declared_of, fields_of, outer_of};
ghost use Rattle.c_parse_rules.specs.Gives.{limit, Reads, Follows};
ghost use Rattle.c_grammar.specs.Grammar.{name_place};
ghost use Rattle.c_grammar.specs.Phrase as phrase;
ghost use Rattle.c_grammar.specs.Rules as rules;

use crate::statement::parts;
use c_declarations::declaration::{declarator, lengths, more_objects, object_past};
use c_declarations::param::{params, pointer};
use c_lexer::{Punct, Token, Word};
use c_parse_rules::head::{Head, outer_head};
use c_parse_rules::token::{Stop, begins_with, name, next_punct, next_word, punct};
use c_parse_rules::types::{specifier, specifier_place};
use c_tree::{Body, Declarator, External, Member, Name, Specifier};
use rr_base::{List, Position};
use std::alloc::Global;

// ---- functions

// What follows the parameters.
#[tactic(auto, using(c_parse_rules::proofs::Steps::code_rules))]
fn code(alloc: Global, tokens: &[Token]) -> Result<(Body, &[Token]), Stop<'_>>
    ensures { Reads phrase.code (λ c. code_of c) tokens.now result }
{
    if let Some((at, rest)) = next_punct(tokens, Punct::OpenBrace, 0)? {
        let (parts, rest) = parts(alloc, 0, rest)?;
        let (_, rest) = punct(rest, Punct::CloseBrace, 0)?;
        return Ok((Body::Block { parts, at }, rest));
    }
    let (_, rest) = punct(tokens, Punct::Semicolon, 0)?;
    Ok((Body::Prototype, rest))
}

// ---- structs (C99 6.7.2.1)

// The declarators with a comma before each, after those that were found.
fn more_declared(
    alloc: Global,
    mut found: List<Declarator>,
    tokens: &[Token],
) -> Result<(List<Declarator>, &[Token]), Stop<'_>>
    ensures { Reads (phrase.more_declared (map declared_of found)) (λ ds. map declared_of ds) tokens.now result }
{
    let mut rest = tokens;
    'declarators: while let Some((_, following)) = next_punct(rest, Punct::Comma, 0)? {
        let (next, following) = declarator(alloc, 0, following)?;
        found.push(next)?;
        rest = following;
    }
    Ok((found, rest))
}

#[tactic(auto, using(c_parse_rules::proofs::Steps::member_rules))]
fn member(alloc: Global, tokens: &[Token]) -> Result<(Member, &[Token]), Stop<'_>>
    ensures { Reads phrase.member (λ m. fields_of m) tokens.now result }
{
    let (specifier, rest) = specifier(alloc, 0, tokens)?;
    let (first, rest) = declarator(alloc, 0, rest)?;
    let mut found = List::new(alloc);
    found.push(first)?;
    let (declarators, rest) = more_declared(alloc, found, rest)?;
    let (_, rest) = punct(rest, Punct::Semicolon, 0)?;
    let at = specifier_place(&specifier);
    Ok((
        Member {
            specifier,
            declarators,
            at,
        },
        rest,
    ))
}

// The members up to the brace that closes them, after those that were found.
fn more_members(
    alloc: Global,
    mut found: List<Member>,
    tokens: &[Token],
) -> Result<(List<Member>, &[Token]), Stop<'_>>
    ensures { Reads (phrase.more_members (map fields_of found)) (λ fs. map fields_of fs) tokens.now result }
{
    let mut rest = tokens;
    'members: while !begins_with(rest, Punct::CloseBrace) {
        let (next, following) = member(alloc, rest)?;
        found.push(next)?;
        rest = following;
    }
    Ok((found, rest))
}

// After the name.
fn structure(alloc: Global, name: Name, tokens: &[Token]) -> Result<(External, &[Token]), Stop<'_>>
    ensures { Follows (rules.structure_rule name.text (name_place name)) (λ o. outer_of o) tokens.now result }
{
    let (_, rest) = punct(tokens, Punct::OpenBrace, 0)?;
    let (first, rest) = member(alloc, rest)?;
    let mut found = List::new(alloc);
    found.push(first)?;
    let (members, rest) = more_members(alloc, found, rest)?;
    let (_, rest) = punct(rest, Punct::CloseBrace, 0)?;
    let (_, rest) = punct(rest, Punct::Semicolon, 0)?;
    Ok((External::Struct { name, members }, rest))
}

// ---- functions and objects

// After the parenthesis of its parameters.
fn function(
    alloc: Global,
    is_static: bool,
    specifier: Specifier,
    stars: usize,
    name: Name,
    tokens: &[Token],
) -> Result<(External, &[Token]), Stop<'_>>
    ensures { Follows (rules.function_rule is_static specifier stars name.text (name_place name)) (λ o. outer_of o) tokens.now result }
{
    let (params, rest) = params(alloc, 0, tokens)?;
    let (_, rest) = punct(rest, Punct::CloseParen, 0)?;
    let (body, rest) = code(alloc, rest)?;
    Ok((
        External::Function {
            is_static,
            specifier,
            stars,
            name,
            params,
            body,
        },
        rest,
    ))
}

// After the declarator of the first.
fn objects_after(
    alloc: Global,
    is_static: bool,
    specifier: Specifier,
    at: Position,
    declarator: Declarator,
    tokens: &[Token],
) -> Result<(External, &[Token]), Stop<'_>>
    ensures { Follows (rules.objects_after_rule is_static specifier at (declared_of declarator)) (λ o. outer_of o) tokens.now result }
{
    let (first, rest) = object_past(alloc, 0, declarator, tokens)?;
    let mut found = List::new(alloc);
    found.push(first)?;
    let (items, rest) = more_objects(alloc, 0, found, rest)?;
    let (_, rest) = punct(rest, Punct::Semicolon, 0)?;
    Ok((
        External::Objects {
            is_static,
            specifier,
            items,
            at,
        },
        rest,
    ))
}

// After the name of the first.
fn objects(
    alloc: Global,
    is_static: bool,
    specifier: Specifier,
    at: Position,
    stars: u32,
    name: Name,
    tokens: &[Token],
) -> Result<(External, &[Token]), Stop<'_>>
    requires { stars ≤ limit }
    ensures { Follows (rules.objects_rule is_static specifier at stars name.text (name_place name)) (λ o. outer_of o) tokens.now result }
{
    let (lengths, rest) = lengths(alloc, stars, tokens)?;
    let stars = stars as usize;
    let declarator = Declarator::Object {
        stars,
        name,
        lengths,
    };
    objects_after(alloc, is_static, specifier, at, declarator, rest)
}

// After the first parenthesis of the first, a pointer to a function.
fn pointers(
    alloc: Global,
    is_static: bool,
    specifier: Specifier,
    at: Position,
    stars: usize,
    tokens: &[Token],
) -> Result<(External, &[Token]), Stop<'_>>
    ensures { Follows (rules.pointers_rule is_static specifier at stars) (λ o. outer_of o) tokens.now result }
{
    let ((name, params), rest) = pointer(alloc, 0, tokens)?;
    let declarator = Declarator::Pointer {
        stars,
        name,
        params,
    };
    objects_after(alloc, is_static, specifier, at, declarator, rest)
}

// After the specifier. The place is that of the first token.
#[tactic(auto, using(c_parse_rules::proofs::Steps::outer_after_rules))]
fn outer_after(
    alloc: Global,
    is_static: bool,
    specifier: Specifier,
    at: Position,
    tokens: &[Token],
) -> Result<(External, &[Token]), Stop<'_>>
    ensures { Reads (phrase.outer_after is_static specifier at) (λ o. outer_of o) tokens.now result }
{
    let (head, rest) = outer_head(alloc, tokens)?;
    match head {
        Head::Function { stars, name } => function(alloc, is_static, specifier, stars, name, rest),
        Head::Object { stars, name } => {
            objects(alloc, is_static, specifier, at, stars, name, rest)
        }
        Head::Pointer { stars } => pointers(alloc, is_static, specifier, at, stars, rest),
    }
}

// After the word `struct` at that place: a struct's members, or what has its name for a specifier.
fn past_struct(
    alloc: Global,
    at: Position,
    tokens: &[Token],
) -> Result<(External, &[Token]), Stop<'_>>
    ensures { Follows (rules.after_struct_rule at) (λ o. outer_of o) tokens.now result }
{
    let (name, rest) = name(alloc, tokens, 0)?;
    if begins_with(rest, Punct::OpenBrace) {
        return structure(alloc, name, rest);
    }
    outer_after(alloc, false, Specifier::Struct { name, at }, at, rest)
}

#[tactic(auto, using(c_parse_rules::proofs::Steps::outer_rules))]
fn outer(alloc: Global, tokens: &[Token]) -> Result<(External, &[Token]), Stop<'_>>
    ensures { Reads phrase.outer (λ o. outer_of o) tokens.now result }
{
    if let Some((at, rest)) = next_word(tokens, Word::Static, 0)? {
        let (specifier, rest) = specifier(alloc, 0, rest)?;
        return outer_after(alloc, true, specifier, at, rest);
    }
    if let Some((at, rest)) = next_word(tokens, Word::Struct, 0)? {
        return past_struct(alloc, at, rest);
    }
    let (specifier, rest) = specifier(alloc, 0, tokens)?;
    let at = specifier_place(&specifier);
    outer_after(alloc, false, specifier, at, rest)
}

/// All to the end of the tokens.
pub(crate) fn program(
    alloc: Global,
    tokens: &[Token],
) -> Result<(List<External>, &[Token]), Stop<'_>>
    ensures { Reads (phrase.program []) (λ os. map outer_of os) tokens.now result }
{
    let mut found = List::new(alloc);
    let mut rest = tokens;
    'externals: while !rest.is_empty() {
        let (next, following) = outer(alloc, rest)?;
        found.push(next)?;
        rest = following;
    }
    Ok((found, rest))
}

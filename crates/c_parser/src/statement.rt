//! Reads statements and blocks (C99 6.8). Each reader takes the level of nesting at which it reads, and gives the tree and
//! the tokens after it.

ghost use Rattle.std.specs.Prelude.{◌≡◌, ◌≤◌, [], map};
ghost use Rattle.c_tree.specs.View.{exp_of, stmt_of, part_of};
ghost use Rattle.c_parse_rules.specs.Gives.{Reads, Follows};
ghost use Rattle.c_grammar.specs.Grammar.{ends_open as spec_ends_open};
ghost use Rattle.c_grammar.specs.Phrase as phrase;
ghost use Rattle.c_grammar.specs.Rules as rules;

use crate::compose;
use crate::short::{computed, do_end, for_head_of, simple, test};
use c_declarations::declaration::declaration;
use c_lexer::{Punct, Token, Word};
use c_parse_rules::token::{Stop, begins_type, begins_with, next_punct, next_word, punct};
use c_tree::{Expr, Part, Stmt};
use rr_base::{List, Position};
use std::alloc::Global;

/// Whether an `else` after the statement would belong to it.
fn ends_open(statement: &Stmt) -> bool
    ensures { result ≡ spec_ends_open (stmt_of statement.now) }
{
    match statement {
        Stmt::If { no: None, .. } => true,
        Stmt::If { no: Some(last), .. } => ends_open(last),
        Stmt::While { body, .. } | Stmt::For { body, .. } => ends_open(body),
        _ => false,
    }
}

/// A statement in a context at that level.
#[cycle(statements)]
#[tactic(auto, using(c_parse_rules::proofs::Steps::statement_rules))]
pub(crate) fn statement(
    alloc: Global,
    level: u32,
    tokens: &[Token],
) -> Result<(Stmt, &[Token]), Stop<'_>>
    requires { level ≤ 256 }
    ensures { Reads (phrase.statement level) (λ s. stmt_of s) tokens.now result }
{
    let inside = level + 1;
    if let Some((place, rest)) = next_punct(tokens, Punct::OpenBrace, inside)? {
        return block(alloc, inside, place, rest);
    }
    match simple(alloc, inside, tokens)? {
        Some(found) => Ok(found),
        None => control(alloc, inside, tokens),
    }
}

// A statement in a box of its own.
#[cycle(statements)]
fn boxed(alloc: Global, level: u32, tokens: &[Token]) -> Result<(Box<Stmt>, &[Token]), Stop<'_>>
    requires { level ≤ 256 }
    ensures { Reads (phrase.statement level) (λ s. stmt_of s.value) tokens.now result }
{
    let (found, rest) = statement(alloc, level, tokens)?;
    Ok((Box::new(alloc, found)?, rest))
}

// After the brace, which stands at that place.
#[cycle(statements)]
fn block(
    alloc: Global,
    level: u32,
    place: Position,
    tokens: &[Token],
) -> Result<(Stmt, &[Token]), Stop<'_>>
    requires { level ≤ 256 }
    ensures { Follows (rules.block_rule level place) (λ s. stmt_of s) tokens.now result }
{
    let (parts, rest) = parts(alloc, level, tokens)?;
    let (_, rest) = punct(rest, Punct::CloseBrace, level)?;
    Ok((compose::block(parts, place), rest))
}

// One that begins with the word of a test or a loop, or with none.
#[cycle(statements)]
fn control(alloc: Global, level: u32, tokens: &[Token]) -> Result<(Stmt, &[Token]), Stop<'_>>
    requires { level ≤ 257 }
    ensures { Follows (rules.control_rule level) (λ s. stmt_of s) tokens.now result }
{
    if let Some((place, rest)) = next_word(tokens, Word::If, level)? {
        return branch(alloc, level, place, rest);
    }
    if let Some((place, rest)) = next_word(tokens, Word::While, level)? {
        return while_loop(alloc, level, place, rest);
    }
    if let Some((place, rest)) = next_word(tokens, Word::Do, level)? {
        return do_loop(alloc, level, place, rest);
    }
    if let Some((place, rest)) = next_word(tokens, Word::For, level)? {
        return for_loop(alloc, level, place, rest);
    }
    computed(alloc, level, tokens)
}

#[cycle(statements)]
#[tactic(auto, using(c_parse_rules::proofs::After::if_by_test))]
fn branch(
    alloc: Global,
    level: u32,
    place: Position,
    tokens: &[Token],
) -> Result<(Stmt, &[Token]), Stop<'_>>
    requires { level ≤ 256 }
    ensures { Follows (rules.if_rule level place) (λ s. stmt_of s) tokens.now result }
{
    let (test, rest) = test(alloc, level, tokens)?;
    let (yes, rest) = boxed(alloc, level, rest)?;
    otherwise(alloc, level, test, yes, place, rest)
}

// After the statement of an `if`. An `else` after one with an open end was read with it.
#[cycle(statements)]
fn otherwise(
    alloc: Global,
    level: u32,
    test: Box<Expr>,
    yes: Box<Stmt>,
    place: Position,
    tokens: &[Token],
) -> Result<(Stmt, &[Token]), Stop<'_>>
    requires { level ≤ 256 }
    ensures { Follows (rules.else_rule level (exp_of test.value) (stmt_of yes.value) place) (λ s. stmt_of s) tokens.now result }
{
    if ends_open(&yes) {
        return Ok((compose::branch(test, yes, place), tokens));
    }
    let Some((_, rest)) = next_word(tokens, Word::Else, level)? else {
        return Ok((compose::branch(test, yes, place), tokens));
    };
    let (no, rest) = boxed(alloc, level, rest)?;
    Ok((compose::branch_else(test, yes, no, place), rest))
}

#[cycle(statements)]
#[tactic(auto, using(c_parse_rules::proofs::After::while_by_test))]
fn while_loop(
    alloc: Global,
    level: u32,
    place: Position,
    tokens: &[Token],
) -> Result<(Stmt, &[Token]), Stop<'_>>
    requires { level ≤ 256 }
    ensures { Follows (rules.while_rule level place) (λ s. stmt_of s) tokens.now result }
{
    let (test, rest) = test(alloc, level, tokens)?;
    let (body, rest) = boxed(alloc, level, rest)?;
    Ok((compose::while_loop(test, body, place), rest))
}

#[cycle(statements)]
#[tactic(auto, using(c_parse_rules::proofs::After::do_by_end))]
fn do_loop(
    alloc: Global,
    level: u32,
    place: Position,
    tokens: &[Token],
) -> Result<(Stmt, &[Token]), Stop<'_>>
    requires { level ≤ 256 }
    ensures { Follows (rules.do_rule level place) (λ s. stmt_of s) tokens.now result }
{
    let (body, rest) = boxed(alloc, level, tokens)?;
    let (test, rest) = do_end(alloc, level, rest)?;
    Ok((compose::do_loop(body, test, place), rest))
}

#[cycle(statements)]
#[tactic(auto, using(c_parse_rules::proofs::After::for_by_head))]
fn for_loop(
    alloc: Global,
    level: u32,
    place: Position,
    tokens: &[Token],
) -> Result<(Stmt, &[Token]), Stop<'_>>
    requires { level ≤ 256 }
    ensures { Follows (rules.for_rule level place) (λ s. stmt_of s) tokens.now result }
{
    let (head, rest) = for_head_of(alloc, level, tokens)?;
    let (body, rest) = boxed(alloc, level, rest)?;
    Ok((compose::for_loop(head, body, place), rest))
}

// One thing in a block.
#[cycle(statements)]
fn part(alloc: Global, level: u32, tokens: &[Token]) -> Result<(Part, &[Token]), Stop<'_>>
    requires { level ≤ 256 }
    ensures { Follows (rules.part_rule level) (λ p. part_of p) tokens.now result }
{
    if begins_type(tokens) {
        let (declaration, rest) = declaration(alloc, level, tokens)?;
        return Ok((Part::Declares(declaration), rest));
    }
    let (statement, rest) = statement(alloc, level, tokens)?;
    Ok((Part::Does(statement), rest))
}

/// What stands in a block, up to the brace that closes it.
#[cycle(statements)]
pub(crate) fn parts(
    alloc: Global,
    level: u32,
    tokens: &[Token],
) -> Result<(List<Part>, &[Token]), Stop<'_>>
    requires { level ≤ 256 }
    ensures { Reads (phrase.parts level []) (λ ps. map part_of ps) tokens.now result }
{
    let mut found = List::new(alloc);
    let mut rest = tokens;
    'parts: while !begins_with(rest, Punct::CloseBrace) {
        let (next, following) = part(alloc, level, rest)?;
        found.push(next)?;
        rest = following;
    }
    Ok((found, rest))
}

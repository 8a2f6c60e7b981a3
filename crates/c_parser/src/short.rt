//! Reads short statements, and how the others begin and end (C99 6.8). None of them holds a statement. Each reader takes the
//! level of nesting at which it reads, and gives the tree and the tokens after it.

ghost use Rattle.std.specs.Prelude.{◌≡◌, ◌≤◌};
ghost use Rattle.c_tree.specs.View.{exp_of, maybe_of, start_of, stmt_of};
ghost use Rattle.c_parser.specs.ForHeads.{for_head_of as head_of_for};
ghost use Rattle.c_parse_rules.specs.Gives.{Reads, Follows};
ghost use Rattle.c_grammar.specs.Phrase as phrase;
ghost use Rattle.c_grammar.specs.Rules as rules;
ghost use Rattle.c_parser.specs.Simple.{MaySimply};

use c_declarations::declaration::declaration;
use c_expressions::expression::{expression, first_place, maybe_expression};
use c_lexer::{Punct, Token, Word};
use c_parse_rules::token::{Stop, begins_type, next_punct, next_word, punct, word};
use c_tree::{Expr, ForStart, Stmt};
use rr_base::Position;
use std::alloc::Global;

// An expression in a box of its own.
fn boxed(alloc: Global, level: u32, tokens: &[Token]) -> Result<(Box<Expr>, &[Token]), Stop<'_>>
    requires { level ≤ 257 }
    ensures { Reads (phrase.expression level) (λ e. exp_of e.value) tokens.now result }
{
    let (found, rest) = expression(alloc, level, tokens)?;
    Ok((Box::new(alloc, found)?, rest))
}

// The same, or none before this token.
fn maybe_boxed(
    alloc: Global,
    level: u32,
    stop: Punct,
    tokens: &[Token],
) -> Result<(Box<Option<Expr>>, &[Token]), Stop<'_>>
    requires { level ≤ 257 }
    ensures { Reads (phrase.maybe_expression level stop) (λ e. maybe_of e.value) tokens.now result }
{
    let (found, rest) = maybe_expression(alloc, level, stop, tokens)?;
    Ok((Box::new(alloc, found)?, rest))
}

// The expression of an `if` or its kin, in its parentheses.
pub(crate) fn test(
    alloc: Global,
    level: u32,
    tokens: &[Token],
) -> Result<(Box<Expr>, &[Token]), Stop<'_>>
    requires { level ≤ 256 }
    ensures { Follows (rules.test_rule level) (λ e. exp_of e.value) tokens.now result }
{
    let (_, rest) = punct(tokens, Punct::OpenParen, level)?;
    let (test, rest) = boxed(alloc, level, rest)?;
    let (_, rest) = punct(rest, Punct::CloseParen, level)?;
    Ok((test, rest))
}

// What follows the statement of a `do`.
pub(crate) fn do_end(
    alloc: Global,
    level: u32,
    tokens: &[Token],
) -> Result<(Box<Expr>, &[Token]), Stop<'_>>
    requires { level ≤ 256 }
    ensures { Follows (rules.do_end_rule level) (λ e. exp_of e.value) tokens.now result }
{
    let (_, rest) = word(tokens, Word::While, level)?;
    let (_, rest) = punct(rest, Punct::OpenParen, level)?;
    let (test, rest) = boxed(alloc, level, rest)?;
    let (_, rest) = punct(rest, Punct::CloseParen, level)?;
    let (_, rest) = punct(rest, Punct::Semicolon, level)?;
    Ok((test, rest))
}

/// What stands in the parentheses of a `for`.
#[derive(Drop)]
pub(crate) struct ForHead {
    pub start: Box<ForStart>,
    pub test: Box<Option<Expr>>,
    pub step: Box<Option<Expr>>,
}

// How a `for` begins.
#[tactic(auto, using(c_parse_rules::proofs::Steps::start_rules))]
fn start(alloc: Global, level: u32, tokens: &[Token]) -> Result<(Box<ForStart>, &[Token]), Stop<'_>>
    requires { level ≤ 256 }
    ensures { Reads (phrase.start level) (λ s. start_of s.value) tokens.now result }
{
    if begins_type(tokens) {
        let (declaration, rest) = declaration(alloc, level, tokens)?;
        return Ok((Box::new(alloc, ForStart::Declares(declaration))?, rest));
    }
    let (value, rest) = maybe_expression(alloc, level, Punct::Semicolon, tokens)?;
    let start = Box::new(alloc, ForStart::Computes(value))?;
    let (_, rest) = punct(rest, Punct::Semicolon, level)?;
    Ok((start, rest))
}

pub(crate) fn for_head_of(
    alloc: Global,
    level: u32,
    tokens: &[Token],
) -> Result<(ForHead, &[Token]), Stop<'_>>
    requires { level ≤ 256 }
    ensures { Follows (rules.for_head_rule level) (λ h. head_of_for h) tokens.now result }
{
    let (_, rest) = punct(tokens, Punct::OpenParen, level)?;
    let (start, rest) = start(alloc, level, rest)?;
    let (test, rest) = maybe_boxed(alloc, level, Punct::Semicolon, rest)?;
    let (_, rest) = punct(rest, Punct::Semicolon, level)?;
    let (step, rest) = maybe_boxed(alloc, level, Punct::CloseParen, rest)?;
    let (_, rest) = punct(rest, Punct::CloseParen, level)?;
    Ok((ForHead { start, test, step }, rest))
}

// What follows `return`.
fn returned(
    alloc: Global,
    level: u32,
    at: Position,
    tokens: &[Token],
) -> Result<(Stmt, &[Token]), Stop<'_>>
    requires { level ≤ 256 }
    ensures { Follows (rules.return_rule level at) (λ s. stmt_of s) tokens.now result }
{
    let (value, rest) = maybe_boxed(alloc, level, Punct::Semicolon, tokens)?;
    let (_, rest) = punct(rest, Punct::Semicolon, level)?;
    Ok((
        Stmt::Return {
            value: Box::into_inner(value),
            at,
        },
        rest,
    ))
}

// An expression as a statement.
pub(crate) fn computed(
    alloc: Global,
    level: u32,
    tokens: &[Token],
) -> Result<(Stmt, &[Token]), Stop<'_>>
    requires { level ≤ 257 }
    ensures { Follows (rules.compute_rule level) (λ s. stmt_of s) tokens.now result }
{
    let (value, rest) = boxed(alloc, level, tokens)?;
    let (_, rest) = punct(rest, Punct::Semicolon, level)?;
    let at = first_place(&value);
    Ok((
        Stmt::Expression {
            value: Some(Box::into_inner(value)),
            at,
        },
        rest,
    ))
}

/// A statement of a semicolon or a jump; none where it is another one.
pub(crate) fn simple(
    alloc: Global,
    level: u32,
    tokens: &[Token],
) -> Result<Option<(Stmt, &[Token])>, Stop<'_>>
    requires { level ≤ 257 }
    ensures { MaySimply level tokens.now result }
{
    if let Some((at, rest)) = next_punct(tokens, Punct::Semicolon, level)? {
        return Ok(Some((Stmt::Expression { value: None, at }, rest)));
    }
    if let Some((at, rest)) = next_word(tokens, Word::Break, level)? {
        let (_, rest) = punct(rest, Punct::Semicolon, level)?;
        return Ok(Some((Stmt::Break { at }, rest)));
    }
    if let Some((at, rest)) = next_word(tokens, Word::Continue, level)? {
        let (_, rest) = punct(rest, Punct::Semicolon, level)?;
        return Ok(Some((Stmt::Continue { at }, rest)));
    }
    if let Some((at, rest)) = next_word(tokens, Word::Return, level)? {
        let found = returned(alloc, level, at, rest)?;
        return Ok(Some(found));
    }
    Ok(None)
}

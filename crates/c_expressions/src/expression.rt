//! Reads expressions (C99 6.5). Each reader is named after its phrase. It takes the level of nesting at which the phrase
//! stands, and gives the tree and the tokens after it.

ghost use Rattle.std.specs.Prelude.{◌≡◌, ◌≤◌, map};
ghost use Rattle.c_tree.specs.View.{exp_of, maybe_of};
ghost use Rattle.c_parse_rules.specs.Gives.{Reads, Follows};
ghost use Rattle.c_grammar.specs.Grammar.{first_place as spec_first_place};
ghost use Rattle.c_grammar.specs.Phrase as phrase;
ghost use Rattle.c_grammar.specs.Rules.{sizeof_rule};

use c_lexer::{Punct, Token, Word};
use c_parse_rules::make;
use c_parse_rules::operator::push;
use c_parse_rules::token::{
    Stop, begins_type, begins_with, name, next_assign, next_binary, next_letter, next_name,
    next_number, next_prefix, next_punct, next_text, next_word, punct, word,
};
use c_parse_rules::types::type_name;
use c_tree::{Expr, Name};
use rr_base::{List, Position};
use std::alloc::Global;

/// Where an expression begins.
pub fn first_place(e: &Expr) -> Position
    ensures { result ≡ spec_first_place (exp_of e.now) }
{
    match e {
        Expr::Comma { first, .. } => first_place(first),
        Expr::Assign { left, .. } | Expr::Binary { left, .. } => first_place(left),
        Expr::Conditional { test, .. } => first_place(test),
        Expr::Index { base, .. } | Expr::Member { base, .. } | Expr::Arrow { base, .. } => {
            first_place(base)
        }
        Expr::PostIncrement { operand, .. } | Expr::PostDecrement { operand, .. } => {
            first_place(operand)
        }
        Expr::Prefix { at, .. }
        | Expr::SizeofExpr { at, .. }
        | Expr::SizeofType { at, .. }
        | Expr::Cast { at, .. }
        | Expr::Name { at, .. }
        | Expr::Call { at, .. }
        | Expr::Number { at, .. }
        | Expr::Letter { at, .. }
        | Expr::Text { at, .. }
        | Expr::Null { at }
        | Expr::Paren { at, .. } => *at,
    }
}

/// An expression, with commas outside of all parentheses.
#[cycle(read)]
#[tactic(auto, using(c_parse_rules::proofs::Steps::expression_rules))]
pub fn expression(alloc: Global, level: u32, tokens: &[Token]) -> Result<(Expr, &[Token]), Stop<'_>>
    requires { level ≤ 257 }
    ensures { Reads (phrase.expression level) (λ e. exp_of e) tokens.now result }
{
    let (first, rest) = assignment(alloc, level, tokens)?;
    if !begins_with(rest, Punct::Comma) {
        return Ok((first, rest));
    }
    let first = Box::new(alloc, first)?;
    let (_, rest) = punct(rest, Punct::Comma, level)?;
    let (second, rest) = assignment(alloc, level, rest)?;
    let mut others = List::new(alloc);
    others.push(second)?;
    let (others, rest) = more(alloc, level, others, rest)?;
    let at = first_place(&first);
    Ok((make::comma(first, others, at), rest))
}

// The assignments with a comma before each, after those that were found.
#[cycle(read)]
#[tactic(auto, using(c_parse_rules::proofs::Steps::more_rules))]
fn more(
    alloc: Global,
    level: u32,
    mut found: List<Expr>,
    tokens: &[Token],
) -> Result<(List<Expr>, &[Token]), Stop<'_>>
    requires { level ≤ 257 }
    ensures { Reads (phrase.more level (map exp_of found)) (λ es. map exp_of es) tokens.now result }
{
    let mut rest = tokens;
    while let Some((_, following)) = next_punct(rest, Punct::Comma, level)? {
        let (e, next) = assignment(alloc, level, following)?;
        found.push(e)?;
        rest = next;
    }
    Ok((found, rest))
}

/// An expression with no such comma.
#[cycle(read)]
#[tactic(auto, using(c_parse_rules::proofs::Steps::assignment_rules))]
pub fn assignment(alloc: Global, level: u32, tokens: &[Token]) -> Result<(Expr, &[Token]), Stop<'_>>
    requires { level ≤ 257 }
    ensures { Reads (phrase.assignment level) (λ e. exp_of e) tokens.now result }
{
    let (left, rest) = conditional(alloc, level, tokens)?;
    let Some(((op, at), following)) = next_assign(rest, level + 2)? else {
        return Ok((left, rest));
    };
    let left = Box::new(alloc, left)?;
    let (right, rest) = assignment(alloc, level + 2, following)?;
    let right = Box::new(alloc, right)?;
    Ok((
        Expr::Assign {
            left,
            op,
            right,
            at,
        },
        rest,
    ))
}

/// One that assigns nothing outside of all parentheses.
#[cycle(read)]
#[tactic(auto, using(c_parse_rules::proofs::Steps::conditional_part_rules))]
pub fn conditional(
    alloc: Global,
    level: u32,
    tokens: &[Token],
) -> Result<(Expr, &[Token]), Stop<'_>>
    requires { level ≤ 257 }
    ensures { Reads (phrase.conditional_part level) (λ e. exp_of e) tokens.now result }
{
    let (test, rest) = operands(alloc, level, tokens)?;
    if !begins_with(rest, Punct::Question) {
        return Ok((test, rest));
    }
    let test = Box::new(alloc, test)?;
    let (at, rest) = punct(rest, Punct::Question, level + 2)?;
    let (yes, rest) = expression(alloc, level + 2, rest)?;
    let yes = Box::new(alloc, yes)?;
    let (_, rest) = punct(rest, Punct::Colon, level + 2)?;
    let (no, rest) = conditional(alloc, level + 1, rest)?;
    let no = Box::new(alloc, no)?;
    Ok((Expr::Conditional { test, yes, no, at }, rest))
}

#[cycle(read)]
#[tactic(auto, using(c_parse_rules::proofs::Steps::operands_rules))]
fn operands(alloc: Global, level: u32, tokens: &[Token]) -> Result<(Expr, &[Token]), Stop<'_>>
    requires { level ≤ 257 }
    ensures { Reads (phrase.operands level) (λ e. exp_of e) tokens.now result }
{
    let (first, rest) = unary(alloc, level, tokens)?;
    chain(alloc, level, first, rest)
}

// The operators and operands after a left operand.
#[cycle(read)]
#[tactic(auto, using(c_parse_rules::proofs::Steps::chain_rules))]
fn chain(
    alloc: Global,
    level: u32,
    left: Expr,
    tokens: &[Token],
) -> Result<(Expr, &[Token]), Stop<'_>>
    requires { level ≤ 257 }
    ensures { Reads (phrase.chain level (exp_of left)) (λ e. exp_of e) tokens.now result }
{
    let Some(((op, at), following)) = next_binary(tokens, level + 2)? else {
        return Ok((left, tokens));
    };
    let (operand, rest) = unary(alloc, level + 1, following)?;
    let left = push(alloc, left, op, operand, at)?;
    chain(alloc, level + 1, left, rest)
}

#[cycle(read)]
#[tactic(auto, using(c_parse_rules::proofs::Steps::unary_rules))]
fn unary(alloc: Global, level: u32, tokens: &[Token]) -> Result<(Expr, &[Token]), Stop<'_>>
    requires { level ≤ 257 }
    ensures { Reads (phrase.unary level) (λ e. exp_of e) tokens.now result }
{
    match next_punct(tokens, Punct::OpenParen, level + 1)? {
        Some((at, rest)) => opened(alloc, level, at, rest),
        None => unary_plain(alloc, level, tokens),
    }
}

// One that begins with no parenthesis.
#[cycle(read)]
#[tactic(auto, using(c_parse_rules::proofs::Steps::unary_plain_rules))]
fn unary_plain(alloc: Global, level: u32, tokens: &[Token]) -> Result<(Expr, &[Token]), Stop<'_>>
    requires { level ≤ 257 }
    ensures { Reads (phrase.unary_plain level) (λ e. exp_of e) tokens.now result }
{
    if let Some(((op, at), rest)) = next_prefix(tokens, level + 1)? {
        let (operand, rest) = unary(alloc, level + 1, rest)?;
        return Ok((make::prefix(alloc, op, operand, at)?, rest));
    }
    if let Some((at, rest)) = next_word(tokens, Word::Sizeof, level + 1)? {
        return sizeof(alloc, level, at, rest);
    }
    let (base, rest) = atom(alloc, level, tokens)?;
    postfix(alloc, level, base, rest)
}

// After the word, which stands at that place and one level above.
#[cycle(read)]
fn sizeof(
    alloc: Global,
    level: u32,
    at: Position,
    tokens: &[Token],
) -> Result<(Expr, &[Token]), Stop<'_>>
    requires { level ≤ 256 }
    ensures { Follows (sizeof_rule level at) (λ e. exp_of e) tokens.now result }
{
    let Some((there, rest)) = next_punct(tokens, Punct::OpenParen, level + 2)? else {
        let (operand, rest) = unary_plain(alloc, level + 1, tokens)?;
        return Ok((make::sizeof_expr(alloc, operand, at)?, rest));
    };
    if begins_type(rest) {
        let (of, rest) = type_name(alloc, level + 2, rest)?;
        let (_, rest) = punct(rest, Punct::CloseParen, level + 2)?;
        return Ok((Expr::SizeofType { of, at }, rest));
    }
    let (operand, rest) = enclosed(alloc, level + 1, there, rest)?;
    Ok((make::sizeof_expr(alloc, operand, at)?, rest))
}

// After a parenthesis at that place: a cast, or an expression and what follows it.
#[cycle(read)]
#[tactic(auto, using(c_parse_rules::proofs::Steps::opened_rules))]
fn opened(
    alloc: Global,
    level: u32,
    at: Position,
    tokens: &[Token],
) -> Result<(Expr, &[Token]), Stop<'_>>
    requires { level ≤ 256 }
    ensures { Reads (phrase.opened level at) (λ e. exp_of e) tokens.now result }
{
    if begins_type(tokens) {
        let (to, rest) = type_name(alloc, level + 1, tokens)?;
        let (_, rest) = punct(rest, Punct::CloseParen, level + 1)?;
        let (operand, rest) = unary(alloc, level + 1, rest)?;
        return Ok((make::cast(alloc, to, operand, at)?, rest));
    }
    enclosed(alloc, level, at, tokens)
}

#[cycle(read)]
#[tactic(auto, using(c_parse_rules::proofs::Steps::enclosed_rules))]
fn enclosed(
    alloc: Global,
    level: u32,
    at: Position,
    tokens: &[Token],
) -> Result<(Expr, &[Token]), Stop<'_>>
    requires { level ≤ 256 }
    ensures { Reads (phrase.enclosed level at) (λ e. exp_of e) tokens.now result }
{
    let (inner, rest) = expression(alloc, level + 1, tokens)?;
    let inner = Box::new(alloc, inner)?;
    let (_, rest) = punct(rest, Punct::CloseParen, level + 1)?;
    let base = Expr::Paren { inner, at };
    postfix(alloc, level, base, rest)
}

#[cycle(read)]
#[tactic(auto, using(c_parse_rules::proofs::Steps::atom_rules))]
fn atom(alloc: Global, level: u32, tokens: &[Token]) -> Result<(Expr, &[Token]), Stop<'_>>
    requires { level ≤ 257 }
    ensures { Reads (phrase.atom level) (λ e. exp_of e) tokens.now result }
{
    if let Some((Name { text, at }, rest)) = next_name(alloc, tokens, level + 1)? {
        let Some((_, following)) = next_punct(rest, Punct::OpenParen, level + 1)? else {
            return Ok((Expr::Name { name: text, at }, rest));
        };
        let (arguments, rest) = arguments(alloc, level + 1, following)?;
        return Ok((make::call(text, arguments, at), rest));
    }
    if let Some(((value, at), rest)) = next_number(tokens, level + 1)? {
        return Ok((Expr::Number { value, at }, rest));
    }
    if let Some(((value, at), rest)) = next_letter(tokens, level + 1)? {
        return Ok((Expr::Letter { value, at }, rest));
    }
    if let Some(((bytes, at), rest)) = next_text(alloc, tokens, level + 1)? {
        return Ok((Expr::Text { bytes, at }, rest));
    }
    let (at, rest) = word(tokens, Word::Null, level + 1)?;
    Ok((Expr::Null { at }, rest))
}

// The postfix operators after a base.
#[cycle(read)]
#[tactic(auto, using(c_parse_rules::proofs::Steps::postfix_rules))]
fn postfix(
    alloc: Global,
    level: u32,
    base: Expr,
    tokens: &[Token],
) -> Result<(Expr, &[Token]), Stop<'_>>
    requires { level ≤ 257 }
    ensures { Reads (phrase.postfix level (exp_of base)) (λ e. exp_of e) tokens.now result }
{
    if begins_with(tokens, Punct::OpenBracket) {
        let base = Box::new(alloc, base)?;
        let (at, rest) = punct(tokens, Punct::OpenBracket, level + 2)?;
        let (index, rest) = expression(alloc, level + 2, rest)?;
        let index = Box::new(alloc, index)?;
        let (_, rest) = punct(rest, Punct::CloseBracket, level + 2)?;
        let base = Expr::Index { base, index, at };
        return postfix(alloc, level + 1, base, rest);
    }
    if begins_with(tokens, Punct::Dot) {
        let base = Box::new(alloc, base)?;
        let (at, rest) = punct(tokens, Punct::Dot, level + 2)?;
        let (name, rest) = name(alloc, rest, level + 2)?;
        return postfix(alloc, level + 1, Expr::Member { base, name, at }, rest);
    }
    if begins_with(tokens, Punct::Arrow) {
        let base = Box::new(alloc, base)?;
        let (at, rest) = punct(tokens, Punct::Arrow, level + 2)?;
        let (name, rest) = name(alloc, rest, level + 2)?;
        return postfix(alloc, level + 1, Expr::Arrow { base, name, at }, rest);
    }
    if begins_with(tokens, Punct::PlusPlus) {
        let operand = Box::new(alloc, base)?;
        let (at, rest) = punct(tokens, Punct::PlusPlus, level + 2)?;
        let base = Expr::PostIncrement { operand, at };
        return postfix(alloc, level + 1, base, rest);
    }
    if begins_with(tokens, Punct::MinusMinus) {
        let operand = Box::new(alloc, base)?;
        let (at, rest) = punct(tokens, Punct::MinusMinus, level + 2)?;
        let base = Expr::PostDecrement { operand, at };
        return postfix(alloc, level + 1, base, rest);
    }
    Ok((base, tokens))
}

// After a parenthesis, with that which closes them.
#[cycle(read)]
#[tactic(auto, using(c_parse_rules::proofs::Steps::arguments_rules))]
fn arguments(
    alloc: Global,
    level: u32,
    tokens: &[Token],
) -> Result<(List<Expr>, &[Token]), Stop<'_>>
    requires { level ≤ 257 }
    ensures { Reads (phrase.arguments level) (λ es. map exp_of es) tokens.now result }
{
    let mut found = List::new(alloc);
    if let Some((_, rest)) = next_punct(tokens, Punct::CloseParen, level)? {
        return Ok((found, rest));
    }
    let (first, rest) = assignment(alloc, level, tokens)?;
    found.push(first)?;
    let (found, rest) = more(alloc, level, found, rest)?;
    let (_, rest) = punct(rest, Punct::CloseParen, level)?;
    Ok((found, rest))
}

/// An expression, or none before this token.
#[tactic(auto, using(c_parse_rules::proofs::Steps::maybe_expression_rules))]
pub fn maybe_expression(
    alloc: Global,
    level: u32,
    stop: Punct,
    tokens: &[Token],
) -> Result<(Option<Expr>, &[Token]), Stop<'_>>
    requires { level ≤ 257 }
    ensures { Reads (phrase.maybe_expression level stop) (λ e. maybe_of e) tokens.now result }
{
    if begins_with(tokens, stop) {
        return Ok((None, tokens));
    }
    let (e, rest) = expression(alloc, level, tokens)?;
    Ok((Some(e), rest))
}

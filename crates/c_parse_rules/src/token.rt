//! How the next token is read.

ghost use Rattle.std.specs.Prelude.{◌≡◌, ◌≤◌, IfOk, option_map};
ghost use Rattle.c_lexer.specs.declared.token.Kind.TheVariants as kind;
ghost use Rattle.c_parse_rules.specs.Gives.{limit, lexemes, bare, name_view, Takes, MayTake};
ghost use Rattle.c_grammar.specs.Parse as spec;

use crate::operator::{as_assign, as_binary, as_prefix};
use c_lexer::{Kind, Punct, Token, Word};
use c_tree::{AssignOp, BinaryOp, Name, PrefixOp};
use rr_base::{Bytes, Position};
use std::alloc::{AllocError, AllocFailed, Global};

/// The levels of nesting that a source may have.
pub const LIMIT: u32 = 256;

/// Why reading stops: there is no memory, or the first of these tokens, or the end where there are none, is no part of
/// a source or stands above the limit.
#[derive(Clone, Copy, Debug)]
pub enum Stop<'a> {
    /// There is no memory for the tree.
    OutOfMemory,
    /// The first of these is no part of a source here.
    Syntax(&'a [Token]),
    /// The first of these stands above the limit.
    Nesting(&'a [Token]),
}

impl From<AllocError> for Stop<'_> {
    ghost use Rattle.c_parse_rules.specs.declared.token.Stop.TheVariants.{OutOfMemory};

    ghost from_gives = { λ _ e. e ≡ OutOfMemory };

    fn from(_: AllocError) -> Self {
        Stop::OutOfMemory
    }
}

impl<T: Drop> From<AllocFailed<T>> for Stop<'_> {
    ghost use Rattle.c_parse_rules.specs.declared.token.Stop.TheVariants.{OutOfMemory};

    ghost from_gives = { λ _ e. e ≡ OutOfMemory };

    fn from(_: AllocFailed<T>) -> Self {
        Stop::OutOfMemory
    }
}

fn is_punct(kind: &Kind, wanted: Punct) -> bool
    ensures { result ≡ spec.is_of (spec.sign wanted) kind.now }
{
    match kind {
        Kind::Punct(punct) => wanted == *punct,
        _ => false,
    }
}

fn is_word(kind: &Kind, wanted: Word) -> bool
    ensures { result ≡ spec.is_of (spec.key wanted) kind.now }
{
    match kind {
        Kind::Word(word) => wanted == *word,
        _ => false,
    }
}

/// Where the next token is this punctuator, its place and what follows.
pub fn next_punct(
    tokens: &[Token],
    wanted: Punct,
    level: u32,
) -> Result<Option<(Position, &[Token])>, Stop<'_>>
    ensures { MayTake (spec.sign wanted) level (λ p. bare p) tokens.now result }
{
    match tokens {
        [first, rest @ ..] if is_punct(&first.kind, wanted) => {
            if level > LIMIT {
                return Err(Stop::Nesting(tokens));
            }
            Ok(Some((first.at, rest)))
        }
        _ => Ok(None),
    }
}

/// This punctuator, and no other token.
pub fn punct(tokens: &[Token], wanted: Punct, level: u32) -> Result<(Position, &[Token]), Stop<'_>>
    ensures taken { Takes (spec.sign wanted) level (λ p. bare p) tokens.now result }
    ensures within { IfOk result (λ _. level ≤ limit) }
{
    match next_punct(tokens, wanted, level)? {
        Some(found) => Ok(found),
        None => Err(Stop::Syntax(tokens)),
    }
}

/// Where the next token is this word, its place and what follows.
pub fn next_word(
    tokens: &[Token],
    wanted: Word,
    level: u32,
) -> Result<Option<(Position, &[Token])>, Stop<'_>>
    ensures { MayTake (spec.key wanted) level (λ p. bare p) tokens.now result }
{
    match tokens {
        [first, rest @ ..] if is_word(&first.kind, wanted) => {
            if level > LIMIT {
                return Err(Stop::Nesting(tokens));
            }
            Ok(Some((first.at, rest)))
        }
        _ => Ok(None),
    }
}

/// This word, and no other token.
pub fn word(tokens: &[Token], wanted: Word, level: u32) -> Result<(Position, &[Token]), Stop<'_>>
    ensures taken { Takes (spec.key wanted) level (λ p. bare p) tokens.now result }
    ensures within { IfOk result (λ _. level ≤ limit) }
{
    match next_word(tokens, wanted, level)? {
        Some(found) => Ok(found),
        None => Err(Stop::Syntax(tokens)),
    }
}

fn name_of(kind: &Kind) -> Option<&Bytes>
    ensures { option_map (λ x. x.now) result ≡ spec.grab spec.a_name kind.now }
{
    match kind {
        Kind::Name(text) => Some(text),
        _ => None,
    }
}

/// Where the next token is a name, a copy of it and what follows.
pub fn next_name(
    alloc: Global,
    tokens: &[Token],
    level: u32,
) -> Result<Option<(Name, &[Token])>, Stop<'_>>
    ensures { MayTake spec.a_name level (λ n. name_view n) tokens.now result }
{
    let [first, rest @ ..] = tokens else {
        return Ok(None);
    };
    let Some(text) = name_of(&first.kind) else {
        return Ok(None);
    };
    if level > LIMIT {
        return Err(Stop::Nesting(tokens));
    }
    let name = Name {
        text: text.copied(alloc)?,
        at: first.at,
    };
    Ok(Some((name, rest)))
}

/// A name, and no other token.
pub fn name(alloc: Global, tokens: &[Token], level: u32) -> Result<(Name, &[Token]), Stop<'_>>
    ensures taken { Takes spec.a_name level (λ n. name_view n) tokens.now result }
    ensures within { IfOk result (λ _. level ≤ limit) }
{
    match next_name(alloc, tokens, level)? {
        Some(found) => Ok(found),
        None => Err(Stop::Syntax(tokens)),
    }
}

fn text_of(kind: &Kind) -> Option<&Bytes>
    ensures { option_map (λ x. x.now) result ≡ spec.grab spec.a_text kind.now }
{
    match kind {
        Kind::Text(bytes) => Some(bytes),
        _ => None,
    }
}

/// Where the next token is a text, a copy of its bytes, its place and what follows.
pub fn next_text(
    alloc: Global,
    tokens: &[Token],
    level: u32,
) -> Result<Option<((Bytes, Position), &[Token])>, Stop<'_>>
    ensures { MayTake spec.a_text level (λ x. x) tokens.now result }
{
    let [first, rest @ ..] = tokens else {
        return Ok(None);
    };
    let Some(text) = text_of(&first.kind) else {
        return Ok(None);
    };
    if level > LIMIT {
        return Err(Stop::Nesting(tokens));
    }
    Ok(Some(((text.copied(alloc)?, first.at), rest)))
}

fn number_of(kind: &Kind) -> Option<i64>
    ensures { result ≡ spec.grab spec.a_number kind.now }
{
    match kind {
        Kind::Number(value) => Some(*value),
        _ => None,
    }
}

/// Where the next token is a number, its value, its place and what follows.
pub fn next_number(
    tokens: &[Token],
    level: u32,
) -> Result<Option<((i64, Position), &[Token])>, Stop<'_>>
    ensures { MayTake spec.a_number level (λ x. x) tokens.now result }
{
    let [first, rest @ ..] = tokens else {
        return Ok(None);
    };
    let Some(value) = number_of(&first.kind) else {
        return Ok(None);
    };
    if level > LIMIT {
        return Err(Stop::Nesting(tokens));
    }
    Ok(Some(((value, first.at), rest)))
}

fn letter_of(kind: &Kind) -> Option<u8>
    ensures { result ≡ spec.grab spec.a_letter kind.now }
{
    match kind {
        Kind::Letter(value) => Some(*value),
        _ => None,
    }
}

/// Where the next token is a letter, its value, its place and what follows.
pub fn next_letter(
    tokens: &[Token],
    level: u32,
) -> Result<Option<((u8, Position), &[Token])>, Stop<'_>>
    ensures { MayTake spec.a_letter level (λ x. x) tokens.now result }
{
    let [first, rest @ ..] = tokens else {
        return Ok(None);
    };
    let Some(value) = letter_of(&first.kind) else {
        return Ok(None);
    };
    if level > LIMIT {
        return Err(Stop::Nesting(tokens));
    }
    Ok(Some(((value, first.at), rest)))
}

fn prefix_of(kind: &Kind) -> Option<PrefixOp>
    ensures { result ≡ spec.grab spec.a_prefix kind.now }
{
    match kind {
        Kind::Punct(punct) => as_prefix(*punct),
        _ => None,
    }
}

/// Where the next token is a prefix operator, that operator, its place and what follows.
pub fn next_prefix(
    tokens: &[Token],
    level: u32,
) -> Result<Option<((PrefixOp, Position), &[Token])>, Stop<'_>>
    ensures { MayTake spec.a_prefix level (λ x. x) tokens.now result }
{
    let [first, rest @ ..] = tokens else {
        return Ok(None);
    };
    let Some(op) = prefix_of(&first.kind) else {
        return Ok(None);
    };
    if level > LIMIT {
        return Err(Stop::Nesting(tokens));
    }
    Ok(Some(((op, first.at), rest)))
}

fn binary_of(kind: &Kind) -> Option<BinaryOp>
    ensures { result ≡ spec.grab spec.a_binary kind.now }
{
    match kind {
        Kind::Punct(punct) => as_binary(*punct),
        _ => None,
    }
}

/// Where the next token is an operator between two operands, that operator, its place and what follows.
pub fn next_binary(
    tokens: &[Token],
    level: u32,
) -> Result<Option<((BinaryOp, Position), &[Token])>, Stop<'_>>
    ensures { MayTake spec.a_binary level (λ x. x) tokens.now result }
{
    let [first, rest @ ..] = tokens else {
        return Ok(None);
    };
    let Some(op) = binary_of(&first.kind) else {
        return Ok(None);
    };
    if level > LIMIT {
        return Err(Stop::Nesting(tokens));
    }
    Ok(Some(((op, first.at), rest)))
}

fn assign_of(kind: &Kind) -> Option<AssignOp>
    ensures { result ≡ spec.grab spec.an_assign kind.now }
{
    match kind {
        Kind::Punct(punct) => as_assign(*punct),
        _ => None,
    }
}

/// Where the next token is an assignment operator, that operator, its place and what follows.
pub fn next_assign(
    tokens: &[Token],
    level: u32,
) -> Result<Option<((AssignOp, Position), &[Token])>, Stop<'_>>
    ensures { MayTake spec.an_assign level (λ x. x) tokens.now result }
{
    let [first, rest @ ..] = tokens else {
        return Ok(None);
    };
    let Some(op) = assign_of(&first.kind) else {
        return Ok(None);
    };
    if level > LIMIT {
        return Err(Stop::Nesting(tokens));
    }
    Ok(Some(((op, first.at), rest)))
}

fn is_type(word: Word) -> bool
    ensures { result ≡ spec.is_type (kind.Word word) }
{
    matches!(
        word,
        Word::Int
            | Word::Long
            | Word::Void
            | Word::Struct
            | Word::PthreadT
            | Word::PthreadMutexT
            | Word::PthreadCondT
            | Word::PthreadBarrierT
            | Word::PthreadRwlockT
    )
}

/// Whether the next token begins a specifier.
pub fn begins_type(tokens: &[Token]) -> bool
    ensures { result ≡ spec.passes spec.is_type (lexemes tokens.now) }
{
    let [first, ..] = tokens else {
        return false;
    };
    match &first.kind {
        Kind::Word(word) => is_type(*word),
        _ => false,
    }
}

/// Whether the next token is this punctuator.
pub fn begins_with(tokens: &[Token], wanted: Punct) -> bool
    ensures { result ≡ spec.passes (spec.is_of (spec.sign wanted)) (lexemes tokens.now) }
{
    match tokens {
        [first, ..] => is_punct(&first.kind, wanted),
        _ => false,
    }
}

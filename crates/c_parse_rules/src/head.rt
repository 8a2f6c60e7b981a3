//! Reads how a declarator begins (C99 6.7.5): with its stars, and by what comes after them it is that of a function, of an
//! object or of a pointer to a function.

ghost use Rattle.std.specs.Prelude.{◌≡◌, ◌≤◌, length, drop, IfOk};
ghost use Rattle.c_parse_rules.specs.Gives.{limit, lexemes, Gives};
ghost use Rattle.c_parse_rules.specs.Heads.{head_of, IsLow, front_of, IsWithin};
ghost use Rattle.c_grammar.specs.Parse as spec;

use crate::token::{LIMIT, Stop, name, next_punct};
use crate::types::stars;
use c_lexer::{Kind, Punct, Token};
use c_tree::Name;
use std::alloc::Global;

/// What is declared at file level.
#[derive(Drop)]
pub enum Head {
    /// A function, after whose parenthesis reading goes on.
    Function { stars: usize, name: Name },
    /// An object, each of whose stars is a level.
    Object { stars: u32, name: Name },
    /// A pointer to a function, after whose first parenthesis reading goes on.
    Pointer { stars: usize },
}

/// What a declarator is of.
#[derive(Drop)]
pub enum Front {
    /// Of an object, each of whose stars is a level.
    Object { stars: u32, name: Name },
    /// Of a pointer to a function, after whose first parenthesis reading goes on.
    Pointer { stars: usize },
}

// Whether the next token may follow the declarator of an object.
fn follows_declarator(tokens: &[Token]) -> bool
    ensures { result ≡ spec.passes spec.follows_declarator (lexemes tokens.now) }
{
    let [first, ..] = tokens else {
        return false;
    };
    match &first.kind {
        Kind::Punct(punct) => matches!(
            punct,
            Punct::OpenBracket | Punct::Assign | Punct::Comma | Punct::Semicolon
        ),
        _ => false,
    }
}

fn tokens_from(tokens: &[Token], start: usize) -> &[Token]
    requires { start ≤ length tokens.now }
    ensures { result.now ≡ drop start tokens.now }
{
    &tokens[start..]
}

/// The stars of an object raise the level, and those of a function or of a pointer to one don't; which they are is seen
/// after them and the name.
pub fn outer_head(alloc: Global, tokens: &[Token]) -> Result<(Head, &[Token]), Stop<'_>>
    ensures head { Gives (λ h. head_of h) result (spec.outer_head limit (lexemes tokens.now)) }
    ensures low { IfOk result (λ x. IsLow x.0) }
{
    let (stars, rest) = stars(0, tokens)?;
    if let Some((_, inside)) = next_punct(rest, Punct::OpenParen, 0)? {
        return Ok((Head::Pointer { stars }, inside));
    }
    let (name, rest) = name(alloc, rest, 0)?;
    if let Some((_, following)) = next_punct(rest, Punct::OpenParen, 0)? {
        return Ok((Head::Function { stars, name }, following));
    }
    if !follows_declarator(rest) {
        return Err(Stop::Syntax(rest));
    }
    if stars > LIMIT as usize {
        return Err(Stop::Nesting(tokens_from(tokens, LIMIT as usize)));
    }
    let stars = stars as u32;
    Ok((Head::Object { stars, name }, rest))
}

/// The same of a declarator in a context at a level, where no function is declared.
pub fn declarator_front(
    alloc: Global,
    level: u32,
    tokens: &[Token],
) -> Result<(Front, &[Token]), Stop<'_>>
    requires { level ≤ limit }
    ensures front { Gives (λ h. front_of h) result (spec.declarator_front limit level (lexemes tokens.now)) }
    ensures within { IfOk result (λ x. IsWithin level x.0) }
{
    let (stars, rest) = stars(level, tokens)?;
    if let Some((_, inside)) = next_punct(rest, Punct::OpenParen, level)? {
        return Ok((Front::Pointer { stars }, inside));
    }
    let (name, rest) = name(alloc, rest, 0)?;
    let room = (LIMIT - level) as usize;
    if stars > room {
        return Err(Stop::Nesting(tokens_from(tokens, room)));
    }
    let stars = stars as u32;
    Ok((Front::Object { stars, name }, rest))
}

//! The whole of a source.

ghost use Rattle.std.specs.Prelude.{◌≡◌, All, List, [], Err, IfOk, IfErr, map};
ghost use Rattle.c_lexer.specs.Spans.{IsPlaced};
ghost use Rattle.c_tree.specs.Tree.{Outer};
ghost use Rattle.c_tree.specs.View.{outer_of, program_of};
ghost use Rattle.c_print.specs.Kinds.{kinds_of};
ghost use Rattle.c_grammar.specs.Phrase as phrase;
ghost use Rattle.c_grammar.specs.Exact.{parsed};
ghost use Rattle.c_parser.specs.Answers.{IsTreeOf, Finds, IsFault, Tells, begins_refused, end_of, stands_at};
ghost use Rattle.c_parse_rules.specs.Gives.{limit, lexemes, Stops, Reads};

use crate::external::program;
use crate::fault::ParseFault;
use c_lexer::{Kind, Token};
use c_parse_rules::token::Stop;
use c_tree::Program;
use rr_base::{List, Position};
use std::alloc::Global;

// The place of the byte after the last token.
fn end_of(tokens: &[Token]) -> Position
    requires { All IsPlaced tokens.now }
    ensures { result ≡ end_of tokens.now }
{
    match tokens.last() {
        Some(last) => Position {
            line: last.at.line,
            column: last.at.column + (last.end - last.start),
        },
        None => Position { line: 1, column: 1 },
    }
}

fn stands_at(rest: &[Token], tokens: &[Token]) -> Position
    requires { All IsPlaced tokens.now }
    ensures { result ≡ stands_at (lexemes rest.now) tokens.now }
{
    match rest {
        [first, ..] => first.at,
        [] => end_of(tokens),
    }
}

fn begins_refused(tokens: &[Token]) -> bool
    ensures { result ≡ begins_refused (lexemes tokens.now) }
{
    match tokens {
        [first, ..] => matches!(first.kind, Kind::Refused(_)),
        [] => false,
    }
}

// The fault for which reading stopped.
fn fault_of(stop: Stop<'_>, tokens: &[Token]) -> ParseFault
    requires placed { All IsPlaced tokens.now }
    requires stopped { Stops stop (parsed limit (lexemes tokens.now)) }
    ensures fault { IsFault result tokens.now }
    ensures only { (os : List Outer) → IsTreeOf tokens.now os → result ≡ ParseFault.OutOfMemory }
    ensures answer { Tells (Err result) (parsed limit (lexemes tokens.now)) tokens.now }
{
    match stop {
        Stop::OutOfMemory => ParseFault::OutOfMemory,
        Stop::Syntax(rest) => {
            let at = stands_at(rest, tokens);
            if begins_refused(rest) {
                ParseFault::OutOfProfile { at }
            } else {
                ParseFault::Syntax { at }
            }
        }
        Stop::Nesting(rest) => {
            let at = stands_at(rest, tokens);
            ParseFault::Nesting { at }
        }
    }
}

/// The syntax tree of a C source (C99 6.9) by its tokens, as [`c_lexer::tokens`] gives them.
///
/// # Errors
/// The first token that fits no tree: `OutOfProfile` where it is a word that the profile refuses, else
/// `Syntax`; `Nesting` where it stands more than 256 levels deep. `Syntax` at the byte after the last token where the
/// source ends too early. `OutOfMemory` if the tree doesn't fit into memory.
pub fn parse(alloc: Global, tokens: &List<Token>) -> Result<Program, ParseFault>
    requires { All IsPlaced tokens.now }
    // What is found has these tokens, each within the limit of nesting.
    ensures found { IfOk result (λ p. IsTreeOf tokens.now (program_of p)) }
    // A tree that has them is found, unless memory runs out.
    ensures only { (os : List Outer) → IsTreeOf tokens.now os → Finds result os }
    ensures prints { IfOk result (λ p. map (λ t. t.kind) tokens.now ≡ kinds_of (program_of p)) }
    // Which fault it is, and where it stands.
    ensures fault { IfErr result (λ f. IsFault f tokens.now) }
    // It answers what the rules find.
    ensures answer { Tells result (parsed limit (lexemes tokens.now)) tokens.now }
{
    let tokens = tokens.as_slice();
    match program(alloc, tokens) {
        Ok((externals, _)) => Ok(Program { externals }),
        Err(stop) => Err(fault_of(stop, tokens)),
    }
}

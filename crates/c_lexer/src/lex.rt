ghost use Rattle.std.specs.Prelude.{◌≡◌, ◌<◌, ◌≤◌, ◌+◌, ◌-◌, ◌^◌, length, Ok, All, IfOk, IfErr};
ghost use Rattle.c_lexer.specs.Faults as faults;
ghost use Rattle.c_lexer.specs.Spans.{AreInOrder, IsPlaced};
ghost use Rattle.c_lexer.specs.Tokens as spec;

use crate::cut::piece_at;
use crate::fault::{Fault, LexFault};
use crate::names::Names;
use crate::piece::{Cursor, Piece};
use crate::token::{Kind, Token};
use rr_base::{List, Position};
use std::alloc::Global;

fn fault_at(fault: Fault, at: Position) -> LexFault
    ensures { result ≡ faults.fault_at fault at }
{
    match fault {
        Fault::BadByte => LexFault::BadByte { at },
        Fault::OpenComment => LexFault::OpenComment { at },
        Fault::OpenText => LexFault::OpenText { at },
        Fault::BadEscape => LexFault::BadEscape { at },
        Fault::WideNumber => LexFault::WideNumber { at },
        Fault::BadDirective => LexFault::BadDirective { at },
    }
}

fn token_at(kind: Kind, len: usize, cursor: Cursor) -> Token
    requires { cursor.offset + len < 2 ^ 32 }
    ensures { result ≡ spec.token_at kind len cursor }
{
    let Cursor { offset, at } = cursor;
    Token {
        kind,
        at,
        start: offset,
        end: offset + len as u32,
    }
}

// The cursor after these bytes.
fn pass(text: &[u8], mut cursor: Cursor) -> Cursor
    requires offset { cursor.offset + length text.now < 2 ^ 32 }
    requires line { cursor.at.line + length text.now < 2 ^ 32 }
    requires column { cursor.at.column + length text.now < 2 ^ 32 }
    requires first { 1 ≤ cursor.at.column }
    ensures value { result ≡ spec.after text.now cursor }
    ensures offset { result.offset ≡ cursor.offset + length text.now }
    ensures line { result.at.line ≤ cursor.at.line + length text.now }
    ensures column { result.at.column ≤ cursor.at.column + length text.now }
    ensures first { 1 ≤ result.at.column }
{
    for b in text {
        cursor.offset += 1;
        if *b == b'\n' {
            cursor.at.line += 1;
            cursor.at.column = 1;
        } else {
            cursor.at.column += 1;
        }
    }
    cursor
}

/// The tokens of a C source (C99 6.4), or its first fault. A comment, `const`, `volatile` and `#include` of a header
/// of the profile stand for blanks. After a `#define` its name is a number.
///
/// # Errors
/// The first fault of the text, with the place at which it stands; `OutOfMemory` if the tokens don't fit
/// into memory.
pub fn tokens(alloc: Global, text: &[u8]) -> Result<List<Token>, LexFault>
    requires { length text.now < 2 ^ 32 - 1 }
    ensures tokens { IfOk result (λ ts. spec.tokens_of text.now ≡ Ok ts) }
    ensures fault { IfErr result (λ f. spec.IsFaultOf f (spec.tokens_of text.now)) }
    ensures order { IfOk result (AreInOrder 0 (length text.now)) }
    ensures placed { IfOk result (All IsPlaced) }
{
    let mut found = List::new(alloc);
    let mut names = Names::new(alloc);
    let mut rest = text;
    let mut cursor = Cursor {
        offset: 0,
        at: Position { line: 1, column: 1 },
    };
    let mut token_line = 0;
    while !rest.is_empty() {
        match piece_at(alloc, token_line < cursor.at.line, &names, rest)? {
            Piece::Blank(len) => {
                cursor = pass(&rest[..len], cursor);
                rest = &rest[len..];
            }
            Piece::Token(kind, len) => {
                found.push(token_at(kind, len, cursor))?;
                token_line = cursor.at.line;
                cursor = pass(&rest[..len], cursor);
                rest = &rest[len..];
            }
            Piece::Define {
                from,
                to,
                value,
                len,
            } => {
                names.define(&rest[from..to], value)?;
                cursor = pass(&rest[..len], cursor);
                rest = &rest[len..];
            }
            Piece::Fault(fault, len) => return Err(fault_at(fault, pass(&rest[..len], cursor).at)),
        }
    }
    Ok(found)
}

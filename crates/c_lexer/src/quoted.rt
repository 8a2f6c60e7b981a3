//! Letters and texts.

ghost use Rattle.std.specs.Prelude.{◌≡◌, ◌<◌, ◌≤◌, ◌+◌, length, slice_index, IfOk};
ghost use Rattle.c_lexer.specs.Quotes as spec;
ghost use Rattle.c_lexer.specs.Pieces.{IsBodyWithin, IsEscapeOf, IsPartWithin, IsPlainWithin};

use crate::fault::Fault;
use crate::piece::{Body, Piece, Unit};
use crate::scan::{byte, digit, is_quotable};
use crate::token::Kind;
use rr_base::List;
use std::alloc::{AllocError, Global};

fn escaped(b: u8) -> Option<u8>
    ensures { result ≡ spec.escaped b }
{
    match b {
        b'n' => Some(b'\n'),
        b't' => Some(b'\t'),
        b'r' => Some(b'\r'),
        b'0' => Some(0),
        b'\\' | b'\'' | b'"' => Some(b),
        _ => None,
    }
}

fn escape(b: u8, next: u8) -> Unit
    ensures value { result ≡ spec.escape b next }
    ensures two { IsEscapeOf b result }
{
    if !is_quotable(b) {
        return Unit::Open;
    }
    if b == b'0' && digit(next) < 8 {
        return Unit::BadEscape;
    }
    match escaped(b) {
        None => Unit::BadEscape,
        Some(value) => Unit::Byte(value, 2),
    }
}

#[tactic(auto, unfolding(crate::specs::Quotes::unit_at))]
fn unit_at(quote: u8, text: &[u8]) -> Unit
    requires { 0 < quote }
    ensures value { result ≡ spec.unit_at quote text.now }
    ensures within { IsPartWithin result (length text.now) }
{
    let first = byte(text, 0);
    if first == quote {
        Unit::Close
    } else if first == b'\\' {
        escape(byte(text, 1), byte(text, 2))
    } else if is_quotable(first) {
        Unit::Byte(first, 1)
    } else {
        Unit::Open
    }
}

/// The token of a letter, at a text that begins with `'`.
#[tactic(auto, unfolding(crate::specs::Quotes::letter_at))]
pub fn letter_at(text: &[u8]) -> Piece
    requires { 1 ≤ length text.now }
    ensures value { result ≡ spec.letter_at text.now }
    ensures within { IsPlainWithin result (length text.now) }
{
    match unit_at(b'\'', &text[1..]) {
        Unit::Byte(value, len) if byte(text, 1 + len) == b'\'' => {
            Piece::Token(Kind::Letter(value), len + 2)
        }
        Unit::BadEscape => Piece::Fault(Fault::BadEscape, 1),
        _ => Piece::Fault(Fault::OpenText, 0),
    }
}

// What stands after the opening quote of a text.
fn body(alloc: Global, text: &[u8]) -> Result<Body, AllocError>
    ensures value { IfOk result (λ b. b ≡ spec.body_from 0 0 text.now) }
    ensures within { IfOk result (λ b. IsBodyWithin b (length text.now)) }
{
    let mut bytes = List::new(alloc);
    let mut len = 0;
    while len < text.len() {
        match unit_at(b'"', &text[len..]) {
            Unit::Byte(value, n) => {
                bytes.push(value)?;
                len += n;
            }
            Unit::Close => return Ok(Body::Closed(bytes, len)),
            Unit::BadEscape => return Ok(Body::BadEscape(len)),
            Unit::Open => return Ok(Body::Open),
        }
    }
    Ok(Body::Open)
}

/// The token of a text, at a text that begins with `"`.
#[tactic(auto, unfolding(crate::specs::Quotes::text_at))]
pub fn text_at(alloc: Global, text: &[u8]) -> Result<Piece, AllocError>
    requires { 1 ≤ length text.now }
    ensures value { IfOk result (λ p. p ≡ spec.text_at text.now) }
    ensures within { IfOk result (λ p. IsPlainWithin p (length text.now)) }
{
    Ok(match body(alloc, &text[1..])? {
        Body::Closed(bytes, len) => Piece::Token(Kind::Text(bytes), len + 2),
        Body::BadEscape(at) => Piece::Fault(Fault::BadEscape, at + 1),
        Body::Open => Piece::Fault(Fault::OpenText, 0),
    })
}

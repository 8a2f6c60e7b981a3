//! Cuts the piece from the front of a source.

ghost use Rattle.std.specs.Prelude.{◌≡◌, ◌≤◌, ◌<◌, length, slice_index, IfOk, IsTrue};
ghost use Rattle.c_lexer.specs.Comments.{comment_at};
ghost use Rattle.c_lexer.specs.Bytes.{begins_name};
ghost use Rattle.c_lexer.specs.Names as naming;
ghost use Rattle.c_lexer.specs.Pieces.{GivesNew, IsPlainWithin, IsWithin};
ghost use Rattle.c_lexer.specs.Tokens as spec;

use crate::directive::directive_at;
use crate::fault::Fault;
use crate::names::Names;
use crate::number::number_at;
use crate::piece::Piece;
use crate::quoted::{letter_at, text_at};
use crate::scan::{Class, begins_name, byte, comment_len, is_blank, run_len};
use crate::spelling::{is_blank_word, is_refused, punct_at, word_of};
use crate::token::Kind;
use rr_base::List;
use std::alloc::{AllocError, Global};

#[tactic(auto, unfolding(crate::specs::Comments::comment_at))]
fn comment_at(text: &[u8]) -> Piece
    requires { 2 ≤ length text.now }
    ensures value { result ≡ comment_at text.now }
    ensures within { IsPlainWithin result (length text.now) }
{
    match comment_len(&text[2..]) {
        None => Piece::Fault(Fault::OpenComment, 0),
        Some(len) => Piece::Blank(len + 2),
    }
}

#[tactic(auto, unfolding(crate::specs::Names::kind_of))]
fn kind_of(alloc: Global, names: &Names, name: &[u8]) -> Result<Kind, AllocError>
    ensures { IfOk result (λ k. k ≡ naming.kind_of names.now name.now) }
{
    if let Some(word) = word_of(name) {
        return Ok(Kind::Word(word));
    }
    if is_refused(name) {
        return Ok(Kind::Refused(List::from_slice(alloc, name)?));
    }
    match names.value_of(name) {
        Some(value) => Ok(Kind::Number(value)),
        None => Ok(Kind::Name(List::from_slice(alloc, name)?)),
    }
}

#[tactic(auto, unfolding(crate::specs::Names::name_at))]
fn name_at(alloc: Global, names: &Names, text: &[u8]) -> Result<Piece, AllocError>
    requires { IsTrue (begins_name (slice_index text.now 0)) }
    ensures value { IfOk result (λ p. p ≡ naming.name_at names.now text.now) }
    ensures within { IfOk result (λ p. IsPlainWithin p (length text.now)) }
{
    let len = run_len(Class::Name, text);
    let name = &text[..len];
    if is_blank_word(name) {
        Ok(Piece::Blank(len))
    } else {
        Ok(Piece::Token(kind_of(alloc, names, name)?, len))
    }
}

// The piece that a source begins with, but for directives.
#[tactic(auto, unfolding(crate::specs::Tokens::plain_at))]
fn plain_at(alloc: Global, names: &Names, text: &[u8]) -> Result<Piece, AllocError>
    requires { 0 < length text.now }
    ensures value { IfOk result (λ p. p ≡ spec.plain_at names.now text.now) }
    ensures within { IfOk result (λ p. IsPlainWithin p (length text.now)) }
{
    let first = byte(text, 0);
    if is_blank(first) {
        Ok(Piece::Blank(1))
    } else if text.starts_with(b"//") {
        Ok(Piece::Blank(run_len(Class::Line, text)))
    } else if text.starts_with(b"/*") {
        Ok(comment_at(text))
    } else if begins_name(first) {
        name_at(alloc, names, text)
    } else if first.is_ascii_digit() {
        Ok(number_at(text))
    } else if first == b'\'' {
        Ok(letter_at(text))
    } else if first == b'"' {
        text_at(alloc, text)
    } else {
        Ok(punct_at(text))
    }
}

/// The piece that a source begins with which isn't empty. `first` tells that no token stands before it on its line.
#[tactic(auto, unfolding(crate::specs::Tokens::piece_at))]
pub fn piece_at(alloc: Global, first: bool, names: &Names, text: &[u8]) -> Result<Piece, AllocError>
    requires { 0 < length text.now }
    ensures value { IfOk result (λ p. p ≡ spec.piece_at first names.now text.now) }
    ensures within { IfOk result (λ p. IsWithin p (length text.now)) }
    ensures new { IfOk result (λ p. GivesNew p names.now text.now) }
{
    if byte(text, 0) == b'#' && first {
        Ok(directive_at(names, text))
    } else {
        plain_at(alloc, names, text)
    }
}

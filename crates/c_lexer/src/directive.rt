//! Directives, each on one line.

ghost use Rattle.std.specs.Prelude.{◌≡◌, ◌≤◌, ◌-◌, length, slice_index, IsTrue};
ghost use Rattle.std.specs.Char.{is_ascii_digit};
ghost use Rattle.c_lexer.specs.Directives as spec;
ghost use Rattle.c_lexer.specs.Pieces.{ArePartsWithin, GivesNew, IsPlainWithin, IsShort, IsWithin};
ghost use Rattle.c_lexer.specs.Names.{is_free};

use crate::fault::Fault;
use crate::names::Names;
use crate::number::literal_at;
use crate::piece::{Literal, Parts, Piece};
use crate::scan::{Class, begins_name, byte, comment_len, run_len};
use crate::spelling::{header_len, is_blank_word, is_library_name, is_refused, word_of};

fn is_gap_only(text: &[u8]) -> bool
    ensures { result ≡ spec.is_gap_only text.now }
{
    run_len(Class::Gap, text) == text.len()
}

fn is_comment_only(text: &[u8]) -> bool
    ensures { result ≡ spec.is_comment_only text.now }
{
    if text.is_empty() || text.starts_with(b"//") {
        return true;
    }
    if !text.starts_with(b"/*") {
        return false;
    }
    match comment_len(&text[2..]) {
        None => false,
        Some(len) => is_gap_only(&text[len + 2..]),
    }
}

// Whether the rest of a directive's line is spaces, tabs and one comment.
#[tactic(auto, unfolding(crate::specs::Directives::is_tail))]
fn is_tail(text: &[u8]) -> bool
    ensures { result ≡ spec.is_tail text.now }
{
    is_comment_only(&text[run_len(Class::Gap, text)..])
}

#[tactic(auto, unfolding(crate::specs::Directives::include_at))]
fn include_at(line: &[u8]) -> Piece
    requires { 8 ≤ length line.now }
    ensures value { result ≡ spec.include_at line.now }
    ensures within { IsPlainWithin result (length line.now) }
{
    let header = 8 + run_len(Class::Gap, &line[8..]);
    match header_len(&line[header..]) {
        Some(len) if header > 8 && is_tail(&line[header + len..]) => Piece::Blank(line.len()),
        _ => Piece::Fault(Fault::BadDirective, 0),
    }
}

// Whether `#define` may give the name a value.
fn may_define(names: &Names, name: &[u8]) -> bool
    ensures { result ≡ is_free names.now name.now }
{
    word_of(name).is_none()
        && !is_blank_word(name)
        && !is_refused(name)
        && !is_library_name(name)
        && names.value_of(name).is_none()
}

#[tactic(auto, unfolding(crate::specs::Directives::parts_of))]
fn parts_of(line: &[u8]) -> Parts
    requires { 7 ≤ length line.now }
    ensures value { result ≡ spec.parts_of line.now }
    ensures within { ArePartsWithin result (length line.now) }
{
    let from = 7 + run_len(Class::Gap, &line[7..]);
    let to = from + run_len(Class::Name, &line[from..]);
    let sign = to + run_len(Class::Gap, &line[to..]);
    let minus = byte(line, sign) == b'-';
    let digits = if minus { sign + 1 } else { sign };
    Parts {
        from,
        to,
        sign,
        minus,
        digits,
    }
}

#[tactic(auto, unfolding(crate::specs::Directives::are_there))]
fn are_there(parts: Parts, line: &[u8]) -> bool
    ensures value { result ≡ spec.are_there parts line.now }
    ensures digit { IsTrue result → IsTrue (is_ascii_digit (slice_index line.now parts.digits)) }
{
    parts.from > 7
        && begins_name(byte(line, parts.from))
        && parts.to < parts.sign
        && byte(line, parts.digits).is_ascii_digit()
}

// The value that a literal and the sign before it make.
#[tactic(auto, unfolding(crate::specs::Directives::valued))]
fn valued(literal: Literal, parts: Parts, line: &[u8]) -> Piece
    requires parts { ArePartsWithin parts (length line.now) }
    requires short { IsShort literal (length line.now - parts.digits) }
    ensures value { result ≡ spec.valued literal parts line.now }
    ensures within { IsWithin result (length line.now) }
{
    if !is_tail(&line[parts.digits + literal.len..]) {
        return Piece::Fault(Fault::BadDirective, 0);
    }
    match literal.value {
        None => Piece::Fault(Fault::WideNumber, parts.digits),
        Some(value) => Piece::Define {
            from: parts.from,
            to: parts.to,
            value: if parts.minus {
                -(value as i64)
            } else {
                value as i64
            },
            len: line.len(),
        },
    }
}

#[tactic(auto, unfolding(crate::specs::Directives::define_at))]
fn define_at(names: &Names, line: &[u8]) -> Piece
    requires { 7 ≤ length line.now }
    ensures value { result ≡ spec.define_at names.now line.now }
    ensures within { IsWithin result (length line.now) }
    ensures new { GivesNew result names.now line.now }
{
    let parts = parts_of(line);
    if are_there(parts, line) && may_define(names, &line[parts.from..parts.to]) {
        valued(literal_at(&line[parts.digits..]), parts, line)
    } else {
        Piece::Fault(Fault::BadDirective, 0)
    }
}

/// The directive of which the text begins with the `#`.
#[tactic(auto, unfolding(crate::specs::Directives::directive_at))]
pub fn directive_at(names: &Names, text: &[u8]) -> Piece
    ensures value { result ≡ spec.directive_at names.now text.now }
    ensures within { IsWithin result (length text.now) }
    ensures new { GivesNew result names.now text.now }
{
    let line = &text[..run_len(Class::Line, text)];
    if line.starts_with(b"#include") {
        include_at(line)
    } else if line.starts_with(b"#define") {
        define_at(names, line)
    } else {
        Piece::Fault(Fault::BadDirective, 0)
    }
}

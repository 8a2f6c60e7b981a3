//! Numbers as they are written.

ghost use Rattle.std.specs.Prelude.{◌≡◌, ◌<◌, ◌≤◌, ◌+◌, ◌^◌, length, slice_index, IsTrue};
ghost use Rattle.std.specs.Char.{is_ascii_digit};
ghost use Rattle.c_lexer.specs.Pieces.{IsPlainWithin, IsShort};
ghost use Rattle.c_lexer.specs.Numbers as spec;

use crate::fault::Fault;
use crate::piece::{Literal, Piece};
use crate::scan::{Class, byte, continues_name, digit, run_len};
use crate::token::Kind;

// What digits in this base stand for, where that is below 2^63.
fn digits_value(base: u8, digits: &[u8]) -> Option<u64>
    requires low { 1 ≤ base }
    requires high { base ≤ 16 }
    ensures { result ≡ spec.narrow (spec.digits_value base 0 digits.now) }
{
    let mut value: u64 = 0;
    for b in digits {
        let next = value as u128 * base as u128 + digit(*b) as u128;
        if next > i64::MAX as u128 {
            return None;
        }
        value = next as u64;
    }
    Some(value)
}

fn suffix_len(text: &[u8]) -> usize
    ensures value { result ≡ spec.suffix_len text.now }
    ensures within { result ≤ length text.now }
{
    if text.starts_with(b"ll") || text.starts_with(b"LL") {
        2
    } else if text.starts_with(b"l") || text.starts_with(b"L") {
        1
    } else {
        0
    }
}

#[tactic(auto, unfolding(crate::specs::Numbers::based))]
fn based(base: u8, skip: usize, text: &[u8]) -> Literal
    requires low { 1 ≤ base }
    requires high { base ≤ 16 }
    requires skip { skip ≤ length text.now }
    ensures value { result ≡ spec.based base skip text.now }
    ensures within { IsShort result (length text.now) }
{
    let digits = run_len(Class::Digit(base), &text[skip..]);
    let end = skip + digits;
    Literal {
        value: digits_value(base, &text[skip..end]),
        len: end + suffix_len(&text[end..]),
    }
}

fn begins_hexadecimal(text: &[u8]) -> bool
    ensures value { result ≡ spec.begins_hexadecimal text.now }
    ensures within { IsTrue result → 2 ≤ length text.now }
{
    (text.starts_with(b"0x") || text.starts_with(b"0X")) && digit(byte(text, 2)) < 16
}

/// The number that the text begins with, where it begins with a digit.
#[tactic(auto, unfolding(crate::specs::Numbers::literal_at))]
pub fn literal_at(text: &[u8]) -> Literal
    requires { IsTrue (is_ascii_digit (slice_index text.now 0)) }
    ensures value { result ≡ spec.literal_at text.now }
    ensures within { IsShort result (length text.now) }
    ensures some { 1 ≤ result.len }
{
    if begins_hexadecimal(text) {
        based(16, 2, text)
    } else if byte(text, 0) == b'0' {
        based(8, 0, text)
    } else {
        based(10, 0, text)
    }
}

/// The token of a number that the text begins with.
#[tactic(auto, unfolding(crate::specs::Numbers::number_at))]
pub fn number_at(text: &[u8]) -> Piece
    requires { IsTrue (is_ascii_digit (slice_index text.now 0)) }
    ensures value { result ≡ spec.number_at text.now }
    ensures within { IsPlainWithin result (length text.now) }
{
    let Literal { value, len } = literal_at(text);
    match value {
        None => Piece::Fault(Fault::WideNumber, 0),
        Some(_) if continues_name(byte(text, len)) => Piece::Fault(Fault::BadByte, len),
        Some(value) => Piece::Token(Kind::Number(value as i64), len),
    }
}

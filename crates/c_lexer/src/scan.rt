//! Bytes by what they may be part of, and runs of them.

ghost use Rattle.std.specs.Prelude.{◌≡◌, ◌<◌, ◌≤◌, ◌+◌, length, drop, slice_index, IfSome, option_map};
ghost use Rattle.std.specs.Char.{digit_value};
ghost use Rattle.std.specs.List.{prefix_len};
ghost use Rattle.c_lexer.specs.Bytes as spec;
ghost use Rattle.c_lexer.specs.Comments.{comment_end};
ghost use Rattle.c_lexer.specs.Classes.{belongs};

/// What the bytes of a run have in common.
#[derive(Clone, Copy)]
pub enum Class {
    /// Spaces and tabs.
    Gap,
    /// All but the newline.
    Line,
    /// Letters, digits and `_`.
    Name,
    /// Digits in this base.
    Digit(u8),
}

/// The byte there, or 0 past the end.
pub fn byte(text: &[u8], at: usize) -> u8
    ensures value { result ≡ slice_index text.now at }
    ensures within { 0 < result → at < length text.now }
{
    if at < text.len() { text[at] } else { 0 }
}

/// Whether the byte is a blank of itself.
pub fn is_blank(b: u8) -> bool
    ensures { result ≡ spec.is_blank b }
{
    b == b' ' || b == b'\t' || b == b'\n' || b == b'\r' || b == b'\x0C'
}

/// Whether a name may begin with the byte.
pub fn begins_name(b: u8) -> bool
    ensures { result ≡ spec.begins_name b }
{
    b.is_ascii_alphabetic() || b == b'_'
}

/// Whether the byte may stand in a name.
pub fn continues_name(b: u8) -> bool
    ensures { result ≡ spec.continues_name b }
{
    b.is_ascii_alphanumeric() || b == b'_'
}

/// Whether the byte may stand between quotes.
pub fn is_quotable(b: u8) -> bool
    ensures { result ≡ spec.is_quotable b }
{
    b == b'\t' || b >= b' '
}

/// The value of a digit or letter, 0 to 35, and 36 for any other byte.
pub fn digit(b: u8) -> u8
    ensures value { result ≡ digit_value b }
    ensures small { result ≤ 36 }
{
    match b {
        b'0'..=b'9' => b - b'0',
        b'A'..=b'Z' => b - b'A' + 10,
        b'a'..=b'z' => b - b'a' + 10,
        _ => 36,
    }
}

fn is_in(class: Class, b: u8) -> bool
    ensures { result ≡ belongs class b }
{
    match class {
        Class::Gap => b == b' ' || b == b'\t',
        Class::Line => b != b'\n',
        Class::Name => continues_name(b),
        Class::Digit(base) => digit(b) < base,
    }
}

/// How many bytes of the class the text begins with.
pub fn run_len(class: Class, text: &[u8]) -> usize
    ensures value { result ≡ prefix_len (belongs class) text.now }
    ensures within { result ≤ length text.now }
{
    let mut end = 0;
    while end < text.len() && is_in(class, text[end]) {
        end += 1;
    }
    end
}

/// How many bytes there are up to the first `*/` and with it.
pub fn comment_len(text: &[u8]) -> Option<usize>
    ensures value { result ≡ comment_end text.now }
    ensures within { IfSome result (λ n. n ≤ length text.now) }
{
    for (at, b) in text.iter().enumerate() {
        if *b == b'*' && byte(text, at + 1) == b'/' {
            return Some(at + 2);
        }
    }
    None
}

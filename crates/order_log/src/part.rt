// Parts of a line: what stands between its blanks, numbers, and names.

ghost use Rattle.std.specs.Prelude.{◌≡◌, ◌↔◌, IsTrue, option_map};
ghost use Rattle.std.specs.List.{list_all};
ghost use Rattle.order_log.specs.Line as line;
ghost use Rattle.order_log.specs.Names.{IsName, begins_name, continues_name};

/// What stands before the first such byte, and what stands after it.
pub fn cut(bytes: &[u8], at: u8) -> Option<(&[u8], &[u8])>
    ensures { option_map (λ p. (p.0.now, p.1.now)) result ≡ line.cut at bytes.now }
{
    for (end, b) in bytes.iter().enumerate() {
        if *b == at {
            return Some((&bytes[..end], &bytes[end + 1..]));
        }
    }
    None
}

/// What stands after a word, where the line begins with it.
pub fn after_word<'a>(word: &[u8], text: &'a [u8]) -> Option<&'a [u8]>
    ensures { option_map (λ rest. rest.now) result ≡ line.after_word word.now text.now }
{
    text.strip_prefix(word)
}

fn digits(text: &[u8]) -> Option<u64>
    ensures { result ≡ option_map line.capped (line.digits_from 0 text.now) }
{
    let mut value: u64 = 0;
    for b in text {
        if !b.is_ascii_digit() {
            return None;
        }
        value = value
            .saturating_mul(10)
            .saturating_add(u64::from(*b - b'0'));
    }
    Some(value)
}

/// A number in decimal digits without leading zeros. The greatest stands for all that are above.
pub fn number(text: &[u8]) -> Option<u64>
    ensures { result ≡ option_map line.capped (line.number_in text.now) }
{
    match text {
        [] => None,
        [b'0'] => Some(0),
        [b'0', ..] => None,
        [_, ..] => digits(text),
    }
}

fn can_begin(b: u8) -> bool
    ensures { result ≡ begins_name b }
{
    b.is_ascii_alphabetic() || b == b'_'
}

fn can_continue(b: u8) -> bool
    ensures { result ≡ continues_name b }
{
    can_begin(b) || b.is_ascii_digit()
}

fn continues(text: &[u8]) -> bool
    ensures { result ≡ list_all continues_name text.now }
{
    text.iter().all(|b| can_continue(*b))
}

/// Whether the text is a name, as a test that computes.
pub fn spells_name(text: &[u8]) -> bool
    ensures { result ≡ line.is_name text.now }
{
    match text {
        [] => false,
        [first, rest @ ..] => can_begin(*first) && continues(rest),
    }
}

/// Whether the text is a name of the language: a letter or `_`, and then letters, digits and `_`. The
/// language's own words are names too.
pub fn is_name(text: &[u8]) -> bool
    ensures { IsTrue result ↔ IsName text.now }
{
    spells_name(text)
}

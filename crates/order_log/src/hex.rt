// Bytes as hexadecimal digits.

ghost use Rattle.std.specs.Prelude.{◌≡◌, ◌++◌, ◌∷◌, [], ◌<◌, length, IfOk};
ghost use Rattle.order_log.specs.Line as line;

use rr_base::{Bytes, List};
use std::alloc::{AllocError, Global};

fn digit_value(digit: u8) -> Option<u8>
    ensures { result ≡ line.hex_value digit }
{
    match digit {
        b'0'..=b'9' => Some(digit - b'0'),
        b'a'..=b'f' => Some(digit - 87),
        _ => None,
    }
}

#[tactic(auto, unfolding(crate::specs::Line::byte_in))]
fn byte_in(high: u8, low: u8) -> Option<u8>
    ensures { result ≡ line.byte_in high low }
{
    let high = digit_value(high)?;
    let low = digit_value(low)?;
    Some(16 * high + low)
}

/// The bytes that the digits write, two for each; `None` where they write none.
pub fn bytes_in(alloc: Global, digits: &[u8]) -> Result<Option<Bytes>, AllocError>
    ensures { IfOk result (λ bytes. bytes ≡ line.bytes_in digits.now) }
{
    let mut bytes = List::with_capacity(alloc, digits.len() / 2)?;
    let mut rest = digits;
    while let [high, low, following @ ..] = rest {
        let Some(byte) = byte_in(*high, *low) else {
            return Ok(None);
        };
        bytes.push(byte)?;
        rest = following;
    }
    match rest {
        [] => Ok(Some(bytes)),
        _ => Ok(None),
    }
}

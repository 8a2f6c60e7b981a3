// The pairs of a profile.

ghost use Rattle.std.specs.Prelude.{◌≡◌, ℕ, [], option_map};
ghost use Rattle.order_log.specs.Line as line;
ghost use Rattle.order_log.specs.Recogniser as recogniser;
ghost use Rattle.order_log.specs.Recogniser.{Gives, left};

use crate::fault::LogFault;
use crate::part::{after_word, cut, spells_name};
use crate::reader::{Reader, next_line};
use profiles::FunctionPairs;
use rr_base::{Bytes, List};
use std::alloc::Global;

fn ends_before(before: &[(Bytes, Bytes)], first: &[u8], second: &[u8]) -> bool
    ensures { result ≡ line.ends_before before.now (first.now, second.now) }
{
    match before.last() {
        None => true,
        Some(last) => {
            let by_first = last.0.as_slice().cmp(&first);
            let by_second = last.1.as_slice().cmp(&second);
            by_first.then(by_second).is_lt()
        }
    }
}

/// The pair of a line, where it may stand after those before it.
#[tactic(auto, unfolding(crate::specs::Line::pair_in))]
fn pair_in<'a>(before: &[(Bytes, Bytes)], text: &'a [u8]) -> Option<(&'a [u8], &'a [u8])>
    ensures { option_map (λ p. (p.0.now, p.1.now)) result ≡ line.pair_in before.now text.now }
{
    let (first, second) = cut(after_word(b"pair ", text)?, b' ')?;
    let in_order = first.cmp(&second).is_le() && ends_before(before, first, second);
    if !spells_name(first) || !spells_name(second) || !in_order {
        return None;
    }
    Some((first, second))
}

// So many pairs, one a line.
fn pairs(alloc: Global, reader: &mut Reader, count: u64) -> Result<List<(Bytes, Bytes)>, LogFault>
    ensures { Gives (λ ps. (ps, left reader.new)) result
        (recogniser.pairs_from count [] (left reader.old)) }
{
    let mut found = List::new(alloc);
    let mut left = count;
    while left > 0 {
        let at = reader.line;
        let line = next_line(reader)?;
        let Some((first, second)) = pair_in(found.as_slice(), line) else {
            return Err(LogFault::LogSyntax(at));
        };
        found.push((
            List::from_slice(alloc, first)?,
            List::from_slice(alloc, second)?,
        ))?;
        left -= 1;
    }
    Ok(found)
}

/// The pairs of a profile of so many, one a line.
pub fn function_pairs(
    alloc: Global,
    reader: &mut Reader,
    count: u64,
) -> Result<FunctionPairs, LogFault>
    ensures { (n : ℕ) → count ≡ line.capped n → Gives (λ ps. (ps, left reader.new)) result
        (recogniser.pairs_from n [] (left reader.old)) }
{
    let _left = reader.bytes.len();
    Ok(FunctionPairs::new(pairs(alloc, reader, count)?))
}

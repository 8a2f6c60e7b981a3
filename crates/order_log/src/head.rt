// The lines of a log before its entries.

ghost use Rattle.std.specs.Prelude.{◌≡◌, ◌≤◌, ◌<◌, ◌*◌, ◌+◌, ◌-◌, ◌^◌, min, codes, option_map, option_and_then, Ok, length};
ghost use Rattle.order_log.specs.Line as line;
ghost use Rattle.order_log.specs.Recogniser as recogniser;
ghost use Rattle.order_log.specs.Recogniser.{Gives, left};

use crate::fault::LogFault;
use crate::hex::bytes_in;
use crate::pairs::function_pairs;
use crate::part::{after_word, number};
use crate::reader::{Reader, next_line};
use crate::version::Version;
use profiles::Profile;
use rr_base::Bytes;
use std::alloc::Global;

fn version_in(line: &[u8]) -> Option<Version>
    ensures { result ≡ recogniser.version_in line.now }
{
    if line == Version::One.line() {
        Some(Version::One)
    } else if line == Version::Two.line() {
        Some(Version::Two)
    } else {
        None
    }
}

/// The first line, which tells what the text is, and in which version.
#[tactic(auto, unfolding(crate::specs::Recogniser::first_line))]
pub fn first_line(reader: &mut Reader) -> Result<Version, LogFault>
    ensures { Gives (λ w. (w, left reader.new)) result
        (recogniser.first_line (left reader.old)) }
{
    let at = reader.line;
    match version_in(next_line(reader)?) {
        Some(version) => Ok(version),
        None => Err(LogFault::LogSyntax(at)),
    }
}

/// The number after a word, alone in its line, where it is from `low` to `high`.
#[tactic(auto, unfolding(crate::specs::Recogniser::numbered))]
pub fn numbered(reader: &mut Reader, word: &[u8], low: u32, high: u32) -> Result<u32, LogFault>
    ensures { Gives (λ n. (n, left reader.new)) result
        (recogniser.numbered word.now low high (left reader.old)) }
{
    let at = reader.line;
    let line = next_line(reader)?;
    let Some(n) = number_after(word, line) else {
        return Err(LogFault::LogSyntax(at));
    };
    if n < u64::from(low) || u64::from(high) < n {
        return Err(LogFault::LogLimit(at));
    }
    Ok(n as u32)
}

fn number_after(word: &[u8], text: &[u8]) -> Option<u64>
    ensures { result ≡ option_map line.capped (option_and_then line.number_in (line.after_word word.now text.now)) }
{
    number(after_word(word, text)?)
}

/// The profile: its line, and a line for each of its pairs.
#[tactic(auto, unfolding(crate::specs::Recogniser::profile_at))]
pub fn profile(alloc: Global, reader: &mut Reader) -> Result<Profile, LogFault>
    ensures { Gives (λ p. (p, left reader.new)) result
        (recogniser.profile_at (left reader.old)) }
{
    let at = reader.line;
    let line = next_line(reader)?;
    if line == b"profile all".as_slice() {
        return Ok(Profile::All);
    }
    let Some(count) = number_after(b"profile ", line) else {
        return Err(LogFault::LogSyntax(at));
    };
    Ok(Profile::Pairs(function_pairs(alloc, reader, count)?))
}

/// The line of so many bytes in hexadecimal digits.
#[tactic(auto, unfolding(crate::specs::Recogniser::input_at))]
pub fn input(alloc: Global, reader: &mut Reader, size: u32) -> Result<Bytes, LogFault>
    requires { size ≤ 1048576 }
    ensures { Gives (λ bytes. (bytes, left reader.new)) result
        (recogniser.input_at size (left reader.old)) }
{
    let at = reader.line;
    let line = next_line(reader)?;
    if line.len() != 2 * size as usize {
        return Err(LogFault::LogSyntax(at));
    }
    match bytes_in(alloc, line)? {
        Some(bytes) => Ok(bytes),
        None => Err(LogFault::LogSyntax(at)),
    }
}

// Reading a whole log.

ghost use Rattle.std.specs.Prelude.{◌≡◌, Result, Ok};
ghost use Rattle.order_log.specs.declared.fault.LogFault.{LogFault};
ghost use Rattle.order_log.specs.Log.{LogView, IsLog, KeepsLimits};
ghost use Rattle.order_log.specs.Reading.{IsAnswer, UnlessMemory};
ghost use Rattle.order_log.specs.Recogniser.{Gives, lines_in, log_at};
ghost use Rattle.order_log.specs.Text.{IsTextOf};

use crate::body::entries;
use crate::fault::LogFault;
use crate::head::{first_line, input, numbered, profile};
use crate::log::Log;
use crate::reader::Reader;
use std::alloc::Global;
use sync_objects::Setup;

// The log that the lines are.
#[tactic(auto, unfolding(crate::specs::Recogniser::log_at))]
fn log_in(alloc: Global, bytes: &[u8]) -> Result<Log, LogFault>
    ensures { Gives (λ v. v) result (log_at (lines_in 1 bytes.now)) }
{
    let mut reader = Reader { bytes, line: 1 };
    let version = first_line(&mut reader)?;
    let slots = numbered(&mut reader, b"slots ", 1, 16)?;
    let cells = numbered(&mut reader, b"cells ", 1024, 131_072)?;
    let limit = numbered(&mut reader, b"limit ", 1, 67_108_864)?;
    let profile = profile(alloc, &mut reader)?;
    let size = numbered(&mut reader, b"input ", 0, 1_048_576)?;
    let input = input(alloc, &mut reader, size)?;
    let setup = Setup::new(slots as u8, cells, limit, input);
    let entries = entries(alloc, &mut reader, version, &setup)?;
    Ok(Log::new(setup, profile, entries))
}

/// The log whose text the bytes are, in version 1 or 2. A refusal tells the first line that spoils them: `LogSyntax` where no
/// log's text begins with the lines up to it, or where it is missing or unfinished, and `LogLimit` where
/// some log's does, but none within the limits.
pub fn read_log(alloc: Global, bytes: &[u8]) -> Result<Log, LogFault>
    // The answer is right.
    ensures answer { UnlessMemory result (IsAnswer bytes.now result) }

    // No other is.
    ensures only { (other : Result LogView LogFault) → IsAnswer bytes.now other
        → UnlessMemory result (result ≡ other) }

    // A log's text in either version is read as that log.
    ensures again { (v : LogView) → IsLog v → KeepsLimits v → IsTextOf bytes.now v
        → UnlessMemory result (result ≡ Ok v) }
{
    log_in(alloc, bytes)
}

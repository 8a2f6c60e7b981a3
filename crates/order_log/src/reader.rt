// A text read line by line.

ghost use Rattle.std.specs.Prelude.{◌≡◌};
ghost use Rattle.order_log.specs.Recogniser as recogniser;
ghost use Rattle.order_log.specs.Recogniser.{Gives, left};

use crate::fault::LogFault;
use crate::part::cut;

/// The bytes that are left of a text, and the number of their first line.
#[derive(Drop)]
pub struct Reader<'a> {
    pub bytes: &'a [u8],
    pub line: u32,
}

/// The next line without its newline. Without a newline it is a fault.
pub fn next_line<'a>(reader: &mut Reader<'a>) -> Result<&'a [u8], LogFault>
    ensures { Gives (λ line. (line.now, left reader.new)) result
        (recogniser.next_line (left reader.old)) }
{
    let Some((line, rest)) = cut(reader.bytes, b'\n') else {
        return Err(LogFault::LogSyntax(reader.line));
    };
    reader.bytes = rest;
    reader.line = reader.line.saturating_add(1);
    Ok(line)
}

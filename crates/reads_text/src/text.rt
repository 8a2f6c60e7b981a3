// The lines of accesses.

ghost use Rattle.std.specs.Prelude.{◌≡◌, ◌∷◌, [], ◌++◌, decimal, IfOk, OnOk};
ghost use Rattle.reads_text.specs.Text as spec;

use itoa::Buffer;
use rr_base::{Bytes, List, push_numbered};
use std::alloc::{AllocError, Global};
use thread_interpreter::Access;

// A number, and a blank after it.
fn push_number(out: &mut Bytes, number: u32) -> Result<(), AllocError>
    ensures { OnOk result (out.new ≡ out.old ++ (decimal number ++ 32 ∷ [])) }
{
    let number = u64::from(number);
    push_numbered(out, b"", number)?;
    out.push(b' ')
}

/// A word as a signed number.
pub fn push_value(out: &mut Bytes, value: u64) -> Result<(), AllocError>
    ensures { OnOk result (out.new ≡ out.old ++ spec.value_text value) }
{
    let mut buffer = Buffer::new();
    out.extend_from_slice(buffer.format(value.cast_signed()).as_bytes())
}

fn push_read(out: &mut Bytes, read: Access) -> Result<(), AllocError>
    ensures { OnOk result (out.new ≡ out.old ++ spec.read_text read) }
{
    push_number(out, u32::from(read.thread))?;
    push_number(out, read.count)?;
    push_number(out, read.cell)?;
    push_value(out, read.value)?;
    out.push(b'\n')
}

/// A line `THREAD COUNT CELL VALUE` for each access, in their order.
pub fn reads_text(alloc: Global, reads: &List<Access>) -> Result<Bytes, AllocError>
    ensures { IfOk result (λ text. text ≡ spec.reads_text_of reads.now) }
{
    let mut out = List::new(alloc);
    for read in reads.as_slice() {
        push_read(&mut out, *read)?;
    }
    Ok(out)
}

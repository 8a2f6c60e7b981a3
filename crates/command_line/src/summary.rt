// What is told of a source that was made, recorded and replayed.

ghost use Rattle.std.specs.Prelude.{◌≡◌, ◌++◌, IfOk, OnOk};
ghost use Rattle.command_line.specs.Answers as spec;

use crate::answer::push_numbered;
use rr_base::{Bytes, List};
use std::alloc::{AllocError, Global};

fn push_made(out: &mut Bytes, count: u32, bytes: u32) -> Result<(), AllocError>
    ensures { OnOk result (out.new ≡ out.old ++ spec.made_line count bytes) }
{
    push_numbered(out, b"made ", count)?;
    push_numbered(out, b" bytes ", bytes)?;
    out.extend_from_slice(b" slots 8\n")
}

/// The text that tells of a made source: how many functions and bytes it has, and then what its recording and its replay
/// printed.
pub fn summary_text(
    alloc: Global,
    count: u32,
    bytes: u32,
    recorded: &[u8],
    replayed: &[u8],
) -> Result<Bytes, AllocError>
    ensures { IfOk result (λ text. text ≡ spec.summary_of count bytes recorded.now replayed.now) }
{
    let mut text = List::new(alloc);
    push_made(&mut text, count, bytes)?;
    text.extend_from_slice(recorded)?;
    text.extend_from_slice(replayed)?;
    Ok(text)
}

// The text of lines.
ghost use Rattle.std.specs.Prelude.{◌≡◌, ◌∷◌, ◌++◌, [], IfOk, OnOk};
ghost use Rattle.listing.specs.Text as listing;

use crate::line::{Line, Shown};
use crate::lines::sorted;
use facts::Pair;
use flow_code::Code;
use rr_base::{Bytes, List, Place, push_numbered};
use std::alloc::{AllocError, Global};
use word_semantics::site_at;

/// A place by the name of its site, and its class.
pub(crate) fn push_place(out: &mut Bytes, code: &Code, place: Place) -> Result<(), AllocError>
    ensures { OnOk result (out.new ≡ out.old ++ listing.place_text code.now place) }
{
    if let Some(site) = site_at(code.sites.as_slice(), place.site) {
        out.extend_from_slice(site.name.as_slice())?;
    }
    push_numbered(out, b"+", u64::from(place.class))
}

/// Whether an access loads or stores, between two blanks.
pub(crate) fn kind(store: bool) -> &'static [u8]
    ensures { result.now ≡ listing.kind_text store }
{
    if store { b" store " } else { b" load " }
}

fn push_shown(out: &mut Bytes, access: Shown) -> Result<(), AllocError>
    ensures { OnOk result (out.new ≡ out.old ++ listing.shown_text access) }
{
    push_numbered(out, kind(access.store), u64::from(access.at.line))?;
    push_numbered(out, b":", u64::from(access.at.column))
}

fn push_line(out: &mut Bytes, code: &Code, line: &Line) -> Result<(), AllocError>
    ensures { OnOk result (out.new ≡ out.old ++ listing.line_text code.now line.now) }
{
    out.extend_from_slice(b"race ")?;
    push_place(out, code, line.place)?;
    push_shown(out, line.first)?;
    push_shown(out, line.second)?;
    out.push(b'\n')
}

fn push_lines(out: &mut Bytes, code: &Code, lines: &[Line]) -> Result<(), AllocError>
    ensures { OnOk result (out.new ≡ out.old ++ listing.lines_text code.now lines.now) }
{
    for line in lines {
        push_line(out, code, line)?;
    }
    Ok(())
}

/// A line `race PLACE KIND LINE:COLUMN KIND LINE:COLUMN` for each pair, in order, and then `races` and their number.
pub fn races_text(alloc: Global, code: &Code, pairs: &[Pair]) -> Result<Bytes, AllocError>
    ensures { IfOk result (λ text. text ≡ listing.races_text_of code.now pairs.now) }
{
    let lines = sorted(alloc, code, pairs)?;
    let mut out = List::new(alloc);
    push_lines(&mut out, code, &lines)?;
    push_numbered(&mut out, b"races ", pairs.len() as u64)?;
    out.push(b'\n')?;
    Ok(out)
}

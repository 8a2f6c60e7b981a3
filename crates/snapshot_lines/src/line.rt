// The lines of a checkpoint, one by one.
ghost use Rattle.std.specs.Prelude.{◌≡◌, IfOk};
ghost use Rattle.snapshots.specs.Text as text;
ghost use Rattle.snapshot_lines.specs.Fields.{fields_of, fields_left};
ghost use Rattle.snapshot_lines.specs.Lines as lines;
ghost use Rattle.snapshot_lines.specs.Lines.{ReadsAs, IsAny};

use crate::fields::Fields;
use order_log::{cut, number, object_in};
use rr_base::List;
use std::alloc::{AllocError, Global};
use sync_objects::ObjId;
use thread_interpreter::{FramePart, RegionPart, StripePart};

/// A cell and its word.
pub fn cell_in(line: &[u8]) -> Option<(u32, u64)>
    ensures { ReadsAs lines.IsCell text.cell_line lines.clipped_cell line.now result }
{
    let mut fields = Fields::of(line);
    let cell = fields.take_u32()?;
    let word = fields.take_value()?;
    if !fields.is_over() {
        return None;
    }
    Some((cell, word))
}

/// An object, how many operations it had, and its state.
pub fn object_line_in(line: &[u8]) -> Option<(ObjId, u32, u32)>
    ensures { ReadsAs IsAny text.object_line lines.clipped_entry line.now result }
{
    let mut fields = Fields::of(line);
    let object = object_in(fields.take()?)?;
    let operations = fields.take_u32()?;
    let state = fields.take_u32()?;
    if !fields.is_over() {
        return None;
    }
    Some((object, operations, state))
}

// Whether a stripe is owed, by the first word of its line.
fn is_owed(word: &[u8]) -> Option<bool>
    ensures { lines.IsStripeWord word.now result }
{
    if word == b"owed".as_slice() {
        Some(true)
    } else if word == b"held".as_slice() {
        Some(false)
    } else {
        None
    }
}

/// A stripe that is held or owed.
pub fn stripe_in(line: &[u8]) -> Option<StripePart>
    ensures { ReadsAs IsAny text.stripe_line lines.clipped_stripe line.now result }
{
    let mut fields = Fields::of(line);
    let owed = is_owed(fields.take()?)?;
    let lock = fields.take_u16()?;
    let stripe = fields.take_u8()?;
    let nesting = fields.take_u32()?;
    if !fields.is_over() {
        return None;
    }
    Some(StripePart {
        lock,
        stripe,
        owed,
        nesting,
    })
}

// The words that are left of a line.
fn values(alloc: Global, rest: Fields) -> Result<Option<List<u64>>, AllocError>
    ensures { IfOk result (lines.AreValues (fields_left rest.entry.rest)) }
{
    let mut fields = rest;
    let mut found = List::new(alloc);
    while !fields.is_over() {
        let Some(value) = fields.take_value() else {
            return Ok(None);
        };
        found.push(value)?;
    }
    Ok(Some(found))
}

// What stands in the line of a frame before its registers.
fn frame_start(fields: &mut Fields) -> Option<(u32, u32, u8, u64)>
    ensures { lines.StartsFrame (fields_left fields.old.rest) result (fields_left fields.new.rest) }
{
    if !fields.take_word(b"frame") {
        return None;
    }
    let function = fields.take_u32()?;
    let instr = fields.take_u32()?;
    let made = fields.take_u8()?;
    let kept = fields.take_value()?;
    Some((function, instr, made, kept))
}

// The frame that begins so, with the words that are left of its line as registers.
fn frame_with(
    alloc: Global,
    start: (u32, u32, u8, u64),
    rest: Fields,
) -> Result<Option<FramePart>, AllocError>
    ensures { IfOk result (lines.IsFrameWith start (fields_left rest.entry.rest)) }
{
    match values(alloc, rest)? {
        Some(registers) => Ok(Some(FramePart {
            function: start.0,
            instr: start.1,
            made: start.2,
            kept: start.3,
            registers,
        })),
        None => Ok(None),
    }
}

/// A frame.
pub fn frame_in(alloc: Global, line: &[u8]) -> Result<Option<FramePart>, AllocError>
    ensures { IfOk result (ReadsAs lines.IsFrame text.frame_line lines.clipped_frame line.now) }
{
    let mut fields = Fields::of(line);
    match frame_start(&mut fields) {
        Some(start) => frame_with(alloc, start, fields),
        None => Ok(None),
    }
}

// A lock and a stripe, with a point between them.
fn pair_in(field: &[u8]) -> Option<(u16, u8)>
    ensures { ReadsAs IsAny text.pair_text lines.clipped_pair field.now result }
{
    let (lock, stripe) = cut(field, b'.')?;
    let lock = number(lock)?.min(65_535) as u16;
    let stripe = number(stripe)?.min(255) as u8;
    Some((lock, stripe))
}

// The next field as a lock and a stripe.
fn take_pair(fields: &mut Fields) -> Option<(u16, u8)>
    ensures { lines.TakesPair (fields_left fields.old.rest) result (fields_left fields.new.rest) }
{
    pair_in(fields.take()?)
}

// The stripes that are left of a line.
fn pairs(alloc: Global, rest: Fields) -> Result<Option<List<(u16, u8)>>, AllocError>
    ensures { IfOk result (lines.ArePairs (fields_left rest.entry.rest)) }
{
    let mut fields = rest;
    let mut found = List::new(alloc);
    while !fields.is_over() {
        let Some(pair) = take_pair(&mut fields) else {
            return Ok(None);
        };
        found.push(pair)?;
    }
    Ok(Some(found))
}

// What stands in the line of a region before its stripes.
fn region_start(fields: &mut Fields) -> Option<(u32, u32)>
    ensures { lines.StartsRegion (fields_left fields.old.rest) result (fields_left fields.new.rest) }
{
    if !fields.take_word(b"region") {
        return None;
    }
    let frame = fields.take_u32()?;
    let instr = fields.take_u32()?;
    Some((frame, instr))
}

// The region that begins so, with the pairs that are left of its line as stripes.
fn region_with(
    alloc: Global,
    start: (u32, u32),
    rest: Fields,
) -> Result<Option<RegionPart>, AllocError>
    ensures { IfOk result (lines.IsRegionWith start (fields_left rest.entry.rest)) }
{
    match pairs(alloc, rest)? {
        Some(stripes) => Ok(Some(RegionPart {
            frame: start.0,
            instr: start.1,
            stripes,
        })),
        None => Ok(None),
    }
}

/// An open region.
pub fn region_in(alloc: Global, line: &[u8]) -> Result<Option<RegionPart>, AllocError>
    ensures { IfOk result (ReadsAs IsAny text.region_line lines.clipped_region line.now) }
{
    let mut fields = Fields::of(line);
    match region_start(&mut fields) {
        Some(start) => region_with(alloc, start, fields),
        None => Ok(None),
    }
}

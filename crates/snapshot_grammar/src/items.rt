// The parts of a checkpoint that have a line each.

ghost use Rattle.std.proofs.Common.{rules};
ghost use Rattle.snapshots.specs.Text as text;
ghost use Rattle.snapshot_lines.specs.Lines as lines;
ghost use Rattle.snapshot_grammar.specs.Blanks as blanks;
ghost use Rattle.sync_objects.specs.declared.object.ObjId.TheVariants as object;

use crate::lined::Lined;
use snapshot_lines::{cell_in, frame_in, head_in, object_line_in, region_in, stripe_in};
use snapshots::Head;
use std::alloc::{AllocError, Global};
use sync_objects::ObjId;
use thread_interpreter::{FramePart, RegionPart, StripePart};

impl Lined for (u32, u64) {
    ghost stands = { lines.IsCell };

    ghost line = { text.cell_line };

    ghost clip = { lines.clipped_cell };

    ghost some = { (0, 0) };

    fn read(_alloc: Global, text: &[u8]) -> Result<Option<(u32, u64)>, AllocError> {
        Ok(cell_in(text))
    }

    ghost some_stands = { Prim.search rules };
}

impl Lined for (ObjId, u32, u32) {
    ghost stands = { lines.IsAny };

    ghost line = { text.object_line };

    ghost clip = { lines.clipped_entry };

    ghost some = { (object.Threads, 0, 0) };

    fn read(_alloc: Global, text: &[u8]) -> Result<Option<(ObjId, u32, u32)>, AllocError> {
        Ok(object_line_in(text))
    }

    ghost some_stands = { tt };
}

impl Lined for Head {
    ghost stands = { lines.IsAny };

    ghost line = { text.head_line };

    ghost clip = { lines.clipped_head };

    ghost some = { blanks.blank_head };

    fn read(_alloc: Global, text: &[u8]) -> Result<Option<Head>, AllocError> {
        Ok(head_in(text))
    }

    ghost some_stands = { tt };
}

impl Lined for FramePart {
    ghost stands = { lines.IsFrame };

    ghost line = { text.frame_line };

    ghost clip = { lines.clipped_frame };

    ghost some = { blanks.blank_frame };

    fn read(alloc: Global, text: &[u8]) -> Result<Option<FramePart>, AllocError> {
        frame_in(alloc, text)
    }

    ghost some_stands = { Prim.search rules };
}

impl Lined for StripePart {
    ghost stands = { lines.IsAny };

    ghost line = { text.stripe_line };

    ghost clip = { lines.clipped_stripe };

    ghost some = { blanks.blank_stripe };

    fn read(_alloc: Global, text: &[u8]) -> Result<Option<StripePart>, AllocError> {
        Ok(stripe_in(text))
    }

    ghost some_stands = { tt };
}

impl Lined for RegionPart {
    ghost stands = { lines.IsAny };

    ghost line = { text.region_line };

    ghost clip = { lines.clipped_region };

    ghost some = { blanks.blank_region };

    fn read(alloc: Global, text: &[u8]) -> Result<Option<RegionPart>, AllocError> {
        region_in(alloc, text)
    }

    ghost some_stands = { tt };
}

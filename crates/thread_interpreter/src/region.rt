// One open region of a thread.
use std::marker::Model;

/// A region that is open: the frame and the Take that opened it, and its stripes.
#[derive(Drop)]
pub(crate) struct OpenRegion {
    pub(crate) frame: usize,
    pub(crate) instr: usize,
    pub(crate) stripes: Vec<(u16, u8)>,
}

impl Model for OpenRegion {
    ghost use Rattle.flow_code.specs.Threads.{OpenRegion as RegionView};

    ghost Value = { RegionView };

    ghost view = { λ r. record { frame = r.frame; instr = r.instr; stripes = r.stripes.items } };
}

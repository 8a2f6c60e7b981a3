ghost use Rattle.std.specs.Prelude.{◌≡◌, ◌≤◌, length};
ghost use Rattle.sync_objects.specs.Setup.{SetupView, IsWithinLimits};

use rr_base::Bytes;
use std::marker::Model;

/// What a run is set up with: its threads' slots, the cells of each slot's arena, the greatest number of events
/// of one thread, and the input's bytes. Its numbers are within their limits: 1 to 16 slots, 1,024 to 131,072
/// cells, 1 to 67,108,864 events, at most 1,048,576 bytes.
#[derive(Debug, Drop)]
pub struct Setup {
    slots: u8,
    cells: u32,
    limit: u32,
    input: Bytes,
}

impl Model for Setup {
    ghost use Rattle.sync_objects.specs.Setup.{SetupView, IsWithinLimits};

    ghost Value = { SetupView };

    ghost view = { λ s. record { slots = s.slots; cells = s.cells; limit = s.limit; input = s.input } };

    ghost invariant = { λ s. IsWithinLimits (record { slots = s.slots; cells = s.cells; limit = s.limit; input = s.input }) };
}

impl Setup {
    /// A setup of these numbers and bytes.
    pub fn new(slots: u8, cells: u32, limit: u32, input: Bytes) -> Setup
        requires { IsWithinLimits (record { slots = slots; cells = cells; limit = limit; input = input }) }
        ensures { result ≡ record { slots = slots; cells = cells; limit = limit; input = input } }
    {
        Setup {
            slots,
            cells,
            limit,
            input,
        }
    }

    /// The number of slots. That the setup is within its limits is told here too.
    pub fn slots(&self) -> u8
        ensures value { result ≡ self.now.slots }
        ensures within { IsWithinLimits self.now }
    {
        self.slots
    }

    /// How many global cells there are.
    pub fn cells(&self) -> u32
        ensures value { result ≡ self.now.cells }
        ensures within { IsWithinLimits self.now }
    {
        self.cells
    }

    /// How many entries a thread's list may have.
    pub fn limit(&self) -> u32
        ensures value { result ≡ self.now.limit }
        ensures within { IsWithinLimits self.now }
    {
        self.limit
    }

    /// The input. That the setup is within its limits is told here too.
    pub fn input(&self) -> &Bytes
        ensures value { result.now ≡ self.now.input }
        ensures within { IsWithinLimits self.now }
    {
        &self.input
    }

    /// How many bytes the input has.
    pub fn input_len(&self) -> u32
        ensures { result ≡ length self.now.input }
    {
        self.input.len() as u32
    }
}

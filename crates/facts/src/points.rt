ghost use Rattle.std.specs.Prelude.{◌≡◌, ◌+◌, ◌-◌, ◌<◌, ◌≤◌, [], length, slice_index_or};
ghost use Rattle.facts.specs.PointsTo.{Tables, list_at};

use rr_base::{List, Place};
use std::marker::Model;

/// To which places each register of a code, and the cells of each of its places, may point.
#[derive(Debug, Drop)]
pub struct PointsTo {
    registers: List<List<List<Place>>>,
    cells: List<List<List<Place>>>,
}

impl Model for PointsTo {
    ghost use Rattle.facts.specs.PointsTo.{Tables};

    ghost Value = { Tables };

    ghost view = { λ p. record { registers = p.registers; cells = p.cells } };
}

impl PointsTo {
    /// Lists by function and register, and by site, the first of which has number 1, and class.
    pub fn new(registers: List<List<List<Place>>>, cells: List<List<List<Place>>>) -> PointsTo
        ensures { result ≡ record { registers = registers; cells = cells } }
    {
        PointsTo { registers, cells }
    }

    /// The places to which a register may point, by site and class.
    pub fn of_register(&self, function: u32, register: u32) -> &List<Place>
        requires function { function < length self.now.registers }
        requires register { register < length (slice_index_or self.now.registers function []) }
        ensures { result.now ≡ list_at self.now.registers function register }
    {
        &self.registers.as_slice()[function as usize].as_slice()[register as usize]
    }

    /// The places to which the cells of a place may point, by site and class.
    pub fn of_place(&self, place: Place) -> &List<Place>
        requires first { 1 ≤ place.site }
        requires site { place.site ≤ length self.now.cells }
        requires class { place.class < length (slice_index_or self.now.cells (place.site - 1) []) }
        ensures { result.now ≡ list_at self.now.cells (place.site - 1) place.class }
    {
        &self.cells.as_slice()[place.site as usize - 1].as_slice()[place.class as usize]
    }
}

// What a seat knows, and what the table is told.
use flow_code::Code;
use std::marker::Model;
use sync_objects::Setup;

/// What a seat knows. No value of it is made.
pub struct View {
    nothing: u8,
}

impl Model for View {
    ghost use Rattle.shared_cells.specs.Views.{SeatView, nobody};

    ghost Value = { SeatView };

    ghost view = { λ _. nobody };
}

/// What the table is told when it is made.
#[derive(Drop)]
pub struct TableInput<'a> {
    pub code: &'a Code,
    pub setup: &'a Setup,
}

impl<'a> Model for TableInput<'a> {
    ghost use Rattle.shared_cells.specs.Rule.{Knowledge};

    ghost Value = { Knowledge };

    ghost view = { λ k. record { code = k.code.now; setup = k.setup.now } };
}

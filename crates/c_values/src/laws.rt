//! The law of commas.
ghost use Rattle.c_values.specs.Turns.{CommasGoInTurn};

/// Expressions with commas between them are computed one after another, and the last one's value is the whole's.
pub fn law_commas()
    ensures { CommasGoInTurn }
{}

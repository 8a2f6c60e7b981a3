use std::marker::Brand;

/// The jobs that a crew was given. Each run has its own.
pub(crate) trait Given<J> {
    ghost use Rattle.std.specs.Prelude.{List};

    ghost given: { List J };
}

impl<J> Given<J> for Brand {
    ghost use Rattle.std.specs.Prelude.{[]};

    ghost given = { [] };
}

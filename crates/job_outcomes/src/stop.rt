// Why a job stops.

ghost use Rattle.std.specs.Prelude.{◌≡◌};
ghost use Rattle.job_outcomes.specs.declared.stop.Stop.TheVariants as stop;
ghost use Rattle.job_outcomes.specs.Ends.{stop_of};

use command_line::Answer;
use rr_base::ShelfEnd;
use std::alloc::AllocError;

/// Why a job ends before it has an outcome of its own.
#[derive(Debug, Drop)]
pub enum Stop {
    /// What was read is refused, by this answer.
    Refused(Answer),
    /// A fault of the shelf, which its count of faults shows too.
    ShelfFailed,
    /// A fault of the input, which its count of faults shows too.
    InputFailed,
    /// A fault of the crew, which its count of faults shows too.
    CrewFailed,
    OutOfMemory,
}

impl From<AllocError> for Stop {
    ghost from_gives = { λ _ end. end ≡ stop.OutOfMemory };

    fn from(_error: AllocError) -> Stop {
        Stop::OutOfMemory
    }
}

impl From<ShelfEnd> for Stop {
    ghost from_gives = { λ end stops. stops ≡ stop_of end };

    fn from(end: ShelfEnd) -> Stop {
        match end {
            ShelfEnd::Failed => Stop::ShelfFailed,
            ShelfEnd::OutOfMemory => Stop::OutOfMemory,
        }
    }
}
